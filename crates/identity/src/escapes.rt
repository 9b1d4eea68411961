// Which bytes are escaped.
use percent_encoding::{AsciiSet, NON_ALPHANUMERIC, ascii_set};

// What a part of a key escapes: each byte but letters, digits, `-`, `.`, `_` and `~`.
pub(crate) const PART_ESCAPES: AsciiSet = ascii_set!(
    NON_ALPHANUMERIC
        .remove(b'-')
        .remove(b'.')
        .remove(b'_')
        .remove(b'~')
);

// What another word escapes: it keeps `/` too.
pub(crate) const WORD_ESCAPES: AsciiSet = ascii_set!(PART_ESCAPES.remove(b'/'));
