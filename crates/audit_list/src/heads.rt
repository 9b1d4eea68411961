// The first line of a list.
ghost use Rattle.std.specs.Prelude.{◌≡◌};
ghost use Rattle.small_types.specs.Cuts.{parts_between};
ghost use Rattle.audit_list.specs.Words.{head_of};

use crate::numbers::read_number;
use crate::parts::two_parts;

/// How many lines follow, as the first line says it.
pub(crate) fn read_head(line: &[u8]) -> Option<u64>
    ensures { result ≡ head_of (parts_between 32 line.now) }
{
    let (word, count) = two_parts(line, b' ')?;
    if word != b"audit".as_slice() {
        return None;
    }
    read_number(count)
}
