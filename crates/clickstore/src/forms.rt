// The forms of the words of the command line.
use identity::Version;
use manifests::{AGE_DIGIT_LIMIT, UrlFault, target_of};
use small_types::limits::{
    BLOCK_LIMIT, HALF_LEAST, HALF_LIMIT, HALF_STEP, NAME_LIMIT, NUMBER_LIMIT,
};
use small_types::{is_name, read_decimal};
use std::alloc::Global;

const FILE: &str =
    "a path as a/b.txt, at most 240 bytes, without ':' and parts that are empty, '.' or '..'";

// A form.
#[derive(Clone, Copy)]
pub(crate) enum Form {
    Blocks,
    Half,
    Number,
    Kind,
    Product,
    Version,
    File,
    Publisher,
    Group,
    Check,
    Address,
    Mark,
}

fn is_number(word: &str, least: u64, most: u64) -> bool {
    match read_decimal(word.as_bytes()) {
        Some(number) => least <= number && number <= most,
        None => false,
    }
}

// Whether it is a length that a half of a journal may have.
fn is_half(word: &str) -> bool {
    match read_decimal(word.as_bytes()) {
        Some(half) => HALF_LEAST <= half && half <= HALF_LIMIT && half % HALF_STEP == 0,
        None => false,
    }
}

// Whether a manifest may have the byte.
fn is_allowed(byte: u8) -> bool {
    byte >= 32 || byte == b'\t' || byte == b'\n' || byte == b'\r'
}

fn is_content(word: &str) -> bool {
    word.as_bytes().iter().all(|b| is_allowed(*b))
}

// Whether it is a text as long as a name may be.
fn is_short(word: &str) -> bool {
    word.len() <= NAME_LIMIT && is_content(word)
}

fn is_unit(letter: u8) -> bool {
    letter == b'h' || letter == b'd' || letter == b'w'
}

// Whether it is a number of hours, days or weeks.
fn is_age(word: &str) -> bool {
    match word.as_bytes().split_last() {
        Some((letter, digits)) => {
            is_unit(*letter) && digits.len() <= AGE_DIGIT_LIMIT && read_decimal(digits).is_some()
        }
        None => false,
    }
}

// Whether it is surely no address.
fn is_no_address(alloc: Global, word: &str) -> bool {
    match target_of(alloc, word.as_bytes()) {
        Ok(_) | Err(UrlFault::Memory) => false,
        Err(_) => true,
    }
}

// The file of a mark of a data file.
pub(crate) fn data_mark(word: &str) -> Option<&str> {
    word.strip_prefix("data:")
}

// The group and the file of a mark of an optional file.
pub(crate) fn group_mark(word: &str) -> Option<(&str, &str)> {
    word.strip_prefix("group:")?.rsplit_once(':')
}

impl Form {
    // Whether the word surely does not have the form. Where there is no memory to tell, it may have
    // it.
    pub(crate) fn is_missed(self, alloc: Global, word: &str) -> bool {
        match self {
            Form::Blocks => !is_number(word, 1, BLOCK_LIMIT),
            Form::Half => !is_half(word),
            Form::Number => !is_number(word, 0, NUMBER_LIMIT),
            Form::Kind => word != "deployment" && word != "application",
            Form::Product | Form::Publisher => !is_short(word),
            Form::Version => Version::read(word.as_bytes()).is_err(),
            Form::File => !is_name(word.as_bytes()),
            Form::Group => word.is_empty() || !is_short(word),
            Form::Check => word != "none" && word != "before" && !is_age(word),
            Form::Address => !is_content(word) || is_no_address(alloc, word),
            Form::Mark => data_mark(word).is_none() && group_mark(word).is_none(),
        }
    }

    // What a word of the form is.
    pub(crate) fn noun(self) -> &'static str {
        match self {
            Form::Blocks => "number of blocks",
            Form::Half => "length of a half",
            Form::Number => "number",
            Form::Kind => "kind of manifest",
            Form::Product => "name",
            Form::Version => "version",
            Form::File => "file name",
            Form::Publisher => "publisher",
            Form::Group => "group",
            Form::Check => "check",
            Form::Address => "address",
            Form::Mark => "mark",
        }
    }

    // What it has to be.
    pub(crate) fn wanted(self) -> &'static str {
        match self {
            Form::Blocks => "1 to 1048576",
            Form::Half => "1048576 to 67108864 in steps of 4096",
            Form::Number => "1 to 19 digits, at most 4611686018427387904",
            Form::Kind => "deployment or application",
            Form::Product => "1 to 100 letters, digits, '.', '_', '-' and spaces",
            Form::Version => "four numbers, as 1.0.0.0",
            Form::File => FILE,
            Form::Publisher => "at most 240 bytes of text without control characters",
            Form::Group => "1 to 240 bytes of text without control characters",
            Form::Check => "none, before, or 1 to 9 digits and h, d or w, as 12h",
            Form::Address => "http://HOST/.., at most 2048 bytes",
            Form::Mark => "data:FILE or group:GROUP:FILE",
        }
    }
}
