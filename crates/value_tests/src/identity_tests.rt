// Tests of versions and keys.
use identity::{Identity, Key, KeyFault, Version, VersionFault, word_escape};
use small_types::{Duplicate, Text};
use std::alloc::{AllocError, Global};
use std::cmp::Ordering;
use std::test::Fail;

fn version(a: u16, b: u16, c: u16, d: u16) -> Version {
    Version { a, b, c, d }
}

// The parts of the version that a text is.
fn parts(text: &str) -> Result<[u16; 4], VersionFault> {
    let read = Version::read(text.as_bytes())?;
    Ok([read.a, read.b, read.c, read.d])
}

const TEXTS: &[(&str, Result<[u16; 4], VersionFault>)] = &[
    ("1.2.3.4", Ok([1, 2, 3, 4])),
    ("01.0.0.0", Ok([1, 0, 0, 0])),
    ("1.2.3.65535", Ok([1, 2, 3, 65_535])),
    ("00000.1.2.3", Ok([0, 1, 2, 3])),
    // The parts are counted first.
    ("", Err(VersionFault::PartCount)),
    ("1.2.3", Err(VersionFault::PartCount)),
    ("1.2.3.4.5", Err(VersionFault::PartCount)),
    ("a.b", Err(VersionFault::PartCount)),
    // The first bad part is named.
    ("1.2.3.65536", Err(VersionFault::TooLarge { part: 4 })),
    ("123456.0.0.0", Err(VersionFault::TooLarge { part: 1 })),
    ("000001.0.0.0", Err(VersionFault::TooLarge { part: 1 })),
    ("1.99999.x.0", Err(VersionFault::TooLarge { part: 2 })),
    ("1..0.0", Err(VersionFault::NotDigits { part: 2 })),
    ("+1.0.0.0", Err(VersionFault::NotDigits { part: 1 })),
    ("1.0.0.", Err(VersionFault::NotDigits { part: 4 })),
];

#[test]
fn versions_are_read(rt: HostRuntime) {
    for (text, wanted) in TEXTS {
        assert!(rt; parts(text) == *wanted, "{text}");
    }
}

// Whether the version is printed as that text, and written in front of what a buffer has.
fn prints(alloc: Global, version: Version, text: &str) -> Result<bool, Fail> {
    let mut out = [b'x'; 23];
    let n = version.write(&mut out);
    let (written, rest) = out.split_at(n.min(23));
    Ok(
        version.print(alloc)?.as_str() == text
            && same(written, text.as_bytes())
            && rest.iter().all(|byte| *byte == b'x'),
    )
}

fn same(a: &[u8], b: &[u8]) -> bool {
    a == b
}

// Whether a version that is read from the text is printed as the other one.
fn prints_read(alloc: Global, text: &[u8], printed: &str) -> Result<bool, Fail> {
    match Version::read(text) {
        Ok(version) => prints(alloc, version, printed),
        Err(_) => Ok(false),
    }
}

const PRINTED: &[(&[u8], &str)] = &[
    (b"01.0.0.0", "1.0.0.0"),
    (b"65535.65535.65535.65535", "65535.65535.65535.65535"),
];

#[test]
fn versions_are_printed(rt: HostRuntime) -> Result<(), Fail> {
    for (text, printed) in PRINTED {
        assert!(rt; prints_read(rt.alloc(), text, printed)?, "{printed}");
    }
    Ok(())
}

const SMALL: Version = Version {
    a: 1,
    b: 2,
    c: 9,
    d: 9,
};

const LARGE: Version = Version {
    a: 1,
    b: 3,
    c: 0,
    d: 0,
};

// Whether the first is below the second, as is wanted, and that is the greater of both.
fn is_ordered(one: Version, other: Version, below: bool, greater: Version) -> bool {
    one.is_below(&other) == below && one.greater(other) == greater
}

#[test]
fn versions_are_ordered_from_the_left(rt: HostRuntime) {
    assert!(rt; is_ordered(SMALL, LARGE, true, LARGE));
    assert!(rt; is_ordered(LARGE, SMALL, false, LARGE));
    assert!(rt; is_ordered(SMALL, SMALL, false, SMALL));
}

fn text(alloc: Global, from: &str) -> Result<Text, AllocError> {
    Ok(Text::from_string(String::from_str(alloc, from)?))
}

fn key(
    alloc: Global,
    name: &str,
    token: &str,
    language: &str,
    architecture: &str,
) -> Result<Key, AllocError> {
    Ok(Key {
        name: text(alloc, name)?,
        token: text(alloc, token)?,
        language: text(alloc, language)?,
        architecture: text(alloc, architecture)?,
    })
}

// The name, token, language and architecture of a key, and its text.
type Printed = (
    &'static str,
    &'static str,
    &'static str,
    &'static str,
    &'static str,
);

const KEYS: &[Printed] = &[
    (
        "demo.application",
        "0000000000000000",
        "neutral",
        "msil",
        "demo.application,0000000000000000,neutral,msil",
    ),
    (
        "a b/c,d%e\u{e9}",
        "~-._",
        "x",
        "y",
        "a%20b%2Fc%2Cd%25e%C3%A9,~-._,x,y",
    ),
];

// Whether the key is printed as that text and read back from it.
fn goes_round(alloc: Global, key: &Key, wanted: &str) -> Result<bool, Fail> {
    let printed = key.print(alloc)?;
    Ok(printed.as_str() == wanted && &Key::read(alloc, printed.as_bytes())? == key)
}

fn is_printed(alloc: Global, printed: &Printed) -> Result<bool, Fail> {
    let (name, token, language, architecture, wanted) = printed;
    let key = key(alloc, name, token, language, architecture)?;
    let is = goes_round(alloc, &key, wanted);
    drop(key);
    is
}

#[test]
fn keys_are_printed(rt: HostRuntime) -> Result<(), Fail> {
    for (number, printed) in KEYS.iter().enumerate() {
        assert!(rt; is_printed(rt.alloc(), printed)?, "{number}");
    }
    Ok(())
}

// Texts, and how a key's text compares with each.
const COMPARED: &[(&[u8], Ordering)] = &[
    (b"a%20b,t,l,%C3%A9", Ordering::Equal),
    (b"a%20b,t,l,%C3%A9x", Ordering::Less),
    (b"a%20b,t,l,%C3%A8", Ordering::Greater),
    (b"a b,t,l,%C3%A9", Ordering::Greater),
    (b"a%20b,t,l,%c3%a9", Ordering::Less),
    (b"a%20b,t", Ordering::Greater),
    (b"a%20b-", Ordering::Less),
    (b"", Ordering::Greater),
];

// The number of the first text with which the key's text compares otherwise.
fn first_other(key: &Key) -> Option<usize> {
    for (number, (text, wanted)) in COMPARED.iter().enumerate() {
        let is_equal = *wanted == Ordering::Equal;
        if key.cmp_printed(text) != *wanted || key.is_printed(text) != is_equal {
            return Some(number);
        }
    }
    None
}

#[test]
fn texts_of_keys_are_compared(rt: HostRuntime) -> Result<(), Fail> {
    let odd = key(rt.alloc(), "a b", "t", "l", "\u{e9}")?;
    let other = first_other(&odd);
    drop(odd);
    assert!(rt; other.is_none());
    Ok(())
}

// Whether escapes with letters of either case are read as those parts.
fn is_unescaped(alloc: Global) -> Result<bool, Fail> {
    let wanted = key(alloc, "a/b\u{e9}", "%zz", "%", "c%4")?;
    let lower = Key::read(alloc, b"a%2fb%c3%a9,%zz,%,c%4")?;
    Ok(lower == wanted)
}

// Whether a key with that token is said to be one.
fn is_key(alloc: Global, token: &str) -> Result<bool, AllocError> {
    Ok(key(alloc, "a", token, "c", "d")?.is_key())
}

#[test]
fn keys_are_told(rt: HostRuntime) -> Result<(), Fail> {
    assert!(rt; is_unescaped(rt.alloc())?);
    assert!(rt; is_key(rt.alloc(), "b")?);
    assert!(rt; !is_key(rt.alloc(), "")?);
    Ok(())
}

#[test]
fn words_keep_the_slash(rt: HostRuntime) -> Result<(), Fail> {
    let word = word_escape(rt.alloc(), b"dir/a b\xff")?;
    assert!(rt; word.as_str() == "dir/a%20b%FF");
    Ok(())
}

fn fault_of(alloc: Global, word: &[u8]) -> Option<KeyFault> {
    Key::read(alloc, word).err()
}

const NO_KEYS: &[(&[u8], KeyFault)] = &[
    (b"a,b,c", KeyFault::PartCount),
    (b"a,b,c,d,e", KeyFault::PartCount),
    (b"", KeyFault::PartCount),
    (b"a,,c,d", KeyFault::BadPart { part: 2 }),
    (b"a,,%ff,", KeyFault::BadPart { part: 2 }),
    (b"%ff,b,c,d", KeyFault::BadPart { part: 1 }),
    (b"a,b,c,", KeyFault::BadPart { part: 4 }),
];

#[test]
fn other_words_are_no_keys(rt: HostRuntime) {
    for (number, (word, fault)) in NO_KEYS.iter().enumerate() {
        assert!(rt; fault_of(rt.alloc(), word) == Some(*fault), "{number}");
    }
}

// What is wrong with a word of these texts and so many times a byte between them, if it is no key.
fn fault_of_long(
    alloc: Global,
    first: &[u8],
    byte: u8,
    count: usize,
    last: &[u8],
) -> Result<Option<KeyFault>, AllocError> {
    let mut word = first.to_vec(alloc)?;
    word.extend_from_slice(&vec![in alloc; byte; count]?)?;
    word.extend_from_slice(last)?;
    Ok(fault_of(alloc, &word))
}

// What stands before and behind so many times a byte, and the fault.
type Limit = (&'static [u8], u8, usize, &'static [u8], Option<KeyFault>);

const LIMITS: &[Limit] = &[
    (b"", b'n', 240, b",t,l,a", None),
    (
        b"",
        b'n',
        241,
        b",t,l,a",
        Some(KeyFault::BadPart { part: 1 }),
    ),
    (b"n,t,l,", b'a', 64, b"", None),
    (
        b"n,t,l,",
        b'a',
        65,
        b"",
        Some(KeyFault::BadPart { part: 4 }),
    ),
];

#[test]
fn parts_have_limits(rt: HostRuntime) -> Result<(), Fail> {
    for (first, byte, count, last, wanted) in LIMITS {
        let fault = fault_of_long(rt.alloc(), first, *byte, *count, last)?;
        assert!(rt; fault == *wanted, "{count}");
    }
    Ok(())
}

fn is_copied(alloc: Global) -> Result<bool, Fail> {
    let key = key(alloc, "n", "t", "l", "a")?;
    let first = Identity {
        kind: text(alloc, "win32")?,
        version: version(1, 2, 3, 4),
        key,
    };
    Ok(first.copy(alloc)? == first)
}

#[test]
fn identities_are_copied(rt: HostRuntime) -> Result<(), Fail> {
    assert!(rt; is_copied(rt.alloc())?);
    Ok(())
}
