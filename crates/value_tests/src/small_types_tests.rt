// What no clause says of values: that calls succeed, and worked values.
use small_types::{Duplicate, List, Name, NameFault, Target, Text, is_name, read_decimal};
use std::alloc::{AllocError, Global};
use std::test::Fail;

// Whether the bytes are read as a name, with that text, or are none.
fn is_read(alloc: Global, bytes: &[u8], wanted: Option<&str>) -> bool {
    match (Name::read(alloc, bytes), wanted) {
        (Ok(name), Some(text)) => is_name(bytes) && name.as_str() == text,
        (Err(fault), None) => !is_name(bytes) && fault == NameFault::Bad,
        _ => false,
    }
}

// Bytes, and the name that they are, if they are one.
const NAMES: &[(&[u8], Option<&str>)] = &[
    (b"a", Some("a")),
    (b"en\\app.dll", Some("en/app.dll")),
    (b"en/app.dll", Some("en/app.dll")),
    (b".pre/x", Some(".pre/x")),
    (b"...", Some("...")),
    (b"a b~\xc3\xa9", Some("a b~\u{e9}")),
    (b"", None),
    (b".", None),
    (b"..", None),
    (b"a/../b", None),
    (b"a\\..", None),
    (b"./a", None),
    (b"/a", None),
    (b"a/", None),
    (b"a\\", None),
    (b"a//b", None),
    (b"a:b", None),
    (b"a\x1f", None),
    (b"a\x7f", None),
    (b"a\xff", None),
];

#[test]
fn names_are_read(rt: HostRuntime) {
    for (number, (bytes, wanted)) in NAMES.iter().enumerate() {
        assert!(rt; is_read(rt.alloc(), bytes, *wanted), "{number}");
    }
}

// Whether so many bytes are a name.
fn is_name_of(alloc: Global, length: usize) -> Result<bool, AllocError> {
    let long = vec![in alloc; b'n'; length]?;
    Ok(match Name::read(alloc, &long) {
        Ok(name) => same(name.as_bytes(), &long),
        Err(_) => false,
    })
}

fn same(a: &[u8], b: &[u8]) -> bool {
    a == b
}

#[test]
fn names_have_a_limit(rt: HostRuntime) -> Result<(), Fail> {
    assert!(rt; is_name_of(rt.alloc(), 240)?);
    assert!(rt; !is_name_of(rt.alloc(), 241)?);
    Ok(())
}

// Whether the name, and a copy of it, are said to stand below `.pre`, as is wanted.
fn is_told(alloc: Global, text: &str, wanted: bool) -> Result<bool, Fail> {
    let name = Name::read(alloc, text.as_bytes())?;
    let copied = name.copy(alloc)?;
    Ok(name.is_below_pre() == wanted && copied == name)
}

const BELOW_PRE: &[(&str, bool)] = &[
    (".pre/x", true),
    (".pre", true),
    (".prex/x", false),
    ("a/.pre/x", false),
    ("a", false),
];

#[test]
fn names_below_pre_are_told(rt: HostRuntime) -> Result<(), Fail> {
    for (text, wanted) in BELOW_PRE {
        assert!(rt; is_told(rt.alloc(), text, *wanted)?, "{text}");
    }
    Ok(())
}

// Whether the first name stands before the second.
fn is_before(alloc: Global, first: &[u8], second: &[u8]) -> Result<bool, Fail> {
    let first = Name::read(alloc, first)?;
    let second = Name::read(alloc, second)?;
    Ok(first < second)
}

#[test]
fn names_are_ordered_by_their_bytes(rt: HostRuntime) -> Result<(), Fail> {
    assert!(rt; is_before(rt.alloc(), b"a-b", b"a/b")?);
    assert!(rt; !is_before(rt.alloc(), b"a/b", b"a-b")?);
    Ok(())
}

// Whether a target and an optional one are copied.
fn is_copied(alloc: Global, target: &Target) -> Result<bool, Fail> {
    let copied = target.copy(alloc)?;
    if &copied != target {
        return Ok(false);
    }
    match Some(copied).copy(alloc)? {
        Some(again) => Ok(&again == target && again.path.as_str() == "/a?b"),
        None => Ok(false),
    }
}

#[test]
fn targets_are_copied(rt: HostRuntime) -> Result<(), Fail> {
    let alloc = rt.alloc();
    let target = Target {
        host: Text::from_string(String::from_str(alloc, "h")?),
        port: 80,
        path: Text::from_string(String::from_str(alloc, "/a?b")?),
    };
    assert!(rt; is_copied(alloc, &target)?);
    Ok(())
}

// Bytes, and the number that they are, if they are one.
const NUMBERS: &[(&[u8], Option<u64>)] = &[
    (b"0", Some(0)),
    (b"007", Some(7)),
    (b"9999999999999999999", Some(9_999_999_999_999_999_999)),
    (b"00000000000000000001", None),
    (b"", None),
    (b"-1", None),
    (b"1 ", None),
    (b"1a", None),
];

#[test]
fn decimal_numbers_are_read(rt: HostRuntime) {
    for (number, (bytes, wanted)) in NUMBERS.iter().enumerate() {
        assert!(rt; read_decimal(bytes) == *wanted, "{number}");
    }
}

// Whether the list is cut to so many items where that is fewer than it has.
fn is_cut(list: &mut List<u8>, length: usize, wanted: &[u8]) -> bool {
    list.shorten(length);
    same(list.as_slice(), wanted)
}

// A list of one and two, and behind it three and four.
fn joined(alloc: Global) -> Result<List<u8>, AllocError> {
    let mut list = List::from_vec([1, 2].to_vec(alloc)?);
    list.append(List::from_vec([3, 4].to_vec(alloc)?))?;
    Ok(list)
}

#[test]
fn lists_are_joined_and_cut(rt: HostRuntime) -> Result<(), Fail> {
    let mut list = joined(rt.alloc())?;
    assert!(rt; same(list.as_slice(), &[1, 2, 3, 4]));
    assert!(rt; is_cut(&mut list, 3, &[1, 2, 3]));
    assert!(rt; is_cut(&mut list, 5, &[1, 2, 3]));
    Ok(())
}
