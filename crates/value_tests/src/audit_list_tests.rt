// Tests of audit lists: which texts are read, at which line the others are refused, and that what is read is printed as
// it stood.
use audit_list::{AUDIT_TEXT_LIMIT, AuditTextFault, read_audit, read_limited_audit};
use std::alloc::{AllocError, Global};
use std::test::Fail;

// What a text is read as: how many lines it has, and whether they are printed as that text; or the line at which it is
// refused.
#[derive(Clone, Copy, PartialEq, Eq, Debug)]
enum Reading {
    Lines(usize),
    PrintedOtherwise,
    Refused(u64),
}

fn answer(alloc: Global, text: &[u8]) -> Result<Reading, AllocError> {
    let list = match read_limited_audit(alloc, text) {
        Ok(list) => list,
        Err(AuditTextFault::Text { line }) => return Ok(Reading::Refused(line)),
        Err(AuditTextFault::Memory) => return Err(AllocError),
    };
    let Ok(printed) = list.print(alloc) else {
        return Err(AllocError);
    };
    if printed.as_slice() != text {
        return Ok(Reading::PrintedOtherwise);
    }
    Ok(Reading::Lines(list.lines.as_slice().len()))
}

const TEXTS: &[(&[u8], Reading)] = &[
    (b"audit 0\n", Reading::Lines(0)),
    (b"audit 1\ngood 0 3\n", Reading::Lines(1)),
    // The place is the line's own, and a size may have twenty digits.
    (
        b"audit 1\ngood 4294967295 18446744073709551615\n",
        Reading::Lines(1),
    ),
    (b"audit 2\nbad 7 3 size:3:0\ngood 7 0\n", Reading::Lines(2)),
    (
        b"audit 1\nbad 0 0 differs:sha1:a9993e364706816aba3e25717850c26c9cd0d89d:da39a3ee5e6b4b0d3255bfef95601890afd80709\n",
        Reading::Lines(1),
    ),
    (
        b"audit 1\nbad 0 3 differs:sha256:e3b0c44298fc1c149afbf4c8996fb92427ae41e4649b934ca495991b7852b855:ba7816bf8f01cfea414140de5dae2223b00361a396177a9cb410ff61f20015ad\n",
        Reading::Lines(1),
    ),
    // The first line.
    (b"", Reading::Refused(0)),
    (b"\n", Reading::Refused(0)),
    (b"audit 0", Reading::Refused(0)),
    (b"audit\n", Reading::Refused(0)),
    (b"audit 00\n", Reading::Refused(0)),
    (b"audit  0\n", Reading::Refused(0)),
    (b"audit 0 \n", Reading::Refused(0)),
    (b"audit 0\r\n", Reading::Refused(0)),
    (b"audit +0\n", Reading::Refused(0)),
    (b"audit 18446744073709551616\n", Reading::Refused(0)),
    (b"Audit 0\n", Reading::Refused(0)),
    (b"good 0 3\n", Reading::Refused(0)),
    // A line that is missing, that is cut off, or that is one too many.
    (b"audit 1\n", Reading::Refused(1)),
    (b"audit 18446744073709551615\n", Reading::Refused(1)),
    (b"audit 1\ngood 0 3", Reading::Refused(1)),
    (b"audit 1\ngood 0 ", Reading::Refused(1)),
    (b"audit 2\ngood 0 3\n", Reading::Refused(2)),
    (b"audit 0\n\n", Reading::Refused(1)),
    (b"audit 0\ngood 0 3\n", Reading::Refused(1)),
    (b"audit 1\ngood 0 3\ng", Reading::Refused(2)),
    // Another line.
    (b"audit 1\n\n", Reading::Refused(1)),
    (b"audit 1\ngood 0\n", Reading::Refused(1)),
    (b"audit 1\ngood 0 3 \n", Reading::Refused(1)),
    (b"audit 1\ngood 0 3 size:3:0\n", Reading::Refused(1)),
    (b"audit 1\ngood 00 3\n", Reading::Refused(1)),
    (b"audit 1\ngood 0 03\n", Reading::Refused(1)),
    (b"audit 1\ngood 4294967296 3\n", Reading::Refused(1)),
    (
        b"audit 1\ngood 0 18446744073709551616\n",
        Reading::Refused(1),
    ),
    (b"audit 2\ngood 0 3\nbetter 1 3\n", Reading::Refused(2)),
    (b"audit 2\nbad 0 3\ngood 1 3 4\n", Reading::Refused(1)),
    // Another cause.
    (b"audit 1\nbad 0 3 down\n", Reading::Refused(1)),
    (b"audit 1\nbad 0 3 missing\n", Reading::Refused(1)),
    (b"audit 1\nbad 0 3 too-long:4:3\n", Reading::Refused(1)),
    (b"audit 1\nbad 0 3 size:3\n", Reading::Refused(1)),
    (b"audit 1\nbad 0 3 size:3:0:0\n", Reading::Refused(1)),
    (b"audit 1\nbad 0 3 differs:md5:00:00\n", Reading::Refused(1)),
    (
        b"audit 1\nbad 0 3 differs:sha1:00:00\n",
        Reading::Refused(1),
    ),
    (
        b"audit 1\nbad 0 0 differs:sha1:A9993e364706816aba3e25717850c26c9cd0d89d:da39a3ee5e6b4b0d3255bfef95601890afd80709\n",
        Reading::Refused(1),
    ),
    (
        b"audit 1\nbad 0 0 differs:sha256:a9993e364706816aba3e25717850c26c9cd0d89d:da39a3ee5e6b4b0d3255bfef95601890afd80709\n",
        Reading::Refused(1),
    ),
];

// The place of the first text that is answered otherwise.
fn first_wrong(alloc: Global) -> Result<Option<usize>, AllocError> {
    for (place, (text, wanted)) in TEXTS.iter().enumerate() {
        if answer(alloc, text)? != *wanted {
            return Ok(Some(place));
        }
    }
    Ok(None)
}

#[test]
fn texts_are_read_or_refused_at_a_line(rt: HostRuntime) -> Result<(), Fail> {
    let wrong = first_wrong(rt.alloc())?;
    assert!(rt; wrong == None, "{wrong:?}");
    Ok(())
}

// A text of so many bytes whose first line is one of a list.
fn long_text(alloc: Global, length: usize) -> Result<Vec<u8>, AllocError> {
    let mut text = Vec::from_slice(alloc, b"audit 1\n")?;
    text.resize(length, b'x')?;
    Ok(text)
}

#[test]
fn only_the_limited_reading_has_a_limit(rt: HostRuntime) -> Result<(), Fail> {
    let alloc = rt.alloc();
    let longest = long_text(alloc, AUDIT_TEXT_LIMIT)?;
    assert!(rt; answer(alloc, &longest)? == Reading::Refused(1));
    let longer = long_text(alloc, AUDIT_TEXT_LIMIT + 1)?;
    assert!(rt; answer(alloc, &longer)? == Reading::Refused(0));
    let refused = match read_audit(alloc, &longer) {
        Err(AuditTextFault::Text { line }) => line == 1,
        _ => false,
    };
    assert!(rt; refused);
    Ok(())
}
