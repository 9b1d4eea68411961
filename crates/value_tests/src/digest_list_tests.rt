// Tests of digests: outside vectors, and what matches.
ghost use Rattle.std.specs.Prelude.{◌≡◌, ◌+◌, ◌<◌, ◌^◌};
ghost use Rattle.digest_list.specs.Checker.{count_of};

use digest_list::{
    Algorithm, Checker, Difference, Digest, DigestFault, DigestList, difference_of, matches,
};
use small_types::{Bytes, CopyFault, Duplicate, List};
use std::alloc::Global;
use std::test::Fail;

// A message of the standard's examples.
#[derive(Clone, Copy)]
enum Message {
    Abc,
    Empty,
    // A million times `a`.
    Million,
}

fn of_abc(algorithm: Algorithm) -> &'static str {
    match algorithm {
        Algorithm::Sha1 => "a9993e364706816aba3e25717850c26c9cd0d89d",
        Algorithm::Sha256 => "ba7816bf8f01cfea414140de5dae2223b00361a396177a9cb410ff61f20015ad",
        Algorithm::Sha384 => {
            "cb00753f45a35e8bb5a03d699ac65007272c32ab0eded1631a8b605a43ff5bed8086072ba1e7cc2358baeca134c825a7"
        }
        Algorithm::Sha512 => {
            "ddaf35a193617abacc417349ae20413112e6fa4e89a97ea20a9eeee64b55d39a2192992a274fc1a836ba3c23a3feebbd454d4423643ce80e2a9ac94fa54ca49f"
        }
    }
}

fn of_empty(algorithm: Algorithm) -> &'static str {
    match algorithm {
        Algorithm::Sha1 => "da39a3ee5e6b4b0d3255bfef95601890afd80709",
        Algorithm::Sha256 => "e3b0c44298fc1c149afbf4c8996fb92427ae41e4649b934ca495991b7852b855",
        Algorithm::Sha384 => {
            "38b060a751ac96384cd9327eb1b1e36a21fdb71114be07434c0cc7bf63f6e1da274edebfe76f65fbd51ad2f14898b95b"
        }
        Algorithm::Sha512 => {
            "cf83e1357eefb8bdf1542850d66d8007d620e4050b5715dc83f4a921d36ce9ce47d0d13c5d85f2b0ff8318d2877eec2f63b931bd47417a81a538327af927da3e"
        }
    }
}

fn of_million(algorithm: Algorithm) -> &'static str {
    match algorithm {
        Algorithm::Sha1 => "34aa973cd4c4daa4f61eeb2bdbad27316534016f",
        Algorithm::Sha256 => "cdc76e5c9914fb9281a1c7e284d73e67f1809a48a497200e046d39ccc7112cd0",
        Algorithm::Sha384 => {
            "9d0e1809716474cb086e834e310a4a1ced149e9c00f248527972cec5704c2a5b07b8b3dc38ecc4ebae97ddd87f3d8985"
        }
        Algorithm::Sha512 => {
            "e718483d0ce769644e2e42c7bc15b4638e1f98b13b2044285632a803afa973ebde0ff244877ea60a4cb0432ce577c31beb009c5c2c49aa2e4eadb217ad8cc09b"
        }
    }
}

// The digest by the standard's examples (FIPS 180-4), in hexadecimal.
fn example(message: Message, algorithm: Algorithm) -> &'static str {
    match message {
        Message::Abc => of_abc(algorithm),
        Message::Empty => of_empty(algorithm),
        Message::Million => of_million(algorithm),
    }
}

fn value_of(alloc: Global, message: Message, algorithm: Algorithm) -> Result<Bytes, Fail> {
    Ok(Bytes::from_vec(hex::decode(alloc, example(message, algorithm))?))
}

fn digest(alloc: Global, message: Message, algorithm: Algorithm) -> Result<Digest, Fail> {
    let value = value_of(alloc, message, algorithm)?;
    Ok(Digest { algorithm, value })
}

fn list_of(alloc: Global, digests: &[(Message, Algorithm)]) -> Result<DigestList, Fail> {
    let mut made = Vec::new(alloc);
    for (message, algorithm) in digests {
        made.push(digest(alloc, *message, *algorithm)?)?;
    }
    let list = DigestList::from_list(List::from_vec(made));
    Ok(list.ok_or("not 1 to 8 digests")?)
}

// The message's digests under all four algorithms.
fn all_four(alloc: Global, message: Message) -> Result<DigestList, Fail> {
    let listed = [
        (message, Algorithm::Sha1),
        (message, Algorithm::Sha256),
        (message, Algorithm::Sha384),
        (message, Algorithm::Sha512),
    ];
    list_of(alloc, &listed)
}

// Whether bytes, fewer than ten, match the list or not, as is wanted.
fn says(list: &DigestList, size: u64, bytes: &[u8], wanted: bool) -> bool {
    bytes.len() < 10 && matches(list, size, bytes) == wanted
}

const EXAMPLES: &[(Message, u64, &[u8], bool)] = &[
    (Message::Abc, 3, b"abc", true),
    (Message::Abc, 3, b"abd", false),
    (Message::Abc, 4, b"abc", false),
    (Message::Empty, 0, b"", true),
    (Message::Empty, 0, b"a", false),
];

#[test]
fn examples_match(rt: HostRuntime) -> Result<(), Fail> {
    for (message, size, bytes, wanted) in EXAMPLES {
        let list = all_four(rt.alloc(), *message)?;
        assert!(rt; says(&list, *size, bytes, *wanted), "{size}");
    }
    Ok(())
}

const RIGHT: (Message, Algorithm) = (Message::Abc, Algorithm::Sha1);

const WRONG: (Message, Algorithm) = (Message::Empty, Algorithm::Sha256);

// Digests, and whether they are those of `abc`.
const LISTED: &[(&[(Message, Algorithm)], bool)] = &[
    (&[RIGHT, WRONG], false),
    (&[WRONG, RIGHT], false),
    (&[RIGHT, RIGHT], true),
];

#[test]
fn one_right_digest_is_not_enough(rt: HostRuntime) -> Result<(), Fail> {
    for (listed, wanted) in LISTED {
        let list = list_of(rt.alloc(), listed)?;
        assert!(rt; says(&list, 3, b"abc", *wanted));
    }
    Ok(())
}

// Adds a thousand bytes in pieces that end within, at and past the blocks of the hash functions.
fn feed_thousand(checker: &mut Checker, bytes: &[u8; 1000])
    requires { count_of checker.old + 1000 < 2 ^ 61 }
    ensures { count_of checker.new ≡ count_of checker.old + 1000 }
{
    checker.update(&bytes[..1]);
    checker.update(&bytes[1..64]);
    checker.update(&bytes[64..129]);
    checker.update(&bytes[129..129]);
    checker.update(&bytes[129..257]);
    checker.update(&bytes[257..]);
}

// It promises nothing, so that no proof unfolds it.
fn thousand() -> [u8; 1000] {
    [b'a'; 1000]
}

fn finish_million(mut checker: Checker) -> Option<Difference>
    requires { count_of checker ≡ 0 }
{
    let bytes = thousand();
    for _round in 0..1000u64 {
        feed_thousand(&mut checker, &bytes);
    }
    checker.finish()
}

#[test]
fn a_million_bytes_come_in_pieces(rt: HostRuntime) -> Result<(), Fail> {
    let list = all_four(rt.alloc(), Message::Million)?;
    let checker = Checker::new(rt.alloc(), &list, 1_000_000)?;
    assert!(rt; finish_million(checker) == None);
    Ok(())
}

// How `abc`, which comes in two pieces, differs.
fn check_abc(alloc: Global, list: &DigestList, size: u64) -> Result<Option<Difference>, CopyFault> {
    let mut checker = Checker::new(alloc, list, size)?;
    checker.update(b"ab");
    checker.update(b"c");
    Ok(checker.finish())
}

// Whether `abc` differs so, in pieces and as a whole.
fn differs(
    alloc: Global,
    list: &DigestList,
    size: u64,
    wanted: &Option<Difference>,
) -> Result<bool, Fail> {
    let pieces = check_abc(alloc, list, size)?;
    let whole = difference_of(alloc, list, size, b"abc")?;
    Ok(pieces == *wanted && whole == *wanted)
}

// The digest of `abc` where that of the empty text is listed.
fn other_digest(alloc: Global, algorithm: Algorithm) -> Result<Option<Difference>, Fail> {
    Ok(Some(Difference::Digest {
        algorithm,
        listed: value_of(alloc, Message::Empty, algorithm)?,
        found: value_of(alloc, Message::Abc, algorithm)?,
    }))
}

// The digests of two messages, of which three are of the empty text.
fn mixed(alloc: Global) -> Result<DigestList, Fail> {
    let listed = [
        (Message::Abc, Algorithm::Sha1),
        (Message::Empty, Algorithm::Sha256),
        (Message::Abc, Algorithm::Sha384),
        (Message::Empty, Algorithm::Sha512),
        (Message::Empty, Algorithm::Sha256),
    ];
    list_of(alloc, &listed)
}

// Whether a copy of the digests of `abc` lists it.
fn copy_matches(alloc: Global) -> Result<bool, Fail> {
    let right = all_four(alloc, Message::Abc)?;
    let copied = right.copy(alloc)?;
    differs(alloc, &copied, 3, &None)
}

// Whether a list of `abc` and of another digest differs so where the size is another one, and where it is not.
fn is_first_told(alloc: Global, list: &DigestList) -> Result<bool, Fail> {
    let size = Some(Difference::Size {
        listed: 4,
        found: 3,
    });
    let digest = other_digest(alloc, Algorithm::Sha256)?;
    Ok(differs(alloc, list, 4, &size)? && differs(alloc, list, 3, &digest)?)
}

#[test]
fn the_first_difference_is_told(rt: HostRuntime) -> Result<(), Fail> {
    let list = mixed(rt.alloc())?;
    let told = is_first_told(rt.alloc(), &list);
    drop(list);
    assert!(rt; told?);
    assert!(rt; copy_matches(rt.alloc())?);
    Ok(())
}

// Whether the digest is read from each of the two texts.
fn are_read(alloc: Global, wanted: &Digest, text: &str, spaced: &str) -> Result<bool, Fail> {
    let read = Digest::read(alloc, wanted.algorithm, text.as_bytes())?;
    let again = Digest::read(alloc, wanted.algorithm, spaced.as_bytes())?;
    Ok(read == *wanted && again == *wanted)
}

// Whether the digest is printed as the example, and written as base64 as that text.
fn is_written(alloc: Global, wanted: &Digest, text: &str) -> Result<bool, Fail> {
    let printed = wanted.print(alloc)?;
    let base = wanted.to_base64(alloc)?;
    Ok(printed.as_str() == example(Message::Abc, wanted.algorithm) && base.as_str() == text)
}

// The digest of `abc` is printed, written as base64, and read back from that and from the text with white space in it.
fn goes_round(alloc: Global, algorithm: Algorithm, text: &str, spaced: &str) -> Result<bool, Fail> {
    let wanted = digest(alloc, Message::Abc, algorithm)?;
    Ok(is_written(alloc, &wanted, text)? && are_read(alloc, &wanted, text, spaced)?)
}

// Texts of the digest of `abc` as base64, without white space and with it.
const WRITTEN: &[(Algorithm, &str, &str)] = &[
    (
        Algorithm::Sha1,
        "qZk+NkcGgWq6PiVxeFDCbJzQ2J0=",
        " qZk+NkcGgW\tq6PiVxeF\r\nDCbJzQ2J0 =\n",
    ),
    (
        Algorithm::Sha256,
        "ungWv48Bz+pBQUDeXa4iI7ADYaOWF3qctBD/YfIAFa0=",
        "\n  ungWv48Bz+pBQUDeXa4iI7ADYaOWF3qctBD/YfIAFa0=\n",
    ),
];

#[test]
fn digests_go_round(rt: HostRuntime) -> Result<(), Fail> {
    for (algorithm, text, spaced) in WRITTEN {
        assert!(rt; goes_round(rt.alloc(), *algorithm, text, spaced)?, "{text}");
    }
    Ok(())
}

// No padding, bits left over, too much padding, the other alphabet, and more after the padding; a vertical tab, and
// values of 19 and 32 bytes.
const NO_DIGESTS: &[&str] = &[
    "",
    "qZk+NkcGgWq6PiVxeFDCbJzQ2J0",
    "qZk+NkcGgWq6PiVxeFDCbJzQ2J1=",
    "qZk+NkcGgWq6PiVxeFDCbJzQ2J0==",
    "qZk-NkcGgWq6PiVxeFDCbJzQ2J0=",
    "qZk+NkcGgWq6PiVxeFDCbJzQ2J0=AAAA",
    "qZk+\u{b}NkcGgWq6PiVxeFDCbJzQ2J0=",
    "qZk+NkcGgWq6PiVxeFDCbJzQ2A==",
    "ungWv48Bz+pBQUDeXa4iI7ADYaOWF3qctBD/YfIAFa0=",
];

#[test]
fn other_texts_are_refused(rt: HostRuntime) {
    for text in NO_DIGESTS {
        let read = Digest::read(rt.alloc(), Algorithm::Sha1, text.as_bytes());
        assert!(rt; read == Err(DigestFault::Bad), "{text}");
    }
}

const NAMES: &[(&str, Option<Algorithm>)] = &[
    (
        "http://www.w3.org/2000/09/xmldsig#sha1",
        Some(Algorithm::Sha1),
    ),
    (
        "http://www.w3.org/2000/09/xmldsig#sha256",
        Some(Algorithm::Sha256),
    ),
    (
        "http://www.w3.org/2001/04/xmlenc#sha256",
        Some(Algorithm::Sha256),
    ),
    (
        "http://www.w3.org/2001/04/xmldsig-more#sha384",
        Some(Algorithm::Sha384),
    ),
    (
        "http://www.w3.org/2001/04/xmlenc#sha512",
        Some(Algorithm::Sha512),
    ),
    ("http://www.w3.org/2001/04/xmlenc#sha1", None),
    ("HTTP://www.w3.org/2000/09/xmldsig#sha1", None),
];

#[test]
fn algorithms_are_named(rt: HostRuntime) {
    for (uri, wanted) in NAMES {
        assert!(rt; Algorithm::from_uri(uri.as_bytes()) == *wanted, "{uri}");
    }
}

fn has_room(alloc: Global, count: usize) -> Result<bool, Fail> {
    let mut made = Vec::new(alloc);
    for _ in 0..count {
        made.push(digest(alloc, Message::Abc, Algorithm::Sha1)?)?;
    }
    Ok(DigestList::from_list(List::from_vec(made)).is_some())
}

#[test]
fn lists_have_one_to_eight_digests(rt: HostRuntime) -> Result<(), Fail> {
    for (count, wanted) in [(0, false), (1, true), (8, true), (9, false)] {
        assert!(rt; has_room(rt.alloc(), count)? == wanted, "{count}");
    }
    Ok(())
}
