// What no clause says of fetching: that it succeeds, and worked values.
ghost use Rattle.std.specs.Prelude.{◌≡◌, ◌+◌, ◌≤◌, refl};
ghost use Rattle.std.proofs.Common.{◌∙◌, arith};
ghost use Rattle.links.specs.Link.{LinkState};

use crate::made::{bytes, failing, same};
use causes::Cause;
use digest_list::{Algorithm, Difference, Digest, DigestList};
use fetcher::{FetchFault, FolderLink, fetch_file, fetch_text};
use folders::{Held, MemFolder};
use links::{Basket, BasketFault, History, Link, LinkFault, MemBasket, MemLink, Page, Single};
use outside::copy_from;
use small_types::{Bytes, CopyFault, List, Name, Target, Text};
use std::alloc::{AllocError, Global};
use std::process::Abort;
use std::test::Fail;

// What a fetch said, in short.
#[derive(Clone, Copy, Debug, PartialEq, Eq)]
enum Said {
    Given(u64),
    Down,
    Missing,
    TooLong(u64, u64),
    Size(u64, u64),
    OtherDigest,
    Basket,
    Memory,
}

fn said_cause(cause: &Cause) -> Said {
    match cause {
        Cause::Down => Said::Down,
        Cause::Missing => Said::Missing,
        Cause::TooLong { length, limit } => Said::TooLong(*length, *limit),
        Cause::Differs(Difference::Size { listed, found }) => Said::Size(*listed, *found),
        Cause::Differs(Difference::Digest { .. }) => Said::OtherDigest,
    }
}

fn said_fault(fault: &FetchFault) -> Said {
    match fault {
        FetchFault::AllLinks { causes, .. } => match causes.as_slice().first() {
            Some(cause) => said_cause(cause),
            None => Said::Memory,
        },
        FetchFault::BasketFault => Said::Basket,
        FetchFault::Memory => Said::Memory,
    }
}

fn target(alloc: Global, path: &str) -> Result<Target, AllocError> {
    Ok(Target {
        host: Text::from_string(String::from_str(alloc, "demo.test")?),
        port: 80,
        path: Text::from_string(String::from_str(alloc, path)?),
    })
}

fn page(alloc: Global, path: &str, content: &[u8]) -> Result<Page, AllocError> {
    Ok(Page {
        target: target(alloc, path)?,
        bytes: bytes(alloc, content)?,
    })
}

fn one_page(alloc: Global, content: &[u8]) -> Result<List<Page>, CopyFault> {
    let mut made = Vec::new(alloc);
    made.push(page(alloc, "/a", content)?)?;
    Ok(List::from_vec(made))
}

// A link that has bytes at one target, of which one call fails.
fn link_of(alloc: Global, content: &[u8], number: u64) -> Result<Single<MemLink>, LinkFault> {
    let site = one_page(alloc, content)?;
    if !links::are_distinct(site.as_slice()) {
        return Err(LinkFault::Memory);
    }
    Ok(Single {
        link: MemLink::new(alloc, site, failing(alloc, number)?),
        asked: List::from_vec(Vec::new(alloc)),
    })
}

// A link that tells nothing: it answers a length, and gives bytes that may be more or fewer.
#[derive(Drop)]
struct LooseLink {
    length: u64,
    bytes: Bytes,
    at: usize,
    history: History,
}

impl Link for LooseLink {
    ghost use Rattle.std.specs.Prelude.{None, []};
    ghost use Rattle.links.specs.History.{calls_of};

    ghost state = { λ l. record {
      tells = ⊥;
      site = λ target. None;
      rest = [];
      count = 0;
      history = calls_of l.history;
    } };

    fn ask(&mut self, _alloc: Global, target: &Target) -> Result<u64, LinkFault> {
        self.history.ask(target, Ok(self.length));
        Ok(self.length)
    }

    fn piece(&mut self, buf: &mut [u8]) -> Result<usize, LinkFault> {
        let n = copy_from(self.bytes.as_slice(), &mut self.at, buf);
        self.history.piece(buf, Ok(n));
        Ok(n)
    }

    fn faults(&self) -> u64 {
        0
    }
}

fn loose(alloc: Global, length: u64, content: &[u8]) -> Result<Single<LooseLink>, AllocError> {
    Ok(Single {
        link: LooseLink {
            length,
            bytes: bytes(alloc, content)?,
            at: 0,
            history: History::new(),
        },
        asked: List::from_vec(Vec::new(alloc)),
    })
}

// What the fetch of a text says.
fn text<K: Link>(alloc: Global, links: &mut Single<K>, path: &str, limit: u64) -> Said {
    let Ok(target) = target(alloc, path) else {
        return Said::Memory;
    };
    match fetch_text(alloc, links, &target, limit) {
        Ok(bytes) => Said::Given(bytes.as_slice().len() as u64),
        Err(fault) => said_fault(&fault),
    }
}

// A text that is asked of a link, of which one call fails, and what the fetch says.
#[derive(Drop)]
struct Asking {
    path: &'static str,
    limit: u64,
    failing: u64,
    said: Said,
}

const TEXTS: &[Asking] = &[
    Asking {
        path: "/a",
        limit: 5,
        failing: 0,
        said: Said::Given(5),
    },
    Asking {
        path: "/a",
        limit: 4,
        failing: 0,
        said: Said::TooLong(5, 4),
    },
    Asking {
        path: "/b",
        limit: 5,
        failing: 0,
        said: Said::Missing,
    },
    Asking {
        path: "/a",
        limit: 5,
        failing: 1,
        said: Said::Down,
    },
    Asking {
        path: "/a",
        limit: 5,
        failing: 2,
        said: Said::Down,
    },
    Asking {
        path: "/a",
        limit: 4,
        failing: 2,
        said: Said::TooLong(5, 4),
    },
];

// What is said of a link that has `hello`, and how often it was asked.
fn said_text(alloc: Global, case: &Asking) -> Result<(Said, usize), LinkFault> {
    let mut links = link_of(alloc, b"hello", case.failing)?;
    let said = text(alloc, &mut links, case.path, case.limit);
    Ok((said, links.asked.as_slice().len()))
}

#[test]
fn texts_are_fetched(rt: HostRuntime) -> Result<(), Fail> {
    for (number, case) in TEXTS.iter().enumerate() {
        let (said, asked) = said_text(rt.alloc(), case)?;
        assert!(rt; said == case.said && asked == 1, "case {number}");
    }
    Ok(())
}

// What is said of a loose link that has `abc` and answers that length.
fn said_loose(alloc: Global, length: u64) -> Result<Said, AllocError> {
    let mut links = loose(alloc, length, b"abc")?;
    Ok(text(alloc, &mut links, "/a", 5))
}

#[test]
fn loose_links_give_texts(rt: HostRuntime) -> Result<(), Fail> {
    for (length, given) in [(5, 3), (2, 2)] {
        let said = said_loose(rt.alloc(), length)?;
        assert!(rt; said == Said::Given(given), "{length}");
    }
    Ok(())
}

const OF_ABC: &[u8] = b"ungWv48Bz+pBQUDeXa4iI7ADYaOWF3qctBD/YfIAFa0=";

const OF_ABD: &[u8] = b"pS0VnyYrLG3bckphhAvvw26zDIiHekAwtly+himESck=";

fn digest(alloc: Global, algorithm: Algorithm, text: &[u8]) -> Result<Digest, CopyFault> {
    Digest::read(alloc, algorithm, text)
        .ok()
        .ok_or(CopyFault::Memory)
}

// Two digests: the first one of `abc`, the second one of that text.
fn listed(alloc: Global, second: &[u8]) -> Result<DigestList, CopyFault> {
    let first = digest(alloc, Algorithm::Sha1, b"qZk+NkcGgWq6PiVxeFDCbJzQ2J0=")?;
    let second = digest(alloc, Algorithm::Sha256, second)?;
    let digests = List::from_vec(vec![in alloc; first, second]?);
    DigestList::from_list(digests).ok_or(CopyFault::Memory)
}

// A basket with bytes from before, of which one call fails.
fn basket_of(alloc: Global, number: u64) -> Result<MemBasket, AllocError> {
    let before = bytes(alloc, b"before")?;
    Ok(MemBasket::new(alloc, before, failing(alloc, number)?))
}

// What the fetch of a file of three bytes says.
fn file<K: Link>(
    alloc: Global,
    links: &mut Single<K>,
    path: &str,
    list: &DigestList,
    basket: &mut MemBasket,
) -> Said {
    let Ok(target) = target(alloc, path) else {
        return Said::Memory;
    };
    match fetch_file(alloc, links, &target, 3, list, basket) {
        Ok(()) => Said::Given(basket.bytes().len() as u64),
        Err(fault) => said_fault(&fault),
    }
}

// A file that is asked of a link with those bytes, of which one call fails, into a basket, of which one call fails,
// and what the fetch says. The second digest is that one.
#[derive(Drop)]
struct Fetching {
    path: &'static str,
    bytes: &'static [u8],
    digest: &'static [u8],
    failing: u64,
    full: u64,
    said: Said,
}

const FILES: &[Fetching] = &[
    Fetching {
        path: "/a",
        bytes: b"abc",
        digest: OF_ABC,
        failing: 0,
        full: 0,
        said: Said::Given(3),
    },
    Fetching {
        path: "/b",
        bytes: b"abc",
        digest: OF_ABC,
        failing: 0,
        full: 0,
        said: Said::Missing,
    },
    Fetching {
        path: "/a",
        bytes: b"abcd",
        digest: OF_ABC,
        failing: 0,
        full: 0,
        said: Said::Size(3, 4),
    },
    Fetching {
        path: "/a",
        bytes: b"abd",
        digest: OF_ABC,
        failing: 0,
        full: 0,
        said: Said::OtherDigest,
    },
    Fetching {
        path: "/a",
        bytes: b"abc",
        digest: OF_ABC,
        failing: 1,
        full: 0,
        said: Said::Down,
    },
    Fetching {
        path: "/a",
        bytes: b"abc",
        digest: OF_ABC,
        failing: 2,
        full: 0,
        said: Said::Down,
    },
    Fetching {
        path: "/a",
        bytes: b"abc",
        digest: OF_ABC,
        failing: 0,
        full: 1,
        said: Said::Basket,
    },
    // One digest of two is not enough.
    Fetching {
        path: "/a",
        bytes: b"abc",
        digest: OF_ABD,
        failing: 0,
        full: 0,
        said: Said::OtherDigest,
    },
];

// What is said, and how often the link was asked.
fn said_file(alloc: Global, case: &Fetching) -> Result<(Said, usize), LinkFault> {
    let list = listed(alloc, case.digest)?;
    let mut basket = basket_of(alloc, case.full)?;
    let mut links = link_of(alloc, case.bytes, case.failing)?;
    let said = file(alloc, &mut links, case.path, &list, &mut basket);
    Ok((said, links.asked.as_slice().len()))
}

#[test]
fn files_are_fetched(rt: HostRuntime) -> Result<(), Fail> {
    for (number, case) in FILES.iter().enumerate() {
        let (said, asked) = said_file(rt.alloc(), case)?;
        assert!(rt; said == case.said && asked == 1, "case {number}");
    }
    Ok(())
}

// What is said of a loose link that has those bytes and answers that there are three.
fn said_loose_file(
    alloc: Global,
    content: &[u8],
    basket: &mut MemBasket,
) -> Result<Said, LinkFault> {
    let list = listed(alloc, OF_ABC)?;
    let mut links = loose(alloc, 3, content)?;
    Ok(file(alloc, &mut links, "/a", &list, basket))
}

// Two fetches into one basket.
fn fetch_loosely(rt: &(impl Abort + AllocGlobal), basket: &mut MemBasket) -> Result<(), LinkFault> {
    let early = said_loose_file(rt.alloc(), b"ab", basket)?;
    assert!(rt; early == Said::Size(3, 2));
    let more = said_loose_file(rt.alloc(), b"abcdef", basket)?;
    assert!(rt; more == Said::Given(3));
    Ok(())
}

#[test]
fn loose_links_give_files_that_match(rt: HostRuntime) -> Result<(), Fail> {
    let mut basket = basket_of(rt.alloc(), 0)?;
    let done = fetch_loosely(&rt, &mut basket);
    assert!(rt; same(basket.bytes(), b"abc"));
    drop(basket);
    Ok(done?)
}

// A basket that stands for a shelf: its calls leave the shelf's number as it is, and the bytes that they hand to it are
// counted.
#[derive(Drop)]
struct Shelf {
    number: u64,
    handed: u64,
    bytes: Bytes,
}

impl Basket for Shelf {
    ghost tells = { Unit {0} };

    ghost taken = { λ b. b.bytes };

    ghost count = { λ b. 0 };

    ghost turns_to = { λ n a b. (b.number ≡ a.number) × (b.handed ≤ a.handed + n) };

    ghost turns_same = { λ a. (refl, Prim.omega arith) };

    ghost turns_on = { λ m n a b c one two. (two.0 ∙ one.0, Prim.omega (arith, one.1, two.1)) };

    fn restart(&mut self) {
        self.bytes.shorten(0);
    }

    fn take(&mut self, bytes: &[u8]) -> Result<(), BasketFault> {
        self.handed = self.handed.saturating_add(bytes.len() as u64);
        match self.bytes.extend(bytes) {
            Ok(()) => Ok(()),
            Err(_) => Err(BasketFault::Memory),
        }
    }

    fn faults(&self) -> u64 {
        0
    }
}

// Whatever comes of a fetch of three bytes from one link, it is the same shelf afterwards, and no more were handed to it.
fn fetch_to_shelf(
    alloc: Global,
    links: &mut Single<MemLink>,
    list: &DigestList,
    shelf: &mut Shelf,
) -> Said
    ensures number { shelf.new.number ≡ shelf.old.number }
    ensures handed { shelf.new.handed ≤ shelf.old.handed + 3 }
{
    let Ok(target) = target(alloc, "/a") else {
        return Said::Memory;
    };
    match fetch_file(alloc, links, &target, 3, list, shelf) {
        Ok(()) => Said::Given(shelf.bytes.as_slice().len() as u64),
        Err(fault) => said_fault(&fault),
    }
}

// What is said where the link has those bytes, and what then stands on the shelf of the number 7.
fn said_shelf(alloc: Global, content: &[u8]) -> Result<(Said, Shelf), LinkFault> {
    let list = listed(alloc, OF_ABC)?;
    let mut links = link_of(alloc, content, 0)?;
    let mut shelf = Shelf {
        number: 7,
        handed: 0,
        bytes: bytes(alloc, b"before")?,
    };
    let said = fetch_to_shelf(alloc, &mut links, &list, &mut shelf);
    Ok((said, shelf))
}

#[test]
fn baskets_keep_what_stands_behind_them(rt: HostRuntime) -> Result<(), Fail> {
    for (content, want) in [(b"abc", Said::Given(3)), (b"abd", Said::OtherDigest)] {
        let (said, shelf) = said_shelf(rt.alloc(), content)?;
        assert!(rt; said == want && shelf.number == 7 && shelf.handed == 3);
        drop(shelf);
    }
    Ok(())
}

fn named(alloc: Global, name: &[u8], content: &[u8]) -> Result<Held, AllocError> {
    let Ok(name) = Name::read(alloc, name) else {
        return Err(AllocError);
    };
    Ok(Held {
        name,
        bytes: bytes(alloc, content)?,
    })
}

fn two_files(alloc: Global) -> Result<List<Held>, CopyFault> {
    let mut files = Vec::new(alloc);
    files.push(named(alloc, b"one/a b", b"12345")?)?;
    files.push(named(alloc, b"two", b"")?)?;
    Ok(List::from_vec(files))
}

// A link to a folder of two files, of which one call fails.
fn folder_of(alloc: Global, number: u64) -> Result<Single<FolderLink<MemFolder>>, CopyFault> {
    let files = two_files(alloc)?;
    if !folders::are_distinct(files.as_slice()) {
        return Err(CopyFault::Memory);
    }
    let folder = MemFolder::new(alloc, files, failing(alloc, number)?);
    Ok(Single {
        link: FolderLink::new(alloc, folder),
        asked: List::from_vec(Vec::new(alloc)),
    })
}

fn count_of<K: Link>(links: &Single<K>) -> u64 {
    links.link.faults()
}

// A text that is asked of a folder, of which one call fails, what the fetch says, and the count of faults by then.
#[derive(Drop)]
struct InFolder {
    path: &'static str,
    failing: u64,
    said: Said,
    faults: u64,
}

const IN_FOLDER: &[InFolder] = &[
    InFolder {
        path: "/one/a%20b?x=1",
        failing: 0,
        said: Said::Given(5),
        faults: 0,
    },
    InFolder {
        path: "/one%2Fa b",
        failing: 0,
        said: Said::Given(5),
        faults: 0,
    },
    InFolder {
        path: "/two",
        failing: 0,
        said: Said::Given(0),
        faults: 0,
    },
    InFolder {
        path: "/three",
        failing: 0,
        said: Said::Missing,
        faults: 1,
    },
    InFolder {
        path: "/one/../two",
        failing: 0,
        said: Said::Missing,
        faults: 1,
    },
    InFolder {
        path: "two",
        failing: 0,
        said: Said::Missing,
        faults: 1,
    },
    InFolder {
        path: "/two",
        failing: 1,
        said: Said::Down,
        faults: 1,
    },
];

fn said_in_folder(alloc: Global, case: &InFolder) -> Result<(Said, u64), CopyFault> {
    let mut links = folder_of(alloc, case.failing)?;
    let said = text(alloc, &mut links, case.path, 5);
    Ok((said, count_of(&links)))
}

#[test]
fn folders_are_links(rt: HostRuntime) -> Result<(), Fail> {
    for (number, case) in IN_FOLDER.iter().enumerate() {
        let (said, faults) = said_in_folder(rt.alloc(), case)?;
        assert!(rt; said == case.said && faults == case.faults, "case {number}");
    }
    Ok(())
}
