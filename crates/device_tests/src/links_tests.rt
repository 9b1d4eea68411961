// What no clause says of links and baskets in memory: that calls succeed, and worked values.
ghost use Rattle.std.specs.Prelude.{◌<◌, [], ◌∷◌, length, take, IfOk, Ok};
ghost use Rattle.links.specs.Asked.{AskedOnce};
ghost use Rattle.links.specs.declared.history.LinkCall.TheVariants.{Gave};

use crate::made::{all_right, bytes, numbers, same};
use links::{
    Basket, BasketFault, Link, LinkFault, Links, MemBasket, MemLink, Page, Single, are_distinct,
};
use small_types::{CopyFault, List, Target, Text};
use std::alloc::{AllocError, Global};
use std::test::Fail;

fn target(alloc: Global, path: &str) -> Result<Target, AllocError> {
    Ok(Target {
        host: Text::from_string(String::from_str(alloc, "demo.test")?),
        port: 80,
        path: Text::from_string(String::from_str(alloc, path)?),
    })
}

fn page(alloc: Global, path: &str, content: &[u8]) -> Result<Page, AllocError> {
    Ok(Page {
        target: target(alloc, path)?,
        bytes: bytes(alloc, content)?,
    })
}

fn pages(alloc: Global) -> Result<List<Page>, CopyFault> {
    let mut made = Vec::new(alloc);
    made.push(page(alloc, "/a", b"12345")?)?;
    made.push(page(alloc, "/b", b"")?)?;
    Ok(List::from_vec(made))
}

// A link with two pages, of which one call fails.
fn two_pages(alloc: Global, failing: u64) -> Result<MemLink, LinkFault> {
    let site = pages(alloc)?;
    if !are_distinct(site.as_slice()) {
        return Err(LinkFault::Memory);
    }
    Ok(MemLink::new(alloc, site, numbers(alloc, &[failing])?))
}

// Asks for the target and takes a piece: no more is asked of the link, and the piece has what the buffer has.
fn ask_and_take<K: Link>(
    alloc: Global,
    link: &mut K,
    target: &Target,
    buf: &mut [u8],
) -> Result<(u64, usize), LinkFault>
    requires { 0 < length buf.old }
    ensures { IfOk result (λ t. AskedOnce target.now (K.state link.old) (K.state link.new) (Ok t.0)
        (Gave (take t.1 buf.new) ∷ [])) }
{
    let length = link.ask(alloc, target)?;
    let n = link.piece(buf)?;
    Ok((length, n))
}

// Whether a link that is asked for the page gives it.
fn is_asked_once(alloc: Global) -> Result<bool, LinkFault> {
    let target = target(alloc, "/a")?;
    let mut link = two_pages(alloc, 0)?;
    let got = ask_and_take(alloc, &mut link, &target, &mut [b'.'; 4]);
    drop(link);
    Ok(got == Ok((5, 4)))
}

#[test]
fn link_is_asked_once(rt: HostRuntime) -> Result<(), Fail> {
    assert!(rt; is_asked_once(rt.alloc())?);
    Ok(())
}

// A call of a link: asking for a path, or a piece of at most four bytes.
#[derive(Drop)]
enum Call {
    Ask(&'static str),
    Piece,
}

const CALLS: &[Call] = &[
    Call::Ask("/a"),
    Call::Piece,
    Call::Piece,
    Call::Piece,
    Call::Ask("/b"),
    Call::Ask("/c"),
];

fn ask<K: Link>(alloc: Global, link: &mut K, path: &str) -> Result<u64, LinkFault> {
    let target = target(alloc, path)?;
    link.ask(alloc, &target)
}

fn piece<K: Link>(link: &mut K) -> Result<u64, LinkFault> {
    let n = link.piece(&mut [b'.'; 4])?;
    Ok(n as u64)
}

fn answer_of<K: Link>(alloc: Global, link: &mut K, call: &Call) -> Result<u64, LinkFault> {
    match call {
        Call::Ask(path) => ask(alloc, link, path),
        Call::Piece => piece(link),
    }
}

// Whether the answer of that number is this one.
fn is_answer(
    answers: &[Result<u64, LinkFault>],
    number: usize,
    got: Result<u64, LinkFault>,
) -> bool {
    match answers.get(number) {
        Some(want) => got == *want,
        None => false,
    }
}

// Whether the six calls answer so.
fn calls_answer<K: Link>(alloc: Global, link: &mut K, answers: &[Result<u64, LinkFault>]) -> bool {
    for (number, call) in CALLS.iter().enumerate() {
        let got = answer_of(alloc, link, call);
        if !is_answer(answers, number, got) {
            return false;
        }
    }
    true
}

// Whether six calls answer so where the one of that number fails, and the link then failed so often.
fn is_link(
    alloc: Global,
    failing: u64,
    answers: &[Result<u64, LinkFault>],
    faults: u64,
) -> Result<bool, LinkFault> {
    let mut link = two_pages(alloc, failing)?;
    let is_link = calls_answer(alloc, &mut link, answers) && link.faults() == faults;
    drop(link);
    Ok(is_link)
}

const DOWN: Result<u64, LinkFault> = Err(LinkFault::Down);

const MISSING: Result<u64, LinkFault> = Err(LinkFault::Missing);

// The number of the call that fails, what the calls answer, and how often the link then failed.
const LINKS: &[(u64, &[Result<u64, LinkFault>], u64)] = &[
    (0, &[Ok(5), Ok(4), Ok(1), Ok(0), Ok(0), MISSING], 0),
    (1, &[DOWN, Ok(0), Ok(0), Ok(0), Ok(0), MISSING], 1),
    (2, &[Ok(5), DOWN, Ok(0), Ok(0), Ok(0), MISSING], 1),
    (3, &[Ok(5), Ok(4), DOWN, Ok(0), Ok(0), MISSING], 1),
    (4, &[Ok(5), Ok(4), Ok(1), DOWN, Ok(0), MISSING], 1),
    (5, &[Ok(5), Ok(4), Ok(1), Ok(0), DOWN, MISSING], 1),
    (6, &[Ok(5), Ok(4), Ok(1), Ok(0), Ok(0), DOWN], 1),
];

#[test]
fn link_works_and_fails_by_number(rt: HostRuntime) -> Result<(), Fail> {
    for (failing, answers, faults) in LINKS {
        assert!(rt;
            is_link(rt.alloc(), *failing, answers, *faults)?,
            "{failing}"
        );
    }
    Ok(())
}

// Asks the first link for the path, and takes a piece. The answers are the lengths of both.
fn ask_first<L: Links>(
    alloc: Global,
    links: &mut L,
    path: &str,
) -> Result<(u64, usize), LinkFault> {
    let target = target(alloc, path)?;
    if links.want(alloc, &target).is_err() || links.sources() == 0 {
        return Err(LinkFault::Memory);
    }
    let length = links.ask(alloc, 0, &target)?;
    let n = links.piece(0, &mut [b'.'; 4])?;
    Ok((length, n))
}

fn failures_of<L: Links>(links: &mut L) -> (u32, u64, u64) {
    let count = links.sources();
    let first = if count == 0 { 0 } else { links.faults(0) };
    (count, first, links.failures())
}

// Whether the links were asked for a path at that place.
fn was_asked(asked: &List<Target>, place: usize, path: &str) -> bool {
    match asked.as_slice().get(place) {
        Some(target) => target.path.as_str() == path,
        None => false,
    }
}

// A path that the first link is asked for, and the lengths that come.
const ASKED: &[(&str, Result<(u64, usize), LinkFault>)] = &[
    ("/a", Ok((5, 4))),
    ("/a", Err(LinkFault::Down)),
    ("/c", Err(LinkFault::Missing)),
];

// Whether the first link answers those paths so.
fn first_answers<L: Links>(alloc: Global, links: &mut L) -> bool {
    for (path, want) in ASKED {
        if ask_first(alloc, links, path) != *want {
            return false;
        }
    }
    true
}

// Whether the links were asked for those paths and for no other.
fn were_asked(asked: &List<Target>) -> bool {
    for (place, (path, _)) in ASKED.iter().enumerate() {
        if !was_asked(asked, place, path) {
            return false;
        }
    }
    asked.as_slice().len() == ASKED.len()
}

// Whether one link does as links what it is to.
fn is_links(alloc: Global) -> Result<bool, LinkFault> {
    let mut links = Single {
        link: two_pages(alloc, 3)?,
        asked: List::from_vec(Vec::new(alloc)),
    };
    let answered = first_answers(alloc, &mut links);
    let counted = failures_of(&mut links) == (1, 1, 1);
    let asked = were_asked(&links.asked);
    drop(links);
    Ok(answered && counted && asked)
}

#[test]
fn one_link_is_links(rt: HostRuntime) -> Result<(), Fail> {
    assert!(rt; is_links(rt.alloc())?);
    Ok(())
}

// A call of a basket and what it answers, or what the basket then has.
#[derive(Drop)]
enum Step {
    Take(&'static [u8], Result<(), BasketFault>),
    Restart,
    Bytes(&'static [u8]),
}

fn take<B: Basket>(basket: &mut B, bytes: &[u8]) -> Result<(), BasketFault> {
    basket.take(bytes)
}

fn restart<B: Basket>(basket: &mut B) -> bool {
    basket.restart();
    true
}

// Whether the step answers what it is to.
fn answers(basket: &mut MemBasket, step: &Step) -> bool {
    match step {
        Step::Take(bytes, want) => take(basket, bytes) == *want,
        Step::Restart => restart(basket),
        Step::Bytes(want) => same(basket.bytes(), want),
    }
}

const BASKET: &[Step] = &[
    Step::Take(b"cd", Ok(())),
    Step::Bytes(b"abcd"),
    Step::Restart,
    Step::Bytes(b""),
    Step::Take(b"e", Ok(())),
    Step::Take(b"f", Err(BasketFault::Failed)),
    Step::Take(b"g", Ok(())),
    Step::Bytes(b"eg"),
];

// The number of the first step that answers something else.
fn first_wrong(basket: &mut MemBasket) -> Option<usize> {
    for (number, step) in BASKET.iter().enumerate() {
        if !answers(basket, step) {
            return Some(number);
        }
    }
    None
}

// The same of a basket whose third call fails, or the count of steps where it failed more than once.
fn begin_and_go(alloc: Global) -> Result<Option<usize>, AllocError> {
    let mut basket = MemBasket::new(alloc, bytes(alloc, b"ab")?, numbers(alloc, &[3])?);
    let wrong = first_wrong(&mut basket);
    let faults = basket.faults();
    drop(basket);
    Ok(if faults == 1 {
        wrong
    } else {
        Some(BASKET.len())
    })
}

#[test]
fn basket_works_and_fails_by_number(rt: HostRuntime) -> Result<(), Fail> {
    all_right(&rt, "basket", begin_and_go(rt.alloc())?);
    Ok(())
}
