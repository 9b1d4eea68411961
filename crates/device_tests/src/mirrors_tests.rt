// What no clause says of links in boxes: worked values, with links that are dropped.
use crate::made::{all_right, bytes, numbers};
use links::{Link, LinkFault, Links, MemLink, Page, are_distinct};
use mirrors::Mirrors;
use small_types::{List, Target, Text};
use std::alloc::{AllocError, Global};
use std::test::Fail;

fn target(alloc: Global) -> Result<Target, AllocError> {
    Ok(Target {
        host: Text::from_string(String::from_str(alloc, "demo.test")?),
        port: 80,
        path: Text::from_string(String::from_str(alloc, "/a")?),
    })
}

// A link that has these bytes at the target, and whose call of that number fails.
fn one_page(alloc: Global, content: &[u8], failing: u64) -> Result<MemLink, LinkFault> {
    let page = Page {
        target: target(alloc)?,
        bytes: bytes(alloc, content)?,
    };
    let mut pages = Vec::new(alloc);
    let Ok(()) = pages.push(page) else {
        return Err(LinkFault::Memory);
    };
    if !are_distinct(&pages) {
        return Err(LinkFault::Memory);
    }
    let failing = numbers(alloc, &[failing])?;
    Ok(MemLink::new(alloc, List::from_vec(pages), failing))
}

// What is done with the links, and what comes of it.
#[derive(Drop)]
enum Step {
    // The link at the place is asked, and answers so.
    Ask(u32, Result<u64, LinkFault>),
    // The link at the place is dropped: so many are left, and so often links failed.
    Retire(u32, u32, u64),
}

// Asks the link at the place for the target.
fn ask<L: Links>(alloc: Global, links: &mut L, place: u32) -> Result<u64, LinkFault> {
    let target = target(alloc)?;
    if links.want(alloc, &target).is_err() || links.sources() <= place {
        return Err(LinkFault::Memory);
    }
    links.ask(alloc, place, &target)
}

// Drops the link at the place, where another one is left.
fn retire<L: Links>(links: &mut L, place: u32) -> (u32, u64) {
    if 2 <= links.sources() && place < links.sources() {
        links.retire(place);
    }
    (links.sources(), links.failures())
}

// Whether the step comes to what it is to.
fn answers<L: Links>(alloc: Global, links: &mut L, step: &Step) -> bool {
    match step {
        Step::Ask(place, answer) => ask(alloc, links, *place) == *answer,
        Step::Retire(place, left, failures) => retire(links, *place) == (*left, *failures),
    }
}

const STEPS: &[Step] = &[
    Step::Ask(0, Err(LinkFault::Down)),
    Step::Ask(1, Ok(2)),
    Step::Ask(2, Err(LinkFault::Down)),
    // The third one takes the second one's place, and the fourth one the third one's.
    Step::Retire(1, 3, 2),
    Step::Ask(1, Ok(3)),
    Step::Ask(2, Ok(4)),
    // The first one failed once, and stays counted.
    Step::Retire(0, 2, 2),
    Step::Ask(0, Ok(3)),
    Step::Retire(1, 1, 2),
    Step::Ask(0, Ok(3)),
    // The last one is not dropped.
    Step::Retire(0, 1, 2),
];

// The number of the first step that answers something else.
fn first_wrong<L: Links>(alloc: Global, links: &mut L) -> Option<usize> {
    for (number, step) in STEPS.iter().enumerate() {
        if !answers(alloc, links, step) {
            return Some(number);
        }
    }
    None
}

// What each link has at the target, and the number of its call that fails.
const PAGES: &[(&[u8], u64)] = &[(b"1", 1), (b"22", 0), (b"333", 1), (b"4444", 0)];

#[test]
fn links_are_retired(rt: HostRuntime) -> Result<(), Fail> {
    let alloc = rt.alloc();
    let mut boxes: Vec<Box<dyn Link>> = Vec::new(alloc);
    for (content, failing) in PAGES {
        boxes.push(Box::new(alloc, one_page(alloc, content, *failing)?)?)?;
    }
    assert!(rt; boxes.len() == 4);
    let mut links = Mirrors::new(alloc, boxes);
    let wrong = first_wrong(alloc, &mut links);
    drop(links);
    all_right(&rt, "retired", wrong);
    Ok(())
}
