// A link in memory.
ghost use Rattle.std.specs.Prelude.{◌≡◌, ◌≢◌, ◌<◌, [], true, false, find, length, drop, IfOk, OnOk, OnErr, Some, None, Err};
ghost use Rattle.std.specs.List.{list_any};
ghost use Rattle.std.specs.Option.{option_copied};
ghost use Rattle.links.specs.declared.link.LinkFault.TheVariants.{Missing, Down};
ghost use Rattle.links.specs.Pages.{same_target, is_at, page_in, distinct};

use crate::{History, Link, LinkFault};
use outside::{FailingCalls, copy_from};
use small_types::{Bytes, Duplicate, List, Target};
use std::alloc::Global;

/// A target, and the bytes that stand there.
#[derive(Drop, Debug)]
pub struct Page {
    pub target: Target,
    pub bytes: Bytes,
}

// Whether the targets are one.
fn is_same(one: &Target, other: &Target) -> bool
    ensures { result ≡ same_target one.now other.now }
{
    one.host == other.host && one.port == other.port && one.path == other.path
}

// Whether the page stands at the target.
fn stands_at(page: &Page, target: &Target) -> bool
    ensures { result ≡ is_at target.now page.now }
{
    is_same(&page.target, target)
}

// The page at this target.
fn find_page<'a>(pages: &'a [Page], target: &Target) -> Option<&'a Page>
    ensures { option_copied result ≡ find (is_at target.now) pages.now }
{
    pages.iter().find(|page| stands_at(page, target))
}

// Whether a page stands at the target.
fn has_page(pages: &[Page], target: &Target) -> bool
    ensures { result ≡ list_any (is_at target.now) pages.now }
{
    pages.iter().any(|page| stands_at(page, target))
}

/// Whether the targets of the pages differ.
pub fn are_distinct(pages: &[Page]) -> bool
    ensures { result ≡ distinct pages.now }
{
    match pages.split_first() {
        None => true,
        Some((first, rest)) => !has_page(rest, &first.target) && are_distinct(rest),
    }
}

/// A link whose site is pages in memory. Its calls whose numbers, counted from 1, the list `failing` has are to fail.
/// A call for which it finds no memory answers `Memory`.
#[derive(Drop, Debug)]
pub struct MemLink {
    alloc: Global,
    site: List<Page>,
    // The body that was asked for last, and how much of it was given.
    body: Bytes,
    at: usize,
    failing: FailingCalls,
    history: History,
    ghost differ: { distinct site ≡ true },
}

impl MemLink {
    ghost use Rattle.links.specs.Link.{Asks, Counts, Takes};
    ghost use Rattle.links.specs.MemLink.{link_pages, link_rest, link_faults, link_failing, link_calls, link_history, link_state, CountsCall};

    /// A link whose site is these pages. Their targets differ: `are_distinct` tells. It takes no memory.
    pub fn new(alloc: Global, site: List<Page>, failing: List<u64>) -> MemLink
        requires { distinct site ≡ true }
        ensures pages { link_pages result ≡ site }
        ensures rest { link_rest result ≡ [] }
        ensures faults { link_faults result ≡ 0 }
        ensures failing { link_failing result ≡ failing }
        ensures calls { link_calls result ≡ 0 }
        ensures history { link_history result ≡ [] }
    {
        MemLink {
            alloc,
            site,
            body: Bytes::from_vec(Vec::new(alloc)),
            at: 0,
            failing: FailingCalls::new(failing),
            history: History::new(),
        }
    }

    /// What stands on its site.
    pub fn site(&self) -> &List<Page>
        ensures value { result.now ≡ link_pages self.now }
        ensures differ { distinct result.now ≡ true }
    {
        &self.site
    }

    // Leaves nothing of the body, and hands on the fault.
    fn close(&mut self, fault: LinkFault) -> LinkFault
        ensures fault { result ≡ fault }
        ensures rest { link_rest self.new ≡ [] }
        ensures pages { link_pages self.new ≡ link_pages self.old }
        ensures failing { self.new.failing ≡ self.old.failing }
        ensures history { self.new.history ≡ self.old.history }
    {
        self.body = Bytes::from_vec(Vec::new(self.alloc));
        self.at = 0;
        fault
    }

    // Counts a call, which fails where its number is in the list.
    fn begin(&mut self) -> Result<(), LinkFault>
        ensures failed { OnErr result (result ≡ Err Down) }
        ensures counted { CountsCall self.old self.new result }
        ensures counts { Counts (link_state self.old) (link_state self.new) result }
        ensures closed { OnErr result (link_rest self.new ≡ []) }
        ensures kept { OnOk result (link_rest self.new ≡ link_rest self.old) }
        ensures pages { link_pages self.new ≡ link_pages self.old }
        ensures history { self.new.history ≡ self.old.history }
    {
        if self.failing.next() {
            self.failing.fail();
            return Err(self.close(LinkFault::Down));
        }
        Ok(())
    }

    // Makes these bytes the body.
    fn open(&mut self, bytes: Bytes)
        ensures rest { link_rest self.new ≡ bytes }
        ensures pages { link_pages self.new ≡ link_pages self.old }
        ensures failing { self.new.failing ≡ self.old.failing }
        ensures history { self.new.history ≡ self.old.history }
    {
        self.body = bytes;
        self.at = 0;
    }

    // The answer to a target, before it is noted.
    fn answer(&mut self, alloc: Global, target: &Target) -> Result<u64, LinkFault>
        ensures asks { Asks target.now (link_state self.old) (link_state self.new) result }
        ensures counted { CountsCall self.old self.new result }
        ensures history { self.new.history ≡ self.old.history }
    {
        self.begin()?;
        let Some(page) = find_page(self.site.as_slice(), target) else {
            return Err(self.close(LinkFault::Missing));
        };
        let bytes = page.bytes.copy(alloc)?;
        let length = bytes.as_slice().len() as u64;
        self.open(bytes);
        Ok(length)
    }

    // A piece, before it is noted.
    fn give(&mut self, buf: &mut [u8]) -> Result<usize, LinkFault>
        requires { 0 < length buf.old }
        ensures takes { Takes (link_state self.old) (link_state self.new) buf.old buf.new result }
        ensures counted { CountsCall self.old self.new result }
        ensures history { self.new.history ≡ self.old.history }
    {
        self.begin()?;
        Ok(copy_from(self.body.as_slice(), &mut self.at, buf))
    }
}

impl Link for MemLink {
    ghost use Rattle.std.specs.Prelude.{ℕ, List};
    ghost use Rattle.links.specs.Asked.{NotesAsk, NotesPiece};
    ghost use Rattle.links.specs.History.{calls_of};
    ghost use Rattle.links.specs.Link.{LinkState, Asks, Takes};
    ghost use Rattle.links.specs.MemLink.{link_state, CountsCall};

    ghost state = { λ l. record {
      tells = Unit {0};
      site = λ target. page_in target l.site;
      rest = drop l.at l.body;
      count = l.failing.faults;
      history = calls_of l.history;
    } };

    fn ask(&mut self, alloc: Global, target: &Target) -> Result<u64, LinkFault>
        ensures asks { Asks target.now (link_state self.old) (link_state self.new) result }
        ensures noted { NotesAsk target.now (link_state self.old) (link_state self.new) result }
        ensures counted { CountsCall self.old self.new result }
    {
        let answer = self.answer(alloc, target);
        self.history.ask(target, answer);
        answer
    }

    fn piece(&mut self, buf: &mut [u8]) -> Result<usize, LinkFault>
        requires { 0 < length buf.old }
        ensures takes { Takes (link_state self.old) (link_state self.new) buf.old buf.new result }
        ensures noted { NotesPiece (link_state self.old) (link_state self.new) buf.new result }
        ensures counted { CountsCall self.old self.new result }
    {
        let answer = self.give(buf);
        self.history.piece(buf, answer);
        answer
    }

    fn faults(&self) -> u64 {
        self.failing.faults
    }
}
