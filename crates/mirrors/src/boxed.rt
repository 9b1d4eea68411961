// Links in boxes.
ghost use Rattle.std.specs.Prelude.{◌≡◌, ◌<◌, ◌≤◌, length, vec_len};
ghost use Rattle.small_types.specs.declared.limits.TheConstants.{LINK_LIMIT};
ghost use Rattle.links.specs.Asked.{NotesAsk, NotesPiece};
ghost use Rattle.links.specs.Link.{Asks, Takes};
ghost use Rattle.mirrors.specs.Mirrors.{AreEven, AreNew, AreSummed};

use crate::gone::{Gone, GoneNote};
use call_record::Record;
use links::{Link, LinkFault, Links, WantFault};
use small_types::{Duplicate, List, Target};
use std::alloc::Global;

// Asks the link in the box.
fn ask_box(alloc: Global, link: &mut Box<dyn Link>, target: &Target) -> Result<u64, LinkFault>
    ensures asks { Asks target.now (state link.old) (state link.new) result }
    ensures noted { NotesAsk target.now (state link.old) (state link.new) result }
{
    link.ask(alloc, target)
}

// Takes a piece of the rest of the link in the box.
fn piece_of_box(link: &mut Box<dyn Link>, buf: &mut [u8]) -> Result<usize, LinkFault>
    requires { 0 < length buf.old }
    ensures takes { Takes (state link.old) (state link.new) buf.old buf.new result }
    ensures noted { NotesPiece (state link.old) (state link.new) buf.new result }
{
    link.piece(buf)
}

// How often the link in the box failed.
fn faults_of_box(link: &Box<dyn Link>) -> u64
    ensures { result ≡ (state link.now).count }
{
    link.faults()
}

/// 1 to 8 links, each in a box of its own, by their places from 0 on, and the targets that were asked for.
#[derive(Drop)]
pub struct Mirrors {
    links: Vec<Box<dyn Link>>,
    /// The targets that were asked for.
    pub asked: List<Target>,
    // How often those failed that are gone.
    gone: u64,
    // Those that are gone, in the order in which they went.
    retired: Record<Gone>,
    ghost some: { 1 ≤ vec_len links },
    ghost within: { vec_len links ≤ LINK_LIMIT },
    ghost even: { AreEven (λ g. g.place) (length links.items) retired.noted },
    ghost summed: { AreSummed (λ g. g.place) (λ g. g.count) (length links.items)
        retired.noted gone },
}

impl Mirrors {
    /// These links, 1 to 8, of which nothing was asked. It takes no memory.
    pub fn new(alloc: Global, links: Vec<Box<dyn Link>>) -> Mirrors
        requires some { 1 ≤ vec_len links }
        requires within { vec_len links ≤ LINK_LIMIT }
        ensures { AreNew state links.items (⟦<Mirrors as Links>⟧.links result) }
    {
        Mirrors {
            links,
            asked: List::from_vec(Vec::new(alloc)),
            gone: 0,
            retired: Record::new(),
        }
    }
}

impl Links for Mirrors {
    ghost use Rattle.std.specs.Prelude.{length};
    ghost use Rattle.mirrors.specs.Mirrors.{boxes_state, marks_of};

    ghost links = { λ m. boxes_state (λ b. (Link-box b).state b.value)
        (λ g. record ((Link-box g.link).state g.link.value) { count = g.count })
        (marks_of (λ g. g.place) (length m.links.items) m.retired.noted) m.links.items m.asked };

    fn sources(&self) -> u32 {
        self.links.len() as u32
    }

    fn want(&mut self, alloc: Global, target: &Target) -> Result<(), WantFault> {
        self.asked.push(target.copy(alloc)?)?;
        Ok(())
    }

    fn ask(&mut self, alloc: Global, place: u32, target: &Target) -> Result<u64, LinkFault> {
        ask_box(alloc, &mut self.links[place as usize], target)
    }

    fn piece(&mut self, place: u32, buf: &mut [u8]) -> Result<usize, LinkFault> {
        piece_of_box(&mut self.links[place as usize], buf)
    }

    fn retire(&mut self, place: u32) {
        let link = self.links.remove(place as usize);
        let count = faults_of_box(&link);
        self.retired.note(&GoneNote {
            place,
            count,
            link: &link,
        });
        self.gone = self.gone.saturating_add(count);
    }

    fn faults(&self, place: u32) -> u64 {
        faults_of_box(&self.links[place as usize])
    }

    fn failures(&self) -> u64 {
        let mut sum = self.gone;
        for link in self.links.iter() {
            sum = sum.saturating_add(faults_of_box(link));
        }
        sum
    }
}
