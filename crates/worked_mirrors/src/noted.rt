// What each link was asked, and what came of it.
use links::{LinkFault, Links, WantFault};
use small_types::{Duplicate, Target, Text};
use std::alloc::Global;

/// A target that a link was asked for.
#[derive(Drop)]
pub struct Note {
    pub place: u32,
    /// Which of the targets it was, from 0 on.
    pub target: usize,
    pub answer: Result<u64, LinkFault>,
    /// How many bytes were taken of the answer.
    pub taken: u64,
}

/// Links, and a note of each time that one was asked.
#[derive(Drop)]
pub struct Noted<L: Links> {
    pub links: L,
    /// The paths of the targets.
    pub paths: Vec<Text>,
    pub notes: Vec<Note>,
}

// Adds a piece to what was taken of the last answer.
fn add_piece(notes: &mut [Note], piece: Result<usize, LinkFault>) {
    if let (Ok(n), Some(note)) = (piece, notes.last_mut()) {
        note.taken = note.taken.saturating_add(n as u64);
    }
}

impl<L: Links> Noted<L> {
    /// These links, of which nothing was asked.
    pub fn new(alloc: Global, links: L) -> Noted<L> {
        Noted {
            links,
            paths: Vec::new(alloc),
            notes: Vec::new(alloc),
        }
    }
}

impl<L: Links> Links for Noted<L> {
    ghost links = { λ n. L.links n.links };

    fn sources(&self) -> u32 {
        self.links.sources()
    }

    // Makes the room for the notes of the links that are asked once each.
    fn want(&mut self, alloc: Global, target: &Target) -> Result<(), WantFault> {
        self.notes.reserve(self.links.sources() as usize)?;
        self.paths.push(target.path.copy(alloc)?)?;
        self.links.want(alloc, target)
    }

    fn ask(&mut self, alloc: Global, place: u32, target: &Target) -> Result<u64, LinkFault> {
        let answer = self.links.ask(alloc, place, target);
        let _ = self.notes.push(Note {
            place,
            target: self.paths.len().saturating_sub(1),
            answer,
            taken: 0,
        });
        answer
    }

    fn piece(&mut self, place: u32, buf: &mut [u8]) -> Result<usize, LinkFault> {
        let piece = self.links.piece(place, buf);
        add_piece(&mut self.notes, piece);
        piece
    }

    fn retire(&mut self, place: u32) {
        self.links.retire(place);
    }

    fn faults(&self, place: u32) -> u64 {
        self.links.faults(place)
    }

    fn failures(&self) -> u64 {
        self.links.failures()
    }
}
