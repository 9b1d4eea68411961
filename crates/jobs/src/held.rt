// What stands for a file that some job needs.
ghost use Rattle.std.specs.Prelude.{◌≡◌, ◌&&◌, false, ◌<◌, ◌++◌};
ghost use Rattle.file_store.specs.Stores.{AreUsed, SameRange, free_of};
ghost use Rattle.jobs.specs.Keys.{key_by};
ghost use Rattle.jobs.specs.Slots.{draft_of, is_for, is_used, held_blocks, less, lent, freed_by, handed};

use crate::content_key::is_key;
use digest_list::Digest;
use file_store::{Draft, FileStore};
use small_types::List;
use std::mem;
use store_state::ContentKey;

/// The blocks of a file that some job needs.
#[derive(Drop, Debug)]
pub enum Held {
    /// None: the tables have this content, or no job needs it any more.
    Nothing,
    /// Those of a draft: the file is still to come.
    Coming(Draft),
    /// Its draft is in the hands of a step.
    Away,
    /// Those of the whole file.
    Whole(List<u32>),
}

/// A file that jobs need: one content for all of them, or one data file of one of them.
#[derive(Drop, Debug)]
pub struct Slot {
    pub key: ContentKey,
    pub local: bool,
    /// How many entries of jobs need it. A slot with none is free.
    pub users: usize,
    pub held: Held,
}

// Frees the blocks.
pub(crate) fn release(store: &mut FileStore, held: Held)
    requires { AreUsed store.old (held_blocks held) }
    ensures freed { free_of store.new ≡ held_blocks held ++ free_of store.old }
    ensures range { SameRange store.old store.new }
{
    match held {
        Held::Nothing | Held::Away => {}
        Held::Coming(draft) => store.abandon(draft),
        Held::Whole(blocks) => store.release_blocks(&blocks),
    }
}

impl Slot {
    // Whether entries need it, for program files with the content of this size and these digests.
    pub(crate) fn is_for(&self, size: u64, list: &[Digest]) -> bool
        ensures { result ≡ (is_for (key_by size list.now) self.now && is_used self.now) }
    {
        !self.local && is_key(size, list, &self.key) && self.users > 0
    }

    // One user less. With the last of them the slot lets its blocks go.
    pub(crate) fn let_go(&mut self) -> Held
        requires { 0 < self.old.users }
        ensures slot { self.new ≡ less self.old }
        ensures held { result ≡ freed_by self.old }
    {
        self.users -= 1;
        if self.users == 0 {
            mem::replace(&mut self.held, Held::Nothing)
        } else {
            Held::Nothing
        }
    }

    // Its draft, if it has one.
    pub(crate) fn lend(&mut self) -> Option<Draft>
        ensures slot { self.new ≡ lent self.old }
        ensures draft { result ≡ draft_of self.old.held }
    {
        match mem::replace(&mut self.held, Held::Away) {
            Held::Coming(draft) => Some(draft),
            other => {
                self.held = other;
                None
            }
        }
    }

    // One user less. What it has is the tables' from now on.
    pub(crate) fn hand_over(&mut self)
        requires { 0 < self.old.users }
        ensures { self.new ≡ handed self.old }
    {
        self.users -= 1;
        self.held = Held::Nothing;
    }
}
