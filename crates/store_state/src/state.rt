// The tables in memory.
ghost use Rattle.std.specs.Prelude.{◌≡◌, ◌<◌, ◌≤◌, ◌+◌, length, vec_capacity, vec_len, AllPairs, None, IfOk, OnOk, OnErr};
ghost use Rattle.manifests.specs.declared.facts.FileEntry.{FileEntry};
ghost use Rattle.small_types.specs.declared.limits.TheConstants as limits;
ghost use Rattle.machine.specs.Entries.{entry_of, with_entry};
ghost use Rattle.machine.specs.Installed.{installed_app};
ghost use Rattle.machine.specs.RequireRow.{required};
ghost use Rattle.store_state.specs.declared.change.Change.TheVariants as change;
ghost use Rattle.store_state.specs.Change.{Fits, IsPlain, TakesMemory, effect};
ghost use Rattle.store_state.specs.Named.{IsNameIndex};
ghost use Rattle.store_state.specs.Tables.{empty};

use crate::content_key::add_places;
use crate::entries::{insert_both, new_entry, place_of, raise_at};
use crate::install_change::add_installed;
use crate::marks::MarkList;
use crate::names::index_names;
use crate::{Change, Content, LeaseList, View};
use identity::{Key, Version};
use machine::AppState;
use manifests::FileEntry;
use small_types::{CopyFault, List, PrintFault, Target, Text};
use std::alloc::{AllocError, AllocFailed, Global};
use std::marker::Model;

/// Why a call on the tables failed.
#[derive(Clone, Copy, Debug, PartialEq, Eq)]
pub enum StateFault {
    /// There was no memory for it.
    Memory,
}

impl<T: Drop> From<AllocFailed<T>> for StateFault {
    fn from(_: AllocFailed<T>) -> StateFault {
        StateFault::Memory
    }
}

impl From<AllocError> for StateFault {
    fn from(_: AllocError) -> StateFault {
        StateFault::Memory
    }
}

impl From<PrintFault> for StateFault {
    fn from(_: PrintFault) -> StateFault {
        StateFault::Memory
    }
}

impl From<CopyFault> for StateFault {
    fn from(_: CopyFault) -> StateFault {
        StateFault::Memory
    }
}

/// The tables of a store. Contracts see them without their indexes.
#[derive(Drop, Debug)]
pub struct StoreState {
    pub boot: u64,
    /// The number of the next view.
    pub next_view: u64,
    /// The number of the next lease.
    pub next_lease: u64,
    /// The leases, in order of their numbers.
    pub leases: LeaseList,
    /// The views, in order of their numbers.
    pub views: List<View>,
    /// The applications, in order of their printed keys.
    pub apps: List<AppState>,
    /// The contents of the program files that stand in views.
    pub contents: List<Content>,
    // The printed keys of the applications, by which one is found.
    pub(crate) keys: List<Text>,
    // The places of the contents in the order of their content keys, by which one is found.
    pub(crate) index: Vec<usize>,
    // Of each view the places of its files in the order of their names.
    pub(crate) names: List<List<usize>>,
    // The room in which views and contents are marked that are kept.
    pub(crate) marks: MarkList,
}

impl Model for StoreState {
    ghost use Rattle.std.specs.Prelude.{◌≡◌, map};
    ghost use Rattle.identity.specs.Key.{key_text};
    ghost use Rattle.store_state.specs.ContentKeys.{content_key_cmp};
    ghost use Rattle.store_state.specs.Contents.{held_key};
    ghost use Rattle.store_state.specs.Kept.{AreTables};
    ghost use Rattle.store_state.specs.Named.{AreNameIndexes};
    ghost use Rattle.store_state.specs.Places.{ArePlaces};
    ghost use Rattle.store_state.specs.Tables.{Tables};

    ghost Value = { Tables };

    ghost view = { λ s. record {
      boot = s.boot;
      next_view = s.next_view;
      next_lease = s.next_lease;
      leases = s.leases;
      views = s.views;
      apps = s.apps;
      contents = s.contents;
    } };

    ghost invariant = { λ s. (s.keys ≡ map (λ app. key_text app.key) s.apps) × AreTables (record {
      boot = s.boot;
      next_view = s.next_view;
      next_lease = s.next_lease;
      leases = s.leases;
      views = s.views;
      apps = s.apps;
      contents = s.contents;
    }) × ArePlaces content_key_cmp (map held_key s.contents) s.index.items
        × AreNameIndexes s.views s.names };
}

impl StoreState {
    /// The tables of the empty store: boot number 0, the next numbers 1, and nothing else. The room
    /// for all leases, and that in which a clean marks what it keeps, are made with them; it fails
    /// only for want of memory.
    pub fn empty(alloc: Global) -> Result<StoreState, StateFault>
        ensures { IfOk result (λ state. state ≡ empty) }
    {
        let leases = LeaseList::empty(alloc)?;
        let marks = MarkList::empty(alloc)?;
        Ok(StoreState {
            boot: 0,
            next_view: 1,
            next_lease: 1,
            leases,
            views: List::from_vec(Vec::new(alloc)),
            apps: List::from_vec(Vec::new(alloc)),
            contents: List::from_vec(Vec::new(alloc)),
            keys: List::from_vec(Vec::new(alloc)),
            index: Vec::new(alloc),
            names: List::from_vec(Vec::new(alloc)),
            marks,
        })
    }

    /// Makes a change that fits the tables and is none of a launch, a finish and a clean. It takes
    /// memory only for a new entry, an install, a group and a data file, fails only for want of it,
    /// and then changes nothing.
    pub fn apply(&mut self, alloc: Global, change: Change) -> Result<(), StateFault>
        requires fits { Fits self.old change }
        requires plain { IsPlain change }
        ensures ok { OnOk result (self.new ≡ effect change self.old) }
        ensures err { OnErr result (self.new ≡ self.old) }
        ensures memory { OnErr result (TakesMemory self.old change) }
    {
        match change {
            Change::Boot { boot } => {
                self.set_boot(boot);
                Ok(())
            }
            Change::Require { key, version } => self.require(alloc, key, version),
            Change::Install {
                view,
                contents,
                provider,
                now,
            } => self.install(alloc, view, contents, provider, now),
            Change::Heard {
                key,
                version,
                minimum,
                now,
            } => {
                self.hear(&key, version, minimum, now);
                Ok(())
            }
            Change::Unheard { key } => {
                self.miss(&key);
                Ok(())
            }
            Change::Skip { app } => {
                self.skip(app as usize);
                Ok(())
            }
            Change::Rollback { app } => {
                self.roll_back(app as usize);
                Ok(())
            }
            Change::Group {
                view,
                group,
                contents,
            } => self.add_group(alloc, view, group, contents),
            Change::Put { view, file } => self.put(alloc, view, file),
            Change::Remove { view, name } => {
                self.cut_local(alloc, view, &name);
                Ok(())
            }
            Change::Launch { .. } | Change::Finish { .. } | Change::Clean => unreachable!(),
        }
    }

    // Another boot number than before ends all leases.
    fn set_boot(&mut self, boot: u64)
        ensures { self.new ≡ effect (change.Boot boot) self.old }
    {
        if self.boot != boot {
            self.boot = boot;
            self.leases.clear();
        }
    }

    // Raises the minimum of the application, which has an entry from then on. An `Err` changes
    // nothing.
    fn require(&mut self, alloc: Global, key: Key, version: Version) -> Result<(), StateFault>
        requires { entry_of key self.old.apps ≡ None
            → length self.old.apps < limits.APPLICATION_LIMIT }
        ensures ok { OnOk result (self.new
            ≡ record self.old { apps = required key version self.old.apps }) }
        ensures err { OnErr result (self.new ≡ self.old) }
        ensures memory { OnErr result (entry_of key self.old.apps ≡ None) }
    {
        match place_of(self.keys.as_slice(), &key) {
            Ok(place) => {
                raise_at(alloc, &mut self.apps, place, version);
                Ok(())
            }
            Err(place) => {
                let text = key.print(alloc)?;
                let app = new_entry(key, version);
                insert_both(alloc, &mut self.keys, &mut self.apps, place, text, app)?;
                Ok(())
            }
        }
    }

    // Adds the view with its contents, as the current one of its application. An `Err` changes
    // nothing.
    fn install(
        &mut self,
        alloc: Global,
        view: View,
        contents: List<Content>,
        provider: Target,
        now: u64,
    ) -> Result<(), StateFault>
        requires { Fits self.old (change.Install view contents provider now) }
        ensures ok { OnOk result (self.new
            ≡ effect (change.Install view contents provider now) self.old) }
        ensures err { OnErr result (self.new ≡ self.old) }
    {
        let held = self.contents.as_slice().len();
        let files = view.application.files.as_slice();
        let more = contents.as_slice().len();
        let names = match room_and_names(alloc, &mut self.index, more, files) {
            Ok(names) => names,
            Err(StateFault::Memory) => {
                drop(view);
                drop(contents);
                drop(provider);
                return Err(StateFault::Memory);
            }
        };
        add_installed(
            alloc,
            &mut self.views,
            &mut self.names,
            &mut self.contents,
            &mut self.keys,
            &mut self.apps,
            view,
            names,
            contents,
            provider,
            now,
        )?;
        add_places(self.contents.as_slice(), &mut self.index, held);
        self.next_view += 1;
        Ok(())
    }
}

// The room for so many places more, and the index of files whose names differ.
fn room_and_names(
    alloc: Global,
    places: &mut Vec<usize>,
    more: usize,
    files: &[FileEntry],
) -> Result<List<usize>, StateFault>
    requires { AllPairs (λ (e f : FileEntry). ¬ (e.name ≡ f.name)) files.now }
    ensures names { IfOk result (λ index. IsNameIndex files.now index) }
    ensures room { OnOk result (vec_len places.new + more ≤ vec_capacity places.new) }
    ensures same { places.new.items ≡ places.old.items }
{
    places.reserve(more)?;
    index_names(alloc, files)
}
