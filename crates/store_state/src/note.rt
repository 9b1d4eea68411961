// What starts, checks, skips and rollbacks change in the entry of an application. None of it takes
// memory.
ghost use Rattle.std.specs.Prelude.{◌≡◌, ◌<◌, length, slice_set, IsSome};
ghost use Rattle.std.specs.List.{HoldsAt};
ghost use Rattle.machine.specs.Entries.{entry_of, with_entry};
ghost use Rattle.machine.specs.LaunchRow.{started_app};
ghost use Rattle.store_state.specs.declared.change.Change.TheVariants as change;
ghost use Rattle.store_state.specs.Change.{FitsRollback, FitsSkip, effect};
ghost use Rattle.store_state.specs.Notes.{noted};
ghost use Rattle.store_state.specs.Rows.{current_row, with_app};

use crate::StoreState;
use crate::install_change::{above, raised_by};
use identity::{Key, Version};
use machine::AppState;
use small_types::List;
use std::alloc::Global;
use std::mem::replace;

// What is noted of an application.
#[derive(Clone, Copy)]
pub(crate) enum Note {
    // It was started: a check counts for one start alone.
    Started,
    // Its provider was heard, where this version is current.
    Heard {
        current: Version,
        version: Version,
        minimum: Option<Version>,
        now: u64,
    },
    // No link gave what its provider says.
    Unheard,
    // The user does not want what is offered.
    Skipped,
    // It went back to its previous view, where this version was current.
    RolledBack {
        current: Version,
    },
}

impl StoreState {
    /// The application at the place is not checked from then on. There is one at the place.
    pub fn clear_checked(&mut self, place: usize)
        requires { place < length self.old.apps }
        ensures { self.new ≡ record self.old { apps = with_app place started_app self.old.apps } }
    {
        self.note(place, Note::Started);
    }

    // The application at the place skips what is offered.
    pub(crate) fn skip(&mut self, place: usize)
        requires { FitsSkip self.old place }
        ensures { self.new ≡ effect (change.Skip place) self.old }
    {
        self.note(place, Note::Skipped);
    }

    // The application at the place goes back to its previous view.
    pub(crate) fn roll_back(&mut self, place: usize)
        requires { FitsRollback self.old place }
        ensures { self.new ≡ effect (change.Rollback place) self.old }
    {
        let Some(view) = self.current_at(place) else {
            unreachable!();
        };
        let current = view.deployment.identity.version;
        self.note(place, Note::RolledBack { current });
    }

    // The provider of the key was heard at the moment. A view is current for the key.
    pub(crate) fn hear(&mut self, key: &Key, version: Version, minimum: Option<Version>, now: u64)
        requires { IsSome (current_row key.now self.old) }
        ensures { self.new ≡ effect (change.Heard key.now version minimum now) self.old }
    {
        let Some(view) = self.current(key) else {
            unreachable!();
        };
        let current = view.deployment.identity.version;
        self.note_key(
            key,
            Note::Heard {
                current,
                version,
                minimum,
                now,
            },
        );
    }

    // The provider of the key was not heard. A view is current for the key.
    pub(crate) fn miss(&mut self, key: &Key)
        requires { IsSome (current_row key.now self.old) }
        ensures { self.new ≡ effect (change.Unheard key.now) self.old }
    {
        self.note_key(key, Note::Unheard);
    }

    // Notes it of the application of the key, which has an entry.
    fn note_key(&mut self, key: &Key, note: Note)
        requires { IsSome (entry_of key.now self.old.apps) }
        ensures { self.new
            ≡ record self.old { apps = with_entry key.now (noted note) self.old.apps } }
    {
        self.are_tables();
        let Some(place) = self.place(key) else {
            unreachable!();
        };
        self.note(place, note);
    }

    // Notes it of the application at the place.
    fn note(&mut self, place: usize, note: Note)
        requires { place < length self.old.apps }
        ensures { self.new ≡ record self.old { apps = with_app place (noted note) self.old.apps } }
    {
        let alloc = *self.index.allocator();
        note_at(alloc, &mut self.apps, place, note);
    }
}

// Notes it of the application at the place.
fn note_at(alloc: Global, apps: &mut List<AppState>, place: usize, note: Note)
    requires { place < length apps.old }
    ensures { HoldsAt (λ app. apps.new ≡ slice_set apps.old place (noted note app)) apps.old place }
{
    let mut items = replace(apps, List::from_vec(Vec::new(alloc))).into_vec();
    note_in(&mut items[place], note);
    *apps = List::from_vec(items);
}

// Notes it of the application.
fn note_in(app: &mut AppState, note: Note)
    ensures { app.new ≡ noted note app.old }
{
    match note {
        Note::Started => app.checked = false,
        Note::Heard {
            current,
            version,
            minimum,
            now,
        } => {
            app.minimum = raised_by(minimum, app.minimum);
            app.offer = above(current, Some(version));
            app.last_check = Some(now);
            app.checked = true;
        }
        Note::Unheard => app.checked = true,
        Note::Skipped => app.skipped = app.offer,
        Note::RolledBack { current } => {
            app.current = app.previous;
            app.previous = None;
            app.excluded = Some(current);
        }
    }
}
