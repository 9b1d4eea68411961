// What is read in the tables. None of it takes memory.
ghost use Rattle.std.specs.Prelude.{◌≡◌, ◌↔◌, ◌<◌, ◌≤◌, ◌-◌, ◌^◌, ℕ, length, map, min, option_and_then, option_map, slice_get, IfNone, IfSome, IsTrue, None};
ghost use Rattle.std.specs.Option.{option_copied};
ghost use Rattle.small_types.specs.declared.limits.TheConstants as limits;
ghost use Rattle.machine.specs.Blocks.{free_blocks, used_blocks};
ghost use Rattle.machine.specs.Current.{current_bare};
ghost use Rattle.machine.specs.Entries.{entry_of};
ghost use Rattle.machine.specs.Leases.{lease_of, leased_bare};
ghost use Rattle.machine.specs.Previous.{numbered_bare, previous_of};
ghost use Rattle.store_state.specs.Kept.{AreTables};
ghost use Rattle.store_state.specs.Rows.{current_row, current_row_at, leased_row, listed_files, previous_row, previous_row_at, row_at};
ghost use Rattle.store_state.specs.Tables.{bare_row, table_shape};

use crate::contents::sum_blocks;
use crate::entries::place_of;
use crate::lease_list::find_lease;
use crate::views::{add_views, find_view, sum_files};
use crate::{StoreState, View};
use identity::Key;
use machine::{AppState, Lease};
use small_types::Room;

impl StoreState {
    /// The tables are in their order and within their limits, the applications of their views are
    /// what manifests can say, and their contents are those of the program files that stand.
    pub fn are_tables(&self)
        ensures { AreTables self.now }
    {
        let _boot = self.boot;
    }

    /// How many applications there are.
    pub fn count(&self) -> usize
        ensures { result ≡ length self.now.apps }
    {
        self.apps.as_slice().len()
    }

    /// How many views there are.
    pub fn view_count(&self) -> usize
        ensures { result ≡ length self.now.views }
    {
        self.views.as_slice().len()
    }

    /// How many files the views list.
    pub fn file_count(&self) -> usize
        ensures { result ≡ listed_files self.now.views }
    {
        sum_files(self.views.as_slice())
    }

    /// What is known of the application with that key, where anything is.
    pub fn entry(&self, key: &Key) -> Option<&AppState>
        ensures { option_copied result ≡ entry_of key.now self.now.apps }
    {
        match place_of(self.keys.as_slice(), key) {
            Ok(place) => Some(&self.apps.as_slice()[place]),
            Err(_) => None,
        }
    }

    /// The place of the application with that key, counted from 0, where it has an entry. It is
    /// below 256.
    pub fn place(&self, key: &Key) -> Option<usize>
        ensures found { IfSome result (λ place. (place < length self.now.apps)
            × (slice_get self.now.apps place ≡ entry_of key.now self.now.apps)) }
        ensures few { IfSome result (λ place. place < limits.APPLICATION_LIMIT) }
        ensures none { IfNone result (entry_of key.now self.now.apps ≡ None) }
    {
        place_of(self.keys.as_slice(), key).ok()
    }

    /// The lease of that number.
    pub fn lease(&self, number: u64) -> Option<Lease>
        ensures { result ≡ lease_of number self.now.leases }
    {
        find_lease(self.leases.as_slice(), number)
    }

    /// The view of that number.
    pub fn view(&self, number: u64) -> Option<&View>
        ensures { option_copied result ≡ row_at number self.now.views }
    {
        find_view(self.views.as_slice(), number)
    }

    /// The view that is current for the key, where one is.
    pub fn current(&self, key: &Key) -> Option<&View>
        ensures row { option_copied result ≡ current_row key.now self.now }
        ensures bare { (room : Room) → option_map bare_row (option_copied result)
            ≡ current_bare key.now (table_shape room self.now) }
    {
        self.current_row(key)
    }

    /// The view that is previous for the key, where one is.
    pub fn previous(&self, key: &Key) -> Option<&View>
        ensures row { option_copied result ≡ previous_row key.now self.now }
        ensures bare { (room : Room) → option_map bare_row (option_copied result)
            ≡ numbered_bare (previous_of key.now self.now.apps) (table_shape room self.now) }
    {
        self.previous_row(key)
    }

    /// The view of that number, where there is a number and it is that of a view.
    pub fn numbered(&self, number: Option<u64>) -> Option<&View>
        ensures row { option_copied result
            ≡ option_and_then (λ n. row_at n self.now.views) number }
        ensures bare { (room : Room) → option_map bare_row (option_copied result)
            ≡ numbered_bare number (table_shape room self.now) }
    {
        self.numbered_row(number)
    }

    /// The view that the lease of that number names, where there is one.
    pub fn leased(&self, number: u64) -> Option<&View>
        ensures row { option_copied result ≡ leased_row number self.now }
        ensures bare { (room : Room) → option_map bare_row (option_copied result)
            ≡ leased_bare number (table_shape room self.now) }
    {
        self.leased_row(number)
    }

    // The view that the lease names.
    fn leased_row(&self, number: u64) -> Option<&View>
        ensures { option_copied result ≡ leased_row number self.now }
    {
        let Some(lease) = self.lease(number) else {
            return None;
        };
        self.view(lease.view)
    }

    // The view of that number, where there is one.
    fn numbered_row(&self, number: Option<u64>) -> Option<&View>
        ensures { option_copied result ≡ option_and_then (λ n. row_at n self.now.views) number }
    {
        let Some(number) = number else {
            return None;
        };
        self.view(number)
    }

    // The view that is previous for the key.
    fn previous_row(&self, key: &Key) -> Option<&View>
        ensures { option_copied result ≡ previous_row key.now self.now }
    {
        let Some(app) = self.entry(key) else {
            return None;
        };
        self.numbered_row(app.previous)
    }

    // The view that is current for the application at the place.
    pub(crate) fn current_at(&self, place: usize) -> Option<&View>
        ensures { option_copied result ≡ current_row_at place self.now }
    {
        let Some(app) = self.apps.as_slice().get(place) else {
            return None;
        };
        self.numbered_row(app.current)
    }

    // The view that is previous for it.
    pub(crate) fn previous_at(&self, place: usize) -> Option<&View>
        ensures { option_copied result ≡ previous_row_at place self.now }
    {
        let Some(app) = self.apps.as_slice().get(place) else {
            return None;
        };
        self.numbered_row(app.previous)
    }

    // The view that is current for the key.
    fn current_row(&self, key: &Key) -> Option<&View>
        ensures { option_copied result ≡ current_row key.now self.now }
    {
        let Some(app) = self.entry(key) else {
            return None;
        };
        let Some(number) = app.current else {
            return None;
        };
        self.view(number)
    }

    /// How many blocks files take, as far as a number goes: those of each content of a program file
    /// that stands in a view, and of each data file.
    pub fn used_blocks(&self) -> u64
        ensures { result ≡ min (used_blocks (map bare_row self.now.views)) (2 ^ 64 - 1) }
    {
        add_views(sum_blocks(self.contents.as_slice()), self.views.as_slice())
    }

    /// How many blocks of the room no file takes.
    pub fn free_blocks(&self, room: Room) -> u64
        ensures { result ≡ free_blocks (table_shape room self.now) }
    {
        room.blocks.saturating_sub(self.used_blocks())
    }

    /// Whether files take at most the blocks of the room.
    pub fn is_within(&self, room: Room) -> bool
        requires { room.blocks < 2 ^ 64 - 1 }
        ensures { IsTrue result ↔ used_blocks (map bare_row self.now.views) ≤ room.blocks }
    {
        self.used_blocks() <= room.blocks
    }
}
