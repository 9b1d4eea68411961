// Contents and files that are found in the tables, each through an index. None of it takes memory.
ghost use Rattle.std.specs.Prelude.{◌≡◌, ◌↔◌, ◌<◌, length, map, Contains, IfSome, IsTrue};
ghost use Rattle.std.specs.Option.{option_copied};
ghost use Rattle.machine.specs.Blocks.{standing_files};
ghost use Rattle.machine.specs.Wanted.{is_held};
ghost use Rattle.store_state.specs.Contents.{content_of, held_key};
ghost use Rattle.store_state.specs.Named.{content_at, named_at};
ghost use Rattle.store_state.specs.Places.{IsPlaceOf};
ghost use Rattle.store_state.specs.Tables.{bare_row};

use crate::content_key::place_of_content;
use crate::names::find_name;
use crate::views::place_of_view;
use crate::{Content, StoreState};
use digest_list::Digest;
use manifests::FileEntry;
use small_types::Name;

impl StoreState {
    // The place of the content of that size and those digests.
    fn place_of_content(&self, size: u64, list: &[Digest]) -> Option<usize>
        ensures found { IsPlaceOf (map held_key self.now.contents)
            (record { size = size; list = list.now }) result }
        ensures within { IfSome result (λ place. place < length self.now.contents) }
    {
        place_of_content(self.contents.as_slice(), self.index.as_slice(), size, list)
    }

    // Whether a content has that size and those digests.
    pub(crate) fn has_content(&self, size: u64, list: &[Digest]) -> bool
        ensures { IsTrue result ↔ Contains (map held_key self.now.contents)
            (record { size = size; list = list.now }) }
    {
        self.place_of_content(size, list).is_some()
    }

    // The content of the file, where there is one.
    fn content(&self, entry: &FileEntry) -> Option<&Content>
        ensures { option_copied result ≡ content_of self.now.contents entry.now }
    {
        match self.place_of_content(entry.size, entry.list.as_slice()) {
            Some(place) => Some(&self.contents.as_slice()[place]),
            None => None,
        }
    }

    /// Whether a program file with that content stands in a view.
    pub fn holds(&self, entry: &FileEntry) -> bool
        ensures { result ≡ is_held (standing_files (map bare_row self.now.views)) entry.now }
    {
        self.are_tables();
        self.has_content(entry.size, entry.list.as_slice())
    }

    // The program file of that name that stands in the view of that number.
    fn named(&self, number: u64, name: &Name) -> Option<&FileEntry>
        ensures { option_copied result ≡ named_at number name.now self.now }
    {
        match place_of_view(self.views.as_slice(), number) {
            Ok(place) => {
                let index = &self.names.as_slice()[place];
                find_name(&self.views.as_slice()[place], index.as_slice(), name)
            }
            Err(_) => None,
        }
    }

    /// The content of the program file of that name that stands in the view of that number.
    pub fn file(&self, number: u64, name: &Name) -> Option<&Content>
        ensures { option_copied result ≡ content_at number name.now self.now }
    {
        match self.named(number, name) {
            Some(entry) => self.content(entry),
            None => None,
        }
    }
}
