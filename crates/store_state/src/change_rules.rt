// Which changes fit the tables.
ghost use Rattle.std.specs.Prelude.{◌≡◌, ◌↔◌, ◌+◌, ◌<◌, ◌≤◌, length, map, List, [], None, IsSome, IsTrue, IfOk, OnErr};
ghost use Rattle.small_types.specs.declared.limits.TheConstants as limits;
ghost use Rattle.identity.specs.Version.{IsVersion};
ghost use Rattle.machine.specs.Entries.{entry_of};
ghost use Rattle.machine.specs.Fields.{IsShortKey, IsTarget};
ghost use Rattle.manifests.specs.declared.facts.FileEntry.{FileEntry};
ghost use Rattle.machine.specs.Views.{content_key};
ghost use Rattle.store_state.specs.Change.{Fits, FitsGroup, FitsHeard, FitsInstall, FitsLaunch, FitsPut, FitsRollback, FitsSkip, MayGrow, MayPut, TestsWithMemory};
ghost use Rattle.store_state.specs.Contents.{Brings};
ghost use Rattle.store_state.specs.Locals.{local_at};
ghost use Rattle.store_state.specs.Rows.{current_at, listed_files, offer_at};

use crate::brought_contents::{agree, group_keys, standing_keys};
use crate::content_key::{ContentKey, keys_of, sort_keys};
use crate::fields::{is_local, is_row, is_short_key, is_some_version, is_target, is_version};
use crate::local_files::has_room_for;
use crate::{Change, Content, LocalFile, StateFault, StoreState, View};
use identity::{Key, Version};
use small_types::limits::{
    APPLICATION_LIMIT, FILE_COUNT_LIMIT, LEASE_LIMIT, NUMBER_LIMIT, VIEW_LIMIT,
};
use small_types::{List, Name, Target, Text};
use std::alloc::Global;

impl StoreState {
    /// Whether the change may be made: a boot number is at most 2 ^ 62, a key's parts are within
    /// their limits (one may be empty), and a new application finds fewer than 256. The view that
    /// an install brings has the next number and manifests that can be read, no group of it stands
    /// yet, and its contents are exactly those that the tables lack; views and their files are not
    /// too many. A launch names the place of an application with a current view, and finds fewer
    /// than 1,024 leases and a next number below 2 ^ 62; a finish names a lease. What a check heard
    /// or did not hear is of a key with a current view, at a moment of at most 2 ^ 62, and a skip
    /// names the place of an application with a current view and an offer, a rollback that of one
    /// with a current view and a previous one. A group comes to a view that lists it and in which
    /// it does not stand, and its contents are exactly those that the tables lack. A data file has
    /// a name within its limit and comes to a view that has few enough of them then, and a view has
    /// the one that is removed. A clean always fits. It takes memory for an install and a group
    /// alone.
    pub fn fits(&self, alloc: Global, change: &Change) -> Result<bool, StateFault>
        ensures answer { IfOk result (λ answer. IsTrue answer ↔ Fits self.now change.now) }
        ensures memory { OnErr result (TestsWithMemory change.now) }
    {
        match change {
            Change::Boot { boot } => Ok(*boot <= NUMBER_LIMIT),
            Change::Require { key, version } => Ok(self.fits_require(key, *version)),
            Change::Install {
                view,
                contents,
                provider,
                now,
            } => self.fits_install(alloc, view, contents, provider, *now),
            Change::Heard {
                key,
                version,
                minimum,
                now,
            } => Ok(self.fits_heard(key, *version, *minimum, *now)),
            Change::Unheard { key } => Ok(self.current(key).is_some()),
            Change::Skip { app } => Ok(self.fits_skip(*app as usize)),
            Change::Rollback { app } => Ok(self.fits_rollback(*app as usize)),
            Change::Launch { app } => Ok(self.fits_launch(*app as usize)),
            Change::Finish { lease } => Ok(self.lease(*lease).is_some()),
            Change::Group {
                view,
                group,
                contents,
            } => self.fits_group(alloc, *view, group, contents),
            Change::Put { view, file } => Ok(self.fits_put(*view, file)),
            Change::Remove { view, name } => Ok(self.has_local(*view, name)),
            Change::Clean => Ok(true),
        }
    }

    // Whether a lease may be had on the current view of the application at the place.
    fn fits_launch(&self, place: usize) -> bool
        ensures { IsTrue result ↔ FitsLaunch self.now place }
    {
        self.is_installed(place)
            && self.leases.as_slice().len() < LEASE_LIMIT
            && self.next_lease < NUMBER_LIMIT
    }

    // Whether an application stands at the place and has a current view.
    fn is_installed(&self, place: usize) -> bool
        ensures { IsTrue result ↔ IsSome (current_at place self.now.apps) }
    {
        match self.apps.as_slice().get(place) {
            Some(app) => app.current.is_some(),
            None => false,
        }
    }

    // Whether a version is offered to the application at the place.
    fn has_offer(&self, place: usize) -> bool
        ensures { IsTrue result ↔ IsSome (offer_at place self.now.apps) }
    {
        match self.apps.as_slice().get(place) {
            Some(app) => app.offer.is_some(),
            None => false,
        }
    }

    // Whether the application at the place may skip what is offered.
    fn fits_skip(&self, place: usize) -> bool
        ensures { IsTrue result ↔ FitsSkip self.now place }
    {
        self.is_installed(place) && self.has_offer(place)
    }

    // Whether the application at the place may go back.
    fn fits_rollback(&self, place: usize) -> bool
        ensures { IsTrue result ↔ FitsRollback self.now place }
    {
        self.current_at(place).is_some() && self.previous_at(place).is_some()
    }

    // Whether a check of the key may have heard that.
    fn fits_heard(&self, key: &Key, version: Version, minimum: Option<Version>, now: u64) -> bool
        ensures { IsTrue result ↔ FitsHeard self.now key.now version minimum now }
    {
        self.current(key).is_some()
            && is_version(version)
            && is_some_version(minimum)
            && now <= NUMBER_LIMIT
    }

    // Whether that version may be required of the key.
    fn fits_require(&self, key: &Key, version: Version) -> bool
        ensures { IsTrue result ↔ (IsShortKey key.now × IsVersion version
            × (entry_of key.now self.now.apps ≡ None
            → length self.now.apps < limits.APPLICATION_LIMIT)) }
    {
        is_short_key(key) && self.has_room(key)
    }

    // Whether the key has an entry, or there is room for one.
    fn has_room(&self, key: &Key) -> bool
        ensures { IsTrue result
            ↔ (entry_of key.now self.now.apps ≡ None
            → length self.now.apps < limits.APPLICATION_LIMIT) }
    {
        self.count() < APPLICATION_LIMIT || self.entry(key).is_some()
    }

    // Whether the view finds room and has the next number.
    fn is_next(&self, view: &View, now: u64) -> bool
        ensures { IsTrue result ↔ ((view.now.number ≡ self.now.next_view)
            × (self.now.next_view < limits.NUMBER_LIMIT)
            × (now ≤ limits.NUMBER_LIMIT) × (view.now.groups ≡ [])
            × (length self.now.views < limits.VIEW_LIMIT)
            × (listed_files self.now.views + length view.now.application.files
            ≤ limits.FILE_COUNT_LIMIT)) }
    {
        view.number == self.next_view
            && self.next_view < NUMBER_LIMIT
            && now <= NUMBER_LIMIT
            && view.groups.as_slice().is_empty()
            && self.view_count() < VIEW_LIMIT
            && has_place(self.file_count(), view.application.files.as_slice().len())
    }

    // Whether the view may be installed with the contents.
    fn fits_install(
        &self,
        alloc: Global,
        view: &View,
        contents: &List<Content>,
        provider: &Target,
        now: u64,
    ) -> Result<bool, StateFault>
        ensures { IfOk result (λ answer. IsTrue answer
            ↔ FitsInstall self.now view.now contents.now provider.now now) }
    {
        if !self.is_next(view, now) || !is_target(provider) {
            return Ok(false);
        }
        if !self.has_room(&view.deployment.identity.key) {
            return Ok(false);
        }
        if !is_row(alloc, view)? {
            return Ok(false);
        }
        let standing = standing_keys(alloc, view)?;
        self.is_brought(alloc, standing, contents.as_slice())
    }

    // Whether the group may come to the view of that number with the contents.
    fn fits_group(
        &self,
        alloc: Global,
        number: u64,
        group: &Text,
        contents: &List<Content>,
    ) -> Result<bool, StateFault>
        ensures { IfOk result (λ answer. IsTrue answer
            ↔ FitsGroup self.now number group.now contents.now) }
    {
        match self.view(number) {
            Some(view) => self.may_grow(alloc, view, group, contents),
            None => Ok(false),
        }
    }

    // Whether it may come to the view.
    fn may_grow(
        &self,
        alloc: Global,
        view: &View,
        group: &Text,
        contents: &List<Content>,
    ) -> Result<bool, StateFault>
        ensures { IfOk result (λ answer. IsTrue answer
            ↔ MayGrow self.now group.now contents.now view.now) }
    {
        if !view.lists_group(group) || view.has_group(group) {
            return Ok(false);
        }
        let standing = group_keys(alloc, view, group)?;
        self.is_brought(alloc, standing, contents.as_slice())
    }

    // Whether the data file may be put into the view of that number.
    fn fits_put(&self, number: u64, file: &LocalFile) -> bool
        ensures { IsTrue result ↔ FitsPut self.now number file.now }
    {
        match self.view(number) {
            Some(view) => may_put(view, file),
            None => false,
        }
    }

    // Whether the view of that number has a data file of the name.
    fn has_local(&self, number: u64, name: &Name) -> bool
        ensures { IsTrue result ↔ IsSome (local_at number name.now self.now) }
    {
        match self.view(number) {
            Some(view) => view.local(name).is_some(),
            None => false,
        }
    }

    // Whether the contents are exactly those that the tables lack of files with these keys.
    fn is_brought(
        &self,
        alloc: Global,
        mut files: Vec<ContentKey>,
        contents: &[Content],
    ) -> Result<bool, StateFault>
        ensures { IfOk result (λ answer. (entries : List FileEntry)
            → files.items ≡ map content_key entries
            → IsTrue answer ↔ Brings self.now.contents entries contents.now) }
    {
        sort_keys(&mut files);
        let mut brought = keys_of(alloc, contents)?;
        sort_keys(&mut brought);
        Ok(agree(self, files.as_slice(), brought.as_slice()))
    }
}

// Whether there is a place for so many files beside the others.
fn has_place(others: usize, files: usize) -> bool
    requires { others ≤ limits.FILE_COUNT_LIMIT }
    ensures { IsTrue result ↔ others + files ≤ limits.FILE_COUNT_LIMIT }
{
    files <= FILE_COUNT_LIMIT - others
}

// Whether the view may have the data file.
fn may_put(view: &View, file: &LocalFile) -> bool
    ensures { IsTrue result ↔ MayPut file.now view.now }
{
    is_local(file) && has_room_for(view.locals.as_slice(), file)
}
