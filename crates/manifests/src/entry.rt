// One file of an application manifest.
ghost use Rattle.std.specs.Prelude.{◌≡◌, ◌&&◌, not};
ghost use Rattle.manifest_parts.specs.Outcome.{Gives};
ghost use Rattle.manifests.specs.Applications as spec;
ghost use Rattle.manifests.specs.Listings.{listed};

use crate::FileEntry;
use crate::files::Files;
use crate::listing::Listing;
use manifest_parts::{
    ManifestFault, bad_name, digests_of, needed, size, truth, twice_named, within,
};
use small_types::limits::{
    FILE_COUNT_LIMIT, FILE_SIZE_LIMIT, LOCAL_COUNT_LIMIT, LOCAL_NAME_LIMIT, LOCAL_SIZE_LIMIT,
    NAME_LIMIT,
};
use small_types::{Limit, Name, NameFault, Text};
use std::alloc::Global;

// Whether a file of the name may be installed.
fn is_listed(local: bool, name: &Name) -> bool
    ensures { result ≡ spec.is_listed_name local name.now }
{
    !name.is_below_pre() && (!local || name.as_bytes().len() <= LOCAL_NAME_LIMIT)
}

// The name that the value spells, where it may be installed.
fn read_name(alloc: Global, local: bool, value: &Text) -> Result<Name, ManifestFault>
    ensures { Gives (λ n. n) result (spec.listed_name local value.now) }
{
    match Name::read(alloc, value.as_bytes()) {
        Err(NameFault::Memory) => Err(ManifestFault::Memory),
        Err(NameFault::Bad) => bad_name(alloc, value.as_str()),
        Ok(name) => {
            if is_listed(local, &name) {
                return Ok(name);
            }
            bad_name(alloc, value.as_str())
        }
    }
}

// The name of the file, which no earlier one has.
fn file_name(alloc: Global, before: &Files, listing: &Listing<'_>) -> Result<Name, ManifestFault>
    ensures { Gives (λ n. n) result (spec.file_name before.now (listed listing.now)) }
{
    let value = needed(alloc, listing.what, listing.name)?;
    let name = read_name(alloc, listing.local, value)?;
    if before.has(&name) {
        return twice_named(alloc, name.as_str());
    }
    Ok(name)
}

// The group that is kept: that of an optional program file, of one byte or more.
fn kept_group(optional: bool, local: bool, group: Text) -> Option<Text>
    ensures { result ≡ spec.in_group (optional && not local) group }
{
    if !optional || local || group.as_bytes().is_empty() {
        return None;
    }
    Some(group)
}

// The group of the file.
fn group_of(alloc: Global, listing: &Listing<'_>) -> Result<Option<Text>, ManifestFault>
    ensures { Gives (λ g. g) result (spec.group_of (listed listing.now)) }
{
    let optional = truth(alloc, "optional", false, listing.optional)?;
    let group = within(alloc, NAME_LIMIT, "group", listing.group)?;
    Ok(kept_group(optional, listing.local, group))
}

// The file, where there may be one more.
fn counted(before: &Files, entry: FileEntry) -> Result<FileEntry, ManifestFault>
    ensures { Gives (λ e. e) result (spec.counted before.now entry) }
{
    if before.count() >= FILE_COUNT_LIMIT {
        return Err(ManifestFault::TooMany { what: Limit::Files });
    }
    if entry.local && before.count_data() >= LOCAL_COUNT_LIMIT {
        return Err(ManifestFault::TooMany {
            what: Limit::Locals,
        });
    }
    Ok(entry)
}

/// The most bytes of a file, which are fewer of a data file.
pub(crate) fn size_limit(local: bool) -> u64
    ensures { result ≡ spec.size_limit local }
{
    if local {
        LOCAL_SIZE_LIMIT
    } else {
        FILE_SIZE_LIMIT
    }
}

/// The file that is listed behind these.
pub(crate) fn file_of(
    alloc: Global,
    before: &Files,
    listing: &Listing<'_>,
) -> Result<FileEntry, ManifestFault>
    ensures { Gives (λ e. e) result (spec.file_of before.now (listed listing.now)) }
{
    let name = file_name(alloc, before, listing)?;
    let size = size(alloc, size_limit(listing.local), listing.size)?;
    let list = digests_of(alloc, name.as_str(), listing.hashed)?;
    let group = group_of(alloc, listing)?;
    let local = listing.local;
    counted(
        before,
        FileEntry {
            name,
            size,
            list,
            group,
            local,
        },
    )
}
