// The data files that releases deploy, in tables by their names.
ghost use Rattle.std.specs.Prelude.{◌≡◌, ℕ, List, [], ◌∷◌, IfOk, OnOk};
ghost use Rattle.std.specs.Option.{option_copied, option_or};
ghost use Rattle.machine.specs.Migrated.{deployed};
ghost use Rattle.data_migration.specs.Tables.{IsTable, entry_at, stays_by};

use crate::MigrateFault;
use crate::same::same_content;
use manifests::FileEntry;
use small_types::Name;
use std::alloc::Global;
use std::collections::BTreeMap;

/// The data files that a release deploys, by their names. Of one name the first file counts.
pub type Deployed<'a> = BTreeMap<&'a str, &'a FileEntry>;

// Adds the file, where it is a data file and none of its name is there.
fn add<'a>(table: &mut Deployed<'a>, entry: &'a FileEntry) -> Result<(), MigrateFault>
    ensures { OnOk result ((name : List ℕ) → entry_at table.new name
        ≡ option_or (entry_at table.old name) (deployed (entry.now ∷ []) name)) }
{
    let name = entry.name.as_str();
    if !entry.local || table.contains_key(name) {
        return Ok(());
    }
    table.insert(name, entry)?;
    Ok(())
}

/// The data files among the files. It fails only for want of memory.
pub fn deployed<'a>(alloc: Global, files: &'a [FileEntry]) -> Result<Deployed<'a>, MigrateFault>
    ensures { IfOk result (λ table. IsTable table files.now) }
{
    let mut table = BTreeMap::new(alloc);
    for entry in files {
        add(&mut table, entry)?;
    }
    Ok(table)
}

// The data file of that name.
fn find<'a>(table: &Deployed<'a>, name: &Name) -> Option<&'a FileEntry>
    ensures { option_copied result ≡ entry_at table.now name.now }
{
    table.get(name.as_str()).copied()
}

/// Whether an old data file of that name stays, by the data files of the old release and of the new
/// one: the new release does not deploy it, or both releases do, with one content.
pub fn stays(before: &Deployed, after: &Deployed, name: &Name) -> bool
    ensures { result ≡ stays_by before.now after.now name.now }
{
    match (find(before, name), find(after, name)) {
        (_, None) => true,
        (None, Some(_)) => false,
        (Some(was), Some(now)) => same_content(was, now),
    }
}
