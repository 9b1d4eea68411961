// Names of data files that are carried over.
ghost use Rattle.std.specs.Prelude.{◌≡◌, ◌≤◌, length, not, IfOk};
ghost use Rattle.small_types.specs.declared.limits.TheConstants.{LOCAL_NAME_LIMIT};
ghost use Rattle.manifests.specs.Applications.{is_below_pre};
ghost use Rattle.machine.specs.Migrated.{aside};
ghost use Rattle.data_migration.specs.Plans.{carried_to};

use crate::MigrateFault;
use small_types::{Duplicate, Name, NameFault};
use std::alloc::Global;

// Whether the first part of the name is not `.pre`.
pub(crate) fn is_outside(name: &Name) -> bool
    ensures { result ≡ not (is_below_pre name.now) }
{
    !name.is_below_pre()
}

// The bytes of `.pre/` and the name.
fn aside_bytes(alloc: Global, name: &[u8]) -> Result<Vec<u8>, MigrateFault>
    ensures { IfOk result (λ bytes. bytes.items ≡ aside name.now) }
{
    let mut bytes = Vec::new(alloc);
    bytes.extend_from_slice(b".pre/".as_slice())?;
    bytes.extend_from_slice(name)?;
    Ok(bytes)
}

// The name below `.pre`.
fn aside(alloc: Global, name: &Name) -> Result<Name, MigrateFault>
    requires { length name.now ≤ LOCAL_NAME_LIMIT }
    ensures { IfOk result (λ other. other ≡ aside name.now) }
{
    let bytes = aside_bytes(alloc, name.as_bytes())?;
    match Name::read(alloc, &bytes) {
        Ok(name) => Ok(name),
        Err(NameFault::Memory) => Err(MigrateFault::Memory),
        Err(NameFault::Bad) => unreachable!(),
    }
}

// The name where an old data file of that name stays, else the name below `.pre`.
pub(crate) fn carried_to(alloc: Global, name: &Name, stays: bool) -> Result<Name, MigrateFault>
    requires { length name.now ≤ LOCAL_NAME_LIMIT }
    ensures { IfOk result (λ to. to ≡ carried_to stays name.now) }
{
    if stays {
        return Ok(name.copy(alloc)?);
    }
    aside(alloc, name)
}
