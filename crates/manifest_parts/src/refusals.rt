// Refusals that name what is refused. Each is `Memory` where its name finds no memory.
ghost use Rattle.std.specs.Prelude.{◌≡◌, IfOk, IsErrOf, OnErr};
ghost use Rattle.manifest_parts.specs.Outcome.{Refused};

use crate::fault::ManifestFault;
use small_types::Text;
use std::alloc::Global;

// A text of its own.
pub(crate) fn text_of(alloc: Global, text: &str) -> Result<Text, ManifestFault>
    ensures text { IfOk result (λ t. t ≡ text.now) }
    ensures memory { OnErr result (IsErrOf result ManifestFault.Memory) }
{
    Ok(Text::from_string(String::from_str(alloc, text)?))
}

/// An element or an attribute of the local name is missing.
pub fn missing<T>(alloc: Global, what: &str) -> Result<T, ManifestFault>
    ensures { Refused (ManifestFault.Missing what.now) result }
{
    let what = text_of(alloc, what)?;
    Err(ManifestFault::Missing { what })
}

/// An element of the local name stands twice.
pub fn twice<T>(alloc: Global, what: &str) -> Result<T, ManifestFault>
    ensures { Refused (ManifestFault.Twice what.now) result }
{
    let what = text_of(alloc, what)?;
    Err(ManifestFault::Twice { what })
}

/// The value of the element or attribute of the local name is out of its form or its limit.
pub fn bad_value<T>(alloc: Global, what: &str) -> Result<T, ManifestFault>
    ensures { Refused (ManifestFault.BadValue what.now) result }
{
    let what = text_of(alloc, what)?;
    Err(ManifestFault::BadValue { what })
}

/// No digest of the file is of a known algorithm.
pub fn no_digest<T>(alloc: Global, file: &str) -> Result<T, ManifestFault>
    ensures { Refused (ManifestFault.NoDigest file.now) result }
{
    let file = text_of(alloc, file)?;
    Err(ManifestFault::NoDigest { file })
}

/// The name is no name of an installed file.
pub fn bad_name<T>(alloc: Global, file: &str) -> Result<T, ManifestFault>
    ensures { Refused (ManifestFault.BadName file.now) result }
{
    let file = text_of(alloc, file)?;
    Err(ManifestFault::BadName { file })
}

/// Two files have the name.
pub fn twice_named<T>(alloc: Global, file: &str) -> Result<T, ManifestFault>
    ensures { Refused (ManifestFault.TwiceNamed file.now) result }
{
    let file = text_of(alloc, file)?;
    Err(ManifestFault::TwiceNamed { file })
}
