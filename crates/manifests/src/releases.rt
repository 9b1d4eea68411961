// A deployment and an application that belong together.
ghost use Rattle.std.specs.Prelude.{◌≡◌, ◌<◌, ◌^◌, length, Ok, OnOk, IfOk, IfErr, IsOkUnless};
ghost use Rattle.digest_list.specs.Matches.{Matches};
ghost use Rattle.manifest_parts.specs.Parts.{Tells};
ghost use Rattle.manifests.specs.declared.releases.ReleaseFault.TheVariants.{Memory};
ghost use Rattle.manifests.specs.Applications.{application_of};
ghost use Rattle.manifests.specs.Releases.{IsRelease, Refuses, RefusesBytes, RefusesIdentity};

use crate::{Application, Deployment, Release};
use digest_list::{Difference, difference_of};
use identity::{Key, Version};
use small_types::{CopyFault, Duplicate};
use std::alloc::Global;
use std::error::Error;
use std::fmt;

/// Why a deployment and an application do not belong together.
#[derive(Drop, Debug, PartialEq, Eq)]
pub enum ReleaseFault {
    /// The application manifest's bytes are not the ones that the deployment lists.
    Mismatch { difference: Difference },
    /// The application's key is not the listed one.
    IdentityDiffers { listed: Key, found: Key },
    /// The application's version is not the listed one.
    VersionDiffers { listed: Version, found: Version },
    /// There was no memory.
    Memory,
}

impl fmt::Display for ReleaseFault {
    fn fmt<W: fmt::Write>(&self, f: &mut fmt::Formatter<W>) -> fmt::Result {
        match self {
            ReleaseFault::Mismatch { .. } => write!(
                f,
                "another application manifest than is listed"
            ),
            ReleaseFault::IdentityDiffers { .. } => write!(f, "another key than is listed"),
            ReleaseFault::VersionDiffers { .. } => write!(f, "another version than is listed"),
            ReleaseFault::Memory => write!(f, "out of memory"),
        }
    }
}

impl Error for ReleaseFault {}

impl From<CopyFault> for ReleaseFault {
    ghost from_gives = { λ _ e. e ≡ Memory };

    fn from(_: CopyFault) -> Self {
        ReleaseFault::Memory
    }
}

// Whether the bytes are the ones that the deployment lists.
fn check_bytes(alloc: Global, d: &Deployment, bytes: &[u8]) -> Result<(), ReleaseFault>
    requires { length bytes.now < 2 ^ 61 }
    ensures listed { OnOk result (Matches d.now.app_list d.now.app_size bytes.now) }
    ensures refused { IfErr result (RefusesBytes d.now bytes.now) }
    ensures accepted { Matches d.now.app_list d.now.app_size bytes.now → IsOkUnless result Memory }
{
    match difference_of(alloc, &d.app_list, d.app_size, bytes)? {
        None => Ok(()),
        Some(difference) => Err(ReleaseFault::Mismatch { difference }),
    }
}

// Whether the application has the key and the version that the deployment lists.
fn check_identity(alloc: Global, d: &Deployment, a: &Application) -> Result<(), ReleaseFault>
    ensures key { OnOk result (a.now.identity.key ≡ d.now.app.key) }
    ensures version { OnOk result (a.now.identity.version ≡ d.now.app.version) }
    ensures refused { IfErr result (RefusesIdentity d.now a.now) }
    ensures accepted { a.now.identity.key ≡ d.now.app.key
        → a.now.identity.version ≡ d.now.app.version → IsOkUnless result Memory }
{
    if d.app.key != a.identity.key {
        return Err(ReleaseFault::IdentityDiffers {
            listed: d.app.key.copy(alloc)?,
            found: a.identity.key.copy(alloc)?,
        });
    }
    if d.app.version != a.identity.version {
        return Err(ReleaseFault::VersionDiffers {
            listed: d.app.version,
            found: a.identity.version,
        });
    }
    Ok(())
}

/// Equal copies of the deployment and the application, where they belong together: the bytes, which read as the
/// application, are the ones that the deployment lists, and so are the application's key and version.
/// `Mismatch` comes exactly where the bytes are not the ones that the deployment lists, else `IdentityDiffers` exactly
/// where the key is another, and else `VersionDiffers` exactly where the version is. `Memory` may come at any of them.
/// The deployment's own key and version may be others.
pub fn release(
    alloc: Global,
    d: &Deployment,
    a: &Application,
    bytes: &[u8],
) -> Result<Release, ReleaseFault>
    requires { Tells application_of bytes.now (Ok a.now) }
    ensures deployment { IfOk result (λ r. r.deployment ≡ d.now) }
    ensures application { IfOk result (λ r. r.application ≡ a.now) }
    ensures only_releases { OnOk result (IsRelease d.now a.now bytes.now) }
    ensures each_release { IsRelease d.now a.now bytes.now → IsOkUnless result Memory }
    ensures refused { IfErr result (Refuses d.now a.now bytes.now) }
{
    check_bytes(alloc, d, bytes)?;
    check_identity(alloc, d, a)?;
    let deployment = d.copy(alloc)?;
    match a.copy(alloc) {
        Ok(application) => Ok(Release {
            deployment,
            application,
        }),
        Err(fault) => {
            drop(deployment);
            Err(ReleaseFault::from(fault))
        }
    }
}
