// What the types of values say of them.
ghost use Rattle.std.specs.Prelude.{All, IfSome};
ghost use Rattle.base64.specs.GeneralPurpose.{IsBytes};
ghost use Rattle.identity.specs.Version.{IsVersion};
ghost use Rattle.manifest_writer.specs.Held.{IsHeldDigest, AreHeldDigests, IsHeldDeployment, IsHeldFile};

use digest_list::{Digest, DigestList};
use identity::Version;
use manifests::{Deployment, FileEntry};

// The numbers of a version fit.
pub(crate) fn version_held(version: Version)
    ensures { IsVersion version }
{
    let Version { .. } = version;
}

// So do those of a minimum.
fn minimum_held(minimum: Option<Version>)
    ensures { IfSome minimum IsVersion }
{
    if let Some(version) = minimum {
        version_held(version);
    }
}

// Each number of a slice of bytes is one.
fn bytes_held(bytes: &[u8])
    ensures { IsBytes bytes.now }
{
    let _ = bytes.len();
}

// The value of a digest is bytes.
fn digest_held(digest: &Digest)
    ensures { IsHeldDigest digest.now }
{
    bytes_held(digest.value.as_slice());
}

// So are those of a list, which has one to eight.
fn digests_held(digests: &DigestList)
    ensures { AreHeldDigests digests.now }
{
    let list = digests.as_slice();
    for digest in list {
        digest_held(digest);
    }
}

// What is held of a deployment.
pub(crate) fn deployment_held(d: &Deployment)
    ensures { IsHeldDeployment d.now }
{
    version_held(d.identity.version);
    minimum_held(d.minimum);
    version_held(d.app.version);
    digests_held(&d.app_list);
}

// What is held of a file: its name is one.
fn file_held(entry: &FileEntry)
    ensures { IsHeldFile entry.now }
{
    let _ = entry.name.as_bytes();
    digests_held(&entry.list);
}

// What is held of files.
pub(crate) fn files_held(files: &[FileEntry])
    ensures { All IsHeldFile files.now }
{
    for entry in files {
        file_held(entry);
    }
}
