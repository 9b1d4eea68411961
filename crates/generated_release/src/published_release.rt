// A release that is published in memory.
ghost use Rattle.std.specs.Prelude.{◌≡◌, Err, IfOk, IsSome, OnOk, Some};
ghost use Rattle.small_types.specs.Name.{IsName};
ghost use Rattle.folders.specs.Files.{file_in};
ghost use Rattle.generated_release.specs.declared.fault.GenerationFault.TheVariants.{Refused};
ghost use Rattle.generated_release.specs.Faults.{IsSure, fault_of};
ghost use Rattle.generated_release.specs.Files.{input_files as inputs};
ghost use Rattle.generated_release.specs.Options.{demo_key, number_of};
ghost use Rattle.generated_release.specs.Published.{IsPublished, IsRefused, IsWritten};
ghost use Rattle.generated_release.specs.SureFolder.{sure_held};

use crate::files::{input_files, name_of};
use crate::options::options_of;
use crate::sure_folder::SureFolder;
use crate::{GeneratedRelease, GenerationFault};
use folders::{Folder, FolderFault, MemFolder};
use identity::Key;
use publisher::{PublishFault, publish};
use small_types::Bytes;
use std::alloc::{AllocError, Global};

/// A folder in memory with a published release, the key of the application, and the texts of the
/// two manifests.
#[derive(Drop, Debug)]
pub struct PublishedRelease {
    pub folder: MemFolder,
    pub key: Key,
    pub deployment: Bytes,
    pub application: Bytes,
}

// A folder with the input files of the release.
fn input_folder(
    alloc: Global,
    seed: u64,
    release: GeneratedRelease,
) -> Result<SureFolder, AllocError>
    ensures { IfOk result (λ folder. sure_held folder ≡ inputs seed (number_of release)) }
{
    let files = input_files(alloc, seed, release.number())?;
    Ok(SureFolder::new(alloc, files))
}

// The bytes of the file of this name, which stands in the folder.
fn text_in(alloc: Global, folder: &mut SureFolder, name: &[u8]) -> Result<Bytes, AllocError>
    requires name { IsName name.now }
    requires stands { IsSome (file_in name.now (sure_held folder.old)) }
    ensures text { IfOk result (λ text. file_in name.now (sure_held folder.old) ≡ Some text) }
    ensures kept { sure_held folder.new ≡ sure_held folder.old }
{
    let name = name_of(alloc, name)?;
    match folder.get(alloc, &name) {
        Ok(Some(text)) => Ok(text),
        Err(FolderFault::Memory) => Err(AllocError),
        Ok(None) | Err(FolderFault::Failed) => unreachable!(),
    }
}

// What the fault of a publish is, where the folder never fails.
fn fault_of(fault: &PublishFault) -> GenerationFault
    requires { IsSure fault.now }
    ensures { result ≡ fault_of fault.now }
{
    match fault {
        PublishFault::Memory => GenerationFault::Memory,
        PublishFault::ReadFault | PublishFault::WriteFault | PublishFault::Changed { .. } => {
            unreachable!()
        }
        PublishFault::BadName { .. }
        | PublishFault::MinimumAbove { .. }
        | PublishFault::VersionExists { .. }
        | PublishFault::EmptyInput
        | PublishFault::BadInput { .. }
        | PublishFault::TooMany { .. }
        | PublishFault::NoEntryPoint
        | PublishFault::BadMark { .. }
        | PublishFault::FileTooLong { .. }
        | PublishFault::ManifestTooLong { .. } => GenerationFault::Refused,
    }
}

// Publishes the release in the folder, and answers its key.
fn publish_in(
    alloc: Global,
    folder: &mut SureFolder,
    release: GeneratedRelease,
) -> Result<Key, GenerationFault>
    ensures key { IfOk result (λ key. key ≡ demo_key) }
    ensures files { OnOk result (IsWritten release (sure_held folder.old)
        (sure_held folder.new)) }
    ensures refused { result ≡ Err Refused → IsRefused release (sure_held folder.old) }
{
    let options = options_of(alloc, release)?;
    match publish(alloc, &options, folder) {
        Ok(published) => Ok(published.key),
        Err(fault) => Err(fault_of(&fault)),
    }
}

/// Publishes the generated files of the release in a folder in memory, in which nothing else
/// stands. The folder that is handed out has these files and those of the release, and its calls
/// never fail. `Refused` comes only where the definition of a publish refuses the files.
pub fn publish_release(
    alloc: Global,
    seed: u64,
    release: GeneratedRelease,
) -> Result<PublishedRelease, GenerationFault>
    ensures published { IfOk result (IsPublished seed release) }
    ensures refused { result ≡ Err Refused
        → IsRefused release (inputs seed (number_of release)) }
{
    let mut folder = input_folder(alloc, seed, release)?;
    let key = publish_in(alloc, &mut folder, release)?;
    let deployment = text_in(alloc, &mut folder, release.deployment())?;
    let application = text_in(alloc, &mut folder, release.application())?;
    Ok(PublishedRelease {
        folder: folder.into_folder(),
        key,
        deployment,
        application,
    })
}
