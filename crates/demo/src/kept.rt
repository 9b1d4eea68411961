// Whether the kept views have the generated files.
ghost use Rattle.std.specs.Prelude.{◌≡◌, ◌<◌, ℕ, List, All, Contains, map, IsTrue};
ghost use Rattle.std.specs.Option.{option_copied};
ghost use Rattle.machine.specs.Views.{same_digest};
ghost use Rattle.store_state.specs.Contents as spec;
ghost use Rattle.store_state.specs.Stored.{content_bytes};
ghost use Rattle.updater.specs.Updater.{tables_of};
ghost use Rattle.demo.specs.Parts.{Looks};
ghost use Rattle.generated_release.specs.Files.{file_bytes as file_text, generated_files};
ghost use Rattle.demo.specs.Kept.{HasGenerated, IsGenerated, IsProgramFile, TablesKeep, held_in, standing_of};
ghost use lib.Pointwise.{pointwise};

use crate::DemoFault;
use digest_list::Digest;
use disks::Disk;
use generated_release::{FILE_COUNT, file_bytes, file_name};
use manifests::FileEntry;
use outside::Failed;
use std::alloc::{AllocError, Global};
use store_state::{Content, View};
use updater::Updater;

// Whether the digests are equal.
fn is_same_digest(a: &Digest, b: &Digest) -> bool
    ensures { result ≡ same_digest a.now b.now }
{
    a.algorithm.name() == b.algorithm.name() && a.value.as_slice() == b.value.as_slice()
}

// Whether the lists of digests are equal.
fn are_same_digests(a: &[Digest], b: &[Digest]) -> bool
    ensures { result ≡ pointwise same_digest a.now b.now }
{
    if a.len() != b.len() {
        return false;
    }
    for place in 0..a.len() {
        if !is_same_digest(&a[place], &b[place]) {
            return false;
        }
    }
    true
}

// Whether the content is that of the file.
fn is_content_of(entry: &FileEntry, content: &Content) -> bool
    ensures { result ≡ spec.is_content_of entry.now content.now }
{
    entry.size == content.size && are_same_digests(entry.list.as_slice(), content.list.as_slice())
}

// The content of the file, where there is one.
fn find_content<'a>(contents: &'a [Content], entry: &FileEntry) -> Option<&'a Content>
    ensures { option_copied result ≡ spec.content_of contents.now entry.now }
{
    contents
        .iter()
        .find(|content| is_content_of(entry, content))
}

// Whether the content has the bytes of the generated file.
fn has_bytes_of<D: Disk>(
    alloc: Global,
    updater: &Updater,
    disk: &mut D,
    seed: u64,
    version: u16,
    file: u64,
    content: &Content,
) -> Result<bool, DemoFault>
    requires { Contains (tables_of updater.now).contents content.now }
    ensures { Looks D.Disk (λ room image. content_bytes room image content.now
        ≡ file_text seed version file) updater.now disk.old result disk.new }
{
    let made = match file_bytes(alloc, seed, version, file) {
        Ok(made) => made,
        Err(AllocError) => return Err(DemoFault::Memory),
    };
    match updater.has_content(disk, content, made.as_slice()) {
        Ok(same) => Ok(same),
        Err(Failed) => Err(DemoFault::DiskFault),
    }
}

// Whether the file is a program file in no group that has the name of the generated one.
fn is_named(file: u64, entry: &FileEntry) -> bool
    requires { file < 1000 }
    ensures { IsTrue result → IsProgramFile file entry.now }
{
    if entry.local {
        return false;
    }
    if entry.group.is_some() {
        return false;
    }
    entry.name.as_bytes() == file_name(file).as_slice()
}

// Whether the file is a program file in no group that has the name and the bytes of the generated
// one.
fn is_generated<D: Disk>(
    alloc: Global,
    updater: &Updater,
    disk: &mut D,
    seed: u64,
    version: u16,
    file: u64,
    entry: &FileEntry,
) -> Result<bool, DemoFault>
    requires { file < 1000 }
    ensures { Looks D.Disk (λ room image. IsGenerated (held_in room image
        (tables_of updater.now).contents) seed version file entry.now) updater.now disk.old result
        disk.new }
{
    if !is_named(file, entry) {
        return Ok(false);
    }
    match find_content(updater.state().contents.as_slice(), entry) {
        Some(content) => has_bytes_of(alloc, updater, disk, seed, version, file, content),
        None => Ok(false),
    }
}

// Whether the files are the generated ones of the version, in order.
fn are_generated<D: Disk>(
    alloc: Global,
    updater: &Updater,
    disk: &mut D,
    seed: u64,
    version: u16,
    files: &[FileEntry],
) -> Result<bool, DemoFault>
    ensures { Looks D.Disk (λ room image. (groups : List (List ℕ))
        → map (held_in room image (tables_of updater.now).contents) (standing_of groups files.now)
        ≡ generated_files seed version) updater.now disk.old result disk.new }
{
    if files.len() != FILE_COUNT as usize {
        return Ok(false);
    }
    for file in 0..FILE_COUNT {
        let entry = &files[file as usize];
        match is_generated(alloc, updater, disk, seed, version, file, entry) {
            Ok(true) => {}
            Ok(false) => return Ok(false),
            Err(fault) => return Err(fault),
        }
    }
    Ok(true)
}

// Whether the files of the view are the generated ones of its version.
fn has_generated<D: Disk>(
    alloc: Global,
    updater: &Updater,
    disk: &mut D,
    seed: u64,
    view: &View,
) -> Result<bool, DemoFault>
    ensures { Looks D.Disk (λ room image. HasGenerated room image seed
        (tables_of updater.now).contents view.now) updater.now disk.old result disk.new }
{
    let version = view.deployment.identity.version.a;
    let files = view.application.files.as_slice();
    are_generated(alloc, updater, disk, seed, version, files)
}

// Whether those of each view are.
fn each_has_generated<D: Disk>(
    alloc: Global,
    updater: &Updater,
    disk: &mut D,
    seed: u64,
    views: &[View],
) -> Result<bool, DemoFault>
    ensures { Looks D.Disk (λ room image. All (HasGenerated room image seed
        (tables_of updater.now).contents) views.now) updater.now disk.old result disk.new }
{
    for view in views {
        match has_generated(alloc, updater, disk, seed, view) {
            Ok(true) => {}
            Ok(false) => return Ok(false),
            Err(fault) => return Err(fault),
        }
    }
    Ok(true)
}

/// Whether the files of each view are the generated ones of its version. `DiskFault`: the disk failed.
/// `Memory`: there was none.
pub(crate) fn keeps_generated<D: Disk>(
    alloc: Global,
    seed: u64,
    updater: &Updater,
    disk: &mut D,
) -> Result<bool, DemoFault>
    ensures { Looks D.Disk (λ room image. TablesKeep room image seed (tables_of updater.now))
        updater.now disk.old result disk.new }
{
    each_has_generated(alloc, updater, disk, seed, updater.state().views.as_slice())
}
