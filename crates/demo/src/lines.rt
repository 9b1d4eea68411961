// The lines of a generated run.
ghost use Rattle.std.specs.Prelude.{◌≡◌, ℕ, [], ◌∷◌, false, length, IfErr, IsTrue, OnOk};
ghost use Rattle.machine.specs.declared.command.Command.TheVariants as command;
ghost use Rattle.machine.specs.declared.reply.Reply.TheVariants as says;
ghost use Rattle.machine.specs.Words.{IsCommand};
ghost use Rattle.identity.specs.Key.{IsKey};
ghost use Rattle.generated_release.specs.declared.release.GeneratedRelease.TheVariants as releases;
ghost use Rattle.generated_release.specs.Options.{demo_key, number_of, url_of, version_of};
ghost use Rattle.demo.specs.Parts.{CommandReplies, Goes, IsAsPublished, IsNeitherFault};
ghost use Rattle.demo.specs.Steps.{Cleans, Finishes, Installs, IsSite, Launches};

use crate::site::Site;
use crate::words::words_of;
use crate::{DemoFault, DemoLine, Installed};
use disks::Disk;
use fetcher::FolderLink;
use folders::MemFolder;
use generated_release::GeneratedRelease;
use identity::Key;
use links::{Links, Single};
use machine::{Command, Heard, Reply};
use outside::Failed;
use small_types::{Bytes, CopyFault, Duplicate, List};
use std::alloc::{AllocError, Global};
use updater::Updater;

// What a line heard before it is run.
fn nothing_heard(alloc: Global) -> Heard
    ensures { result.texts ≡ [] }
{
    Heard {
        texts: List::from_vec(Vec::new(alloc)),
    }
}

// Runs a command at moment 0, and answers the texts that it heard and its reply.
fn answer<D: Disk, L: Links>(
    alloc: Global,
    disk: &mut D,
    links: &mut L,
    updater: &mut Updater,
    command: &Command,
) -> Result<(Heard, Reply), DemoFault>
    requires { IsCommand command.now }
    ensures { CommandReplies D.Disk L.Links command.now updater.old disk.old links.old result
        updater.new disk.new links.new }
{
    let mut heard = nothing_heard(alloc);
    match updater.apply(alloc, disk, links, 0, command, &mut heard) {
        Ok(reply) => Ok((heard, reply)),
        Err(Failed) => Err(DemoFault::DiskFault),
    }
}

// Runs a command at moment 0, and lets it go.
fn answer_once<D: Disk, L: Links>(
    alloc: Global,
    command: Command,
    disk: &mut D,
    links: &mut L,
    updater: &mut Updater,
) -> Result<(Heard, Reply), DemoFault>
    requires { IsCommand command }
    ensures { CommandReplies D.Disk L.Links command updater.old disk.old links.old result
        updater.new disk.new links.new }
{
    let said = answer(alloc, disk, links, updater, &command);
    drop(command);
    said
}

// The fault of a line that is answered so, and not as it must be.
fn other_answer(asked: DemoLine, reply: &Reply) -> DemoFault
    ensures { IsNeitherFault result }
{
    let came = words_of(reply);
    match reply {
        Reply::Memory => DemoFault::Memory,
        _ => DemoFault::Answered { asked, came },
    }
}

// Whether the release is installed, as the view of its number.
fn is_installed(reply: &Reply, key: &Key, release: GeneratedRelease) -> bool
    ensures { IsTrue result
        → reply.now ≡ says.Installed key.now (version_of release) (number_of release) }
{
    match reply {
        Reply::Installed {
            key: found,
            version,
            view,
        } => { *found == *key && *version == release.version() && *view == release.number() as u64 }
        _ => false,
    }
}

// Whether the texts are those two.
fn are_texts(heard: &[Bytes], deployment: &Bytes, application: &Bytes) -> bool
    ensures { IsTrue result → heard.now ≡ deployment.now ∷ application.now ∷ [] }
{
    match heard {
        [first, second] => *first == *deployment && *second == *application,
        _ => false,
    }
}

// How many targets were asked for.
fn asked_count(links: &Single<FolderLink<MemFolder>>) -> u64
    ensures { result ≡ length links.now.asked }
{
    links.asked.as_slice().len() as u64
}

// Asks for the install of the release.
fn ask_install<D: Disk, L: Links>(
    alloc: Global,
    release: GeneratedRelease,
    disk: &mut D,
    links: &mut L,
    updater: &mut Updater,
) -> Result<(Heard, Reply), DemoFault>
    ensures { CommandReplies D.Disk L.Links (command.Install (url_of release)) updater.old disk.old
        links.old result updater.new disk.new links.new }
{
    match Bytes::from_slice(alloc, release.url()) {
        Ok(url) => answer_once(alloc, Command::Install { url }, disk, links, updater),
        Err(AllocError) => Err(DemoFault::Memory),
    }
}

// The release is installed as the view of its number, and the published texts were heard.
fn judge_install(
    said: &(Heard, Reply),
    release: GeneratedRelease,
    site: &Site,
) -> Result<(), DemoFault>
    ensures published { OnOk result (IsAsPublished said.now release site.now) }
    ensures fault { IfErr result IsNeitherFault }
{
    if !is_installed(&said.1, &site.key, release) {
        return Err(other_answer(DemoLine::Install { release }, &said.1));
    }
    if !are_texts(said.0.texts.as_slice(), &site.deployment, &site.application) {
        return Err(DemoFault::OtherTexts { release });
    }
    Ok(())
}

// It was answered so. What was answered is let go.
fn as_published(
    said: (Heard, Reply),
    release: GeneratedRelease,
    site: &Site,
) -> Result<(), DemoFault>
    ensures published { OnOk result (IsAsPublished said release site.now) }
    ensures fault { IfErr result IsNeitherFault }
{
    let judged = judge_install(&said, release, site);
    drop(said);
    judged
}

/// Installs the release from its site. It has the next number, and hears what was published.
pub(crate) fn install<D: Disk>(
    alloc: Global,
    release: GeneratedRelease,
    site: &mut Site,
    disk: &mut D,
    updater: &mut Updater,
) -> Result<Installed, DemoFault>
    ensures goes { (seed : ℕ) → IsSite seed release site.old → Goes D.Disk (Installs seed release)
        updater.old disk.old result updater.new disk.new }
    ensures key { site.new.key ≡ site.old.key }
{
    match ask_install(alloc, release, disk, &mut site.links, updater) {
        Ok(said) => match as_published(said, release, site) {
            Ok(()) => Ok(Installed {
                asked: asked_count(&site.links),
                blocks: updater.used_blocks(),
            }),
            Err(fault) => Err(fault),
        },
        Err(fault) => Err(fault),
    }
}

// Whether it is lease 1 on the first release.
fn is_leased(reply: &Reply) -> bool
    ensures { IsTrue result → reply.now ≡ says.Lease 1 (version_of releases.One) false }
{
    match reply {
        Reply::Lease {
            lease,
            version,
            check_due,
        } => *lease == 1 && *version == GeneratedRelease::One.version() && !*check_due,
        _ => false,
    }
}

// It was answered so.
fn judge_launch(reply: &Reply) -> Result<(), DemoFault>
    ensures leased { OnOk result (reply.now ≡ says.Lease 1 (version_of releases.One) false) }
    ensures fault { IfErr result IsNeitherFault }
{
    if !is_leased(reply) {
        return Err(other_answer(DemoLine::Launch, reply));
    }
    Ok(())
}

// It was answered so. What was answered is let go.
fn leased(said: (Heard, Reply)) -> Result<(), DemoFault>
    ensures leased { OnOk result (said.1 ≡ says.Lease 1 (version_of releases.One) false) }
    ensures fault { IfErr result IsNeitherFault }
{
    let judged = judge_launch(&said.1);
    drop(said);
    judged
}

// Asks for the launch of the application.
fn ask_launch<D: Disk, L: Links>(
    alloc: Global,
    key: &Key,
    disk: &mut D,
    links: &mut L,
    updater: &mut Updater,
) -> Result<(Heard, Reply), DemoFault>
    requires { IsKey key.now }
    ensures { CommandReplies D.Disk L.Links (command.Launch key.now) updater.old disk.old links.old
        result updater.new disk.new links.new }
{
    match key.copy(alloc) {
        Ok(key) => answer_once(alloc, Command::Launch { key }, disk, links, updater),
        Err(CopyFault::Memory) => Err(DemoFault::Memory),
    }
}

/// Launches the first release: it gets lease 1.
pub(crate) fn launch<D: Disk>(
    alloc: Global,
    site: &mut Site,
    disk: &mut D,
    updater: &mut Updater,
) -> Result<(), DemoFault>
    requires { site.old.key ≡ demo_key }
    ensures { Goes D.Disk (λ (_ : Unit {0}). Launches) updater.old disk.old result updater.new
        disk.new }
{
    match ask_launch(alloc, &site.key, disk, &mut site.links, updater) {
        Ok(said) => leased(said),
        Err(fault) => Err(fault),
    }
}

// Whether so many views are gone.
fn is_cleaned(reply: &Reply, count: u64) -> bool
    ensures { IsTrue result → reply.now ≡ says.Cleaned count }
{
    match reply {
        Reply::Cleaned { views } => *views == count,
        _ => false,
    }
}

// It was answered so.
fn judge_clean(reply: &Reply, count: u64) -> Result<(), DemoFault>
    ensures cleaned { OnOk result (reply.now ≡ says.Cleaned count) }
    ensures fault { IfErr result IsNeitherFault }
{
    if !is_cleaned(reply, count) {
        return Err(other_answer(DemoLine::Clean, reply));
    }
    Ok(())
}

// It was answered so. What was answered is let go.
fn cleaned(said: (Heard, Reply), count: u64) -> Result<(), DemoFault>
    ensures cleaned { OnOk result (said.1 ≡ says.Cleaned count) }
    ensures fault { IfErr result IsNeitherFault }
{
    let judged = judge_clean(&said.1, count);
    drop(said);
    judged
}

/// Takes away the views that are not in use, which are so many.
pub(crate) fn clean<D: Disk>(
    alloc: Global,
    count: u64,
    site: &mut Site,
    disk: &mut D,
    updater: &mut Updater,
) -> Result<(), DemoFault>
    ensures { Goes D.Disk (λ (_ : Unit {0}). Cleans count) updater.old disk.old result updater.new
        disk.new }
{
    match answer_once(alloc, Command::Clean, disk, &mut site.links, updater) {
        Ok(said) => cleaned(said, count),
        Err(fault) => Err(fault),
    }
}

// Whether lease 1 is finished.
fn is_finished(reply: &Reply) -> bool
    ensures { IsTrue result → reply.now ≡ says.Finished 1 }
{
    match reply {
        Reply::Finished { lease } => *lease == 1,
        _ => false,
    }
}

// It was answered so.
fn judge_finish(reply: &Reply) -> Result<(), DemoFault>
    ensures finished { OnOk result (reply.now ≡ says.Finished 1) }
    ensures fault { IfErr result IsNeitherFault }
{
    if !is_finished(reply) {
        return Err(other_answer(DemoLine::Finish, reply));
    }
    Ok(())
}

// It was answered so. What was answered is let go.
fn finished(said: (Heard, Reply)) -> Result<(), DemoFault>
    ensures finished { OnOk result (said.1 ≡ says.Finished 1) }
    ensures fault { IfErr result IsNeitherFault }
{
    let judged = judge_finish(&said.1);
    drop(said);
    judged
}

/// Ends lease 1.
pub(crate) fn finish<D: Disk>(
    alloc: Global,
    site: &mut Site,
    disk: &mut D,
    updater: &mut Updater,
) -> Result<(), DemoFault>
    ensures { Goes D.Disk (λ (_ : Unit {0}). Finishes) updater.old disk.old result updater.new
        disk.new }
{
    let command = Command::Finish { lease: 1 };
    match answer_once(alloc, command, disk, &mut site.links, updater) {
        Ok(said) => finished(said),
        Err(fault) => Err(fault),
    }
}
