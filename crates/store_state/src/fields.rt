// Whether the fields of a view are ones that the tables may have.
ghost use Rattle.std.specs.Prelude.{◌≡◌, ◌↔◌, ◌≤◌, ◌<◌, ◌^◌, true, All, AllPairs, length, not, IsTrue, IfOk, IfSome, IsUtf8};
ghost use Rattle.std.specs.declared.cmp.Ordering.TheVariants.{Less};
ghost use Rattle.small_types.specs.declared.limits.TheConstants as limits;
ghost use Rattle.small_types.specs.Name.{IsName, IsBelowPre};
ghost use Rattle.identity.specs.Printed.{text_cmp};
ghost use Rattle.identity.specs.Version.{IsVersion};
ghost use Rattle.digest_list.specs.Count.{IsCount};
ghost use Rattle.manifests.specs.Applications.{is_below_pre};
ghost use Rattle.machine.specs.Fields.{HasEntry, HasIdentity, IsApplication, IsDeployment, IsShort, IsShortKey, IsTarget};
ghost use Rattle.store_state.specs.Change.{IsLocal, IsRow};
ghost use Rattle.store_state.specs.Locals.{outside_locals};

use crate::{LocalFile, View};
use digest_list::DigestList;
use identity::{Identity, Key, Version};
use manifests::{Application, Deployment, FileEntry, are_application_facts, are_deployment_facts};
use small_types::limits::{
    IDENTITY_PART_LIMIT, LOCAL_COUNT_LIMIT, LOCAL_NAME_LIMIT, NAME_LIMIT, URL_LIMIT,
};
use small_types::{CopyFault, Name, Target, Text};
use std::alloc::Global;

// Whether the text is within the limit.
pub(crate) fn is_short(text: &Text, limit: usize) -> bool
    ensures { IsTrue result ↔ IsShort limit text.now }
{
    text.as_bytes().len() <= limit
}

// Whether each part of the key is within its limit.
pub(crate) fn is_short_key(key: &Key) -> bool
    ensures { IsTrue result ↔ IsShortKey key.now }
{
    is_short(&key.name, NAME_LIMIT)
        && is_short(&key.token, IDENTITY_PART_LIMIT)
        && is_short(&key.language, IDENTITY_PART_LIMIT)
        && is_short(&key.architecture, IDENTITY_PART_LIMIT)
}

// Whether the host and the path are within their limits.
pub(crate) fn is_target(target: &Target) -> bool
    ensures { IsTrue result ↔ IsTarget target.now }
{
    is_port(target.port) && is_short(&target.host, URL_LIMIT) && is_short(&target.path, URL_LIMIT)
}

// ---- what values of the types always are

// Each port is one.
fn is_port(port: u16) -> bool
    ensures { IsTrue result ↔ port < 2 ^ 16 }
{
    port <= 65_535
}

// Each version is one.
pub(crate) fn is_version(version: Version) -> bool
    ensures { IsTrue result ↔ IsVersion version }
{
    is_port(version.a) && is_port(version.b) && is_port(version.c) && is_port(version.d)
}

pub(crate) fn is_some_version(version: Option<Version>) -> bool
    ensures { IsTrue result ↔ IfSome version IsVersion }
{
    match version {
        Some(version) => is_version(version),
        None => true,
    }
}

// Each text is UTF-8.
fn is_text(text: &Text) -> bool
    ensures { IsTrue result ↔ IsUtf8 text.now }
{
    let _bytes = text.as_bytes();
    true
}

fn is_some_text(text: &Option<Text>) -> bool
    ensures { IsTrue result ↔ IfSome text.now IsUtf8 }
{
    match text {
        Some(text) => is_text(text),
        None => true,
    }
}

// Each list of digests has 1 to 8 of them.
fn has_count(list: &DigestList) -> bool
    ensures { IsTrue result ↔ IsCount list.now }
{
    let _digests = list.as_slice();
    true
}

// Each name is one.
fn is_file_name(name: &Name) -> bool
    ensures { IsTrue result ↔ IsName name.now }
{
    let _bytes = name.as_bytes();
    true
}

// ---- manifests

fn has_identity(identity: &Identity) -> bool
    ensures { IsTrue result ↔ HasIdentity identity.now }
{
    identity.key.is_key() && is_version(identity.version) && is_text(&identity.kind)
}

fn has_entry(entry: &FileEntry) -> bool
    ensures { IsTrue result ↔ HasEntry entry.now }
{
    is_file_name(&entry.name) && has_count(&entry.list) && is_some_text(&entry.group)
}

fn have_entries(files: &[FileEntry]) -> bool
    ensures { IsTrue result ↔ All HasEntry files.now }
{
    files.iter().all(|entry| has_entry(entry))
}

// Whether a manifest can say the deployment.
fn is_deployment(alloc: Global, d: &Deployment) -> Result<bool, CopyFault>
    ensures { IfOk result (λ answer. IsTrue answer ↔ IsDeployment d.now) }
{
    if !has_identity(&d.identity) || !has_identity(&d.app) || !is_some_version(d.minimum) {
        return Ok(false);
    }
    if !is_some_text(&d.provider) || !is_text(&d.codebase) || !has_count(&d.app_list) {
        return Ok(false);
    }
    Ok(are_deployment_facts(alloc, d)?)
}

// Whether a manifest can say the application.
fn is_application(alloc: Global, a: &Application) -> Result<bool, CopyFault>
    ensures { IfOk result (λ answer. IsTrue answer ↔ IsApplication a.now) }
{
    if !has_identity(&a.identity) || !is_text(&a.entry) || !is_text(&a.parameters) {
        return Ok(false);
    }
    if !have_entries(a.files.as_slice()) {
        return Ok(false);
    }
    Ok(are_application_facts(alloc, a)?)
}

// ---- data files

// Whether the name is within the limit of one that is not below `.pre`, where it is not.
fn is_short_name(name: &Name) -> bool
    ensures { IsTrue result ↔ (¬ IsBelowPre name.now → length name.now ≤ LOCAL_NAME_LIMIT) }
{
    name.is_below_pre() || name.as_bytes().len() <= LOCAL_NAME_LIMIT
}

pub(crate) fn is_local(file: &LocalFile) -> bool
    ensures { IsTrue result ↔ IsLocal file.now }
{
    is_file_name(&file.name) && is_short_name(&file.name)
}

fn are_each_locals(files: &[LocalFile]) -> bool
    ensures { IsTrue result ↔ All IsLocal files.now }
{
    files.iter().all(|file| is_local(file))
}

// Whether the name of the first is below that of the second.
fn is_before(file: &LocalFile, other: &LocalFile) -> bool
    ensures { IsTrue result ↔ text_cmp file.now.name other.now.name ≡ Less }
{
    file.name < other.name
}

// Whether they are in order of their names.
fn are_in_order(files: &[LocalFile]) -> bool
    ensures { IsTrue result
        ↔ AllPairs (λ (f g : LocalFile). text_cmp f.name g.name ≡ Less) files.now }
{
    for place in 1..files.len() {
        if !is_before(&files[place - 1], &files[place]) {
            return false;
        }
    }
    true
}

// Whether the first part of the name is not `.pre`.
pub(crate) fn is_outside(name: &Name) -> bool
    ensures { result ≡ not (is_below_pre name.now) }
{
    !name.is_below_pre()
}

// How many are not below `.pre`.
pub(crate) fn count_outside(files: &[LocalFile]) -> usize
    ensures { result ≡ outside_locals files.now }
{
    files.iter().filter(|file| is_outside(&file.name)).count()
}

// Whether the tables may have the view, whatever else they have.
pub(crate) fn is_row(alloc: Global, view: &View) -> Result<bool, CopyFault>
    ensures { IfOk result (λ answer. IsTrue answer ↔ IsRow view.now) }
{
    let locals = view.locals.as_slice();
    if !is_target(&view.base) || !are_each_locals(locals) || !are_in_order(locals) {
        return Ok(false);
    }
    if count_outside(locals) > LOCAL_COUNT_LIMIT {
        return Ok(false);
    }
    if !is_deployment(alloc, &view.deployment)? {
        return Ok(false);
    }
    Ok(is_application(alloc, &view.application)?)
}
