// Whether values are ones that manifests can say.
ghost use Rattle.std.specs.Prelude.{◌≡◌, ◌↔◌, ◌≤◌, true, length, All, IsTrue, IfOk, IfSome, None};
ghost use Rattle.small_types.specs.declared.limits.TheConstants.{LOCAL_NAME_LIMIT, MANIFEST_LIMIT, NAME_LIMIT, URL_LIMIT};
ghost use Rattle.digest_list.specs.Digest.{IsSized};
ghost use Rattle.manifest_tree.specs.Lexis.{allowed};
ghost use Rattle.manifest_tree.specs.WrittenText.{is_content};
ghost use Rattle.manifests.specs.Facts.{IsValue, IsIdentity, IsMinimum, IsAge, IsRule, IsProvider, AreDeploymentFacts, IsFile, AreApplicationFacts};

use crate::ages::{AGE_LIMIT, AgeUnit, HOUR};
use crate::entry::size_limit;
use crate::file_lists::are_files;
use crate::{Application, Deployment, FileEntry, Rule};
use addresses::{UrlFault, target_of};
use digest_list::DigestList;
use identity::{Identity, Version};
use small_types::limits::{
    IDENTITY_PART_LIMIT, LOCAL_NAME_LIMIT, MANIFEST_LIMIT, NAME_LIMIT, URL_LIMIT,
};
use small_types::{CopyFault, Text};
use std::alloc::Global;

// Whether it is a byte that a manifest may hold.
#[tactic(auto, unfolding(manifest_tree::specs::Lexis::allowed))]
fn is_allowed(byte: u8) -> bool
    ensures { result ≡ allowed byte }
{
    byte >= 32 || byte == b'\t' || byte == b'\n' || byte == b'\r'
}

// Whether each byte is one.
fn are_allowed(bytes: &[u8]) -> bool
    ensures { result ≡ is_content bytes.now }
{
    bytes.iter().all(|byte| is_allowed(*byte))
}

/// Whether a manifest may hold the text as a value of `least` to `most` bytes: each byte is a tab,
/// a line feed, a carriage return or at least 32.
pub fn is_value(text: &Text, least: usize, most: usize) -> bool
    ensures { IsTrue result ↔ IsValue least most text.now }
{
    let bytes = text.as_bytes();
    least <= bytes.len() && bytes.len() <= most && are_allowed(bytes)
}

/// Whether a manifest can say the identity: its name is a value of 1 to 240 bytes, the other parts
/// of its key are ones of 1 to 64, and its kind is one of at most 64.
pub fn is_identity(identity: &Identity) -> bool
    ensures { IsTrue result ↔ IsIdentity identity.now }
{
    is_value(&identity.key.name, 1, NAME_LIMIT)
        && is_value(&identity.key.token, 1, IDENTITY_PART_LIMIT)
        && is_value(&identity.key.language, 1, IDENTITY_PART_LIMIT)
        && is_value(&identity.key.architecture, 1, IDENTITY_PART_LIMIT)
        && is_value(&identity.kind, 0, IDENTITY_PART_LIMIT)
}

/// Whether each digest has the length of its algorithm.
pub fn are_sized(list: &DigestList) -> bool
    ensures { IsTrue result ↔ All IsSized list.now }
{
    list.as_slice().iter().all(|digest| digest.value.as_slice().len() == digest.algorithm.size())
}

/// Whether the minimum, if there is one, is not above the version.
pub fn is_minimum(version: Version, minimum: Option<Version>) -> bool
    ensures { IsTrue result ↔ IfSome minimum (IsMinimum version) }
{
    match minimum {
        Some(minimum) => !version.is_below(&minimum),
        None => true,
    }
}

// Whether the age is of whole hours, and takes at most nine digits in its unit.
fn is_age(seconds: u64) -> bool
    ensures { IsTrue result ↔ IsAge seconds }
{
    seconds % HOUR == 0 && seconds / AgeUnit::largest_of(seconds).seconds() <= AGE_LIMIT
}

/// Whether a manifest can say the rule: an age is of whole hours, and takes at most nine digits in its unit.
pub fn is_rule(rule: Rule) -> bool
    ensures { IsTrue result ↔ IsRule rule }
{
    match rule {
        Rule::Never | Rule::Before => true,
        Rule::Age { seconds } => is_age(seconds),
    }
}

// Whether the text is that of an address, and of bytes that a manifest may hold.
fn is_address(alloc: Global, text: &Text) -> Result<bool, CopyFault>
    ensures { IfOk result (λ answer. IsTrue answer ↔ IsProvider text.now) }
{
    if !are_allowed(text.as_bytes()) {
        return Ok(false);
    }
    match target_of(alloc, text.as_bytes()) {
        Ok(_) => Ok(true),
        Err(UrlFault::Memory) => Err(CopyFault::Memory),
        Err(_) => Ok(false),
    }
}

/// Whether a manifest can say the provider, if there is one: `target_of` reads it, and each byte is
/// one that a manifest may hold. It fails only for want of memory, which reading a URL takes.
pub fn is_provider(alloc: Global, provider: &Option<Text>) -> Result<bool, CopyFault>
    ensures { IfOk result (λ answer. IsTrue answer ↔ IfSome provider.now IsProvider) }
{
    match provider {
        Some(text) => is_address(alloc, text),
        None => Ok(true),
    }
}

// What is said of the application manifest.
fn is_assembly(d: &Deployment) -> bool
    ensures { IsTrue result ↔ (IsValue 1 URL_LIMIT d.now.codebase × IsIdentity d.now.app
        × (d.now.app_size ≤ MANIFEST_LIMIT) × All IsSized d.now.app_list) }
{
    is_value(&d.codebase, 1, URL_LIMIT)
        && is_identity(&d.app)
        && d.app_size <= MANIFEST_LIMIT as u64
        && are_sized(&d.app_list)
}

/// Whether a manifest can say the deployment: its parts are within their limits and of bytes that a
/// manifest may hold, it is installed, its minimum is not above its version, its age is of whole
/// hours, and its provider is an address. It fails only for want of memory, which the test of the
/// provider takes.
pub fn are_deployment_facts(alloc: Global, d: &Deployment) -> Result<bool, CopyFault>
    ensures { IfOk result (λ answer. IsTrue answer ↔ AreDeploymentFacts d.now) }
{
    if !is_identity(&d.identity) || !d.install {
        return Ok(false);
    }
    if !is_minimum(d.identity.version, d.minimum) || !is_rule(d.rule) {
        return Ok(false);
    }
    if !is_assembly(d) {
        return Ok(false);
    }
    Ok(is_provider(alloc, &d.provider)?)
}

// Whether the group, if there is one, is a value of 1 to 240 bytes.
fn is_group(group: &Option<Text>) -> bool
    ensures { IsTrue result ↔ IfSome group.now (IsValue 1 NAME_LIMIT) }
{
    match group {
        Some(group) => is_value(group, 1, NAME_LIMIT),
        None => true,
    }
}

// Whether the file, if it is a data file, has a short name and is in no group.
fn is_use(entry: &FileEntry) -> bool
    ensures { IsTrue result ↔ ((entry.now.local ≡ true → length entry.now.name ≤ LOCAL_NAME_LIMIT)
        × (entry.now.local ≡ true → entry.now.group ≡ None)) }
{
    !entry.local || (entry.name.as_bytes().len() <= LOCAL_NAME_LIMIT && entry.group.is_none())
}

/// Whether a manifest can say the file: it is not below `.pre`, has at most 268,435,456 bytes and
/// digests of the lengths of their algorithms, and its group, if there is one, is a value of 1 to
/// 240 bytes. A data file has at most 1,048,576 bytes and a name of at most 235, and is in no
/// group.
pub fn is_file(entry: &FileEntry) -> bool
    ensures { IsTrue result ↔ IsFile entry.now }
{
    !entry.name.is_below_pre()
        && is_use(entry)
        && entry.size <= size_limit(entry.local)
        && are_sized(&entry.list)
        && is_group(&entry.group)
}

// Whether each file is one that a manifest can say.
fn are_each_files(files: &[FileEntry]) -> bool
    ensures { IsTrue result ↔ All IsFile files.now }
{
    files.iter().all(|entry| is_file(entry))
}

/// Whether a manifest can say the application: its parts are within their limits and of bytes that
/// a manifest may hold, and its files are ones that a manifest can say, few enough, and of names
/// that differ. It fails only for want of memory, which the comparison of the names takes.
pub fn are_application_facts(alloc: Global, a: &Application) -> Result<bool, CopyFault>
    ensures { IfOk result (λ answer. IsTrue answer ↔ AreApplicationFacts a.now) }
{
    if !is_identity(&a.identity) || !is_value(&a.entry, 1, NAME_LIMIT) {
        return Ok(false);
    }
    if !is_value(&a.parameters, 0, URL_LIMIT) || !are_each_files(a.files.as_slice()) {
        return Ok(false);
    }
    Ok(are_files(alloc, a.files.as_slice())?)
}
