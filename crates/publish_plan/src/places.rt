// The names that a publish writes.
ghost use Rattle.std.specs.Prelude.{◌≡◌, ◌++◌, [], IfOk, IfErr, true, None, length, string_bytes};
ghost use Rattle.std.specs.List.{list_all};
ghost use Rattle.identity.specs.Version.{IsVersion};
ghost use Rattle.small_types.specs.Name.{IsName};
ghost use Rattle.publish_plan.specs.Early.{early_of};
ghost use Rattle.publish_plan.specs.Paths.{IsPath, CanFollow};
ghost use Rattle.publish_plan.specs.Places as spec;

use crate::{Options, PlanFault};
use identity::Version;
use small_types::{Name, NameFault, Text};
use std::alloc::{AllocError, Global};

/// The most bytes of the name that is published, and of that of the file that is started.
pub const PLAIN_NAME_LIMIT: usize = 100;

// Whether a word may have the byte.
fn is_plain_byte(byte: u8) -> bool
    ensures { result ≡ spec.is_plain_byte byte }
{
    byte.is_ascii_alphanumeric() || byte == b'.' || byte == b'_' || byte == b'-' || byte == b' '
}

// Whether a word may have each of the bytes.
fn are_plain_bytes(word: &[u8]) -> bool
    ensures { result ≡ list_all spec.is_plain_byte word.now }
{
    word.iter().all(|b| is_plain_byte(*b))
}

/// Whether they are 1 to 100 bytes, each a letter, a digit, `.`, `_`, `-` or a space.
#[tactic(auto, unfolding(crate::specs::Places::is_plain_name))]
pub(crate) fn is_plain_name(word: &[u8]) -> bool
    ensures { result ≡ spec.is_plain_name word.now }
{
    !word.is_empty() && word.len() <= PLAIN_NAME_LIMIT && are_plain_bytes(word)
}

/// With what the names in a folder begin.
pub(crate) fn front_of(alloc: Global, folder: &str) -> Result<String, AllocError>
    ensures { IfOk result (λ t. string_bytes t ≡ spec.front_of folder.now) }
{
    format!(in alloc; "{folder}/")
}

// The name in the folder.
fn joined(alloc: Global, folder: &str, name: &str) -> Result<String, AllocError>
    ensures { IfOk result (λ t. string_bytes t ≡ spec.within folder.now name.now) }
{
    format!(in alloc; "{folder}/{name}")
}

/// Whether the name has this front.
pub(crate) fn has_front(front: &[u8], name: &Name) -> bool
    ensures { result ≡ spec.has_front front.now name.now }
{
    name.as_bytes().starts_with(front)
}

// The version with `_` between its numbers.
#[tactic(auto, unfolding(crate::specs::Places::version_word))]
fn version_word(alloc: Global, version: Version) -> Result<String, AllocError>
    ensures text { IfOk result (λ t. string_bytes t ≡ spec.version_word version) }
    ensures numbers { IsVersion version }
{
    let Version { a, b, c, d } = version;
    format!(in alloc; "{a}_{b}_{c}_{d}")
}

// The name and the version.
#[tactic(auto, unfolding(crate::specs::Places::release_word))]
fn release_word(alloc: Global, options: &Options) -> Result<String, AllocError>
    ensures text { IfOk result (λ t. string_bytes t ≡ spec.release_word options.now) }
    ensures numbers { IsVersion options.now.version }
{
    let name = options.name.as_str();
    let version = version_word(alloc, options.version)?;
    format!(in alloc; "{name}_{version}")
}

/// The folder of the version. It is a name where it is not too long.
#[tactic(auto, unfolding(crate::specs::Places::version_folder))]
pub(crate) fn version_folder(alloc: Global, options: &Options) -> Result<String, AllocError>
    ensures text { IfOk result (λ t. string_bytes t ≡ spec.version_folder options.now) }
    ensures path { spec.is_plain_name options.now.name ≡ true
        → IsPath (spec.version_folder options.now) }
{
    let to = options.to.as_str();
    let release = release_word(alloc, options)?;
    let inner = joined(alloc, "Application Files", release.as_str())?;
    let folder = joined(alloc, to, inner.as_str())?;
    Ok(folder)
}

/// The name that the application manifest is written under, in the folder of the version.
pub(crate) fn manifest_name(alloc: Global, folder: &str, entry: &Name) -> Result<String, AllocError>
    ensures { IfOk result (λ t. string_bytes t
        ≡ spec.within folder.now (entry.now ++ spec.manifest_end)) }
{
    let entry = entry.as_str();
    format!(in alloc; "{folder}/{entry}.manifest")
}

/// The name that a file is written under, in the folder of the version.
pub(crate) fn target_name(
    alloc: Global,
    folder: &str,
    mapped: bool,
    file: &Name,
) -> Result<String, AllocError>
    ensures { IfOk result (λ t. string_bytes t
        ≡ spec.within folder.now (file.now ++ spec.deploy_end mapped)) }
{
    let file = file.as_str();
    if mapped {
        return format!(in alloc; "{folder}/{file}.deploy");
    }
    format!(in alloc; "{folder}/{file}")
}

/// The name that the deployment manifest is written under.
#[tactic(auto, unfolding(crate::specs::Places::deployment_name))]
pub(crate) fn deployment_name(alloc: Global, options: &Options) -> Result<String, AllocError>
    ensures text { IfOk result (λ t. string_bytes t ≡ spec.deployment_name options.now) }
    ensures path { spec.is_plain_name options.now.name ≡ true
        → IsPath (spec.deployment_name options.now) }
{
    let to = options.to.as_str();
    let name = options.name.as_str();
    format!(in alloc; "{to}/{name}.application")
}

/// The address of the application manifest in that of the deployment, with backslashes. It fails only for want of
/// memory.
#[tactic(auto, unfolding(crate::specs::Places::codebase))]
pub fn codebase_of(alloc: Global, options: &Options) -> Result<Text, AllocError>
    ensures { IfOk result (λ t. t ≡ spec.codebase options.now) }
{
    let release = release_word(alloc, options)?;
    let entry = options.entry.as_str();
    let text = format!(in alloc; "Application Files\\{release}\\{entry}.manifest")?;
    Ok(Text::from_string(text))
}

/// The name that the bytes are. It fails only for want of memory.
pub(crate) fn name_from(alloc: Global, bytes: &[u8]) -> Result<Name, PlanFault>
    requires { IsName bytes.now }
    ensures made { IfOk result (λ name. name ≡ bytes.now) }
    ensures name { IfOk result IsName }
    ensures memory { IfErr result (λ e. e ≡ PlanFault.Memory) }
{
    match Name::read(alloc, bytes) {
        Ok(name) => Ok(name),
        Err(NameFault::Memory) => Err(PlanFault::Memory),
        Err(NameFault::Bad) => unreachable!(),
    }
}

/// The name without its front. It fails only for want of memory.
pub(crate) fn name_behind(alloc: Global, front: &[u8], name: &Name) -> Result<Name, PlanFault>
    requires fits { CanFollow front.now }
    requires below { spec.has_front front.now name.now ≡ true }
    ensures made { IfOk result (λ file. file ≡ spec.behind front.now name.now) }
    ensures name { IfOk result IsName }
    ensures memory { IfErr result (λ e. e ≡ PlanFault.Memory) }
{
    let bytes = name.as_bytes();
    name_from(alloc, &bytes[front.len()..])
}
