// The refusals of options alone.
ghost use Rattle.std.specs.Prelude.{◌≡◌, ◌<◌, ◌⊎◌, Some, None, Err, Ok, IfOk, length, nat_lt};
ghost use Rattle.publish_plan.specs.Early as spec;
ghost use Rattle.publish_plan.specs.Outcome.{Fails, Gives, unless};
ghost use Rattle.publish_plan.specs.Places.{manifest_name, lies_below};

use crate::places::{front_of, has_front, is_plain_name, manifest_name, version_folder};
use crate::{Options, PlanFault};
use identity::Version;
use small_types::limits::NAME_LIMIT;
use small_types::{Name, Text};
use std::alloc::{AllocError, Global};

// The fault of the option of this word, or that there was no memory for it.
fn bad_name(alloc: Global, word: &str) -> PlanFault
    ensures { Fails result (unless (Some (PlanFault.BadName word.now))) }
{
    match String::from_str(alloc, word) {
        Ok(word) => PlanFault::BadName {
            word: Text::from_string(word),
        },
        Err(AllocError) => PlanFault::Memory,
    }
}

// Whether the name lies below the folder.
fn lies_below(alloc: Global, folder: &Name, name: &Name) -> Result<bool, AllocError>
    ensures { IfOk result (λ b. b ≡ lies_below folder.now name.now) }
{
    let front = front_of(alloc, folder.as_str())?;
    Ok(has_front(front.as_bytes(), name))
}

// Whether the folders are one, or one lies below the other.
fn overlap(alloc: Global, from: &Name, to: &Name) -> Result<bool, AllocError>
    ensures { IfOk result (λ b. b ≡ spec.overlap from.now to.now) }
{
    let to_inside = lies_below(alloc, from, to)?;
    let from_inside = lies_below(alloc, to, from)?;
    Ok(from == to || to_inside || from_inside)
}

// Whether the written name of the application manifest is too long.
fn has_long_manifest(alloc: Global, options: &Options) -> Result<bool, AllocError>
    ensures { IfOk result (λ b. b ≡ nat_lt NAME_LIMIT (length (manifest_name options.now))) }
{
    let folder = version_folder(alloc, options)?;
    let manifest = manifest_name(alloc, folder.as_str(), &options.entry)?;
    Ok(manifest.as_str().len() > NAME_LIMIT)
}

// The minimum is not above the version.
fn check_minimum(version: &Version, minimum: Option<Version>) -> Result<(), PlanFault>
    ensures { result ≡ unless (spec.above version.now minimum) }
{
    if let Some(minimum) = minimum
        && version.is_below(&minimum)
    {
        return Err(PlanFault::MinimumAbove { minimum });
    }
    Ok(())
}

/// Whether what is published can be, as far as the options alone say. It reads no folder.
///
/// # Errors
///
/// In this order: `BadName` with the word `name` where the name is no 1 to 100 letters, digits,
/// `.`, `_`, `-` and spaces; with `entry` where the same holds of the file that is started; with
/// `to` where the two folders are one, or one lies below the other; with `entry` where the written
/// name of the application manifest has more than 240 bytes; `MinimumAbove` where the minimum is
/// above the version. `Memory` may come at any options.
pub fn check_options(alloc: Global, options: &Options) -> Result<(), PlanFault>
    ensures { Gives result (unless (spec.early_of options.now)) }
{
    if !is_plain_name(options.name.as_bytes()) {
        return Err(bad_name(alloc, "name"));
    }
    if !is_plain_name(options.entry.as_bytes()) {
        return Err(bad_name(alloc, "entry"));
    }
    if overlap(alloc, &options.from, &options.to)? {
        return Err(bad_name(alloc, "to"));
    }
    if has_long_manifest(alloc, options)? {
        return Err(bad_name(alloc, "entry"));
    }
    check_minimum(&options.version, options.minimum)
}
