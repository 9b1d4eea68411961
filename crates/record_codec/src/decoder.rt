// Reading changes, from the left.
ghost use Rattle.std.specs.Prelude.{◌≡◌, ◌≤◌, false, length, Ok, IfOk, IfErr};
ghost use Rattle.store_state.specs.declared.change.Change.{Change};
ghost use Rattle.record_fields.specs.Readers.{Gives, IsBad, IsFaultWithin};
ghost use Rattle.record_codec.specs.Codec.{change_text, IsChange};
ghost use Rattle.record_codec.specs.Changes.{boot_at, require_at, install_at, heard_at, unheard_at, skip_at, rollback_at, launch_at, finish_at, group_at, put_at, remove_at, change_at, change_of, takes_memory};

use crate::item_values::{ContentField, LocalField};
use crate::numbers::{
    BOOT_KIND, CLEAN_KIND, FINISH_KIND, GROUP_KIND, HEARD_KIND, INSTALL_KIND, LAUNCH_KIND,
    PUT_KIND, REMOVE_KIND, REQUIRE_KIND, ROLLBACK_KIND, SKIP_KIND, UNHEARD_KIND,
};
use crate::view_readers::view_here;
use record_fields::{
    CodecFault, Readable, read_key, read_list, read_name, read_target, read_text, read_u32,
    read_u64, read_version, read_version_option,
};
use small_types::limits::{FILE_COUNT_LIMIT, NAME_LIMIT};
use std::alloc::Global;
use store_state::Change;

// The fault of the bytes from the place on.
fn bad(place: usize) -> CodecFault
    ensures { result ≡ CodecFault.Bad place }
{
    CodecFault::Bad {
        place: place as u64,
    }
}

// The boot number at the place.
#[tactic(auto, unfolding(crate::specs::Changes::boot_at))]
fn read_boot(bytes: &[u8], place: usize) -> Result<(Change, usize), CodecFault>
    requires { place ≤ length bytes.now }
    ensures exact { Gives result (boot_at bytes.now place) }
    ensures next { IfOk result (λ x. x.1 ≤ length bytes.now) }
    ensures fault { IfErr result (IsFaultWithin (length bytes.now)) }
    ensures free { IfErr result IsBad }
{
    let (boot, next) = read_u64(bytes, place)?;
    Ok((Change::Boot { boot }, next))
}

// The key and the version at the place.
#[tactic(auto, unfolding(crate::specs::Changes::require_at))]
fn read_require(alloc: Global, bytes: &[u8], place: usize) -> Result<(Change, usize), CodecFault>
    requires { place ≤ length bytes.now }
    ensures exact { Gives result (require_at bytes.now place) }
    ensures next { IfOk result (λ x. x.1 ≤ length bytes.now) }
    ensures fault { IfErr result (IsFaultWithin (length bytes.now)) }
{
    let (key, next) = read_key(alloc, bytes, place)?;
    let (version, next) = read_version(bytes, next)?;
    Ok((Change::Require { key, version }, next))
}

// The view, the contents that it brings, the address that updates come from and the moment, at the
// place.
#[tactic(auto, unfolding(crate::specs::Changes::install_at))]
fn read_install(alloc: Global, bytes: &[u8], place: usize) -> Result<(Change, usize), CodecFault>
    requires { place ≤ length bytes.now }
    ensures exact { Gives result (install_at bytes.now place) }
    ensures next { IfOk result (λ x. x.1 ≤ length bytes.now) }
    ensures fault { IfErr result (IsFaultWithin (length bytes.now)) }
{
    let (view, next) = view_here(alloc, bytes, place, FILE_COUNT_LIMIT)?;
    let (contents, next) = match read_list::<ContentField>(alloc, bytes, next, FILE_COUNT_LIMIT) {
        Ok(found) => found,
        Err(fault) => {
            drop(view);
            return Err(fault);
        }
    };
    let (provider, next) = match read_target(alloc, bytes, next) {
        Ok(found) => found,
        Err(fault) => {
            drop(view);
            return Err(fault);
        }
    };
    let (now, next) = match read_u64(bytes, next) {
        Ok(found) => found,
        Err(fault) => {
            drop(view);
            return Err(fault);
        }
    };
    let change = Change::Install {
        view,
        contents,
        provider,
        now,
    };
    Ok((change, next))
}

// What a check heard of the key: the version, the least that may run and the moment, at the place.
#[tactic(auto, unfolding(crate::specs::Changes::heard_at))]
fn read_heard(alloc: Global, bytes: &[u8], place: usize) -> Result<(Change, usize), CodecFault>
    requires { place ≤ length bytes.now }
    ensures exact { Gives result (heard_at bytes.now place) }
    ensures next { IfOk result (λ x. x.1 ≤ length bytes.now) }
    ensures fault { IfErr result (IsFaultWithin (length bytes.now)) }
{
    let (key, next) = read_key(alloc, bytes, place)?;
    let (version, next) = read_version(bytes, next)?;
    let (minimum, next) = read_version_option(bytes, next)?;
    let (now, next) = read_u64(bytes, next)?;
    let change = Change::Heard {
        key,
        version,
        minimum,
        now,
    };
    Ok((change, next))
}

// The key at the place.
#[tactic(auto, unfolding(crate::specs::Changes::unheard_at))]
fn read_unheard(alloc: Global, bytes: &[u8], place: usize) -> Result<(Change, usize), CodecFault>
    requires { place ≤ length bytes.now }
    ensures exact { Gives result (unheard_at bytes.now place) }
    ensures next { IfOk result (λ x. x.1 ≤ length bytes.now) }
    ensures fault { IfErr result (IsFaultWithin (length bytes.now)) }
{
    let (key, next) = read_key(alloc, bytes, place)?;
    Ok((Change::Unheard { key }, next))
}

// The place of an application, at the place.
#[tactic(auto, unfolding(crate::specs::Changes::skip_at))]
fn read_skip(bytes: &[u8], place: usize) -> Result<(Change, usize), CodecFault>
    requires { place ≤ length bytes.now }
    ensures exact { Gives result (skip_at bytes.now place) }
    ensures next { IfOk result (λ x. x.1 ≤ length bytes.now) }
    ensures fault { IfErr result (IsFaultWithin (length bytes.now)) }
    ensures free { IfErr result IsBad }
{
    let (app, next) = read_u32(bytes, place)?;
    Ok((Change::Skip { app }, next))
}

// The place of an application, at the place.
#[tactic(auto, unfolding(crate::specs::Changes::rollback_at))]
fn read_rollback(bytes: &[u8], place: usize) -> Result<(Change, usize), CodecFault>
    requires { place ≤ length bytes.now }
    ensures exact { Gives result (rollback_at bytes.now place) }
    ensures next { IfOk result (λ x. x.1 ≤ length bytes.now) }
    ensures fault { IfErr result (IsFaultWithin (length bytes.now)) }
    ensures free { IfErr result IsBad }
{
    let (app, next) = read_u32(bytes, place)?;
    Ok((Change::Rollback { app }, next))
}

// The place of an application, at the place.
#[tactic(auto, unfolding(crate::specs::Changes::launch_at))]
fn read_launch(bytes: &[u8], place: usize) -> Result<(Change, usize), CodecFault>
    requires { place ≤ length bytes.now }
    ensures exact { Gives result (launch_at bytes.now place) }
    ensures next { IfOk result (λ x. x.1 ≤ length bytes.now) }
    ensures fault { IfErr result (IsFaultWithin (length bytes.now)) }
    ensures free { IfErr result IsBad }
{
    let (app, next) = read_u32(bytes, place)?;
    Ok((Change::Launch { app }, next))
}

// The number of a lease, at the place.
#[tactic(auto, unfolding(crate::specs::Changes::finish_at))]
fn read_finish(bytes: &[u8], place: usize) -> Result<(Change, usize), CodecFault>
    requires { place ≤ length bytes.now }
    ensures exact { Gives result (finish_at bytes.now place) }
    ensures next { IfOk result (λ x. x.1 ≤ length bytes.now) }
    ensures fault { IfErr result (IsFaultWithin (length bytes.now)) }
    ensures free { IfErr result IsBad }
{
    let (lease, next) = read_u64(bytes, place)?;
    Ok((Change::Finish { lease }, next))
}

// The number of a view, the group and the contents that it brings, at the place.
#[tactic(auto, unfolding(crate::specs::Changes::group_at))]
fn read_group(alloc: Global, bytes: &[u8], place: usize) -> Result<(Change, usize), CodecFault>
    requires { place ≤ length bytes.now }
    ensures exact { Gives result (group_at bytes.now place) }
    ensures next { IfOk result (λ x. x.1 ≤ length bytes.now) }
    ensures fault { IfErr result (IsFaultWithin (length bytes.now)) }
{
    let (view, next) = read_u64(bytes, place)?;
    let (group, next) = read_text(alloc, bytes, next, NAME_LIMIT)?;
    let (contents, next) = read_list::<ContentField>(alloc, bytes, next, FILE_COUNT_LIMIT)?;
    let change = Change::Group {
        view,
        group,
        contents,
    };
    Ok((change, next))
}

// The number of a view and a data file that it has then, at the place.
#[tactic(auto, unfolding(crate::specs::Changes::put_at))]
fn read_put(alloc: Global, bytes: &[u8], place: usize) -> Result<(Change, usize), CodecFault>
    requires { place ≤ length bytes.now }
    ensures exact { Gives result (put_at bytes.now place) }
    ensures next { IfOk result (λ x. x.1 ≤ length bytes.now) }
    ensures fault { IfErr result (IsFaultWithin (length bytes.now)) }
{
    let (view, next) = read_u64(bytes, place)?;
    let (file, next) = LocalField::read_here(alloc, bytes, next)?;
    Ok((Change::Put { view, file }, next))
}

// The number of a view and the name of a data file, at the place.
#[tactic(auto, unfolding(crate::specs::Changes::remove_at))]
fn read_remove(alloc: Global, bytes: &[u8], place: usize) -> Result<(Change, usize), CodecFault>
    requires { place ≤ length bytes.now }
    ensures exact { Gives result (remove_at bytes.now place) }
    ensures next { IfOk result (λ x. x.1 ≤ length bytes.now) }
    ensures fault { IfErr result (IsFaultWithin (length bytes.now)) }
{
    let (view, next) = read_u64(bytes, place)?;
    let (name, next) = read_name(alloc, bytes, next)?;
    Ok((Change::Remove { view, name }, next))
}

// The change at the front.
#[tactic(auto, unfolding(crate::specs::Changes::change_at, crate::specs::Changes::takes_memory))]
fn read_change(alloc: Global, bytes: &[u8]) -> Result<(Change, usize), CodecFault>
    ensures exact { Gives result (change_at bytes.now) }
    ensures next { IfOk result (λ x. x.1 ≤ length bytes.now) }
    ensures fault { IfErr result (IsFaultWithin (length bytes.now)) }
    ensures free { takes_memory bytes.now ≡ false → IfErr result IsBad }
{
    match bytes {
        [BOOT_KIND, ..] => read_boot(bytes, 1),
        [REQUIRE_KIND, ..] => read_require(alloc, bytes, 1),
        [INSTALL_KIND, ..] => read_install(alloc, bytes, 1),
        [HEARD_KIND, ..] => read_heard(alloc, bytes, 1),
        [UNHEARD_KIND, ..] => read_unheard(alloc, bytes, 1),
        [SKIP_KIND, ..] => read_skip(bytes, 1),
        [ROLLBACK_KIND, ..] => read_rollback(bytes, 1),
        [LAUNCH_KIND, ..] => read_launch(bytes, 1),
        [FINISH_KIND, ..] => read_finish(bytes, 1),
        [GROUP_KIND, ..] => read_group(alloc, bytes, 1),
        [PUT_KIND, ..] => read_put(alloc, bytes, 1),
        [REMOVE_KIND, ..] => read_remove(alloc, bytes, 1),
        [CLEAN_KIND, ..] => Ok((Change::Clean, 1)),
        _ => Err(bad(0)),
    }
}

// The change that is all of the bytes.
#[tactic(auto, unfolding(crate::specs::Changes::change_of))]
fn read_all(alloc: Global, bytes: &[u8]) -> Result<Change, CodecFault>
    ensures exact { Gives result (change_of bytes.now) }
    ensures fault { IfErr result (IsFaultWithin (length bytes.now)) }
    ensures free { takes_memory bytes.now ≡ false → IfErr result IsBad }
{
    let (change, next) = read_change(alloc, bytes)?;
    if next != bytes.len() {
        drop(change);
        return Err(bad(next));
    }
    Ok(change)
}

/// The change that the bytes encode: what is read is within its limits, and the bytes are its
/// encoding; bytes that encode a change within its limits are read, unless memory runs out, which
/// it can of those kinds alone that own some. `Bad` names the place, at most their length, where
/// the first field begins that cannot be read, or where bytes are left over.
pub fn decode_change(alloc: Global, bytes: &[u8]) -> Result<Change, CodecFault>
    ensures found { IfOk result (λ c. IsChange c × (bytes.now ≡ change_text c)) }
    ensures only { (c : Change) → IsChange c → bytes.now ≡ change_text c → Gives result (Ok c) }
    ensures exact { Gives result (change_of bytes.now) }
    ensures fault { IfErr result (IsFaultWithin (length bytes.now)) }
    ensures free { takes_memory bytes.now ≡ false → IfErr result IsBad }
{
    read_all(alloc, bytes)
}
