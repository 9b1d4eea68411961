// Writing changes, and how long they are.
ghost use Rattle.std.specs.Prelude.{◌≡◌, ◌≤◌, ◌++◌, length, drop};
ghost use Rattle.record_codec.specs.Codec.{change_text, IsChange, length_limit};

use crate::change_writers::{write_group, write_heard, write_install, write_put, write_remove};
use crate::lengths::{group_length, heard_length, install_length, local_length};
use crate::numbers::{
    BOOT_KIND, CLEAN_KIND, FINISH_KIND, LAUNCH_KIND, REQUIRE_KIND, ROLLBACK_KIND, SKIP_KIND,
    UNHEARD_KIND,
};
use record_fields::{
    key_length, name_length, write_key, write_u8, write_u32, write_u64, write_version,
};
use store_state::Change;

/// How many bytes the change's encoding has: 9 of a boot number, at most 457 of a requirement, at
/// most 2^50 of an installation, at most 474 of what a check heard, at most 449 of a check that
/// heard nothing, 5 of a skip, of a rollback and of a launch, 9 of the end of a lease, at most 2^50
/// of a group, at most 2^35 of a data file, at most 253 of its removal, and 1 of a clean.
pub fn encoded_length(change: &Change) -> u64
    requires { IsChange change.now }
    ensures length { result ≡ length (change_text change.now) }
    ensures bound { result ≤ length_limit change.now }
{
    match change {
        Change::Boot { .. } => 9,
        Change::Require { key, .. } => 9 + key_length(key),
        Change::Install {
            view,
            contents,
            provider,
            ..
        } => install_length(view, contents.as_slice(), provider),
        Change::Heard {
            key,
            version,
            minimum,
            ..
        } => heard_length(key, *version, minimum),
        Change::Unheard { key } => 1 + key_length(key),
        Change::Skip { .. } => 5,
        Change::Rollback { .. } => 5,
        Change::Launch { .. } => 5,
        Change::Finish { .. } => 9,
        Change::Group {
            group,
            contents,
            ..
        } => group_length(group, contents.as_slice()),
        Change::Put { file, .. } => 9 + local_length(file),
        Change::Remove { name, .. } => 9 + name_length(name),
        Change::Clean => 1,
    }
}

/// Writes the change's encoding to the front of the buffer, leaves the rest, and answers how many
/// bytes it has. It takes no memory.
pub fn encode_change(change: &Change, out: &mut [u8]) -> usize
    requires change { IsChange change.now }
    requires room { length (change_text change.now) ≤ length out.old }
    ensures length { result ≡ length (change_text change.now) }
    ensures text { out.new ≡ change_text change.now ++ drop result out.old }
{
    match change {
        Change::Boot { boot } => {
            let next = write_u8(out, 0, BOOT_KIND);
            write_u64(out, next, *boot)
        }
        Change::Require { key, version } => {
            let next = write_u8(out, 0, REQUIRE_KIND);
            let next = write_key(out, next, key);
            write_version(out, next, *version)
        }
        Change::Install {
            view,
            contents,
            provider,
            now,
        } => write_install(out, view, contents.as_slice(), provider, *now),
        Change::Heard {
            key,
            version,
            minimum,
            now,
        } => write_heard(out, key, *version, minimum, *now),
        Change::Unheard { key } => {
            let next = write_u8(out, 0, UNHEARD_KIND);
            write_key(out, next, key)
        }
        Change::Skip { app } => {
            let next = write_u8(out, 0, SKIP_KIND);
            write_u32(out, next, *app)
        }
        Change::Rollback { app } => {
            let next = write_u8(out, 0, ROLLBACK_KIND);
            write_u32(out, next, *app)
        }
        Change::Launch { app } => {
            let next = write_u8(out, 0, LAUNCH_KIND);
            write_u32(out, next, *app)
        }
        Change::Finish { lease } => {
            let next = write_u8(out, 0, FINISH_KIND);
            write_u64(out, next, *lease)
        }
        Change::Group {
            view,
            group,
            contents,
        } => write_group(out, *view, group, contents.as_slice()),
        Change::Put { view, file } => write_put(out, *view, file),
        Change::Remove { view, name } => write_remove(out, *view, name),
        Change::Clean => write_u8(out, 0, CLEAN_KIND),
    }
}
