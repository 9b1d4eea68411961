// Reading what an application manifest says, from the left.
ghost use Rattle.std.specs.Prelude.{◌≤◌, length, IfOk, IfErr};
ghost use Rattle.record_fields.specs.Readers.{Gives, IsFaultWithin};
ghost use Rattle.record_fields.specs.Parts.{list_at};
ghost use Rattle.record_fields.specs.Records.{application_at, entry_at};

use crate::CodecFault;
use crate::byte_readers::name_here;
use crate::digest_readers::digests_here;
use crate::field_readers::{text_here, u64_here};
use crate::form_readers::truth_here;
use crate::item_values::EntryField;
use crate::option_readers::text_option_here;
use crate::part_readers::identity_here;
use crate::readable::{Readable, list_here};
use manifests::{Application, FileEntry};
use small_types::limits::{FILE_COUNT_LIMIT, NAME_LIMIT, URL_LIMIT};
use std::alloc::Global;

impl Readable for EntryField {
    type Value = FileEntry;

    ghost use Rattle.record_fields.specs.Records.{entry_at};
    ghost use Rattle.record_fields.specs.Spelled.{entry_field};
    ghost use Rattle.record_fields.specs.Values.{IsEncodableEntry};

    ghost field = { entry_field };

    ghost fits = { IsEncodableEntry };

    ghost at = { entry_at };

    #[tactic(auto, unfolding(crate::specs::Records::entry_at))]
    fn read_here(
        alloc: Global,
        bytes: &[u8],
        place: usize,
    ) -> Result<(FileEntry, usize), CodecFault> {
        let (name, next) = name_here(alloc, bytes, place)?;
        let (size, next) = u64_here(bytes, next)?;
        let (list, next) = digests_here(alloc, bytes, next)?;
        let (group, next) = text_option_here(alloc, bytes, next, NAME_LIMIT)?;
        let (local, next) = truth_here(bytes, next)?;
        let entry = FileEntry {
            name,
            size,
            list,
            group,
            local,
        };
        Ok((entry, next))
    }

    fn reads_as_spelled() {}
}

// What an application manifest says, at the place, and the place behind it.
#[tactic(auto, unfolding(crate::specs::Records::application_at))]
pub(crate) fn application_here(
    alloc: Global,
    bytes: &[u8],
    place: usize,
) -> Result<(Application, usize), CodecFault>
    requires { place ≤ length bytes.now }
    ensures exact { Gives result (application_at bytes.now place) }
    ensures next { IfOk result (λ x. x.1 ≤ length bytes.now) }
    ensures fault { IfErr result (IsFaultWithin (length bytes.now)) }
{
    let (identity, next) = identity_here(alloc, bytes, place)?;
    let (entry, next) = match text_here(alloc, bytes, next, NAME_LIMIT) {
        Ok(found) => found,
        Err(fault) => {
            drop(identity);
            return Err(fault);
        }
    };
    let (parameters, next) = match text_here(alloc, bytes, next, URL_LIMIT) {
        Ok(found) => found,
        Err(fault) => {
            drop(identity);
            return Err(fault);
        }
    };
    let (files, next) = match list_here::<EntryField>(alloc, bytes, next, FILE_COUNT_LIMIT) {
        Ok(found) => found,
        Err(fault) => {
            drop(identity);
            return Err(fault);
        }
    };
    let application = Application {
        identity,
        entry,
        parameters,
        files,
    };
    Ok((application, next))
}
