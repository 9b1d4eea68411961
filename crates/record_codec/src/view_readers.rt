// Reading views and their files, from the left.
ghost use Rattle.std.specs.Prelude.{◌≤◌, length, IfOk, IfErr};
ghost use Rattle.record_fields.specs.Readers.{Gives, IsFaultWithin};
ghost use Rattle.record_codec.specs.Records.{view_at};

use crate::item_values::{BlockField, ContentField, LocalField};
use crate::numbers::COUNT_LIMIT;
use record_fields::{
    CodecFault, Readable, TextField, read_application, read_deployment, read_digests, read_list,
    read_name, read_target, read_u32, read_u64,
};
use small_types::Text;
use std::alloc::Global;
use store_state::{Content, LocalFile, View};

impl Readable for BlockField {
    type Value = u32;

    ghost use Rattle.record_codec.specs.Records.{block_at};
    ghost use Rattle.record_codec.specs.Spelled.{block_field};
    ghost use Rattle.record_codec.specs.Values.{IsBlock};

    ghost field = { block_field };

    ghost fits = { IsBlock };

    ghost at = { block_at };

    fn read_here(_: Global, bytes: &[u8], place: usize) -> Result<(u32, usize), CodecFault> {
        read_u32(bytes, place)
    }

    fn reads_as_spelled() {}
}

impl Readable for ContentField {
    type Value = Content;

    ghost use Rattle.record_codec.specs.Records.{content_at};
    ghost use Rattle.record_codec.specs.Spelled.{content_field};
    ghost use Rattle.record_codec.specs.Values.{IsEncodableContent};

    ghost field = { content_field };

    ghost fits = { IsEncodableContent };

    ghost at = { content_at };

    #[tactic(auto, unfolding(crate::specs::Records::content_at))]
    fn read_here(
        alloc: Global,
        bytes: &[u8],
        place: usize,
    ) -> Result<(Content, usize), CodecFault> {
        let (size, next) = read_u64(bytes, place)?;
        let (list, next) = read_digests(alloc, bytes, next)?;
        let (held, next) = read_list::<BlockField>(alloc, bytes, next, COUNT_LIMIT)?;
        let content = Content { size, list, held };
        Ok((content, next))
    }

    fn reads_as_spelled() {}
}

impl Readable for LocalField {
    type Value = LocalFile;

    ghost use Rattle.record_codec.specs.Records.{local_at};
    ghost use Rattle.record_codec.specs.Spelled.{local_field};
    ghost use Rattle.record_codec.specs.Values.{IsEncodableLocal};

    ghost field = { local_field };

    ghost fits = { IsEncodableLocal };

    ghost at = { local_at };

    #[tactic(auto, unfolding(crate::specs::Records::local_at))]
    fn read_here(
        alloc: Global,
        bytes: &[u8],
        place: usize,
    ) -> Result<(LocalFile, usize), CodecFault> {
        let (name, next) = read_name(alloc, bytes, place)?;
        let (length, next) = read_u64(bytes, next)?;
        let (held, next) = read_list::<BlockField>(alloc, bytes, next, COUNT_LIMIT)?;
        let file = LocalFile { name, length, held };
        Ok((file, next))
    }

    fn reads_as_spelled() {}
}

// The view at the place, with at most so many groups and so many data files, and the place behind
// it.
#[tactic(auto, unfolding(crate::specs::Records::view_at))]
pub(crate) fn view_here(
    alloc: Global,
    bytes: &[u8],
    place: usize,
    most: usize,
) -> Result<(View, usize), CodecFault>
    requires { place ≤ length bytes.now }
    ensures exact { Gives result (view_at most bytes.now place) }
    ensures next { IfOk result (λ x. x.1 ≤ length bytes.now) }
    ensures fault { IfErr result (IsFaultWithin (length bytes.now)) }
{
    let (number, next) = read_u64(bytes, place)?;
    let (deployment, next) = read_deployment(alloc, bytes, next)?;
    let (application, next) = match read_application(alloc, bytes, next) {
        Ok(found) => found,
        Err(fault) => {
            drop(deployment);
            return Err(fault);
        }
    };
    let (base, next) = match read_target(alloc, bytes, next) {
        Ok(found) => found,
        Err(fault) => {
            drop(application);
            drop(deployment);
            return Err(fault);
        }
    };
    let (groups, next) = match read_list::<TextField>(alloc, bytes, next, most) {
        Ok(found) => found,
        Err(fault) => {
            drop(application);
            drop(deployment);
            return Err(fault);
        }
    };
    let (locals, next) = match read_list::<LocalField>(alloc, bytes, next, most) {
        Ok(found) => found,
        Err(fault) => {
            drop(application);
            drop(deployment);
            return Err(fault);
        }
    };
    let view = View {
        number,
        deployment,
        application,
        base,
        groups,
        locals,
    };
    Ok((view, next))
}
