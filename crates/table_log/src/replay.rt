// How tables and changes are made of their texts.
ghost use Rattle.std.specs.Prelude.{IfOk};
ghost use Rattle.table_codec.specs.Values.{HaveFields};
ghost use Rattle.table_log.specs.Replay.{IsBase, IsMade, Replays, Settled, Tests, Tries};

use crate::OpenFault;
use record_codec::decode_change;
use record_fields::CodecFault;
use small_types::Bytes;
use std::alloc::Global;
use store_state::{Change, StateFault, StoreState};
use table_codec::{decode_state, fields_stay_encodable, tables_are_spelled_once};

// How a change that fits ends.
fn made(applied: Result<(), StateFault>) -> Result<bool, StateFault>
    ensures { IsMade applied result }
{
    match applied {
        Ok(()) => Ok(true),
        Err(fault) => Err(fault),
    }
}

// Makes the change where it fits, and answers whether it does.
fn make_fitting(alloc: Global, state: &mut StoreState, change: Change) -> Result<bool, StateFault>
    ensures { IfOk result (Tests change state.old state.new) }
{
    match state.fits(alloc, &change) {
        Err(fault) => {
            drop(change);
            Err(fault)
        }
        Ok(false) => {
            drop(change);
            Ok(false)
        }
        Ok(true) => made(table_changes::make(alloc, state, change)),
    }
}

// Makes the change with that text, where it is that of a change that fits, and answers whether it
// is.
fn replay_one(alloc: Global, state: &mut StoreState, text: &[u8]) -> Result<bool, StateFault>
    ensures { IfOk result (Tries text.now state.old state.new) }
{
    match decode_change(alloc, text) {
        Ok(change) => make_fitting(alloc, state, change),
        Err(CodecFault::Bad { .. }) => Ok(false),
        Err(CodecFault::Memory) => Err(StateFault::Memory),
    }
}

// Makes the changes with these texts, one after another, and answers whether each fits.
fn replay(alloc: Global, state: &mut StoreState, changes: &[Bytes]) -> Result<bool, StateFault>
    ensures { IfOk result (Replays state.old changes.now state.new) }
{
    for change in changes {
        if !replay_one(alloc, state, change.as_slice())? {
            return Ok(false);
        }
    }
    Ok(true)
}

// The tables with that text.
fn base_of(alloc: Global, text: &[u8]) -> Result<StoreState, OpenFault>
    ensures { IsBase text.now result }
{
    match decode_state(alloc, text) {
        Ok(state) => Ok(state),
        Err(CodecFault::Bad { .. }) => Err(OpenFault::NotTables),
        Err(CodecFault::Memory) => Err(OpenFault::Memory),
    }
}

/// The tables to which a half of this text and these changes leads.
pub(crate) fn settle(alloc: Global, text: &[u8], changes: &[Bytes]) -> Result<StoreState, OpenFault>
    ensures leads { Settled text.now changes.now result }
    ensures fields { IfOk result HaveFields }
{
    tables_are_spelled_once();
    fields_stay_encodable();
    let mut state = match base_of(alloc, text) {
        Ok(state) => state,
        Err(fault) => return Err(fault),
    };
    match replay(alloc, &mut state, changes) {
        Ok(true) => Ok(state),
        Ok(false) => {
            drop(state);
            Err(OpenFault::NotTables)
        }
        Err(StateFault::Memory) => {
            drop(state);
            Err(OpenFault::Memory)
        }
    }
}
