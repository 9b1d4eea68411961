// Reading tables, from the left.
ghost use Rattle.std.specs.Prelude.{◌≡◌, ◌≤◌, length, Ok, IfOk, IfErr, OnOk};
ghost use Rattle.store_state.specs.Kept.{AreTables};
ghost use Rattle.store_state.specs.Tables.{Tables};
ghost use Rattle.record_fields.specs.Readers.{Gives, IsFaultWithin};
ghost use Rattle.table_codec.specs.Readers.{IsRefused, Judges, lists_at, tables_at, tables_of, tables_with};
ghost use Rattle.table_codec.specs.Spelled.{state_text};
ghost use Rattle.table_codec.specs.Values.{IsEncodableState};

use crate::app_field::AppField;
use crate::lease_field::LeaseField;
use crate::view_field::ViewField;
use machine::{AppState, Lease};
use record_codec::ContentField;
use record_fields::{CodecFault, read_list, read_u64};
use small_types::List;
use small_types::limits::{APPLICATION_LIMIT, FILE_COUNT_LIMIT, LEASE_LIMIT, VIEW_LIMIT};
use std::alloc::Global;
use store_state::{Content, PartsFault, StoreState, TableParts, View};

// Leases, views, applications and contents.
#[derive(Drop)]
pub(crate) struct Lists {
    leases: List<Lease>,
    views: List<View>,
    apps: List<AppState>,
    contents: List<Content>,
}

// The fault of the bytes from the place on.
fn bad(place: usize) -> CodecFault
    ensures { result ≡ CodecFault.Bad place }
{
    CodecFault::Bad {
        place: place as u64,
    }
}

// The leases, the views, the applications and the contents at the place, and the place behind them.
#[tactic(auto, unfolding(crate::specs::Readers::lists_at))]
fn lists_here(alloc: Global, bytes: &[u8], place: usize) -> Result<(Lists, usize), CodecFault>
    requires { place ≤ length bytes.now }
    ensures exact { Gives result (lists_at bytes.now place) }
    ensures next { IfOk result (λ x. x.1 ≤ length bytes.now) }
    ensures fault { IfErr result (IsFaultWithin (length bytes.now)) }
{
    let (leases, next) = read_list::<LeaseField>(alloc, bytes, place, LEASE_LIMIT)?;
    let (views, next) = match read_list::<ViewField>(alloc, bytes, next, VIEW_LIMIT) {
        Ok(found) => found,
        Err(fault) => {
            drop(leases);
            return Err(fault);
        }
    };
    let (apps, next) = match read_list::<AppField>(alloc, bytes, next, APPLICATION_LIMIT) {
        Ok(found) => found,
        Err(fault) => {
            drop(views);
            drop(leases);
            return Err(fault);
        }
    };
    let (contents, next) = match read_list::<ContentField>(alloc, bytes, next, FILE_COUNT_LIMIT) {
        Ok(found) => found,
        Err(fault) => {
            drop(apps);
            drop(views);
            drop(leases);
            return Err(fault);
        }
    };
    let lists = Lists {
        leases,
        views,
        apps,
        contents,
    };
    Ok((lists, next))
}

// The tables of these numbers and lists.
fn tables_with(boot: u64, next_view: u64, next_lease: u64, lists: Lists) -> TableParts
    ensures { result ≡ tables_with boot next_view next_lease lists }
{
    TableParts {
        boot,
        next_view,
        next_lease,
        leases: lists.leases,
        views: lists.views,
        apps: lists.apps,
        contents: lists.contents,
    }
}

// The tables at the place, and the place behind them.
#[tactic(auto, unfolding(crate::specs::Readers::tables_at))]
fn tables_here(alloc: Global, bytes: &[u8], place: usize) -> Result<(TableParts, usize), CodecFault>
    requires { place ≤ length bytes.now }
    ensures exact { Gives result (tables_at bytes.now place) }
    ensures next { IfOk result (λ x. x.1 ≤ length bytes.now) }
    ensures fault { IfErr result (IsFaultWithin (length bytes.now)) }
{
    let (boot, next) = read_u64(bytes, place)?;
    let (next_view, next) = read_u64(bytes, next)?;
    let (next_lease, next) = read_u64(bytes, next)?;
    let (lists, next) = lists_here(alloc, bytes, next)?;
    Ok((tables_with(boot, next_view, next_lease, lists), next))
}

// The tables that are all of the bytes.
#[tactic(auto, unfolding(crate::specs::Readers::tables_of))]
fn read_all(alloc: Global, bytes: &[u8]) -> Result<TableParts, CodecFault>
    ensures exact { Gives result (tables_of bytes.now) }
    ensures fault { IfErr result (IsFaultWithin (length bytes.now)) }
{
    let (tables, next) = tables_here(alloc, bytes, 0)?;
    if next != bytes.len() {
        drop(tables);
        return Err(bad(next));
    }
    Ok(tables)
}

/// The tables that the bytes encode, in whatever order: what is read is within its limits, and the
/// bytes are its encoding; bytes that encode tables within their limits are read, unless memory
/// runs out. `Bad` names the place, at most their length, where the first field begins that cannot
/// be read, or where bytes are left over.
pub fn decode_tables(alloc: Global, bytes: &[u8]) -> Result<TableParts, CodecFault>
    ensures found { IfOk result (λ t. IsEncodableState t × (bytes.now ≡ state_text t)) }
    ensures only { (t : Tables) → IsEncodableState t → bytes.now ≡ state_text t
        → Gives result (Ok t) }
    ensures exact { Gives result (tables_of bytes.now) }
    ensures fault { IfErr result (IsFaultWithin (length bytes.now)) }
{
    read_all(alloc, bytes)
}

// The tables in memory of these values, which are all of so many bytes.
fn made_of(alloc: Global, end: usize, parts: TableParts) -> Result<StoreState, CodecFault>
    ensures same { IfOk result (λ state. state ≡ parts) }
    ensures tables { OnOk result (AreTables parts) }
    ensures refused { IfErr result (IsRefused end parts) }
{
    match StoreState::from_parts(alloc, parts) {
        Ok(state) => Ok(state),
        Err(PartsFault::NoTables) => Err(bad(end)),
        Err(PartsFault::Memory) => Err(CodecFault::Memory),
    }
}

/// The tables in memory that the bytes encode: what is read is within its limits and is tables, and
/// the bytes are its encoding; bytes that encode such tables are read, unless memory runs out.
/// `Bad` names the place, at most their length, where the first field begins that cannot be read,
/// or where bytes are left over; and the end of the bytes, where what they encode is no tables, as
/// values out of their order are none.
pub fn decode_state(alloc: Global, bytes: &[u8]) -> Result<StoreState, CodecFault>
    ensures found { IfOk result (λ t. IsEncodableState t × AreTables t
        × (bytes.now ≡ state_text t)) }
    ensures only { (t : Tables) → IsEncodableState t → AreTables t → bytes.now ≡ state_text t
        → Gives result (Ok t) }
    ensures exact { Judges bytes.now (tables_of bytes.now) result }
    ensures fault { IfErr result (IsFaultWithin (length bytes.now)) }
{
    match decode_tables(alloc, bytes) {
        Ok(parts) => made_of(alloc, bytes.len(), parts),
        Err(fault) => Err(fault),
    }
}
