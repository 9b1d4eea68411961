// Applications.
ghost use Rattle.std.specs.Prelude.{◌≡◌, ◌+◌, ◌<◌, ◌≤◌, ◌^◌, length, Option, IfOk, IfErr};
ghost use Rattle.record_fields.specs.Places.{WritesField};
ghost use Rattle.record_fields.specs.Readers.{Gives, IsFaultWithin};
ghost use Rattle.table_codec.specs.Readers.{rest_at, whole_app};
ghost use Rattle.table_codec.specs.Spelled.{app_field, rest_field};
ghost use Rattle.table_codec.specs.Values.{IsEncodableApp};

use crate::option_fields::{NumberField, TargetField};
use identity::{Key, Version};
use machine::AppState;
use record_fields::{
    CodecFault, Item, Readable, VersionField, key_length, option_length, read_key, read_option,
    read_truth, read_version_option, write_key, write_option, write_truth,
};
use small_types::Target;
use std::alloc::Global;

// What comes behind the address that updates come from.
#[derive(Clone, Copy)]
pub(crate) struct AppRest {
    current: Option<u64>,
    previous: Option<u64>,
    minimum: Option<Version>,
    offer: Option<Version>,
    skipped: Option<Version>,
    excluded: Option<Version>,
    last_check: Option<u64>,
    checked: bool,
}

/// How applications stand in lists.
pub struct AppField;

impl Item for AppField {
    type Value = AppState;

    ghost field = { app_field };

    ghost fits = { IsEncodableApp };

    fn item_length(value: &AppState) -> u64 {
        app_length(value)
    }

    fn write_item(out: &mut [u8], place: usize, value: &AppState) -> usize {
        write_app(out, place, value)
    }
}

#[tactic(auto, using(record_fields::proofs::Long::lengths), unfolding(crate::specs::Spelled::rest_field))]
fn rest_length(app: &AppState) -> u64
    requires { length (rest_field app.now) < 2 ^ 63 }
    ensures { result ≡ length (rest_field app.now) }
{
    option_length::<NumberField>(&app.current)
        + option_length::<NumberField>(&app.previous)
        + option_length::<VersionField>(&app.minimum)
        + option_length::<VersionField>(&app.offer)
        + option_length::<VersionField>(&app.skipped)
        + option_length::<VersionField>(&app.excluded)
        + option_length::<NumberField>(&app.last_check)
        + 1
}

#[tactic(auto, using(record_fields::proofs::Long::lengths), unfolding(crate::specs::Spelled::app_field))]
fn app_length(app: &AppState) -> u64
    requires { length (app_field app.now) < 2 ^ 63 }
    ensures { result ≡ length (app_field app.now) }
{
    key_length(&app.key) + option_length::<TargetField>(&app.provider) + rest_length(app)
}

// WritesField what comes behind the address at the place, and answers the place behind it.
#[tactic(auto, using(record_fields::proofs::Long::lengths), unfolding(crate::specs::Spelled::rest_field))]
fn write_rest(out: &mut [u8], place: usize, app: &AppState) -> usize
    requires app { IsEncodableApp app.now }
    requires room { place + length (rest_field app.now) ≤ length out.old }
    ensures { WritesField out.old place (rest_field app.now) out.new result }
{
    let next = write_option::<NumberField>(out, place, &app.current);
    let next = write_option::<NumberField>(out, next, &app.previous);
    let next = write_option::<VersionField>(out, next, &app.minimum);
    let next = write_option::<VersionField>(out, next, &app.offer);
    let next = write_option::<VersionField>(out, next, &app.skipped);
    let next = write_option::<VersionField>(out, next, &app.excluded);
    let next = write_option::<NumberField>(out, next, &app.last_check);
    write_truth(out, next, app.checked)
}

// Writes the application at the place, its fields in their order, and answers the place behind it.
#[tactic(auto, using(record_fields::proofs::Long::lengths), unfolding(crate::specs::Spelled::app_field))]
fn write_app(out: &mut [u8], place: usize, app: &AppState) -> usize
    requires app { IsEncodableApp app.now }
    requires room { place + length (app_field app.now) ≤ length out.old }
    ensures { WritesField out.old place (app_field app.now) out.new result }
{
    let next = write_key(out, place, &app.key);
    let next = write_option::<TargetField>(out, next, &app.provider);
    write_rest(out, next, app)
}

// What comes behind the address, at the place, and the place behind it.
#[tactic(auto, unfolding(crate::specs::Readers::rest_at))]
fn rest_here(alloc: Global, bytes: &[u8], place: usize) -> Result<(AppRest, usize), CodecFault>
    requires { place ≤ length bytes.now }
    ensures exact { Gives result (rest_at bytes.now place) }
    ensures next { IfOk result (λ x. x.1 ≤ length bytes.now) }
    ensures fault { IfErr result (IsFaultWithin (length bytes.now)) }
{
    let (current, next) = read_option::<NumberField>(alloc, bytes, place)?;
    let (previous, next) = read_option::<NumberField>(alloc, bytes, next)?;
    let (minimum, next) = read_version_option(bytes, next)?;
    let (offer, next) = read_version_option(bytes, next)?;
    let (skipped, next) = read_version_option(bytes, next)?;
    let (excluded, next) = read_version_option(bytes, next)?;
    let (last_check, next) = read_option::<NumberField>(alloc, bytes, next)?;
    let (checked, next) = read_truth(bytes, next)?;
    let rest = AppRest {
        current,
        previous,
        minimum,
        offer,
        skipped,
        excluded,
        last_check,
        checked,
    };
    Ok((rest, next))
}

// The application of the key, with that address and what comes behind it.
fn whole_app(key: Key, provider: Option<Target>, rest: AppRest) -> AppState
    ensures { result ≡ whole_app key provider rest }
{
    AppState {
        key,
        provider,
        current: rest.current,
        previous: rest.previous,
        minimum: rest.minimum,
        offer: rest.offer,
        skipped: rest.skipped,
        excluded: rest.excluded,
        last_check: rest.last_check,
        checked: rest.checked,
    }
}

impl Readable for AppField {
    type Value = AppState;

    ghost use Rattle.table_codec.specs.Readers.{app_at};

    ghost field = { app_field };

    ghost fits = { IsEncodableApp };

    ghost at = { app_at };

    #[tactic(auto, unfolding(crate::specs::Readers::app_at))]
    fn read_here(
        alloc: Global,
        bytes: &[u8],
        place: usize,
    ) -> Result<(AppState, usize), CodecFault> {
        let (key, next) = read_key(alloc, bytes, place)?;
        let (provider, next) = match read_option::<TargetField>(alloc, bytes, next) {
            Ok(found) => found,
            Err(fault) => {
                drop(key);
                return Err(fault);
            }
        };
        let (rest, next) = match rest_here(alloc, bytes, next) {
            Ok(found) => found,
            Err(fault) => {
                drop(provider);
                drop(key);
                return Err(fault);
            }
        };
        Ok((whole_app(key, provider, rest), next))
    }

    fn reads_as_spelled() {}
}
