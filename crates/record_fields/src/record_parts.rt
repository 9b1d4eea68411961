// Options, lists, digests and what manifests say. What is read at a place is within its limits, and
// stands there as it is spelled; a value within its limits that stands there is read, unless memory
// runs out.
ghost use Rattle.std.specs.Prelude.{◌≤◌, ◌<◌, ◌^◌, ℕ, List, Option, All, length, Ok, IfOk, IfErr, IfSome};
ghost use Rattle.small_types.specs.declared.limits.TheConstants.{FILE_COUNT_LIMIT, NAME_LIMIT};
ghost use Rattle.small_types.specs.Short.{IsShort};
ghost use Rattle.identity.specs.declared.version.Version.{Version};
ghost use Rattle.identity.specs.Version.{IsVersion};
ghost use Rattle.digest_list.specs.declared.digest.Digest.{Digest};
ghost use Rattle.digest_list.specs.Digest.{IsSized};
ghost use Rattle.manifests.specs.declared.facts.Application.{Application};
ghost use Rattle.manifests.specs.declared.facts.Deployment.{Deployment};
ghost use Rattle.manifests.specs.declared.facts.FileEntry.{FileEntry};
ghost use Rattle.record_fields.specs.Fields.{text_field, version_field};
ghost use Rattle.record_fields.specs.Places.{Stands};
ghost use Rattle.record_fields.specs.Spelled.{application_field, deployment_field, digest_field, entry_field, list_field, option_field};
ghost use Rattle.record_fields.specs.Values.{AreDigests, IsEncodableApplication, IsEncodableLength, IsEncodableDeployment, IsEncodableEntry};
ghost use Rattle.record_fields.specs.Readers.{Gives, IsBad, IsFaultWithin, text_at, version_at};
ghost use Rattle.record_fields.specs.Parts.{digest_at, digests_at, list_at, option_at};
ghost use Rattle.record_fields.specs.Records.{application_at, deployment_at, entry_at};

use crate::CodecFault;
use crate::application_readers::application_here;
use crate::deployment_readers::deployment_here;
use crate::digest_readers::digests_here;
use crate::item_values::{DigestField, EntryField, TextField};
use crate::option_readers::{option_here, text_option_here, version_option_here};
use crate::readable::{Readable, list_here};
use digest_list::{Digest, DigestList};
use identity::Version;
use manifests::{Application, Deployment, FileEntry};
use small_types::limits::FILE_COUNT_LIMIT;
use small_types::{List, Text};
use std::alloc::Global;

/// The version at the place, behind a byte that says whether there is one, and the place behind it.
/// The fault is at the place, where another byte or none is there, or at the field.
pub fn read_version_option(
    bytes: &[u8],
    place: usize,
) -> Result<(Option<Version>, usize), CodecFault>
    requires { place ≤ length bytes.now }
    ensures found { IfOk result (λ x. Stands bytes.now place (option_field version_field x.0) x.1
        × IfSome x.0 IsVersion) }
    ensures only { (x : Option Version) (next : ℕ) → IfSome x IsVersion
        → Stands bytes.now place (option_field version_field x) next → Gives result (Ok (x, next)) }
    ensures exact { Gives result (option_at version_at bytes.now place) }
    ensures next { IfOk result (λ x. x.1 ≤ length bytes.now) }
    ensures fault { IfErr result (IsFaultWithin (length bytes.now)) }
    ensures free { IfErr result IsBad }
{
    version_option_here(bytes, place)
}

/// The text at the place, of at most the limit, behind a byte that says whether there is one, and
/// the place behind it.
/// The fault is at the place, where another byte or none is there, or at the text.
pub fn read_text_option(
    alloc: Global,
    bytes: &[u8],
    place: usize,
    limit: usize,
) -> Result<(Option<Text>, usize), CodecFault>
    requires limit { limit < 2 ^ 32 }
    requires place { place ≤ length bytes.now }
    ensures found { IfOk result (λ x. Stands bytes.now place (option_field text_field x.0) x.1
        × IfSome x.0 (IsShort limit)) }
    ensures only { (x : Option (List ℕ)) (next : ℕ) → IfSome x (IsShort limit)
        → Stands bytes.now place (option_field text_field x) next → Gives result (Ok (x, next)) }
    ensures exact { Gives result (option_at (text_at limit) bytes.now place) }
    ensures next { IfOk result (λ x. x.1 ≤ length bytes.now) }
    ensures fault { IfErr result (IsFaultWithin (length bytes.now)) }
{
    text_option_here(alloc, bytes, place, limit)
}

/// The value at the place, behind a byte that says whether there is one, and the place behind it.
/// The fault is at the place, where another byte or none is there, or that of the value.
pub fn read_option<T: Readable>(
    alloc: Global,
    bytes: &[u8],
    place: usize,
) -> Result<(Option<T::Value>, usize), CodecFault>
    requires { place ≤ length bytes.now }
    ensures found { IfOk result (λ x. Stands bytes.now place (option_field T.field x.0) x.1
        × IfSome x.0 T.fits) }
    ensures only { (x : Option T.Value) (next : ℕ) → IfSome x T.fits
        → Stands bytes.now place (option_field T.field x) next → Gives result (Ok (x, next)) }
    ensures exact { Gives result (option_at T.at bytes.now place) }
    ensures next { IfOk result (λ x. x.1 ≤ length bytes.now) }
    ensures fault { IfErr result (IsFaultWithin (length bytes.now)) }
{
    T::reads_as_spelled();
    option_here::<T>(alloc, bytes, place)
}

/// The list at the place, behind the number of its items, at most the limit, and the place behind
/// it.
/// The fault is at the place, where more are said, or that of the first item that cannot be read.
pub fn read_list<T: Readable>(
    alloc: Global,
    bytes: &[u8],
    place: usize,
    limit: usize,
) -> Result<(List<T::Value>, usize), CodecFault>
    requires { place ≤ length bytes.now }
    ensures found { IfOk result (λ x. Stands bytes.now place (list_field T.field x.0) x.1
        × (IsEncodableLength limit x.0 × All T.fits x.0)) }
    ensures only { (x : List T.Value) (next : ℕ) → IsEncodableLength limit x × All T.fits x
        → Stands bytes.now place (list_field T.field x) next → Gives result (Ok (x, next)) }
    ensures exact { Gives result (list_at limit T.at bytes.now place) }
    ensures next { IfOk result (λ x. x.1 ≤ length bytes.now) }
    ensures fault { IfErr result (IsFaultWithin (length bytes.now)) }
{
    T::reads_as_spelled();
    list_here::<T>(alloc, bytes, place, limit)
}

/// The digest at the place, the number of its algorithm and a value of the length that this has, and
/// the place behind it.
/// The fault is that of the first field that cannot be read.
pub fn read_digest(alloc: Global, bytes: &[u8], place: usize) -> Result<(Digest, usize), CodecFault>
    requires { place ≤ length bytes.now }
    ensures found { IfOk result (λ x. Stands bytes.now place (digest_field x.0) x.1 × IsSized x.0) }
    ensures only { (x : Digest) (next : ℕ) → IsSized x
        → Stands bytes.now place (digest_field x) next → Gives result (Ok (x, next)) }
    ensures exact { Gives result (digest_at bytes.now place) }
    ensures next { IfOk result (λ x. x.1 ≤ length bytes.now) }
    ensures fault { IfErr result (IsFaultWithin (length bytes.now)) }
{
    DigestField::read_here(alloc, bytes, place)
}

/// The 1 to 8 digests at the place, behind their number, and the place behind them. Each is the
/// number of its algorithm and a value of the length that this has.
/// The fault is at the place, where none or more than 8 are said, or that of the first field that
/// cannot be read.
pub fn read_digests(
    alloc: Global,
    bytes: &[u8],
    place: usize,
) -> Result<(DigestList, usize), CodecFault>
    requires { place ≤ length bytes.now }
    ensures found { IfOk result (λ x. Stands bytes.now place (list_field digest_field x.0) x.1
        × AreDigests x.0) }
    ensures only { (x : List Digest) (next : ℕ) → AreDigests x
        → Stands bytes.now place (list_field digest_field x) next → Gives result (Ok (x, next)) }
    ensures exact { Gives result (digests_at bytes.now place) }
    ensures next { IfOk result (λ x. x.1 ≤ length bytes.now) }
    ensures fault { IfErr result (IsFaultWithin (length bytes.now)) }
{
    digests_here(alloc, bytes, place)
}

/// The listed file at the place, and the place behind it.
/// The fault is that of the first field that cannot be read.
pub fn read_entry(
    alloc: Global,
    bytes: &[u8],
    place: usize,
) -> Result<(FileEntry, usize), CodecFault>
    requires { place ≤ length bytes.now }
    ensures found { IfOk result (λ x. Stands bytes.now place (entry_field x.0) x.1
        × IsEncodableEntry x.0) }
    ensures only { (x : FileEntry) (next : ℕ) → IsEncodableEntry x
        → Stands bytes.now place (entry_field x) next → Gives result (Ok (x, next)) }
    ensures exact { Gives result (entry_at bytes.now place) }
    ensures next { IfOk result (λ x. x.1 ≤ length bytes.now) }
    ensures fault { IfErr result (IsFaultWithin (length bytes.now)) }
{
    EntryField::read_here(alloc, bytes, place)
}

/// The listed files at the place, behind their number, at most 16,384, and the place behind them.
/// The fault is at the place, where more are said, or that of the first field that cannot be read.
pub fn read_entries(
    alloc: Global,
    bytes: &[u8],
    place: usize,
) -> Result<(List<FileEntry>, usize), CodecFault>
    requires { place ≤ length bytes.now }
    ensures found { IfOk result (λ x. Stands bytes.now place (list_field entry_field x.0) x.1
        × ((length x.0 ≤ FILE_COUNT_LIMIT) × All IsEncodableEntry x.0)) }
    ensures only { (x : List FileEntry) (next : ℕ)
        → ((length x ≤ FILE_COUNT_LIMIT) × All IsEncodableEntry x)
        → Stands bytes.now place (list_field entry_field x) next → Gives result (Ok (x, next)) }
    ensures exact { Gives result (list_at FILE_COUNT_LIMIT entry_at bytes.now place) }
    ensures next { IfOk result (λ x. x.1 ≤ length bytes.now) }
    ensures fault { IfErr result (IsFaultWithin (length bytes.now)) }
{
    list_here::<EntryField>(alloc, bytes, place, FILE_COUNT_LIMIT)
}

/// What a deployment manifest says, at the place, and the place behind it.
/// The fault is that of the first field that cannot be read.
pub fn read_deployment(
    alloc: Global,
    bytes: &[u8],
    place: usize,
) -> Result<(Deployment, usize), CodecFault>
    requires { place ≤ length bytes.now }
    ensures found { IfOk result (λ x. Stands bytes.now place (deployment_field x.0) x.1
        × IsEncodableDeployment x.0) }
    ensures only { (x : Deployment) (next : ℕ) → IsEncodableDeployment x
        → Stands bytes.now place (deployment_field x) next → Gives result (Ok (x, next)) }
    ensures exact { Gives result (deployment_at bytes.now place) }
    ensures next { IfOk result (λ x. x.1 ≤ length bytes.now) }
    ensures fault { IfErr result (IsFaultWithin (length bytes.now)) }
{
    deployment_here(alloc, bytes, place)
}

/// What an application manifest says, at the place, and the place behind it.
/// The fault is that of the first field that cannot be read.
pub fn read_application(
    alloc: Global,
    bytes: &[u8],
    place: usize,
) -> Result<(Application, usize), CodecFault>
    requires { place ≤ length bytes.now }
    ensures found { IfOk result (λ x. Stands bytes.now place (application_field x.0) x.1
        × IsEncodableApplication x.0) }
    ensures only { (x : Application) (next : ℕ) → IsEncodableApplication x
        → Stands bytes.now place (application_field x) next → Gives result (Ok (x, next)) }
    ensures exact { Gives result (application_at bytes.now place) }
    ensures next { IfOk result (λ x. x.1 ≤ length bytes.now) }
    ensures fault { IfErr result (IsFaultWithin (length bytes.now)) }
{
    application_here(alloc, bytes, place)
}

/// The texts of at most 240 bytes at the place, behind their number, at most 16,384, and the place
/// behind them.
/// The fault is at the place, where more are said, or at the first text that cannot be read.
pub fn read_texts(
    alloc: Global,
    bytes: &[u8],
    place: usize,
) -> Result<(List<Text>, usize), CodecFault>
    requires { place ≤ length bytes.now }
    ensures found { IfOk result (λ x. Stands bytes.now place (list_field text_field x.0) x.1
        × ((length x.0 ≤ FILE_COUNT_LIMIT) × All (IsShort NAME_LIMIT) x.0)) }
    ensures only { (x : List (List ℕ)) (next : ℕ)
        → ((length x ≤ FILE_COUNT_LIMIT) × All (IsShort NAME_LIMIT) x)
        → Stands bytes.now place (list_field text_field x) next → Gives result (Ok (x, next)) }
    ensures exact { Gives result (list_at FILE_COUNT_LIMIT (text_at NAME_LIMIT) bytes.now place) }
    ensures next { IfOk result (λ x. x.1 ≤ length bytes.now) }
    ensures fault { IfErr result (IsFaultWithin (length bytes.now)) }
{
    list_here::<TextField>(alloc, bytes, place, FILE_COUNT_LIMIT)
}
