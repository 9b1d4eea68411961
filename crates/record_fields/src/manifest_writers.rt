// Writing what manifests say: digests, files, deployments and applications.
ghost use Rattle.std.specs.Prelude.{◌≡◌, ◌+◌, ◌<◌, ◌≤◌, ◌^◌, length};
ghost use Rattle.digest_list.specs.Digest.{IsSized};
ghost use Rattle.record_fields.specs.Places.{WritesField};
ghost use Rattle.record_fields.specs.Spelled.{algorithm_number, application_field, deployment_field, digest_field, entry_field, list_field, listed_field, terms_field};
ghost use Rattle.record_fields.specs.Values.{AreDigests, IsEncodableApplication, IsEncodableDeployment, IsEncodableEntry};

use crate::field_writers::{write_bytes, write_name, write_text, write_u8, write_u64};
use crate::item::{write_list, write_option};
use crate::item_values::{DigestField, EntryField, TextField, VersionField};
use crate::numbers::{SHA1_NUMBER, SHA256_NUMBER, SHA384_NUMBER, SHA512_NUMBER};
use crate::part_writers::{write_identity, write_rule, write_truth};
use digest_list::{Algorithm, Digest, DigestList};
use manifests::{Application, Deployment, FileEntry};

// The number of the algorithm.
fn number_of(algorithm: Algorithm) -> u8
    ensures number { result ≡ algorithm_number algorithm }
    ensures few { result < 4 }
{
    match algorithm {
        Algorithm::Sha1 => SHA1_NUMBER,
        Algorithm::Sha256 => SHA256_NUMBER,
        Algorithm::Sha384 => SHA384_NUMBER,
        Algorithm::Sha512 => SHA512_NUMBER,
    }
}

/// Writes the digest at the place, the number of its algorithm and its bytes, and answers the place
/// behind it.
#[tactic(auto, using(crate::proofs::Long::lengths), unfolding(crate::specs::Spelled::digest_field))]
pub fn write_digest(out: &mut [u8], place: usize, digest: &Digest) -> usize
    requires digest { IsSized digest.now }
    requires room { place + length (digest_field digest.now) ≤ length out.old }
    ensures { WritesField out.old place (digest_field digest.now) out.new result }
{
    let next = write_u8(out, place, number_of(digest.algorithm));
    write_bytes(out, next, digest.value.as_slice())
}

/// Writes the digests at the place, behind their number, and answers the place behind them.
pub fn write_digests(out: &mut [u8], place: usize, digests: &DigestList) -> usize
    requires digests { AreDigests digests.now }
    requires room { place + length (list_field digest_field digests.now) ≤ length out.old }
    ensures { WritesField out.old place (list_field digest_field digests.now) out.new result }
{
    write_list::<DigestField>(out, place, digests.as_slice())
}

/// Writes the file at the place, its name, its length, its digests, its group and whether it is a
/// data file, and answers the place behind it.
#[tactic(auto, using(crate::proofs::Long::lengths), unfolding(crate::specs::Spelled::entry_field))]
pub fn write_entry(out: &mut [u8], place: usize, entry: &FileEntry) -> usize
    requires entry { IsEncodableEntry entry.now }
    requires room { place + length (entry_field entry.now) ≤ length out.old }
    ensures { WritesField out.old place (entry_field entry.now) out.new result }
{
    let next = write_name(out, place, &entry.name);
    let next = write_u64(out, next, entry.size);
    let next = write_digests(out, next, &entry.list);
    let next = write_option::<TextField>(out, next, &entry.group);
    write_truth(out, next, entry.local)
}

// Writes what a deployment says of itself, and answers the place behind it.
#[tactic(auto, using(crate::proofs::Long::lengths), unfolding(crate::specs::Spelled::terms_field))]
fn write_terms(out: &mut [u8], place: usize, deployment: &Deployment) -> usize
    requires deployment { IsEncodableDeployment deployment.now }
    requires room { place + length (terms_field deployment.now) ≤ length out.old }
    ensures { WritesField out.old place (terms_field deployment.now) out.new result }
{
    let next = write_identity(out, place, &deployment.identity);
    let next = write_truth(out, next, deployment.install);
    let next = write_option::<VersionField>(out, next, &deployment.minimum);
    let next = write_truth(out, next, deployment.mapped);
    let next = write_rule(out, next, deployment.rule);
    write_option::<TextField>(out, next, &deployment.provider)
}

// Writes what a deployment says of its application manifest, and answers the place behind it.
#[tactic(auto, using(crate::proofs::Long::lengths), unfolding(crate::specs::Spelled::listed_field))]
fn write_listed(out: &mut [u8], place: usize, deployment: &Deployment) -> usize
    requires deployment { IsEncodableDeployment deployment.now }
    requires room { place + length (listed_field deployment.now) ≤ length out.old }
    ensures { WritesField out.old place (listed_field deployment.now) out.new result }
{
    let next = write_text(out, place, &deployment.codebase);
    let next = write_identity(out, next, &deployment.app);
    let next = write_u64(out, next, deployment.app_size);
    write_digests(out, next, &deployment.app_list)
}

/// Writes the deployment at the place, its fields in their order, and answers the place behind it.
#[tactic(auto, using(crate::proofs::Long::lengths), unfolding(crate::specs::Spelled::deployment_field))]
pub fn write_deployment(out: &mut [u8], place: usize, deployment: &Deployment) -> usize
    requires deployment { IsEncodableDeployment deployment.now }
    requires room { place + length (deployment_field deployment.now) ≤ length out.old }
    ensures { WritesField out.old place (deployment_field deployment.now) out.new result }
{
    let next = write_terms(out, place, deployment);
    write_listed(out, next, deployment)
}

/// Writes the application at the place, its fields in their order, and answers the place behind it.
#[tactic(auto, using(crate::proofs::Long::lengths), unfolding(crate::specs::Spelled::application_field))]
pub fn write_application(out: &mut [u8], place: usize, application: &Application) -> usize
    requires application { IsEncodableApplication application.now }
    requires room { place + length (application_field application.now) ≤ length out.old }
    ensures { WritesField out.old place (application_field application.now) out.new result }
{
    let next = write_identity(out, place, &application.identity);
    let next = write_text(out, next, &application.entry);
    let next = write_text(out, next, &application.parameters);
    write_list::<EntryField>(out, next, application.files.as_slice())
}
