// The lines for the bytes of a manifest.
ghost use Rattle.std.specs.Prelude.{◌≡◌, ◌≢◌, ◌↔◌, Err, IfOk, IsTrue};
ghost use Rattle.manifests.specs.Deployments.{deployment_of};
ghost use Rattle.manifests.specs.Applications.{application_of};
ghost use Rattle.manifest_text.specs.Lines.{deployment_text, application_text, refusal_text};
ghost use Rattle.inspection.specs.declared.manifest.InspectionEnd.TheVariants as ends;
ghost use Rattle.inspection.specs.Inspection.{SaysFor, Says};

use crate::manifest::{InspectionEnd, Kind};
use manifest_text::{write_application, write_deployment, write_refusal};
use manifests::{ManifestFault, read_application, read_deployment};
use small_types::{Bytes, PrintFault};
use std::alloc::Global;

// Whether the reader found no memory. Each other fault is a refusal.
fn is_want(fault: &ManifestFault) -> bool
    ensures { IsTrue result ↔ (fault.now ≡ ManifestFault.Memory) }
{
    matches!(fault, ManifestFault::Memory)
}

// The line of a refusal. Want of memory is none.
fn refused(alloc: Global, fault: &ManifestFault) -> Result<(Bytes, InspectionEnd), PrintFault>
    ensures refusal { IfOk result (λ x. (fault.now ≢ ManifestFault.Memory)
        × (x.0 ≡ refusal_text fault.now) × (x.1 ≡ ends.Refused)) }
    ensures want { fault.now ≡ ManifestFault.Memory → result ≡ Err PrintFault.Memory }
{
    if is_want(fault) {
        return Err(PrintFault::Memory);
    }
    let mut out = Bytes::from_vec(Vec::new(alloc));
    write_refusal(alloc, &mut out, fault)?;
    Ok((out, InspectionEnd::Refused))
}

fn deployment_lines(alloc: Global, bytes: &[u8]) -> Result<(Bytes, InspectionEnd), PrintFault>
    ensures { IfOk result (λ x. SaysFor deployment_of deployment_text bytes.now x.0 x.1) }
{
    match read_deployment(alloc, bytes) {
        Err(fault) => refused(alloc, &fault),
        Ok(deployment) => {
            let mut out = Bytes::from_vec(Vec::new(alloc));
            let written = write_deployment(alloc, &mut out, &deployment);
            drop(deployment);
            written?;
            Ok((out, InspectionEnd::Done))
        }
    }
}

fn application_lines(alloc: Global, bytes: &[u8]) -> Result<(Bytes, InspectionEnd), PrintFault>
    ensures { IfOk result (λ x. SaysFor application_of application_text bytes.now x.0 x.1) }
{
    match read_application(alloc, bytes) {
        Err(fault) => refused(alloc, &fault),
        Ok(application) => {
            let mut out = Bytes::from_vec(Vec::new(alloc));
            let written = write_application(alloc, &mut out, &application);
            drop(application);
            written?;
            Ok((out, InspectionEnd::Done))
        }
    }
}

// What is said of the bytes, and how that ends.
pub(crate) fn lines_of(
    alloc: Global,
    kind: Kind,
    bytes: &[u8],
) -> Result<(Bytes, InspectionEnd), PrintFault>
    ensures { IfOk result (λ x. Says kind bytes.now x.0 x.1) }
{
    match kind {
        Kind::Deployment => deployment_lines(alloc, bytes),
        Kind::Application => application_lines(alloc, bytes),
    }
}
