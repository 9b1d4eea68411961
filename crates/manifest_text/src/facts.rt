// What a manifest says.
ghost use Rattle.std.specs.Prelude.{◌≡◌, ◌++◌, IfOk, OnOk};
ghost use Rattle.std.specs.List.{flat_map};
ghost use Rattle.std.specs.Prelude.{codes, decimal};
ghost use Rattle.identity.specs.Key.{word_text};
ghost use Rattle.identity.specs.Version.{version_text};
ghost use Rattle.manifest_parts.specs.Outcome.{maybe_text};
ghost use Rattle.manifest_text.specs.Lines as spec;

use crate::lines::{
    begin, digest_lines, end, identity_line, line, number_line, push_escaped, push_number,
    push_version, text_line,
};
use identity::Version;
use manifests::{Application, Deployment, FileEntry, Rule};
use small_types::{Bytes, PrintFault, Text};
use std::alloc::Global;

fn truth(value: bool) -> &'static [u8]
    ensures { result.now ≡ spec.truth_text value }
{
    if value { b"true" } else { b"false" }
}

fn minimum_line(out: &mut Bytes, minimum: Option<Version>) -> Result<(), PrintFault>
    ensures { OnOk result
        (out.new ≡ out.old ++ spec.line (codes "minimum") (spec.version_or_none minimum)) }
{
    let Some(version) = minimum else {
        return line(out, b"minimum", b"-");
    };
    begin(out, b"minimum")?;
    push_version(out, version)?;
    end(out)
}

fn rule_line(out: &mut Bytes, rule: Rule) -> Result<(), PrintFault>
    ensures { OnOk result (out.new ≡ out.old ++ spec.line (codes "rule") (spec.rule_text rule)) }
{
    match rule {
        Rule::Never => line(out, b"rule", b"never"),
        Rule::Before => line(out, b"rule", b"before"),
        Rule::Age { seconds } => {
            begin(out, b"rule age")?;
            push_number(out, seconds)?;
            end(out)
        }
    }
}

fn provider_line(alloc: Global, out: &mut Bytes, provider: Option<&Text>) -> Result<(), PrintFault>
    ensures { OnOk result (out.new
        ≡ out.old ++ spec.line (codes "provider") (spec.word_or_none (maybe_text provider.entry))) }
{
    match provider {
        None => line(out, b"provider", b"-"),
        Some(text) => text_line(alloc, out, b"provider", text.as_bytes()),
    }
}

/// Adds the lines of a deployment manifest. It fails only for want of memory.
pub fn write_deployment(
    alloc: Global,
    out: &mut Bytes,
    deployment: &Deployment,
) -> Result<(), PrintFault>
    ensures { OnOk result (out.new ≡ out.old ++ spec.deployment_text deployment.now) }
{
    identity_line(alloc, out, b"deployment", &deployment.identity)?;
    minimum_line(out, deployment.minimum)?;
    line(out, b"install", truth(deployment.install))?;
    line(out, b"map", truth(deployment.mapped))?;
    rule_line(out, deployment.rule)?;
    provider_line(alloc, out, deployment.provider.as_ref())?;
    text_line(alloc, out, b"codebase", deployment.codebase.as_bytes())?;
    identity_line(alloc, out, b"application", &deployment.app)?;
    number_line(out, b"size", deployment.app_size)?;
    digest_lines(alloc, out, deployment.app_list.as_slice())?;
    Ok(())
}

// Adds when a file is fetched.
fn push_use(alloc: Global, out: &mut Bytes, entry: &FileEntry) -> Result<(), PrintFault>
    ensures { OnOk result (out.new ≡ out.old ++ spec.use_of entry.now) }
{
    if entry.local {
        out.extend(b"local")?;
        return Ok(());
    }
    let Some(group) = &entry.group else {
        out.extend(b"required")?;
        return Ok(());
    };
    out.extend(b"group:")?;
    push_escaped(alloc, out, group.as_bytes())
}

// Adds the line of a file.
fn file_line(alloc: Global, out: &mut Bytes, entry: &FileEntry) -> Result<(), PrintFault>
    ensures { OnOk result (out.new ≡ out.old ++ spec.file_line entry.now) }
{
    begin(out, b"file")?;
    push_escaped(alloc, out, entry.name.as_bytes())?;
    out.push(b' ')?;
    push_number(out, entry.size)?;
    out.push(b' ')?;
    push_use(alloc, out, entry)?;
    end(out)
}

// Adds the lines of a file.
fn file_lines(alloc: Global, out: &mut Bytes, entry: &FileEntry) -> Result<(), PrintFault>
    ensures { OnOk result (out.new ≡ out.old ++ spec.file_lines entry.now) }
{
    file_line(alloc, out, entry)?;
    digest_lines(alloc, out, entry.list.as_slice())
}

// Adds the lines of files.
fn all_files(alloc: Global, out: &mut Bytes, files: &[FileEntry]) -> Result<(), PrintFault>
    ensures { OnOk result (out.new ≡ out.old ++ flat_map spec.file_lines files.now) }
{
    for entry in files {
        file_lines(alloc, out, entry)?;
    }
    Ok(())
}

/// Adds the lines of an application manifest. It fails only for want of memory.
pub fn write_application(
    alloc: Global,
    out: &mut Bytes,
    application: &Application,
) -> Result<(), PrintFault>
    ensures { OnOk result (out.new ≡ out.old ++ spec.application_text application.now) }
{
    identity_line(alloc, out, b"application", &application.identity)?;
    text_line(alloc, out, b"entry", application.entry.as_bytes())?;
    text_line(alloc, out, b"parameters", application.parameters.as_bytes())?;
    all_files(alloc, out, application.files.as_slice())?;
    Ok(())
}
