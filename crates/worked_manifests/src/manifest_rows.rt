// What whole manifests say.
use identity::Version;
use manifests::{
    Application, Deployment, FileEntry, ManifestFault, read_application, read_deployment,
};
use std::io::{self, ErrorKind};

// A file, behind a space.
fn print_file(rt: &HostRuntime, file: &FileEntry) -> io::Result<()> {
    let name = file.name.as_str();
    let size = file.size;
    let digests = file.list.as_slice().len();
    print!(rt; " {name} {size} {digests} ")?;
    match &file.group {
        Some(group) => rt.print(group.as_str())?,
        None => rt.print("-")?,
    }
    rt.print(if file.local { " data" } else { " program" })
}

// The facts, as a line.
fn print_application(rt: &HostRuntime, application: &Application) -> io::Result<()> {
    rt.print(application.identity.key.name.as_str())?;
    print_version(rt, &application.identity.version)?;
    let entry = application.entry.as_str();
    let parameters = application.parameters.as_str();
    print!(rt; " {entry} {parameters}")?;
    for file in application.files.as_slice() {
        print_file(rt, file)?;
    }
    rt.println("")
}

// A version, behind a space.
fn print_version(rt: &HostRuntime, version: &Version) -> io::Result<()> {
    let a = version.a;
    let b = version.b;
    let c = version.c;
    let d = version.d;
    print!(rt; " {a}.{b}.{c}.{d}")
}

// What a deployment says of itself, as the beginning of a line.
fn print_terms(rt: &HostRuntime, deployment: &Deployment) -> io::Result<()> {
    rt.print(deployment.identity.key.name.as_str())?;
    print_version(rt, &deployment.identity.version)?;
    match &deployment.minimum {
        Some(minimum) => print_version(rt, minimum)?,
        None => rt.print(" -")?,
    }
    let mapped = deployment.mapped;
    let rule = deployment.rule;
    print!(rt; " {mapped} {rule:?} ")?;
    match &deployment.provider {
        Some(provider) => rt.print(provider.as_str()),
        None => rt.print("-"),
    }
}

// The facts, as a line.
fn print_deployment(rt: &HostRuntime, deployment: &Deployment) -> io::Result<()> {
    print_terms(rt, deployment)?;
    let codebase = deployment.codebase.as_str();
    let app = deployment.app.key.name.as_str();
    let size = deployment.app_size;
    let digests = deployment.app_list.as_slice().len();
    println!(rt; " {codebase} {app} {size} {digests}")
}

// The refusal, as a line.
fn print_refusal(rt: &HostRuntime, fault: &ManifestFault) -> io::Result<()> {
    match fault {
        ManifestFault::Memory => Err(ErrorKind::OutOfMemory.into()),
        ManifestFault::Missing { what } => named(rt, "missing", what.as_str()),
        ManifestFault::Twice { what } => named(rt, "twice", what.as_str()),
        ManifestFault::BadValue { what } => named(rt, "bad", what.as_str()),
        ManifestFault::NoDigest { file } => named(rt, "no digest", file.as_str()),
        ManifestFault::BadName { file } => named(rt, "bad name", file.as_str()),
        ManifestFault::TwiceNamed { file } => named(rt, "twice named", file.as_str()),
        other => println!(rt; "{other:?}"),
    }
}

fn named(rt: &HostRuntime, kind: &str, what: &str) -> io::Result<()> {
    println!(rt; "{kind} {what}")
}

/// Prints what an application manifest says, or why it is none.
pub fn application(rt: &HostRuntime, text: &str) -> io::Result<()> {
    match read_application(rt.alloc(), text.as_bytes()) {
        Ok(application) => {
            let printed = print_application(rt, &application);
            drop(application);
            printed
        }
        Err(fault) => {
            let printed = print_refusal(rt, &fault);
            drop(fault);
            printed
        }
    }
}

/// Prints how many files it names, or why it is none.
pub fn count(rt: &HostRuntime, text: &str) -> io::Result<()> {
    match read_application(rt.alloc(), text.as_bytes()) {
        Ok(application) => {
            let count = application.files.as_slice().len();
            drop(application);
            println!(rt; "{count}")
        }
        Err(fault) => {
            let printed = print_refusal(rt, &fault);
            drop(fault);
            printed
        }
    }
}

/// Prints what a deployment manifest says, or why it is none.
pub fn deployment(rt: &HostRuntime, text: &str) -> io::Result<()> {
    match read_deployment(rt.alloc(), text.as_bytes()) {
        Ok(deployment) => {
            let printed = print_deployment(rt, &deployment);
            drop(deployment);
            printed
        }
        Err(fault) => {
            let printed = print_refusal(rt, &fault);
            drop(fault);
            printed
        }
    }
}
