//! Manifests that are read and written again. What it prints is compared with what it must print.
#![tactic(auto)]

use manifest_tree::WriteFault;
use manifest_writer::{write_application, write_deployment};
use manifests::{
    Application, Deployment, FileEntry, are_application_facts, are_deployment_facts, are_files,
    is_file, is_provider, is_value, read_application, read_deployment,
};
use small_types::{Bytes, Duplicate, Text};
use std::alloc::{AllocError, Global};
use std::io::{self, ErrorKind};

// A deployment manifest with these terms, in another form than it is written in.
fn source(alloc: Global, terms: &str) -> Result<String, AllocError> {
    format!(in alloc;
        r#"<assembly>
  <assemblyIdentity version='1.2.0.65535' name='demo.application' language='de'/>
  <dependency><dependentAssembly size='0003' codebase='demo.exe.manifest'>
    <assemblyIdentity name='demo&amp;.exe' version='1.0.0.0' type='win32'/>
    <hash><DigestMethod Algorithm='http://www.w3.org/2001/04/xmlenc#sha256'/>
      <DigestValue> ungWv48Bz+pBQUDeXa4iI7ADYaOWF3qctBD/YfIAFa0= </DigestValue></hash>
    <hash><DigestMethod Algorithm='http://www.w3.org/2000/09/xmldsig#sha1'/>
      <DigestValue>qZk+NkcGgWq6PiVxeFDCbJzQ2J0=</DigestValue></hash>
  </dependentAssembly></dependency>
  {terms}
</assembly>"#
    )
}

// The terms of some deployments.
const TERMS: [&str; 7] = [
    "<deployment/>",
    "<deployment mapFileExtensions='1' minimumRequiredVersion='1.2.0.5'><subscription><update><beforeApplicationStartup/></update></subscription><deploymentProvider codebase='http://demo.test/demo.application'/></deployment>",
    "<deployment><subscription><update/></subscription></deployment>",
    "<deployment><subscription><update><expiration maximumAge='168' unit='hours'/></update></subscription></deployment>",
    "<deployment><subscription><update><expiration maximumAge='14' unit='days'/></update></subscription></deployment>",
    "<deployment><subscription><update><expiration maximumAge='8' unit='days'/></update></subscription></deployment>",
    "<deployment><subscription><update><expiration maximumAge='5' unit='hours'/></update></subscription></deployment>",
];

fn text_of(alloc: Global, words: &str) -> io::Result<Text> {
    Ok(Text::from_string(String::from_str(alloc, words)?))
}

fn bad<T: Drop>() -> io::Result<T> {
    Err(ErrorKind::InvalidData.into())
}

fn deployment_of(alloc: Global, terms: &str) -> io::Result<Deployment> {
    let source = source(alloc, terms)?;
    match read_deployment(alloc, source.as_str().as_bytes()) {
        Ok(deployment) => Ok(deployment),
        Err(_) => bad(),
    }
}

// The text of the deployment with this publisher's name, or the length that is too long.
fn written(
    alloc: Global,
    deployment: &Deployment,
    publisher: &Text,
) -> io::Result<Result<Bytes, u64>> {
    let product = text_of(alloc, "demo")?;
    if !are_deployment_facts(alloc, deployment).unwrap_or(false)
        || !is_value(publisher, 0, usize::MAX)
        || !is_value(&product, 0, usize::MAX)
    {
        return bad();
    }
    match write_deployment(alloc, deployment, publisher, &product) {
        Ok(text) => Ok(Ok(text)),
        Err(WriteFault::TooLong { length }) => Ok(Err(length)),
        Err(WriteFault::Memory) => Err(ErrorKind::OutOfMemory.into()),
    }
}

fn print(rt: &HostRuntime, text: &[u8]) -> io::Result<()> {
    match std::str::from_utf8(text) {
        Ok(text) => rt.print(text),
        Err(_) => rt.println("no text"),
    }
}

// Whether the deployment is what the text says.
fn reads_as(alloc: Global, text: &[u8], deployment: &Deployment) -> bool {
    let Ok(again) = read_deployment(alloc, text) else {
        return false;
    };
    again == *deployment
}

// The deployment's text, where it says it.
fn print_deployment(rt: &HostRuntime, deployment: &Deployment, publisher: &Text) -> io::Result<()> {
    let alloc = rt.alloc();
    let Ok(text) = written(alloc, deployment, publisher)? else {
        return bad();
    };
    if reads_as(alloc, text.as_slice(), deployment) {
        print(rt, text.as_slice())?;
    }
    Ok(())
}

// Each deployment, where its text says it. A deployment is large, and is dropped in one place.
fn deployments(rt: &HostRuntime) -> io::Result<()> {
    let publisher = text_of(rt.alloc(), "A \"&\" <B>")?;
    for terms in TERMS {
        let deployment = deployment_of(rt.alloc(), terms)?;
        let done = print_deployment(rt, &deployment, &publisher);
        drop(deployment);
        done?;
    }
    Ok(())
}

// The length of the deployment's text where a publisher's name is so long.
fn print_length(rt: &HostRuntime, deployment: &Deployment, count: usize) -> io::Result<()> {
    let publisher = Text::from_string("x".repeat(rt.alloc(), count)?);
    match written(rt.alloc(), deployment, &publisher)? {
        Ok(text) => {
            let length = text.as_slice().len();
            println!(rt; "{length}")
        }
        Err(length) => println!(rt; "too long {length}"),
    }
}

fn print_lengths(rt: &HostRuntime, deployment: &Deployment) -> io::Result<()> {
    for count in [MOST, MOST + 1] {
        print_length(rt, deployment, count)?;
    }
    Ok(())
}

// A text of the most bytes, and one of one more.
fn lengths(rt: &HostRuntime) -> io::Result<()> {
    let deployment = deployment_of(rt.alloc(), "<deployment/>")?;
    let done = print_lengths(rt, &deployment);
    drop(deployment);
    done
}

// How long a publisher's name is that makes a text of 4,194,304 bytes.
const MOST: usize = 4_192_940;

// An application manifest, in another form than it is written in.
const APPLICATION: &str =
    r#"<assembly><assemblyIdentity name="demo.exe" version="1.0.0.0" type="win32"/>
  <entryPoint><commandLine file="bin/demo.exe"/></entryPoint>
  <file name="bin/demo.exe" size="3"><hash><DigestMethod Algorithm="http://www.w3.org/2000/09/xmldsig#sha256"/><DigestValue>ungWv48Bz+pBQUDeXa4iI7ADYaOWF3qctBD/YfIAFa0=</DigestValue></hash></file>
  <file name="a/b\c.txt" size="268435456" optional="1" group="x/y"><hash><DigestMethod Algorithm="http://www.w3.org/2000/09/xmldsig#sha256"/><DigestValue>ungWv48Bz+pBQUDeXa4iI7ADYaOWF3qctBD/YfIAFa0=</DigestValue></hash></file>
  <file name="local.db" size="0" writeableType="applicationData"><hash><DigestMethod Algorithm="http://www.w3.org/2000/09/xmldsig#sha1"/><DigestValue>qZk+NkcGgWq6PiVxeFDCbJzQ2J0=</DigestValue></hash></file>
</assembly>"#;

// Whether the application is what the text says.
fn is_application(alloc: Global, text: &[u8], application: &Application) -> bool {
    let Ok(again) = read_application(alloc, text) else {
        return false;
    };
    again == *application
}

// The application's text, which says it.
fn print_application(rt: &HostRuntime, application: &Application) -> io::Result<()> {
    let alloc = rt.alloc();
    if !are_application_facts(alloc, application).unwrap_or(false) {
        return bad();
    }
    let Ok(text) = write_application(alloc, application) else {
        return bad();
    };
    if !is_application(alloc, text.as_slice(), application) {
        return bad();
    }
    print(rt, text.as_slice())
}

// The application, whose text says it.
fn application(rt: &HostRuntime) -> io::Result<()> {
    let Ok(application) = read_application(rt.alloc(), APPLICATION.as_bytes()) else {
        return bad();
    };
    let done = print_application(rt, &application);
    drop(application);
    done
}

// Values and addresses that a manifest can say, and others.
fn values(rt: &HostRuntime) -> io::Result<()> {
    let alloc = rt.alloc();
    let text = text_of(alloc, "A \"&\" <B>\n")?;
    let bell = text_of(alloc, "\u{7}")?;
    println!(rt;
        "{} {} {}",
        is_value(&text, 0, 10),
        is_value(&text, 0, 9),
        is_value(&bell, 0, 10)
    )?;
    for address in ["http://example.com/demo.application", "demo.application"] {
        let provider = Some(text_of(alloc, address)?);
        println!(rt; "{}", is_provider(alloc, &provider).unwrap_or(false))?;
    }
    Ok(())
}

fn copied(alloc: Global, file: &FileEntry) -> io::Result<FileEntry> {
    match file.copy(alloc) {
        Ok(file) => Ok(file),
        Err(_) => Err(ErrorKind::OutOfMemory.into()),
    }
}

// Whether a manifest can say the file with this kind and size.
fn can_say(alloc: Global, first: &FileEntry, local: bool, size: u64) -> io::Result<bool> {
    let mut file = copied(alloc, first)?;
    file.local = local;
    file.size = size;
    Ok(is_file(&file))
}

// Whether a manifest can say so many times the file.
fn can_say_all(alloc: Global, first: &FileEntry, count: u32) -> io::Result<bool> {
    let mut files = Vec::new(alloc);
    for _ in 0..count {
        files.push(copied(alloc, first)?)?;
    }
    Ok(are_files(alloc, &files).unwrap_or(false))
}

fn print_files(rt: &HostRuntime, application: &Application) -> io::Result<()> {
    let Some(first) = application.files.as_slice().first() else {
        return bad();
    };
    for (local, size) in [
        (false, 268_435_456),
        (false, 268_435_457),
        (true, 1_048_576),
        (true, 1_048_577),
    ] {
        let can = can_say(rt.alloc(), first, local, size)?;
        println!(rt; "{can}")?;
    }
    for count in 1..3 {
        let can = can_say_all(rt.alloc(), first, count)?;
        println!(rt; "{can}")?;
    }
    Ok(())
}

// Files that a manifest can say, and others.
fn files(rt: &HostRuntime) -> io::Result<()> {
    let Ok(application) = read_application(rt.alloc(), APPLICATION.as_bytes()) else {
        return bad();
    };
    let done = print_files(rt, &application);
    drop(application);
    done
}

fn main(rt: HostRuntime) -> io::Result<()> {
    deployments(&rt)?;
    lengths(&rt)?;
    application(&rt)?;
    values(&rt)?;
    files(&rt)
}
