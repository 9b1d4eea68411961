//! What the addresses of a publisher's names are read as.
#![tactic(auto)]

use addresses::{UrlFault, app_target, file_target, target_of};
use http_plain::name_in_path;
use small_types::{Name, Target, Text};
use std::alloc::Global;
use std::io;

fn show(rt: &HostRuntime, what: &str, got: &Result<Target, UrlFault>) -> io::Result<()> {
    match got {
        Ok(target) => {
            let path = target.path.as_str();
            println!(rt; "  {what} {path}")?;
            match name_in_path(rt.alloc(), target.path.as_bytes())? {
                Some(name) => {
                    let name = name.as_str();
                    println!(rt; "       = [{name}]")?;
                }
                None => {
                    rt.println("       = no name")?;
                }
            }
        }
        Err(UrlFault::BadUrl) => {
            println!(rt; "  {what} bad url")?;
        }
        Err(_) => {
            println!(rt; "  {what} other")?;
        }
    }
    Ok(())
}

// The address of a file beside the application manifest at the base.
fn from_base(rt: &HostRuntime, base: &Target, file: &str, mapped: bool) -> io::Result<()> {
    match Name::read(rt.alloc(), file.as_bytes()) {
        Ok(name) => {
            let found = file_target(rt.alloc(), base, mapped, &name);
            show(rt, "file ", &found)
        }
        Err(_) => rt.println("  file is no name"),
    }
}

// The address of the application manifest, and of the file beside it.
fn from_given(
    rt: &HostRuntime,
    given: &Target,
    codebase: &str,
    file: &str,
    mapped: bool,
) -> io::Result<()> {
    let codebase = Text::from_string(String::from_str(rt.alloc(), codebase)?);
    let base = app_target(rt.alloc(), given, &codebase);
    show(rt, "base ", &base)?;
    match &base {
        Ok(base) => from_base(rt, base, file, mapped),
        Err(_) => Ok(()),
    }
}

fn probe(
    rt: &HostRuntime,
    address: &str,
    codebase: &str,
    file: &str,
    mapped: bool,
) -> io::Result<()> {
    println!(rt; "{address} | {codebase} | {file}")?;
    let given = target_of(rt.alloc(), address.as_bytes());
    show(rt, "given", &given)?;
    match &given {
        Ok(given) => from_given(rt, given, codebase, file, mapped),
        Err(_) => Ok(()),
    }
}

const PLAIN: &str = "Application Files\\demo_1_0_0_0\\app.exe.manifest";

fn main(rt: HostRuntime) -> io::Result<()> {
    let rt = &rt;
    probe(rt, "http://h/one/demo.application", PLAIN, "app.exe", true)?;
    probe(
        rt,
        "http://h/one%2Fdemo.application",
        PLAIN,
        "app.exe",
        true,
    )?;
    probe(
        rt,
        "http://h/one%5Cdemo.application",
        PLAIN,
        "app.exe",
        true,
    )?;
    probe(
        rt,
        "http://h/a%2Fone/demo.application",
        PLAIN,
        "app.exe",
        true,
    )?;
    probe(
        rt,
        "http://h/a%5Cone/demo.application",
        PLAIN,
        "app.exe",
        true,
    )?;
    probe(
        rt,
        "http://h/a\\one\\demo.application",
        PLAIN,
        "app.exe",
        true,
    )?;
    probe(
        rt,
        "http://h/one/%64emo%2eapplication?q=/x/#f",
        PLAIN,
        "a?b#c%2e/%2e%2e/..x/ y ",
        true,
    )?;
    probe(
        rt,
        "http://h/%2e%2e/one/demo.application",
        PLAIN,
        "%2F%5c;^|~+&=,'\"<>{}`",
        false,
    )?;
    probe(
        rt,
        "http://h/%252e%252e/x%zz%/demo.application",
        PLAIN,
        "C|/d%",
        false,
    )?;
    probe(
        rt,
        "http://h/a%252Fb/%C3%A9;^|/demo.application",
        PLAIN,
        "\u{e9}\u{1F600}/ ",
        true,
    )?;
    probe(rt, "http://h/..%2Fone/demo.application", PLAIN, "x", true)?;
    probe(rt, "http://h//one/demo.application", PLAIN, "x", true)?;
    probe(rt, "http://h/one/demo.application/", PLAIN, "x", true)?;
    probe(
        rt,
        "http://h/one/%20.application",
        "Application Files\\ _1_0_0_0\\ .manifest",
        " ",
        true,
    )?;
    probe(
        rt,
        "http://h/one/..application",
        "Application Files\\._1_0_0_0\\..manifest",
        "...",
        false,
    )?;
    probe(
        rt,
        "http://h/one/...application",
        "Application Files\\.._1_0_0_0\\...manifest",
        ". /.. ",
        false,
    )?;
    probe(rt, "http://h/one/demo.application%0a", PLAIN, "x", true)?;
    probe(
        rt,
        "http://[::1]:81/one/demo.application?",
        PLAIN,
        "x//y",
        true,
    )?;
    probe(rt, "http://h/one/%ff/demo.application", PLAIN, "x", true)
}
