// Tests of addresses: what texts are read as, and what is joined to them.
use addresses::{UrlFault, app_target, file_target, target_of};
use small_types::{Name, Target, Text};
use std::alloc::{AllocError, Global};
use std::test::Fail;

fn told_target(alloc: Global, target: &Target) -> Result<String, AllocError> {
    let host = target.host.as_str();
    let path = target.path.as_str();
    format!(in alloc; "{host} {} {path}", target.port)
}

// What a call answers, as a line.
fn told(alloc: Global, answer: Result<Target, UrlFault>) -> Result<String, Fail> {
    Ok(match answer {
        Ok(target) => told_target(alloc, &target)?,
        Err(UrlFault::NotHttp { scheme }) => { format!(in alloc; "not http {}", scheme.as_str())? }
        Err(UrlFault::BadUrl) => String::from_str(alloc, "bad")?,
        Err(UrlFault::Memory) => return Err("no memory".into()),
    })
}

fn read(alloc: Global, bytes: &[u8]) -> Result<String, Fail> {
    told(alloc, target_of(alloc, bytes))
}

const TEXTS: &[(&[u8], &str)] = &[
    (
        b"http://demo.test/one/demo.application",
        "demo.test 80 /one/demo.application",
    ),
    (b"HTTP://Demo.Test:8080/a?b#c", "demo.test 8080 /a?b"),
    (b"http://h", "h 80 /"),
    (b"http://h:80/", "h 80 /"),
    (b"http://h:0/", "h 0 /"),
    (b"http://h/?", "h 80 /?"),
    (b"http://@h/", "h 80 /"),
    (b"http://[::1]:81/a b", "[::1] 81 /a%20b"),
    (b" http:\\\\h\\a\n/../b ", "h 80 /b"),
    (b"https://h/", "not http https"),
    (b"ftp://h:21/a", "not http ftp"),
    (b"https://u@h/", "bad"),
    (b"http://:p@h/", "bad"),
    (b"file:///x", "bad"),
    (b"mailto:x", "bad"),
    (b"http://h:99999/", "bad"),
    (b"http://", "bad"),
    (b"/one", "bad"),
    (b"http://h/\xff", "bad"),
];

#[test]
fn texts_are_read_or_refused(rt: HostRuntime) -> Result<(), Fail> {
    for (text, wanted) in TEXTS {
        let line = read(rt.alloc(), text)?;
        assert!(rt; line.as_str() == *wanted, "{line} for {wanted}");
    }
    Ok(())
}

// A text that begins and ends with these, and has so many of a byte between them.
fn long(
    alloc: Global,
    first: &[u8],
    count: usize,
    byte: u8,
    last: &[u8],
) -> Result<Vec<u8>, AllocError> {
    let mut bytes = Vec::from_slice(alloc, first)?;
    bytes.extend_from_slice(&vec![in alloc; byte; count]?)?;
    bytes.extend_from_slice(last)?;
    Ok(bytes)
}

// Whether that text is an address.
fn is_read(
    alloc: Global,
    first: &[u8],
    count: usize,
    byte: u8,
    last: &[u8],
) -> Result<bool, AllocError> {
    Ok(target_of(alloc, &long(alloc, first, count, byte, last)?).is_ok())
}

// What stands before and behind so many times a byte, and whether that is an address.
const LONG: &[(&[u8], usize, u8, &[u8], bool)] = &[
    (b"http://h/", 2_039, b'a', b"", true),
    (b"http://h/", 2_040, b'a', b"", false),
    (b"  http://h/", 2_038, b'a', b"", false),
    (b"http://h/", 679, b' ', b"aa", true),
    (b"http://h/", 679, b' ', b"aaa", false),
    (b"http://h/#", 679, b' ', b"aa", false),
];

#[test]
fn the_limit_counts_both_texts(rt: HostRuntime) -> Result<(), Fail> {
    for (first, count, byte, last, wanted) in LONG {
        let read = is_read(rt.alloc(), first, *count, *byte, last)?;
        assert!(rt; read == *wanted, "{count}");
    }
    Ok(())
}

fn text(alloc: Global, from: &str) -> Result<Text, AllocError> {
    Ok(Text::from_string(String::from_str(alloc, from)?))
}

fn target(alloc: Global, host: &str, port: u16, path: &str) -> Result<Target, AllocError> {
    Ok(Target {
        host: text(alloc, host)?,
        port,
        path: text(alloc, path)?,
    })
}

// The name, which the rule for names lets through.
fn name(alloc: Global, from: &str) -> Result<Name, Fail> {
    Ok(Name::read(alloc, from.as_bytes())?)
}

// A base's host, port and path, a codebase, and what both are joined to.
type Codebase = (&'static str, u16, &'static str, &'static str, &'static str);

const BASE: &str = "/one/demo.application";

const CODEBASES: &[Codebase] = &[
    (
        "demo.test",
        80,
        BASE,
        "Application Files\\demo_1_0_0_0\\app.exe.manifest",
        "demo.test 80 /one/Application%20Files/demo_1_0_0_0/app.exe.manifest",
    ),
    ("demo.test", 80, BASE, "../two?q#f", "demo.test 80 /two?q"),
    (
        "demo.test",
        80,
        BASE,
        "",
        "demo.test 80 /one/demo.application",
    ),
    ("demo.test", 80, BASE, "//other:81", "other 81 /"),
    ("demo.test", 80, BASE, "https://x/", "not http https"),
    ("demo.test", 80, BASE, "https://u@x/", "bad"),
    ("demo.test", 80, BASE, "mailto:x", "bad"),
    ("demo.test", 80, BASE, "//h:99999/", "bad"),
    ("a b", 80, "/", "http://h/", "bad"),
    ("u@h", 80, "/", "x", "bad"),
    ("h", 0, "/?q", "x", "h 0 /x"),
];

fn joined(
    alloc: Global,
    host: &str,
    port: u16,
    path: &str,
    codebase: &str,
) -> Result<String, Fail> {
    let base = target(alloc, host, port, path)?;
    told(alloc, app_target(alloc, &base, &text(alloc, codebase)?))
}

#[test]
fn codebases_are_joined(rt: HostRuntime) -> Result<(), Fail> {
    for (host, port, path, codebase, wanted) in CODEBASES {
        let line = joined(rt.alloc(), host, *port, path, codebase)?;
        assert!(rt; line.as_str() == *wanted, "{line} for {wanted}");
    }
    Ok(())
}

// The host, port and path of a manifest, whether files are mapped, a file's name, and where that is.
type Place = (
    &'static str,
    u16,
    &'static str,
    bool,
    &'static str,
    &'static str,
);

const MANIFEST: &str = "/one/Application%20Files/demo_1_0_0_0/app.exe.manifest";

const PLACES: &[Place] = &[
    (
        "demo.test",
        80,
        MANIFEST,
        true,
        "app.exe",
        "demo.test 80 /one/Application%20Files/demo_1_0_0_0/app.exe.deploy",
    ),
    (
        "demo.test",
        80,
        MANIFEST,
        false,
        "app.exe",
        "demo.test 80 /one/Application%20Files/demo_1_0_0_0/app.exe",
    ),
    (
        "demo.test",
        80,
        MANIFEST,
        true,
        "en\\a b#c?%41.txt",
        "demo.test 80 /one/Application%20Files/demo_1_0_0_0/en/a%20b%23c%3F%2541.txt.deploy",
    ),
    ("a b", 80, "/", false, "x", "bad"),
    ("u@h", 0, "", false, "\u{e9}", "h 0 /%C3%A9"),
];

fn reached(
    alloc: Global,
    host: &str,
    port: u16,
    path: &str,
    mapped: bool,
    from: &str,
) -> Result<String, Fail> {
    let base = target(alloc, host, port, path)?;
    told(
        alloc,
        file_target(alloc, &base, mapped, &name(alloc, from)?),
    )
}

#[test]
fn names_are_joined(rt: HostRuntime) -> Result<(), Fail> {
    for (host, port, path, mapped, from, wanted) in PLACES {
        let line = reached(rt.alloc(), host, *port, path, *mapped, from)?;
        assert!(rt; line.as_str() == *wanted, "{line} for {wanted}");
    }
    Ok(())
}

// The path of a manifest in a directory whose name has that length, with a query.
fn deep_path(alloc: Global, length: usize) -> Result<Text, Fail> {
    let mut path = long(alloc, b"/", length, b'd', b"/app.manifest")?;
    path.extend_from_slice(b"?q")?;
    Ok(Text::from_string(String::from_utf8(path)?))
}

// Whether a file whose address has such a directory is reached.
fn is_reached(alloc: Global, length: usize) -> Result<bool, Fail> {
    let path = deep_path(alloc, length)?;
    let base = Target {
        host: text(alloc, "h")?,
        port: 80,
        path,
    };
    Ok(file_target(alloc, &base, true, &name(alloc, "x")?).is_ok())
}

#[test]
fn the_limit_counts_the_joined_url(rt: HostRuntime) -> Result<(), Fail> {
    assert!(rt; is_reached(rt.alloc(), 2_030)?);
    assert!(rt; !is_reached(rt.alloc(), 2_031)?);
    Ok(())
}
