//! Replies as they are printed, and what lines are read as: addresses, long lines, and the lines of the input.
//! What it prints is compared with what it must print.
#![tactic(auto)]

use causes::Cause;
use command_text::{keep, print_reply, read_line, strip_carriage_return};
use digest_list::{Algorithm, Difference};
use identity::{Key, Version};
use machine::{Command, LineFault, ListRow, Reply, ShowRow};
use manifest_parts::ManifestFault;
use manifest_tree::{TreeFault, TreeKind};
use manifests::ReleaseFault;
use outside::MemSink;
use small_types::{Bytes, Limit, List, Name, Target, Text};
use std::alloc::{AllocError, Global};
use std::io::{self, ErrorKind};

// Prints a reply.
fn print(rt: &HostRuntime, reply: &Reply) -> io::Result<()> {
    let alloc = rt.alloc();
    let none = List::from_vec(Vec::new(alloc));
    let mut sink = MemSink::new(alloc, Bytes::from_vec(Vec::new(alloc)), none);
    if print_reply(reply, &mut sink).is_err() {
        return Err(ErrorKind::InvalidData.into());
    }
    match std::str::from_utf8(sink.taken()) {
        Ok(line) => rt.print(line),
        Err(_) => Err(ErrorKind::InvalidData.into()),
    }
}

// Prints what a reply says.
fn say(rt: &HostRuntime, reply: Reply) -> io::Result<()> {
    let printed = print(rt, &reply);
    drop(reply);
    printed
}

fn version(a: u16, b: u16, c: u16, d: u16) -> Version {
    Version { a, b, c, d }
}

// Numbers, versions and words.
fn plain(rt: &HostRuntime) -> io::Result<()> {
    say(rt, Reply::At { now: 0 })?;
    let now = 4_611_686_018_427_387_904;
    say(rt, Reply::At { now })?;
    let version = version(1, 2, 0, 65_535);
    say(rt, Reply::Minimum { version })?;
    say(rt, Reply::NotNewer { have: version })?;
    say(rt, Reply::BelowMinimum { minimum: version })?;
    say(rt, Reply::Spent { next: now })?;
    say(rt, Reply::Full { need: 11, free: 10 })?;
    say(
        rt,
        Reply::TableFull {
            weight: 1_002_845,
            room: 983_040,
        },
    )?;
    say(rt, Reply::BadUrl)?;
    say(rt, Reply::NotHttp)?;
    say(rt, Reply::Memory)
}

// Leases, and why there is none.
fn leases(rt: &HostRuntime) -> io::Result<()> {
    let version = version(1, 0, 0, 0);
    for check_due in [false, true] {
        let lease = 1;
        say(
            rt,
            Reply::Lease {
                lease,
                version,
                check_due,
            },
        )?;
    }
    let lease = 4_611_686_018_427_387_903;
    say(rt, Reply::Finished { lease })?;
    say(rt, Reply::NotInstalled)?;
    say(rt, Reply::NoLease)?;
    say(rt, Reply::NoFile)?;
    say(rt, Reply::CheckFirst)?;
    say(rt, Reply::Required { minimum: version })?;
    say(rt, Reply::Offered { version })?;
    say(rt, Reply::LeasesFull)
}

// Checks, skips and groups, and why there is none.
fn checks(rt: &HostRuntime) -> io::Result<()> {
    let least = version(1, 0, 0, 0);
    let next = version(1, 2, 0, 65_535);
    for offer in [None, Some(next)] {
        for minimum in [None, Some(least)] {
            say(rt, Reply::Checked { offer, minimum })?;
        }
    }
    say(rt, Reply::Skipped { version: next })?;
    say(rt, Reply::NothingOffered)?;
    let found = odd_key(rt.alloc())?;
    say(rt, Reply::IdentityDiffers { found })?;
    say(rt, Reply::Group { files: 0 })?;
    say(rt, Reply::Group { files: 16_384 })?;
    say(rt, Reply::NoGroup)
}

// Data files, and why there is none.
fn locals(rt: &HostRuntime) -> io::Result<()> {
    say(rt, Reply::Put)?;
    say(rt, Reply::Removed)?;
    say(rt, Reply::BadName)
}

// Views that are current again, and views that are gone.
fn views(rt: &HostRuntime) -> io::Result<()> {
    let version = version(1, 0, 0, 0);
    say(rt, Reply::Current { version })?;
    say(rt, Reply::NoPrevious)?;
    say(rt, Reply::Cleaned { views: 0 })?;
    say(rt, Reply::Cleaned { views: 1_024 })
}

// So many bytes, of all values.
fn bytes_of(alloc: Global, count: usize) -> Result<Bytes, AllocError> {
    let mut bytes = Bytes::from_vec(Vec::new(alloc));
    for i in 0..count {
        bytes.push((i % 256) as u8)?;
    }
    Ok(bytes)
}

// Bytes of files: none, few, and about as many as are written at a time.
fn reads(rt: &HostRuntime) -> io::Result<()> {
    let alloc = rt.alloc();
    let bytes = Bytes::from_slice(alloc, b"abc")?;
    say(rt, Reply::Read { length: 3, bytes })?;
    for count in [0, 1, 256, 2_047, 2_048, 2_049, 4_097] {
        let bytes = bytes_of(alloc, count)?;
        let length = 4_611_686_018_427_387_904;
        say(rt, Reply::Read { length, bytes })?;
    }
    Ok(())
}

// What there may be too many of.
fn counts(rt: &HostRuntime) -> io::Result<()> {
    let cases: [(Limit, u64); 5] = [
        (Limit::Applications, 256),
        (Limit::Views, 1_024),
        (Limit::Files, 16_384),
        (Limit::Locals, 0),
        (Limit::Locals, 18_446_744_073_709_551_615),
    ];
    for (what, limit) in cases {
        say(rt, Reply::TooMany { what, limit })?;
    }
    Ok(())
}

// Lines that are no command.
fn faults(rt: &HostRuntime) -> io::Result<()> {
    let cases: [LineFault; 6] = [
        LineFault::LineTooLong,
        LineFault::NoSuchCommand,
        LineFault::WordCount,
        LineFault::BadWord { place: 1 },
        LineFault::BadWord { place: 255 },
        LineFault::Memory,
    ];
    for fault in cases {
        say(rt, Reply::Line { fault })?;
    }
    Ok(())
}

fn text(alloc: Global, words: &str) -> Result<Text, AllocError> {
    Ok(Text::from_string(String::from_str(alloc, words)?))
}

fn plain_key(alloc: Global) -> Result<Key, AllocError> {
    Ok(Key {
        name: text(alloc, "demo.application")?,
        token: text(alloc, "0000000000000000")?,
        language: text(alloc, "neutral")?,
        architecture: text(alloc, "msil")?,
    })
}

fn odd_key(alloc: Global) -> Result<Key, AllocError> {
    Ok(Key {
        name: text(alloc, "org.example/app")?,
        token: text(alloc, "a,b")?,
        language: text(alloc, "h\u{e9}~_-")?,
        architecture: text(alloc, "x86 64%")?,
    })
}

// Keys, in which bytes are escaped.
fn keys(rt: &HostRuntime) -> io::Result<()> {
    let alloc = rt.alloc();
    let reply = Reply::Installed {
        key: plain_key(alloc)?,
        version: version(1, 0, 0, 0),
        view: 1,
    };
    say(rt, reply)?;
    let reply = Reply::Installed {
        key: odd_key(alloc)?,
        version: version(65_535, 65_535, 65_535, 65_535),
        view: 4_611_686_018_427_387_904,
    };
    say(rt, reply)
}

// Manifests that are not those of one release.
fn releases(rt: &HostRuntime) -> io::Result<()> {
    let alloc = rt.alloc();
    let fault = ReleaseFault::IdentityDiffers {
        listed: plain_key(alloc)?,
        found: odd_key(alloc)?,
    };
    say(rt, Reply::Release { fault })?;
    let fault = ReleaseFault::VersionDiffers {
        listed: version(1, 0, 0, 0),
        found: version(2, 0, 0, 0),
    };
    say(rt, Reply::Release { fault })
}

fn target(alloc: Global, path: &str) -> Result<Target, AllocError> {
    Ok(Target {
        host: text(alloc, "demo.test")?,
        port: 80,
        path: text(alloc, path)?,
    })
}

// All applications: none, and two.
fn lists(rt: &HostRuntime) -> io::Result<()> {
    let alloc = rt.alloc();
    let rows = List::from_vec(Vec::new(alloc));
    say(rt, Reply::Listed { rows })?;
    let mut rows = Vec::new(alloc);
    rows.push(ListRow {
        key: plain_key(alloc)?,
        current: Some(version(1, 0, 0, 0)),
    })?;
    rows.push(ListRow {
        key: odd_key(alloc)?,
        current: None,
    })?;
    let rows = List::from_vec(rows);
    say(rt, Reply::Listed { rows })
}

// An application of which nothing is known but a minimum.
fn required(alloc: Global) -> Result<ShowRow, AllocError> {
    Ok(ShowRow {
        key: plain_key(alloc)?,
        current: None,
        previous: None,
        minimum: Some(version(1, 0, 0, 0)),
        offer: None,
        skipped: None,
        excluded: None,
        last_check: None,
        checked: false,
        entry: None,
        provider: None,
    })
}

// One that was installed.
fn installed(alloc: Global) -> Result<ShowRow, AllocError> {
    Ok(ShowRow {
        key: plain_key(alloc)?,
        current: Some(version(1, 0, 0, 0)),
        previous: None,
        minimum: None,
        offer: None,
        skipped: None,
        excluded: None,
        last_check: Some(0),
        checked: true,
        entry: Some(text(alloc, "app.exe")?),
        provider: Some(target(alloc, "/one/demo.application")?),
    })
}

// One of which everything is known.
fn known(alloc: Global) -> Result<ShowRow, AllocError> {
    Ok(ShowRow {
        key: odd_key(alloc)?,
        current: Some(version(1, 0, 0, 1)),
        previous: Some(version(1, 0, 0, 2)),
        minimum: Some(version(1, 0, 0, 3)),
        offer: Some(version(1, 0, 0, 4)),
        skipped: Some(version(1, 0, 0, 5)),
        excluded: Some(version(1, 0, 0, 6)),
        last_check: Some(4_611_686_018_427_387_904),
        checked: true,
        entry: Some(text(alloc, "lib/a b\u{e9}.exe")?),
        provider: Some(target(alloc, "/one/Application%20Files/a?b,c")?),
    })
}

// What is known of applications.
fn shows(rt: &HostRuntime) -> io::Result<()> {
    let row = required(rt.alloc())?;
    say(rt, Reply::Shown { row })?;
    let row = installed(rt.alloc())?;
    say(rt, Reply::Shown { row })?;
    let row = known(rt.alloc())?;
    say(rt, Reply::Shown { row })
}

// A file with another digest.
fn different(alloc: Global, algorithm: Algorithm) -> Result<Cause, AllocError> {
    Ok(Cause::Differs(Difference::Digest {
        algorithm,
        listed: Bytes::from_slice(alloc, &[0x00, 0x9a, 0xbc])?,
        found: Bytes::from_slice(alloc, &[0xde, 0xf5, 0x10])?,
    }))
}

// All causes there are.
fn all_causes(alloc: Global) -> Result<List<Cause>, AllocError> {
    let size = Difference::Size {
        listed: 3,
        found: 4,
    };
    let long = Cause::TooLong {
        length: 4_194_305,
        limit: 4_194_304,
    };
    let mut causes = Vec::new(alloc);
    causes.push(Cause::Missing)?;
    causes.push(long)?;
    causes.push(Cause::Differs(size))?;
    causes.push(different(alloc, Algorithm::Sha1)?)?;
    causes.push(different(alloc, Algorithm::Sha256)?)?;
    causes.push(different(alloc, Algorithm::Sha384)?)?;
    causes.push(different(alloc, Algorithm::Sha512)?)?;
    causes.push(Cause::Down)?;
    Ok(List::from_vec(causes))
}

fn one_cause(alloc: Global, cause: Cause) -> Result<List<Cause>, AllocError> {
    let mut causes = Vec::new(alloc);
    causes.push(cause)?;
    Ok(List::from_vec(causes))
}

// What no link gave, and why.
fn links(rt: &HostRuntime) -> io::Result<()> {
    let alloc = rt.alloc();
    let reply = Reply::AllLinks {
        target: target(alloc, "/one/demo.application")?,
        causes: one_cause(alloc, Cause::Down)?,
    };
    say(rt, reply)?;
    let reply = Reply::AllLinks {
        target: target(alloc, "/one/Application%20Files/a?b,c")?,
        causes: all_causes(alloc)?,
    };
    say(rt, reply)
}

// Texts that spell no tree.
fn trees(rt: &HostRuntime) -> io::Result<()> {
    let cases: [(TreeKind, u64); 7] = [
        (TreeKind::NotUtf8, 0),
        (TreeKind::Syntax, 5),
        (TreeKind::Entity, 3),
        (TreeKind::TagMismatch, 4),
        (TreeKind::AttributeTwice, 9),
        (TreeKind::TooDeep, 192),
        (TreeKind::TooLong, 4_194_304),
    ];
    for (kind, place) in cases {
        let fault = ManifestFault::Tree(TreeFault { kind, place });
        say(rt, Reply::Manifest { fault })?;
    }
    Ok(())
}

fn refuse(rt: &HostRuntime, fault: ManifestFault) -> io::Result<()> {
    say(rt, Reply::Manifest { fault })
}

// Manifests that are refused for a name.
fn names(rt: &HostRuntime) -> io::Result<()> {
    let alloc = rt.alloc();
    let what = text(alloc, "assembly")?;
    refuse(rt, ManifestFault::Missing { what })?;
    let what = text(alloc, "assemblyIdentity")?;
    refuse(rt, ManifestFault::Twice { what })?;
    let what = text(alloc, "size")?;
    refuse(rt, ManifestFault::BadValue { what })?;
    let file = text(alloc, "lib/a b.dll")?;
    refuse(rt, ManifestFault::NoDigest { file })?;
    let file = text(alloc, "c:\\d")?;
    refuse(rt, ManifestFault::BadName { file })?;
    let file = text(alloc, "h\u{e9}")?;
    refuse(rt, ManifestFault::TwiceNamed { file })
}

// Other manifests that are refused.
fn manifests(rt: &HostRuntime) -> io::Result<()> {
    refuse(rt, ManifestFault::Signed)?;
    let fault = ManifestFault::MinimumAboveVersion {
        minimum: version(2, 0, 0, 0),
        version: version(1, 0, 0, 0),
    };
    refuse(rt, fault)?;
    refuse(rt, ManifestFault::OnlineOnly)?;
    for what in [Limit::Files, Limit::Locals, Limit::Hashes] {
        refuse(rt, ManifestFault::TooMany { what })?;
    }
    Ok(())
}

// The bytes that a data file gets, or how many they are.
fn tell_put(rt: &HostRuntime, lease: u64, name: &Name, bytes: &[u8]) -> io::Result<()> {
    let name = name.as_str();
    let length = bytes.len();
    if length > 9 {
        return println!(rt; "{length} bytes in <{name}> on {lease}");
    }
    println!(rt; "{bytes:?} in <{name}> on {lease}")
}

// What a command asks for.
fn tell_command(rt: &HostRuntime, command: Command) -> io::Result<()> {
    match command {
        Command::At { now } => println!(rt; "the moment {now}"),
        Command::Require { key, version } => {
            let (name, language) = (key.name.as_str(), key.language.as_str());
            let Version { a, b, c, d } = version;
            println!(rt; "at least {a}.{b}.{c}.{d} of {name} in {language}")
        }
        Command::Install { url } => {
            let length = url.as_slice().len();
            println!(rt; "an address of {length}")
        }
        Command::Check { key } => {
            let (name, language) = (key.name.as_str(), key.language.as_str());
            println!(rt; "a check of {name} in {language}")
        }
        Command::Skip { key } => {
            let (name, language) = (key.name.as_str(), key.language.as_str());
            println!(rt; "a skip of {name} in {language}")
        }
        Command::Rollback { key } => {
            let (name, language) = (key.name.as_str(), key.language.as_str());
            println!(rt; "a rollback of {name} in {language}")
        }
        Command::Launch { key } => {
            let (name, language) = (key.name.as_str(), key.language.as_str());
            println!(rt; "a launch of {name} in {language}")
        }
        Command::Read {
            lease,
            name,
            from,
            count,
        } => {
            let name = name.as_str();
            println!(rt; "a read on {lease} of <{name}> from {from}, {count}")
        }
        Command::Local {
            lease,
            name,
            from,
            count,
        } => {
            let name = name.as_str();
            println!(rt; "data on {lease} of <{name}> from {from}, {count}")
        }
        Command::Put { lease, name, bytes } => tell_put(rt, lease, &name, bytes.as_slice()),
        Command::Remove { lease, name } => {
            let name = name.as_str();
            println!(rt; "no more <{name}> on {lease}")
        }
        Command::Group { lease, group } => {
            let group = group.as_str();
            println!(rt; "a group <{group}> on {lease}")
        }
        Command::Finish { lease } => println!(rt; "the end of {lease}"),
        Command::Clean => println!(rt; "a clean"),
        Command::List => println!(rt; "a list"),
        Command::Show { key } => {
            let (name, language) = (key.name.as_str(), key.language.as_str());
            println!(rt; "a show of {name} in {language}")
        }
    }
}

// What a line is read as.
fn tell(rt: &HostRuntime, line: &[u8]) -> io::Result<()> {
    match read_line(rt.alloc(), line) {
        Ok(command) => tell_command(rt, command),
        Err(fault) => say(rt, Reply::Line { fault }),
    }
}

// The line that installs from an address of so many bytes.
fn long_line(alloc: Global, length: usize) -> Result<Bytes, AllocError> {
    let mut line = Bytes::from_slice(alloc, b"install ")?;
    let address = vec![in alloc; b'x'; length]?;
    line.extend(&address)?;
    Ok(line)
}

// Addresses that a line may give, and others.
fn addresses(rt: &HostRuntime) -> io::Result<()> {
    tell(rt, b"install http://demo.test/demo.application")?;
    tell(rt, b"install !")?;
    tell(rt, b"install ~")?;
    tell(rt, b"install a\x7f")?;
    tell(rt, b"install a\x1f")?;
    tell(rt, b"install ")?;
    tell(rt, b"install a ")?;
    for length in [2_048, 2_049] {
        let line = long_line(rt.alloc(), length)?;
        tell(rt, line.as_slice())?;
    }
    Ok(())
}

// The line that puts so many digits.
fn put_line(alloc: Global, digits: usize) -> Result<Bytes, AllocError> {
    let mut line = Bytes::from_slice(alloc, b"put 1 a ")?;
    let word = vec![in alloc; b'f'; digits]?;
    line.extend(&word)?;
    Ok(line)
}

// Data files of the most bytes that a line may give, and of more.
fn long_puts(rt: &HostRuntime) -> io::Result<()> {
    for digits in [60_000, 60_002] {
        let line = put_line(rt.alloc(), digits)?;
        tell(rt, line.as_slice())?;
    }
    Ok(())
}

// So many bytes that begin as an `at`.
fn at_line(alloc: Global, length: usize) -> Result<Bytes, AllocError> {
    let mut line = Bytes::from_slice(alloc, b"at ")?;
    let digits = vec![in alloc; b'0'; length.saturating_sub(3)]?;
    line.extend(&digits)?;
    Ok(line)
}

// A line that comes in pieces and ends in a carriage return: with a line feed behind that, and without one.
fn tell_pieces(rt: &HostRuntime, line: &[u8]) -> io::Result<()> {
    let (first, second) = line.split_at(line.len() / 2);
    let mut pending = Vec::new(rt.alloc());
    keep(&mut pending, first)?;
    keep(&mut pending, second)?;
    keep(&mut pending, b"\r")?;
    let kept = pending.len();
    println!(rt; "{kept} bytes are kept")?;
    tell(rt, strip_carriage_return(&pending))?;
    tell(rt, &pending)
}

// The longest line, and longer ones.
fn long_lines(rt: &HostRuntime) -> io::Result<()> {
    for length in [65_536, 65_537, 65_538, 200_000] {
        let line = at_line(rt.alloc(), length)?;
        tell(rt, line.as_slice())?;
        tell_pieces(rt, line.as_slice())?;
    }
    Ok(())
}

// What the lines of the input are read as.
fn lines(rt: &HostRuntime) -> io::Result<()> {
    for line in rt.lines(rt.alloc()) {
        let line = line?;
        tell(rt, line.as_str().as_bytes())?;
    }
    Ok(())
}

fn main(rt: HostRuntime) -> io::Result<()> {
    plain(&rt)?;
    leases(&rt)?;
    checks(&rt)?;
    locals(&rt)?;
    views(&rt)?;
    lists(&rt)?;
    shows(&rt)?;
    reads(&rt)?;
    counts(&rt)?;
    faults(&rt)?;
    keys(&rt)?;
    releases(&rt)?;
    links(&rt)?;
    trees(&rt)?;
    names(&rt)?;
    manifests(&rt)?;
    addresses(&rt)?;
    long_puts(&rt)?;
    long_lines(&rt)?;
    lines(&rt)
}
