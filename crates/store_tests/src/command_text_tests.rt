// Tests of lines and replies.
ghost use Rattle.outside.specs.MemSink.{sink_taken, sink_faults};

use command_text::{print_reply, read_line, read_number, strip_carriage_return};
use identity::{Key, Version};
use machine::{Command, LineFault, Reply};
use outside::{Failed, MemSink, Sink};
use small_types::limits::NUMBER_LIMIT;
use small_types::{Bytes, Limit, List};
use std::alloc::{AllocError, Global};
use std::process::Abort;
use std::test::Fail;

fn same(a: &[u8], b: &[u8]) -> bool {
    a == b
}

// A key by its parts.
#[derive(Drop)]
struct Parts {
    name: &'static str,
    token: &'static str,
    language: &'static str,
    architecture: &'static str,
}

fn is_key(key: &Key, parts: &Parts) -> bool {
    same(key.name.as_bytes(), parts.name.as_bytes())
        && same(key.token.as_bytes(), parts.token.as_bytes())
        && same(key.language.as_bytes(), parts.language.as_bytes())
        && same(key.architecture.as_bytes(), parts.architecture.as_bytes())
}

// What a line is to be read as.
#[derive(Drop)]
enum Wanted {
    At(u64),
    Require(Parts, Version),
    Local(u64, &'static str, u64, u64),
    Put(u64, &'static str, &'static [u8]),
    Remove(u64, &'static str),
    Fault(LineFault),
}

// Whether it is that command of a data file.
fn is_of_a_file(command: &Command, wanted: &Wanted) -> bool {
    match (command, wanted) {
        (
            Command::Local {
                lease,
                name,
                from,
                count,
            },
            Wanted::Local(want, file, start, most),
        ) => {
            let is_place = *lease == *want && *from == *start && *count == *most;
            is_place && same(name.as_bytes(), file.as_bytes())
        }
        (Command::Put { lease, name, bytes }, Wanted::Put(want, file, held)) => {
            *lease == *want
                && same(name.as_bytes(), file.as_bytes())
                && same(bytes.as_slice(), held)
        }
        (Command::Remove { lease, name }, Wanted::Remove(want, file)) => {
            *lease == *want && same(name.as_bytes(), file.as_bytes())
        }
        _ => false,
    }
}

fn is_wanted(read: &Result<Command, LineFault>, wanted: &Wanted) -> bool {
    match (read, wanted) {
        (Ok(Command::At { now }), Wanted::At(want)) => *now == *want,
        (Ok(Command::Require { key, version }), Wanted::Require(parts, want)) => {
            is_key(key, parts) && *version == *want
        }
        (Ok(command), _) => is_of_a_file(command, wanted),
        (Err(fault), Wanted::Fault(want)) => *fault == *want,
        _ => false,
    }
}

// Whether the line is read as that. It promises nothing, so that what a test asks is tried and not proved.
fn reads(alloc: Global, line: &[u8], wanted: &Wanted) -> bool {
    let read = read_line(alloc, line);
    let is = is_wanted(&read, wanted);
    drop(read);
    is
}

const COMMANDS: &[(&str, Wanted)] = &[
    (
        "require org.example%2Fapp,b77a,en,x86%2064 01.2.0.65535",
        Wanted::Require(
            Parts {
                name: "org.example/app",
                token: "b77a",
                language: "en",
                architecture: "x86 64",
            },
            Version {
                a: 1,
                b: 2,
                c: 0,
                d: 65_535,
            },
        ),
    ),
    ("at 0", Wanted::At(0)),
    ("at 0001700000000", Wanted::At(1_700_000_000)),
    ("at 4611686018427387904", Wanted::At(NUMBER_LIMIT)),
    (
        "data 07 lib%5Ca%20b.dat 1 30000",
        Wanted::Local(7, "lib/a b.dat", 1, 30_000),
    ),
    ("data 0 .pre/a 0 0", Wanted::Local(0, ".pre/a", 0, 0)),
    ("put 1 a -", Wanted::Put(1, "a", b"")),
    ("put 1 a 00", Wanted::Put(1, "a", b"\x00")),
    (
        "put 7 .pre/a 616263AaFf",
        Wanted::Put(7, ".pre/a", b"abc\xaa\xff"),
    ),
    ("remove 7 lib%2Fa", Wanted::Remove(7, "lib/a")),
];

#[test]
fn commands_are_read(rt: HostRuntime) {
    for (line, wanted) in COMMANDS {
        assert!(rt; reads(rt.alloc(), line.as_bytes(), wanted), "at {line}");
    }
}

const FAULTS: &[(&str, LineFault)] = &[
    ("", LineFault::NoSuchCommand),
    (" ", LineFault::NoSuchCommand),
    ("frob", LineFault::NoSuchCommand),
    ("frob a b c d", LineFault::NoSuchCommand),
    ("Require a,b,c,d 1.0.0.0", LineFault::NoSuchCommand),
    (" require a,b,c,d 1.0.0.0", LineFault::NoSuchCommand),
    ("requires a,b,c,d 1.0.0.0", LineFault::NoSuchCommand),
    ("require\ta,b,c,d 1.0.0.0", LineFault::NoSuchCommand),
    ("At 1", LineFault::NoSuchCommand),
    ("at1", LineFault::NoSuchCommand),
    ("at", LineFault::WordCount),
    ("at 1 ", LineFault::WordCount),
    ("at x y", LineFault::WordCount),
    ("at ", LineFault::BadWord { place: 1 }),
    ("at x", LineFault::BadWord { place: 1 }),
    ("at 4611686018427387905", LineFault::BadWord { place: 1 }),
    ("at 00000000000000000001", LineFault::BadWord { place: 1 }),
    ("require", LineFault::WordCount),
    ("require ", LineFault::WordCount),
    ("require a,b,c,d", LineFault::WordCount),
    ("require a,b,c,d 1.0.0.0 ", LineFault::WordCount),
    ("require a,b,c,d 1.0.0.0 x", LineFault::WordCount),
    ("require  a,b,c,d 1.0.0.0", LineFault::WordCount),
    ("require  ", LineFault::BadWord { place: 1 }),
    ("require x 1.0.0.0", LineFault::BadWord { place: 1 }),
    ("require x 1.0", LineFault::BadWord { place: 1 }),
    ("require a,b,c,d 1.0", LineFault::BadWord { place: 2 }),
    ("require a,b,c,d 1.0.0.0\r", LineFault::BadWord { place: 2 }),
    ("installs a", LineFault::NoSuchCommand),
    ("Install a", LineFault::NoSuchCommand),
    ("install", LineFault::WordCount),
    ("install a b", LineFault::WordCount),
    ("install a ", LineFault::WordCount),
    ("install ", LineFault::BadWord { place: 1 }),
    ("install a\tb", LineFault::BadWord { place: 1 }),
    ("install a\r", LineFault::BadWord { place: 1 }),
    ("install a\u{7f}", LineFault::BadWord { place: 1 }),
    ("install h\u{e9}", LineFault::BadWord { place: 1 }),
    ("datas 1 a 0 1", LineFault::NoSuchCommand),
    ("data 1 a 0", LineFault::WordCount),
    ("data x .. y z 1", LineFault::WordCount),
    ("data x .. y z", LineFault::BadWord { place: 1 }),
    ("data 1 .. y z", LineFault::BadWord { place: 2 }),
    ("data 1 a y z", LineFault::BadWord { place: 3 }),
    ("data 1 a 0 30001", LineFault::BadWord { place: 4 }),
    ("Put 1 a 00", LineFault::NoSuchCommand),
    ("put x ..", LineFault::WordCount),
    ("put x .. 0 1", LineFault::WordCount),
    ("put x .. 0", LineFault::BadWord { place: 1 }),
    ("put 1 .. 0", LineFault::BadWord { place: 2 }),
    ("put 1 a 0", LineFault::BadWord { place: 3 }),
    ("put 1 a 0g", LineFault::BadWord { place: 3 }),
    ("put 1 a --", LineFault::BadWord { place: 3 }),
    ("put 1 a ", LineFault::BadWord { place: 3 }),
    ("removes 1 a", LineFault::NoSuchCommand),
    ("remove x", LineFault::WordCount),
    ("remove x .. y", LineFault::WordCount),
    ("remove x ..", LineFault::BadWord { place: 1 }),
    ("remove 1 ..", LineFault::BadWord { place: 2 }),
];

#[test]
fn faults_come_in_order(rt: HostRuntime) {
    for (line, fault) in FAULTS {
        let wanted = Wanted::Fault(*fault);
        assert!(rt; reads(rt.alloc(), line.as_bytes(), &wanted), "at {line}");
    }
}

#[test]
fn long_lines_are_refused(rt: HostRuntime) -> Result<(), Fail> {
    let table = [
        (65_536, LineFault::NoSuchCommand),
        (65_537, LineFault::LineTooLong),
    ];
    for (length, fault) in table {
        let line = vec![in rt.alloc(); b'x'; length]?;
        let wanted = Wanted::Fault(fault);
        assert!(rt; reads(rt.alloc(), &line, &wanted), "{length}");
    }
    Ok(())
}

const SOME: Version = Version {
    a: 1,
    b: 2,
    c: 0,
    d: 0,
};

const MOST: Version = Version {
    a: 65_535,
    b: 65_535,
    c: 65_535,
    d: 65_535,
};

// A reply that holds plain values.
#[derive(Drop)]
enum Plain {
    At(u64),
    Minimum(Version),
    // Too many applications.
    TooMany(u64),
    Line(LineFault),
    Memory,
}

fn reply_of(plain: &Plain) -> Reply {
    match plain {
        Plain::At(now) => Reply::At { now: *now },
        Plain::Minimum(version) => Reply::Minimum { version: *version },
        Plain::TooMany(limit) => Reply::TooMany {
            what: Limit::Applications,
            limit: *limit,
        },
        Plain::Line(fault) => Reply::Line { fault: *fault },
        Plain::Memory => Reply::Memory,
    }
}

const REPLIES: &[(Plain, &str)] = &[
    (Plain::At(0), "ok at 0\n"),
    (Plain::At(NUMBER_LIMIT), "ok at 4611686018427387904\n"),
    (Plain::Minimum(SOME), "ok minimum 1.2.0.0\n"),
    (Plain::Minimum(MOST), "ok minimum 65535.65535.65535.65535\n"),
    (Plain::TooMany(256), "no too-many applications 256\n"),
    (
        Plain::TooMany(u64::MAX),
        "no too-many applications 18446744073709551615\n",
    ),
    (
        Plain::Line(LineFault::BadWord { place: 1 }),
        "no line word 1\n",
    ),
    (
        Plain::Line(LineFault::BadWord { place: 255 }),
        "no line word 255\n",
    ),
    (Plain::Line(LineFault::NoSuchCommand), "no line command\n"),
    (Plain::Line(LineFault::WordCount), "no line words\n"),
    (Plain::Line(LineFault::LineTooLong), "no line too-long\n"),
    (Plain::Line(LineFault::Memory), "no memory\n"),
    (Plain::Memory, "no memory\n"),
];

// Prints the reply. It promises nothing, so that what a test asks is tried and not proved.
fn print<K: Sink>(plain: &Plain, sink: &mut K) -> Result<(), Failed> {
    let reply = reply_of(plain);
    let printed = print_reply(&reply, sink);
    drop(reply);
    printed
}

// An empty sink, of which one call fails.
fn sink_of(alloc: Global, failing: u64) -> Result<MemSink, AllocError> {
    let failing = List::from_vec([failing].to_vec(alloc)?);
    Ok(MemSink::new(alloc, Bytes::from_vec(Vec::new(alloc)), failing))
}

// Whether the reply is printed so.
fn prints(alloc: Global, reply: &Plain, wanted: &str) -> Result<bool, AllocError> {
    let mut sink = sink_of(alloc, 0)?;
    let printed = print(reply, &mut sink);
    Ok(printed.is_ok() && same(sink.taken(), wanted.as_bytes()))
}

#[test]
fn replies_are_printed(rt: HostRuntime) -> Result<(), Fail> {
    for (reply, wanted) in REPLIES {
        assert!(rt; prints(rt.alloc(), reply, wanted)?, "{wanted}");
    }
    Ok(())
}

// A sink that takes one byte a call.
#[derive(Drop)]
struct Narrow {
    inner: MemSink,
}

impl Sink for Narrow {
    ghost tells = { Unit {0} };

    ghost taken = { λ n. sink_taken n.inner };

    ghost count = { λ n. sink_faults n.inner };

    fn write(&mut self, bytes: &[u8]) -> Result<usize, Failed> {
        self.inner.write(&bytes[..1])
    }

    fn faults(&self) -> u64 {
        self.inner.faults()
    }
}

const LINE: &[u8] = b"no too-many applications 256\n";

// Whether the sink took so many bytes of the line, and then those.
fn has_taken(sink: &Narrow, calls: usize, then: &[u8]) -> bool {
    let taken = sink.inner.taken();
    calls <= taken.len()
        && calls <= LINE.len()
        && same(&taken[..calls], &LINE[..calls])
        && same(&taken[calls..], then)
}

// Prints into a sink whose call after that many fails, and prints again.
fn assert_first_part(
    rt: &(impl Abort + AllocGlobal),
    calls: usize,
    failing: u64,
) -> Result<(), AllocError> {
    let inner = sink_of(rt.alloc(), failing)?;
    let mut sink = Narrow { inner };
    for (wanted, then) in [(Err(Failed), b"".as_slice()), (Ok(()), LINE)] {
        let printed = print(&Plain::TooMany(256), &mut sink);
        assert!(rt; printed == wanted, "after {calls}");
        assert!(rt; has_taken(&sink, calls, then), "after {calls}: taken");
        assert!(rt; sink.faults() == 1, "after {calls}: faults");
    }
    Ok(())
}

// Each call fails once: what was taken is what stands before it, and the line is whole again after that.
#[test]
fn a_failing_sink_takes_a_first_part(rt: HostRuntime) -> Result<(), Fail> {
    for calls in 0..LINE.len() {
        let failing = (calls as u64).saturating_add(1);
        assert_first_part(&rt, calls, failing)?;
    }
    Ok(())
}

fn number_of(text: &str) -> Option<u64> {
    read_number(text.as_bytes())
}

const NUMBERS: &[(&str, Option<u64>)] = &[
    ("0", Some(0)),
    ("007", Some(7)),
    ("1700000000", Some(1_700_000_000)),
    ("0000000000000000001", Some(1)),
    ("4611686018427387904", Some(NUMBER_LIMIT)),
    ("4611686018427387905", None),
    ("9999999999999999999", None),
    ("00000000000000000001", None),
    ("", None),
    ("+1", None),
    ("-1", None),
    ("1 ", None),
    ("0x1", None),
];

#[test]
fn numbers_are_read(rt: HostRuntime) {
    for (text, wanted) in NUMBERS {
        assert!(rt; number_of(text) == *wanted, "at {text}");
    }
}

fn strips(line: &str, wanted: &str) -> bool {
    same(strip_carriage_return(line.as_bytes()), wanted.as_bytes())
}

const STRIPPED: &[(&str, &str)] = &[
    ("", ""),
    ("\r", ""),
    ("a", "a"),
    ("a\r", "a"),
    ("a\r\r", "a\r"),
    ("\ra", "\ra"),
];

#[test]
fn one_carriage_return_is_stripped(rt: HostRuntime) {
    for (line, wanted) in STRIPPED {
        assert!(rt; strips(line, wanted), "at {line}");
    }
}
