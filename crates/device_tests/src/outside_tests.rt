// What no clause says of sources and sinks in memory: that calls succeed, and worked values.
ghost use Rattle.outside.specs.MemSink.{sink_taken, sink_faults};

use crate::made::{all_right, bytes, numbers, same};
use outside::{Failed, MemSink, MemSource, Sink, Source, read_all, write_all};
use std::alloc::{AllocError, Global};
use std::test::Fail;

fn read_four<S: Source>(source: &mut S) -> Result<(usize, [u8; 4]), Failed> {
    let mut buf = *b"....";
    let n = source.read(&mut buf)?;
    Ok((n, buf))
}

// What each read of four bytes gives, and what is then left and how often the source failed.
type Reading = (Result<(usize, [u8; 4]), Failed>, &'static [u8], u64);

const READINGS: &[Reading] = &[
    (Ok((4, *b"abcd")), b"ef", 0),
    (Err(Failed), b"ef", 1),
    (Ok((2, *b"ef..")), b"", 1),
    (Ok((0, *b"....")), b"", 1),
    (Err(Failed), b"", 2),
];

// Whether the source gives that and is then so.
fn is_reading(source: &mut MemSource, reading: &Reading) -> bool {
    let (want, left, faults) = reading;
    read_four(source) == *want && same(source.left(), left) && source.faults() == *faults
}

// The number of the first reading that the source does not give.
fn wrong_reading(source: &mut MemSource) -> Option<usize> {
    for (number, reading) in READINGS.iter().enumerate() {
        if !is_reading(source, reading) {
            return Some(number);
        }
    }
    None
}

#[test]
fn source_gives_its_bytes_and_fails_by_number(rt: HostRuntime) -> Result<(), Fail> {
    let alloc = rt.alloc();
    let mut source = MemSource::new(alloc, bytes(alloc, b"abcdef")?, numbers(alloc, &[2, 5])?);
    all_right(&rt, "read", wrong_reading(&mut source));
    Ok(())
}

// Whether reading to the end of a source, of which those calls fail, gives those bytes, or a fault where there are none.
fn is_read(
    alloc: Global,
    failing: &[u64],
    limit: usize,
    want: Option<&[u8]>,
) -> Result<bool, AllocError> {
    let mut given = MemSource::new(alloc, bytes(alloc, b"abcdef")?, numbers(alloc, failing)?);
    Ok(match (read_all(alloc, &mut given, limit), want) {
        (Ok(bytes), Some(want)) => same(&bytes, want),
        (Err(_), None) => true,
        _ => false,
    })
}

#[test]
fn reads_to_the_end_or_the_limit(rt: HostRuntime) -> Result<(), Fail> {
    assert!(rt; is_read(rt.alloc(), &[], 10, Some(b"abcdef"))?);
    assert!(rt; is_read(rt.alloc(), &[], 4, Some(b"abcd"))?);
    assert!(rt; is_read(rt.alloc(), &[2], 10, None)?);
    Ok(())
}

// Bytes that are written whole, what that answers, and what the sink has then taken and how often it failed.
type Writing = (&'static [u8], Result<(), Failed>, &'static [u8], u64);

const WRITINGS: &[Writing] = &[
    (b"bc", Ok(()), b"abc", 0),
    (b"", Ok(()), b"abc", 0),
    (b"de", Err(Failed), b"abc", 1),
    (b"fg", Ok(()), b"abcfg", 1),
];

// Whether the sink takes that and is then so.
fn is_writing(sink: &mut MemSink, writing: &Writing) -> bool {
    let (piece, want, taken, faults) = writing;
    write_all(sink, piece) == *want
        && same(sink.taken(), taken)
        && sink.faults() == *faults
        && sink.starved() == 0
}

// The number of the first writing that the sink does not take so.
fn wrong_writing(sink: &mut MemSink) -> Option<usize> {
    for (number, writing) in WRITINGS.iter().enumerate() {
        if !is_writing(sink, writing) {
            return Some(number);
        }
    }
    None
}

#[test]
fn sink_keeps_what_it_takes_and_fails_by_number(rt: HostRuntime) -> Result<(), Fail> {
    let alloc = rt.alloc();
    let mut sink = MemSink::new(alloc, bytes(alloc, b"a")?, numbers(alloc, &[2])?);
    all_right(&rt, "write", wrong_writing(&mut sink));
    Ok(())
}

// A sink that takes one byte a call.
#[derive(Drop)]
struct Narrow {
    inner: MemSink,
}

impl Sink for Narrow {
    ghost tells = { Unit {0} };

    ghost taken = { λ n. sink_taken n.inner };

    ghost count = { λ n. sink_faults n.inner };

    fn write(&mut self, bytes: &[u8]) -> Result<usize, Failed> {
        self.inner.write(&bytes[..1])
    }

    fn faults(&self) -> u64 {
        self.inner.faults()
    }
}

// Whether the bytes are written whole, or fail, as is wanted.
fn writes(sink: &mut Narrow, piece: &[u8], want: Result<(), Failed>) -> bool {
    write_all(sink, piece) == want
}

// Whether a sink whose sixth call fails keeps what it took before.
fn keeps_pieces(sink: &mut Narrow) -> bool {
    writes(sink, b"abc", Ok(()))
        && writes(sink, b"defg", Err(Failed))
        && same(sink.inner.taken(), b"abcde")
        && sink.faults() == 1
}

#[test]
fn writing_all_stops_at_a_failed_piece(rt: HostRuntime) -> Result<(), Fail> {
    let alloc = rt.alloc();
    let inner = MemSink::new(alloc, bytes(alloc, b"")?, numbers(alloc, &[6])?);
    let mut sink = Narrow { inner };
    assert!(rt; keeps_pieces(&mut sink));
    Ok(())
}
