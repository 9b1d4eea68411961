// What the standard streams' devices make of what a runtime answers.
use crate::shown::is_said;
use outside::{Failed, Sink, Source, write_all};
use outside_real::{Failure, StdSink, StdSource};
use std::alloc::Allocator;
use std::cell::Cell;
use std::fmt::Display;
use std::io;
use std::io::{BufRead, ErrorKind, Lines, Read};
use std::test::Fail;

// A runtime whose input is three bytes.
#[derive(Drop)]
struct Three;

impl Input for Three {
    type Reader = &'static [u8];

    fn read_line<A: Allocator + Clone>(&self, _buf: &mut String<A>) -> io::Result<usize> {
        Err(io::Error::from(ErrorKind::Unsupported))
    }

    fn lines<A: Allocator>(&self, alloc: A) -> Lines<&'static [u8], A> {
        self.reader().lines(alloc)
    }

    fn reader(&self) -> &'static [u8] {
        b"abc"
    }
}

// Reads into the first two bytes of the buffer, or into all four.
fn read_some<S: Source>(source: &mut S, buf: &mut [u8; 4], two: bool) -> Result<usize, Failed> {
    if two {
        source.read(&mut buf[..2])
    } else {
        source.read(buf)
    }
}

#[test]
fn a_source_gives_what_one_read_gave(rt: HostRuntime) {
    let mut source = StdSource::new(Three);
    let mut buf = *b"....";
    for (two, count, left) in [
        (true, 2, *b"ab.."),
        (false, 1, *b"cb.."),
        (false, 0, *b"cb.."),
    ] {
        assert!(rt;
            read_some(&mut source, &mut buf, two) == Ok(count),
            "{count}"
        );
        assert!(rt; buf == left, "{count}");
    }
    assert!(rt; source.faults() == 0);
}

// A runtime whose input fails.
#[derive(Drop)]
struct Broken;

#[derive(Drop)]
struct BrokenReader;

impl Read for BrokenReader {
    fn read(&mut self, _buf: &mut [u8]) -> io::Result<usize> {
        Err(io::Error::from(ErrorKind::Other))
    }
}

impl BufRead for BrokenReader {
    fn fill_buf(&mut self) -> io::Result<&[u8]> {
        Err(io::Error::from(ErrorKind::Other))
    }

    fn consume(&mut self, _amount: usize) {}
}

impl Input for Broken {
    type Reader = BrokenReader;

    fn read_line<A: Allocator + Clone>(&self, _buf: &mut String<A>) -> io::Result<usize> {
        Err(io::Error::from(ErrorKind::Unsupported))
    }

    fn lines<A: Allocator>(&self, alloc: A) -> Lines<BrokenReader, A> {
        self.reader().lines(alloc)
    }

    fn reader(&self) -> BrokenReader {
        BrokenReader
    }
}

#[test]
fn a_failed_read_fails(rt: HostRuntime) {
    let mut source = StdSource::new(Broken);
    assert!(rt; source.why().is_none());
    assert!(rt; read_some(&mut source, &mut [b'.'; 4], false) == Err(Failed));
    assert!(rt; source.why().is_some());
    assert!(rt; source.faults() == 1);
}

// A runtime whose output takes two bytes, then one, then none, and then fails.
#[derive(Drop)]
struct Narrow {
    turns: Cell<u8>,
}

impl Print for Narrow {
    fn print<D: Display + Drop>(&self, _value: D) -> io::Result<()> {
        Err(io::Error::from(ErrorKind::Unsupported))
    }

    fn println<D: Display + Drop>(&self, _value: D) -> io::Result<()> {
        Err(io::Error::from(ErrorKind::Unsupported))
    }

    fn write_all(&self, _bytes: &[u8]) -> io::Result<()> {
        Err(io::Error::from(ErrorKind::Unsupported))
    }

    fn write_some(&self, bytes: &[u8]) -> io::Result<usize> {
        let turn = self.turns.get();
        self.turns.set(turn.saturating_add(1));
        match turn {
            0 => Ok(bytes.len().min(2)),
            1 => Ok(bytes.len().min(1)),
            2 => Ok(0),
            _ => Err(io::Error::from(ErrorKind::Other)),
        }
    }
}

// Whether the bytes are written whole, or fail, as is wanted, and how often the sink has then failed.
fn writes<S: Sink>(sink: &mut S, bytes: &[u8], want: Result<(), Failed>, faults: u64) -> bool {
    write_all(sink, bytes) == want && sink.faults() == faults
}

#[test]
fn a_sink_fails_where_nothing_is_taken(rt: HostRuntime) -> Result<(), Fail> {
    let mut sink = StdSink::new(Narrow {
        turns: Cell::new(0),
    });
    assert!(rt; writes(&mut sink, b"abc", Ok(()), 0));
    assert!(rt; writes(&mut sink, b"d", Err(Failed), 1));
    assert!(rt; writes(&mut sink, b"d", Err(Failed), 2));
    assert!(rt; is_said(rt.alloc(), sink.why(), "write zero"));
    let failure = Failure::new("no such", None).or(Failure::new("two\nlines", sink.why()));
    let line = format!(in rt.alloc(); "{failure}")?;
    assert!(rt; line.as_str() == "two\\nlines: write zero");
    Ok(())
}
