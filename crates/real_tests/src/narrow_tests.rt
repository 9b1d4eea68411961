// What reads and writes of a file do where it gives and takes little.
use outside_real::{read_from, write_whole};
use std::cell::Cell;
use std::io;
use std::io::ErrorKind;
use std::os::unix::fs::FileExt;

// A file of these bytes with room for so many. It gives and takes one byte a call, and every third call is interrupted.
#[derive(Drop)]
struct Narrow<'a> {
    bytes: &'a [u8],
    room: u64,
    turns: Cell<u64>,
}

impl Narrow<'_> {
    fn turn(&self) -> io::Result<()> {
        let turn = self.turns.get();
        self.turns.set(turn.wrapping_add(1));
        if turn % 3 == 1 {
            return Err(io::Error::from(ErrorKind::Interrupted));
        }
        Ok(())
    }
}

impl FileExt for Narrow<'_> {
    fn read_at(&self, buf: &mut [u8], offset: u64) -> io::Result<usize> {
        self.turn()?;
        let (Some(byte), Some(first)) = (self.bytes.get(offset as usize), buf.first_mut()) else {
            return Ok(0);
        };
        *first = *byte;
        Ok(1)
    }

    fn write_at(&self, buf: &[u8], offset: u64) -> io::Result<usize> {
        self.turn()?;
        if offset >= self.room {
            return Err(io::Error::from(ErrorKind::StorageFull));
        }
        Ok(buf.len().min(1))
    }
}

// What is read into four bytes, from a place of a file that is said to have a size.
fn read(file: &Narrow, size: u64, place: u64) -> Option<(usize, [u8; 4])> {
    let mut buf = *b"....";
    match read_from(file, size, place, &mut buf) {
        Ok(n) => Some((n, buf)),
        Err(_) => None,
    }
}

#[test]
fn a_file_that_gives_and_takes_little(rt: HostRuntime) {
    let file = Narrow {
        bytes: b"abcdef",
        room: 3,
        turns: Cell::new(0),
    };
    for (size, place, want) in [
        (6, 1, Some((4, *b"bcde"))),
        (6, 3, Some((3, *b"def."))),
        (6, 9, Some((0, *b"...."))),
        (8, 3, None),
    ] {
        assert!(rt; read(&file, size, place) == want, "{size} {place}");
    }
    assert!(rt; write_whole(&file, 0, b"abc").is_ok());
    assert!(rt; write_whole(&file, 1, b"abc").is_err());
}
