// What a line asks for that names a file of a leased view.
ghost use Rattle.std.specs.Prelude.{◌≡◌, Err, IfOk, IsOk};
ghost use Rattle.std.specs.Option.{option_copied};
ghost use Rattle.machine.specs.Words.{IsCommand};
ghost use Rattle.command_text.specs.Lines.{Gives, bytes_word, data_words, file_of, put_of, put_words, read_words, remove_of, remove_words, span_of, span_words, words_behind};
ghost use Rattle.command_text.specs.Numbers.{count_of, number_of};
ghost use Rattle.command_text.specs.Spans.{IsSpan};

use crate::hexes::read_bytes;
use crate::names::read_name;
use crate::numbers::{read_count, read_number};
use crate::words::{four_words, three_words, two_words};
use machine::{Command, LineFault};
use small_types::{Name, NameFault};
use std::alloc::{AllocError, Global};

/// Bytes of a file of a leased view, from a place on, at most so many.
#[derive(Drop)]
pub(crate) struct Span {
    lease: u64,
    name: Name,
    from: u64,
    count: u64,
}

// What the four words ask for.
fn span_of(
    alloc: Global,
    lease: &[u8],
    name: &[u8],
    from: &[u8],
    count: &[u8],
) -> Result<Span, LineFault>
    ensures exact { Gives result (span_of
        (number_of lease.now) (file_of name.now) (number_of from.now) (count_of count.now)) }
    ensures fits { IfOk result IsSpan }
    ensures memory { result ≡ Err LineFault.Memory → IsOk (span_of
        (number_of lease.now) (file_of name.now) (number_of from.now) (count_of count.now)) }
{
    let Some(lease) = read_number(lease) else {
        return Err(LineFault::BadWord { place: 1 });
    };
    let name = match read_name(alloc, name) {
        Ok(name) => Ok(name),
        Err(NameFault::Memory) => Err(AllocError),
        Err(NameFault::Bad) => return Err(LineFault::BadWord { place: 2 }),
    };
    let Some(from) = read_number(from) else {
        return Err(LineFault::BadWord { place: 3 });
    };
    let Some(count) = read_count(count) else {
        return Err(LineFault::BadWord { place: 4 });
    };
    match name {
        Ok(name) => Ok(Span {
            lease,
            name,
            from,
            count,
        }),
        Err(AllocError) => Err(LineFault::Memory),
    }
}

// What the words behind `read` or `data` ask for, where there are any.
fn span_line(alloc: Global, args: Option<&[u8]>) -> Result<Span, LineFault>
    ensures exact { Gives result (span_words (words_behind (option_copied args.entry))) }
    ensures fits { IfOk result IsSpan }
    ensures memory { result ≡ Err LineFault.Memory
        → IsOk (span_words (words_behind (option_copied args.entry))) }
{
    let Some(args) = args else {
        return Err(LineFault::WordCount);
    };
    let Some((lease, name, from, count)) = four_words(args) else {
        return Err(LineFault::WordCount);
    };
    span_of(alloc, lease, name, from, count)
}

/// The command of the words behind `read`, where there are any.
pub(crate) fn file_line(alloc: Global, args: Option<&[u8]>) -> Result<Command, LineFault>
    ensures exact { Gives result (read_words (words_behind (option_copied args.entry))) }
    ensures fits { IfOk result IsCommand }
    ensures memory { result ≡ Err LineFault.Memory
        → IsOk (read_words (words_behind (option_copied args.entry))) }
{
    match span_line(alloc, args) {
        Ok(
            Span {
                lease,
                name,
                from,
                count,
            },
        ) => Ok(Command::Read {
            lease,
            name,
            from,
            count,
        }),
        Err(fault) => Err(fault),
    }
}

/// The command of the words behind `data`, where there are any.
pub(crate) fn data_line(alloc: Global, args: Option<&[u8]>) -> Result<Command, LineFault>
    ensures exact { Gives result (data_words (words_behind (option_copied args.entry))) }
    ensures fits { IfOk result IsCommand }
    ensures memory { result ≡ Err LineFault.Memory
        → IsOk (data_words (words_behind (option_copied args.entry))) }
{
    match span_line(alloc, args) {
        Ok(
            Span {
                lease,
                name,
                from,
                count,
            },
        ) => Ok(Command::Local {
            lease,
            name,
            from,
            count,
        }),
        Err(fault) => Err(fault),
    }
}

// The command of the three words behind `put`.
fn put_of(alloc: Global, lease: &[u8], name: &[u8], bytes: &[u8]) -> Result<Command, LineFault>
    ensures exact { Gives result (put_of
        (number_of lease.now) (file_of name.now) (bytes_word bytes.now)) }
    ensures fits { IfOk result IsCommand }
    ensures memory { result ≡ Err LineFault.Memory → IsOk (put_of
        (number_of lease.now) (file_of name.now) (bytes_word bytes.now)) }
{
    let Some(lease) = read_number(lease) else {
        return Err(LineFault::BadWord { place: 1 });
    };
    let name = match read_name(alloc, name) {
        Ok(name) => Ok(name),
        Err(NameFault::Memory) => Err(AllocError),
        Err(NameFault::Bad) => return Err(LineFault::BadWord { place: 2 }),
    };
    let bytes = match read_bytes(alloc, bytes) {
        Ok(Some(bytes)) => Ok(bytes),
        Ok(None) => return Err(LineFault::BadWord { place: 3 }),
        Err(AllocError) => Err(AllocError),
    };
    match (name, bytes) {
        (Ok(name), Ok(bytes)) => Ok(Command::Put { lease, name, bytes }),
        (Err(AllocError), _) | (_, Err(AllocError)) => Err(LineFault::Memory),
    }
}

/// The command of the words behind `put`, where there are any.
pub(crate) fn put_line(alloc: Global, args: Option<&[u8]>) -> Result<Command, LineFault>
    ensures exact { Gives result (put_words (words_behind (option_copied args.entry))) }
    ensures fits { IfOk result IsCommand }
    ensures memory { result ≡ Err LineFault.Memory
        → IsOk (put_words (words_behind (option_copied args.entry))) }
{
    let Some(args) = args else {
        return Err(LineFault::WordCount);
    };
    let Some((lease, name, bytes)) = three_words(args) else {
        return Err(LineFault::WordCount);
    };
    put_of(alloc, lease, name, bytes)
}

// The command of the two words behind `remove`.
fn remove_of(alloc: Global, lease: &[u8], name: &[u8]) -> Result<Command, LineFault>
    ensures exact { Gives result (remove_of (number_of lease.now) (file_of name.now)) }
    ensures fits { IfOk result IsCommand }
    ensures memory { result ≡ Err LineFault.Memory
        → IsOk (remove_of (number_of lease.now) (file_of name.now)) }
{
    let Some(lease) = read_number(lease) else {
        return Err(LineFault::BadWord { place: 1 });
    };
    match read_name(alloc, name) {
        Ok(name) => Ok(Command::Remove { lease, name }),
        Err(NameFault::Memory) => Err(LineFault::Memory),
        Err(NameFault::Bad) => Err(LineFault::BadWord { place: 2 }),
    }
}

/// The command of the words behind `remove`, where there are any.
pub(crate) fn remove_line(alloc: Global, args: Option<&[u8]>) -> Result<Command, LineFault>
    ensures exact { Gives result (remove_words (words_behind (option_copied args.entry))) }
    ensures fits { IfOk result IsCommand }
    ensures memory { result ≡ Err LineFault.Memory
        → IsOk (remove_words (words_behind (option_copied args.entry))) }
{
    let Some(args) = args else {
        return Err(LineFault::WordCount);
    };
    let Some((lease, name)) = two_words(args) else {
        return Err(LineFault::WordCount);
    };
    remove_of(alloc, lease, name)
}
