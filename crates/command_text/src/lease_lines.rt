// What a line asks for that names a lease, and no file.
ghost use Rattle.std.specs.Prelude.{◌≡◌, ◌≢◌, Err, IfOk, IsOk};
ghost use Rattle.std.specs.Option.{option_copied};
ghost use Rattle.machine.specs.Words.{IsCommand};
ghost use Rattle.command_text.specs.Lines.{Gives, finish_words, group_of, group_word, group_words, words_behind};
ghost use Rattle.command_text.specs.Numbers.{number_of};

use crate::names::read_group;
use crate::numbers::read_number;
use crate::words::{one_word, two_words};
use machine::{Command, LineFault};
use std::alloc::{AllocError, Global};

// The command of the two words behind `group`.
fn group_of(alloc: Global, lease: &[u8], group: &[u8]) -> Result<Command, LineFault>
    ensures exact { Gives result (group_of (number_of lease.now) (group_word group.now)) }
    ensures fits { IfOk result IsCommand }
    ensures memory { result ≡ Err LineFault.Memory
        → IsOk (group_of (number_of lease.now) (group_word group.now)) }
{
    let Some(lease) = read_number(lease) else {
        return Err(LineFault::BadWord { place: 1 });
    };
    match read_group(alloc, group) {
        Ok(Some(group)) => Ok(Command::Group { lease, group }),
        Ok(None) => Err(LineFault::BadWord { place: 2 }),
        Err(AllocError) => Err(LineFault::Memory),
    }
}

/// The command of the words behind `group`, where there are any.
pub(crate) fn group_line(alloc: Global, args: Option<&[u8]>) -> Result<Command, LineFault>
    ensures exact { Gives result (group_words (words_behind (option_copied args.entry))) }
    ensures fits { IfOk result IsCommand }
    ensures memory { result ≡ Err LineFault.Memory
        → IsOk (group_words (words_behind (option_copied args.entry))) }
{
    let Some(args) = args else {
        return Err(LineFault::WordCount);
    };
    let Some((lease, group)) = two_words(args) else {
        return Err(LineFault::WordCount);
    };
    group_of(alloc, lease, group)
}

/// The command of the word behind `finish`, where there is one. It takes no memory.
pub(crate) fn finish_line(args: Option<&[u8]>) -> Result<Command, LineFault>
    ensures exact { result ≡ finish_words (words_behind (option_copied args.entry)) }
    ensures fits { IfOk result IsCommand }
    ensures memory { result ≢ Err LineFault.Memory }
{
    let Some(args) = args else {
        return Err(LineFault::WordCount);
    };
    let Some(word) = one_word(args) else {
        return Err(LineFault::WordCount);
    };
    let Some(lease) = read_number(word) else {
        return Err(LineFault::BadWord { place: 1 });
    };
    Ok(Command::Finish { lease })
}
