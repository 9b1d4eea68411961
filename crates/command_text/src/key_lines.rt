// What a line asks for that names an application by its key alone.
ghost use Rattle.std.specs.Prelude.{◌≡◌, Err, IfOk, IsOk};
ghost use Rattle.std.specs.Option.{option_copied};
ghost use Rattle.identity.specs.Key.{IsKey};
ghost use Rattle.machine.specs.Words.{IsCommand};
ghost use Rattle.command_text.specs.Lines.{Gives, check_words, key_words, launch_words, rollback_words, show_words, skip_words, words_behind};

use crate::words::one_word;
use identity::{Key, KeyFault};
use machine::{Command, LineFault};
use std::alloc::Global;

// The key of the word, where there is one.
fn key_line(alloc: Global, args: Option<&[u8]>) -> Result<Key, LineFault>
    ensures exact { Gives result (key_words (words_behind (option_copied args.entry))) }
    ensures key { IfOk result IsKey }
    ensures memory { result ≡ Err LineFault.Memory
        → IsOk (key_words (words_behind (option_copied args.entry))) }
{
    let Some(args) = args else {
        return Err(LineFault::WordCount);
    };
    let Some(word) = one_word(args) else {
        return Err(LineFault::WordCount);
    };
    match Key::read(alloc, word) {
        Ok(key) => Ok(key),
        Err(KeyFault::Memory) => Err(LineFault::Memory),
        Err(_) => Err(LineFault::BadWord { place: 1 }),
    }
}

/// The command of the word behind `check`, where there is one.
pub(crate) fn check_line(alloc: Global, args: Option<&[u8]>) -> Result<Command, LineFault>
    ensures exact { Gives result (check_words (words_behind (option_copied args.entry))) }
    ensures fits { IfOk result IsCommand }
    ensures memory { result ≡ Err LineFault.Memory
        → IsOk (check_words (words_behind (option_copied args.entry))) }
{
    match key_line(alloc, args) {
        Ok(key) => Ok(Command::Check { key }),
        Err(fault) => Err(fault),
    }
}

/// The command of the word behind `skip`, where there is one.
pub(crate) fn skip_line(alloc: Global, args: Option<&[u8]>) -> Result<Command, LineFault>
    ensures exact { Gives result (skip_words (words_behind (option_copied args.entry))) }
    ensures fits { IfOk result IsCommand }
    ensures memory { result ≡ Err LineFault.Memory
        → IsOk (skip_words (words_behind (option_copied args.entry))) }
{
    match key_line(alloc, args) {
        Ok(key) => Ok(Command::Skip { key }),
        Err(fault) => Err(fault),
    }
}

/// The command of the word behind `rollback`, where there is one.
pub(crate) fn rollback_line(alloc: Global, args: Option<&[u8]>) -> Result<Command, LineFault>
    ensures exact { Gives result (rollback_words (words_behind (option_copied args.entry))) }
    ensures fits { IfOk result IsCommand }
    ensures memory { result ≡ Err LineFault.Memory
        → IsOk (rollback_words (words_behind (option_copied args.entry))) }
{
    match key_line(alloc, args) {
        Ok(key) => Ok(Command::Rollback { key }),
        Err(fault) => Err(fault),
    }
}

/// The command of the word behind `launch`, where there is one.
pub(crate) fn launch_line(alloc: Global, args: Option<&[u8]>) -> Result<Command, LineFault>
    ensures exact { Gives result (launch_words (words_behind (option_copied args.entry))) }
    ensures fits { IfOk result IsCommand }
    ensures memory { result ≡ Err LineFault.Memory
        → IsOk (launch_words (words_behind (option_copied args.entry))) }
{
    match key_line(alloc, args) {
        Ok(key) => Ok(Command::Launch { key }),
        Err(fault) => Err(fault),
    }
}

/// The command of the word behind `show`, where there is one.
pub(crate) fn show_line(alloc: Global, args: Option<&[u8]>) -> Result<Command, LineFault>
    ensures exact { Gives result (show_words (words_behind (option_copied args.entry))) }
    ensures fits { IfOk result IsCommand }
    ensures memory { result ≡ Err LineFault.Memory
        → IsOk (show_words (words_behind (option_copied args.entry))) }
{
    match key_line(alloc, args) {
        Ok(key) => Ok(Command::Show { key }),
        Err(fault) => Err(fault),
    }
}
