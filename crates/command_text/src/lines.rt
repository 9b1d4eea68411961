// What a line asks for.
ghost use Rattle.std.specs.Prelude.{◌≡◌, ◌≢◌, Err, IfOk, IsOk};
ghost use Rattle.std.specs.Str.Lines.{strip_carriage_return};
ghost use Rattle.identity.specs.Key.{key_of};
ghost use Rattle.identity.specs.Version.{version_of};
ghost use Rattle.std.specs.Option.{option_copied};
ghost use Rattle.machine.specs.Words.{IsCommand};
ghost use Rattle.command_text.specs.Lines.{Gives, at_words, clean_words, command_of, install_words, lease_words, list_words, named_words, require_of, require_words, words_behind};

use crate::file_lines::{data_line, file_line, put_line, remove_line};
use crate::key_lines::{check_line, launch_line, rollback_line, show_line, skip_line};
use crate::lease_lines::{finish_line, group_line};
use crate::numbers::read_number;
use crate::urls::is_url;
use crate::words::{first_word, one_word, two_words};
use identity::{Key, KeyFault, Version};
use machine::{Command, LineFault};
use small_types::Bytes;
use small_types::limits::LINE_LIMIT;
use std::alloc::{AllocError, Global};

// The command of the two words behind `require`.
fn read_require(alloc: Global, key: &[u8], version: &[u8]) -> Result<Command, LineFault>
    ensures exact { Gives result (require_of (key_of key.now) (version_of version.now)) }
    ensures fits { IfOk result IsCommand }
    ensures memory { result ≡ Err LineFault.Memory
        → IsOk (require_of (key_of key.now) (version_of version.now)) }
{
    let key = match Key::read(alloc, key) {
        Ok(key) => Ok(key),
        Err(KeyFault::Memory) => Err(AllocError),
        Err(_) => return Err(LineFault::BadWord { place: 1 }),
    };
    let Ok(version) = Version::read(version) else {
        return Err(LineFault::BadWord { place: 2 });
    };
    match key {
        Ok(key) => Ok(Command::Require { key, version }),
        Err(AllocError) => Err(LineFault::Memory),
    }
}

// The command of the words behind `require`, where there are any.
fn require_line(alloc: Global, args: Option<&[u8]>) -> Result<Command, LineFault>
    ensures exact { Gives result (require_words (words_behind (option_copied args.entry))) }
    ensures fits { IfOk result IsCommand }
    ensures memory { result ≡ Err LineFault.Memory
        → IsOk (require_words (words_behind (option_copied args.entry))) }
{
    let Some(args) = args else {
        return Err(LineFault::WordCount);
    };
    let Some((key, version)) = two_words(args) else {
        return Err(LineFault::WordCount);
    };
    read_require(alloc, key, version)
}

// The command of the words behind `at`, where there are any. It takes no memory.
fn at_line(args: Option<&[u8]>) -> Result<Command, LineFault>
    ensures exact { result ≡ at_words (words_behind (option_copied args.entry)) }
    ensures fits { IfOk result IsCommand }
    ensures memory { result ≢ Err LineFault.Memory }
{
    let Some(args) = args else {
        return Err(LineFault::WordCount);
    };
    let Some(word) = one_word(args) else {
        return Err(LineFault::WordCount);
    };
    let Some(now) = read_number(word) else {
        return Err(LineFault::BadWord { place: 1 });
    };
    Ok(Command::At { now })
}

// The command of the word behind `install`, where there is one.
fn install_line(alloc: Global, args: Option<&[u8]>) -> Result<Command, LineFault>
    ensures exact { Gives result (install_words (words_behind (option_copied args.entry))) }
    ensures fits { IfOk result IsCommand }
    ensures memory { result ≡ Err LineFault.Memory
        → IsOk (install_words (words_behind (option_copied args.entry))) }
{
    let Some(args) = args else {
        return Err(LineFault::WordCount);
    };
    let Some(word) = one_word(args) else {
        return Err(LineFault::WordCount);
    };
    if !is_url(word) {
        return Err(LineFault::BadWord { place: 1 });
    }
    match Bytes::from_slice(alloc, word) {
        Ok(url) => Ok(Command::Install { url }),
        Err(AllocError) => Err(LineFault::Memory),
    }
}

// The command `clean`, which no word follows.
fn clean_line(args: Option<&[u8]>) -> Result<Command, LineFault>
    ensures exact { result ≡ clean_words (words_behind (option_copied args.entry)) }
    ensures fits { IfOk result IsCommand }
    ensures memory { result ≢ Err LineFault.Memory }
{
    match args {
        Some(_) => Err(LineFault::WordCount),
        None => Ok(Command::Clean),
    }
}

// The command `list`, which no word follows.
fn list_line(args: Option<&[u8]>) -> Result<Command, LineFault>
    ensures exact { result ≡ list_words (words_behind (option_copied args.entry)) }
    ensures fits { IfOk result IsCommand }
    ensures memory { result ≢ Err LineFault.Memory }
{
    match args {
        Some(_) => Err(LineFault::WordCount),
        None => Ok(Command::List),
    }
}

// The command that names a lease, by its name and the words behind it.
fn lease_line(alloc: Global, name: &[u8], args: Option<&[u8]>) -> Result<Command, LineFault>
    ensures exact { Gives result
        (lease_words name.now (words_behind (option_copied args.entry))) }
    ensures fits { IfOk result IsCommand }
    ensures memory { result ≡ Err LineFault.Memory
        → IsOk (lease_words name.now (words_behind (option_copied args.entry))) }
{
    if name == b"read".as_slice() {
        return file_line(alloc, args);
    }
    if name == b"data".as_slice() {
        return data_line(alloc, args);
    }
    if name == b"put".as_slice() {
        return put_line(alloc, args);
    }
    if name == b"remove".as_slice() {
        return remove_line(alloc, args);
    }
    if name == b"group".as_slice() {
        return group_line(alloc, args);
    }
    if name == b"finish".as_slice() {
        return finish_line(args);
    }
    Err(LineFault::NoSuchCommand)
}

// The command that names an application by its key alone, or a lease.
fn named_line(alloc: Global, name: &[u8], args: Option<&[u8]>) -> Result<Command, LineFault>
    ensures exact { Gives result
        (named_words name.now (words_behind (option_copied args.entry))) }
    ensures fits { IfOk result IsCommand }
    ensures memory { result ≡ Err LineFault.Memory
        → IsOk (named_words name.now (words_behind (option_copied args.entry))) }
{
    if name == b"check".as_slice() {
        return check_line(alloc, args);
    }
    if name == b"skip".as_slice() {
        return skip_line(alloc, args);
    }
    if name == b"rollback".as_slice() {
        return rollback_line(alloc, args);
    }
    if name == b"launch".as_slice() {
        return launch_line(alloc, args);
    }
    if name == b"show".as_slice() {
        return show_line(alloc, args);
    }
    lease_line(alloc, name, args)
}

/// The command that the line asks for. The line comes without its line feed, and its words are separated by one
/// space each. `LineTooLong` comes exactly above 65,536 bytes; else `NoSuchCommand` where the first word is no
/// command's name, as the empty one of an empty line; else `WordCount` where there are too few words or too many;
/// else `BadWord` names the first word that cannot be read, the one after the command being 1. `Memory` comes only at a
/// line that asks for a command.
#[tactic(auto, unfolding(crate::specs::Lines::command_of))]
pub fn read_line(alloc: Global, line: &[u8]) -> Result<Command, LineFault>
    ensures exact { Gives result (command_of line.now) }
    ensures fits { IfOk result IsCommand }
    ensures memory { result ≡ Err LineFault.Memory → IsOk (command_of line.now) }
{
    if line.len() > LINE_LIMIT {
        return Err(LineFault::LineTooLong);
    }
    let (name, args) = first_word(line);
    if name == b"at".as_slice() {
        return at_line(args);
    }
    if name == b"require".as_slice() {
        return require_line(alloc, args);
    }
    if name == b"install".as_slice() {
        return install_line(alloc, args);
    }
    if name == b"clean".as_slice() {
        return clean_line(args);
    }
    if name == b"list".as_slice() {
        return list_line(args);
    }
    named_line(alloc, name, args)
}

/// The line without the one carriage return at its end, where one stands there.
pub fn strip_carriage_return(line: &[u8]) -> &[u8]
    ensures { result.now ≡ strip_carriage_return line.now }
{
    match line {
        [front @ .., b'\r'] => front,
        _ => line,
    }
}
