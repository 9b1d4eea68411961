// The words of the command line.
ghost use Rattle.std.specs.Prelude.{◌≡◌, ◌⊎◌, [], codes, drop, false, get_or, length, true, None, Some, Err, IfOk, IfSome};
ghost use Rattle.std.specs.Str.{bytes_eq};
ghost use Rattle.command_text.specs.Numbers.{number_of};
ghost use Rattle.publication.specs.Command.{Takes};
ghost use Rattle.publication.specs.Words.{options_of};
ghost use Rattle.publication.specs.declared.values.WordFault.TheVariants as fault;
ghost use Rattle.updater_cli.specs.Words.{IsRequest, IsUntaken, demo_of, format_of, format_with, is_block_count, is_half, is_publish as asks_to_publish, kind_of, other_of, publish_of, request_of, session_of};

use command_text::read_number;
use inspection::Kind;
use publication::{WordFault, read_options};
use publisher::Options;
use small_types::limits::{BLOCK_LIMIT, HALF_LEAST, HALF_LIMIT, HALF_STEP};
use small_types::{Room, Word, new_room};
use std::alloc::Global;

/// What the words ask for.
#[derive(Drop)]
pub enum Request {
    /// A new store of this room.
    Format { room: Room },
    /// A session with this boot number, which begins at this moment in seconds.
    Session { boot: u64, now: u64 },
    /// What a manifest of this kind says.
    Inspect { kind: Kind },
    /// A release with these options.
    Publish { options: Options },
    /// The generated run of this number.
    Demo { seed: u64 },
}

// Whether a store may have so many blocks.
fn is_block_count(blocks: u64) -> bool
    ensures { result ≡ is_block_count blocks }
{
    1 <= blocks && blocks <= BLOCK_LIMIT
}

// Whether a half of a journal may have so many bytes.
fn is_half(half: u64) -> bool
    ensures { result ≡ is_half half }
{
    HALF_LEAST <= half && half <= HALF_LIMIT && half % HALF_STEP == 0
}

// A format of so many blocks.
fn read_format(blocks: &[u8]) -> Option<Request>
    ensures request { result ≡ format_of (number_of blocks.now) }
    ensures small { IfSome result IsRequest }
{
    let blocks = read_number(blocks)?;
    if !is_block_count(blocks) {
        return None;
    }
    Some(Request::Format {
        room: new_room(blocks),
    })
}

// A format of so many blocks, with halves of so many bytes.
fn read_halved_format(blocks: &[u8], half: &[u8]) -> Option<Request>
    ensures request { result ≡ format_with (number_of blocks.now) (number_of half.now) }
    ensures small { IfSome result IsRequest }
{
    let blocks = read_number(blocks)?;
    let half = read_number(half)?;
    if !is_block_count(blocks) || !is_half(half) {
        return None;
    }
    Some(Request::Format {
        room: Room { blocks, half },
    })
}

// A session.
fn read_session(boot: &[u8], now: &[u8]) -> Option<Request>
    ensures request { result ≡ session_of (number_of boot.now) (number_of now.now) }
    ensures small { IfSome result IsRequest }
{
    let boot = read_number(boot)?;
    let now = read_number(now)?;
    Some(Request::Session { boot, now })
}

// Whether the word has this text.
fn is_word(word: &Word, text: &[u8]) -> bool
    ensures { result ≡ bytes_eq word.now text.now }
{
    word.as_slice() == text
}

// Which manifest is inspected.
fn read_kind(word: &Word) -> Option<Request>
    ensures request { result ≡ kind_of word.now }
    ensures small { IfSome result IsRequest }
{
    if is_word(word, b"deployment") {
        return Some(Request::Inspect {
            kind: Kind::Deployment,
        });
    }
    if is_word(word, b"application") {
        return Some(Request::Inspect {
            kind: Kind::Application,
        });
    }
    None
}

// A generated run.
fn read_demo(seed: &[u8]) -> Option<Request>
    ensures request { result ≡ demo_of (number_of seed.now) }
    ensures small { IfSome result IsRequest }
{
    let seed = read_number(seed)?;
    Some(Request::Demo { seed })
}

// Two words.
fn read_two(words: &[Word]) -> Option<Request>
    requires { length words.now ≡ 2 }
    ensures request { result ≡ other_of words.now }
    ensures small { IfSome result IsRequest }
{
    if is_word(&words[0], b"inspect") {
        return read_kind(&words[1]);
    }
    if is_word(&words[0], b"demo") {
        return read_demo(words[1].as_slice());
    }
    None
}

// Three words.
fn read_three(words: &[Word]) -> Option<Request>
    requires { length words.now ≡ 3 }
    ensures request { result ≡ other_of words.now }
    ensures small { IfSome result IsRequest }
{
    if !is_word(&words[0], b"format") {
        return None;
    }
    if !is_word(&words[1], b"--blocks") {
        return None;
    }
    read_format(words[2].as_slice())
}

// Five words that begin a session.
fn read_five_of_session(words: &[Word]) -> Option<Request>
    requires { length words.now ≡ 5 }
    ensures request { bytes_eq (get_or words.now 0 []) (codes "session") ≡ true
        → result ≡ other_of words.now }
    ensures small { IfSome result IsRequest }
{
    if !is_word(&words[1], b"--boot") {
        return None;
    }
    if !is_word(&words[3], b"--now") {
        return None;
    }
    read_session(words[2].as_slice(), words[4].as_slice())
}

// Five words that begin a format.
fn read_five_of_format(words: &[Word]) -> Option<Request>
    requires { length words.now ≡ 5 }
    ensures request { bytes_eq (get_or words.now 0 []) (codes "session") ≡ false
        → bytes_eq (get_or words.now 0 []) (codes "format") ≡ true
        → result ≡ other_of words.now }
    ensures small { IfSome result IsRequest }
{
    if !is_word(&words[1], b"--blocks") {
        return None;
    }
    if !is_word(&words[3], b"--half") {
        return None;
    }
    read_halved_format(words[2].as_slice(), words[4].as_slice())
}

// Five words.
fn read_five(words: &[Word]) -> Option<Request>
    requires { length words.now ≡ 5 }
    ensures request { result ≡ other_of words.now }
    ensures small { IfSome result IsRequest }
{
    if is_word(&words[0], b"session") {
        return read_five_of_session(words);
    }
    if is_word(&words[0], b"format") {
        return read_five_of_format(words);
    }
    None
}

// The words behind `publish`.
fn read_publish(alloc: Global, words: &[Word]) -> Result<Request, WordFault>
    ensures request { IfOk result (λ request. publish_of (options_of words.now) ≡ Some request) }
    ensures small { IfOk result IsRequest }
    ensures none { result ≡ Err fault.Unreadable
        → (publish_of (options_of words.now) ≡ None) ⊎ (¬ Takes words.now) }
{
    let options = read_options(alloc, words)?;
    Ok(Request::Publish { options })
}

// Any words but those of `publish`.
fn read_others(words: &[Word]) -> Option<Request>
    ensures request { result ≡ other_of words.now }
    ensures small { IfSome result IsRequest }
{
    if words.len() == 2 {
        return read_two(words);
    }
    if words.len() == 3 {
        return read_three(words);
    }
    if words.len() == 5 {
        return read_five(words);
    }
    None
}

// Whether the words ask to publish.
fn is_publish(words: &[Word]) -> bool
    ensures { result ≡ asks_to_publish words.now }
{
    match words.first() {
        Some(word) => is_word(word, b"publish"),
        None => false,
    }
}

/// What the words ask for: `format --blocks N` with N from 1 to 1,048,576, maybe with `--half N` behind
/// it, N from 1,048,576 to 67,108,864 in steps of 4,096, `session --boot N --now N`,
/// `inspect deployment` or `inspect application`, `demo SEED`, or `publish` and its words.
/// `Unreadable` comes where they ask for nothing, unless memory ran out. Else it comes only where
/// they are those of a `publish` whose options do not take them. `Memory` comes only behind the word
/// `publish`.
pub(crate) fn read_words(alloc: Global, words: &[Word]) -> Result<Request, WordFault>
    ensures request { IfOk result (λ request. request_of words.now ≡ Some request) }
    ensures small { IfOk result IsRequest }
    ensures none { result ≡ Err fault.Unreadable
        → (request_of words.now ≡ None) ⊎ IsUntaken words.now }
    ensures memory { result ≡ Err fault.Memory → asks_to_publish words.now ≡ true }
{
    if is_publish(words) {
        return read_publish(alloc, &words[1..]);
    }
    read_others(words).ok_or(WordFault::Unreadable)
}
