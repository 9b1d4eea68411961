// Character data and values, unit by unit: a byte, a line end or a reference.
ghost use Rattle.std.specs.Prelude.{◌≡◌, ◌<◌, ◌≤◌, ◌++◌, ◌∷◌, [], ℕ, List, length, IfOk, Ok};
ghost use Rattle.manifest_tree.specs.declared.node.Attribute.{Attribute};
ghost use Rattle.manifest_tree.specs.Lexis.{plain as plainly, past_line_feed as behind_line_feed, unit_at, front, past};
ghost use Rattle.manifest_tree.specs.Spots.{OpenTree, with_text, inside, in_tag, in_value};
ghost use Rattle.manifest_tree.specs.Outcome.{Gives, GivesText, Leads};
ghost use Rattle.manifest_tree.specs.Pieces.{piece_of, piece_and_rest, itself};

use crate::classes::is_allowed;
use crate::fault::{Stop, TreeKind};
use crate::reference::reference;
use crate::scan::fault;
use small_types::Text;
use std::alloc::Global;

// What a unit stands for: a byte or a character.
#[derive(Clone, Copy)]
pub(crate) enum Piece {
    Byte(u8),
    Character(char),
}

fn past_line_feed(bytes: &[u8]) -> &[u8]
    ensures rest { result.now ≡ behind_line_feed bytes.now }
    ensures shorter { length result.now ≤ length bytes.now }
{
    match bytes.split_first() {
        Some((10, tail)) => tail,
        _ => bytes,
    }
}

// A byte as it is read; in a value a tab or a line feed is a space.
#[tactic(auto, unfolding(crate::specs::Lexis::plain))]
fn plain(quoted: bool, byte: u8) -> u8
    ensures { result ≡ plainly quoted byte }
{
    if quoted && (byte == 9 || byte == 10) {
        32
    } else {
        byte
    }
}

// The unit at the front, and what follows it.
fn unit(bytes: &[u8], quoted: bool) -> Result<(Piece, &[u8]), Stop>
    ensures unit { Gives piece_and_rest result (unit_at quoted bytes.now) }
    ensures shorter { IfOk result (λ x. length x.1.now < length bytes.now) }
{
    let Some((first, tail)) = bytes.split_first() else {
        return fault(TreeKind::Syntax, bytes);
    };
    if *first == b'&' {
        return match reference(tail) {
            Some((character, rest)) => Ok((Piece::Character(character), rest)),
            None => fault(TreeKind::Entity, bytes),
        };
    }
    if *first == 13 {
        return Ok((Piece::Byte(plain(quoted, 10)), past_line_feed(tail)));
    }
    if *first == b'<' || !is_allowed(*first) {
        return fault(TreeKind::Syntax, bytes);
    }
    Ok((Piece::Byte(plain(quoted, *first)), tail))
}

fn push(out: &mut Vec<u8>, alloc: Global, piece: Piece) -> Result<(), Stop>
    ensures { Gives (λ _. out.new.items) result (Ok (out.old.items ++ piece_of piece)) }
{
    match piece {
        Piece::Byte(byte) => {
            out.push(byte)?;
            Ok(())
        }
        Piece::Character(character) => {
            let mut spelled = String::new(alloc);
            spelled.push(character)?;
            out.extend_from_slice(spelled.as_bytes())?;
            Ok(())
        }
    }
}

// Whether a byte stands for itself, whichever of the quotes a value has. The byte `until` ends a run.
#[tactic(auto, unfolding(crate::specs::Pieces::itself))]
fn is_itself(byte: u8, until: u8) -> bool
    ensures { result ≡ itself until byte }
{
    byte >= 32 && byte != b'<' && byte != b'&' && byte != until
}

// Behind the bytes at the front that stand for themselves.
fn past_run(bytes: &[u8], until: u8) -> &[u8]
    ensures rest { result.now ≡ past (itself until) bytes.now }
    ensures shorter { length result.now ≤ length bytes.now }
{
    let mut rest = bytes;
    while let Some((first, tail)) = rest.split_first() {
        if !is_itself(*first, until) {
            return rest;
        }
        rest = tail;
    }
    rest
}

// The bytes at the front that stand for themselves, added to those before them, and what follows them.
fn take_run<'a>(out: &mut Vec<u8>, bytes: &'a [u8], until: u8) -> Result<&'a [u8], Stop>
    ensures run { Gives (λ _. out.new.items) result
        (Ok (out.old.items ++ front (itself until) bytes.now)) }
    ensures rest { IfOk result (λ r. r.now ≡ past (itself until) bytes.now) }
    ensures shorter { IfOk result (λ r. length r.now ≤ length bytes.now) }
{
    let rest = past_run(bytes, until);
    out.extend_from_slice(&bytes[..bytes.len() - rest.len()])?;
    Ok(rest)
}

// The text of the bytes.
pub(crate) fn text_of(alloc: Global, bytes: &[u8]) -> Result<Text, Stop>
    ensures { GivesText bytes.now (λ t. t) result (Ok bytes.now) }
{
    match std::str::from_utf8(bytes) {
        Ok(text) => Ok(Text::from_string(String::from_str(alloc, text)?)),
        Err(_) => Err(Stop::NotText),
    }
}

// The same, which keeps the memory that holds the bytes.
pub(crate) fn into_text(bytes: Vec<u8>) -> Result<Text, Stop>
    ensures { GivesText bytes.items (λ t. t) result (Ok bytes.items) }
{
    match String::from_utf8(bytes) {
        Ok(text) => Ok(Text::from_string(text)),
        Err(_) => Err(Stop::NotText),
    }
}

// The value up to its quote, and what follows the quote.
pub(crate) fn read_value(alloc: Global, bytes: &[u8], quote: u8) -> Result<(Text, &[u8]), Stop>
    ensures leads { (name : List ℕ) (attributes : List Attribute) (a : List ℕ)
        (around : List OpenTree) →
        Leads (λ x. (
          in_tag name (attributes ++ record { name = a; value = x.0 } ∷ []) around,
          x.1.now,
        ))
        (in_value name attributes a quote [] around) bytes.now result }
    ensures shorter { IfOk result (λ x. length x.1.now ≤ length bytes.now) }
{
    let mut made = Vec::new(alloc);
    let mut rest = take_run(&mut made, bytes, quote)?;
    while let Some((first, tail)) = rest.split_first() {
        if *first == quote {
            return Ok((into_text(made)?, tail));
        }
        let (piece, behind) = unit(rest, true)?;
        push(&mut made, alloc, piece)?;
        rest = take_run(&mut made, behind, quote)?;
    }
    fault(TreeKind::Syntax, rest)
}

// The character data up to the next `<`, and what follows that.
pub(crate) fn read_data(alloc: Global, bytes: &[u8]) -> Result<(Vec<u8>, &[u8]), Stop>
    ensures leads { (top : OpenTree) (around : List OpenTree) →
        Leads (λ x. (inside (with_text top x.0.items) around, 60 ∷ x.1.now)) (inside top around)
        bytes.now result }
    ensures shorter { IfOk result (λ x. length x.1.now < length bytes.now) }
{
    let mut made = Vec::new(alloc);
    let mut rest = take_run(&mut made, bytes, b'<')?;
    while let Some((first, tail)) = rest.split_first() {
        if *first == b'<' {
            return Ok((made, tail));
        }
        let (piece, behind) = unit(rest, false)?;
        push(&mut made, alloc, piece)?;
        rest = take_run(&mut made, behind, b'<')?;
    }
    fault(TreeKind::Syntax, rest)
}
