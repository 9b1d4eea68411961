// File names and groups as lines give them.
ghost use Rattle.std.specs.Prelude.{◌≡◌, ◌<◌, length, IfErr, IfOk, IfSome, IsOk, IsSome, MatchOption};
ghost use Rattle.std.specs.Str.{IsUtf8, is_utf8};
ghost use Rattle.percent_encoding.specs.Percent.{percent_decode as decoded};
ghost use Rattle.small_types.specs.declared.limits.TheConstants as limits;
ghost use Rattle.small_types.specs.declared.name.NameFault.TheVariants.{Memory};
ghost use Rattle.small_types.specs.Name.{Gives, IsName};
ghost use Rattle.machine.specs.Words.{IsGroup};
ghost use Rattle.command_text.specs.Lines.{file_of, group_in, group_word, is_group};

use arrayvec::ArrayVec;
use percent_encoding::percent_decode;
use small_types::limits::NAME_LIMIT;
use small_types::{Name, NameFault, Text};
use std::alloc::{AllocError, Global};

// The bytes with each escape read, where they are no more than a name may have.
fn decode(word: &[u8]) -> Option<ArrayVec<u8, NAME_LIMIT>>
    ensures { MatchOption result (limits.NAME_LIMIT < length (decoded word.now))
        (λ text. text.items ≡ decoded word.now) }
{
    let mut text = ArrayVec::new();
    for byte in percent_decode(word) {
        if text.is_full() {
            return None;
        }
        text.push(byte);
    }
    Some(text)
}

/// The file name that the word spells with each escape read. There may be no memory only for a
/// name.
pub(crate) fn read_name(alloc: Global, word: &[u8]) -> Result<Name, NameFault>
    ensures exact { Gives result (file_of word.now) }
    ensures name { IfOk result IsName }
    ensures memory { result ≡ Err Memory → IsOk (file_of word.now) }
{
    match decode(word) {
        Some(text) => Name::read(alloc, &text),
        None => Err(NameFault::Bad),
    }
}

// Whether the bytes are UTF-8.
#[tactic(auto, using(small_types::proofs::Spelled::spelled, small_types::proofs::Spelled::unspelled))]
fn is_text(bytes: &[u8]) -> bool
    ensures { result ≡ is_utf8 bytes.now }
{
    str::from_utf8(bytes).is_ok()
}

// Whether the bytes are a group.
#[tactic(auto, unfolding(crate::specs::Lines::is_group))]
fn is_group(bytes: &[u8]) -> bool
    ensures { result ≡ is_group bytes.now }
{
    !bytes.is_empty() && bytes.len() <= NAME_LIMIT && is_text(bytes)
}

// The text of these bytes.
fn text_of(alloc: Global, bytes: &[u8]) -> Result<Text, AllocError>
    requires { IsUtf8 bytes.now }
    ensures { IfOk result (λ t. t ≡ bytes.now) }
{
    let Ok(text) = str::from_utf8(bytes) else {
        unreachable!();
    };
    Ok(Text::from_string(String::from_str(alloc, text)?))
}

// The group that the bytes are, where they are one. It is tested before memory is taken.
#[tactic(auto, unfolding(crate::specs::Lines::group_in))]
fn copy_group(alloc: Global, bytes: &[u8]) -> Result<Option<Text>, AllocError>
    ensures exact { IfOk result (λ group. group ≡ group_in bytes.now) }
    ensures group { IfOk result (λ group. IfSome group IsGroup) }
    ensures memory { IfErr result (λ _. IsSome (group_in bytes.now)) }
{
    if !is_group(bytes) {
        return Ok(None);
    }
    match text_of(alloc, bytes) {
        Ok(text) => Ok(Some(text)),
        Err(fault) => Err(fault),
    }
}

/// The group that the word spells with each escape read, where it spells one. There may be no memory
/// only for a group.
pub(crate) fn read_group(alloc: Global, word: &[u8]) -> Result<Option<Text>, AllocError>
    ensures exact { IfOk result (λ group. group ≡ group_word word.now) }
    ensures group { IfOk result (λ group. IfSome group IsGroup) }
    ensures memory { IfErr result (λ _. IsSome (group_word word.now)) }
{
    match decode(word) {
        Some(text) => copy_group(alloc, &text),
        None => Ok(None),
    }
}
