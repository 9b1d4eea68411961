ghost use Rattle.std.specs.Prelude.{◌≡◌, ◌↔◌, ◌<◌, ◌≤◌, [], ◌∷◌, ◌++◌, length, IfSome, IfNone, IfOk, IfErr, IsOk, IsTrue, OnOk, Ok, Err, string_bytes};
ghost use Rattle.std.specs.Str.{IsUtf8, is_utf8};
ghost use Rattle.small_types.specs.declared.limits.TheConstants as limits;
ghost use Rattle.percent_encoding.specs.Percent as percent;
ghost use Rattle.identity.specs.declared.key.Key.{Key};
ghost use Rattle.identity.specs.declared.key.KeyFault.TheVariants.{Memory};
ghost use Rattle.identity.specs.Key.{IsKey, IsPart, is_part, Gives, key_of, key_text, key_of_parts, part_of, part_text, word_text};
ghost use Rattle.identity.specs.Printed.{Follows, text_cmp};

use crate::escapes::{PART_ESCAPES, WORD_ESCAPES};
use crate::parts::{FourParts, four_parts};
use crate::printed::{past_next, past_part};
use arrayvec::ArrayVec;
use percent_encoding::{percent_decode, percent_encode};
use small_types::limits::{IDENTITY_PART_LIMIT, NAME_LIMIT};
use small_types::{CopyFault, Duplicate, PrintFault, Text};
use std::alloc::{AllocError, Global};
use std::cmp::Ordering;
use std::error::Error;
use std::fmt;

/// The key of an application: what two versions of one application share.
#[derive(Drop, Debug, PartialEq, Eq)]
pub struct Key {
    /// At most 240 bytes.
    pub name: Text,
    /// At most 64 bytes.
    pub token: Text,
    /// At most 64 bytes.
    pub language: Text,
    /// At most 64 bytes.
    pub architecture: Text,
}

/// Why bytes are no key.
#[derive(Clone, Copy, Debug, PartialEq, Eq)]
pub enum KeyFault {
    /// There are not four parts between the commas.
    PartCount,
    /// The first bad part, counted from 1, is empty, over its limit or no UTF-8.
    BadPart { part: u8 },
    /// There was no memory for the key.
    Memory,
}

impl fmt::Display for KeyFault {
    fn fmt<W: fmt::Write>(&self, f: &mut fmt::Formatter<W>) -> fmt::Result {
        match self {
            KeyFault::PartCount => write!(f, "not four parts between commas"),
            KeyFault::BadPart { part } => {
                write!(f, "part {part} is empty, too long or no UTF-8")
            }
            KeyFault::Memory => write!(f, "out of memory"),
        }
    }
}

impl Error for KeyFault {}

impl From<AllocError> for KeyFault {
    ghost from_gives = { λ _ e. e ≡ Memory };

    fn from(_: AllocError) -> KeyFault {
        KeyFault::Memory
    }
}

impl Duplicate for Key {
    fn copy(&self, alloc: Global) -> Result<Self, CopyFault> {
        Ok(Key {
            name: self.name.copy(alloc)?,
            token: self.token.copy(alloc)?,
            language: self.language.copy(alloc)?,
            architecture: self.architecture.copy(alloc)?,
        })
    }
}

// The bytes without their escapes, where they are no longer than a name.
fn decode_here(bytes: &[u8]) -> Option<ArrayVec<u8, NAME_LIMIT>>
    ensures decoded { IfSome result (λ t. t.items ≡ percent.percent_decode bytes.now) }
    ensures long { IfNone result (limits.NAME_LIMIT < length (percent.percent_decode bytes.now)) }
{
    let mut text = ArrayVec::new();
    for byte in percent_decode(bytes) {
        if text.is_full() {
            return None;
        }
        text.push(byte);
    }
    Some(text)
}

// Whether the bytes are UTF-8.
#[tactic(auto, using(small_types::proofs::Spelled::spelled, small_types::proofs::Spelled::unspelled))]
fn is_text(bytes: &[u8]) -> bool
    ensures { result ≡ is_utf8 bytes.now }
{
    str::from_utf8(bytes).is_ok()
}

// Whether the text is a part.
fn is_part(limit: usize, text: &[u8]) -> bool
    ensures { result ≡ is_part limit text.now }
{
    !text.is_empty() && text.len() <= limit && is_text(text)
}

// The text that stands as that part, in place.
#[tactic(auto, unfolding(crate::specs::Key::part_of))]
fn part_here(part: u8, limit: usize, bytes: &[u8]) -> Result<ArrayVec<u8, NAME_LIMIT>, KeyFault>
    requires { limit ≤ limits.NAME_LIMIT }
    ensures ok { IfOk result (λ t. part_of part limit bytes.now ≡ Ok t.items) }
    ensures utf8 { IfOk result (λ t. IsUtf8 t.items) }
    ensures err { IfErr result (λ e. part_of part limit bytes.now ≡ Err e) }
    ensures bad { IfErr result (λ e. e ≡ KeyFault.BadPart part) }
{
    match decode_here(bytes) {
        Some(text) if is_part(limit, &text) => Ok(text),
        _ => Err(KeyFault::BadPart { part }),
    }
}

// The text of these bytes.
fn text_of(alloc: Global, bytes: &[u8]) -> Result<Text, AllocError>
    requires { IsUtf8 bytes.now }
    ensures { IfOk result (λ t. t ≡ bytes.now) }
{
    let Ok(text) = str::from_utf8(bytes) else {
        unreachable!();
    };
    Ok(Text::from_string(String::from_str(alloc, text)?))
}

// The key of the four parts. Each part is tested before memory is taken.
#[tactic(auto, unfolding(crate::specs::Key::key_of_parts))]
fn read_parts(alloc: Global, parts: &FourParts) -> Result<Key, KeyFault>
    ensures exact { Gives result
        (key_of_parts
        (parts.now.first.now ∷ parts.now.second.now ∷ parts.now.third.now ∷ parts.now.fourth.now
        ∷ [])) }
    ensures memory { result ≡ Err Memory → IsOk
        (key_of_parts
        (parts.now.first.now ∷ parts.now.second.now ∷ parts.now.third.now ∷ parts.now.fourth.now
        ∷ [])) }
{
    let name = part_here(1, NAME_LIMIT, parts.first)?;
    let token = part_here(2, IDENTITY_PART_LIMIT, parts.second)?;
    let language = part_here(3, IDENTITY_PART_LIMIT, parts.third)?;
    let architecture = part_here(4, IDENTITY_PART_LIMIT, parts.fourth)?;
    Ok(Key {
        name: text_of(alloc, &name)?,
        token: text_of(alloc, &token)?,
        language: text_of(alloc, &language)?,
        architecture: text_of(alloc, &architecture)?,
    })
}

// Adds the text of a part.
#[tactic(auto, using(crate::proofs::KeyLemmas::part_encoded))]
fn print_part(out: &mut String, part: &Text) -> Result<(), PrintFault>
    ensures { OnOk result (string_bytes out.new ≡ string_bytes out.old ++ part_text part.now) }
{
    percent_encode(part.as_bytes(), PART_ESCAPES).append_to(out)?;
    Ok(())
}

// Adds a comma and the text of a part.
fn print_next(out: &mut String, part: &Text) -> Result<(), PrintFault>
    ensures { OnOk result (string_bytes out.new ≡ string_bytes out.old ++ 44 ∷ part_text part.now) }
{
    out.push(',')?;
    print_part(out, part)
}

/// The word, word-escaped: it keeps letters, digits, `-`, `.`, `_`, `~` and `/`, and each other byte is `%` and two
/// upper-case hexadecimal digits. It fails only for want of memory.
pub fn word_escape(alloc: Global, word: &[u8]) -> Result<Text, PrintFault>
    ensures text { IfOk result (λ t. t ≡ word_text word.now) }
    ensures again { IfOk result (λ t. percent.percent_decode t ≡ word.now) }
{
    let mut text = String::new(alloc);
    percent_encode(word, WORD_ESCAPES).append_to(&mut text)?;
    Ok(Text::from_string(text))
}

impl Key {
    /// The key that the word spells: four parts with commas between them, each word-escaped. An escape may have
    /// hexadecimal digits of either case, and a `%` without two of them stands for itself. `PartCount` comes exactly
    /// where there are not four parts; else `BadPart` names the first part whose text is empty, over its limit or no
    /// UTF-8. `Memory` may come at any word that spells a key.
    pub fn read(alloc: Global, word: &[u8]) -> Result<Key, KeyFault>
        ensures exact { Gives result (key_of word.now) }
        ensures key { IfOk result IsKey }
        ensures memory { result ≡ Err Memory → IsOk (key_of word.now) }
    {
        let Some(parts) = four_parts(word, b',') else {
            return Err(KeyFault::PartCount);
        };
        read_parts(alloc, &parts)
    }

    /// Its text: its parts word-escaped, `/` too, with commas between them. It fails only for want of memory.
    pub fn print(&self, alloc: Global) -> Result<Text, PrintFault>
        ensures text { IfOk result (λ t. t ≡ key_text self.now) }
        ensures again { IsKey self.now → IfOk result (λ t. key_of t ≡ Ok self.now) }
    {
        let mut text = String::new(alloc);
        print_part(&mut text, &self.name)?;
        print_next(&mut text, &self.token)?;
        print_next(&mut text, &self.language)?;
        print_next(&mut text, &self.architecture)?;
        Ok(Text::from_string(text))
    }

    /// How its text compares with another, byte by byte. It takes no memory.
    pub fn cmp_printed(&self, text: &[u8]) -> Ordering
        ensures { result ≡ text_cmp (key_text self.now) text.now }
    {
        match past_key(self, text) {
            Ok(rest) if rest.is_empty() => Ordering::Equal,
            Ok(_) => Ordering::Less,
            Err(order) => order,
        }
    }

    /// Whether its text is this one. It takes no memory.
    pub fn is_printed(&self, text: &[u8]) -> bool
        ensures { IsTrue result ↔ (key_text self.now ≡ text.now) }
    {
        self.cmp_printed(text).is_eq()
    }

    /// Whether each part has a byte or more and is within its limit: what is read is so, and what is so is read
    /// again from its text.
    pub fn is_key(&self) -> bool
        ensures { IsTrue result ↔ IsKey self.now }
    {
        is_within(&self.name, NAME_LIMIT)
            && is_within(&self.token, IDENTITY_PART_LIMIT)
            && is_within(&self.language, IDENTITY_PART_LIMIT)
            && is_within(&self.architecture, IDENTITY_PART_LIMIT)
    }
}

// What stands behind the text of the key, or how the key's text compares.
fn past_key<'a>(key: &Key, text: &'a [u8]) -> Result<&'a [u8], Ordering>
    ensures { Follows (key_text key.now) text.now result }
{
    let rest = past_part(&key.name, text)?;
    let rest = past_next(&key.token, rest)?;
    let rest = past_next(&key.language, rest)?;
    past_next(&key.architecture, rest)
}

// Whether the text is a part.
fn is_within(text: &Text, limit: usize) -> bool
    ensures { IsTrue result ↔ IsPart limit text.now }
{
    let length = text.as_bytes().len();
    0 < length && length <= limit
}

/// Keys of one text are one key: no two keys share a text.
pub fn one_text_one_key()
    ensures { (a b : Key) → IsKey a → IsKey b → key_text a ≡ key_text b → a ≡ b }
{}
