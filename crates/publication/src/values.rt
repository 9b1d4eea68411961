// The values of the words behind `publish`.
ghost use Rattle.std.specs.Prelude.{◌≡◌, ◌≤◌, ℕ, List, None, Some, true, false, length, take, drop, IfOk, IfErr, IfSome, IfNone};
ghost use Rattle.std.specs.List.{list_all};
ghost use Rattle.std.specs.Str.{is_utf8};
ghost use Rattle.manifest_tree.specs.Lexis.{allowed};
ghost use Rattle.manifests.specs.Facts.{IsProvider, IsRule, IsValue};
ghost use Rattle.manifest_tree.specs.WrittenText.{is_content};
ghost use Rattle.publication.specs.Words.{age_of, check_of, file_of, group_of, number_of, provider_of, publisher_of, release_of, unit_of};
ghost use Rattle.publication.specs.declared.values.WordFault.TheVariants.{Unreadable, Memory};

use identity::Version;
use manifests::{AGE_DIGIT_LIMIT, AGE_LIMIT, AgeUnit, Rule, UrlFault, target_of};
use small_types::limits::NAME_LIMIT;
use small_types::{CopyFault, Name, NameFault, Text, read_decimal};
use std::alloc::{AllocError, AllocFailed, Global};
use std::error::Error;
use std::fmt;

/// Why words were not read.
#[derive(Clone, Copy, Debug, PartialEq, Eq)]
pub enum WordFault {
    /// A word is not of its form.
    Unreadable,
    /// There was no memory.
    Memory,
}

impl fmt::Display for WordFault {
    fn fmt<W: fmt::Write>(&self, f: &mut fmt::Formatter<W>) -> fmt::Result {
        match self {
            WordFault::Unreadable => write!(f, "a word is not of its form"),
            WordFault::Memory => write!(f, "out of memory"),
        }
    }
}

impl Error for WordFault {}

impl From<AllocError> for WordFault {
    ghost from_gives = { λ _ e. e ≡ Memory };

    fn from(_: AllocError) -> WordFault {
        WordFault::Memory
    }
}

impl<T: Drop> From<AllocFailed<T>> for WordFault {
    ghost from_gives = { λ _ e. e ≡ Memory };

    fn from(_: AllocFailed<T>) -> WordFault {
        WordFault::Memory
    }
}

impl From<CopyFault> for WordFault {
    ghost from_gives = { λ _ e. e ≡ Memory };

    fn from(_: CopyFault) -> WordFault {
        WordFault::Memory
    }
}

// Whether a manifest may have the byte.
#[tactic(auto, unfolding(manifest_tree::specs::Lexis::allowed))]
fn is_allowed(byte: u8) -> bool
    ensures { result ≡ allowed byte }
{
    byte >= 32 || byte == 9 || byte == 10 || byte == 13
}

// Whether a manifest may have each of the bytes.
pub(crate) fn is_allowed_text(bytes: &[u8]) -> bool
    ensures { result ≡ is_content bytes.now }
{
    bytes.iter().all(|b| is_allowed(*b))
}

// The bytes as text.
#[tactic(auto, using(small_types::proofs::Spelled::spelled, small_types::proofs::Spelled::unspelled))]
pub(crate) fn text(bytes: &[u8]) -> Result<&str, WordFault>
    ensures value { IfOk result (λ s. s.now ≡ bytes.now) }
    ensures text { IfOk result (λ s. is_utf8 bytes.now ≡ true) }
    ensures none { IfErr result (λ e. is_utf8 bytes.now ≡ false) }
    ensures fault { IfErr result (λ e. e ≡ Unreadable) }
{
    match str::from_utf8(bytes) {
        Ok(text) => Ok(text),
        Err(_) => Err(WordFault::Unreadable),
    }
}

// The publisher.
#[tactic(auto, using(small_types::proofs::Spelled::spelled), unfolding(crate::specs::Words::publisher_of))]
pub(crate) fn read_publisher(alloc: Global, word: &str) -> Result<Text, WordFault>
    ensures value { IfOk result (λ t. publisher_of word.now ≡ Some t) }
    ensures fit { IfOk result (IsValue 0 NAME_LIMIT) }
    ensures none { IfErr result (λ e. e ≡ Unreadable → publisher_of word.now ≡ None) }
{
    if word.len() > NAME_LIMIT || !is_allowed_text(word.as_bytes()) {
        return Err(WordFault::Unreadable);
    }
    Ok(Text::from_string(String::from_str(alloc, word)?))
}

// A group.
#[tactic(auto, unfolding(crate::specs::Words::group_of))]
pub(crate) fn read_group(alloc: Global, bytes: &[u8]) -> Result<Text, WordFault>
    ensures value { IfOk result (λ t. group_of bytes.now ≡ Some t) }
    ensures fit { IfOk result (IsValue 1 NAME_LIMIT) }
    ensures none { IfErr result (λ e. e ≡ Unreadable → group_of bytes.now ≡ None) }
{
    if bytes.is_empty() || bytes.len() > NAME_LIMIT || !is_allowed_text(bytes) {
        return Err(WordFault::Unreadable);
    }
    let group = text(bytes)?;
    Ok(Text::from_string(String::from_str(alloc, group)?))
}

// A file name.
pub(crate) fn read_file(alloc: Global, word: &[u8]) -> Result<Name, WordFault>
    ensures value { IfOk result (λ n. file_of word.now ≡ Some n) }
    ensures none { IfErr result (λ e. e ≡ Unreadable → file_of word.now ≡ None) }
{
    match Name::read(alloc, word) {
        Ok(name) => Ok(name),
        Err(NameFault::Bad) => Err(WordFault::Unreadable),
        Err(NameFault::Memory) => Err(WordFault::Memory),
    }
}

// A version.
pub(crate) fn read_release(word: &[u8]) -> Result<Version, WordFault>
    ensures value { IfOk result (λ v. release_of word.now ≡ Some v) }
    ensures none { IfErr result (λ e. release_of word.now ≡ None) }
    ensures fault { IfErr result (λ e. e ≡ Unreadable) }
{
    match Version::read(word) {
        Ok(version) => Ok(version),
        Err(_) => Err(WordFault::Unreadable),
    }
}

// The unit of an age.
#[tactic(auto, unfolding(crate::specs::Words::unit_of))]
fn read_unit(letter: &[u8]) -> Option<AgeUnit>
    ensures { result ≡ unit_of letter.now }
{
    if letter == b"h".as_slice() {
        return Some(AgeUnit::Hours);
    }
    if letter == b"d".as_slice() {
        return Some(AgeUnit::Days);
    }
    if letter == b"w".as_slice() {
        return Some(AgeUnit::Weeks);
    }
    None
}

// How many units an age has.
#[tactic(auto, unfolding(crate::specs::Words::number_of))]
fn read_number(digits: &[u8]) -> Option<u64>
    ensures value { result ≡ number_of digits.now }
    ensures few { IfSome result (λ n. n ≤ AGE_LIMIT) }
{
    if digits.len() > AGE_DIGIT_LIMIT {
        return None;
    }
    read_decimal(digits)
}

// An age.
#[tactic(auto, unfolding(crate::specs::Words::age_of))]
fn read_age(word: &[u8]) -> Option<Rule>
    ensures value { result ≡ age_of word.now }
    ensures fit { IfSome result IsRule }
{
    let (digits, letter) = word.split_at(word.len().saturating_sub(1));
    let number = read_number(digits)?;
    let unit = read_unit(letter)?;
    Some(Rule::Age {
        seconds: number * unit.seconds(),
    })
}

// When a client looks for a new version.
#[tactic(auto, unfolding(crate::specs::Words::check_of))]
pub(crate) fn read_check(word: &[u8]) -> Option<Rule>
    ensures value { result ≡ check_of word.now }
    ensures fit { IfSome result IsRule }
{
    if word == b"none".as_slice() {
        return Some(Rule::Never);
    }
    if word == b"before".as_slice() {
        return Some(Rule::Before);
    }
    read_age(word)
}

// The address that updates come from.
#[tactic(auto, unfolding(crate::specs::Words::provider_of))]
pub(crate) fn read_provider(alloc: Global, word: &str) -> Result<Text, WordFault>
    ensures value { IfOk result (λ t. provider_of word.now ≡ Some t) }
    ensures fit { IfOk result IsProvider }
    ensures none { IfErr result (λ e. e ≡ Unreadable → provider_of word.now ≡ None) }
{
    if !is_allowed_text(word.as_bytes()) {
        return Err(WordFault::Unreadable);
    }
    match target_of(alloc, word.as_bytes()) {
        Ok(_) => Ok(Text::from_string(String::from_str(alloc, word)?)),
        Err(UrlFault::Memory) => Err(WordFault::Memory),
        Err(_) => Err(WordFault::Unreadable),
    }
}
