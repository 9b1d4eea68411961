ghost use Rattle.std.specs.Prelude.{◌≡◌, ◌↔◌, ◌==◌, ◌&&◌, Ok, Err, Some, None, MatchOption, slice_get, position, IfOk, IsTrue, length, nat_lt, if◌then◌else◌, nat_le, ◌≤◌, string_bytes};
ghost use Rattle.std.proofs.Common.{rules, refl};
ghost use Rattle.std.specs.Cmp.Lexicographic.{slice_cmp, nat_list_cmp_total, texts_po, texts_ties};
ghost use Rattle.std.specs.Cmp.Rules.{comparing};
ghost use Rattle.std.specs.List.{list_all};
ghost use Rattle.std.specs.Ordering.{as_partial_cmp, nat_cmp};
ghost use Rattle.arrayvec.specs.ArrayVec.{array_vec_len};
ghost use Rattle.std.specs.Str.{IsUtf8, is_utf8};
ghost use Rattle.small_types.specs.declared.name.NameFault.TheVariants.{Bad, Memory};
ghost use Rattle.small_types.specs.Name.{name_text, name_parts, is_name_byte, is_name_part, is_name, IsName, name_of, IsBelowPre, Gives};
ghost use lib.Pointwise.{pointwise};

use crate::limits::NAME_LIMIT;
use crate::{CopyFault, Duplicate};
use arrayvec::ArrayVec;
use std::alloc::{AllocError, Global};
use std::cmp::Ordering;
use std::error::Error;
use std::fmt;
use std::marker::Model;

/// The name of a file: parts with slashes between them, none of them `.` or `..`, in 1 to 240 bytes of UTF-8 without
/// control bytes, `:` and backslashes. Contracts see it as the list of its bytes.
#[derive(Drop, Debug)]
pub struct Name {
    held: String,
}

impl Model for Name {
    ghost use Rattle.std.specs.Prelude.{ℕ, List, string_bytes};

    ghost Value = { List ℕ };

    ghost use Rattle.small_types.specs.Name.{IsName};

    ghost view = { λ n. string_bytes n.held };

    ghost invariant = { λ n. IsName (string_bytes n.held) };
}

/// Why bytes are no name.
#[derive(Clone, Copy, Debug, PartialEq, Eq)]
pub enum NameFault {
    /// They are empty, over 240 or no UTF-8, or a part or a byte of them is none of a name.
    Bad,
    /// There was no memory for the name.
    Memory,
}

impl fmt::Display for NameFault {
    fn fmt<W: fmt::Write>(&self, f: &mut fmt::Formatter<W>) -> fmt::Result {
        match self {
            NameFault::Bad => write!(f, "no file name"),
            NameFault::Memory => write!(f, "out of memory"),
        }
    }
}

impl Error for NameFault {}

impl From<AllocError> for NameFault {
    ghost from_gives = { λ _ e. e ≡ Memory };

    fn from(_: AllocError) -> NameFault {
        NameFault::Memory
    }
}

// The byte, or a slash for a backslash.
fn with_slash(byte: u8) -> u8
    ensures { result ≡ (if byte == 92 then 47 else byte) }
{
    if byte == b'\\' { b'/' } else { byte }
}

// Whether a name may have the byte.
fn is_fit_byte(byte: u8) -> bool
    ensures { result ≡ is_name_byte byte }
{
    byte >= 32 && byte != 127 && byte != b':' && byte != b'\\'
}

// Whether a name may have the part.
fn is_fit_part(part: &[u8]) -> bool
    ensures { result ≡ is_name_part part.now }
{
    !part.is_empty() && part != b".".as_slice() && part != b"..".as_slice()
}

// Whether a name may have each of the bytes.
fn are_fit_bytes(text: &[u8]) -> bool
    ensures { result ≡ list_all is_name_byte text.now }
{
    text.iter().all(|b| is_fit_byte(*b))
}

// Whether a name may have each of the parts.
fn are_fit_parts(text: &[u8]) -> bool
    ensures { result ≡ list_all is_name_part (name_parts text.now) }
{
    text.split(|b| *b == b'/').all(|part| is_fit_part(part))
}

// Whether the text is a name where it is UTF-8.
fn is_fit(text: &[u8]) -> bool
    ensures { result ≡ (nat_lt 0 (length text.now) && nat_le (length text.now) NAME_LIMIT
        && list_all is_name_byte text.now && list_all is_name_part (name_parts text.now)) }
{
    !text.is_empty() && text.len() <= NAME_LIMIT && are_fit_bytes(text) && are_fit_parts(text)
}

// Whether the bytes are UTF-8.
#[tactic(auto, using(crate::proofs::Spelled::spelled, crate::proofs::Spelled::unspelled))]
fn is_text(bytes: &[u8]) -> bool
    ensures { result ≡ is_utf8 bytes.now }
{
    str::from_utf8(bytes).is_ok()
}

// Whether the text is a name.
#[tactic(auto, unfolding(crate::specs::Name::is_name))]
fn is_whole(text: &[u8]) -> bool
    ensures { result ≡ is_name text.now }
{
    is_fit(text) && is_text(text)
}

// The bytes with slashes for backslashes, in place.
fn with_slashes_here(bytes: &[u8]) -> ArrayVec<u8, NAME_LIMIT>
    requires { length bytes.now ≤ NAME_LIMIT }
    ensures { result.items ≡ name_text bytes.now }
{
    let mut text = ArrayVec::new();
    for byte in bytes {
        text.push(with_slash(*byte));
    }
    text
}

/// Whether the bytes spell a name, so that `Name::read` gives it where there is memory. It takes none itself.
#[tactic(auto, using(crate::proofs::Spelled::no_long_name))]
pub fn is_name(bytes: &[u8]) -> bool
    ensures { result ≡ is_name (name_text bytes.now) }
{
    if bytes.len() > NAME_LIMIT {
        return false;
    }
    is_whole(&with_slashes_here(bytes))
}

// The text, where it is a name. It looks once whether the bytes are UTF-8.
fn spelled_by(text: &[u8]) -> Option<&str>
    ensures { MatchOption result (¬ IsName text.now)
        (λ t. (t.now ≡ text.now) × IsName text.now) }
{
    if !is_fit(text) {
        return None;
    }
    match str::from_utf8(text) {
        Ok(text) => Some(text),
        Err(_) => None,
    }
}

// The name that has this text.
fn name_with(alloc: Global, text: &str) -> Result<Name, AllocError>
    requires { IsName text.now }
    ensures { IfOk result (λ name. name ≡ text.now) }
{
    let held = String::from_str(alloc, text)?;
    Ok(Name { held })
}

// Where the first slash stands.
fn slash_of(text: &[u8]) -> Option<usize>
    ensures { result ≡ position (λ b. b == 47) text.now }
{
    text.iter().position(|b| *b == b'/')
}

// The first part of the text.
fn first_part(text: &[u8]) -> &[u8]
    ensures { slice_get (name_parts text.now) 0 ≡ Some result.now }
{
    match slash_of(text) {
        Some(place) => &text[..place],
        None => text,
    }
}

impl Name {
    /// The name that the bytes spell: 1 to 240 bytes of UTF-8. A backslash is read as `/`. Each part between slashes
    /// is non-empty and neither `.` nor `..`, and no byte is below 32, is 127 or is `:`. `Bad` comes exactly where
    /// the bytes are no name; `Memory` may come at any name. What was read is read again as itself.
    #[tactic(auto, unfolding(crate::specs::Name::name_of))]
    pub fn read(alloc: Global, bytes: &[u8]) -> Result<Name, NameFault>
        ensures exact { Gives result (name_of bytes.now) }
        ensures name { IfOk result IsName }
        ensures again { IfOk result (λ name. name_of name ≡ Ok name) }
        ensures memory { result ≡ Err Memory → IsTrue (is_name (name_text bytes.now)) }
    {
        if bytes.len() > NAME_LIMIT {
            return Err(NameFault::Bad);
        }
        let text = with_slashes_here(bytes);
        match spelled_by(&text) {
            Some(text) => Ok(name_with(alloc, text)?),
            None => Err(NameFault::Bad),
        }
    }

    /// The name, to be read.
    pub fn as_str(&self) -> &str
        ensures value { result.now ≡ self.now }
        ensures utf8 { IsUtf8 result.now }
        ensures name { IsName self.now }
    {
        self.held.as_str()
    }

    /// Its bytes, to be read.
    pub fn as_bytes(&self) -> &[u8]
        ensures value { result.now ≡ self.now }
        ensures utf8 { IsUtf8 result.now }
        ensures name { IsName self.now }
    {
        self.held.as_str().as_bytes()
    }

    /// Whether its first part is `.pre`.
    pub fn is_below_pre(&self) -> bool
        ensures { IsTrue result ↔ IsBelowPre self.now }
    {
        first_part(self.as_bytes()) == b".pre".as_slice()
    }
}

impl PartialEq for Name {
    ghost eq = { pointwise ◌==◌ };

    ghost laws = { Prim.search (comparing, rules) };

    fn eq(&self, other: &Name) -> bool {
        self.as_bytes() == other.as_bytes()
    }
}

impl Eq for Name {
    ghost laws = { Prim.search (comparing, rules) };
}

impl PartialOrd for Name {
    ghost partial_cmp = { as_partial_cmp (slice_cmp nat_cmp) };

    ghost laws = { texts_po };

    fn partial_cmp(&self, other: &Name) -> Option<Ordering> {
        Some(self.cmp(other))
    }
}

impl Ord for Name {
    ghost cmp = { slice_cmp nat_cmp };

    ghost total = { nat_list_cmp_total };

    ghost matches_partial_cmp = { λ x y. refl };

    ghost matches_eq = { texts_ties };

    fn cmp(&self, other: &Name) -> Ordering {
        self.as_str().cmp(other.as_str())
    }
}

impl Duplicate for Name {
    fn copy(&self, alloc: Global) -> Result<Self, CopyFault> {
        Ok(Name {
            held: String::from_str(alloc, self.as_str())?,
        })
    }
}
