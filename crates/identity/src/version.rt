ghost use Rattle.std.specs.Prelude.{◌≡◌, ◌↔◌, ◌+◌, ◌≤◌, [], ◌∷◌, ◌++◌, length, take, drop, decimal, IsTrue, IfOk, Ok, Some, None, ◌<◌, nat_lt, if◌then◌else◌};
ghost use Rattle.std.specs.Ordering.{is_lt};
ghost use Rattle.std.specs.Char.{is_ascii_digit};
ghost use Rattle.std.specs.List.{list_all};
ghost use Rattle.std.specs.Str.Parse.{digits_value};
ghost use Rattle.identity.specs.Version.{IsVersion, IsBelow, version_of, version_text, version_cmp, greater_of, number_of, version_of_parts};

use crate::parts::{FourParts, four_parts};
use itoa::Buffer;
use small_types::{PrintFault, Text, are_digits, parse_digits};
use std::alloc::Global;
use std::error::Error;
use std::fmt;

/// The most digits of a number of a version, where it is read.
pub const VERSION_DIGIT_LIMIT: usize = 5;

/// The greatest number of a version.
pub const VERSION_NUMBER_LIMIT: u16 = 65_535;

/// The numbers that versions are limited by.
pub fn version_limits_are()
    ensures { (VERSION_DIGIT_LIMIT ≡ 5) × (VERSION_NUMBER_LIMIT ≡ 65_535) }
{}

/// A version of four numbers, ordered by its numbers from the left.
#[derive(Clone, Copy, Debug, PartialEq, Eq, PartialOrd, Ord)]
pub struct Version {
    pub a: u16,
    pub b: u16,
    pub c: u16,
    pub d: u16,
}

/// Why bytes are no version.
#[derive(Clone, Copy, Debug, PartialEq, Eq)]
pub enum VersionFault {
    /// There are not four parts between the dots.
    PartCount,
    /// The first bad part, counted from 1, is empty or has a byte that is no digit.
    NotDigits { part: u8 },
    /// The first bad part, counted from 1, has more than five digits or is more than 65,535.
    TooLarge { part: u8 },
}

impl fmt::Display for VersionFault {
    fn fmt<W: fmt::Write>(&self, f: &mut fmt::Formatter<W>) -> fmt::Result {
        match self {
            VersionFault::PartCount => write!(f, "not four numbers between dots"),
            VersionFault::NotDigits { part } => write!(f, "part {part} is no number"),
            VersionFault::TooLarge { part } => {
                write!(f, "part {part} is over {VERSION_NUMBER_LIMIT}")
            }
        }
    }
}

impl Error for VersionFault {}

// The number that digits write, where it fits.
fn parse_short(digits: &[u8]) -> Option<u16>
    requires digits { IsTrue (list_all is_ascii_digit digits.now) }
    requires some { 0 < length digits.now }
    ensures { result
        ≡ (if nat_lt VERSION_NUMBER_LIMIT (digits_value 10 digits.now) then None
        else Some (digits_value 10 digits.now)) }
{
    match parse_digits(digits) {
        Some(number) if number <= u64::from(VERSION_NUMBER_LIMIT) => Some(number as u16),
        _ => None,
    }
}

// The number that stands as that part.
#[tactic(auto, unfolding(crate::specs::Version::number_of))]
fn read_number(part: u8, bytes: &[u8]) -> Result<u16, VersionFault>
    ensures { result ≡ number_of part bytes.now }
{
    if bytes.is_empty() || !are_digits(bytes) {
        return Err(VersionFault::NotDigits { part });
    }
    if bytes.len() > VERSION_DIGIT_LIMIT {
        return Err(VersionFault::TooLarge { part });
    }
    parse_short(bytes).ok_or(VersionFault::TooLarge { part })
}

// The version of the four parts.
#[tactic(auto, unfolding(crate::specs::Version::version_of_parts))]
fn read_parts(parts: &FourParts) -> Result<Version, VersionFault>
    ensures { result
        ≡ version_of_parts (parts.now.first.now ∷ parts.now.second.now ∷ parts.now.third.now
        ∷ parts.now.fourth.now ∷ []) }
{
    let a = read_number(1, parts.first)?;
    let b = read_number(2, parts.second)?;
    let c = read_number(3, parts.third)?;
    let d = read_number(4, parts.fourth)?;
    Ok(Version { a, b, c, d })
}

// Writes the number at a place, and answers where it ends.
fn write_number(out: &mut [u8], place: usize, number: u16) -> usize
    requires { place + 5 ≤ length out.old }
    ensures end { result ≡ place + length (decimal number) }
    ensures short { result ≤ place + 5 }
    ensures text { take result out.new ≡ take place out.old ++ decimal number }
    ensures rest { drop result out.new ≡ drop result out.old }
{
    let mut buffer = Buffer::new();
    let digits = buffer.format(number).as_bytes();
    let end = place + digits.len();
    out[place..end].copy_from_slice(digits);
    end
}

impl Version {
    /// The version that the bytes spell: four numbers with dots between them, each of one to five digits and at
    /// most 65,535. It takes no memory. `PartCount` comes exactly where there are not four parts; else the error
    /// names the first bad part.
    pub fn read(bytes: &[u8]) -> Result<Version, VersionFault>
        ensures { result ≡ version_of bytes.now }
    {
        let Some(parts) = four_parts(bytes, b'.') else {
            return Err(VersionFault::PartCount);
        };
        read_parts(&parts)
    }

    /// Its text: the four numbers without leading zeros, with dots between them. It fails only for want of memory.
    #[tactic(auto, unfolding(crate::specs::Version::version_text))]
    pub fn print(&self, alloc: Global) -> Result<Text, PrintFault>
        ensures text { IfOk result (λ t. t ≡ version_text self.now) }
        ensures again { IfOk result (λ t. version_of t ≡ Ok self.now) }
    {
        let Version { a, b, c, d } = *self;
        let text = format!(in alloc; "{a}.{b}.{c}.{d}")?;
        Ok(Text::from_string(text))
    }

    /// Writes its text to the front of the buffer, leaves the rest, and answers the text's length, at most 23
    /// bytes. It takes no memory.
    pub fn write(&self, out: &mut [u8]) -> usize
        requires { 23 ≤ length out.old }
        ensures length { result ≡ length (version_text self.now) }
        ensures short { result ≤ 23 }
        ensures text { out.new ≡ version_text self.now ++ drop result out.old }
    {
        let end = write_number(out, 0, self.a);
        let end = write_dotted(out, end, self.b);
        let end = write_dotted(out, end, self.c);
        write_dotted(out, end, self.d)
    }

    /// Whether it is below the other: of the first numbers that differ, from the left, its own is smaller.
    pub fn is_below(&self, other: &Version) -> bool
        ensures order { IsTrue result ↔ IsBelow self.now other.now }
        ensures compared { result ≡ is_lt (version_cmp self.now other.now) }
    {
        self < other
    }

    /// The greater of the two: the other version where this one is below it.
    pub fn greater(self, other: Version) -> Version
        ensures value { result ≡ greater_of self other }
        ensures old { ¬ IsBelow result self }
        ensures new { ¬ IsBelow result other }
    {
        if self.is_below(&other) { other } else { self }
    }
}

// Writes a dot and the number at a place, and answers where they end.
fn write_dotted(out: &mut [u8], place: usize, number: u16) -> usize
    requires { place + 6 ≤ length out.old }
    ensures end { result ≡ place + 1 + length (decimal number) }
    ensures short { result ≤ place + 6 }
    ensures text { take result out.new ≡ take place out.old ++ 46 ∷ decimal number }
    ensures rest { drop result out.new ≡ drop result out.old }
{
    out[place] = b'.';
    write_number(out, place + 1, number)
}
