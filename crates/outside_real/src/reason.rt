// Why a device failed.
use arrayvec::ArrayString;
use outside::Failed;
use std::fmt::Write;
use std::str::EscapeDebug;
use std::{fmt, io};

// The longest text of an error, which has at most 256 bytes of the system's message.
const LONGEST: usize = 512;

/// Why a device failed: what the system, or the device itself, says of the call.
#[derive(Clone, Copy, Debug)]
pub struct Reason(io::Error);

impl From<io::Error> for Reason {
    fn from(error: io::Error) -> Reason {
        Reason(error)
    }
}

// The text of an error of the system without its number.
fn without_number(text: &str) -> &str {
    match text.split_once(" (os error ") {
        Some((words, _)) => words,
        None => text,
    }
}

impl fmt::Display for Reason {
    fn fmt<W: fmt::Write>(&self, f: &mut fmt::Formatter<W>) -> fmt::Result {
        let error = self.0;
        let mut text = ArrayString::<LONGEST>::new();
        write!(text, "{error}")?;
        f.pad(without_number(text.as_str()))
    }
}

/// A device that failed, by the name that it is known by, and why it did. It is one line: `NAME: REASON`, where the
/// name's control characters are escaped.
#[derive(Clone, Copy, Debug)]
pub struct Failure<'a> {
    name: &'a str,
    why: Option<&'a Reason>,
}

impl<'a> Failure<'a> {
    /// The device of this name, and why it failed, if it did.
    pub fn new(name: &'a str, why: Option<&'a Reason>) -> Failure<'a> {
        Failure { name, why }
    }

    /// The name, as it is written.
    pub fn name(&self) -> EscapeDebug<'_> {
        self.name.escape_debug()
    }

    /// This device where it failed, and else the other one.
    pub fn or(self, other: Failure<'a>) -> Failure<'a> {
        if self.why.is_some() { self } else { other }
    }
}

impl fmt::Display for Failure<'_> {
    fn fmt<W: fmt::Write>(&self, f: &mut fmt::Formatter<W>) -> fmt::Result {
        let name = self.name();
        match self.why {
            Some(reason) => write!(f, "{name}: {reason}"),
            None => write!(f, "{name}: failed"),
        }
    }
}

// Keeps the reason where it is the first.
pub(crate) fn keep(why: &mut Option<Reason>, error: io::Error) -> Failed {
    if why.is_none() {
        *why = Some(Reason(error));
    }
    Failed
}

// The end of a call that promises nothing of what it gives. Where it failed the first reason is kept.
pub(crate) fn kept<T: Drop>(why: &mut Option<Reason>, done: io::Result<T>) -> Result<T, Failed> {
    match done {
        Ok(value) => Ok(value),
        Err(error) => Err(keep(why, error)),
    }
}
