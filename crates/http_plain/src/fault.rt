// Why an exchange gives no body.
use std::alloc::AllocError;
use std::error::Error;
use std::fmt;

/// Why an exchange gives no body.
#[derive(Clone, Copy, Debug, PartialEq, Eq)]
pub enum ExchangeFault {
    /// Connecting or receiving failed: the count of the wire rose.
    ReadFault,
    /// Sending failed: the count of the wire rose.
    WriteFault,
    /// The answer has fewer than 65,536 bytes and ended before its head did.
    Cut,
    /// The first 65,536 bytes hold no end of a head.
    HeadTooLong,
    /// The head is no response head of at most 64 fields, or it names two lengths that differ, or one
    /// that is not 1 to 19 digits.
    Malformed,
    /// The status is 404.
    Missing,
    /// The status is neither 200 nor 404.
    Status { code: u16 },
    /// There is a `Transfer-Encoding`, or a `Content-Encoding` other than `identity`.
    Encoded,
    /// No length is named.
    NoLength,
    /// There was no memory for the request or for the first bytes of a body. Nothing was asked.
    Memory,
}

impl fmt::Display for ExchangeFault {
    fn fmt<W: fmt::Write>(&self, f: &mut fmt::Formatter<W>) -> fmt::Result {
        match self {
            ExchangeFault::ReadFault => write!(f, "connecting or receiving failed"),
            ExchangeFault::WriteFault => write!(f, "sending failed"),
            ExchangeFault::Cut => write!(f, "the answer ends before its head does"),
            ExchangeFault::HeadTooLong => write!(f, "the head of the answer is too long"),
            ExchangeFault::Malformed => write!(f, "the head of the answer is malformed"),
            ExchangeFault::Missing => write!(f, "nothing is found there"),
            ExchangeFault::Status { code } => write!(f, "the answer has the status {code}"),
            ExchangeFault::Encoded => write!(f, "the answer is encoded"),
            ExchangeFault::NoLength => write!(f, "the answer names no length"),
            ExchangeFault::Memory => write!(f, "out of memory"),
        }
    }
}

impl Error for ExchangeFault {}

impl From<AllocError> for ExchangeFault {
    ghost use Rattle.std.specs.Prelude.{◌≡◌};
    ghost use Rattle.http_plain.specs.declared.fault.ExchangeFault.TheVariants.{Memory};

    ghost from_gives = { λ _ e. e ≡ Memory };

    fn from(_: AllocError) -> ExchangeFault {
        ExchangeFault::Memory
    }
}
