// The head of a request.
ghost use Rattle.std.specs.Prelude.{◌≡◌, ◌↔◌, Some, Err, IfOk, IsUtf8};
ghost use Rattle.httparse.specs.Grammar.{RequestHead};
ghost use Rattle.http_plain.specs.Asked.{AsksBy, IsNoRequest, IsRequest};
ghost use Rattle.http_plain.specs.declared.request.RequestFault.TheVariants.{Malformed, Memory as no_memory};

use crate::borrowed_request::borrow_request;
use small_types::Text;
use std::alloc::{AllocError, Global};
use std::error::Error;
use std::fmt;

/// What the head of a request says.
#[derive(Drop, Debug)]
pub struct Asked {
    pub method: Text,
    pub target: Text,
    /// The minor version: 1 for HTTP/1.1.
    pub version: u8,
    /// How many `Host` fields there are.
    pub hosts: u32,
}

/// Why a request was not read.
#[derive(Clone, Copy, Debug, PartialEq, Eq)]
pub enum RequestFault {
    /// The bytes are no request head of at most 64 fields.
    Malformed,
    /// There was no memory for the method or the target.
    Memory,
}

impl fmt::Display for RequestFault {
    fn fmt<W: fmt::Write>(&self, f: &mut fmt::Formatter<W>) -> fmt::Result {
        match self {
            RequestFault::Malformed => write!(f, "the request is malformed"),
            RequestFault::Memory => write!(f, "out of memory"),
        }
    }
}

impl Error for RequestFault {}

impl From<AllocError> for RequestFault {
    ghost use Rattle.std.specs.Prelude.{◌≡◌};
    ghost use Rattle.http_plain.specs.declared.request.RequestFault.TheVariants.{Memory};

    ghost from_gives = { λ _ e. e ≡ Memory };

    fn from(_: AllocError) -> RequestFault {
        RequestFault::Memory
    }
}

// A copy of bytes that are UTF-8, as a text.
fn copy_text(alloc: Global, bytes: &[u8]) -> Result<Text, AllocError>
    requires { IsUtf8 bytes.now }
    ensures { IfOk result (λ text. text ≡ bytes.now) }
{
    let Ok(text) = str::from_utf8(bytes) else {
        unreachable!();
    };
    Ok(Text::from_string(String::from_str(alloc, text)?))
}

/// Reads one request head of at most 64 fields, which the bytes are as a whole. `Malformed` comes exactly where they are
/// none, so there may be no memory only for what a head says.
pub fn read_request(alloc: Global, bytes: &[u8]) -> Result<Asked, RequestFault>
    ensures asked { IfOk result (λ asked. AsksBy bytes.now (Some asked)) }
    ensures malformed { result ≡ Err Malformed ↔ IsNoRequest bytes.now }
    ensures memory { result ≡ Err no_memory → (h : RequestHead) × IsRequest bytes.now h }
{
    let Some(asked) = borrow_request(bytes) else {
        return Err(RequestFault::Malformed);
    };
    Ok(Asked {
        method: copy_text(alloc, asked.method)?,
        target: copy_text(alloc, asked.target)?,
        version: asked.version,
        hosts: asked.hosts,
    })
}
