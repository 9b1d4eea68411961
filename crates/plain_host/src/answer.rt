// The answer to a request, before it is sent.
ghost use Rattle.std.specs.Prelude.{◌≡◌, ◌++◌, ◌∷◌, [], List, codes, Some, IfOk, OnOk, OnErr, nat_eq};
ghost use Rattle.std.specs.List.{ends_with};
ghost use Rattle.folders.specs.declared.folder.Held.{Held};
ghost use Rattle.folders.specs.Folder.{FailsCounted};
ghost use Rattle.http_plain.specs.declared.demand.Demand.TheVariants.{File};
ghost use Rattle.http_plain.specs.Served.{answer_head, found_answer, IsFile, type_of as type_at, type_line};
ghost use Rattle.plain_host.specs.Prepared.{ended, closing, answer_in, Answers, AnswersFront, FrontAsksFile, served_by};

use crate::fault::Served;
use folders::{Folder, FolderFault};
use http_plain::{Demand, Refusal, STATUS_OK, demand_in};
use itoa::Buffer;
use small_types::{Bytes, Name};
use std::alloc::{AllocError, Global};

/// The most bytes of a file that go out with the head before them, in one call: to copy so few costs less than a second
/// call.
const SHORT_FILE: usize = 16_384;

/// An answer before it is sent.
#[derive(Drop, Debug)]
pub(crate) enum Prepared {
    /// There is none.
    Nothing,
    /// The answer to a refusal.
    Refused { why: Refusal },
    /// The answer with a file: what goes out first, and whether the file's bytes follow it.
    Found { first: Bytes, follows: bool },
}

// Whether the name ends so.
fn has_end(name: &[u8], end: &[u8]) -> bool
    ensures { result ≡ ends_with nat_eq name.now end.now }
{
    name.ends_with(end)
}

// The type of a file, by the end of its name.
fn type_of(name: &Name) -> &'static [u8]
    ensures { result.now ≡ type_at name.now }
{
    let name = name.as_bytes();
    if has_end(name, b".application") {
        return b"application/x-ms-application";
    }
    if has_end(name, b".manifest") {
        return b"application/x-ms-manifest";
    }
    b"application/octet-stream"
}

// Adds a line of a field.
fn push_line(text: &mut Vec<u8>, name: &[u8], value: &[u8]) -> Result<(), AllocError>
    ensures { OnOk result (text.new.items ≡ text.old.items ++ ended (name.now ++ value.now)) }
{
    text.extend_from_slice(name)?;
    text.extend_from_slice(value)?;
    text.extend_from_slice(b"\r\n")?;
    Ok(())
}

// Adds the last lines of a head, and its end.
fn end_head(text: &mut Vec<u8>, count: usize) -> Result<(), AllocError>
    ensures { OnOk result (text.new.items ≡ text.old.items ++ closing count) }
{
    let mut buffer = Buffer::new();
    push_line(text, b"Content-Length: ", buffer.format(count).as_bytes())?;
    push_line(text, b"Connection: ", b"close")?;
    text.extend_from_slice(b"\r\n")?;
    Ok(())
}

// The head before a file of so many bytes.
fn file_head(alloc: Global, name: &Name, count: usize) -> Result<Vec<u8>, AllocError>
    ensures { IfOk result (λ text. text.items
        ≡ answer_head STATUS_OK (codes "OK") (type_line name.now ∷ []) count) }
{
    let mut text = Vec::from_slice(alloc, b"HTTP/1.1 200 OK\r\n")?;
    push_line(&mut text, b"Content-Type: ", type_of(name))?;
    end_head(&mut text, count)?;
    Ok(text)
}

// The answer with a file, or with its head alone.
fn prepare_found(
    alloc: Global,
    name: &Name,
    whole: bool,
    file: &[u8],
) -> Result<Prepared, AllocError>
    ensures { IfOk result (λ p.
        answer_in p file.now ≡ found_answer name.now whole (Some file.now)) }
{
    let mut first = file_head(alloc, name, file.len())?;
    if !whole {
        return Ok(Prepared::Found {
            first: Bytes::from_vec(first),
            follows: false,
        });
    }
    if file.len() > SHORT_FILE {
        return Ok(Prepared::Found {
            first: Bytes::from_vec(first),
            follows: true,
        });
    }
    first.extend_from_slice(file)?;
    Ok(Prepared::Found {
        first: Bytes::from_vec(first),
        follows: false,
    })
}

// The answer to a request for a file, which is read into the buffer.
fn prepare_file<F: Folder>(
    alloc: Global,
    folder: &mut F,
    name: &Name,
    whole: bool,
    file: &mut Bytes,
) -> Result<Prepared, FolderFault>
    ensures told { F.tells → IfOk result (λ p.
        Answers (F.held folder.old) (File name.now whole) p file.new) }
    ensures some { IfOk result (λ p. (files : List Held)
        × Answers files (File name.now whole) p file.new) }
    ensures held { F.tells → F.held folder.new ≡ F.held folder.old }
    ensures cause { FailsCounted (F.count folder.old) (F.count folder.new) result }
{
    match folder.get_into(alloc, name, file) {
        Ok(true) => Ok(prepare_found(alloc, name, whole, file.as_slice())?),
        Ok(false) => Ok(Prepared::Refused {
            why: Refusal::NotFound,
        }),
        Err(fault) => Err(fault),
    }
}

// The answer to what is asked.
fn prepare<F: Folder>(
    alloc: Global,
    folder: &mut F,
    demand: &Demand,
    file: &mut Bytes,
) -> Result<Prepared, FolderFault>
    ensures told { F.tells → IfOk result (λ p. Answers (F.held folder.old) demand.now p file.new) }
    ensures some { IfOk result (λ p. (files : List Held) × Answers files demand.now p file.new) }
    ensures asks { OnErr result (IsFile demand.now) }
    ensures held { F.tells → F.held folder.new ≡ F.held folder.old }
    ensures cause { FailsCounted (F.count folder.old) (F.count folder.new) result }
{
    match demand {
        Demand::Silent => Ok(Prepared::Nothing),
        Demand::Refused { why } => Ok(Prepared::Refused { why: *why }),
        Demand::File { name, whole } => prepare_file(alloc, folder, name, *whole, file),
    }
}

/// The answer to a request that begins so, of which enough is known. A file that it asks for is read into the buffer,
/// whole. There is a fault only where it asks for one.
pub(crate) fn prepare_answer<F: Folder>(
    alloc: Global,
    folder: &mut F,
    front: &[u8],
    file: &mut Bytes,
) -> Result<Prepared, FolderFault>
    ensures told { F.tells → IfOk result (λ p.
        AnswersFront (F.held folder.old) front.now p file.new) }
    ensures some { IfOk result (λ p. (files : List Held)
        × AnswersFront files front.now p file.new) }
    ensures asks { OnErr result (FrontAsksFile front.now) }
    ensures held { F.tells → F.held folder.new ≡ F.held folder.old }
    ensures cause { FailsCounted (F.count folder.old) (F.count folder.new) result }
{
    let demand = demand_in(alloc, front)?;
    prepare(alloc, folder, &demand, file)
}

/// How a connection is served on which this answer was sent.
pub(crate) fn served_of(prepared: &Prepared) -> Served
    ensures { result ≡ served_by prepared.now }
{
    match prepared {
        Prepared::Nothing => Served::Silent,
        Prepared::Refused { why } => Served::Answered { code: why.code() },
        Prepared::Found { .. } => Served::Answered { code: STATUS_OK },
    }
}
