// What holds of every message.
ghost use Rattle.std.specs.Prelude.{◌≡◌};
ghost use Rattle.http_plain.specs.Laws.{OneDemand, OneAnswer, OneOutcome};
ghost use Rattle.http_plain.specs.HostsAreFolders.{FilesAreRead, HostsAreFolders};

use crate::exchange::{ANSWER_PIECE, HTTP_PORT};
use crate::head::{FIELD_LIMIT, HEAD_LIMIT};
use crate::status::{
    STATUS_BAD_REQUEST, STATUS_FIELDS_TOO_LARGE, STATUS_METHOD_NOT_ALLOWED, STATUS_NOT_FOUND,
    STATUS_OK,
};

/// The numbers of heads, of requests and of answers.
pub fn numbers_are()
    ensures heads { (HEAD_LIMIT ≡ 65_536) × (FIELD_LIMIT ≡ 64) }
    ensures pieces { ANSWER_PIECE ≡ 4_096 }
    ensures port { HTTP_PORT ≡ 80 }
    ensures found { STATUS_OK ≡ 200 }
    ensures refused { (STATUS_BAD_REQUEST ≡ 400) × (STATUS_NOT_FOUND ≡ 404)
        × (STATUS_METHOD_NOT_ALLOWED ≡ 405) × (STATUS_FIELDS_TOO_LARGE ≡ 431) }
{}

/// A request asks for one thing alone.
pub fn one_demand()
    ensures { OneDemand }
{}

/// A host's files and a request determine the answer: its code and its bytes.
pub fn one_answer()
    ensures { OneAnswer }
{}

/// An answer gives one length or one refusal alone.
pub fn one_outcome()
    ensures { OneOutcome }
{}

/// The answer with a file of fewer than 10^19 bytes gives a client the file's bytes.
pub fn files_are_read()
    ensures { FilesAreRead }
{}

/// Where a host of a folder's files answers 200 to the request for a target of visible ASCII, the client gets the bytes
/// of the file that the target's path names, as from the folder itself.
pub fn hosts_are_folders()
    ensures { HostsAreFolders }
{}
