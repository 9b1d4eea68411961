// The numbers of a host's run.
ghost use Rattle.std.specs.Prelude.{◌≡◌};

use crate::status::{STATUS_DONE, STATUS_MEMORY, STATUS_MISSED, STATUS_WORDS};
use crate::words::{CONNECTION_LIMIT, PORT_LEAST, PORT_LIMIT};

/// The limits of the words, and the statuses.
pub fn numbers_are()
    ensures ports { (PORT_LEAST ≡ 1) × (PORT_LIMIT ≡ 65_535) }
    ensures connections { CONNECTION_LIMIT ≡ 1_000_000 }
    ensures statuses { (STATUS_DONE ≡ 0) × (STATUS_WORDS ≡ 1) × (STATUS_MISSED ≡ 2)
        × (STATUS_MEMORY ≡ 6) }
{}
