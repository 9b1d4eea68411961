// The numbers of a host.
ghost use Rattle.std.specs.Prelude.{◌≡◌};

use crate::request::REQUEST_PIECE;

/// The most bytes of a request that are received at once.
pub fn numbers_are()
    ensures { REQUEST_PIECE ≡ 8_192 }
{}
