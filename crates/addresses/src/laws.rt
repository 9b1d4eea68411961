// What holds of every base, and of every name that is joined to one.
ghost use Rattle.std.specs.Prelude.{◌≡◌};
ghost use Rattle.addresses.specs.Join.{BasesAreHttp, NamesAreJoined};

use crate::HTTP_PORT;

/// The port of an address that names none.
pub fn http_port_is()
    ensures { HTTP_PORT ≡ 80 }
{}

/// A base that, as it is written, is a URL has the scheme `http`.
pub fn bases_are_http()
    ensures { BasesAreHttp }
{}

/// Every name is joined to such a base, and the joined URL has the scheme, the host and the port of the base.
pub fn names_are_joined()
    ensures { NamesAreJoined }
{}
