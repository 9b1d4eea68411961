// What a fault of an exchange is to a link.
ghost use Rattle.std.specs.Prelude.{◌≡◌};
ghost use Rattle.http_link.specs.WireAsks.{fault_of, is_memory as lacks_memory, is_refusal as refuses};

use http_plain::ExchangeFault;
use links::LinkFault;

// What a link answers.
pub(crate) fn link_fault(fault: ExchangeFault) -> LinkFault
    ensures { result ≡ fault_of fault }
{
    match fault {
        ExchangeFault::Missing => LinkFault::Missing,
        ExchangeFault::Memory => LinkFault::Memory,
        _ => LinkFault::Down,
    }
}

// Whether there was no memory.
pub(crate) fn is_memory(fault: ExchangeFault) -> bool
    ensures { result ≡ lacks_memory fault }
{
    match fault {
        ExchangeFault::Memory => true,
        _ => false,
    }
}

// Whether an answer was refused: the wire did not fail, and there was memory.
pub(crate) fn is_refusal(fault: ExchangeFault) -> bool
    ensures { result ≡ refuses fault }
{
    match fault {
        ExchangeFault::ReadFault | ExchangeFault::WriteFault | ExchangeFault::Memory => false,
        _ => true,
    }
}
