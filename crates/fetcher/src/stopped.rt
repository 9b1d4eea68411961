// How a fetch from one link ends without bytes.
ghost use Rattle.std.specs.Prelude.{◌≡◌, IfErr, OnOk};
ghost use Rattle.fetcher.specs.Stopped.{AddsCause, TellsCauses, basket_stop, end_of_fetch, stop_of};

use crate::FetchFault;
use causes::Cause;
use links::{BasketFault, LinkFault};
use small_types::{Duplicate, List, Target};
use std::alloc::Global;

/// How many bytes are asked of a link at a time.
pub(crate) const PIECE: usize = 65_536;

/// Why a link gave nothing that serves.
#[derive(Drop, Debug)]
pub(crate) enum Stopped {
    /// The link did not serve.
    By(Cause),
    /// The basket failed.
    Basket,
    /// There was no memory.
    Memory,
}

/// A fault of a link.
pub(crate) fn stopped_by(fault: LinkFault) -> Stopped
    ensures { result ≡ stop_of fault }
{
    match fault {
        LinkFault::Missing => Stopped::By(Cause::Missing),
        LinkFault::Down => Stopped::By(Cause::Down),
        LinkFault::Memory => Stopped::Memory,
    }
}

/// A fault of a basket.
pub(crate) fn stopped_basket(fault: BasketFault) -> Stopped
    ensures { result ≡ basket_stop fault }
{
    match fault {
        BasketFault::Failed => Stopped::Basket,
        BasketFault::Memory => Stopped::Memory,
    }
}

/// Adds the cause to those of the links before, or says how the fetch ends.
pub(crate) fn add_cause(causes: &mut Vec<Cause>, stop: Stopped) -> Result<(), FetchFault>
    ensures added { OnOk result (AddsCause stop causes.old.items causes.new.items) }
    ensures ends { IfErr result (λ fault. fault ≡ end_of_fetch stop) }
{
    match stop {
        Stopped::By(cause) => {
            causes.push(cause)?;
            Ok(())
        }
        Stopped::Basket => Err(FetchFault::BasketFault),
        Stopped::Memory => Err(FetchFault::Memory),
    }
}

/// That no link served, for these causes.
pub(crate) fn all_links(alloc: Global, target: &Target, causes: Vec<Cause>) -> FetchFault
    ensures { TellsCauses target.now causes.items result }
{
    match target.copy(alloc) {
        Ok(target) => FetchFault::AllLinks {
            target,
            causes: List::from_vec(causes),
        },
        Err(fault) => FetchFault::from(fault),
    }
}
