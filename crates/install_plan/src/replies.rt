// The replies that faults come to.
ghost use Rattle.std.specs.Prelude.{◌≡◌, ◌≢◌, Result, Err};
ghost use Rattle.small_types.specs.declared.target.Target.{Target};
ghost use Rattle.addresses.specs.declared.fault.UrlFault.{UrlFault};
ghost use Rattle.addresses.specs.Address.{Gives};
ghost use Rattle.install_plan.specs.Judges.{Refused, address_checks};
ghost use Rattle.fetcher.specs.declared.fault.FetchFault.{FetchFault};
ghost use Rattle.fetcher.specs.declared.fault.FetchFault.TheVariants as fetch;
ghost use Rattle.install_plan.specs.Replies.{IsFetchReply, manifest_reply, url_reply};

use addresses::UrlFault;
use fetcher::FetchFault;
use machine::Reply;
use manifest_parts::ManifestFault;

// The reply to a text that is no address.
pub(crate) fn url_reply(fault: UrlFault) -> Reply
    ensures value { result ≡ url_reply fault }
    ensures judged { (found : Result Target UrlFault) → Gives (Err fault) found
        → Refused (address_checks found) result }
{
    match fault {
        UrlFault::BadUrl => Reply::BadUrl,
        UrlFault::NotHttp { .. } => Reply::NotHttp,
        UrlFault::Memory => Reply::Memory,
    }
}

// The reply to a manifest that is refused.
pub(crate) fn manifest_reply(fault: ManifestFault) -> Reply
    ensures { result ≡ manifest_reply fault }
{
    match fault {
        ManifestFault::Memory => Reply::Memory,
        fault => Reply::Manifest { fault },
    }
}

// The reply where nothing was fetched, and no basket failed.
pub(crate) fn fetch_reply(fault: FetchFault) -> Reply
    requires { ◌≢◌ {A = FetchFault} fault fetch.BasketFault }
    ensures { IsFetchReply fault result }
{
    match fault {
        FetchFault::AllLinks { target, causes } => Reply::AllLinks { target, causes },
        FetchFault::Memory => Reply::Memory,
        FetchFault::BasketFault => unreachable!(),
    }
}
