// Texts of at most so many bytes.
ghost use Rattle.std.specs.Prelude.{◌≡◌, ◌≢◌, ◌<◌, ◌≤◌, length, take, IfOk, IfErr, Err};
ghost use Rattle.links.specs.declared.link.LinkFault.TheVariants.{Missing};
ghost use Rattle.links.specs.Asked.{StopAtEnd};
ghost use Rattle.links.specs.Link.{Counts};
ghost use Rattle.links.specs.Links.{IsLast, link_at, sources_of};
ghost use Rattle.fetcher.specs.Fetched.{IsText, IsTextFault, KeptAll};
ghost use Rattle.fetcher.specs.Once.{AskedForText, CausesAreShown, HasServed, IsAsked, ShowsTextCause, Took, TookAtMost};
ghost use Rattle.fetcher.specs.Stopped.{IsTextOf, IsTextStop, Moves, ShowsStop};

use crate::FetchFault;
use crate::stopped::{PIECE, Stopped, add_cause, all_links, stopped_by};
use causes::Cause;
use links::{LinkFault, Links};
use small_types::{Bytes, Target};
use std::alloc::Global;

// The rest of the link at the place, and at most so many bytes.
fn read_rest<L: Links>(
    alloc: Global,
    links: &mut L,
    place: u32,
    most: u64,
) -> Result<Vec<u8>, LinkFault>
    requires { place < sources_of (L.links links.old) }
    ensures bytes { (link_at (L.links links.old) place).tells
        → IfOk result (λ v. v.items ≡ take most (link_at (L.links links.old) place).rest) }
    ensures within { IfOk result (λ v. length v.items ≤ most) }
    ensures took { IfOk result (λ v. Took StopAtEnd (link_at (L.links links.old) place)
        (link_at (L.links links.new) place) v.items) }
    ensures most { TookAtMost most (link_at (L.links links.old) place)
        (link_at (L.links links.new) place) }
    ensures there { result ≢ Err Missing }
    ensures counts { Counts (link_at (L.links links.old) place) (link_at (L.links links.new) place)
        result }
    ensures moves { Moves place (L.links links.old) (L.links links.new) }
{
    let mut bytes: Vec<u8> = Vec::new(alloc);
    let mut piece = [0; PIECE];
    while (bytes.len() as u64) < most {
        let wanted = (PIECE as u64).min(most - bytes.len() as u64) as usize;
        let n = match links.piece(place, &mut piece[..wanted]) {
            Ok(n) => n,
            Err(fault) => return Err(fault),
        };
        if n == 0 {
            return Ok(bytes);
        }
        bytes.extend_from_slice(&piece[..n])?;
    }
    Ok(bytes)
}

// The text of the link at the place.
fn text_of<L: Links>(
    alloc: Global,
    links: &mut L,
    place: u32,
    target: &Target,
    limit: u64,
) -> Result<Bytes, Stopped>
    requires place { place < sources_of (L.links links.old) }
    requires wanted { IsLast target.now (L.links links.old).asked }
    ensures text { IfOk result (IsTextOf limit target.now
        (link_at (L.links links.old) place) (link_at (L.links links.new) place)) }
    ensures stop { IfErr result (IsTextStop limit target.now
        (link_at (L.links links.old) place) (link_at (L.links links.new) place)) }
    ensures once { IsAsked (λ n. n ≤ limit) limit target.now
        (link_at (L.links links.old) place) (link_at (L.links links.new) place) }
    ensures shown { IfErr result (ShowsStop (ShowsTextCause target.now)
        (link_at (L.links links.old) place) (link_at (L.links links.new) place)) }
    ensures served { IfOk result (HasServed (λ n. n ≤ limit) target.now
        (link_at (L.links links.old) place) (link_at (L.links links.new) place)) }
    ensures moves { Moves place (L.links links.old) (L.links links.new) }
{
    let length = match links.ask(alloc, place, target) {
        Ok(length) => length,
        Err(fault) => return Err(stopped_by(fault)),
    };
    if length > limit {
        return Err(Stopped::By(Cause::TooLong { length, limit }));
    }
    match read_rest(alloc, links, place, length) {
        Ok(bytes) => Ok(Bytes::from_vec(bytes)),
        Err(fault) => Err(stopped_by(fault)),
    }
}

/// The text at the target: the bytes of the first link that gives at most `limit` of them. Each link before it has its
/// cause not to serve: `TooLong` where it answers a greater length, and then no piece of it is taken. No link behind it
/// is asked. The target is asked for once, and of each link once, whatever it answers. No link is retired.
pub fn fetch_text<L: Links>(
    alloc: Global,
    links: &mut L,
    target: &Target,
    limit: u64,
) -> Result<Bytes, FetchFault>
    ensures text { IfOk result (IsText limit target.now (L.links links.old) (L.links links.new)) }
    ensures fault { IfErr result
        (IsTextFault limit target.now (L.links links.old) (L.links links.new)) }
    ensures once { AskedForText limit target.now (L.links links.old) (L.links links.new) result }
    ensures shown { IfErr result (CausesAreShown (ShowsTextCause target.now)
        (L.links links.old) (L.links links.new)) }
    ensures kept { KeptAll (L.links links.old) (L.links links.new) }
{
    links.want(alloc, target)?;
    let mut causes = Vec::new(alloc);
    for place in 0..links.sources() {
        let stop = match text_of(alloc, links, place, target, limit) {
            Ok(bytes) => return Ok(bytes),
            Err(stop) => stop,
        };
        if let Err(fault) = add_cause(&mut causes, stop) {
            return Err(fault);
        }
    }
    Err(all_links(alloc, target, causes))
}
