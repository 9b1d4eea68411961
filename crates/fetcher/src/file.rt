// Files that match their size and digests.
ghost use Rattle.std.specs.Prelude.{◌≡◌, ◌≢◌, ◌<◌, ◌≤◌, ◌+◌, ◌*◌, ◌^◌, [], ◌∷◌, length, take, IfOk, IfErr, OnOk, OnErr, Err};
ghost use Rattle.digest_list.specs.Checker.{count_of};
ghost use Rattle.links.specs.Asked.{Calls};
ghost use Rattle.links.specs.Basket.{Turns};
ghost use Rattle.links.specs.Links.{IsLast, Remain, link_at, sources_of};
ghost use Rattle.outside.specs.Streams.{Consumes};
ghost use Rattle.small_types.specs.declared.limits.TheConstants.{LINK_LIMIT};
ghost use Rattle.fetcher.specs.Fetched.{IsFile, IsFileFault, IsThis, KeptBut};
ghost use Rattle.links.specs.declared.history.LinkCall.TheVariants.{Gave};
ghost use Rattle.fetcher.specs.Once.{AskedForFile, CausesAreShown, IsAsked, OnlyShownLiarsWent, ShowsFileCause, TookAtMost, TookPiece};
ghost use Rattle.fetcher.specs.Stopped.{DropsLiar, DropsLiars, IsFileOf, IsFileStop, IsPourStop, KeepsBasket, Moves, Pours, PoursPiece, ShowsStop, next_place};
ghost use Rattle.fetcher.specs.declared.fault.FetchFault.TheVariants.{BasketFault};

use crate::FetchFault;
use crate::stopped::{PIECE, Stopped, add_cause, all_links, stopped_basket, stopped_by};
use causes::Cause;
use digest_list::{Checker, Difference, DigestList};
use links::{Basket, Links};
use small_types::{CopyFault, Target};
use std::alloc::Global;

// Takes a piece of the link at the place, checks it, and hands it to the basket. Zero is the end.
fn pour_piece<L: Links, B: Basket>(
    links: &mut L,
    place: u32,
    buf: &mut [u8],
    checker: &mut Checker,
    basket: &mut B,
) -> Result<usize, Stopped>
    requires place { place < sources_of (L.links links.old) }
    requires room { 0 < length buf.old }
    requires count { count_of checker.old + length buf.old < 2 ^ 61 }
    ensures within { IfOk result (λ n. n ≤ length buf.old) }
    ensures size { IfOk result (λ n. count_of checker.new ≡ count_of checker.old + n) }
    ensures poured { IfOk result (λ n.
        PoursPiece checker.old checker.new B.tells (B.taken basket.old) (B.taken basket.new)
        (take n buf.new)) }
    ensures told { (link_at (L.links links.old) place).tells → IfOk result (λ n.
        Consumes (link_at (L.links links.old) place).rest (link_at (L.links links.new) place).rest
        buf.new n) }
    ensures stop { IfErr result
        (IsPourStop (link_at (L.links links.old) place) (link_at (L.links links.new) place)
        (B.count basket.old) (B.count basket.new)) }
    ensures quiet { OnOk result
        ((link_at (L.links links.new) place).count ≡ (link_at (L.links links.old) place).count) }
    ensures noted { IfOk result (λ n. Calls (link_at (L.links links.old) place)
        (link_at (L.links links.new) place) (Gave (take n buf.new) ∷ [])) }
    ensures piece { OnErr result (TookPiece (length buf.old)
        (link_at (L.links links.old) place) (link_at (L.links links.new) place)) }
    ensures moves { Moves place (L.links links.old) (L.links links.new) }
    ensures basket { KeepsBasket (B.count basket.old) (B.count basket.new) result }
    ensures turned { Turns B.turns_to (length buf.old) basket.old basket.new }
    ensures handed { IfOk result (λ n. Turns B.turns_to n basket.old basket.new) }
{
    let n = match links.piece(place, buf) {
        Ok(n) => n,
        Err(fault) => return Err(stopped_by(fault)),
    };
    if n == 0 {
        return Ok(0);
    }
    checker.update(&buf[..n]);
    match basket.take(&buf[..n]) {
        Ok(()) => Ok(n),
        Err(fault) => Err(stopped_basket(fault)),
    }
}

// Pours so many bytes of the rest of the link at the place, or all of it, into the checker and the basket.
fn pour<L: Links, B: Basket>(
    links: &mut L,
    place: u32,
    size: u64,
    checker: &mut Checker,
    basket: &mut B,
) -> Result<(), Stopped>
    requires place { place < sources_of (L.links links.old) }
    requires count { count_of checker.old + size < 2 ^ 61 }
    ensures poured { OnOk result
        (Pours size (link_at (L.links links.old) place) (link_at (L.links links.new) place)
        checker.old checker.new B.tells (B.taken basket.old) (B.taken basket.new)) }
    ensures stop { IfErr result
        (IsPourStop (link_at (L.links links.old) place) (link_at (L.links links.new) place)
        (B.count basket.old) (B.count basket.new)) }
    ensures quiet { OnOk result
        ((link_at (L.links links.new) place).count ≡ (link_at (L.links links.old) place).count) }
    ensures took { TookAtMost size (link_at (L.links links.old) place)
        (link_at (L.links links.new) place) }
    ensures moves { Moves place (L.links links.old) (L.links links.new) }
    ensures basket { KeepsBasket (B.count basket.old) (B.count basket.new) result }
    ensures turned { Turns B.turns_to size basket.old basket.new }
{
    let mut done: u64 = 0;
    let mut piece = [0; PIECE];
    while done < size {
        let wanted = (PIECE as u64).min(size - done) as usize;
        let n = match pour_piece(links, place, &mut piece[..wanted], checker, basket) {
            Ok(n) => n,
            Err(stop) => return Err(stop),
        };
        if n == 0 {
            return Ok(());
        }
        done += n as u64;
    }
    Ok(())
}

// The file of the link at the place, into the basket.
fn file_of<L: Links, B: Basket>(
    alloc: Global,
    links: &mut L,
    place: u32,
    target: &Target,
    size: u64,
    list: &DigestList,
    basket: &mut B,
) -> Result<(), Stopped>
    requires place { place < sources_of (L.links links.old) }
    requires wanted { IsLast target.now (L.links links.old).asked }
    requires below { size < 2 ^ 61 }
    ensures file { OnOk result (IsFileOf list.now size target.now
        (link_at (L.links links.old) place) (link_at (L.links links.new) place) B.tells
        (B.taken basket.new)) }
    ensures stop { IfErr result (IsFileStop list.now size target.now
        (link_at (L.links links.old) place) (link_at (L.links links.new) place)
        (B.count basket.old) (B.count basket.new)) }
    ensures once { IsAsked (λ n. n ≡ size) size target.now
        (link_at (L.links links.old) place) (link_at (L.links links.new) place) }
    ensures shown { IfErr result (ShowsStop (ShowsFileCause list.now size target.now)
        (link_at (L.links links.old) place) (link_at (L.links links.new) place)) }
    ensures moves { Moves place (L.links links.old) (L.links links.new) }
    ensures basket { KeepsBasket (B.count basket.old) (B.count basket.new) result }
    ensures turned { Turns B.turns_to size basket.old basket.new }
{
    let length = match links.ask(alloc, place, target) {
        Ok(length) => length,
        Err(fault) => return Err(stopped_by(fault)),
    };
    if length != size {
        return Err(Stopped::By(Cause::Differs(Difference::Size {
            listed: size,
            found: length,
        })));
    }
    let mut checker = match Checker::new(alloc, list, size) {
        Ok(checker) => checker,
        Err(CopyFault::Memory) => return Err(Stopped::Memory),
    };
    basket.restart();
    if let Err(stop) = pour(links, place, size, &mut checker, basket) {
        return Err(stop);
    }
    match checker.finish() {
        None => Ok(()),
        Some(difference) => Err(Stopped::By(Cause::Differs(difference))),
    }
}

// Drops the link at the place if it gave other bytes than are listed. The answer is the place of the next one.
fn retire_liar<L: Links>(links: &mut L, place: u32, cause: &Cause) -> u32
    requires place { place < sources_of (L.links links.old) }
    requires others { 2 ≤ sources_of (L.links links.old) }
    requires few { place < LINK_LIMIT }
    ensures next { result ≡ next_place cause.now place }
    ensures drops { DropsLiar cause.now place (L.links links.old) (L.links links.new) }
{
    match cause {
        Cause::Differs(_) => {
            links.retire(place);
            place
        }
        Cause::Down | Cause::Missing | Cause::TooLong { .. } => place + 1,
    }
}

// Drops those of the first links that gave other bytes than are listed, by the causes for which they did not serve. One
// that did stands behind them.
fn retire_liars<L: Links>(links: &mut L, causes: &[Cause])
    requires behind { length causes.now < sources_of (L.links links.old) }
    requires few { sources_of (L.links links.old) ≤ LINK_LIMIT }
    ensures { DropsLiars causes.now (L.links links.old) (L.links links.new) }
{
    let mut place: u32 = 0;
    for cause in causes {
        place = retire_liar(links, place, cause);
    }
}

/// Fetches the file at the target into the basket: the bytes of the first link that gives bytes of that size which
/// match every digest of the list. Each link before it has its cause not to serve: the sizes where it answers another
/// length, and then no piece of it is taken. No link behind it is asked. No more than `size` bytes are taken of a link,
/// and each is hashed once. The target is asked for once, and of each link once, whatever it answers: one that failed is
/// not asked again. After a fault the basket may hold any bytes. Whatever comes of it, the basket was handed at most
/// `size` bytes for each link that was left, and none where the target was not asked for.
///
/// Each of those links that gave another length or other bytes is then retired, and no other link is. After a fault
/// none is.
pub fn fetch_file<L: Links, B: Basket>(
    alloc: Global,
    links: &mut L,
    target: &Target,
    size: u64,
    list: &DigestList,
    basket: &mut B,
) -> Result<(), FetchFault>
    requires below { size < 2 ^ 61 }
    ensures file { OnOk result
        (IsFile list.now size target.now (L.links links.old) (L.links links.new)
        B.tells (B.taken basket.new)) }
    ensures fault { IfErr result
        (IsFileFault list.now size target.now (L.links links.old) (L.links links.new)
        (B.count basket.old) (B.count basket.new)) }
    ensures once { AskedForFile list.now size target.now (L.links links.old) (L.links links.new)
        B.tells (B.taken basket.new) result }
    ensures shown { IfErr result (CausesAreShown (ShowsFileCause list.now size target.now)
        (L.links links.old) (L.links links.new)) }
    ensures kept { KeptBut (IsThis target.now list.now size)
        (L.links links.old) (L.links links.new) }
    ensures gone { OnlyShownLiarsWent list.now size target.now
        (L.links links.old) (L.links links.new) }
    ensures remain { IfErr result (λ _. Remain (L.links links.old) (L.links links.new)) }
    ensures later { B.count basket.old ≤ B.count basket.new }
    ensures quiet { result ≢ Err BasketFault → B.count basket.new ≡ B.count basket.old }
    ensures turned { Turns B.turns_to (size * sources_of (L.links links.old))
        basket.old basket.new }
    ensures idle { (L.links links.new).asked ≡ (L.links links.old).asked
        → Turns B.turns_to 0 basket.old basket.new }
{
    links.want(alloc, target)?;
    let mut causes = Vec::new(alloc);
    for place in 0..links.sources() {
        let stop = match file_of(alloc, links, place, target, size, list, basket) {
            Ok(()) => {
                retire_liars(links, &causes);
                return Ok(());
            }
            Err(stop) => stop,
        };
        if let Err(fault) = add_cause(&mut causes, stop) {
            return Err(fault);
        }
    }
    Err(all_links(alloc, target, causes))
}
