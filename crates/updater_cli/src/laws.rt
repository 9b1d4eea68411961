// What holds from a publish to a read, with no code.
ghost use Rattle.updater_cli.specs.NoOthers.{NoOthersCome};
ghost use Rattle.updater_cli.specs.Premises.{OneSiteIsGiven, PublishesWrite, ServedIsGiven};
ghost use Rattle.updater_cli.specs.Publishable.{PublishesWhereItMay};
ghost use Rattle.updater_cli.specs.Published.{PublishedDataIsRead, PublishedIsGiven, PublishedIsRead};
ghost use Rattle.updater_cli.specs.Quiet.{WalksFind};
ghost use Rattle.updater_cli.specs.Releases.{PagesHaveReleases, ReleasesAreOffered};
ghost use Rattle.updater_cli.specs.Walk.{WalksTell};

use folders::Folder;
use links::Links;
use outside::Sink;

/// What was published is what is given. The first link's site is a folder that holds what a publish
/// wrote, at what an install asks for, and the install hears what the links give. Then the view that
/// it brought lists the input files, and at the address of each the links give the input file.
pub fn published_is_given()
    ensures { PublishedIsGiven }
{}

/// What was published is what is read: each read on a lease of that view shows a part of the input
/// file of its name. It is as sure as the digests: at the last line no other bytes are kept that match
/// an entry of the release.
pub fn published_is_read()
    ensures { PublishedIsRead }
{}

/// So is a data file that came fresh and was not touched since, where no other bytes that match an
/// entry of the release are kept behind the install.
pub fn published_data_is_read()
    ensures { PublishedDataIsRead }
{}

/// A first link whose site has what a publish writes, at the addresses that an install asks for, is one
/// of a folder that holds it, as those laws ask.
pub fn releases_are_offered()
    ensures { ReleasesAreOffered }
{}

/// A link in memory has it with a page for each of these addresses, whatever other pages it has.
pub fn pages_have_releases()
    ensures { PagesHaveReleases }
{}

/// Behind the lines of a session no other bytes are kept that match an entry of the release, where
/// none were kept before them, no link's site has such, and no line puts such.
pub fn no_others_come<L: Links>(links: &L)
    ensures { NoOthersCome (L.links links.now) }
{}

/// A publish that answers writes what the law speaks of, into the folder that it was given.
pub fn publishes_write()
    ensures { PublishesWrite }
{}

/// The texts that a command heard of an install are what its links give, where the first link tells
/// that its site is a folder that holds what was published, and its count did not rise. The links are
/// those before the command and behind it.
pub fn served_is_given<L: Links>(before: &L, after: &L)
    ensures { ServedIsGiven (L.links before.now) (L.links after.now) }
{}

/// The texts that a session heard of an install are what its only link gives, whose site is a folder
/// that holds what was published.
pub fn one_site_is_given<L: Links>(links: &L)
    ensures { OneSiteIsGiven (L.links links.now) }
{}

/// A walk over lines is a run of the machine, and the links did what is said of each line. Where the
/// links with which it began tell, what the lines heard and brought is of their sites.
pub fn walks_tell<L: Links>(first: &L, links: &L)
    ensures { WalksTell L.Links (L.links first.now) links.now }
{}

/// Over links that tell, each line of a walk in which none of them failed found what they had: what
/// it heard is what they gave, and where it says that no link gave a target, none had it. Such is
/// each line whose number of failures is that of the line before it, and each line at all where no
/// link's count rose in the walk.
pub fn walks_find<L: Links>(first: &L, links: &L)
    ensures { WalksFind L.Links (L.links first.now) links.now }
{}

/// A release that may be published is, unless memory runs out: none of the refusals of a publish
/// applies to its options and its files, and the folder tells what it holds and does not fail. The
/// folder and the sink are those before the publish and behind it.
pub fn publishes_where_it_may<F: Folder, K: Sink>(old: &F, new: &F, sink_old: &K, sink: &K)
    ensures { PublishesWhereItMay F.Folder K.Sink old.now new.now sink_old.now sink.now }
{}
