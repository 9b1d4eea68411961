// What is read of pages in memory.
ghost use Rattle.links.specs.MemLink.{link_pages};
ghost use Rattle.published_pages.specs.ThreeLines.{IsPageLink, ReadsWhatWasPublished};

use links::{Links, MemLink, Single};
use machine::{installs_are_current, launches_are_sound, steps_keep_sound};
use updater_cli::{
    no_others_come, one_site_is_given, pages_have_releases, published_is_read, releases_are_offered,
};

/// A session of three lines over one link in memory, which has a page for each file of a release
/// at what an install of it asks for: where the install, the launch and the read are answered, the
/// read shows a part of the input file that was published under the name. The store has no view
/// before, and no page has other bytes that match an entry of the release.
pub fn reads_what_was_published<L: Links>(links: &L)
    ensures { ReadsWhatWasPublished (L.links links.now) }
{
    steps_keep_sound();
    installs_are_current();
    launches_are_sound();
    pages_have_releases();
    releases_are_offered();
    one_site_is_given(links);
    no_others_come(links);
    published_is_read();
}

/// A link in memory by itself is such a link.
pub fn a_link_shows_its_pages(links: &Single<MemLink>)
    ensures { IsPageLink (link_pages links.now.link)
        (⟦<Single<MemLink> as Links>⟧.links links.now) }
{}
