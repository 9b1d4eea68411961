// What is true of kept views, of cleans and rollbacks, and of what is listed and shown, with no code.
ghost use Rattle.machine.specs.LifeLaws.{CleansAreGranted, CleansKeepTheUsed, ExcludedOffersAreNotDue, KnownKeysAreShown, ListsAreGranted, ListsShowCurrent, RemovableViewsAreUnused, RollbacksAreGranted, RollbacksAreSingle, RollbacksGoBack, ShowsAreOfEntries, ViewsAreNew, ViewsMayGo};

/// No number of a view is given twice, and a kept view stays of one release.
pub fn views_are_new()
    ensures { ViewsAreNew }
{}

/// After a clean the kept views are exactly the current, previous and leased ones, each as it was, and the number of
/// those that are gone is shown. They are the removable ones. A clean is never refused.
pub fn used_views_stay()
    ensures kept { CleansKeepTheUsed }
    ensures granted { CleansAreGranted }
    ensures removable { RemovableViewsAreUnused }
{}

/// After a rollback the previous view is current, and its version, which is shown, is not below the minimum. It is
/// granted where there is such a view of such a version, and a second one at once is refused. The version that was
/// current is excluded, so it does not stand before a start.
pub fn rollbacks_go_back()
    ensures back { RollbacksGoBack }
    ensures granted { RollbacksAreGranted }
    ensures single { RollbacksAreSingle }
    ensures excluded { ExcludedOffersAreNotDue }
{}

/// There is a sound store from which a rollback is answered, and then a clean that takes the view that was current.
pub fn views_may_go()
    ensures { ViewsMayGo }
{}

/// `list` shows each application in order of the printed keys, with the version that is current. It is never refused.
pub fn lists_show_current()
    ensures rows { ListsShowCurrent }
    ensures granted { ListsAreGranted }
{}

/// `show` shows what the entry of the key has, with the versions of its views and the file that the current one
/// starts. It is refused only where the key has no entry.
pub fn shows_are_of_entries()
    ensures row { ShowsAreOfEntries }
    ensures granted { KnownKeysAreShown }
{}
