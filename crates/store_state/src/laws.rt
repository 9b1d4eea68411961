// What is true of tables and the stores that they show, with no code.
ghost use Rattle.store_state.specs.Laws as laws;

/// Tables show one store.
pub fn one_store_is_shown()
    ensures { laws.OneStoreIsShown }
{}

/// A session without jobs, over a store that tables show, has their shape.
pub fn shapes_are_shown()
    ensures { laws.ShapesAreShown }
{}

/// An install that fits leads to tables that show the store with the new view.
pub fn installs_show_the_view()
    ensures { laws.InstallsShowTheView }
{}

/// A launch leads to tables that show the store with one more lease, on the application's current
/// view.
pub fn launches_show_the_lease()
    ensures { laws.LaunchesShowTheLease }
{}

/// A finish leads to tables that show the store without the lease.
pub fn finishes_show_the_rest()
    ensures { laws.FinishesShowTheRest }
{}

/// A check leads to tables that show the store with what was heard noted in the entry of its key,
/// or with a check that counts as made where nothing was heard.
pub fn checks_show_the_entry()
    ensures heard { laws.ChecksShowTheEntry }
    ensures unheard { laws.UnheardChecksShowTheEntry }
{}

/// A skip leads to tables that show the store in which the offer is skipped.
pub fn skips_show_the_entry()
    ensures { laws.SkipsShowTheEntry }
{}

/// A rollback leads to tables that show the store in which the previous view is current, and the
/// version that was current is excluded.
pub fn rollbacks_show_the_entry()
    ensures { laws.RollbacksShowTheEntry }
{}

/// Where views that are not in use are dropped, the tables show the store without them, which stays
/// in its order and valid.
pub fn drops_show_the_rest()
    ensures { laws.DropsShowTheRest }
{}

/// A clean leads to tables that show the store without the views that are not in use.
pub fn cleans_show_the_rest()
    ensures { laws.CleansShowTheRest }
{}

/// A group that fits leads to tables that show the store in which its files stand.
pub fn groups_show_the_files()
    ensures { laws.GroupsShowTheFiles }
{}

/// A data file that is put leads to tables that show the store with it.
pub fn puts_show_the_file()
    ensures { laws.PutsShowTheFile }
{}

/// A data file that is removed leads to tables that show the store without it.
pub fn removals_show_the_rest()
    ensures { laws.RemovalsShowTheRest }
{}

/// A data file that is found in the tables by its name is that of the view that they show.
pub fn locals_show_files()
    ensures bytes { laws.LocalsShowFiles }
    ensures names { laws.LocalsShowNames }
{}

/// What is found in the tables by a name is the file of that name in the view that they show.
pub fn reads_show_files()
    ensures bytes { laws.ReadsShowFiles }
    ensures names { laws.ReadsShowNames }
{}

/// The program file that is found in the tables by its name has the bytes of its content, and it
/// has one.
pub fn files_are_their_contents()
    ensures bytes { laws.FilesAreTheirContents }
    ensures names { laws.NamesHaveContents }
{}

/// A change that brings files with as many blocks as their lengths need leaves tables of which each
/// file has so many, as the empty ones.
pub fn measured_tables_stay()
    ensures changed { laws.MeasuredTablesStay }
    ensures empty { laws.EmptyTablesAreMeasured }
{}

/// Each change that fits leads to tables that show a store in its order, which is valid where its
/// files and its tables have room.
pub fn each_change_shows_an_ordered_store()
    ensures { laws.EachChangeShowsAnOrderedStore }
{}

/// The empty tables show the empty store.
pub fn empty_tables_are_shown()
    ensures { laws.EmptyTablesAreShown }
{}

/// Another boot number leads to tables that show the store with it.
pub fn boots_show_the_store()
    ensures { laws.BootsShowTheStore }
{}

/// A version below which an application does not run leads to tables that show the store in which
/// its minimum is raised.
pub fn requires_show_the_entry()
    ensures { laws.RequiresShowTheEntry }
{}
