// What is true of ordered tables and of their files, with no code.
ghost use Rattle.table_check.specs.Files.{WholeFilesEndWithin};
ghost use Rattle.table_check.specs.Laws as laws;

/// The store that tables show is within its order and its limits exactly where the tables are
/// ordered, and ordered tables show one.
pub fn ordered_tables_show_ordered_stores()
    ensures exact { laws.OrderedTablesAreOfOrderedStores }
    ensures shown { laws.OrderedTablesShowAStore }
{}

/// A disk has all bytes of a file with as many blocks as its length needs exactly where each of its
/// blocks ends within the disk, as far as the file has bytes in it.
pub fn whole_files_end_within()
    ensures { WholeFilesEndWithin }
{}
