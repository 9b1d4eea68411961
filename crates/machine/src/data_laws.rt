// What is true of data files, with no code.
ghost use Rattle.machine.specs.DataLaws.{DataFilesStay, DataIsOfFiles, KeptDataFilesStay, PutsAreThere, RemovedFilesAreGone};

/// A put that is answered leaves these bytes under the name, and a removal none. Every other data
/// file, each program file of the view and every other view stay.
pub fn one_data_file_is_changed()
    ensures put { PutsAreThere }
    ensures removed { RemovedFilesAreGone }
{}

/// A data file of a kept view stays until it is put or removed on a lease of that view, or a clean
/// comes while the view is neither current nor previous nor leased. Where the view is still kept
/// after the run, it stays until it is put or removed.
pub fn data_files_stay()
    ensures all { DataFilesStay }
    ensures kept { KeptDataFilesStay }
{}

/// What `data` shows is a part of a data file of the leased view.
pub fn data_is_of_files()
    ensures { DataIsOfFiles }
{}
