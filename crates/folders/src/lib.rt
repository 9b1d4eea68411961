//! Files by their names: the folder as a trait, and folders in memory.
#![tactic(auto)]

mod answer;
mod folder;
mod laws;
mod mem_folder;

pub use answer::FolderAnswer;
pub use folder::{Folder, FolderFault, Found, Held};
pub use laws::{
    honest_folders_are_true, honest_folders_stay_honest, honest_readings_agree, one_list_of_names,
};
pub use mem_folder::{MemFolder, are_distinct};
