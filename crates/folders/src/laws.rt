// What holds of every folder, and of every list of its answers.
ghost use Rattle.folders.specs.Files.{HasOneList};
ghost use Rattle.folders.specs.Honesty.{HonestAtFirst, HonestNext, HonestBefore, ListIsTrue, ReadIsTrue, LengthIsTrue, PutIsThere, NamesStayApart, ReadingsAgree, LengthAgrees};

use crate::Folder;

/// A folder that tells has a list of the names of what stands in it, and no other.
pub fn one_list_of_names<F: Folder>()
    ensures { (f : F) → F.tells → HasOneList (F.held f) }
{}

/// A folder that answers as the model does stays honest.
pub fn honest_folders_stay_honest()
    ensures first { HonestAtFirst }
    ensures next { HonestNext }
{}

/// What an honest folder answers is what the model does, at each of its calls.
pub fn honest_folders_are_true()
    ensures before { HonestBefore }
    ensures list { ListIsTrue }
    ensures read { ReadIsTrue }
    ensures length { LengthIsTrue }
    ensures put { PutIsThere }
    ensures apart { NamesStayApart }
{}

/// Two answers that differ on one file, which was not put between them, are those of no folder whose files nobody else
/// changed.
pub fn honest_readings_agree()
    ensures bytes { ReadingsAgree }
    ensures length { LengthAgrees }
{}
