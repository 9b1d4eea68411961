// What a change says of a folder.
ghost use Rattle.publisher.specs.Readings.{HonestNeverChange};

/// A folder whose answers are those of files that nobody else changed never shows a change.
pub fn honest_folders_never_change()
    ensures { HonestNeverChange }
{}
