// What holds of every list of a file's answers.
ghost use Rattle.disks.specs.Honesty.{HonestAtFirst, HonestLength, HonestRead, HonestChange, HonestBefore, LengthIsTrue, ReadIsTrue};

/// A file that answers as the model does stays honest.
pub fn honest_answers_stay_honest()
    ensures first { HonestAtFirst }
    ensures length { HonestLength }
    ensures read { HonestRead }
    ensures change { HonestChange }
{}

/// What an honest file answers is what the model does, at each of its calls.
pub fn honest_answers_are_true()
    ensures before { HonestBefore }
    ensures length { LengthIsTrue }
    ensures read { ReadIsTrue }
{}
