// What makes a store sound, with no code.
ghost use Rattle.table_soundness.specs.Soundness.{PartsAreSound, SoundHasParts};

/// A valid store that tables show with an image is sound where each view of the tables is one release and each of their
/// contents has its bytes, and nowhere else.
pub fn soundness_has_two_parts()
    ensures sound { PartsAreSound }
    ensures parts { SoundHasParts }
{}
