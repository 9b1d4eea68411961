// What is supposed of a real file as it is opened.
ghost use Rattle.std.specs.Prelude.{◌≡◌, ℕ, List, [], refl};

/// The bytes of a file as it is opened, and what a stop could leave then. No code can read them, so a function over
/// `S: Start` that asks nothing of its members is proved for all of them.
pub trait Start: Drop {
    /// What reads give at first. A file that is made then has none.
    ghost first: { List ℕ };

    /// What a stop before the first call may leave.
    ghost left: { List ℕ → Type 0 };

    /// The first bytes are one of these.
    ghost first_left: { left first };
}

/// A start for a program to name. At this type a clause on contents speaks of an empty file alone: what a program does
/// is said by the code that it calls at any start.
#[derive(Drop)]
pub struct Unknown;

impl Start for Unknown {
    ghost first = { [] };

    ghost left = { λ c. c ≡ [] };

    ghost first_left = { refl };
}
