// The numbers of a journal's bytes, each once.
ghost use Rattle.std.specs.Prelude.{◌≡◌, codes};
ghost use Rattle.journal.specs.declared.piece.TheConstants.{BEFORE, AROUND, BEFORE_TABLES, AROUND_TABLES};

/// The first bytes of a journal.
pub const SIGN: [u8; 8] = *b"CLKSTOR1";

/// Where the gate of the head block stands.
pub const HEAD_GATE: usize = 64;

/// How many serials a half may have: 0 to one less.
pub const SERIAL_COUNT: u8 = 3;

/// The numbers of a journal's bytes: what it begins with, the place of its head's gate, how many
/// serials there are, and the bytes round a change and round tables.
pub fn journal_numbers_are()
    ensures sign { SIGN ≡ codes "CLKSTOR1" }
    ensures gate { HEAD_GATE ≡ 64 }
    ensures serials { SERIAL_COUNT ≡ 3 }
    ensures entry { (BEFORE ≡ 5) × (AROUND ≡ 6) }
    ensures tables { (BEFORE_TABLES ≡ 10) × (AROUND_TABLES ≡ 11) }
{}
