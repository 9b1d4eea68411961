// The numbers of the encoding, each once.
ghost use Rattle.std.specs.Prelude.{◌≡◌};

/// The byte of what is not so, and of an optional value that is not there.
pub const FALSE_BYTE: u8 = 0;

/// The byte of what is so, and before an optional value that is there.
pub const TRUE_BYTE: u8 = 1;

/// The number of the rule never to look for an update.
pub const NEVER_RULE: u8 = 0;

/// The number of the rule to look for an update before each start.
pub const BEFORE_RULE: u8 = 1;

/// The number of the rule to look for an update past an age, which stands behind it.
pub const AGE_RULE: u8 = 2;

/// The number of SHA-1.
pub const SHA1_NUMBER: u8 = 0;

/// The number of SHA-256.
pub const SHA256_NUMBER: u8 = 1;

/// The number of SHA-384.
pub const SHA384_NUMBER: u8 = 2;

/// The number of SHA-512.
pub const SHA512_NUMBER: u8 = 3;

/// The numbers of the encoding: those of truth values and options, of the rules for updates, and of
/// the algorithms of digests.
pub fn field_numbers_are()
    ensures truths { (FALSE_BYTE ≡ 0) × (TRUE_BYTE ≡ 1) }
    ensures rules { (NEVER_RULE ≡ 0) × (BEFORE_RULE ≡ 1) × (AGE_RULE ≡ 2) }
    ensures algorithms { (SHA1_NUMBER ≡ 0) × (SHA256_NUMBER ≡ 1) × (SHA384_NUMBER ≡ 2)
        × (SHA512_NUMBER ≡ 3) }
{}
