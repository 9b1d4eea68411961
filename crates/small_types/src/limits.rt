// The numbers that the product is limited by, each once.
ghost use Rattle.std.specs.Prelude.{◌≡◌};

/// The most applications of a store.
pub const APPLICATION_LIMIT: usize = 256;

/// The most kept views of a store.
pub const VIEW_LIMIT: usize = 1_024;

/// The most listed files of a release, and of all kept views of a store together.
pub const FILE_COUNT_LIMIT: usize = 16_384;

/// The most data files of a release, and of a view outside `.pre`.
pub const LOCAL_COUNT_LIMIT: usize = 256;

/// The most `hash` elements of a file.
pub const HASH_LIMIT: usize = 8;

/// The most leases of a store.
pub const LEASE_LIMIT: usize = 1_024;

/// The most open jobs of a session.
pub const JOB_LIMIT: usize = 16;

/// The most links of a session.
pub const LINK_LIMIT: usize = 8;

/// The most bytes of the name of a file or a group, and of the name of an identity.
pub const NAME_LIMIT: usize = 240;

/// The most bytes of the name of a data file outside `.pre`.
pub const LOCAL_NAME_LIMIT: usize = 235;

/// The most bytes of the token, the language, the architecture and the kind of an identity, each.
pub const IDENTITY_PART_LIMIT: usize = 64;

/// The most bytes of a URL, of a codebase and of parameters.
pub const URL_LIMIT: usize = 2_048;

/// The most bytes of a manifest.
pub const MANIFEST_LIMIT: usize = 4_194_304;

/// The most levels of elements of a manifest. The root is level 1.
pub const LEVEL_LIMIT: usize = 64;

/// The most bytes of a file.
pub const FILE_SIZE_LIMIT: u64 = 268_435_456;

/// The most bytes of a deployed data file.
pub const LOCAL_SIZE_LIMIT: u64 = 1_048_576;

/// The most bytes of a session line, without its line feed and the carriage return before that.
pub const LINE_LIMIT: usize = 65_536;

/// The most bytes that one line puts or reads.
pub const PIECE_LIMIT: usize = 30_000;

/// The bytes of a block.
pub const BLOCK_SIZE: usize = 4_096;

/// The most blocks of a store.
pub const BLOCK_LIMIT: u64 = 1_048_576;

/// The greatest number on lines and in words, 2^62.
pub const NUMBER_LIMIT: u64 = 4_611_686_018_427_387_904;

/// The most decimal digits of a number.
pub const DIGIT_LIMIT: usize = 19;

// A store has a head block, a journal in two halves, and its blocks behind them.

/// The bytes of the head block of a store.
pub const HEAD_BLOCK_SIZE: usize = 4_096;

/// The fewest bytes of a half of the journal.
pub const HALF_LEAST: u64 = 1_048_576;

/// The most bytes of a half of the journal.
pub const HALF_LIMIT: u64 = 67_108_864;

/// The length of a half is a multiple of so many bytes.
pub const HALF_STEP: u64 = 4_096;

/// The bytes of a half of a new store's journal, where no other length is asked for.
pub const HALF_DEFAULT: u64 = 16_777_216;

/// The numbers of the limits.
pub fn limits_are()
    ensures store { (APPLICATION_LIMIT ≡ 256) × (VIEW_LIMIT ≡ 1_024) × (LEASE_LIMIT ≡ 1_024) }
    ensures session { (JOB_LIMIT ≡ 16) × (LINK_LIMIT ≡ 8) }
    ensures counts { (FILE_COUNT_LIMIT ≡ 16_384) × (LOCAL_COUNT_LIMIT ≡ 256) × (HASH_LIMIT ≡ 8) }
    ensures names { (NAME_LIMIT ≡ 240) × (LOCAL_NAME_LIMIT ≡ 235) × (IDENTITY_PART_LIMIT ≡ 64) }
    ensures urls { URL_LIMIT ≡ 2_048 }
    ensures manifests { (MANIFEST_LIMIT ≡ 4_194_304) × (LEVEL_LIMIT ≡ 64) }
    ensures files { (FILE_SIZE_LIMIT ≡ 268_435_456) × (LOCAL_SIZE_LIMIT ≡ 1_048_576) }
    ensures lines { (LINE_LIMIT ≡ 65_536) × (PIECE_LIMIT ≡ 30_000) }
    ensures blocks { (BLOCK_SIZE ≡ 4_096) × (BLOCK_LIMIT ≡ 1_048_576) × (HEAD_BLOCK_SIZE ≡ 4_096) }
    ensures halves { (HALF_LEAST ≡ 1_048_576) × (HALF_LIMIT ≡ 67_108_864) }
    ensures steps { (HALF_STEP ≡ 4_096) × (HALF_DEFAULT ≡ 16_777_216) }
    ensures numbers { (NUMBER_LIMIT ≡ 4_611_686_018_427_387_904) × (DIGIT_LIMIT ≡ 19) }
{}
