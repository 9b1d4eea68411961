// What things weigh, each number once.
ghost use Rattle.std.specs.Prelude.{◌≡◌};

/// The weight of tables with nothing in them. The leases are within it.
pub const STATE_WEIGHT: u64 = 131_072;

/// The weight of an application, but for the texts of its key and of the address that updates come
/// from.
pub const APP_WEIGHT: u64 = 256;

/// The weight of a view, but for its texts and for what it lists.
pub const VIEW_WEIGHT: u64 = 1_024;

/// The weight of a digest.
pub const DIGEST_WEIGHT: u64 = 72;

/// The weight of a group that stands, but for its name.
pub const GROUP_WEIGHT: u64 = 16;

/// The weight of a listed file, but for its name, its group and its digests.
pub const FILE_WEIGHT: u64 = 64;

/// The weight of a data file, but for its name and its blocks.
pub const LOCAL_WEIGHT: u64 = 24;

/// The weight of a content, but for its digests and its blocks.
pub const CONTENT_WEIGHT: u64 = 24;

/// The weight of a block, whose number stands in the journal.
pub const BLOCK_WEIGHT: u64 = 4;

/// The bytes of a half of the journal that tables leave to the changes behind them.
pub const CHANGE_ROOM: u64 = 65_536;

/// The numbers of the weights.
pub fn weights_are()
    ensures tables { (STATE_WEIGHT ≡ 131_072) × (APP_WEIGHT ≡ 256) × (VIEW_WEIGHT ≡ 1_024) }
    ensures files { (FILE_WEIGHT ≡ 64) × (LOCAL_WEIGHT ≡ 24) × (CONTENT_WEIGHT ≡ 24) }
    ensures parts { (DIGEST_WEIGHT ≡ 72) × (GROUP_WEIGHT ≡ 16) × (BLOCK_WEIGHT ≡ 4) }
    ensures room { CHANGE_ROOM ≡ 65_536 }
{}
