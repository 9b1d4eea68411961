// The numbers of the encoding, each once.
ghost use Rattle.std.specs.Prelude.{◌≡◌};

/// The number of a boot number.
pub const BOOT_KIND: u8 = 0;

/// The number of a requirement.
pub const REQUIRE_KIND: u8 = 1;

/// The number of an installation.
pub const INSTALL_KIND: u8 = 2;

/// The number of what a check heard.
pub const HEARD_KIND: u8 = 3;

/// The number of a check that heard nothing.
pub const UNHEARD_KIND: u8 = 4;

/// The number of a skip.
pub const SKIP_KIND: u8 = 5;

/// The number of a rollback.
pub const ROLLBACK_KIND: u8 = 6;

/// The number of a launch.
pub const LAUNCH_KIND: u8 = 7;

/// The number of the end of a lease.
pub const FINISH_KIND: u8 = 8;

/// The number of a group.
pub const GROUP_KIND: u8 = 9;

/// The number of a data file.
pub const PUT_KIND: u8 = 10;

/// The number of a removal of a data file.
pub const REMOVE_KIND: u8 = 11;

/// The number of a clean.
pub const CLEAN_KIND: u8 = 12;

/// The most items that a list can say: their number has four bytes.
pub const COUNT_LIMIT: usize = 4_294_967_295;

/// The numbers of the encoding: those of the kinds, each the first byte of a change, and the most
/// items of a list.
pub fn change_numbers_are()
    ensures tables { (BOOT_KIND ≡ 0) × (REQUIRE_KIND ≡ 1) × (CLEAN_KIND ≡ 12) }
    ensures installs { (INSTALL_KIND ≡ 2) × (GROUP_KIND ≡ 9) × (PUT_KIND ≡ 10)
        × (REMOVE_KIND ≡ 11) }
    ensures checks { (HEARD_KIND ≡ 3) × (UNHEARD_KIND ≡ 4) × (SKIP_KIND ≡ 5)
        × (ROLLBACK_KIND ≡ 6) }
    ensures counts { COUNT_LIMIT ≡ 4_294_967_295 }
    ensures leases { (LAUNCH_KIND ≡ 7) × (FINISH_KIND ≡ 8) }
{}
