// The units of ages.
ghost use Rattle.std.specs.Prelude.{◌≡◌, ◌<◌};
ghost use Rattle.manifests.specs.Ages.{seconds_in, unit_word, largest_unit};

/// The seconds of an hour.
pub const HOUR: u64 = 3_600;

/// The seconds of a day.
pub const DAY: u64 = 86_400;

/// The seconds of a week.
pub const WEEK: u64 = 604_800;

/// The most digits of the number of an age, in its unit.
pub const AGE_DIGIT_LIMIT: usize = 9;

/// The greatest number of an age, in its unit.
pub const AGE_LIMIT: u64 = 999_999_999;

/// The numbers of ages.
pub fn age_limits_are()
    ensures units { (HOUR ≡ 3_600) × (DAY ≡ 86_400) × (WEEK ≡ 604_800) }
    ensures numbers { (AGE_DIGIT_LIMIT ≡ 9) × (AGE_LIMIT ≡ 999_999_999) }
{}

/// A unit of ages.
#[derive(Clone, Copy, Debug, PartialEq, Eq)]
pub enum AgeUnit {
    Hours,
    Days,
    Weeks,
}

impl AgeUnit {
    /// The largest unit of which whole hours are a multiple, and days for none.
    #[tactic(auto, unfolding(crate::specs::Ages::largest_unit))]
    pub fn largest_of(seconds: u64) -> AgeUnit
        ensures { result ≡ largest_unit seconds }
    {
        if seconds == 0 {
            return AgeUnit::Days;
        }
        if seconds % WEEK == 0 {
            return AgeUnit::Weeks;
        }
        if seconds % DAY == 0 {
            return AgeUnit::Days;
        }
        AgeUnit::Hours
    }

    /// Its length in seconds.
    pub fn seconds(self) -> u64
        ensures value { result ≡ seconds_in self }
        ensures some { 0 < result }
    {
        match self {
            AgeUnit::Hours => HOUR,
            AgeUnit::Days => DAY,
            AgeUnit::Weeks => WEEK,
        }
    }

    /// Its word in a manifest.
    pub fn word(self) -> &'static str
        ensures { result.now ≡ unit_word self }
    {
        match self {
            AgeUnit::Hours => "hours",
            AgeUnit::Days => "days",
            AgeUnit::Weeks => "weeks",
        }
    }
}
