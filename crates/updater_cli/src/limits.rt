// The numbers that a session is limited by.
ghost use Rattle.std.specs.Prelude.{◌≡◌};

/// The most bytes of a session's input.
pub const INPUT_LIMIT: usize = 4_294_967_296;

/// Which number it is.
pub fn input_limit_is()
    ensures { INPUT_LIMIT ≡ 4_294_967_296 }
{}
