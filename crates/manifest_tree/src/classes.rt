// The classes of bytes.
ghost use Rattle.std.specs.Prelude.{◌≡◌, IfSome};
ghost use Rattle.manifest_tree.specs.Lexis.{white, allowed, name_first, name_byte};

// Space, tab, line feed and carriage return.
#[tactic(auto, unfolding(crate::specs::Lexis::white))]
pub(crate) fn is_white(byte: u8) -> bool
    ensures { result ≡ white byte }
{
    byte == 32 || byte == 9 || byte == 10 || byte == 13
}

// What may stand in a text.
#[tactic(auto, unfolding(crate::specs::Lexis::allowed))]
pub(crate) fn is_allowed(byte: u8) -> bool
    ensures { result ≡ allowed byte }
{
    byte >= 32 || byte == 9 || byte == 10 || byte == 13
}

// Letters, `_`, `:` and bytes of 128 and more: what a name begins with.
#[tactic(auto, unfolding(crate::specs::Lexis::name_first))]
pub(crate) fn begins_name(byte: u8) -> bool
    ensures { result ≡ name_first byte }
{
    byte >= 128
        || byte == 95
        || byte == 58
        || (97 <= byte && byte <= 122)
        || (65 <= byte && byte <= 90)
}

// What a name has after its first byte too: digits, `-` and `.`.
#[tactic(auto, unfolding(crate::specs::Lexis::name_byte))]
pub(crate) fn is_name(byte: u8) -> bool
    ensures { result ≡ name_byte byte }
{
    begins_name(byte) || (48 <= byte && byte <= 57) || byte == 45 || byte == 46
}

pub(crate) fn is_digit(byte: u8) -> bool {
    48 <= byte && byte <= 57
}
