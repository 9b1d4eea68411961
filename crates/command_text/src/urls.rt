// Addresses as lines give them.
ghost use Rattle.std.specs.Prelude.{◌≡◌};
ghost use Rattle.std.specs.List.{list_all};
ghost use Rattle.command_text.specs.Lines.{is_url, is_visible};

use small_types::limits::URL_LIMIT;

// Whether the byte is a visible one.
fn is_visible(byte: u8) -> bool
    ensures { result ≡ is_visible byte }
{
    33 <= byte && byte <= 126
}

// Whether all bytes are.
fn are_visible(bytes: &[u8]) -> bool
    ensures { result ≡ list_all is_visible bytes.now }
{
    bytes.iter().all(|byte| is_visible(*byte))
}

/// Whether the word may be an address: 1 to 2,048 bytes, all of them visible. It takes no memory.
#[tactic(auto, unfolding(crate::specs::Lines::is_url))]
pub(crate) fn is_url(word: &[u8]) -> bool
    ensures { result ≡ is_url word.now }
{
    if word.is_empty() || word.len() > URL_LIMIT {
        return false;
    }
    are_visible(word)
}
