// Cutting a text at its separators.
ghost use Rattle.std.specs.Prelude.{◌≡◌, [], ◌∷◌, ◌==◌, position, IfSome, IfNone};
ghost use Rattle.small_types.specs.Cuts.{parts_between};

// Where the first separator stands.
fn place_of(bytes: &[u8], separator: u8) -> Option<usize>
    ensures { result ≡ position (λ b. b == separator) bytes.now }
{
    bytes.iter().position(|b| *b == separator)
}

/// The bytes before the first separator and those after it, where there is one.
pub fn cut_once(bytes: &[u8], separator: u8) -> Option<(&[u8], &[u8])>
    ensures found { IfSome result
        (λ x. parts_between separator bytes.now ≡ x.0.now ∷ parts_between separator x.1.now) }
    ensures none { IfNone result (parts_between separator bytes.now ≡ bytes.now ∷ []) }
{
    let Some(place) = place_of(bytes, separator) else {
        return None;
    };
    Some((&bytes[..place], &bytes[place + 1..]))
}
