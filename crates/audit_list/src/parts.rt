// Texts that are cut at each separator, where they have so many parts.
ghost use Rattle.std.specs.Prelude.{◌≡◌, ◌≢◌, [], ◌∷◌, length, IfSome, IfNone};
ghost use Rattle.small_types.specs.Cuts.{parts_between};

use small_types::cut_once;

/// The parts, where there are two.
pub(crate) fn two_parts(bytes: &[u8], separator: u8) -> Option<(&[u8], &[u8])>
    ensures parts { IfSome result
        (λ x. parts_between separator bytes.now ≡ x.0.now ∷ x.1.now ∷ []) }
    ensures count { IfNone result (length (parts_between separator bytes.now) ≢ 2) }
{
    let (first, rest) = cut_once(bytes, separator)?;
    match cut_once(rest, separator) {
        Some(_) => None,
        None => Some((first, rest)),
    }
}

/// The parts, where there are three.
pub(crate) fn three_parts(bytes: &[u8], separator: u8) -> Option<(&[u8], &[u8], &[u8])>
    ensures parts { IfSome result
        (λ x. parts_between separator bytes.now ≡ x.0.now ∷ x.1.now ∷ x.2.now ∷ []) }
    ensures count { IfNone result (length (parts_between separator bytes.now) ≢ 3) }
{
    let (first, rest) = cut_once(bytes, separator)?;
    let (second, third) = two_parts(rest, separator)?;
    Some((first, second, third))
}
