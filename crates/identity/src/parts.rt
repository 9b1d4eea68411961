// The parts between separators.
ghost use Rattle.std.specs.Prelude.{◌≡◌, ◌≢◌, [], ◌∷◌, length, IfSome, IfNone};
ghost use Rattle.small_types.specs.Cuts.{parts_between};

use small_types::cut_once;

/// Four parts of a text, from the left.
#[derive(Clone, Copy)]
pub(crate) struct FourParts<'a> {
    pub(crate) first: &'a [u8],
    pub(crate) second: &'a [u8],
    pub(crate) third: &'a [u8],
    pub(crate) fourth: &'a [u8],
}

/// The parts between the separators, where there are four.
pub(crate) fn four_parts(bytes: &[u8], separator: u8) -> Option<FourParts<'_>>
    ensures parts { IfSome result (λ p. parts_between separator bytes.now
        ≡ p.first.now ∷ p.second.now ∷ p.third.now ∷ p.fourth.now ∷ []) }
    ensures count { IfNone result (length (parts_between separator bytes.now) ≢ 4) }
{
    let (first, rest) = cut_once(bytes, separator)?;
    let (second, rest) = cut_once(rest, separator)?;
    let (third, fourth) = cut_once(rest, separator)?;
    match cut_once(fourth, separator) {
        Some(_) => None,
        None => Some(FourParts {
            first,
            second,
            third,
            fourth,
        }),
    }
}
