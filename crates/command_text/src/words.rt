// The words of a line, which one space each separates.
ghost use Rattle.std.specs.Prelude.{◌≡◌, ◌≢◌, [], ◌∷◌, length, IfSome, IfNone};
ghost use Rattle.std.specs.Option.{option_copied};
ghost use Rattle.command_text.specs.Lines.{words_of, words_behind};

use small_types::cut_once;

/// The bytes before the first space, and those behind it where there is one.
pub(crate) fn first_word(line: &[u8]) -> (&[u8], Option<&[u8]>)
    ensures { words_of line.now ≡ result.0.now ∷ words_behind (option_copied result.1) }
{
    match cut_once(line, b' ') {
        Some((first, rest)) => (first, Some(rest)),
        None => (line, None),
    }
}

/// The word, where there is one.
pub(crate) fn one_word(line: &[u8]) -> Option<&[u8]>
    ensures words { IfSome result (λ w. words_of line.now ≡ w.now ∷ []) }
    ensures count { IfNone result (length (words_of line.now) ≢ 1) }
{
    let (word, more) = first_word(line);
    match more {
        Some(_) => None,
        None => Some(word),
    }
}

/// The words, where there are two.
pub(crate) fn two_words(line: &[u8]) -> Option<(&[u8], &[u8])>
    ensures words { IfSome result (λ w. words_of line.now ≡ w.0.now ∷ w.1.now ∷ []) }
    ensures count { IfNone result (length (words_of line.now) ≢ 2) }
{
    let (first, rest) = first_word(line);
    let (second, more) = first_word(rest?);
    match more {
        Some(_) => None,
        None => Some((first, second)),
    }
}

/// The words, where there are three.
pub(crate) fn three_words(line: &[u8]) -> Option<(&[u8], &[u8], &[u8])>
    ensures words { IfSome result (λ w. words_of line.now ≡ w.0.now ∷ w.1.now ∷ w.2.now ∷ []) }
    ensures count { IfNone result (length (words_of line.now) ≢ 3) }
{
    let (first, rest) = first_word(line);
    let (second, rest) = first_word(rest?);
    let (third, more) = first_word(rest?);
    match more {
        Some(_) => None,
        None => Some((first, second, third)),
    }
}

/// The words, where there are four.
pub(crate) fn four_words(line: &[u8]) -> Option<(&[u8], &[u8], &[u8], &[u8])>
    ensures words { IfSome result
        (λ w. words_of line.now ≡ w.0.now ∷ w.1.now ∷ w.2.now ∷ w.3.now ∷ []) }
    ensures count { IfNone result (length (words_of line.now) ≢ 4) }
{
    let (first, rest) = first_word(line);
    let (second, rest) = first_word(rest?);
    let (third, rest) = first_word(rest?);
    let (fourth, more) = first_word(rest?);
    match more {
        Some(_) => None,
        None => Some((first, second, third, fourth)),
    }
}
