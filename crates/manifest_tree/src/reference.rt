// References behind their `&`.
ghost use Rattle.std.specs.Prelude.{◌≡◌, ◌+◌, ◌*◌, ◌<◌, ◌≤◌, ◌^◌, length, IfSome, option_map};
ghost use Rattle.manifest_tree.specs.Lexis.{digit_of, base_of, digits_on as digits_behind, number_at, numbered_at, character_of, named_at, reference_at};
ghost use Rattle.manifest_tree.specs.Outcome.{found_at};

// What a digit stands for.
#[tactic(auto, unfolding(crate::specs::Lexis::digit_of))]
fn digit_value(byte: u8, hexadecimal: bool) -> Option<u32>
    ensures value { result ≡ digit_of hexadecimal byte }
    ensures small { IfSome result (λ d. d < 16) }
{
    if 48 <= byte && byte <= 57 {
        return Some(byte as u32 - 48);
    }
    if hexadecimal && 97 <= byte && byte <= 102 {
        return Some(byte as u32 - 87);
    }
    if hexadecimal && 65 <= byte && byte <= 70 {
        return Some(byte as u32 - 55);
    }
    None
}

fn base(hexadecimal: bool) -> u32
    ensures value { result ≡ base_of hexadecimal }
    ensures small { result ≤ 16 }
{
    if hexadecimal { 16 } else { 10 }
}

// At most so many digits more and then a `;`, behind those of the number.
fn digits_on(bytes: &[u8], hexadecimal: bool, more: u8, number: u32) -> Option<(u32, &[u8])>
    requires { (number + 1) * 16 ^ more ≤ 2 ^ 32 }
    ensures found { option_map found_at result ≡ digits_behind hexadecimal more number bytes.now }
    ensures shorter { IfSome result (λ x. length x.1.now < length bytes.now) }
{
    let (first, tail) = bytes.split_first()?;
    if *first == b';' {
        return Some((number, tail));
    }
    if more == 0 {
        return None;
    }
    let digit = digit_value(*first, hexadecimal)?;
    digits_on(
        tail,
        hexadecimal,
        more - 1,
        number * base(hexadecimal) + digit,
    )
}

// One to eight digits and a `;`.
fn number(bytes: &[u8], hexadecimal: bool) -> Option<(u32, &[u8])>
    ensures found { option_map found_at result ≡ number_at hexadecimal bytes.now }
    ensures shorter { IfSome result (λ x. length x.1.now < length bytes.now) }
{
    let (first, tail) = bytes.split_first()?;
    let digit = digit_value(*first, hexadecimal)?;
    digits_on(tail, hexadecimal, 7, digit)
}

// The character of a number, if a text may hold it.
#[tactic(auto, unfolding(crate::specs::Lexis::is_character, crate::specs::Lexis::allowed))]
fn character(number: u32) -> Option<char>
    ensures { result ≡ character_of number }
{
    if number < 32 && number != 9 && number != 10 && number != 13 {
        return None;
    }
    char::from_u32(number)
}

// The five characters that have names.
#[tactic(auto, unfolding(crate::specs::Lexis::named_at))]
fn named(bytes: &[u8]) -> Option<(char, &[u8])>
    ensures found { option_map found_at result ≡ named_at bytes.now }
    ensures shorter { IfSome result (λ x. length x.1.now < length bytes.now) }
{
    if bytes.starts_with(b"lt;") {
        return Some(('<', &bytes[3..]));
    }
    if bytes.starts_with(b"gt;") {
        return Some(('>', &bytes[3..]));
    }
    if bytes.starts_with(b"amp;") {
        return Some(('&', &bytes[4..]));
    }
    if bytes.starts_with(b"quot;") {
        return Some(('"', &bytes[5..]));
    }
    if bytes.starts_with(b"apos;") {
        return Some(('\'', &bytes[5..]));
    }
    None
}

#[tactic(auto, unfolding(crate::specs::Lexis::numbered_at))]
fn numbered(bytes: &[u8], hexadecimal: bool) -> Option<(char, &[u8])>
    ensures found { option_map found_at result ≡ numbered_at hexadecimal bytes.now }
    ensures shorter { IfSome result (λ x. length x.1.now < length bytes.now) }
{
    let (number, rest) = number(bytes, hexadecimal)?;
    Some((character(number)?, rest))
}

// The character that the reference names, and what follows it.
#[tactic(auto, unfolding(crate::specs::Lexis::reference_at))]
pub(crate) fn reference(bytes: &[u8]) -> Option<(char, &[u8])>
    ensures found { option_map found_at result ≡ reference_at bytes.now }
    ensures shorter { IfSome result (λ x. length x.1.now < length bytes.now) }
{
    if bytes.starts_with(b"#x") {
        return numbered(&bytes[2..], true);
    }
    if bytes.starts_with(b"#") {
        return numbered(&bytes[1..], false);
    }
    named(bytes)
}
