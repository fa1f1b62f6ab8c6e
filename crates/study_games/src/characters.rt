//! The characters of a text, in UTF-8 or in Latin 1.
ghost use Rattle.std.specs.Prelude.{◌≡◌, ◌≤◌, ◌-◌, true, Some, None, if◌then◌else◌};
ghost use Rattle.std.specs.Option.{option_map};
ghost use Rattle.study_games.specs.Characters.{is_next, code_of_two, code_of_three, code_of_four, is_two, is_three, is_four, one_byte, two_bytes};
ghost use Rattle.study_games.specs.Characters.{three_bytes, four_bytes, character_at, is_utf8, latin_at, read_at};

fn is_next(b: u8) -> bool
    ensures { result ≡ is_next b }
{
    128 <= b && b <= 191
}

/// The bits of a later byte of a character.
fn low_bits(b: u8) -> u32
    requires { is_next b ≡ true }
    ensures value { result ≡ b - 128 }
    ensures small { result ≤ 63 }
{
    (b - 128) as u32
}

fn one_byte(text: &[u8]) -> Option<(u32, &[u8])>
    ensures { option_map (λ x. (x.0, x.1.now)) result ≡ one_byte text.now }
{
    match text {
        [a, rest @ ..] if *a <= 127 => Some((*a as u32, rest)),
        _ => None,
    }
}

/// The number of a character of two bytes.
fn code_of_two(a: u8, b: u8) -> Option<u32>
    ensures { result ≡ if is_two a b then Some (code_of_two a b) else None }
{
    if 194 <= a && a <= 223 && is_next(b) {
        Some((a - 192) as u32 * 64 + low_bits(b))
    } else {
        None
    }
}

fn two_bytes(text: &[u8]) -> Option<(u32, &[u8])>
    ensures { option_map (λ x. (x.0, x.1.now)) result ≡ two_bytes text.now }
{
    match text {
        [a, b, rest @ ..] => match code_of_two(*a, *b) {
            Some(code) => Some((code, rest)),
            None => None,
        },
        _ => None,
    }
}

/// The number of a character of three bytes.
fn code_of_three(a: u8, b: u8, c: u8) -> Option<u32>
    ensures { result ≡ if is_three a b c then Some (code_of_three a b c) else None }
{
    if 224 <= a && a <= 239 && is_next(b) && is_next(c) {
        let code = (a - 224) as u32 * 4096 + (low_bits(b) * 64 + low_bits(c));
        if 2048 <= code && (code <= 55295 || 57344 <= code) {
            return Some(code);
        }
    }
    None
}

fn three_bytes(text: &[u8]) -> Option<(u32, &[u8])>
    ensures { option_map (λ x. (x.0, x.1.now)) result ≡ three_bytes text.now }
{
    match text {
        [a, b, c, rest @ ..] => match code_of_three(*a, *b, *c) {
            Some(code) => Some((code, rest)),
            None => None,
        },
        _ => None,
    }
}

/// The number of a character of four bytes.
fn code_of_four(a: u8, b: u8, c: u8, d: u8) -> Option<u32>
    ensures { result ≡ if is_four a b c d then Some (code_of_four a b c d) else None }
{
    if 240 <= a && a <= 244 && is_next(b) && is_next(c) && is_next(d) {
        let low = low_bits(b) * 4096 + (low_bits(c) * 64 + low_bits(d));
        let code = (a - 240) as u32 * 262144 + low;
        if 65536 <= code && code <= 1114111 {
            return Some(code);
        }
    }
    None
}

fn four_bytes(text: &[u8]) -> Option<(u32, &[u8])>
    ensures { option_map (λ x. (x.0, x.1.now)) result ≡ four_bytes text.now }
{
    match text {
        [a, b, c, d, rest @ ..] => match code_of_four(*a, *b, *c, *d) {
            Some(code) => Some((code, rest)),
            None => None,
        },
        _ => None,
    }
}

/// The number of the UTF-8 character with which the text begins, and the rest.
#[tactic(auto, unfolding(crate::specs::Characters::character_at))]
fn character_at(text: &[u8]) -> Option<(u32, &[u8])>
    ensures { option_map (λ x. (x.0, x.1.now)) result ≡ character_at text.now }
{
    if let Some(found) = one_byte(text) {
        return Some(found);
    }
    if let Some(found) = two_bytes(text) {
        return Some(found);
    }
    if let Some(found) = three_bytes(text) {
        return Some(found);
    }
    four_bytes(text)
}

/// Whether the text is UTF-8.
#[tactic(auto, unfolding(crate::specs::Characters::is_utf8), using(crate::proofs::Fuel::utf8_more))]
pub fn is_utf8(text: &[u8]) -> bool
    ensures { result ≡ is_utf8 text.now }
{
    let mut rest = text;
    let mut fuel = text.len();
    while fuel > 0 {
        if rest.is_empty() {
            return true;
        }
        let Some((_, behind)) = character_at(rest) else {
            return false;
        };
        rest = behind;
        fuel -= 1;
    }
    rest.is_empty()
}

fn latin_at(text: &[u8]) -> Option<(u32, &[u8])>
    ensures { option_map (λ x. (x.0, x.1.now)) result ≡ latin_at text.now }
{
    match text {
        [b, rest @ ..] => Some((*b as u32, rest)),
        [] => None,
    }
}

/// The number of the first character, in UTF-8 or in Latin 1, and the rest.
pub fn read_at(text: &[u8], utf8: bool) -> Option<(u32, &[u8])>
    ensures { option_map (λ x. (x.0, x.1.now)) result ≡ read_at utf8 text.now }
{
    if utf8 {
        character_at(text)
    } else {
        latin_at(text)
    }
}
