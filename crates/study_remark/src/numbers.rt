//! Words and numbers in the text of a remark.
ghost use Rattle.std.specs.Prelude.{◌≡◌, ◌≤◌, ◌^◌, drop};
ghost use Rattle.std.specs.Option.{option_map};
ghost use Rattle.study_remark.specs.Reading.{after_word, is_digit, begins_digit, with_digit, digits_after, number_at, number_after, pair_in};

/// One more than the largest number of a remark.
const TOO_LARGE: u64 = 4_294_967_296;

/// The text behind so many bytes.
fn behind(text: &[u8], count: usize) -> &[u8]
    ensures { result.now ≡ drop count text.now }
{
    if text.len() < count {
        return &text[text.len()..];
    }
    &text[count..]
}

/// The text behind a word, if it begins with it.
pub fn after_word<'t>(text: &'t [u8], word: &[u8]) -> Option<&'t [u8]>
    ensures { option_map (λ t. t.now) result ≡ after_word word.now text.now }
{
    if text.starts_with(word) {
        Some(behind(text, word.len()))
    } else {
        None
    }
}

fn is_digit(byte: u8) -> bool
    ensures { result ≡ is_digit byte }
{
    b'0' <= byte && byte <= b'9'
}

fn begins_digit(text: &[u8]) -> bool
    ensures { result ≡ begins_digit text.now }
{
    match text {
        [first, ..] => is_digit(*first),
        [] => false,
    }
}

/// A number with one digit more.
fn with_digit(number: u64, digit: u8) -> u64
    requires { number ≤ 2 ^ 32 }
    ensures value { result ≡ with_digit number digit }
    ensures within { result ≤ 2 ^ 32 }
{
    let longer = 10 * number + digit.saturating_sub(b'0') as u64;
    if longer < TOO_LARGE {
        longer
    } else {
        TOO_LARGE
    }
}

/// The number that the digits in front spell, and the text behind them.
fn cut_digits(text: &[u8]) -> (u64, &[u8])
    ensures { (result.0, result.1.now) ≡ digits_after 0 text.now }
{
    let mut number = 0u64;
    let mut rest = text;
    while let [first, more @ ..] = rest {
        if !is_digit(*first) {
            return (number, rest);
        }
        number = with_digit(number, *first);
        rest = more;
    }
    (number, rest)
}

/// The number in front, and the text behind it.
#[tactic(auto, unfolding(crate::specs::Reading::number_at))]
pub fn number_at(text: &[u8]) -> Option<(u32, &[u8])>
    ensures { option_map (λ cut. (cut.0, cut.1.now)) result ≡ number_at text.now }
{
    if !begins_digit(text) {
        return None;
    }
    let (number, rest) = cut_digits(text);
    if number >= TOO_LARGE {
        return None;
    }
    Some((number as u32, rest))
}

/// The number behind a word, and the text behind it.
pub fn number_after<'t>(text: &'t [u8], word: &[u8]) -> Option<(u32, &'t [u8])>
    ensures { option_map (λ cut. (cut.0, cut.1.now)) result ≡ number_after word.now text.now }
{
    match after_word(text, word) {
        Some(digits) => number_at(digits),
        None => None,
    }
}

/// Two numbers, each behind its word, if there is nothing more.
pub fn read_pair(text: &[u8], word: &[u8], between: &[u8]) -> Option<(u32, u32)>
    ensures { result ≡ pair_in word.now between.now text.now }
{
    let (first, rest) = number_after(text, word)?;
    let (second, rest) = number_after(rest, between)?;
    if rest.is_empty() {
        Some((first, second))
    } else {
        None
    }
}
