//! The text of a tag's value in printable ASCII.
ghost use Rattle.std.specs.Prelude.{◌≡◌, ◌++◌, OnOk, IfOk};
ghost use Rattle.study_games.specs.Ascii.{first_or, behind_or, word_at, latin_1, latin_a, romanian, cyrillic, ukrainian, marks, letters_of, ascii_of};
ghost use Rattle.study_games.specs.Ascii.{spelled_out, short_text};
ghost use Rattle.study_games.specs.Words.{first_word};

use crate::characters::{is_utf8, read_at};
use crate::words::{next_word, trim_end, trim_start, truncate};
use std::alloc::{AllocError, Allocator};
use study_text::Text;

/// The largest length of a tag's text.
pub const LONGEST_TAG: usize = 60;

/// Latin 1, from U+00A1 on.
#[tactic(auto, unfolding(crate::specs::Ascii::latin_1))]
fn latin_1() -> &'static [u8]
    ensures { result.now ≡ latin_1 }
{
    b"? ? ? ? ? ? ? ? ? ? ? ? ? ? ? ? ? ? ? ? ? ? ? ? ? ? ? 1/4 1/2 3/4 ? A A A A A A AE C E E E E I I I I D N O O O \
      O O x O U U U U Y Th ss a a a a a a ae c e e e e i i i i d n o o o o o / o u u u u y th y"
}

/// Latin Extended A, from U+0100 on.
#[tactic(auto, unfolding(crate::specs::Ascii::latin_a))]
fn latin_a() -> &'static [u8]
    ensures { result.now ≡ latin_a }
{
    b"A a A a A a C c C c C c C c D d D d E e E e E e E e E e G g G g G g G g H h H h I i I i I i I i I i IJ ij J j \
      K k k L l L l L l L l L l N n N n N n n N n O o O o O o OE oe R r R r R r S s S s S s S s T t T t T t U u U u \
      U u U u U u U u W w Y y Y Z z Z z Z z s"
}

/// Romanian, from U+0218 on.
#[tactic(auto, unfolding(crate::specs::Ascii::romanian))]
fn romanian() -> &'static [u8]
    ensures { result.now ≡ romanian }
{
    b"S s T t"
}

/// Cyrillic, from U+0401 on.
#[tactic(auto, unfolding(crate::specs::Ascii::cyrillic))]
fn cyrillic() -> &'static [u8]
    ensures { result.now ≡ cyrillic }
{
    b"Yo ? ? Ye ? I Yi ? ? ? ? ? ? U ? A B V G D E Zh Z I J K L M N O P R S T U F Kh C Ch Sh Shch ' Y ' E Yu Ya a b \
      v g d e zh z i j k l m n o p r s t u f kh c ch sh shch ' y ' e yu ya ? yo ? ? ye ? i yi ? ? ? ? ? ? u"
}

/// Ukrainian, from U+0490 on.
#[tactic(auto, unfolding(crate::specs::Ascii::ukrainian))]
fn ukrainian() -> &'static [u8]
    ensures { result.now ≡ ukrainian }
{
    b"G g"
}

/// Dashes, quotation marks, an ellipsis and primes, from U+2010 on.
#[tactic(auto, unfolding(crate::specs::Ascii::marks))]
fn marks() -> &'static [u8]
    ensures { result.now ≡ marks }
{
    b"- - - - - - ? ? ' ' ' ' ' ' ' ' ? ? ? ? ? ? ... ? ? ? ? ? ? ? ? ? ? ? ' '"
}

/// The first word of a table, and the rest.
fn cut_table(table: &[u8]) -> (&[u8], &[u8])
    ensures first { result.0.now ≡ first_or (first_word table.now) }
    ensures behind { result.1.now ≡ behind_or (first_word table.now) }
{
    match next_word(table) {
        Some(found) => found,
        None => (b"?", b""),
    }
}

/// The word of a table at a place, counted from 0.
#[tactic(auto, using(crate::proofs::Fuel::word_more))]
fn word_at(table: &[u8], place: u32) -> &[u8]
    ensures { result.now ≡ word_at place table.now }
{
    let mut rest = table;
    let mut left = place;
    while left > 0 {
        let (_, behind) = cut_table(rest);
        rest = behind;
        left -= 1;
    }
    let (word, _) = cut_table(rest);
    word
}

/// The text for a character outside of ASCII.
fn letters_of(c: u32) -> &'static [u8]
    ensures { result.now ≡ letters_of c }
{
    if 161 <= c && c <= 255 {
        word_at(latin_1(), c - 161)
    } else if 256 <= c && c <= 383 {
        word_at(latin_a(), c - 256)
    } else if 536 <= c && c <= 539 {
        word_at(romanian(), c - 536)
    } else if 1025 <= c && c <= 1118 {
        word_at(cyrillic(), c - 1025)
    } else if 1168 <= c && c <= 1169 {
        word_at(ukrainian(), c - 1168)
    } else if 8208 <= c && c <= 8243 {
        word_at(marks(), c - 8208)
    } else {
        b"?"
    }
}

/// Adds the text for a character.
#[tactic(auto, unfolding(crate::specs::Ascii::ascii_of))]
fn add_character<A: Allocator>(out: &mut Text<'_, A>, c: u32) -> Result<(), AllocError>
    ensures { OnOk result (out.new ≡ out.old ++ ascii_of c) }
{
    if c <= 31 || c == 127 || c == 160 {
        out.add(b" ")
    } else if c <= 126 {
        out.add(&[c as u8])
    } else if c == 173 {
        Ok(())
    } else {
        out.add(letters_of(c))
    }
}

/// A value in ASCII.
#[tactic(auto, unfolding(crate::specs::Ascii::spelled_out), using(crate::proofs::Fuel::spelled_more))]
pub fn spell_out<'a, A: Allocator>(alloc: &'a A, value: &[u8]) -> Result<Text<'a, A>, AllocError>
    ensures { IfOk result (λ text. text ≡ spelled_out value.now) }
{
    let utf8 = is_utf8(value);
    let mut out = Text::new(alloc);
    let mut rest = value;
    let mut fuel = value.len();
    while fuel > 0 {
        let Some((c, behind)) = read_at(rest, utf8) else {
            return Ok(out);
        };
        add_character(&mut out, c)?;
        rest = behind;
        fuel -= 1;
    }
    Ok(out)
}

/// The text without spaces at its ends, and 60 bytes of it at most.
#[tactic(auto, unfolding(crate::specs::Ascii::short_text))]
pub fn short_text(text: &[u8]) -> &[u8]
    ensures { result.now ≡ short_text text.now }
{
    trim_end(truncate(trim_start(text), LONGEST_TAG))
}
