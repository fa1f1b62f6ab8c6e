//! The tags of a study, as far as they are known, and in their own letters.
ghost use Rattle.std.specs.Prelude.{◌≡◌, ◌++◌, Some, OnOk, IfOk};
ghost use Rattle.std.specs.List.{list_all, flat_map};
ghost use Rattle.study_marks.specs.BenchState.{marked_study};
ghost use Rattle.study_marks.specs.Study.{tag_of};
ghost use Rattle.study_head.specs.Known.{says_nothing, known_words, without_part, date_words};
ghost use Rattle.study_head.specs.Known.{latin_letter, in_utf8, is_spelled, words_or_own, named_words};

use std::alloc::{AllocError, Allocator};
use study_entry::Name;
use study_games::{is_utf8, short_text, spell_out};
use study_html::add_visible;
use study_marks::{Bench, TagName};
use study_text::Text;

/// Whether these words say nothing: PGN has `?` for what is not known, and `????.??.??` for a date.
fn says_nothing(words: &[u8]) -> bool
    ensures { result ≡ list_all says_nothing words.now }
{
    words.iter().all(|b| *b == b'?' || *b == b'.')
}

/// What a tag says: nothing where it is not known.
fn known_words(words: &[u8]) -> &[u8]
    ensures { result.now ≡ known_words (Some words.now) }
{
    if says_nothing(words) { b"" } else { words }
}

/// A date without its last part, if that is not known.
#[tactic(auto, unfolding(crate::specs::Known::without_part))]
fn without_part(date: &[u8]) -> &[u8]
    ensures { result.now ≡ without_part date.now }
{
    match date.strip_suffix(b".??") {
        Some(rest) => rest,
        None => date,
    }
}

/// `1921` for `1921.??.??`.
pub fn date_words(date: &[u8]) -> &[u8]
    ensures { result.now ≡ date_words date.now }
{
    without_part(without_part(date))
}

/// Adds a byte of Latin 1 as UTF-8.
fn add_latin_letter<A: Allocator>(text: &mut Text<'_, A>, byte: u8) -> Result<(), AllocError>
    ensures { OnOk result (text.new ≡ text.old ++ latin_letter byte) }
{
    if 160 <= byte {
        return text.add(&[192 + byte / 64, 128 + byte % 64]);
    }
    if 128 <= byte {
        return add_visible(text, byte);
    }
    text.add(&[byte])
}

fn add_latin_letters<A: Allocator>(text: &mut Text<'_, A>, bytes: &[u8]) -> Result<(), AllocError>
    ensures { OnOk result (text.new ≡ text.old ++ flat_map latin_letter bytes.now) }
{
    for byte in bytes {
        add_latin_letter(text, *byte)?;
    }
    Ok(())
}

/// Adds a text of UTF-8 or Latin 1 as UTF-8.
#[tactic(auto, unfolding(crate::specs::Known::in_utf8))]
pub fn add_in_utf8<A: Allocator>(text: &mut Text<'_, A>, bytes: &[u8]) -> Result<(), AllocError>
    ensures { OnOk result (text.new ≡ text.old ++ in_utf8 bytes.now) }
{
    if is_utf8(bytes) {
        return text.add(bytes);
    }
    add_latin_letters(text, bytes)
}

/// Whether a tag is what an import spells for this text.
#[tactic(auto, unfolding(crate::specs::Known::is_spelled))]
fn is_spelled<'a, A: Allocator>(alloc: &'a A, own: &[u8], tag: &[u8]) -> Result<bool, AllocError>
    ensures { IfOk result (λ is. is ≡ is_spelled own.now tag.now) }
{
    let text = spell_out(alloc, own)?;
    Ok(tag == short_text(text.as_slice()))
}

/// Adds what is printed for a tag with these words.
fn add_named<'a, A: Allocator>(
    alloc: &'a A,
    text: &mut Text<'_, A>,
    own: &[u8],
    tag: &[u8],
) -> Result<(), AllocError>
    ensures { OnOk result (text.new ≡ text.old ++ words_or_own own.now tag.now) }
{
    if is_spelled(alloc, own, tag)? {
        return add_in_utf8(text, own);
    }
    text.add(known_words(tag))
}

/// What is printed for a tag: its own letters, as long as the tag is what an import spells for them, else what it says; nothing where it is not known.
pub fn named_tag<'a, 'b, A: Allocator, B: Allocator>(
    alloc: &'a A,
    bench: &Bench<'b, B>,
    name: TagName,
    own: &Name,
) -> Result<Text<'a, A>, AllocError>
    ensures { IfOk result (λ text.
        text ≡ named_words own.now (tag_of (marked_study bench.now).tags name)) }
{
    let mut text = Text::new(alloc);
    match bench.tag(name) {
        None => Ok(text),
        Some(tag) => {
            add_named(alloc, &mut text, own.as_slice(), tag.as_bytes())?;
            Ok(text)
        }
    }
}
