//! The six tags of a study.
ghost use Rattle.std.specs.Prelude.{◌≡◌, ◌++◌, OnOk, IfOk};
ghost use Rattle.std.specs.List.{flat_map};
ghost use Rattle.std.specs.Option.{option_map};
ghost use Rattle.study_games.specs.Header.{tags_of, value_of};
ghost use Rattle.study_marks.specs.Study.{tag_name};
ghost use Rattle.study_tails.specs.Study.{with_wide_tag};
ghost use Rattle.study_import.specs.Blocks.{with_tags};
ghost use Rattle.study_import.specs.Blocks.{name_words, name_of, quoted, entry_names, original_named, was_words, latin_line, was_line, six_names, unknown_text, text_or_unknown, tag_value_text, tag_line};

use crate::masks::{Mask, add_masked};
use std::alloc::{AllocError, Allocator};
use study_command::as_text;
use study_games::{
    is_utf8, short_text, spell_out, tag_value, trim_end, trim_start, truncate, unescape,
};
use study_marks::{TagName, tag_name};
use study_remark::{Original, Remark, add_remark};
use study_tails::WideStudy;
use study_text::{Piece, Text, add_pieces};

/// The number of bytes of an original in a remark.
const LONGEST_ORIGINAL: usize = 255;

/// Adds the name, if it is known.
fn add_name<A: Allocator>(out: &mut Text<'_, A>, text: &[u8]) -> Result<(), AllocError>
    ensures { OnOk result (out.new ≡ out.old ++ name_words text.now) }
{
    if text == b"?".as_slice() {
        return Ok(());
    }
    add_masked(out, Mask::NoColon, text)
}

/// The value of a game's tag, as a remark has it; empty if it is not known.
fn name_of<'a, A: Allocator>(
    alloc: &'a A,
    game: &[u8],
    tag: TagName,
) -> Result<Text<'a, A>, AllocError>
    ensures { IfOk result (λ name. name ≡ name_of (value_of (tag_name tag) (tags_of game.now))) }
{
    let mut name = Text::new(alloc);
    if let Some(raw) = tag_value(game, tag_name(tag)) {
        let value = unescape(alloc, raw)?;
        let text = spell_out(alloc, value.as_slice())?;
        add_name(&mut name, short_text(text.as_slice()))?;
    }
    Ok(name)
}

fn add_quoted<A: Allocator>(out: &mut Text<'_, A>, text: &[u8]) -> Result<(), AllocError>
    ensures { OnOk result (out.new ≡ out.old ++ quoted text.now) }
{
    add_pieces(
        out,
        &[Piece::Bytes(b"\""), Piece::Bytes(text), Piece::Bytes(b"\"")],
    )
}

/// Author and title of a game, as a remark has them; empty if the game names neither.
#[tactic(auto, unfolding(crate::specs::Blocks::entry_names))]
pub fn entry_names<'a, A: Allocator>(alloc: &'a A, game: &[u8]) -> Result<Text<'a, A>, AllocError>
    ensures { IfOk result (λ names. names ≡ entry_names (tags_of game.now)) }
{
    let mut names = name_of(alloc, game, TagName::White)?;
    let title = name_of(alloc, game, TagName::Event)?;
    if title.as_slice().is_empty() {
        return Ok(names);
    }
    if !names.as_slice().is_empty() {
        names.add(b"; ")?;
    }
    add_quoted(&mut names, title.as_slice())?;
    Ok(names)
}

fn original_named(name: TagName) -> Original
    ensures { result ≡ original_named name }
{
    match name {
        TagName::Event => Original::Event,
        TagName::Site => Original::Site,
        TagName::Date => Original::Date,
        TagName::Round => Original::Round,
        TagName::White => Original::White,
        TagName::Black => Original::Black,
    }
}

/// Adds the original of a tag, if the text differs.
fn add_was<'a, A: Allocator>(
    alloc: &'a A,
    out: &mut Text<'_, A>,
    name: TagName,
    value: &[u8],
    text: &[u8],
) -> Result<(), AllocError>
    ensures { OnOk result (out.new ≡ out.old ++ was_words name value.now text.now) }
{
    if text == trim_end(trim_start(value)) {
        return Ok(());
    }
    let mut original = Text::new(alloc);
    add_masked(
        &mut original,
        Mask::Shown,
        truncate(value, LONGEST_ORIGINAL),
    )?;
    add_remark(
        out,
        &Remark::Original(original_named(name), original.as_slice()),
    )
}

/// Adds that the tag is read as Latin 1, if its bytes fit no UTF-8.
fn add_latin<A: Allocator>(
    out: &mut Text<'_, A>,
    name: TagName,
    value: &[u8],
) -> Result<(), AllocError>
    ensures { OnOk result (out.new ≡ out.old ++ latin_line name value.now) }
{
    if is_utf8(value) {
        return Ok(());
    }
    add_remark(out, &Remark::Latin1(original_named(name)))
}

#[tactic(auto, unfolding(crate::specs::Blocks::was_line))]
fn add_was_line<'a, A: Allocator>(
    alloc: &'a A,
    out: &mut Text<'_, A>,
    game: &[u8],
    name: TagName,
) -> Result<(), AllocError>
    ensures { OnOk result (out.new ≡ out.old ++ was_line (tags_of game.now) name) }
{
    match tag_value(game, tag_name(name)) {
        None => Ok(()),
        Some(raw) => {
            let value = unescape(alloc, raw)?;
            let text = spell_out(alloc, value.as_slice())?;
            add_was(
                alloc,
                out,
                name,
                value.as_slice(),
                short_text(text.as_slice()),
            )?;
            add_latin(out, name, value.as_slice())
        }
    }
}

fn six_names() -> [TagName; 6]
    ensures { result ≡ six_names }
{
    [
        TagName::Event,
        TagName::Site,
        TagName::Date,
        TagName::Round,
        TagName::White,
        TagName::Black,
    ]
}

/// Adds the originals of the six tags whose texts differ.
pub fn add_was_lines<'a, A: Allocator>(
    alloc: &'a A,
    out: &mut Text<'_, A>,
    game: &[u8],
) -> Result<(), AllocError>
    ensures { OnOk result (out.new ≡ out.old ++ flat_map (was_line (tags_of game.now)) six_names) }
{
    let names = six_names();
    let mut rest = names.as_slice();
    while let [name, more @ ..] = rest {
        add_was_line(alloc, out, game, *name)?;
        rest = more;
    }
    Ok(())
}

/// The text for an unknown tag.
fn unknown_text(name: TagName) -> &'static [u8]
    ensures { result.now ≡ unknown_text name }
{
    match name {
        TagName::Date => b"????.??.??",
        _ => b"?",
    }
}

fn add_text_or_unknown<A: Allocator>(
    out: &mut Text<'_, A>,
    name: TagName,
    text: &[u8],
) -> Result<(), AllocError>
    ensures { OnOk result (out.new ≡ out.old ++ text_or_unknown name text.now) }
{
    if text.is_empty() {
        out.add(unknown_text(name))
    } else {
        out.add(text)
    }
}

fn add_tag_value<'a, A: Allocator>(
    alloc: &'a A,
    out: &mut Text<'_, A>,
    name: TagName,
    raw: Option<&[u8]>,
) -> Result<(), AllocError>
    ensures { OnOk result (out.new ≡ out.old
        ++ tag_value_text name (option_map (λ v. v.now) raw.entry)) }
{
    match raw {
        None => out.add(unknown_text(name)),
        Some(raw) => {
            let value = unescape(alloc, raw)?;
            let text = spell_out(alloc, value.as_slice())?;
            add_text_or_unknown(out, name, short_text(text.as_slice()))
        }
    }
}

#[tactic(auto, unfolding(crate::specs::Blocks::tag_line))]
fn add_tag_line<'a, A: Allocator>(
    alloc: &'a A,
    out: &mut Text<'_, A>,
    game: &[u8],
    name: TagName,
) -> Result<(), AllocError>
    ensures { OnOk result (out.new ≡ out.old ++ tag_line (tags_of game.now) name) }
{
    add_pieces(
        out,
        &[
            Piece::Bytes(b"tag "),
            Piece::Bytes(tag_name(name)),
            Piece::Bytes(b" "),
        ],
    )?;
    add_tag_value(alloc, out, name, tag_value(game, tag_name(name)))?;
    out.add(b"\n")
}

/// Adds the lines of the six tags.
pub fn add_tag_lines<'a, A: Allocator>(
    alloc: &'a A,
    out: &mut Text<'_, A>,
    game: &[u8],
) -> Result<(), AllocError>
    ensures { OnOk result (out.new ≡ out.old ++ flat_map (tag_line (tags_of game.now)) six_names) }
{
    let names = six_names();
    let mut rest = names.as_slice();
    while let [name, more @ ..] = rest {
        add_tag_line(alloc, out, game, *name)?;
        rest = more;
    }
    Ok(())
}

/// Sets a tag of a study to the text of the game's.
#[tactic(auto, using(crate::proofs::TagsTaken::value_prints))]
fn set_tag<'a, A: Allocator>(
    alloc: &'a A,
    study: &mut WideStudy<'a, A>,
    game: &[u8],
    name: TagName,
) -> Result<(), AllocError>
    ensures { OnOk result (study.new ≡ with_wide_tag study.old name
        (tag_value_text name (value_of (tag_name name) (tags_of game.now)))) }
{
    let mut text = Text::new(alloc);
    add_tag_value(alloc, &mut text, name, tag_value(game, tag_name(name)))?;
    match study.set_tag(name, as_text(text.as_slice())) {
        Ok(()) => Ok(()),
        Err(_) => Err(AllocError),
    }
}

/// Sets the six tags of a study to the texts of the game's.
pub fn set_tags<'a, A: Allocator>(
    alloc: &'a A,
    study: &mut WideStudy<'a, A>,
    game: &[u8],
) -> Result<(), AllocError>
    ensures { OnOk result (study.new ≡ with_tags (tags_of game.now) six_names study.old) }
{
    let names = six_names();
    let mut rest = names.as_slice();
    while let [name, more @ ..] = rest {
        set_tag(alloc, study, game, *name)?;
        rest = more;
    }
    Ok(())
}
