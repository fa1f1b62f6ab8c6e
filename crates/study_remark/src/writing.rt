//! Remarks written into a script.
ghost use Rattle.std.specs.Prelude.{◌≡◌, ◌++◌, OnOk, decimal};
ghost use Rattle.study_remark.specs.Remarks.{column_words, author_words, subject_words, stipulated_words, source_words, doubt_words, original_name};
ghost use Rattle.study_remark.specs.Remarks.{remark_words, remark_text, game_seen, remark_seen};

use crate::{Doubt, Original, Remark, Source, Subject};
use std::alloc::{AllocError, Allocator};
use study_text::Text;

fn add_column<A: Allocator>(out: &mut Text<'_, A>, column: Option<u32>) -> Result<(), AllocError>
    ensures { OnOk result (out.new ≡ out.old ++ column_words column) }
{
    match column {
        None => Ok(()),
        Some(column) => {
            out.add(b", column ")?;
            out.add_number(column)
        }
    }
}

fn add_author<A: Allocator>(out: &mut Text<'_, A>, author: &[u8]) -> Result<(), AllocError>
    ensures { OnOk result (out.new ≡ out.old ++ author_words author.now) }
{
    if author.is_empty() {
        return Ok(());
    }
    out.add(b" (")?;
    out.add(author)?;
    out.add(b")")
}

/// Adds `game 4, line 52, column 17 (Author): `.
#[tactic(auto, unfolding(crate::specs::Remarks::subject_words))]
fn add_subject<A: Allocator>(out: &mut Text<'_, A>, subject: &Subject<'_>) -> Result<(), AllocError>
    ensures { OnOk result (out.new ≡ out.old ++ subject_words (game_seen subject.now)) }
{
    out.add(b"game ")?;
    out.add_number(subject.game)?;
    out.add(b", line ")?;
    out.add_number(subject.line)?;
    add_column(out, subject.column)?;
    add_author(out, subject.author)?;
    out.add(b": ")
}

fn source_words(source: Source) -> &'static [u8]
    ensures { result.now ≡ source_words source }
{
    match source {
        Source::Comment => b"its comment",
        Source::StipulationTag => b"its tag Stipulation",
        Source::ResultTag => b"its tag Result",
        Source::Result => b"its result",
        Source::Given => b"the option",
    }
}

fn doubt_words(doubt: Doubt) -> &'static [u8]
    ensures { result.now ≡ doubt_words doubt }
{
    match doubt {
        Doubt::CommentUnread => b"of its comment is not understood",
        Doubt::TagUnread => b"of its tag Stipulation is not understood",
        Doubt::TagDiffers => b"differs from its tag Stipulation",
        Doubt::ResultTagDiffers => b"differs from its tag Result",
        Doubt::ResultDiffers => b"differs from its result",
    }
}

fn original_name(original: Original) -> &'static [u8]
    ensures { result.now ≡ original_name original }
{
    match original {
        Original::Event => b"Event",
        Original::Site => b"Site",
        Original::Date => b"Date",
        Original::Round => b"Round",
        Original::White => b"White",
        Original::Black => b"Black",
    }
}

/// Adds two numbers, each behind its words.
fn add_pair<A: Allocator>(
    out: &mut Text<'_, A>,
    words: &[u8],
    first: u32,
    between: &[u8],
    second: u32,
) -> Result<(), AllocError>
    ensures { OnOk result (out.new ≡ out.old
        ++ (words.now ++ (decimal first ++ (between.now ++ decimal second)))) }
{
    out.add(words)?;
    out.add_number(first)?;
    out.add(between)?;
    out.add_number(second)
}

/// Adds two texts.
fn add_both<A: Allocator>(
    out: &mut Text<'_, A>,
    words: &[u8],
    text: &[u8],
) -> Result<(), AllocError>
    ensures { OnOk result (out.new ≡ out.old ++ (words.now ++ text.now)) }
{
    out.add(words)?;
    out.add(text)
}

fn add_source<A: Allocator>(out: &mut Text<'_, A>, source: Source) -> Result<(), AllocError>
    ensures { OnOk result (out.new ≡ out.old ++ stipulated_words source) }
{
    add_both(out, b"stipulated by ", source_words(source))
}

/// Adds a number between two texts.
fn add_between<A: Allocator>(
    out: &mut Text<'_, A>,
    words: &[u8],
    number: u32,
    behind: &[u8],
) -> Result<(), AllocError>
    ensures { OnOk result (out.new ≡ out.old ++ (words.now ++ (decimal number ++ behind.now))) }
{
    out.add(words)?;
    out.add_number(number)?;
    out.add(behind)
}

/// Adds the words of a remark.
fn add_words<A: Allocator>(out: &mut Text<'_, A>, remark: &Remark<'_>) -> Result<(), AllocError>
    ensures { OnOk result (out.new ≡ out.old ++ remark_words (remark_seen remark.now)) }
{
    match remark {
        Remark::LeftOut(subject, why) => {
            add_subject(out, subject)?;
            out.add(why)
        }
        Remark::NotRead(subject, why) => {
            add_subject(out, subject)?;
            add_both(out, b"not read: ", why)
        }
        Remark::Stipulated(subject, source) => {
            add_subject(out, subject)?;
            add_source(out, *source)
        }
        Remark::Doubted(doubt) => add_both(out, b"the stipulation ", doubt_words(*doubt)),
        Remark::NotTakenOver(counts) => add_both(out, b"not taken over: ", counts),
        Remark::BehindResult(line, column) => add_pair(
            out,
            b"behind the result: line ",
            *line,
            b", column ",
            *column,
        ),
        Remark::Original(name, text) => {
            out.add(original_name(*name))?;
            add_both(out, b" was: ", text)
        }
        Remark::Latin1(name) => add_both(out, b"read as Latin 1: ", original_name(*name)),
        Remark::Letters(language) => add_both(out, b"letters: ", language),
        Remark::Tail(moves) => add_between(
            out,
            b"a tail: moves before ",
            *moves,
            b"; its position is another program's word",
        ),
        Remark::Total(games, studies) => add_pair(out, b"games ", *games, b", studies ", *studies),
    }
}

/// Adds a remark, as a line with its line feed.
#[tactic(auto, unfolding(crate::specs::Remarks::remark_text))]
pub fn add_remark<A: Allocator>(
    out: &mut Text<'_, A>,
    remark: &Remark<'_>,
) -> Result<(), AllocError>
    ensures { OnOk result (out.new ≡ out.old ++ remark_text (remark_seen remark.now)) }
{
    out.add(b"#! ")?;
    add_words(out, remark)?;
    out.add(b"\n")
}
