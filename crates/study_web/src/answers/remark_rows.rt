//! The remarks of a script, each as a line of fields.
ghost use Rattle.std.specs.Prelude.{◌≡◌, ◌++◌, OnOk, IfOk, IfErr, codes, decimal};
ghost use Rattle.std.specs.Option.{option_map};
ghost use Rattle.study_command.specs.Lines.{script_lines};
ghost use Rattle.study_remark.specs.Remarks.{game_seen, remark_seen, original_name};
ghost use Rattle.study_remark.specs.Reading.{after_word};
ghost use Rattle.study_web.specs.Answers.{MayEnd, IsOutOfMemory, IsUnread};
ghost use Rattle.study_web.specs.RemarkRows.{field, column_digits, game_fields, source_name, doubt_name, told_fields};
ghost use Rattle.study_web.specs.RemarkRows.{comment_words, row_of, rows_from};

use crate::reply::AnswerFault;
use crate::request_fault::RequestFault;
use std::alloc::{AllocError, Allocator};
use study_command::{Line, LineFault, read_byte};
use study_remark::{Doubt, Original, Remark, Source, Subject, read_remark};
use study_reply::Refusal;
use study_script::RunFault;
use study_text::Text;

fn add_field<A: Allocator>(text: &mut Text<'_, A>, words: &[u8]) -> Result<(), AllocError>
    ensures { OnOk result (text.new ≡ text.old ++ field words.now) }
{
    text.add(b"\t")?;
    text.add(words)
}

fn add_number<A: Allocator>(text: &mut Text<'_, A>, number: u32) -> Result<(), AllocError>
    ensures { OnOk result (text.new ≡ text.old ++ field (decimal number)) }
{
    text.add(b"\t")?;
    text.add_number(number)
}

fn add_column<A: Allocator>(text: &mut Text<'_, A>, column: Option<u32>) -> Result<(), AllocError>
    ensures { OnOk result (text.new ≡ text.old ++ field (column_digits column)) }
{
    match column {
        None => add_field(text, b""),
        Some(column) => add_number(text, column),
    }
}

#[tactic(auto, unfolding(crate::specs::RemarkRows::game_fields))]
fn add_game<A: Allocator>(text: &mut Text<'_, A>, subject: &Subject<'_>) -> Result<(), AllocError>
    ensures { OnOk result (text.new ≡ text.old ++ game_fields (game_seen subject.now)) }
{
    add_number(text, subject.game)?;
    add_number(text, subject.line)?;
    add_column(text, subject.column)?;
    add_field(text, subject.author)
}

fn source_name(source: Source) -> &'static [u8]
    ensures { result.now ≡ source_name source }
{
    match source {
        Source::Comment => b"comment",
        Source::StipulationTag => b"stipulation-tag",
        Source::ResultTag => b"result-tag",
        Source::Result => b"result",
        Source::Given => b"option",
    }
}

fn doubt_name(doubt: Doubt) -> &'static [u8]
    ensures { result.now ≡ doubt_name doubt }
{
    match doubt {
        Doubt::CommentUnread => b"comment-unread",
        Doubt::TagUnread => b"stipulation-tag-unread",
        Doubt::TagDiffers => b"stipulation-tag-differs",
        Doubt::ResultTagDiffers => b"result-tag-differs",
        Doubt::ResultDiffers => b"result-differs",
    }
}

fn original_name(original: Original) -> &'static [u8]
    ensures { result.now ≡ original_name original }
{
    match original {
        Original::Event => b"Event",
        Original::Site => b"Site",
        Original::Date => b"Date",
        Original::Round => b"Round",
        Original::White => b"White",
        Original::Black => b"Black",
    }
}

/// Adds a kind of remark, the game, and what is said of it.
fn add_of_game<A: Allocator>(
    text: &mut Text<'_, A>,
    kind: &[u8],
    subject: &Subject<'_>,
    said: &[u8],
) -> Result<(), AllocError>
    ensures { OnOk result (text.new ≡ text.old
        ++ (kind.now ++ (game_fields (game_seen subject.now) ++ field said.now))) }
{
    text.add(kind)?;
    add_game(text, subject)?;
    add_field(text, said)
}

/// Adds a kind of remark, and two numbers.
fn add_pair<A: Allocator>(
    text: &mut Text<'_, A>,
    kind: &[u8],
    first: u32,
    second: u32,
) -> Result<(), AllocError>
    ensures { OnOk result (text.new ≡ text.old
        ++ (kind.now ++ (field (decimal first) ++ field (decimal second)))) }
{
    text.add(kind)?;
    add_number(text, first)?;
    add_number(text, second)
}

/// Adds the kind of a remark, and its fields.
#[tactic(auto, unfolding(crate::specs::RemarkRows::told_fields))]
fn add_fields<A: Allocator>(text: &mut Text<'_, A>, remark: &Remark<'_>) -> Result<(), AllocError>
    ensures { OnOk result (text.new ≡ text.old ++ told_fields (remark_seen remark.now)) }
{
    match remark {
        Remark::LeftOut(subject, why) => add_of_game(text, b"left-out", subject, why),
        Remark::NotRead(subject, why) => add_of_game(text, b"not-read", subject, why),
        Remark::Stipulated(subject, source) => {
            add_of_game(text, b"stipulated", subject, source_name(*source))
        }
        Remark::Doubted(doubt) => {
            text.add(b"doubted")?;
            add_field(text, doubt_name(*doubt))
        }
        Remark::NotTakenOver(counts) => {
            text.add(b"not-taken-over")?;
            add_field(text, counts)
        }
        Remark::BehindResult(line, column) => add_pair(text, b"behind-result", *line, *column),
        Remark::Original(name, original) => {
            text.add(b"original")?;
            add_field(text, original_name(*name))?;
            add_field(text, original)
        }
        Remark::Latin1(name) => {
            text.add(b"latin-1")?;
            add_field(text, original_name(*name))
        }
        Remark::Letters(language) => {
            text.add(b"letters")?;
            add_field(text, language)
        }
        Remark::Tail(moves) => {
            text.add(b"tail")?;
            add_number(text, *moves)
        }
        Remark::Total(games, studies) => add_pair(text, b"total", *games, *studies),
    }
}

/// The text behind a word, if it begins with it.
fn after_word<'t>(text: &'t [u8], word: &[u8]) -> Option<&'t [u8]>
    ensures { option_map (λ t. t.now) result ≡ after_word word.now text.now }
{
    if text.starts_with(word) {
        Some(&text[word.len()..])
    } else {
        None
    }
}

/// The words of a comment that begins as remarks do.
#[tactic(auto, unfolding(crate::specs::RemarkRows::comment_words))]
fn comment_words(line: &[u8]) -> Option<&[u8]>
    ensures { option_map (λ t. t.now) result ≡ comment_words line.now }
{
    match after_word(line, b"#! ") {
        Some(words) => Some(words),
        None => after_word(line, b"# "),
    }
}

/// Adds the number of a line before its fields.
fn add_place<A: Allocator>(text: &mut Text<'_, A>, number: u32) -> Result<(), AllocError>
    ensures { OnOk result (text.new ≡ text.old ++ (decimal number ++ codes "\t")) }
{
    text.add_number(number)?;
    text.add(b"\t")
}

/// Adds the row of a line with this number, if it is a remark or a comment.
#[tactic(auto, unfolding(crate::specs::RemarkRows::row_of))]
fn add_row<A: Allocator>(text: &mut Text<'_, A>, number: u32, line: &[u8]) -> Result<(), AllocError>
    ensures { OnOk result (text.new ≡ text.old ++ row_of number line.now) }
{
    match (read_remark(line), comment_words(line)) {
        (Some(remark), _) => {
            add_place(text, number)?;
            add_fields(text, &remark)?;
            text.add(b"\n")
        }
        (None, Some(words)) => {
            add_place(text, number)?;
            text.add(b"other")?;
            add_field(text, words)?;
            text.add(b"\n")
        }
        (None, None) => Ok(()),
    }
}

/// The rows of the lines of a script, or why it is not read to the end.
fn rows_of<'a, A: Allocator>(alloc: &'a A, script: &[u8]) -> Result<Text<'a, A>, RunFault>
    ensures ok { IfOk result (λ text. text ≡ rows_from 1 (script_lines script.now)) }
    ensures err { IfErr result (IsUnread script.now) }
{
    let Ok(mut line) = Line::new(alloc) else {
        return Err(RunFault::OutOfMemory);
    };
    let mut reader = script;
    let mut text = Text::new(alloc);
    for n in 0..100_000u32 {
        match line.read(&mut reader) {
            // reading a slice cannot fail
            Err(LineFault::Device) => return Err(RunFault::OutOfMemory),
            Err(LineFault::TooLong) => return Err(RunFault::LineTooLong(n + 1)),
            Ok(false) => return Ok(text),
            Ok(true) => {}
        }
        if add_row(&mut text, n + 1, line.as_slice()).is_err() {
            return Err(RunFault::OutOfMemory);
        }
    }
    match read_byte(&mut reader) {
        Err(_) => Err(RunFault::OutOfMemory),
        Ok(None) => Ok(text),
        Ok(Some(_)) => Err(RunFault::TooManyLines),
    }
}

/// A text as the bytes of an answer.
pub fn bytes_of<'a, A: Allocator>(
    alloc: &'a A,
    text: &Text<'_, A>,
) -> Result<Vec<u8, &'a A>, AllocError>
    ensures { IfOk result (λ bytes. bytes.items ≡ text.now) }
{
    let mut bytes = Vec::new(alloc);
    bytes.extend_from_slice(text.as_slice())?;
    Ok(bytes)
}

/// The remarks of a script, a line each.
pub fn remarks_of<'a, A: Allocator>(
    alloc: &'a A,
    script: &[u8],
) -> Result<Vec<u8, &'a A>, AnswerFault>
    ensures text { IfOk result (λ text. text.items ≡ rows_from 1 (script_lines script.now)) }
    ensures none { IfErr result (MayEnd IsOutOfMemory (IsUnread script.now)) }
{
    match rows_of(alloc, script) {
        Err(fault) => Err(AnswerFault::Stopped(fault)),
        Ok(text) => match bytes_of(alloc, &text) {
            Ok(bytes) => Ok(bytes),
            Err(_) => Err(AnswerFault::Denied(RequestFault::Refused(Refusal::OutOfMemory))),
        },
    }
}
