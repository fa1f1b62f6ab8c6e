//! The names of faults, and the lines that report them.
ghost use Rattle.std.specs.Prelude.{◌≡◌, ◌++◌, OnOk, IfOk};
ghost use Rattle.study_games.specs.Runs.{is_in};
ghost use Rattle.study_import.specs.Blocks.{token_name, move_name, line_name, stop_name, run_words, symbol_words, told_words, left_out, no_study, fault_words, place_in};
ghost use Rattle.study_import.specs.Blocks.{text_at, entry_seen, stop_words, stopped_block, not_read_line};
ghost use Rattle.study_import.specs.BlocksRead.{is_of_memory, Adds};

use crate::places::{Entry, Place, place_in, text_at};
use crate::tags::entry_names;
use std::alloc::{AllocError, Allocator};
use study_games::{Run, TokenFault, cut_run, truncate};
use study_reading::{LineFault, MoveFault, MovesFault, Reason, Stop};
use study_remark::{Remark, Subject, add_remark};
use study_reply::Refusal;
use study_text::{Piece, Text, add_pieces};

/// The number of bytes of a symbol or a number that are printed.
const LONGEST_REPORTED: usize = 40;

pub fn token_name(fault: TokenFault) -> &'static [u8]
    ensures { result.now ≡ token_name fault }
{
    match fault {
        TokenFault::OpenComment => b"OpenComment",
        TokenFault::TagForm => b"TagForm",
        TokenFault::OpenString => b"OpenString",
        TokenFault::Byte => b"Byte",
    }
}

fn move_name(fault: MoveFault) -> &'static [u8]
    ensures { result.now ≡ move_name fault }
{
    match fault {
        MoveFault::NoSuchNode => b"NoSuchNode",
        MoveFault::San(fault) => Refusal::San(fault).name(),
        MoveFault::TooDeep => b"TooDeep",
        MoveFault::TreeFull => b"TreeFull",
        MoveFault::OutOfMemory => b"OutOfMemory",
    }
}

fn line_name(fault: LineFault) -> &'static [u8]
    ensures { result.now ≡ line_name fault }
{
    match fault {
        LineFault::NoMoveBefore => b"NoMoveBefore",
        LineFault::TooNested => b"TooNested",
        LineFault::NotOpened => b"NotOpened",
        LineFault::OutOfMemory => b"OutOfMemory",
    }
}

fn stop_name(why: Stop) -> &'static [u8]
    ensures { result.now ≡ stop_name why }
{
    match why {
        Stop::Token(fault) => token_name(fault),
        Stop::Taking(Reason::Move(fault)) => move_name(fault),
        Stop::Taking(Reason::Line(fault)) => line_name(fault),
        Stop::Taking(Reason::TagInMoves) => b"TagInMoves",
        Stop::Taking(Reason::NullMove) => b"NullMove",
        Stop::Taking(Reason::BehindWord) => b"BehindWord",
        Stop::OpenVariation => b"OpenVariation",
        Stop::Numbering => b"Numbering",
        Stop::BehindResult => b"BehindResult",
    }
}

/// Whether reading the moves stopped for want of memory.
pub fn is_of_memory(why: Stop) -> bool
    ensures { result ≡ is_of_memory why }
{
    match why {
        Stop::Taking(Reason::Move(MoveFault::OutOfMemory)) => true,
        Stop::Taking(Reason::Line(LineFault::OutOfMemory)) => true,
        _ => false,
    }
}

/// Adds ` at RUN`, of the bytes of this kind at the front of the text.
fn add_run<A: Allocator>(out: &mut Text<'_, A>, run: Run, text: &[u8]) -> Result<(), AllocError>
    ensures { OnOk result (out.new ≡ out.old ++ run_words (is_in run) text.now) }
{
    let (bytes, _) = cut_run(run, text);
    let reported = truncate(bytes, LONGEST_REPORTED);
    add_pieces(out, &[Piece::Bytes(b" at "), Piece::Bytes(reported)])
}

/// Adds ` at SYMBOL`, if the fault is a move that cannot be read or stands behind a word, or a number that does not fit.
fn add_symbol<A: Allocator>(out: &mut Text<'_, A>, why: Stop, text: &[u8]) -> Result<(), AllocError>
    ensures { OnOk result (out.new ≡ out.old ++ symbol_words why text.now) }
{
    match why {
        Stop::Taking(Reason::Move(MoveFault::San(_)) | Reason::BehindWord) => {
            add_run(out, Run::Symbol, text)
        }
        Stop::Numbering => add_run(out, Run::Digits, text),
        _ => Ok(()),
    }
}

/// Adds the remark on a game without a block, and an empty line.
#[tactic(auto, unfolding(crate::specs::Blocks::told_words))]
fn add_told<'t, A: Allocator>(
    out: &mut Text<'_, A>,
    number: u32,
    line: u32,
    column: Option<u32>,
    names: &'t [u8],
    words: &'t [u8],
) -> Result<(), AllocError>
    ensures { OnOk result (out.new ≡ out.old
        ++ told_words number line column names.now words.now) }
{
    let subject = Subject {
        game: number,
        line,
        column,
        author: names,
    };
    add_remark(out, &Remark::LeftOut(subject, words))?;
    out.add(b"\n")
}

/// Adds the line with the reason why the whole game is left out.
pub fn add_left_out<'a, A: Allocator>(
    alloc: &'a A,
    out: &mut Text<'_, A>,
    entry: &Entry<'_>,
    words: &[u8],
) -> Result<u32, AllocError>
    ensures { Adds result out.old out.new (no_study (left_out (entry_seen entry.now) words.now)) }
{
    let names = entry_names(alloc, entry.text)?;
    add_told(out, entry.number, entry.line, None, names.as_slice(), words)?;
    Ok(0)
}

/// Adds the line that reports a fault of a game at a place.
pub fn add_fault<'a, A: Allocator>(
    alloc: &'a A,
    out: &mut Text<'_, A>,
    entry: &Entry<'_>,
    place: Place,
    words: &[u8],
) -> Result<u32, AllocError>
    ensures { Adds result out.old out.new
        (no_study (fault_words (entry_seen entry.now) place words.now)) }
{
    let names = entry_names(alloc, entry.text)?;
    let column = Some(place.column);
    add_told(
        out,
        entry.number,
        place.line,
        column,
        names.as_slice(),
        words,
    )?;
    Ok(0)
}

/// The name of a fault, and the symbol or the number at its place.
fn stop_words<'a, A: Allocator>(
    alloc: &'a A,
    entry: &Entry<'_>,
    fault: &MovesFault,
) -> Result<Text<'a, A>, AllocError>
    ensures { IfOk result (λ words. words ≡ stop_words (entry_seen entry.now) fault.now) }
{
    let mut words = Text::new(alloc);
    words.add(stop_name(fault.why))?;
    add_symbol(&mut words, fault.why, text_at(entry, fault.left))?;
    Ok(words)
}

/// Adds the line that reports the first fault of a game's moves.
pub fn add_stop<'a, A: Allocator>(
    alloc: &'a A,
    out: &mut Text<'_, A>,
    entry: &Entry<'_>,
    fault: &MovesFault,
) -> Result<u32, AllocError>
    ensures { Adds result out.old out.new (stopped_block (entry_seen entry.now) fault.now) }
{
    let words = stop_words(alloc, entry, fault)?;
    let place = place_in(entry, fault.left);
    add_fault(alloc, out, entry, place, words.as_slice())
}

/// Adds the line that a game is read only up to this fault.
#[tactic(auto, unfolding(crate::specs::Blocks::not_read_line))]
pub fn add_not_read<'a, A: Allocator>(
    alloc: &'a A,
    out: &mut Text<'_, A>,
    entry: &Entry<'_>,
    fault: &MovesFault,
) -> Result<(), AllocError>
    ensures { OnOk result (out.new ≡ out.old ++ not_read_line (entry_seen entry.now) fault.now) }
{
    let words = stop_words(alloc, entry, fault)?;
    let names = entry_names(alloc, entry.text)?;
    let place = place_in(entry, fault.left);
    let subject = Subject {
        game: entry.number,
        line: place.line,
        column: Some(place.column),
        author: names.as_slice(),
    };
    add_remark(out, &Remark::NotRead(subject, words.as_slice()))
}
