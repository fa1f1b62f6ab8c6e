//! The words of a review's lines, added to a text.
ghost use Rattle.std.specs.Prelude.{◌≡◌, ◌++◌, ◌+◌, ◌<◌, true, OnOk, decimal};
ghost use Rattle.study_moves.specs.Rules.{is_legal};
ghost use Rattle.study_notation.specs.SanSpelling.{move_text};
ghost use Rattle.study_marks.specs.Marks.{value_words};
ghost use Rattle.study_facts.specs.Words.{front_words};
ghost use Rattle.study_facts.specs.Words.{move_words, alone_words, time_verdict};

use crate::continuation::{EvaluatedMove, NodeContext, is_draw};
use crate::missing_defences::Defence;
use crate::time_loss::Alternative;
use std::alloc::{AllocError, Allocator};
use study_board::Position;
use study_marks::{holds, value_words};
use study_moves::{Move, played};
use study_notation::write_san;
use study_text::{Piece, Text, add_pieces};
use study_values::Value;

/// A word, and a number after it.
pub fn add_counted<A: Allocator>(
    text: &mut Text<'_, A>,
    word: &[u8],
    number: u8,
) -> Result<(), AllocError>
    ensures { OnOk result (text.new ≡ text.old ++ (word.now ++ decimal number)) }
{
    text.add(word)?;
    text.add_number(number as u32)
}

/// A value in the words of a script's reply: `win 3`, in plies.
pub fn add_value<A: Allocator>(text: &mut Text<'_, A>, value: Value) -> Result<(), AllocError>
    ensures { OnOk result (text.new ≡ text.old ++ value_words value) }
{
    text.add(value_words(value).as_str().as_bytes())
}

/// A kind of line, and a path, with a space after it.
#[tactic(auto, unfolding(crate::specs::Words::front_words))]
pub fn add_line_start<'t, A: Allocator>(
    text: &mut Text<'_, A>,
    kind: &'t [u8],
    steps: &'t [u16],
) -> Result<(), AllocError>
    ensures { OnOk result (text.new ≡ text.old ++ front_words kind.now steps.now) }
{
    add_pieces(
        text,
        &[Piece::Bytes(kind), Piece::Path(steps), Piece::Bytes(b" ")],
    )
}

fn add_san<A: Allocator>(text: &mut Text<'_, A>, p: &Position, m: Move) -> Result<(), AllocError>
    requires { is_legal p.now m ≡ true }
    ensures { OnOk result (text.new ≡ text.old ++ move_text p.now m) }
{
    text.add(write_san(p, m).as_str().as_bytes())
}

#[tactic(auto, unfolding(crate::specs::Words::move_words))]
/// A move, after a space.
pub fn add_move<A: Allocator>(
    text: &mut Text<'_, A>,
    p: &Position,
    x: &EvaluatedMove,
) -> Result<(), AllocError>
    requires { is_legal p.now x.now.played ≡ true }
    ensures { OnOk result (text.new ≡ text.old ++ move_words p.now x.now) }
{
    text.add(b" ")?;
    add_san(text, p, x.played)
}

/// The words that so many faults lose time alone.
pub fn add_alone<A: Allocator>(text: &mut Text<'_, A>, time: u32) -> Result<(), AllocError>
    ensures { OnOk result (text.new ≡ text.old ++ alone_words time) }
{
    if time == 1 {
        text.add(b" loses time alone")
    } else {
        text.add(b" lose time alone")
    }
}

/// The verdict on a solution with so many faults, so many of which lose time alone: `sound but for loss of time` if these are all.
#[tactic(auto, unfolding(crate::specs::Words::time_verdict))]
pub fn add_time_verdict<A: Allocator>(
    text: &mut Text<'_, A>,
    faults: u32,
    time: u32,
) -> Result<(), AllocError>
    ensures { OnOk result (text.new ≡ text.old ++ time_verdict faults time) }
{
    if time == faults {
        return text.add(b"sound but for loss of time");
    }
    text.add(b"unsound ")?;
    text.add_number(faults)?;
    text.add(b", ")?;
    text.add_number(time)?;
    add_alone(text, time)
}
