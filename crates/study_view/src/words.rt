//! The words of a view's lines, added to a text.
ghost use Rattle.std.specs.Prelude.{◌≡◌, ◌++◌, true, OnOk, IfSome};
ghost use Rattle.study_board.specs.Letters.{letter};
ghost use Rattle.study_moves.specs.Rules.{is_legal};
ghost use Rattle.study_notation.specs.FenSpelling.{fen_text, square_text};
ghost use Rattle.study_marks.specs.Marks.{on_move_text};
ghost use Rattle.study_marks.specs.Bench.{node_seen};
ghost use Rattle.study_head.specs.Verdict.{IsLegalStamp};
ghost use Rattle.study_view.specs.Words.{promoted_text, squares_text, moved_words, move_to_node_text, mark_words, study_line, counts_line, start_lines};
ghost use Rattle.study_view.specs.Words.{stamp_line, worst_line, sentence_line, shown_words, node_words, count_words, at_line, reached_words, move_line};

use std::alloc::{AllocError, Allocator};
use study_board::{Kind, Position, Square};
use study_facts::{add_line_start, add_value};
use study_head::{Judgement, Stamp, add_counts, add_stamp_words, add_verdict_words};
use study_marks::{Mark, MoveMark, NodeView, on_move_text};
use study_moves::{Move, in_check, legal_moves};
use study_notation::{Start, write_fen};
use study_pgn::add_san;
use study_text::Text;
use study_values::Value;

fn add_on_move<A: Allocator>(
    text: &mut Text<'_, A>,
    mark: Option<MoveMark>,
) -> Result<(), AllocError>
    ensures { OnOk result (text.new ≡ text.old ++ on_move_text mark) }
{
    text.add(on_move_text(mark).as_str().as_bytes())
}

/// A value and a mark.
#[tactic(auto, unfolding(crate::specs::Words::mark_words))]
fn add_mark<A: Allocator>(
    text: &mut Text<'_, A>,
    value: Value,
    mark: Option<MoveMark>,
) -> Result<(), AllocError>
    ensures { OnOk result (text.new ≡ text.old ++ mark_words value mark) }
{
    add_value(text, value)?;
    text.add(b" ")?;
    add_on_move(text, mark)
}

pub fn add_square<A: Allocator>(text: &mut Text<'_, A>, at: Square) -> Result<(), AllocError>
    ensures { OnOk result (text.new ≡ text.old ++ square_text at) }
{
    text.add(&[b'a' + at.file(), b'1' + at.rank()])
}

/// The letter of a kind.
pub fn letter_of(kind: Kind) -> u8
    ensures { result ≡ letter kind }
{
    match kind {
        Kind::King => b'K',
        Kind::Queen => b'Q',
        Kind::Rook => b'R',
        Kind::Bishop => b'B',
        Kind::Knight => b'N',
        Kind::Pawn => b'P',
    }
}

fn add_promoted<A: Allocator>(
    text: &mut Text<'_, A>,
    promoted: Option<Kind>,
) -> Result<(), AllocError>
    ensures { OnOk result (text.new ≡ text.old ++ promoted_text promoted) }
{
    match promoted {
        None => Ok(()),
        Some(kind) => text.add(&[letter_of(kind) + 32]),
    }
}

/// The squares of a move.
#[tactic(auto, unfolding(crate::specs::Words::squares_text))]
fn add_squares<A: Allocator>(text: &mut Text<'_, A>, m: Move) -> Result<(), AllocError>
    ensures { OnOk result (text.new ≡ text.old ++ squares_text m) }
{
    add_square(text, m.origin)?;
    add_square(text, m.target)?;
    add_promoted(text, m.promoted)
}

/// A move, with its squares.
#[tactic(auto, unfolding(crate::specs::Words::moved_words))]
fn add_moved<A: Allocator>(text: &mut Text<'_, A>, p: &Position, m: &Move) -> Result<(), AllocError>
    requires { is_legal p.now m.now ≡ true }
    ensures { OnOk result (text.new ≡ text.old ++ moved_words p.now m.now) }
{
    add_san(text, p, *m)?;
    text.add(b" ")?;
    add_squares(text, *m)
}

/// The move that led to a node.
fn add_move_to_node<A: Allocator>(
    text: &mut Text<'_, A>,
    p: &Position,
    played: Option<Move>,
) -> Result<(), AllocError>
    requires { IfSome played (λ m. is_legal p.now m ≡ true) }
    ensures { OnOk result (text.new ≡ text.old ++ move_to_node_text p.now played) }
{
    match played {
        None => text.add(b"- -"),
        Some(m) => add_moved(text, p, &m),
    }
}

/// A position with its counts, and the end of the line.
fn add_fen<A: Allocator>(text: &mut Text<'_, A>, start: &Start) -> Result<(), AllocError>
    ensures { OnOk result (text.new ≡ text.old ++ fen_text start.now) }
{
    text.add(write_fen(start).as_str().as_bytes())
}

/// The line with the start of the study.
#[tactic(auto, unfolding(crate::specs::Words::study_line))]
fn add_study<A: Allocator>(text: &mut Text<'_, A>, start: &Start) -> Result<(), AllocError>
    ensures { OnOk result (text.new ≡ text.old ++ study_line start.now) }
{
    text.add(b"study ")?;
    add_fen(text, start)?;
    text.add(b"\n")
}

/// The line with the counts of men and the code of the material.
#[tactic(auto, unfolding(crate::specs::Words::counts_line))]
fn add_counts_line<A: Allocator>(text: &mut Text<'_, A>, p: &Position) -> Result<(), AllocError>
    ensures { OnOk result (text.new ≡ text.old ++ counts_line p.now) }
{
    text.add(b"counts ")?;
    add_counts(text, p)?;
    text.add(b"\n")
}

/// Adds the lines of a start: the line `study` with its FEN, and the line `counts` with the number of men of each side and the code of Guy,
/// Blandford and Roycroft.
#[tactic(auto, unfolding(crate::specs::Words::start_lines))]
pub fn add_start<A: Allocator>(text: &mut Text<'_, A>, start: &Start) -> Result<(), AllocError>
    ensures { OnOk result (text.new ≡ text.old ++ start_lines start.now) }
{
    add_study(text, start)?;
    add_counts_line(text, &start.position)
}

/// The line with the verdict as a judge reads it.
#[tactic(auto, unfolding(crate::specs::Words::stamp_line))]
pub fn add_stamp_line<A: Allocator>(text: &mut Text<'_, A>, stamp: &Stamp) -> Result<(), AllocError>
    requires { IsLegalStamp stamp.now }
    ensures { OnOk result (text.new ≡ text.old ++ stamp_line stamp.now) }
{
    text.add(b"stamp ")?;
    add_stamp_words(text, stamp)?;
    text.add(b"\n")
}

/// The line with the worst dual, if there are words of it.
pub fn add_worst_line<A: Allocator>(text: &mut Text<'_, A>, words: &[u8]) -> Result<(), AllocError>
    ensures { OnOk result (text.new ≡ text.old ++ worst_line words.now) }
{
    if words.is_empty() {
        return Ok(());
    }
    text.add(b"worst ")?;
    text.add(words)?;
    text.add(b"\n")
}

/// The line with the verdict in sentences.
#[tactic(auto, unfolding(crate::specs::Words::sentence_line))]
pub fn add_sentence_line<A: Allocator>(
    text: &mut Text<'_, A>,
    judged: &Judgement,
) -> Result<(), AllocError>
    requires { IsLegalStamp judged.now.stamp }
    ensures { OnOk result (text.new ≡ text.old ++ sentence_line judged.now) }
{
    text.add(b"sentence ")?;
    add_verdict_words(text, judged)?;
    text.add(b"\n")
}

/// The part of a node's line from its value to its end.
#[tactic(auto, unfolding(crate::specs::Words::shown_words))]
fn add_node_view<A: Allocator>(
    text: &mut Text<'_, A>,
    mark: Mark,
    here: &Start,
) -> Result<(), AllocError>
    ensures { OnOk result (text.new ≡ text.old ++ shown_words mark here.now) }
{
    add_mark(text, mark.value, mark.on_move)?;
    text.add(b" faults ")?;
    text.add_number(mark.faults)?;
    text.add(b" ")?;
    add_fen(text, here)?;
    text.add(b"\n")
}

/// The line of a node; `before` is the position before the move that led to it.
#[tactic(auto, unfolding(crate::specs::Words::node_words))]
pub fn add_node<A: Allocator>(
    text: &mut Text<'_, A>,
    steps: &[u16],
    before: &Position,
    node: &NodeView,
    here: &Start,
) -> Result<(), AllocError>
    requires { IfSome node.now.played (λ m. is_legal before.now m ≡ true) }
    ensures { OnOk result (text.new ≡ text.old
        ++ node_words steps.now before.now (node_seen node.now) here.now) }
{
    add_line_start(text, b"node ", steps)?;
    add_move_to_node(text, before, node.played)?;
    text.add(b" ")?;
    add_node_view(text, node.mark, here)
}

#[tactic(auto, unfolding(crate::specs::Words::count_words))]
fn add_count<A: Allocator>(text: &mut Text<'_, A>, p: &Position) -> Result<(), AllocError>
    ensures { OnOk result (text.new ≡ text.old ++ count_words p.now) }
{
    let count = legal_moves(p).len();
    if count > 0 {
        return text.add_number(count as u32);
    }
    if in_check(p) {
        text.add(b"mate")
    } else {
        text.add(b"stalemate")
    }
}

/// The number of legal moves, or how the game ended.
#[tactic(auto, unfolding(crate::specs::Words::at_line))]
pub fn add_move_count<A: Allocator>(
    text: &mut Text<'_, A>,
    steps: &[u16],
    p: &Position,
) -> Result<(), AllocError>
    ensures { OnOk result (text.new ≡ text.old ++ at_line steps.now p.now) }
{
    add_line_start(text, b"at ", steps)?;
    add_count(text, p)?;
    text.add(b"\n")
}

/// The position after a move with its value and mark, to the end of the line.
#[tactic(auto, unfolding(crate::specs::Words::reached_words))]
fn add_result_of_move<A: Allocator>(
    text: &mut Text<'_, A>,
    value: Value,
    mark: Option<MoveMark>,
    next: &Start,
) -> Result<(), AllocError>
    ensures { OnOk result (text.new ≡ text.old ++ reached_words value mark next.now) }
{
    add_mark(text, value, mark)?;
    text.add(b" ")?;
    add_fen(text, next)?;
    text.add(b"\n")
}

/// The line of a legal move, with the value after it and its mark.
#[tactic(auto, unfolding(crate::specs::Words::move_line))]
pub fn add_move<A: Allocator>(
    text: &mut Text<'_, A>,
    here: &Start,
    m: &Move,
    value: Value,
    mark: Option<MoveMark>,
) -> Result<(), AllocError>
    requires { is_legal here.now.position m.now ≡ true }
    ensures { OnOk result (text.new ≡ text.old ++ move_line here.now m.now value mark) }
{
    let next = here.played(*m);
    text.add(b"move ")?;
    add_moved(text, &here.position, m)?;
    text.add(b" ")?;
    add_result_of_move(text, value, mark, &next)
}
