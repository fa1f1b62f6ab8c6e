//! Lines of a review.
ghost use Rattle.std.specs.Prelude.{◌≡◌, ◌++◌, ◌+◌, ◌<◌, ◌≤◌, ◌^◌, true, OnOk, IfSome, length};
ghost use Rattle.std.specs.List.{All, flat_map};
ghost use Rattle.study_moves.specs.Rules.{is_legal};
ghost use Rattle.study_facts.specs.Play.{IsPlayed, ArePlayed};
ghost use Rattle.study_facts.specs.Words.{move_and_value, time_words, also_line, refuted_line, stalemate_line};
ghost use Rattle.study_facts.specs.Words.{only_words, none_words, answers_words, missing_line, play_words, play_line};
ghost use Rattle.study_facts.specs.Words.{move_words, keep_line, dual_line, mistake_line};
ghost use Rattle.study_moves.specs.LegalList.{legal_list};
ghost use Rattle.study_review.specs.NodeFacts.{failing_moves, drawing_moves};

use std::alloc::{AllocError, Allocator};
use study_board::Position;
use study_facts::{
    Alternative, Defence, EvaluatedMove, NodeContext, add_counted, add_line_start, add_move,
    add_value, is_draw,
};
use study_marks::holds;
use study_moves::{Move, played};
use study_pgn::add_san;
use study_text::Text;
use study_values::Value;

/// A move, and the value after it.
#[tactic(auto, unfolding(study_facts::specs::Words::move_and_value))]
fn add_reported<A: Allocator>(
    text: &mut Text<'_, A>,
    p: &Position,
    m: Move,
    value: Value,
) -> Result<(), AllocError>
    requires { is_legal p.now m ≡ true }
    ensures { OnOk result (text.new ≡ text.old ++ move_and_value p.now m value) }
{
    add_san(text, p, m)?;
    text.add(b" ")?;
    add_value(text, value)
}

fn add_time<A: Allocator>(text: &mut Text<'_, A>, time: Option<u8>) -> Result<(), AllocError>
    ensures { OnOk result (text.new ≡ text.old ++ time_words time) }
{
    match time {
        None => Ok(()),
        Some(m) => add_counted(text, b" time ", m),
    }
}

/// The line of an alternative.
#[tactic(auto, unfolding(study_facts::specs::Words::also_line))]
pub fn add_also_line<A: Allocator>(
    text: &mut Text<'_, A>,
    steps: &[u16],
    p: &Position,
    x: &Alternative,
) -> Result<(), AllocError>
    requires { is_legal p.now x.now.played ≡ true }
    ensures { OnOk result (text.new ≡ text.old ++ also_line steps.now p.now x.now) }
{
    add_line_start(text, b"also ", steps)?;
    add_reported(text, p, x.played, x.value)?;
    add_time(text, x.time)?;
    text.add(b"\n")
}

#[tactic(auto, unfolding(study_facts::specs::Words::refuted_line))]
fn add_refuted_line<A: Allocator>(
    text: &mut Text<'_, A>,
    steps: &[u16],
    p: &Position,
    x: &EvaluatedMove,
) -> Result<(), AllocError>
    requires { is_legal p.now x.now.played ≡ true }
    ensures { OnOk result (text.new ≡ text.old ++ refuted_line steps.now p.now x.now) }
{
    add_line_start(text, b"refuted ", steps)?;
    add_reported(text, p, x.played, x.value)?;
    text.add(b"\n")
}

/// A line for each of these moves after which the position does not hold.
pub fn add_refuted_lines<A: Allocator>(
    text: &mut Text<'_, A>,
    steps: &[u16],
    node: &NodeContext<'_>,
    evaluated: &[EvaluatedMove],
) -> Result<(), AllocError>
    requires depth { node.now.depth + 1 < 2 ^ 64 }
    requires legal { All (λ x. is_legal node.now.position.now x.played ≡ true) evaluated.now }
    ensures { OnOk result (text.new ≡ text.old
        ++ flat_map (refuted_line steps.now node.now.position.now)
        (failing_moves node.now.aim.now node.now.depth evaluated.now)) }
{
    for x in evaluated {
        if !holds(node.aim, node.depth + 1, x.value) {
            add_refuted_line(text, steps, node.position, x)?;
        }
    }
    Ok(())
}

/// The line that the move stalemates.
#[tactic(auto, unfolding(study_facts::specs::Words::stalemate_line))]
pub fn add_stalemate<A: Allocator>(text: &mut Text<'_, A>, steps: &[u16]) -> Result<(), AllocError>
    ensures { OnOk result (text.new ≡ text.old ++ stalemate_line steps.now) }
{
    add_line_start(text, b"refuted ", steps)?;
    text.add(b"stalemate\n")
}

fn add_only<A: Allocator>(
    text: &mut Text<'_, A>,
    q: &Position,
    only: Option<Move>,
) -> Result<(), AllocError>
    requires { IfSome only (λ m. is_legal q.now m ≡ true) }
    ensures { OnOk result (text.new ≡ text.old ++ only_words q.now only) }
{
    match only {
        None => Ok(()),
        Some(m) => {
            text.add(b" ")?;
            add_san(text, q, m)
        }
    }
}

fn add_none<A: Allocator>(text: &mut Text<'_, A>, answers: u16) -> Result<(), AllocError>
    ensures { OnOk result (text.new ≡ text.old ++ none_words answers) }
{
    if answers == 0 {
        return text.add(b" stalemate");
    }
    Ok(())
}

#[tactic(auto, unfolding(study_facts::specs::Words::answers_words))]
fn add_answers<A: Allocator>(
    text: &mut Text<'_, A>,
    q: &Position,
    answers: u16,
    only: Option<Move>,
) -> Result<(), AllocError>
    requires { IfSome only (λ m. is_legal q.now m ≡ true) }
    ensures { OnOk result (text.new ≡ text.old ++ answers_words q.now answers only) }
{
    text.add(b" ")?;
    text.add_number(answers as u32)?;
    add_only(text, q, only)?;
    add_none(text, answers)
}

/// The line of a defence that is missing.
#[tactic(auto, unfolding(study_facts::specs::Words::missing_line))]
pub fn add_missing_line<A: Allocator>(
    text: &mut Text<'_, A>,
    steps: &[u16],
    p: &Position,
    y: &Defence,
) -> Result<(), AllocError>
    requires { IsPlayed p.now y.now }
    ensures { OnOk result (text.new ≡ text.old ++ missing_line steps.now p.now y.now) }
{
    let next = played(p, y.played);
    add_line_start(text, b"missing ", steps)?;
    add_reported(text, p, y.played, y.value)?;
    add_answers(text, &next, y.answers, y.only)?;
    text.add(b"\n")
}

fn add_moves<A: Allocator>(
    text: &mut Text<'_, A>,
    p: &Position,
    list: &[EvaluatedMove],
) -> Result<(), AllocError>
    requires { ArePlayed p.now list.now }
    ensures { OnOk result (text.new ≡ text.old ++ play_words p.now list.now) }
{
    match list.split_first() {
        None => Ok(()),
        Some((x, rest)) => {
            text.add(b" ")?;
            add_san(text, p, x.played)?;
            let next = played(p, x.played);
            add_moves(text, &next, rest)
        }
    }
}

/// The line of best play.
#[tactic(auto, unfolding(study_facts::specs::Words::play_line))]
pub fn add_play<A: Allocator>(
    text: &mut Text<'_, A>,
    steps: &[u16],
    p: &Position,
    value: Value,
    list: &[EvaluatedMove],
) -> Result<(), AllocError>
    requires { ArePlayed p.now list.now }
    ensures { OnOk result (text.new ≡ text.old ++ play_line steps.now p.now value list.now) }
{
    add_line_start(text, b"play ", steps)?;
    add_value(text, value)?;
    add_moves(text, p, list)?;
    text.add(b"\n")
}

/// The moves that keep a draw, each after a space.
fn add_drawing_moves<A: Allocator>(
    text: &mut Text<'_, A>,
    p: &Position,
    evaluated: &[EvaluatedMove],
) -> Result<(), AllocError>
    requires { All (λ x. is_legal p.now x.played ≡ true) evaluated.now }
    ensures { OnOk result (text.new ≡ text.old
        ++ flat_map (move_words p.now) (drawing_moves evaluated.now)) }
{
    for x in evaluated {
        if is_draw(x.value) {
            add_move(text, p, x)?;
        }
    }
    Ok(())
}

/// The number of these moves that keep a draw.
fn count_drawing(evaluated: &[EvaluatedMove]) -> u32
    requires { length evaluated.now < 2 ^ 32 }
    ensures count { result ≡ length (drawing_moves evaluated.now) }
    ensures few { result ≤ length evaluated.now }
{
    match evaluated.split_first() {
        None => 0,
        Some((x, rest)) => count_drawing(rest) + if is_draw(x.value) { 1 } else { 0 },
    }
}

/// The line of the moves that keep a draw, among all legal moves.
#[tactic(auto, unfolding(study_facts::specs::Words::keep_line))]
pub fn add_drawing_moves_line<A: Allocator>(
    text: &mut Text<'_, A>,
    steps: &[u16],
    p: &Position,
    evaluated: &[EvaluatedMove],
) -> Result<(), AllocError>
    requires few { length evaluated.now < 2 ^ 32 }
    requires all { length evaluated.now ≡ length (legal_list p.now) }
    requires legal { All (λ x. is_legal p.now x.played ≡ true) evaluated.now }
    ensures { OnOk result (text.new ≡ text.old
        ++ keep_line steps.now p.now (drawing_moves evaluated.now)) }
{
    add_line_start(text, b"keep ", steps)?;
    text.add_number(count_drawing(evaluated))?;
    text.add(b" ")?;
    text.add_number(evaluated.len() as u32)?;
    add_drawing_moves(text, p, evaluated)?;
    text.add(b"\n")
}

/// The line of a dual with so many others, so many of which lose time.
#[tactic(auto, unfolding(study_facts::specs::Words::dual_line))]
pub fn add_dual<A: Allocator>(
    text: &mut Text<'_, A>,
    steps: &[u16],
    p: &Position,
    x: &EvaluatedMove,
    counts: (u8, u16),
) -> Result<(), AllocError>
    requires { is_legal p.now x.now.played ≡ true }
    ensures { OnOk result (text.new ≡ text.old
        ++ dual_line steps.now p.now x.now.played x.now.value counts.0 counts.1) }
{
    add_line_start(text, b"fault ", steps)?;
    add_reported(text, p, x.played, x.value)?;
    text.add(b" dual ")?;
    text.add_number(counts.0 as u32)?;
    text.add(b" time ")?;
    text.add_number(counts.1 as u32)?;
    text.add(b"\n")
}

/// The line of a mistake.
#[tactic(auto, unfolding(study_facts::specs::Words::mistake_line))]
pub fn add_mistake<A: Allocator>(
    text: &mut Text<'_, A>,
    steps: &[u16],
    p: &Position,
    x: &EvaluatedMove,
) -> Result<(), AllocError>
    requires { is_legal p.now x.now.played ≡ true }
    ensures { OnOk result (text.new ≡ text.old
        ++ mistake_line steps.now p.now x.now.played x.now.value) }
{
    add_line_start(text, b"fault ", steps)?;
    add_reported(text, p, x.played, x.value)?;
    text.add(b" mistake\n")
}
