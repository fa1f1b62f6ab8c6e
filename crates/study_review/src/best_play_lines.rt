//! The lines at the ends of the tree.
ghost use Rattle.std.specs.Prelude.{◌≡◌, ◌<◌, ◌^◌, true, length, OnOk, IfOk, IfSome};
ghost use Rattle.std.specs.List.{All};
ghost use Rattle.study_moves.specs.Rules.{is_legal};
ghost use Rattle.study_moves.specs.LegalList.{legal_list};
ghost use Rattle.study_facts.specs.Asked.{within};
ghost use Rattle.study_facts.specs.Best.{first_best, IsBestPlay};
ghost use Rattle.study_facts.specs.Continuations.{AreChosen};
ghost use Rattle.study_facts.specs.Made.{Grew, HasAsked};
ghost use Rattle.study_facts.specs.Nodes.{IsEnd, IsPlay};
ghost use Rattle.study_facts.specs.Play.{ArePlayed};

use crate::lines::{add_drawing_moves_line, add_play};
use arrayvec::ArrayVec;
use std::alloc::Allocator;
use study_board::Position;
use study_facts::{EvaluatedMove, TextFault, better_of, play_on};
use study_moves::played;
use study_text::Text;
use study_values::{Value, Values};

/// The first of these moves with the best value.
fn best_of(p: &Position, evaluated: &[EvaluatedMove]) -> Option<EvaluatedMove>
    requires { All (λ x. is_legal p.now x.played ≡ true) evaluated.now }
    ensures best { result ≡ first_best evaluated.now }
    ensures legal { IfSome result (λ x. is_legal p.now x.played ≡ true) }
{
    match evaluated.split_first() {
        None => None,
        Some((x, rest)) => {
            let later = best_of(p, rest);
            Some(better_of(*x, later))
        }
    }
}

/// Best play of at most 20 plies, beginning with one of these legal moves.
fn play_from<V: Values>(
    p: &Position,
    evaluated: &[EvaluatedMove],
    values: &mut V,
) -> Result<ArrayVec<EvaluatedMove, 20>, TextFault>
    requires { All (λ x. is_legal p.now x.played ≡ true) evaluated.now }
    ensures game { AreChosen (λ v. true) p.now (legal_list p.now) evaluated.now
        → V.source.is_honest values.old → IfOk result (λ list.
        IsBestPlay 20 p.now list.items) }
    ensures legal { IfOk result (λ list. ArePlayed p.now list.items) }
    ensures asked { HasAsked (within p.now V.source) values.old result values.new }
{
    let mut list = ArrayVec::new();
    match best_of(p, evaluated) {
        None => Ok(list),
        Some(best) => {
            let next = played(p, best.played);
            list.push(best);
            match play_on(&next, 19, values, &mut list) {
                Err(fault) => Err(TextFault::NoValue(fault)),
                Ok(_) => Ok(list),
            }
        }
    }
}

/// The line of best play.
fn add_best<A: Allocator, V: Values>(
    text: &mut Text<'_, A>,
    steps: &[u16],
    p: &Position,
    value: Value,
    evaluated: &[EvaluatedMove],
    values: &mut V,
) -> Result<(), TextFault>
    requires { All (λ x. is_legal p.now x.played ≡ true) evaluated.now }
    ensures text { AreChosen (λ v. true) p.now (legal_list p.now) evaluated.now
        → V.source.is_honest values.old
        → OnOk result (Grew (IsPlay steps.now p.now value) text.old text.new) }
    ensures asked { HasAsked (within p.now V.source) values.old result values.new }
{
    let list = play_from(p, evaluated, values)?;
    add_play(text, steps, p, value, list.as_slice())?;
    Ok(())
}

/// Best play, or the moves that keep a draw.
pub fn add_best_play_or_draws<A: Allocator, V: Values>(
    text: &mut Text<'_, A>,
    steps: &[u16],
    p: &Position,
    value: Value,
    evaluated: &[EvaluatedMove],
    values: &mut V,
) -> Result<(), TextFault>
    requires legal { All (λ x. is_legal p.now x.played ≡ true) evaluated.now }
    requires all { length evaluated.now ≡ length (legal_list p.now) }
    requires few { length evaluated.now < 2 ^ 32 }
    ensures text { AreChosen (λ v. true) p.now (legal_list p.now) evaluated.now
        → V.source.is_honest values.old
        → OnOk result (Grew (IsEnd steps.now p.now value) text.old text.new) }
    ensures asked { HasAsked (within p.now V.source) values.old result values.new }
{
    match value {
        Value::Draw => {
            add_drawing_moves_line(text, steps, p, evaluated)?;
            Ok(())
        }
        _ => add_best(text, steps, p, value, evaluated, values),
    }
}
