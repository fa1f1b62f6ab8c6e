//! The number of only moves in a row that the defender can make the hero find, by the values of positions.
#![tactic(auto, using(crate::proofs::Faults::can_report, crate::proofs::Faults::if_reported))]

ghost use Rattle.std.specs.Prelude.{◌≡◌, ◌≤◌, ◌<◌, ◌↔◌, Some, true, length, IfOk, IfErr, IfSome};
ghost use Rattle.std.specs.List.{All};
ghost use Rattle.study_moves.specs.declared.moves.Move.{Move as AMove};
ghost use Rattle.study_moves.specs.Rules.{is_legal, after};
ghost use Rattle.study_material.specs.Needs.{NeedsClass};
ghost use Rattle.study_search.specs.Faults.{CanReport, HasSameTables};
ghost use Rattle.study_search.specs.OnlyMoves.{has_outcome, keeps_outcome, Has, Holds, IsOnlyMove, IsKey, HasOnlyMoves};
ghost use Rattle.study_search.specs.Listed.{SomeLeads, IsOnlyAmong};

use crate::value::value_of;
use study_board::Position;
use study_moves::{MAX_MOVES, Move, legal_moves, played, values_are_unique};
use study_values::{ProbeFault, Value, Values};

/// The result of the hero, who is to move: he wins, or he draws.
#[derive(Clone, Copy, Debug, PartialEq, Eq)]
pub enum Outcome {
    Win,
    Draw,
}

/// Whether the side to move has the outcome, by its value.
fn has_outcome(outcome: Outcome, value: Value) -> bool
    ensures { result ≡ has_outcome outcome value }
{
    match value {
        Value::Win(_) => outcome == Outcome::Win,
        Value::Loss(_) => false,
        Value::Draw => outcome == Outcome::Draw,
    }
}

/// Whether the move that led here keeps the outcome, by the value for the opponent, who is to move.
fn keeps_outcome(outcome: Outcome, value: Value) -> bool
    ensures { result ≡ keeps_outcome outcome value }
{
    match value {
        Value::Win(_) => false,
        Value::Loss(_) => true,
        Value::Draw => outcome == Outcome::Draw,
    }
}

/// Whether the side to move has the outcome.
pub(crate) fn has<V: Values>(
    p: &Position,
    outcome: Outcome,
    values: &mut V,
) -> Result<bool, ProbeFault>
    ensures game { V.source.is_honest values.old
        → IfOk result (λ b. (b ≡ true) ↔ Has outcome p.now) }
    ensures faults { IfErr result (CanReport V.source (NeedsClass p.now) values.old) }
    ensures honest { V.source.is_honest values.old → V.source.is_honest values.new }
    ensures tables { HasSameTables V.source values.old values.new }
{
    values_are_unique();
    match value_of(p, values) {
        Err(fault) => Err(fault),
        Ok(value) => Ok(has_outcome(outcome, value)),
    }
}

/// Whether the move that led here keeps the outcome.
pub(crate) fn holds<V: Values>(
    q: &Position,
    outcome: Outcome,
    values: &mut V,
) -> Result<bool, ProbeFault>
    ensures game { V.source.is_honest values.old
        → IfOk result (λ b. (b ≡ true) ↔ Holds outcome q.now) }
    ensures faults { IfErr result (CanReport V.source (NeedsClass q.now) values.old) }
    ensures honest { V.source.is_honest values.old → V.source.is_honest values.new }
    ensures tables { HasSameTables V.source values.old values.new }
{
    values_are_unique();
    match value_of(q, values) {
        Err(fault) => Err(fault),
        Ok(value) => Ok(keeps_outcome(outcome, value)),
    }
}

/// Whether the move keeps the outcome.
fn holds_after<V: Values>(
    p: &Position,
    m: Move,
    outcome: Outcome,
    values: &mut V,
) -> Result<bool, ProbeFault>
    requires legal { is_legal p.now m ≡ true }
    ensures game { V.source.is_honest values.old
        → IfOk result (λ b. (b ≡ true) ↔ Holds outcome (after p.now m)) }
    ensures faults { IfErr result (CanReport V.source (NeedsClass p.now) values.old) }
    ensures honest { V.source.is_honest values.old → V.source.is_honest values.new }
    ensures tables { HasSameTables V.source values.old values.new }
{
    let _men = p.men();
    let next = played(p, m);
    holds(&next, outcome, values)
}

/// Whether one of these moves holds.
fn some_holds<V: Values>(
    p: &Position,
    outcome: Outcome,
    moves: &[Move],
    values: &mut V,
) -> Result<bool, ProbeFault>
    requires legal { All (λ m. is_legal p.now m ≡ true) moves.now }
    ensures game { V.source.is_honest values.old
        → IfOk result (λ b. (b ≡ true) ↔ SomeLeads (Holds outcome) p.now moves.now) }
    ensures faults { IfErr result (CanReport V.source (NeedsClass p.now) values.old) }
    ensures honest { V.source.is_honest values.old → V.source.is_honest values.new }
    ensures tables { HasSameTables V.source values.old values.new }
{
    match moves.split_first() {
        None => Ok(false),
        Some((m, rest)) => {
            match holds_after(p, *m, outcome, values) {
                Err(fault) => Err(fault),
                Ok(true) => Ok(true),
                Ok(false) => some_holds(p, outcome, rest, values),
            }
        }
    }
}

/// The only one of these moves that holds, if exactly one does; the search stops at the second.
fn only_among<V: Values>(
    p: &Position,
    outcome: Outcome,
    moves: &[Move],
    values: &mut V,
) -> Result<Option<Move>, ProbeFault>
    requires legal { All (λ m. is_legal p.now m ≡ true) moves.now }
    ensures game { V.source.is_honest values.old
        → IfOk result (λ only. (m : AMove) → (only ≡ Some m)
        ↔ IsOnlyAmong outcome p.now m moves.now) }
    ensures legal { IfOk result (λ only. IfSome only (λ m. is_legal p.now m ≡ true)) }
    ensures faults { IfErr result (CanReport V.source (NeedsClass p.now) values.old) }
    ensures honest { V.source.is_honest values.old → V.source.is_honest values.new }
    ensures tables { HasSameTables V.source values.old values.new }
{
    match moves.split_first() {
        None => Ok(None),
        Some((m, rest)) => {
            match holds_after(p, *m, outcome, values) {
                Err(fault) => Err(fault),
                Ok(false) => only_among(p, outcome, rest, values),
                Ok(true) => match some_holds(p, outcome, rest, values) {
                    Err(fault) => Err(fault),
                    Ok(true) => Ok(None),
                    Ok(false) => Ok(Some(*m)),
                },
            }
        }
    }
}

/// The legal move that holds, if exactly one does.
pub fn only_move<V: Values>(
    p: &Position,
    outcome: Outcome,
    values: &mut V,
) -> Result<Option<Move>, ProbeFault>
    ensures game { V.source.is_honest values.old
        → IfOk result (λ only. (m : AMove) → (only ≡ Some m) ↔ IsOnlyMove outcome p.now m) }
    ensures legal { IfOk result (λ only. IfSome only (λ m. is_legal p.now m ≡ true)) }
    ensures faults { IfErr result (CanReport V.source (NeedsClass p.now) values.old) }
    ensures honest { V.source.is_honest values.old → V.source.is_honest values.new }
    ensures tables { HasSameTables V.source values.old values.new }
{
    let moves = legal_moves(p);
    only_among(p, outcome, moves.as_slice(), values)
}

/// The only move that keeps the outcome, if the side to move has the outcome and exactly one move keeps it.
pub fn key_move<V: Values>(
    p: &Position,
    outcome: Outcome,
    values: &mut V,
) -> Result<Option<Move>, ProbeFault>
    ensures game { V.source.is_honest values.old
        → IfOk result (λ only. (m : AMove) → (only ≡ Some m) ↔ IsKey outcome p.now m) }
    ensures legal { IfOk result (λ only. IfSome only (λ m. is_legal p.now m ≡ true)) }
    ensures faults { IfErr result (CanReport V.source (NeedsClass p.now) values.old) }
    ensures honest { V.source.is_honest values.old → V.source.is_honest values.new }
    ensures tables { HasSameTables V.source values.old values.new }
{
    match has(p, outcome, values) {
        Err(fault) => Err(fault),
        Ok(false) => Ok(None),
        Ok(true) => only_move(p, outcome, values),
    }
}

/// Whether one of these replies leads to a position in which the hero has to find n only moves in a row.
#[cycle(line)]
fn some_reply_leads<V: Values>(
    q: &Position,
    outcome: Outcome,
    n: u8,
    replies: &[Move],
    values: &mut V,
) -> Result<bool, ProbeFault>
    requires legal { All (λ m. is_legal q.now m ≡ true) replies.now }
    requires few { length replies.now ≤ MAX_MOVES }
    requires some { 0 < n }
    ensures game { V.source.is_honest values.old
        → IfOk result (λ b. (b ≡ true) ↔ SomeLeads (HasOnlyMoves outcome n) q.now replies.now) }
    ensures faults { IfErr result (CanReport V.source (NeedsClass q.now) values.old) }
    ensures honest { V.source.is_honest values.old → V.source.is_honest values.new }
    ensures tables { HasSameTables V.source values.old values.new }
{
    match replies.split_first() {
        None => Ok(false),
        Some((r, rest)) => {
            let _men = q.men();
            let next = played(q, *r);
            match has_only_moves_on(&next, outcome, n, values) {
                Err(fault) => Err(fault),
                Ok(true) => Ok(true),
                Ok(false) => some_reply_leads(q, outcome, n, rest, values),
            }
        }
    }
}

/// Whether the hero, who is to move, has to find n only moves in a row, of a position that he draws if a draw is the outcome. That he wins, if a
/// win is, follows from the move that holds.
#[cycle(line)]
fn finds_only_moves<V: Values>(
    p: &Position,
    outcome: Outcome,
    n: u8,
    values: &mut V,
) -> Result<bool, ProbeFault>
    requires { 0 < n }
    ensures game { V.source.is_honest values.old → (outcome ≡ Outcome.Draw → Has Outcome.Draw p.now)
        → IfOk result (λ b. (b ≡ true) ↔ HasOnlyMoves outcome n p.now) }
    ensures faults { IfErr result (CanReport V.source (NeedsClass p.now) values.old) }
    ensures honest { V.source.is_honest values.old → V.source.is_honest values.new }
    ensures tables { HasSameTables V.source values.old values.new }
{
    let _men = p.men();
    match only_move(p, outcome, values) {
        Err(fault) => Err(fault),
        Ok(None) => Ok(false),
        Ok(Some(m)) => {
            if n == 1 {
                return Ok(true);
            }
            let next = played(p, m);
            let replies = legal_moves(&next);
            some_reply_leads(&next, outcome, n - 1, replies.as_slice(), values)
        }
    }
}

/// The same as `has_only_moves`, after a reply to a move that holds. A hero who wins before the reply wins after it, so that whether he wins is not
/// evaluated again.
#[cycle(line)]
fn has_only_moves_on<V: Values>(
    p: &Position,
    outcome: Outcome,
    n: u8,
    values: &mut V,
) -> Result<bool, ProbeFault>
    requires { 0 < n }
    ensures game { V.source.is_honest values.old
        → IfOk result (λ b. (b ≡ true) ↔ HasOnlyMoves outcome n p.now) }
    ensures faults { IfErr result (CanReport V.source (NeedsClass p.now) values.old) }
    ensures honest { V.source.is_honest values.old → V.source.is_honest values.new }
    ensures tables { HasSameTables V.source values.old values.new }
{
    match outcome {
        Outcome::Win => finds_only_moves(p, outcome, n, values),
        Outcome::Draw => has_only_moves(p, outcome, n, values),
    }
}

/// Whether the hero, who is to move, has the outcome, and the defender can make him find n only moves in a row to keep it.
#[cycle(line)]
pub fn has_only_moves<V: Values>(
    p: &Position,
    outcome: Outcome,
    n: u8,
    values: &mut V,
) -> Result<bool, ProbeFault>
    ensures game { V.source.is_honest values.old
        → IfOk result (λ b. (b ≡ true) ↔ HasOnlyMoves outcome n p.now) }
    ensures faults { IfErr result (CanReport V.source (NeedsClass p.now) values.old) }
    ensures honest { V.source.is_honest values.old → V.source.is_honest values.new }
    ensures tables { HasSameTables V.source values.old values.new }
{
    match has(p, outcome, values) {
        Err(fault) => Err(fault),
        Ok(false) => Ok(false),
        Ok(true) => {
            if n == 0 {
                return Ok(true);
            }
            finds_only_moves(p, outcome, n, values)
        }
    }
}
