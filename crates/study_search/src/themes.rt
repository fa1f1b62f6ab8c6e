//! The themes of positions: mutual zugzwangs, only moves, underpromotions and long mates.
#![tactic(auto, using(crate::proofs::Faults::can_report, crate::proofs::Faults::if_reported))]

ghost use Rattle.std.specs.Prelude.{◌≡◌, ◌↔◌, true, IfOk, IfErr};
ghost use Rattle.std.specs.List.{All, list_any};
ghost use Rattle.study_moves.specs.Game.{IsWon};
ghost use Rattle.study_moves.specs.Rules.{is_legal, after};
ghost use Rattle.study_zugzwang.specs.Zugzwang.{IsZugzwang};
ghost use Rattle.study_material.specs.Needs.{NeedsClass};
ghost use Rattle.study_search.specs.Faults.{CanReport, HasSameTables};
ghost use Rattle.study_search.specs.Listed.{SomeLeads};
ghost use Rattle.study_search.specs.Themes.{is_underpromoted, Underpromotes, LeadsIntoZugzwang, spoiling_outcome, HasTheme};
ghost use Rattle.study_search.specs.Themes.{IsZugzwangOf, FailsIntoZugzwang};

use crate::longest::mate_of;
use crate::only_moves::{Outcome, has_only_moves, key_move, only_move};
use crate::zugzwang::{is_zugzwang, is_zugzwang_of};
use study_board::{Kind, Position};
use study_moves::{Move, legal_moves, played};
use study_values::{ProbeFault, Values};

/// A theme of a position. The side to move is the hero.
#[derive(Clone, Copy, Debug, PartialEq, Eq)]
pub enum Theme {
    /// A mutual zugzwang, whoever is to move.
    Zugzwang,
    /// The hero has the outcome, and the defender can make him find so many only moves in a row.
    OnlyMoves(Outcome, u8),
    /// Exactly one move holds, and it promotes to a rook, a bishop or a knight.
    Underpromotion,
    /// The hero has the outcome, exactly one move keeps it, and it leads to a mutual zugzwang.
    IntoZugzwang(Outcome),
    /// The same, and another move fails to exactly one reply, only since the hero is to move after it, in a mutual zugzwang.
    ZugzwangTry(Outcome),
    /// The hero mates in so many plies, and not in fewer.
    MateIn(u8),
}

/// Whether the move promotes to a rook, a bishop or a knight.
pub fn is_underpromotion(m: Move) -> bool
    ensures { result ≡ is_underpromoted m.promoted }
{
    match m.promoted {
        Some(Kind::Rook | Kind::Bishop | Kind::Knight) => true,
        _ => false,
    }
}

/// Whether exactly one move keeps the outcome, and it promotes to less than a queen.
fn underpromotes<V: Values>(
    p: &Position,
    outcome: Outcome,
    values: &mut V,
) -> Result<bool, ProbeFault>
    ensures game { V.source.is_honest values.old
        → IfOk result (λ b. (b ≡ true) ↔ Underpromotes outcome p.now) }
    ensures faults { IfErr result (CanReport V.source (NeedsClass p.now) values.old) }
    ensures honest { V.source.is_honest values.old → V.source.is_honest values.new }
    ensures tables { HasSameTables V.source values.old values.new }
{
    match key_move(p, outcome, values) {
        Err(fault) => Err(fault),
        Ok(None) => Ok(false),
        Ok(Some(m)) => Ok(is_underpromotion(m)),
    }
}

fn draws_by_underpromotion<V: Values>(p: &Position, values: &mut V) -> Result<bool, ProbeFault>
    ensures game { V.source.is_honest values.old
        → IfOk result (λ b. (b ≡ true) ↔ Underpromotes Outcome.Draw p.now) }
    ensures faults { IfErr result (CanReport V.source (NeedsClass p.now) values.old) }
    ensures honest { V.source.is_honest values.old → V.source.is_honest values.new }
    ensures tables { HasSameTables V.source values.old values.new }
{
    underpromotes(p, Outcome::Draw, values)
}

/// Whether one of these moves promotes to less than a queen.
fn some_underpromotes(moves: &[Move]) -> bool
    ensures { result ≡ list_any (λ m. is_underpromoted m.promoted) moves.now }
{
    moves.iter().any(|m| is_underpromotion(*m))
}

/// Whether exactly one move holds, and it promotes to less than a queen. If no legal move promotes so, nothing is evaluated.
fn holds_by_underpromotion<V: Values>(p: &Position, values: &mut V) -> Result<bool, ProbeFault>
    ensures game { V.source.is_honest values.old
        → IfOk result (λ b. (b ≡ true) ↔ HasTheme Theme.Underpromotion p.now) }
    ensures faults { IfErr result (CanReport V.source (NeedsClass p.now) values.old) }
    ensures honest { V.source.is_honest values.old → V.source.is_honest values.new }
    ensures tables { HasSameTables V.source values.old values.new }
{
    let moves = legal_moves(p);
    let some = some_underpromotes(moves.as_slice());
    if !some {
        return Ok(false);
    }
    match underpromotes(p, Outcome::Win, values) {
        Err(fault) => Err(fault),
        Ok(true) => Ok(true),
        Ok(false) => draws_by_underpromotion(p, values),
    }
}

/// Whether the move leads to a mutual zugzwang.
fn leads_to_zugzwang<V: Values>(p: &Position, m: Move, values: &mut V) -> Result<bool, ProbeFault>
    requires legal { is_legal p.now m ≡ true }
    ensures game { V.source.is_honest values.old
        → IfOk result (λ b. (b ≡ true) ↔ IsZugzwang (after p.now m)) }
    ensures faults { IfErr result (CanReport V.source (NeedsClass p.now) values.old) }
    ensures honest { V.source.is_honest values.old → V.source.is_honest values.new }
    ensures tables { HasSameTables V.source values.old values.new }
{
    let _men = p.men();
    let next = played(p, m);
    is_zugzwang(&next, values)
}

/// Whether exactly one move keeps the outcome, and it leads to a mutual zugzwang.
fn leads_into_zugzwang<V: Values>(
    p: &Position,
    outcome: Outcome,
    values: &mut V,
) -> Result<bool, ProbeFault>
    ensures game { V.source.is_honest values.old
        → IfOk result (λ b. (b ≡ true) ↔ LeadsIntoZugzwang outcome p.now) }
    ensures faults { IfErr result (CanReport V.source (NeedsClass p.now) values.old) }
    ensures honest { V.source.is_honest values.old → V.source.is_honest values.new }
    ensures tables { HasSameTables V.source values.old values.new }
{
    match key_move(p, outcome, values) {
        Err(fault) => Err(fault),
        Ok(None) => Ok(false),
        Ok(Some(m)) => leads_to_zugzwang(p, m, values),
    }
}

/// The opponent's result that spoils the outcome.
fn spoiling_outcome(outcome: Outcome) -> Outcome
    ensures { result ≡ spoiling_outcome outcome }
{
    match outcome {
        Outcome::Win => Outcome::Draw,
        Outcome::Draw => Outcome::Win,
    }
}

/// Whether the move leads to a mutual zugzwang in which the hero, who is then to move, would keep the outcome if the opponent were to move.
fn leads_to_zugzwang_of<V: Values>(
    p: &Position,
    m: Move,
    outcome: Outcome,
    values: &mut V,
) -> Result<bool, ProbeFault>
    requires legal { is_legal p.now m ≡ true }
    ensures game { V.source.is_honest values.old
        → IfOk result (λ b. (b ≡ true) ↔ IsZugzwangOf outcome (after p.now m)) }
    ensures faults { IfErr result (CanReport V.source (NeedsClass p.now) values.old) }
    ensures honest { V.source.is_honest values.old → V.source.is_honest values.new }
    ensures tables { HasSameTables V.source values.old values.new }
{
    let _men = p.men();
    let next = played(p, m);
    is_zugzwang_of(&next, outcome, values)
}

/// Whether the opponent, who is to move, has exactly one reply that spoils the outcome, and only since the hero is to move after it, in a mutual
/// zugzwang.
fn fails_into_zugzwang<V: Values>(
    q: &Position,
    outcome: Outcome,
    values: &mut V,
) -> Result<bool, ProbeFault>
    ensures game { V.source.is_honest values.old
        → IfOk result (λ b. (b ≡ true) ↔ FailsIntoZugzwang outcome q.now) }
    ensures faults { IfErr result (CanReport V.source (NeedsClass q.now) values.old) }
    ensures honest { V.source.is_honest values.old → V.source.is_honest values.new }
    ensures tables { HasSameTables V.source values.old values.new }
{
    match only_move(q, spoiling_outcome(outcome), values) {
        Err(fault) => Err(fault),
        Ok(None) => Ok(false),
        Ok(Some(r)) => leads_to_zugzwang_of(q, r, outcome, values),
    }
}

/// Whether one of these moves fails to exactly one reply, only since the hero is to move after it, in a mutual zugzwang.
fn some_fails_into_zugzwang<V: Values>(
    p: &Position,
    outcome: Outcome,
    moves: &[Move],
    values: &mut V,
) -> Result<bool, ProbeFault>
    requires legal { All (λ m. is_legal p.now m ≡ true) moves.now }
    ensures game { V.source.is_honest values.old
        → IfOk result (λ b. (b ≡ true) ↔ SomeLeads (FailsIntoZugzwang outcome) p.now moves.now) }
    ensures faults { IfErr result (CanReport V.source (NeedsClass p.now) values.old) }
    ensures honest { V.source.is_honest values.old → V.source.is_honest values.new }
    ensures tables { HasSameTables V.source values.old values.new }
{
    match moves.split_first() {
        None => Ok(false),
        Some((m, rest)) => {
            let _men = p.men();
            let next = played(p, *m);
            match fails_into_zugzwang(&next, outcome, values) {
                Err(fault) => Err(fault),
                Ok(true) => Ok(true),
                Ok(false) => some_fails_into_zugzwang(p, outcome, rest, values),
            }
        }
    }
}

/// Whether the only move that keeps the outcome leads to a mutual zugzwang, and so does the only refutation of a try.
fn has_zugzwang_try<V: Values>(
    p: &Position,
    outcome: Outcome,
    values: &mut V,
) -> Result<bool, ProbeFault>
    ensures game { V.source.is_honest values.old
        → IfOk result (λ b. (b ≡ true) ↔ HasTheme (Theme.ZugzwangTry outcome) p.now) }
    ensures faults { IfErr result (CanReport V.source (NeedsClass p.now) values.old) }
    ensures honest { V.source.is_honest values.old → V.source.is_honest values.new }
    ensures tables { HasSameTables V.source values.old values.new }
{
    match leads_into_zugzwang(p, outcome, values) {
        Err(fault) => Err(fault),
        Ok(false) => Ok(false),
        Ok(true) => {
            let moves = legal_moves(p);
            some_fails_into_zugzwang(p, outcome, moves.as_slice(), values)
        }
    }
}

/// Whether the hero mates in so many plies, and not in fewer.
fn mates_in<V: Values>(p: &Position, plies: u8, values: &mut V) -> Result<bool, ProbeFault>
    ensures game { V.source.is_honest values.old
        → IfOk result (λ b. (b ≡ true) ↔ IsWon p.now plies) }
    ensures faults { IfErr result (CanReport V.source (NeedsClass p.now) values.old) }
    ensures honest { V.source.is_honest values.old → V.source.is_honest values.new }
    ensures tables { HasSameTables V.source values.old values.new }
{
    match mate_of(p, values) {
        Err(fault) => Err(fault),
        Ok(None) => Ok(false),
        Ok(Some(k)) => Ok(k == plies),
    }
}

/// Whether the position has the theme.
pub fn has_theme<V: Values>(p: &Position, theme: Theme, values: &mut V) -> Result<bool, ProbeFault>
    ensures game { V.source.is_honest values.old
        → IfOk result (λ b. (b ≡ true) ↔ HasTheme theme p.now) }
    ensures faults { IfErr result (CanReport V.source (NeedsClass p.now) values.old) }
    ensures honest { V.source.is_honest values.old → V.source.is_honest values.new }
    ensures tables { HasSameTables V.source values.old values.new }
{
    match theme {
        Theme::Zugzwang => is_zugzwang(p, values),
        Theme::OnlyMoves(outcome, n) => has_only_moves(p, outcome, n, values),
        Theme::Underpromotion => holds_by_underpromotion(p, values),
        Theme::IntoZugzwang(outcome) => leads_into_zugzwang(p, outcome, values),
        Theme::ZugzwangTry(outcome) => has_zugzwang_try(p, outcome, values),
        Theme::MateIn(plies) => mates_in(p, plies, values),
    }
}
