//! The row of only moves that the defender can make the hero find.
#![tactic(auto, using(crate::proofs::Faults::can_report, crate::proofs::Faults::if_reported))]

ghost use Rattle.std.specs.Prelude.{◌≡◌, ◌≤◌, ◌<◌, ◌+◌, ◌*◌, ◌++◌, ◌∷◌, [], true, IfOk, IfErr, IfSome, MatchOption, List, Some, None};
ghost use Rattle.std.specs.List.{All};
ghost use Rattle.arrayvec.specs.ArrayVec.{array_vec_len};
ghost use Rattle.study_moves.specs.declared.moves.Move.{Move as AMove};
ghost use Rattle.study_moves.specs.Rules.{is_legal, after};
ghost use Rattle.study_material.specs.Needs.{NeedsClass};
ghost use Rattle.study_search.specs.Faults.{CanReport, HasSameTables};
ghost use Rattle.study_search.specs.OnlyMoves.{HasOnlyMoves, IsMost};
ghost use Rattle.study_search.specs.Listed.{SomeLeads, AddsRow};
ghost use Rattle.study_search.specs.Rows.{IsFirst, IsFirstReply, IsRow, IsLine};

use crate::finding::most_only_moves;
use crate::only_moves::{Outcome, has, has_only_moves, key_move};
use arrayvec::ArrayVec;
use study_board::Position;
use study_moves::{Move, legal_moves, played};
use study_values::{ProbeFault, Values};

/// The moves of a row: the hero's and the defender's in turn, 2 n - 1 for n only moves.
pub type Row = ArrayVec<Move, 512>;

/// The first of these replies after which the hero has to find n only moves in a row.
fn first_leading<V: Values>(
    q: &Position,
    outcome: Outcome,
    n: u8,
    replies: &[Move],
    values: &mut V,
) -> Result<Option<Move>, ProbeFault>
    requires legal { All (λ m. is_legal q.now m ≡ true) replies.now }
    ensures game { V.source.is_honest values.old → IfOk result (λ reply. MatchOption reply
        (¬ (SomeLeads (HasOnlyMoves outcome n) q.now replies.now))
        (IsFirst (HasOnlyMoves outcome n) q.now replies.now)) }
    ensures legal { IfOk result (λ reply. IfSome reply (λ r. is_legal q.now r ≡ true)) }
    ensures faults { IfErr result (CanReport V.source (NeedsClass q.now) values.old) }
    ensures honest { V.source.is_honest values.old → V.source.is_honest values.new }
    ensures tables { HasSameTables V.source values.old values.new }
{
    match replies.split_first() {
        None => Ok(None),
        Some((r, rest)) => {
            let _men = q.men();
            let next = played(q, *r);
            match has_only_moves(&next, outcome, n, values) {
                Err(fault) => Err(fault),
                Ok(true) => Ok(Some(*r)),
                Ok(false) => first_leading(q, outcome, n, rest, values),
            }
        }
    }
}

/// The first reply after which the hero has to find n only moves in a row.
fn first_reply<V: Values>(
    q: &Position,
    outcome: Outcome,
    n: u8,
    values: &mut V,
) -> Result<Option<Move>, ProbeFault>
    ensures game { V.source.is_honest values.old → IfOk result (λ reply. MatchOption reply
        ((r : AMove) → is_legal q.now r ≡ true → ¬ (HasOnlyMoves outcome n (after q.now r)))
        (IsFirstReply outcome n q.now)) }
    ensures legal { IfOk result (λ reply. IfSome reply (λ r. is_legal q.now r ≡ true)) }
    ensures faults { IfErr result (CanReport V.source (NeedsClass q.now) values.old) }
    ensures honest { V.source.is_honest values.old → V.source.is_honest values.new }
    ensures tables { HasSameTables V.source values.old values.new }
{
    let replies = legal_moves(q);
    first_leading(q, outcome, n, replies.as_slice(), values)
}

fn push_move(row: &mut Row, m: &Move)
    requires { array_vec_len row.old < 512 }
    ensures items { row.new.items ≡ row.old.items ++ m.now ∷ [] }
    ensures len { array_vec_len row.new ≡ array_vec_len row.old + 1 }
{
    row.push(*m);
}

/// Adds the row of n only moves from this position on, if there is one; else a part of it.
fn add_row<V: Values>(
    p: &Position,
    outcome: Outcome,
    n: u8,
    values: &mut V,
    row: &mut Row,
) -> Result<bool, ProbeFault>
    requires some { 0 < n }
    requires room { array_vec_len row.old + 2 * n ≤ 512 }
    ensures game { V.source.is_honest values.old → IfOk result
        (AddsRow outcome n p.now row.old.items row.new.items) }
    ensures legal { (added : List AMove) × IsLine p.now added
        × (row.new.items ≡ row.old.items ++ added) }
    ensures faults { IfErr result (CanReport V.source (NeedsClass p.now) values.old) }
    ensures honest { V.source.is_honest values.old → V.source.is_honest values.new }
    ensures tables { HasSameTables V.source values.old values.new }
{
    let _men = p.men();
    match key_move(p, outcome, values) {
        Err(fault) => Err(fault),
        Ok(None) => Ok(false),
        Ok(Some(m)) => {
            push_move(row, &m);
            let next = played(p, m);
            if n == 1 {
                return Ok(true);
            }
            let _next_men = next.men();
            match first_reply(&next, outcome, n - 1, values) {
                Err(fault) => Err(fault),
                Ok(None) => Ok(false),
                Ok(Some(r)) => {
                    push_move(row, &r);
                    let last = played(&next, r);
                    add_row(&last, outcome, n - 1, values, row)
                }
            }
        }
    }
}

/// The row of n only moves that the defender can make the hero find, each reply the first that leads on; `None` if he cannot.
pub fn row_of<V: Values>(
    p: &Position,
    outcome: Outcome,
    n: u8,
    values: &mut V,
) -> Result<Option<Row>, ProbeFault>
    ensures game { V.source.is_honest values.old → IfOk result (λ row. MatchOption row
        (¬ (HasOnlyMoves outcome n p.now)) (λ row. IsRow outcome n p.now row.items)) }
    ensures legal { IfOk result (λ row. IfSome row (λ row. IsLine p.now row.items)) }
    ensures faults { IfErr result (CanReport V.source (NeedsClass p.now) values.old) }
    ensures honest { V.source.is_honest values.old → V.source.is_honest values.new }
    ensures tables { HasSameTables V.source values.old values.new }
{
    let mut row = ArrayVec::new();
    let found = if n == 0 {
        has(p, outcome, values)?
    } else {
        add_row(p, outcome, n, values, &mut row)?
    };
    if found { Ok(Some(row)) } else { Ok(None) }
}

/// The longest row of only moves up to a limit, and how many of them are the hero's.
#[derive(Drop)]
pub struct LongestRow {
    pub count: u8,
    pub row: Row,
}

/// The longest row of only moves that the defender can make the hero find, up to a limit; `None` if the hero lacks the outcome.
pub fn longest_row<V: Values>(
    p: &Position,
    outcome: Outcome,
    limit: u8,
    values: &mut V,
) -> Result<Option<LongestRow>, ProbeFault>
    ensures game { V.source.is_honest values.old → IfOk result (λ found. MatchOption found
        (IsMost outcome p.now limit None)
        (λ f. IsMost outcome p.now limit (Some f.count) × IsRow outcome f.count p.now f.row.items)) }
    ensures legal { IfOk result (λ found. IfSome found (λ f. IsLine p.now f.row.items)) }
    ensures faults { IfErr result (CanReport V.source (NeedsClass p.now) values.old) }
    ensures honest { V.source.is_honest values.old → V.source.is_honest values.new }
    ensures tables { HasSameTables V.source values.old values.new }
{
    let Some(count) = most_only_moves(p, outcome, limit, values)? else {
        return Ok(None);
    };
    match row_of(p, outcome, count, values)? {
        Some(row) => Ok(Some(LongestRow { count, row })),
        None => Ok(None),
    }
}
