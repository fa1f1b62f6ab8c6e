//! What is looked for in a row of only moves.
#![tactic(auto, using(study_search::proofs::Faults::can_report, study_search::proofs::Faults::if_reported))]

ghost use Rattle.std.specs.Prelude.{◌≡◌, ◌↔◌, true, false, IfOk, IfErr};
ghost use Rattle.std.specs.List.{All};
ghost use Rattle.study_moves.specs.Rules.{has_side, is_legal};
ghost use Rattle.study_material.specs.Needs.{NeedsClass};
ghost use Rattle.study_search.specs.Faults.{CanReport, HasSameTables};
ghost use Rattle.study_search.specs.Listed.{SomeLeads};
ghost use Rattle.study_search.specs.Rows.{IsLine};
ghost use Rattle.study_listing.specs.Features.{CanBeTaken, MoveHas, RowHas, RowHasAll};

use study_board::{Position, Side, Square};
use study_moves::{Move, has_side, is_stalemate, legal_moves, played};
use study_search::{is_underpromotion, is_zugzwang};
use study_values::{ProbeFault, Values};

/// What some move of the hero in a row of only moves has to be.
#[derive(Clone, Copy, Debug, PartialEq, Eq)]
pub enum Feature {
    /// It promotes to a rook, a bishop or a knight.
    Underpromotion,
    /// A legal reply takes the man that moved.
    Offer,
    /// It leads to a mutual zugzwang.
    Zugzwang,
    /// The opponent is stalemated.
    Stalemate,
}

/// Whether one of these replies leaves no man of the side on the square.
fn some_takes(q: &Position, side: Side, x: Square, replies: &[Move]) -> bool
    requires { All (λ r. is_legal q.now r ≡ true) replies.now }
    ensures { (result ≡ true) ↔ SomeLeads (λ s. has_side s.men side x ≡ false) q.now replies.now }
{
    match replies.split_first() {
        None => false,
        Some((r, rest)) => {
            let last = played(q, *r);
            if !has_side(last.men(), side, x) {
                return true;
            }
            some_takes(q, side, x, rest)
        }
    }
}

/// Whether a legal reply takes the man that moved.
fn can_be_taken(p: &Position, m: Move) -> bool
    requires { is_legal p.now m ≡ true }
    ensures { (result ≡ true) ↔ CanBeTaken p.now m }
{
    let side = p.to_move();
    let reached = m.target;
    let next = played(p, m);
    let replies = legal_moves(&next);
    some_takes(&next, side, reached, replies.as_slice())
}

/// Whether the move leads to a mutual zugzwang.
fn leads_to_zugzwang<V: Values>(p: &Position, m: Move, values: &mut V) -> Result<bool, ProbeFault>
    requires legal { is_legal p.now m ≡ true }
    ensures game { V.source.is_honest values.old
        → IfOk result (λ b. (b ≡ true) ↔ MoveHas Feature.Zugzwang p.now m) }
    ensures faults { IfErr result (CanReport V.source (NeedsClass p.now) values.old) }
    ensures honest { V.source.is_honest values.old → V.source.is_honest values.new }
    ensures tables { HasSameTables V.source values.old values.new }
{
    let _men = p.men();
    let next = played(p, m);
    is_zugzwang(&next, values)
}

/// Whether the move stalemates.
fn stalemates(p: &Position, m: Move) -> bool
    requires { is_legal p.now m ≡ true }
    ensures { (result ≡ true) ↔ MoveHas Feature.Stalemate p.now m }
{
    is_stalemate(&played(p, m))
}

/// Whether the hero's move is such.
fn move_has<V: Values>(
    feature: Feature,
    p: &Position,
    m: Move,
    values: &mut V,
) -> Result<bool, ProbeFault>
    requires legal { is_legal p.now m ≡ true }
    ensures game { V.source.is_honest values.old
        → IfOk result (λ b. (b ≡ true) ↔ MoveHas feature p.now m) }
    ensures faults { IfErr result (CanReport V.source (NeedsClass p.now) values.old) }
    ensures honest { V.source.is_honest values.old → V.source.is_honest values.new }
    ensures tables { HasSameTables V.source values.old values.new }
{
    match feature {
        Feature::Underpromotion => Ok(is_underpromotion(m)),
        Feature::Offer => Ok(can_be_taken(p, m)),
        Feature::Zugzwang => leads_to_zugzwang(p, m, values),
        Feature::Stalemate => Ok(stalemates(p, m)),
    }
}

/// Whether some move of the hero in the row is such.
fn row_has<V: Values>(
    feature: Feature,
    p: &Position,
    row: &[Move],
    values: &mut V,
) -> Result<bool, ProbeFault>
    requires line { IsLine p.now row.now }
    ensures game { V.source.is_honest values.old
        → IfOk result (λ b. (b ≡ true) ↔ RowHas feature p.now row.now) }
    ensures faults { IfErr result (CanReport V.source (NeedsClass p.now) values.old) }
    ensures honest { V.source.is_honest values.old → V.source.is_honest values.new }
    ensures tables { HasSameTables V.source values.old values.new }
{
    match row.split_first() {
        None => Ok(false),
        Some((m, rest)) => match move_has(feature, p, *m, values) {
            Err(fault) => Err(fault),
            Ok(true) => Ok(true),
            Ok(false) => match rest.split_first() {
                None => Ok(false),
                Some((r, more)) => {
                    let _men = p.men();
                    let next = played(p, *m);
                    let _next_men = next.men();
                    let last = played(&next, *r);
                    row_has(feature, &last, more, values)
                }
            },
        },
    }
}

/// Whether the row has each wanted feature.
pub(crate) fn row_has_all<V: Values>(
    wanted: &[Option<Feature>],
    p: &Position,
    row: &[Move],
    values: &mut V,
) -> Result<bool, ProbeFault>
    requires line { IsLine p.now row.now }
    ensures game { V.source.is_honest values.old
        → IfOk result (λ b. (b ≡ true) ↔ RowHasAll wanted.now p.now row.now) }
    ensures faults { IfErr result (CanReport V.source (NeedsClass p.now) values.old) }
    ensures honest { V.source.is_honest values.old → V.source.is_honest values.new }
    ensures tables { HasSameTables V.source values.old values.new }
{
    match wanted.split_first() {
        None => Ok(true),
        Some((None, rest)) => row_has_all(rest, p, row, values),
        Some((Some(feature), rest)) => match row_has(*feature, p, row, values) {
            Err(fault) => Err(fault),
            Ok(false) => Ok(false),
            Ok(true) => row_has_all(rest, p, row, values),
        },
    }
}
