//! The values after all legal moves.
ghost use Rattle.std.specs.Prelude.{◌≡◌, ◌+◌, ◌<◌, ◌^◌, true, IfOk};
ghost use Rattle.std.specs.List.{All};
ghost use Rattle.study_moves.specs.LegalList.{legal_list};
ghost use Rattle.study_moves.specs.Rules.{is_legal};
ghost use Rattle.study_values.specs.Game.{IsValueOf};
ghost use Rattle.study_facts.specs.Asked.{within};
ghost use Rattle.study_facts.specs.Continuations.{AreChosen, AreHoldingMoves, positions_after};
ghost use Rattle.study_view.specs.Asked.{HasEvaluatedEach, HasEvaluatedSome};

use arrayvec::ArrayVec;
use study_board::Position;
use study_facts::{EvaluatedMove, NodeContext, holding_moves, missing_moves};
use study_marks::Aim;
use study_moves::MAX_MOVES;
use study_values::{ProbeFault, Value, Values};

/// All legal moves, with the values after them.
pub fn evaluate_legal_moves<V: Values>(
    node: &NodeContext<'_>,
    values: &mut V,
) -> Result<ArrayVec<EvaluatedMove, MAX_MOVES>, ProbeFault>
    requires depth { node.now.depth + 1 < 2 ^ 64 }
    ensures game { V.source.is_honest values.old → IfOk result (λ list.
        AreChosen (λ v. true) node.now.position.now (legal_list node.now.position.now) list.items) }
    ensures legal { IfOk result (λ list.
        All (λ x. is_legal node.now.position.now x.played ≡ true) list.items) }
    ensures asked { HasEvaluatedEach V.source
        node.now.position.now
        (positions_after node.now.position.now (legal_list node.now.position.now))
        values.old result values.new }
{
    missing_moves(node, &[], values)
}

/// The value of a position.
pub fn ask_value<V: Values>(q: &Position, values: &mut V) -> Result<Value, ProbeFault>
    ensures game { V.source.is_honest values.old → IfOk result (IsValueOf q.now) }
    ensures asked { HasEvaluatedSome (within q.now V.source) values.old result values.new }
{
    // (the position is valid, as the clauses on its answer say)
    let _men = q.men();
    values.value(q)
}

/// The first moves that hold, each with the value after it.
pub fn ask_first_moves<V: Values>(
    aim: &Aim,
    q: &Position,
    values: &mut V,
) -> Result<ArrayVec<EvaluatedMove, MAX_MOVES>, ProbeFault>
    ensures game { V.source.is_honest values.old
        → IfOk result (λ list. AreHoldingMoves aim.now 0 q.now list.items) }
    ensures legal { IfOk result (λ list. All (λ x. is_legal q.now x.played ≡ true) list.items) }
    ensures asked { HasEvaluatedSome (within q.now V.source) values.old result values.new }
{
    let node = NodeContext {
        aim,
        depth: 0,
        position: q,
    };
    holding_moves(&node, values)
}
