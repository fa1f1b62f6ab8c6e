//! The effect of a move in a game's text.
ghost use Rattle.std.specs.Prelude.{◌≡◌, IsTrue, IfOk, IfSome, true};
ghost use Rattle.study_moves.specs.Rules.{is_legal};
ghost use Rattle.study_tree.specs.Tree.{has_spot};
ghost use Rattle.study_marks.specs.Study.{plain_study, position_at};
ghost use Rattle.study_marks.specs.BenchState.{marked_study};
ghost use Rattle.study_import.specs.Moves.{Comes, moved_by, after_move_text};

use crate::game::values::NoValues;
use std::alloc::Allocator;
use study_marks::{Bench, Refusal};
use study_moves::Move;
use study_notation::read_san;
use study_reading::{MoveFault, Step};
use study_tree::Path;

/// Goes to the child with the move that the text spells; if there is none, to a new child, the last.
#[tactic(auto, unfolding(crate::specs::Moves::after_move_text))]
pub fn play<'a, A: Allocator>(
    bench: &mut Bench<'a, A>,
    path: &Path<'a, A>,
    san: &str,
) -> Result<Step, MoveFault>
    ensures legal { IfOk result (λ step.
        IfSome step.added (λ m. is_legal (position_at (marked_study bench.old) path.now) m
        ≡ true)) }
    ensures comes { Comes result (plain_study (marked_study bench.old))
        (plain_study (marked_study bench.new))
        (after_move_text (plain_study (marked_study bench.old)) path.now san.now) }
{
    let Some(start) = bench.start_at(path) else {
        return Err(MoveFault::NoSuchNode);
    };
    match read_san(&start.position, san) {
        Ok(m) => play_move(bench, path, &m),
        Err(fault) => Err(MoveFault::San(fault)),
    }
}

fn play_move<'a, A: Allocator>(
    bench: &mut Bench<'a, A>,
    path: &Path<'a, A>,
    m: &Move,
) -> Result<Step, MoveFault>
    requires found { IsTrue (has_spot (marked_study bench.old).tree path.now) }
    requires legal { is_legal (position_at (marked_study bench.old) path.now) m.now ≡ true }
    ensures added { IfOk result (λ step. IfSome step.added (λ n. n ≡ m.now)) }
    ensures comes { Comes result (plain_study (marked_study bench.old))
        (plain_study (marked_study bench.new))
        (moved_by (plain_study (marked_study bench.old)) path.now m.now) }
{
    match bench.insert(path, *m, &mut NoValues { asked: 0 }) {
        Ok(place) => Ok(Step {
            place,
            added: Some(*m),
        }),
        Err(Refusal::AlreadyThere(place)) => Ok(Step { place, added: None }),
        Err(Refusal::TooDeep) => Err(MoveFault::TooDeep),
        Err(Refusal::TreeFull) => Err(MoveFault::TreeFull),
        Err(_) => Err(MoveFault::OutOfMemory),
    }
}
