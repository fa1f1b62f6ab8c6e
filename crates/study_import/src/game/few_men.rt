//! A study of at most four men whose tree grows by the moves of a game.
ghost use Rattle.std.specs.Prelude.{◌≡◌};
ghost use Rattle.study_moves.specs.LegalList.{is_mate};
ghost use Rattle.study_reading.specs.Notes.{is_false};

use crate::game::insert_line::add_step;
use crate::game::moves::play;
use std::alloc::{AllocError, Allocator};
use study_board::{Position, Side};
use study_games::Claim;
use study_marks::Bench;
use study_moves::{in_check, legal_moves};
use study_reading::{Followed, MoveFault, Step};
use study_tails::path_of;
use study_text::Text;

/// The bench of a game's study; its values are never used.
#[derive(Drop)]
pub struct FewMen<'a, A: Allocator> {
    pub alloc: &'a A,
    pub bench: Bench<'a, A>,
}

#[tactic(auto, unfolding(study_moves::specs::LegalList::is_mate))]
fn is_mate(p: &Position) -> bool
    ensures { result ≡ is_mate p.now }
{
    in_check(p) && legal_moves(p).is_empty()
}

/// Whether what the signs behind a move claim is false of the position after it.
fn is_false(claim: Claim, p: &Position) -> bool
    ensures { result ≡ is_false claim p.now }
{
    match claim {
        Claim::Check => !in_check(p),
        Claim::Mate => !is_mate(p),
    }
}

impl<'a, A: Allocator> Followed for FewMen<'a, A> {
    ghost use Rattle.study_marks.specs.Edits.{PlainStudy};
    ghost use Rattle.study_marks.specs.Study.{plain_study};
    ghost use Rattle.study_marks.specs.BenchState.{marked_study};
    ghost use Rattle.study_import.specs.FewMen.{few_men};

    ghost State = { PlainStudy };

    ghost study = { λ s. plain_study (marked_study s.bench) };

    ghost rules = { few_men };

    fn begins(&self) -> Side {
        self.bench.start().position.to_move()
    }

    fn play<B: Allocator>(
        &mut self,
        steps: &[u16],
        san: &str,
        inserts: &mut Text<'_, B>,
    ) -> Result<Step, MoveFault> {
        let path = path_of(self.alloc, steps)?;
        let Some(start) = self.bench.start_at(&path) else {
            return Err(MoveFault::NoSuchNode);
        };
        let step = play(&mut self.bench, &path, san)?;
        add_step(inserts, steps, &start.position, &step.added)?;
        Ok(step)
    }

    fn is_false(&self, steps: &[u16], claim: Claim) -> Result<bool, AllocError> {
        let path = path_of(self.alloc, steps)?;
        match self.bench.start_at(&path) {
            None => Ok(false),
            Some(start) => Ok(is_false(claim, &start.position)),
        }
    }
}
