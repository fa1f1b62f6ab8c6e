//! A game with any number of men, read by the reader of movetext.
ghost use Rattle.std.specs.Prelude.{◌≡◌};
ghost use Rattle.std.specs.Option.{option_map};
ghost use Rattle.study_reading.specs.Notes.{game_of};
ghost use Rattle.study_tails.specs.Study.{node_at};
ghost use Rattle.study_tails.specs.Followed.{is_wide_false, no_wide_moves};

use crate::followed::FollowedStudy;
use crate::study::{WideNode, WideStudy};
use std::alloc::{AllocError, Allocator};
use study_board::Side;
use study_games::Claim;
use study_marks::Stipulation;
use study_reading::{Followed, GameReading, Lines, MoveFault, Notes, Reading, Step};
use study_text::Text;
use study_wide::{WidePosition, in_check, is_mate};
use study_wide_text::WideStart;

/// The position of the node, `None` if there is no such node.
fn position_at<'a, A: Allocator>(
    study: &FollowedStudy<'a, A>,
    steps: &[u16],
) -> Option<WidePosition>
    ensures { result ≡ option_map (λ n. n.start.position) (node_at study.now steps.now) }
{
    match study.node(steps) {
        None => None,
        Some(node) => {
            let WideNode { start, .. } = node;
            Some(start.position)
        }
    }
}

/// Whether what the signs behind a move claim is false of the position after it.
fn is_false(claim: Claim, p: &WidePosition) -> bool
    ensures { result ≡ is_wide_false claim p.now }
{
    match claim {
        Claim::Check => !in_check(p),
        Claim::Mate => !is_mate(p),
    }
}

impl<'a, A: Allocator> Followed for FollowedStudy<'a, A> {
    ghost use Rattle.study_tails.specs.Study.{WideStudy as AStudy};
    ghost use Rattle.study_tails.specs.Followed.{wide_men};

    ghost State = { AStudy };

    ghost study = { λ s. s };

    ghost rules = { wide_men };

    fn begins(&self) -> Side {
        self.study().start().position.to_move()
    }

    fn play<B: Allocator>(
        &mut self,
        steps: &[u16],
        san: &str,
        _inserts: &mut Text<'_, B>,
    ) -> Result<Step, MoveFault> {
        self.play(steps, san)
    }

    fn is_false(&self, steps: &[u16], claim: Claim) -> Result<bool, AllocError> {
        match position_at(self, steps) {
            None => Ok(false),
            Some(position) => Ok(is_false(claim, &position)),
        }
    }
}

/// A game before its first move.
pub fn begin_wide_game<'a, A: Allocator>(
    alloc: &'a A,
    start: WideStart,
    stipulation: Stipulation,
) -> GameReading<'a, FollowedStudy<'a, A>, A>
    ensures { game_of result.reading.study
        result.reading.lines.path.items result.reading.lines.begun
        result.reading.lines.waiting.items result.reading.lines.cut result.reading.inserts
        result.notes ≡ no_wide_moves start stipulation }
{
    GameReading {
        reading: Reading {
            study: FollowedStudy::new(WideStudy::new(alloc, start, stipulation)),
            lines: Lines::new(alloc),
            inserts: Text::new(alloc),
        },
        notes: Notes::new(),
    }
}
