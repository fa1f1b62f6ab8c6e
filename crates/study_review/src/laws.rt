//! Laws over the definitions, stated by functions that do nothing.
ghost use Rattle.study_review.specs.Review.{ReviewsAreUnique, PlainStudiesHaveOneReview};
ghost use Rattle.study_review.specs.Laws.{AlternativesAreCounted, FailuresAreRefuted, TimeFaultsAreAll, TimeLossIsForced, WonPositionsHold};

use study_marks::{annotations_are_unique, duals_count_other_moves};
use study_moves::{legal_list_is_exact, mates_are_sound, values_are_unique};

/// If the hero is to win and the opponent moves, a position holds exactly if the opponent is mated.
pub fn won_positions_hold()
    ensures { WonPositionsHold }
{
    values_are_unique();
}

/// A move that is marked as a dual with k others has k alternatives, and an only move has none.
pub fn alternatives_are_counted()
    ensures { AlternativesAreCounted }
{
    values_are_unique();
    duals_count_other_moves();
}

/// A mistake or an idle move of the hero has a refutation, unless it ends the game.
pub fn failures_are_refuted()
    ensures { FailuresAreRefuted }
{
    mates_are_sound();
    legal_list_is_exact();
}

/// If a move loses time, the opponent has a play to a position of the line against each way to continue winning.
pub fn time_loss_is_forced()
    ensures { TimeLossIsForced }
{}

/// A study has exactly one review.
pub fn reviews_are_unique()
    ensures { ReviewsAreUnique }
{
    values_are_unique();
}

/// A plain study has exactly one review: that of its annotation.
pub fn plain_studies_have_one_review()
    ensures { PlainStudiesHaveOneReview }
{
    annotations_are_unique();
    reviews_are_unique();
}

/// All faults of a study lose time alone exactly if no move of the solution is a mistake, and each dual of it would be
/// an only move but for moves that lose time.
pub fn time_faults_are_all()
    ensures { TimeFaultsAreAll }
{
    values_are_unique();
}
