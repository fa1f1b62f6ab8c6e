//! The opening comment.
ghost use Rattle.std.specs.Prelude.{◌≡◌, ◌++◌, OnOk};
ghost use Rattle.study_marks.specs.Goals.{meets_stipulation};
ghost use Rattle.study_marks.specs.Study.{Study};
ghost use Rattle.study_marks.specs.declared.mark.Mark.{Mark as AMark};
ghost use Rattle.study_marks.specs.Verdict.{verdict};
ghost use Rattle.study_pgn.specs.Pgn.{goal_text, stipulation_text, verdict_text, opening_words, opening_text};

use crate::value_text::{add_value, side_name};
use std::alloc::{AllocError, Allocator};
use study_board::Side;
use study_marks::{Goal, Mark, Stipulation, hero_loses, hero_mates};
use study_text::Text;
use study_values::Value;

fn add_goal<A: Allocator>(text: &mut Text<'_, A>, goal: Goal) -> Result<(), AllocError>
    ensures { OnOk result (text.new ≡ text.old ++ goal_text goal) }
{
    match goal {
        Goal::Win => text.add(b" to win"),
        Goal::Draw => text.add(b" to draw"),
        Goal::MateIn(moves) => {
            text.add(b" to mate in ")?;
            text.add_number(moves.count() as u32)
        }
    }
}

/// `White to mate in 3`.
pub fn add_stipulation<A: Allocator>(
    text: &mut Text<'_, A>,
    stipulation: Stipulation,
) -> Result<(), AllocError>
    ensures { OnOk result (text.new ≡ text.old ++ stipulation_text stipulation) }
{
    text.add(side_name(stipulation.hero))?;
    add_goal(text, stipulation.goal)
}

/// Whether the root's value meets the stipulation; `to_move`: the hero is to move there.
pub fn meets_stipulation(goal: Goal, to_move: bool, value: Value) -> bool
    ensures { result ≡ meets_stipulation (record { goal = goal; hero_first = to_move }) value }
{
    match goal {
        Goal::Win => hero_mates(to_move, value).is_some(),
        Goal::Draw => !hero_loses(to_move, value),
        Goal::MateIn(moves) => match hero_mates(to_move, value) {
            None => false,
            Some(plies) => {
                let limit = 2 * moves.count();
                plies == if to_move { limit - 1 } else { limit }
            }
        },
    }
}

/// The verdict on a root that is right or not.
fn add_verdict<A: Allocator>(
    text: &mut Text<'_, A>,
    stipulation: Stipulation,
    first: Side,
    root: Mark,
) -> Result<(), AllocError>
    ensures { (s : Study AMark) → s.stipulation ≡ stipulation
        → s.start.position.to_move ≡ first → s.tree.label ≡ root
        → OnOk result (text.new ≡ text.old ++ verdict_text (verdict s)) }
{
    if !meets_stipulation(stipulation.goal, stipulation.hero == first, root.value) {
        text.add(b"wrong")
    } else if root.faults == 0 {
        text.add(b"sound")
    } else {
        text.add(b"unsound ")?;
        text.add_number(root.faults)
    }
}

/// The stipulation, the verdict and the value of the root, in which `first` is to move.
#[tactic(auto, unfolding(crate::specs::Pgn::opening_words))]
pub fn add_opening_words<A: Allocator>(
    text: &mut Text<'_, A>,
    stipulation: Stipulation,
    first: Side,
    root: Mark,
) -> Result<(), AllocError>
    ensures { (s : Study AMark) → s.stipulation ≡ stipulation
        → s.start.position.to_move ≡ first → s.tree.label ≡ root
        → OnOk result (text.new ≡ text.old ++ opening_words s) }
{
    text.add(side_name(stipulation.hero))?;
    add_goal(text, stipulation.goal)?;
    text.add(b": ")?;
    add_verdict(text, stipulation, first, root)?;
    text.add(b", ")?;
    add_value(text, first, root.value)
}

/// The opening comment: these words in braces.
#[tactic(auto, unfolding(crate::specs::Pgn::opening_text))]
pub fn add_root_comment<A: Allocator>(
    text: &mut Text<'_, A>,
    stipulation: Stipulation,
    first: Side,
    root: Mark,
) -> Result<(), AllocError>
    ensures { (s : Study AMark) → s.stipulation ≡ stipulation
        → s.start.position.to_move ≡ first → s.tree.label ≡ root
        → OnOk result (text.new ≡ text.old ++ opening_text s) }
{
    text.add(b"{")?;
    add_opening_words(text, stipulation, first, root)?;
    text.add(b"}")
}
