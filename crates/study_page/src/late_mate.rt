//! By how many moves a mate comes too late.
ghost use Rattle.std.specs.Prelude.{◌≡◌, ◌++◌, ◌≤◌, OnOk};
ghost use Rattle.study_marks.specs.Goals.{plies_of};
ghost use Rattle.study_page.specs.Rows.{late_by, one_late, late_words};

use std::alloc::{AllocError, Allocator};
use study_marks::{Aim, Goal, MateMoves, hero_mates, hero_moves};
use study_text::Text;
use study_values::Value;

/// The plies from the root up to the last of the hero's moves.
fn plies_of(hero_first: bool, moves: MateMoves) -> u32
    ensures value { result ≡ plies_of hero_first moves }
    ensures few { result ≤ 254 }
{
    let count = moves.count() as u32;
    if hero_first { 2 * count - 1 } else { 2 * count }
}

/// By how many moves the hero mates too late, in a position at this depth with this value.
pub fn late_by(aim: &Aim, depth: usize, value: Value) -> u32
    requires { depth ≤ 257 }
    ensures { result ≡ late_by aim.now depth value }
{
    let hero = hero_moves(aim, depth);
    let goal = aim.goal;
    match goal {
        Goal::Win => 0,
        Goal::Draw => 0,
        Goal::MateIn(moves) => match hero_mates(hero, value) {
            None => 0,
            Some(plies) => {
                let limit = plies_of(aim.hero_first, moves);
                (depth as u32 + plies as u32).saturating_sub(limit) / 2
            }
        },
    }
}

#[tactic(auto, unfolding(crate::specs::Rows::one_late))]
fn one_late() -> &'static [u8]
    ensures { result.now ≡ one_late }
{
    b", one move too late"
}

/// Adds by how many moves a mate comes too late, if it does.
pub fn add_late<A: Allocator>(text: &mut Text<'_, A>, late: u32) -> Result<(), AllocError>
    ensures { OnOk result (text.new ≡ text.old ++ late_words late) }
{
    if late == 0 {
        return Ok(());
    }
    if late == 1 {
        return text.add(one_late());
    }
    text.add(b", ")?;
    text.add_number(late)?;
    text.add(b" moves too late")
}
