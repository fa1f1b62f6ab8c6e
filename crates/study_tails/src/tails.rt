//! The tails of a study.
ghost use Rattle.std.specs.Prelude.{◌≡◌, ◌++◌, ◌∷◌, ◌≤◌, [], map, length, IfOk, IfErr, OnOk, Ok, Err, Some, None, true};
ghost use Rattle.study_wide.specs.Rules.{is_small};
ghost use Rattle.study_tails.specs.Study.{IsWidePlayable};
ghost use Rattle.study_tails.specs.Tails.{tails, tails_from, moves_by, has_try, is_beside, goal_after, has_four_digits, tail};

use crate::study::{WideNode, WideStudy};
use crate::tags::Tags;
use std::alloc::{AllocError, Allocator};
use std::marker::Model;
use study_board::Side;
use study_marks::{Goal, MateMoves, Stipulation};
use study_tree::{Path, Subtree};
use study_wide::{WidePosition, played};
use study_wide_text::WideStart;

/// Why there is no study at a path; reasons are checked in this order.
#[derive(Clone, Copy)]
pub enum LeftOut {
    /// The path leads to no node, or more than four men or a right to castle are left there.
    NoTail,
    /// The hero has made as many moves as he may take to mate.
    MateIsDue,
    /// The clock or the number of the move has more than four digits.
    NumbersAbove9999,
}

/// A part of a study that begins with at most four men and no right to castle, as a study of its own.
#[derive(Drop)]
pub struct Tail<'t, 'a, A: Allocator> {
    pub(crate) start: WideStart,
    pub(crate) stipulation: Stipulation,
    pub(crate) tags: &'t Tags,
    pub(crate) tree: Subtree<'t, 'a, (), A>,
}

impl<'t, 'a, A: Allocator> Model for Tail<'t, 'a, A> {
    ghost use Rattle.std.specs.Prelude.{◌≡◌, true, map};
    ghost use Rattle.study_marks.specs.Edits.{PlainStudy};
    ghost use Rattle.study_wide.specs.Rules.{is_small};
    ghost use Rattle.study_tails.specs.Study.{IsWidePlayable, text_of};
    ghost use Rattle.study_tails.specs.Tails.{narrow_start};
    ghost use Rattle.study_tails.specs.Codes.{plain_study_code};

    ghost Value = { PlainStudy };

    ghost coded = { plain_study_code };

    ghost view = { λ t. record {
      start = narrow_start t.start;
      stipulation = t.stipulation;
      tags = map text_of t.tags.now;
      tree = record { label = tt; below = t.tree.below };
    } };

    ghost invariant = { λ t. (is_small t.start.position ≡ true)
        × IsWidePlayable t.start.position t.tree.below };
}

/// The path with these places.
pub fn path_of<'a, A: Allocator>(alloc: &'a A, steps: &[u16]) -> Result<Path<'a, A>, AllocError>
    ensures { IfOk result (λ path. path ≡ steps.now) }
{
    let mut path = Path::root(alloc);
    for step in steps {
        path.push(*step)?;
    }
    Ok(path)
}

/// The path to the child at a place.
pub fn child_path<'a, A: Allocator>(
    alloc: &'a A,
    steps: &[u16],
    place: u16,
) -> Result<Path<'a, A>, AllocError>
    ensures { IfOk result (λ path. path ≡ steps.now ++ place ∷ []) }
{
    let mut path = path_of(alloc, steps)?;
    path.push(place)?;
    Ok(path)
}

/// Whether at most four men and no right to castle are left.
#[tactic(auto, unfolding(study_wide::specs::Rules::is_small))]
fn is_small(p: &WidePosition) -> bool
    ensures { result ≡ is_small p.now }
{
    p.men().len() <= 4 && !p.rights().any()
}

/// Adds the path with these places.
fn add_path<'a, A: Allocator>(
    alloc: &'a A,
    found: &mut Vec<Path<'a, A>, &'a A>,
    steps: &[u16],
) -> Result<(), AllocError>
    ensures { OnOk result (found.new.items ≡ found.old.items ++ steps.now ∷ []) }
{
    let path = path_of(alloc, steps)?;
    found.push(path)?;
    Ok(())
}

/// Adds the paths of the tails below a node, which has this path and position, itself included.
fn add_tails<'a, A: Allocator>(
    alloc: &'a A,
    found: &mut Vec<Path<'a, A>, &'a A>,
    steps: &[u16],
    position: &WidePosition,
    node: &Subtree<'_, 'a, (), A>,
) -> Result<(), AllocError>
    requires { IsWidePlayable position.now node.now.below }
    ensures { OnOk result (found.new.items ≡ found.old.items
        ++ map (λ p. steps.now ++ p) (tails_from position.now node.now.below)) }
{
    if is_small(position) {
        return add_path(alloc, found, steps);
    }
    let mut place = 0;
    while place < node.width() {
        match node.child(place) {
            None => return Ok(()),
            Some(child) => {
                let below = child_path(alloc, steps, place)?;
                let after = played(position, child.played);
                add_tails(alloc, found, below.steps(), &after, &child.node)?;
            }
        }
        place += 1;
    }
    Ok(())
}

/// The number of the hero's moves on a path that begins with this side to move.
fn moves_by(hero: Side, side: Side, steps: &[u16]) -> usize
    ensures value { result ≡ moves_by hero side steps.now }
    ensures few { result ≤ length steps.now }
{
    let _length = steps.len();
    match steps.split_first() {
        None => 0,
        Some((_, rest)) => {
            let later = moves_by(hero, side.other(), rest);
            if side == hero { 1 + later } else { later }
        }
    }
}

/// Whether some move of the hero on the path is no first child.
fn has_try(hero: Side, side: Side, steps: &[u16]) -> bool
    ensures { result ≡ has_try hero side steps.now }
{
    match steps.split_first() {
        None => false,
        Some((first, rest)) => {
            (side == hero && *first != 0) || has_try(hero, side.other(), rest)
        }
    }
}

/// What is left of a goal after so many moves of the hero.
fn goal_after(goal: Goal, moves: usize) -> Option<Goal>
    ensures { result ≡ goal_after goal moves }
{
    match goal {
        Goal::Win => Some(Goal::Win),
        Goal::Draw => Some(Goal::Draw),
        Goal::MateIn(count) => {
            let count = count.count();
            if moves < count as usize {
                let left = MateMoves::new(count - moves as u8)?;
                Some(Goal::MateIn(left))
            } else {
                None
            }
        }
    }
}

/// Whether clock and number have at most four digits.
fn has_four_digits(start: &WideStart) -> bool
    ensures { result ≡ has_four_digits start.now }
{
    start.clock <= 9999 && start.number <= 9999
}

impl<'a, A: Allocator> WideStudy<'a, A> {
    /// The paths of the tails, in written order.
    pub fn tails(&self, alloc: &'a A) -> Result<Vec<Path<'a, A>, &'a A>, AllocError>
        ensures value { IfOk result (λ paths. paths.items ≡ tails self.now) }
        ensures few { length (tails self.now) ≤ 4096 }
    {
        let _size = self.tree.size();
        let mut found = Vec::new(alloc);
        let tree = self.tree.root();
        add_tails(alloc, &mut found, &[], &self.start.position, &tree)?;
        Ok(found)
    }

    /// Whether some move of the hero on the path is no first child, so that he does not play the solution.
    pub fn is_beside(&self, steps: &[u16]) -> bool
        ensures { result ≡ is_beside self.now steps.now }
    {
        has_try(self.stipulation.hero, self.start.position.to_move(), steps)
    }

    /// The study that begins at the node of the path, or why there is none.
    ///
    /// A goal of mate has as many moves less as the hero has made.
    #[tactic(auto, unfolding(crate::specs::Tails::tail))]
    pub fn tail(&self, steps: &[u16]) -> Result<Tail<'_, 'a, A>, LeftOut>
        ensures ok { IfOk result (λ t. tail self.now steps.now ≡ Ok t) }
        ensures err { IfErr result (λ e. tail self.now steps.now ≡ Err e) }
    {
        let Some(WideNode { start, tree }) = self.node(steps) else {
            return Err(LeftOut::NoTail);
        };
        if !is_small(&start.position) {
            return Err(LeftOut::NoTail);
        }
        let hero = self.stipulation.hero;
        let moves = moves_by(hero, self.start.position.to_move(), steps);
        let Some(goal) = goal_after(self.stipulation.goal, moves) else {
            return Err(LeftOut::MateIsDue);
        };
        if !has_four_digits(&start) {
            return Err(LeftOut::NumbersAbove9999);
        }
        Ok(Tail {
            start,
            stipulation: Stipulation { hero, goal },
            tags: &self.tags,
            tree,
        })
    }
}
