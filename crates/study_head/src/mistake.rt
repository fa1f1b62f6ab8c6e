//! The first mistake of the solution.
ghost use Rattle.std.specs.Prelude.{◌≡◌, ◌++◌, ◌-◌, ◌≤◌, true, IfSome, OnOk};
ghost use Rattle.study_moves.specs.Rules.{is_legal};
ghost use Rattle.study_tree.specs.Edits.{IsWithin};
ghost use Rattle.study_marks.specs.BenchState.{marked_study};
ghost use Rattle.study_marks.specs.Study.{IsPlayable};
ghost use Rattle.study_facts.specs.Nodes.{is_mistake};
ghost use Rattle.study_head.specs.Mistake.{IsLegalMove, move_name, own_mistake, first_mistake, mistake_below};

use crate::words::number_at;
use std::alloc::{AllocError, Allocator};
use study_board::Position;
use study_facts::aim_in;
use study_marks::{Aim, Bench, MarkedNode, MoveMark, hero_moves};
use study_moves::{Move, played};
use study_notation::Start;
use study_pgn::{add_san, move_dots};
use study_text::Text;

/// A move of a study by which people name it: its number, the position before it, and the move.
#[derive(Drop)]
pub struct NamedMove {
    pub number: u32,
    pub position: Position,
    pub played: Move,
}

impl NamedMove {
    /// The same move again.
    fn copied(&self) -> NamedMove
        ensures { result ≡ self.now }
    {
        NamedMove {
            number: self.number,
            position: self.position.copied(),
            played: self.played,
        }
    }
}

/// The same move again, if there is one.
pub fn copy_of(named: &Option<NamedMove>) -> Option<NamedMove>
    ensures { result ≡ named.now }
{
    match named {
        None => None,
        Some(named) => Some(named.copied()),
    }
}

/// Adds `3... Kb4`.
#[tactic(auto, unfolding(crate::specs::Mistake::move_name))]
pub fn add_move_name<A: Allocator>(
    text: &mut Text<'_, A>,
    named: &NamedMove,
) -> Result<(), AllocError>
    requires { IsLegalMove named.now }
    ensures { OnOk result (text.new ≡ text.old ++ move_name named.now) }
{
    text.add_number(named.number)?;
    text.add(move_dots(named.position.to_move()))?;
    text.add(b" ")?;
    add_san(text, &named.position, named.played)
}

/// Whether a move with this mark is a mistake.
fn is_mistake(mark: Option<MoveMark>) -> bool
    ensures { result ≡ is_mistake mark }
{
    match mark {
        Some(MoveMark::Mistake) => true,
        _ => false,
    }
}

/// Where a walk of the solution is: the study's start and aim, how many plies are before the node, and its position.
#[derive(Clone, Copy)]
struct Place<'n> {
    aim: &'n Aim,
    start: &'n Start,
    depth: usize,
    position: &'n Position,
}

/// This move, if the hero makes a mistake by it.
fn own_mistake(here: &Place<'_>, m: Move, mark: Option<MoveMark>) -> Option<NamedMove>
    requires { is_legal here.now.position.now m ≡ true }
    ensures own { result ≡ own_mistake here.now.aim.now here.now.start.now here.now.depth
        here.now.position.now m mark }
    ensures legal { IfSome result IsLegalMove }
{
    if hero_moves(here.aim, here.depth) && is_mistake(mark) {
        return Some(NamedMove {
            number: number_at(here.start, here.depth),
            position: here.position.copied(),
            played: m,
        });
    }
    None
}

/// The first mistake below a node.
fn mistake_below<'t, 'b, B: Allocator>(
    here: &Place<'_>,
    node: &MarkedNode<'t, 'b, B>,
) -> Option<NamedMove>
    requires shallow { IsWithin (256 - here.now.depth) node.now.below }
    requires deep { here.now.depth ≤ 256 }
    requires playable { IsPlayable here.now.position.now node.now.below }
    ensures first { result ≡ mistake_below here.now.aim.now here.now.start.now here.now.depth
        here.now.position.now node.now.below }
    ensures legal { IfSome result IsLegalMove }
{
    for place in 0..node.width() {
        let Some(child) = node.child(place) else {
            unreachable!()
        };
        let own = own_mistake(here, child.played, child.node.mark().on_move);
        if own.is_some() {
            return own;
        }
        let next = played(here.position, child.played);
        let there = Place {
            aim: here.aim,
            start: here.start,
            depth: here.depth + 1,
            position: &next,
        };
        let found = mistake_below(&there, &child.node);
        if found.is_some() || hero_moves(here.aim, here.depth) {
            return found;
        }
    }
    None
}

/// The author's first mistake, in written order, if the solution has one.
pub fn first_mistake<'b, B: Allocator>(bench: &Bench<'b, B>) -> Option<NamedMove>
    ensures first { result ≡ first_mistake (marked_study bench.now) }
    ensures legal { IfSome result IsLegalMove }
{
    let aim = aim_in(bench);
    let start = bench.start();
    let root = bench.root();
    let here = Place {
        aim: &aim,
        start,
        depth: 0,
        position: &start.position,
    };
    mistake_below(&here, &root)
}
