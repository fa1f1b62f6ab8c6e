//! Trees, edit by edit.
use crate::heaps::rest_of;
use linked_list_allocator::LocalHeap;
use std::alloc::{AllocError, Allocator, Global};
use std::process::Abort;
use std::test::Fail;
use study_board::Square;
use study_moves::Move;
use study_tree::{Path, Tree, TreeFault};

/// A move of White's king or of Black's: by turns from a1 to b1, a8 to b8, b1 to a1 and b8 to a8.
fn king_move(turn: usize) -> Move {
    let (origin, target) = match turn % 4 {
        0 => (0, 1),
        1 => (56, 57),
        2 => (1, 0),
        _ => (57, 56),
    };
    Move {
        origin: Square::at(origin),
        target: Square::at(target),
        promoted: None,
    }
}

// The calls of a tree, each in a function without a contract: a test that uses them is proved without their clauses.

fn new_tree<'a, A: Allocator>(alloc: &'a A, label: u32) -> Tree<'a, u32, A> {
    Tree::new(alloc, label)
}

fn reserve<A: Allocator>(tree: &mut Tree<'_, u32, A>, steps: &[u16]) -> Result<(), TreeFault> {
    tree.reserve(steps)
}

/// Adds the king's move of this turn.
fn add<A: Allocator>(
    tree: &mut Tree<'_, u32, A>,
    steps: &[u16],
    turn: usize,
    label: u32,
) -> Result<u16, TreeFault> {
    tree.add_last(steps, king_move(turn), label)
}

fn relabel<A: Allocator>(
    tree: &mut Tree<'_, u32, A>,
    steps: &[u16],
    label: u32,
) -> Result<(), TreeFault> {
    tree.relabel(steps, label)
}

fn remove<A: Allocator>(tree: &mut Tree<'_, u32, A>, steps: &[u16]) -> Result<(), TreeFault> {
    tree.remove(steps)
}

fn move_up<A: Allocator>(tree: &mut Tree<'_, u32, A>, steps: &[u16]) -> Result<(), TreeFault> {
    tree.move_up(steps)
}

fn size<A: Allocator>(tree: &Tree<'_, u32, A>) -> usize {
    tree.size()
}

fn relabelled<A: Allocator>(tree: &Tree<'_, u32, A>) -> u64 {
    tree.relabelled()
}

/// An expected node: its path, the turn of its move, its label and the number of its children.
type Row = (&'static [u16], Option<usize>, u32, u16);

/// The node at the path: its move, its label and the number of its children.
fn node_at<A: Allocator>(
    tree: &Tree<'_, u32, A>,
    steps: &[u16],
) -> Option<(Option<Move>, u32, u16)> {
    match tree.node(steps) {
        Some(node) => Some((node.played, *node.label, node.children)),
        None => None,
    }
}

/// The tree has these nodes; the numbers of children exclude any other.
fn expect_rows<A: Allocator>(rt: &impl Abort, tree: &Tree<'_, u32, A>, rows: &[Row]) {
    for (steps, turn, label, children) in rows {
        let played = match turn {
            None => None,
            Some(turn) => Some(king_move(*turn)),
        };
        let wanted = Some((played, *label, *children));
        assert!(rt; node_at(tree, steps) == wanted, "{steps:?}");
    }
    assert!(rt; size(tree) == rows.len());
}

/// A tree of six nodes: below the root two moves, below the first of them two, and below the first of those one.
fn small_tree<'a, A: Allocator>(rt: &impl Abort, alloc: &'a A) -> Tree<'a, u32, A> {
    let mut tree = new_tree(alloc, 10);
    for (steps, turn, label, place) in [
        (&[][..], 0, 11, 0),
        (&[], 2, 12, 1),
        (&[0], 1, 13, 0),
        (&[0], 3, 14, 1),
        (&[0, 0], 0, 15, 0),
    ] {
        assert!(rt; add(&mut tree, steps, turn, label) == Ok(place), "{label}");
    }
    tree
}

const BUILT: &[Row] = &[
    (&[], None, 10, 2),
    (&[0], Some(0), 11, 2),
    (&[0, 0], Some(1), 13, 1),
    (&[0, 0, 0], Some(0), 15, 0),
    (&[0, 1], Some(3), 14, 0),
    (&[1], Some(2), 12, 0),
];

const MOVED_UP: &[Row] = &[
    (&[], None, 18, 2),
    (&[0], Some(2), 12, 0),
    (&[1], Some(0), 11, 2),
    (&[1, 0], Some(1), 17, 1),
    (&[1, 0, 0], Some(0), 15, 0),
    (&[1, 1], Some(3), 14, 0),
];

const REMOVED: &[Row] = &[
    (&[], None, 18, 2),
    (&[0], Some(2), 12, 0),
    (&[1], Some(0), 11, 1),
    (&[1, 0], Some(3), 14, 0),
];

/// The nodes as they are built, after some were promoted and relabelled, and after one was removed with its subtree.
#[test]
fn edits_move_whole_branches(rt: HostRuntime) {
    let alloc = rt.alloc();
    let mut tree = small_tree(&rt, &alloc);
    expect_rows(&rt, &tree, BUILT);
    assert!(rt; relabelled(&tree) == 5);
    assert!(rt; move_up(&mut tree, &[1]) == Ok(()));
    assert!(rt; relabel(&mut tree, &[1, 0], 17) == Ok(()));
    assert!(rt; relabel(&mut tree, &[], 18) == Ok(()));
    expect_rows(&rt, &tree, MOVED_UP);
    assert!(rt; remove(&mut tree, &[1, 0]) == Ok(()));
    expect_rows(&rt, &tree, REMOVED);
    assert!(rt; relabelled(&tree) == 7);
}

/// A growth that a heap can refuse.
#[derive(Clone, Copy, Debug, PartialEq, Eq)]
enum Growth {
    Reserve,
    AddLast,
    Push,
}

/// Reserves memory for the move of this turn, and adds it though no memory is left; whether there was memory.
fn adds_in_room<'a>(
    rt: &impl Abort,
    alloc: Global,
    tree: &mut Tree<'a, u32, LocalHeap>,
    heap: &'a LocalHeap,
    path: &Path<'a, LocalHeap>,
    turn: usize,
) -> Result<bool, AllocError> {
    if reserve(tree, path.steps()).is_err() {
        return Ok(false);
    }
    let blocks = rest_of(alloc, heap)?;
    let added = add(tree, path.steps(), turn, 2);
    drop(blocks);
    assert!(rt; added == Ok(0), "at {turn}");
    Ok(true)
}

/// Adds the move of this turn without reserved memory; whether there was memory.
fn adds<'a>(
    rt: &impl Abort,
    tree: &mut Tree<'a, u32, LocalHeap>,
    path: &Path<'a, LocalHeap>,
    turn: usize,
) -> bool {
    let added = add(tree, path.steps(), turn, 2);
    if added == Err(TreeFault::OutOfMemory) {
        assert!(rt; size(tree) == turn.saturating_add(1), "at {turn}");
        assert!(rt; relabelled(tree) == turn as u64, "at {turn}");
        return false;
    }
    assert!(rt; added == Ok(0), "at {turn}");
    true
}

/// Grows a line by the move of this turn, with memory reserved for it at every second one; the refused growth, if one was.
fn refused_at<'a>(
    rt: &impl Abort,
    alloc: Global,
    tree: &mut Tree<'a, u32, LocalHeap>,
    heap: &'a LocalHeap,
    path: &mut Path<'a, LocalHeap>,
    turn: usize,
) -> Result<Option<Growth>, AllocError> {
    if turn % 2 == 0 {
        if !adds_in_room(rt, alloc, tree, heap, path, turn)? {
            return Ok(Some(Growth::Reserve));
        }
    } else if !adds(rt, tree, path, turn) {
        return Ok(Some(Growth::AddLast));
    }
    if path.push(0).is_err() {
        assert!(rt; [0u16; 24].get(..turn) == Some(path.steps()), "at {turn}");
        return Ok(Some(Growth::Push));
    }
    Ok(None)
}

/// Grows a line of 24 moves on a heap, with memory reserved for every second one, up to the first refused growth, if there is one. If memory was
/// reserved, the move is added though none is left.
fn first_refused(
    rt: &impl Abort,
    alloc: Global,
    heap: &LocalHeap,
) -> Result<Option<Growth>, AllocError> {
    let mut tree = new_tree(heap, 1);
    let mut path = Path::root(heap);
    for turn in 0..24usize {
        let refused = refused_at(rt, alloc, &mut tree, heap, &mut path, turn)?;
        if refused.is_some() {
            return Ok(refused);
        }
    }
    Ok(None)
}

/// Heaps that grow step by step: each growth is refused in turn, until all succeed.
#[test]
fn each_growth_of_a_line_is_refused_in_turn(rt: HostRuntime) -> Result<(), Fail> {
    let mut met = [false; 3];
    for step in 0..400usize {
        let heap = LocalHeap::new(rt.alloc(), 64 + step * 32)?;
        match first_refused(&rt, rt.alloc(), &heap)? {
            Some(Growth::Reserve) => met[0] = true,
            Some(Growth::AddLast) => met[1] = true,
            Some(Growth::Push) => met[2] = true,
            None => {
                assert_eq!(rt; met, [true; 3]);
                return Ok(());
            }
        }
    }
    Err(Fail::from("no heap was large enough"))
}
