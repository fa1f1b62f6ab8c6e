//! Studies over built tables, and nodes for a review.

use std::alloc::Allocator;
use std::process::Abort;
use study_board::{Position, Side};
use study_marks::{Bench, Goal, MateMoves, Stipulation};
use study_material::Class;
use study_moves::{Move, is_legal};
use study_notation::{read_fen, read_san, write_san};
use study_prober::WholeTables;
use study_retro::{BuildRoom, build};
use study_table::TableSet;
use study_tree::Path;
use study_values::{Values, cells};

/// The values of the tables of these classes, each of which needs only those before it.
pub(crate) fn tables_of<'a, A: Allocator>(
    rt: &impl Abort,
    alloc: &'a A,
    classes: &[Class],
) -> WholeTables<'a, A> {
    let mut set = TableSet::new(alloc).ok().expect(rt, "a set");
    for class in classes {
        let room = BuildRoom::new(alloc, cells(*class)).ok().expect(rt, "room");
        let (table, _) = build(*class, &set, room).ok().expect(rt, "a table");
        assert!(rt; set.add(table).is_ok());
    }
    WholeTables::new(set)
}

pub(crate) fn position_of(rt: &impl Abort, fen: &str) -> Position {
    let start = read_fen(fen).ok().expect(rt, "a position");
    start.position
}

/// White is to win, or to mate in so many moves.
pub(crate) fn white(rt: &impl Abort, moves: Option<u8>) -> Stipulation {
    let goal = match moves {
        None => Goal::Win,
        Some(moves) => Goal::MateIn(MateMoves::new(moves).expect(rt, "a number of moves")),
    };
    Stipulation {
        hero: Side::White,
        goal,
    }
}

/// The moves of a study, each inserted last below the node at a path.
pub(crate) type Moves = &'static [(&'static [u16], &'static str)];

fn path_of<'a, A: Allocator>(rt: &impl Abort, alloc: &'a A, steps: &[u16]) -> Path<'a, A> {
    let mut path = Path::root(alloc);
    for step in steps {
        assert!(rt; path.push(*step).is_ok());
    }
    path
}

/// A study with these moves.
pub(crate) fn study<'a, A: Allocator, V: Values>(
    rt: &impl Abort,
    alloc: &'a A,
    fen: &str,
    stipulation: Stipulation,
    moves: Moves,
    values: &mut V,
) -> Bench<'a, A> {
    let start = read_fen(fen).ok().expect(rt, "a start");
    let mut bench = Bench::new(alloc, start, stipulation, values)
        .ok()
        .expect(rt, "a study");
    for (steps, san) in moves {
        let path = path_of(rt, alloc, steps);
        let at = bench.start_at(&path).expect(rt, "a node");
        let m = read_san(&at.position, san).ok().expect(rt, "a move");
        assert!(rt; bench.insert(&path, m, values).is_ok(), "{san}");
    }
    bench
}

/// The position of a node.
pub(crate) fn position_at<'a, A: Allocator>(
    rt: &impl Abort,
    alloc: &'a A,
    bench: &Bench<'a, A>,
    steps: &[u16],
) -> Position {
    let path = path_of(rt, alloc, steps);
    let at = bench.start_at(&path).expect(rt, "a node");
    at.position
}

/// Whether the move is legal and has this text.
pub(crate) fn is_written(p: &Position, m: &Move, san: &str) -> bool {
    if !is_legal(p, *m) {
        return false;
    }
    let text = write_san(p, *m);
    text.as_str() == san
}
