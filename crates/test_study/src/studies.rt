//! Studies over built tables, and their observable state.
use crate::calls;
use std::alloc::{Allocator, Global};
use std::process::Abort;
use study_board::Side;
use study_marks::{Bench, Goal, Stipulation};
use study_material::Class;
use study_moves::Move;
use study_notation::{Start, read_fen, read_san};
use study_prober::WholeTables;
use study_retro::{BuildRoom, build};
use study_table::{Table, TableSet};
use study_tree::Path;
use study_values::{Values, cells};

/// The table of a class, over those that it needs.
fn table_of<'a, A: Allocator>(
    rt: &impl Abort,
    alloc: &'a A,
    class: Class,
    set: &TableSet<'a, A>,
) -> Table<'a, A> {
    let room = BuildRoom::new(alloc, cells(class)).ok().expect(rt, "room");
    let (table, _) = build(class, set, room).ok().expect(rt, "a table");
    table
}

fn add<'a, A: Allocator>(rt: &impl Abort, set: &mut TableSet<'a, A>, table: Table<'a, A>) {
    assert!(rt; set.add(table).is_ok());
}

/// The values of the tables of these classes, each of which needs only those before it.
pub(crate) fn tables_of<'a, A: Allocator>(
    rt: &impl Abort,
    alloc: &'a A,
    classes: &[Class],
) -> WholeTables<'a, A> {
    let mut set = TableSet::new(alloc).ok().expect(rt, "a set");
    for class in classes {
        let table = table_of(rt, alloc, *class, &set);
        add(rt, &mut set, table);
    }
    WholeTables::new(set)
}

pub(crate) fn start_of(rt: &impl Abort, fen: &str) -> Start {
    read_fen(fen).ok().expect(rt, "a start")
}

pub(crate) fn path_of<'a, A: Allocator>(
    rt: &impl Abort,
    alloc: &'a A,
    steps: &[u16],
) -> Path<'a, A> {
    let mut path = Path::root(alloc);
    for step in steps {
        assert!(rt; path.push(*step).is_ok());
    }
    path
}

/// The move with this text at a node.
pub(crate) fn move_of<'a, A: Allocator>(
    rt: &impl Abort,
    bench: &Bench<'a, A>,
    at: &Path<'a, A>,
    san: &str,
) -> Move {
    let start = calls::start_at(bench, at).expect(rt, "a node");
    read_san(&start.position, san).ok().expect(rt, "a move")
}

/// Inserts the move with this text last below a node.
pub(crate) fn insert_text<'a, A: Allocator, V: Values>(
    rt: &impl Abort,
    bench: &mut Bench<'a, A>,
    at: &Path<'a, A>,
    san: &str,
    values: &mut V,
) {
    let m = move_of(rt, bench, at, san);
    assert!(rt; calls::insert(bench, at, m, values).is_ok(), "{san}");
}

/// A study: its start, its stipulation, and its moves, each inserted last below the node at a path.
#[derive(Clone, Copy)]
pub(crate) struct Case {
    pub(crate) fen: &'static str,
    pub(crate) hero: Side,
    pub(crate) goal: Goal,
    pub(crate) moves: &'static [(&'static [u16], &'static str)],
}

impl Case {
    pub(crate) fn stipulation(&self) -> Stipulation {
        Stipulation {
            hero: self.hero,
            goal: self.goal,
        }
    }

    /// The study with the root alone.
    pub(crate) fn root<'a, A: Allocator, V: Values>(
        &self,
        rt: &impl Abort,
        alloc: &'a A,
        values: &mut V,
    ) -> Bench<'a, A> {
        let start = start_of(rt, self.fen);
        calls::new_bench(alloc, start, self.stipulation(), values)
            .ok()
            .expect(rt, "a study")
    }

    /// The study with its moves.
    pub(crate) fn study<'a, A: Allocator, V: Values>(
        &self,
        rt: &impl Abort,
        alloc: &'a A,
        values: &mut V,
    ) -> Bench<'a, A> {
        let mut bench = self.root(rt, alloc, values);
        for (steps, san) in self.moves {
            let at = path_of(rt, alloc, steps);
            insert_text(rt, &mut bench, &at, san, values);
        }
        bench
    }
}

/// A mate in one among 21 other winning moves, and a stalemate.
pub(crate) const QUEEN: Case = Case {
    fen: "k7/8/1K6/8/8/8/8/6Q1 w - - 0 1",
    hero: Side::White,
    goal: Goal::Win,
    moves: &[(&[], "Qg8"), (&[], "Qh2")],
};

/// The game of a study.
pub(crate) fn game_of<A: Allocator>(
    rt: &impl Abort,
    alloc: Global,
    bench: &Bench<'_, A>,
) -> Vec<u8> {
    let mut writer = calls::writer(&alloc);
    assert!(rt; calls::write(&alloc, bench, &mut writer).is_ok());
    copy(rt, alloc, writer.taken.as_slice())
}

fn copy(rt: &impl Abort, alloc: Global, bytes: &[u8]) -> Vec<u8> {
    bytes.to_vec(alloc).ok().expect(rt, "memory")
}

/// The observable state of a study: its game, with all its marks, the number of its nodes, and the number of labels written.
#[derive(Drop)]
pub(crate) struct Snapshot {
    game: Vec<u8>,
    size: usize,
    relabelled: u64,
}

impl Snapshot {
    pub(crate) fn of<A: Allocator>(rt: &impl Abort, alloc: Global, bench: &Bench<'_, A>) -> Self {
        Snapshot {
            game: game_of(rt, alloc, bench),
            size: calls::size(bench),
            relabelled: calls::relabelled(bench),
        }
    }

    /// Whether a study has the same observable state.
    pub(crate) fn is_of<A: Allocator>(
        &self,
        rt: &impl Abort,
        alloc: Global,
        bench: &Bench<'_, A>,
    ) -> bool {
        let other = Snapshot::of(rt, alloc, bench);
        self.game.as_slice() == other.game.as_slice()
            && self.size == other.size
            && self.relabelled == other.relabelled
    }
}
