//! Alternatives that lose time along best play: their number, counted by another program from values alone.
use crate::studies::{position_of, tables_of};
use std::alloc::Global;
use std::process::Abort;
use study_board::Position;
use study_facts::{
    EvaluatedMove, NodeContext, alternatives, best_move, is_repeatable_within, waste_of_time,
};
use study_marks::{Aim, Goal};
use study_material::Class;
use study_moves::{is_legal, played};
use study_values::Values;

/// The number of alternatives of a best move, and the numbers of those after which the position is back within 0, within 1 and within 2.
type Counts = (usize, [usize; 3]);

/// The best move, and the value after it.
fn best_at<V: Values>(rt: &impl Abort, p: &Position, values: &mut V) -> EvaluatedMove {
    let best = best_move(p, values).ok().expect(rt, "values");
    best.expect(rt, "a move")
}

/// The position after a move, which has to be legal.
fn after(rt: &impl Abort, p: &Position, by: &EvaluatedMove) -> Position {
    assert!(rt; is_legal(p, by.played));
    played(p, by.played)
}

/// The counts at a node, the last of a line, for its best move.
fn counts_at<V: Values>(
    rt: &impl Abort,
    line: &[Position],
    p: &Position,
    best: &EvaluatedMove,
    values: &mut V,
) -> Counts {
    let node = NodeContext {
        aim: &Aim {
            goal: Goal::Win,
            hero_first: true,
        },
        depth: 0,
        position: p,
    };
    let also = alternatives(&node, best.played, values).ok();
    let also = also.expect(rt, "values");
    let mut counts = [0usize; 3];
    for x in also.as_slice() {
        let lost = waste_of_time(line, &after(rt, p, x), values).ok();
        if let Some(least) = lost.expect(rt, "values") {
            for (within, count) in [0u8, 1, 2].iter().zip(counts.iter_mut()) {
                *count = count.saturating_add(usize::from(least <= *within));
            }
        }
    }
    (also.len(), counts)
}

/// Each second node along best play from a position has these counts.
fn check_line<V: Values>(
    rt: &impl Abort,
    alloc: Global,
    fen: &str,
    wanted: &[Counts],
    values: &mut V,
) {
    let mut line = Vec::new(alloc);
    let mut p = position_of(rt, fen);
    for counts in wanted {
        assert!(rt; line.push(p.copied()).is_ok());
        assert!(rt; is_repeatable_within(line.as_slice(), 0, &p, values) == Ok(true));
        let best = best_at(rt, &p, values);
        let found = counts_at(rt, line.as_slice(), &p, &best, values);
        assert_eq!(rt; found, *counts, "{fen}");
        let reply = after(rt, &p, &best);
        assert!(rt; line.push(reply.copied()).is_ok());
        let best = best_at(rt, &reply, values);
        p = after(rt, &reply, &best);
    }
}

/// Rook against king: at each of the later nodes one rook move is taken back.
const ROOK: [Counts; 4] = [
    (14, [0, 0, 0]),
    (9, [1, 1, 1]),
    (12, [1, 1, 1]),
    (15, [1, 1, 1]),
];

#[test]
fn time_is_lost_with_a_rook_as_another_program_counts(rt: HostRuntime) {
    let alloc = rt.alloc();
    let mut values = tables_of(&rt, &alloc, &[Class::KK, Class::KRK]);
    let rook = "8/8/8/8/8/2k5/8/K6R w - - 0 1";
    check_line(&rt, alloc, rook, ROOK.as_slice(), &mut values);
}
