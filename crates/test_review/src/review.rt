//! Studies of the gallery: the facts of a review, by an independent program.
use crate::studies::{Moves, is_written, position_at, study, tables_of, white};
use arrayvec::ArrayVec;
use std::alloc::Global;
use std::process::Abort;
use study_board::Position;
use study_facts::{
    Defence, EvaluatedMove, NodeContext, aim_in, alternatives, best_play, children_in, defences,
    drawing_moves, holding_moves, missing_moves, move_to, refutations, timed_alternatives,
};
use study_marks::Bench;
use study_material::Class;
use study_moves::{MAX_MOVES, is_legal, played};
use study_values::{Value, Values};

const WAITING: Moves = &[
    (&[], "Rc7"),
    (&[], "Kb6"),
    (&[], "Kb5"),
    (&[2], "Kxb7"),
    (&[0], "Kb8"),
    (&[0, 0], "Kb6"),
    (&[0, 0], "Rc6"),
    (&[0, 0, 1], "Ka7"),
    (&[0, 0, 0], "Ka8"),
    (&[0, 0, 0, 0], "Rc8"),
];

/// A waiting move of the rook, as a mate in so many moves.
fn waiting<'a, V: Values>(
    rt: &impl Abort,
    alloc: &'a Global,
    moves: u8,
    values: &mut V,
) -> Bench<'a, Global> {
    let fen = "k7/1R6/8/K7/8/8/8/8 w - - 0 1";
    study(rt, alloc, fen, white(rt, Some(moves)), WAITING, values)
}

/// A list of moves that a review gives of a node.
#[derive(Clone, Copy, Debug, PartialEq, Eq)]
enum List {
    /// The alternatives of the move that led to it.
    Alternatives,
    Drawing,
    Holding,
    /// The moves that are not in the tree.
    Missing,
    Refutations,
}

/// The position in which the moves are made, and the list.
fn list_of<'a, V: Values>(
    rt: &impl Abort,
    alloc: &'a Global,
    bench: &Bench<'a, Global>,
    steps: &[u16],
    list: List,
    values: &mut V,
) -> (Position, ArrayVec<EvaluatedMove, MAX_MOVES>) {
    let aim = aim_in(bench);
    if list == List::Alternatives {
        let (_, front) = steps.split_last().expect(rt, "a move");
        let m = move_to(bench, steps).expect(rt, "a move");
        let position = position_at(rt, alloc, bench, front);
        let before = NodeContext {
            aim: &aim,
            depth: front.len(),
            position: &position,
        };
        let list = alternatives(&before, m, values).ok();
        return (position, list.expect(rt, "values"));
    }
    let position = position_at(rt, alloc, bench, steps);
    let at = NodeContext {
        aim: &aim,
        depth: steps.len(),
        position: &position,
    };
    let there = children_in(alloc, bench, steps).ok().expect(rt, "memory");
    let there = there.expect(rt, "a node");
    let list = match list {
        List::Drawing => drawing_moves(&at, values),
        List::Holding => holding_moves(&at, values),
        List::Missing => missing_moves(&at, there.as_slice(), values),
        _ => refutations(&at, values),
    };
    (position, list.ok().expect(rt, "values"))
}

/// The list at a node for a mate in so many moves: its moves, each with the value after it.
type Row = (u8, &'static [u16], List, &'static [(&'static str, Value)]);

/// Refutations of a slow move, of a rook left en prise, and of a stalemate; the moves that keep a draw; the alternatives of two duals; the one move
/// in time, and the answers to a slow move that are not in the tree.
const ROWS: [Row; 9] = [
    (
        3,
        &[0, 0, 1],
        List::Refutations,
        &[
            ("Ka7", Value::Win(7)),
            ("Kb7", Value::Win(9)),
            ("Ka8", Value::Win(5)),
        ],
    ),
    (3, &[2], List::Refutations, &[("Kxb7", Value::Draw)]),
    (3, &[1], List::Refutations, &[]),
    (
        3,
        &[2, 0],
        List::Drawing,
        &[
            ("Ka4", Value::Draw),
            ("Kb4", Value::Draw),
            ("Kc4", Value::Draw),
            ("Ka5", Value::Draw),
            ("Kc5", Value::Draw),
        ],
    ),
    (4, &[0], List::Alternatives, &[("Rd7", Value::Loss(6))]),
    (
        4,
        &[0, 0, 0, 0, 0],
        List::Alternatives,
        &[
            ("Rd7", Value::Loss(2)),
            ("Re7", Value::Loss(2)),
            ("Rf7", Value::Loss(2)),
            ("Rg7", Value::Loss(2)),
            ("Rh7", Value::Loss(2)),
        ],
    ),
    (3, &[0], List::Alternatives, &[]),
    (3, &[], List::Holding, &[("Rc7", Value::Loss(4))]),
    (
        3,
        &[0, 0, 1],
        List::Missing,
        &[("Kb7", Value::Win(9)), ("Ka8", Value::Win(5))],
    ),
];

#[test]
fn lists_of_moves_are_those_of_an_independent_program(rt: HostRuntime) {
    let alloc = rt.alloc();
    let mut values = tables_of(&rt, &alloc, &[Class::KK, Class::KRK]);
    for (moves, steps, list, wanted) in ROWS {
        let bench = waiting(&rt, &alloc, moves, &mut values);
        let (position, evaluated) = list_of(&rt, &alloc, &bench, steps, list, &mut values);
        assert_eq!(rt; evaluated.len(), wanted.len(), "{list:?} {steps:?}");
        for (x, (san, value)) in evaluated.as_slice().iter().zip(wanted.iter()) {
            assert!(rt; is_written(&position, &x.played, san), "{san}");
            assert!(rt; x.value == *value, "{san}");
        }
    }
}

/// The only defence to the waiting move, with its only answer.
#[test]
fn the_defence_has_one_answer(rt: HostRuntime) {
    let alloc = rt.alloc();
    let mut values = tables_of(&rt, &alloc, &[Class::KK, Class::KRK]);
    let bench = waiting(&rt, &alloc, 3, &mut values);
    let position = position_at(&rt, &alloc, &bench, &[0]);
    let aim = aim_in(&bench);
    let node = NodeContext {
        aim: &aim,
        depth: 1,
        position: &position,
    };
    let list = defences(&node, &[], &mut values).ok();
    let list = list.expect(&rt, "values");
    let wanted = Defence {
        played: move_to(&bench, &[0, 0]).expect(&rt, "a move"),
        value: Value::Win(3),
        answers: 1,
        only: move_to(&bench, &[0, 0, 0]),
    };
    assert!(rt; list.as_slice() == [wanted].as_slice());
    assert!(rt; move_to(&bench, &[3]).is_none() && move_to(&bench, &[]).is_none());
}

/// Best play from a won end.
#[test]
fn best_play_goes_on_to_the_mate(rt: HostRuntime) {
    let alloc = rt.alloc();
    let mut values = tables_of(&rt, &alloc, &[Class::KK, Class::KRK]);
    let bench = waiting(&rt, &alloc, 3, &mut values);
    let mut p = position_at(&rt, &alloc, &bench, &[0, 0, 1, 0]);
    let play = best_play(&p, &mut values).ok().expect(&rt, "values");
    let moves = ["Rc7+", "Ka8", "Kb5", "Kb8", "Kb6", "Ka8", "Rc8#"];
    assert_eq!(rt; play.len(), moves.len());
    for (x, san) in play.as_slice().iter().zip(moves.iter()) {
        assert!(rt;
            is_written(&p, &x.played, san) && is_legal(&p, x.played),
            "{san}"
        );
        let next = played(&p, x.played);
        p = next;
    }
}

/// Two duals of a win with a queen: of 21 alternatives none loses time, of 27 only the queen's way back, within 0.
#[test]
fn one_alternative_of_a_win_loses_time(rt: HostRuntime) {
    let alloc = rt.alloc();
    let mut values = tables_of(&rt, &alloc, &[Class::KK, Class::KQK]);
    let moves: Moves = &[(&[], "Qg7"), (&[0], "Kb8"), (&[0, 0], "Qb7")];
    let fen = "k7/8/1K6/8/8/8/8/6Q1 w - - 0 1";
    let bench = study(&rt, &alloc, fen, white(&rt, None), moves, &mut values);
    let aim = aim_in(&bench);
    for (steps, back, count) in [(&[0][..], "none", 21), (&[0, 0, 0], "Qg1", 27)] {
        let (_, front) = steps.split_last().expect(&rt, "a move");
        let m = move_to(&bench, steps).expect(&rt, "a move");
        let mut line = Vec::new(&alloc);
        for depth in 0..steps.len() {
            let p = position_at(&rt, &alloc, &bench, &steps[..depth]);
            assert!(rt; line.push(p).is_ok());
        }
        let position = position_at(&rt, &alloc, &bench, front);
        let before = NodeContext {
            aim: &aim,
            depth: front.len(),
            position: &position,
        };
        let list = timed_alternatives(&before, line.as_slice(), m, &mut values).ok();
        let list = list.expect(&rt, "values");
        assert_eq!(rt; list.len(), count);
        for x in list.as_slice() {
            let is_back = is_written(&position, &x.played, back);
            assert!(rt; x.time == if is_back { Some(0) } else { None });
        }
    }
}
