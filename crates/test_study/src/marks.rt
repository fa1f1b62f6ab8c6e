//! Studies edit by edit: their marks, and the results of each call. Most marks are tested by the scripts of test_script.
ghost use Rattle.std.specs.Prelude.{◌≡◌, Ok, true};

use crate::calls;
use crate::studies::{Case, QUEEN, move_of, path_of, start_of, tables_of};
use arrayvec::ArrayString;
use std::alloc::{Allocator, Global};
use std::process::Abort;
use study_board::{Position, Side, Square};
use study_marks::{Bench, Edit, Goal, Mark, MoveMark, Refusal, Stipulation, TagName};
use study_material::Class;
use study_moves::Move;
use study_notation::{Start, write_fen};
use study_tree::Path;
use study_values::{ProbeFault, Value, Values, cells};

fn mark_at<'a, A: Allocator>(
    rt: &impl Abort,
    alloc: &'a A,
    bench: &Bench<'a, A>,
    steps: &[u16],
) -> Mark {
    calls::mark(bench, &path_of(rt, alloc, steps)).expect(rt, "a node")
}

/// The node at these steps has this mark.
fn expect_mark<'a, A: Allocator>(
    rt: &impl Abort,
    alloc: &'a A,
    bench: &Bench<'a, A>,
    steps: &[u16],
    wanted: Mark,
) {
    assert_eq!(rt; mark_at(rt, alloc, bench, steps), wanted, "{steps:?}");
}

const ROOT: Mark = Mark {
    value: Value::Win(1),
    on_move: None,
    faults: 1,
};

const DUAL: Mark = Mark {
    value: Value::Loss(0),
    on_move: Some(MoveMark::Dual(21)),
    faults: 1,
};

const MISTAKE: Mark = Mark {
    value: Value::Draw,
    on_move: Some(MoveMark::Mistake),
    faults: 1,
};

/// The marks of the study with a queen: the mate is a dual with 21 others, the stalemate a mistake.
fn expect_queen_marks<'a, A: Allocator>(rt: &impl Abort, alloc: &'a A, bench: &Bench<'a, A>) {
    expect_mark(rt, alloc, bench, &[], ROOT);
    expect_mark(rt, alloc, bench, &[0], DUAL);
    expect_mark(rt, alloc, bench, &[1], MISTAKE);
    assert!(rt; calls::size(bench) == 3);
}

/// So many labels were written, and so many values probed.
fn expect_counts<A: Allocator, V: Values>(
    rt: &impl Abort,
    bench: &Bench<'_, A>,
    values: &V,
    labels: u64,
    asked: u64,
) {
    assert_eq!(rt; calls::relabelled(bench), labels);
    assert_eq!(rt; values.asked(), asked);
}

/// The stalemate is moved before the mate.
fn expect_promotion<'a, A: Allocator>(rt: &impl Abort, alloc: &'a A, bench: &mut Bench<'a, A>) {
    assert!(rt; calls::promote(bench, &path_of(rt, alloc, &[1])).is_ok());
    expect_mark(rt, alloc, bench, &[], ROOT);
    expect_mark(rt, alloc, bench, &[0], MISTAKE);
    assert!(rt; calls::relabelled(bench) == 6);
}

/// The mate, now the second move, is deleted.
fn expect_deletion<'a, A: Allocator>(rt: &impl Abort, alloc: &'a A, bench: &mut Bench<'a, A>) {
    assert!(rt; calls::delete(bench, &path_of(rt, alloc, &[1])).is_ok());
    assert!(rt; calls::size(bench) == 2 && calls::relabelled(bench) == 7);
}

/// Each edit writes the labels of one path, a stipulation those of all nodes; only an insertion probes values. The root has 25 moves, and the mate
/// and the stalemate have none.
/// moves, and the mate and the stalemate have none.
#[test]
fn edits_write_the_labels_of_one_path(rt: HostRuntime) {
    let alloc = rt.alloc();
    let mut values = tables_of(&rt, &alloc, &[Class::KK, Class::KQK]);
    let bench = QUEEN.root(&rt, &alloc, &mut values);
    expect_counts(&rt, &bench, &values, 1, 26);
    let mut bench = QUEEN.study(&rt, &alloc, &mut values);
    expect_queen_marks(&rt, &alloc, &bench);
    expect_counts(&rt, &bench, &values, 5, 54);
    expect_promotion(&rt, &alloc, &mut bench);
    expect_deletion(&rt, &alloc, &mut bench);
    let draw = Stipulation {
        hero: Side::White,
        goal: Goal::Draw,
    };
    calls::set_stipulation(&mut bench, draw);
    let one_of_25 = Mark {
        on_move: Some(MoveMark::Dual(24)),
        ..MISTAKE
    };
    expect_mark(&rt, &alloc, &bench, &[0], one_of_25);
    expect_counts(&rt, &bench, &values, 9, 54);
}

fn expect_fen(rt: &impl Abort, start: &Start, fen: &str) {
    assert_eq!(rt; write_fen(start).as_str(), fen);
}

/// The facts of the start and of the root.
fn expect_root<'a, A: Allocator>(rt: &impl Abort, alloc: &'a A, bench: &Bench<'a, A>) {
    expect_fen(rt, bench.start(), QUEEN.fen);
    assert!(rt; bench.stipulation().goal == Goal::Win && bench.stipulation().hero == Side::White);
    let root = Path::root(alloc);
    assert!(rt; calls::children(bench, &root) == Some(2) && calls::move_at(bench, &root).is_none());
}

/// The facts of the stalemate.
fn expect_stalemate<'a, A: Allocator>(rt: &impl Abort, alloc: &'a A, bench: &Bench<'a, A>) {
    let second = path_of(rt, alloc, &[1]);
    let stalemate = move_of(rt, bench, &Path::root(alloc), "Qh2");
    assert!(rt; calls::children(bench, &second) == Some(0));
    assert!(rt; calls::move_at(bench, &second) == Some(stalemate));
    let shown = calls::node_view(bench, &[1]).expect(rt, "a node");
    assert!(rt; shown.played == Some(stalemate) && shown.mark == MISTAKE && shown.children == 0);
    let start = calls::start_at(bench, &second).expect(rt, "a node");
    expect_fen(rt, &start, "k7/8/1K6/8/8/8/7Q/8 b - - 1 1");
}

/// The event has this text once it is set, and the site has none.
fn expect_tag<A: Allocator>(rt: &impl Abort, bench: &mut Bench<'_, A>, text: &str) {
    assert!(rt; bench.set_tag(TagName::Event, text).is_ok());
    assert!(rt; bench.tag(TagName::Event) == Some(text) && bench.tag(TagName::Site).is_none());
}

/// The result of each reader of a study; another position leaves only the root.
#[test]
fn readers_tell_what_was_put_in(rt: HostRuntime) {
    let alloc = rt.alloc();
    let mut values = tables_of(&rt, &alloc, &[Class::KK, Class::KQK]);
    let mut bench = QUEEN.study(&rt, &alloc, &mut values);
    expect_root(&rt, &alloc, &bench);
    expect_stalemate(&rt, &alloc, &bench);
    expect_tag(&rt, &mut bench, "A \"quoted\" \\ study");
    let other = start_of(&rt, "8/8/8/8/8/2k5/8/K6Q w - - 0 1");
    assert!(rt; calls::set_position(&mut bench, other, &mut values).is_ok());
    assert!(rt; calls::size(&bench) == 1 && calls::relabelled(&bench) == 1);
}

fn move_between(origin: u8, target: u8) -> Move {
    Move {
        origin: Square::at(origin % 64),
        target: Square::at(target % 64),
        promoted: None,
    }
}

/// A check, the one reply to it, and a mate.
const LINE: Case = Case {
    moves: &[(&[], "Qg2"), (&[0], "Kb8"), (&[0, 0], "Qb7")],
    ..QUEEN
};

const LINE_ROOT: Mark = Mark { faults: 2, ..ROOT };

/// The moves of the line with their marks: after the reply all but two of 28 moves win.
const LINE_MOVES: [(u8, u8, Mark); 3] = [
    (
        6,
        14,
        Mark {
            value: Value::Loss(2),
            faults: 2,
            ..DUAL
        },
    ),
    (
        56,
        57,
        Mark {
            on_move: Some(MoveMark::Reply),
            ..ROOT
        },
    ),
    (
        14,
        49,
        Mark {
            on_move: Some(MoveMark::Dual(25)),
            ..DUAL
        },
    ),
];

/// Child by child, each borrowed node of the line shows its move and its mark.
#[test]
fn lent_nodes_show_moves_and_marks(rt: HostRuntime) {
    let alloc = rt.alloc();
    let mut values = tables_of(&rt, &alloc, &[Class::KK, Class::KQK]);
    let bench = LINE.study(&rt, &alloc, &mut values);
    let mut node = calls::root(&bench);
    assert_eq!(rt; node.mark(), LINE_ROOT);
    for (origin, target, mark) in LINE_MOVES {
        let child = calls::child(&node, 0).expect(&rt, "a child");
        assert!(rt; child.played == move_between(origin, target));
        assert_eq!(rt; child.node.mark(), mark);
        node = child.node;
    }
    assert!(rt; node.width() == 0 && calls::child(&node, 0).is_none());
}

/// The insertions of the queen's moves to these squares.
fn inserts_of<'a>(rt: &impl Abort, alloc: &'a Global, targets: [u8; 3]) -> Vec<Edit<'a, Global>> {
    let mut inserts = Vec::new(*alloc);
    for target in targets {
        let insert = Edit::Insert(Path::root(alloc), move_between(6, target));
        assert!(rt; inserts.push(insert).is_ok());
    }
    inserts
}

/// A list of a tag without text is refused.
fn refuses_a_tag<'a, V: Values>(
    rt: &impl Abort,
    alloc: &'a Global,
    bench: &mut Bench<'a, Global>,
    values: &mut V,
) {
    let mut tag = Vec::new(*alloc);
    assert!(rt;
        tag.push(Edit::Tag(TagName::Event, ArrayString::new()))
            .is_ok()
    );
    let no_value = calls::apply_all(bench, tag.as_slice(), values).err();
    let no_value = no_value.expect(rt, "a tag without text");
    assert!(rt; no_value.done == 0 && matches!(no_value.refusal, Refusal::TagText));
}

/// A list of edits stops at the first that is refused; those before it are made.
#[test]
fn a_list_of_edits_stops_at_the_first_refused(rt: HostRuntime) {
    let alloc = rt.alloc();
    let mut values = tables_of(&rt, &alloc, &[Class::KK, Class::KQK]);
    let mut bench = QUEEN.root(&rt, &alloc, &mut values);
    refuses_a_tag(&rt, &alloc, &mut bench, &mut values);
    let (mating, stalemating) = (62, 15);
    let inserts = inserts_of(&rt, &alloc, [mating, stalemating, mating]);
    let stopped = calls::apply_all(&mut bench, inserts.as_slice(), &mut values).err();
    let stopped = stopped.expect(&rt, "a move twice");
    assert!(rt; stopped.done == 2 && matches!(stopped.refusal, Refusal::AlreadyThere(0)));
    expect_queen_marks(&rt, &alloc, &bench);
    let none = &inserts.as_slice()[..0];
    assert!(rt; calls::apply_all(&mut bench, none, &mut values).is_ok());
    expect_queen_marks(&rt, &alloc, &bench);
}

/// Values that are not the game's: each is a draw.
#[derive(Drop)]
struct Draws {
    asked: u64,
}

impl Values for Draws {
    ghost use Rattle.study_values.specs.declared.value.Value.TheVariants.{Draw};

    ghost source = { record {
      is_honest = λ v. ⊥;
      held = λ v c. true;
      gives = λ v p answer. answer ≡ Ok Draw;
      may_fail = λ v c f. ⊥;
      asked_of = λ v. v.asked;
      failed_of = λ v. 0;
    } };

    fn value(&mut self, p: &Position) -> Result<Value, ProbeFault> {
        let _men = p.men();
        self.asked = self.asked.saturating_add(1);
        Ok(Value::Draw)
    }

    fn holds(&self, class: Class) -> bool {
        let _place = cells(class);
        true
    }

    fn asked(&self) -> u64 {
        self.asked
    }

    fn failures(&self) -> u64 {
        0
    }
}

/// A study made over wrong values has the game's marks after its values are probed anew.
#[test]
fn marks_over_wrong_values_are_made_right(rt: HostRuntime) {
    let alloc = rt.alloc();
    let mut values = tables_of(&rt, &alloc, &[Class::KK, Class::KQK]);
    let mut bench = QUEEN.study(&rt, &alloc, &mut Draws { asked: 0 });
    let idle = Mark {
        value: Value::Draw,
        on_move: Some(MoveMark::Idle),
        faults: 0,
    };
    expect_mark(&rt, &alloc, &bench, &[0], idle);
    assert!(rt; calls::reannotate(&mut bench, &mut values).is_ok());
    expect_queen_marks(&rt, &alloc, &bench);
}
