//! Values that cannot be read: a missing table, and a device that fails at each probe in turn.
use crate::studies::{position_of, tables_of};
use std::process::Abort;
use study_facts::{NodeContext, best_play, defences, timed_alternatives};
use study_marks::{Aim, Goal};
use study_material::Class;
use study_notation::read_san;
use study_prober::FailingValues;
use study_values::{ProbeFault, SourceFault, Values};

const WIN: Aim = Aim {
    goal: Goal::Win,
    hero_first: true,
};

/// A call that probes values.
#[derive(Clone, Copy, Debug, PartialEq, Eq)]
enum Call {
    TimedAlternatives,
    BestPlay,
    Defences,
}

const CALLS: [Call; 3] = [Call::TimedAlternatives, Call::BestPlay, Call::Defences];

/// The fault of a call at a root with a queen, or at the node after its check.
fn fault_of<V: Values>(rt: &impl Abort, call: Call, values: &mut V) -> Option<ProbeFault> {
    let position = position_of(rt, "8/8/8/8/8/2k5/8/K6Q w - - 0 1");
    let check = read_san(&position, "Qh3+").ok().expect(rt, "a move");
    let reply = position_of(rt, "8/8/8/8/8/2k4Q/8/K7 b - - 0 1");
    let line = [position.copied()];
    let root = NodeContext {
        aim: &WIN,
        depth: 0,
        position: &position,
    };
    let node = NodeContext {
        aim: &WIN,
        depth: 1,
        position: &reply,
    };
    match call {
        Call::TimedAlternatives => timed_alternatives(&root, &line, check, values).err(),
        Call::BestPlay => best_play(&position, values).err(),
        Call::Defences => defences(&node, &[], values).err(),
    }
}

/// Each of the first forty probes fails in turn; the fault is reported, and no more is probed.
#[test]
fn each_question_of_a_call_fails_in_turn(rt: HostRuntime) {
    let alloc = rt.alloc();
    let whole = tables_of(&rt, &alloc, &[Class::KK, Class::KQK]);
    let mut values = FailingValues::new(whole, u64::MAX);
    let device = Some(ProbeFault::TableRead(SourceFault::Device));
    for call in CALLS {
        for k in 0..40u64 {
            values.asked = 0;
            values.fails_at = Some(k);
            assert!(rt; fault_of(&rt, call, &mut values) == device, "{call:?} {k}");
            assert!(rt; values.asked() == k + 1, "{call:?} {k}");
        }
    }
    assert!(rt; values.failures() == 120);
}

/// A class without a table is named, and no failure is counted.
#[test]
fn a_missing_table_is_evaluated_by_its_name(rt: HostRuntime) {
    let alloc = rt.alloc();
    let mut values = tables_of(&rt, &alloc, &[Class::KK]);
    for call in CALLS {
        let fault = fault_of(&rt, call, &mut values);
        assert!(rt; fault == Some(ProbeFault::NoTable(Class::KQK)), "{call:?}");
    }
    assert!(rt; values.failures() == 0);
}
