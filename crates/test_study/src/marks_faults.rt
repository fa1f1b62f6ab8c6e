//! Memory and values that fail in turn: a refused call leaves the study unchanged, and is accepted when it is made again.
use crate::calls;
use crate::heaps::rest_of;
use crate::studies::{Case, Snapshot, insert_text, move_of, path_of, start_of, tables_of};
use linked_list_allocator::LocalHeap;
use std::alloc::{AllocError, Allocator, Global};
use std::process::Abort;
use std::test::Fail;
use study_board::Side;
use study_marks::{Bench, Edit, Goal, Refusal, Stopped};
use study_material::Class;
use study_prober::{FailingValues, WholeTables};
use study_values::{ProbeFault, Values};

/// A study on which the calls are made.
#[derive(Clone, Copy)]
pub(crate) enum Subject {
    Corners,
    Fan,
    Mate,
}

/// A rook on h5 and kings in two corners: two moves of the rook, and one of Black's king.
const CORNERS: Case = Case {
    fen: "k7/8/8/7R/8/8/8/K7 w - - 0 1",
    hero: Side::White,
    goal: Goal::Win,
    moves: &[(&[], "Rg5"), (&[], "Ra5"), (&[0], "Kb8")],
};

/// Four moves of the same rook.
const FAN: Case = Case {
    moves: &[(&[], "Rg5"), (&[], "Rf5"), (&[], "Re5"), (&[], "Rd5")],
    ..CORNERS
};

/// A mate in one, which a king's move misses.
const MATE: Case = Case {
    fen: "k7/8/1K6/8/8/8/8/7R w - - 0 1",
    moves: &[(&[], "Rh8"), (&[], "Kc5")],
    ..CORNERS
};

/// The calls that probe values and leave the study unchanged if they are refused.
#[derive(Clone, Copy, Debug, PartialEq, Eq)]
pub(crate) enum Call {
    New,
    Position,
    Shift,
    Insert,
    Reannotate,
}

impl Subject {
    pub(crate) fn case(&self) -> Case {
        match self {
            Subject::Corners => CORNERS,
            Subject::Fan => FAN,
            Subject::Mate => MATE,
        }
    }

    /// Its start with another clock.
    fn later(&self) -> &'static str {
        match self {
            Subject::Corners | Subject::Fan => "k7/8/8/7R/8/8/8/K7 w - - 4 7",
            Subject::Mate => "k7/8/1K6/8/8/8/8/7R w - - 7 9",
        }
    }

    /// One more move below its root.
    fn more(&self) -> &'static str {
        match self {
            Subject::Corners | Subject::Fan => "Rh1",
            Subject::Mate => "Rb1",
        }
    }

    /// Makes a call on the study.
    fn call<'a, A: Allocator, V: Values>(
        &self,
        rt: &impl Abort,
        alloc: &'a A,
        bench: &mut Bench<'a, A>,
        call: Call,
        values: &mut V,
    ) -> Result<(), Refusal<'a, A>> {
        match call {
            Call::New => {
                let start = start_of(rt, self.case().fen);
                *bench = calls::new_bench(alloc, start, self.case().stipulation(), values)?;
                Ok(())
            }
            Call::Position => calls::set_position(bench, start_of(rt, self.later()), values),
            Call::Shift => calls::shift_position(bench, start_of(rt, self.later()), values),
            Call::Reannotate => calls::reannotate(bench, values),
            Call::Insert => {
                let root = path_of(rt, alloc, &[]);
                let m = move_of(rt, bench, &root, self.more());
                let _place = calls::insert(bench, &root, m, values)?;
                Ok(())
            }
        }
    }

    /// The study after a call over values that do not fail.
    pub(crate) fn after<V: Values>(
        &self,
        rt: &impl Abort,
        alloc: Global,
        call: Call,
        sound: &mut V,
    ) -> Snapshot {
        let mut bench = self.case().study(rt, &alloc, sound);
        assert!(rt; self.call(rt, &alloc, &mut bench, call, sound).is_ok());
        Snapshot::of(rt, alloc, &bench)
    }

    /// Whether a call is refused over values of which one fails, none of which was probed yet. If it is, the study is unchanged, and the call is made
    /// again; in the end the study is as expected.
    pub(crate) fn is_refused<V: Values, W: Values>(
        &self,
        rt: &impl Abort,
        alloc: Global,
        call: Call,
        wanted: &Snapshot,
        values: &mut V,
        sound: &mut W,
    ) -> bool {
        let mut bench = self.case().study(rt, &alloc, sound);
        let was = Snapshot::of(rt, alloc, &bench);
        let answer = self.call(rt, &alloc, &mut bench, call, values);
        let refused = answer.is_err();
        expect_failures(rt, values, u64::from(refused));
        if let Err(refusal) = answer {
            assert!(rt; is_device(&refusal) && was.is_of(rt, alloc, &bench));
            assert!(rt; self.call(rt, &alloc, &mut bench, call, values).is_ok());
            expect_failures(rt, values, 1);
        }
        assert!(rt; wanted.is_of(rt, alloc, &bench));
        refused
    }

    /// The moves of the study, a promotion, a deletion and a shift, each an edit.
    pub(crate) fn edits<'a, A: Allocator, V: Values>(
        &self,
        rt: &impl Abort,
        alloc: Global,
        room: &'a A,
        sound: &mut V,
    ) -> Vec<Edit<'a, A>> {
        let mut edits = self.inserts(rt, alloc, room, sound);
        add(rt, &mut edits, Edit::Promote(path_of(rt, room, &[1])));
        add(rt, &mut edits, Edit::Delete(path_of(rt, room, &[0])));
        add(rt, &mut edits, Edit::Shift(start_of(rt, self.later())));
        edits
    }

    /// The moves of the study, each an edit.
    fn inserts<'a, A: Allocator, V: Values>(
        &self,
        rt: &impl Abort,
        alloc: Global,
        room: &'a A,
        sound: &mut V,
    ) -> Vec<Edit<'a, A>> {
        let whole = self.case().study(rt, &alloc, sound);
        let mut edits = Vec::new(alloc);
        for (steps, san) in self.case().moves {
            let m = move_of(rt, &whole, &path_of(rt, &alloc, steps), san);
            add(rt, &mut edits, Edit::Insert(path_of(rt, room, steps), m));
        }
        edits
    }

    /// Makes edits over values or memory that may fail. If they stop, the study is the one after as many of the same edits over sound values and
    /// ample memory.
    pub(crate) fn apply_edits<'a, 'g, A: Allocator, V: Values, W: Values>(
        &self,
        rt: &impl Abort,
        (room, edits): (&'a A, &[Edit<'a, A>]),
        (alloc, same): (&'g Global, &[Edit<'g, Global>]),
        values: &mut V,
        sound: &mut W,
    ) -> Result<(), Stopped<'a, A>> {
        let mut bench = self.case().root(rt, room, sound);
        let answer = calls::apply_all(&mut bench, edits, values);
        let done = done_of(&answer, edits.len());
        let (first, _) = same.split_at(done.min(same.len()));
        let wanted = self.after_edits(rt, alloc, first, sound);
        assert!(rt; wanted.is_of(rt, *alloc, &bench), "{done}");
        answer
    }

    /// The study after edits over sound values and ample memory.
    fn after_edits<'g, W: Values>(
        &self,
        rt: &impl Abort,
        alloc: &'g Global,
        edits: &[Edit<'g, Global>],
        sound: &mut W,
    ) -> Snapshot {
        let mut bench = self.case().root(rt, alloc, sound);
        assert!(rt; calls::apply_all(&mut bench, edits, sound).is_ok());
        Snapshot::of(rt, *alloc, &bench)
    }
}

/// The number of edits made.
fn done_of<A: Allocator>(answer: &Result<(), Stopped<'_, A>>, count: usize) -> usize {
    match answer {
        Ok(()) => count,
        Err(stopped) => stopped.done,
    }
}

fn add<'a, A: Allocator>(rt: &impl Abort, edits: &mut Vec<Edit<'a, A>>, edit: Edit<'a, A>) {
    assert!(rt; edits.push(edit).is_ok());
}

fn expect_failures<V: Values>(rt: &impl Abort, values: &V, count: u64) {
    assert!(rt; values.failures() == count, "{count}");
}

/// Whether a refusal is that a device failed.
pub(crate) fn is_device<A: Allocator>(refusal: &Refusal<'_, A>) -> bool {
    matches!(refusal, Refusal::TableRead(ProbeFault::TableRead(_)))
}

/// The number of values that an insertion probes, counted by hand: one for the position after the move and one for each of Black's three moves there.
const ASKED: u64 = 4;

type Failing<'a> = FailingValues<WholeTables<'a, Global>>;

/// The values of king and rook against king, of which one can be made to fail.
fn failing<'a>(rt: &impl Abort, alloc: &'a Global) -> Failing<'a> {
    FailingValues::new(tables_of(rt, alloc, &[Class::KK, Class::KRK]), 0)
}

/// The k-th value from here on fails, counted from 0.
fn fail_at(values: &mut Failing<'_>, k: u64) {
    values.asked = 0;
    values.failures = 0;
    values.fails_at = Some(k);
}

/// The k-th value of an insertion fails, for each k until none fails.
#[test]
fn each_value_of_an_insertion_fails_in_turn(rt: HostRuntime) {
    let alloc = rt.alloc();
    let mut sound = tables_of(&rt, &alloc, &[Class::KK, Class::KRK]);
    let mut values = failing(&rt, &alloc);
    let wanted = Subject::Corners.after(&rt, alloc, Call::Insert, &mut sound);
    for k in 0..=ASKED {
        fail_at(&mut values, k);
        let refused = Subject::Corners.is_refused(
            &rt,
            alloc,
            Call::Insert,
            &wanted,
            &mut values,
            &mut sound,
        );
        assert!(rt; refused == (k < ASKED), "{k}");
    }
}

/// Whether a call was accepted; if it was refused for want of memory, the study has to be unchanged.
fn is_accepted<'a, A: Allocator>(
    rt: &impl Abort,
    alloc: Global,
    bench: &Bench<'a, A>,
    was: &Snapshot,
    answer: Result<(), Refusal<'a, A>>,
) -> bool {
    if let Err(refusal) = answer {
        assert!(rt; matches!(refusal, Refusal::OutOfMemory) && was.is_of(rt, alloc, bench));
        return false;
    }
    true
}

/// The number of edits after which a list stops on a heap of this size for want of memory, if it does; the study is then the one after as many of the
/// same edits on an ample heap.
fn stop_of<'g, V: Values, W: Values>(
    rt: &impl Abort,
    (alloc, same): (&'g Global, &[Edit<'g, Global>]),
    size: usize,
    values: &mut V,
    sound: &mut W,
) -> Result<Option<usize>, AllocError> {
    let heap = LocalHeap::new(*alloc, size)?;
    let edits = Subject::Corners.edits(rt, *alloc, &heap, sound);
    let list = (&heap, edits.as_slice());
    match Subject::Corners.apply_edits(rt, list, (alloc, same), values, sound) {
        Ok(()) => Ok(None),
        Err(stopped) => {
            assert!(rt; matches!(stopped.refusal, Refusal::OutOfMemory));
            Ok(Some(stopped.done))
        }
    }
}

/// Each growth of a list of edits is refused in turn, on heaps from too small to ample: the list stops there, after the edits before.
#[test]
fn each_growth_of_a_list_is_refused_in_turn(rt: HostRuntime) -> Result<(), Fail> {
    let alloc = rt.alloc();
    let mut sound = tables_of(&rt, &alloc, &[Class::KK, Class::KRK]);
    let mut values = tables_of(&rt, &alloc, &[Class::KK, Class::KRK]);
    let whole = Subject::Corners.edits(&rt, alloc, &alloc, &mut sound);
    let same = (&alloc, whole.as_slice());
    let (mut last, mut stops) = (0usize, 0u32);
    for step in 0..400usize {
        let Some(done) = stop_of(&rt, same, 64 + step * 512, &mut values, &mut sound)? else {
            assert!(rt; stops > 0 && last == 5, "{stops} {last}");
            return Ok(());
        };
        stops = stops.saturating_add(u32::from(done != last));
        last = done;
    }
    Err(Fail::from("no heap was large enough"))
}

/// Makes a call on a study on a heap, first with nothing left of it, and then with all that was left.
fn check_call<V: Values>(
    rt: &impl Abort,
    alloc: Global,
    call: Call,
    takes_memory: bool,
    values: &mut V,
) -> Result<(), AllocError> {
    let heap = LocalHeap::new(alloc, 1 << 14)?;
    let mut bench = FAN.study(rt, &heap, values);
    let was = Snapshot::of(rt, alloc, &bench);
    let blocks = rest_of(alloc, &heap)?;
    let answer = Subject::Fan.call(rt, &heap, &mut bench, call, values);
    let accepted = is_accepted(rt, alloc, &bench, &was, answer);
    assert!(rt; accepted != takes_memory, "{call:?}");
    drop(blocks);
    let answer = Subject::Fan.call(rt, &heap, &mut bench, call, values);
    assert!(rt; is_accepted(rt, alloc, &bench, &was, answer), "{call:?}");
    Ok(())
}

/// The memory of single calls is refused in turn, each on a heap with room for the moves of the study.
#[test]
fn each_growth_of_a_call_is_refused_in_turn(rt: HostRuntime) -> Result<(), Fail> {
    let alloc = rt.alloc();
    let mut values = tables_of(&rt, &alloc, &[Class::KK, Class::KRK]);
    for call in [Call::New, Call::Position] {
        check_call(&rt, alloc, call, false, &mut values)?;
    }
    for call in [Call::Insert, Call::Shift, Call::Reannotate] {
        check_call(&rt, alloc, call, true, &mut values)?;
    }
    Ok(())
}

/// A study with a line of 19 moves, of which the last is the rook's.
fn deep_study<'a, A: Allocator, V: Values>(
    rt: &impl Abort,
    alloc: &'a A,
    values: &mut V,
) -> Bench<'a, A> {
    let mut bench = CORNERS.root(rt, alloc, values);
    let mut at = path_of(rt, alloc, &[]);
    for turn in 0..19usize {
        let san = match turn {
            18 => "Rh4",
            _ => ["Kb1", "Kb8", "Ka1", "Ka8"][turn % 4],
        };
        insert_text(rt, &mut bench, &at, san, values);
        assert!(rt; at.push(0).is_ok());
    }
    bench
}

/// A shift was refused since it breaks the move that leads to the node at these steps.
fn expect_broken<A: Allocator>(rt: &impl Abort, answer: Result<(), Refusal<'_, A>>, steps: &[u16]) {
    match answer {
        Err(Refusal::ShiftBroken(at)) => assert_eq!(rt; at.steps(), steps),
        _ => panic!(rt; "not broken"),
    }
}

/// A shift that breaks a deep move fails for want of memory for the path to it, and then succeeds.
#[test]
fn the_path_to_a_broken_move_takes_memory(rt: HostRuntime) -> Result<(), Fail> {
    let alloc = rt.alloc();
    let mut values = tables_of(&rt, &alloc, &[Class::KK, Class::KRK]);
    let heap = LocalHeap::new(alloc, 1 << 18)?;
    let mut bench = deep_study(&rt, &heap, &mut values);
    let was = Snapshot::of(&rt, alloc, &bench);
    let blocks = rest_of(alloc, &heap)?;
    let moved = "k7/8/8/6R1/8/8/8/K7 w - - 0 1";
    let answer = calls::shift_position(&mut bench, start_of(&rt, moved), &mut values);
    assert!(rt; !is_accepted(&rt, alloc, &bench, &was, answer));
    drop(blocks);
    let answer = calls::shift_position(&mut bench, start_of(&rt, moved), &mut values);
    expect_broken(&rt, answer, &[0; 19]);
    assert!(rt; was.is_of(&rt, alloc, &bench));
    Ok(())
}
