//! Writing a review: empty trees, a mate, want of memory, values that fail, devices that fail.
use crate::studies::{Moves, study, tables_of, white};
use linked_list_allocator::LocalHeap;
use std::alloc::Global;
use std::process::Abort;
use std::test::Fail;
use study_facts::ReviewFault;
use study_marks::Bench;
use study_material::Class;
use study_prober::FailingValues;
use study_review::write_review;
use study_text::{MemoryWriter, WhenFull};
use study_values::{ProbeFault, SourceFault, Values};

/// By hand: Rh8 is the only mate, and nothing was inserted.
const EMPTY: &[u8] = b"study 7 k7/8/1K6/8/8/8/8/7R w - - 0 1
stipulation White to win: sound, White mates in 1
empty
play root win 1 Rh8#
";

/// By hand: after the mate there is no fact.
const MATED: &[u8] = b"study 7 k7/8/1K6/8/8/8/8/7R w - - 0 1
stipulation White to mate in 1: sound, White mates in 1
";

/// A rook mates in one: as a win, or as a mate in so many moves.
fn rook_mates<'a, V: Values>(
    rt: &impl Abort,
    alloc: &'a Global,
    mate_in: Option<u8>,
    moves: Moves,
    values: &mut V,
) -> Bench<'a, Global> {
    let fen = "k7/8/1K6/8/8/8/8/7R w - - 0 1";
    study(rt, alloc, fen, white(rt, mate_in), moves, values)
}

/// A tree without moves, and one that ends with the only mate.
#[test]
fn an_empty_tree_and_a_mate_are_evaluated(rt: HostRuntime) {
    let alloc = rt.alloc();
    let mut values = tables_of(&rt, &alloc, &[Class::KK, Class::KRK]);
    let rows: [(Option<u8>, Moves, &[u8]); 2] = [
        (None, &[], EMPTY),
        (Some(1), &[(&[], "Rh8#")], MATED),
    ];
    for (mate_in, moves, wanted) in rows {
        let bench = rook_mates(&rt, &alloc, mate_in, moves, &mut values);
        let mut out = MemoryWriter::new(&alloc);
        assert!(rt; write_review(&alloc, &bench, &mut values, 7, &mut out).is_ok());
        assert!(rt; out.taken.as_slice() == wanted);
    }
}

/// On heaps of growing size nothing of a review is written for want of memory, until it is written whole.
#[test]
fn nothing_is_written_before_there_is_memory_for_all(rt: HostRuntime) -> Result<(), Fail> {
    let alloc = rt.alloc();
    let mut values = tables_of(&rt, &alloc, &[Class::KK, Class::KRK]);
    let empty = rook_mates(&rt, &alloc, None, &[], &mut values);
    for step in 0..200usize {
        let heap = LocalHeap::new(alloc, 64 + step * 16)?;
        let mut out = MemoryWriter::new(&alloc);
        let answer = write_review(&heap, &empty, &mut values, 7, &mut out);
        if answer.is_ok() {
            assert!(rt; out.taken.as_slice() == EMPTY && step > 0);
            return Ok(());
        }
        assert!(rt; answer == Err(ReviewFault::OutOfMemory) && out.taken.is_empty());
    }
    Err(Fail::from("no heap was large enough"))
}

/// Each probe of a review fails in turn: the fault is reported, nothing more is probed, and nothing is written.
#[test]
fn nothing_is_written_where_a_value_is_not_evaluated(rt: HostRuntime) -> Result<(), Fail> {
    let alloc = rt.alloc();
    let mut whole = tables_of(&rt, &alloc, &[Class::KK, Class::KRK]);
    let empty = rook_mates(&rt, &alloc, None, &[], &mut whole);
    let mut values = FailingValues::new(whole, u64::MAX);
    let device = ReviewFault::Values(ProbeFault::TableRead(SourceFault::Device));
    for k in 0..100u64 {
        values.asked = 0;
        values.fails_at = Some(k);
        let mut out = MemoryWriter::new(&alloc);
        let answer = write_review(&alloc, &empty, &mut values, 7, &mut out);
        if answer.is_ok() {
            assert!(rt; out.taken.as_slice() == EMPTY && k > 1);
            return Ok(());
        }
        assert!(rt; answer == Err(device) && out.taken.is_empty(), "{k}");
        assert!(rt; values.asked() == k + 1, "{k}");
    }
    Err(Fail::from("more is asked than one position has moves"))
}

/// A device that is full at each place in turn, whatever it returns then, has a prefix of the review.
#[test]
fn a_full_writer_has_the_beginning_of_the_review(rt: HostRuntime) {
    let alloc = rt.alloc();
    let mut values = tables_of(&rt, &alloc, &[Class::KK, Class::KRK]);
    let empty = rook_mates(&rt, &alloc, None, &[], &mut values);
    for when_full in [WhenFull::Fail, WhenFull::TakeNothing] {
        for room in 0..EMPTY.len() {
            let mut out = MemoryWriter::with_room(&alloc, room, when_full);
            let written = write_review(&alloc, &empty, &mut values, 7, &mut out);
            assert!(rt; written == Err(ReviewFault::Device), "{room}");
            assert!(rt; out.taken.as_slice() == &EMPTY[..room], "{room}");
        }
    }
}
