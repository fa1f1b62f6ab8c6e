//! Calls of a study, each in a function without a contract: a test that uses them is proved without the clauses of the calls, which it does not need,
//! since it asserts what it expects.
use std::alloc::{Allocator, Global};
use study_marks::{
    Bench, Edit, Mark, MarkedChild, MarkedNode, NodeView, Refusal, Stipulation, Stopped,
};
use study_moves::Move;
use study_notation::Start;
use study_pgn::{PgnFault, write_pgn};
use study_text::MemoryWriter;
use study_tree::Path;
use study_values::Values;

pub(crate) fn new_bench<'a, A: Allocator, V: Values>(
    alloc: &'a A,
    start: Start,
    stipulation: Stipulation,
    values: &mut V,
) -> Result<Bench<'a, A>, Refusal<'a, A>> {
    Bench::new(alloc, start, stipulation, values)
}

pub(crate) fn set_position<'a, A: Allocator, V: Values>(
    bench: &mut Bench<'a, A>,
    start: Start,
    values: &mut V,
) -> Result<(), Refusal<'a, A>> {
    bench.set_position(start, values)
}

pub(crate) fn shift_position<'a, A: Allocator, V: Values>(
    bench: &mut Bench<'a, A>,
    start: Start,
    values: &mut V,
) -> Result<(), Refusal<'a, A>> {
    bench.shift_position(start, values)
}

pub(crate) fn set_stipulation<A: Allocator>(bench: &mut Bench<'_, A>, stipulation: Stipulation) {
    bench.set_stipulation(stipulation);
}

pub(crate) fn insert<'a, A: Allocator, V: Values>(
    bench: &mut Bench<'a, A>,
    at: &Path<'a, A>,
    m: Move,
    values: &mut V,
) -> Result<u16, Refusal<'a, A>> {
    bench.insert(at, m, values)
}

pub(crate) fn delete<'a, A: Allocator>(
    bench: &mut Bench<'a, A>,
    at: &Path<'a, A>,
) -> Result<(), Refusal<'a, A>> {
    bench.delete(at)
}

pub(crate) fn promote<'a, A: Allocator>(
    bench: &mut Bench<'a, A>,
    at: &Path<'a, A>,
) -> Result<(), Refusal<'a, A>> {
    bench.promote(at)
}

pub(crate) fn reannotate<'a, A: Allocator, V: Values>(
    bench: &mut Bench<'a, A>,
    values: &mut V,
) -> Result<(), Refusal<'a, A>> {
    bench.reannotate(values)
}

pub(crate) fn apply_all<'a, A: Allocator, V: Values>(
    bench: &mut Bench<'a, A>,
    edits: &[Edit<'a, A>],
    values: &mut V,
) -> Result<(), Stopped<'a, A>> {
    bench.apply_all(edits, values)
}

pub(crate) fn size<A: Allocator>(bench: &Bench<'_, A>) -> usize {
    bench.size()
}

pub(crate) fn relabelled<A: Allocator>(bench: &Bench<'_, A>) -> u64 {
    bench.relabelled()
}

pub(crate) fn node_view<A: Allocator>(bench: &Bench<'_, A>, steps: &[u16]) -> Option<NodeView> {
    bench.node_view(steps)
}

pub(crate) fn root<'t, 'a, A: Allocator>(bench: &'t Bench<'a, A>) -> MarkedNode<'t, 'a, A> {
    bench.root()
}

pub(crate) fn child<'t, 'a, A: Allocator>(
    node: &MarkedNode<'t, 'a, A>,
    place: u16,
) -> Option<MarkedChild<'t, 'a, A>> {
    node.child(place)
}

pub(crate) fn mark<'a, A: Allocator>(bench: &Bench<'a, A>, at: &Path<'a, A>) -> Option<Mark> {
    bench.mark(at)
}

pub(crate) fn move_at<'a, A: Allocator>(bench: &Bench<'a, A>, at: &Path<'a, A>) -> Option<Move> {
    bench.move_at(at)
}

pub(crate) fn children<'a, A: Allocator>(bench: &Bench<'a, A>, at: &Path<'a, A>) -> Option<u16> {
    bench.children(at)
}

pub(crate) fn start_at<'a, A: Allocator>(bench: &Bench<'a, A>, at: &Path<'a, A>) -> Option<Start> {
    bench.start_at(at)
}

/// A writer that accepts everything.
pub(crate) fn writer<A: Allocator>(alloc: &A) -> MemoryWriter<'_, A> {
    MemoryWriter::new(alloc)
}

/// Writes the game of a study with this memory.
pub(crate) fn write<A: Allocator, B: Allocator>(
    alloc: &A,
    bench: &Bench<'_, B>,
    out: &mut MemoryWriter<'_, Global>,
) -> Result<(), PgnFault> {
    write_pgn(alloc, bench, out)
}
