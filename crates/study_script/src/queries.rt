//! Queries of a node or of the study, which do not change it: `moves`, `fen`, `solve`, `mark` and `pgn`.
ghost use Rattle.std.specs.Prelude.{◌≡◌, true};
ghost use Rattle.study_marks.specs.Study.{plain_study};
ghost use Rattle.study_marks.specs.BenchState.{marked_study};
ghost use Rattle.study_command.specs.Paths.{steps_of, is_path_word};
ghost use Rattle.study_command.specs.Documents.{study, start as begun};
ghost use Rattle.study_script.specs.State.{State, Environment};
ghost use Rattle.study_script.specs.Replies.{IsNodeReply, IsSolveReply, IsPgnReply, IsMarkReply};
ghost use Rattle.study_script.specs.Replies.{start_found, moves_reply, fen_reply};
ghost use Rattle.study_script.specs.SessionHolds.{HoldsDocument, HoldsFrom, HoldsBench, HoldsBenchFrom};
ghost use Rattle.study_script.specs.Executed.{Executed};

use crate::document::Document;
use std::alloc::Allocator;
use study_command::{NodeQuery, SolveDepth, read_path};
use study_marks::Bench;
use study_moves::solve;
use study_notation::Start;
use study_pgn::write_pgn;
use study_reply::{Answer, Game, LineRefusal, Refusal, Reply};
use study_tree::Path;

/// Commands whose only argument is a node, and that need no study.
pub fn node_query<'a, A: Allocator>(
    alloc: &'a A,
    document: &Document<'a, A>,
    word: NodeQuery,
    path: &[u8],
) -> Answer<'a, A>
    requires { is_path_word path.now ≡ true }
    ensures { (s : State) → HoldsDocument document.now s
        → Executed (λ o. IsNodeReply s o word (steps_of path.now))
        (HoldsFrom s document.now) result }
{
    match word {
        NodeQuery::Moves => moves_at(alloc, document, path),
        NodeQuery::Fen => fen_at(alloc, document, path),
    }
}

fn moves_at<'a, A: Allocator>(
    alloc: &'a A,
    document: &Document<'a, A>,
    path: &[u8],
) -> Answer<'a, A>
    requires { is_path_word path.now ≡ true }
    ensures { (s : State) → HoldsDocument document.now s
        → Executed (λ o reply. reply ≡ moves_reply s (start_found o s.document (steps_of path.now)))
        (HoldsFrom s document.now) result }
{
    match start_at(alloc, document, path) {
        Ok(start) => Ok(Reply::Moves(start)),
        Err(refusal) => Err(LineRefusal::Line(refusal)),
    }
}

fn fen_at<'a, A: Allocator>(alloc: &'a A, document: &Document<'a, A>, path: &[u8]) -> Answer<'a, A>
    requires { is_path_word path.now ≡ true }
    ensures { (s : State) → HoldsDocument document.now s
        → Executed (λ o reply. reply ≡ fen_reply s (start_found o s.document (steps_of path.now)))
        (HoldsFrom s document.now) result }
{
    match start_at(alloc, document, path) {
        Ok(start) => Ok(Reply::Fen(start)),
        Err(refusal) => Err(LineRefusal::Line(refusal)),
    }
}

/// `solve`.
pub fn solve_at<'a, A: Allocator>(
    alloc: &'a A,
    document: &Document<'a, A>,
    count: SolveDepth,
    path: &[u8],
) -> Answer<'a, A>
    requires { is_path_word path.now ≡ true }
    ensures { (s : State) → HoldsDocument document.now s
        → Executed (λ o. IsSolveReply s count.number (start_found o s.document (steps_of path.now)))
        (HoldsFrom s document.now) result }
{
    match start_at(alloc, document, path) {
        Ok(start) => Ok(Reply::Solved(solve(&start.position, count.number))),
        Err(refusal) => Err(LineRefusal::Line(refusal)),
    }
}

/// The start at a node; without a study the root is the only node.
fn start_at<'a, A: Allocator>(
    alloc: &'a A,
    document: &Document<'a, A>,
    path: &[u8],
) -> Result<Start, Refusal>
    requires { is_path_word path.now ≡ true }
    ensures { (s : State) → HoldsDocument document.now s → (o : Environment)
        × (result ≡ start_found o s.document (steps_of path.now)) }
{
    match document {
        Document::Empty => Err(Refusal::NoPosition),
        Document::Start(start) => root_start(alloc, start, path),
        Document::Study(bench) => node_start(alloc, bench, path),
    }
}

fn root_start<'a, A: Allocator>(alloc: &'a A, start: &Start, path: &[u8]) -> Result<Start, Refusal>
    requires { is_path_word path.now ≡ true }
    ensures { (o : Environment) × (result ≡ start_found o (begun start.now) (steps_of path.now)) }
{
    match read_path(alloc, path) {
        Ok(path) => {
            if path.steps().is_empty() {
                Ok(start.copied())
            } else {
                Err(Refusal::NoSuchNode)
            }
        }
        Err(_) => Err(Refusal::OutOfMemory),
    }
}

fn node_start<'a, A: Allocator>(
    alloc: &'a A,
    bench: &Bench<'a, A>,
    path: &[u8],
) -> Result<Start, Refusal>
    requires { is_path_word path.now ≡ true }
    ensures { (o : Environment)
        × (result ≡ start_found o (study (plain_study (marked_study bench.now)))
        (steps_of path.now)) }
{
    match read_path(alloc, path) {
        Ok(path) => bench.start_at(&path).ok_or(Refusal::NoSuchNode),
        Err(_) => Err(Refusal::OutOfMemory),
    }
}

/// `mark`.
pub fn mark_at<'a, A: Allocator>(bench: &Bench<'a, A>, path: Path<'a, A>) -> Answer<'a, A>
    ensures { (s : State) → HoldsBench bench.now s
        → Executed (λ o. IsMarkReply s (plain_study (marked_study bench.now)) path.entry)
        (HoldsBenchFrom s bench.now) result }
{
    match bench.mark(&path) {
        Some(mark) => Ok(Reply::Mark(path, mark)),
        None => Err(LineRefusal::Line(Refusal::NoSuchNode)),
    }
}

/// `pgn`.
pub fn pgn<'a, A: Allocator>(alloc: &'a A, document: &Document<'a, A>) -> Answer<'a, A>
    ensures { (s : State) → HoldsDocument document.now s
        → Executed (λ o. IsPgnReply s o s.document) (HoldsFrom s document.now) result }
{
    match document {
        Document::Study(bench) => document_pgn(alloc, bench),
        Document::Empty => Err(LineRefusal::Line(Refusal::NoStudy)),
        Document::Start(_) => Err(LineRefusal::Line(Refusal::NoStudy)),
    }
}

fn document_pgn<'a, A: Allocator>(alloc: &'a A, bench: &Bench<'a, A>) -> Answer<'a, A>
    ensures { (s : State) → HoldsBench bench.now s
        → Executed (λ o. IsPgnReply s o (study (plain_study (marked_study bench.now))))
        (HoldsBenchFrom s bench.now) result }
{
    let mut text = Vec::new(alloc);
    match write_pgn(alloc, bench, &mut text) {
        Ok(()) => Ok(Reply::Pgn(Game { text })),
        Err(_) => Err(LineRefusal::Line(Refusal::OutOfMemory)),
    }
}
