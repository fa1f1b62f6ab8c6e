//! Commands that change a node of the study or its tags: `insert`, `delete`, `promote`, `mark` and `tag`.
ghost use Rattle.std.specs.Prelude.{◌≡◌, true, Ok};
ghost use Rattle.study_moves.specs.Rules.{is_legal};
ghost use Rattle.study_notation.specs.Matching.{move_of};
ghost use Rattle.study_tree.specs.Tree.{has_spot};
ghost use Rattle.study_marks.specs.Study.{plain_study, position_at};
ghost use Rattle.study_marks.specs.BenchState.{marked_study};
ghost use Rattle.study_command.specs.Paths.{steps_of, is_path_word};
ghost use Rattle.study_command.specs.Documents.{study, after_delete, after_promote, after_move};
ghost use Rattle.study_script.specs.State.{State};
ghost use Rattle.study_script.specs.Replies.{IsInsertReply, IsMoveReply, IsMoveReplyAt, IsStudyReply, IsStudyReplyAt, tag_reply};
ghost use Rattle.study_script.specs.declared.document.Document.TheVariants as held;
ghost use Rattle.study_script.specs.SessionHolds.{Holds, HoldsDocument, HoldsFrom, HoldsBench, HoldsBenchFrom, bench_seen, document_seen};
ghost use Rattle.study_command.specs.Parser.{node_command as node_asked, insert as insert_asked, tag as tag_asked};
ghost use Rattle.study_script.specs.Executed.{Executed, Leaves, LeavesRuled};

use crate::document::Document;
use crate::queries::mark_at;
use crate::table_edits;
use crate::tables::Tables;
use std::alloc::Allocator;
use study_command::{NodeCommand, read_path};
use study_marks::{Bench, TagName};
use study_moves::Move;
use study_notation::{Start, read_san, write_san};
use study_reply::{Answer, LineRefusal, Refusal, Reply};
use study_tablefile::PageSource;
use study_tree::Path;

/// Commands whose only argument is a node of the study.
pub fn node_command<'a, A: Allocator>(
    alloc: &'a A,
    document: &mut Document<'a, A>,
    word: NodeCommand,
    path: &[u8],
) -> Answer<'a, A>
    requires { is_path_word path.now ≡ true }
    ensures done { (s : State) → HoldsDocument document.old s
        → Executed (λ o. IsStudyReplyAt s o word s.document (steps_of path.now))
        (HoldsFrom s document.new) result }
    ensures document { Leaves result (node_asked word (steps_of path.now))
        (document_seen document.old) (document_seen document.new) }
{
    match document {
        Document::Study(bench) => node_command_on(alloc, bench, word, path),
        Document::Empty => Err(LineRefusal::Line(Refusal::NoStudy)),
        Document::Start(_) => Err(LineRefusal::Line(Refusal::NoStudy)),
    }
}

fn node_command_on<'a, A: Allocator>(
    alloc: &'a A,
    bench: &mut Bench<'a, A>,
    word: NodeCommand,
    path: &[u8],
) -> Answer<'a, A>
    requires { is_path_word path.now ≡ true }
    ensures done { (s : State) → HoldsBench bench.old s
        → Executed (λ o.
        IsStudyReplyAt s o word (study (plain_study (marked_study bench.old))) (steps_of path.now))
        (HoldsBenchFrom s bench.new) result }
    ensures document { Leaves result (node_asked word (steps_of path.now))
        (bench_seen bench.old) (bench_seen bench.new) }
{
    match read_path(alloc, path) {
        Ok(path) => node_command_at(bench, word, path),
        Err(_) => Err(LineRefusal::Line(Refusal::OutOfMemory)),
    }
}

fn node_command_at<'a, A: Allocator>(
    bench: &mut Bench<'a, A>,
    word: NodeCommand,
    path: Path<'a, A>,
) -> Answer<'a, A>
    ensures done { (s : State) → HoldsBench bench.old s
        → Executed (λ o. IsStudyReply s word (plain_study (marked_study bench.old)) path.entry)
        (HoldsBenchFrom s bench.new) result }
    ensures document { Leaves result (node_asked word path.entry)
        (bench_seen bench.old) (bench_seen bench.new) }
{
    match word {
        NodeCommand::Delete => delete(bench, path),
        NodeCommand::Promote => promote(bench, path),
        NodeCommand::Mark => mark_at(bench, path),
    }
}

fn delete<'a, A: Allocator>(bench: &mut Bench<'a, A>, path: Path<'a, A>) -> Answer<'a, A>
    ensures done { (s : State) → HoldsBench bench.old s
        → Executed (λ o.
        IsStudyReply s NodeCommand.Delete (plain_study (marked_study bench.old)) path.entry)
        (HoldsBenchFrom s bench.new) result }
    ensures document { LeavesRuled result (after_delete (bench_seen bench.old) path.entry)
        (bench_seen bench.old) (bench_seen bench.new) }
{
    match bench.delete(&path) {
        Ok(()) => Ok(Reply::Deleted(path)),
        Err(refusal) => Err(LineRefusal::Edit(refusal)),
    }
}

fn promote<'a, A: Allocator>(bench: &mut Bench<'a, A>, path: Path<'a, A>) -> Answer<'a, A>
    ensures done { (s : State) → HoldsBench bench.old s
        → Executed (λ o.
        IsStudyReply s NodeCommand.Promote (plain_study (marked_study bench.old)) path.entry)
        (HoldsBenchFrom s bench.new) result }
    ensures document { LeavesRuled result (after_promote (bench_seen bench.old) path.entry)
        (bench_seen bench.old) (bench_seen bench.new) }
{
    match bench.promote(&path) {
        Ok(()) => Ok(Reply::Promoted(path)),
        Err(refusal) => Err(LineRefusal::Edit(refusal)),
    }
}

/// `tag`.
pub fn set_tag<'a, A: Allocator>(
    document: &mut Document<'a, A>,
    name: TagName,
    text: &str,
) -> Answer<'a, A>
    ensures done { (s : State) → HoldsDocument document.old s
        → Executed (λ o reply. reply ≡ tag_reply s s.document name text.now)
        (HoldsFrom s document.new) result }
    ensures document { Leaves result (tag_asked name text.now) (document_seen document.old) (document_seen document.new) }
{
    match document {
        Document::Study(bench) => set_study_tag(bench, name, text),
        Document::Empty => Err(LineRefusal::Line(Refusal::NoStudy)),
        Document::Start(_) => Err(LineRefusal::Line(Refusal::NoStudy)),
    }
}

fn set_study_tag<'a, A: Allocator>(
    bench: &mut Bench<'a, A>,
    name: TagName,
    text: &str,
) -> Answer<'a, A>
    ensures done { (s : State) → HoldsBench bench.old s
        → Executed (λ o reply.
        reply ≡ tag_reply s (study (plain_study (marked_study bench.old))) name text.now)
        (HoldsBenchFrom s bench.new) result }
    ensures document { Leaves result (tag_asked name text.now) (bench_seen bench.old) (bench_seen bench.new) }
{
    match bench.set_tag(name, text) {
        Ok(()) => Ok(Reply::Tagged(name)),
        Err(refusal) => Err(LineRefusal::Edit(refusal)),
    }
}

/// `insert`.
pub fn insert<'a, P: PageSource, A: Allocator>(
    alloc: &'a A,
    document: &mut Document<'a, A>,
    tables: &mut Tables<'a, P, A>,
    path: &[u8],
    san: &str,
) -> Answer<'a, A>
    requires { is_path_word path.now ≡ true }
    ensures done { (s : State) → Holds P.honest P.gives document.old tables.old s
        → Executed (λ o. IsInsertReply s o s.document (steps_of path.now) san.now)
        (Holds P.honest P.gives document.new tables.new) result }
    ensures document { Leaves result (insert_asked (steps_of path.now) san.now)
        (document_seen document.old) (document_seen document.new) }
{
    match document {
        Document::Study(bench) => insert_in_study(alloc, bench, tables, path, san),
        Document::Empty => Err(LineRefusal::Line(Refusal::NoStudy)),
        Document::Start(_) => Err(LineRefusal::Line(Refusal::NoStudy)),
    }
}

fn insert_in_study<'a, P: PageSource, A: Allocator>(
    alloc: &'a A,
    bench: &mut Bench<'a, A>,
    tables: &mut Tables<'a, P, A>,
    path: &[u8],
    san: &str,
) -> Answer<'a, A>
    requires { is_path_word path.now ≡ true }
    ensures done { (s : State) → Holds P.honest P.gives (held.Study bench.old) tables.old s
        → Executed (λ o.
        IsInsertReply s o (study (plain_study (marked_study bench.old))) (steps_of path.now) san.now)
        (Holds P.honest P.gives (held.Study bench.new) tables.new) result }
    ensures document { Leaves result (insert_asked (steps_of path.now) san.now)
        (bench_seen bench.old) (bench_seen bench.new) }
{
    match read_path(alloc, path) {
        Ok(path) => insert_at(bench, tables, path, san),
        Err(_) => Err(LineRefusal::Line(Refusal::OutOfMemory)),
    }
}

fn insert_at<'a, P: PageSource, A: Allocator>(
    bench: &mut Bench<'a, A>,
    tables: &mut Tables<'a, P, A>,
    path: Path<'a, A>,
    san: &str,
) -> Answer<'a, A>
    ensures done { (s : State) → Holds P.honest P.gives (held.Study bench.old) tables.old s
        → Executed (λ o. IsMoveReplyAt s o (plain_study (marked_study bench.old)) path.entry san.now
        (has_spot (plain_study (marked_study bench.old)).tree path.entry))
        (Holds P.honest P.gives (held.Study bench.new) tables.new) result }
    ensures document { Leaves result (insert_asked path.entry san.now) (bench_seen bench.old) (bench_seen bench.new) }
{
    match bench.start_at(&path) {
        Some(start) => insert_san(bench, tables, path, &start, san),
        None => Err(LineRefusal::Line(Refusal::NoSuchNode)),
    }
}

fn insert_san<'a, P: PageSource, A: Allocator>(
    bench: &mut Bench<'a, A>,
    tables: &mut Tables<'a, P, A>,
    path: Path<'a, A>,
    start: &Start,
    san: &str,
) -> Answer<'a, A>
    requires at { start.now.position ≡ position_at (marked_study bench.old) path }
    ensures done { (s : State) → Holds P.honest P.gives (held.Study bench.old) tables.old s
        → Executed (λ o.
        IsMoveReply s o (plain_study (marked_study bench.old)) path.entry
        (move_of start.now.position san.now))
        (Holds P.honest P.gives (held.Study bench.new) tables.new) result }
    ensures document { LeavesRuled result
        (after_move (plain_study (marked_study bench.old)) path.entry
        (move_of start.now.position san.now))
        (bench_seen bench.old) (bench_seen bench.new) }
{
    match read_san(&start.position, san) {
        Ok(by) => insert_move(bench, tables, path, start, &by),
        Err(fault) => Err(LineRefusal::Line(Refusal::San(fault))),
    }
}

fn insert_move<'a, P: PageSource, A: Allocator>(
    bench: &mut Bench<'a, A>,
    tables: &mut Tables<'a, P, A>,
    path: Path<'a, A>,
    start: &Start,
    by: &Move,
) -> Answer<'a, A>
    requires legal { is_legal start.now.position by.now ≡ true }
    requires at { start.now.position ≡ position_at (marked_study bench.old) path }
    ensures done { (s : State) → Holds P.honest P.gives (held.Study bench.old) tables.old s
        → Executed (λ o. IsMoveReply s o (plain_study (marked_study bench.old)) path.entry
        (Ok by.now))
        (Holds P.honest P.gives (held.Study bench.new) tables.new) result }
    ensures document { LeavesRuled result
        (after_move (plain_study (marked_study bench.old)) path.entry (Ok by.now))
        (bench_seen bench.old) (bench_seen bench.new) }
{
    match table_edits::insert_move(bench, &path, *by, tables) {
        Ok(place) => {
            let san = write_san(&start.position, *by);
            Ok(Reply::Inserted(path, place, san))
        }
        Err(refusal) => Err(LineRefusal::Edit(refusal)),
    }
}
