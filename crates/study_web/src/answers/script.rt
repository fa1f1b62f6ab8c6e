//! Scripts: the review of their studies, and the view of the document that they leave.
ghost use Rattle.std.specs.Prelude.{◌≡◌, ◌≢◌, ◌≤◌, ◌⊎◌, ◌++◌, ℕ, [], true, false, is_some, List, Option, IfSome, IfOk, IfErr, OnOk};
ghost use Rattle.study_material.specs.declared.class.Class.{Class as AClass};
ghost use Rattle.study_values.specs.declared.fault.SourceFault.{SourceFault as ASourceFault};
ghost use Rattle.study_tree.specs.Tree.{has_spot};
ghost use Rattle.study_marks.specs.BenchState.{marked_study, IsKeptRight};
ghost use Rattle.study_marks.specs.Study.{plain_study};
ghost use Rattle.study_command.specs.Paths.{steps_of, is_path_word};
ghost use Rattle.study_prober.specs.PagedTables.{held_of, SourcesAreRight, MayFail};
ghost use Rattle.study_script.specs.SessionHolds.{document_seen, tables_honest, IsMarked, Holds};
ghost use Rattle.study_command.specs.Documents.{study};
ghost use Rattle.study_script.specs.State.{State, is_among};
ghost use Rattle.study_view.specs.View.{IsViewOf};
ghost use Rattle.study_view.specs.Words.{start_lines};
ghost use Rattle.study_web.specs.Answers.{MayEnd, IsNever, IsOwnEnd, IsReviewOver, IsUnread, IsViewDenial};
ghost use Rattle.study_web.specs.Opened.{IsOfTables};
ghost use Rattle.study_web.specs.Views.{IsDocumentView, IsLeft, IsValueFaultOver, IsViewOver, LacksNode, LacksNodeOver, OverStore, IsViewFault, StudyStopped};

use crate::answers::refusals::Refusals;
use crate::reply::AnswerFault;
use crate::request_fault::RequestFault;
use crate::run_output::{RunOutput, own_end, own_fault};
use crate::tables::open_tables;
use std::alloc::{AllocError, Allocator};
use study_command::{Line, read_path};
use study_marks::Bench;
use study_notation::Start;
use study_prober::PagedTables;
use study_reply::{Refusal, of_probe};
use study_report::{Lines, report_session, write_report_over};
use study_script::{Document, RunFault, Session, TableStore, Tables};
use study_tablefile::PageSource;
use study_text::{Text, write_text};
use study_values::Values;
use study_view::{ViewFault, add_start, write_view};

/// The review of a script's studies, over all files of a store.
pub fn review_of<'a, S: TableStore, A: Allocator>(
    alloc: &'a A,
    script: &[u8],
    store: &mut S,
    pages: Option<u16>,
) -> Result<RunOutput<'a, A>, RequestFault>
    requires { IfSome pages (λ n. (1 ≤ n) × (n ≤ 4096)) }
    ensures own { IfOk result (λ reported. IsOwnEnd reported.summary) }
    ensures review { ((c : AClass) → S.honest store.old true c) → IfOk result (λ reported.
        OverStore (S.headers store.old) (S.faults store.old)
        (IsReviewOver script.now reported.text.items reported.summary)) }
    ensures denied { IfErr result (IsOfTables (S.headers store.old) (S.faults store.old)) }
{
    match open_tables(alloc, store, pages) {
        Err(denial) => Err(denial),
        Ok(tables) => {
            let mut reader = script;
            let mut text = Vec::new(alloc);
            let summary = write_report_over(
                alloc,
                &mut reader,
                &mut text,
                &mut Lines,
                Tables::Paged(tables),
                store,
            );
            Ok(own_end(alloc, text, summary))
        }
    }
}

/// The view of a study at a path.
#[tactic(auto, using(crate::proofs::Denials::memory_denial, crate::proofs::Denials::probe_denial))]
fn bench_view<'a, A: Allocator, V: Values>(
    alloc: &'a A,
    bench: &Bench<'a, A>,
    path: &[u8],
    values: &mut V,
) -> Result<Vec<u8, &'a A>, AnswerFault>
    requires { is_path_word path.now ≡ true }
    ensures none { IfErr result (MayEnd (IsViewDenial
        (λ fault. StudyStopped V.source (study (plain_study (marked_study bench.now)))
        values.old fault values.new)
        (has_spot (plain_study (marked_study bench.now)).tree (steps_of path.now) ≡ false))
        IsNever) }
    ensures text { V.source.is_honest values.old → IsKeptRight bench.now
        → IfOk result (λ text.
        IsViewOf (plain_study (marked_study bench.now)) (steps_of path.now) text.items) }
{
    let first = bench.start();
    let Ok(path) = read_path(alloc, path) else {
        return Err(AnswerFault::Denied(RequestFault::Refused(Refusal::OutOfMemory)));
    };
    let mut text = Vec::new(alloc);
    match write_view(alloc, bench, &path, values, &mut text) {
        Ok(()) => Ok(text),
        Err(ViewFault::NoSuchNode) => Err(AnswerFault::Denied(RequestFault::Refused(
            Refusal::NoSuchNode,
        ))),
        Err(ViewFault::Values(fault)) => Err(AnswerFault::Denied(RequestFault::Refused(of_probe(
            fault,
        )))),
        Err(ViewFault::OutOfMemory) | Err(ViewFault::Device) => {
            Err(AnswerFault::Denied(RequestFault::Refused(Refusal::OutOfMemory)))
        }
    }
}

/// The lines of a start.
fn lines_of<'a, A: Allocator>(alloc: &'a A, start: &Start) -> Result<Vec<u8, &'a A>, AllocError>
    ensures { IfOk result (λ text. text.items ≡ start_lines start.now) }
{
    let mut lines = Text::new(alloc);
    let mut text = Vec::new(alloc);
    add_start(&mut lines, start)?;
    text.extend_from_slice(lines.as_slice())?;
    Ok(text)
}

/// The view of a start without a stipulation.
fn start_view<'a, A: Allocator>(alloc: &'a A, start: &Start) -> Result<Vec<u8, &'a A>, AnswerFault>
    ensures none { IfErr result (λ why.
        why ≡ AnswerFault.Denied (RequestFault.Refused Refusal.OutOfMemory)) }
    ensures text { IfOk result (λ text. text.items ≡ start_lines start.now) }
{
    match lines_of(alloc, start) {
        Ok(text) => Ok(text),
        Err(_) => Err(AnswerFault::Denied(RequestFault::Refused(Refusal::OutOfMemory))),
    }
}

/// A document that has only a root has no other node.
#[tactic(auto, using(crate::proofs::Nodes::places_other), unfolding(study_command::specs::Paths::steps_of))]
fn require_root(path: &[u8]) -> Result<(), AnswerFault>
    ensures root { OnOk result (steps_of path.now ≡ []) }
    ensures none { IfErr result (λ why.
        (why ≡ AnswerFault.Denied (RequestFault.Refused Refusal.NoSuchNode))
        × (steps_of path.now ≢ [])) }
{
    if path == b"root".as_slice() {
        Ok(())
    } else {
        Err(AnswerFault::Denied(RequestFault::Refused(Refusal::NoSuchNode)))
    }
}

/// The view of a document at a path: for a start its lines, for nothing no line.
fn document_view<'a, A: Allocator, V: Values>(
    alloc: &'a A,
    document: &Document<'a, A>,
    path: &[u8],
    values: &mut V,
) -> Result<Vec<u8, &'a A>, AnswerFault>
    requires { is_path_word path.now ≡ true }
    ensures none { IfErr result (MayEnd (IsViewDenial
        (λ fault. StudyStopped V.source (document_seen document.now) values.old fault values.new)
        (LacksNode (document_seen document.now) (steps_of path.now))) IsNever) }
    ensures text { V.source.is_honest values.old → IsMarked document.now
        → IfOk result (λ text.
        IsDocumentView (document_seen document.now) (steps_of path.now) text.items) }
{
    match document {
        Document::Study(bench) => bench_view(alloc, bench, path, values),
        Document::Start(start) => {
            require_root(path)?;
            start_view(alloc, start)
        }
        Document::Empty => {
            require_root(path)?;
            Ok(Vec::new(alloc))
        }
    }
}

/// What a script leaves: the document, the tables, and its refused lines.
#[derive(Drop)]
struct ScriptEnd<'a, P: PageSource, A: Allocator> {
    document: Document<'a, A>,
    tables: Tables<'a, P, A>,
    refused: Vec<u8, &'a A>,
}

/// Follows a script over these tables. No file of the store is opened: table commands are skipped.
fn run_to_end<'a, S: TableStore, A: Allocator>(
    alloc: &'a A,
    script: &[u8],
    tables: PagedTables<'a, S::Pages, A>,
    store: &mut S,
) -> Result<ScriptEnd<'a, S::Pages, A>, RunFault>
    ensures left { (classes : List AClass) → SourcesAreRight S.Pages.honest tables.entry.sources
        → ((c : AClass) → is_some (held_of tables.entry.sources c) ≡ is_among classes c)
        → ((c : AClass) (f : ASourceFault)
        → MayFail S.Pages.gives (held_of tables.entry.sources c) c f
        → S.faults store.old c f ≡ true)
        → IfOk result (λ left. (state : State)
        × Holds S.Pages.honest S.Pages.gives left.document left.tables state
        × IsLeft classes
        (record {
          files = S.files store.old;
          headers = S.headers store.old;
          faults = S.faults store.old;
        })
        script.now state left.refused.items) }
    ensures stops { IfErr result (IsUnread script.now) }
{
    let Ok(mut line) = Line::new(alloc) else {
        return Err(RunFault::OutOfMemory);
    };
    let mut session = Session {
        alloc,
        document: Document::Empty,
        tables: Tables::Paged(tables),
        store,
        separate: true,
    };
    let mut reader = script;
    let mut refused = Vec::new(alloc);
    match report_session(
        &mut line,
        &mut reader,
        &mut refused,
        &mut Refusals,
        &mut session,
    ) {
        Err(fault) => Err(own_fault(fault)),
        Ok(_) => {
            let Session {
                document,
                tables,
                ..
            } = session;
            Ok(ScriptEnd {
                document,
                tables,
                refused,
            })
        }
    }
}

/// The view at a path of the document that is left, then the refused lines.
fn view_of_end<'a, P: PageSource, A: Allocator>(
    alloc: &'a A,
    left: ScriptEnd<'a, P, A>,
    path: &[u8],
) -> Result<Vec<u8, &'a A>, AnswerFault>
    requires { is_path_word path.now ≡ true }
    ensures none { IfErr result (MayEnd (IsViewDenial
        (λ fault. (state : State)
        → Holds P.honest P.gives left.entry.document left.entry.tables state
        → IsViewFault state fault)
        (LacksNode (document_seen left.entry.document) (steps_of path.now))) IsNever) }
    ensures text { tables_honest P.honest left.entry.tables → IsMarked left.entry.document
        → IfOk result (λ text. (view : List ℕ)
        × IsDocumentView (document_seen left.entry.document) (steps_of path.now) view
        × (text.items ≡ view ++ left.entry.refused.items)) }
{
    let ScriptEnd {
        document,
        mut tables,
        refused,
    } = left;
    let mut text = document_view(alloc, &document, path, &mut tables)?;
    match write_text(&mut text, refused.as_slice()) {
        Ok(()) => Ok(text),
        Err(_) => Err(AnswerFault::Denied(RequestFault::Refused(Refusal::OutOfMemory))),
    }
}

/// The view at a path of the document that a script leaves, then its refused lines; over all files of a store.
pub fn view_of<'a, S: TableStore, A: Allocator>(
    alloc: &'a A,
    path: &[u8],
    script: &[u8],
    store: &mut S,
    pages: Option<u16>,
) -> Result<Vec<u8, &'a A>, AnswerFault>
    requires pages { IfSome pages (λ n. (1 ≤ n) × (n ≤ 4096)) }
    requires path { is_path_word path.now ≡ true }
    ensures text { ((c : AClass) → S.honest store.old true c)
        → IfOk result (λ text.
        OverStore (S.headers store.old) (S.faults store.old)
        (IsViewOver script.now (steps_of path.now) text.items)) }
    ensures none { IfErr result
        (MayEnd (λ d. IsOfTables (S.headers store.old) (S.faults store.old) d ⊎ IsViewDenial
        (λ fault. ((c : AClass) → S.honest store.old true c)
        → OverStore (S.headers store.old) (S.faults store.old) (IsValueFaultOver script.now fault))
        (((c : AClass) → S.honest store.old true c)
        → OverStore (S.headers store.old) (S.faults store.old)
        (LacksNodeOver script.now (steps_of path.now)))
        d) (IsUnread script.now)) }
{
    match open_tables(alloc, store, pages) {
        Err(denial) => Err(AnswerFault::Denied(denial)),
        Ok(tables) => match run_to_end(alloc, script, tables, store) {
            Err(fault) => Err(AnswerFault::Stopped(fault)),
            Ok(left) => view_of_end(alloc, left, path),
        },
    }
}
