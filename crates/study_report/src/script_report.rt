//! A report over a whole script.
ghost use Rattle.std.specs.Prelude.{◌≡◌, List, ◌++◌, IfSome, IfErr, OnOk};
ghost use Rattle.study_material.specs.declared.class.Class.{Class as AClass};
ghost use Rattle.study_command.specs.Documents.{empty as no_document};
ghost use Rattle.study_script.specs.State.{State, is_among};
ghost use Rattle.study_script.specs.SessionHolds.{tables_honest, tables_held, are_paged, document_seen};
ghost use Rattle.study_script.specs.Session.{SessionHolds};
ghost use Rattle.study_script.specs.Stores.{HonestOn};
ghost use Rattle.study_report.specs.Outcome.{IsFollowed, AreListed, AreListedBefore, Outcome, Shape, over_tables};
ghost use Rattle.study_report.specs.Parts.{Fits};
ghost use Rattle.study_report.specs.Reported.{Entry};
ghost use Rattle.study_report.specs.Written.{none_trusted};

use crate::line_outcome::ReportPosition;
use crate::no_files::NoFiles;
use crate::report::Report;
use crate::report_line::add_line;
use crate::unread_line::{Unread, unread_after};
use std::alloc::Allocator;
use std::io::{Read, Write};
use study_command::{Line, LineFault, read_byte};
use study_script::{Document, RunFault, Session, Summary, TableStore, Tables};
use study_tablefile::PageSource;

/// Follows a script from a session's state, and reports its studies and its refused lines. The session has the script's final state. Studies are kept
/// apart, whatever the session's setting: after a refused `position` there is no study for the next lines to edit.
pub fn report_session<'a, 's, R: Read, W: Write, S: TableStore, A: Allocator, T: Report>(
    line: &mut Line<'_, A>,
    script: &mut R,
    out: &mut W,
    report: &mut T,
    session: &mut Session<'a, 's, S, A>,
) -> Result<Summary, RunFault>
    ensures outcome { (first : State)
        → SessionHolds S.Pages.honest S.Pages.gives
        (HonestOn none_trusted S.honest) S.files S.headers S.faults
        session.old.document session.old.tables
        session.old.store.now first
        → IfSome (R.remaining script.old)
        (λ bytes.
        Outcome T.tells T.refusal T.remark first bytes (R.remaining script.new) (W.contents out.old)
        (W.contents out.new) result) }
    ensures after { (first : State)
        → SessionHolds S.Pages.honest S.Pages.gives
        (HonestOn none_trusted S.honest) S.files S.headers S.faults
        session.old.document session.old.tables
        session.old.store.now first
        → OnOk result (IfSome (R.remaining script.old) (λ bytes.
        IsFollowed T.tells T.refusal T.remark first bytes (W.contents out.old) (W.contents out.new)
        (SessionHolds S.Pages.honest S.Pages.gives
        (HonestOn none_trusted S.honest) S.files S.headers S.faults
        session.new.document session.new.tables session.new.store.now))) }
    ensures listed { (first : State) (reported : List Entry)
        → SessionHolds S.Pages.honest S.Pages.gives (HonestOn none_trusted S.honest)
        S.files S.headers S.faults session.old.document session.old.tables
        session.old.store.now first
        → T.lists report.old reported
        → OnOk result (IfSome (R.remaining script.old) (λ bytes.
        AreListed T.tells T.refusal T.remark first bytes (W.contents out.old) (W.contents out.new)
        (λ more. T.lists report.new (reported ++ more)))) }
    ensures listed_before { (first : State) (reported : List Entry)
        → SessionHolds S.Pages.honest S.Pages.gives (HonestOn none_trusted S.honest)
        S.files S.headers S.faults session.old.document session.old.tables
        session.old.store.now first
        → T.lists report.old reported
        → IfErr result (λ fault.
        IfSome (R.remaining script.old) (λ bytes.
        AreListedBefore T.tells T.refusal T.remark first bytes
        (W.contents out.old) (W.contents out.new) (λ more.
        T.lists report.new (reported ++ more)) fault)) }
    ensures shape { IfSome (R.remaining script.old) (λ bytes.
        Shape bytes (R.remaining script.new) result) }
    ensures fits { IfSome (R.remaining script.old) (λ bytes.
        Fits T.form T.refusal T.remark (document_seen session.old.document) bytes
        (R.remaining script.new)
        (W.contents out.old) (W.contents out.new) result) }
{
    let mut refused = 0u32;
    let mut entries = 0u32;
    let mut unread = Unread::none();
    for n in 0..100_000u32 {
        match line.read(script) {
            Err(LineFault::Device) => return Err(RunFault::ReadDevice),
            Err(LineFault::TooLong) => return Err(RunFault::LineTooLong(n + 1)),
            Ok(false) => return Ok(Summary { lines: n, refused }),
            Ok(true) => {}
        }
        let at = ReportPosition {
            line: n + 1,
            entries,
            unread,
        };
        match add_line(session, report, at, line.as_slice(), out) {
            Err(fault) => return Err(fault),
            Ok(reported) => {
                entries += reported.entries();
                refused += reported.refusals();
                let next = unread_after(&unread, n + 1, line.as_slice(), reported);
                unread = next;
            }
        }
    }
    match read_byte(script) {
        Err(_) => Err(RunFault::ReadDevice),
        Ok(None) => Ok(Summary {
            lines: 100_000,
            refused,
        }),
        Ok(Some(_)) => Err(RunFault::TooManyLines),
    }
}

/// Follows a script over these tables, from an empty document.
pub fn write_report<'a, R: Read, W: Write, P: PageSource, A: Allocator, T: Report>(
    alloc: &'a A,
    script: &mut R,
    out: &mut W,
    report: &mut T,
    tables: Tables<'a, P, A>,
) -> Result<Summary, RunFault>
    ensures outcome { (classes : List AClass) → tables_honest P.honest tables.entry
        → ((c : AClass) → tables_held tables.entry c ≡ is_among classes c)
        → IfSome (R.remaining script.old)
        (λ bytes.
        Outcome T.tells T.refusal T.remark
        (over_tables classes (are_paged tables.entry)) bytes (R.remaining script.new)
        (W.contents out.old) (W.contents out.new) result) }
    ensures listed { (classes : List AClass) (reported : List Entry)
        → tables_honest P.honest tables.entry
        → ((c : AClass) → tables_held tables.entry c ≡ is_among classes c)
        → T.lists report.old reported
        → OnOk result (IfSome (R.remaining script.old) (λ bytes.
        AreListed T.tells T.refusal T.remark (over_tables classes (are_paged tables.entry)) bytes
        (W.contents out.old) (W.contents out.new)
        (λ more. T.lists report.new (reported ++ more)))) }
    ensures listed_before { (classes : List AClass) (reported : List Entry)
        → tables_honest P.honest tables.entry
        → ((c : AClass) → tables_held tables.entry c ≡ is_among classes c)
        → T.lists report.old reported
        → IfErr result (λ fault.
        IfSome (R.remaining script.old) (λ bytes.
        AreListedBefore T.tells T.refusal T.remark (over_tables classes (are_paged
        tables.entry))
        bytes (W.contents out.old) (W.contents out.new) (λ more.
        T.lists report.new (reported ++ more)) fault)) }
    ensures shape { IfSome (R.remaining script.old) (λ bytes.
        Shape bytes (R.remaining script.new) result) }
    ensures fits { IfSome (R.remaining script.old) (λ bytes.
        Fits T.form T.refusal T.remark no_document bytes (R.remaining script.new)
        (W.contents out.old) (W.contents out.new) result) }
{
    let mut store = NoFiles::new();
    write_report_over(alloc, script, out, report, tables, &mut store)
}

/// The same over a store, of which no file is opened; the files known to it determine with which faults these tables may fail.
pub fn write_report_over<'a, R: Read, W: Write, S: TableStore, A: Allocator, T: Report>(
    alloc: &'a A,
    script: &mut R,
    out: &mut W,
    report: &mut T,
    tables: Tables<'a, S::Pages, A>,
    store: &mut S,
) -> Result<Summary, RunFault>
    ensures outcome { (first : State)
        → SessionHolds S.Pages.honest S.Pages.gives
        (HonestOn none_trusted S.honest) S.files S.headers S.faults
        Document.Empty tables.entry store.old first
        → IfSome (R.remaining script.old)
        (λ bytes.
        Outcome T.tells T.refusal T.remark first bytes (R.remaining script.new) (W.contents out.old)
        (W.contents out.new) result) }
    ensures listed { (first : State) (reported : List Entry)
        → SessionHolds S.Pages.honest S.Pages.gives (HonestOn none_trusted S.honest)
        S.files S.headers S.faults Document.Empty tables.entry store.old first
        → T.lists report.old reported
        → OnOk result (IfSome (R.remaining script.old) (λ bytes.
        AreListed T.tells T.refusal T.remark first bytes (W.contents out.old) (W.contents out.new)
        (λ more. T.lists report.new (reported ++ more)))) }
    ensures listed_before { (first : State) (reported : List Entry)
        → SessionHolds S.Pages.honest S.Pages.gives (HonestOn none_trusted S.honest)
        S.files S.headers S.faults Document.Empty tables.entry store.old first
        → T.lists report.old reported
        → IfErr result (λ fault.
        IfSome (R.remaining script.old) (λ bytes.
        AreListedBefore T.tells T.refusal T.remark first bytes
        (W.contents out.old) (W.contents out.new) (λ more.
        T.lists report.new (reported ++ more)) fault)) }
    ensures shape { IfSome (R.remaining script.old) (λ bytes.
        Shape bytes (R.remaining script.new) result) }
    ensures fits { IfSome (R.remaining script.old) (λ bytes.
        Fits T.form T.refusal T.remark no_document bytes (R.remaining script.new)
        (W.contents out.old) (W.contents out.new) result) }
{
    let Ok(mut line) = Line::new(alloc) else {
        return Err(RunFault::OutOfMemory);
    };
    let mut session = Session {
        alloc,
        document: Document::Empty,
        tables,
        store,
        separate: true,
    };
    report_session(&mut line, script, out, report, &mut session)
}
