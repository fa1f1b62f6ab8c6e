//! What a line adds to a report.
ghost use Rattle.std.specs.Prelude.{◌≡◌, ◌<◌, ◌+◌, ◌⊎◌, suc, false, List, ◌++◌, IfOk, IfErr, codes};
ghost use Rattle.std.specs.Io.KnownBytes.{Appends};
ghost use Rattle.study_marks.specs.Edits.{PlainStudy};
ghost use Rattle.study_reply.specs.Names.{words_of};
ghost use Rattle.study_reply.specs.Replied.{error_text};
ghost use Rattle.study_reply.specs.Words.{reply_line};
ghost use Rattle.study_script.specs.declared.running.RunFault.TheVariants.{WriteDevice, OutOfMemory};
ghost use Rattle.study_command.specs.Documents.{study};
ghost use Rattle.study_script.specs.State.{State};
ghost use Rattle.study_script.specs.SessionHolds.{Holds, document_seen};
ghost use Rattle.study_script.specs.Session.{SessionHolds};
ghost use Rattle.study_script.specs.Stores.{HonestOn, IsTrusted};
ghost use Rattle.study_report.specs.Reported.{Point, line_kind, IsAdded, IsAddedAs, IsAt, IsStudyReported, lacks_study, entry_count};
ghost use Rattle.study_report.specs.Remarks.{remark_outcome};
ghost use Rattle.study_report.specs.Reported.{Entry, entry_at, games_in, listed_in};
ghost use Rattle.study_report.specs.Written.{none_trusted, Adds, StopsIn, Stops};
ghost use Rattle.study_entry.specs.declared.entry.EntryInfo.{EntryInfo as AnEntry};
ghost use Rattle.study_report.specs.Parts.{IsPart, IsPartAs, WritesPart, IsNext, IsNextAs};

use crate::line_kind::{LineKind, kind_of};
use crate::line_outcome::{LineOutcome, ReportPosition};
use crate::remarks::remark_outcome;
use crate::report::Report;
use crate::section::{add_section, lacks_study};
use std::alloc::Allocator;
use std::io::Write;
use study_entry::EntryInfo;
use study_facts::{ReviewFault, WriteFault};
use study_reply::{LineRefusal, Refusal, of_probe};
use study_script::{Document, RunFault, Session, TableStore, Tables};
use study_tablefile::PageSource;

/// Reports a refused line.
fn add_refusal<'a, 'b, A: Allocator, B: Allocator, W: Write, T: Report>(
    alloc: &'a A,
    report: &mut T,
    number: u32,
    line: &[u8],
    refused: &LineRefusal<'b, B>,
    out: &mut W,
) -> Result<LineOutcome, RunFault>
    ensures ok { IfOk result (λ reported. (reported ≡ LineOutcome.Refusal)
        × Appends (W.contents out.old) (W.contents out.new)
        (T.refusal number line.now (error_text refused.now))) }
    ensures err { IfErr result
        (StopsIn (T.refusal number line.now (error_text refused.now))
        (W.contents out.old) (W.contents out.new)) }
    ensures listed { (reported : List Entry) → T.lists report.old reported
        → T.lists report.new reported }
    ensures stops { IfErr result (λ e. (e ≡ WriteDevice) ⊎ (e ≡ OutOfMemory)) }
{
    match report.add_refusal(alloc, number, line, refused, out) {
        Ok(()) => Ok(LineOutcome::Refusal),
        Err(WriteFault::OutOfMemory) => Err(RunFault::OutOfMemory),
        Err(WriteFault::Device) => Err(RunFault::WriteDevice),
    }
}

/// Reports a line that the report itself refuses.
fn refuse_line<'a, A: Allocator, W: Write, T: Report>(
    alloc: &'a A,
    report: &mut T,
    number: u32,
    line: &[u8],
    refusal: Refusal,
    out: &mut W,
) -> Result<LineOutcome, RunFault>
    ensures ok { IfOk result (λ reported. (reported ≡ LineOutcome.Refusal)
        × Appends (W.contents out.old) (W.contents out.new)
        (T.refusal number line.now (reply_line (codes "error ") (words_of refusal)))) }
    ensures err { IfErr result
        (StopsIn (T.refusal number line.now (reply_line (codes "error ") (words_of refusal)))
        (W.contents out.old) (W.contents out.new)) }
    ensures listed { (reported : List Entry) → T.lists report.old reported
        → T.lists report.new reported }
    ensures stops { IfErr result (λ e. (e ≡ WriteDevice) ⊎ (e ≡ OutOfMemory)) }
{
    let refused: LineRefusal<'a, A> = LineRefusal::Line(refusal);
    add_refusal(alloc, report, number, line, &refused, out)
}

/// Shows a remark; a game that is left out is the entry with this number.
fn add_remark<'a, A: Allocator, W: Write, T: Report>(
    alloc: &'a A,
    report: &mut T,
    number: u32,
    line: &[u8],
    out: &mut W,
) -> Result<LineOutcome, RunFault>
    ensures ok { IfOk result (λ reported. (reported ≡ remark_outcome line.now)
        × Appends (W.contents out.old) (W.contents out.new) (T.remark number line.now)) }
    ensures err { IfErr result
        (StopsIn (T.remark number line.now) (W.contents out.old) (W.contents out.new)) }
    ensures listed { (reported : List Entry) → T.lists report.old reported
        → IfOk result (λ t. T.lists report.new (reported ++ games_in number line.now)) }
    ensures unlisted { (reported : List Entry) → T.lists report.old reported
        → IfErr result (λ e. T.lists report.new reported) }
    ensures stops { IfErr result (λ e. (e ≡ WriteDevice) ⊎ (e ≡ OutOfMemory)) }
{
    match report.add_remark(alloc, number, line, out) {
        Ok(()) => Ok(remark_outcome(line)),
        Err(WriteFault::OutOfMemory) => Err(RunFault::OutOfMemory),
        Err(WriteFault::Device) => Err(RunFault::WriteDevice),
    }
}

/// Answers a line that reports nothing if it is accepted.
fn answer_silently<'a, 's, S: TableStore, A: Allocator, W: Write, T: Report>(
    session: &mut Session<'a, 's, S, A>,
    report: &mut T,
    number: u32,
    line: &[u8],
    out: &mut W,
) -> Result<LineOutcome, RunFault>
    ensures ok { (p : Point) → IsTrusted none_trusted line.now →
        SessionHolds S.Pages.honest S.Pages.gives
        (HonestOn none_trusted S.honest) S.files S.headers S.faults
        session.old.document session.old.tables session.old.store.now p.state
        → number ≡ suc p.lines
        → IfOk result (Adds (IsAddedAs T.tells T.refusal T.remark LineKind.Checked p line.now)
        (SessionHolds S.Pages.honest S.Pages.gives
        (HonestOn none_trusted S.honest) S.files S.headers S.faults
        session.new.document session.new.tables session.new.store.now)
        (W.contents out.old) (W.contents out.new)) }
    ensures err { (p : Point) → IsTrusted none_trusted line.now →
        SessionHolds S.Pages.honest S.Pages.gives
        (HonestOn none_trusted S.honest) S.files S.headers S.faults
        session.old.document session.old.tables session.old.store.now p.state
        → number ≡ suc p.lines
        → IfErr result
        (Stops (IsAddedAs T.tells T.refusal T.remark LineKind.Checked p line.now)
        (W.contents out.old) (W.contents out.new)) }
    ensures listed { (reported : List Entry) → T.lists report.old reported
        → T.lists report.new reported }
    ensures none_reported { IfOk result (λ t. entry_count t ≡ 0) }
    ensures written { (next : AnEntry)
        → IfOk result
        (WritesPart (IsPartAs T.form T.refusal T.remark LineKind.Checked number next
        (document_seen session.old.document) line.now)
        (W.contents out.old) (W.contents out.new)) }
    ensures document { IfOk result (λ t.
        IsNextAs LineKind.Checked (document_seen session.old.document) line.now t
        (document_seen session.new.document)) }
    ensures stops { IfErr result (λ e. (e ≡ WriteDevice) ⊎ (e ≡ OutOfMemory)) }
{
    match session.execute_apart(line) {
        Ok(_) => Ok(LineOutcome::Nothing),
        Err(refused) => add_refusal(session.alloc, report, number, line, &refused, out),
    }
}

/// Reports the study in the document, after so many entries; if that cannot be done, the line is refused. No PGN is made.
fn report_study<'a, P: PageSource, A: Allocator, W: Write, T: Report>(
    alloc: &'a A,
    document: &Document<'a, A>,
    tables: &mut Tables<'a, P, A>,
    report: &mut T,
    at: ReportPosition,
    line: &[u8],
    out: &mut W,
) -> Result<LineOutcome, RunFault>
    requires few { at.entries < 100000 }
    requires here { lacks_study (document_seen document.now) ≡ false }
    ensures ok { (p : Point) (s : State) (plain : PlainStudy)
        → Holds P.honest P.gives document.now tables.old s → s.document ≡ study plain
        → IsAt p at
        → IfOk result (Adds (IsStudyReported T.tells T.refusal T.remark p s line.now) (λ t. (t ≡ s)
        × Holds P.honest P.gives document.now tables.new t)
        (W.contents out.old) (W.contents out.new)) }
    ensures err { (p : Point) (s : State) (plain : PlainStudy)
        → Holds P.honest P.gives document.now tables.old s → s.document ≡ study plain
        → IsAt p at
        → IfErr result
        (Stops (IsStudyReported T.tells T.refusal T.remark p s line.now)
        (W.contents out.old) (W.contents out.new)) }
    ensures listed { (s : State) (reported : List Entry)
        → Holds P.honest P.gives document.now tables.old s → T.lists report.old reported
        → IfOk result (λ t.
        T.lists report.new (reported ++ listed_in line.now t s.document (entry_at at))) }
    ensures unlisted { (reported : List Entry) → T.lists report.old reported
        → IfErr result (λ e. T.lists report.new reported) }
    ensures written { IfOk result
        (WritesPart
        (IsPartAs T.form T.refusal T.remark LineKind.Study at.line (entry_at at)
        (document_seen document.now) line.now)
        (W.contents out.old) (W.contents out.new)) }
    ensures stops { IfErr result (λ e. (e ≡ WriteDevice) ⊎ (e ≡ OutOfMemory)) }
{
    let info = EntryInfo {
        number: at.entries + 1,
        origin: at.unread.own,
    };
    match add_section(alloc, document, tables, report, info, out) {
        Ok(()) => Ok(LineOutcome::Study),
        Err(ReviewFault::Device) => Err(RunFault::WriteDevice),
        Err(ReviewFault::OutOfMemory) => {
            refuse_line(alloc, report, at.line, line, Refusal::OutOfMemory, out)
        }
        Err(ReviewFault::Values(fault)) => {
            refuse_line(alloc, report, at.line, line, of_probe(fault), out)
        }
    }
}

/// Answers a line that reports the study if it is accepted, after so many entries.
fn add_pgn<'a, 's, S: TableStore, A: Allocator, W: Write, T: Report>(
    session: &mut Session<'a, 's, S, A>,
    report: &mut T,
    at: ReportPosition,
    line: &[u8],
    out: &mut W,
) -> Result<LineOutcome, RunFault>
    requires few { at.entries < 100000 }
    ensures ok { (p : Point) → line_kind line.now ≡ LineKind.Study →
        SessionHolds S.Pages.honest S.Pages.gives
        (HonestOn none_trusted S.honest) S.files S.headers S.faults
        session.old.document session.old.tables session.old.store.now p.state
        → IsAt p at
        → IfOk result (Adds (IsAddedAs T.tells T.refusal T.remark LineKind.Study p line.now)
        (SessionHolds S.Pages.honest S.Pages.gives
        (HonestOn none_trusted S.honest) S.files S.headers S.faults
        session.new.document session.new.tables session.new.store.now)
        (W.contents out.old) (W.contents out.new)) }
    ensures err { (p : Point) → line_kind line.now ≡ LineKind.Study →
        SessionHolds S.Pages.honest S.Pages.gives
        (HonestOn none_trusted S.honest) S.files S.headers S.faults
        session.old.document session.old.tables session.old.store.now p.state
        → IsAt p at
        → IfErr result
        (Stops (IsAddedAs T.tells T.refusal T.remark LineKind.Study p line.now)
        (W.contents out.old) (W.contents out.new)) }
    ensures listed { (p : Point) (reported : List Entry) → line_kind line.now ≡ LineKind.Study →
        SessionHolds S.Pages.honest S.Pages.gives
        (HonestOn none_trusted S.honest) S.files S.headers S.faults
        session.old.document session.old.tables session.old.store.now p.state
        → T.lists report.old reported
        → IfOk result (λ t.
        T.lists report.new
        (reported ++ listed_in line.now t (document_seen session.new.document) (entry_at at))) }
    ensures unlisted { (reported : List Entry) → T.lists report.old reported
        → IfErr result (λ e. T.lists report.new reported) }
    ensures written { IfOk result
        (WritesPart
        (IsPartAs T.form T.refusal T.remark LineKind.Study at.line (entry_at at)
        (document_seen session.old.document) line.now)
        (W.contents out.old) (W.contents out.new)) }
    ensures document { session.new.document ≡ session.old.document }
    ensures stops { IfErr result (λ e. (e ≡ WriteDevice) ⊎ (e ≡ OutOfMemory)) }
{
    if lacks_study(&session.document) {
        return refuse_line(session.alloc, report, at.line, line, Refusal::NoStudy, out);
    }
    report_study(
        session.alloc,
        &session.document,
        &mut session.tables,
        report,
        at,
        line,
        out,
    )
}

/// Processes the line at this place.
pub fn add_line<'a, 's, S: TableStore, A: Allocator, W: Write, T: Report>(
    session: &mut Session<'a, 's, S, A>,
    report: &mut T,
    at: ReportPosition,
    line: &[u8],
    out: &mut W,
) -> Result<LineOutcome, RunFault>
    requires few { at.entries < 100000 }
    ensures ok { (p : Point) →
        SessionHolds S.Pages.honest S.Pages.gives
        (HonestOn none_trusted S.honest) S.files S.headers S.faults
        session.old.document session.old.tables session.old.store.now p.state
        → IsAt p at
        → IfOk result (Adds (IsAdded T.tells T.refusal T.remark p line.now)
        (SessionHolds S.Pages.honest S.Pages.gives
        (HonestOn none_trusted S.honest) S.files S.headers S.faults
        session.new.document session.new.tables session.new.store.now)
        (W.contents out.old) (W.contents out.new)) }
    ensures err { (p : Point) →
        SessionHolds S.Pages.honest S.Pages.gives
        (HonestOn none_trusted S.honest) S.files S.headers S.faults
        session.old.document session.old.tables session.old.store.now p.state
        → IsAt p at
        → IfErr result
        (Stops (IsAdded T.tells T.refusal T.remark p line.now)
        (W.contents out.old) (W.contents out.new)) }
    ensures listed { (p : Point) (reported : List Entry) →
        SessionHolds S.Pages.honest S.Pages.gives
        (HonestOn none_trusted S.honest) S.files S.headers S.faults
        session.old.document session.old.tables session.old.store.now p.state
        → T.lists report.old reported
        → IfOk result (λ t.
        T.lists report.new
        (reported ++ listed_in line.now t (document_seen session.new.document) (entry_at at))) }
    ensures unlisted { (reported : List Entry) → T.lists report.old reported
        → IfErr result (λ e. T.lists report.new reported) }
    ensures written { IfOk result
        (WritesPart (IsPart T.form T.refusal T.remark at.line (entry_at at)
        (document_seen session.old.document) line.now)
        (W.contents out.old) (W.contents out.new)) }
    ensures document { IfOk result (λ t.
        IsNext (document_seen session.old.document) line.now t
        (document_seen session.new.document)) }
    ensures stops { IfErr result (λ e. (e ≡ WriteDevice) ⊎ (e ≡ OutOfMemory)) }
{
    match kind_of(line) {
        LineKind::Remark => add_remark(session.alloc, report, at.entries + 1, line, out),
        LineKind::PassedOver => Ok(LineOutcome::Nothing),
        LineKind::NoClass => refuse_line(
            session.alloc,
            report,
            at.line,
            line,
            Refusal::NotAClass,
            out,
        ),
        LineKind::Study => add_pgn(session, report, at, line, out),
        LineKind::Checked => answer_silently(session, report, at.line, line, out),
    }
}
