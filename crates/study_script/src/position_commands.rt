//! Starts and stipulations: `position`, `shift` and `stipulate`.
ghost use Rattle.std.specs.Prelude.{◌≡◌, Some, Ok};
ghost use Rattle.study_reply.specs.declared.reply.Reply.TheVariants as reply;
ghost use Rattle.study_marks.specs.Edits.{shift_refusal, with_stipulation};
ghost use Rattle.study_command.specs.Documents.{study, start as begun, new_study, after_position, after_shift};
ghost use Rattle.study_script.specs.State.{State};
ghost use Rattle.study_script.specs.Replies.{IsStartReply, IsPositionReply, IsShiftReply, IsStipulateReply};
ghost use Rattle.study_notation.specs.Fen.{start_of};
ghost use Rattle.study_script.specs.declared.document.Document.TheVariants as held;
ghost use Rattle.study_marks.specs.Study.{plain_study};
ghost use Rattle.study_marks.specs.BenchState.{marked_study, IsKeptRight};
ghost use Rattle.study_script.specs.SessionHolds.{Holds, bench_seen, document_seen};
ghost use Rattle.study_command.specs.Parser.{fen_command as fen_asked, stipulate as stipulate_asked};
ghost use Rattle.study_script.specs.Executed.{Executed, Leaves, LeavesRuled};

use crate::document::Document;
use crate::table_edits;
use crate::tables::Tables;
use std::alloc::Allocator;
use study_command::FenCommand;
use study_marks::{Bench, Stipulation};
use study_notation::{Start, read_fen};
use study_reply::{Answer, LineRefusal, Refusal, Reply};
use study_tablefile::PageSource;

/// `position` and `shift`.
pub fn fen_command<'a, P: PageSource, A: Allocator>(
    document: &mut Document<'a, A>,
    tables: &mut Tables<'a, P, A>,
    word: FenCommand,
    fen: &str,
) -> Answer<'a, A>
    ensures done { (s : State) → Holds P.honest P.gives document.old tables.old s
        → Executed (λ o. IsStartReply s o word s.document (start_of fen.now))
        (Holds P.honest P.gives document.new tables.new) result }
    ensures document { Leaves result (fen_asked word fen.now) (document_seen document.old) (document_seen document.new) }
{
    match word {
        FenCommand::Position => read_position(document, tables, fen),
        FenCommand::Shift => shift_document(document, tables, fen),
    }
}

fn read_position<'a, P: PageSource, A: Allocator>(
    document: &mut Document<'a, A>,
    tables: &mut Tables<'a, P, A>,
    fen: &str,
) -> Answer<'a, A>
    ensures done { (s : State) → Holds P.honest P.gives document.old tables.old s
        → Executed (λ o. IsStartReply s o FenCommand.Position s.document (start_of fen.now))
        (Holds P.honest P.gives document.new tables.new) result }
    ensures document { Leaves result (fen_asked FenCommand.Position fen.now)
        (document_seen document.old) (document_seen document.new) }
{
    match read_fen(fen) {
        Ok(start) => set_position(document, tables, start),
        Err(fault) => Err(LineRefusal::Line(Refusal::Fen(fault))),
    }
}

fn shift_document<'a, P: PageSource, A: Allocator>(
    document: &mut Document<'a, A>,
    tables: &mut Tables<'a, P, A>,
    fen: &str,
) -> Answer<'a, A>
    ensures done { (s : State) → Holds P.honest P.gives document.old tables.old s
        → Executed (λ o. IsStartReply s o FenCommand.Shift s.document (start_of fen.now))
        (Holds P.honest P.gives document.new tables.new) result }
    ensures document { Leaves result (fen_asked FenCommand.Shift fen.now) (document_seen document.old) (document_seen document.new) }
{
    match document {
        Document::Study(bench) => shift_study(bench, tables, fen),
        Document::Empty => Err(LineRefusal::Line(Refusal::NoStudy)),
        Document::Start(_) => Err(LineRefusal::Line(Refusal::NoStudy)),
    }
}

fn shift_study<'a, P: PageSource, A: Allocator>(
    bench: &mut Bench<'a, A>,
    tables: &mut Tables<'a, P, A>,
    fen: &str,
) -> Answer<'a, A>
    ensures done { (s : State) → Holds P.honest P.gives (held.Study bench.old) tables.old s
        → Executed (λ o.
        IsStartReply s o FenCommand.Shift
        (study (plain_study (marked_study bench.old))) (start_of fen.now))
        (Holds P.honest P.gives (held.Study bench.new) tables.new) result }
    ensures document { Leaves result (fen_asked FenCommand.Shift fen.now)
        (bench_seen bench.old) (bench_seen bench.new) }
{
    match read_fen(fen) {
        Ok(start) => shift(bench, tables, start),
        Err(fault) => Err(LineRefusal::Line(Refusal::Fen(fault))),
    }
}

fn set_position<'a, P: PageSource, A: Allocator>(
    document: &mut Document<'a, A>,
    tables: &mut Tables<'a, P, A>,
    start: Start,
) -> Answer<'a, A>
    ensures done { (s : State) → Holds P.honest P.gives document.old tables.old s
        → Executed (λ o. IsPositionReply s o s.document start)
        (Holds P.honest P.gives document.new tables.new) result }
    ensures document { LeavesRuled result
        (after_position (document_seen document.old) (Ok start))
        (document_seen document.old) (document_seen document.new) }
{
    match document {
        Document::Study(bench) => reposition(bench, tables, start),
        Document::Empty => Ok(set_bare_start(document, start)),
        Document::Start(_) => Ok(set_bare_start(document, start)),
    }
}

/// `position` without a study.
fn set_bare_start<'a, A: Allocator>(document: &mut Document<'a, A>, start: Start) -> Reply<'a, A>
    ensures held { document.new ≡ held.Start start }
    ensures reply { result ≡ reply.Position start }
{
    *document = Document::Start(start.copied());
    Reply::Position(start)
}

/// `position` with a study.
fn reposition<'a, P: PageSource, A: Allocator>(
    bench: &mut Bench<'a, A>,
    tables: &mut Tables<'a, P, A>,
    start: Start,
) -> Answer<'a, A>
    ensures done { (s : State) → Holds P.honest P.gives (held.Study bench.old) tables.old s
        → Executed (λ o. IsPositionReply s o (study (plain_study (marked_study bench.old))) start)
        (Holds P.honest P.gives (held.Study bench.new) tables.new) result }
    ensures document { LeavesRuled result (after_position (bench_seen bench.old) (Ok start))
        (bench_seen bench.old) (bench_seen bench.new) }
{
    match table_edits::set_position(bench, start.copied(), tables) {
        Ok(()) => Ok(Reply::Position(start)),
        Err(refusal) => Err(LineRefusal::Edit(refusal)),
    }
}

fn shift<'a, P: PageSource, A: Allocator>(
    bench: &mut Bench<'a, A>,
    tables: &mut Tables<'a, P, A>,
    start: Start,
) -> Answer<'a, A>
    ensures done { (s : State) → Holds P.honest P.gives (held.Study bench.old) tables.old s
        → Executed (λ o. IsShiftReply s o (plain_study (marked_study bench.old)) start
        (shift_refusal (plain_study (marked_study bench.old)) start))
        (Holds P.honest P.gives (held.Study bench.new) tables.new) result }
    ensures document { LeavesRuled result (after_shift (bench_seen bench.old) (Ok start))
        (bench_seen bench.old) (bench_seen bench.new) }
{
    match table_edits::shift_position(bench, start.copied(), tables) {
        Ok(()) => Ok(Reply::Shift(start)),
        Err(refusal) => Err(LineRefusal::Edit(refusal)),
    }
}

/// `stipulate` makes the study, or changes its stipulation.
pub fn stipulate<'a, P: PageSource, A: Allocator>(
    alloc: &'a A,
    document: &mut Document<'a, A>,
    tables: &mut Tables<'a, P, A>,
    stipulation: &Stipulation,
) -> Answer<'a, A>
    ensures done { (s : State) → Holds P.honest P.gives document.old tables.old s
        → Executed (λ o. IsStipulateReply s o s.document stipulation.now)
        (Holds P.honest P.gives document.new tables.new) result }
    ensures document { Leaves result (stipulate_asked stipulation.now) (document_seen document.old) (document_seen document.new) }
{
    match document {
        Document::Study(bench) => Ok(restipulate(bench, stipulation)),
        Document::Empty => Err(LineRefusal::Line(Refusal::NoPosition)),
        Document::Start(start) => {
            let start = start.copied();
            make_study(alloc, document, tables, start, stipulation)
        }
    }
}

fn restipulate<'a, A: Allocator>(
    bench: &mut Bench<'a, A>,
    stipulation: &Stipulation,
) -> Reply<'a, A>
    ensures edited { plain_study (marked_study bench.new)
        ≡ with_stipulation (plain_study (marked_study bench.old)) stipulation.now }
    ensures right { IsKeptRight bench.old → IsKeptRight bench.new }
    ensures reply { result ≡ reply.Stipulated stipulation.now }
{
    bench.set_stipulation(*stipulation);
    Reply::Stipulated(*stipulation)
}

fn make_study<'a, P: PageSource, A: Allocator>(
    alloc: &'a A,
    document: &mut Document<'a, A>,
    tables: &mut Tables<'a, P, A>,
    start: Start,
    stipulation: &Stipulation,
) -> Answer<'a, A>
    ensures done { (s : State) → Holds P.honest P.gives document.old tables.old s
        → Executed (λ o. IsStipulateReply s o (begun start) stipulation.now)
        (Holds P.honest P.gives document.new tables.new) result }
    ensures document { LeavesRuled result (Some (study (new_study start stipulation.now)))
        (document_seen document.old) (document_seen document.new) }
{
    match table_edits::new_bench(alloc, start, *stipulation, tables) {
        Ok(bench) => {
            *document = Document::Study(bench);
            Ok(Reply::Stipulated(*stipulation))
        }
        Err(refusal) => Err(LineRefusal::Edit(refusal)),
    }
}
