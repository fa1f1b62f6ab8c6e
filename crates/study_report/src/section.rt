//! The section of an accepted `pgn` line.
ghost use Rattle.std.specs.Prelude.{◌≡◌, ℕ, false, List, [], ◌∷◌, ◌++◌, Err, OnOk, OnErr};
ghost use Rattle.std.specs.Io.KnownBytes.{Appends};
ghost use Rattle.study_material.specs.declared.class.Class.{Class as AClass};
ghost use Rattle.study_values.specs.declared.fault.SourceFault.{SourceFault as ASourceFault};
ghost use Rattle.study_text.specs.Taken.{TakesPrefix};
ghost use Rattle.study_values.specs.declared.values.ProbeFault.{ProbeFault as AProbeFault};
ghost use Rattle.study_marks.specs.Edits.{PlainStudy};
ghost use Rattle.study_marks.specs.BenchState.{marked_study, IsKeptRight};
ghost use Rattle.study_marks.specs.Study.{plain_study};
ghost use Rattle.study_command.specs.Documents.{study};
ghost use Rattle.study_script.specs.State.{State};
ghost use Rattle.study_script.specs.SessionHolds.{Holds, document_seen, tables_honest, tables_held, tables_may_fail, are_paged};
ghost use Rattle.study_report.specs.Reported.{IsValueFaultBy, IsValueFaultIn, lacks_study, Entry, study_entry, studies_on};
ghost use Rattle.study_report.specs.Written.{IsSection, IsSectionPart};

use crate::report::Report;
use std::alloc::Allocator;
use std::io::Write;
use study_entry::EntryInfo;
use study_facts::ReviewFault;
use study_marks::Bench;
use study_script::{Document, Tables};
use study_tablefile::PageSource;
use study_values::Values;

/// Reports the study on the bench as this entry, by whole tables or by pages.
pub fn add_study<'a, P: PageSource, A: Allocator, W: Write, T: Report>(
    alloc: &'a A,
    bench: &Bench<'a, A>,
    tables: &mut Tables<'a, P, A>,
    report: &mut T,
    info: EntryInfo,
    out: &mut W,
) -> Result<(), ReviewFault>
    // Many clauses: what is reported, why nothing is, and what stays of the tables.
    ensures reported { tables_honest P.honest tables.old → IsKeptRight bench.now
        → OnOk result ((text : List ℕ)
        × T.tells (plain_study (marked_study bench.now)) info text
        × Appends (W.contents out.old) (W.contents out.new) text) }
    ensures formed { OnOk result ((text : List ℕ)
        × T.form (plain_study (marked_study bench.now)) info text
        × Appends (W.contents out.old) (W.contents out.new) text) }
    ensures device { tables_honest P.honest tables.old → IsKeptRight bench.now
        → result ≡ Err ReviewFault.Device → (text : List ℕ)
        × T.tells (plain_study (marked_study bench.now)) info text
        × TakesPrefix (W.contents out.old) (W.contents out.new) text }
    ensures memory { result ≡ Err ReviewFault.OutOfMemory → out.new ≡ out.old }
    ensures no_value { (fault : AProbeFault)
        → result ≡ Err (ReviewFault.Values fault) → out.new ≡ out.old }
    ensures listed { (reported : List Entry) → tables_honest P.honest tables.old
        → IsKeptRight bench.now → T.lists report.old reported
        → OnOk result
        (T.lists report.new (reported ++ study_entry (plain_study (marked_study bench.now)) info ∷ [])) }
    ensures unlisted { (reported : List Entry) → T.lists report.old reported
        → OnErr result (T.lists report.new reported) }
    ensures why { (fault : AProbeFault) → tables_honest P.honest tables.old
        → result ≡ Err (ReviewFault.Values fault)
        → IsValueFaultBy (tables_held tables.old) (are_paged tables.old)
        (tables_may_fail P.gives tables.old) (marked_study bench.now).start.position fault }
    ensures honest { tables_honest P.honest tables.old → tables_honest P.honest tables.new }
    ensures tables { (c : AClass) → tables_held tables.new c ≡ tables_held tables.old c }
    ensures fails_as_before { (c : AClass) (f : ASourceFault)
        → tables_may_fail P.gives tables.new c f → tables_may_fail P.gives tables.old c f }
    ensures mode { are_paged tables.new ≡ are_paged tables.old }
{
    let first = bench.start();
    match tables {
        Tables::Whole(tables) => report.add_study(alloc, bench, tables, info, out),
        Tables::Paged(tables) => report.add_study(alloc, bench, tables, info, out),
    }
}

/// Reports the study in the document as this entry.
pub fn add_section<'a, P: PageSource, A: Allocator, W: Write, T: Report>(
    alloc: &'a A,
    document: &Document<'a, A>,
    tables: &mut Tables<'a, P, A>,
    report: &mut T,
    info: EntryInfo,
    out: &mut W,
) -> Result<(), ReviewFault>
    ensures reported { (s : State) → Holds P.honest P.gives document.now tables.old s
        → OnOk result
        (IsSection T.tells s.document info (W.contents out.old) (W.contents out.new)) }
    ensures formed { lacks_study (document_seen document.now) ≡ false
        → OnOk result ((plain : PlainStudy) × (text : List ℕ)
        × (document_seen document.now ≡ study plain) × T.form plain info text
        × Appends (W.contents out.old) (W.contents out.new) text) }
    ensures device { (s : State) → Holds P.honest P.gives document.now tables.old s
        → result ≡ Err ReviewFault.Device
        → IsSectionPart T.tells s.document info (W.contents out.old) (W.contents out.new) }
    ensures memory { result ≡ Err ReviewFault.OutOfMemory → out.new ≡ out.old }
    ensures no_value { (fault : AProbeFault)
        → result ≡ Err (ReviewFault.Values fault) → out.new ≡ out.old }
    ensures listed { (s : State) (reported : List Entry)
        → Holds P.honest P.gives document.now tables.old s → T.lists report.old reported
        → OnOk result (T.lists report.new (reported ++ studies_on s.document info)) }
    ensures unlisted { (reported : List Entry) → T.lists report.old reported
        → OnErr result (T.lists report.new reported) }
    ensures why { (s : State) (plain : PlainStudy) (fault : AProbeFault)
        → Holds P.honest P.gives document.now tables.old s → s.document ≡ study plain
        → result ≡ Err (ReviewFault.Values fault) → IsValueFaultIn s plain.start.position fault }
    ensures holds { (s : State) → Holds P.honest P.gives document.now tables.old s
        → Holds P.honest P.gives document.now tables.new s }
{
    match document {
        Document::Study(bench) => add_study(alloc, bench, tables, report, info, out),
        Document::Empty => Ok(()),
        Document::Start(_) => Ok(()),
    }
}

/// Whether there is no study in the document.
pub fn lacks_study<'a, A: Allocator>(document: &Document<'a, A>) -> bool
    ensures { result ≡ lacks_study (document_seen document.now) }
{
    match document {
        Document::Study(_) => false,
        Document::Empty => true,
        Document::Start(_) => true,
    }
}
