//! The sheet of a whole script.
ghost use Rattle.std.specs.Prelude.{◌≡◌, List, IfSome};
ghost use Rattle.study_material.specs.declared.class.Class.{Class as AClass};
ghost use Rattle.study_script.specs.State.{is_among};
ghost use Rattle.study_script.specs.SessionHolds.{tables_honest, tables_held, are_paged};
ghost use Rattle.study_report.specs.Outcome.{over_tables};
ghost use Rattle.study_html.specs.Frame.{page_closing};
ghost use Rattle.study_print.specs.Pages.{writer_failed, IsEnded, FileShape};
ghost use Rattle.study_sheet.specs.Sheet.{IsSheet, SheetFits};

use crate::sheet::Sheet;
use std::alloc::Allocator;
use std::io::{Read, Write};
use study_html::{write_closing, write_sheet_opening};
use study_report::write_report;
use study_script::{RunFault, Summary, Tables};
use study_tablefile::PageSource;

/// Whether the writer failed.
fn writer_failed(ran: &Result<Summary, RunFault>) -> bool
    ensures { result ≡ writer_failed ran.now }
{
    match ran {
        Err(RunFault::WriteDevice) => true,
        _ => false,
    }
}

/// Writes the part after the last place, unless the writer failed before.
fn write_end<W: Write>(ran: Result<Summary, RunFault>, out: &mut W) -> Result<Summary, RunFault>
    ensures { IsEnded page_closing (W.contents out.old) (W.contents out.new) ran result }
{
    if writer_failed(&ran) {
        return ran;
    }
    match write_closing(out) {
        Ok(()) => ran,
        Err(_) => Err(RunFault::WriteDevice),
    }
}

/// Follows a script over these tables, from an empty document, and writes a whole sheet.
///
/// If the run stops at a fault other than one of the writer, the part after the last place is written too.
pub fn write_sheet<'a, R: Read, W: Write, P: PageSource, A: Allocator>(
    alloc: &'a A,
    script: &mut R,
    out: &mut W,
    tables: Tables<'a, P, A>,
) -> Result<Summary, RunFault>
    ensures sheet { (classes : List AClass) → tables_honest P.honest tables.entry
        → ((c : AClass) → tables_held tables.entry c ≡ is_among classes c)
        → IfSome (R.remaining script.old)
        (λ bytes.
        IsSheet (over_tables classes (are_paged tables.entry)) bytes (R.remaining script.new)
        (W.contents out.old) (W.contents out.new) result) }
    ensures shape { IfSome (R.remaining script.old) (λ bytes.
        FileShape bytes (R.remaining script.new) result) }
    ensures fits { IfSome (R.remaining script.old)
        (λ bytes.
        SheetFits bytes (R.remaining script.new) (W.contents out.old) (W.contents out.new) result) }
{
    if write_sheet_opening(out).is_err() {
        return Err(RunFault::WriteDevice);
    }
    let ran = write_report(alloc, script, out, &mut Sheet, tables);
    write_end(ran, out)
}
