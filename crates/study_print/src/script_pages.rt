//! The printed report of a whole script.
ghost use Rattle.std.specs.Prelude.{◌≡◌, List, IfSome};
ghost use Rattle.study_material.specs.declared.class.Class.{Class as AClass};
ghost use Rattle.study_script.specs.declared.document.Document.TheVariants.{Empty};
ghost use Rattle.study_script.specs.State.{State, is_among};
ghost use Rattle.study_script.specs.SessionHolds.{tables_honest, tables_held, are_paged};
ghost use Rattle.study_script.specs.Session.{SessionHolds};
ghost use Rattle.study_script.specs.Stores.{HonestOn};
ghost use Rattle.study_report.specs.Outcome.{over_tables};
ghost use Rattle.study_report.specs.Written.{none_trusted};
ghost use Rattle.study_print.specs.Pages.{IsFile, FileShape, FileFits, IsWholeUnlessCut};

use crate::ending::write_ending;
use crate::pages::Pages;
use crate::watch::Watch;
use std::alloc::Allocator;
use std::io::{Read, Write};
use study_html::write_opening;
use study_report::{NoFiles, write_report_over};
use study_script::{RunFault, Summary, TableStore, Tables};
use study_tablefile::PageSource;

/// Follows a script over these tables, from an empty document, and writes a whole file of pages.
///
/// If the run stops at a fault other than one of the writer, the part after the last page is written too.
pub fn write_pages<'a, R: Read, W: Write, P: PageSource, A: Allocator, N: Watch>(
    alloc: &'a A,
    script: &mut R,
    out: &mut W,
    watch: N,
    tables: Tables<'a, P, A>,
) -> Result<Summary, RunFault>
    ensures file { (classes : List AClass) → tables_honest P.honest tables.entry
        → ((c : AClass) → tables_held tables.entry c ≡ is_among classes c)
        → IfSome (R.remaining script.old)
        (λ bytes.
        IsFile (over_tables classes (are_paged tables.entry)) bytes (R.remaining script.new)
        (W.contents out.old) (W.contents out.new) result) }
    ensures shape { IfSome (R.remaining script.old) (λ bytes.
        FileShape bytes (R.remaining script.new) result) }
    ensures fits { IfSome (R.remaining script.old)
        (λ bytes.
        FileFits bytes (R.remaining script.new) (W.contents out.old) (W.contents out.new) result) }
    ensures whole { IfSome (R.remaining script.old) (λ bytes.
        IsWholeUnlessCut (W.contents out.old) (W.contents out.new) result) }
{
    let mut store = NoFiles::new();
    write_pages_over(alloc, script, out, watch, tables, &mut store)
}

/// The same over a store, of which no file is opened; the files known to it determine with which faults these tables may fail.
pub fn write_pages_over<'a, R: Read, W: Write, S: TableStore, A: Allocator, N: Watch>(
    alloc: &'a A,
    script: &mut R,
    out: &mut W,
    watch: N,
    tables: Tables<'a, S::Pages, A>,
    store: &mut S,
) -> Result<Summary, RunFault>
    ensures file { (first : State)
        → SessionHolds S.Pages.honest S.Pages.gives
        (HonestOn none_trusted S.honest) S.files S.headers S.faults
        Empty tables.entry store.old first
        → IfSome (R.remaining script.old)
        (λ bytes.
        IsFile first bytes (R.remaining script.new) (W.contents out.old)
        (W.contents out.new) result) }
    ensures shape { IfSome (R.remaining script.old) (λ bytes.
        FileShape bytes (R.remaining script.new) result) }
    ensures fits { IfSome (R.remaining script.old)
        (λ bytes.
        FileFits bytes (R.remaining script.new) (W.contents out.old) (W.contents out.new) result) }
    ensures whole { IfSome (R.remaining script.old) (λ bytes.
        IsWholeUnlessCut (W.contents out.old) (W.contents out.new) result) }
{
    if write_opening(out).is_err() {
        return Err(RunFault::WriteDevice);
    }
    let mut pages = Pages::new(alloc, watch);
    let ran = write_report_over(alloc, script, out, &mut pages, tables, store);
    // (the rows are well nested, as the clause of their bytes says)
    let _rows = pages.rows.as_slice();
    write_ending(alloc, pages.count, &pages.rows, ran, out)
}
