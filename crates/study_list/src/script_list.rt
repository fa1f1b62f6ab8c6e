//! The list of a whole script.
ghost use Rattle.std.specs.Prelude.{◌≡◌, List, IfSome};
ghost use Rattle.study_material.specs.declared.class.Class.{Class as AClass};
ghost use Rattle.study_script.specs.State.{is_among};
ghost use Rattle.study_script.specs.SessionHolds.{tables_honest, tables_held, are_paged};
ghost use Rattle.study_report.specs.Outcome.{over_tables};
ghost use Rattle.study_list.specs.List.{IsList, ListShape, ListFits};

use crate::records::Records;
use std::alloc::Allocator;
use std::io::{Read, Write};
use study_page::write_head_record;
use study_report::write_report;
use study_script::{RunFault, Summary, Tables};
use study_tablefile::PageSource;

/// Follows a script over these tables, from an empty document, and writes the list of its studies.
pub fn write_list<'a, R: Read, W: Write, P: PageSource, A: Allocator>(
    alloc: &'a A,
    script: &mut R,
    out: &mut W,
    tables: Tables<'a, P, A>,
) -> Result<Summary, RunFault>
    ensures list { (classes : List AClass) → tables_honest P.honest tables.entry
        → ((c : AClass) → tables_held tables.entry c ≡ is_among classes c)
        → IfSome (R.remaining script.old)
        (λ bytes.
        IsList (over_tables classes (are_paged tables.entry)) bytes (R.remaining script.new)
        (W.contents out.old) (W.contents out.new) result) }
    ensures shape { IfSome (R.remaining script.old) (λ bytes.
        ListShape bytes (R.remaining script.new) result) }
    ensures fits { IfSome (R.remaining script.old)
        (λ bytes.
        ListFits bytes (R.remaining script.new) (W.contents out.old) (W.contents out.new) result) }
{
    if write_head_record(out).is_err() {
        return Err(RunFault::WriteDevice);
    }
    write_report(alloc, script, out, &mut Records, tables)
}
