//! The printed pages of a script's studies.
ghost use Rattle.std.specs.Prelude.{◌≡◌, ◌≤◌, ◌⊎◌, true, [], IfSome, IfOk, IfErr, Err};
ghost use Rattle.study_material.specs.declared.class.Class.{Class as AClass};
ghost use Rattle.study_web.specs.Answers.{IsFileOver, IsOwnEnd};
ghost use Rattle.study_web.specs.Opened.{IsOfTables};
ghost use Rattle.study_web.specs.Views.{OverStore};

use crate::request_fault::RequestFault;
use crate::run_output::{RunOutput, own_end};
use crate::tables::open_tables;
use std::alloc::Allocator;
use study_print::{Unwatched, write_pages_over};
use study_script::{RunFault, TableStore, Tables};

/// The printed pages of a script's studies, its refused lines and the list of its entries, over all files of a store.
pub fn printed_of<'a, S: TableStore, A: Allocator>(
    alloc: &'a A,
    script: &[u8],
    store: &mut S,
    pages: Option<u16>,
) -> Result<RunOutput<'a, A>, RequestFault>
    requires { IfSome pages (λ n. (1 ≤ n) × (n ≤ 4096)) }
    ensures own { IfOk result (λ reported. IsOwnEnd reported.summary) }
    ensures file { IfOk result (λ reported.
        ((reported.summary ≡ Err RunFault.OutOfMemory) × (reported.text.items ≡ []))
        ⊎ (((c : AClass) → S.honest store.old true c)
        → OverStore (S.headers store.old) (S.faults store.old)
        (IsFileOver script.now reported.text.items reported.summary))) }
    ensures denied { IfErr result (IsOfTables (S.headers store.old) (S.faults store.old)) }
{
    match open_tables(alloc, store, pages) {
        Err(denial) => Err(denial),
        Ok(tables) => {
            let mut reader = script;
            let mut text = Vec::new(alloc);
            let summary = write_pages_over(
                alloc,
                &mut reader,
                &mut text,
                Unwatched,
                Tables::Paged(tables),
                store,
            );
            Ok(own_end(alloc, text, summary))
        }
    }
}
