//! The tables of a folder.
ghost use Rattle.std.specs.Prelude.{◌≡◌, ◌++◌, IfSome, OnOk, OnErr};
ghost use Rattle.study_material.specs.Class.{class_list};
ghost use Rattle.study_reply.specs.Names.{words_of};
ghost use Rattle.study_program.specs.Errors.{file_fault_text, IsFaultOrNone, AreFaultsOf};

use std::alloc::{AllocError, Allocator};
use std::io::Write;
use study_material::Class;
use study_prober::PagedTables;
use study_reply::{LineRefusal, Refusal, refused_words};
use study_script::{StoreFault, TableStore, refusal_of_paged};
use study_text::{Text, write_text};

/// Why the file of a class is not a table.
#[derive(Clone, Copy, Debug, PartialEq, Eq)]
enum NoTable {
    NoFile,
    Fault(Refusal),
}

/// Opens the file of a class by pages.
fn open_table<'a, S: TableStore, A: Allocator>(
    tables: &mut PagedTables<'a, S::Pages, A>,
    store: &mut S,
    class: Class,
) -> Result<(), NoTable>
    ensures same { OnErr result (tables.new ≡ tables.old) }
{
    match store.pages(class) {
        Err(StoreFault::NoFile) => Err(NoTable::NoFile),
        Err(StoreFault::Device) => Err(NoTable::Fault(Refusal::Device)),
        Ok(source) => match tables.add(class, source) {
            Ok(()) => Ok(()),
            Err(fault) => Err(NoTable::Fault(refusal_of_paged(fault))),
        },
    }
}

/// Adds why the file of a class is not a table, in a line: `studyreport: KRK.dtm: HeaderDamaged`.
#[tactic(auto, unfolding(crate::specs::Errors::file_fault_text))]
fn add_fault<A: Allocator>(
    text: &mut Text<'_, A>,
    program: &[u8],
    class: Class,
    words: &[u8],
) -> Result<(), AllocError>
    ensures { OnOk result (text.new ≡ text.old ++ file_fault_text program.now class words.now) }
{
    text.add(program)?;
    text.add(b": ")?;
    text.add(class.name().as_bytes())?;
    text.add(b".dtm: ")?;
    text.add(words)?;
    text.add(b"\n")
}

/// The same; `None` if there is no memory for it.
fn fault_line<'a, A: Allocator>(
    alloc: &'a A,
    program: &[u8],
    class: Class,
    refusal: Refusal,
) -> Option<Text<'a, A>>
    ensures { IfSome result (λ text.
        text ≡ file_fault_text program.now class (words_of refusal)) }
{
    let refused: LineRefusal<'a, A> = LineRefusal::Line(refusal);
    let words = refused_words(alloc, &refused).ok()?;
    let mut text = Text::new(alloc);
    add_fault(&mut text, program, class, words.as_slice()).ok()?;
    Some(text)
}

/// Writes the fault of a file. A failure of standard error cannot be reported.
fn put_fault<A: Allocator, E: Write>(
    alloc: &A,
    program: &[u8],
    errors: &mut E,
    class: Class,
    refusal: Refusal,
)
    ensures { IsFaultOrNone program.now class (E.contents errors.old) (E.contents errors.new) }
{
    if let Some(text) = fault_line(alloc, program, class, refusal) {
        let _ = write_text(errors, text.as_slice());
    }
}

/// Opens the table of a class, if its file is there, and writes the fault of a file that is not a table.
fn open_or_report<'a, S: TableStore, A: Allocator, E: Write>(
    alloc: &'a A,
    program: &[u8],
    tables: &mut PagedTables<'a, S::Pages, A>,
    store: &mut S,
    class: Class,
    errors: &mut E,
)
    ensures { IsFaultOrNone program.now class (E.contents errors.old) (E.contents errors.new) }
{
    match open_table(tables, store, class) {
        Ok(()) | Err(NoTable::NoFile) => {}
        Err(NoTable::Fault(refusal)) => put_fault(alloc, program, errors, class, refusal),
    }
}

/// Opens each table whose file is there, in the order of the class list, and writes the fault of each file that is not a table, after the program's name.
///
/// No clause says which files those are: `tools/run/report_faults.py` and `tools/run/finding.sh` test it.
pub fn open_tables<'a, S: TableStore, A: Allocator, E: Write>(
    alloc: &'a A,
    program: &[u8],
    tables: &mut PagedTables<'a, S::Pages, A>,
    store: &mut S,
    errors: &mut E,
)
    ensures { AreFaultsOf program.now class_list (E.contents errors.old) (E.contents errors.new) }
{
    for class in Class::all() {
        open_or_report(alloc, program, tables, store, *class, errors);
    }
}
