//! A run over a whole script.
ghost use Rattle.std.specs.Prelude.{◌≡◌, ◌≤◌, Err, is_some, IfOk, IfSome, Bool};
ghost use Rattle.study_script.specs.SessionHolds.{Begun, are_paged};
ghost use Rattle.study_script.specs.Outcome.{Outcome, Shape, initial_state};
ghost use Rattle.study_material.specs.declared.class.Class.{Class as AClass};
ghost use Rattle.study_script.specs.Stores.{shelf_of, HonestOn, AreTrusted};
ghost use Rattle.study_script.specs.State.{State};
ghost use Rattle.study_script.specs.Written.{Fits};

use crate::document::Document;
use crate::session::{Interpreter, Session};
use crate::store::TableStore;
use crate::tables::Tables;
use std::alloc::{AllocError, Allocator};
use std::io::{Read, Write};
use study_command::{Line, LineFault, read_byte};
use study_prober::{PagedTables, WholeTables};
use study_table::TableSet;
use study_tablefile::PageSource;
use thiserror::Error;

/// The settings of a run: whole tables, or so many pages of them, and whether it keeps studies apart.
#[derive(Clone, Copy, Debug, PartialEq, Eq)]
pub struct Settings {
    /// The number of pages, 1 to 4,096; `None` for whole tables.
    pub pages: Option<u16>,
    /// If set, a refused line whose first word is `position` leaves neither a position nor a study until the next accepted one. Otherwise a refused line
    /// changes nothing, so that the lines after it edit the study before.
    pub separate: bool,
}

/// The result of a run: the number of all lines, including those without a reply, and of refused lines.
#[derive(Clone, Copy, Debug, PartialEq, Eq)]
pub struct Summary {
    pub lines: u32,
    pub refused: u32,
}

/// Why a run stopped. The replies to the lines before remain written.
#[derive(Clone, Copy, Debug, PartialEq, Eq, Error)]
pub enum RunFault {
    #[error("ReadDevice")]
    ReadDevice,
    #[error("WriteDevice")]
    WriteDevice,
    /// The line has more than 1,024 bytes; lines are counted from 1.
    #[error("LineTooLong {0}")]
    LineTooLong(u32),
    /// There are more than 100,000 lines.
    #[error("TooManyLines")]
    TooManyLines,
    #[error("OutOfMemory")]
    OutOfMemory,
}

/// Answers each line of a script over a store of tables. All memory except that of the commands is allocated before the first line.
///
/// The premise is only on the files that the script loads: each file that a `load` line names gives a right table, by pages or whole as the settings say. For
/// a script that loads nothing the store does not matter.
pub fn run<'a, R: Read, W: Write, S: TableStore, A: Allocator>(
    alloc: &'a A,
    script: &mut R,
    out: &mut W,
    store: &mut S,
    settings: Settings,
) -> Result<Summary, RunFault>
    requires { IfSome settings.pages (λ n. (1 ≤ n) × (n ≤ 4096)) }
    ensures shape { IfSome (R.remaining script.old) (λ bytes.
        Shape bytes (R.remaining script.new) result) }
    ensures outcome { (trusted : AClass → Bool)
        → HonestOn trusted S.honest store.old (is_some settings.pages)
        → IfSome (R.remaining script.old)
        (λ bytes. AreTrusted trusted bytes → Outcome settings.separate
        (initial_state (shelf_of S.files S.headers S.faults store.old)
        (is_some settings.pages)) bytes
        (R.remaining script.new) (W.contents out.old) (W.contents out.new) result) }
    ensures fits { IfSome (R.remaining script.old)
        (λ bytes.
        Fits bytes (R.remaining script.new) (W.contents out.old) (W.contents out.new) result) }
{
    let Ok(mut line) = Line::new(alloc) else {
        return Err(RunFault::OutOfMemory);
    };
    let Ok(tables) = empty_tables(alloc, settings) else {
        return Err(RunFault::OutOfMemory);
    };
    let mut session = Session {
        alloc,
        document: Document::Empty,
        tables,
        store,
        separate: settings.separate,
    };
    run_session(&mut line, script, out, &mut session)
}

/// No table yet, and room for the tables to come.
fn empty_tables<'a, P: PageSource, A: Allocator>(
    alloc: &'a A,
    settings: Settings,
) -> Result<Tables<'a, P, A>, AllocError>
    requires { IfSome settings.pages (λ n. (1 ≤ n) × (n ≤ 4096)) }
    ensures none { IfOk result (λ t. Begun P.honest t) }
    ensures mode { IfOk result (λ t. are_paged t ≡ is_some settings.pages) }
{
    match settings.pages {
        None => Ok(Tables::Whole(WholeTables::new(TableSet::new(alloc)?))),
        Some(pages) => Ok(Tables::Paged(PagedTables::new(alloc, pages)?)),
    }
}

/// Answers each line of a script, by any interpreter. Its memory for a line is given, so it never ends for want of memory.
pub fn run_session<R: Read, W: Write, D: Interpreter, A: Allocator>(
    line: &mut Line<'_, A>,
    script: &mut R,
    out: &mut W,
    interpreter: &mut D,
) -> Result<Summary, RunFault>
    ensures outcome { (trusted : AClass → Bool) (separate : Bool) (first : State)
        → D.holds interpreter.old trusted separate first
        → IfSome (R.remaining script.old)
        (λ bytes. AreTrusted trusted bytes
        → Outcome separate first bytes (R.remaining script.new) (W.contents out.old)
        (W.contents out.new) result) }
    ensures fits { IfSome (R.remaining script.old)
        (λ bytes.
        Fits bytes (R.remaining script.new) (W.contents out.old) (W.contents out.new) result) }
    ensures shape { IfSome (R.remaining script.old) (λ bytes.
        Shape bytes (R.remaining script.new) result) }
    ensures takes_no_memory { ¬ (result ≡ Err RunFault.OutOfMemory) }
{
    let mut refused = 0u32;
    for n in 0..100_000u32 {
        match line.read(script) {
            Err(LineFault::Device) => return Err(RunFault::ReadDevice),
            Err(LineFault::TooLong) => return Err(RunFault::LineTooLong(n + 1)),
            Ok(false) => return Ok(Summary { lines: n, refused }),
            Ok(true) => {}
        }
        match interpreter.answer(line.as_slice(), out) {
            Err(_) => return Err(RunFault::WriteDevice),
            Ok(was_refused) => {
                if was_refused {
                    refused += 1;
                }
            }
        }
    }
    match read_byte(script) {
        Err(_) => Err(RunFault::ReadDevice),
        Ok(None) => Ok(Summary {
            lines: 100_000,
            refused,
        }),
        Ok(Some(_)) => Err(RunFault::TooManyLines),
    }
}
