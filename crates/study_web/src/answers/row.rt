//! How many only moves in a row the defender can make the side to move find, and such a row.
ghost use Rattle.std.specs.Prelude.{◌≡◌, ◌≤◌, ◌++◌, true, codes, IfSome, IfOk, IfErr, OnOk};
ghost use Rattle.study_material.specs.declared.class.Class.{Class as AClass};
ghost use Rattle.study_material.specs.Needs.{NeedsClass};
ghost use Rattle.study_search.specs.Faults.{CanReport};
ghost use Rattle.study_search.specs.Rows.{IsLine};
ghost use Rattle.study_web.specs.Answers.{MayEnd, IsNoMemory};
ghost use Rattle.study_web.specs.Opened.{IsOfValues};
ghost use Rattle.study_web.specs.Row.{moves_text, row_text, IsFoundRow, IsRowAnswer};
ghost use Rattle.study_web.specs.Reported.{line_of};

use crate::answers::setup::add;
use crate::reply::AnswerFault;
use crate::request::Rowed;
use crate::request_fault::RequestFault;
use crate::tables::open_tables;
use itoa::Buffer;
use std::alloc::{AllocError, Allocator};
use study_board::Position;
use study_moves::{Move, played};
use study_notation::write_san;
use study_reply::{Refusal, of_probe};
use study_script::TableStore;
use study_search::{LongestRow, Outcome, longest_row};
use study_values::{ProbeFault, Values};

/// The largest number that is counted.
const LIMIT: u8 = 12;

/// Adds moves in turn, a blank before each.
fn add_moves<A: Allocator>(
    text: &mut Vec<u8, &A>,
    p: &Position,
    moves: &[Move],
) -> Result<(), AllocError>
    requires { IsLine p.now moves.now }
    ensures { OnOk result (text.new.items ≡ text.old.items ++ moves_text p.now moves.now) }
{
    let Some((m, rest)) = moves.split_first() else {
        return Ok(());
    };
    add(text, b" ")?;
    let san = write_san(p, *m);
    add(text, san.as_str().as_bytes())?;
    add_moves(text, &played(p, *m), rest)
}

/// `none`.
fn none_text<'a, A: Allocator>(alloc: &'a A) -> Result<Vec<u8, &'a A>, AllocError>
    ensures { IfOk result (λ text. text.items ≡ line_of (codes "none")) }
{
    let mut text = Vec::new(alloc);
    add(&mut text, b"none\n")?;
    Ok(text)
}

/// `2 Kf7 Kb6 Ke7`.
fn row_text<'a, A: Allocator>(
    alloc: &'a A,
    p: &Position,
    found: &LongestRow,
) -> Result<Vec<u8, &'a A>, AllocError>
    requires { IsLine p.now found.now.row.items }
    ensures { IfOk result (λ text. text.items ≡ row_text p.now found.now.count found.now.row.items) }
{
    let mut text = Vec::new(alloc);
    let mut buffer = Buffer::new();
    add(&mut text, buffer.format(found.count as u32).as_bytes())?;
    add_moves(&mut text, p, found.row.as_slice())?;
    add(&mut text, b"\n")?;
    Ok(text)
}

/// The number and the row, or `none`.
fn said_row<'a, A: Allocator>(
    alloc: &'a A,
    p: &Position,
    outcome: Outcome,
    found: &Option<LongestRow>,
) -> Result<Vec<u8, &'a A>, AllocError>
    requires { IfSome found.now (λ f. IsLine p.now f.row.items) }
    ensures { IsFoundRow outcome p.now found.now
        → IfOk result (λ text. IsRowAnswer outcome p.now text.items) }
{
    match found {
        None => none_text(alloc),
        Some(found) => row_text(alloc, p, found),
    }
}

/// The longest row, or why a value cannot be read.
#[tactic(auto, using(crate::proofs::RowsFound::found_if))]
fn found_row<V: Values>(asked: &Rowed, values: &mut V) -> Result<Option<LongestRow>, ProbeFault>
    ensures game { V.source.is_honest values.old
        → IfOk result (IsFoundRow asked.now.outcome asked.now.start.position) }
    ensures legal { IfOk result (λ found. IfSome found
        (λ f. IsLine asked.now.start.position f.row.items)) }
    ensures faults { IfErr result (CanReport V.source (NeedsClass asked.now.start.position) values.old) }
{
    longest_row(&asked.start.position, asked.outcome, LIMIT, values)
}

/// The same, or want of memory.
fn reported_row<'a, A: Allocator>(
    alloc: &'a A,
    p: &Position,
    outcome: Outcome,
    found: &Option<LongestRow>,
) -> Result<Vec<u8, &'a A>, AnswerFault>
    requires { IfSome found.now (λ f. IsLine p.now f.row.items) }
    ensures text { IsFoundRow outcome p.now found.now
        → IfOk result (λ text. IsRowAnswer outcome p.now text.items) }
    ensures none { IfErr result (λ why.
        why ≡ AnswerFault.Denied (RequestFault.Refused Refusal.OutOfMemory)) }
{
    match said_row(alloc, p, outcome, found) {
        Ok(text) => Ok(text),
        Err(_) => Err(AnswerFault::Denied(RequestFault::Refused(Refusal::OutOfMemory))),
    }
}

/// The number and the row, over all files of a store.
#[tactic(auto, using(crate::proofs::Denials::values_over))]
pub fn row_of<'a, S: TableStore, A: Allocator>(
    alloc: &'a A,
    asked: &Rowed,
    store: &mut S,
    pages: Option<u16>,
) -> Result<Vec<u8, &'a A>, AnswerFault>
    requires { IfSome pages (λ n. (1 ≤ n) × (n ≤ 4096)) }
    ensures text { ((c : AClass) → S.honest store.old true c)
        → IfOk result (λ text. IsRowAnswer asked.now.outcome asked.now.start.position text.items) }
    ensures none { IfErr result
        (MayEnd (IsOfValues (S.headers store.old) (S.faults store.old) ((c : AClass)
        → S.honest store.old true c) asked.now.start.position) IsNoMemory) }
{
    match open_tables(alloc, store, pages) {
        Err(denial) => Err(AnswerFault::Denied(denial)),
        Ok(mut tables) => match found_row(asked, &mut tables) {
            Err(fault) => Err(AnswerFault::Denied(RequestFault::Refused(of_probe(fault)))),
            Ok(found) => reported_row(alloc, &asked.start.position, asked.outcome, &found),
        },
    }
}
