//! The script of imported games.
ghost use Rattle.std.specs.Prelude.{◌≡◌, IfOk, IfErr};
ghost use Rattle.study_import.specs.Imported.{script_of};
ghost use Rattle.study_web.specs.Answers.{MayEnd, IsNoMemory, IsOutOfMemory};

use crate::reply::AnswerFault;
use crate::request_fault::RequestFault;
use std::alloc::{AllocError, Allocator};
use study_import::{Choice, import_chosen};
use study_reply::Refusal;

fn script_of<'a, A: Allocator>(
    alloc: &'a A,
    pgn: &[u8],
    choice: Choice,
) -> Result<Vec<u8, &'a A>, AllocError>
    ensures { IfOk result (λ text. text.items ≡ script_of choice pgn.now) }
{
    let script = import_chosen(alloc, pgn, choice)?;
    let mut text = Vec::new(alloc);
    text.extend_from_slice(script.as_slice())?;
    Ok(text)
}

/// The script of the chosen games of a PGN file.
pub fn imported_of<'a, A: Allocator>(
    alloc: &'a A,
    pgn: &[u8],
    choice: Choice,
) -> Result<Vec<u8, &'a A>, AnswerFault>
    ensures text { IfOk result (λ text. text.items ≡ script_of choice pgn.now) }
    ensures none { IfErr result (MayEnd IsOutOfMemory IsNoMemory) }
{
    match script_of(alloc, pgn, choice) {
        Ok(text) => Ok(text),
        Err(_) => Err(AnswerFault::Denied(RequestFault::Refused(Refusal::OutOfMemory))),
    }
}
