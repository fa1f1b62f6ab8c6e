//! The positions of a class that have a theme, piece by piece.
ghost use Rattle.std.specs.Prelude.{◌≡◌, ◌≤◌, true, IfSome, IfOk, IfErr};
ghost use Rattle.study_material.specs.declared.class.Class.{Class as AClass};
ghost use Rattle.study_material.specs.Needs.{IsNeeded};
ghost use Rattle.study_listing.specs.Requests.{class_of_request};
ghost use Rattle.study_listing.specs.Pieces.{IsPiece};
ghost use Rattle.study_listing.specs.Stops.{CanStop};
ghost use Rattle.study_web.specs.Answers.{MayEnd, IsNoMemory};
ghost use Rattle.study_web.specs.Found.{of_stop};
ghost use Rattle.study_web.specs.Opened.{IsOfSearch};

use crate::reply::AnswerFault;
use crate::request_fault::RequestFault;
use crate::tables::open_tables;
use std::alloc::Allocator;
use study_listing::{Piece, Stop, write_piece};
use study_prober::CellPages;
use study_reply::{Refusal, of_probe};
use study_script::TableStore;

/// Why a search fails. Writing into memory fails only for want of it.
fn of_stop(stop: Stop) -> RequestFault
    ensures { result ≡ of_stop stop }
{
    match stop {
        Stop::Values(fault) => RequestFault::Refused(of_probe(fault)),
        Stop::TooManyStudies => RequestFault::Refused(Refusal::OutOfMemory),
        Stop::WriteDevice => RequestFault::Refused(Refusal::OutOfMemory),
    }
}

/// A piece of a list, or why it cannot be made.
fn piece_text<'a, V: CellPages, A: Allocator>(
    alloc: &'a A,
    piece: &Piece,
    values: &mut V,
) -> Result<Vec<u8, &'a A>, Stop>
    ensures text { V.source.is_honest values.old
        → IfOk result (λ text. IsPiece piece.now text.items) }
    ensures faults { IfErr result
        (CanStop V.source (IsNeeded (class_of_request piece.now.request)) values.old) }
{
    let mut text = Vec::new(alloc);
    match write_piece(piece, values, &mut text) {
        Err(stop) => Err(stop),
        Ok(()) => Ok(text),
    }
}

/// A piece of a list, over all files of a store.
#[tactic(auto, using(crate::proofs::Denials::search_over))]
pub fn found_of<'a, S: TableStore, A: Allocator>(
    alloc: &'a A,
    piece: &Piece,
    store: &mut S,
    pages: Option<u16>,
) -> Result<Vec<u8, &'a A>, AnswerFault>
    requires { IfSome pages (λ n. (1 ≤ n) × (n ≤ 4096)) }
    ensures text { ((c : AClass) → S.honest store.old true c)
        → IfOk result (λ text. IsPiece piece.now text.items) }
    ensures none { IfErr result
        (MayEnd (IsOfSearch (S.headers store.old) (S.faults store.old) ((c : AClass)
        → S.honest store.old true c) (class_of_request piece.now.request)) IsNoMemory) }
{
    match open_tables(alloc, store, pages) {
        Err(denial) => Err(AnswerFault::Denied(denial)),
        Ok(mut tables) => match piece_text(alloc, piece, &mut tables) {
            Err(stop) => Err(AnswerFault::Denied(of_stop(stop))),
            Ok(text) => Ok(text),
        },
    }
}
