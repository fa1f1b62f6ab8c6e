//! Reading a FEN text.
ghost use Rattle.std.specs.Prelude.{◌≡◌, None, true, false};
ghost use Rattle.study_board.specs.Men.{other_side};
ghost use Rattle.study_board.specs.Position.{IsAscending, in_check};
ghost use Rattle.study_notation.specs.Fen.{fen_fault_of_men};
ghost use Rattle.study_notation.specs.FieldsView.{fields_view};
ghost use Rattle.study_wide_text.specs.Fen.{wide_placement_fault, wide_position_of, wide_position_at, wide_counted, wide_start_of};
ghost use Rattle.study_wide.specs.Rights.{rights_fit};

use crate::WideStart;
use crate::rights_field::read_rights;
use study_board::{Man, PositionFault, Side, Square, fault_among, in_check};
use study_notation::{
    FenFault, FenFields, read_count, read_passed, read_placement, read_side, split_fields,
};
use study_wide::{Rights, WidePosition, is_crowded, rights_fit};

/// The start that the text spells, or the text's first fault.
///
/// Fields are those of the PGN Standard, with one or more spaces between them; the third is `-`, or some of the letters KQkq in this order. Four fields are
/// read as if `0 1` followed, a run of empty squares may be given in several digits, and the move number 0 is read as 1. `TooManyMen` is more than sixteen
/// men of a side, and `Castling` a third field that is neither, or a right without its king or its rook in place.
pub fn read_wide_fen(text: &str) -> Result<WideStart, FenFault>
    ensures { result ≡ wide_start_of text.now }
{
    match split_fields(text.as_bytes()) {
        None => Err(FenFault::FieldCount),
        Some(fields) => match read_position(&fields) {
            Err(fault) => Err(fault),
            Ok(position) => with_counts(position, &fields),
        },
    }
}

/// The position that the first four fields spell.
#[tactic(auto, unfolding(crate::specs::Fen::wide_position_at))]
fn read_position(fields: &FenFields<'_>) -> Result<WidePosition, FenFault>
    ensures { result ≡ wide_position_at (fields_view fields.now) }
{
    let Some(men) = read_placement(fields.placement) else {
        return Err(FenFault::Placement);
    };
    if let Some(fault) = placement_fault(men.as_slice()) {
        return Err(fault);
    }
    let Some(to_move) = read_side(fields.side) else {
        return Err(FenFault::SideField);
    };
    if in_check(men.as_slice(), to_move.other()) {
        return Err(FenFault::OpponentInCheck);
    }
    let Some(rights) = read_rights(fields.castling) else {
        return Err(FenFault::Castling);
    };
    if !rights_fit(men.as_slice(), rights) {
        return Err(FenFault::Castling);
    }
    let Some(passed) = read_passed(fields.passed) else {
        return Err(FenFault::EnPassantField);
    };
    position_of(men.as_slice(), to_move, passed, rights).ok_or(FenFault::EnPassantImpossible)
}

/// The start with the counts that the last two fields spell.
#[tactic(auto, unfolding(crate::specs::Fen::wide_counted))]
fn with_counts(position: WidePosition, fields: &FenFields<'_>) -> Result<WideStart, FenFault>
    ensures { result ≡ wide_counted (fields_view fields.now) position }
{
    let Some(clock) = read_count(fields.clock) else {
        return Err(FenFault::Clock);
    };
    let Some(number) = read_count(fields.number) else {
        return Err(FenFault::MoveNumber);
    };
    Ok(WideStart {
        position,
        clock,
        number: if number == 0 { 1 } else { number },
    })
}

/// The first fault of men that are placed, whoever is to move.
#[tactic(auto, unfolding(crate::specs::Fen::wide_placement_fault))]
fn placement_fault(men: &[Man]) -> Option<FenFault>
    requires { IsAscending men.now }
    ensures { result ≡ wide_placement_fault men.now }
{
    if is_crowded(men) {
        return Some(FenFault::TooManyMen);
    }
    match fault_among(men, Side::White, None) {
        Some(fault) => fen_fault_of_men(fault),
        None => None,
    }
}

/// The FEN fault for a position's fault, if that is one of the placement; otherwise `None`.
fn fen_fault_of_men(fault: PositionFault) -> Option<FenFault>
    ensures { result ≡ fen_fault_of_men fault }
{
    match fault {
        PositionFault::TooManyMen => Some(FenFault::TooManyMen),
        PositionFault::KingCount => Some(FenFault::KingCount),
        PositionFault::PawnOnEndRank => Some(FenFault::PawnOnEndRank),
        _ => None,
    }
}

/// The position of men whose only possible fault is an impossible passed square.
#[tactic(auto, unfolding(crate::specs::Fen::wide_position_of))]
fn position_of(
    men: &[Man],
    to_move: Side,
    passed: Option<Square>,
    rights: Rights,
) -> Option<WidePosition>
    requires ordered { IsAscending men.now }
    requires placed { wide_placement_fault men.now ≡ None }
    requires safe { in_check men.now (other_side to_move) ≡ false }
    requires fit { rights_fit men.now rights ≡ true }
    ensures { result ≡ wide_position_of men.now to_move passed rights }
{
    WidePosition::new(men, to_move, passed, rights).ok()
}
