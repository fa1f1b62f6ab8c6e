//! Reading a FEN text.
ghost use Rattle.std.specs.Prelude.{◌≡◌, None, false};
ghost use Rattle.study_board.specs.Men.{other_side};
ghost use Rattle.study_board.specs.Position.{IsAscending, in_check};
ghost use Rattle.study_notation.specs.Fen.{placement_fault, fen_fault_of_men, position_of, start_of};

use crate::fields::{is_dash, read_count, read_passed, read_side, split_fields};
use crate::placement::read_placement;
use crate::{FenFault, Start};
use study_board::{Man, Position, PositionFault, Side, Square, first_fault, in_check};

/// The start that the text spells, or the text's first fault.
///
/// Fields are those of the PGN Standard, with one or more spaces between them. Four fields are read
/// as if `0 1` followed, a run of empty squares may be given in several digits, and the
/// move number 0 is read as 1.
#[tactic(auto, unfolding(crate::specs::Fen::start_of))]
pub fn read_fen(text: &str) -> Result<Start, FenFault>
    ensures { result ≡ start_of text.now }
{
    let Some(fields) = split_fields(text.as_bytes()) else {
        return Err(FenFault::FieldCount);
    };
    let Some(men) = read_placement(fields.placement) else {
        return Err(FenFault::Placement);
    };
    if let Some(fault) = placement_fault(men.as_slice()) {
        return Err(fault);
    }
    let Some(to_move) = read_side(fields.side) else {
        return Err(FenFault::SideField);
    };
    if in_check(men.as_slice(), to_move.other()) {
        return Err(FenFault::OpponentInCheck);
    }
    if !is_dash(fields.castling) {
        return Err(FenFault::Castling);
    }
    let Some(passed) = read_passed(fields.passed) else {
        return Err(FenFault::EnPassantField);
    };
    let Some(position) = position_of(men.as_slice(), to_move, passed) else {
        return Err(FenFault::EnPassantImpossible);
    };
    let Some(clock) = read_count(fields.clock) else {
        return Err(FenFault::Clock);
    };
    let Some(number) = read_count(fields.number) else {
        return Err(FenFault::MoveNumber);
    };
    Ok(Start {
        position,
        clock,
        number: if number == 0 { 1 } else { number },
    })
}

/// The first fault of men that are placed, whoever is to move.
#[tactic(auto, unfolding(crate::specs::Fen::placement_fault))]
fn placement_fault(men: &[Man]) -> Option<FenFault>
    requires { IsAscending men.now }
    ensures { result ≡ placement_fault men.now }
{
    match first_fault(men, Side::White, None) {
        Some(fault) => fen_fault_of_men(fault),
        None => None,
    }
}

/// The FEN fault for a position's fault, if that is one of the placement; otherwise `None`.
fn fen_fault_of_men(fault: PositionFault) -> Option<FenFault>
    ensures { result ≡ fen_fault_of_men fault }
{
    match fault {
        PositionFault::TooManyMen => Some(FenFault::TooManyMen),
        PositionFault::KingCount => Some(FenFault::KingCount),
        PositionFault::PawnOnEndRank => Some(FenFault::PawnOnEndRank),
        _ => None,
    }
}

/// The position of men whose only possible fault is an impossible passed square.
#[tactic(auto, unfolding(crate::specs::Fen::position_of))]
fn position_of(men: &[Man], to_move: Side, passed: Option<Square>) -> Option<Position>
    requires ordered { IsAscending men.now }
    requires placed { placement_fault men.now ≡ None }
    requires safe { in_check men.now (other_side to_move) ≡ false }
    ensures { result ≡ position_of men.now to_move passed }
{
    Position::new(men, to_move, passed).ok()
}
