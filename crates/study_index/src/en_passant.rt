//! The square that a pawn has passed.
ghost use Rattle.std.specs.Prelude.{◌≡◌, ◌+◌, find, Some, None};
ghost use Rattle.study_board.specs.Men.{is_man};
ghost use Rattle.study_board.specs.declared.men.Kind.TheVariants.{Pawn};
ghost use Rattle.study_index.specs.Decoded.{square_behind, square_behind_pawn};

use study_board::{Kind, Man, Side, Square};

fn square_behind(side: Side, x: Square) -> u8
    ensures { result ≡ square_behind side x }
{
    match side {
        Side::White => x.number().saturating_sub(8),
        Side::Black => x.number() + 8,
    }
}

fn pawn_of(side: Side, men: &[Man]) -> Option<Man>
    ensures { result ≡ find (λ m. is_man side Pawn m) men.now }
{
    men.iter().copied().find(|m| m.is(side, Kind::Pawn))
}

/// The square behind a pawn of the side, by its number, which may be off the board.
pub fn square_behind_pawn(side: Side, men: &[Man]) -> Option<u8>
    ensures { result ≡ square_behind_pawn side men.now }
{
    match pawn_of(side, men) {
        None => None,
        Some(m) => Some(square_behind(side, m.at)),
    }
}
