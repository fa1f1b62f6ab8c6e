//! The image of a square, computed on its bits: the file in the low three, the rank in the high three.
ghost use Rattle.std.specs.Prelude.{◌≡◌, cond};
ghost use Rattle.study_board.specs.Symmetry.{turned_square};
ghost use Rattle.study_index.specs.Bits.{transpose_if, turned_bits};

use study_board::{Square, Symmetry};

#[inline]
fn bits_if(flag: bool, bits: u8) -> u8
    ensures { result ≡ cond flag bits 0 }
{
    if flag { bits } else { 0 }
}

/// File and rank exchanged, or not.
#[inline]
fn transpose_if(diagonal: bool, square: u8) -> u8
    ensures { result ≡ transpose_if diagonal square }
{
    if diagonal {
        square % 8 * 8 + square / 8
    } else {
        square
    }
}

#[inline]
#[tactic(auto, unfolding(crate::specs::Bits::turned_bits))]
fn turned_bits(t: Symmetry, square: u8) -> u8
    ensures { result ≡ turned_bits t square }
{
    let mirrored = square ^ bits_if(t.files, 7) ^ bits_if(t.ranks, 56);
    transpose_if(t.diagonal, mirrored) ^ bits_if(t.colours, 56)
}

/// The image of a square under the symmetry.
#[inline]
#[tactic(auto, using(crate::proofs::TurnedBits::turned_is))]
pub fn turned_square(t: Symmetry, square: Square) -> Square
    ensures { result ≡ turned_square t square }
{
    Square::at(turned_bits(t, square.number()))
}
