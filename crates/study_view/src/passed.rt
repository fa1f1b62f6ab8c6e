//! The squares that a pawn may have passed in a double step just before.
ghost use Rattle.std.specs.Prelude.{◌≡◌, ◌≤◌, ◌<◌, ◌+◌, ◌++◌, ◌∷◌, []};
ghost use Rattle.arrayvec.specs.ArrayVec.{array_vec_len};
ghost use Rattle.study_view.specs.Setup.{passed_from, passed_squares};

use arrayvec::ArrayVec;
use study_board::{Man, Side, Square, could_be_passed};

/// Appends a square to the list.
fn push_square(x: Square, list: &mut ArrayVec<Square, 64>)
    requires { array_vec_len list.old < 64 }
    ensures items { list.new.items ≡ list.old.items ++ x ∷ [] }
    ensures len { array_vec_len list.new ≡ array_vec_len list.old + 1 }
{
    list.push(x);
}

/// Adds such squares, starting at this number.
fn add_from(men: &[Man], to_move: Side, number: u8, list: &mut ArrayVec<Square, 64>)
    requires within { number ≤ 64 }
    requires room { array_vec_len list.old ≤ number }
    ensures { list.new.items ≡ list.old.items ++ passed_from men.now to_move number }
{
    if number >= 64 {
        return;
    }
    let x = Square::at(number);
    if could_be_passed(men, to_move, x) {
        push_square(x, list);
        return add_from(men, to_move, number + 1, list);
    }
    add_from(men, to_move, number + 1, list)
}

/// The squares that a FEN with these men and this side to move may name as passed, as far as the men decide it: a1, b1 up to h8.
pub fn passed_squares(men: &[Man], to_move: Side) -> ArrayVec<Square, 64>
    ensures { result.items ≡ passed_squares men.now to_move }
{
    let mut list = ArrayVec::new();
    add_from(men, to_move, 0, &mut list);
    list
}
