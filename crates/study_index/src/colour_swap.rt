//! Whether the colours are swapped for the class of a position, by the weights of its men.
ghost use Rattle.std.specs.Prelude.{◌≡◌, ◌≤◌, length};
ghost use Rattle.study_material.specs.Lists.{is_swapped};
ghost use Rattle.study_index.specs.Weights.{balance, balance_of};

use study_board::{Kind, Man, Position, Side};

/// Ten, minus the weight of a white man or plus that of a black one; kings weigh nothing.
#[inline]
fn balance(m: &Man) -> u8
    ensures value { result ≡ balance m.now }
    ensures small { result ≤ 20 }
{
    match (m.side, m.kind) {
        (_, Kind::King) => 10,
        (Side::White, Kind::Queen) => 1,
        (Side::White, Kind::Rook) => 2,
        (Side::White, Kind::Bishop) => 3,
        (Side::White, Kind::Knight) => 4,
        (Side::White, Kind::Pawn) => 5,
        (Side::Black, Kind::Queen) => 19,
        (Side::Black, Kind::Rook) => 18,
        (Side::Black, Kind::Bishop) => 17,
        (Side::Black, Kind::Knight) => 16,
        (Side::Black, Kind::Pawn) => 15,
    }
}

#[inline]
fn balance_of(men: &[Man]) -> u8
    requires { length men.now ≤ 4 }
    ensures { result ≡ balance_of men.now }
{
    match men {
        [] => 0,
        [a] => balance(a),
        [a, b] => balance(a) + balance(b),
        [a, b, c] => balance(a) + balance(b) + balance(c),
        [a, b, c, d] => balance(a) + balance(b) + balance(c) + balance(d),
        _ => unreachable!(),
    }
}

/// Whether Black's men come before White's in the name of the class.
#[inline]
pub fn is_swapped(p: &Position) -> bool
    ensures { result ≡ is_swapped p.now.men }
{
    let men = p.men();
    balance_of(men) > 10 * men.len() as u8
}
