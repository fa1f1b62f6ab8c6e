//! Legal moves other than some.
ghost use Rattle.std.specs.Prelude.{◌≡◌, true};
ghost use Rattle.std.specs.List.{All};
ghost use Rattle.study_moves.specs.Rules.{is_legal};
ghost use Rattle.study_facts.specs.Continuations.{contains_move, moves_except};

use arrayvec::ArrayVec;
use study_board::Position;
use study_moves::{Move, MoveList, legal_moves};

/// Whether the move is in the list.
pub fn contains_move(m: &Move, moves: &[Move]) -> bool
    ensures { result ≡ contains_move m.now moves.now }
{
    match moves.split_first() {
        None => false,
        Some((n, rest)) => m == n || contains_move(m, rest),
    }
}

/// The legal moves except these.
pub fn moves_except(p: &Position, without: &[Move]) -> MoveList
    ensures value { result.items ≡ moves_except without.now p.now }
    ensures legal { All (λ m. is_legal p.now m ≡ true) result.items }
{
    let moves = legal_moves(p);
    let mut list = ArrayVec::new();
    for m in moves.as_slice() {
        if !contains_move(m, without) {
            list.push(*m);
        }
    }
    list
}
