//! Mutual zugzwangs: the score of the side to move, and the same men with the other side to move.
ghost use Rattle.std.specs.Prelude.{◌≡◌, ◌<◌, ◌↔◌, IsTrue, IfSome, IfNone};
ghost use Rattle.study_board.specs.Position.{IsValid};
ghost use Rattle.study_moves.specs.Game.{HasNoMove};
ghost use Rattle.study_zugzwang.specs.Zugzwang.{half_points, handed_on, EitherCanMove};

use study_board::Position;
use study_moves::{is_mate, is_stalemate};
use study_values::Value;

/// The score of the side to move, in half points.
pub fn half_points(value: Value) -> u8
    ensures value { result ≡ half_points value }
    ensures few { result < 3 }
{
    match value {
        Value::Loss(_) => 0,
        Value::Draw => 1,
        Value::Win(_) => 2,
    }
}

/// The same men with the other side to move and no passed square, if that is a valid position.
pub fn handed_on(p: &Position) -> Option<Position>
    ensures none { IfNone result (¬ (IsValid (handed_on p.now))) }
    ensures some { IfSome result (λ q. (q ≡ handed_on p.now) × IsValid q) }
{
    match Position::new(p.men(), p.to_move().other(), None) {
        Ok(q) => Some(q),
        Err(_) => None,
    }
}

/// Whether the side to move has no legal move.
fn has_no_move(p: &Position) -> bool
    ensures { IsTrue result ↔ HasNoMove p.now }
{
    let mated = is_mate(p);
    if mated {
        return true;
    }
    is_stalemate(p)
}

/// The same men with the other side to move and no passed square, if that is a valid position and either side, when it is to move, has a legal move.
pub fn with_other_to_move(p: &Position) -> Option<Position>
    ensures none { IfNone result (¬ (EitherCanMove p.now)) }
    ensures some { IfSome result (λ q. (q ≡ handed_on p.now) × IsValid q × EitherCanMove p.now) }
{
    match handed_on(p) {
        None => None,
        Some(q) => {
            let none = has_no_move(p);
            if none {
                return None;
            }
            let none_there = has_no_move(&q);
            if none_there {
                return None;
            }
            Some(q)
        }
    }
}
