//! Values: won or lost in so many plies, or drawn.
ghost use Rattle.std.specs.Prelude.{◌≡◌, ◌≢◌, MatchOption};
ghost use Rattle.study_values.specs.Cells.{distance_of, value_of};

/// The greatest distance that a cell encodes, in plies: a cell is a byte, one more than the distance, and 0 is a draw.
pub const MAX_DISTANCE: u8 = 254;

/// A value, seen from the side to move.
#[derive(Clone, Copy, PartialEq, Eq, Debug)]
pub enum Value {
    Win(u8),
    Loss(u8),
    Draw,
}

/// The value of a cell of a table: 0 is a draw, an odd cell c a loss in c - 1 plies, an even one a win in c - 1.
pub fn value_at(cell: u8) -> Value
    ensures { result ≡ value_of cell }
{
    if cell == 0 {
        Value::Draw
    } else if cell % 2 == 1 {
        Value::Loss(cell - 1)
    } else {
        Value::Win(cell - 1)
    }
}

impl Value {
    /// The plies to the mate; `None` for a draw.
    pub fn distance(self) -> Option<u8>
        ensures { MatchOption result (self ≡ Value.Draw) (λ n. (self ≢ Value.Draw)
            × (distance_of self ≡ n)) }
    {
        match self {
            Value::Draw => None,
            Value::Win(n) => Some(n),
            Value::Loss(n) => Some(n),
        }
    }
}
