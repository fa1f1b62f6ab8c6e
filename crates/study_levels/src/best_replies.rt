//! The value of a position from the values after its moves.
ghost use Rattle.std.specs.Prelude.{◌≡◌, ◌<◌, None, false};
ghost use Rattle.std.specs.Option.{ForSome};
ghost use Rattle.study_levels.specs.BestReplies.{lost_with, won_with, drawn_with, given_by};
ghost use Rattle.study_values.specs.Cells.{distance_of};

use study_values::Value;

/// A summary of the values seen so far: the nearest loss, the farthest win, and whether there is a draw.
#[derive(Clone, Copy)]
pub struct BestReplies {
    pub lost: Option<u8>,
    pub won: Option<u8>,
    pub drawn: bool,
    ghost lost_small: { ForSome lost (λ n. n < 255) },
    ghost won_small: { ForSome won (λ n. n < 255) },
}

impl BestReplies {
    pub fn new() -> Self
        ensures lost { result.lost ≡ None }
        ensures won { result.won ≡ None }
        ensures drawn { result.drawn ≡ false }
    {
        BestReplies {
            lost: None,
            won: None,
            drawn: false,
        }
    }

    /// The summary with one more value.
    pub fn with(self, value: Value) -> Self
        requires { distance_of value < 255 }
        ensures lost { result.lost ≡ lost_with self.lost value }
        ensures won { result.won ≡ won_with self.won value }
        ensures drawn { result.drawn ≡ drawn_with self.drawn value }
    {
        match value {
            Value::Loss(n) => {
                let least = match self.lost {
                    Some(m) => m.min(n),
                    None => n,
                };
                BestReplies {
                    lost: Some(least),
                    won: self.won,
                    drawn: self.drawn,
                }
            }
            Value::Win(n) => {
                let most = match self.won {
                    Some(m) => m.max(n),
                    None => n,
                };
                BestReplies {
                    lost: self.lost,
                    won: Some(most),
                    drawn: self.drawn,
                }
            }
            Value::Draw => BestReplies {
                lost: self.lost,
                won: self.won,
                drawn: true,
            },
        }
    }

    /// The value of a position, if these are all values after its moves.
    pub fn value(self, mate: bool) -> Value
        ensures { result ≡ given_by mate self.lost self.won self.drawn }
    {
        if let Some(n) = self.lost {
            return Value::Win(n + 1);
        }
        if self.drawn {
            return Value::Draw;
        }
        if let Some(n) = self.won {
            return Value::Loss(n + 1);
        }
        if mate { Value::Loss(0) } else { Value::Draw }
    }
}
