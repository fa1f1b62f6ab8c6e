//! How to compute the number after a move of one man.
ghost use Rattle.std.specs.Prelude.{◌≡◌, ◌+◌, ◌*◌, ◌<◌, ◌≤◌};

use study_board::Square;

/// How to compute the number after the man has moved: as a sum, if no other image can have a lesser number; as the least image of a sum; anew for another
/// square of the white king; or by a search for the man.
#[derive(Clone, Copy)]
pub enum IndexRule {
    Sum(IndexTerms),
    LeastImage(IndexTerms),
    King,
    Search,
}

/// The number with the other side to move and without the man, and the weight of a square of the man in it.
#[derive(Clone, Copy)]
pub struct IndexTerms {
    pub rest: u32,
    pub weight: u32,
    ghost few: { (rest < 25165824) × (weight ≤ 4096) },
}

impl IndexTerms {
    /// The sum with the man on a square.
    #[inline]
    pub fn with(self, to: Square) -> u32
        ensures value { result ≡ self.rest + to * self.weight }
        ensures small { result < 67108864 }
    {
        self.rest + u32::from(to.number()) * self.weight
    }
}
