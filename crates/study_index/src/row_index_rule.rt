//! How to compute the row of the numbers after a move of one man.
ghost use Rattle.std.specs.Prelude.{◌≡◌, ◌+◌, ◌*◌, ◌<◌, ◌≤◌};

/// How to compute the row of the numbers after the man has moved: as a sum with its square; as the least images of a sum, which need not be a row; or, for
/// the white king, as a sum with its place.
#[derive(Clone, Copy)]
pub enum RowIndexRule {
    Sum(RowIndexTerms),
    LeastImage(RowIndexTerms),
    King(RowIndexTerms),
}

/// The row with the other side to move and without the man, and the weight of a square or a place of the man in it.
#[derive(Clone, Copy)]
pub struct RowIndexTerms {
    pub rest: u32,
    pub weight: u32,
    ghost few: { (rest < 524288) × (weight ≤ 4096) },
}

impl RowIndexTerms {
    /// The sum with the man on a square or a place.
    #[inline(always)]
    pub fn with(self, at: u32) -> u32
        requires { at < 64 }
        ensures value { result ≡ self.rest + at * self.weight }
        ensures small { result < 1048576 }
    {
        self.rest + at * self.weight
    }
}
