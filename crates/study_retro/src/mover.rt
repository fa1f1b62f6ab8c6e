//! A man that moves or has moved, with the men beside which it stands.

use study_board::Man;
use study_index::DecodedMen;

/// A man that moves or has moved, and the setup in which it stands.
#[derive(Clone, Copy)]
pub struct Mover<'s> {
    pub setup: &'s DecodedMen,
    pub man: &'s Man,
}
