//! The parts of a SAN text.

use study_board::{Kind, Square};

/// The parts of a SAN text. Files and ranks are numbers below 8, counted from a and from 1.
#[derive(Clone, Copy, Debug, PartialEq, Eq)]
pub struct San {
    pub kind: Kind,
    pub file: Option<u8>,
    pub rank: Option<u8>,
    pub is_capture: bool,
    pub target: Square,
    pub promoted: Option<Kind>,
}
