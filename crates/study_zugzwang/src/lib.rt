//! Mutual zugzwangs: positions in which neither side wants to be on move, so that the two sides to move together score less than a point.
//!
//! The definition uses positions and the values of the game alone. The search of a class and the review of a study rest on it.
#![tactic(auto)]

mod laws;
mod zugzwang;

pub use laws::zugzwangs_are_mutual;
pub use zugzwang::{half_points, handed_on, with_other_to_move};
