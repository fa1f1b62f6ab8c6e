//! The classes of material of positions with two to four men, and the classes that each needs.
//!
//! A class is the men of each side beside its king, White's list before Black's. Each legal move from a position leads to a position of the same class or of
//! one of its `needs`: `moves_lead_into_needs` proves it.
#![tactic(auto)]

mod class;
mod classify;
mod fault;
mod laws;
mod needed_classes;

pub use class::{CLASS_COUNT, Class};
pub use classify::class_of;
pub use fault::ClassFault;
pub use laws::{moves_lead_into_needs, needs_come_first, positions_have_one_class};
pub use needed_classes::{classes_by_size, needs, order};
