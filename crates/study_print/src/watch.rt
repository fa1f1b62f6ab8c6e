//! Watching the progress of a report.

/// Receives after each entry, a printed study or a game that was left out, its number.
///
/// No contract: it may do anything with the number.
pub trait Watch: Drop {
    fn report(&mut self, number: u32);
}

/// A watcher that does nothing.
#[derive(Clone, Copy, Debug, PartialEq, Eq)]
pub struct Unwatched;

impl Watch for Unwatched {
    fn report(&mut self, _number: u32) {}
}
