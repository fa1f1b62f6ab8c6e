//! The progress of a search.

use crate::status::put_progress;
use std::io::Write;
use study_listing::Watch;

/// Writes the progress of a search.
#[derive(Drop)]
pub struct Progress<'e, E: Write> {
    pub errors: &'e mut E,
}

impl<'e, E: Write> Watch for Progress<'e, E> {
    fn report(&mut self, numbers: u32, all: u32, found: u32) {
        // A failure of standard error cannot be reported.
        let _ = put_progress(self.errors, numbers, all, found);
    }
}
