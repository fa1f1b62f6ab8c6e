//! The progress of a report.

use crate::status::put_entries;
use std::io::Write;
use study_print::Watch;

/// Reports after every ten entries how many there are so far, if the option is set.
#[derive(Drop)]
pub struct Progress<'e, E: Write> {
    pub errors: &'e mut E,
}

impl<'e, E: Write> Watch for Progress<'e, E> {
    fn report(&mut self, number: u32) {
        if number % 10 == 0 {
            // A failure of standard error cannot be reported.
            let _ = put_entries(self.errors, number);
        }
    }
}
