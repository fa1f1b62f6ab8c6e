//! Why a list ends before its last position.

use study_values::ProbeFault;
use thiserror::Error;

/// Why a list ends before its last position.
#[derive(Clone, Copy, Debug, PartialEq, Eq, Error)]
pub enum Stop {
    /// A value cannot be read: there is no table, or reading it failed.
    #[error("{0}")]
    Values(ProbeFault),
    /// A script would have more studies than it may have.
    #[error("there are too many studies for a script")]
    TooManyStudies,
    #[error("the device of the list failed")]
    WriteDevice,
}
