//! Why a source of pages is refused.

use study_material::Class;
use study_values::{FileFault, SourceFault};
use thiserror::Error;

/// Why a source of pages is refused. Faults are checked in this order.
#[derive(Clone, Copy, Debug, PartialEq, Eq, Error)]
pub enum PagedFault {
    #[error("a table of {0:?} is held already")]
    AlreadyHeld(Class),
    #[error("a table is not read: {0}")]
    TableRead(SourceFault),
    #[error("{0}")]
    Header(FileFault),
    #[error("the file is of another class, {0:?}")]
    OtherClass(Class),
    #[error("there is no memory for the source")]
    OutOfMemory,
}
