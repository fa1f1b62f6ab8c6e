//! Faults of table files.

use study_text::DeviceFailed;
use thiserror::Error;

/// Why a source of pages failed to read a page.
#[derive(Clone, Copy, Debug, PartialEq, Eq, Error)]
pub enum SourceFault {
    #[error("the device of a table failed")]
    Device,
    #[error("the file of a table is too short")]
    Short,
}

/// Why bytes are not a valid table file, or why a file could not be read or written. A file is read from front to back, and the first fault is reported: the
/// faults of the header in this order, then, page by page, that it is cut off, damaged, or not zero after the last cell, then bytes after the last page.
#[derive(Clone, Copy, Debug, PartialEq, Eq, Error)]
pub enum FileFault {
    #[error("the file is cut off")]
    Cut,
    #[error("this is no file of a table")]
    NotATable,
    #[error("version {0} of the file is not known")]
    Version(u16),
    #[error("the file is of a class that is not known")]
    ClassUnknown,
    #[error("the header of the file is damaged")]
    HeaderDamaged,
    #[error("there is no memory for the table")]
    OutOfMemory,
    #[error("page {0} of the file is damaged")]
    PageDamaged(u32),
    #[error("cells behind the last one are not zero")]
    Padding,
    #[error("bytes follow the last page")]
    TrailingBytes,
    #[error("the device of a table failed")]
    Device,
}

impl From<DeviceFailed> for FileFault {
    ghost use Rattle.std.specs.Prelude.{◌≡◌};
    ghost use Rattle.study_values.specs.declared.fault.FileFault.TheVariants.{Device};

    ghost from_gives = { λ _ fault. fault ≡ Device };

    fn from(_failed: DeviceFailed) -> FileFault {
        FileFault::Device
    }
}
