//! Why a review or a part of a report is not written.

use std::alloc::{AllocError, AllocFailed};
use study_text::DeviceFailed;
use study_values::ProbeFault;
use thiserror::Error;

/// Why the review of a study is not written, or only in part.
#[derive(Clone, Copy, Debug, PartialEq, Eq, Error)]
pub enum ReviewFault {
    #[error("no memory is left for the text")]
    OutOfMemory,
    #[error("the device failed")]
    Device,
    #[error("a value could not be read: {0}")]
    Values(ProbeFault),
}

/// Why a text without values is not written, or not whole.
#[derive(Clone, Copy, Debug, PartialEq, Eq, Error)]
pub enum WriteFault {
    #[error("no memory is left for the text")]
    OutOfMemory,
    #[error("the device failed")]
    Device,
}

/// Why the text of a review is not made.
#[derive(Clone, Copy, Debug, PartialEq, Eq)]
pub enum TextFault {
    OutOfMemory,
    NoValue(ProbeFault),
}

impl From<DeviceFailed> for ReviewFault {
    ghost use Rattle.std.specs.Prelude.{◌≡◌};
    ghost use Rattle.study_facts.specs.declared.fault.ReviewFault.TheVariants.{Device};

    ghost from_gives = { λ _ fault. fault ≡ Device };

    fn from(_failed: DeviceFailed) -> ReviewFault {
        ReviewFault::Device
    }
}

impl From<AllocError> for WriteFault {
    ghost use Rattle.std.specs.Prelude.{◌≡◌};
    ghost use Rattle.study_facts.specs.declared.fault.WriteFault.TheVariants.{OutOfMemory};

    ghost from_gives = { λ _ fault. fault ≡ OutOfMemory };

    fn from(_error: AllocError) -> WriteFault {
        WriteFault::OutOfMemory
    }
}

impl From<DeviceFailed> for WriteFault {
    ghost use Rattle.std.specs.Prelude.{◌≡◌};
    ghost use Rattle.study_facts.specs.declared.fault.WriteFault.TheVariants.{Device};

    ghost from_gives = { λ _ fault. fault ≡ Device };

    fn from(_failed: DeviceFailed) -> WriteFault {
        WriteFault::Device
    }
}

impl From<TextFault> for ReviewFault {
    ghost use Rattle.std.specs.Prelude.{◌≡◌};
    ghost use Rattle.study_facts.specs.Made.{fault_of};

    ghost from_gives = { λ reason fault. fault ≡ fault_of reason };

    fn from(reason: TextFault) -> ReviewFault {
        match reason {
            TextFault::OutOfMemory => ReviewFault::OutOfMemory,
            TextFault::NoValue(no_value) => ReviewFault::Values(no_value),
        }
    }
}

impl From<AllocError> for TextFault {
    ghost use Rattle.std.specs.Prelude.{◌≡◌};
    ghost use Rattle.study_facts.specs.declared.fault.TextFault.TheVariants.{OutOfMemory};

    ghost from_gives = { λ _ reason. reason ≡ OutOfMemory };

    fn from(_error: AllocError) -> TextFault {
        TextFault::OutOfMemory
    }
}

impl<T: Drop> From<AllocFailed<T>> for TextFault {
    ghost use Rattle.std.specs.Prelude.{◌≡◌};
    ghost use Rattle.study_facts.specs.declared.fault.TextFault.TheVariants.{OutOfMemory};

    ghost from_gives = { λ _ reason. reason ≡ OutOfMemory };

    fn from(_failed: AllocFailed<T>) -> TextFault {
        TextFault::OutOfMemory
    }
}

impl From<ProbeFault> for TextFault {
    ghost use Rattle.std.specs.Prelude.{◌≡◌};
    ghost use Rattle.study_facts.specs.declared.fault.TextFault.TheVariants.{NoValue};

    ghost from_gives = { λ no_value reason. reason ≡ NoValue no_value };

    fn from(no_value: ProbeFault) -> TextFault {
        TextFault::NoValue(no_value)
    }
}
