//! Why a view or a survey is not written.

use std::alloc::AllocError;
use study_values::ProbeFault;
use thiserror::Error;

/// Why the view of a study is not written, or only in part.
#[derive(Clone, Copy, Debug, PartialEq, Eq, Error)]
pub enum ViewFault {
    #[error("no node is at the path")]
    NoSuchNode,
    #[error("no memory is left for the text")]
    OutOfMemory,
    #[error("the device failed")]
    Device,
    #[error("a value could not be read: {0}")]
    Values(ProbeFault),
}

impl From<AllocError> for ViewFault {
    ghost use Rattle.std.specs.Prelude.{◌≡◌};
    ghost use Rattle.study_view.specs.declared.fault.ViewFault.TheVariants.{OutOfMemory};

    ghost from_gives = { λ _ fault. fault ≡ OutOfMemory };

    fn from(_error: AllocError) -> ViewFault {
        ViewFault::OutOfMemory
    }
}

impl From<ProbeFault> for ViewFault {
    ghost use Rattle.std.specs.Prelude.{◌≡◌};
    ghost use Rattle.study_view.specs.declared.fault.ViewFault.TheVariants.{Values};

    ghost from_gives = { λ no_value fault. fault ≡ Values no_value };

    fn from(no_value: ProbeFault) -> ViewFault {
        ViewFault::Values(no_value)
    }
}

/// Why a survey is not made or written, or only in part.
#[derive(Clone, Copy, Debug, PartialEq, Eq, Error)]
pub enum SurveyFault {
    #[error("no man is on the square")]
    NoMan,
    #[error("no memory is left for the text")]
    OutOfMemory,
    #[error("the device failed")]
    Device,
    #[error("a value could not be read: {0}")]
    Values(ProbeFault),
}
