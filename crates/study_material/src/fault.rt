//! Why a text is not the name of a class.
use thiserror::Error;

/// Why a text is not the name of a class.
#[derive(Clone, Copy, Debug, PartialEq, Eq, Error)]
pub enum ClassFault {
    #[error("no class has this name")]
    NotAClass,
    #[error("positions of this class have no number")]
    MaterialLeftOut,
}
