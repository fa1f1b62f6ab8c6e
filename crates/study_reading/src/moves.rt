//! The effect of a text for a move.
ghost use Rattle.std.specs.Prelude.{◌≡◌};

use std::alloc::AllocError;
use study_moves::Move;
use study_notation::SanFault;

/// Why a move cannot be read.
#[derive(Clone, Copy)]
pub enum MoveFault {
    /// There is no such node.
    NoSuchNode,
    /// The text is not a legal move here.
    San(SanFault),
    /// More than 256 plies.
    TooDeep,
    /// More than 4,096 nodes.
    TreeFull,
    /// No memory is left.
    OutOfMemory,
}

impl From<AllocError> for MoveFault {
    ghost use Rattle.std.specs.Prelude.{◌≡◌};
    ghost use Rattle.study_reading.specs.declared.moves.MoveFault.TheVariants.{OutOfMemory};

    ghost from_gives = { λ _ fault. fault ≡ OutOfMemory };

    fn from(_error: AllocError) -> MoveFault {
        MoveFault::OutOfMemory
    }
}

/// The child to which a move leads, and the move if the child is new.
#[derive(Clone, Copy)]
pub struct Step {
    pub place: u16,
    pub added: Option<Move>,
}
