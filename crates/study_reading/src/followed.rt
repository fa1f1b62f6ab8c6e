//! What is followed while the moves of a game are read.
ghost use Rattle.std.specs.Prelude.{◌≡◌, ◌++◌, IfOk};
ghost use Rattle.study_reading.specs.Followed.{Rules, Goes};

use crate::moves::{MoveFault, Step};
use std::alloc::{AllocError, Allocator};
use study_board::Side;
use study_games::Claim;
use study_text::Text;

/// A study whose tree grows by the moves of a game. Its rules say which texts are moves, and what they lead to.
pub trait Followed: Drop {
    /// The study as contracts see it.
    ghost State: { Type 0 };

    ghost study: { Self → State };

    ghost rules: { Rules State };

    /// The side that begins.
    fn begins(&self) -> Side
        ensures { result ≡ rules.begins (study self.now) };

    /// Goes from a node to the child with the move that the text spells; if there is none, to a new child, the last, and adds the line that inserts it.
    fn play<A: Allocator>(
        &mut self,
        steps: &[u16],
        san: &str,
        inserts: &mut Text<'_, A>,
    ) -> Result<Step, MoveFault>
        ensures goes { Goes result (rules.played (study self.old) steps.now san.now) (study self.new) }
        ensures inserted { IfOk result (λ step.
            inserts.new ≡ inserts.old ++ rules.inserted (study self.old) steps.now step.added) };

    /// Whether the node exists, and what the signs behind a move claim is false of its position.
    fn is_false(&self, steps: &[u16], claim: Claim) -> Result<bool, AllocError>
        ensures { IfOk result (λ is. is ≡ rules.is_false (study self.now) steps.now claim) };
}
