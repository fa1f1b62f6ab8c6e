//! Paths from the root.
ghost use Rattle.std.specs.Prelude.{◌≡◌, ◌++◌, ◌∷◌, [], OnErr, OnOk};

use smallvec::SmallVec;
use std::alloc::{AllocError, Allocator};
use std::marker::Model;

/// The number of places that a path stores without allocating.
const INLINE_PLACES: usize = 16;

/// A path down from the root: at each step the place of a child among its siblings, counted from 0.
#[derive(Drop)]
pub struct Path<'a, A: Allocator> {
    places: SmallVec<u16, INLINE_PLACES, &'a A>,
}

impl<'a, A: Allocator> Model for Path<'a, A> {
    ghost use Rattle.std.specs.Prelude.{ℕ, List};

    ghost Value = { List ℕ };

    ghost view = { λ p. p.places.items };
}

impl<'a, A: Allocator> Path<'a, A> {
    /// The path to the root, which takes no memory.
    pub fn root(alloc: &'a A) -> Self
        ensures { result ≡ [] }
    {
        Path {
            places: SmallVec::new(alloc),
        }
    }

    /// Extends the path to the child at this place.
    pub fn push(&mut self, place: u16) -> Result<(), AllocError>
        ensures ok { OnOk result (self.new ≡ self.old ++ place ∷ []) }
        ensures err { OnErr result (self.new ≡ self.old) }
    {
        self.places.push(place)?;
        Ok(())
    }

    /// The places from the root on.
    pub fn steps(&self) -> &[u16]
        ensures { result.now ≡ self.now }
    {
        self.places.as_slice()
    }
}
