//! What a page is made of, before it is whole.
ghost use Rattle.std.specs.Prelude.{◌≡◌, []};

use std::alloc::Allocator;
use study_html::Html;

/// What is made of the nodes, part by part.
#[derive(Drop)]
pub struct Sections<'a, A: Allocator> {
    pub faults: Html<'a, A>,
    pub duals: Html<'a, A>,
    pub tries: Html<'a, A>,
    pub zugzwangs: Html<'a, A>,
    pub defences: Html<'a, A>,
    pub ends: Html<'a, A>,
}

impl<'a, A: Allocator> Sections<'a, A> {
    /// Nothing of any node.
    pub fn new(alloc: &'a A) -> Self
        ensures faults { result.faults ≡ [] }
        ensures duals { result.duals ≡ [] }
        ensures tries { result.tries ≡ [] }
        ensures zugzwangs { result.zugzwangs ≡ [] }
        ensures defences { result.defences ≡ [] }
        ensures ends { result.ends ≡ [] }
    {
        Sections {
            faults: Html::new(alloc),
            duals: Html::new(alloc),
            tries: Html::new(alloc),
            zugzwangs: Html::new(alloc),
            defences: Html::new(alloc),
            ends: Html::new(alloc),
        }
    }
}
