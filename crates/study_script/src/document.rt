//! The document of a script.

use std::alloc::Allocator;
use study_marks::Bench;
use study_notation::Start;

/// Nothing, a start, or a study with its marks.
#[derive(Drop)]
pub enum Document<'a, A: Allocator> {
    Empty,
    Start(Start),
    Study(Bench<'a, A>),
}
