//! Refusals of a bench.
ghost use Rattle.std.specs.Prelude.{◌≡◌};

use std::alloc::Allocator;
use study_material::Class;
use study_tree::{Path, TreeFault};
use study_values::ProbeFault;

/// Why an edit is refused; reasons are checked in this order.
#[derive(Drop)]
pub enum Refusal<'a, A: Allocator> {
    NoSuchNode,
    RootNotAllowed,
    AlreadyFirst,
    IllegalMove,
    AlreadyThere(u16),
    TooDeep,
    TreeFull,
    ShiftBroken(Path<'a, A>),
    TagText,
    OutOfMemory,
    NoTable(Class),
    TableRead(ProbeFault),
}

impl<'a, A: Allocator> From<ProbeFault> for Refusal<'a, A> {
    ghost use Rattle.study_marks.specs.Refusals.{refused_by};

    ghost from_gives = { λ fault refusal. refusal ≡ refused_by fault };

    fn from(fault: ProbeFault) -> Self {
        match fault {
            ProbeFault::NoTable(class) => Refusal::NoTable(class),
            _ => Refusal::TableRead(fault),
        }
    }
}

impl<'a, A: Allocator> From<TreeFault> for Refusal<'a, A> {
    ghost use Rattle.study_marks.specs.Refusals.{refused_by_tree};

    ghost from_gives = { λ fault refusal. refusal ≡ refused_by_tree fault };

    fn from(fault: TreeFault) -> Self {
        match fault {
            TreeFault::NoSuchNode => Refusal::NoSuchNode,
            TreeFault::Root => Refusal::RootNotAllowed,
            TreeFault::AlreadyFirst => Refusal::AlreadyFirst,
            TreeFault::TooDeep => Refusal::TooDeep,
            TreeFault::TreeFull => Refusal::TreeFull,
            TreeFault::OutOfMemory => Refusal::OutOfMemory,
        }
    }
}
