//! How a run over the bytes of a request ends, and what it wrote.
ghost use Rattle.std.specs.Prelude.{◌≡◌, ◌⊎◌, [], Err};
ghost use Rattle.study_web.specs.Answers.{IsOwn, IsOwnEnd};

use std::alloc::Allocator;
use study_script::{RunFault, Summary};

/// What a run wrote, and how it ended.
#[derive(Drop)]
pub struct RunOutput<'a, A: Allocator> {
    /// The replies, the review or the pages, as far as the run came; empty if it stopped for want of memory.
    pub text: Vec<u8, &'a A>,
    pub summary: Result<Summary, RunFault>,
}

/// The fault of a run that reads a slice and writes into memory: reading cannot fail, and writing fails only for want of memory.
pub fn own_fault(fault: RunFault) -> RunFault
    ensures own { IsOwn result }
    ensures same { (result ≡ fault) ⊎ (result ≡ RunFault.OutOfMemory) }
{
    match fault {
        RunFault::ReadDevice | RunFault::WriteDevice | RunFault::OutOfMemory => {
            RunFault::OutOfMemory
        }
        RunFault::LineTooLong(line) => RunFault::LineTooLong(line),
        RunFault::TooManyLines => RunFault::TooManyLines,
    }
}

/// What such a run wrote; nothing if there was no memory for it.
pub fn own_end<'a, A: Allocator>(
    alloc: &'a A,
    text: Vec<u8, &'a A>,
    summary: Result<Summary, RunFault>,
) -> RunOutput<'a, A>
    ensures own { IsOwnEnd result.summary }
    ensures ended { ((result.text.items ≡ text.entry.items) × (result.summary ≡ summary))
        ⊎ ((result.text.items ≡ []) × (result.summary ≡ Err RunFault.OutOfMemory)) }
{
    match summary {
        Err(RunFault::ReadDevice) | Err(RunFault::WriteDevice) => RunOutput {
            text: Vec::new(alloc),
            summary: Err(RunFault::OutOfMemory),
        },
        Ok(_)
        | Err(RunFault::LineTooLong(_))
        | Err(RunFault::TooManyLines)
        | Err(RunFault::OutOfMemory) => RunOutput { text, summary },
    }
}
