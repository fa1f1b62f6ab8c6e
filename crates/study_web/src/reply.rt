//! An answer, and how it ended.
ghost use Rattle.std.specs.Prelude.{◌≡◌, [], IfOk, IfErr};
ghost use Rattle.study_web.specs.Reported.{IsDenied, IsAnswerFault, ending_of};

use crate::request_fault::RequestFault;
use crate::wire_text::put_request_fault;
use std::alloc::Allocator;
use study_script::{RunFault, Summary};

/// How an answer ended.
#[derive(Clone, Copy, Debug, PartialEq, Eq)]
pub enum Ending {
    /// The text is the whole answer.
    Answered,
    /// The text is the name of the refusal, and a line feed.
    Refused(RequestFault),
    /// Each line of the script was read; the text has the replies or the report.
    Ran(Summary),
    /// The script was not read to the end, or there is no memory. The text has what was written before, or is empty.
    Stopped(RunFault),
}

/// The answer to a request.
#[derive(Drop)]
pub struct Answer<'a, A: Allocator> {
    pub text: Vec<u8, &'a A>,
    pub ended: Ending,
}

/// Why there is no text: the request is refused, or the script was not read to the end.
#[derive(Clone, Copy, Debug, PartialEq, Eq)]
pub enum AnswerFault {
    Denied(RequestFault),
    Stopped(RunFault),
}

/// The name of the refusal.
pub fn fault_answer<'a, A: Allocator>(alloc: &'a A, denial: RequestFault) -> Answer<'a, A>
    ensures { IsDenied denial result.text.items result.ended }
{
    let mut text = Vec::new(alloc);
    match put_request_fault(&mut text, denial) {
        Ok(()) => Answer {
            text,
            ended: Ending::Refused(denial),
        },
        Err(_) => stop_answer(alloc, RunFault::OutOfMemory),
    }
}

/// An empty text, and this fault.
fn stop_answer<'a, A: Allocator>(alloc: &'a A, fault: RunFault) -> Answer<'a, A>
    ensures ended { result.ended ≡ Ending.Stopped fault }
    ensures text { result.text.items ≡ [] }
{
    Answer {
        text: Vec::new(alloc),
        ended: Ending::Stopped(fault),
    }
}

/// A text, or why there is none.
pub fn answer_of<'a, A: Allocator>(
    alloc: &'a A,
    made: Result<Vec<u8, &'a A>, AnswerFault>,
) -> Answer<'a, A>
    ensures text { IfOk made.entry (λ text. (result.ended ≡ Ending.Answered)
        × (result.text.items ≡ text.items)) }
    ensures none { IfErr made.entry (λ why. IsAnswerFault why result.text.items result.ended) }
{
    match made {
        Ok(text) => Answer {
            text,
            ended: Ending::Answered,
        },
        Err(AnswerFault::Denied(denial)) => fault_answer(alloc, denial),
        Err(AnswerFault::Stopped(fault)) => stop_answer(alloc, fault),
    }
}

/// The text that a run wrote, and how the run ended.
pub fn ran<'a, A: Allocator>(
    text: Vec<u8, &'a A>,
    summary: Result<Summary, RunFault>,
) -> Answer<'a, A>
    ensures ended { result.ended ≡ ending_of summary }
    ensures text { result.text.items ≡ text.entry.items }
{
    let ended = match summary {
        Ok(summary) => Ending::Ran(summary),
        Err(fault) => Ending::Stopped(fault),
    };
    Answer { text, ended }
}
