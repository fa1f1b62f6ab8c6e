//! The bytes that a module writes back to a page: a line with how the answer ended, then its text.
ghost use Rattle.std.specs.Prelude.{◌≡◌, ◌≤◌, ◌⊎◌, ◌++◌, ℕ, List, length, take, drop, min, is_some, IfSome, IfOk, OnOk};
ghost use Rattle.study_web.specs.Answers.{IsAnswer, IsHanded, IsNothing, is_paged, spans_of};
ghost use Rattle.study_web.specs.Request.{request_of};
ghost use Rattle.study_web.specs.Reported.{ending_text};
ghost use Rattle.study_web.specs.declared.reply.Ending.{Ending as AnEnding};

use crate::dispatch::answer;
use crate::file_spans::{FileSpan, TableFiles};
use crate::reply::Answer;
use crate::saved::Saved;
use crate::wire_text::put_ending;
use std::alloc::{AllocError, Allocator};
use study_text::{DeviceFailed, write_text};

/// The files that a page hands in.
#[derive(Clone, Copy)]
pub struct HandedIn<'f> {
    pub request: &'f [u8],
    pub script: &'f [u8],
    /// Three numbers for each file: the index of its class in the class list, and its start and length in `bytes`.
    pub spans: &'f [usize],
    /// The files, one after the other.
    pub bytes: &'f [u8],
    /// The number of pages kept in memory, from 1 to 4,096; any other number means that tables are read whole.
    pub pages: u16,
}

/// Answers a request of a page: a line with how the answer ended, then its text.
///
/// The result is the length of the answer; `out` has as much of it as fits. If there is no memory, the result is 0 and `out` is unchanged. What `run`
/// saves is put into the cells, one for each class.
pub fn answer_into<'a, A: Allocator>(
    alloc: &'a A,
    handed_in: &HandedIn<'_>,
    saved: &[Saved<'a, A>],
    out: &mut [u8],
) -> usize
    ensures { IsNothing out.old out.new result ⊎ ((text : List ℕ) × (ended : AnEnding)
        × IsAnswer (spans_of handed_in.now.spans.now) handed_in.now.bytes.now
        (is_paged handed_in.now.pages) handed_in.now.script.now
        (request_of handed_in.now.request.now) text ended
        × IsHanded (ending_text ended ++ text) out.old out.new result) }
{
    let Ok(spans) = read_spans(alloc, handed_in.spans) else {
        return 0;
    };
    let files = TableFiles {
        spans: spans.as_slice(),
        bytes: handed_in.bytes,
        pages: pages_of(handed_in.pages),
    };
    let reply = answer(alloc, handed_in.request, handed_in.script, &files, saved);
    hand_back(alloc, &reply, out)
}

/// The numbers as a directory of files.
fn read_spans<'a, A: Allocator>(
    alloc: &'a A,
    numbers: &[usize],
) -> Result<Vec<FileSpan, &'a A>, AllocError>
    ensures { IfOk result (λ spans. spans.items ≡ spans_of numbers.now) }
{
    let mut spans = Vec::new(alloc);
    let mut rest = numbers;
    while 3 <= rest.len() {
        let (span, behind) = rest.split_at(3);
        spans.push(FileSpan {
            class: span[0],
            start: span[1],
            length: span[2],
        })?;
        rest = behind;
    }
    Ok(spans)
}

fn pages_of(pages: u16) -> Option<u16>
    ensures few { IfSome result (λ n. (1 ≤ n) × (n ≤ 4096)) }
    ensures some { is_some result ≡ is_paged pages }
{
    if 1 <= pages && pages <= 4096 {
        Some(pages)
    } else {
        None
    }
}

/// Copies as much of the answer to the front of `out` as fits. The result is the length of the answer, or 0 if there is no memory.
fn hand_back<'a, A: Allocator>(alloc: &'a A, reply: &Answer<'a, A>, out: &mut [u8]) -> usize
    ensures { IsNothing out.old out.new result
        ⊎ IsHanded (ending_text reply.now.ended ++ reply.now.text.items) out.old out.new result }
{
    let mut text = Vec::new(alloc);
    match put_reply(&mut text, reply) {
        Ok(()) => {
            copy_front(text.as_slice(), out);
            text.len()
        }
        Err(_) => 0,
    }
}

/// Writes a line with how the answer ended, then its text.
fn put_reply<'a, A: Allocator>(
    text: &mut Vec<u8, &'a A>,
    reply: &Answer<'a, A>,
) -> Result<(), DeviceFailed>
    ensures { OnOk result (text.new.items ≡ text.old.items
        ++ (ending_text reply.now.ended ++ reply.now.text.items)) }
{
    put_ending(text, reply.ended)?;
    write_text(text, reply.text.as_slice())
}

fn copy_front(text: &[u8], out: &mut [u8])
    ensures { out.new ≡ take (min (length text.now) (length out.old)) text.now
        ++ drop (min (length text.now) (length out.old)) out.old }
{
    let count = text.len().min(out.len());
    out[..count].copy_from_slice(&text[..count]);
}
