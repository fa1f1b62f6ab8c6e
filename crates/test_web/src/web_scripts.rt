//! Scripts over the files of a request.

use crate::web_files::span;
use linked_list_allocator::LocalHeap;
use std::alloc::{Allocator, Global};
use std::test::Fail;
use study_material::Class;
use study_web::{
    FileSpan, HandedIn, RunFault, RunOutput, answer_into, make_file, none_saved, replies_over,
};

const LOADS: &[u8] = b"load KK
load KRK
position k7/8/1K6/8/8/8/8/7R w - - 0 1
stipulate white mate 1
insert root Rh8
mark 0
";

/// By hand: Rh8 mates, and no other move does.
const REPLIES: &[u8] = b"loaded KK cells 1280
loaded KRK cells 81920
position k7/8/1K6/8/8/8/8/7R w - - 0 1
stipulate White to mate in 1
insert 0 Rh8#
mark 0 loss 0 only faults 0
";

/// The files of KK and KRK, one after the other.
/// No contract: only tests call it, and they compare the replies of scripts that read the files.
pub fn two_files<'a, A: Allocator>(alloc: &'a A) -> Result<(Vec<u8, &'a A>, [FileSpan; 2]), Fail> {
    let mut bytes = make_file(alloc, Class::KK, &[], &[])?;
    let kings = span(Class::KK, 0, bytes.as_slice());
    let rook = make_file(alloc, Class::KRK, &[kings], bytes.as_slice())?;
    let spans = [kings, span(Class::KRK, kings.length, rook.as_slice())];
    bytes.extend_from_slice(rook.as_slice())?;
    Ok((bytes, spans))
}

/// The same replies over whole tables and over pages.
#[test]
fn whole_and_by_pages(rt: HostRuntime) -> Result<(), Fail> {
    let alloc = rt.alloc();
    let (bytes, spans) = two_files(&alloc)?;
    let saved = none_saved(&alloc)?;
    for pages in [None, Some(1), Some(4096)] {
        let ended = replies_over(
            &alloc,
            LOADS,
            &spans,
            bytes.as_slice(),
            saved.as_slice(),
            pages,
        );
        assert!(rt; ended.text.as_slice() == REPLIES);
    }
    Ok(())
}

/// A saved file is returned, and equals the file that is made.
#[test]
fn saves_are_given_back(rt: HostRuntime) -> Result<(), Fail> {
    let alloc = rt.alloc();
    let saved = none_saved(&alloc)?;
    let script = b"build KK\nsave KK\n".as_slice();
    let ended = replies_over(&alloc, script, &[], &[], saved.as_slice(), None);
    assert!(rt;
        ended.text.as_slice() == b"built KK cells 1280 win -\nsaved KK bytes 4192\n".as_slice()
    );
    let made = make_file(&alloc, Class::KK, &[], &[])?;
    let cell = saved.as_slice().first().ok_or("no cell")?;
    let file = cell.try_borrow()?;
    match &*file {
        None => Err(Fail::from("nothing was saved")),
        Some(bytes) => {
            assert!(rt; bytes.as_slice() == made.as_slice());
            Ok(())
        }
    }
}

/// In heaps of growing size a run ends before its first line for want of memory, until it goes on.
#[test]
fn memory_is_refused(rt: HostRuntime) -> Result<(), Fail> {
    let alloc = rt.alloc();
    let script = b"moves root\n".as_slice();
    let mut refused = 0u32;
    for step in 0..400usize {
        let heap = LocalHeap::new(alloc, 64 + step * 16)?;
        let saved = Vec::new(&heap);
        let ended = replies_over(&heap, script, &[], &[], saved.as_slice(), None);
        if ended.summary.is_ok() {
            assert!(rt; ended.text.as_slice() == b"error NoPosition\n".as_slice());
            assert!(rt; refused > 0);
            return Ok(());
        }
        refused = refused.saturating_add(1);
    }
    Err(Fail::from("no heap was large enough"))
}

/// The answer to a request of one line that is refused.
const HANDED_BACK: &[u8] = b"ran 1 1\nerror NoPosition\n";

/// The ending and the text are returned, as much of both as fits; the length is that of both, and the bytes after them are unchanged.
#[test]
fn the_answer_is_handed_back(rt: HostRuntime) {
    let alloc = rt.alloc();
    let saved = Vec::new(&alloc);
    let handed_in = HandedIn {
        request: b"run",
        script: b"moves root\n",
        spans: &[],
        bytes: &[],
        pages: 0,
    };
    for room in [0usize, 5, 25, 30] {
        let mut out = [7u8; 30];
        let length = answer_into(&alloc, &handed_in, saved.as_slice(), &mut out[..room]);
        assert!(rt; length == HANDED_BACK.len());
        let (front, behind) = out.split_at(room.min(25));
        assert!(rt; HANDED_BACK.starts_with(front), "{room}");
        assert!(rt; behind.iter().all(|byte| *byte == 7), "{room}");
    }
}
