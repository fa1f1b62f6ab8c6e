//! Remarks as values. The lines were written by hand, by the rules of docs/IMPORT.md.
use std::alloc::{AllocError, Allocator};
use std::test::Fail;
use study_remark::{Original, Remark, add_remark, read_old_remark, read_remark};
use study_text::Text;

/// A remark of each kind, and of each form of a game's place.
const REMARKS: &[u8] = b"#! game 2, line 14: stipulated by its comment
#! game 2, line 14: stipulated by the option
#! game 3, line 31: left out: 7 men
#! game 4, line 52, column 17 (Muller, Jurgen): NoSuchMove at Kb6
#! game 5, line 60, column 1 (Smith (jr.)): NotSan at a:b
#! game 4294967295, line 43, column 9: not read: 7. b6
#! not taken over: comments 9, NAGs 4, tags 1
#! behind the result: line 9, column 4
#! Event was: Was: (sic)
#! White was: R\xc3\xa9ti, Richard
#! the stipulation of its comment is not understood
#! the stipulation differs from its tag Result
#! a tail: moves before 7; its position is another program's word
#! games 4, studies 1
";

/// Comments of persons, and lines that no import writes.
const OTHERS: &[u8] = b"# Black was: to move
# game 7, line 3: look again
#!game 3, line 31: left out: 7 men
 #! games 4, studies 1
#! game three, line 31: left out: 7 men
#! game 4294967296, line 31: left out: 7 men
#! game 3, line 31 (Smith: left out
#! game 3, line 31, column: left out
#! game 3, line 31: stipulated by me
#! games 4, studies
#! games 4, studies 1.
#! white was: Reti
#! the stipulation is wrong
#! a tail: moves before 7
#! to be looked at
position 8/8/8/4k3/8/4K3/4P3/8 w - - 0 1
";

/// Whether the line is a remark that is written as it was read. No contract: only tests call it.
fn is_written_again<A: Allocator>(alloc: &A, line: &[u8]) -> Result<bool, AllocError> {
    match read_remark(line) {
        None => Ok(false),
        Some(remark) => {
            let mut again = Text::new(alloc);
            add_remark(&mut again, &remark)?;
            let mut wanted = Text::new(alloc);
            wanted.add(line)?;
            wanted.add(b"\n")?;
            Ok(again.as_slice() == wanted.as_slice())
        }
    }
}

#[test]
fn remarks_are_written_as_they_were_read(rt: HostRuntime) -> Result<(), Fail> {
    let alloc = rt.alloc();
    for line in REMARKS.split(|b| *b == b'\n') {
        assert!(rt; line.is_empty() || is_written_again(&alloc, line)?);
    }
    for line in OTHERS.split(|b| *b == b'\n') {
        assert!(rt; read_remark(line).is_none());
    }
    Ok(())
}

/// Scripts of version 1.7 have `#` alone.
#[test]
fn old_remarks_are_read(rt: HostRuntime) -> Result<(), Fail> {
    let is_white = match read_old_remark(b"# White was: R\xc3\xa9ti") {
        Some(Remark::Original(Original::White, text)) => text == b"R\xc3\xa9ti".as_slice(),
        _ => false,
    };
    assert!(rt; is_white);
    let is_seventh = match read_old_remark(b"# game 7, line 3: left out: 5 men") {
        Some(Remark::LeftOut(subject, why)) => {
            subject.game == 7 && subject.line == 3 && why == b"left out: 5 men".as_slice()
        }
        _ => false,
    };
    assert!(rt; is_seventh);
    assert!(rt; read_old_remark(b"#! games 1, studies 1").is_none());
    Ok(())
}
