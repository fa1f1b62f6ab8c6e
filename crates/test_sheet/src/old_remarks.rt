//! Scripts of version 1.7, whose remarks begin with `#` alone.
use crate::remarks::{NEW, OLD, pages_of};
use std::io::Read;
use std::test::Fail;
use study_report_program::{OldRemarks, put_old_remarks};
use study_text::{MemoryReader, MemoryWriter, WhenFull};

#[test]
fn old_remarks_are_given_as_new_ones(rt: HostRuntime) -> Result<(), Fail> {
    let alloc = rt.alloc();
    let mut text = Vec::new(alloc);
    let count = OldRemarks::new(MemoryReader::new(OLD)).read_to_end(&mut text)?;
    assert!(rt; text.as_slice() == NEW);
    assert!(rt; count == NEW.len());
    let mut empty = Vec::new(alloc);
    let none = OldRemarks::new(MemoryReader::new(b"")).read_to_end(&mut empty)?;
    assert!(rt; none == 0);
    Ok(())
}

#[test]
fn old_remarks_are_printed_as_new_ones(rt: HostRuntime) -> Result<(), Fail> {
    let alloc = rt.alloc();
    let mut script = OldRemarks::new(MemoryReader::new(OLD));
    let (old, answer) = pages_of(&rt, &alloc, &mut script, MemoryWriter::new(&alloc));
    let (new, wanted) = pages_of(
        &rt,
        &alloc,
        &mut MemoryReader::new(NEW),
        MemoryWriter::new(&alloc),
    );
    assert!(rt; old.as_slice() == new.as_slice());
    assert_eq!(rt; answer, wanted);
    // Read as a script of today it has one remark alone.
    let mut script = MemoryReader::new(OLD);
    let (plain, _) = pages_of(&rt, &alloc, &mut script, MemoryWriter::new(&alloc));
    let plain = std::str::from_utf8(plain.as_slice()).unwrap_or("no text");
    assert!(rt; plain.contains("Black was: Pog"));
    assert!(rt; !plain.contains("ti</p>"));
    assert!(rt; !plain.contains("left out"));
    Ok(())
}

/// A reader that fails once at any place gives the rest when it is asked again.
#[test]
fn a_failed_read_loses_nothing(rt: HostRuntime) -> Result<(), Fail> {
    let alloc = rt.alloc();
    for place in 0..OLD.len() {
        let mut script = OldRemarks::new(MemoryReader::failing_once(OLD, place));
        let mut text = Vec::new(alloc);
        let failed = script.read_to_end(&mut text).is_err();
        assert!(rt; failed);
        let _ = script.read_to_end(&mut text)?;
        assert!(rt; text.as_slice() == NEW);
    }
    Ok(())
}

#[test]
fn it_is_said_that_remarks_are_old(rt: HostRuntime) -> Result<(), Fail> {
    let alloc = rt.alloc();
    let said = b"studyreport: comments that begin with '# ' are read as remarks of version 1.7\n";
    let mut errors = MemoryWriter::new(&alloc);
    assert!(rt; put_old_remarks(&mut errors).is_ok());
    assert!(rt; errors.taken.as_slice() == said.as_slice());
    let mut full = MemoryWriter::with_room(&alloc, 20, WhenFull::Fail);
    assert!(rt; put_old_remarks(&mut full).is_err());
    assert!(rt; full.taken.as_slice() == &said[..20]);
    Ok(())
}
