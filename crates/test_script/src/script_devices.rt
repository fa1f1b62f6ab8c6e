//! Runs whose reader or writer fails.
use crate::rows::{no_files, replies_of};
use study_script::{RunFault, Settings, Summary, run};
use study_text::{MemoryReader, MemoryWriter, WhenFull};

const SCRIPT: &[u8] = b"position k7/8/1K6/8/8/8/8/7R w - - 0 1\nmoves root\nsolve 1 root\n";

const REPLIES: &[u8] = b"position k7/8/1K6/8/8/8/8/7R w - - 0 1\n\
    moves 20 Ra1+ Rb1 Rc1 Rd1 Re1 Rf1 Rg1 Rh2 Rh3 Rh4 Rh5 Rh6 Rh7 Rh8# Ka5 Kb5 Kc5 Ka6 Kc6 Kc7\nsolve plies 1\n";

/// The empty script has no line.
#[test]
fn an_empty_script_has_no_line(rt: HostRuntime) {
    let alloc = rt.alloc();
    let (text, answer) = replies_of(&alloc, &mut no_files(&alloc), None, b"");
    assert!(rt; text.is_empty());
    assert_eq!(rt;
        answer,
        Ok(Summary {
            lines: 0,
            refused: 0
        })
    );
}

/// A writer that fails, or accepts nothing, has a prefix of the replies, and no line after the interrupted one is read.
#[test]
fn a_failing_writer_has_a_prefix_of_the_replies(rt: HostRuntime) {
    let alloc = rt.alloc();
    for when_full in [WhenFull::Fail, WhenFull::TakeNothing] {
        for room in 0..REPLIES.len() {
            let mut reader = MemoryReader::new(SCRIPT);
            let mut writer = MemoryWriter::with_room(&alloc, room, when_full);
            let answer = run(
                &alloc,
                &mut reader,
                &mut writer,
                &mut no_files(&alloc),
                Settings {
                    pages: None,
                    separate: false,
                },
            );
            assert_eq!(rt; answer, Err(RunFault::WriteDevice), "{room}");
            let (front, _) = REPLIES.split_at(room);
            assert!(rt; writer.taken.as_slice() == front, "{room}");
            let read = if room < 39 {
                39
            } else if room < 130 {
                50
            } else {
                SCRIPT.len()
            };
            assert_eq!(rt; reader.given, read, "{room}");
        }
    }
}

/// A reader that fails after a line: the replies to the lines that had ended are written.
#[test]
fn a_failing_reader_leaves_the_replies_before_it(rt: HostRuntime) {
    let alloc = rt.alloc();
    for count in 0..=SCRIPT.len() {
        let mut writer = MemoryWriter::new(&alloc);
        let answer = run(
            &alloc,
            &mut MemoryReader::failing_after(SCRIPT, count),
            &mut writer,
            &mut no_files(&alloc),
            Settings {
                pages: None,
                separate: false,
            },
        );
        assert_eq!(rt; answer, Err(RunFault::ReadDevice), "{count}");
        let written = if count < 39 {
            0
        } else if count < 50 {
            39
        } else if count < 63 {
            130
        } else {
            REPLIES.len()
        };
        let (front, _) = REPLIES.split_at(written.min(REPLIES.len()));
        assert!(rt; writer.taken.as_slice() == front, "{count}");
    }
}
