//! The largest tree that a study can have.
use std::alloc::Allocator;
use std::process::Abort;
use std::test::Fail;
use study_script::{MemoryStore, Settings, Summary, run};
use study_text::{MemoryReader, MemoryWriter};

/// The moves of the kings to and fro, eight each time; the first of them continues.
const MOVES: [[&str; 8]; 4] = [
    ["Ke3", "Kc2", "Kd2", "Ke2", "Kc3", "Kc4", "Kd4", "Ke4"],
    ["Ke6", "Kc5", "Kd5", "Ke5", "Kc6", "Kc7", "Kd7", "Ke7"],
    ["Kd3", "Kd2", "Ke2", "Kf2", "Kf3", "Kd4", "Ke4", "Kf4"],
    ["Kd6", "Kd5", "Ke5", "Kf5", "Kf6", "Kd7", "Ke7", "Kf7"],
];

/// Adds `insert PATH SAN`: PATH is the node at this depth, by first children from the node at a path.
fn put_insert<A: Allocator>(
    rt: &impl Abort,
    text: &mut Vec<u8, &A>,
    from: &str,
    depth: usize,
    san: &str,
) {
    append(rt, text, "insert ");
    append(
        rt,
        text,
        if from.is_empty() && depth == 0 {
            "root"
        } else {
            from
        },
    );
    for step in 0..depth {
        append(
            rt,
            text,
            if from.is_empty() && step == 0 {
                "0"
            } else {
                ".0"
            },
        );
    }
    append(rt, text, " ");
    append(rt, text, san);
    append(rt, text, "\n");
}

fn append<A: Allocator>(rt: &impl Abort, text: &mut Vec<u8, &A>, more: &str) {
    assert!(rt; text.extend_from_slice(more.as_bytes()).is_ok());
}

/// All moves of the kings below the nodes from a path on, to this depth, up to so many moves. Returns their number.
fn put_comb<A: Allocator>(
    rt: &impl Abort,
    text: &mut Vec<u8, &A>,
    from: &str,
    depths: usize,
    count: u32,
) -> u32 {
    let mut put = 0u32;
    for depth in 0..depths {
        for san in MOVES[depth % 4] {
            if put < count {
                put_insert(rt, text, from, depth, san);
                put = put.saturating_add(1);
            }
        }
    }
    put
}

const KINGS: &str = "build KK\nposition 8/8/3k4/8/8/3K4/8/8 w - - 0 1\nstipulate white draw\n";

/// Two more ways to the first position, four moves down.
const DETOURS: &str =
    "insert 1 Ke6\ninsert 1.0 Kd3\ninsert 1.0.0 Kd6\ninsert 2 Ke6\ninsert 2.0 Kd3\ninsert 2.0.0 Kd6\n";

/// Lines for a tree that is full, and their replies.
const FULL: &str = "insert 3 Ke6\ninsert root Kc2\ndelete 3\ninsert root Ke2\ninsert 7 Ke6\n";

const FULL_REPLIES: &str =
    "error TreeFull\nerror AlreadyThere 1\ndelete 3\ninsert 7 Ke2\nerror TreeFull\n";

/// A store without files, and without writers for saved files.
fn no_files<'f, 'a, A: Allocator>(_alloc: &'a A) -> MemoryStore<'f, 'a, 'a, A> {
    MemoryStore::new(&[])
}

/// A tree of 4,096 nodes; one more is refused, until one is deleted.
#[test]
fn a_tree_has_at_most_4096_nodes(rt: HostRuntime) -> Result<(), Fail> {
    let alloc = rt.alloc();
    let mut script = Vec::new(&alloc);
    append(&rt, &mut script, KINGS);
    assert_eq!(rt; put_comb(&rt, &mut script, "", 256, 2_048), 2_048);
    append(&rt, &mut script, DETOURS);
    assert_eq!(rt; put_comb(&rt, &mut script, "1.0.0.0", 252, 2_016), 2_016);
    assert_eq!(rt; put_comb(&rt, &mut script, "2.0.0.0", 252, 25), 25);
    append(&rt, &mut script, FULL);
    let mut writer = MemoryWriter::new(&alloc);
    let settings = Settings {
        pages: None,
        separate: false,
    };
    let answer = run(
        &alloc,
        &mut MemoryReader::new(script.as_slice()),
        &mut writer,
        &mut no_files(&alloc),
        settings,
    );
    let text = std::str::from_utf8(writer.taken.as_slice())?;
    let (_, rest) = text
        .split_once("\ninsert 2.0.0.0.0.0.0.0 Kd6\n")
        .ok_or("not full")?;
    assert_eq!(rt; rest, FULL_REPLIES);
    let (lines, refused) = (4_103, 3);
    assert_eq!(rt; answer, Ok(Summary { lines, refused }));
    Ok(())
}
