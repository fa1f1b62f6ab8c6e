//! The pages of two studies over built tables, with a refused line and the list of both.
use std::alloc::{Allocator, Global};
use std::io;
use std::io::{ErrorKind, Write};
use study_board::Side;
use study_entry::{EntryInfo, Origin};
use study_html::{Html, write_closing, write_opening};
use study_marks::{Bench, Goal, MateMoves, Stipulation, TagName};
use study_material::Class;
use study_notation::{read_fen, read_san};
use study_page::{Listed, write_page, write_refusal, write_summary};
use study_prober::WholeTables;
use study_retro::{BuildRoom, build};
use study_table::TableSet;
use study_tree::Path;
use study_values::cells;

/// The start of both studies.
const START: &str = "k7/1R6/8/K7/8/8/8/8 w - - 0 1";

/// The moves, each below the node at a path.
const MOVES: [(&[u16], &str); 10] = [
    (&[], "Rc7"),
    (&[], "Kb6"),
    (&[], "Kb5"),
    (&[2], "Kxb7"),
    (&[0], "Kb8"),
    (&[0, 0], "Kb6"),
    (&[0, 0], "Rc6"),
    (&[0, 0, 1], "Ka7"),
    (&[0, 0, 0], "Ka8"),
    (&[0, 0, 0, 0], "Rc8"),
];

/// The values of king and rook against king.
fn tables<'a, A: Allocator>(alloc: &'a A) -> Option<WholeTables<'a, A>> {
    let mut set = TableSet::new(alloc).ok()?;
    for class in [Class::KK, Class::KRK] {
        let room = BuildRoom::new(alloc, cells(class)).ok()?;
        let (table, _) = build(class, &set, room).ok()?;
        if set.add(table).is_err() {
            return None;
        }
    }
    Some(WholeTables::new(set))
}

fn path_of<'a, A: Allocator>(alloc: &'a A, steps: &[u16]) -> Option<Path<'a, A>> {
    let mut path = Path::root(alloc);
    for step in steps {
        path.push(*step).ok()?;
    }
    Some(path)
}

fn insert<'a, A: Allocator>(
    bench: &mut Bench<'a, A>,
    values: &mut WholeTables<'a, A>,
    path: &Path<'a, A>,
    san: &str,
) -> Option<u16> {
    let start = bench.start_at(path)?;
    let m = read_san(&start.position, san).ok()?;
    bench.insert(path, m, values).ok()
}

/// The study, to mate in so many moves.
fn study<'a, A: Allocator>(
    alloc: &'a A,
    values: &mut WholeTables<'a, A>,
    moves: u8,
) -> Option<Bench<'a, A>> {
    let stipulation = Stipulation {
        hero: Side::White,
        goal: Goal::MateIn(MateMoves::new(moves)?),
    };
    let start = read_fen(START).ok()?;
    let mut bench = Bench::new(alloc, start, stipulation, values).ok()?;
    bench.set_tag(TagName::Event, "King and rook").ok()?;
    bench.set_tag(TagName::White, "Found with the tables").ok()?;
    for (steps, san) in MOVES {
        let path = path_of(alloc, steps)?;
        let _place = insert(&mut bench, values, &path, san)?;
    }
    Some(bench)
}

/// The pages of both studies, mate in three and mate in four.
fn write_all<'a, A: Allocator, W: Write>(alloc: &'a A, out: &mut W) -> Option<()> {
    let mut values = tables(alloc)?;
    let mut entries = Html::new(alloc);
    write_opening(out).ok()?;
    for (number, moves) in [(1, 3), (2, 4)] {
        let bench = study(alloc, &mut values, moves)?;
        let list = Listed {
            alloc,
            rows: &entries,
        };
        let info = EntryInfo {
            number,
            origin: Origin::whole(),
        };
        let more = write_page(alloc, &bench, &mut values, info, list, out).ok()?;
        entries = more;
    }
    let reason = b"a letter outside plain ASCII & 'so'";
    write_refusal(alloc, 7, b"insert root <b>\xE9", b"BadByte", reason, out).ok()?;
    write_summary(alloc, &entries, out).ok()?;
    write_closing(out).ok()
}

/// Writes the pages as one file.
///
/// No contract: the output is compared with the stored one.
pub fn write_pages<W: Write>(alloc: Global, out: &mut W) -> io::Result<()> {
    match write_all(&alloc, out) {
        Some(()) => Ok(()),
        None => Err(io::Error::from(ErrorKind::Other)),
    }
}
