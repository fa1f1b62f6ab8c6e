//! Lists of KPK: as a script, to a writer that fails, without tables.

use std::alloc::Global;
use std::process::Abort;
use study_board::{Kind, Side};
use study_index::index;
use study_listing::{
    Filters, Form, MAX_STUDIES, NoWatch, Numbers, Request, Selection, Stop, count_found,
    count_numbers, list_found, list_numbers, read_request,
};
use study_material::Class;
use study_notation::read_fen;
use study_prober::{CellPages, FailingValues, WholeTables};
use study_retro::{BuildRoom, build};
use study_search::{Outcome, Search, Theme};
use study_table::TableSet;
use study_text::{MemoryWriter, WhenFull};
use study_values::{ProbeFault, SourceFault, cells};

/// By an independent program: the first of the three positions of KPK in which only an underpromotion wins.
const STUDY: &[u8] = b"position 8/1P6/k7/8/K7/8/8/8 w - - 0 1
stipulate white win
insert root b8=R
pgn
";

/// By an independent program: six only moves, and of the replies that lead on to the rest the first by squares.
const ROW: &[u8] = b"position 8/8/8/1k6/8/8/K5P1/8 w - - 0 1
stipulate white win
insert root Kb3
insert 0 Kc5
insert 0.0 Kc3
insert 0.0.0 Kd5
insert 0.0.0.0 Kd3
insert 0.0.0.0.0 Ke5
insert 0.0.0.0.0.0 Ke3
insert 0.0.0.0.0.0.0 Kf5
insert 0.0.0.0.0.0.0.0 Kf3
insert 0.0.0.0.0.0.0.0.0 Kg5
insert 0.0.0.0.0.0.0.0.0.0 Kg3
pgn
";

const LINE: &[u8] = b"8/1P6/k7/8/K7/8/8/8 w - - 0 1 win 13 b8=R\n";

/// By an independent program: the first two mutual zugzwangs of 80.
const ZUGZWANGS: &[u8] = b"8/8/8/k7/8/K7/1P6/8 w - - 0 1 draw loss 46
8/8/8/k7/8/K7/2P5/8 w - - 0 1 draw loss 44
";

/// The tables of KPK and of the classes that its moves lead to.
fn tables<'a>(rt: &impl Abort, alloc: &'a Global) -> WholeTables<'a, Global> {
    let mut set = TableSet::new(alloc).ok().expect(rt, "a set");
    for class in [
        Class::KK,
        Class::KQK,
        Class::KRK,
        Class::KBK,
        Class::KNK,
        Class::KPK,
    ] {
        let room = BuildRoom::new(alloc, cells(class)).ok().expect(rt, "room");
        let (table, _) = build(class, &set, room).ok().expect(rt, "a table");
        assert!(rt; set.add(table).is_ok());
    }
    WholeTables::new(set)
}

fn search(theme: Theme, side: Option<Side>) -> Selection {
    Selection {
        search: Search {
            class: Class::KPK,
            theme,
            side,
        },
        filters: Filters::none(),
    }
}

/// Whether the list of a position alone is the text.
fn is_said<V: CellPages>(
    rt: &impl Abort,
    alloc: &Global,
    wanted: &Selection,
    form: Form,
    values: &mut V,
    (fen, want): (&str, &[u8]),
) -> bool {
    let start = read_fen(fen).ok().expect(rt, "a position");
    let number = index(&start.position);
    let alone = Numbers {
        from: number,
        to: number.saturating_add(1),
    };
    let mut out = MemoryWriter::new(alloc);
    let found = list_numbers(wanted, form, alone, values, &mut out, &mut NoWatch);
    found == Ok(1) && out.taken.as_slice() == want
}

/// An underpromotion as a line and as a study; and a row of six only moves as the main line of a study.
#[test]
fn a_position_becomes_a_line_and_a_study(rt: HostRuntime) {
    let alloc = rt.alloc();
    let mut values = tables(&rt, &alloc);
    let promotes = search(Theme::Underpromotion, None);
    let fen = "8/1P6/k7/8/K7/8/8/8 w - - 0 1";
    assert!(rt;
        is_said(
            &rt,
            &alloc,
            &promotes,
            Form::Lines,
            &mut values,
            (fen, LINE)
        )
    );
    assert!(rt;
        is_said(
            &rt,
            &alloc,
            &promotes,
            Form::Script,
            &mut values,
            (fen, STUDY)
        )
    );
    let six = search(Theme::OnlyMoves(Outcome::Win, 6), None);
    let fen = "8/8/8/1k6/8/8/K5P1/8 w - - 0 1";
    assert!(rt; is_said(&rt, &alloc, &six, Form::Script, &mut values, (fen, ROW)));
}

/// The same list with one more filter.
fn filtered(filters: Filters) -> Selection {
    Selection {
        search: search(Theme::Underpromotion, None).search,
        filters,
    }
}

/// By an independent program all three underpromotions of KPK win, and promote to a rook.
#[test]
fn promotions_and_results_are_filtered(rt: HostRuntime) {
    let alloc = rt.alloc();
    let mut values = tables(&rt, &alloc);
    for (promoted, result, count) in [
        (Some(Kind::Rook), None, 3u32),
        (Some(Kind::Knight), None, 0),
        (None, Some(Outcome::Win), 3),
        (Some(Kind::Rook), Some(Outcome::Draw), 0),
    ] {
        let mut filters = Filters::none();
        filters.promoted = promoted;
        filters.result = result;
        let found = count_found(&filtered(filters), &mut values, &mut NoWatch);
        assert!(rt; found == Ok(count));
    }
}

/// The number of positions of KPK that the words list.
fn count_of<V: CellPages>(rt: &impl Abort, alloc: Global, line: &str, values: &mut V) -> u32 {
    let mut words = Vec::new(alloc);
    for word in line.split_ascii_whitespace() {
        words.push(word.as_bytes()).ok().expect(rt, "memory");
    }
    let Ok(Request::Positions(wanted)) = read_request(Class::KPK, words.as_slice()) else {
        panic!(rt; "no request");
    };
    count_found(&wanted, values, &mut NoWatch)
        .ok()
        .expect(rt, "values")
}

/// By an independent program: how many rows of KPK have such a move of the hero, in their first place and behind it.
#[test]
fn rows_are_filtered(rt: HostRuntime) {
    let alloc = rt.alloc();
    let mut values = tables(&rt, &alloc);
    for (line, count) in [
        ("win 1 row-underpromotion", 3u32),
        ("win 6 row-zugzwang", 8),
        ("win 5 row-zugzwang wins", 42),
        ("win 5 row-offer", 0),
        ("win 5 row-zugzwang row-offer", 0),
        ("draw 1 row-stalemate", 6),
        ("draw 2 row-stalemate", 1),
    ] {
        assert!(rt; count_of(&rt, alloc, line, &mut values) == count, "{line}");
    }
}

/// A writer with room for two lines and one byte accepts these, and then nothing.
#[test]
fn a_list_stops_in_its_midst(rt: HostRuntime) {
    let alloc = rt.alloc();
    let mut values = tables(&rt, &alloc);
    let wanted = search(Theme::Zugzwang, Some(Side::White));
    assert!(rt; count_found(&wanted, &mut values, &mut NoWatch) == Ok(80));
    let room = ZUGZWANGS.len() + 1;
    let mut out = MemoryWriter::with_room(&alloc, room, WhenFull::Fail);
    let stopped = list_found(&wanted, Form::Lines, &mut values, &mut out, &mut NoWatch);
    assert!(rt; stopped == Err(Stop::WriteDevice));
    assert!(rt; out.taken.len() == room && out.taken.as_slice().starts_with(ZUGZWANGS));
}

/// The numbers from one on and below another.
fn numbers(from: u32, to: u32) -> Numbers {
    Numbers { from, to }
}

/// The lists of two ranges, one after the other, are the list of both, and the counts are theirs.
#[test]
fn ranges_join(rt: HostRuntime) {
    let alloc = rt.alloc();
    let mut values = tables(&rt, &alloc);
    let wanted = search(Theme::Zugzwang, Some(Side::White));
    let mut out = MemoryWriter::new(&alloc);
    for part in [numbers(0, 20_000), numbers(20_000, 50_000)] {
        let found = list_numbers(
            &wanted,
            Form::Lines,
            part,
            &mut values,
            &mut out,
            &mut NoWatch,
        );
        let counted = count_numbers(&wanted, part, &mut values, &mut NoWatch);
        let counted = counted.ok().expect(&rt, "a count");
        assert!(rt; found == Ok(counted));
    }
    let mut both = MemoryWriter::new(&alloc);
    let all = numbers(0, 50_000);
    let found = list_numbers(
        &wanted,
        Form::Lines,
        all,
        &mut values,
        &mut both,
        &mut NoWatch,
    );
    assert!(rt; found.is_ok() && !both.taken.is_empty());
    assert!(rt; both.taken.as_slice() == out.taken.as_slice());
}

/// 124,960 positions of KPK are won, more than a script holds: nothing is written.
#[test]
fn a_script_with_too_many_studies_is_refused(rt: HostRuntime) {
    let alloc = rt.alloc();
    let mut values = tables(&rt, &alloc);
    let wanted = search(Theme::OnlyMoves(Outcome::Win, 0), None);
    let mut out = MemoryWriter::new(&alloc);
    let refused = list_found(&wanted, Form::Script, &mut values, &mut out, &mut NoWatch);
    assert!(rt; refused == Err(Stop::TooManyStudies) && MAX_STUDIES == 3_846);
    assert!(rt; out.taken.is_empty());
}

/// Without a table, and if one cannot be read, the list stops with the fault.
#[test]
fn a_table_is_not_there_or_not_read(rt: HostRuntime) {
    let alloc = rt.alloc();
    let wanted = search(Theme::Zugzwang, Some(Side::White));
    let set = TableSet::new(&alloc).ok().expect(&rt, "a set");
    let mut none = WholeTables::new(set);
    let mut out = MemoryWriter::new(&alloc);
    let stopped = list_found(&wanted, Form::Lines, &mut none, &mut out, &mut NoWatch);
    assert!(rt; stopped == Err(Stop::Values(ProbeFault::NoTable(Class::KPK))));
    let mut failing = FailingValues::new(tables(&rt, &alloc), 1);
    let stopped = list_found(&wanted, Form::Lines, &mut failing, &mut out, &mut NoWatch);
    assert!(rt; stopped == Err(Stop::Values(ProbeFault::TableRead(SourceFault::Device))));
    assert!(rt; out.taken.is_empty());
}

/// By an independent program's list and the images of its positions: the mutual zugzwangs of KPK with White's king on e6 and his pawn
/// on the files e to h.
const PLACED: &[u8] = b"5k2/5P2/4K3/8/8/8/8/8 w - - 0 1 draw loss 14
4k3/8/4KP2/8/8/8/8/8 w - - 0 1 draw loss 16
";

/// Of the images the first with men on the squares is listed; nothing if no image has them.
#[test]
fn images_are_listed(rt: HostRuntime) {
    let alloc = rt.alloc();
    let mut values = tables(&rt, &alloc);
    let words = [
        b"zugzwang".as_slice(),
        b"Ke6".as_slice(),
        b"Pe2-h7".as_slice(),
    ];
    let Ok(Request::Positions(wanted)) = read_request(Class::KPK, words.as_slice()) else {
        assert!(rt; false);
        return;
    };
    let mut out = MemoryWriter::new(&alloc);
    let found = list_found(&wanted, Form::Lines, &mut values, &mut out, &mut NoWatch);
    assert!(rt; found == Ok(2) && out.taken.as_slice() == PLACED);
}

/// By an independent program: none of the three underpromotions of KPK captures or gives check.
#[test]
fn keys_are_let_through(rt: HostRuntime) {
    let alloc = rt.alloc();
    let mut values = tables(&rt, &alloc);
    let mut wanted = search(Theme::Underpromotion, None);
    wanted.filters.no_check = true;
    wanted.filters.no_capture = true;
    assert!(rt; count_found(&wanted, &mut values, &mut NoWatch) == Ok(3));
}

/// By an independent program: eleven of the fifteen positions with six only moves in a row to win, and two of the three underpromotions, are the first of
/// their families.
#[test]
fn the_first_of_a_family_is_listed(rt: HostRuntime) {
    let alloc = rt.alloc();
    let mut values = tables(&rt, &alloc);
    for (theme, count) in [
        (Theme::OnlyMoves(Outcome::Win, 6), 11u32),
        (Theme::Underpromotion, 2),
    ] {
        let mut wanted = search(theme, None);
        wanted.filters.families = true;
        assert!(rt; count_found(&wanted, &mut values, &mut NoWatch) == Ok(count));
    }
}

/// The draw by stalemate with Black to move, `K7/8/P7/2k5/8/8/8/8 b - - 0 1`, with Kb6, a7 and Kc7: with colours exchanged White draws by Kb3.
const AS_WHITE: &[u8] = b"8/8/8/8/2K5/p7/8/k7 w - - 0 1 draw Kb3\n";

/// A position with Black to move is listed as its colour image.
#[test]
fn colours_are_exchanged(rt: HostRuntime) {
    let alloc = rt.alloc();
    let mut values = tables(&rt, &alloc);
    let mut wanted = search(Theme::OnlyMoves(Outcome::Draw, 2), None);
    wanted.filters.as_white = true;
    let fen = "K7/8/P7/2k5/8/8/8/8 b - - 0 1";
    assert!(rt;
        is_said(
            &rt,
            &alloc,
            &wanted,
            Form::Lines,
            &mut values,
            (fen, AS_WHITE)
        )
    );
}
