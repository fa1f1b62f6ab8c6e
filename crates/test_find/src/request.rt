//! The requests of words.

use std::alloc::Global;
use std::process::Abort;
use study_board::{Kind, Side, Square};
use study_listing::{Feature, Filters, Placed, Request, Selection, Unread, read_request};
use study_material::Class;
use study_search::{Outcome, Search, Theme};

/// The request that the words of a line spell, after a class.
fn read(rt: &impl Abort, alloc: Global, class: Class, line: &str) -> Result<Request, Unread> {
    let mut words = Vec::new(alloc);
    for word in line.split_ascii_whitespace() {
        words.push(word.as_bytes()).ok().expect(rt, "memory");
    }
    read_request(class, words.as_slice())
}

fn positions(class: Class, theme: Theme, side: Option<Side>) -> Selection {
    Selection {
        search: Search { class, theme, side },
        filters: Filters::none(),
    }
}

fn place(side: Side, kind: Kind, from: u8, to: u8) -> Option<Placed> {
    match (Square::new(from), Square::new(to)) {
        (Some(from), Some(to)) => Some(Placed {
            side,
            kind,
            from,
            to,
        }),
        _ => None,
    }
}

/// Themes of one word and of two, with a side to move and without.
#[test]
fn words_are_read(rt: HostRuntime) {
    let alloc = rt.alloc();
    let white = Some(Side::White);
    let six = Theme::OnlyMoves(Outcome::Win, 6);
    let into = Theme::IntoZugzwang(Outcome::Draw);
    let by_try = Theme::ZugzwangTry(Outcome::Win);
    for (line, class, theme, side) in [
        ("zugzwang", Class::KPK, Theme::Zugzwang, white),
        ("underpromotion", Class::KPKP, Theme::Underpromotion, white),
        ("win 6", Class::KPK, six, None),
        ("win 6 black", Class::KPK, six, Some(Side::Black)),
        ("into draw", Class::KPK, into, None),
        ("try win", Class::KPK, by_try, None),
    ] {
        let want = Request::Positions(positions(class, theme, side));
        assert!(rt; read(&rt, alloc, class, line) == Ok(want));
    }
    let longest = read(&rt, alloc, Class::KPK, "longest white");
    assert!(rt; longest == Ok(Request::Longest(Class::KPK, Side::White)));
}

/// Filters in any order.
#[test]
fn filters_are_read(rt: HostRuntime) {
    let alloc = rt.alloc();
    let mut want = positions(
        Class::KPKP,
        Theme::OnlyMoves(Outcome::Win, 5),
        Some(Side::Black),
    );
    want.filters.men[0] = place(Side::White, Kind::King, 53, 53);
    want.filters.men[1] = place(Side::Black, Kind::Pawn, 8, 31);
    want.filters.no_check = true;
    want.filters.promoted = Some(Kind::Knight);
    want.filters.result = Some(Outcome::Win);
    want.filters.row[0] = Some(Feature::Stalemate);
    want.filters.row[1] = Some(Feature::Offer);
    want.filters.row[2] = Some(Feature::Zugzwang);
    want.filters.row[3] = Some(Feature::Underpromotion);
    want.filters.families = true;
    want.filters.as_white = true;
    let line =
        "win 5 Kf7 row-stalemate no-check =N row-offer pa2-h4 black families as-white row-zugzwang wins row-underpromotion";
    assert!(rt; read(&rt, alloc, Class::KPKP, line) == Ok(Request::Positions(want)));
}

const REFUSED: &str = "mate
win 256
longest red white
win 5 red
zugzwang white white
win 5 Kf9
win 5 Xf7
win 5 Pa2-
win 5 Ph4-a2
win 5 Ka1 Kb1 Kc1 Kd1 Ke1
win 5 =K
win 5 =N =N
underpromotion wins draws
win 5 row-check
win 5 row-offer row-offer row-offer row-offer row-offer
longest white row-offer
longest white Kf7
zugzwang no-check red
zugzwang no-capture
zugzwang white no-check
zugzwang =R
zugzwang row-zugzwang
zugzwang families
zugzwang draws";

/// A refusal for the theme comes before one for the words after it, and among these the first unknown word is refused.
#[test]
fn words_are_refused(rt: HostRuntime) {
    let alloc = rt.alloc();
    assert!(rt; read(&rt, alloc, Class::KPK, "") == Err(Unread::NoSuchTheme));
    let mut number = 0u32;
    for line in REFUSED.lines() {
        number = number.saturating_add(1);
        let want = if number <= 3 {
            Unread::NoSuchTheme
        } else if number <= 17 {
            Unread::NoSuchFilter
        } else {
            Unread::NoKeyMove
        };
        assert!(rt; read(&rt, alloc, Class::KPK, line) == Err(want), "{line}");
    }
}
