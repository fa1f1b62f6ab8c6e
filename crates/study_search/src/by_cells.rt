//! Mutual zugzwangs, page by page: the two cells of the same men with either side to move rule nearly all numbers out before they are decoded.
#![tactic(auto, using(crate::proofs::Faults::can_report, crate::proofs::Faults::if_reported))]

ghost use Rattle.std.specs.Prelude.{◌≡◌, ◌+◌, ◌*◌, ◌/◌, ◌%◌, ◌<◌, ◌≤◌, ◌↔◌, true, ℕ, IsTrue, IfOk, IfErr, IfSome, OnOk};
ghost use Rattle.study_board.specs.declared.men.Side.TheVariants.{White, Black};
ghost use Rattle.study_values.specs.Cells.{value_of};
ghost use Rattle.study_zugzwang.specs.Zugzwang.{half_points, EitherCanMove};
ghost use Rattle.study_search.specs.declared.themes.Theme.TheVariants as theme;
ghost use Rattle.study_material.specs.Needs.{IsNeeded};
ghost use Rattle.study_search.specs.Faults.{CanReport, HasSameTables};
ghost use Rattle.study_prober.specs.CellPages.{AreValuesOf};
ghost use Rattle.study_search.specs.Finding.{IsFound, IsNext};
ghost use Rattle.study_search.specs.ByCells.{side_step, IsZugzwangAt, IsHandedOn, is_less, IsZugzwangBy, IsOpposite, IsFoundOn};

use crate::finding::{Search, is_for};
use crate::themes::Theme;
use study_board::{Position, Side};
use study_index::decode;
use study_material::Class;
use study_moves::values_are_unique;
use study_prober::CellPages;
use study_values::{PAGE_CELLS, ProbeFault};
use study_zugzwang::with_other_to_move;

/// Cells of a page.
const PAGE: u32 = 4096;

/// What the number of men with Black to move exceeds that with White to move by: the numbers with White to move come first.
#[tactic(auto, unfolding(crate::specs::ByCells::side_step))]
fn side_step(class: Class) -> u32
    ensures value { result ≡ side_step class }
    ensures small { result ≤ 8388608 }
{
    use Class::*;
    match class {
        KK => 640,
        KQK | KRK | KBK | KNK => 40_960,
        KPK => 131_072,
        KQPK | KRPK | KBPK | KNPK | KPPK | KQKP | KRKP | KBKP | KNKP | KPKP => 8_388_608,
        _ => 2_621_440,
    }
}

/// Whether the search is for mutual zugzwangs, and each page of its class has numbers with one side to move alone.
pub fn is_by_cells(search: &Search) -> bool
    ensures theme { IsTrue result → search.now.theme ≡ theme.Zugzwang }
    ensures whole { IsTrue result → side_step search.now.class % 4096 ≡ 0 }
{
    match search.theme {
        Theme::Zugzwang => side_step(search.class) % PAGE == 0,
        _ => false,
    }
}

/// The number of half points that the side to move scores by its cell.
#[inline]
fn score_of_cell(cell: u8) -> u8
    ensures value { result ≡ half_points (value_of cell) }
    ensures few { result < 3 }
{
    if cell == 0 {
        1
    } else if cell % 2 == 1 {
        0
    } else {
        2
    }
}

/// Whether two sides to move with these cells score less than a point between them.
#[inline]
fn is_less(own: u8, other: u8) -> bool
    ensures { result ≡ is_less own other }
{
    score_of_cell(own) + score_of_cell(other) < 2
}

/// Whether the men are a valid position with the other side to move, too, and either side has a legal move.
fn can_either_move(p: &Position) -> bool
    ensures { (result ≡ true) ↔ EitherCanMove p.now }
{
    match with_other_to_move(p) {
        None => false,
        Some(_) => true,
    }
}

/// Whether the number reads as a position that is valid with the other side to move, too, and either side has a legal move.
fn is_handed_on(class: Class, number: u32) -> bool
    ensures { (result ≡ true) ↔ IsHandedOn class number }
{
    match decode(class, number) {
        None => false,
        Some(p) => can_either_move(&p),
    }
}

/// Whether the number reads as a mutual zugzwang, by its cell and that with the other side to move.
#[inline]
fn is_zugzwang_by(class: Class, number: u32, own: u8, other: u8) -> bool
    ensures { (result ≡ true) ↔ ((is_less own other ≡ true) × IsHandedOn class number) }
{
    let less = is_less(own, other);
    if !less {
        return false;
    }
    is_handed_on(class, number)
}

/// The first number from `from` on and below `to` that reads as a mutual zugzwang by the cells of its page, and of the page with the other side to move.
fn next_by_cells(
    class: Class,
    from: u32,
    to: u32,
    own: &[u8; PAGE_CELLS],
    other: &[u8; PAGE_CELLS],
) -> Option<u32>
    ensures { IsNext (IsZugzwangBy class own.now other.now) from to result }
{
    for number in from..to {
        let at = number as usize % PAGE_CELLS;
        let found = is_zugzwang_by(class, number, own[at], other[at]);
        if found {
            return Some(number);
        }
    }
    None
}

/// Reads the cells of a page.
fn read_page<V: CellPages>(
    class: Class,
    page: u32,
    into: &mut [u8; PAGE_CELLS],
    values: &mut V,
) -> Result<(), ProbeFault>
    requires { 4096 * page < 2 * side_step class }
    ensures game { V.source.is_honest values.old → OnOk result (AreValuesOf class page into.new) }
    ensures faults { IfErr result (CanReport V.source (IsNeeded class) values.old) }
    ensures honest { V.source.is_honest values.old → V.source.is_honest values.new }
    ensures tables { HasSameTables V.source values.old values.new }
{
    values.read_cells(class, page, into)
}

/// The page with the other side to move.
fn opposite(class: Class, page: u32) -> u32
    requires whole { side_step class % 4096 ≡ 0 }
    requires page { 4096 * page < 2 * side_step class }
    ensures page { IsOpposite class page result }
    ensures there { 4096 * result < 2 * side_step class }
{
    let pages = side_step(class) / PAGE;
    let white = page < pages;
    if white { page + pages } else { page - pages }
}

/// The first number from `from` on and below `to`, which are on a page, that reads as a mutual zugzwang: by the cells of the page and of that with the
/// other side to move.
fn next_facing<V: CellPages>(
    class: Class,
    page: u32,
    from: u32,
    to: u32,
    own: &[u8; PAGE_CELLS],
    values: &mut V,
) -> Result<Option<u32>, ProbeFault>
    requires whole { side_step class % 4096 ≡ 0 }
    requires page { 4096 * page < 2 * side_step class }
    requires from { 4096 * page ≤ from }
    requires to { to ≤ 4096 * page + 4096 }
    ensures game { V.source.is_honest values.old → AreValuesOf class page own.now
        → IfOk result (IsNext (IsZugzwangAt class) from to) }
    ensures within { IfOk result (λ next. IfSome next (λ n. (from ≤ n) × (n < to))) }
    ensures faults { IfErr result (CanReport V.source (IsNeeded class) values.old) }
    ensures honest { V.source.is_honest values.old → V.source.is_honest values.new }
    ensures tables { HasSameTables V.source values.old values.new }
{
    values_are_unique();
    let other_page = opposite(class, page);
    let mut other = [0; PAGE_CELLS];
    match read_page(class, other_page, &mut other, values) {
        Err(fault) => Err(fault),
        Ok(()) => Ok(next_by_cells(class, from, to, own, &other)),
    }
}

/// The first number from `from` on and below `to`, which are on a page, that reads as a mutual zugzwang.
fn next_on_page<V: CellPages>(
    class: Class,
    page: u32,
    from: u32,
    to: u32,
    values: &mut V,
) -> Result<Option<u32>, ProbeFault>
    requires whole { side_step class % 4096 ≡ 0 }
    requires page { 4096 * page < 2 * side_step class }
    requires from { 4096 * page ≤ from }
    requires to { to ≤ 4096 * page + 4096 }
    ensures game { V.source.is_honest values.old
        → IfOk result (IsNext (IsZugzwangAt class) from to) }
    ensures within { IfOk result (λ next. IfSome next (λ n. (from ≤ n) × (n < to))) }
    ensures faults { IfErr result (CanReport V.source (IsNeeded class) values.old) }
    ensures honest { V.source.is_honest values.old → V.source.is_honest values.new }
    ensures tables { HasSameTables V.source values.old values.new }
{
    let mut own = [0; PAGE_CELLS];
    match read_page(class, page, &mut own, values) {
        Err(fault) => Err(fault),
        Ok(()) => next_facing(class, page, from, to, &own, values),
    }
}

/// The side to move on a page.
fn side_on(class: Class, page: u32) -> Side
    ensures white { page < side_step class / 4096 → result ≡ White }
    ensures black { side_step class / 4096 ≤ page → result ≡ Black }
{
    let pages = side_step(class) / PAGE;
    let white = page < pages;
    if white { Side::White } else { Side::Black }
}

/// The first number on a page, or `from` if it is higher.
fn first_on(page: u32, from: u32) -> u32
    requires { page < 4096 }
    ensures on { 4096 * page ≤ result }
    ensures from { from ≤ result }
    ensures least { (k : ℕ) → from ≤ k → 4096 * page ≤ k → result ≤ k }
{
    from.max(PAGE * page)
}

/// The end of a page, or `to` if it is lower.
fn end_on(page: u32, to: u32) -> u32
    requires { page < 4096 }
    ensures on { result ≤ 4096 * page + 4096 }
    ensures to { result ≤ to }
    ensures most { (k : ℕ) → k < to → k < 4096 * page + 4096 → k < result }
{
    to.min(PAGE * page + PAGE)
}

/// The first number on a page, from `from` on and below `to`, of a matching mutual zugzwang.
fn next_on<V: CellPages>(
    search: &Search,
    page: u32,
    from: u32,
    to: u32,
    values: &mut V,
) -> Result<Option<u32>, ProbeFault>
    requires theme { search.now.theme ≡ theme.Zugzwang }
    requires whole { side_step search.now.class % 4096 ≡ 0 }
    requires page { 4096 * page < 2 * side_step search.now.class }
    ensures game { V.source.is_honest values.old
        → IfOk result (IsNext (IsFoundOn search.now page) from to) }
    ensures within { IfOk result (λ next. IfSome next (λ n. (from ≤ n) × (n < to))) }
    ensures faults { IfErr result (CanReport V.source (IsNeeded search.now.class) values.old) }
    ensures honest { V.source.is_honest values.old → V.source.is_honest values.new }
    ensures tables { HasSameTables V.source values.old values.new }
{
    let class = search.class;
    let wanted = is_for(search.side, side_on(class, page));
    if !wanted {
        return Ok(None);
    }
    let _step = side_step(class);
    let first = first_on(page, from);
    let end = end_on(page, to);
    next_on_page(class, page, first, end, values)
}

/// The end of the pages with numbers below `to` that may have mutual zugzwangs: no number with the bit of a capture in passing has one.
fn end_page(class: Class, to: u32) -> u32
    requires whole { side_step class % 4096 ≡ 0 }
    ensures within { 4096 * result ≤ 2 * side_step class }
    ensures all { (k : ℕ) → k < to → k < 2 * side_step class → k < 4096 * result }
{
    let pages = side_step(class) / PAGE * 2;
    to.div_ceil(PAGE).min(pages)
}

/// The first number from `from` on and below `to` of a matching mutual zugzwang.
pub fn next_zugzwang<V: CellPages>(
    search: &Search,
    from: u32,
    to: u32,
    values: &mut V,
) -> Result<Option<u32>, ProbeFault>
    requires theme { search.now.theme ≡ theme.Zugzwang }
    requires whole { side_step search.now.class % 4096 ≡ 0 }
    ensures game { V.source.is_honest values.old
        → IfOk result (IsNext (IsFound search.now) from to) }
    ensures within { IfOk result (λ next. IfSome next (λ n. (from ≤ n) × (n < to))) }
    ensures faults { IfErr result (CanReport V.source (IsNeeded search.now.class) values.old) }
    ensures honest { V.source.is_honest values.old → V.source.is_honest values.new }
    ensures tables { HasSameTables V.source values.old values.new }
{
    let end = end_page(search.class, to);
    for page in from / PAGE..end {
        match next_on(search, page, from, to, values) {
            Err(fault) => return Err(fault),
            Ok(Some(number)) => return Ok(Some(number)),
            Ok(None) => {}
        }
    }
    Ok(None)
}
