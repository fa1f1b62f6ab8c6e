//! The page of a study, and its way to a writer.
ghost use Rattle.std.specs.Prelude.{◌≡◌, ◌++◌, ℕ, List, OnOk, IfOk, Err};
ghost use Rattle.std.specs.Io.KnownBytes.{Appends};
ghost use Rattle.study_text.specs.Taken.{TakesPrefix};
ghost use Rattle.study_marks.specs.BenchState.{marked_study, IsKeptRight};
ghost use Rattle.study_marks.specs.Study.{plain_study};
ghost use Rattle.study_values.specs.declared.values.ProbeFault.{ProbeFault as AProbeFault};
ghost use Rattle.study_facts.specs.Asked.{within};
ghost use Rattle.study_facts.specs.Order.{HasReviewed};
ghost use Rattle.study_head.specs.Solution.{AreSolutionFacts};
ghost use Rattle.study_head.specs.Verdict.{IsLegalStamp};
ghost use Rattle.study_html.specs.Elements.{element_text};
ghost use Rattle.study_html.specs.declared.element.Element.TheVariants.{Table, Rows};
ghost use Rattle.study_html.specs.Markup.{IsWellNested};
ghost use Rattle.study_facts.specs.Made.{HasAsked};
ghost use Rattle.study_page.specs.Page.{AreRows, heads, table_part, full_table, cards_part, full_cards};
ghost use Rattle.study_page.specs.Lists.{summary_row};
ghost use Rattle.study_page.specs.Page.{tries_title, zugzwangs_title, missing_title, missing_table, ends_title, last_tables};
ghost use Rattle.study_page.specs.Rows.{FaultItems, Cards, TryRows, ZugzwangRows, DefenceRows, EndRows};
ghost use Rattle.study_page.specs.Tree.{solution_words};
ghost use Rattle.study_page.specs.Page.{solution_part, duals_title, duals_note, foot_words, tables, top, content, number_part, entry_content, IsPage, IsPageOf, IsEntry, IsRow};

use crate::draft::Sections;
use crate::page_findings::PageFindings;
use crate::summary::{add_entry, put_three_heads};
use crate::tree::put_following;
use crate::verdict::{put_verdict, shows_duals};
use std::alloc::{AllocError, Allocator};
use std::io::Write;
use study_entry::{EntryInfo, Names};
use study_facts::{ReviewFault, TextFault, walk_study};
use study_head::{
    Judgement, SolutionFacts, Stamp, entry_judgement, put_figure, put_head, reached_in,
    solution_facts,
};
use study_html::{Element, Html, put_words};
use study_marks::Bench;
use study_text::{Text, write_text};
use study_values::Values;

/// All parts that evaluate positions.
pub fn parts_of<'a, 'b, A: Allocator, B: Allocator, V: Values>(
    alloc: &'a A,
    bench: &Bench<'b, B>,
    values: &mut V,
) -> Result<Sections<'a, A>, TextFault>
    ensures text { V.source.is_honest values.old
        → IfOk result (λ p. AreRows FaultItems (marked_study bench.now) p.faults
        × AreRows Cards (marked_study bench.now) p.duals
        × AreRows TryRows (marked_study bench.now) p.tries
        × AreRows ZugzwangRows (marked_study bench.now) p.zugzwangs
        × AreRows DefenceRows (marked_study bench.now) p.defences
        × AreRows EndRows (marked_study bench.now) p.ends) }
    ensures asked { HasAsked (within (marked_study bench.now).start.position V.source)
        values.old result values.new }
{
    let known = reached_in(alloc, bench, values)?;
    let mut findings = PageFindings::new(alloc, known.as_slice());
    walk_study(alloc, &mut findings, bench, values)?;
    Ok(findings.sections)
}

/// The tree of the solution.
fn solution_of<'a, 'b, A: Allocator, B: Allocator>(
    alloc: &'a A,
    bench: &Bench<'b, B>,
) -> Result<Html<'a, A>, AllocError>
    ensures { IfOk result (λ tree. tree ≡ solution_words (marked_study bench.now)) }
{
    let start = bench.start().copied();
    let hero = bench.stipulation().hero;
    let mut tree = Html::new(alloc);
    put_following(alloc, &mut tree, hero, true, start, bench.root())?;
    Ok(tree)
}

/// The head of a table with three columns.
#[tactic(auto, unfolding(crate::specs::Page::heads))]
fn put_heads<'a, A: Allocator>(
    alloc: &'a A,
    html: &mut Html<'_, A>,
    a: &[u8],
    b: &[u8],
    c: &[u8],
) -> Result<(), AllocError>
    ensures { OnOk result (html.new ≡ html.old ++ heads a.now b.now c.now) }
{
    let mut row = Html::new(alloc);
    let mut within = Html::new(alloc);
    put_three_heads(alloc, &mut row, a, b, c)?;
    within.put(Element::Row, &row)?;
    html.put(Element::Heads, &within)
}

/// A table of this head and these rows.
fn put_rows<'a, A: Allocator>(
    alloc: &'a A,
    html: &mut Html<'_, A>,
    head: &Html<'_, A>,
    rows: &Html<'_, A>,
) -> Result<(), AllocError>
    ensures { OnOk result (html.new ≡ html.old ++ element_text Table
        (head.now ++ element_text Rows rows.now)) }
{
    let mut table = Html::new(alloc);
    table.append(head)?;
    table.put(Element::Rows, rows)?;
    html.put(Element::Table, &table)
}

/// A table under a heading.
#[tactic(auto, unfolding(crate::specs::Page::full_table))]
fn put_full_table<'a, A: Allocator>(
    alloc: &'a A,
    html: &mut Html<'_, A>,
    heading: &[u8],
    head: &Html<'_, A>,
    rows: &Html<'_, A>,
) -> Result<(), AllocError>
    ensures { OnOk result (html.new ≡ html.old ++ full_table heading.now head.now rows.now) }
{
    let mut part = Html::new(alloc);
    put_words(alloc, &mut part, Element::Heading, heading)?;
    put_rows(alloc, &mut part, head, rows)?;
    html.put(Element::Part, &part)
}

/// A table under a heading, where it has rows.
fn put_table<'a, A: Allocator>(
    alloc: &'a A,
    html: &mut Html<'_, A>,
    heading: &[u8],
    head: &Html<'_, A>,
    rows: &Html<'_, A>,
) -> Result<(), AllocError>
    ensures { OnOk result (html.new ≡ html.old ++ table_part heading.now head.now rows.now) }
{
    if rows.is_empty() {
        return Ok(());
    }
    put_full_table(alloc, html, heading, head, rows)
}

/// The cards of the duals under a heading.
#[tactic(auto, unfolding(crate::specs::Page::full_cards))]
fn put_full_cards<'a, A: Allocator>(
    alloc: &'a A,
    html: &mut Html<'_, A>,
    cards: &Html<'_, A>,
) -> Result<(), AllocError>
    ensures { OnOk result (html.new ≡ html.old ++ full_cards cards.now) }
{
    let mut part = Html::new(alloc);
    put_words(alloc, &mut part, Element::Heading, duals_title())?;
    put_words(alloc, &mut part, Element::Note, duals_note())?;
    part.put(Element::Cards, cards)?;
    html.put(Element::Part, &part)
}

fn put_cards<'a, A: Allocator>(
    alloc: &'a A,
    html: &mut Html<'_, A>,
    stamp: &Stamp,
    cards: &Html<'_, A>,
) -> Result<(), AllocError>
    ensures { OnOk result (html.new ≡ html.old ++ cards_part stamp.now cards.now) }
{
    if !shows_duals(stamp) || cards.is_empty() {
        return Ok(());
    }
    put_full_cards(alloc, html, cards)
}

#[tactic(auto, unfolding(crate::specs::Page::solution_part))]
fn put_solution<'a, 'b, A: Allocator, B: Allocator>(
    alloc: &'a A,
    html: &mut Html<'_, A>,
    bench: &Bench<'b, B>,
) -> Result<(), AllocError>
    ensures { OnOk result (html.new ≡ html.old
        ++ solution_part (solution_words (marked_study bench.now))) }
{
    let mut part = Html::new(alloc);
    let tree = solution_of(alloc, bench)?;
    put_words(alloc, &mut part, Element::Heading, b"Solution")?;
    part.put(Element::Tree, &tree)?;
    html.put(Element::Part, &part)
}

#[tactic(auto, unfolding(crate::specs::Page::duals_title))]
fn duals_title() -> &'static [u8]
    ensures { result.now ≡ duals_title }
{
    b"Duals: other moves that also work"
}

#[tactic(auto, unfolding(crate::specs::Page::duals_note))]
fn duals_note() -> &'static [u8]
    ensures { result.now ≡ duals_note }
{
    b"A move wastes time if the opponent can force the play back into the same line; if that takes him more than one move, their number is given."
}

#[tactic(auto, unfolding(crate::specs::Page::foot_words))]
fn foot_words() -> &'static [u8]
    ensures { result.now ≡ foot_words }
{
    b"Values come from complete distance-to-mate tables for two to four men, without castling, the fifty-move rule and repetition. \
A dual is another move that also wins, or draws if the task is to draw, even if it only wastes time. \
A small number is the number of moves to mate; with a minus sign, the side that has the task is mated; = is a draw, and # is mate."
}

#[tactic(auto, unfolding(crate::specs::Page::tries_title))]
fn tries_title() -> &'static [u8]
    ensures { result.now ≡ tries_title }
{
    b"Tries and their refutations"
}

#[tactic(auto, unfolding(crate::specs::Page::zugzwangs_title))]
fn zugzwangs_title() -> &'static [u8]
    ensures { result.now ≡ zugzwangs_title }
{
    b"Mutual zugzwangs"
}

#[tactic(auto, unfolding(crate::specs::Page::missing_title))]
fn missing_title() -> &'static [u8]
    ensures { result.now ≡ missing_title }
{
    b"Defences not given"
}

#[tactic(auto, unfolding(crate::specs::Page::ends_title))]
fn ends_title() -> &'static [u8]
    ensures { result.now ≡ ends_title }
{
    b"Best play after the last move given"
}

/// The table of the defences that are not given.
#[tactic(auto, unfolding(crate::specs::Page::missing_table))]
fn put_missing<'a, A: Allocator>(
    alloc: &'a A,
    html: &mut Html<'_, A>,
    rows: &Html<'_, A>,
) -> Result<(), AllocError>
    ensures { OnOk result (html.new ≡ html.old ++ missing_table rows.now) }
{
    let mut heads = Html::new(alloc);
    put_heads(alloc, &mut heads, b"After", b"Main defences", b"Others")?;
    put_table(alloc, html, missing_title(), &heads, rows)
}

/// The tables of what the tree lacks and of how it goes on.
#[tactic(auto, unfolding(crate::specs::Page::last_tables))]
fn put_last_tables<'a, A: Allocator>(
    alloc: &'a A,
    html: &mut Html<'_, A>,
    parts: &Sections<'_, A>,
) -> Result<(), AllocError>
    ensures { OnOk result (html.new ≡ html.old ++ last_tables parts.now.defences parts.now.ends) }
{
    let mut ends = Html::new(alloc);
    put_missing(alloc, html, &parts.defences)?;
    put_heads(alloc, &mut ends, b"After", b"Value", b"Continuation")?;
    put_table(alloc, html, ends_title(), &ends, &parts.ends)
}

/// The tables below the solution.
#[tactic(auto, unfolding(crate::specs::Page::tables))]
fn put_tables<'a, A: Allocator>(
    alloc: &'a A,
    html: &mut Html<'_, A>,
    parts: &Sections<'_, A>,
) -> Result<(), AllocError>
    ensures { OnOk result (html.new ≡ html.old
        ++ tables parts.now.tries parts.now.zugzwangs parts.now.defences parts.now.ends) }
{
    let mut tries = Html::new(alloc);
    let mut zugzwangs = Html::new(alloc);
    put_heads(alloc, &mut tries, b"After", b"Result", b"Refuted by")?;
    put_heads(
        alloc,
        &mut zugzwangs,
        b"After",
        b"White to move",
        b"Black to move",
    )?;
    put_table(alloc, html, tries_title(), &tries, &parts.tries)?;
    put_table(alloc, html, zugzwangs_title(), &zugzwangs, &parts.zugzwangs)?;
    put_last_tables(alloc, html, parts)
}

/// The diagram and the verdict, side by side.
#[tactic(auto, unfolding(crate::specs::Page::top))]
fn put_top<'a, 'b, A: Allocator, B: Allocator>(
    alloc: &'a A,
    html: &mut Html<'_, A>,
    bench: &Bench<'b, B>,
    judged: &Judgement,
    faults: &Html<'_, A>,
) -> Result<(), AllocError>
    requires { IsLegalStamp judged.now.stamp }
    ensures { OnOk result (html.new ≡ html.old
        ++ top (marked_study bench.now) judged.now faults.now) }
{
    let mut within = Html::new(alloc);
    put_figure(alloc, &mut within, bench)?;
    put_verdict(alloc, &mut within, judged, faults)?;
    html.put(Element::Top, &within)
}

/// What is inside a page, of these parts.
#[tactic(auto, unfolding(crate::specs::Page::content))]
fn put_content<'a, 'b, A: Allocator, B: Allocator>(
    alloc: &'a A,
    html: &mut Html<'_, A>,
    bench: &Bench<'b, B>,
    names: &Names,
    judged: &Judgement,
    parts: &Sections<'_, A>,
) -> Result<(), AllocError>
    requires { IsLegalStamp judged.now.stamp }
    ensures { OnOk result (html.new ≡ html.old
        ++ content (marked_study bench.now) names.now judged.now parts.now.faults
        parts.now.duals parts.now.tries parts.now.zugzwangs parts.now.defences parts.now.ends) }
{
    put_head(alloc, html, bench, names)?;
    put_top(alloc, html, bench, judged, &parts.faults)?;
    put_solution(alloc, html, bench)?;
    put_cards(alloc, html, &judged.stamp, &parts.duals)?;
    put_tables(alloc, html, parts)?;
    put_words(alloc, html, Element::Foot, foot_words())
}

/// The number of an entry.
#[tactic(auto, unfolding(crate::specs::Page::number_part))]
fn put_number<'a, A: Allocator>(
    alloc: &'a A,
    html: &mut Html<'_, A>,
    number: u32,
) -> Result<(), AllocError>
    ensures { OnOk result (html.new ≡ html.old ++ number_part number) }
{
    let mut text = Text::new(alloc);
    text.add(b"No. ")?;
    text.add_number(number)?;
    put_words(alloc, html, Element::Note, text.as_slice())
}

/// All that the page of an entry has.
#[tactic(auto, unfolding(crate::specs::Page::entry_content))]
fn put_entry<'a, 'b, A: Allocator, B: Allocator>(
    alloc: &'a A,
    html: &mut Html<'_, A>,
    bench: &Bench<'b, B>,
    info: &EntryInfo,
    judged: &Judgement,
    parts: &Sections<'_, A>,
) -> Result<(), AllocError>
    requires { IsLegalStamp judged.now.stamp }
    ensures { OnOk result (html.new ≡ html.old
        ++ entry_content (marked_study bench.now) info.now judged.now parts.now.faults
        parts.now.duals parts.now.tries parts.now.zugzwangs parts.now.defences parts.now.ends) }
{
    put_number(alloc, html, info.number)?;
    put_content(alloc, html, bench, &info.origin.names, judged, parts)
}

/// The rows of the list of entries before a page, and their allocator.
#[derive(Drop)]
pub struct Listed<'l, 's, S: Allocator> {
    pub alloc: &'s S,
    pub rows: &'l Html<'s, S>,
}

/// The rows with one more, of the study with these facts.
fn with_row<'s, 'b, S: Allocator, B: Allocator>(
    list: &Listed<'_, 's, S>,
    bench: &Bench<'b, B>,
    facts: &SolutionFacts,
    info: EntryInfo,
) -> Result<Html<'s, S>, AllocError>
    ensures { IfOk result (λ more.
        more ≡ list.now.rows.now ++ summary_row (marked_study bench.now) facts.now info) }
{
    let mut more = Html::new(list.alloc);
    more.append(list.rows)?;
    add_entry(list.alloc, &mut more, bench, facts, info)?;
    Ok(more)
}

/// The facts of a solution, and the parts of a page that evaluate positions.
#[derive(Drop)]
struct Found<'a, A: Allocator> {
    facts: SolutionFacts,
    parts: Sections<'a, A>,
}

fn found_in<'a, 'b, A: Allocator, B: Allocator, V: Values>(
    alloc: &'a A,
    bench: &Bench<'b, B>,
    values: &mut V,
) -> Result<Found<'a, A>, TextFault>
    ensures facts { V.source.is_honest values.old
        → IfOk result (λ found. AreSolutionFacts (marked_study bench.now) found.facts) }
    ensures text { V.source.is_honest values.old
        → IfOk result (λ found. AreRows FaultItems (marked_study bench.now) found.parts.faults
        × AreRows Cards (marked_study bench.now) found.parts.duals
        × AreRows TryRows (marked_study bench.now) found.parts.tries
        × AreRows ZugzwangRows (marked_study bench.now) found.parts.zugzwangs
        × AreRows DefenceRows (marked_study bench.now) found.parts.defences
        × AreRows EndRows (marked_study bench.now) found.parts.ends) }
    ensures asked { HasAsked (within (marked_study bench.now).start.position V.source)
        values.old result values.new }
{
    let facts = solution_facts(alloc, bench, values)?;
    let parts = parts_of(alloc, bench, values)?;
    Ok(Found { facts, parts })
}

/// A page, and the rows of the list with its own behind them.
#[derive(Drop)]
struct Entry<'a, 's, A: Allocator, S: Allocator> {
    page: Html<'a, A>,
    rows: Html<'s, S>,
}

/// The whole page, and the rows with its own.
fn entry_of<'a, 's, 'b, A: Allocator, S: Allocator, B: Allocator, V: Values>(
    alloc: &'a A,
    bench: &Bench<'b, B>,
    values: &mut V,
    info: EntryInfo,
    list: &Listed<'_, 's, S>,
) -> Result<Entry<'a, 's, A, S>, TextFault>
    ensures text { V.source.is_honest values.old
        → IfOk result (λ entry. IsPage (marked_study bench.now) info entry.page) }
    ensures rows { V.source.is_honest values.old
        → IfOk result (λ entry. (row : List ℕ) × IsRow (marked_study bench.now) info row
        × (entry.rows ≡ list.now.rows.now ++ row)) }
    ensures entry { IfOk result (λ entry. IsEntry info.number entry.page) }
    ensures asked { HasAsked (within (marked_study bench.now).start.position V.source)
        values.old result values.new }
{
    let mut page = Html::new(alloc);
    let mut content = Html::new(alloc);
    let found = found_in(alloc, bench, values)?;
    let judged = entry_judgement(bench, &found.facts, info.origin.standing);
    put_entry(alloc, &mut content, bench, &info, &judged, &found.parts)?;
    page.put(Element::Entry(info.number), &content)?;
    // (the content is well nested, as the clause of its bytes says)
    let _content = content.as_slice();
    let rows = with_row(list, bench, &found.facts, info)?;
    Ok(Entry { page, rows })
}

/// Writes the page of a study, as this entry, and hands back the rows of the list of all entries with its own behind them.
///
/// The page is made whole first, so want of memory, and a value that cannot be read, are reported before the first byte. A writer
/// that fails or takes nothing ends the call; it has taken a prefix of the page then. A study has one page as an entry, to the byte
/// (`pages_are_unique`).
pub fn write_page<'a, 's, 'b, A: Allocator, S: Allocator, B: Allocator, V: Values, W: Write>(
    alloc: &'a A,
    bench: &Bench<'b, B>,
    values: &mut V,
    info: EntryInfo,
    list: Listed<'_, 's, S>,
    out: &mut W,
) -> Result<Html<'s, S>, ReviewFault>
    ensures ok { V.source.is_honest values.old
        → OnOk result ((text : List ℕ) × IsPage (marked_study bench.now) info text
        × Appends (W.contents out.old) (W.contents out.new) text) }
    ensures plain { V.source.is_honest values.old → IsKeptRight bench.now
        → OnOk result ((text : List ℕ)
        × IsPageOf (plain_study (marked_study bench.now)) info text
        × Appends (W.contents out.old) (W.contents out.new) text) }
    ensures rows { V.source.is_honest values.old
        → IfOk result (λ rows. (row : List ℕ) × IsRow (marked_study bench.now) info row
        × (rows ≡ list.entry.rows.now ++ row)) }
    ensures entry { OnOk result ((text : List ℕ) × IsEntry info.number text
        × Appends (W.contents out.old) (W.contents out.new) text) }
    ensures nested { OnOk result ((text : List ℕ) × IsWellNested text
        × Appends (W.contents out.old) (W.contents out.new) text) }
    ensures device { V.source.is_honest values.old → result ≡ Err ReviewFault.Device
        → (text : List ℕ) × IsPage (marked_study bench.now) info text
        × TakesPrefix (W.contents out.old) (W.contents out.new) text }
    ensures memory { result ≡ Err ReviewFault.OutOfMemory → out.new ≡ out.old }
    ensures no_value { (fault : AProbeFault)
        → result ≡ Err (ReviewFault.Values fault) → out.new ≡ out.old }
    ensures asked { HasReviewed (within (marked_study bench.now).start.position V.source)
        values.old result values.new }
{
    let entry = entry_of(alloc, bench, values, info, &list)?;
    write_text(out, entry.page.as_slice())?;
    Ok(entry.rows)
}
