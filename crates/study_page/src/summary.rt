//! Refused lines, and the list of all entries.
ghost use Rattle.std.specs.Prelude.{◌≡◌, ◌++◌, OnOk, IfOk, Err, codes, decimal};
ghost use Rattle.std.specs.Io.KnownBytes.{Appends};
ghost use Rattle.study_text.specs.Taken.{TakesPrefix};
ghost use Rattle.study_marks.specs.BenchState.{marked_study};
ghost use Rattle.study_marks.specs.Study.{tag_of};
ghost use Rattle.study_marks.specs.declared.tag.TagName.TheVariants as tag;
ghost use Rattle.study_pgn.specs.Pgn.{stipulation_text};
ghost use Rattle.study_html.specs.Elements.{element_text};
ghost use Rattle.study_html.specs.Escape.{escaped_text, lettered_text};
ghost use Rattle.study_head.specs.Known.{named_words};
ghost use Rattle.study_head.specs.Head.{title_words};
ghost use Rattle.study_head.specs.Verdict.{IsLegalStamp, stamp_words, first_fault};
ghost use Rattle.study_page.specs.Lists.{refusal_words, refusal_part, fault_note, verdict_cell, summary_row, two_heads, three_heads, summary_title, summary_heads, summary_part};

use std::alloc::{AllocError, Allocator};
use std::io::Write;
use study_entry::{EntryInfo, Name};
use study_facts::WriteFault;
use study_head::{
    SolutionFacts, Stamp, add_first_fault, add_stamp_words, entry_judgement, named_tag, title_words,
};
use study_html::{Drawing, Element, Html, put_letters, put_words};
use study_marks::{Bench, TagName};
use study_pgn::add_stipulation;
use study_text::{Text, write_text};

fn put_number<'a, A: Allocator>(
    alloc: &'a A,
    html: &mut Html<'_, A>,
    element: Element,
    number: u32,
) -> Result<(), AllocError>
    ensures { OnOk result (html.new ≡ html.old ++ element_text element
        (escaped_text (decimal number))) }
{
    let mut text = Text::new(alloc);
    text.add_number(number)?;
    put_words(alloc, html, element, text.as_slice())
}

/// Adds `Line 7 was refused: `.
fn add_refused_line<A: Allocator>(text: &mut Text<'_, A>, line: u32) -> Result<(), AllocError>
    ensures { OnOk result (text.new ≡ text.old
        ++ (codes "Line " ++ (decimal line ++ codes " was refused: "))) }
{
    text.add(b"Line ")?;
    text.add_number(line)?;
    text.add(b" was refused: ")
}

fn say_refused_line<'a, A: Allocator>(
    alloc: &'a A,
    html: &mut Html<'_, A>,
    line: u32,
) -> Result<(), AllocError>
    ensures { OnOk result (html.new ≡ html.old
        ++ escaped_text (codes "Line " ++ (decimal line ++ codes " was refused: "))) }
{
    let mut text = Text::new(alloc);
    add_refused_line(&mut text, line)?;
    html.say(text.as_slice())
}

/// What is said of a refused line.
#[tactic(auto, unfolding(crate::specs::Lists::refusal_words))]
fn say_refusal<'a, A: Allocator>(
    alloc: &'a A,
    html: &mut Html<'_, A>,
    line: u32,
    text: &[u8],
    name: &[u8],
    reason: &[u8],
) -> Result<(), AllocError>
    ensures { OnOk result (html.new ≡ html.old
        ++ refusal_words line text.now name.now reason.now) }
{
    say_refused_line(alloc, html, line)?;
    put_words(alloc, html, Element::Code, text)?;
    html.say(b" ")?;
    put_words(alloc, html, Element::Strong, name)?;
    html.say(b": ")?;
    html.say(reason)
}

/// The part with a refused line.
fn refusal_of<'a, A: Allocator>(
    alloc: &'a A,
    line: u32,
    text: &[u8],
    name: &[u8],
    reason: &[u8],
) -> Result<Html<'a, A>, AllocError>
    ensures { IfOk result (λ html. html ≡ refusal_part line text.now name.now reason.now) }
{
    let mut html = Html::new(alloc);
    let mut part = Html::new(alloc);
    say_refusal(alloc, &mut part, line, text, name, reason)?;
    html.put(Element::Warning, &part)?;
    Ok(html)
}

/// Writes that a line of a script was refused: its number, its text, the name of the refusal, and the reason in words.
pub fn write_refusal<'a, A: Allocator, W: Write>(
    alloc: &'a A,
    line: u32,
    text: &[u8],
    name: &[u8],
    reason: &[u8],
    out: &mut W,
) -> Result<(), WriteFault>
    ensures ok { OnOk result
        (Appends (W.contents out.old) (W.contents out.new)
        (refusal_part line text.now name.now reason.now)) }
    ensures device { result ≡ Err WriteFault.Device
        → TakesPrefix (W.contents out.old) (W.contents out.new)
        (refusal_part line text.now name.now reason.now) }
    ensures memory { result ≡ Err WriteFault.OutOfMemory → out.new ≡ out.old }
{
    let html = refusal_of(alloc, line, text, name, reason)?;
    write_text(out, html.as_slice())?;
    Ok(())
}

/// The title, which leads to the entry's page.
fn put_link<'a, 'b, A: Allocator, B: Allocator>(
    alloc: &'a A,
    html: &mut Html<'_, A>,
    bench: &Bench<'b, B>,
    own: &Name,
    number: u32,
) -> Result<(), AllocError>
    ensures { OnOk result (html.new ≡ html.old
        ++ element_text (Element.Link number)
        (lettered_text (title_words (named_words own.now
        (tag_of (marked_study bench.now).tags tag.Event))))) }
{
    let event = named_tag(alloc, bench, TagName::Event, own)?;
    put_letters(
        alloc,
        html,
        Element::Link(number),
        title_words(event.as_slice()),
    )
}

fn put_link_cell<'a, 'b, A: Allocator, B: Allocator>(
    alloc: &'a A,
    html: &mut Html<'_, A>,
    bench: &Bench<'b, B>,
    own: &Name,
    number: u32,
) -> Result<(), AllocError>
    ensures { OnOk result (html.new ≡ html.old ++ element_text Element.Cell
        (element_text (Element.Link number)
        (lettered_text (title_words (named_words own.now
        (tag_of (marked_study bench.now).tags tag.Event)))))) }
{
    let mut within = Html::new(alloc);
    put_link(alloc, &mut within, bench, own, number)?;
    html.put(Element::Cell, &within)
}

/// The cell with the author.
fn put_author<'a, 'b, A: Allocator, B: Allocator>(
    alloc: &'a A,
    html: &mut Html<'_, A>,
    bench: &Bench<'b, B>,
    own: &Name,
) -> Result<(), AllocError>
    ensures { OnOk result (html.new ≡ html.old ++ element_text Element.Cell
        (lettered_text (named_words own.now (tag_of (marked_study bench.now).tags tag.White)))) }
{
    let author = named_tag(alloc, bench, TagName::White, own)?;
    put_letters(alloc, html, Element::Cell, author.as_slice())
}

/// The worst dual below a verdict, if there is one.
fn put_fault_note<'a, A: Allocator>(
    alloc: &'a A,
    html: &mut Html<'_, A>,
    words: &[u8],
) -> Result<(), AllocError>
    ensures { OnOk result (html.new ≡ html.old ++ fault_note words.now) }
{
    if words.is_empty() {
        return Ok(());
    }
    html.draw(&Drawing::Break)?;
    put_words(alloc, html, Element::Small, words)
}

fn say_stamp<'a, A: Allocator>(
    alloc: &'a A,
    html: &mut Html<'_, A>,
    stamp: &Stamp,
) -> Result<(), AllocError>
    requires { IsLegalStamp stamp.now }
    ensures { OnOk result (html.new ≡ html.old ++ escaped_text (stamp_words stamp.now)) }
{
    let mut verdict = Text::new(alloc);
    add_stamp_words(&mut verdict, stamp)?;
    html.say(verdict.as_slice())
}

fn put_first_fault<'a, A: Allocator>(
    alloc: &'a A,
    html: &mut Html<'_, A>,
    stamp: &Stamp,
    facts: &SolutionFacts,
) -> Result<(), AllocError>
    ensures { OnOk result (html.new ≡ html.old ++ fault_note (first_fault stamp.now facts.now)) }
{
    let mut fault = Text::new(alloc);
    add_first_fault(&mut fault, stamp, facts)?;
    put_fault_note(alloc, html, fault.as_slice())
}

/// The cell with a verdict, and below it the worst dual.
#[tactic(auto, unfolding(crate::specs::Lists::verdict_cell))]
fn put_verdict_cell<'a, A: Allocator>(
    alloc: &'a A,
    html: &mut Html<'_, A>,
    stamp: &Stamp,
    facts: &SolutionFacts,
) -> Result<(), AllocError>
    requires { IsLegalStamp stamp.now }
    ensures { OnOk result (html.new ≡ html.old ++ verdict_cell stamp.now facts.now) }
{
    let mut within = Html::new(alloc);
    say_stamp(alloc, &mut within, stamp)?;
    put_first_fault(alloc, &mut within, stamp, facts)?;
    html.put(Element::Cell, &within)
}

/// The cell with what is asked for.
fn put_wanted<'a, 'b, A: Allocator, B: Allocator>(
    alloc: &'a A,
    html: &mut Html<'_, A>,
    bench: &Bench<'b, B>,
) -> Result<(), AllocError>
    ensures { OnOk result (html.new ≡ html.old ++ element_text Element.Cell
        (escaped_text (stipulation_text (marked_study bench.now).stipulation))) }
{
    let mut stipulation = Text::new(alloc);
    add_stipulation(&mut stipulation, bench.stipulation())?;
    put_words(alloc, html, Element::Cell, stipulation.as_slice())
}

/// Adds a row for this entry: its number, its title, its author, what is asked for and the verdict.
#[tactic(auto, unfolding(crate::specs::Lists::summary_row))]
pub fn add_entry<'a, 'b, A: Allocator, B: Allocator>(
    alloc: &'a A,
    rows: &mut Html<'_, A>,
    bench: &Bench<'b, B>,
    facts: &SolutionFacts,
    info: EntryInfo,
) -> Result<(), AllocError>
    ensures { OnOk result (rows.new ≡ rows.old
        ++ summary_row (marked_study bench.now) facts.now info) }
{
    let judged = entry_judgement(bench, facts, info.origin.standing);
    let mut row = Html::new(alloc);
    put_number(alloc, &mut row, Element::Cell, info.number)?;
    put_link_cell(
        alloc,
        &mut row,
        bench,
        &info.origin.names.event,
        info.number,
    )?;
    put_author(alloc, &mut row, bench, &info.origin.names.white)?;
    put_wanted(alloc, &mut row, bench)?;
    put_verdict_cell(alloc, &mut row, &judged.stamp, facts)?;
    rows.put(Element::Row, &row)
}

#[tactic(auto, unfolding(crate::specs::Lists::two_heads))]
fn put_two_heads<'a, A: Allocator>(
    alloc: &'a A,
    html: &mut Html<'_, A>,
    a: &[u8],
    b: &[u8],
) -> Result<(), AllocError>
    ensures { OnOk result (html.new ≡ html.old ++ two_heads a.now b.now) }
{
    put_words(alloc, html, Element::Head, a)?;
    put_words(alloc, html, Element::Head, b)
}

/// The heads of three columns.
#[tactic(auto, unfolding(crate::specs::Lists::three_heads))]
pub fn put_three_heads<'a, A: Allocator>(
    alloc: &'a A,
    html: &mut Html<'_, A>,
    a: &[u8],
    b: &[u8],
    c: &[u8],
) -> Result<(), AllocError>
    ensures { OnOk result (html.new ≡ html.old ++ three_heads a.now b.now c.now) }
{
    put_words(alloc, html, Element::Head, a)?;
    put_words(alloc, html, Element::Head, b)?;
    put_words(alloc, html, Element::Head, c)
}

fn put_summary_heads<'a, A: Allocator>(
    alloc: &'a A,
    html: &mut Html<'_, A>,
) -> Result<(), AllocError>
    ensures { OnOk result (html.new ≡ html.old ++ summary_heads) }
{
    let mut row = Html::new(alloc);
    let mut within = Html::new(alloc);
    put_two_heads(alloc, &mut row, b"No.", b"Title")?;
    put_three_heads(alloc, &mut row, b"Author", b"Stipulation", b"Verdict")?;
    within.put(Element::Row, &row)?;
    html.put(Element::Heads, &within)
}

#[tactic(auto, unfolding(crate::specs::Lists::summary_title))]
fn put_summary_title<'a, A: Allocator>(
    alloc: &'a A,
    html: &mut Html<'_, A>,
) -> Result<(), AllocError>
    ensures { OnOk result (html.new ≡ html.old ++ summary_title) }
{
    let mut head = Html::new(alloc);
    put_words(alloc, &mut head, Element::Title, b"Entries and verdicts")?;
    html.put(Element::Header, &head)
}

fn put_summary_table<'a, A: Allocator>(
    alloc: &'a A,
    html: &mut Html<'_, A>,
    rows: &Html<'_, A>,
) -> Result<(), AllocError>
    ensures { OnOk result (html.new ≡ html.old
        ++ element_text Element.Table (summary_heads ++ element_text Element.Rows rows.now)) }
{
    let mut table = Html::new(alloc);
    put_summary_heads(alloc, &mut table)?;
    table.put(Element::Rows, rows)?;
    html.put(Element::Table, &table)
}

/// The page with these entries.
fn summary_of<'a, A: Allocator>(alloc: &'a A, rows: &Html<'_, A>) -> Result<Html<'a, A>, AllocError>
    ensures { IfOk result (λ html. html ≡ summary_part rows.now) }
{
    let mut html = Html::new(alloc);
    let mut part = Html::new(alloc);
    put_summary_title(alloc, &mut part)?;
    put_summary_table(alloc, &mut part, rows)?;
    html.put(Element::Summary, &part)?;
    Ok(html)
}

/// Writes the page with these entries.
pub fn write_summary<'a, A: Allocator, W: Write>(
    alloc: &'a A,
    rows: &Html<'_, A>,
    out: &mut W,
) -> Result<(), WriteFault>
    ensures ok { OnOk result
        (Appends (W.contents out.old) (W.contents out.new) (summary_part rows.now)) }
    ensures device { result ≡ Err WriteFault.Device
        → TakesPrefix (W.contents out.old) (W.contents out.new) (summary_part rows.now) }
    ensures memory { result ≡ Err WriteFault.OutOfMemory → out.new ≡ out.old }
{
    let html = summary_of(alloc, rows)?;
    write_text(out, html.as_slice())?;
    Ok(())
}
