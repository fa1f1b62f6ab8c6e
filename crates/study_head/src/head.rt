//! The head of a page, and the diagram with what is below it.
ghost use Rattle.std.specs.Prelude.{◌≡◌, ◌++◌, OnOk};
ghost use Rattle.study_marks.specs.BenchState.{marked_study};
ghost use Rattle.study_marks.specs.Study.{tag_of};
ghost use Rattle.study_marks.specs.declared.tag.TagName.TheVariants as tag;
ghost use Rattle.study_html.specs.Elements.{element_text};
ghost use Rattle.study_html.specs.Escape.{escaped_text, lettered_text};
ghost use Rattle.study_pgn.specs.Pgn.{stipulation_text};
ghost use Rattle.study_head.specs.Counts.{counts_words};
ghost use Rattle.study_head.specs.Known.{named_words, date_words};
ghost use Rattle.study_head.specs.Head.{title_words, behind, byline_item, round_words, byline, head, moves_first, men_words, caption, figure};

use crate::diagram::{add_control, draw_board};
use crate::gbr_code::add_counts;
use crate::known_tags::{date_words, named_tag};
use std::alloc::{AllocError, Allocator};
use study_board::{Man, Position, Side};
use study_entry::{Name, Names};
use study_html::{Drawing, Element, Html, put_letters, put_words};
use study_marks::{Bench, Stipulation, TagName};
use study_notation::write_fen;
use study_pgn::add_stipulation;
use study_text::Text;

/// The title: the tag Event.
fn put_title<'a, 'b, A: Allocator, B: Allocator>(
    alloc: &'a A,
    html: &mut Html<'_, A>,
    bench: &Bench<'b, B>,
    own: &Name,
) -> Result<(), AllocError>
    ensures { OnOk result (html.new ≡ html.old
        ++ element_text Element.Title
        (lettered_text (title_words (named_words own.now
        (tag_of (marked_study bench.now).tags tag.Event))))) }
{
    let event = named_tag(alloc, bench, TagName::Event, own)?;
    put_letters(alloc, html, Element::Title, title_words(event.as_slice()))
}

/// The title of a study with this tag.
pub fn title_words(event: &[u8]) -> &[u8]
    ensures { result.now ≡ title_words event.now }
{
    if event.is_empty() { b"Untitled" } else { event }
}

/// A dot, where something comes before it.
fn put_separator<A: Allocator>(html: &mut Html<'_, A>) -> Result<(), AllocError>
    ensures { OnOk result (html.new ≡ behind html.old) }
{
    if html.is_empty() {
        return Ok(());
    }
    html.draw(&Drawing::Dot)
}

/// What is known, after what is known before it.
fn say_known<A: Allocator>(html: &mut Html<'_, A>, words: &[u8]) -> Result<(), AllocError>
    ensures { OnOk result (html.new ≡ byline_item words.now html.old) }
{
    if words.is_empty() {
        return Ok(());
    }
    put_separator(html)?;
    html.spell(words)
}

/// `entry 5`.
fn add_round<A: Allocator>(text: &mut Text<'_, A>, round: &[u8]) -> Result<(), AllocError>
    ensures { OnOk result (text.new ≡ text.old ++ round_words round.now) }
{
    if round.is_empty() {
        return Ok(());
    }
    text.add(b"entry ")?;
    text.add(round)
}

/// The author, or the place.
fn say_name<'a, 'b, A: Allocator, B: Allocator>(
    alloc: &'a A,
    html: &mut Html<'_, A>,
    bench: &Bench<'b, B>,
    name: TagName,
    own: &Name,
) -> Result<(), AllocError>
    ensures { OnOk result (html.new
        ≡ byline_item (named_words own.now (tag_of (marked_study bench.now).tags name)) html.old) }
{
    let words = named_tag(alloc, bench, name, own)?;
    say_known(html, words.as_slice())
}

fn say_date<'a, 'b, A: Allocator, B: Allocator>(
    alloc: &'a A,
    html: &mut Html<'_, A>,
    bench: &Bench<'b, B>,
    own: &Name,
) -> Result<(), AllocError>
    ensures { OnOk result (html.new ≡ byline_item
        (date_words (named_words own.now (tag_of (marked_study bench.now).tags tag.Date))) html.old) }
{
    let date = named_tag(alloc, bench, TagName::Date, own)?;
    say_known(html, date_words(date.as_slice()))
}

/// `entry 5`, after what is known before it.
fn say_entry<'a, A: Allocator>(
    alloc: &'a A,
    html: &mut Html<'_, A>,
    round: &[u8],
) -> Result<(), AllocError>
    ensures { OnOk result (html.new ≡ byline_item (round_words round.now) html.old) }
{
    let mut entry = Text::new(alloc);
    add_round(&mut entry, round)?;
    say_known(html, entry.as_slice())
}

fn say_round<'a, 'b, A: Allocator, B: Allocator>(
    alloc: &'a A,
    html: &mut Html<'_, A>,
    bench: &Bench<'b, B>,
    own: &Name,
) -> Result<(), AllocError>
    ensures { OnOk result (html.new ≡ byline_item
        (round_words (named_words own.now (tag_of (marked_study bench.now).tags tag.Round))) html.old) }
{
    let round = named_tag(alloc, bench, TagName::Round, own)?;
    say_entry(alloc, html, round.as_slice())
}

/// Author, place, date and entry.
fn put_byline<'a, 'b, A: Allocator, B: Allocator>(
    alloc: &'a A,
    html: &mut Html<'_, A>,
    bench: &Bench<'b, B>,
    names: &Names,
) -> Result<(), AllocError>
    ensures { OnOk result (html.new ≡ html.old
        ++ element_text Element.Byline (byline names.now (marked_study bench.now).tags)) }
{
    let mut byline = Html::new(alloc);
    say_name(alloc, &mut byline, bench, TagName::White, &names.white)?;
    say_name(alloc, &mut byline, bench, TagName::Site, &names.site)?;
    say_date(alloc, &mut byline, bench, &names.date)?;
    say_round(alloc, &mut byline, bench, &names.round)?;
    html.put(Element::Byline, &byline)
}

/// The title, and below it author, place, date and entry.
#[tactic(auto, unfolding(crate::specs::Head::head))]
pub fn put_head<'a, 'b, A: Allocator, B: Allocator>(
    alloc: &'a A,
    html: &mut Html<'_, A>,
    bench: &Bench<'b, B>,
    names: &Names,
) -> Result<(), AllocError>
    ensures { OnOk result (html.new ≡ html.old ++ head names.now (marked_study bench.now).tags) }
{
    let mut within = Html::new(alloc);
    put_title(alloc, &mut within, bench, &names.event)?;
    put_byline(alloc, &mut within, bench, names)?;
    html.put(Element::Header, &within)
}

/// Where Black moves first, that it is so.
pub fn moves_first(side: Side) -> &'static [u8]
    ensures { result.now ≡ moves_first side }
{
    match side {
        Side::White => b"",
        Side::Black => b", Black to move",
    }
}

/// The men of both sides.
#[tactic(auto, unfolding(crate::specs::Head::men_words))]
fn add_men<A: Allocator>(text: &mut Text<'_, A>, men: &[Man]) -> Result<(), AllocError>
    ensures { OnOk result (text.new ≡ text.old ++ men_words men.now) }
{
    add_control(text, Side::White, men)?;
    text.add(b" /")?;
    add_control(text, Side::Black, men)
}

/// The stipulation, and that Black begins, if so.
fn put_stipulation<'a, A: Allocator>(
    alloc: &'a A,
    html: &mut Html<'_, A>,
    stipulation: Stipulation,
    side: Side,
) -> Result<(), AllocError>
    ensures { OnOk result (html.new ≡ html.old
        ++ (element_text Element.Strong (escaped_text (stipulation_text stipulation))
        ++ escaped_text (moves_first side))) }
{
    let mut text = Text::new(alloc);
    add_stipulation(&mut text, stipulation)?;
    put_words(alloc, html, Element::Strong, text.as_slice())?;
    html.say(moves_first(side))
}

/// The counts of men.
fn put_counts<'a, A: Allocator>(
    alloc: &'a A,
    html: &mut Html<'_, A>,
    p: &Position,
) -> Result<(), AllocError>
    ensures { OnOk result (html.new ≡ html.old
        ++ element_text Element.Count (escaped_text (counts_words p.now.men))) }
{
    let mut text = Text::new(alloc);
    add_counts(&mut text, p)?;
    put_words(alloc, html, Element::Count, text.as_slice())
}

/// The men of both sides, each with its square.
fn say_men<'a, A: Allocator>(
    alloc: &'a A,
    html: &mut Html<'_, A>,
    men: &[Man],
) -> Result<(), AllocError>
    ensures { OnOk result (html.new ≡ html.old ++ escaped_text (men_words men.now)) }
{
    let mut text = Text::new(alloc);
    add_men(&mut text, men)?;
    html.say(text.as_slice())
}

/// What is below the diagram: the stipulation, the counts of men, the men and the FEN.
#[tactic(auto, unfolding(crate::specs::Head::caption))]
fn put_caption<'a, 'b, A: Allocator, B: Allocator>(
    alloc: &'a A,
    html: &mut Html<'_, A>,
    bench: &Bench<'b, B>,
) -> Result<(), AllocError>
    ensures { OnOk result (html.new ≡ html.old
        ++ caption (marked_study bench.now).stipulation (marked_study bench.now).start) }
{
    let start = bench.start();
    let fen = write_fen(start);
    let mut within = Html::new(alloc);
    put_stipulation(
        alloc,
        &mut within,
        bench.stipulation(),
        start.position.to_move(),
    )?;
    put_counts(alloc, &mut within, &start.position)?;
    within.draw(&Drawing::Break)?;
    say_men(alloc, &mut within, start.position.men())?;
    within.draw(&Drawing::Break)?;
    put_words(alloc, &mut within, Element::Code, fen.as_str().as_bytes())?;
    html.put(Element::Caption, &within)
}

/// The diagram with what is below it.
#[tactic(auto, unfolding(crate::specs::Head::figure))]
pub fn put_figure<'a, 'b, A: Allocator, B: Allocator>(
    alloc: &'a A,
    html: &mut Html<'_, A>,
    bench: &Bench<'b, B>,
) -> Result<(), AllocError>
    ensures { OnOk result (html.new ≡ html.old
        ++ figure (marked_study bench.now).stipulation (marked_study bench.now).start) }
{
    let start = bench.start();
    let mut within = Html::new(alloc);
    draw_board(alloc, &mut within, &start.position)?;
    put_caption(alloc, &mut within, bench)?;
    html.put(Element::Figure, &within)
}
