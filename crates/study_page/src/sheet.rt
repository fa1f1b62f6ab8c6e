//! A study on a sheet of diagrams.
ghost use Rattle.std.specs.Prelude.{◌≡◌, ℕ, List, [], ◌∷◌, ◌++◌, Some, OnOk, IfOk, Err};
ghost use Rattle.std.specs.Io.KnownBytes.{Appends};
ghost use Rattle.study_text.specs.Taken.{TakesPrefix};
ghost use Rattle.study_tree.specs.Tree.{spot_at};
ghost use Rattle.study_marks.specs.Bench.{played_by};
ghost use Rattle.study_marks.specs.BenchState.{marked_study};
ghost use Rattle.study_marks.specs.Goals.{aim_of};
ghost use Rattle.study_marks.specs.Study.{tag_of, plain_study};
ghost use Rattle.study_marks.specs.declared.tag.TagName.TheVariants as tag;
ghost use Rattle.study_html.specs.Elements.{element_text};
ghost use Rattle.study_html.specs.Escape.{escaped_text};
ghost use Rattle.study_head.specs.Known.{named_words};
ghost use Rattle.study_pgn.specs.Pgn.{stipulation_text};
ghost use Rattle.study_page.specs.Sheet.{number_words, author_line, first_words, second_words, key_words, place_caption, place, IsPlaceOf};

use std::alloc::{AllocError, Allocator};
use std::io::Write;
use study_entry::{EntryInfo, Name};
use study_facts::{WriteFault, move_to};
use study_head::{add_label, draw_board, moves_first, named_tag};
use study_html::{Drawing, Element, Html, put_words};
use study_marks::{Bench, TagName};
use study_moves::{Move, played};
use study_pgn::add_stipulation;
use study_text::{Text, write_text};

/// The number and the stipulation.
#[tactic(auto, unfolding(crate::specs::Sheet::number_words))]
fn add_numbered<'b, A: Allocator, B: Allocator>(
    text: &mut Text<'_, A>,
    bench: &Bench<'b, B>,
    number: u32,
) -> Result<(), AllocError>
    ensures { OnOk result (text.new ≡ text.old
        ++ number_words number (stipulation_text (marked_study bench.now).stipulation)) }
{
    text.add_number(number)?;
    text.add(b". ")?;
    add_stipulation(text, bench.stipulation())
}

/// The author on a line, if there is one.
fn say_author_line<A: Allocator>(html: &mut Html<'_, A>, author: &[u8]) -> Result<(), AllocError>
    ensures { OnOk result (html.new ≡ html.old ++ author_line author.now) }
{
    if author.is_empty() {
        return Ok(());
    }
    html.draw(&Drawing::Break)?;
    html.spell(author)
}

/// The author of the study on a line, in his own letters as far as these are known, if he is known.
fn say_author<'a, 'b, A: Allocator, B: Allocator>(
    alloc: &'a A,
    html: &mut Html<'_, A>,
    bench: &Bench<'b, B>,
    own: &Name,
) -> Result<(), AllocError>
    ensures { OnOk result (html.new ≡ html.old
        ++ author_line (named_words own.now (tag_of (marked_study bench.now).tags tag.White))) }
{
    let author = named_tag(alloc, bench, TagName::White, own)?;
    say_author_line(html, author.as_slice())
}

/// The hero's first move, with its number, where he moves first.
fn add_first<'b, A: Allocator, B: Allocator>(
    text: &mut Text<'_, A>,
    bench: &Bench<'b, B>,
) -> Result<(), AllocError>
    ensures { OnOk result (text.new ≡ text.old
        ++ first_words (marked_study bench.now).start 0 (marked_study bench.now).start.position
        (marked_study bench.now).tree.below) }
{
    let first = bench.start();
    match move_to(bench, &[0]) {
        None => Ok(()),
        Some(m) => add_label(text, first, 0, &first.position, m),
    }
}

/// The hero's first move, with its number, after this move of the opponent.
fn add_answer<'b, A: Allocator, B: Allocator>(
    text: &mut Text<'_, A>,
    bench: &Bench<'b, B>,
    m: Move,
) -> Result<(), AllocError>
    requires { played_by (spot_at (marked_study bench.now).tree (0 ∷ [])) ≡ Some m }
    ensures { OnOk result (text.new ≡ text.old
        ++ second_words (marked_study bench.now).start (marked_study bench.now).tree.below) }
{
    let first = bench.start();
    match move_to(bench, &[0, 0]) {
        None => Ok(()),
        Some(answer) => {
            let next = played(&first.position, m);
            add_label(text, first, 1, &next, answer)
        }
    }
}

/// The hero's first move, with its number, where the opponent moves first.
fn add_second<'b, A: Allocator, B: Allocator>(
    text: &mut Text<'_, A>,
    bench: &Bench<'b, B>,
) -> Result<(), AllocError>
    ensures { OnOk result (text.new ≡ text.old
        ++ second_words (marked_study bench.now).start (marked_study bench.now).tree.below) }
{
    match move_to(bench, &[0]) {
        None => Ok(()),
        Some(m) => add_answer(text, bench, m),
    }
}

/// The hero's first move in the main line, with its number.
fn add_key<'b, A: Allocator, B: Allocator>(
    text: &mut Text<'_, A>,
    bench: &Bench<'b, B>,
) -> Result<(), AllocError>
    ensures { OnOk result (text.new ≡ text.old
        ++ key_words (marked_study bench.now).start (aim_of (marked_study bench.now)).hero_first
        (marked_study bench.now).tree.below) }
{
    if bench.stipulation().hero == bench.start().position.to_move() {
        return add_first(text, bench);
    }
    add_second(text, bench)
}

fn put_numbered<'a, 'b, A: Allocator, B: Allocator>(
    alloc: &'a A,
    html: &mut Html<'_, A>,
    bench: &Bench<'b, B>,
    number: u32,
) -> Result<(), AllocError>
    ensures { OnOk result (html.new ≡ html.old ++ element_text Element.Strong (escaped_text
        (number_words number (stipulation_text (marked_study bench.now).stipulation)))) }
{
    let mut text = Text::new(alloc);
    add_numbered(&mut text, bench, number)?;
    put_words(alloc, html, Element::Strong, text.as_slice())
}

fn say_key<'a, 'b, A: Allocator, B: Allocator>(
    alloc: &'a A,
    html: &mut Html<'_, A>,
    bench: &Bench<'b, B>,
) -> Result<(), AllocError>
    ensures { OnOk result (html.new ≡ html.old ++ escaped_text
        (key_words (marked_study bench.now).start (aim_of (marked_study bench.now)).hero_first
        (marked_study bench.now).tree.below)) }
{
    let mut text = Text::new(alloc);
    add_key(&mut text, bench)?;
    html.say(text.as_slice())
}

/// What is below the diagram.
#[tactic(auto, unfolding(crate::specs::Sheet::place_caption))]
fn put_place_caption<'a, 'b, A: Allocator, B: Allocator>(
    alloc: &'a A,
    html: &mut Html<'_, A>,
    bench: &Bench<'b, B>,
    info: EntryInfo,
) -> Result<(), AllocError>
    ensures { OnOk result (html.new ≡ html.old
        ++ place_caption info.number (marked_study bench.now).stipulation
        (marked_study bench.now).start
        (named_words info.origin.names.white (tag_of (marked_study bench.now).tags tag.White))
        (key_words (marked_study bench.now).start (aim_of (marked_study bench.now)).hero_first
        (marked_study bench.now).tree.below)) }
{
    let mut within = Html::new(alloc);
    put_numbered(alloc, &mut within, bench, info.number)?;
    within.say(moves_first(bench.start().position.to_move()))?;
    say_author(alloc, &mut within, bench, &info.origin.names.white)?;
    within.draw(&Drawing::Break)?;
    say_key(alloc, &mut within, bench)?;
    html.put(Element::Caption, &within)
}

/// The study on a sheet.
#[tactic(auto, unfolding(crate::specs::Sheet::place))]
fn place_of<'a, 'b, A: Allocator, B: Allocator>(
    alloc: &'a A,
    bench: &Bench<'b, B>,
    info: EntryInfo,
) -> Result<Html<'a, A>, AllocError>
    ensures { IfOk result (λ html. html ≡ place (marked_study bench.now) info) }
{
    let mut html = Html::new(alloc);
    let mut within = Html::new(alloc);
    draw_board(alloc, &mut within, &bench.start().position)?;
    put_place_caption(alloc, &mut within, bench, info)?;
    html.put(Element::Figure, &within)?;
    Ok(html)
}

/// The same, of the study without its marks.
#[tactic(auto, using(crate::proofs::PlacesPlain::place_plain))]
fn plain_place_of<'a, 'b, A: Allocator, B: Allocator>(
    alloc: &'a A,
    bench: &Bench<'b, B>,
    info: EntryInfo,
) -> Result<Html<'a, A>, AllocError>
    ensures { IfOk result (λ html. IsPlaceOf (plain_study (marked_study bench.now)) info html) }
{
    let html = place_of(alloc, bench, info)?;
    Ok(html)
}

/// Writes a study as a place on a sheet, twelve of which fill a page: the diagram of its start, with its number, what is to be done, its
/// author and the key below.
pub fn write_place<'a, 'b, A: Allocator, B: Allocator, W: Write>(
    alloc: &'a A,
    bench: &Bench<'b, B>,
    info: EntryInfo,
    out: &mut W,
) -> Result<(), WriteFault>
    ensures ok { OnOk result ((text : List ℕ)
        × IsPlaceOf (plain_study (marked_study bench.now)) info text
        × Appends (W.contents out.old) (W.contents out.new) text) }
    ensures device { result ≡ Err WriteFault.Device → (text : List ℕ)
        × IsPlaceOf (plain_study (marked_study bench.now)) info text
        × TakesPrefix (W.contents out.old) (W.contents out.new) text }
    ensures memory { result ≡ Err WriteFault.OutOfMemory → out.new ≡ out.old }
{
    let html = plain_place_of(alloc, bench, info)?;
    write_text(out, html.as_slice())?;
    Ok(())
}
