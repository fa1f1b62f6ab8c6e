//! The elements of a page.
ghost use Rattle.std.specs.Prelude.{◌≡◌, ◌++◌, OnOk};
ghost use Rattle.study_html.specs.Elements.{name, fixed_attributes, attributes, start_tag, end_tag, element_text};

use std::alloc::{AllocError, Allocator};
use study_text::Text;

/// An element of a page, by its purpose.
#[derive(Clone, Copy)]
pub enum Element {
    /// The head of a page.
    Header,
    /// The title of a page.
    Title,
    /// Author, place and date.
    Byline,
    /// Diagram and verdict, side by side.
    Top,
    /// A diagram with its caption.
    Figure,
    /// The part below a diagram.
    Caption,
    /// Bold words.
    Strong,
    /// The count of men.
    Count,
    /// A text as typed.
    Code,
    /// The part with the verdict.
    Verdict,
    /// The heading of a part.
    Heading,
    /// The stamp of a sound study.
    Sound,
    /// The stamp of an unsound study.
    Unsound,
    /// The stamp of a wrong study.
    Wrong,
    /// A paragraph.
    Paragraph,
    /// A warning.
    Warning,
    /// A note on how to read a part.
    Note,
    /// A part of the page.
    Part,
    /// The solution.
    Tree,
    /// The only move that holds.
    Only,
    /// A move beside which other moves hold.
    Dual,
    /// A move that gives the goal away.
    Mistake,
    /// A move in a position that does not hold.
    Idle,
    /// A move of the opponent.
    Reply,
    /// The sign after a move.
    Sign,
    /// Small words.
    Small,
    /// A small number below the line.
    Below,
    /// A list.
    List,
    /// An entry of a list.
    Item,
    /// The faults of a solution.
    Faults,
    /// Cards, two in a row.
    Cards,
    /// A card.
    Card,
    /// The part beside a diagram.
    Beside,
    /// The title of a card.
    CardTitle,
    /// A label after a move.
    Label,
    /// Other moves that hold.
    Also,
    /// A table.
    Table,
    /// The head of a table.
    Heads,
    /// The rows of a table.
    Rows,
    /// A row of a table.
    Row,
    /// A head of a column.
    Head,
    /// A cell of a table.
    Cell,
    /// Words that are not broken across lines.
    Whole,
    /// Defences with the same answer.
    Group,
    /// The answer to such defences.
    Answer,
    /// The foot of a page.
    Foot,
    /// The description of a drawing, for screen readers.
    Said,
    /// The page with all entries.
    Summary,
    /// A diagram with coordinates.
    Board,
    /// A small diagram.
    Mini,
    /// The page of the entry of this number.
    Entry(u32),
    /// A link to the page of the entry of this number.
    Link(u32),
}

/// The name of the element in HTML.
fn name(element: Element) -> &'static [u8]
    ensures { result.now ≡ name element }
{
    match element {
        Element::Header => b"header",
        Element::Title => b"h1",
        Element::Byline | Element::Paragraph | Element::Warning | Element::Note => b"p",
        Element::Top
        | Element::Tree
        | Element::Cards
        | Element::Card
        | Element::Beside
        | Element::Group => b"div",
        Element::Figure => b"figure",
        Element::Caption => b"figcaption",
        Element::Strong | Element::Sign => b"b",
        Element::Code => b"code",
        Element::Verdict | Element::Part => b"section",
        Element::Heading => b"h2",
        Element::Small => b"small",
        Element::Below => b"sub",
        Element::List | Element::Faults | Element::Also => b"ul",
        Element::Item => b"li",
        Element::CardTitle => b"h3",
        Element::Table => b"table",
        Element::Heads => b"thead",
        Element::Rows => b"tbody",
        Element::Row => b"tr",
        Element::Head => b"th",
        Element::Cell => b"td",
        Element::Answer => b"i",
        Element::Foot => b"footer",
        Element::Said => b"title",
        Element::Summary | Element::Entry(_) => b"article",
        Element::Board | Element::Mini => b"svg",
        Element::Link(_) => b"a",
        _ => b"span",
    }
}

/// The attributes of an element without a number, each after a space.
fn fixed_attributes(element: Element) -> &'static [u8]
    ensures { result.now ≡ fixed_attributes element }
{
    match element {
        Element::Byline => b" class=\"by\"",
        Element::Top => b" class=\"top\"",
        Element::Count => b" class=\"cnt\"",
        Element::Verdict => b" class=\"verdict\"",
        Element::Sound => b" class=\"stamp sound\"",
        Element::Unsound => b" class=\"stamp unsound\"",
        Element::Wrong => b" class=\"stamp wrong\"",
        Element::Warning => b" class=\"warn\"",
        Element::Note => b" class=\"note\"",
        Element::Tree => b" class=\"tree\"",
        Element::Only => b" class=\"m only\"",
        Element::Dual => b" class=\"m dual\"",
        Element::Mistake => b" class=\"m mistake\"",
        Element::Idle => b" class=\"m idle\"",
        Element::Reply => b" class=\"m reply\"",
        Element::Sign => b" class=\"s\"",
        Element::Faults => b" class=\"faults\"",
        Element::Cards => b" class=\"cards\"",
        Element::Card => b" class=\"card\"",
        Element::Label => b" class=\"tag\"",
        Element::Also => b" class=\"also\"",
        Element::Whole => b" class=\"nb\"",
        Element::Summary => b" class=\"sum\"",
        Element::Board => b" class=\"board\" role=\"img\" viewBox=\"-14 -3 377 380\"",
        Element::Mini => b" class=\"mini\" role=\"img\" viewBox=\"-3 -3 366 366\"",
        _ => b"",
    }
}

/// Adds the attributes of the element.
fn add_attributes<A: Allocator>(text: &mut Text<'_, A>, element: Element) -> Result<(), AllocError>
    ensures { OnOk result (text.new ≡ text.old ++ attributes element) }
{
    match element {
        Element::Entry(number) => {
            text.add(b" id=\"e")?;
            text.add_number(number)?;
            text.add(b"\"")
        }
        Element::Link(number) => {
            text.add(b" href=\"#e")?;
            text.add_number(number)?;
            text.add(b"\"")
        }
        _ => text.add(fixed_attributes(element)),
    }
}

#[tactic(auto, unfolding(crate::specs::Elements::start_tag))]
fn add_start_tag<A: Allocator>(text: &mut Text<'_, A>, element: Element) -> Result<(), AllocError>
    ensures { OnOk result (text.new ≡ text.old ++ start_tag element) }
{
    text.add(b"<")?;
    text.add(name(element))?;
    add_attributes(text, element)?;
    text.add(b">")
}

#[tactic(auto, unfolding(crate::specs::Elements::end_tag))]
fn add_end_tag<A: Allocator>(text: &mut Text<'_, A>, element: Element) -> Result<(), AllocError>
    ensures { OnOk result (text.new ≡ text.old ++ end_tag element) }
{
    text.add(b"</")?;
    text.add(name(element))?;
    text.add(b">")
}

/// Adds the element with its contents.
#[tactic(auto, unfolding(crate::specs::Elements::element_text))]
pub fn add_element<A: Allocator>(
    text: &mut Text<'_, A>,
    element: Element,
    inner: &[u8],
) -> Result<(), AllocError>
    ensures { OnOk result (text.new ≡ text.old ++ element_text element inner.now) }
{
    add_start_tag(text, element)?;
    text.add(inner)?;
    add_end_tag(text, element)
}
