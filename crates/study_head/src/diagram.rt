//! Diagrams.
ghost use Rattle.std.specs.Prelude.{◌≡◌, ◌+◌, ◌++◌, OnOk};
ghost use Rattle.std.specs.List.{flat_map};
ghost use Rattle.study_board.specs.Letters.{letter};
ghost use Rattle.study_html.specs.declared.element.Element.TheVariants.{Said};
ghost use Rattle.study_html.specs.Elements.{element_text};
ghost use Rattle.study_html.specs.Escape.{escaped_text};
ghost use Rattle.study_head.specs.Diagram.{man_words, listed_man, control, heard_words, standing, board, mini};

use std::alloc::{AllocError, Allocator};
use study_board::{Kind, Man, Position, Side};
use study_html::{Drawing, Element, Html, put_words};
use study_pgn::side_name;
use study_text::Text;

fn letter(kind: Kind) -> u8
    ensures { result ≡ letter kind }
{
    match kind {
        Kind::King => b'K',
        Kind::Queen => b'Q',
        Kind::Rook => b'R',
        Kind::Bishop => b'B',
        Kind::Knight => b'N',
        Kind::Pawn => b'P',
    }
}

/// The man's letter and its square, after a space.
fn add_man_words<A: Allocator>(text: &mut Text<'_, A>, man: &Man) -> Result<(), AllocError>
    ensures { OnOk result (text.new ≡ text.old ++ man_words man.now) }
{
    let file = man.at.file();
    let rank = man.at.rank();
    text.add(&[32, letter(man.kind), 97 + file, 49 + rank])
}

/// The man, if it is of this side and kind.
fn add_listed<A: Allocator>(
    text: &mut Text<'_, A>,
    side: Side,
    kind: Kind,
    man: &Man,
) -> Result<(), AllocError>
    ensures { OnOk result (text.new ≡ text.old ++ listed_man side kind man.now) }
{
    if man.is(side, kind) {
        return add_man_words(text, man);
    }
    Ok(())
}

/// The men of this side and kind.
fn add_kind<A: Allocator>(
    text: &mut Text<'_, A>,
    side: Side,
    kind: Kind,
    men: &[Man],
) -> Result<(), AllocError>
    ensures { OnOk result (text.new ≡ text.old ++ flat_map (listed_man side kind) men.now) }
{
    for man in men {
        add_listed(text, side, kind, man)?;
    }
    Ok(())
}

/// The men of this side, each with its square, from the king to the pawns.
#[tactic(auto, unfolding(crate::specs::Diagram::control))]
pub fn add_control<A: Allocator>(
    text: &mut Text<'_, A>,
    side: Side,
    men: &[Man],
) -> Result<(), AllocError>
    ensures { OnOk result (text.new ≡ text.old ++ control side men.now) }
{
    add_kind(text, side, Kind::King, men)?;
    add_kind(text, side, Kind::Queen, men)?;
    add_kind(text, side, Kind::Rook, men)?;
    add_kind(text, side, Kind::Bishop, men)?;
    add_kind(text, side, Kind::Knight, men)?;
    add_kind(text, side, Kind::Pawn, men)
}

/// The position in words.
#[tactic(auto, unfolding(crate::specs::Diagram::heard_words))]
fn add_spoken_position<A: Allocator>(text: &mut Text<'_, A>, p: &Position) -> Result<(), AllocError>
    ensures { OnOk result (text.new ≡ text.old ++ heard_words p.now) }
{
    text.add(b"White")?;
    add_control(text, Side::White, p.men())?;
    text.add(b"; Black")?;
    add_control(text, Side::Black, p.men())?;
    text.add(b"; ")?;
    text.add(side_name(p.to_move()))?;
    text.add(b" to move")
}

/// Adds the position in words, for whoever hears the page.
fn put_spoken_position<'a, A: Allocator>(
    alloc: &'a A,
    html: &mut Html<'_, A>,
    p: &Position,
) -> Result<(), AllocError>
    ensures { OnOk result (html.new ≡ html.old
        ++ element_text Said (escaped_text (heard_words p.now))) }
{
    let mut text = Text::new(alloc);
    add_spoken_position(&mut text, p)?;
    put_words(alloc, html, Element::Said, text.as_slice())
}

/// Each man on its square.
fn draw_men<A: Allocator>(html: &mut Html<'_, A>, men: &[Man]) -> Result<(), AllocError>
    ensures { OnOk result (html.new ≡ html.old ++ flat_map standing men.now) }
{
    for man in men {
        html.draw(&Drawing::Standing(*man))?;
    }
    Ok(())
}

/// Adds a diagram of the position, with coordinates.
#[tactic(auto, unfolding(crate::specs::Diagram::board))]
pub fn draw_board<'a, A: Allocator>(
    alloc: &'a A,
    html: &mut Html<'_, A>,
    p: &Position,
) -> Result<(), AllocError>
    ensures { OnOk result (html.new ≡ html.old ++ board p.now) }
{
    let mut drawn = Html::new(alloc);
    put_spoken_position(alloc, &mut drawn, p)?;
    drawn.draw(&Drawing::Squares)?;
    drawn.draw(&Drawing::Coordinates)?;
    draw_men(&mut drawn, p.men())?;
    html.put(Element::Board, &drawn)
}

/// Adds a small diagram of the position.
#[tactic(auto, unfolding(crate::specs::Diagram::mini))]
pub fn draw_mini<'a, A: Allocator>(
    alloc: &'a A,
    html: &mut Html<'_, A>,
    p: &Position,
) -> Result<(), AllocError>
    ensures { OnOk result (html.new ≡ html.old ++ mini p.now) }
{
    let mut drawn = Html::new(alloc);
    put_spoken_position(alloc, &mut drawn, p)?;
    drawn.draw(&Drawing::Squares)?;
    draw_men(&mut drawn, p.men())?;
    html.put(Element::Mini, &drawn)
}
