//! The drawings: boards, men and signs.
ghost use Rattle.std.specs.Prelude.{◌≡◌, ◌++◌, ◌∷◌, [], OnOk};
ghost use Rattle.study_board.specs.Letters.{letter};
ghost use Rattle.study_html.specs.Drawings.{side_class, colour, shape, size, cell_of, man_drawing, drawing_text};

use std::alloc::{AllocError, Allocator};
use study_board::{Kind, Man, Side, Square};
use study_text::Text;

/// Markup without contents.
#[derive(Clone, Copy)]
pub enum Drawing {
    /// A new line.
    Break,
    /// An empty board.
    Squares,
    /// The files and ranks beside a board.
    Coordinates,
    /// A dot between words.
    Dot,
    /// A dash.
    Dash,
    /// A man on its square.
    Standing(Man),
}

fn side_class(side: Side) -> &'static [u8]
    ensures { result.now ≡ side_class side }
{
    match side {
        Side::White => b"w",
        Side::Black => b"b",
    }
}

fn letter(kind: Kind) -> &'static [u8]
    ensures { result.now ≡ letter kind ∷ [] }
{
    match kind {
        Kind::King => b"K",
        Kind::Queen => b"Q",
        Kind::Rook => b"R",
        Kind::Bishop => b"B",
        Kind::Knight => b"N",
        Kind::Pawn => b"P",
    }
}

/// The upper left corner of the square.
#[tactic(auto, unfolding(crate::specs::Drawings::cell_of))]
fn add_cell<A: Allocator>(text: &mut Text<'_, A>, at: Square) -> Result<(), AllocError>
    ensures { OnOk result (text.new ≡ text.old ++ cell_of at) }
{
    let file = at.file();
    let row = 7 - at.rank();
    text.add(b" x=\"")?;
    text.add_number(45 * file as u32)?;
    text.add(b"\" y=\"")?;
    text.add_number(45 * row as u32)?;
    text.add(b"\"")
}

#[tactic(auto, unfolding(crate::specs::Drawings::colour))]
fn add_colour<A: Allocator>(text: &mut Text<'_, A>, side: Side) -> Result<(), AllocError>
    ensures { OnOk result (text.new ≡ text.old ++ colour side) }
{
    text.add(b" class=\"")?;
    text.add(side_class(side))?;
    text.add(b"\"")
}

#[tactic(auto, unfolding(crate::specs::Drawings::shape))]
fn add_shape<A: Allocator>(text: &mut Text<'_, A>, kind: Kind) -> Result<(), AllocError>
    ensures { OnOk result (text.new ≡ text.old ++ shape kind) }
{
    text.add(b" href=\"#m")?;
    text.add(letter(kind))?;
    text.add(b"\"")
}

/// The width and height of a square.
#[tactic(auto, unfolding(crate::specs::Drawings::size))]
fn add_size<A: Allocator>(text: &mut Text<'_, A>) -> Result<(), AllocError>
    ensures { OnOk result (text.new ≡ text.old ++ size) }
{
    text.add(b" width=\"4")?;
    text.add(b"5\" height")?;
    text.add(b"=\"45\"")
}

#[tactic(auto, unfolding(crate::specs::Drawings::man_drawing))]
fn add_man<A: Allocator>(text: &mut Text<'_, A>, man: &Man) -> Result<(), AllocError>
    ensures { OnOk result (text.new ≡ text.old ++ man_drawing man.now) }
{
    text.add(b"<use")?;
    add_colour(text, man.side)?;
    add_shape(text, man.kind)?;
    add_cell(text, man.at)?;
    add_size(text)?;
    text.add(b"/>")
}

/// Adds the drawing.
#[tactic(auto, unfolding(crate::specs::Drawings::drawing_text))]
pub fn add_drawing<A: Allocator>(
    text: &mut Text<'_, A>,
    drawing: &Drawing,
) -> Result<(), AllocError>
    ensures { OnOk result (text.new ≡ text.old ++ drawing_text drawing.now) }
{
    match drawing {
        Drawing::Break => text.add(b"<br>"),
        Drawing::Squares => text.add(b"<use href=\"#board\"/>"),
        Drawing::Coordinates => text.add(b"<use href=\"#coordinates\"/>"),
        Drawing::Dot => text.add(b" &#183; "),
        Drawing::Dash => text.add(b"&#8211;"),
        Drawing::Standing(man) => add_man(text, man),
    }
}
