//! The rows of games that were left out.
ghost use Rattle.std.specs.Prelude.{◌≡◌, ◌++◌, [], OnOk, IfOk, IfErr, decimal};
ghost use Rattle.study_html.specs.Elements.{element_text};
ghost use Rattle.study_html.specs.Escape.{escaped_text};
ghost use Rattle.study_html.specs.declared.element.Element.TheVariants.{Cell};
ghost use Rattle.study_print.specs.Entries.{left_out_words, left_out_cells, left_out_row};

use crate::left_out::say_explanation;
use std::alloc::{AllocError, Allocator};
use study_html::{Element, Html, put_words};
use study_report::{WriteFault, statement, subject};
use study_text::Text;

/// Puts a cell with the number of an entry.
fn put_number<'a, A: Allocator>(
    alloc: &'a A,
    row: &mut Html<'_, A>,
    number: u32,
) -> Result<(), AllocError>
    ensures { OnOk result (row.new ≡ row.old ++ element_text Cell (escaped_text (decimal number))) }
{
    let mut digits = Text::new(alloc);
    digits.add_number(number)?;
    put_words(alloc, row, Element::Cell, digits.as_slice())
}

/// Puts a cell with the reason why a game was left out.
fn put_reason<'a, A: Allocator>(
    alloc: &'a A,
    row: &mut Html<'_, A>,
    why: &[u8],
) -> Result<(), AllocError>
    ensures { OnOk result (row.new ≡ row.old ++ element_text Cell (left_out_words why.now)) }
{
    let mut words = Html::new(alloc);
    words.say(why)?;
    say_explanation(&mut words, why)?;
    row.put(Element::Cell, &words)
}

/// Puts an empty cell.
fn put_nothing<'a, A: Allocator>(alloc: &'a A, row: &mut Html<'_, A>) -> Result<(), AllocError>
    ensures { OnOk result (row.new ≡ row.old ++ element_text Cell []) }
{
    row.put(Element::Cell, &Html::new(alloc))
}

/// Puts the cells of a game that was left out, as the entry with this number.
#[tactic(auto, unfolding(crate::specs::Entries::left_out_cells))]
fn put_left_out<'a, A: Allocator>(
    alloc: &'a A,
    row: &mut Html<'_, A>,
    number: u32,
    line: &[u8],
) -> Result<(), AllocError>
    ensures { OnOk result (row.new ≡ row.old ++ left_out_cells number line.now) }
{
    put_number(alloc, row, number)?;
    put_words(alloc, row, Element::Cell, subject(line))?;
    put_nothing(alloc, row)?;
    put_nothing(alloc, row)?;
    put_reason(alloc, row, statement(line))
}

/// The row of a game that was left out, as the entry with this number.
fn left_out_row<'a, A: Allocator>(
    alloc: &'a A,
    number: u32,
    line: &[u8],
) -> Result<Html<'a, A>, AllocError>
    ensures { IfOk result (λ html. html ≡ left_out_row number line.now) }
{
    let mut html = Html::new(alloc);
    let mut row = Html::new(alloc);
    put_left_out(alloc, &mut row, number, line)?;
    html.put(Element::Row, &row)?;
    Ok(html)
}

/// The rows of the list with one more, of a game that was left out.
fn rows_with<'s, S: Allocator>(
    alloc: &'s S,
    rows: &Html<'_, S>,
    number: u32,
    line: &[u8],
) -> Result<Html<'s, S>, AllocError>
    ensures { IfOk result (λ more. more ≡ rows.now ++ left_out_row number line.now) }
{
    let mut more = Html::new(alloc);
    let row = left_out_row(alloc, number, line)?;
    more.append(rows)?;
    more.append(&row)?;
    Ok(more)
}

/// The rows of the list with one more, of a game that was left out, before its paragraph is written.
pub fn with_left_out<'s, S: Allocator>(
    alloc: &'s S,
    rows: &Html<'_, S>,
    number: u32,
    line: &[u8],
) -> Result<Html<'s, S>, WriteFault>
    ensures ok { IfOk result (λ more. more ≡ rows.now ++ left_out_row number line.now) }
    ensures err { IfErr result (λ e. e ≡ WriteFault.OutOfMemory) }
{
    match rows_with(alloc, rows, number, line) {
        Ok(more) => Ok(more),
        Err(_) => Err(WriteFault::OutOfMemory),
    }
}
