//! The remarks of an imported script as paragraphs.
ghost use Rattle.std.specs.Prelude.{◌≡◌, ◌++◌, Err, OnOk, IfOk};
ghost use Rattle.std.specs.Io.KnownBytes.{Appends};
ghost use Rattle.study_text.specs.Taken.{TakesPrefix};
ghost use Rattle.study_html.specs.Escape.{escaped_text};
ghost use Rattle.study_print.specs.Remarks.{entry_words, left_out_words, left_out_part, fault_words, not_read_words, not_read_part};
ghost use Rattle.study_print.specs.Remarks.{note_part, stands_in_head, is_name, note_text, remark_text};

use crate::left_out::say_explanation;
use std::alloc::{AllocError, Allocator};
use std::io::Write;
use study_head::add_in_utf8;
use study_html::{Element, Html, put_letters};
use study_remark::{Original, Remark, read_remark};
use study_report::{WriteFault, behind, is_left_out, is_not_read, statement, subject};
use study_text::{Text, write_text};

/// Adds `No page for entry 4: `.
fn say_entry<'a, A: Allocator>(
    alloc: &'a A,
    part: &mut Html<'_, A>,
    number: u32,
) -> Result<(), AllocError>
    ensures { OnOk result (part.new ≡ part.old ++ escaped_text (entry_words number)) }
{
    let mut front = Text::new(alloc);
    front.add(b"No page for entry ")?;
    front.add_number(number)?;
    front.add(b": ")?;
    part.say(front.as_slice())
}

/// Adds which game was left out, and why, by the line of its remark.
#[tactic(auto, unfolding(crate::specs::Remarks::left_out_words))]
fn say_left_out<A: Allocator>(part: &mut Html<'_, A>, line: &[u8]) -> Result<(), AllocError>
    ensures { OnOk result (part.new ≡ part.old ++ left_out_words line.now) }
{
    part.say(behind(line, 3))?;
    say_explanation(part, statement(line))
}

/// The paragraph of a game without a page, which is the entry with this number.
#[tactic(auto, unfolding(crate::specs::Remarks::left_out_part))]
fn left_out_of<'a, A: Allocator>(
    alloc: &'a A,
    number: u32,
    line: &[u8],
) -> Result<Html<'a, A>, AllocError>
    ensures { IfOk result (λ html. html ≡ left_out_part number line.now) }
{
    let mut html = Html::new(alloc);
    let mut part = Html::new(alloc);
    say_entry(alloc, &mut part, number)?;
    say_left_out(&mut part, line)?;
    html.put(Element::Warning, &part)?;
    Ok(html)
}

/// Writes the paragraph of a game without a page, which is the entry with this number.
fn write_left_out<'a, A: Allocator, W: Write>(
    alloc: &'a A,
    number: u32,
    line: &[u8],
    out: &mut W,
) -> Result<(), WriteFault>
    ensures ok { OnOk result
        (Appends (W.contents out.old) (W.contents out.new) (left_out_part number line.now)) }
    ensures device { result ≡ Err WriteFault.Device
        → TakesPrefix (W.contents out.old) (W.contents out.new) (left_out_part number line.now) }
    ensures memory { result ≡ Err WriteFault.OutOfMemory → out.new ≡ out.old }
{
    let html = left_out_of(alloc, number, line)?;
    write_text(out, html.as_slice())?;
    Ok(())
}

/// Of `#! game 3, line 31: not read: NotSan at Kx` the words `NotSan at Kx`.
fn fault_words(line: &[u8]) -> &[u8]
    ensures { result.now ≡ fault_words line.now }
{
    behind(statement(line), 10)
}

/// Adds where in a game the reading ended, and why, by the line of its remark.
#[tactic(auto, unfolding(crate::specs::Remarks::not_read_words))]
fn say_not_read<A: Allocator>(part: &mut Html<'_, A>, line: &[u8]) -> Result<(), AllocError>
    ensures { OnOk result (part.new ≡ part.old ++ not_read_words line.now) }
{
    let why = fault_words(line);
    part.say(subject(line))?;
    part.say(b": ")?;
    part.say(why)?;
    say_explanation(part, why)
}

/// The paragraph of a game that was read only up to a fault.
#[tactic(auto, unfolding(crate::specs::Remarks::not_read_part))]
fn not_read_of<'a, A: Allocator>(alloc: &'a A, line: &[u8]) -> Result<Html<'a, A>, AllocError>
    ensures { IfOk result (λ html. html ≡ not_read_part line.now) }
{
    let mut html = Html::new(alloc);
    let mut part = Html::new(alloc);
    part.say(b"The game is read only up to here: ")?;
    say_not_read(&mut part, line)?;
    html.put(Element::Warning, &part)?;
    Ok(html)
}

/// Writes the paragraph of a game that was read only up to a fault.
fn write_not_read<'a, A: Allocator, W: Write>(
    alloc: &'a A,
    line: &[u8],
    out: &mut W,
) -> Result<(), WriteFault>
    ensures ok { OnOk result
        (Appends (W.contents out.old) (W.contents out.new) (not_read_part line.now)) }
    ensures device { result ≡ Err WriteFault.Device
        → TakesPrefix (W.contents out.old) (W.contents out.new) (not_read_part line.now) }
    ensures memory { result ≡ Err WriteFault.OutOfMemory → out.new ≡ out.old }
{
    let html = not_read_of(alloc, line)?;
    write_text(out, html.as_slice())?;
    Ok(())
}

/// The paragraph of what else an import says of a block.
#[tactic(auto, unfolding(crate::specs::Remarks::note_part))]
fn note_of<'a, A: Allocator>(alloc: &'a A, line: &[u8]) -> Result<Html<'a, A>, AllocError>
    ensures { IfOk result (λ html. html ≡ note_part line.now) }
{
    let mut html = Html::new(alloc);
    let mut words = Text::new(alloc);
    add_in_utf8(&mut words, behind(line, 3))?;
    put_letters(alloc, &mut html, Element::Note, words.as_slice())?;
    Ok(html)
}

/// Whether a tag stands in the head of a page.
fn stands_in_head(name: Original) -> bool
    ensures { result ≡ stands_in_head name }
{
    match name {
        Original::Black => false,
        _ => true,
    }
}

/// Whether the line is the original of a tag that stands in the head of a page.
fn is_name(line: &[u8]) -> bool
    ensures { result ≡ is_name line.now }
{
    match read_remark(line) {
        Some(Remark::Original(name, _)) => stands_in_head(name),
        _ => false,
    }
}

/// Writes the paragraph of what else an import says of a block, unless it stands in the head of a page.
fn write_note<'a, A: Allocator, W: Write>(
    alloc: &'a A,
    line: &[u8],
    out: &mut W,
) -> Result<(), WriteFault>
    ensures ok { OnOk result
        (Appends (W.contents out.old) (W.contents out.new) (note_text line.now)) }
    ensures device { result ≡ Err WriteFault.Device
        → TakesPrefix (W.contents out.old) (W.contents out.new) (note_text line.now) }
    ensures memory { result ≡ Err WriteFault.OutOfMemory → out.new ≡ out.old }
{
    if is_name(line) {
        return Ok(());
    }
    let html = note_of(alloc, line)?;
    write_text(out, html.as_slice())?;
    Ok(())
}

/// Writes the paragraph of a remark; a game that was left out is the entry with this number.
pub fn write_remark<'a, A: Allocator, W: Write>(
    alloc: &'a A,
    number: u32,
    line: &[u8],
    out: &mut W,
) -> Result<(), WriteFault>
    ensures ok { OnOk result
        (Appends (W.contents out.old) (W.contents out.new) (remark_text number line.now)) }
    ensures device { result ≡ Err WriteFault.Device
        → TakesPrefix (W.contents out.old) (W.contents out.new) (remark_text number line.now) }
    ensures memory { result ≡ Err WriteFault.OutOfMemory → out.new ≡ out.old }
{
    if is_left_out(line) {
        return write_left_out(alloc, number, line, out);
    }
    if is_not_read(line) {
        return write_not_read(alloc, line, out);
    }
    write_note(alloc, line, out)
}
