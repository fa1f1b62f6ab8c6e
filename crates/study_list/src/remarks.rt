//! A game that was left out as a record.
ghost use Rattle.std.specs.Prelude.{◌≡◌, ◌++◌, Err, OnOk};
ghost use Rattle.std.specs.Io.KnownBytes.{Appends};
ghost use Rattle.study_text.specs.Taken.{TakesPrefix};
ghost use Rattle.study_list.specs.List.{left_out_record, remark_record};

use std::alloc::{AllocError, Allocator};
use std::io::Write;
use study_page::add_quoted;
use study_report::{WriteFault, is_left_out, statement, subject};
use study_text::{Text, write_text};

#[tactic(auto, unfolding(crate::specs::List::left_out_record))]
fn add_left_out<A: Allocator>(
    text: &mut Text<'_, A>,
    number: u32,
    line: &[u8],
) -> Result<(), AllocError>
    ensures { OnOk result (text.new ≡ text.old ++ left_out_record number line.now) }
{
    text.add_number(number)?;
    text.add(b",")?;
    add_quoted(text, subject(line))?;
    text.add(b",,,,")?;
    add_quoted(text, statement(line))?;
    text.add(b",\r\n")
}

fn add_remark<A: Allocator>(
    text: &mut Text<'_, A>,
    number: u32,
    line: &[u8],
) -> Result<(), AllocError>
    ensures { OnOk result (text.new ≡ text.old ++ remark_record number line.now) }
{
    if is_left_out(line) {
        return add_left_out(text, number, line);
    }
    Ok(())
}

/// Writes the record of a game that was left out, which is the entry with this number, and nothing for another remark.
pub fn write_remark<'a, A: Allocator, W: Write>(
    alloc: &'a A,
    number: u32,
    line: &[u8],
    out: &mut W,
) -> Result<(), WriteFault>
    ensures ok { OnOk result
        (Appends (W.contents out.old) (W.contents out.new) (remark_record number line.now)) }
    ensures device { result ≡ Err WriteFault.Device
        → TakesPrefix (W.contents out.old) (W.contents out.new) (remark_record number line.now) }
    ensures memory { result ≡ Err WriteFault.OutOfMemory → out.new ≡ out.old }
{
    let mut text = Text::new(alloc);
    add_remark(&mut text, number, line)?;
    write_text(out, text.as_slice())?;
    Ok(())
}
