//! What comes after the last page.
ghost use Rattle.std.specs.Prelude.{◌≡◌, Err, OnOk};
ghost use Rattle.std.specs.Io.KnownBytes.{Appends};
ghost use Rattle.study_text.specs.Taken.{TakesPrefix};
ghost use Rattle.study_print.specs.Pages.{summary_text, end_text, writer_failed, IsEnded};

use crate::pages::EntryCount;
use std::alloc::Allocator;
use std::io::Write;
use study_html::{Html, write_closing};
use study_page::write_summary;
use study_report::WriteFault;
use study_script::{RunFault, Summary};

/// Writes the list of all entries, if there are two or more.
fn write_entries<'s, S: Allocator, W: Write>(
    alloc: &'s S,
    count: EntryCount,
    rows: &Html<'_, S>,
    out: &mut W,
) -> Result<(), WriteFault>
    ensures ok { OnOk result
        (Appends (W.contents out.old) (W.contents out.new) (summary_text count rows.now)) }
    ensures device { result ≡ Err WriteFault.Device
        → TakesPrefix (W.contents out.old) (W.contents out.new) (summary_text count rows.now) }
    ensures memory { result ≡ Err WriteFault.OutOfMemory → out.new ≡ out.old }
{
    match count {
        EntryCount::Nothing | EntryCount::One => Ok(()),
        EntryCount::Several => write_summary(alloc, rows, out),
    }
}

/// Writes what comes after the last page.
fn write_end<'s, S: Allocator, W: Write>(
    alloc: &'s S,
    count: EntryCount,
    rows: &Html<'_, S>,
    out: &mut W,
) -> Result<(), WriteFault>
    ensures ok { OnOk result
        (Appends (W.contents out.old) (W.contents out.new) (end_text count rows.now)) }
    ensures device { result ≡ Err WriteFault.Device
        → TakesPrefix (W.contents out.old) (W.contents out.new) (end_text count rows.now) }
    ensures memory { result ≡ Err WriteFault.OutOfMemory → out.new ≡ out.old }
{
    write_entries(alloc, count, rows, out)?;
    match write_closing(out) {
        Ok(()) => Ok(()),
        Err(_) => Err(WriteFault::Device),
    }
}

/// Whether the writer failed.
fn writer_failed(ran: &Result<Summary, RunFault>) -> bool
    ensures { result ≡ writer_failed ran.now }
{
    match ran {
        Err(RunFault::WriteDevice) => true,
        _ => false,
    }
}

/// Writes what comes after the last page, unless the writer failed before.
pub fn write_ending<'s, S: Allocator, W: Write>(
    alloc: &'s S,
    count: EntryCount,
    rows: &Html<'_, S>,
    ran: Result<Summary, RunFault>,
    out: &mut W,
) -> Result<Summary, RunFault>
    ensures { IsEnded (end_text count rows.now) (W.contents out.old)
        (W.contents out.new) ran result }
{
    if writer_failed(&ran) {
        return ran;
    }
    match write_end(alloc, count, rows, out) {
        Ok(()) => ran,
        Err(WriteFault::Device) => Err(RunFault::WriteDevice),
        Err(WriteFault::OutOfMemory) => Err(RunFault::OutOfMemory),
    }
}
