//! Refused lines.
ghost use Rattle.std.specs.Prelude.{◌≡◌, Err, IfOk, OnOk};
ghost use Rattle.std.specs.Io.KnownBytes.{Appends};
ghost use Rattle.study_text.specs.Taken.{TakesPrefix};
ghost use Rattle.study_reply.specs.Replied.{error_text};
ghost use Rattle.study_print.specs.Pages.{refusal_text};
ghost use Rattle.study_print.specs.Refusals.{refusal_name};

use std::alloc::{AllocError, Allocator};
use std::io::Write;
use study_page::write_refusal;
use study_reply::{LineRefusal, refused_words};
use study_report::WriteFault;

/// The refusal of a line as reports name it, such as `NoTable KRK`.
pub fn refusal_name<'a, 'b, A: Allocator, B: Allocator>(
    alloc: &'a A,
    refused: &LineRefusal<'b, B>,
) -> Result<Vec<u8, &'a A>, AllocError>
    ensures { IfOk result (λ name. name.items ≡ refusal_name (error_text refused.now)) }
{
    refused_words(alloc, refused)
}

/// Writes a refused line as a paragraph: its number, its text, the refusal, and the reason in words.
pub fn write_refused<'a, 'b, A: Allocator, B: Allocator, W: Write>(
    alloc: &'a A,
    number: u32,
    line: &[u8],
    refused: &LineRefusal<'b, B>,
    out: &mut W,
) -> Result<(), WriteFault>
    ensures ok { OnOk result
        (Appends (W.contents out.old) (W.contents out.new)
        (refusal_text number line.now (error_text refused.now))) }
    ensures device { result ≡ Err WriteFault.Device
        → TakesPrefix (W.contents out.old) (W.contents out.new)
        (refusal_text number line.now (error_text refused.now)) }
    ensures memory { result ≡ Err WriteFault.OutOfMemory → out.new ≡ out.old }
{
    let name = refusal_name(alloc, refused)?;
    write_refusal(alloc, number, line, name.as_slice(), refused.reason(), out)
}
