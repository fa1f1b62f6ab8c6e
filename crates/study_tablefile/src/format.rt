//! The text of a table file, and writing a table as its text.
ghost use Rattle.std.specs.Prelude.{◌≡◌, ◌≤◌, ℕ, OnOk, OnErr, IfErr, length, ◌+◌, ◌*◌};
ghost use Rattle.sha2.specs.Sha256.{sha256};
ghost use Rattle.std.specs.Io.KnownBytes.{Appends};
ghost use Rattle.study_table.specs.Table.{Table as Seen};
ghost use Rattle.study_text.specs.Taken.{TakesPrefix};
ghost use Rattle.study_tablefile.specs.Format.{written_version, class_field, fields_text, header_text};
ghost use Rattle.study_tablefile.specs.Format.{page_cells_of, page_digest, page_text, table_text};
ghost use Rattle.study_values.specs.Size.{pages_of};
ghost use Rattle.study_values.specs.declared.fault.FileFault.TheVariants.{Device};

use byteorder::{ByteOrder, LittleEndian};
use sha2::{Digest, Sha256};
use std::alloc::Allocator;
use std::io::Write;
use study_material::Class;
use study_table::Table;
use study_text::{DeviceFailed, write_text};
use study_values::{FileFault, PAGE_CELLS, cells, file_size};

/// The number of bytes in the fields of a header.
pub const FIELDS_BYTES: usize = 32;

/// The number of bytes in a SHA-256.
pub const DIGEST_BYTES: usize = 32;

/// The name of a class in 8 bytes, with zero bytes after it.
#[tactic(auto, using(study_values::proofs::ClassBounds::short_name, crate::proofs::Lists::field_filled), unfolding(crate::specs::Format::class_field))]
pub fn class_field(class: Class) -> [u8; 8]
    ensures { result ≡ class_field class }
{
    let mut out = [0; 8];
    let name = class.name().as_bytes();
    out[..name.len()].copy_from_slice(name);
    out
}

/// The version of the files that are written.
pub const VERSION: u16 = 2;

/// The first 32 bytes of the file of a class in a version.
#[tactic(auto, unfolding(crate::specs::Format::fields_text))]
pub fn fields(class: Class, version: u16) -> [u8; FIELDS_BYTES]
    ensures { result ≡ fields_text class version }
{
    let mut out = [0; FIELDS_BYTES];
    out[..8].copy_from_slice(b"STUDYDTM");
    LittleEndian::write_u16(&mut out[8..], version);
    LittleEndian::write_u16(&mut out[10..], PAGE_CELLS as u16);
    LittleEndian::write_u32(&mut out[12..], cells(class));
    out[16..24].copy_from_slice(class_field(class).as_slice());
    out
}

/// The SHA-256 of some bytes.
pub fn digest(bytes: &[u8]) -> [u8; DIGEST_BYTES]
    ensures { result ≡ sha256 bytes.now }
{
    let mut hasher = Sha256::new();
    hasher.update(bytes);
    hasher.finalize()
}

/// The digest of a page: over the fields of the header, the page's number and its cells.
#[tactic(auto, unfolding(crate::specs::Format::page_digest))]
pub fn page_digest(fields: &[u8; FIELDS_BYTES], number: u32, cells: &[u8]) -> [u8; DIGEST_BYTES]
    ensures { result ≡ page_digest fields.now number cells.now }
{
    let mut bytes = [0; 4];
    LittleEndian::write_u32(&mut bytes, number);
    let mut hasher = Sha256::new();
    hasher.update(fields.as_slice());
    hasher.update(bytes.as_slice());
    hasher.update(cells);
    hasher.finalize()
}

/// The cells of a page, with zero bytes after the last one.
#[tactic(auto, using(crate::proofs::Lists::padded_front), unfolding(crate::specs::Format::page_cells_of))]
fn padded_cells(cells: &[u8]) -> [u8; PAGE_CELLS]
    requires { length cells.now ≤ 4096 }
    ensures { result ≡ page_cells_of cells.now }
{
    let mut out = [0; PAGE_CELLS];
    out[..cells.len()].copy_from_slice(cells);
    out
}

/// Writes a header: the fields of the class and their digest.
#[tactic(auto, unfolding(crate::specs::Format::header_text))]
fn put_header<W: Write>(out: &mut W, class: Class) -> Result<(), DeviceFailed>
    ensures ok { OnOk result
        (Appends (W.contents out.old) (W.contents out.new) (header_text class written_version)) }
    ensures err { OnErr result
        (TakesPrefix (W.contents out.old) (W.contents out.new)
        (header_text class written_version)) }
{
    let fields = fields(class, VERSION);
    write_text(out, fields.as_slice())?;
    write_text(out, digest(fields.as_slice()).as_slice())
}

/// Writes a page: its cells and their digest.
#[tactic(auto, unfolding(crate::specs::Format::page_text))]
fn put_page<W: Write>(
    out: &mut W,
    fields: &[u8; FIELDS_BYTES],
    number: u32,
    cells: &[u8],
) -> Result<(), DeviceFailed>
    requires { length cells.now ≤ 4096 }
    ensures ok { OnOk result
        (Appends (W.contents out.old) (W.contents out.new)
        (page_text fields.now number (page_cells_of cells.now))) }
    ensures err { OnErr result
        (TakesPrefix (W.contents out.old) (W.contents out.new)
        (page_text fields.now number (page_cells_of cells.now))) }
{
    let cells = padded_cells(cells);
    write_text(out, cells.as_slice())?;
    write_text(
        out,
        page_digest(fields, number, cells.as_slice()).as_slice(),
    )
}

/// The number of bytes in the file of a class.
#[tactic(auto, using(study_values::proofs::ClassBounds::few_cells), unfolding(study_values::specs::Size::pages_of))]
pub fn file_bytes(class: Class) -> u32
    ensures value { result ≡ 64 + 4128 * pages_of class }
    ensures text { (t : Seen) (v : ℕ) → t.class ≡ class → length (table_text t v) ≡ result }
{
    file_size(class)
}

/// Writes a table, or stops when the writer fails or takes nothing; the writer then has a prefix of the text.
pub fn write_table<'a, A: Allocator, W: Write>(
    table: &Table<'a, A>,
    out: &mut W,
) -> Result<(), FileFault>
    ensures ok { OnOk result
        (Appends (W.contents out.old) (W.contents out.new) (table_text table.now written_version)) }
    ensures err { OnErr result
        (TakesPrefix (W.contents out.old) (W.contents out.new)
        (table_text table.now written_version)) }
    ensures fault { IfErr result (λ e. e ≡ Device) }
{
    let class = table.class();
    put_header(out, class)?;
    let fields = fields(class, VERSION);
    let mut rest = table.cells();
    let mut number = 0u32;
    while !rest.is_empty() {
        let (cells, after) = rest.split_at(rest.len().min(PAGE_CELLS));
        put_page(out, &fields, number, cells)?;
        rest = after;
        number += 1;
    }
    Ok(())
}
