//! Table files read from front to back.
ghost use Rattle.std.specs.Prelude.{◌≡◌, ◌<◌, ◌≤◌, ◌⊎◌, ◌&&◌, ◌+◌, ◌*◌, ℕ, List, [], ◌++◌, Some, None, Ok, Err};
ghost use Rattle.std.specs.Prelude.{length, take, drop, replicate, OnOk, IfOk, IfErr, vec_len, vec_capacity};
ghost use Rattle.sha2.specs.Sha256.{sha256};
ghost use Rattle.std.specs.Str.{bytes_eq};
ghost use Rattle.std.specs.Io.KnownBytes.{Consumes};
ghost use Rattle.study_values.specs.Number.{cells_of};
ghost use Rattle.study_tablefile.specs.Format.{is_known_version, IsVersionOf, class_field, fields_text, page_digest, table_text};
ghost use Rattle.study_values.specs.Size.{pages_of};
ghost use Rattle.study_tablefile.specs.Reading.{class_named, version_of, class_read, page_fault, table_end, pages_read, table_read, IsShort, HasHeader};
ghost use Rattle.study_tablefile.specs.Reading.{pages_after, IsReadBefore, IsReportedAt};
ghost use Rattle.study_values.specs.declared.fault.FileFault.TheVariants.{Cut, Device, OutOfMemory, TrailingBytes};

use crate::format::{FIELDS_BYTES, class_field, digest, fields, page_digest};
use byteorder::{ByteOrder, LittleEndian};
use std::alloc::Allocator;
use std::io::Read;
use study_material::Class;
use study_table::Table;
use study_values::{FileFault, HEADER_BYTES, PAGE_BYTES, PAGE_CELLS, cells, pages};

/// Fills a buffer from a reader; each of the reader's errors becomes `Device`.
fn read_exactly<R: Read>(input: &mut R, buf: &mut [u8]) -> Result<(), FileFault>
    ensures len { length buf.new ≡ length buf.old }
    ensures ok { OnOk result (Consumes (R.remaining input.old) (R.remaining input.new) buf.new) }
    ensures fault { IfErr result (λ e. (e ≡ Device)
        ⊎ ((e ≡ Cut) × IsShort (R.remaining input.old) (length buf.old))) }
    ensures stops { (bytes : List ℕ) (from pages : ℕ)
        → R.remaining input.old ≡ Some (drop from bytes) → from + length buf.old ≤ 64 + 4128 * pages
        → IfErr result (IsReportedAt bytes pages (R.remaining input.new)) }
{
    let mut filled = 0usize;
    while filled < buf.len() {
        match input.read(&mut buf[filled..]) {
            Ok(0) => return Err(FileFault::Cut),
            Ok(n) => filled += n,
            Err(_) => return Err(FileFault::Device),
        }
    }
    Ok(())
}

/// Whether files of a version can have the class.
fn is_known_version(version: u16, class: Class) -> bool
    ensures { result ≡ is_known_version version class }
{
    match class {
        Class::KPKP => version != 1,
        _ => true,
    }
}

/// Whether files of the version can have the class, and the field of the header is its name.
fn is_class_field(version: u16, field: &[u8], class: Class) -> bool
    ensures { result ≡ (is_known_version version class && bytes_eq field.now (class_field class)) }
{
    let name = class_field(class);
    is_known_version(version, class) && field == name.as_slice()
}

/// The class whose name is in the field of the header.
#[tactic(auto, unfolding(crate::specs::Reading::class_named))]
fn class_of_field(version: u16, field: &[u8]) -> Option<Class>
    ensures { result ≡ class_named version field.now }
{
    for class in Class::all() {
        if is_class_field(version, field, *class) {
            return Some(*class);
        }
    }
    None
}

/// Whether the bytes are the fields of a class in a version, and their digest.
fn is_header(bytes: &[u8; HEADER_BYTES], class: Class, version: u16) -> bool
    ensures { result
        ≡ (bytes_eq (take 32 bytes.now) (fields_text class version)
        && bytes_eq (take 32 (drop 32 bytes.now))
        (sha256 (fields_text class version))) }
{
    let fields = fields(class, version);
    let digest = digest(fields.as_slice());
    let front = &bytes[..FIELDS_BYTES];
    let back = &bytes[FIELDS_BYTES..];
    front == fields.as_slice() && back == digest.as_slice()
}

/// The version of a header.
pub fn version_of(header: &[u8; HEADER_BYTES]) -> u16
    ensures { result ≡ version_of header.now }
{
    LittleEndian::read_u16(&header[8..])
}

/// The class of a header.
#[tactic(auto, unfolding(crate::specs::Reading::class_read))]
pub fn read_class(header: &[u8; HEADER_BYTES]) -> Result<Class, FileFault>
    ensures read { result ≡ class_read header.now }
    ensures whole { (bytes : List ℕ) (pages : ℕ)
        → IfErr result (λ e. IsReadBefore bytes pages e 64) }
{
    let mark = &header[..8];
    if mark != b"STUDYDTM".as_slice() {
        return Err(FileFault::NotATable);
    }
    let version = version_of(header);
    if version != 1 && version != 2 {
        return Err(FileFault::Version(version));
    }
    match class_of_field(version, &header[16..24]) {
        None => Err(FileFault::ClassUnknown),
        Some(class) => {
            if is_header(header, class, version) {
                Ok(class)
            } else {
                Err(FileFault::HeaderDamaged)
            }
        }
    }
}

/// Whether a page has the digest of its cells.
pub fn has_page_digest(fields: &[u8; FIELDS_BYTES], number: u32, page: &[u8; PAGE_BYTES]) -> bool
    ensures { result ≡ bytes_eq (take 32 (drop 4096 page.now))
        (page_digest fields.now number (take 4096 page.now)) }
{
    let digest = page_digest(fields, number, &page[..PAGE_CELLS]);
    let tail = &page[PAGE_CELLS..];
    tail == digest.as_slice()
}

/// The cells of a page.
pub fn cells_of_page(page: &[u8; PAGE_BYTES]) -> &[u8]
    ensures value { result.now ≡ take 4096 page.now }
    ensures len { length result.now ≡ 4096 }
{
    &page[..PAGE_CELLS]
}

/// Reads a page and appends its cells.
#[tactic(auto, unfolding(crate::specs::Reading::page_fault))]
fn read_page<'a, A: Allocator, R: Read>(
    input: &mut R,
    fields: &[u8; FIELDS_BYTES],
    number: u32,
    cells: &mut Vec<u8, &'a A>,
) -> Result<(), FileFault>
    requires { vec_len cells.old + 4096 ≤ vec_capacity cells.old }
    ensures capacity { vec_capacity cells.old ≤ vec_capacity cells.new }
    ensures len { OnOk result (vec_len cells.new ≡ vec_len cells.old + 4096) }
    ensures ok { (bytes : List ℕ) → R.remaining input.old ≡ Some bytes
        → OnOk result ((R.remaining input.new ≡ Some (drop 4128 bytes))
        × (cells.new.items ≡ cells.old.items ++ take 4096 bytes)
        × (page_fault fields.now number bytes ≡ None)) }
    ensures fault { (bytes : List ℕ) → R.remaining input.old ≡ Some bytes
        → IfErr result (λ e. (e ≡ Device) ⊎ (page_fault fields.now number bytes ≡ Some e)) }
    ensures stops { (bytes : List ℕ) (pages : ℕ)
        → R.remaining input.old ≡ Some (drop (64 + 4128 * number) bytes) → number < pages
        → IfErr result (IsReportedAt bytes pages (R.remaining input.new)) }
{
    let mut page = [0u8; PAGE_BYTES];
    read_exactly(input, &mut page)?;
    if !has_page_digest(fields, number, &page) {
        return Err(FileFault::PageDamaged(number));
    }
    let _ = cells.extend_from_slice(cells_of_page(&page));
    Ok(())
}

/// Reads all pages of a class in a version.
fn read_pages<'a, A: Allocator, R: Read>(
    input: &mut R,
    class: Class,
    version: u16,
    cells: &mut Vec<u8, &'a A>,
) -> Result<(), FileFault>
    requires empty { vec_len cells.old ≡ 0 }
    requires room { 4096 * pages_of class ≤ vec_capacity cells.old }
    ensures len { OnOk result (vec_len cells.new ≡ 4096 * pages_of class) }
    ensures ok { (bytes : List ℕ) → R.remaining input.old ≡ Some bytes
        → OnOk result ((rest : List ℕ) × (R.remaining input.new ≡ Some rest)
        × (pages_read class version 0 (pages_of class) [] bytes
        ≡ table_end class cells.new.items rest)) }
    ensures fault { (bytes : List ℕ) → R.remaining input.old ≡ Some bytes
        → IfErr result (λ e. (e ≡ Device)
        ⊎ (pages_read class version 0 (pages_of class) [] bytes ≡ Err e)) }
    ensures ends { (bytes : List ℕ) → R.remaining input.old ≡ Some (drop 64 bytes)
        → OnOk result (R.remaining input.new ≡ Some (drop (64 + 4128 * pages_of class) bytes)) }
    ensures stops { (bytes : List ℕ) → R.remaining input.old ≡ Some (drop 64 bytes)
        → IfErr result (IsReportedAt bytes (pages_of class) (R.remaining input.new)) }
{
    let fields = fields(class, version);
    let count = pages(class);
    let mut number = 0u32;
    while number < count {
        read_page(input, &fields, number, cells)?;
        number += 1;
    }
    Ok(())
}

/// Whether the bytes are all zero.
pub fn is_padding(bytes: &[u8]) -> bool
    requires { length bytes.now ≤ 4096 }
    ensures { result ≡ bytes_eq bytes.now (replicate (length bytes.now) 0) }
{
    let zeros = [0u8; PAGE_CELLS];
    let front = &zeros[..bytes.len()];
    bytes == front
}

/// Succeeds if nothing is left to read.
fn at_end<R: Read>(input: &mut R) -> Result<(), FileFault>
    ensures ok { (bytes : List ℕ) → R.remaining input.old ≡ Some bytes
        → OnOk result (length bytes ≡ 0) }
    ensures fault { (bytes : List ℕ) → R.remaining input.old ≡ Some bytes
        → IfErr result (λ e. (e ≡ Device) ⊎ ((e ≡ TrailingBytes) × (0 < length bytes))) }
    ensures ends { (bytes : List ℕ) → R.remaining input.old ≡ Some bytes
        → OnOk result (R.remaining input.new ≡ Some []) }
    ensures stops { (bytes : List ℕ) (pages : ℕ)
        → R.remaining input.old ≡ Some (drop (64 + 4128 * pages) bytes)
        → IfErr result (IsReportedAt bytes pages (R.remaining input.new)) }
{
    let mut next = [0u8; 1];
    match input.read(&mut next) {
        Ok(0) => Ok(()),
        Ok(_) => Err(FileFault::TrailingBytes),
        Err(_) => Err(FileFault::Device),
    }
}

/// The table of the cells of all pages, if the rest of the last page is zero bytes and nothing is left to read.
#[tactic(auto, unfolding(crate::specs::Reading::table_end))]
fn finish<'a, A: Allocator, R: Read>(
    input: &mut R,
    class: Class,
    mut all: Vec<u8, &'a A>,
) -> Result<Table<'a, A>, FileFault>
    requires enough { cells_of class ≤ vec_len all }
    requires full { vec_len all < cells_of class + 4096 }
    ensures ok { (bytes : List ℕ) → R.remaining input.old ≡ Some bytes
        → IfOk result (λ t. table_end class all.entry.items bytes ≡ Ok t) }
    ensures fault { (bytes : List ℕ) → R.remaining input.old ≡ Some bytes
        → IfErr result (λ e. (e ≡ Device) ⊎ (table_end class all.entry.items bytes ≡ Err e)) }
    ensures ends { (bytes : List ℕ) → R.remaining input.old ≡ Some bytes
        → OnOk result (R.remaining input.new ≡ Some []) }
    ensures stops { (bytes : List ℕ)
        → R.remaining input.old ≡ Some (drop (64 + 4128 * pages_of class) bytes)
        → IfErr result (IsReportedAt bytes (pages_of class) (R.remaining input.new)) }
{
    let count = cells(class) as usize;
    let (_, padding) = all.as_slice().split_at(count);
    if !is_padding(padding) {
        return Err(FileFault::Padding);
    }
    at_end(input)?;
    all.truncate(count);
    Ok(Table::from_cells(class, all))
}

/// Reads a table from its file, or returns the first fault, from front to back.
#[tactic(auto, unfolding(crate::specs::Reading::table_read))]
pub fn read_table<'a, A: Allocator, R: Read>(
    alloc: &'a A,
    input: &mut R,
) -> Result<Table<'a, A>, FileFault>
    ensures text { (bytes : List ℕ) → R.remaining input.old ≡ Some bytes
        → IfOk result (λ t. (v : ℕ) × IsVersionOf t.class v × (bytes ≡ table_text t v)) }
    ensures ok { (bytes : List ℕ) → R.remaining input.old ≡ Some bytes
        → IfOk result (λ t. table_read bytes ≡ Ok t) }
    ensures fault { (bytes : List ℕ) → R.remaining input.old ≡ Some bytes
        → IfErr result (λ e. (e ≡ Device) ⊎ ((e ≡ OutOfMemory) × HasHeader bytes)
        ⊎ (table_read bytes ≡ Err e)) }

    // A table is read to the end of its file, and no byte is read after the faulty part.
    ensures ends { (bytes : List ℕ) → R.remaining input.old ≡ Some bytes
        → OnOk result (R.remaining input.new ≡ Some []) }
    ensures stops { (bytes : List ℕ) → R.remaining input.old ≡ Some bytes
        → IfErr result
        (IsReportedAt bytes (pages_after (class_read (take 64 bytes))) (R.remaining input.new)) }
{
    let mut header = [0; HEADER_BYTES];
    read_exactly(input, &mut header)?;
    let class = read_class(&header)?;
    let version = version_of(&header);
    let room = pages(class) as usize * PAGE_CELLS;
    let mut all = match Vec::with_capacity(alloc, room) {
        Ok(all) => all,
        Err(_) => return Err(FileFault::OutOfMemory),
    };
    read_pages(input, class, version, &mut all)?;
    finish(input, class, all)
}
