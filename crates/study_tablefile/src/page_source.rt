//! Pages of tables, read one by one.
ghost use Rattle.std.specs.Prelude.{◌≡◌, ◌<◌, ℕ, List, Result, OnOk, OnErr, IfOk, IfErr, Ok, Err};
ghost use Rattle.study_values.specs.Number.{cells_of};
ghost use Rattle.study_table.specs.Table.{Table as Seen};
ghost use Rattle.study_tablefile.specs.Format.{IsVersionOf, fields_text, header_text};
ghost use Rattle.study_values.specs.Size.{pages_of};
ghost use Rattle.study_tablefile.specs.Reading.{version_of, class_read};
ghost use Rattle.study_values.specs.declared.fault.SourceFault.{SourceFault as ASourceFault};
ghost use Rattle.study_text.specs.Counts.{next_count};
ghost use Rattle.study_tablefile.specs.PageSource.{is_whole_page, page_of, Question, of_header, of_page};

use crate::format::{FIELDS_BYTES, fields};
use crate::reader::{cells_of_page, has_page_digest, is_padding, read_class, version_of};
use study_material::Class;
use study_values::{FileFault, HEADER_BYTES, PAGE_BYTES, PAGE_CELLS, SourceFault, cells};

/// The contents of the header of a table file.
#[derive(Clone, Copy, Debug, PartialEq, Eq)]
pub struct Header {
    pub class: Class,
    /// The version of the file.
    pub version: u16,
    /// The number of cells of the class.
    pub cells: u32,
    /// The first 32 bytes of the file, which each page's digest covers.
    pub fields: [u8; FIELDS_BYTES],
}

/// The header in the bytes, or its first fault.
pub fn read_header(bytes: &[u8; HEADER_BYTES]) -> Result<Header, FileFault>
    ensures class { IfOk result (λ h. class_read bytes.now ≡ Ok h.class) }
    ensures version { IfOk result (λ h. h.version ≡ version_of bytes.now) }
    ensures known { IfOk result (λ h. IsVersionOf h.class h.version) }
    ensures cells { IfOk result (λ h. h.cells ≡ cells_of h.class) }
    ensures fields { IfOk result (λ h. h.fields ≡ fields_text h.class h.version) }
    ensures fault { IfErr result (λ e. class_read bytes.now ≡ Err e) }
{
    let class = read_class(bytes)?;
    let version = version_of(bytes);
    Ok(Header {
        class,
        version,
        cells: cells(class),
        fields: fields(class, version),
    })
}

/// Whether a page has the digest of its cells, and zero bytes after the last cell.
pub fn page_cells(header: &Header, number: u32, page: &[u8; PAGE_BYTES]) -> bool
    ensures { result ≡ is_whole_page header.now.fields header.now.cells number page.now }
{
    let before = number as u64 * PAGE_CELLS as u64;
    let left = (header.cells as u64)
        .saturating_sub(before)
        .min(PAGE_CELLS as u64) as usize;
    let (_, behind) = cells_of_page(page).split_at(left);
    has_page_digest(&header.fields, number, page) && is_padding(behind)
}

/// A source of the pages of a table.
pub trait PageSource: Drop {
    /// Each answer, in this call and all later ones, is bytes of the file of this table in this version.
    ghost honest: { Self → Seen → ℕ → Type 0 };

    /// The possible answers to a request, in this call and all later ones: bytes, or a fault. A source that does not specify its bytes may return anything.
    ghost gives: { Self → Question → Result (List ℕ) ASourceFault → Type 0 };

    ghost failed: { Self → ℕ };

    /// The number of headers and pages requested, whatever the answers. The count stays at the last value of its type.
    ghost asked: { Self → ℕ };

    /// Reads the header of the file.
    fn header(&mut self, into: &mut [u8; HEADER_BYTES]) -> Result<(), SourceFault>
        // Many clauses: each kind of answer, and what stays of the source and its counts.
        ensures ok { (t : Seen) (v : ℕ) → honest self.old t v
            → OnOk result (into.new ≡ header_text t.class v) }
        ensures given { OnOk result (gives self.old of_header (Ok into.new)) }
        ensures refused { IfErr result (λ fault. gives self.old of_header (Err fault)) }
        ensures gives_on { (q : Question) (a : Result (List ℕ) ASourceFault)
            → gives self.old q a → gives self.new q a }
        ensures gave { (q : Question) (a : Result (List ℕ) ASourceFault)
            → gives self.new q a → gives self.old q a }
        ensures stays { (t : Seen) (v : ℕ) → honest self.old t v → honest self.new t v }
        ensures back { (t : Seen) (v : ℕ) → honest self.new t v → honest self.old t v }
        ensures asked { asked self.new ≡ next_count (asked self.old) }
        ensures no_failure { OnOk result (failed self.new ≡ failed self.old) }
        ensures failure { OnErr result (failed self.new ≡ next_count (failed self.old)) };

    /// Reads a page of the file, counted from 0.
    fn page(&mut self, n: u32, into: &mut [u8; PAGE_BYTES]) -> Result<(), SourceFault>
        // Many clauses: those of a header, for a page.
        ensures ok { (t : Seen) (v : ℕ) → honest self.old t v → n < pages_of t.class
            → OnOk result (into.new ≡ page_of t v n) }
        ensures given { OnOk result (gives self.old (of_page n) (Ok into.new)) }
        ensures refused { IfErr result (λ fault. gives self.old (of_page n) (Err fault)) }
        ensures gives_on { (q : Question) (a : Result (List ℕ) ASourceFault)
            → gives self.old q a → gives self.new q a }
        ensures gave { (q : Question) (a : Result (List ℕ) ASourceFault)
            → gives self.new q a → gives self.old q a }
        ensures stays { (t : Seen) (v : ℕ) → honest self.old t v → honest self.new t v }
        ensures back { (t : Seen) (v : ℕ) → honest self.new t v → honest self.old t v }
        ensures asked { asked self.new ≡ next_count (asked self.old) }
        ensures no_failure { OnOk result (failed self.new ≡ failed self.old) }
        ensures failure { OnErr result (failed self.new ≡ next_count (failed self.old)) };

    /// The number of failures. The count stays at the last value of its type.
    fn failures(&self) -> u64
        ensures { result ≡ failed self.now };
}
