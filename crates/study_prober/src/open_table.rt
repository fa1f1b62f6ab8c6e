//! Sources of pages, each with its header, and the cells of their tables.
ghost use Rattle.std.specs.Prelude.{◌≡◌, ◌<◌, ◌/◌, ℕ, List, Result, Err, None, IfOk, OnOk, OnErr, IsErrOf, Contains, slice_index, take};
ghost use Rattle.study_material.specs.declared.class.Class.{Class as AClass};
ghost use Rattle.study_text.specs.Counts.{next_count};
ghost use Rattle.study_values.specs.Cells.{value_of};
ghost use Rattle.study_table.specs.Table.{Table as Seen, IsComplete};
ghost use Rattle.study_values.specs.Number.{cells_of};
ghost use Rattle.study_values.specs.declared.fault.SourceFault.{SourceFault as ASourceFault};
ghost use Rattle.study_tablefile.specs.Format.{IsVersionOf};
ghost use Rattle.study_values.specs.Size.{pages_of};
ghost use Rattle.study_tablefile.specs.PageSource.{page_of, of_page};
ghost use Rattle.study_prober.specs.PageCache.{kept_cell};
ghost use Rattle.study_prober.specs.PagedTables.{IsPageFor, IsReadAgain};
ghost use Rattle.study_prober.specs.Sources.{IsGivenPage, HasBadPage, IsReadFrom, GiveAlike, AreHonestAlike, AreOf};
ghost use Rattle.study_prober.specs.Sources.{IsHeaderOf, PutsNone, PutsOnly, failed_after, cells_on_page};
ghost use Rattle.study_prober.specs.HeaderAnswers.{MayAnswer, IsHonestHeader, IsReported, unread_after};

use crate::fault::PagedFault;
use crate::page_cache::{PageKey, Pages, cache_page, cached_cell, page_key};
use std::alloc::Allocator;
use study_tablefile::{Header, PageSource, page_cells, read_header};
use study_values::{HEADER_BYTES, PAGE_BYTES, PAGE_CELLS, ProbeFault, Value, value_at};

/// A source of pages, and its header.
#[derive(Drop)]
pub struct OpenTable<S> {
    pub header: Header,
    pub source: S,
}

/// Requests the header of a source.
pub fn header_of<S: PageSource>(source: &mut S) -> Result<Header, PagedFault>
    ensures same { AreHonestAlike S.honest source.old source.new }
    ensures count { S.failed source.new ≡ unread_after (S.failed source.old) result }
    ensures asked { S.asked source.new ≡ next_count (S.asked source.old) }
    ensures alike { GiveAlike S.gives source.old source.new }
    ensures reported { (reported : Result (List ℕ) ASourceFault)
        × MayAnswer S.gives S.honest source.old reported × IsReported reported result }
    ensures header { IfOk result (λ h. IsHeaderOf h h.class) }
    ensures reads { (t : Seen) (v : ℕ) → IsVersionOf t.class v → S.honest source.old t v
        → IsHonestHeader result t.class v }
{
    let mut bytes = [0; HEADER_BYTES];
    if let Err(fault) = source.header(&mut bytes) {
        return Err(PagedFault::TableRead(fault));
    }
    match read_header(&bytes) {
        Ok(header) => Ok(header),
        Err(fault) => Err(PagedFault::Header(fault)),
    }
}

impl<S: PageSource> OpenTable<S> {
    /// Reads a page and checks that it is whole.
    fn page(&mut self, number: u32, into: &mut [u8; PAGE_BYTES]) -> Result<(), ProbeFault>
        // Many clauses: what each kind of answer says of the source, the pages and the counts.
        requires header { IsHeaderOf self.old.header self.old.header.class }
        requires number { number < pages_of self.old.header.class }
        ensures header { self.new.header ≡ self.old.header }
        ensures same { AreHonestAlike S.honest self.old.source self.new.source }
        ensures ok { (t : Seen) → S.honest self.old.source t self.old.header.version
            → t.class ≡ self.old.header.class
            → OnOk result (into.new ≡ page_of t self.old.header.version number) }
        ensures whole { (t : Seen) → S.honest self.old.source t self.old.header.version
            → t.class ≡ self.old.header.class → IsComplete t
            → (c : AClass) (n : ℕ) → IsErrOf result (ProbeFault.PageDamaged c n) → ⊥ }
        ensures alike { GiveAlike S.gives self.old.source self.new.source }
        ensures checked { OnOk result (IsGivenPage S.gives self.old number (take 4096 into.new)) }
        ensures unread { (f : ASourceFault) → IsErrOf result (ProbeFault.TableRead f)
            → S.gives self.old.source (of_page number) (Err f) }
        ensures damaged { (c : AClass) (n : ℕ) → IsErrOf result (ProbeFault.PageDamaged c n)
            → (c ≡ self.old.header.class) × (n ≡ number) }
        ensures not_whole { (c : AClass) (n : ℕ) → IsErrOf result (ProbeFault.PageDamaged c n)
            → HasBadPage S.gives self.old number }
        ensures no_table { (c : AClass) → IsErrOf result (ProbeFault.NoTable c) → ⊥ }
        ensures failed { S.failed self.new.source ≡ failed_after (S.failed self.old.source) result }
        ensures asked { S.asked self.new.source ≡ next_count (S.asked self.old.source) }
    {
        self.source.page(number, into)?;
        if page_cells(&self.header, number, into) {
            Ok(())
        } else {
            Err(ProbeFault::PageDamaged(self.header.class, number))
        }
    }

    /// Reads the cells of a page.
    pub fn cells(&mut self, number: u32, into: &mut [u8; PAGE_CELLS]) -> Result<(), ProbeFault>
        // Many clauses: what each kind of answer says of the source, the pages and the counts.
        requires header { IsHeaderOf self.old.header self.old.header.class }
        requires number { number < pages_of self.old.header.class }
        ensures header { self.new.header ≡ self.old.header }
        ensures same { AreHonestAlike S.honest self.old.source self.new.source }
        ensures ok { (t : Seen) → S.honest self.old.source t self.old.header.version
            → t.class ≡ self.old.header.class
            → OnOk result (into.new ≡ cells_on_page t number) }
        ensures whole { (t : Seen) → S.honest self.old.source t self.old.header.version
            → t.class ≡ self.old.header.class → IsComplete t
            → (c : AClass) (n : ℕ) → IsErrOf result (ProbeFault.PageDamaged c n) → ⊥ }
        ensures alike { GiveAlike S.gives self.old.source self.new.source }
        ensures checked { OnOk result (IsGivenPage S.gives self.old number into.new) }
        ensures unread { (f : ASourceFault) → IsErrOf result (ProbeFault.TableRead f)
            → S.gives self.old.source (of_page number) (Err f) }
        ensures damaged { (c : AClass) (n : ℕ) → IsErrOf result (ProbeFault.PageDamaged c n)
            → (c ≡ self.old.header.class) × (n ≡ number) }
        ensures no_table { (c : AClass) → IsErrOf result (ProbeFault.NoTable c) → ⊥ }
    {
        let mut page = [0; PAGE_BYTES];
        self.page(number, &mut page)?;
        copy_front(&page, into);
        Ok(())
    }
}

/// Copies the cells of a page.
fn copy_front(page: &[u8; PAGE_BYTES], into: &mut [u8; PAGE_CELLS])
    ensures { into.new ≡ take 4096 page.now }
{
    into.copy_from_slice(&page[..PAGE_CELLS]);
}

/// The value of a cell of a page, which is read from the source. A page for which there is no room in memory is used and not cached.
fn read_value_from_page<'a, S: PageSource, A: Allocator>(
    held: &mut OpenTable<S>,
    pages: &mut Pages<'a, A>,
    alloc: &'a A,
    key: PageKey,
    at: usize,
) -> Result<Value, ProbeFault>
    // Many clauses: what each kind of answer says of the source, the pages and the counts.
    requires at { at < 4096 }
    requires header { IsHeaderOf held.old.header held.old.header.class }
    requires number { key.number < pages_of held.old.header.class }
    ensures room { pages.new.cap ≡ pages.old.cap }
    ensures header { held.new.header ≡ held.old.header }
    ensures same { AreHonestAlike S.honest held.old.source held.new.source }
    ensures ok { (t : Seen) → S.honest held.old.source t held.old.header.version
        → t.class ≡ held.old.header.class
        → IfOk result (λ v. v ≡ value_of (slice_index (cells_on_page t key.number) at)) }
    ensures whole { (t : Seen) → S.honest held.old.source t held.old.header.version
        → t.class ≡ held.old.header.class → IsComplete t
        → (c : AClass) (n : ℕ) → IsErrOf result (ProbeFault.PageDamaged c n) → ⊥ }
    ensures damaged { (c : AClass) (n : ℕ) → IsErrOf result (ProbeFault.PageDamaged c n)
        → (c ≡ held.old.header.class) × (n ≡ key.number) }
    ensures no_table { (c : AClass) → IsErrOf result (ProbeFault.NoTable c) → ⊥ }
    ensures failed { S.failed held.new.source ≡ failed_after (S.failed held.old.source) result }
    ensures asked { S.asked held.new.source ≡ next_count (S.asked held.old.source) }
    ensures more { PutsOnly (λ k v. (k ≡ key)
        × ((t : Seen) → S.honest held.old.source t held.old.header.version
        → t.class ≡ held.old.header.class
        → v.items ≡ cells_on_page t key.number)) pages.old.entries pages.new.entries }
    ensures given { PutsOnly (λ k v. (k ≡ key)
        × IsGivenPage S.gives held.old key.number v.items) pages.old.entries pages.new.entries }
    ensures refused { OnErr result (pages.new.entries ≡ pages.old.entries) }
    ensures alike { GiveAlike S.gives held.old.source held.new.source }
    ensures unread { (f : ASourceFault) → IsErrOf result (ProbeFault.TableRead f)
        → S.gives held.old.source (of_page key.number) (Err f) }
    ensures not_whole { (c : AClass) (n : ℕ) → IsErrOf result (ProbeFault.PageDamaged c n)
        → HasBadPage S.gives held.old key.number }
    ensures read { IfOk result (λ v. (cells : List ℕ)
        × IsGivenPage S.gives held.old key.number cells × (v ≡ value_of (slice_index cells at))) }
{
    let mut page = [0; PAGE_BYTES];
    held.page(key.number, &mut page)?;
    let _ = cache_page(pages, alloc, key, &page);
    Ok(value_at(page[at]))
}

/// The value of the cell of a number, from a cached page, or otherwise from its source.
pub fn value_of_number<'a, S: PageSource, A: Allocator>(
    held: &mut OpenTable<S>,
    pages: &mut Pages<'a, A>,
    alloc: &'a A,
    number: u32,
) -> Result<Value, ProbeFault>
    // Many clauses: what each kind of answer says of the source, the pages and the counts.
    requires header { IsHeaderOf held.old.header held.old.header.class }
    requires number { number < cells_of held.old.header.class }
    ensures room { pages.new.cap ≡ pages.old.cap }
    ensures header { held.new.header ≡ held.old.header }
    ensures same { AreHonestAlike S.honest held.old.source held.new.source }
    ensures ok { (t : Seen) → S.honest held.old.source t held.old.header.version
        → t.class ≡ held.old.header.class
        → AreOf (λ v. v.items) pages.old.entries t
        → IfOk result (λ v. v ≡ value_of (slice_index t.cells number)) }
    ensures whole { (t : Seen) → S.honest held.old.source t held.old.header.version
        → t.class ≡ held.old.header.class → IsComplete t
        → (c : AClass) (n : ℕ) → IsErrOf result (ProbeFault.PageDamaged c n) → ⊥ }
    ensures damaged { (c : AClass) (n : ℕ) → IsErrOf result (ProbeFault.PageDamaged c n)
        → (c ≡ held.old.header.class) × (n ≡ number / 4096) }
    ensures no_table { (c : AClass) → IsErrOf result (ProbeFault.NoTable c) → ⊥ }
    ensures failed { S.failed held.new.source ≡ failed_after (S.failed held.old.source) result }
    ensures once { kept_cell (λ v. v.items) pages.old.entries held.old.header.class number ≡ None
        → S.asked held.new.source ≡ next_count (S.asked held.old.source) }
    ensures more { PutsOnly (λ k v. (k.class ≡ held.old.header.class)
        × ((t : Seen) → S.honest held.old.source t held.old.header.version
        → t.class ≡ held.old.header.class
        → v.items ≡ cells_on_page t k.number)) pages.old.entries pages.new.entries }
    ensures given { PutsOnly (λ k v.
        IsPageFor S.gives held.old.header.class held.old number k v.items)
        pages.old.entries pages.new.entries }
    ensures refused { OnErr result (PutsNone pages.old.entries pages.new.entries) }
    ensures alike { GiveAlike S.gives held.old.source held.new.source }
    ensures unread { (f : ASourceFault) → IsErrOf result (ProbeFault.TableRead f)
        → S.gives held.old.source (of_page (number / 4096)) (Err f) }
    ensures not_whole { (c : AClass) (n : ℕ) → IsErrOf result (ProbeFault.PageDamaged c n)
        → HasBadPage S.gives held.old (number / 4096) }
    ensures again { IsReadAgain
        (kept_cell (λ v. v.items) pages.old.entries held.old.header.class
        number) result held.old held.new }
    ensures read { ((e : _) → Contains pages.old.entries e → e.0.class ≡ held.old.header.class
        → IsGivenPage S.gives held.old e.0.number e.1.items)
        → IfOk result (IsReadFrom S.gives held.old number) }
{
    let key = page_key(held.header.class, number);
    let at = number as usize % PAGE_CELLS;
    match cached_cell(pages, key, at) {
        Some(cell) => Ok(value_at(cell)),
        None => read_value_from_page(held, pages, alloc, key, at),
    }
}
