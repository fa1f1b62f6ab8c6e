//! Values from pages of tables, read as they are needed and cached as far as there is room.
ghost use Rattle.std.specs.Prelude.{◌≡◌, ◌≤◌, ◌<◌, ◌↔◌, ℕ, List, Option, Result, [], Some};
ghost use Rattle.std.specs.Prelude.{None, Ok, Err, true, false, is_some, IfOk, IfErr, OnOk, OnErr};
ghost use Rattle.std.specs.Prelude.{IsErrOf, length, slice_index, slice_set, replicate};
ghost use Rattle.study_material.specs.declared.class.Class.{Class as AClass};
ghost use Rattle.study_material.specs.Class.{IsOf};
ghost use Rattle.study_values.specs.Index.{index_of};
ghost use Rattle.study_values.specs.Cells.{value_of};
ghost use Rattle.study_values.specs.Game.{IsValueOf};
ghost use Rattle.study_material.specs.Class.{class_number};
ghost use Rattle.study_table.specs.Table.{Table as Seen, IsComplete};
ghost use Rattle.study_text.specs.Counts.{next_count};
ghost use Rattle.study_tablefile.specs.PageSource.{of_page};
ghost use Rattle.study_tablefile.specs.Format.{IsVersionOf};
ghost use Rattle.study_values.specs.Size.{pages_of};
ghost use Rattle.study_values.specs.declared.fault.FileFault.{FileFault as AFileFault};
ghost use Rattle.study_values.specs.declared.fault.SourceFault.{SourceFault as ASourceFault};
ghost use Rattle.study_prober.specs.PageCache.{kept_cell};
ghost use Rattle.study_prober.specs.declared.open_table.OpenTable.{OpenTable as AHeld};
ghost use Rattle.study_prober.specs.Sources.{AreHonestAlike, GiveAlike, HasBadPage, IsReadFrom, GivesRight};
ghost use Rattle.study_prober.specs.Sources.{IsGivenPage, cells_on_page};
ghost use Rattle.study_prober.specs.Sources.{IsHeaderOf, PutsNone, PutsOnly, failed_after};
ghost use Rattle.study_prober.specs.PagedTables.{SourcesAreRight, AreGiven, IsKept, IsPageFor, IsPagedAnswer, IsSameSource, IsReadAgain, MayFail, held_of};
ghost use Rattle.study_prober.specs.PagedTables.{paged_source, places_for_classes};
ghost use Rattle.study_values.specs.Values.{IsNotDamage, faults_after, page_number};
ghost use Rattle.study_prober.specs.CellPages.{IsAskedOnly};
ghost use Rattle.study_prober.specs.HeaderAnswers.{IsRefusedBy, MayAnswer, paged_fault};

use crate::cell_pages::{CellPages, failures_after_page};
use crate::fault::PagedFault;
use crate::open_table::{OpenTable, header_of, value_of_number};
use crate::page_cache::Pages;
use lru::LruCache;
use std::alloc::{AllocError, Allocator};
use std::marker::Model;
use std::num::NonZeroUsize;
use study_board::Position;
use study_index::index;
use study_material::{CLASS_COUNT, Class, class_of};
use study_tablefile::PageSource;
use study_values::{PAGE_CELLS, ProbeFault, Value, Values, failures_after};

/// Tables whose pages are read as they are needed, and the last used pages.
#[derive(Drop)]
pub struct PagedTables<'a, S: PageSource, A: Allocator> {
    alloc: &'a A,
    /// A place for each class, once there is a source.
    sources: Vec<Option<OpenTable<S>>, &'a A>,
    kept: Pages<'a, A>,
    asked: u64,
    failed: u64,
}

impl<'a, S: PageSource, A: Allocator> Model for PagedTables<'a, S, A> {
    ghost use Rattle.std.specs.Prelude.{map};
    ghost use Rattle.study_prober.specs.PagedTables.{Paged, IsKept, AreGiven};

    ghost Value = { Paged S };

    ghost view = { λ w. record {
      sources = w.sources.items;
      kept = map (λ e. (e.0, e.1.items)) w.kept.entries;
      room = w.kept.cap;
      asked = w.asked;
      failed = w.failed;
    } };

    ghost invariant = { λ w. IsKept S.honest (λ v. v.items) w.sources.items w.kept.entries
        × AreGiven S.gives (λ v. v.items) w.sources.items w.kept.entries };
}

impl<'a, S: PageSource, A: Allocator> PagedTables<'a, S, A> {
    /// No table yet, and room for this number of pages, from 1 to 4,096.
    pub fn new(alloc: &'a A, pages: u16) -> Result<Self, AllocError>
        requires some { 1 ≤ pages }
        requires few { pages ≤ 4096 }
        ensures { IfOk result (λ w.
            w ≡ record { sources = []; kept = []; room = pages; asked = 0; failed = 0 }) }
    {
        let Some(room) = NonZeroUsize::new(pages as usize) else {
            unreachable!()
        };
        Ok(PagedTables {
            alloc,
            sources: Vec::new(alloc),
            kept: LruCache::new(alloc, room)?,
            asked: 0,
            failed: 0,
        })
    }

    /// Adds a source of the table of a class; the classes that it needs may be missing. A source that is refused is dropped.
    pub fn add(&mut self, class: Class, mut source: S) -> Result<(), PagedFault>
        ensures fault { (reported : Result (List ℕ) ASourceFault)
            × (is_some (held_of self.old.sources class) ≡ false
            → MayAnswer S.gives S.honest source reported)
            × IsRefusedBy
            (paged_fault (is_some (held_of self.old.sources class)) class reported) result }
        ensures added { OnOk result (
            (h : AHeld S) × IsHeaderOf h.header class
            × ((t : Seen) (v : ℕ) → IsVersionOf t.class v
            → S.honest source t v → h.header.version ≡ v)
            × AreHonestAlike S.honest source h.source × GiveAlike S.gives source h.source
            × (S.failed h.source ≡ S.failed source)
            × (self.new ≡ record self.old {
              sources = slice_set (places_for_classes self.old.sources)
                  (class_number class) (Some h);
            })
            × (S.asked h.source ≡ next_count (S.asked source))
            ) }
        ensures same { OnErr result (self.new ≡ self.old) }
        ensures takes_no_memory { ¬ (length self.old.sources ≡ 0)
            → IsErrOf result PagedFault.OutOfMemory → ⊥ }

        // Each class has a place from the first source on.
        ensures places { OnOk result (length self.new.sources ≡ 36) }

        // If a source is honest for a table, its header is never refused, and its class is the table's.
        ensures header { (t : Seen) (v : ℕ) (e : AFileFault)
            → IsVersionOf t.class v → S.honest source t v
            → IsErrOf result (PagedFault.Header e) → ⊥ }
        ensures other { (t : Seen) (v : ℕ) (d : AClass)
            → IsVersionOf t.class v → S.honest source t v
            → IsErrOf result (PagedFault.OtherClass d) → d ≡ t.class }
        ensures own { (t : Seen) (v : ℕ) → IsVersionOf t.class v → S.honest source t v
            → OnOk result (t.class ≡ class) }
        ensures honest { (v : ℕ) → IsVersionOf class v → SourcesAreRight S.honest self.old.sources
            → GivesRight S.honest source v class
            → OnOk result (SourcesAreRight S.honest self.new.sources) }
    {
        if self.holds(class) {
            return Err(PagedFault::AlreadyHeld(class));
        }
        let header = header_of(&mut source)?;
        if header.class != class {
            return Err(PagedFault::OtherClass(header.class));
        }
        let Ok(()) = make_places(&mut self.sources, self.alloc) else {
            return Err(PagedFault::OutOfMemory);
        };
        self.sources[class.number() as usize] = Some(OpenTable { header, source });
        Ok(())
    }
}

/// A place without a source for each class.
fn no_sources<'a, S, A: Allocator>(
    alloc: &'a A,
) -> Result<Vec<Option<OpenTable<S>>, &'a A>, AllocError>
    ensures { IfOk result (λ v. v.items ≡ replicate 36 None) }
{
    let mut places = Vec::with_capacity(alloc, CLASS_COUNT)?;
    while places.len() < CLASS_COUNT {
        places.push_reserved(None);
    }
    Ok(places)
}

/// Makes a place for each class, if there is none.
fn make_places<'a, S: Drop, A: Allocator>(
    sources: &mut Vec<Option<OpenTable<S>>, &'a A>,
    alloc: &'a A,
) -> Result<(), AllocError>
    ensures made { OnOk result (sources.new.items ≡ places_for_classes sources.old.items) }
    ensures same { OnErr result (sources.new ≡ sources.old) }
    ensures there { ¬ (length sources.old.items ≡ 0) → OnErr result ⊥ }
{
    if sources.is_empty() {
        *sources = no_sources(alloc)?;
    }
    Ok(())
}

/// The value of a position, from a cached page or from a source.
fn probe_paged<'a, S: PageSource, A: Allocator>(
    sources: &mut Vec<Option<OpenTable<S>>, &'a A>,
    pages: &mut Pages<'a, A>,
    alloc: &'a A,
    p: &Position,
) -> Result<Value, ProbeFault>
    // Many clauses: those of `Values`, in the terms of these tables, and what only these tables promise.
    requires kept { IsKept S.honest (λ v. v.items) sources.old.items pages.old.entries }
    requires given { AreGiven S.gives (λ v. v.items) sources.old.items pages.old.entries }
    ensures kept { IsKept S.honest (λ v. v.items) sources.new.items pages.new.entries }
    ensures given { AreGiven S.gives (λ v. v.items) sources.new.items pages.new.entries }
    ensures put { (c : AClass) (h : AHeld S) → IsOf c p.now → held_of sources.old.items c ≡ Some h
        → PutsOnly (λ k v. IsPageFor S.gives c h (index_of p.now) k v.items)
        pages.old.entries pages.new.entries }
    ensures refused { OnErr result (PutsNone pages.old.entries pages.new.entries) }
    ensures alike { (c : AClass) (h k : AHeld S) → held_of sources.old.items c ≡ Some h
        → held_of sources.new.items c ≡ Some k
        → GiveAlike S.gives h.source k.source }
    ensures unread { (c : AClass) (h : AHeld S) (f : ASourceFault) → IsOf c p.now
        → held_of sources.old.items c ≡ Some h
        → IsErrOf result (ProbeFault.TableRead f)
        → S.gives h.source (of_page (page_number p.now)) (Err f) }
    ensures inside { (c : AClass) (f : ASourceFault) → IsOf c p.now
        → IsErrOf result (ProbeFault.TableRead f) → page_number p.now < pages_of c }
    ensures not_whole { (c : AClass) (h : AHeld S) (n : ℕ) → held_of sources.old.items c ≡ Some h
        → IsErrOf result (ProbeFault.PageDamaged c n) → HasBadPage S.gives h n }
    ensures room { pages.new.cap ≡ pages.old.cap }
    ensures sources { (c : AClass)
        → IsSameSource S.honest (held_of sources.old.items c) (held_of sources.new.items c) }
    ensures no_table { (c : AClass) → IsErrOf result (ProbeFault.NoTable c)
        ↔ (IsOf c p.now × (held_of sources.old.items c ≡ None)) }
    ensures reported { (c : AClass) (h : AHeld S) (t : Seen) → IsOf c p.now
        → held_of sources.old.items c ≡ Some h
        → S.honest h.source t h.header.version → t.class ≡ c
        → IfOk result (λ v. v ≡ value_of (slice_index t.cells (index_of p.now))) }
    ensures whole { (c : AClass) (h : AHeld S) (t : Seen) (n : ℕ) → IsOf c p.now
        → held_of sources.old.items c ≡ Some h
        → S.honest h.source t h.header.version → t.class ≡ c → IsComplete t
        → IsErrOf result (ProbeFault.PageDamaged c n) → ⊥ }
    ensures damaged { (c : AClass) (n : ℕ) → IsErrOf result (ProbeFault.PageDamaged c n)
        → IsOf c p.now × (n ≡ page_number p.now) }
    ensures read { (c : AClass) (h : AHeld S) → IsOf c p.now → held_of sources.old.items c ≡ Some h
        → IfOk result (IsReadFrom S.gives h (index_of p.now)) }
    ensures failed { (c : AClass) (h k : AHeld S) → IsOf c p.now
        → held_of sources.old.items c ≡ Some h → held_of sources.new.items c ≡ Some k
        → S.failed k.source ≡ failed_after (S.failed h.source) result }
    ensures once { (c : AClass) (h k : AHeld S) → IsOf c p.now
        → held_of sources.old.items c ≡ Some h → held_of sources.new.items c ≡ Some k
        → kept_cell (λ v. v.items) pages.old.entries c (index_of p.now) ≡ None
        → S.asked k.source ≡ next_count (S.asked h.source) }
    ensures others { (c : AClass) → (IsOf c p.now → ⊥)
        → held_of sources.new.items c ≡ held_of sources.old.items c }
    ensures again { (c : AClass) → IsOf c p.now
        → IsReadAgain (kept_cell (λ v. v.items) pages.old.entries c (index_of p.now)) result
        sources.old.items sources.new.items }
    ensures game { SourcesAreRight S.honest sources.old.items → IfOk result (IsValueOf p.now) }
{
    let _men = p.men();
    let (class, _) = class_of(p);
    let at = class.number() as usize;
    if sources.len() <= at {
        return Err(ProbeFault::NoTable(class));
    }
    match &mut sources[at] {
        None => Err(ProbeFault::NoTable(class)),
        Some(held) => value_of_number(held, pages, alloc, index(p)),
    }
}

impl<'a, S: PageSource, A: Allocator> Values for PagedTables<'a, S, A> {
    ghost source = { paged_source S.honest S.gives };

    fn value(&mut self, p: &Position) -> Result<Value, ProbeFault>
        // Many clauses: those of `Values`, in the terms of these tables, and what only these tables promise.
        ensures game { SourcesAreRight S.honest self.old.sources → IfOk result (IsValueOf p.now) }
        ensures no_damage { SourcesAreRight S.honest self.old.sources → IfErr result IsNotDamage }
        ensures stays_honest { SourcesAreRight S.honest self.old.sources
            → SourcesAreRight S.honest self.new.sources }
        ensures given { IsPagedAnswer S.gives self.old.sources p.now result }
        ensures failed_so { (c : AClass) (f : ASourceFault) → IsOf c p.now
            → IsErrOf result (ProbeFault.TableRead f)
            → MayFail S.gives (held_of self.old.sources c) c f }
        ensures fails_as_before { (c : AClass) (f : ASourceFault)
            → MayFail S.gives (held_of self.new.sources c) c f
            → MayFail S.gives (held_of self.old.sources c) c f }
        ensures no_table { (c : AClass) → IsErrOf result (ProbeFault.NoTable c)
            ↔ (IsOf c p.now × (is_some (held_of self.old.sources c) ≡ false)) }
        ensures same_tables { (c : AClass)
            → is_some (held_of self.new.sources c) ≡ is_some (held_of self.old.sources c) }
        ensures asked { self.new.asked ≡ next_count self.old.asked }
        ensures failures { self.new.failed ≡ faults_after self.old.failed result }

        // If a source is honest for a table of the class, an answer is the table's, and no page is damaged.
        ensures reported { (c : AClass) (h : AHeld S) (t : Seen) → IsOf c p.now
            → held_of self.old.sources c ≡ Some h
            → S.honest h.source t h.header.version → t.class ≡ c
            → IfOk result (λ v. v ≡ value_of (slice_index t.cells (index_of p.now))) }
        ensures whole { (c : AClass) (h : AHeld S) (t : Seen) (n : ℕ) → IsOf c p.now
            → held_of self.old.sources c ≡ Some h
            → S.honest h.source t h.header.version → t.class ≡ c → IsComplete t
            → IsErrOf result (ProbeFault.PageDamaged c n) → ⊥ }
        ensures damaged { (c : AClass) (n : ℕ) → IsErrOf result (ProbeFault.PageDamaged c n)
            → IsOf c p.now × (n ≡ page_number p.now) }

        // Whatever the source, an answer is in a page that it may return and that passes its check; a page is damaged if the source may return one that does
        // not; and the reported fault is one that it may return.
        ensures read { (c : AClass) (h : AHeld S) → IsOf c p.now
            → held_of self.old.sources c ≡ Some h
            → IfOk result (IsReadFrom S.gives h (index_of p.now)) }
        ensures not_whole { (c : AClass) (h : AHeld S) (n : ℕ) → held_of self.old.sources c ≡ Some h
            → IsErrOf result (ProbeFault.PageDamaged c n) → HasBadPage S.gives h n }
        ensures unread { (c : AClass) (h : AHeld S) (f : ASourceFault) → IsOf c p.now
            → held_of self.old.sources c ≡ Some h
            → IsErrOf result (ProbeFault.TableRead f)
            → S.gives h.source (of_page (page_number p.now)) (Err f) }

        // A page that is cached is the requested one, as the source may return it; after a refusal no page is.
        ensures put { (c : AClass) (h : AHeld S) → IsOf c p.now
            → held_of self.old.sources c ≡ Some h
            → PutsOnly (IsPageFor S.gives c h (index_of p.now)) self.old.kept self.new.kept }
        ensures refused { OnErr result (PutsNone self.old.kept self.new.kept) }

        // The sources stay; that of the class fails once more exactly if a table is not read.
        ensures sources { (c : AClass)
            → IsSameSource S.honest (held_of self.old.sources c) (held_of self.new.sources c) }
        ensures alike { (c : AClass) (h k : AHeld S) → held_of self.old.sources c ≡ Some h
            → held_of self.new.sources c ≡ Some k
            → GiveAlike S.gives h.source k.source }
        ensures failed { (c : AClass) (h k : AHeld S) → IsOf c p.now
            → held_of self.old.sources c ≡ Some h → held_of self.new.sources c ≡ Some k
            → S.failed k.source ≡ failed_after (S.failed h.source) result }
        ensures others { (c : AClass) → (IsOf c p.now → ⊥)
            → held_of self.new.sources c ≡ held_of self.old.sources c }
        ensures room { self.new.room ≡ self.old.room }
        ensures few { length self.new.kept ≤ self.new.room }

        // A cell of a cached page is read without its source; for any other the source is read once.
        ensures again { (c : AClass) → IsOf c p.now
            → IsReadAgain (kept_cell (λ cells. cells) self.old.kept c (index_of p.now)) result
            self.old.sources self.new.sources }
        ensures once { (c : AClass) (h k : AHeld S) → IsOf c p.now
            → held_of self.old.sources c ≡ Some h → held_of self.new.sources c ≡ Some k
            → kept_cell (λ cells. cells) self.old.kept c (index_of p.now) ≡ None
            → S.asked k.source ≡ next_count (S.asked h.source) }
    {
        self.asked = self.asked.saturating_add(1);
        let answer = probe_paged(&mut self.sources, &mut self.kept, self.alloc, p);
        let _few = self.kept.len();
        self.failed = failures_after(self.failed, &answer);
        answer
    }

    fn holds(&self, class: Class) -> bool {
        match self.sources.as_slice().get(class.number() as usize) {
            Some(Some(_)) => true,
            _ => false,
        }
    }

    fn asked(&self) -> u64 {
        self.asked
    }

    fn failures(&self) -> u64 {
        self.failed
    }
}

/// The cells of a page of a class, read from its source.
fn read_page<'a, S: PageSource, A: Allocator>(
    sources: &mut Vec<Option<OpenTable<S>>, &'a A>,
    class: Class,
    number: u32,
    into: &mut [u8; PAGE_CELLS],
) -> Result<(), ProbeFault>
    requires number { number < pages_of class }
    requires headers { (c : AClass) (h : AHeld S)
        → held_of sources.old.items c ≡ Some h → IsHeaderOf h.header c }
    ensures asked { IsAskedOnly S.gives S.honest class sources.old.items sources.new.items }
    ensures reported { (h : AHeld S) (t : Seen) → held_of sources.old.items class ≡ Some h
        → S.honest h.source t h.header.version → t.class ≡ class
        → OnOk result (into.new ≡ cells_on_page t number) }
    ensures whole { (h : AHeld S) (t : Seen) → held_of sources.old.items class ≡ Some h
        → S.honest h.source t h.header.version → t.class ≡ class
        → IsComplete t → (c : AClass) (n : ℕ) → IsErrOf result (ProbeFault.PageDamaged c n) → ⊥ }
    ensures checked { (h : AHeld S) → held_of sources.old.items class ≡ Some h
        → OnOk result (IsGivenPage S.gives h number into.new) }
    ensures unread { (h : AHeld S) (f : ASourceFault) → held_of sources.old.items class ≡ Some h
        → IsErrOf result (ProbeFault.TableRead f)
        → S.gives h.source (of_page number) (Err f) }
    ensures no_table { (c : AClass) → IsErrOf result (ProbeFault.NoTable c)
        ↔ ((c ≡ class) × (held_of sources.old.items class ≡ None)) }
    ensures damaged { (c : AClass) (n : ℕ) → IsErrOf result (ProbeFault.PageDamaged c n)
        → (c ≡ class) × (n ≡ number) }
{
    let at = class.number() as usize;
    if sources.len() <= at {
        return Err(ProbeFault::NoTable(class));
    }
    match &mut sources[at] {
        None => Err(ProbeFault::NoTable(class)),
        Some(held) => held.cells(number, into),
    }
}

/// A page is read from its source each time, whether or not it is cached, and is not cached.
impl<'a, S: PageSource, A: Allocator> CellPages for PagedTables<'a, S, A> {
    fn read_cells(
        &mut self,
        class: Class,
        number: u32,
        into: &mut [u8; PAGE_CELLS],
    ) -> Result<(), ProbeFault> {
        self.asked = self.asked.saturating_add(1);
        let answer = read_page(&mut self.sources, class, number, into);
        self.failed = failures_after_page(self.failed, &answer);
        answer
    }
}
