//! Cached pages, the last used first.
ghost use Rattle.std.specs.Prelude.{◌≡◌, ◌⊎◌, ◌∷◌, take, Contains, IfSome, OnOk, OnErr, slice_get, slice_index};
ghost use Rattle.std.specs.Map.{lookup};
ghost use Rattle.lru.specs.LruCache.{promoted, put_entries};
ghost use Rattle.study_prober.specs.PageCache.{same_key, key_at, cell_at};

use lru::{DefaultHasher, LruCache};
use std::alloc::{AllocError, Allocator};
use std::hash::{Hash, Hasher};
use study_material::Class;
use study_values::{PAGE_BYTES, PAGE_CELLS};

/// The class and the number of a page.
#[derive(Clone, Copy, Debug, PartialEq, Eq)]
pub struct PageKey {
    pub class: Class,
    pub number: u32,
}

/// A class has no hash of its own: its index is hashed.
impl Hash for PageKey {
    ghost use Rattle.std.specs.Hash as fed;
    ghost use Rattle.std.specs.Cmp.Rules.{hashing};
    ghost use Rattle.std.specs.Prelude.{◌++◌};
    ghost use Rattle.std.proofs.Common.{rules};
    ghost use Rattle.study_material.specs.Class.{class_number};

    ghost hash_input = { λ k. fed.u8 (class_number k.class) ++ fed.u32 k.number };

    ghost respects_eq = { Prim.search (hashing, rules) };

    fn hash<H: Hasher>(&self, state: &mut H) {
        self.class.number().hash(state);
        self.number.hash(state);
    }
}

/// The cells of pages.
pub type Pages<'a, A> = LruCache<PageKey, Vec<u8, &'a A>, DefaultHasher, &'a A>;

/// The page of a class that has a cell.
pub fn page_key(class: Class, cell: u32) -> PageKey
    ensures { result ≡ key_at class cell }
{
    PageKey {
        class,
        number: cell / PAGE_CELLS as u32,
    }
}

/// The cells of the last used page, if it is this one: they are found without a hash, and no link of the list is written.
fn latest_cells<'p, 'a, A: Allocator>(pages: &'p Pages<'a, A>, key: PageKey) -> Option<&'p [u8]>
    ensures { IfSome result (λ cells. (v : _) × (older : _)
        × (pages.now.entries ≡ (key, v) ∷ older) × (v.items ≡ cells.now)) }
{
    match pages.peek_mru() {
        Some((latest, cells)) if *latest == key => Some(cells.as_slice()),
        _ => None,
    }
}

fn cell_of(cells: &[u8], at: usize) -> Option<u8>
    ensures { result ≡ slice_get cells.now at }
{
    cells.get(at).copied()
}

/// A cell of a cached page.
pub fn cached_cell<'a, A: Allocator>(
    pages: &mut Pages<'a, A>,
    key: PageKey,
    at: usize,
) -> Option<u8>
    ensures found { IfSome result (λ x. (v : _) × Contains pages.old.entries (key, v)
        × (x ≡ slice_index v.items at)) }
    ensures fewer { (e : _) → Contains pages.new.entries e → Contains pages.old.entries e }
    ensures room { pages.new.cap ≡ pages.old.cap }
    ensures value { result ≡ cell_at (λ v. v.items) at (lookup (same_key key) pages.old.entries) }
    ensures used { pages.new.entries ≡ promoted (same_key key) pages.old.entries }
{
    if let Some(cells) = latest_cells(pages, key) {
        return cell_of(cells, at);
    }
    let page = pages.get(&key)?;
    cell_of(page.as_slice(), at)
}

/// Caches the cells of a page.
pub fn cache_page<'a, A: Allocator>(
    pages: &mut Pages<'a, A>,
    alloc: &'a A,
    key: PageKey,
    page: &[u8; PAGE_BYTES],
) -> Result<(), AllocError>
    ensures more { (e : _) → Contains pages.new.entries e → Contains pages.old.entries e
        ⊎ ((e.0 ≡ key) × (e.1.items ≡ take 4096 page.now)) }
    ensures room { pages.new.cap ≡ pages.old.cap }
    ensures kept { OnOk result ((v : _) × (v.items ≡ take 4096 page.now)
        × (pages.new.entries ≡ put_entries same_key pages.old key v)) }
    ensures same { OnErr result (pages.new.entries ≡ pages.old.entries) }
{
    let copy = Vec::from_slice(alloc, &page[..PAGE_CELLS])?;
    pages.put(key, copy)?;
    Ok(())
}
