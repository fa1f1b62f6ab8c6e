//! The tables of all files of a store, read by pages.
ghost use Rattle.std.specs.Prelude.{◌≡◌, ◌≤◌, ◌⊎◌, true, false, is_some, IfSome, OnOk, IfOk, IfErr, Err};
ghost use Rattle.study_material.specs.declared.class.Class.{Class as AClass};
ghost use Rattle.study_values.specs.declared.fault.SourceFault.{SourceFault as ASourceFault};
ghost use Rattle.study_prober.specs.PagedTables.{held_of, SourcesAreRight, MayFail};
ghost use Rattle.study_script.specs.declared.store.StoreFault.TheVariants.{NoFile};
ghost use Rattle.study_script.specs.State.{is_among, IsGiven, IsOpened};
ghost use Rattle.study_web.specs.Opened.{denial_of, IsHeldAs, IsOfTables};

use crate::request_fault::RequestFault;
use std::alloc::Allocator;
use study_material::Class;
use study_prober::{PagedFault, PagedTables};
use study_reply::Refusal;
use study_script::{StoreFault, TableStore};
use study_values::Values;

/// The number of pages kept in memory unless another is given.
const PAGES: u16 = 1024;

/// Why the file of a class is not a table, as a script's reply names it; or want of memory.
fn denial_of(class: Class, fault: PagedFault) -> RequestFault
    ensures { result ≡ denial_of class fault }
{
    let refusal = match fault {
        PagedFault::AlreadyHeld(held) => Refusal::AlreadyHeld(held),
        PagedFault::TableRead(fault) => Refusal::TableRead(fault),
        PagedFault::Header(fault) => Refusal::File(fault),
        PagedFault::OtherClass(other) => Refusal::OtherClass(other),
        PagedFault::OutOfMemory => return RequestFault::Refused(Refusal::OutOfMemory),
    };
    RequestFault::OfFile(class, refusal)
}

/// Opens the file of a class, if there is one and it is not open.
fn open_table<'a, S: TableStore, A: Allocator>(
    tables: &mut PagedTables<'a, S::Pages, A>,
    store: &mut S,
    class: Class,
) -> Result<(), RequestFault>
    ensures right { S.honest store.old true class
        → SourcesAreRight S.Pages.honest tables.old.sources
        → OnOk result (SourcesAreRight S.Pages.honest tables.new.sources) }
    ensures grows { (c : AClass) → is_some (held_of tables.old.sources c) ≡ true
        → OnOk result (is_some (held_of tables.new.sources c) ≡ true) }
    ensures opened { (c : AClass) → OnOk result (is_some (held_of tables.new.sources c) ≡ true
        → (is_some (held_of tables.old.sources c) ≡ true) ⊎ IsOpened (S.headers store.old c)) }
    ensures given { OnOk result (is_some (held_of tables.new.sources class) ≡ false
        → IsGiven (S.headers store.old class) (Err NoFile)) }
    ensures fails { (c : AClass) (f : ASourceFault)
        → OnOk result (MayFail S.Pages.gives (held_of tables.new.sources c) c f
        → MayFail S.Pages.gives (held_of tables.old.sources c) c f
        ⊎ (S.faults store.old c f ≡ true)) }
    ensures named { IfErr result (IsOfTables (S.headers store.old) (S.faults store.old)) }
    ensures stays { (c : AClass) → S.honest store.old true c → S.honest store.new true c }
    ensures headers { (c : AClass) → S.headers store.new c ≡ S.headers store.old c }
    ensures faults { (c : AClass) (f : ASourceFault)
        → S.faults store.new c f ≡ S.faults store.old c f }
{
    if tables.holds(class) {
        return Ok(());
    }
    match store.pages(class) {
        Err(StoreFault::NoFile) => Ok(()),
        Err(StoreFault::Device) => Err(RequestFault::OfFile(class, Refusal::Device)),
        Ok(source) => match tables.add(class, source) {
            Ok(()) => Ok(()),
            Err(fault) => Err(denial_of(class, fault)),
        },
    }
}

/// Opens the files of these classes.
fn open_each<'a, S: TableStore, A: Allocator>(
    tables: &mut PagedTables<'a, S::Pages, A>,
    store: &mut S,
    classes: &[Class],
) -> Result<(), RequestFault>
    ensures right { ((c : AClass) → S.honest store.old true c)
        → SourcesAreRight S.Pages.honest tables.old.sources
        → OnOk result (SourcesAreRight S.Pages.honest tables.new.sources) }
    ensures grows { (c : AClass) → is_some (held_of tables.old.sources c) ≡ true
        → OnOk result (is_some (held_of tables.new.sources c) ≡ true) }
    ensures opened { (c : AClass) → OnOk result (is_some (held_of tables.new.sources c) ≡ true
        → (is_some (held_of tables.old.sources c) ≡ true) ⊎ IsOpened (S.headers store.old c)) }
    ensures fails { (c : AClass) (f : ASourceFault)
        → OnOk result (MayFail S.Pages.gives (held_of tables.new.sources c) c f
        → MayFail S.Pages.gives (held_of tables.old.sources c) c f
        ⊎ (S.faults store.old c f ≡ true)) }
    ensures named { IfErr result (IsOfTables (S.headers store.old) (S.faults store.old)) }
    ensures given { (c : AClass)
        → OnOk result (is_among classes.now c ≡ true
        → is_some (held_of tables.new.sources c) ≡ false
        → IsGiven (S.headers store.old c) (Err NoFile)) }
    ensures faults { (c : AClass) (f : ASourceFault)
        → S.faults store.new c f ≡ S.faults store.old c f }
{
    match classes.split_first() {
        None => Ok(()),
        Some((class, rest)) => match open_table(tables, store, *class) {
            Err(denial) => Err(denial),
            Ok(()) => open_each(tables, store, rest),
        },
    }
}

/// The tables of all files of a store, in the order of the class list. One file that is not a table refuses them all.
pub fn open_tables<'a, S: TableStore, A: Allocator>(
    alloc: &'a A,
    store: &mut S,
    pages: Option<u16>,
) -> Result<PagedTables<'a, S::Pages, A>, RequestFault>
    requires { IfSome pages (λ n. (1 ≤ n) × (n ≤ 4096)) }
    ensures right { ((c : AClass) → S.honest store.old true c)
        → IfOk result (λ w. SourcesAreRight S.Pages.honest w.sources) }
    ensures named { IfErr result (IsOfTables (S.headers store.old) (S.faults store.old)) }
    ensures fails { IfOk result (λ w. (c : AClass) (f : ASourceFault)
        → MayFail S.Pages.gives (held_of w.sources c) c f → S.faults store.old c f ≡ true) }
    ensures held { IfOk result (λ w. (c : AClass)
        → IsHeldAs (S.headers store.old c) (is_some (held_of w.sources c))) }
    ensures faults { (c : AClass) (f : ASourceFault)
        → S.faults store.new c f ≡ S.faults store.old c f }
{
    let room = match pages {
        None => PAGES,
        Some(n) => n,
    };
    let Ok(mut tables) = PagedTables::new(alloc, room) else {
        return Err(RequestFault::Refused(Refusal::OutOfMemory));
    };
    match open_each(&mut tables, store, Class::all().as_slice()) {
        Err(denial) => Err(denial),
        Ok(()) => Ok(tables),
    }
}
