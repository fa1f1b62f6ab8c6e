//! Classes of material: `build`, `load`, `save` and `verify`.
ghost use Rattle.std.specs.Prelude.{◌≡◌, ◌↔◌, ℕ, Bool, true, List, Option, Some, None, Ok, false, is_some, slice_set, IfOk, IfErr, IfSome, IsTrue};
ghost use Rattle.study_table.specs.Sound.{IsRight, NeedsAreRight};
ghost use Rattle.study_table.specs.TableSet.{add_fault};
ghost use Rattle.study_material.specs.Class.{class_number};
ghost use Rattle.study_table.specs.Table.{table_of, IsClosed, IsComplete};
ghost use Rattle.study_tablefile.specs.Reading.{table_read};
ghost use Rattle.study_script.specs.State.{State, is_among, first_lacking, IsGiven};
ghost use Rattle.study_script.specs.StoreRefusals.{refusal_of_store, refusal_of_paged};
ghost use Rattle.study_script.specs.Replies.{IsClassReply, IsNamedReply, IsBuildReply, IsLoadReply};
ghost use Rattle.study_script.specs.Replies.{IsOpenReply, save_reply, verify_reply, class_parsed};
ghost use Rattle.study_script.specs.SessionHolds.{HoldsTables, TablesFrom};
ghost use Rattle.study_material.specs.declared.class.Class.{Class as AClass};
ghost use Rattle.study_script.specs.Stores.{StoreSeen, HonestOn, IsTrustedClass};
ghost use Rattle.study_script.specs.Executed.{Executed};
ghost use Rattle.study_script.specs.Decided.{Decided, HoldsWhole, HoldsPaged, WholeFrom, IsFileRefusal};

use crate::store::{StoreFault, TableStore};
use crate::tables::Tables;
use std::alloc::Allocator;
use std::io::Write;
use study_command::TableCommand;
use study_material::Class;
use study_prober::{PagedFault, PagedTables, WholeTables};
use study_reply::{Answer, LineRefusal, Refusal, Reply, TableReply};
use study_retro::{BuildFault, BuildRoom, build, verify};
use study_table::Table;
use study_tablefile::{read_table, write_table};
use study_values::{FileFault, Values, cells};

/// Commands whose only argument is a class.
pub fn table_command<'a, S: TableStore, A: Allocator>(
    alloc: &'a A,
    tables: &mut Tables<'a, S::Pages, A>,
    store: &mut S,
    word: TableCommand,
    name: &str,
) -> Answer<'a, A>
    ensures { (trusted : AClass → Bool) (s : State) → IsTrustedClass trusted word name.now
        → HoldsTables S.Pages.honest S.Pages.gives tables.old s
        → StoreSeen (HonestOn trusted S.honest) S.files S.headers S.faults store.old s
        → Executed (λ o. IsClassReply s o word name.now)
        (λ t. TablesFrom S.Pages.honest S.Pages.gives s tables.new t
        × StoreSeen (HonestOn trusted S.honest) S.files S.headers S.faults store.new t)
        result }
{
    match in_tables(alloc, tables, store, word, name) {
        Ok(reported) => Ok(Reply::Table(reported)),
        Err(refusal) => Err(LineRefusal::Line(refusal)),
    }
}

fn in_tables<'a, S: TableStore, A: Allocator>(
    alloc: &'a A,
    tables: &mut Tables<'a, S::Pages, A>,
    store: &mut S,
    word: TableCommand,
    name: &str,
) -> Result<TableReply, Refusal>
    ensures { (trusted : AClass → Bool) (s : State) → IsTrustedClass trusted word name.now
        → HoldsTables S.Pages.honest S.Pages.gives tables.old s
        → StoreSeen (HonestOn trusted S.honest) S.files S.headers S.faults store.old s
        → Decided (λ o. IsClassReply s o word name.now)
        (λ t. TablesFrom S.Pages.honest S.Pages.gives s tables.new t
        × StoreSeen (HonestOn trusted S.honest) S.files S.headers S.faults store.new t)
        result }
{
    match tables {
        Tables::Whole(whole) => whole_command(alloc, whole, store, word, name),
        Tables::Paged(paged) => paged_command(paged, store, word, name),
    }
}

/// Runs the command over whole tables.
fn whole_command<'a, S: TableStore, A: Allocator>(
    alloc: &'a A,
    tables: &mut WholeTables<'a, A>,
    store: &mut S,
    word: TableCommand,
    name: &str,
) -> Result<TableReply, Refusal>
    ensures { (trusted : AClass → Bool) (s : State) → IsTrustedClass trusted word name.now
        → HoldsWhole tables.old s
        → StoreSeen (HonestOn trusted S.honest) S.files S.headers S.faults store.old s
        → Decided (λ o. IsNamedReply s o word (class_parsed name.now))
        (λ t. HoldsWhole tables.new t × (t.document ≡ s.document)
        × StoreSeen (HonestOn trusted S.honest) S.files S.headers S.faults store.new t) result }
{
    let class = class_of_name(name)?;
    match word {
        TableCommand::Build => build_class(alloc, tables, class),
        TableCommand::Load => load_class(alloc, tables, store, class),
        TableCommand::Save => save_class(tables, store, class),
        TableCommand::Verify => verify_class(tables, class),
    }
}

/// Runs the command over tables that are read by pages; these cannot be built or written.
fn paged_command<'a, S: TableStore, A: Allocator>(
    tables: &mut PagedTables<'a, S::Pages, A>,
    store: &mut S,
    word: TableCommand,
    name: &str,
) -> Result<TableReply, Refusal>
    ensures { (trusted : AClass → Bool) (s : State) → IsTrustedClass trusted word name.now
        → HoldsPaged S.Pages.honest S.Pages.gives tables.old s
        → StoreSeen (HonestOn trusted S.honest) S.files S.headers S.faults store.old s
        → Decided (λ o. IsClassReply s o word name.now)
        (λ t. HoldsPaged S.Pages.honest S.Pages.gives tables.new t × (t.document ≡ s.document)
        × StoreSeen (HonestOn trusted S.honest) S.files S.headers S.faults store.new t)
        result }
{
    match word {
        TableCommand::Load => {
            let class = class_of_name(name)?;
            open_class(tables, store, class)
        }
        TableCommand::Build | TableCommand::Save | TableCommand::Verify => Err(Refusal::PagedMode),
    }
}

#[tactic(auto, unfolding(crate::specs::Replies::class_parsed))]
fn class_of_name(name: &str) -> Result<Class, Refusal>
    ensures ok { IfOk result (λ c. class_parsed name.now ≡ Some c) }
    ensures err { IfErr result (λ e. (e ≡ Refusal.NotAClass) × (class_parsed name.now ≡ None)) }
{
    match Class::parse(name) {
        Ok(class) => Ok(class),
        Err(_) => Err(Refusal::NotAClass),
    }
}

fn build_class<'a, A: Allocator>(
    alloc: &'a A,
    tables: &mut WholeTables<'a, A>,
    class: Class,
) -> Result<TableReply, Refusal>
    ensures { (s : State) → HoldsWhole tables.old s
        → Decided (λ o.
        IsBuildReply s o class (is_among s.classes class) (first_lacking s.classes class))
        (WholeFrom s tables.new) result }
{
    if has_table(tables, class) {
        return Err(Refusal::AlreadyHeld(class));
    }
    let Ok(room) = BuildRoom::new(alloc, cells(class)) else {
        return Err(Refusal::OutOfMemory);
    };
    match build(class, tables.tables(), room) {
        Ok((table, report)) => {
            add_table(tables, table);
            Ok(TableReply::Built(class, report.deepest_win))
        }
        Err(BuildFault::MissingTable(need)) => Err(Refusal::MissingTable(need)),
        Err(BuildFault::DistanceTooLarge) => Err(Refusal::DistanceTooLarge),
    }
}

fn has_table<'a, A: Allocator>(tables: &WholeTables<'a, A>, class: Class) -> bool
    ensures value { result ≡ is_some (table_of tables.now.tables class) }
    ensures closed { IsClosed tables.now.tables }
{
    tables.tables().table(class).is_some()
}

/// Adds a table whose class is not loaded, and whose needs are.
fn add_table<'a, A: Allocator>(tables: &mut WholeTables<'a, A>, table: Table<'a, A>)
    requires { add_fault tables.old.tables table.class ≡ None }
    ensures held { tables.new
        ≡ record tables.old {
          tables = slice_set tables.old.tables (class_number table.entry.class) (Some table.entry);
        } }
    ensures complete { IsComplete table.entry }
{
    let _class = table.class();
    if tables.add(table).is_err() {
        unreachable!();
    }
}

fn load_class<'a, S: TableStore, A: Allocator>(
    alloc: &'a A,
    tables: &mut WholeTables<'a, A>,
    store: &mut S,
    class: Class,
) -> Result<TableReply, Refusal>
    ensures { (trusted : AClass → Bool) (s : State) → trusted class ≡ true → HoldsWhole tables.old s
        → StoreSeen (HonestOn trusted S.honest) S.files S.headers S.faults store.old s
        → Decided (λ o.
        IsLoadReply s o class (is_among s.classes class) (first_lacking s.classes class))
        (λ t. WholeFrom s tables.new t
        × StoreSeen (HonestOn trusted S.honest) S.files S.headers S.faults store.new t) result }
{
    if has_table(tables, class) {
        return Err(Refusal::AlreadyHeld(class));
    }
    if let Some(need) = tables.tables().first_missing(class) {
        return Err(Refusal::MissingTable(need));
    }
    let table = read_table_file(alloc, store, class)?;
    if table.class() != class {
        return Err(Refusal::OtherClass(table.class()));
    }
    add_table(tables, table);
    Ok(TableReply::Loaded(class))
}

/// Reads the file of a class, or reports why it is not a table.
fn read_table_file<'a, S: TableStore, A: Allocator>(
    alloc: &'a A,
    store: &mut S,
    class: Class,
) -> Result<Table<'a, A>, Refusal>
    ensures read { S.honest store.old false class
        → IfOk result (λ t. (bytes : List ℕ) × IsGiven (S.files store.old class) (Ok bytes)
        × (table_read bytes ≡ Ok t) × IsRight t) }
    ensures refused { S.honest store.old false class
        → IfErr result (λ refusal. IsFileRefusal (S.files store.old class) refusal) }
    ensures store { (trusted : AClass → Bool) (s : State)
        → StoreSeen (HonestOn trusted S.honest) S.files S.headers S.faults store.old s
        → StoreSeen (HonestOn trusted S.honest) S.files S.headers S.faults store.new s }
{
    let mut reader = match store.reader(class) {
        Ok(reader) => reader,
        Err(fault) => return Err(refusal_of_store(fault)),
    };
    match read_table(alloc, &mut reader) {
        Ok(table) => Ok(table),
        Err(FileFault::Device) => Err(Refusal::Device),
        Err(FileFault::OutOfMemory) => Err(Refusal::OutOfMemory),
        Err(fault) => Err(Refusal::File(fault)),
    }
}

fn refusal_of_store(fault: StoreFault) -> Refusal
    ensures { result ≡ refusal_of_store fault }
{
    match fault {
        StoreFault::NoFile => Refusal::NoFile,
        StoreFault::Device => Refusal::Device,
    }
}

fn open_class<'a, S: TableStore, A: Allocator>(
    tables: &mut PagedTables<'a, S::Pages, A>,
    store: &mut S,
    class: Class,
) -> Result<TableReply, Refusal>
    ensures { (trusted : AClass → Bool) (s : State) → trusted class ≡ true
        → HoldsPaged S.Pages.honest S.Pages.gives tables.old s
        → StoreSeen (HonestOn trusted S.honest) S.files S.headers S.faults store.old s
        → Decided (λ o. IsOpenReply s o class (is_among s.classes class))
        (λ t. HoldsPaged S.Pages.honest S.Pages.gives tables.new t × (t.document ≡ s.document)
        × StoreSeen (HonestOn trusted S.honest) S.files S.headers S.faults store.new t)
        result }
{
    if tables.holds(class) {
        return Err(Refusal::AlreadyHeld(class));
    }
    let source = match store.pages(class) {
        Ok(source) => source,
        Err(fault) => return Err(refusal_of_store(fault)),
    };
    match tables.add(class, source) {
        Ok(()) => Ok(TableReply::Loaded(class)),
        Err(fault) => Err(refusal_of_paged(fault)),
    }
}

/// Why a source of pages is not kept, as a script's reply has it.
pub fn refusal_of_paged(fault: PagedFault) -> Refusal
    ensures { result ≡ refusal_of_paged fault }
{
    match fault {
        PagedFault::AlreadyHeld(class) => Refusal::AlreadyHeld(class),
        PagedFault::TableRead(fault) => Refusal::TableRead(fault),
        PagedFault::Header(fault) => Refusal::File(fault),
        PagedFault::OtherClass(class) => Refusal::OtherClass(class),
        PagedFault::OutOfMemory => Refusal::OutOfMemory,
    }
}

fn save_class<'a, S: TableStore, A: Allocator>(
    tables: &WholeTables<'a, A>,
    store: &mut S,
    class: Class,
) -> Result<TableReply, Refusal>
    ensures { (trusted : AClass → Bool) (s : State) → HoldsWhole tables.now s
        → StoreSeen (HonestOn trusted S.honest) S.files S.headers S.faults store.old s
        → Decided (λ o reply. reply ≡ save_reply s o class (is_among s.classes class))
        (λ t. HoldsWhole tables.now t × (t.document ≡ s.document)
        × StoreSeen (HonestOn trusted S.honest) S.files S.headers S.faults store.new t) result }
{
    let Some(table) = tables.tables().table(class) else {
        return Err(Refusal::NoTable(class));
    };
    let Ok(mut writer) = store.writer(class) else {
        return Err(Refusal::Device);
    };
    if write_table(table, &mut writer).is_err() || writer.flush().is_err() {
        return Err(Refusal::Device);
    }
    Ok(TableReply::Saved(class))
}

fn verify_class<'a, A: Allocator>(
    tables: &WholeTables<'a, A>,
    class: Class,
) -> Result<TableReply, Refusal>
    ensures { (s : State) → HoldsWhole tables.now s
        → Decided (λ o reply. reply ≡ verify_reply s class (is_among s.classes class))
        (WholeFrom s tables.now) result }
{
    match is_right(tables, class) {
        None => Err(Refusal::NoTable(class)),
        Some(right) => Ok(TableReply::Verified(class, right)),
    }
}

/// Whether the loaded table of a class is right, if the tables that it needs are; `None` if it is not loaded.
pub fn is_right<'a, A: Allocator>(tables: &WholeTables<'a, A>, class: Class) -> Option<bool>
    ensures held { is_some result ≡ is_some (table_of tables.now.tables class) }
    ensures right { NeedsAreRight tables.now.tables class
        → IfSome result (λ reported.
        IfSome (table_of tables.now.tables class) (λ t. IsTrue reported ↔ IsRight t)) }
{
    match tables.tables().table(class) {
        None => None,
        Some(table) => Some(verify(table, tables.tables())),
    }
}
