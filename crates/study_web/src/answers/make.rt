//! The file of a class's table, built from the files of the tables that it needs.
ghost use Rattle.std.specs.Prelude.{◌≡◌, ◌≢◌, ℕ, List, true, false, is_some, Some, Ok, OnOk, IfOk, IfErr};
ghost use Rattle.std.specs.List.{Contains};
ghost use Rattle.study_material.specs.declared.class.Class.{Class as AClass};
ghost use Rattle.study_material.specs.Needs.{needs_of, IsNeeded};
ghost use Rattle.study_table.specs.Table.{table_of};
ghost use Rattle.study_table.specs.Sound.{IsRight};
ghost use Rattle.study_prober.specs.WholeTables.{TablesAreRight};
ghost use Rattle.study_tablefile.specs.Reading.{table_read};
ghost use Rattle.study_web.specs.Spans.{file_in, IsHonestIn};
ghost use Rattle.study_web.specs.Making.{IsRightFileOf, IsFaultIn, IsFirstFault, IsMakeFault, IsSoundIn, HasRightNeeds, HaveFiles};
ghost use Rattle.study_web.specs.Making.{IsSettled, IsTaken, is_ascending, of_build};
ghost use Rattle.study_web.specs.declared.file_spans.FileSpan.{FileSpan as ASpan};

use crate::file_spans::{FileSpan, file_in};
use std::alloc::Allocator;
use study_material::{Class, needs_come_first, order};
use study_prober::WholeTables;
use study_retro::{BuildFault, BuildRoom, build};
use study_table::{Table, TableSet};
use study_tablefile::{read_table, write_table};
use study_values::{FileFault, cells};
use thiserror::Error;

/// Why the file of a class cannot be made.
#[derive(Clone, Copy, Debug, PartialEq, Eq, Error)]
pub enum MakeFault {
    /// The first table that the class needs and that is not loaded: it has no file, or needs one that has none.
    #[error("MissingTable {0:?}")]
    MissingTable(Class),
    #[error("{0:?}: {1}")]
    File(Class, FileFault),
    /// The file of the first class holds a table of the second.
    #[error("{0:?}: OtherClass {1:?}")]
    OtherClass(Class, Class),
    #[error("DistanceTooLarge")]
    DistanceTooLarge,
    #[error("OutOfMemory")]
    OutOfMemory,
}

fn of_build(reason: BuildFault) -> MakeFault
    ensures { result ≡ of_build reason }
{
    match reason {
        BuildFault::MissingTable(need) => MakeFault::MissingTable(need),
        BuildFault::DistanceTooLarge => MakeFault::DistanceTooLarge,
    }
}

/// Builds the table of a class from the files of those that it needs, and returns its file.
///
/// If those files are right, so is the result.
pub fn make_file<'a, A: Allocator>(
    alloc: &'a A,
    class: Class,
    spans: &[FileSpan],
    bytes: &[u8],
) -> Result<Vec<u8, &'a A>, MakeFault>
    ensures right { HasRightNeeds spans.now bytes.now class
        → IfOk result (λ file. IsRightFileOf class file.items) }
    ensures fault { IfErr result (IsMakeFault spans.now bytes.now class) }
{
    let tables = needed_tables(alloc, class, spans, bytes)?;
    let table = build_table(alloc, class, &tables)?;
    text_of(alloc, &table)
}

/// The table of a class, from those that it needs.
#[tactic(auto, using(crate::proofs::Faults::needs_right))]
fn build_table<'a, A: Allocator>(
    alloc: &'a A,
    class: Class,
    tables: &WholeTables<'a, A>,
) -> Result<Table<'a, A>, MakeFault>
    ensures class { IfOk result (λ t. t.class ≡ class) }
    ensures right { TablesAreRight tables.now.tables → IfOk result IsRight }
    ensures fault { (spans : List ASpan) (bytes : List ℕ)
        → (HasRightNeeds spans bytes class → TablesAreRight tables.now.tables)
        → ((d : AClass) → IsNeeded class d → IsSettled spans bytes class tables.now.tables d)
        → HaveFiles spans bytes tables.now.tables
        → IfErr result (IsMakeFault spans bytes class) }
{
    needs_come_first();
    let _held = tables.tables().table(class);
    let Ok(room) = BuildRoom::new(alloc, cells(class)) else {
        return Err(MakeFault::OutOfMemory);
    };
    match build(class, tables.tables(), room) {
        Ok((table, _)) => Ok(table),
        Err(reason) => Err(of_build(reason)),
    }
}

/// The file of a table.
fn text_of<'a, A: Allocator>(
    alloc: &'a A,
    table: &Table<'a, A>,
) -> Result<Vec<u8, &'a A>, MakeFault>
    ensures ok { (c : AClass) → table.now.class ≡ c → IsRight table.now
        → IfOk result (λ file. IsRightFileOf c file.items) }
    ensures err { (spans : List ASpan) (bytes : List ℕ) (c : AClass)
        → IfErr result (IsMakeFault spans bytes c) }
{
    let _class = table.class();
    let mut file = Vec::new(alloc);
    match write_table(table, &mut file) {
        Ok(()) => Ok(file),
        Err(_) => Err(MakeFault::OutOfMemory),
    }
}

/// The tables of all classes that the class needs, as far as there are files for them.
fn needed_tables<'a, A: Allocator>(
    alloc: &'a A,
    class: Class,
    spans: &[FileSpan],
    bytes: &[u8],
) -> Result<WholeTables<'a, A>, MakeFault>
    ensures right { HasRightNeeds spans.now bytes.now class
        → IfOk result (λ w. TablesAreRight w.tables) }
    ensures settled { (d : AClass) → IsNeeded class d
        → IfOk result (λ w. IsSettled spans.now bytes.now class w.tables d) }
    ensures files { IfOk result (λ w. HaveFiles spans.now bytes.now w.tables) }
    ensures fault { IfErr result (IsMakeFault spans.now bytes.now class) }
{
    needs_come_first();
    let Ok(none) = TableSet::new(alloc) else {
        return Err(MakeFault::OutOfMemory);
    };
    let mut tables = WholeTables::new(none);
    let needed = order(class);
    load_classes(alloc, &mut tables, class, needed.as_slice(), spans, bytes)?;
    Ok(tables)
}

/// Loads the tables of these classes, each after those that it needs.
fn load_classes<'a, A: Allocator>(
    alloc: &'a A,
    tables: &mut WholeTables<'a, A>,
    class: Class,
    needed: &[Class],
    spans: &[FileSpan],
    bytes: &[u8],
) -> Result<(), MakeFault>
    requires needed { (d : AClass) → Contains needed.now d → IsNeeded class d }
    requires ascending { is_ascending needed.now ≡ true }
    requires settled { (d : AClass) → IsNeeded class d → (Contains needed.now d → ⊥)
        → IsSettled spans.now bytes.now class tables.old.tables d }
    ensures right { HasRightNeeds spans.now bytes.now class → TablesAreRight tables.old.tables
        → OnOk result (TablesAreRight tables.new.tables) }
    ensures settled { (d : AClass) → IsNeeded class d
        → OnOk result (IsSettled spans.now bytes.now class tables.new.tables d) }
    ensures files { HaveFiles spans.now bytes.now tables.old.tables
        → OnOk result (HaveFiles spans.now bytes.now tables.new.tables) }
    ensures fault { IfErr result (IsFirstFault spans.now bytes.now class needed.now) }
{
    needs_come_first();
    match needed.split_first() {
        None => Ok(()),
        Some((need, rest)) => {
            load_needed(alloc, tables, class, *need, spans, bytes)?;
            load_classes(alloc, tables, class, rest, spans, bytes)
        }
    }
}

/// The same for one needed class. The class itself is among those that it needs, and is skipped.
fn load_needed<'a, A: Allocator>(
    alloc: &'a A,
    tables: &mut WholeTables<'a, A>,
    class: Class,
    need: Class,
    spans: &[FileSpan],
    bytes: &[u8],
) -> Result<(), MakeFault>
    requires { IsNeeded class need }
    ensures right { HasRightNeeds spans.now bytes.now class → TablesAreRight tables.old.tables
        → OnOk result (TablesAreRight tables.new.tables) }
    ensures settled { ((d : AClass) → Contains (needs_of need) d
        → IsSettled spans.now bytes.now class tables.old.tables d)
        → OnOk result (IsSettled spans.now bytes.now class tables.new.tables need) }
    ensures keeps { (d : AClass) → is_some (table_of tables.old.tables d) ≡ true
        → OnOk result (is_some (table_of tables.new.tables d) ≡ true) }
    ensures files { HaveFiles spans.now bytes.now tables.old.tables
        → OnOk result (HaveFiles spans.now bytes.now tables.new.tables) }
    ensures sound { need ≢ class → OnOk result (IsSoundIn (file_in spans.now bytes.now need) need) }
    ensures fault { IfErr result (λ fault. (need ≢ class)
        × IsFaultIn (file_in spans.now bytes.now need) need fault) }
{
    needs_come_first();
    if need == class {
        return Ok(());
    }
    load_class(alloc, tables, need, spans, bytes)
}

/// Loads the table of a class if it has a file and all that it needs is loaded.
fn load_class<'a, A: Allocator>(
    alloc: &'a A,
    tables: &mut WholeTables<'a, A>,
    class: Class,
    spans: &[FileSpan],
    bytes: &[u8],
) -> Result<(), MakeFault>
    ensures right { IsHonestIn false (file_in spans.now bytes.now class)
        → TablesAreRight tables.old.tables
        → OnOk result (TablesAreRight tables.new.tables) }
    ensures taken { OnOk result
        (IsTaken spans.now bytes.now class tables.old.tables tables.new.tables) }
    ensures keeps { (d : AClass) → is_some (table_of tables.old.tables d) ≡ true
        → OnOk result (is_some (table_of tables.new.tables d) ≡ true) }
    ensures files { HaveFiles spans.now bytes.now tables.old.tables
        → OnOk result (HaveFiles spans.now bytes.now tables.new.tables) }
    ensures sound { OnOk result (IsSoundIn (file_in spans.now bytes.now class) class) }
    ensures fault { IfErr result (IsFaultIn (file_in spans.now bytes.now class) class) }
{
    let Some(file) = file_in(spans, bytes, class) else {
        return Ok(());
    };
    let table = table_in(alloc, class, file)?;
    let _held = tables.tables().table(class);
    let _ = tables.add(table);
    Ok(())
}

/// The table of a class in its file.
fn table_in<'a, A: Allocator>(
    alloc: &'a A,
    class: Class,
    file: &[u8],
) -> Result<Table<'a, A>, MakeFault>
    ensures ok { IfOk result (λ t. table_read file.now ≡ Ok t) }
    ensures class { IfOk result (λ t. t.class ≡ class) }
    ensures fault { IfErr result (IsFaultIn (Some file.now) class) }
{
    let mut reader = file;
    match read_table(alloc, &mut reader) {
        Ok(table) if table.class() == class => Ok(table),
        Ok(table) => Err(MakeFault::OtherClass(class, table.class())),
        Err(fault) => Err(of_file(class, fault)),
    }
}

/// Why the file of a class is not a table. The file is a slice, so reading it cannot fail.
fn of_file(class: Class, fault: FileFault) -> MakeFault
    ensures device { fault ≡ FileFault.Device → result ≡ MakeFault.OutOfMemory }
    ensures file { fault ≢ FileFault.Device → result ≡ MakeFault.File class fault }
{
    if fault == FileFault::Device {
        MakeFault::OutOfMemory
    } else {
        MakeFault::File(class, fault)
    }
}
