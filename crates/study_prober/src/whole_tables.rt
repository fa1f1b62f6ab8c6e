//! Values from tables in memory.
ghost use Rattle.std.specs.Prelude.{◌≡◌, ◌↔◌, ℕ, false, is_some, Some, Ok, IsOk, IfOk, OnOk, OnErr, IfErr};
ghost use Rattle.std.specs.Prelude.{◌*◌, ◌≤◌, drop, length, IsErrAnd, IsErrOf, MatchOption, slice_index, slice_set};
ghost use Rattle.study_material.specs.declared.class.Class.{Class as AClass};
ghost use Rattle.study_material.specs.Class.{IsOf};
ghost use Rattle.study_values.specs.Index.{index_of};
ghost use Rattle.study_values.specs.Cells.{value_of};
ghost use Rattle.study_values.specs.Game.{IsValueOf};
ghost use Rattle.study_material.specs.Class.{class_number};
ghost use Rattle.study_table.specs.Table.{Table as Seen, table_of};
ghost use Rattle.study_table.specs.TableSet.{add_fault};
ghost use Rattle.study_table.specs.Sound.{IsRight};
ghost use Rattle.study_text.specs.Counts.{next_count};
ghost use Rattle.study_values.specs.declared.fault.SourceFault.{SourceFault as ASourceFault};
ghost use Rattle.study_values.specs.Values.{IsNotDamage, faults_after, page_number};
ghost use Rattle.study_tablefile.specs.Format.{page_cells_of};
ghost use Rattle.study_prober.specs.WholeTables.{TablesAreRight, IsCellAnswer, Whole, whole_source};

use crate::cell_pages::CellPages;
use std::alloc::Allocator;
use std::marker::Model;
use study_board::Position;
use study_material::{Class, class_of};
use study_table::{AddRefused, Table, TableSet};
use study_values::{PAGE_CELLS, ProbeFault, Value, Values};

/// Tables in memory.
#[derive(Drop)]
pub struct WholeTables<'a, A: Allocator> {
    tables: TableSet<'a, A>,
    asked: u64,
}

impl<'a, A: Allocator> Model for WholeTables<'a, A> {
    ghost use Rattle.study_prober.specs.WholeTables.{Whole};

    ghost Value = { Whole };

    ghost view = { λ w. record { tables = w.tables; asked = w.asked } };
}

impl<'a, A: Allocator> WholeTables<'a, A> {
    /// Values from these tables. Nothing has been probed yet.
    pub fn new(tables: TableSet<'a, A>) -> Self
        ensures { result ≡ record { tables = tables.entry; asked = 0 } }
    {
        WholeTables { tables, asked: 0 }
    }

    /// The tables.
    pub fn tables(&self) -> &TableSet<'a, A>
        ensures { result.now ≡ self.now.tables }
    {
        &self.tables
    }

    /// Adds a table whose class is not loaded and whose needs are; any other table is returned with the reason.
    pub fn add(&mut self, table: Table<'a, A>) -> Result<(), AddRefused<'a, A>>
        ensures fault { MatchOption (add_fault self.old.tables table.entry.class) (IsOk result)
            (λ fault. IsErrAnd result (λ e. e.fault ≡ fault)) }
        ensures added { OnOk result (
            self.new ≡ record self.old {
              tables = slice_set self.old.tables (class_number table.entry.class)
                  (Some table.entry);
            }
            ) }
        ensures same { OnErr result (self.new ≡ self.old) }
        ensures handed_back { IfErr result (λ e. e.table ≡ table.entry) }
        ensures honest { TablesAreRight self.old.tables → IsRight table.entry
            → TablesAreRight self.new.tables }
    {
        self.tables.add(table)
    }
}

impl<'a, A: Allocator> Values for WholeTables<'a, A> {
    ghost source = { whole_source };

    fn value(&mut self, p: &Position) -> Result<Value, ProbeFault>
        // Many clauses: those of `Values`, in the terms of these tables, and what only these tables promise.
        ensures game { TablesAreRight self.old.tables → IfOk result (IsValueOf p.now) }
        ensures no_damage { TablesAreRight self.old.tables → IfErr result IsNotDamage }
        ensures stays_honest { TablesAreRight self.old.tables → TablesAreRight self.new.tables }
        ensures given { IsCellAnswer self.old.tables p.now result }
        ensures failed_so { (c : AClass) (f : ASourceFault) → IsOf c p.now
            → IsErrOf result (ProbeFault.TableRead f) → ⊥ }
        ensures fails_as_before { (c : AClass) (f : ASourceFault) → ⊥ → ⊥ }
        ensures no_table { (c : AClass) → IsErrOf result (ProbeFault.NoTable c)
            ↔ (IsOf c p.now × (is_some (table_of self.old.tables c) ≡ false)) }
        ensures damaged { (c : AClass) (n : ℕ) → IsErrOf result (ProbeFault.PageDamaged c n)
            → IsOf c p.now × (n ≡ page_number p.now) }
        ensures same_tables { (c : AClass)
            → is_some (table_of self.new.tables c) ≡ is_some (table_of self.old.tables c) }
        ensures asked { self.new.asked ≡ next_count self.old.asked }
        ensures failures { 0 ≡ faults_after 0 result }
        ensures reported { (c : AClass) (t : Seen) → IsOf c p.now
            → table_of self.old.tables c ≡ Some t
            → result ≡ Ok (value_of (slice_index t.cells (index_of p.now))) }
        ensures same { self.new.tables ≡ self.old.tables }
    {
        self.asked = self.asked.saturating_add(1);
        let (class, _) = class_of(p);
        let Some(table) = self.tables.table(class) else {
            return Err(ProbeFault::NoTable(class));
        };
        Ok(table.at(p))
    }

    fn holds(&self, class: Class) -> bool {
        self.tables.has(class)
    }

    fn asked(&self) -> u64 {
        self.asked
    }

    fn failures(&self) -> u64 {
        0
    }
}

/// The cells of a page of a table, and zeros after the last cell.
fn copy_cells(cells: &[u8], number: u32, into: &mut [u8; PAGE_CELLS])
    requires { 4096 * number ≤ length cells.now }
    ensures { into.new ≡ page_cells_of (drop (4096 * number) cells.now) }
{
    let (_, rest) = cells.split_at(PAGE_CELLS * number as usize);
    let count = rest.len().min(PAGE_CELLS);
    *into = [0; PAGE_CELLS];
    into[..count].copy_from_slice(&rest[..count]);
}

impl<'a, A: Allocator> CellPages for WholeTables<'a, A> {
    fn read_cells(
        &mut self,
        class: Class,
        number: u32,
        into: &mut [u8; PAGE_CELLS],
    ) -> Result<(), ProbeFault> {
        self.asked = self.asked.saturating_add(1);
        let Some(table) = self.tables.table(class) else {
            return Err(ProbeFault::NoTable(class));
        };
        copy_cells(table.cells(), number, into);
        Ok(())
    }
}
