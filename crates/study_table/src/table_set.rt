//! Sets of tables, in which each table has the tables that it needs.
ghost use Rattle.std.specs.Prelude.{◌≡◌, ◌↔◌, Some, None, IfOk, IfErr, IsOk, IsSome, IsTrue, OnOk, OnErr, IsErrAnd, MatchOption, List, Option, slice_set};
ghost use Rattle.std.specs.Option.{option_copied};
ghost use Rattle.study_material.specs.declared.class.Class.{Class as AClass};
ghost use Rattle.study_material.specs.Needs.{needs_of};
ghost use Rattle.study_material.specs.Class.{class_number};
ghost use Rattle.study_table.specs.Table.{Table as Seen, table_of, IsReady, IsClosed};
ghost use Rattle.study_table.specs.TableSet.{first_missing, add_fault};

use crate::table::Table;
use std::alloc::{AllocError, Allocator};
use std::marker::Model;
use study_material::{CLASS_COUNT, Class, needs};
use thiserror::Error;

/// Why a table is not added.
#[derive(Clone, Copy, Debug, PartialEq, Eq, Error)]
pub enum AddFault {
    #[error("a table of this class is held already")]
    AlreadyHeld,
    #[error("no table of {0:?} is held")]
    MissingTable(Class),
}

/// A table that was not added, and the reason.
#[derive(Drop)]
pub struct AddRefused<'a, A: Allocator> {
    pub fault: AddFault,
    pub table: Table<'a, A>,
}

/// At most one table of each class; with each table the tables of all classes that its class needs.
#[derive(Drop)]
pub struct TableSet<'a, A: Allocator> {
    tables: Vec<Option<Table<'a, A>>, &'a A>,
}

impl<'a, A: Allocator> Model for TableSet<'a, A> {
    ghost use Rattle.std.specs.Prelude.{List, Option};
    ghost use Rattle.study_table.specs.Table.{Table as Seen, IsClosed};

    ghost Value = { List (Option Seen) };

    ghost view = { λ s. s.tables.items };

    ghost invariant = { λ s. IsClosed s.tables.items };
}

impl<'a, A: Allocator> TableSet<'a, A> {
    /// An empty set with room for a table of each class.
    pub fn new(alloc: &'a A) -> Result<Self, AllocError>
        ensures { IfOk result (λ s. (c : AClass) → table_of s c ≡ None) }
    {
        let mut tables = Vec::with_capacity(alloc, CLASS_COUNT)?;
        while tables.len() < CLASS_COUNT {
            tables.push_reserved(None);
        }
        Ok(TableSet { tables })
    }

    /// The table of a class, if it is loaded.
    pub fn table(&self, class: Class) -> Option<&Table<'a, A>>
        ensures value { option_copied result ≡ table_of self.now class }
        ensures closed { IsClosed self.now }
    {
        self.tables[class.number() as usize].as_ref()
    }

    /// Whether the table of a class is loaded.
    pub fn has(&self, class: Class) -> bool
        ensures { IsTrue result ↔ IsSome (table_of self.now class) }
    {
        self.table(class).is_some()
    }

    /// The first class that the class needs and whose table is not loaded.
    pub fn first_missing(&self, class: Class) -> Option<Class>
        ensures { result ≡ first_missing self.now (needs_of class) }
    {
        let needed = needs(class);
        for need in needed.as_slice() {
            if !self.has(*need) {
                return Some(*need);
            }
        }
        None
    }

    /// Whether all tables that the class needs are loaded.
    pub fn ready(&self, class: Class) -> bool
        ensures { IsTrue result ↔ IsReady self.now class }
    {
        self.first_missing(class).is_none()
    }

    /// Adds a table whose class is not loaded and whose needs are; any other table is returned with the reason.
    pub fn add(&mut self, table: Table<'a, A>) -> Result<(), AddRefused<'a, A>>
        ensures fault { MatchOption (add_fault self.old table.entry.class) (IsOk result) (λ fault.
            IsErrAnd result (λ e. e.fault ≡ fault)) }
        ensures added { OnOk result
            (self.new ≡ slice_set self.old (class_number table.entry.class) (Some table.entry)) }
        ensures same { OnErr result (self.new ≡ self.old) }
        ensures handed_back { IfErr result (λ e. e.table ≡ table.entry) }
    {
        let class = table.class();
        if self.has(class) {
            return Err(AddRefused {
                fault: AddFault::AlreadyHeld,
                table,
            });
        }
        if let Some(need) = self.first_missing(class) {
            return Err(AddRefused {
                fault: AddFault::MissingTable(need),
                table,
            });
        }
        self.tables[class.number() as usize] = Some(table);
        Ok(())
    }
}
