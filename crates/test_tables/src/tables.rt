//! Tables that the tests build and change.
use std::alloc::Allocator;
use std::process::Abort;
use study_material::Class;
use study_retro::{BuildReport, BuildRoom, build, verify};
use study_table::{Table, TableSet};
use study_values::cells;

/// A table, built over the tables of a set, and the report.
pub fn table_of<'a, A: Allocator>(
    rt: &impl Abort,
    alloc: &'a A,
    tables: &TableSet<'a, A>,
    class: Class,
) -> (Table<'a, A>, BuildReport) {
    let room = BuildRoom::new(alloc, cells(class)).ok().expect(rt, "room");
    build(class, tables, room).ok().expect(rt, "a table")
}

/// Builds a table and adds it to the set; returns the report.
pub fn build_table<'a, A: Allocator>(
    rt: &impl Abort,
    alloc: &'a A,
    tables: &mut TableSet<'a, A>,
    class: Class,
) -> BuildReport {
    let (table, report) = table_of(rt, alloc, tables, class);
    assert!(rt; tables.add(table).is_ok());
    report
}

/// A set with the tables of these classes, built in order.
pub fn set_of<'a, A: Allocator>(
    rt: &impl Abort,
    alloc: &'a A,
    classes: &[Class],
) -> TableSet<'a, A> {
    let mut tables = TableSet::new(alloc).ok().expect(rt, "a set");
    for class in classes {
        let _report = build_table(rt, alloc, &mut tables, *class);
    }
    tables
}

/// A copy of the loaded table with one cell changed.
pub fn change_cell<'a, A: Allocator>(
    rt: &impl Abort,
    alloc: &'a A,
    tables: &TableSet<'a, A>,
    class: Class,
    number: usize,
    cell: u8,
) -> Table<'a, A> {
    let table = tables.table(class).expect(rt, "held");
    let mut cells = table.cells().to_vec(alloc).ok().expect(rt, "memory");
    assert!(rt; number < cells.len());
    cells[number] = cell;
    assert!(rt; cells.len() == study_values::cells(class) as usize);
    Table::from_cells(class, cells)
}

/// Whether the table, whose needs are in the set, is verified.
pub fn is_verified<'a, A: Allocator>(
    rt: &impl Abort,
    table: &Table<'a, A>,
    tables: &TableSet<'a, A>,
) -> bool {
    assert!(rt; tables.ready(table.class()));
    verify(table, tables)
}
