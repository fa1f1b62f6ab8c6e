//! Tables of two kings, and of more men.
use std::alloc::Global;
use std::process::Abort;
use study_material::Class;
use study_prober::WholeTables;
use study_retro::{BuildRoom, build};
use study_script::Tables;
use study_table::TableSet;
use study_tablefile::MemorySource;
use study_values::cells;

/// Tables of which that of two kings is the only one.
pub fn two_kings<'a>(
    rt: &impl Abort,
    alloc: &'a Global,
) -> Tables<'a, MemorySource<'static>, Global> {
    built(rt, alloc, &["KK"])
}

/// The tables of these classes, lower ones first.
pub fn built<'a>(
    rt: &impl Abort,
    alloc: &'a Global,
    names: &[&str],
) -> Tables<'a, MemorySource<'static>, Global> {
    let mut set = TableSet::new(alloc).ok().expect(rt, "a set");
    for name in names {
        let class = Class::parse(name).ok().expect(rt, "a class");
        let room = BuildRoom::new(alloc, cells(class)).ok().expect(rt, "room");
        let (table, _) = build(class, &set, room).ok().expect(rt, "a table");
        assert!(rt; set.add(table).is_ok());
    }
    Tables::Whole(WholeTables::new(set))
}
