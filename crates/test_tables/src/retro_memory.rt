//! Memory for a table and for a set of tables, if it is refused.
use linked_list_allocator::LocalHeap;
use std::test::Fail;
use study_material::Class;
use study_retro::{BuildRoom, build};
use study_table::TableSet;

/// On heaps from too small to ample: both a set and a room are refused, then only the room, then neither, and then a table is built.
#[test]
fn a_set_and_a_room_are_refused_in_turn(rt: HostRuntime) -> Result<(), Fail> {
    let mut sets = 0u32;
    let mut rooms = 0u32;
    for step in 0..400usize {
        let heap = LocalHeap::new(rt.alloc(), 64 + step * 64)?;
        let Ok(set) = TableSet::new(&heap) else {
            assert!(rt; sets == 0 && rooms == 0, "{step}");
            continue;
        };
        sets = sets.saturating_add(1);
        let Ok(room) = BuildRoom::new(&heap, 1_280) else {
            assert!(rt; rooms == 0, "{step}");
            continue;
        };
        rooms = rooms.saturating_add(1);
        let (table, report) = build(Class::KK, &set, room).ok().ok_or("not built")?;
        assert!(rt; table.cells().len() == 1_280 && report.cells == 1_280);
    }
    assert!(rt; 0 < rooms && rooms < sets && sets < 400, "{rooms} {sets}");
    Ok(())
}
