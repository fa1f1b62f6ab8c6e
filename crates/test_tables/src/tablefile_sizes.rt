//! Tables of zero cells, written byte by byte and read back byte by byte.
use crate::texts::{are_same, read, text_of_table, zero_table};
use study_material::Class;

/// Tables of one page, of some, and of a class with a pawn are written as this many bytes, which are read as these tables.
#[test]
fn tables_come_back(rt: HostRuntime) {
    let alloc = rt.alloc();
    for (class, bytes) in [
        (Class::KK, 4_192),
        (Class::KNK, 82_624),
        (Class::KPK, 264_256),
    ] {
        let table = zero_table(&rt, &alloc, class);
        let text = text_of_table(&rt, &alloc, &table);
        assert!(rt; text.len() == bytes, "{class:?}");
        let again = read(&rt, &alloc, text.as_slice());
        assert!(rt;
            again.class() == class && are_same(&again, &table),
            "{class:?}"
        );
    }
}
