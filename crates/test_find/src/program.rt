//! The program over a folder: the exit status, and what it writes to standard output and to standard error.

use std::alloc::Global;
use std::fs;
use std::test::Fail;
use study_find_program::{Options, Output, list_over_files};
use study_listing::{Filters, Request, Selection};
use study_material::Class;
use study_program::FolderStore;
use study_retro::{BuildRoom, build};
use study_script::TableStore;
use study_search::{Search, Theme};
use study_table::TableSet;
use study_tablefile::write_table;
use study_text::{MemoryWriter, WhenFull};
use study_values::cells;

/// The number of mutual zugzwangs of two kings: none, since each of their positions is drawn.
fn request() -> Request {
    Request::Positions(Selection {
        search: Search {
            class: Class::KK,
            theme: Theme::Zugzwang,
            side: None,
        },
        filters: Filters::none(),
    })
}

/// Whether the program ends so over the files of the folder, with so many bytes of room on standard output.
fn ends_so(rt: &HostRuntime, room: usize, status: u8, output: &str, errors: &str) -> bool {
    let alloc = rt.alloc();
    let options = Options {
        tables: "kings",
        pages: 1,
        output: Output::Count,
        progress: false,
        request: request(),
    };
    let mut out = MemoryWriter::with_room(&alloc, room, WhenFull::Fail);
    let mut said = MemoryWriter::new(&alloc);
    let ended = list_over_files(rt, &alloc, &options, &mut out, &mut said);
    ended == Some(status)
        && out.taken.as_slice() == output.as_bytes()
        && said.taken.as_slice() == errors.as_bytes()
}

/// Writes the table of two kings into the folder.
fn save_kings(rt: &HostRuntime, alloc: &Global) -> Result<(), Fail> {
    let set = TableSet::new(alloc)?;
    let room = BuildRoom::new(alloc, cells(Class::KK))?;
    let Ok((table, _)) = build(Class::KK, &set, room) else {
        return Err(Fail::new(format_args!("no table")));
    };
    let mut store = FolderStore::new(rt, alloc, "kings")?;
    let Ok(mut file) = store.writer(Class::KK) else {
        return Err(Fail::new(format_args!("no file")));
    };
    match write_table(&table, &mut file) {
        Ok(()) => Ok(()),
        Err(_) => Err(Fail::new(format_args!("not written"))),
    }
}

/// Without a table, with it, to a device that fails, and over a file that is cut.
#[test]
fn a_list_ends_by_its_files(rt: HostRuntime) -> Result<(), Fail> {
    let alloc = rt.alloc();
    let _absent = fs::remove_dir_all(&rt, "kings");
    assert!(&rt; ends_so(&rt, 10, 3, "", "studymine: NoTable KK\n"));
    fs::create_dir(&rt, "kings")?;
    save_kings(&rt, &alloc)?;
    assert!(&rt; ends_so(&rt, 10, 0, "0\n", ""));
    assert!(&rt; ends_so(&rt, 1, 3, "0", "studymine: WriteDevice\n"));
    fs::write(&rt, "kings/KK.dtm", b"STUDYDTM")?;
    let cut = "studymine: KK.dtm: TableRead Short\nstudymine: NoTable KK\n";
    assert!(&rt; ends_so(&rt, 10, 3, "", cut));
    Ok(())
}
