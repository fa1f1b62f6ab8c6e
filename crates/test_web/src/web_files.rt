//! Files that are made from files. Digests of cells are an independent program's.

use sha2::{Digest, Sha256};
use std::alloc::Allocator;
use std::test::Fail;
use study_material::Class;
use study_tablefile::read_table;
use study_values::FileFault;
use study_web::{FileSpan, MakeFault, file_in, make_file};

const KK_DIGEST: &str = "bfe492baf731a0dbf6e1e050f5bc3fe8c1b049383194dcdf82f023bfa409f462";

const KRK_DIGEST: &str = "c44ba016cdd825eddc9b922d55db18a9147c60cb9978c9a8b62eb20a44c0f5ba";

/// The span of a file that begins there.
/// No contract: only tests call it, and the files that are made from it are compared with digests.
pub fn span(class: Class, start: usize, file: &[u8]) -> FileSpan {
    FileSpan {
        class: class as usize,
        start,
        length: file.len(),
    }
}

/// Whether the file has the table of the class whose cells have this digest.
fn has_table<A: Allocator>(
    alloc: &A,
    file: &[u8],
    class: Class,
    digest: &str,
) -> Result<bool, Fail> {
    let mut reader = file;
    let table = read_table(alloc, &mut reader)?;
    let mut hasher = Sha256::new();
    hasher.update(table.cells());
    let mut hex = String::new(alloc);
    for byte in hasher.finalize().as_slice() {
        write!(hex, "{byte:02x}")?;
    }
    Ok(table.class() == class && hex.as_str() == digest)
}

/// KK from nothing, and KRK from the file of KK.
#[test]
fn tables_are_made_from_files(rt: HostRuntime) -> Result<(), Fail> {
    let alloc = rt.alloc();
    let kings = make_file(&alloc, Class::KK, &[], &[])?;
    assert!(rt; has_table(&alloc, kings.as_slice(), Class::KK, KK_DIGEST)?);
    let spans = [span(Class::KK, 0, kings.as_slice())];
    let rook = make_file(&alloc, Class::KRK, &spans, kings.as_slice())?;
    assert!(rt; has_table(&alloc, rook.as_slice(), Class::KRK, KRK_DIGEST)?);
    Ok(())
}

/// A needed file is missing, is damaged, or has another table.
#[test]
fn files_are_refused(rt: HostRuntime) -> Result<(), Fail> {
    let alloc = rt.alloc();
    let missing = make_file(&alloc, Class::KRK, &[], &[]).err();
    assert!(rt; missing == Some(MakeFault::MissingTable(Class::KK)));
    let mut kings = make_file(&alloc, Class::KK, &[], &[])?;
    let wrong = [span(Class::KQK, 0, kings.as_slice())];
    let other = make_file(&alloc, Class::KQKQ, &wrong, kings.as_slice()).err();
    assert!(rt; other == Some(MakeFault::OtherClass(Class::KQK, Class::KK)));
    let right = [span(Class::KK, 0, kings.as_slice())];
    if let Some(byte) = kings.as_mut_slice().get_mut(100) {
        *byte = 1;
    }
    let damaged = make_file(&alloc, Class::KRK, &right, kings.as_slice()).err();
    assert!(rt; damaged == Some(MakeFault::File(Class::KK, FileFault::PageDamaged(0))));
    Ok(())
}

/// The first span of the class that lies within the bytes is used; spans may overlap.
#[test]
fn spans_that_fit(rt: HostRuntime) -> Result<(), Fail> {
    let bytes = [1u8, 2, 3, 4];
    let at = |class: usize, start: usize, length: usize| FileSpan {
        class,
        start,
        length,
    };
    let spans = [
        at(0, 3, 2),
        at(0, usize::MAX, 1),
        at(36, 0, 1),
        at(1, 1, 3),
        at(0, 2, 2),
        at(0, 0, 4),
    ];
    assert!(rt; file_in(&spans, &bytes, Class::KK) == Some([3u8, 4].as_slice()));
    assert!(rt; file_in(&spans, &bytes, Class::KQK) == Some([2u8, 3, 4].as_slice()));
    assert!(rt; file_in(&spans, &bytes, Class::KPKP) == None);
    Ok(())
}
