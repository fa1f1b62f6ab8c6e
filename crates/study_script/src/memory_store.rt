//! A store of tables in memory, which fails at a place that a test sets.
ghost use Rattle.std.specs.Prelude.{◌≡◌, None, is_some, length, slice_set, IfOk, IfErr};
ghost use Rattle.study_material.specs.Class.{class_number};
ghost use Rattle.study_material.specs.declared.class.Class.{Class as AClass};
ghost use Rattle.study_script.specs.Memory.{memory_file, file_known, header_known, memory_faults, IsHonestFile, IsFaultOf};

use crate::store::{StoreFault, TableStore};
use std::alloc::Allocator;
use std::cell::RefCell;
use std::io;
use std::io::{ErrorKind, Write};
use study_material::{CLASS_COUNT, Class};
use study_tablefile::MemorySource;
use study_text::{MemoryReader, MemoryWriter};

/// The file of a class.
#[derive(Clone, Copy)]
pub enum MemoryFile<'f> {
    Absent,
    /// A file that exists and is not opened, such as one without permission.
    Closed,
    Bytes(&'f [u8]),
    /// A file that was opened to be written; this store does not read it back.
    Written,
}

/// Files in memory, one for each class, and writers for those that are saved.
#[derive(Drop)]
pub struct MemoryStore<'f, 'w, 'a, A: Allocator> {
    files: [MemoryFile<'f>; CLASS_COUNT],
    /// The writers of files to come, in the order in which they are opened. Once they are used up no file is opened to be written.
    writers: &'w [RefCell<MemoryWriter<'a, A>>],
    /// The number of files opened to be written.
    opened: usize,
    /// The number of bytes after which a file that is read from front to back fails; `None`: never.
    pub fails_after: Option<usize>,
    /// The number of the request for a header or a page that fails in each source, counted from 0; `None`: none.
    pub fails_at: Option<u64>,
    ghost full: { length files ≡ 36 },
}

impl<'f, 'w, 'a, A: Allocator> MemoryStore<'f, 'w, 'a, A> {
    /// A store without files, whose devices do not fail.
    pub fn new(writers: &'w [RefCell<MemoryWriter<'a, A>>]) -> Self
        ensures files { (c : AClass) → memory_file result.files c ≡ MemoryFile.Absent }
        ensures plan { (result.fails_after ≡ None) × (result.fails_at ≡ None) }
        ensures writers { (result.writers ≡ writers.entry) × (result.opened ≡ 0) }
    {
        MemoryStore {
            files: [MemoryFile::Absent; CLASS_COUNT],
            writers,
            opened: 0,
            fails_after: None,
            fails_at: None,
        }
    }

    /// Puts the file of a class, in place of the one before.
    pub fn put(&mut self, class: Class, file: MemoryFile<'f>)
        ensures files { self.new.files ≡ slice_set self.old.files (class_number class) file.entry }
        ensures places { length self.old.files ≡ 36 }
        ensures plan { (self.new.fails_after ≡ self.old.fails_after)
            × (self.new.fails_at ≡ self.old.fails_at) }
        ensures writers { (self.new.writers ≡ self.old.writers)
            × (self.new.opened ≡ self.old.opened) }
    {
        self.files[class as usize] = file;
    }

    fn bytes(&self, class: Class) -> Result<&'f [u8], StoreFault>
        ensures ok { IfOk result (λ bytes.
            memory_file self.now.files class ≡ MemoryFile.Bytes bytes) }
        ensures err { IfErr result (λ fault. IsFaultOf fault (memory_file self.now.files class)) }
    {
        match self.files[class as usize] {
            MemoryFile::Bytes(bytes) => Ok(bytes),
            MemoryFile::Absent => Err(StoreFault::NoFile),
            MemoryFile::Closed | MemoryFile::Written => Err(StoreFault::Device),
        }
    }
}

impl<'f, 'w, 'a, A: Allocator> TableStore for MemoryStore<'f, 'w, 'a, A> {
    type Reader = MemoryReader<'f>;

    type Writer = SharedWriter<'w, 'a, A>;

    type Pages = MemorySource<'f>;

    ghost honest = { λ s by_pages c. IsHonestFile by_pages (memory_file s.files c) };

    ghost files = { λ s c. file_known (memory_file s.files c) };

    ghost headers = { λ s c. header_known (memory_file s.files c) };

    ghost faults = { λ s c f. memory_faults (is_some s.fails_at) (memory_file s.files c) c f };

    fn reader(&mut self, class: Class) -> Result<MemoryReader<'f>, StoreFault> {
        let text = self.bytes(class)?;
        Ok(MemoryReader {
            text,
            given: 0,
            fails_after: self.fails_after,
            recovers: false,
            kind: ErrorKind::Other,
            errors: 0,
        })
    }

    fn writer(&mut self, class: Class) -> Result<SharedWriter<'w, 'a, A>, StoreFault> {
        self.put(class, MemoryFile::Written);
        match self.writers.get(self.opened) {
            None => Err(StoreFault::Device),
            Some(writer) => {
                self.opened += 1;
                Ok(SharedWriter { writer })
            }
        }
    }

    fn pages(&mut self, class: Class) -> Result<MemorySource<'f>, StoreFault> {
        let text = self.bytes(class)?;
        Ok(MemorySource {
            text,
            asked: 0,
            fails_at: self.fails_at,
            failures: 0,
        })
    }
}

/// A writer that the store shares with its owner. The contents of a cell are not known to a clause.
#[derive(Drop)]
pub struct SharedWriter<'w, 'a, A: Allocator> {
    writer: &'w RefCell<MemoryWriter<'a, A>>,
}

impl<'w, 'a, A: Allocator> Write for SharedWriter<'w, 'a, A> {
    fn write(&mut self, buf: &[u8]) -> io::Result<usize> {
        self.writer.try_borrow_mut()?.write(buf)
    }

    fn flush(&mut self) -> io::Result<()> {
        self.writer.try_borrow_mut()?.flush()
    }
}
