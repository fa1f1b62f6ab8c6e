//! A store of tables over the files of a request.
ghost use Rattle.std.specs.Prelude.{◌≡◌, false, replicate, length, IfOk, IfErr};
ghost use Rattle.study_web.specs.Spans.{bytes_given, header_given, file_in, IsHonestIn};
ghost use Rattle.study_web.specs.Store.{known_file, faults_known, IsFileGiven, IsWithheld};

use crate::file_spans::{FileSpan, file_in};
use crate::saved::{Saved, SavedFile};
use std::alloc::Allocator;
use study_material::{CLASS_COUNT, Class};
use study_script::{StoreFault, TableStore};
use study_tablefile::MemorySource;
use study_text::MemoryReader;

/// The files of a request, and cells for those that a script saves: one for each class, in the order of the class list. A class without a cell is not
/// saved.
#[derive(Drop)]
pub struct SpanStore<'f, 'w, 'a, A: Allocator> {
    alloc: &'a A,
    spans: &'f [FileSpan],
    bytes: &'f [u8],
    saved: &'w [Saved<'a, A>],
    /// The classes whose files were opened for writing.
    written: [bool; CLASS_COUNT],
    ghost full: { length written ≡ 36 },
}

impl<'f, 'w, 'a, A: Allocator> SpanStore<'f, 'w, 'a, A> {
    pub fn new(
        alloc: &'a A,
        spans: &'f [FileSpan],
        bytes: &'f [u8],
        saved: &'w [Saved<'a, A>],
    ) -> Self
        ensures spans { result.spans.now ≡ spans.now }
        ensures bytes { result.bytes.now ≡ bytes.now }
        ensures written { result.written ≡ replicate 36 false }
    {
        SpanStore {
            alloc,
            spans,
            bytes,
            saved,
            written: [false; CLASS_COUNT],
        }
    }

    /// The file of a class; over this store, a file that was written cannot be read again.
    fn file(&self, class: Class) -> Result<&'f [u8], StoreFault>
        ensures ok { IfOk result (λ file.
            IsFileGiven self.now.spans.now self.now.bytes.now self.now.written class file.now) }
        ensures err { IfErr result
            (IsWithheld self.now.spans.now self.now.bytes.now self.now.written class) }
    {
        if self.written[class as usize] {
            return Err(StoreFault::Device);
        }
        match file_in(self.spans, self.bytes, class) {
            Some(file) => Ok(file),
            None => Err(StoreFault::NoFile),
        }
    }
}

impl<'f, 'w, 'a, A: Allocator> TableStore for SpanStore<'f, 'w, 'a, A> {
    type Reader = MemoryReader<'f>;

    type Writer = SavedFile<'w, 'a, A>;

    type Pages = MemorySource<'f>;

    ghost honest = { λ s by_pages c. IsHonestIn by_pages (file_in s.spans.now s.bytes.now c) };

    ghost files = { λ s c. known_file bytes_given s.spans.now s.bytes.now s.written c };

    ghost headers = { λ s c. known_file header_given s.spans.now s.bytes.now s.written c };

    ghost faults = { λ s c f. faults_known s.spans.now s.bytes.now s.written c f };

    fn reader(&mut self, class: Class) -> Result<MemoryReader<'f>, StoreFault> {
        match self.file(class) {
            Ok(file) => Ok(MemoryReader::new(file)),
            Err(fault) => Err(fault),
        }
    }

    fn writer(&mut self, class: Class) -> Result<SavedFile<'w, 'a, A>, StoreFault> {
        self.written[class as usize] = true;
        match self.saved.get(class as usize) {
            None => Err(StoreFault::Device),
            Some(cell) => match SavedFile::new(self.alloc, cell) {
                Ok(file) => Ok(file),
                Err(_) => Err(StoreFault::Device),
            },
        }
    }

    fn pages(&mut self, class: Class) -> Result<MemorySource<'f>, StoreFault> {
        match self.file(class) {
            Ok(text) => Ok(MemorySource {
                text,
                asked: 0,
                fails_at: None,
                failures: 0,
            }),
            Err(fault) => Err(fault),
        }
    }
}
