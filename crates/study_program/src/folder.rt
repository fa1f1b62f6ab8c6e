//! The table files in a folder, one for each class: `KQK.dtm`.
ghost use Rattle.std.specs.Prelude.{⊤, ◌≡◌, true, None, OnOk, OnErr, vec_len, length, ◌⊎◌, IfErr};
ghost use Rattle.std.specs.Io.KnownBytes.{Consumes};
ghost use Rattle.study_tablefile.specs.Reading.{IsShort};
ghost use Rattle.study_values.specs.declared.fault.SourceFault.TheVariants.{Device, Short};
ghost use Rattle.study_text.specs.Counts.{next_count};

use std::alloc::{AllocError, Allocator};
use std::io::{ErrorKind, Read, Seek, SeekFrom};
use std::rt::Files;
use std::{fs, io};
use study_material::{CLASS_COUNT, Class};
use study_script::{StoreFault, TableStore};
use study_tablefile::PageSource;
use study_values::{HEADER_BYTES, PAGE_BYTES, SourceFault};

/// The table files in a folder. The memory for their names is allocated once.
#[derive(Drop)]
pub struct FolderStore<'r, 'a, R: Files, A: Allocator> {
    files: &'r R,
    /// One for each class, in the order of the class list.
    paths: Vec<String<&'a A>, &'a A>,
    ghost full: { vec_len paths ≡ 36 },
}

impl<'r, 'a, R: Files, A: Allocator> FolderStore<'r, 'a, R, A> {
    /// The files of a folder; they need not exist.
    /// No contract: the type proves one path for each class, and nothing is known of the content of the files.
    pub fn new(files: &'r R, alloc: &'a A, folder: &str) -> Result<Self, AllocError> {
        let mut paths = Vec::with_capacity(alloc, CLASS_COUNT)?;
        for class in Class::all() {
            paths.push(path_in(alloc, folder, *class)?)?;
        }
        Ok(FolderStore { files, paths })
    }

    fn path(&self, class: Class) -> &str {
        self.paths[class as usize].as_str()
    }
}

fn path_in<'a, A: Allocator>(
    alloc: &'a A,
    folder: &str,
    class: Class,
) -> Result<String<&'a A>, AllocError> {
    let mut path = String::new(alloc);
    path.push_str(folder)?;
    path.push_str("/")?;
    path.push_str(class.name())?;
    path.push_str(".dtm")?;
    Ok(path)
}

/// Only a file that does not exist is `NoFile`.
fn fault_of(error: &io::Error) -> StoreFault {
    if error.kind() == ErrorKind::NotFound {
        StoreFault::NoFile
    } else {
        StoreFault::Device
    }
}

// Nothing is known of the content of files, so no class is trusted: the theorem covers runs that load no table; runs that load one are tested.
impl<'r, 'a, R: Files, A: Allocator> TableStore for FolderStore<'r, 'a, R, A> {
    type Reader = R::File;

    type Writer = R::File;

    type Pages = FilePages<R::File>;

    ghost honest = { λ s by_pages c. ⊥ };

    ghost files = { λ s c. None };

    ghost headers = { λ s c. None };

    ghost faults = { λ s c f. true };

    fn reader(&mut self, class: Class) -> Result<R::File, StoreFault> {
        match fs::open(self.files, self.path(class)) {
            Ok(file) => Ok(file),
            Err(error) => Err(fault_of(&error)),
        }
    }

    fn writer(&mut self, class: Class) -> Result<R::File, StoreFault> {
        match fs::create(self.files, self.path(class)) {
            Ok(file) => Ok(file),
            Err(error) => Err(fault_of(&error)),
        }
    }

    fn pages(&mut self, class: Class) -> Result<FilePages<R::File>, StoreFault> {
        match fs::open(self.files, self.path(class)) {
            Ok(file) => Ok(FilePages {
                file,
                asked: 0,
                failures: 0,
            }),
            Err(error) => Err(fault_of(&error)),
        }
    }
}

/// The pages of a file, read as they are needed.
#[derive(Drop)]
pub struct FilePages<F: Read + Seek + Drop> {
    pub file: F,
    /// The number of headers and pages requested. The count saturates.
    pub asked: u64,
    /// The number of requests that failed. The count saturates.
    pub failures: u64,
}

impl<F: Read + Seek + Drop> FilePages<F> {
    /// The bytes of the file from a place on, or a fault, which is counted.
    fn bytes(&mut self, start: u64, into: &mut [u8]) -> Result<(), SourceFault>
        ensures len { length into.new ≡ length into.old }
        ensures asked { self.new.asked ≡ next_count self.old.asked }
        ensures no_failure { OnOk result (self.new.failures ≡ self.old.failures) }
        ensures failure { OnErr result (self.new.failures ≡ next_count self.old.failures) }
    {
        self.asked = self.asked.saturating_add(1);
        let read = read_at(&mut self.file, start, into);
        if read.is_err() {
            self.failures = self.failures.saturating_add(1);
        }
        read
    }
}

fn read_at<F: Read + Seek>(file: &mut F, start: u64, into: &mut [u8]) -> Result<(), SourceFault>
    ensures { length into.new ≡ length into.old }
{
    if file.seek(SeekFrom::Start(start)).is_err() {
        return Err(SourceFault::Device);
    }
    fill(file, into)
}

/// Fills a buffer from a reader. Each of its errors ends the call, also one after which `read_exact` would try again.
fn fill<R: Read>(input: &mut R, buf: &mut [u8]) -> Result<(), SourceFault>
    ensures len { length buf.new ≡ length buf.old }
    ensures ok { OnOk result (Consumes (R.remaining input.old) (R.remaining input.new) buf.new) }
    ensures fault { IfErr result (λ e. (e ≡ Device)
        ⊎ ((e ≡ Short) × IsShort (R.remaining input.old) (length buf.old))) }
{
    let mut filled = 0usize;
    while filled < buf.len() {
        match input.read(&mut buf[filled..]) {
            Ok(0) => return Err(SourceFault::Short),
            Ok(n) => filled += n,
            Err(_) => return Err(SourceFault::Device),
        }
    }
    Ok(())
}

impl<F: Read + Seek + Drop> PageSource for FilePages<F> {
    ghost honest = { λ s t v. ⊥ };

    ghost gives = { λ s q a. ⊤ };

    ghost failed = { λ s. s.failures };

    ghost asked = { λ s. s.asked };

    fn header(&mut self, into: &mut [u8; HEADER_BYTES]) -> Result<(), SourceFault> {
        self.bytes(0, into)
    }

    fn page(&mut self, n: u32, into: &mut [u8; PAGE_BYTES]) -> Result<(), SourceFault> {
        self.bytes(HEADER_BYTES as u64 + PAGE_BYTES as u64 * n as u64, into)
    }

    fn failures(&self) -> u64 {
        self.failures
    }
}
