//! Files that a script saves.

use std::alloc::{AllocError, Allocator};
use std::cell::RefCell;
use std::io;
use std::io::{ErrorKind, Write};

/// The bytes of a file that a script saves; `None` if it saved none. A file that is saved again starts empty.
pub type Saved<'a, A> = RefCell<Option<Vec<u8, &'a A>>>;

/// A cell for each class, in the order of the class list; all are `None`.
///
/// No contract: no clause can name the content of a cell. Tests check it.
pub fn none_saved<'a, A: Allocator>(alloc: &'a A) -> Result<Vec<Saved<'a, A>, &'a A>, AllocError> {
    let mut cells = Vec::new(alloc);
    for _ in 0..36u8 {
        cells.push(RefCell::new(None))?;
    }
    Ok(cells)
}

/// The writer of such a file. No clause can name the content of a cell.
#[derive(Drop)]
pub struct SavedFile<'w, 'a, A: Allocator> {
    cell: &'w Saved<'a, A>,
}

impl<'w, 'a, A: Allocator> SavedFile<'w, 'a, A> {
    /// Starts the file again, empty.
    ///
    /// No contract: no clause can name the content of a cell. Tests check it.
    pub fn new(alloc: &'a A, cell: &'w Saved<'a, A>) -> io::Result<Self> {
        *cell.try_borrow_mut()? = Some(Vec::new(alloc));
        Ok(SavedFile { cell })
    }
}

impl<'w, 'a, A: Allocator> Write for SavedFile<'w, 'a, A> {
    fn write(&mut self, buf: &[u8]) -> io::Result<usize> {
        let mut file = self.cell.try_borrow_mut()?;
        match &mut *file {
            None => Err(io::Error::from(ErrorKind::Other)),
            Some(bytes) => bytes.write(buf),
        }
    }

    fn flush(&mut self) -> io::Result<()> {
        Ok(())
    }
}
