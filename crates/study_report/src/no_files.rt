//! A store without files, for a report whose tables are loaded before its first line.
ghost use Rattle.std.specs.Prelude.{◌≡◌, None, Err, true};

use std::io::{Empty, Sink};
use study_material::Class;
use study_script::{StoreFault, TableStore};
use study_tablefile::PageSource;

/// A store without a file of any class, for tables that are read from such sources.
#[derive(Drop)]
pub struct NoFiles<P: PageSource> {
    source: Option<P>,
}

impl<P: PageSource> NoFiles<P> {
    /// A store without a file of any class.
    pub fn new() -> Self
        ensures { result.source ≡ None }
    {
        NoFiles { source: None }
    }
}

// A report opens no file, so nothing has to be known of any.
impl<P: PageSource> TableStore for NoFiles<P> {
    type Reader = Empty;

    type Writer = Sink;

    type Pages = P;

    ghost honest = { λ s by_pages c. ⊥ };

    ghost files = { λ s c. None };

    ghost headers = { λ s c. None };

    ghost faults = { λ s c f. true };

    fn reader(&mut self, _class: Class) -> Result<Empty, StoreFault>
        ensures { result ≡ Err StoreFault.NoFile }
    {
        Err(StoreFault::NoFile)
    }

    fn writer(&mut self, _class: Class) -> Result<Sink, StoreFault>
        ensures { result ≡ Err StoreFault.Device }
    {
        Err(StoreFault::Device)
    }

    fn pages(&mut self, _class: Class) -> Result<P, StoreFault>
        ensures { result ≡ Err StoreFault.NoFile }
    {
        Err(StoreFault::NoFile)
    }
}
