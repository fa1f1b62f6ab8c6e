//! Stores of table files.
ghost use Rattle.std.specs.Prelude.{◌≡◌, ℕ, Bool, true, false, List, Option, Result, Ok, Err, IsOk, IfOk, MatchResult};
ghost use Rattle.study_material.specs.declared.class.Class.{Class as AClass};
ghost use Rattle.study_values.specs.declared.fault.SourceFault.{SourceFault as ASourceFault};
ghost use Rattle.study_tablefile.specs.PageSource.{Question, of_header};
ghost use Rattle.study_script.specs.declared.store.StoreFault.{StoreFault as AStoreFault};
ghost use Rattle.study_script.specs.State.{IsGiven, IsOpened, IsQuestionOf, unknown_after_write, forgotten_faults};
ghost use Rattle.study_script.specs.Stores.{IsRightFile, IsRightSource, GivesBytes};

use std::io::{Read, Write};
use study_material::Class;
use study_tablefile::PageSource;
use thiserror::Error;

/// Why a table file is not opened.
#[derive(Clone, Copy, Debug, PartialEq, Eq, Error)]
pub enum StoreFault {
    #[error("there is no such file")]
    NoFile,
    #[error("the device of a table failed")]
    Device,
}

/// The files of tables, one for each class.
pub trait TableStore {
    type Reader: Read + Drop;

    type Writer: Write + Drop;

    type Pages: PageSource + Drop;

    /// Each table that is read from the file of this class, in this call and all later ones, is right: by pages, or from front to back.
    ghost honest: { Self → Bool → AClass → Type 0 };

    /// What is known of each class's file: its bytes from front to back, or the fault of opening it.
    ghost files: { Self → AClass → Option (Result (List ℕ) AStoreFault) };

    /// What is known of each class's source of pages: its header, or the fault of opening it.
    ghost headers: { Self → AClass → Option (Result (List ℕ) AStoreFault) };

    /// The faults for which reading each class's source of pages may fail.
    ghost faults: { Self → AClass → ASourceFault → Bool };

    /// Opens a file to be read from front to back.
    fn reader(&mut self, class: Class) -> Result<Self::Reader, StoreFault>
        ensures right { honest self.old false class
            → IfOk result (λ r. IsRightFile (Self.Reader.remaining r)) }
        ensures given { MatchResult result (λ r.
            GivesBytes (files self.old class) (Self.Reader.remaining r))
            (λ fault. IsGiven (files self.old class) (Err fault)) }
        ensures stays { (by_pages : Bool) (c : AClass) → honest self.old by_pages c
            → honest self.new by_pages c }
        ensures files { (c : AClass) → files self.new c ≡ files self.old c }
        ensures headers { (c : AClass) → headers self.new c ≡ headers self.old c }
        ensures faults { (c : AClass) (f : ASourceFault)
            → faults self.new c f ≡ faults self.old c f };

    /// Opens a file to be written from its beginning. The class's file and source are unknown from then on.
    fn writer(&mut self, class: Class) -> Result<Self::Writer, StoreFault>
        ensures stays { (by_pages : Bool) (c : AClass) → honest self.old by_pages c
            → honest self.new by_pages c }
        ensures files { (c : AClass)
            → files self.new c ≡ unknown_after_write class (files self.old) c }
        ensures headers { (c : AClass)
            → headers self.new c ≡ unknown_after_write class (headers self.old) c }
        ensures faults { (c : AClass) (f : ASourceFault)
            → faults self.new c f ≡ forgotten_faults class (faults self.old) c f };

    /// Opens a file to be read by pages.
    fn pages(&mut self, class: Class) -> Result<Self::Pages, StoreFault>
        ensures opened { IsOk result → IsOpened (headers self.old class) }
        ensures right { honest self.old true class
            → IfOk result (λ source. IsRightSource Self.Pages.honest source) }
        ensures given { MatchResult result (λ source. (bytes : List ℕ)
            → Self.Pages.gives source of_header (Ok bytes)
            → IsGiven (headers self.old class) (Ok bytes))
            (λ fault. IsGiven (headers self.old class) (Err fault)) }
        ensures fails { IfOk result (λ source. (q : Question) (f : ASourceFault)
            → IsQuestionOf class q → Self.Pages.gives source q (Err f)
            → faults self.old class f ≡ true) }
        ensures stays { (by_pages : Bool) (c : AClass) → honest self.old by_pages c
            → honest self.new by_pages c }
        ensures files { (c : AClass) → files self.new c ≡ files self.old c }
        ensures headers { (c : AClass) → headers self.new c ≡ headers self.old c }
        ensures faults { (c : AClass) (f : ASourceFault)
            → faults self.new c f ≡ faults self.old c f };
}
