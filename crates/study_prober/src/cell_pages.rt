//! Values whose tables can be read a page at a time, too.
ghost use Rattle.std.specs.Prelude.{◌≡◌, ◌↔◌, ◌<◌, ℕ, false, OnOk, IfErr, IsErrOf};
ghost use Rattle.study_material.specs.declared.class.Class.{Class as AClass};
ghost use Rattle.study_text.specs.Counts.{next_count};
ghost use Rattle.study_values.specs.Size.{pages_of};
ghost use Rattle.study_values.specs.Values.{IsNotDamage};
ghost use Rattle.study_values.specs.declared.fault.SourceFault.{SourceFault as ASourceFault};
ghost use Rattle.study_prober.specs.CellPages.{AreValuesOf, page_faults_after};

use study_material::Class;
use study_values::{PAGE_CELLS, ProbeFault, Values};

/// A count of faults after a page was read.
pub fn failures_after_page(count: u64, read: &Result<(), ProbeFault>) -> u64
    ensures { result ≡ page_faults_after count read.now }
{
    match read {
        Err(ProbeFault::TableRead(_) | ProbeFault::PageDamaged(_, _)) => count.saturating_add(1),
        _ => count,
    }
}

/// Values from tables whose cells are also read a page at a time: the values of 4,096 numbers by one call.
pub trait CellPages: Values {
    /// Reads the cells of a page of a class, pages counted from 0. It counts as a probe.
    fn read_cells(
        &mut self,
        class: Class,
        number: u32,
        into: &mut [u8; PAGE_CELLS],
    ) -> Result<(), ProbeFault>
        // Many clauses: those of a probe, for a page in place of a position.
        requires { number < pages_of class }
        ensures game { Self.source.is_honest self.old
            → OnOk result (AreValuesOf class number into.new) }
        ensures no_damage { Self.source.is_honest self.old → IfErr result IsNotDamage }
        ensures stays_honest { Self.source.is_honest self.old → Self.source.is_honest self.new }
        ensures failed_so { (f : ASourceFault) → IsErrOf result (ProbeFault.TableRead f)
            → Self.source.may_fail self.old class f }
        ensures fails_as_before { (c : AClass) (f : ASourceFault)
            → Self.source.may_fail self.new c f
            → Self.source.may_fail self.old c f }
        ensures no_table { (c : AClass) → IsErrOf result (ProbeFault.NoTable c)
            ↔ ((c ≡ class) × (Self.source.held self.old class ≡ false)) }
        ensures damaged { (c : AClass) (n : ℕ) → IsErrOf result (ProbeFault.PageDamaged c n)
            → (c ≡ class) × (n ≡ number) }
        ensures same_tables { (c : AClass)
            → Self.source.held self.new c ≡ Self.source.held self.old c }
        ensures asked { Self.source.asked_of self.new ≡ next_count (Self.source.asked_of self.old) }
        ensures failures { Self.source.failed_of self.new
            ≡ page_faults_after (Self.source.failed_of self.old) result };
}
