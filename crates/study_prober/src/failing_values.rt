//! Values that fail at a probe that a test sets.
ghost use Rattle.std.specs.Prelude.{◌≡◌, ◌↔◌, ◌⊎◌, ℕ, Some, Err, false, IfOk, IfErr, IsErrOf};
ghost use Rattle.study_material.specs.declared.class.Class.{Class as AClass};
ghost use Rattle.study_material.specs.Class.{IsOf};
ghost use Rattle.study_values.specs.Game.{IsValueOf};
ghost use Rattle.study_text.specs.Counts.{next_count};
ghost use Rattle.study_values.specs.declared.fault.SourceFault.{SourceFault as ASourceFault};
ghost use Rattle.study_values.specs.declared.fault.SourceFault.TheVariants.{Device};
ghost use Rattle.study_values.specs.Values.{IsNotDamage, faults_after, page_number};

use crate::cell_pages::{CellPages, failures_after_page};
use study_board::Position;
use study_material::{Class, class_of};
use study_values::{PAGE_CELLS, ProbeFault, SourceFault, Value, Values, failures_after};

/// The values of another source, except that the device of the table fails at one probe.
#[derive(Drop)]
pub struct FailingValues<V: Values> {
    pub values: V,
    /// The number of probes so far.
    pub asked: u64,
    /// The number of the failing probe, counted from 0. For a position whose class has no table the answer is that of `values`.
    pub fails_at: Option<u64>,
    /// The number of failures of a device or a page.
    pub failures: u64,
}

impl<V: Values> FailingValues<V> {
    /// Values with one failing probe, counted from 0. Nothing has been probed yet.
    pub fn new(values: V, fails_at: u64) -> Self
        ensures { result ≡ record {
          values = values;
          asked = 0;
          fails_at = Some fails_at;
          failures = 0;
        } }
    {
        FailingValues {
            values,
            asked: 0,
            fails_at: Some(fails_at),
            failures: 0,
        }
    }
}

impl<V: Values> Values for FailingValues<V> {
    ghost use Rattle.study_prober.specs.FailingValues.{FailsNext, IsFailingAnswer, failing_source};

    ghost source = { failing_source V.source };

    fn value(&mut self, p: &Position) -> Result<Value, ProbeFault>
        // Many clauses: those of `Values`, in the terms of these tables, and what only these tables promise.
        ensures game { V.source.is_honest self.old.values → IfOk result (IsValueOf p.now) }
        ensures no_damage { V.source.is_honest self.old.values → IfErr result IsNotDamage }
        ensures stays_honest { V.source.is_honest self.old.values
            → V.source.is_honest self.new.values }
        ensures given { IsFailingAnswer V.source self.old p.now result }
        ensures failed_so { (c : AClass) (f : ASourceFault) → IsOf c p.now
            → IsErrOf result (ProbeFault.TableRead f)
            → (f ≡ Device) ⊎ V.source.may_fail self.old.values c f }
        ensures fails_as_before { (c : AClass) (f : ASourceFault) → (f ≡ Device)
            ⊎ V.source.may_fail self.new.values c f
            → (f ≡ Device) ⊎ V.source.may_fail self.old.values c f }
        ensures no_table { (c : AClass) → IsErrOf result (ProbeFault.NoTable c)
            ↔ (IsOf c p.now × (V.source.held self.old.values c ≡ false)) }
        ensures damaged { (c : AClass) (n : ℕ) → IsErrOf result (ProbeFault.PageDamaged c n)
            → IsOf c p.now × (n ≡ page_number p.now) }
        ensures same_tables { (c : AClass)
            → V.source.held self.new.values c ≡ V.source.held self.old.values c }
        ensures asked { self.new.asked ≡ next_count self.old.asked }
        ensures failures { self.new.failures ≡ faults_after self.old.failures result }
        ensures fails { FailsNext V.source self.old p.now
            → result ≡ Err (ProbeFault.TableRead SourceFault.Device) }
        ensures not_asked { FailsNext V.source self.old p.now → self.new.values ≡ self.old.values }
        ensures same { self.new.fails_at ≡ self.old.fails_at }

        // Any other probe is passed to the values, once, and returns an answer that they may give.
        ensures passed { (FailsNext V.source self.old p.now → ⊥)
            → V.source.gives self.old.values p.now result }
        ensures asked_on { (FailsNext V.source self.old p.now → ⊥)
            → V.source.asked_of self.new.values ≡ next_count (V.source.asked_of self.old.values) }
        ensures failures_on { (FailsNext V.source self.old p.now → ⊥)
            → V.source.failed_of self.new.values
            ≡ faults_after (V.source.failed_of self.old.values) result }
    {
        let number = self.asked;
        self.asked = self.asked.saturating_add(1);
        let (class, _) = class_of(p);
        let answer = if self.fails_at == Some(number) && self.values.holds(class) {
            Err(ProbeFault::TableRead(SourceFault::Device))
        } else {
            self.values.value(p)
        };
        self.failures = failures_after(self.failures, &answer);
        answer
    }

    fn holds(&self, class: Class) -> bool {
        self.values.holds(class)
    }

    fn asked(&self) -> u64 {
        self.asked
    }

    fn failures(&self) -> u64 {
        self.failures
    }
}

impl<V: CellPages> CellPages for FailingValues<V> {
    fn read_cells(
        &mut self,
        class: Class,
        number: u32,
        into: &mut [u8; PAGE_CELLS],
    ) -> Result<(), ProbeFault> {
        let asked = self.asked;
        self.asked = self.asked.saturating_add(1);
        let answer = if self.fails_at == Some(asked) && self.values.holds(class) {
            Err(ProbeFault::TableRead(SourceFault::Device))
        } else {
            self.values.read_cells(class, number, into)
        };
        self.failures = failures_after_page(self.failures, &answer);
        answer
    }
}
