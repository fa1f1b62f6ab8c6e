//! Sources of values of positions.
ghost use Rattle.std.specs.Prelude.{◌≡◌, ◌↔◌, ℕ, false, IfOk, IfErr, IsErrOf};
ghost use Rattle.study_material.specs.declared.class.Class.{Class as AClass};
ghost use Rattle.study_material.specs.Class.{IsOf};
ghost use Rattle.study_values.specs.Game.{IsValueOf};
ghost use Rattle.study_text.specs.Counts.{next_count};
ghost use Rattle.study_values.specs.declared.fault.SourceFault.{SourceFault as ASourceFault};
ghost use Rattle.study_values.specs.Values.{IsNotDamage, ValueSource, faults_after, page_number};

use crate::fault::SourceFault;
use crate::value::Value;
use study_board::Position;
use study_material::Class;
use thiserror::Error;

/// Why a value could not be read.
#[derive(Clone, Copy, Debug, PartialEq, Eq, Error)]
pub enum ProbeFault {
    #[error("no table of {0:?} is held")]
    NoTable(Class),
    #[error("a table is not read: {0}")]
    TableRead(SourceFault),
    #[error("page {1} of {0:?} is damaged")]
    PageDamaged(Class, u32),
}

impl From<SourceFault> for ProbeFault {
    ghost use Rattle.std.specs.Prelude.{◌≡◌};
    ghost use Rattle.study_values.specs.declared.values.ProbeFault.TheVariants.{TableRead};

    ghost from_gives = { λ source fault. fault ≡ TableRead source };

    fn from(fault: SourceFault) -> ProbeFault {
        ProbeFault::TableRead(fault)
    }
}

/// A count of faults after an answer.
pub fn failures_after(count: u64, answer: &Result<Value, ProbeFault>) -> u64
    ensures { result ≡ faults_after count answer.now }
{
    match answer {
        Err(ProbeFault::TableRead(_) | ProbeFault::PageDamaged(_, _)) => count.saturating_add(1),
        _ => count,
    }
}

/// Returns the values of positions, and counts how often one was probed and how often a device or a page failed. Both
/// counts stay at the last value of their type.
pub trait Values: Drop {
    /// What is known of the values in each state. An implementation that does not specify its answers may give any.
    ghost source: { ValueSource Self };

    /// The value of a position.
    fn value(&mut self, p: &Position) -> Result<Value, ProbeFault>
        // Many clauses: each kind of answer, and what stays of the values and their counts.
        ensures game { source.is_honest self.old → IfOk result (IsValueOf p.now) }
        ensures no_damage { source.is_honest self.old → IfErr result IsNotDamage }
        ensures stays_honest { source.is_honest self.old → source.is_honest self.new }
        ensures given { source.gives self.old p.now result }
        ensures failed_so { (c : AClass) (f : ASourceFault) → IsOf c p.now
            → IsErrOf result (ProbeFault.TableRead f) → source.may_fail self.old c f }
        ensures fails_as_before { (c : AClass) (f : ASourceFault) → source.may_fail self.new c f
            → source.may_fail self.old c f }
        ensures no_table { (c : AClass) → IsErrOf result (ProbeFault.NoTable c)
            ↔ (IsOf c p.now × (source.held self.old c ≡ false)) }
        ensures damaged { (c : AClass) (n : ℕ) → IsErrOf result (ProbeFault.PageDamaged c n)
            → IsOf c p.now × (n ≡ page_number p.now) }
        ensures same_tables { (c : AClass) → source.held self.new c ≡ source.held self.old c }
        ensures asked { source.asked_of self.new ≡ next_count (source.asked_of self.old) }
        ensures failures { source.failed_of self.new
            ≡ faults_after (source.failed_of self.old) result };

    /// Whether a table of the class is loaded.
    fn holds(&self, class: Class) -> bool
        ensures { result ≡ source.held self.now class };

    /// The number of probes so far.
    fn asked(&self) -> u64
        ensures { result ≡ source.asked_of self.now };

    /// The number of failures of a device or a page so far.
    fn failures(&self) -> u64
        ensures { result ≡ source.failed_of self.now };
}
