//! The value of a position, or a fault that the values can report.
ghost use Rattle.std.specs.Prelude.{IfOk, IfErr};
ghost use Rattle.study_values.specs.Game.{IsValueOf};
ghost use Rattle.study_material.specs.Needs.{NeedsClass};
ghost use Rattle.study_search.specs.Faults.{CanReport, HasSameTables};

use study_board::Position;
use study_values::{ProbeFault, Value, Values};

/// The value of a position.
pub fn value_of<V: Values>(p: &Position, values: &mut V) -> Result<Value, ProbeFault>
    ensures game { V.source.is_honest values.old → IfOk result (IsValueOf p.now) }
    ensures faults { IfErr result (CanReport V.source (NeedsClass p.now) values.old) }
    ensures honest { V.source.is_honest values.old → V.source.is_honest values.new }
    ensures tables { HasSameTables V.source values.old values.new }
{
    let _men = p.men();
    values.value(p)
}
