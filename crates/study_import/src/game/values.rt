//! Values for a tree whose marks are never read.
ghost use Rattle.std.specs.Prelude.{◌≡◌, true, Ok};
ghost use Rattle.study_values.specs.declared.value.Value.TheVariants.{Draw};

use study_board::Position;
use study_material::Class;
use study_values::{ProbeFault, Value, Values};

/// Each position is evaluated as a draw, and no table is needed. These values are not the game's.
#[derive(Drop)]
pub struct NoValues {
    pub asked: u64,
}

impl Values for NoValues {
    ghost source = { record {
      is_honest = λ v. ⊥;
      held = λ v c. true;
      gives = λ v p answer. answer ≡ Ok Draw;
      may_fail = λ v c f. ⊥;
      asked_of = λ v. v.asked;
      failed_of = λ v. 0;
    } };

    fn value(&mut self, p: &Position) -> Result<Value, ProbeFault> {
        self.asked = self.asked.saturating_add(1);
        Ok(Value::Draw)
    }

    fn holds(&self, class: Class) -> bool {
        true
    }

    fn asked(&self) -> u64 {
        self.asked
    }

    fn failures(&self) -> u64 {
        0
    }
}
