//! Building and verifying the table of a class.
ghost use Rattle.std.specs.Prelude.{◌≡◌, ◌↔◌, Some, IfOk, IsErrOf, IsTrue};
ghost use Rattle.study_material.specs.declared.class.Class.{Class as AClass};
ghost use Rattle.study_material.specs.Needs.{needs_of};
ghost use Rattle.study_values.specs.Number.{cells_of};
ghost use Rattle.study_table.specs.TableSet.{first_missing};
ghost use Rattle.study_table.specs.Table.{IsReady};
ghost use Rattle.study_table.specs.Sound.{IsRight, NeedsAreRight, HasFarPosition};
ghost use Rattle.study_retro.specs.Report.{IsGreatest, option_max, win_of, loss_of};

use crate::class_game::ClassGame;
use std::alloc::Allocator;
use study_levels::{BuildRoom, are_right, solve_cells};
use study_material::Class;
use study_table::{Table, TableSet};
use study_values::{Value, value_at};
use thiserror::Error;

/// Why a table is not built.
#[derive(Clone, Copy, Debug, PartialEq, Eq, Error)]
pub enum BuildFault {
    #[error("no table of {0:?} is held")]
    MissingTable(Class),
    #[error("some distance is above 254 plies")]
    DistanceTooLarge,
}

/// The report of a build. Distances are in plies, for either side to move; None if no position is won, or lost.
#[derive(Clone, Copy, Debug, PartialEq, Eq)]
pub struct BuildReport {
    /// The number of cells in the table.
    pub cells: u32,
    /// The number of cell numbers decoded and positions gone back to, at most the last number of its type.
    pub examined: u64,
    pub deepest_win: Option<u8>,
    pub deepest_loss: Option<u8>,
}

/// Builds the table of a class from the tables of the classes that it needs. It allocates nothing beyond the room.
pub fn build<'a, A: Allocator>(
    class: Class,
    tables: &TableSet<'a, A>,
    room: BuildRoom<'a, A>,
) -> Result<(Table<'a, A>, BuildReport), BuildFault>
    requires { room ≡ cells_of class }
    ensures missing { (d : AClass) → IsErrOf result (BuildFault.MissingTable d)
        ↔ (first_missing tables.now (needs_of class) ≡ Some d) }
    ensures class { IfOk result (λ r. r.0.class ≡ class) }
    ensures right { NeedsAreRight tables.now class → IfOk result (λ r. IsRight r.0) }
    ensures far { NeedsAreRight tables.now class
        → IsErrOf result BuildFault.DistanceTooLarge → HasFarPosition class }

    // The report follows from the table.
    ensures cells { IfOk result (λ r. r.1.cells ≡ cells_of class) }
    ensures deepest_win { IfOk result (λ r. IsGreatest win_of r.0.cells r.1.deepest_win) }
    ensures deepest_loss { IfOk result (λ r. IsGreatest loss_of r.0.cells r.1.deepest_loss) }
{
    if let Some(need) = tables.first_missing(class) {
        return Err(BuildFault::MissingTable(need));
    }
    let _held = tables.table(class);
    let game = ClassGame { class, tables };
    let mut level_cells = room.into_cells();
    let filled = solve_cells(&game, &mut level_cells);
    if !filled.fits {
        return Err(BuildFault::DistanceTooLarge);
    }
    let cells = level_cells.into_cells();
    let deepest = greatest_distances(cells.as_slice());
    let report = BuildReport {
        cells: study_values::cells(class),
        examined: filled.examined,
        deepest_win: deepest.win,
        deepest_loss: deepest.loss,
    };
    Ok((Table::from_cells(class, cells), report))
}

/// Whether the table is right, whatever its cells are, if the loaded tables that its class needs are right.
pub fn verify<'a, A: Allocator>(table: &Table<'a, A>, tables: &TableSet<'a, A>) -> bool
    requires { IsReady tables.now table.now.class }
    ensures { NeedsAreRight tables.now table.now.class → IsTrue result ↔ IsRight table.now }
{
    let class = table.class();
    let _held = tables.table(class);
    let game = ClassGame { class, tables };
    are_right(&game, table.cells())
}

/// The greatest distances seen so far.
#[derive(Clone, Copy)]
struct DeepestMates {
    win: Option<u8>,
    loss: Option<u8>,
}

impl DeepestMates {
    fn with(self, value: Value) -> DeepestMates
        ensures win { result.win ≡ option_max self.win (win_of value) }
        ensures loss { result.loss ≡ option_max self.loss (loss_of value) }
    {
        match value {
            Value::Win(n) => DeepestMates {
                win: Some(at_least(self.win, n)),
                loss: self.loss,
            },
            Value::Loss(n) => DeepestMates {
                win: self.win,
                loss: Some(at_least(self.loss, n)),
            },
            Value::Draw => self,
        }
    }
}

fn at_least(known: Option<u8>, n: u8) -> u8
    ensures { Some result ≡ option_max known (Some n) }
{
    match known {
        None => n,
        Some(m) => m.max(n),
    }
}

/// The greatest distances that the cells encode.
fn greatest_distances(cells: &[u8]) -> DeepestMates
    ensures win { IsGreatest win_of cells.now result.win }
    ensures loss { IsGreatest loss_of cells.now result.loss }
{
    let mut deepest = DeepestMates {
        win: None,
        loss: None,
    };
    for cell in cells {
        deepest = deepest.with(value_at(*cell));
    }
    deepest
}
