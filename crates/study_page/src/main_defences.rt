//! Which of the defences that the tree lacks matter.
ghost use Rattle.std.specs.Prelude.{◌≡◌, ◌++◌, ◌∷◌, [], OnOk, IfOk};
ghost use Rattle.std.specs.List.{All, filter};
ghost use Rattle.study_marks.specs.BenchState.{marked_study};
ghost use Rattle.study_facts.specs.Nodes.{value_at};
ghost use Rattle.study_facts.specs.Play.{IsPlayed};
ghost use Rattle.study_head.specs.Solution.{is_main_defence};
ghost use Rattle.study_page.specs.Rows.{main_among, first_value};

use std::alloc::{AllocError, Allocator};
use study_board::Position;
use study_facts::{Defence, value_at};
use study_head::{Reached, is_main_defence};
use study_marks::Bench;
use study_moves::Move;
use study_values::Value;

/// The path of the node's first child.
fn first_child<'a, A: Allocator>(alloc: &'a A, steps: &[u16]) -> Result<Vec<u16, &'a A>, AllocError>
    ensures { IfOk result (λ path. path.items ≡ steps.now ++ 0 ∷ []) }
{
    let mut path = Vec::new(alloc);
    path.extend_from_slice(steps)?;
    match path.push(0) {
        Err(_) => Err(AllocError),
        Ok(_) => Ok(path),
    }
}

/// The value after the first of the moves that the study gives at the node, if there is one.
pub fn given_value<'a, 'b, A: Allocator, B: Allocator>(
    alloc: &'a A,
    bench: &Bench<'b, B>,
    steps: &[u16],
    there: &[Move],
) -> Result<Option<Value>, AllocError>
    ensures { IfOk result (λ value. value
        ≡ first_value there.now (value_at (marked_study bench.now) (steps.now ++ 0 ∷ []))) }
{
    if there.is_empty() {
        return Ok(None);
    }
    let path = first_child(alloc, steps)?;
    Ok(Some(value_at(bench, path.as_slice())))
}

fn push_defence<'a, A: Allocator>(
    main: &mut Vec<Defence, &'a A>,
    y: Defence,
) -> Result<(), AllocError>
    ensures { OnOk result (main.new.items ≡ main.old.items ++ y ∷ []) }
{
    match main.push(y) {
        Err(_) => Err(AllocError),
        Ok(_) => Ok(()),
    }
}

/// Adds the main ones of the defences, beside the one that is given.
fn add_main<'a, A: Allocator>(
    main: &mut Vec<Defence, &'a A>,
    known: &[Reached],
    p: &Position,
    given: Value,
    list: &[Defence],
) -> Result<(), AllocError>
    requires { All (IsPlayed p.now) list.now }
    ensures { OnOk result (main.new.items ≡ main.old.items
        ++ filter (is_main_defence known.now p.now given) list.now) }
{
    match list.split_first() {
        None => Ok(()),
        Some((y, rest)) => {
            if is_main_defence(known, p, given, y) {
                push_defence(main, *y)?;
            }
            add_main(main, known, p, given, rest)
        }
    }
}

/// The same, if one is given.
pub fn main_among<'a, A: Allocator>(
    alloc: &'a A,
    known: &[Reached],
    p: &Position,
    given: Option<Value>,
    list: &[Defence],
) -> Result<Vec<Defence, &'a A>, AllocError>
    requires { All (IsPlayed p.now) list.now }
    ensures { IfOk result (λ main. main.items ≡ main_among known.now p.now given list.now) }
{
    let mut main = Vec::new(alloc);
    match given {
        None => Ok(main),
        Some(value) => {
            add_main(&mut main, known, p, value, list)?;
            Ok(main)
        }
    }
}
