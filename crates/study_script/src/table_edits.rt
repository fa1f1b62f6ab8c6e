//! Edits of the study that probe the tables, whole or paged.
ghost use Rattle.std.specs.Prelude.{◌≡◌, Err, None, true, MatchOption, IfErr, IfOk, OnOk, OnErr};
ghost use Rattle.study_material.specs.declared.class.Class.{Class as AClass};
ghost use Rattle.study_values.specs.declared.fault.SourceFault.{SourceFault as ASourceFault};
ghost use Rattle.study_marks.specs.Study.{plain_study};
ghost use Rattle.study_marks.specs.BenchState.{marked_study, IsKeptRight};
ghost use Rattle.study_moves.specs.Rules.{after};
ghost use Rattle.study_tree.specs.Edits.{children_at};
ghost use Rattle.study_marks.specs.Study.{position_at};
ghost use Rattle.study_marks.specs.Queries.{asked_at, positions_asked, is_of_tables, AllHeld, IsOutside};
ghost use Rattle.study_marks.specs.EditLists.{IsShiftRefusal};
ghost use Rattle.study_marks.specs.Answers.{IsUndamaged, TellsFirstFault};
ghost use Rattle.study_marks.specs.Edits.{first_illegal_from, with_position, with_start, with_insertion, shift_refusal, insert_refusal};
ghost use Rattle.study_command.specs.Documents.{new_study};
ghost use Rattle.study_script.specs.SessionHolds.{tables_held, tables_honest, tables_may_fail, tables_source, are_paged, HasNoDeviceFault};

use crate::tables::Tables;
use std::alloc::Allocator;
use study_marks::{Bench, Refusal, Stipulation};
use study_moves::Move;
use study_notation::Start;
use study_tablefile::PageSource;
use study_tree::Path;

/// Sets another start, and keeps the root alone.
pub fn set_position<'a, P: PageSource, A: Allocator>(
    bench: &mut Bench<'a, A>,
    start: Start,
    tables: &mut Tables<'a, P, A>,
) -> Result<(), Refusal<'a, A>>
    // Many clauses: those of the study after the edit, and those of the values that it probes.
    ensures refusal { IfErr result (IsOutside (tables_held tables.old) (asked_at start.position)) }
    ensures device { IfErr result (HasNoDeviceFault (are_paged tables.old)) }
    ensures takes_no_memory { IfErr result (λ e. is_of_tables e ≡ true) }
    ensures first { IfErr result (TellsFirstFault (tables_source P.honest P.gives) tables.old
        (asked_at start.position) tables.new) }
    ensures no_damage { tables_honest P.honest tables.old → IfErr result IsUndamaged }
    ensures found { OnOk result (AllHeld (tables_held tables.old) (asked_at start.position)) }
    ensures edited { OnOk result
        (plain_study (marked_study bench.new) ≡ with_position
        (plain_study (marked_study bench.old)) start) }
    ensures right { tables_honest P.honest tables.old → OnOk result (IsKeptRight bench.new) }
    ensures same { OnErr result (bench.new ≡ bench.old) }
    ensures honest { tables_honest P.honest tables.old → tables_honest P.honest tables.new }
    ensures tables { (c : AClass) → tables_held tables.new c ≡ tables_held tables.old c }
    ensures fails_as_before { (c : AClass) (f : ASourceFault)
        → tables_may_fail P.gives tables.new c f → tables_may_fail P.gives tables.old c f }
    ensures mode { are_paged tables.new ≡ are_paged tables.old }
{
    match tables {
        Tables::Whole(tables) => bench.set_position(start, tables),
        Tables::Paged(tables) => bench.set_position(start, tables),
    }
}

/// Sets another start, and keeps the tree, each move of which must be legal.
pub fn shift_position<'a, P: PageSource, A: Allocator>(
    bench: &mut Bench<'a, A>,
    start: Start,
    tables: &mut Tables<'a, P, A>,
) -> Result<(), Refusal<'a, A>>
    // Many clauses: those of the study after the edit, and those of the values that it probes.
    ensures refusal { IfErr result
        (IsShiftRefusal (tables_held tables.old)
        (positions_asked (with_start (plain_study (marked_study bench.old)) start))
        (shift_refusal (plain_study (marked_study bench.old)) start)) }
    ensures broken { OnOk result
        (first_illegal_from 0 start.position (marked_study bench.old).tree.below ≡ None) }
    ensures device { IfErr result (HasNoDeviceFault (are_paged tables.old)) }
    ensures first { IfErr result (TellsFirstFault (tables_source P.honest P.gives) tables.old
        (positions_asked (with_start (plain_study (marked_study bench.old)) start)) tables.new) }
    ensures no_damage { tables_honest P.honest tables.old → IfErr result IsUndamaged }
    ensures found { OnOk result
        (AllHeld (tables_held tables.old)
        (positions_asked (with_start (plain_study (marked_study bench.old)) start))) }
    ensures edited { OnOk result
        (plain_study (marked_study bench.new) ≡ with_start (plain_study (marked_study bench.old))
        start) }
    ensures right { tables_honest P.honest tables.old → OnOk result (IsKeptRight bench.new) }
    ensures same { OnErr result (bench.new ≡ bench.old) }
    ensures honest { tables_honest P.honest tables.old → tables_honest P.honest tables.new }
    ensures tables { (c : AClass) → tables_held tables.new c ≡ tables_held tables.old c }
    ensures fails_as_before { (c : AClass) (f : ASourceFault)
        → tables_may_fail P.gives tables.new c f → tables_may_fail P.gives tables.old c f }
    ensures mode { are_paged tables.new ≡ are_paged tables.old }
{
    match tables {
        Tables::Whole(tables) => bench.shift_position(start, tables),
        Tables::Paged(tables) => bench.shift_position(start, tables),
    }
}

/// Adds a last child to the node, by a move that is legal there; returns its place.
pub fn insert_move<'a, P: PageSource, A: Allocator>(
    bench: &mut Bench<'a, A>,
    path: &Path<'a, A>,
    m: Move,
    tables: &mut Tables<'a, P, A>,
) -> Result<u16, Refusal<'a, A>>
    // Many clauses: those of the study after the edit, and those of the values that it probes.
    ensures refusal { MatchOption (insert_refusal (plain_study (marked_study bench.old)) path.now m)
        (IfErr result
        (IsOutside (tables_held tables.old)
        (asked_at (after (position_at (marked_study bench.old) path.now) m))))
        (λ fault. result ≡ Err fault) }
    ensures device { IfErr result (HasNoDeviceFault (are_paged tables.old)) }
    ensures first { IfErr result (TellsFirstFault (tables_source P.honest P.gives) tables.old
        (asked_at (after (position_at (marked_study bench.old) path.now) m)) tables.new) }
    ensures no_damage { tables_honest P.honest tables.old → IfErr result IsUndamaged }
    ensures found { OnOk result
        (AllHeld (tables_held tables.old)
        (asked_at (after (position_at (marked_study bench.old) path.now) m))) }
    ensures edited { OnOk result
        (plain_study (marked_study bench.new)
        ≡ with_insertion (plain_study (marked_study bench.old)) path.now m) }
    ensures place { IfOk result
        (λ k. k ≡ children_at (marked_study bench.old).tree.below path.now) }
    ensures right { tables_honest P.honest tables.old → IsKeptRight bench.old
        → OnOk result (IsKeptRight bench.new) }
    ensures same { OnErr result (bench.new ≡ bench.old) }
    ensures honest { tables_honest P.honest tables.old → tables_honest P.honest tables.new }
    ensures tables { (c : AClass) → tables_held tables.new c ≡ tables_held tables.old c }
    ensures fails_as_before { (c : AClass) (f : ASourceFault)
        → tables_may_fail P.gives tables.new c f → tables_may_fail P.gives tables.old c f }
    ensures mode { are_paged tables.new ≡ are_paged tables.old }
{
    match tables {
        Tables::Whole(tables) => bench.insert(path, m, tables),
        Tables::Paged(tables) => bench.insert(path, m, tables),
    }
}

/// A study with the root alone, and no tags.
pub fn new_bench<'a, P: PageSource, A: Allocator>(
    alloc: &'a A,
    start: Start,
    stipulation: Stipulation,
    tables: &mut Tables<'a, P, A>,
) -> Result<Bench<'a, A>, Refusal<'a, A>>
    // Many clauses: those of the study after the edit, and those of the values that it probes.
    ensures refusal { IfErr result (IsOutside (tables_held tables.old) (asked_at start.position)) }
    ensures device { IfErr result (HasNoDeviceFault (are_paged tables.old)) }
    ensures takes_no_memory { IfErr result (λ e. is_of_tables e ≡ true) }
    ensures first { IfErr result (TellsFirstFault (tables_source P.honest P.gives) tables.old
        (asked_at start.position) tables.new) }
    ensures no_damage { tables_honest P.honest tables.old → IfErr result IsUndamaged }
    ensures found { OnOk result (AllHeld (tables_held tables.old) (asked_at start.position)) }
    ensures made { IfOk result (λ b. plain_study (marked_study b) ≡ new_study start stipulation) }
    ensures right { tables_honest P.honest tables.old → IfOk result IsKeptRight }
    ensures honest { tables_honest P.honest tables.old → tables_honest P.honest tables.new }
    ensures tables { (c : AClass) → tables_held tables.new c ≡ tables_held tables.old c }
    ensures fails_as_before { (c : AClass) (f : ASourceFault)
        → tables_may_fail P.gives tables.new c f → tables_may_fail P.gives tables.old c f }
    ensures mode { are_paged tables.new ≡ are_paged tables.old }
{
    match tables {
        Tables::Whole(tables) => Bench::new(alloc, start, stipulation, tables),
        Tables::Paged(tables) => Bench::new(alloc, start, stipulation, tables),
    }
}
