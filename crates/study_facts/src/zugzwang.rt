//! Mutual zugzwangs at the nodes of a study.
ghost use Rattle.std.specs.Prelude.{◌≡◌, ◌++◌, ◌<◌, false, OnOk, IfOk, IfErr, IsErrOf};
ghost use Rattle.study_material.specs.declared.class.Class.{Class as AClass};
ghost use Rattle.study_moves.specs.EnPassant.{has_legal_en_passant};
ghost use Rattle.study_values.specs.Values.{IsNotDamage};
ghost use Rattle.study_marks.specs.Evaluated.{failures_of};
ghost use Rattle.study_zugzwang.specs.Zugzwang.{Scores, EitherCanMove, handed_on};
ghost use Rattle.study_facts.specs.Asked.{HasProbed, within};
ghost use Rattle.study_facts.specs.Zugzwang.{IsZugzwangOf, kind_of, zugzwang_words, zugzwang_line};

use crate::words::add_line_start;
use std::alloc::{AllocError, Allocator};
use study_board::{Position, Side};
use study_moves::{has_legal_en_passant, values_are_unique};
use study_text::Text;
use study_values::{ProbeFault, Values};
use study_zugzwang::{half_points, with_other_to_move};

/// A mutual zugzwang: for a full point, if each side loses when it is to move; or for half a point of a side, which draws when it is
/// to move, and wins when the other side is.
#[derive(Clone, Copy, Debug, PartialEq, Eq)]
pub enum Zugzwang {
    Full,
    Half(Side),
}

/// The score of the side to move, in half points.
fn score<V: Values>(q: &Position, values: &mut V) -> Result<u8, ProbeFault>
    ensures game { V.source.is_honest values.old → IfOk result (Scores q.now) }
    ensures few { IfOk result (λ k. k < 3) }
    ensures no_value { (c : AClass) → IsErrOf result (ProbeFault.NoTable c)
        → V.source.held values.old c ≡ false }
    ensures evaluated { HasProbed (within q.now V.source) values.old result values.new }
    ensures no_damage { V.source.is_honest values.old → IfErr result IsNotDamage }
    ensures failures { V.source.failed_of values.new
        ≡ failures_of result (V.source.failed_of values.old) }
    ensures honest { V.source.is_honest values.old → V.source.is_honest values.new }
    ensures tables { (c : AClass) → V.source.held values.new c ≡ V.source.held values.old c }
{
    // (the clauses of `men` say that the position is valid)
    let _men = q.men();
    match values.value(q) {
        Err(fault) => Err(fault),
        Ok(value) => Ok(half_points(value)),
    }
}

/// The kind of zugzwang, by the half points that this side scores when it is to move, and those that the other scores when it is.
fn kind_of(side: Side, here: u8, there: u8) -> Option<Zugzwang>
    requires here { here < 3 }
    requires there { there < 3 }
    ensures { result ≡ kind_of side here there }
{
    if here + there == 0 {
        Some(Zugzwang::Full)
    } else if here + there == 1 {
        Some(Zugzwang::Half(if here == 1 { side } else { side.other() }))
    } else {
        None
    }
}

/// The kind of zugzwang of a position in which the side to move scores so much, from the position with the other side to move.
fn kind_beside<V: Values>(
    p: &Position,
    here: u8,
    q: &Position,
    values: &mut V,
) -> Result<Option<Zugzwang>, ProbeFault>
    // Many clauses: callers use each fact of the probes by itself.
    requires passed { has_legal_en_passant p.now ≡ false }
    requires other { q.now ≡ handed_on p.now }
    requires either { EitherCanMove p.now }
    requires few { here < 3 }
    ensures game { Scores p.now here → V.source.is_honest values.old
        → IfOk result (IsZugzwangOf p.now) }
    ensures no_value { (c : AClass) → IsErrOf result (ProbeFault.NoTable c)
        → V.source.held values.old c ≡ false }
    ensures evaluated { HasProbed (within p.now V.source) values.old result values.new }
    ensures no_damage { V.source.is_honest values.old → IfErr result IsNotDamage }
    ensures failures { V.source.failed_of values.new
        ≡ failures_of result (V.source.failed_of values.old) }
    ensures honest { V.source.is_honest values.old → V.source.is_honest values.new }
    ensures tables { (c : AClass) → V.source.held values.new c ≡ V.source.held values.old c }
{
    values_are_unique();
    // (the clauses of `men` say that the position is valid)
    let _men = q.men();
    match score(q, values) {
        Err(fault) => Err(fault),
        Ok(there) => Ok(kind_of(p.to_move(), here, there)),
    }
}

/// The kind of zugzwang of a position, from it and the position with the other side to move.
fn zugzwang_of<V: Values>(
    p: &Position,
    q: &Position,
    values: &mut V,
) -> Result<Option<Zugzwang>, ProbeFault>
    requires passed { has_legal_en_passant p.now ≡ false }
    requires other { q.now ≡ handed_on p.now }
    requires either { EitherCanMove p.now }
    ensures game { V.source.is_honest values.old → IfOk result (IsZugzwangOf p.now) }
    ensures no_value { (c : AClass) → IsErrOf result (ProbeFault.NoTable c)
        → V.source.held values.old c ≡ false }
    ensures evaluated { HasProbed (within p.now V.source) values.old result values.new }
    ensures no_damage { V.source.is_honest values.old → IfErr result IsNotDamage }
    ensures failures { V.source.failed_of values.new
        ≡ failures_of result (V.source.failed_of values.old) }
    ensures honest { V.source.is_honest values.old → V.source.is_honest values.new }
    ensures tables { (c : AClass) → V.source.held values.new c ≡ V.source.held values.old c }
{
    match score(p, values) {
        Err(fault) => Err(fault),
        Ok(here) => kind_beside(p, here, q, values),
    }
}

/// The kind of mutual zugzwang that the position is, whoever is to move; `None` if it is not one.
pub fn zugzwang_at<V: Values>(p: &Position, values: &mut V) -> Result<Option<Zugzwang>, ProbeFault>
    ensures game { V.source.is_honest values.old → IfOk result (IsZugzwangOf p.now) }
    ensures no_value { (c : AClass) → IsErrOf result (ProbeFault.NoTable c)
        → V.source.held values.old c ≡ false }
    ensures evaluated { HasProbed (within p.now V.source) values.old result values.new }
    ensures no_damage { V.source.is_honest values.old → IfErr result IsNotDamage }
    ensures failures { V.source.failed_of values.new
        ≡ failures_of result (V.source.failed_of values.old) }
    ensures honest { V.source.is_honest values.old → V.source.is_honest values.new }
    ensures tables { (c : AClass) → V.source.held values.new c ≡ V.source.held values.old c }
{
    let passing = has_legal_en_passant(p);
    if passing {
        return Ok(None);
    }
    match with_other_to_move(p) {
        None => Ok(None),
        Some(q) => zugzwang_of(p, &q, values),
    }
}

/// `full`, `half white`, `half black`.
pub fn add_zugzwang_words<A: Allocator>(
    text: &mut Text<'_, A>,
    zugzwang: Zugzwang,
) -> Result<(), AllocError>
    ensures { OnOk result (text.new ≡ text.old ++ zugzwang_words zugzwang) }
{
    match zugzwang {
        Zugzwang::Full => text.add(b"full"),
        Zugzwang::Half(Side::White) => text.add(b"half white"),
        Zugzwang::Half(Side::Black) => text.add(b"half black"),
    }
}

/// The line of a mutual zugzwang, if the position is one.
pub fn add_zugzwang_line<A: Allocator>(
    text: &mut Text<'_, A>,
    steps: &[u16],
    zugzwang: Option<Zugzwang>,
) -> Result<(), AllocError>
    ensures { OnOk result (text.new ≡ text.old ++ zugzwang_line steps.now zugzwang) }
{
    match zugzwang {
        None => Ok(()),
        Some(zugzwang) => {
            add_line_start(text, b"zugzwang ", steps)?;
            add_zugzwang_words(text, zugzwang)?;
            text.add(b"\n")
        }
    }
}
