//! Whether a move only loses time.
ghost use Rattle.std.specs.Prelude.{◌≡◌, ◌≤◌, ◌↔◌, true, false, length, IfOk, IfErr, IsErrOf};
ghost use Rattle.std.specs.List.{All};
ghost use Rattle.study_values.specs.Values.{IsNotDamage};
ghost use Rattle.study_facts.specs.Asked.{HasProbed, within};
ghost use Rattle.study_material.specs.declared.class.Class.{Class as AClass};
ghost use Rattle.study_moves.specs.Rules.{is_legal};
ghost use Rattle.study_marks.specs.Evaluated.{failures_of};
ghost use Rattle.study_facts.specs.Repetition.{is_in_history, HasLost, IsNear, IsRepeatableWithin, IsWasteOfTime};
ghost use Rattle.study_facts.specs.Leads.{SomeLeads, AllWinsRepeat, MustRepeat};

use study_board::Position;
use study_marks::hero_loses;
use study_moves::{MAX_MOVES, Move, legal_moves, played, values_are_unique};
use study_values::{ProbeFault, Values};

/// Whether the position is in the line.
fn is_in_history(line: &[Position], q: &Position) -> bool
    ensures { result ≡ is_in_history line.now q.now }
{
    line.iter().any(|r| r == q)
}

/// Whether one of these moves leads to a position of the line.
fn leads_into(line: &[Position], q: &Position, moves: &[Move]) -> bool
    requires { All (λ m. is_legal q.now m ≡ true) moves.now }
    ensures { (result ≡ true) ↔ SomeLeads (λ r. is_in_history line.now r ≡ true) q.now moves.now }
{
    match moves.split_first() {
        None => false,
        Some((m, rest)) => {
            let next = played(q, *m);
            if is_in_history(line, &next) {
                return true;
            }
            leads_into(line, q, rest)
        }
    }
}

/// Whether the position is in the line, or a legal move leads into it.
fn is_near_history(line: &[Position], q: &Position) -> bool
    ensures { (result ≡ true) ↔ IsNear line.now q.now }
{
    if is_in_history(line, q) {
        return true;
    }
    let moves = legal_moves(q);
    leads_into(line, q, moves.as_slice())
}

/// Whether the side to move is mated.
fn is_lost<V: Values>(q: &Position, values: &mut V) -> Result<bool, ProbeFault>
    ensures game { V.source.is_honest values.old → IfOk result (λ b. (b ≡ true) ↔ HasLost q.now) }
    ensures no_value { (c : AClass) → IsErrOf result (ProbeFault.NoTable c)
        → V.source.held values.old c ≡ false }
    ensures evaluated { HasProbed (within q.now V.source) values.old result values.new }
    ensures no_damage { V.source.is_honest values.old → IfErr result IsNotDamage }
    ensures failures { V.source.failed_of values.new
        ≡ failures_of result (V.source.failed_of values.old) }
    ensures honest { V.source.is_honest values.old → V.source.is_honest values.new }
    ensures tables { (c : AClass) → V.source.held values.new c ≡ V.source.held values.old c }
{
    values_are_unique();
    // (the clauses of `men` say that the position is valid)
    let _men = q.men();
    match values.value(q) {
        Err(fault) => Err(fault),
        Ok(value) => Ok(hero_loses(true, value)),
    }
}

/// Whether some of these moves of the hero wins, or one before them does, and each winning move leads back within m.
#[cycle(back)]
fn all_wins_repeat<V: Values>(
    line: &[Position],
    m: u8,
    r: &Position,
    won: bool,
    moves: &[Move],
    values: &mut V,
) -> Result<bool, ProbeFault>
    requires legal { All (λ m. is_legal r.now m ≡ true) moves.now }
    requires few { length moves.now ≤ MAX_MOVES }
    ensures game { V.source.is_honest values.old
        → IfOk result (λ b. (b ≡ true) ↔ AllWinsRepeat line.now m r.now won moves.now) }
    ensures no_value { (c : AClass) → IsErrOf result (ProbeFault.NoTable c)
        → V.source.held values.old c ≡ false }
    ensures evaluated { HasProbed (within r.now V.source) values.old result values.new }
    ensures no_damage { V.source.is_honest values.old → IfErr result IsNotDamage }
    ensures failures { V.source.failed_of values.new
        ≡ failures_of result (V.source.failed_of values.old) }
    ensures honest { V.source.is_honest values.old → V.source.is_honest values.new }
    ensures tables { (c : AClass) → V.source.held values.new c ≡ V.source.held values.old c }
{
    match moves.split_first() {
        None => Ok(won),
        Some((h, rest)) => {
            let next = played(r, *h);
            match is_lost(&next, values) {
                Err(fault) => Err(fault),
                Ok(false) => all_wins_repeat(line, m, r, won, rest, values),
                Ok(true) => match is_repeatable_within(line, m, &next, values) {
                    Err(fault) => Err(fault),
                    Ok(false) => Ok(false),
                    Ok(true) => all_wins_repeat(line, m, r, true, rest, values),
                },
            }
        }
    }
}

/// Whether the hero, who moves, can win, and only by moves that lead back within m.
#[cycle(back)]
fn must_repeat<V: Values>(
    line: &[Position],
    m: u8,
    r: &Position,
    values: &mut V,
) -> Result<bool, ProbeFault>
    ensures game { V.source.is_honest values.old
        → IfOk result (λ b. (b ≡ true) ↔ MustRepeat line.now m r.now) }
    ensures no_value { (c : AClass) → IsErrOf result (ProbeFault.NoTable c)
        → V.source.held values.old c ≡ false }
    ensures evaluated { HasProbed (within r.now V.source) values.old result values.new }
    ensures no_damage { V.source.is_honest values.old → IfErr result IsNotDamage }
    ensures failures { V.source.failed_of values.new
        ≡ failures_of result (V.source.failed_of values.old) }
    ensures honest { V.source.is_honest values.old → V.source.is_honest values.new }
    ensures tables { (c : AClass) → V.source.held values.new c ≡ V.source.held values.old c }
{
    let moves = legal_moves(r);
    all_wins_repeat(line, m, r, false, moves.as_slice(), values)
}

/// Whether one of these moves of the opponent leads to a position in which the hero can win only by moves that lead back within m.
#[cycle(back)]
fn can_force_repetition<V: Values>(
    line: &[Position],
    m: u8,
    q: &Position,
    moves: &[Move],
    values: &mut V,
) -> Result<bool, ProbeFault>
    requires legal { All (λ m. is_legal q.now m ≡ true) moves.now }
    requires few { length moves.now ≤ MAX_MOVES }
    ensures game { V.source.is_honest values.old → IfOk result (λ b. (b ≡ true)
        ↔ SomeLeads (MustRepeat line.now m) q.now moves.now) }
    ensures no_value { (c : AClass) → IsErrOf result (ProbeFault.NoTable c)
        → V.source.held values.old c ≡ false }
    ensures evaluated { HasProbed (within q.now V.source) values.old result values.new }
    ensures no_damage { V.source.is_honest values.old → IfErr result IsNotDamage }
    ensures failures { V.source.failed_of values.new
        ≡ failures_of result (V.source.failed_of values.old) }
    ensures honest { V.source.is_honest values.old → V.source.is_honest values.new }
    ensures tables { (c : AClass) → V.source.held values.new c ≡ V.source.held values.old c }
{
    match moves.split_first() {
        None => Ok(false),
        Some((n, rest)) => {
            let next = played(q, *n);
            match must_repeat(line, m, &next, values) {
                Err(fault) => Err(fault),
                Ok(true) => Ok(true),
                Ok(false) => can_force_repetition(line, m, q, rest, values),
            }
        }
    }
}

/// Whether the opponent can force a repetition of the line within m moves.
#[cycle(back)]
pub fn is_repeatable_within<V: Values>(
    line: &[Position],
    m: u8,
    q: &Position,
    values: &mut V,
) -> Result<bool, ProbeFault>
    ensures game { V.source.is_honest values.old
        → IfOk result (λ b. (b ≡ true) ↔ IsRepeatableWithin line.now m q.now) }
    ensures none_asked { m ≡ 0 → V.source.asked_of values.new ≡ V.source.asked_of values.old }
    ensures no_value { (c : AClass) → IsErrOf result (ProbeFault.NoTable c)
        → V.source.held values.old c ≡ false }
    ensures evaluated { HasProbed (within q.now V.source) values.old result values.new }
    ensures no_damage { V.source.is_honest values.old → IfErr result IsNotDamage }
    ensures failures { V.source.failed_of values.new
        ≡ failures_of result (V.source.failed_of values.old) }
    ensures honest { V.source.is_honest values.old → V.source.is_honest values.new }
    ensures tables { (c : AClass) → V.source.held values.new c ≡ V.source.held values.old c }
{
    if is_near_history(line, q) {
        return Ok(true);
    }
    if m == 0 {
        return Ok(false);
    }
    let moves = legal_moves(q);
    can_force_repetition(line, m - 1, q, moves.as_slice(), values)
}

/// The least m up to 2 within which the position is back, `None` if there is none.
pub fn waste_of_time<V: Values>(
    line: &[Position],
    q: &Position,
    values: &mut V,
) -> Result<Option<u8>, ProbeFault>
    ensures game { V.source.is_honest values.old → IfOk result (IsWasteOfTime line.now q.now) }
    ensures no_value { (c : AClass) → IsErrOf result (ProbeFault.NoTable c)
        → V.source.held values.old c ≡ false }
    ensures evaluated { HasProbed (within q.now V.source) values.old result values.new }
    ensures no_damage { V.source.is_honest values.old → IfErr result IsNotDamage }
    ensures failures { V.source.failed_of values.new
        ≡ failures_of result (V.source.failed_of values.old) }
    ensures honest { V.source.is_honest values.old → V.source.is_honest values.new }
    ensures tables { (c : AClass) → V.source.held values.new c ≡ V.source.held values.old c }
{
    for m in 0..3 {
        match is_repeatable_within(line, m, q, values) {
            Err(fault) => return Err(fault),
            Ok(true) => return Ok(Some(m)),
            Ok(false) => {}
        }
    }
    Ok(None)
}
