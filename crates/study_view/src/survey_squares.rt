//! The result of a stipulation with a man on each other square.
ghost use Rattle.std.specs.Prelude.{◌≡◌, ◌+◌, ◌++◌, ◌∷◌, [], ◌-◌, ◌<◌, ◌≤◌, ◌↔◌, ◌⊎◌, List, length, None, OnOk, IfOk, IfErr, IfSome, IfNone, IsSome, Err};
ghost use Rattle.std.specs.List.{All};
ghost use Rattle.arrayvec.specs.ArrayVec.{array_vec_len};
ghost use Rattle.study_board.specs.Position.{man_at, IsValid};
ghost use Rattle.study_marks.specs.Goals.{holds};
ghost use Rattle.study_values.specs.declared.values.ProbeFault.{ProbeFault as AProbeFault};
ghost use Rattle.study_facts.specs.Asked.{within};
ghost use Rattle.study_view.specs.Asked.{HasEvaluatedSome, HasSurveyed};
ghost use Rattle.study_view.specs.declared.survey_squares.SurveyedSquare.{SurveyedSquare as AStood};
ghost use Rattle.study_view.specs.Survey.{moved_men, still_passed, with_man_moved, fault_of_man_moved, result_by_moves, other_squares};
ghost use Rattle.study_view.specs.Survey.{IsResultBy, IsResult, IsStanding, AreStandings, squares_but};
ghost use Rattle.study_view.specs.Shown.{IsPlayedIn, IsShown};

use crate::fault::SurveyFault;
use crate::probe::{ask_first_moves, ask_value};
use arrayvec::ArrayVec;
use study_board::{Man, Position, Side, Square, could_be_passed};
use study_facts::EvaluatedMove;
use study_marks::{Aim, Stipulation, aim_of, holds};
use study_moves::{MAX_MOVES, Move};
use study_values::{ProbeFault, Value, Values};

/// The result for one square: not a valid position, or whether the stipulation holds, with the value, and, if the hero is to move, the number of
/// first moves that keep it, or the only one.
#[derive(Clone, Copy, Debug, PartialEq, Eq)]
pub enum SquareResult {
    Impossible,
    Fails(Value),
    Holds(Value),
    HoldsBy(Value, u16),
    Only(Value, Move),
}

/// A square, and the result with the man there.
#[derive(Clone, Copy, Debug, PartialEq, Eq)]
pub struct SurveyedSquare {
    pub at: Square,
    pub standing: SquareResult,
}

impl Default for SurveyedSquare {
    ghost use Rattle.std.specs.Prelude.{◌≡◌};
    ghost use Rattle.study_view.specs.declared.survey_squares.SquareResult.TheVariants.{Impossible};

    ghost is_default = { λ a. a.standing ≡ Impossible };

    fn default() -> Self {
        SurveyedSquare {
            at: Square::default(),
            standing: SquareResult::Impossible,
        }
    }
}

/// A position, one of its squares, and the stipulation.
#[derive(Clone, Copy)]
pub struct SurveyQuestion<'q> {
    pub position: &'q Position,
    pub square: Square,
    pub stipulation: &'q Stipulation,
}

fn moved_men(from: Square, to: Square, men: &[Man]) -> ArrayVec<Man, 4>
    requires { length men.now ≤ 4 }
    ensures { result.items ≡ moved_men from to men.now }
{
    let mut list = ArrayVec::new();
    for man in men {
        list.push(man.moved_if(from, to));
    }
    list
}

/// The square that a pawn has passed, if with these men one can have passed it.
fn still_passed(men: &[Man], to_move: Side, passed: Option<Square>) -> Option<Square>
    ensures { result ≡ still_passed men.now to_move passed }
{
    match passed {
        Some(x) if could_be_passed(men, to_move, x) => Some(x),
        _ => None,
    }
}

/// The position with the man of one square on another, if it is valid. A passed square is dropped if no pawn can have passed it there.
pub fn with_man_at(p: &Position, from: Square, to: Square) -> Option<Position>
    ensures none { IfNone result (IsSome (fault_of_man_moved p.now from to)) }
    ensures some { IfSome result (λ q. (fault_of_man_moved p.now from to ≡ None)
        × (q ≡ with_man_moved p.now from to)) }
    ensures valid { IfSome result IsValid }
{
    let men = moved_men(from, to, p.men());
    let passed = still_passed(men.as_slice(), p.to_move(), p.passed());
    match Position::new(men.as_slice(), p.to_move(), passed) {
        Ok(q) => {
            let _men = q.men();
            Some(q)
        }
        Err(_) => None,
    }
}

/// The result, from the first moves that hold.
fn result_by_moves(value: Value, list: &[EvaluatedMove]) -> SquareResult
    requires { length list.now ≤ MAX_MOVES }
    ensures { result ≡ result_by_moves value list.now }
{
    match list.split_first() {
        None => SquareResult::HoldsBy(value, 0),
        Some((x, rest)) => {
            if rest.is_empty() {
                SquareResult::Only(value, x.played)
            } else {
                SquareResult::HoldsBy(value, list.len() as u16)
            }
        }
    }
}

/// The result for a position with this value.
fn result_by_value<V: Values>(
    aim: &Aim,
    q: &Position,
    value: Value,
    values: &mut V,
) -> Result<SquareResult, ProbeFault>
    ensures game { V.source.is_honest values.old → IfOk result
        (IsResultBy (holds aim.now 0 value) aim.now.hero_first aim.now q.now value) }
    ensures legal { IfOk result (IsPlayedIn q.now) }
    ensures asked { HasEvaluatedSome (within q.now V.source) values.old result values.new }
{
    if !holds(aim, 0, value) {
        return Ok(SquareResult::Fails(value));
    }
    if !aim.hero_first {
        return Ok(SquareResult::Holds(value));
    }
    match ask_first_moves(aim, q, values) {
        Err(fault) => Err(fault),
        Ok(list) => Ok(result_by_moves(value, list.as_slice())),
    }
}

/// The result for a position.
fn result_of<V: Values>(
    q: &Position,
    stipulation: &Stipulation,
    values: &mut V,
) -> Result<SquareResult, ProbeFault>
    ensures game { V.source.is_honest values.old → IfOk result (IsResult stipulation.now q.now) }
    ensures legal { IfOk result (IsPlayedIn q.now) }
    ensures asked { HasEvaluatedSome (within q.now V.source) values.old result values.new }
{
    let aim = aim_of(stipulation, q.to_move());
    match ask_value(q, values) {
        Err(fault) => Err(fault),
        Ok(value) => result_by_value(&aim, q, value, values),
    }
}

/// The result for the man on another square.
fn result_on<V: Values>(
    question: &SurveyQuestion<'_>,
    x: Square,
    values: &mut V,
) -> Result<SquareResult, ProbeFault>
    ensures game { V.source.is_honest values.old → IfOk result
        (IsStanding question.now.position.now question.now.square question.now.stipulation.now x) }
    ensures legal { IfOk result (λ s.
        IsShown question.now.position.now question.now.square (record { at = x; standing = s })) }
    ensures asked { HasEvaluatedSome (within question.now.position.now V.source)
        values.old result values.new }
{
    match with_man_at(question.position, question.square, x) {
        None => Ok(SquareResult::Impossible),
        Some(q) => result_of(&q, question.stipulation, values),
    }
}

/// Appends a result to the list.
fn push_result(
    question: &SurveyQuestion<'_>,
    at: Square,
    standing: SquareResult,
    list: &mut ArrayVec<SurveyedSquare, 64>,
)
    requires room { array_vec_len list.old < 64 }
    requires shown { IsShown question.now.position.now question.now.square
        (record { at = at; standing = standing }) }
    requires listed { All (IsShown question.now.position.now question.now.square) list.old.items }
    ensures items { list.new.items ≡ list.old.items
        ++ (record { at = at; standing = standing }) ∷ [] }
    ensures len { array_vec_len list.new ≡ array_vec_len list.old + 1 }
    ensures listed { All (IsShown question.now.position.now question.now.square) list.new.items }
{
    list.push(SurveyedSquare { at, standing });
}

/// Adds the results for the squares from this number on, except the man's own.
fn push_results_from<V: Values>(
    question: &SurveyQuestion<'_>,
    number: u8,
    values: &mut V,
    list: &mut ArrayVec<SurveyedSquare, 64>,
) -> Result<(), ProbeFault>
    requires within { number ≤ 64 }
    requires room { array_vec_len list.old ≤ number }
    requires listed { All (IsShown question.now.position.now question.now.square) list.old.items }
    ensures listed { All (IsShown question.now.position.now question.now.square) list.new.items }
    ensures game { V.source.is_honest values.old
        → OnOk result ((more : List AStood) × AreStandings question.now.position.now
        question.now.square question.now.stipulation.now
        (squares_but question.now.square number (64 - number)) more
        × (list.new.items ≡ list.old.items ++ more)) }
    ensures asked { HasEvaluatedSome (within question.now.position.now V.source)
        values.old result values.new }
{
    if number >= 64 {
        return Ok(());
    }
    let x = Square::at(number);
    if number == question.square.number() {
        return push_results_from(question, number + 1, values, list);
    }
    match result_on(question, x, values) {
        Err(fault) => Err(fault),
        Ok(standing) => {
            push_result(question, x, standing, list);
            push_results_from(question, number + 1, values, list)
        }
    }
}

/// The result with the man on each other square, in the order a1, b1 up to h8.
pub fn push_results<V: Values>(
    question: &SurveyQuestion<'_>,
    values: &mut V,
) -> Result<ArrayVec<SurveyedSquare, 64>, ProbeFault>
    ensures game { V.source.is_honest values.old
        → IfOk result (λ list. AreStandings question.now.position.now
        question.now.square question.now.stipulation.now
        (other_squares question.now.square) list.items) }
    ensures listed { IfOk result (λ list.
        All (IsShown question.now.position.now question.now.square) list.items) }
    ensures asked { HasEvaluatedSome (within question.now.position.now V.source)
        values.old result values.new }
{
    let mut list = ArrayVec::new();
    match push_results_from(question, 0, values, &mut list) {
        Err(fault) => Err(fault),
        Ok(_) => Ok(list),
    }
}

/// The result of the stipulation with the man of a square on each other square, in the order a1, b1 up to h8.
pub fn survey<V: Values>(
    question: &SurveyQuestion<'_>,
    values: &mut V,
) -> Result<ArrayVec<SurveyedSquare, 64>, SurveyFault>
    ensures game { V.source.is_honest values.old
        → IfOk result (λ list. AreStandings question.now.position.now
        question.now.square question.now.stipulation.now
        (other_squares question.now.square) list.items) }
    ensures no_man { (result ≡ Err SurveyFault.NoMan)
        ↔ (man_at question.now.position.now.men question.now.square ≡ None) }
    ensures only { IfErr result (λ f. (f ≡ SurveyFault.NoMan)
        ⊎ ((fault : AProbeFault) × (f ≡ SurveyFault.Values fault))) }
    ensures asked { HasSurveyed (within question.now.position.now V.source)
        values.old result values.new }
{
    match question.position.man_at(question.square) {
        None => Err(SurveyFault::NoMan),
        Some(_) => match push_results(question, values) {
            Ok(list) => Ok(list),
            Err(fault) => Err(SurveyFault::Values(fault)),
        },
    }
}
