//! The text of a survey, and writing it.
ghost use Rattle.std.specs.Prelude.{◌≡◌, ◌++◌, ◌↔◌, List, ℕ, true, None, OnOk, IfOk, Err, codes, decimal};
ghost use Rattle.std.specs.List.{All, flat_map};
ghost use Rattle.std.specs.Io.KnownBytes.{Appends};
ghost use Rattle.study_board.specs.Position.{man_at};
ghost use Rattle.study_moves.specs.Rules.{is_legal};
ghost use Rattle.study_values.specs.declared.values.ProbeFault.{ProbeFault as AProbeFault};
ghost use Rattle.study_marks.specs.Marks.{value_words};
ghost use Rattle.study_text.specs.Taken.{TakesPrefix};
ghost use Rattle.study_facts.specs.Asked.{within};
ghost use Rattle.study_view.specs.Asked.{HasSurveyed};
ghost use Rattle.study_view.specs.Shown.{IsShown};
ghost use Rattle.study_view.specs.Survey.{with_man_moved, survey_line, square_result_text, standing_line, IsSurvey};

use crate::fault::SurveyFault;
use crate::survey_squares::{
    SquareResult, SurveyQuestion, SurveyedSquare, push_results, with_man_at,
};
use crate::words::{add_square, letter_of};
use std::alloc::{AllocError, Allocator};
use std::io::Write;
use study_board::{Man, Position};
use study_facts::{add_counted, add_value};
use study_marks::Stipulation;
use study_moves::Move;
use study_pgn::{add_san, add_stipulation};
use study_text::{Text, write_text};
use study_values::{Value, Values};

/// The man, and the stipulation.
#[tactic(auto, unfolding(crate::specs::Survey::survey_line))]
fn add_man<A: Allocator>(
    text: &mut Text<'_, A>,
    man: &Man,
    stipulation: &Stipulation,
) -> Result<(), AllocError>
    ensures { OnOk result (text.new ≡ text.old ++ survey_line man.now stipulation.now) }
{
    text.add(b"survey ")?;
    text.add(&[letter_of(man.kind)])?;
    add_square(text, man.at)?;
    text.add(b" ")?;
    add_stipulation(text, *stipulation)?;
    text.add(b"\n")
}

/// The only first move that holds.
fn add_only<A: Allocator>(
    text: &mut Text<'_, A>,
    q: &Position,
    value: Value,
    m: Move,
) -> Result<(), AllocError>
    requires { is_legal q.now m ≡ true }
    ensures { OnOk result (text.new ≡ text.old
        ++ square_result_text q.now (SquareResult.Only value m)) }
{
    text.add(b"only ")?;
    add_value(text, value)?;
    text.add(b" ")?;
    add_san(text, q, m)
}

/// The number of first moves that hold.
fn add_many<A: Allocator>(
    text: &mut Text<'_, A>,
    value: Value,
    count: u16,
) -> Result<(), AllocError>
    ensures { OnOk result (text.new ≡ text.old
        ++ (codes "holds " ++ (value_words value ++ (codes " " ++ decimal count)))) }
{
    text.add(b"holds ")?;
    add_value(text, value)?;
    text.add(b" ")?;
    text.add_number(count as u32)
}

fn add_word_of<A: Allocator>(
    text: &mut Text<'_, A>,
    word: &[u8],
    value: Value,
) -> Result<(), AllocError>
    ensures { OnOk result (text.new ≡ text.old ++ (word.now ++ value_words value)) }
{
    text.add(word)?;
    add_value(text, value)
}

/// The result for the man on a square.
fn add_standing<A: Allocator>(
    text: &mut Text<'_, A>,
    question: &SurveyQuestion<'_>,
    x: &SurveyedSquare,
) -> Result<(), AllocError>
    requires { IsShown question.now.position.now question.now.square x.now }
    ensures { OnOk result (text.new ≡ text.old
        ++ square_result_text
        (with_man_moved question.now.position.now question.now.square x.now.at) x.now.standing) }
{
    match x.standing {
        SquareResult::Impossible => text.add(b"-"),
        SquareResult::Fails(value) => add_word_of(text, b"fails ", value),
        SquareResult::Holds(value) => add_word_of(text, b"holds ", value),
        SquareResult::HoldsBy(value, count) => add_many(text, value, count),
        SquareResult::Only(value, m) => match with_man_at(
            question.position,
            question.square,
            x.at,
        ) {
            None => Ok(()),
            Some(q) => add_only(text, &q, value, m),
        },
    }
}

/// The line of a square.
#[tactic(auto, unfolding(crate::specs::Survey::standing_line))]
fn add_line<A: Allocator>(
    text: &mut Text<'_, A>,
    question: &SurveyQuestion<'_>,
    x: &SurveyedSquare,
) -> Result<(), AllocError>
    requires { IsShown question.now.position.now question.now.square x.now }
    ensures { OnOk result (text.new ≡ text.old
        ++ standing_line question.now.position.now question.now.square x.now) }
{
    add_square(text, x.at)?;
    text.add(b" ")?;
    add_standing(text, question, x)?;
    text.add(b"\n")
}

/// A line for each of the squares.
fn add_lines<A: Allocator>(
    text: &mut Text<'_, A>,
    question: &SurveyQuestion<'_>,
    list: &[SurveyedSquare],
) -> Result<(), AllocError>
    requires { All (IsShown question.now.position.now question.now.square) list.now }
    ensures { OnOk result (text.new ≡ text.old
        ++ flat_map (standing_line question.now.position.now question.now.square) list.now) }
{
    for x in list {
        add_line(text, question, x)?;
    }
    Ok(())
}

/// The text, from the result for each square.
fn text_of<'a, A: Allocator>(
    alloc: &'a A,
    question: &SurveyQuestion<'_>,
    man: &Man,
    list: &[SurveyedSquare],
) -> Result<Text<'a, A>, AllocError>
    requires { All (IsShown question.now.position.now question.now.square) list.now }
    ensures { IfOk result (λ text. text ≡ survey_line man.now question.now.stipulation.now
        ++ flat_map (standing_line question.now.position.now question.now.square) list.now) }
{
    let mut text = Text::new(alloc);
    add_man(&mut text, man, question.stipulation)?;
    add_lines(&mut text, question, list)?;
    Ok(text)
}

/// The text of the survey.
fn survey_text<'a, A: Allocator, V: Values>(
    alloc: &'a A,
    question: &SurveyQuestion<'_>,
    values: &mut V,
) -> Result<Text<'a, A>, SurveyFault>
    ensures text { V.source.is_honest values.old → IfOk result
        (IsSurvey question.now.position.now question.now.square question.now.stipulation.now) }
    ensures no_man { (result ≡ Err SurveyFault.NoMan)
        ↔ (man_at question.now.position.now.men question.now.square ≡ None) }
    ensures device { ¬ (result ≡ Err SurveyFault.Device) }
    ensures asked { HasSurveyed (within question.now.position.now V.source)
        values.old result values.new }
{
    match question.position.man_at(question.square) {
        None => Err(SurveyFault::NoMan),
        Some(man) => match push_results(question, values) {
            Ok(list) => match text_of(alloc, question, &man, list.as_slice()) {
                Ok(text) => Ok(text),
                Err(_) => Err(SurveyFault::OutOfMemory),
            },
            Err(fault) => Err(SurveyFault::Values(fault)),
        },
    }
}

/// Writes the result of a stipulation with the man of a square on each other square.
///
/// The values are probed, and the text is completed in memory: want of memory, and a value that cannot be read, are reported before the first byte. A
/// writer that fails or accepts nothing ends the call; it then has a prefix of the text.
pub fn write_survey<'a, A: Allocator, V: Values, W: Write>(
    alloc: &'a A,
    question: &SurveyQuestion<'_>,
    values: &mut V,
    out: &mut W,
) -> Result<(), SurveyFault>
    ensures ok { V.source.is_honest values.old → OnOk result ((text : List ℕ)
        × IsSurvey question.now.position.now question.now.square question.now.stipulation.now text
        × Appends (W.contents out.old) (W.contents out.new) text) }
    ensures no_man { (result ≡ Err SurveyFault.NoMan)
        ↔ (man_at question.now.position.now.men question.now.square ≡ None) }
    ensures device { V.source.is_honest values.old
        → result ≡ Err SurveyFault.Device → (text : List ℕ)
        × IsSurvey question.now.position.now question.now.square question.now.stipulation.now text
        × TakesPrefix (W.contents out.old) (W.contents out.new) text }
    ensures gone { result ≡ Err SurveyFault.NoMan → out.new ≡ out.old }
    ensures memory { result ≡ Err SurveyFault.OutOfMemory → out.new ≡ out.old }
    ensures no_value { (fault : AProbeFault)
        → result ≡ Err (SurveyFault.Values fault) → out.new ≡ out.old }
    ensures asked { HasSurveyed (within question.now.position.now V.source)
        values.old result values.new }
{
    let text = survey_text(alloc, question, values)?;
    match write_text(out, text.as_slice()) {
        Ok(()) => Ok(()),
        Err(_) => Err(SurveyFault::Device),
    }
}
