//! A list piece by piece.
#![tactic(auto, using(study_search::proofs::Faults::can_report, study_search::proofs::Faults::if_reported))]

ghost use Rattle.std.specs.Prelude.{◌≡◌, ◌∷◌, [], IfErr, IfSome, OnOk, IsErrOf};
ghost use Rattle.std.specs.Io.KnownBytes.{Appends};
ghost use Rattle.study_material.specs.declared.class.Class.{Class as AClass};
ghost use Rattle.study_material.specs.Needs.{IsNeeded};
ghost use Rattle.study_search.specs.Faults.{CanReport};
ghost use Rattle.study_listing.specs.Lists.{IsSelectionOf};
ghost use Rattle.study_listing.specs.Requests.{class_of_request};
ghost use Rattle.study_listing.specs.Pieces.{AreLookedAt, AreHeld, end_of, how_far, IsMissing, HasWrittenPiece, HasWrittenLines};
ghost use Rattle.study_listing.specs.Stops.{CanStop};

use crate::fault::Stop;
use crate::filters::Selection;
use crate::listing::{NoWatch, Numbers, list_numbers, selection_of};
use crate::piece_words::Piece;
use crate::request::Request;
use crate::text::Form;
use arrayvec::{ArrayString, ArrayVec};
use itoa::Buffer;
use std::io::Write;
use study_material::{CLASS_COUNT, Class, order};
use study_prober::CellPages;
use study_text::write_text;
use study_values::{ProbeFault, Values, cells};

fn just(class: Class) -> ArrayVec<Class, CLASS_COUNT>
    ensures { result.items ≡ class ∷ [] }
{
    let mut list = ArrayVec::new();
    list.push(class);
    list
}

/// The classes whose tables are used, each after those that it needs.
pub fn classes_for(request: &Request) -> ArrayVec<Class, CLASS_COUNT>
    ensures { AreLookedAt request.now result.items }
{
    let alone = request.is_of_one_table();
    if alone {
        return just(request.class());
    }
    order(request.class())
}

/// Refuses a request if a table that it uses is missing, naming the first class without one.
pub fn need_tables<V: Values>(request: &Request, values: &V) -> Result<(), ProbeFault>
    ensures held { OnOk result (AreHeld request.now (V.source.held values.now)) }
    ensures missing { IfErr result (IsMissing request.now (V.source.held values.now)) }
    ensures faults { IfErr result
        (CanReport V.source (IsNeeded (class_of_request request.now)) values.now) }
{
    let classes = classes_for(request);
    for class in classes.as_slice() {
        if !values.holds(*class) {
            return Err(ProbeFault::NoTable(*class));
        }
    }
    Ok(())
}

/// The end of the range.
fn end_of(piece: &Piece) -> u32
    ensures { result ≡ end_of piece.now }
{
    piece.numbers.to.min(cells(piece.request.class()))
}

/// Writes the lines of the listed positions.
fn write_lines<V: CellPages, W: Write>(
    selection: Option<Selection>,
    numbers: Numbers,
    values: &mut V,
    out: &mut W,
) -> Result<(), Stop>
    ensures lines { V.source.is_honest values.old
        → OnOk result
        (HasWrittenLines selection numbers.from numbers.to
        (W.contents out.old) (W.contents out.new)) }
    ensures fits { ¬ (IsErrOf result Stop.TooManyStudies) }
    ensures faults { (class : AClass) → IfSome selection (λ s. s.search.class ≡ class)
        → IfErr result (CanStop V.source (IsNeeded class) values.old) }
{
    match selection {
        None => Ok(()),
        Some(selection) => {
            match list_numbers(&selection, Form::Lines, numbers, values, out, &mut NoWatch) {
                Err(stop) => Err(stop),
                Ok(_) => Ok(()),
            }
        }
    }
}

/// `to 100000 of 331776`
#[tactic(auto, unfolding(crate::specs::Pieces::how_far))]
fn how_far(end: u32, all: u32) -> ArrayString<32>
    ensures { result.bytes ≡ how_far end all }
{
    let mut buffer = Buffer::new();
    let mut line = ArrayString::new();
    line.push_str("to ");
    line.push_str(buffer.format(end));
    line.push_str(" of ");
    line.push_str(buffer.format(all));
    line.push_str("\n");
    line
}

/// Writes the progress of the list among all numbers of the class.
fn write_how_far<W: Write>(out: &mut W, end: u32, all: u32) -> Result<(), Stop>
    ensures written { OnOk result
        (Appends (W.contents out.old) (W.contents out.new) (how_far end all)) }
    ensures device { IfErr result (λ stop. stop ≡ Stop.WriteDevice) }
    ensures fits { ¬ (IsErrOf result Stop.TooManyStudies) }
{
    match write_text(out, how_far(end, all).as_str().as_bytes()) {
        Err(_) => Err(Stop::WriteDevice),
        Ok(()) => Ok(()),
    }
}

/// Writes the lines, and the progress of the list.
fn write_selected<V: CellPages, W: Write>(
    piece: &Piece,
    selection: Option<Selection>,
    values: &mut V,
    out: &mut W,
) -> Result<(), Stop>
    ensures text { V.source.is_honest values.old → IsSelectionOf piece.now.request selection
        → OnOk result (HasWrittenPiece piece.now (W.contents out.old) (W.contents out.new)) }
    ensures fits { ¬ (IsErrOf result Stop.TooManyStudies) }
    ensures faults { (class : AClass) → IfSome selection (λ s. s.search.class ≡ class)
        → IfErr result (CanStop V.source (IsNeeded class) values.old) }
{
    let end = end_of(piece);
    let numbers = Numbers {
        from: piece.numbers.from,
        to: end,
    };
    match write_lines(selection, numbers, values, out) {
        Err(stop) => Err(stop),
        Ok(()) => write_how_far(out, end, cells(piece.request.class())),
    }
}

/// Writes the lines of the listed positions between the numbers, then the progress of the list: `to N of M`. All numbers of the class from the first
/// and below N are searched, and M is how many numbers the class has. After an error, the content of `out` is not a piece.
pub fn write_piece<V: CellPages, W: Write>(
    piece: &Piece,
    values: &mut V,
    out: &mut W,
) -> Result<(), Stop>
    ensures text { V.source.is_honest values.old
        → OnOk result (HasWrittenPiece piece.now (W.contents out.old) (W.contents out.new)) }
    ensures faults { IfErr result
        (CanStop V.source (IsNeeded (class_of_request piece.now.request)) values.old) }
    ensures fits { ¬ (IsErrOf result Stop.TooManyStudies) }
{
    if let Err(fault) = need_tables(&piece.request, values) {
        return Err(Stop::Values(fault));
    }
    match selection_of(&piece.request, values) {
        Err(fault) => Err(Stop::Values(fault)),
        Ok(selection) => write_selected(piece, selection, values, out),
    }
}
