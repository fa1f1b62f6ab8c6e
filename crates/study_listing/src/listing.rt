//! The list of the found positions, written as they are found.
#![tactic(auto, using(study_search::proofs::Faults::can_report, study_search::proofs::Faults::if_reported))]

ghost use Rattle.std.specs.Prelude.{◌≡◌, ◌≤◌, ◌<◌, ℕ, Some, IfOk, IfErr, IfSome, IsErrOf};
ghost use Rattle.study_material.specs.Needs.{IsNeeded};
ghost use Rattle.study_search.specs.Faults.{CanReport, HasSameTables};
ghost use Rattle.study_search.specs.declared.themes.Theme.TheVariants as theme;
ghost use Rattle.study_values.specs.declared.values.ProbeFault.{ProbeFault as AFault};
ghost use Rattle.study_values.specs.Number.{cells_of};
ghost use Rattle.study_listing.specs.Filters.{no_filters};
ghost use Rattle.study_listing.specs.Lists.{AreSoMany, HasWritten, HasWrittenSome, HasStopped, IsSelectionOf};
ghost use Rattle.study_listing.specs.Requests.{class_of_request};
ghost use Rattle.study_listing.specs.Stops.{CanStop};

use crate::fault::Stop;
use crate::filters::{Filters, Selection};
use crate::listed::{listed_at, text_at};
use crate::request::Request;
use crate::text::Form;
use std::io::Write;
use study_board::Side;
use study_material::Class;
use study_prober::CellPages;
use study_search::{Search, Theme, longest_mate, next_found};
use study_text::write_text;
use study_values::{ProbeFault, Values, cells};

/// The most studies that a script holds: with 26 lines a study at most, 100,000 lines.
pub const MAX_STUDIES: u32 = 3_846;

/// The number of positions searched between two reports of progress.
const PIECE: u32 = 100_000;

/// The numbers from one on and below another.
#[derive(Clone, Copy, Debug, PartialEq, Eq)]
pub struct Numbers {
    pub from: u32,
    pub to: u32,
}

/// Receives the progress of a search.
pub trait Watch: Drop {
    /// The numbers below this one are searched, and so many positions found.
    fn report(&mut self, number: u32, end: u32, found: u32);
}

/// A watcher that does nothing.
#[derive(Drop)]
pub struct NoWatch;

impl Watch for NoWatch {
    fn report(&mut self, _number: u32, _end: u32, _found: u32) {}
}

/// The end of the next piece of a range.
fn piece_end(at: u32, to: u32) -> u32
    requires { at < to }
    ensures on { at < result }
    ensures within { result ≤ to }
{
    at.saturating_add(PIECE).min(to)
}

/// The number of listed positions in a range of numbers.
pub fn count_numbers<V: CellPages, H: Watch>(
    selection: &Selection,
    numbers: Numbers,
    values: &mut V,
    watch: &mut H,
) -> Result<u32, ProbeFault>
    ensures count { V.source.is_honest values.old
        → IfOk result (AreSoMany selection.now numbers.from numbers.to) }
    ensures faults { IfErr result (CanReport V.source (IsNeeded selection.now.search.class) values.old) }
    ensures honest { V.source.is_honest values.old → V.source.is_honest values.new }
    ensures tables { HasSameTables V.source values.old values.new }
{
    let mut at = numbers.from;
    let mut count = 0u32;
    while at < numbers.to {
        let end = piece_end(at, numbers.to);
        match next_found(&selection.search, at, end, values) {
            Err(fault) => return Err(fault),
            Ok(None) => {
                at = end;
                watch.report(at, numbers.to, count);
            }
            Ok(Some(number)) => match listed_at(selection, number, values) {
                Err(fault) => return Err(fault),
                Ok(None) => at = number + 1,
                Ok(Some(_)) => {
                    at = number + 1;
                    count += 1;
                }
            },
        }
    }
    Ok(count)
}

/// Writes the listed positions of a range of numbers, as they are found, and returns their count.
///
/// If a value cannot be read or the writer fails, what is found before that has been written.
pub fn list_numbers<V: CellPages, W: Write, H: Watch>(
    selection: &Selection,
    form: Form,
    numbers: Numbers,
    values: &mut V,
    out: &mut W,
    watch: &mut H,
) -> Result<u32, Stop>
    ensures list { V.source.is_honest values.old
        → IfOk result
        (HasWritten selection.now form numbers.from numbers.to
        (W.contents out.old) (W.contents out.new)) }
    ensures values { V.source.is_honest values.old → (f : AFault) → IsErrOf result (Stop.Values f)
        → HasWrittenSome selection.now form numbers.from numbers.to
        (W.contents out.old) (W.contents out.new) }
    ensures device { V.source.is_honest values.old → IsErrOf result Stop.WriteDevice
        → HasStopped selection.now form numbers.from numbers.to
        (W.contents out.old) (W.contents out.new) }
    ensures fits { ¬ (IsErrOf result Stop.TooManyStudies) }
    ensures faults { IfErr result (CanStop V.source (IsNeeded selection.now.search.class) values.old) }
    ensures honest { V.source.is_honest values.old → V.source.is_honest values.new }
    ensures tables { HasSameTables V.source values.old values.new }
{
    let mut at = numbers.from;
    let mut count = 0u32;
    while at < numbers.to {
        let end = piece_end(at, numbers.to);
        match next_found(&selection.search, at, end, values) {
            Err(fault) => return Err(Stop::Values(fault)),
            Ok(None) => {
                at = end;
                watch.report(at, numbers.to, count);
            }
            Ok(Some(number)) => match text_at(selection, form, number, values) {
                Err(fault) => return Err(Stop::Values(fault)),
                Ok(None) => at = number + 1,
                Ok(Some(text)) => match write_text(out, text.as_str().as_bytes()) {
                    Err(_) => return Err(Stop::WriteDevice),
                    Ok(()) => {
                        at = number + 1;
                        count += 1;
                    }
                },
            },
        }
    }
    Ok(count)
}

/// The number of listed positions.
pub fn count_found<V: CellPages, H: Watch>(
    selection: &Selection,
    values: &mut V,
    watch: &mut H,
) -> Result<u32, ProbeFault>
    ensures count { V.source.is_honest values.old
        → IfOk result (AreSoMany selection.now 0 (cells_of selection.now.search.class)) }
    ensures faults { IfErr result (CanReport V.source (IsNeeded selection.now.search.class) values.old) }
    ensures honest { V.source.is_honest values.old → V.source.is_honest values.new }
    ensures tables { HasSameTables V.source values.old values.new }
{
    let all = Numbers {
        from: 0,
        to: cells(selection.search.class),
    };
    count_numbers(selection, all, values, watch)
}

/// Writes the lines.
fn list_lines<V: CellPages, W: Write, H: Watch>(
    selection: &Selection,
    values: &mut V,
    out: &mut W,
    watch: &mut H,
) -> Result<u32, Stop>
    ensures list { V.source.is_honest values.old
        → IfOk result
        (HasWritten selection.now Form.Lines 0 (cells_of selection.now.search.class)
        (W.contents out.old) (W.contents out.new)) }
    ensures values { V.source.is_honest values.old → (f : AFault) → IsErrOf result (Stop.Values f)
        → HasWrittenSome selection.now Form.Lines 0 (cells_of selection.now.search.class)
        (W.contents out.old) (W.contents out.new) }
    ensures device { V.source.is_honest values.old → IsErrOf result Stop.WriteDevice
        → HasStopped selection.now Form.Lines 0 (cells_of selection.now.search.class)
        (W.contents out.old) (W.contents out.new) }
    ensures fits { ¬ (IsErrOf result Stop.TooManyStudies) }
    ensures faults { IfErr result (CanStop V.source (IsNeeded selection.now.search.class) values.old) }
    ensures honest { V.source.is_honest values.old → V.source.is_honest values.new }
    ensures tables { HasSameTables V.source values.old values.new }
{
    let all = Numbers {
        from: 0,
        to: cells(selection.search.class),
    };
    list_numbers(selection, Form::Lines, all, values, out, watch)
}

/// Writes the studies as a script. They are counted first, so that a list with too many is refused before its first line.
fn list_studies<V: CellPages, W: Write, H: Watch>(
    selection: &Selection,
    values: &mut V,
    out: &mut W,
    watch: &mut H,
) -> Result<u32, Stop>
    ensures list { V.source.is_honest values.old
        → IfOk result
        (HasWritten selection.now Form.Script 0 (cells_of selection.now.search.class)
        (W.contents out.old) (W.contents out.new)) }
    ensures few { V.source.is_honest values.old → IfOk result (λ count. count ≤ 3846) }
    ensures many { V.source.is_honest values.old → IsErrOf result Stop.TooManyStudies
        → (count : ℕ)
        × AreSoMany selection.now 0 (cells_of selection.now.search.class) count × (3846 < count) }
    ensures nothing { IsErrOf result Stop.TooManyStudies → out.new ≡ out.old }
    ensures values { V.source.is_honest values.old → (f : AFault) → IsErrOf result (Stop.Values f)
        → HasWrittenSome selection.now Form.Script 0 (cells_of selection.now.search.class)
        (W.contents out.old) (W.contents out.new) }
    ensures device { V.source.is_honest values.old → IsErrOf result Stop.WriteDevice
        → HasStopped selection.now Form.Script 0 (cells_of selection.now.search.class)
        (W.contents out.old) (W.contents out.new) }
    ensures faults { IfErr result (CanStop V.source (IsNeeded selection.now.search.class) values.old) }
    ensures honest { V.source.is_honest values.old → V.source.is_honest values.new }
    ensures tables { HasSameTables V.source values.old values.new }
{
    let all = Numbers {
        from: 0,
        to: cells(selection.search.class),
    };
    match count_numbers(selection, all, values, &mut NoWatch) {
        Err(fault) => Err(Stop::Values(fault)),
        Ok(count) => {
            if count > MAX_STUDIES {
                return Err(Stop::TooManyStudies);
            }
            list_numbers(selection, Form::Script, all, values, out, watch)
        }
    }
}

/// Writes the listed positions, as they are found, and returns their count. A script with too many studies is refused before its first line.
pub fn list_found<V: CellPages, W: Write, H: Watch>(
    selection: &Selection,
    form: Form,
    values: &mut V,
    out: &mut W,
    watch: &mut H,
) -> Result<u32, Stop>
    ensures list { V.source.is_honest values.old
        → IfOk result
        (HasWritten selection.now form 0 (cells_of selection.now.search.class)
        (W.contents out.old) (W.contents out.new)) }
    ensures few { V.source.is_honest values.old → form ≡ Form.Script
        → IfOk result (λ count. count ≤ 3846) }
    ensures many { V.source.is_honest values.old → IsErrOf result Stop.TooManyStudies
        → (form ≡ Form.Script)
        × ((count : ℕ)
        × AreSoMany selection.now 0 (cells_of selection.now.search.class) count × (3846 < count)) }
    ensures nothing { IsErrOf result Stop.TooManyStudies → out.new ≡ out.old }
    ensures values { V.source.is_honest values.old → (f : AFault) → IsErrOf result (Stop.Values f)
        → HasWrittenSome selection.now form 0 (cells_of selection.now.search.class)
        (W.contents out.old) (W.contents out.new) }
    ensures device { V.source.is_honest values.old → IsErrOf result Stop.WriteDevice
        → HasStopped selection.now form 0 (cells_of selection.now.search.class)
        (W.contents out.old) (W.contents out.new) }
    ensures faults { IfErr result (CanStop V.source (IsNeeded selection.now.search.class) values.old) }
    ensures honest { V.source.is_honest values.old → V.source.is_honest values.new }
    ensures tables { HasSameTables V.source values.old values.new }
{
    match form {
        Form::Lines => list_lines(selection, values, out, watch),
        Form::Script => list_studies(selection, values, out, watch),
    }
}

/// The selection of a request: for the longest mate of a side, the mates of that length; `None` if there is no mate.
pub fn selection_of<V: Values>(
    request: &Request,
    values: &mut V,
) -> Result<Option<Selection>, ProbeFault>
    ensures game { V.source.is_honest values.old → IfOk result (IsSelectionOf request.now) }
    ensures class { IfOk result (λ s. IfSome s (λ s.
        s.search.class ≡ class_of_request request.now)) }
    ensures faults { IfErr result
        (CanReport V.source (IsNeeded (class_of_request request.now)) values.old) }
    ensures honest { V.source.is_honest values.old → V.source.is_honest values.new }
    ensures tables { HasSameTables V.source values.old values.new }
{
    match request {
        Request::Positions(selection) => Ok(Some(*selection)),
        Request::Longest(class, side) => match longest_mate(*class, *side, values) {
            Err(fault) => Err(fault),
            Ok(None) => Ok(None),
            Ok(Some(plies)) => Ok(Some(mates_in(*class, *side, plies))),
        },
    }
}

/// The mates in so many plies by a side, which is to move.
fn mates_in(class: Class, side: Side, plies: u8) -> Selection
    ensures search { result.search
        ≡ record { class = class; theme = theme.MateIn plies; side = Some side } }
    ensures filters { result.filters ≡ no_filters }
{
    Selection {
        search: Search {
            class,
            theme: Theme::MateIn(plies),
            side: Some(side),
        },
        filters: Filters::none(),
    }
}
