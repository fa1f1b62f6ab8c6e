//! The answer to a request over values: the list, or its length.
ghost use Rattle.std.specs.Prelude.{◌≡◌, IfOk, IfErr, IfSome, OnOk};
ghost use Rattle.study_material.specs.declared.class.Class.{Class as AClass};
ghost use Rattle.study_material.specs.Needs.{IsNeeded};
ghost use Rattle.study_search.specs.Faults.{CanReport};
ghost use Rattle.study_listing.specs.Requests.{class_of_request};
ghost use Rattle.study_listing.specs.Stops.{CanStop};
ghost use Rattle.study_find_program.specs.Listed.{AreSoManyOf, HasCounted, HasListed, HasPut, HasAnswered};
ghost use Rattle.study_find_program.specs.Stopped.{CountStops, ListStops, PutStops, IsStopped};

use crate::options::Output;
use crate::status::put_count;
use std::io::Write;
use study_listing::{
    Form, Request, Selection, Stop, Watch, count_found, list_found, need_tables, selection_of,
};
use study_prober::CellPages;
use study_values::ProbeFault;

/// The number of listed positions: zero if the request selects none.
fn count_of<V: CellPages, H: Watch>(
    selection: Option<Selection>,
    values: &mut V,
    watch: &mut H,
) -> Result<u32, ProbeFault>
    ensures count { V.source.is_honest values.old → IfOk result (AreSoManyOf selection) }
    ensures faults { (class : AClass) → IfSome selection (λ s. s.search.class ≡ class)
        → IfErr result (CanReport V.source (IsNeeded class) values.old) }
{
    match selection {
        None => Ok(0),
        Some(selection) => count_found(&selection, values, watch),
    }
}

/// Writes the number of listed positions.
fn write_count<V: CellPages, W: Write, H: Watch>(
    selection: Option<Selection>,
    values: &mut V,
    out: &mut W,
    watch: &mut H,
) -> Result<(), Stop>
    ensures count { V.source.is_honest values.old
        → OnOk result (HasCounted selection (W.contents out.old) (W.contents out.new)) }
    ensures stops { V.source.is_honest values.old
        → IfErr result (CountStops selection (W.contents out.old) (W.contents out.new)) }
    ensures faults { (class : AClass) → IfSome selection (λ s. s.search.class ≡ class)
        → IfErr result (CanStop V.source (IsNeeded class) values.old) }
{
    match count_of(selection, values, watch) {
        Err(fault) => Err(Stop::Values(fault)),
        Ok(count) => match put_count(out, count) {
            Err(_) => Err(Stop::WriteDevice),
            Ok(()) => Ok(()),
        },
    }
}

/// Writes the list.
fn write_list<V: CellPages, W: Write, H: Watch>(
    form: Form,
    selection: Option<Selection>,
    values: &mut V,
    out: &mut W,
    watch: &mut H,
) -> Result<(), Stop>
    ensures list { V.source.is_honest values.old
        → OnOk result (HasListed form selection (W.contents out.old) (W.contents out.new)) }
    ensures stops { V.source.is_honest values.old
        → IfErr result (ListStops form selection (W.contents out.old) (W.contents out.new)) }
    ensures faults { (class : AClass) → IfSome selection (λ s. s.search.class ≡ class)
        → IfErr result (CanStop V.source (IsNeeded class) values.old) }
{
    match selection {
        None => Ok(()),
        Some(selection) => match list_found(&selection, form, values, out, watch) {
            Err(stop) => Err(stop),
            Ok(_) => Ok(()),
        },
    }
}

fn write<V: CellPages, W: Write, H: Watch>(
    output: Output,
    selection: Option<Selection>,
    values: &mut V,
    out: &mut W,
    watch: &mut H,
) -> Result<(), Stop>
    ensures put { V.source.is_honest values.old
        → OnOk result (HasPut output selection (W.contents out.old) (W.contents out.new)) }
    ensures stops { V.source.is_honest values.old
        → IfErr result (PutStops output selection (W.contents out.old) (W.contents out.new)) }
    ensures faults { (class : AClass) → IfSome selection (λ s. s.search.class ≡ class)
        → IfErr result (CanStop V.source (IsNeeded class) values.old) }
{
    match output {
        Output::Count => write_count(selection, values, out, watch),
        Output::List(form) => write_list(form, selection, values, out, watch),
    }
}

/// Writes the positions of a request. If a table is missing nothing is written.
pub fn answer<V: CellPages, W: Write, H: Watch>(
    request: &Request,
    output: Output,
    values: &mut V,
    out: &mut W,
    watch: &mut H,
) -> Result<(), Stop>
    ensures answered { V.source.is_honest values.old
        → OnOk result (HasAnswered request.now output (W.contents out.old) (W.contents out.new)) }
    ensures stopped { V.source.is_honest values.old
        → IfErr result (IsStopped request.now output (W.contents out.old) (W.contents out.new)) }
    ensures faults { IfErr result
        (CanStop V.source (IsNeeded (class_of_request request.now)) values.old) }
{
    if let Err(fault) = need_tables(request, values) {
        return Err(Stop::Values(fault));
    }
    match selection_of(request, values) {
        Err(fault) => Err(Stop::Values(fault)),
        Ok(selection) => write(output, selection, values, out, watch),
    }
}
