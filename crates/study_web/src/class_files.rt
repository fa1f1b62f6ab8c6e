//! The files of some classes, among those of the request.
ghost use Rattle.std.specs.Prelude.{◌≡◌, ◌++◌, IfOk, OnOk};
ghost use Rattle.study_web.specs.Spans.{is_for_one, span_for, spans_for};

use crate::file_spans::FileSpan;
use std::alloc::{AllocError, Allocator};
use study_material::Class;

fn is_for_one(classes: &[Class], span: &FileSpan) -> bool
    ensures { result ≡ is_for_one classes.now span.now }
{
    classes.iter().any(|class| span.class == *class as usize)
}

fn add_span<A: Allocator>(
    list: &mut Vec<FileSpan, &A>,
    classes: &[Class],
    span: &FileSpan,
) -> Result<(), AllocError>
    ensures { OnOk result (list.new.items ≡ list.old.items ++ span_for classes.now span.now) }
{
    if is_for_one(classes, span) {
        list.push(*span)?;
    }
    Ok(())
}

fn add_spans<A: Allocator>(
    list: &mut Vec<FileSpan, &A>,
    classes: &[Class],
    spans: &[FileSpan],
) -> Result<(), AllocError>
    ensures { OnOk result (list.new.items ≡ list.old.items ++ spans_for classes.now spans.now) }
{
    match spans.split_first() {
        None => Ok(()),
        Some((span, rest)) => {
            add_span(list, classes, span)?;
            add_spans(list, classes, rest)
        }
    }
}

/// The spans of these classes.
pub fn spans_for<'a, A: Allocator>(
    alloc: &'a A,
    classes: &[Class],
    spans: &[FileSpan],
) -> Result<Vec<FileSpan, &'a A>, AllocError>
    ensures { IfOk result (λ list. list.items ≡ spans_for classes.now spans.now) }
{
    let mut list = Vec::new(alloc);
    add_spans(&mut list, classes, spans)?;
    Ok(list)
}
