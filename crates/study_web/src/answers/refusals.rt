//! A report of refused lines only.

use std::alloc::Allocator;
use std::io::Write;
use study_entry::EntryInfo;
use study_facts::ReviewFault;
use study_marks::Bench;
use study_reply::LineRefusal;
use study_report::{Lines, Report, WriteFault};
use study_values::Values;

/// Refused lines as `refused 7 NoTable KRK`; nothing is printed for studies.
#[derive(Clone, Copy, Debug, PartialEq, Eq)]
pub struct Refusals;

impl Report for Refusals {
    ghost use Rattle.std.specs.Prelude.{◌≡◌, []};
    ghost use Rattle.study_report.specs.Lines.{refusal_line, no_remark};
    ghost use Rattle.study_web.specs.Views.{tells_nothing};

    ghost tells = { λ plain info text. tells_nothing plain info text };

    ghost form = { λ plain info text. text ≡ [] };

    ghost refusal = { λ number line reply. refusal_line number reply };

    ghost remark = { λ number line. no_remark number line };

    // Nothing is kept.
    ghost lists = { λ refusals reported. Unit {0} };

    fn add_study<'a, 'b, A: Allocator, B: Allocator, V: Values, W: Write>(
        &mut self,
        _alloc: &'a A,
        _bench: &Bench<'b, B>,
        _values: &mut V,
        _info: EntryInfo,
        _out: &mut W,
    ) -> Result<(), ReviewFault> {
        Ok(())
    }

    fn add_refusal<'a, 'b, A: Allocator, B: Allocator, W: Write>(
        &mut self,
        alloc: &'a A,
        number: u32,
        line: &[u8],
        refused: &LineRefusal<'b, B>,
        out: &mut W,
    ) -> Result<(), WriteFault> {
        Lines.add_refusal(alloc, number, line, refused, out)
    }

    fn add_remark<'a, A: Allocator, W: Write>(
        &mut self,
        _alloc: &'a A,
        _number: u32,
        _line: &[u8],
        _out: &mut W,
    ) -> Result<(), WriteFault> {
        Ok(())
    }
}
