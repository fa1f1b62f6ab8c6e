//! A report as a sheet of diagrams.
use std::alloc::Allocator;
use std::io::Write;
use study_entry::EntryInfo;
use study_marks::Bench;
use study_page::write_place;
use study_print::write_refused;
use study_reply::LineRefusal;
use study_report::{Report, ReviewFault, WriteFault};
use study_values::Values;

/// Studies as places on a sheet, and a line for each refused line. No value is probed.
#[derive(Clone, Copy, Debug, PartialEq, Eq)]
pub struct Sheet;

impl Report for Sheet {
    ghost use Rattle.study_report.specs.Lines.{no_remark};
    ghost use Rattle.study_print.specs.Pages.{refusal_text};
    ghost use Rattle.study_page.specs.Sheet.{IsPlaceOf};

    ghost tells = { λ plain info text. IsPlaceOf plain info text };

    ghost form = { λ plain info text. IsPlaceOf plain info text };

    ghost refusal = { λ number line reply. refusal_text number line reply };

    ghost remark = { λ number line. no_remark number line };

    // Nothing is kept.
    ghost lists = { λ sheet reported. Unit {0} };

    #[tactic(auto, using(crate::proofs::NothingAsked::nothing_asked))]
    fn add_study<'a, 'b, A: Allocator, B: Allocator, V: Values, W: Write>(
        &mut self,
        alloc: &'a A,
        bench: &Bench<'b, B>,
        _values: &mut V,
        info: EntryInfo,
        out: &mut W,
    ) -> Result<(), ReviewFault> {
        match write_place(alloc, bench, info, out) {
            Ok(()) => Ok(()),
            Err(WriteFault::OutOfMemory) => Err(ReviewFault::OutOfMemory),
            Err(WriteFault::Device) => Err(ReviewFault::Device),
        }
    }

    fn add_refusal<'a, 'b, A: Allocator, B: Allocator, W: Write>(
        &mut self,
        alloc: &'a A,
        number: u32,
        line: &[u8],
        refused: &LineRefusal<'b, B>,
        out: &mut W,
    ) -> Result<(), WriteFault> {
        write_refused(alloc, number, line, refused, out)
    }

    fn add_remark<'a, A: Allocator, W: Write>(
        &mut self,
        _alloc: &'a A,
        _number: u32,
        _line: &[u8],
        _out: &mut W,
    ) -> Result<(), WriteFault> {
        Ok(())
    }
}
