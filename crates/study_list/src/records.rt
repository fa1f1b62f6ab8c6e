//! A report as records of comma-separated values.
use crate::remarks::write_remark;
use std::alloc::Allocator;
use std::io::Write;
use study_entry::EntryInfo;
use study_marks::Bench;
use study_page::{write_record, write_refused_record};
use study_print::refusal_name;
use study_reply::LineRefusal;
use study_report::{Report, ReviewFault, WriteFault};
use study_values::Values;

/// Studies, refused lines and games that were left out as records, in the order of the script.
#[derive(Clone, Copy, Debug, PartialEq, Eq)]
pub struct Records;

impl Report for Records {
    ghost use Rattle.study_page.specs.Csv.{IsRecordOf, IsSomeRecordOf};
    ghost use Rattle.study_list.specs.List.{refusal_record, remark_record};

    ghost tells = { λ plain info text. IsRecordOf plain info text };

    ghost form = { λ plain info text. IsSomeRecordOf plain info text };

    ghost refusal = { λ number line reply. refusal_record number line reply };

    ghost remark = { λ number line. remark_record number line };

    // Nothing is kept.
    ghost lists = { λ records reported. Unit {0} };

    fn add_study<'a, 'b, A: Allocator, B: Allocator, V: Values, W: Write>(
        &mut self,
        alloc: &'a A,
        bench: &Bench<'b, B>,
        values: &mut V,
        info: EntryInfo,
        out: &mut W,
    ) -> Result<(), ReviewFault> {
        write_record(alloc, bench, values, info, out)
    }

    fn add_refusal<'a, 'b, A: Allocator, B: Allocator, W: Write>(
        &mut self,
        alloc: &'a A,
        number: u32,
        line: &[u8],
        refused: &LineRefusal<'b, B>,
        out: &mut W,
    ) -> Result<(), WriteFault> {
        let name = refusal_name(alloc, refused)?;
        write_refused_record(alloc, number, line, name.as_slice(), out)
    }

    fn add_remark<'a, A: Allocator, W: Write>(
        &mut self,
        alloc: &'a A,
        number: u32,
        line: &[u8],
        out: &mut W,
    ) -> Result<(), WriteFault> {
        write_remark(alloc, number, line, out)
    }
}
