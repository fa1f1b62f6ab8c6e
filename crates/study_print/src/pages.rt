//! A report in printed pages.
ghost use Rattle.std.specs.Prelude.{◌≡◌, []};

use crate::entries::with_left_out;
use crate::refusals::write_refused;
use crate::remarks::write_remark;
use crate::watch::Watch;
use std::alloc::Allocator;
use std::io::Write;
use study_entry::EntryInfo;
use study_html::Html;
use study_marks::Bench;
use study_page::{Listed, write_page};
use study_reply::LineRefusal;
use study_report::{Report, ReviewFault, WriteFault, is_left_out};
use study_values::Values;

/// The number of entries so far.
#[derive(Clone, Copy, Debug, PartialEq, Eq)]
pub enum EntryCount {
    Nothing,
    One,
    Several,
}

impl EntryCount {
    /// With one entry more.
    pub fn next(self) -> EntryCount
        ensures nothing { self ≡ EntryCount.Nothing → result ≡ EntryCount.One }
        ensures one { self ≡ EntryCount.One → result ≡ EntryCount.Several }
        ensures several { self ≡ EntryCount.Several → result ≡ EntryCount.Several }
    {
        match self {
            EntryCount::Nothing => EntryCount::One,
            EntryCount::One | EntryCount::Several => EntryCount::Several,
        }
    }
}

/// A page for each study, a line for each refused one, and a paragraph for each remark. For each printed study, and for each game that was left out, its
/// row of the list at the end is kept, with its number.
#[derive(Drop)]
pub struct Pages<'s, S: Allocator, N: Watch> {
    alloc: &'s S,
    /// The rows of the list at the end.
    pub rows: Html<'s, S>,
    pub count: EntryCount,
    watch: N,
}

impl<'s, S: Allocator, N: Watch> Pages<'s, S, N> {
    /// There is no entry.
    pub fn new(alloc: &'s S, watch: N) -> Self
        ensures rows { result.rows ≡ [] }
        ensures count { result.count ≡ EntryCount.Nothing }
    {
        Pages {
            alloc,
            rows: Html::new(alloc),
            count: EntryCount::Nothing,
            watch,
        }
    }
}

impl<'s, S: Allocator, N: Watch> Report for Pages<'s, S, N> {
    ghost use Rattle.study_page.specs.Page.{IsPageOf};
    ghost use Rattle.study_print.specs.Entries.{AreEntries};
    ghost use Rattle.study_print.specs.Pages.{IsEntryAs, refusal_text};
    ghost use Rattle.study_print.specs.Remarks.{remark_text};

    ghost tells = { λ plain info text. IsPageOf plain info text };

    ghost form = { λ plain info text. IsEntryAs plain info text };

    ghost refusal = { λ number line reply. refusal_text number line reply };

    ghost remark = { λ number line. remark_text number line };

    ghost lists = { λ pages entries. AreEntries pages.count pages.rows entries };

    fn add_study<'a, 'b, A: Allocator, B: Allocator, V: Values, W: Write>(
        &mut self,
        alloc: &'a A,
        bench: &Bench<'b, B>,
        values: &mut V,
        info: EntryInfo,
        out: &mut W,
    ) -> Result<(), ReviewFault> {
        let list = Listed {
            alloc: self.alloc,
            rows: &self.rows,
        };
        let number = info.number;
        let rows = write_page(alloc, bench, values, info, list, out)?;
        self.rows = rows;
        self.count = self.count.next();
        self.watch.report(number);
        Ok(())
    }

    fn add_refusal<'a, 'b, A: Allocator, B: Allocator, W: Write>(
        &mut self,
        alloc: &'a A,
        number: u32,
        line: &[u8],
        refused: &LineRefusal<'b, B>,
        out: &mut W,
    ) -> Result<(), WriteFault> {
        write_refused(alloc, number, line, refused, out)
    }

    fn add_remark<'a, A: Allocator, W: Write>(
        &mut self,
        alloc: &'a A,
        number: u32,
        line: &[u8],
        out: &mut W,
    ) -> Result<(), WriteFault> {
        if !is_left_out(line) {
            return write_remark(alloc, number, line, out);
        }
        let more = with_left_out(self.alloc, &self.rows, number, line)?;
        write_remark(alloc, number, line, out)?;
        self.rows = more;
        self.count = self.count.next();
        self.watch.report(number);
        Ok(())
    }
}
