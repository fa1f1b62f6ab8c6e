//! The position in a report, and the outcome of one line.
ghost use Rattle.std.specs.Prelude.{◌≡◌};
ghost use Rattle.study_report.specs.Reported.{entry_count, refusal_count};

use crate::unread_line::Unread;

/// The number of a line, the number of entries before it, and how the study in the document stands, and the next one.
#[derive(Clone, Copy)]
pub struct ReportPosition {
    pub line: u32,
    pub entries: u32,
    pub unread: Unread,
}

/// The outcome of one line.
#[derive(Clone, Copy, Debug, PartialEq, Eq)]
pub enum LineOutcome {
    Nothing,
    /// A study is reported.
    Study,
    /// It is the remark of a game that was left out.
    LeftOut,
    /// It is the remark of a game that was read only up to a fault, whose block comes next.
    NotRead,
    /// It is the remark of a try, whose block comes next.
    Try,
    Refusal,
}

impl LineOutcome {
    /// The number of entries: one for a study or a game that was left out, else zero.
    pub fn entries(self) -> u32
        ensures { result ≡ entry_count self }
    {
        match self {
            LineOutcome::Study | LineOutcome::LeftOut => 1,
            LineOutcome::Nothing | LineOutcome::NotRead | LineOutcome::Try | LineOutcome::Refusal =>
                0,
        }
    }

    /// The number of lines refused: one or zero.
    pub fn refusals(self) -> u32
        ensures { result ≡ refusal_count self }
    {
        match self {
            LineOutcome::Refusal => 1,
            LineOutcome::Nothing
            | LineOutcome::Study
            | LineOutcome::LeftOut
            | LineOutcome::NotRead
            | LineOutcome::Try => 0,
        }
    }
}
