//! Answers to requests.
ghost use Rattle.std.specs.Prelude.{◌≡◌, ◌≤◌, true, is_some, IfSome, IfOk, IfErr};
ghost use Rattle.study_command.specs.Paths.{steps_of, is_path_word};
ghost use Rattle.study_web.specs.Answers.{IsAnswer, IsMakeAnswer, IsMadeFile, IsMakeDenial, IsNoMemory, IsPassedList, IsPrinted, IsReviewed, IsRun};
ghost use Rattle.study_web.specs.Answers.{answer_make};
ghost use Rattle.study_web.specs.Answers.{IsFoundTo, IsImported, AreNeeded, IsOutOfMemory, IsRowTo, IsSurveyedTo, IsTableList, IsUnread, IsViewed};
ghost use Rattle.study_web.specs.Answers.{IsWording, IsRemarkList};
ghost use Rattle.study_web.specs.Answers.{MayEnd, OverNeeded};
ghost use Rattle.study_web.specs.Request.{request_of};

use crate::answers::core_words::words_of;
use crate::answers::find::found_of;
use crate::answers::imported_script::imported_of;
use crate::answers::make::{MakeFault, make_file};
use crate::answers::remark_rows::remarks_of;
use crate::answers::replies::replies_over;
use crate::answers::report_pages::printed_of;
use crate::answers::row::row_of;
use crate::answers::script::{review_of, view_of};
use crate::answers::setup::{passed_of, positions_in, tables_of};
use crate::answers::survey::survey_of;
use crate::class_files::spans_for;
use crate::file_spans::{FileSpan, TableFiles};
use crate::reply::{Answer, AnswerFault, answer_of, fault_answer, ran};
use crate::request::{Request, Rowed, SurveyRequest, read_request};
use crate::request_fault::RequestFault;
use crate::saved::Saved;
use crate::store::SpanStore;
use std::alloc::Allocator;
use study_import::Choice;
use study_listing::{Piece, classes_for};
use study_material::Class;
use study_notation::Start;
use study_reply::Refusal;
use study_view::classes_needed;

/// Answers a request for a script, over the files of the request.
///
/// A request is a line of words: `run`, `make CLASS`, `view PATH`, `review`, `report`, `survey SQUARE SIDE GOAL FEN`, `tables`,
/// `passed FEN`, `find CLASS THEME [FILTER ..] FROM TO`, `import`, `import SIDE GOAL`, `import-up-to-faults` with the same words or none,
/// `row win FEN`, `row draw FEN`, `words`, `remarks`. For `import` the script is PGN, as Latin-1 or UTF-8. Files are read by pages and
/// must be tables: for `view`, `review` and `report` those that the script's positions need, for `survey`, `row` and `find` those that the
/// position or the class needs. Other files are not opened. What `run` saves is put into the cells, one for each class.
pub fn answer<'f, 'a, A: Allocator>(
    alloc: &'a A,
    request: &[u8],
    script: &[u8],
    files: &TableFiles<'f>,
    saved: &[Saved<'a, A>],
) -> Answer<'a, A>
    requires { IfSome files.now.pages (λ n. (1 ≤ n) × (n ≤ 4096)) }
    ensures { IsAnswer files.now.spans.now files.now.bytes.now (is_some files.now.pages) script.now
        (request_of request.now) result.text.items result.ended }
{
    match read_request(request) {
        Err(refusal) => fault_answer(alloc, RequestFault::Refused(refusal)),
        Ok(Request::Run) => answer_run(alloc, script, files, saved),
        Ok(Request::Make(class)) => answer_make(alloc, class, files.spans, files.bytes),
        Ok(Request::View(path)) => answer_view(alloc, path.word, script, files),
        Ok(Request::Review) => answer_review(alloc, script, files),
        Ok(Request::Report) => answer_report(alloc, script, files),
        Ok(Request::Survey(asked)) => answer_survey(alloc, &asked, files),
        Ok(Request::Tables) => answer_tables(alloc, script),
        Ok(Request::Passed(start)) => answer_passed(alloc, &start),
        Ok(Request::Find(piece)) => of_find(alloc, &piece, files),
        Ok(Request::Unread(fault)) => fault_answer(alloc, RequestFault::Unread(fault)),
        Ok(Request::Import(choice)) => of_import(alloc, script, choice),
        Ok(Request::Row(row)) => of_row(alloc, &row, files),
        Ok(Request::Words) => of_words(alloc),
        Ok(Request::Remarks) => of_remarks(alloc, script),
    }
}

fn answer_run<'f, 'a, A: Allocator>(
    alloc: &'a A,
    script: &[u8],
    files: &TableFiles<'f>,
    saved: &[Saved<'a, A>],
) -> Answer<'a, A>
    requires { IfSome files.now.pages (λ n. (1 ≤ n) × (n ≤ 4096)) }
    ensures { IsRun files.now.spans.now files.now.bytes.now
        (is_some files.now.pages) script.now result.text.items result.ended }
{
    let ended = replies_over(alloc, script, files.spans, files.bytes, saved, files.pages);
    ran(ended.text, ended.summary)
}

/// The file of a class, or why it cannot be made.
fn file_of<'a, A: Allocator>(
    alloc: &'a A,
    class: Class,
    spans: &[FileSpan],
    bytes: &[u8],
) -> Result<Vec<u8, &'a A>, AnswerFault>
    ensures file { IfOk result (λ file. IsMadeFile spans.now bytes.now class file.items) }
    ensures none { IfErr result (MayEnd (IsMakeDenial spans.now bytes.now class) IsNoMemory) }
{
    match make_file(alloc, class, spans, bytes) {
        Ok(file) => Ok(file),
        Err(fault) => Err(AnswerFault::Denied(of_make_fault(fault))),
    }
}

/// Why a file cannot be made.
fn of_make_fault(fault: MakeFault) -> RequestFault
    ensures { result ≡ answer_make fault }
{
    match fault {
        MakeFault::MissingTable(class) => RequestFault::Refused(Refusal::MissingTable(class)),
        MakeFault::File(class, fault) => RequestFault::OfFile(class, Refusal::File(fault)),
        MakeFault::OtherClass(class, other) => RequestFault::OfFile(
            class,
            Refusal::OtherClass(other),
        ),
        MakeFault::DistanceTooLarge => RequestFault::Refused(Refusal::DistanceTooLarge),
        MakeFault::OutOfMemory => RequestFault::Refused(Refusal::OutOfMemory),
    }
}

fn answer_make<'a, A: Allocator>(
    alloc: &'a A,
    class: Class,
    spans: &[FileSpan],
    bytes: &[u8],
) -> Answer<'a, A>
    ensures { IsMakeAnswer spans.now bytes.now class result.text.items result.ended }
{
    answer_of(alloc, file_of(alloc, class, spans, bytes))
}

fn view_over<'f, 'a, A: Allocator>(
    alloc: &'a A,
    path: &[u8],
    script: &[u8],
    files: &TableFiles<'f>,
) -> Answer<'a, A>
    requires pages { IfSome files.now.pages (λ n. (1 ≤ n) × (n ≤ 4096)) }
    requires path { is_path_word path.now ≡ true }
    ensures { IsViewed files.now.spans.now files.now.bytes.now script.now
        (steps_of path.now) result.text.items result.ended }
{
    let mut store = SpanStore::new(alloc, files.spans, files.bytes, &[]);
    answer_of(alloc, view_of(alloc, path, script, &mut store, files.pages))
}

fn review_over<'f, 'a, A: Allocator>(
    alloc: &'a A,
    script: &[u8],
    files: &TableFiles<'f>,
) -> Answer<'a, A>
    requires { IfSome files.now.pages (λ n. (1 ≤ n) × (n ≤ 4096)) }
    ensures { IsReviewed files.now.spans.now files.now.bytes.now script.now
        result.text.items result.ended }
{
    let mut store = SpanStore::new(alloc, files.spans, files.bytes, &[]);
    match review_of(alloc, script, &mut store, files.pages) {
        Ok(reported) => ran(reported.text, reported.summary),
        Err(denial) => fault_answer(alloc, denial),
    }
}

fn report_over<'f, 'a, A: Allocator>(
    alloc: &'a A,
    script: &[u8],
    files: &TableFiles<'f>,
) -> Answer<'a, A>
    requires { IfSome files.now.pages (λ n. (1 ≤ n) × (n ≤ 4096)) }
    ensures { IsPrinted files.now.spans.now files.now.bytes.now script.now
        result.text.items result.ended }
{
    let mut store = SpanStore::new(alloc, files.spans, files.bytes, &[]);
    match printed_of(alloc, script, &mut store, files.pages) {
        Ok(reported) => ran(reported.text, reported.summary),
        Err(denial) => fault_answer(alloc, denial),
    }
}

/// The files that the script's positions need, or why these are not known.
fn files_for<'a, A: Allocator>(
    alloc: &'a A,
    script: &[u8],
    spans: &[FileSpan],
) -> Result<Vec<FileSpan, &'a A>, AnswerFault>
    ensures some { IfOk result (λ those. AreNeeded spans.now script.now those.items) }
    ensures none { IfErr result (MayEnd IsOutOfMemory (IsUnread script.now)) }
{
    match positions_in(alloc, script) {
        Err(fault) => Err(AnswerFault::Stopped(fault)),
        Ok(positions) => {
            let classes = classes_needed(positions.as_slice());
            match spans_for(alloc, classes.as_slice(), spans) {
                Err(_) => Err(AnswerFault::Denied(RequestFault::Refused(Refusal::OutOfMemory))),
                Ok(those) => Ok(those),
            }
        }
    }
}

fn answer_view<'a, A: Allocator>(
    alloc: &'a A,
    path: &[u8],
    script: &[u8],
    files: &TableFiles<'_>,
) -> Answer<'a, A>
    requires pages { IfSome files.now.pages (λ n. (1 ≤ n) × (n ≤ 4096)) }
    requires path { is_path_word path.now ≡ true }
    ensures { OverNeeded files.now.spans.now script.now
        (λ those. IsViewed those files.now.bytes.now script.now (steps_of path.now))
        result.text.items result.ended }
{
    match files_for(alloc, script, files.spans) {
        Err(why) => answer_of(alloc, Err(why)),
        Ok(those) => {
            let needed = TableFiles {
                spans: those.as_slice(),
                bytes: files.bytes,
                pages: files.pages,
            };
            view_over(alloc, path, script, &needed)
        }
    }
}

fn answer_review<'a, A: Allocator>(
    alloc: &'a A,
    script: &[u8],
    files: &TableFiles<'_>,
) -> Answer<'a, A>
    requires { IfSome files.now.pages (λ n. (1 ≤ n) × (n ≤ 4096)) }
    ensures { OverNeeded files.now.spans.now script.now (λ those.
        IsReviewed those files.now.bytes.now script.now) result.text.items result.ended }
{
    match files_for(alloc, script, files.spans) {
        Err(why) => answer_of(alloc, Err(why)),
        Ok(those) => {
            let needed = TableFiles {
                spans: those.as_slice(),
                bytes: files.bytes,
                pages: files.pages,
            };
            review_over(alloc, script, &needed)
        }
    }
}

fn answer_report<'a, A: Allocator>(
    alloc: &'a A,
    script: &[u8],
    files: &TableFiles<'_>,
) -> Answer<'a, A>
    requires { IfSome files.now.pages (λ n. (1 ≤ n) × (n ≤ 4096)) }
    ensures { OverNeeded files.now.spans.now script.now (λ those.
        IsPrinted those files.now.bytes.now script.now) result.text.items result.ended }
{
    match files_for(alloc, script, files.spans) {
        Err(why) => answer_of(alloc, Err(why)),
        Ok(those) => {
            let needed = TableFiles {
                spans: those.as_slice(),
                bytes: files.bytes,
                pages: files.pages,
            };
            report_over(alloc, script, &needed)
        }
    }
}

/// Opens only the files that the position needs.
fn answer_survey<'a, A: Allocator>(
    alloc: &'a A,
    asked: &SurveyRequest,
    files: &TableFiles<'_>,
) -> Answer<'a, A>
    requires { IfSome files.now.pages (λ n. (1 ≤ n) × (n ≤ 4096)) }
    ensures { IsSurveyedTo files.now.spans.now files.now.bytes.now asked.now.square
        asked.now.stipulation asked.now.start result.text.items result.ended }
{
    let classes = classes_needed(&[asked.start.position.copied()]);
    match spans_for(alloc, classes.as_slice(), files.spans) {
        Err(_) => fault_answer(alloc, RequestFault::Refused(Refusal::OutOfMemory)),
        Ok(those) => {
            let mut store = SpanStore::new(alloc, those.as_slice(), files.bytes, &[]);
            answer_of(alloc, survey_of(alloc, asked, &mut store, files.pages))
        }
    }
}

/// Opens only the files that the position needs.
fn of_row<'a, A: Allocator>(alloc: &'a A, row: &Rowed, files: &TableFiles<'_>) -> Answer<'a, A>
    requires { IfSome files.now.pages (λ n. (1 ≤ n) × (n ≤ 4096)) }
    ensures { IsRowTo files.now.spans.now files.now.bytes.now row.now.outcome row.now.start
        result.text.items result.ended }
{
    let classes = classes_needed(&[row.start.position.copied()]);
    match spans_for(alloc, classes.as_slice(), files.spans) {
        Err(_) => fault_answer(alloc, RequestFault::Refused(Refusal::OutOfMemory)),
        Ok(those) => {
            let mut store = SpanStore::new(alloc, those.as_slice(), files.bytes, &[]);
            answer_of(alloc, row_of(alloc, row, &mut store, files.pages))
        }
    }
}

fn answer_tables<'a, A: Allocator>(alloc: &'a A, script: &[u8]) -> Answer<'a, A>
    ensures { IsTableList script.now result.text.items result.ended }
{
    answer_of(alloc, tables_of(alloc, script))
}

fn answer_passed<'a, A: Allocator>(alloc: &'a A, start: &Start) -> Answer<'a, A>
    ensures { IsPassedList start.now result.text.items result.ended }
{
    answer_of(alloc, passed_of(alloc, start))
}

/// Opens only the files that are needed.
fn of_find<'a, A: Allocator>(alloc: &'a A, piece: &Piece, files: &TableFiles<'_>) -> Answer<'a, A>
    requires { IfSome files.now.pages (λ n. (1 ≤ n) × (n ≤ 4096)) }
    ensures { IsFoundTo files.now.spans.now files.now.bytes.now piece.now
        result.text.items result.ended }
{
    let classes = classes_for(&piece.request);
    match spans_for(alloc, classes.as_slice(), files.spans) {
        Err(_) => fault_answer(alloc, RequestFault::Refused(Refusal::OutOfMemory)),
        Ok(those) => {
            let mut store = SpanStore::new(alloc, those.as_slice(), files.bytes, &[]);
            answer_of(alloc, found_of(alloc, piece, &mut store, files.pages))
        }
    }
}

fn of_import<'a, A: Allocator>(alloc: &'a A, pgn: &[u8], choice: Choice) -> Answer<'a, A>
    ensures { IsImported pgn.now choice result.text.items result.ended }
{
    answer_of(alloc, imported_of(alloc, pgn, choice))
}

fn of_words<'a, A: Allocator>(alloc: &'a A) -> Answer<'a, A>
    ensures { IsWording result.text.items result.ended }
{
    answer_of(alloc, words_of(alloc))
}

fn of_remarks<'a, A: Allocator>(alloc: &'a A, script: &[u8]) -> Answer<'a, A>
    ensures { IsRemarkList script.now result.text.items result.ended }
{
    answer_of(alloc, remarks_of(alloc, script))
}
