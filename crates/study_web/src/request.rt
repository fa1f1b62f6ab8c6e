//! The request of a page: a line of words.
ghost use Rattle.std.specs.Prelude.{◌≡◌, true, Some, IfSome};
ghost use Rattle.std.specs.Option.{option_map};
ghost use Rattle.std.specs.List.{list_all};
ghost use Rattle.study_command.specs.Parser.{one_word};
ghost use Rattle.study_notation.specs.Fen.{start_of};
ghost use Rattle.study_text.specs.Words.{words};
ghost use Rattle.study_marks.specs.Edits.{is_printable};
ghost use Rattle.study_script.specs.Replies.{class_parsed};
ghost use Rattle.study_listing.specs.Requests.{outcome_named};
ghost use Rattle.study_web.specs.Request.{without_arguments, make_asked, view_asked, with_start, goal_begun, stipulation_begun};
ghost use Rattle.study_web.specs.Request.{survey_asked, row_asked, import_asked, word_asked, request_of, request_seen, asks_seen};
ghost use Rattle.study_web.specs.Asked.{passed as passed_asked};

use crate::find_words::read_find;
use crate::words::read_square;
use study_board::Square;
use study_command::{
    PathText, SyntaxFault, as_text, read_mate_moves, read_one_word, read_path_word, read_side,
};
use study_import::Choice;
use study_listing::{Piece, Unread};
use study_marks::{Goal, Stipulation, is_printable};
use study_material::Class;
use study_notation::{FenFault, Start, read_fen};
use study_reply::Refusal;
use study_search::Outcome;
use study_text::next_word;

/// A man of a position, and the stipulation to survey it for.
#[derive(Drop)]
pub struct SurveyRequest {
    pub square: Square,
    pub stipulation: Stipulation,
    pub start: Start,
}

/// A position, and the result that the side to move is to keep.
#[derive(Drop)]
pub struct Rowed {
    pub outcome: Outcome,
    pub start: Start,
}

/// A request.
#[derive(Drop)]
pub enum Request<'r> {
    /// `run`: the replies to the script.
    Run,
    /// `make CLASS`: the file of the class's table.
    Make(Class),
    /// `view PATH`: the view of the study that the script leaves in the document.
    View(PathText<'r>),
    /// `review`: the review of the script's studies.
    Review,
    /// `report`: the page of the script's studies.
    Report,
    /// `survey SQUARE SIDE GOAL FEN`: the result with the man of the square on each other square.
    Survey(SurveyRequest),
    /// `tables`: the classes that the script's positions need.
    Tables,
    /// `passed FEN`: the squares that a pawn may have passed in a double step just before.
    Passed(Start),
    /// `find CLASS THEME [FILTER ..] FROM TO`: the positions of the class with the theme, among these numbers.
    Find(Piece),
    /// `find` with words that name no known theme or filter.
    Unread(Unread),
    /// `import` or `import SIDE GOAL`: the script of the games of PGN; the stipulation is for the games that have none of their own. With the word
    /// `import-up-to-faults`, a game with a fault among its moves is read up to there.
    Import(Choice),
    /// `words`: words that the page shows without a reply that has them.
    Words,
    /// `remarks`: the remarks of the script, apart.
    Remarks,
    /// `row win FEN`, `row draw FEN`: how many only moves in a row the defender can make the side to move find.
    Row(Rowed),
}

/// The request that a line of printable words spells, or the first reason why it is not valid.
#[tactic(auto, using(study_command::proofs::Printable::printable_behind), unfolding(crate::specs::Request::request_of))]
pub fn read_request(line: &[u8]) -> Result<Request<'_>, Refusal>
    ensures { asks_seen result ≡ request_of line.now }
{
    if !is_printable(line) {
        return Err(Refusal::Form(SyntaxFault::BadByte));
    }
    match next_word(line) {
        None => Err(Refusal::Form(SyntaxFault::UnknownCommand)),
        Some((word, rest)) => read_words(word, rest),
    }
}

#[tactic(auto, unfolding(crate::specs::Request::word_asked))]
fn read_words<'r>(word: &'r [u8], rest: &'r [u8]) -> Result<Request<'r>, Refusal>
    requires { list_all is_printable rest.now ≡ true }
    ensures { asks_seen result ≡ word_asked word.now rest.now }
{
    if word == b"run".as_slice() {
        without_arguments(rest, Request::Run)
    } else if word == b"view".as_slice() {
        read_view(rest)
    } else if word == b"review".as_slice() {
        without_arguments(rest, Request::Review)
    } else if word == b"report".as_slice() {
        without_arguments(rest, Request::Report)
    } else if word == b"survey".as_slice() {
        read_survey(rest)
    } else if word == b"tables".as_slice() {
        without_arguments(rest, Request::Tables)
    } else if word == b"passed".as_slice() {
        read_passed(rest)
    } else if word == b"make".as_slice() {
        read_make(rest)
    } else if word == b"find".as_slice() {
        read_find(rest)
    } else if word == b"import".as_slice() {
        read_import(rest, false)
    } else if word == b"import-up-to-faults".as_slice() {
        read_import(rest, true)
    } else if word == b"row".as_slice() {
        read_row(rest)
    } else if word == b"words".as_slice() {
        without_arguments(rest, Request::Words)
    } else if word == b"remarks".as_slice() {
        without_arguments(rest, Request::Remarks)
    } else {
        Err(Refusal::Form(SyntaxFault::UnknownCommand))
    }
}

/// A request without arguments.
fn without_arguments<'r>(rest: &[u8], request: Request<'r>) -> Result<Request<'r>, Refusal>
    ensures { asks_seen result ≡ without_arguments (request_seen request.entry) (words rest.now) }
{
    match next_word(rest) {
        None => Ok(request),
        Some(_) => Err(Refusal::Form(SyntaxFault::BadArguments)),
    }
}

fn read_make(rest: &[u8]) -> Result<Request<'_>, Refusal>
    requires { list_all is_printable rest.now ≡ true }
    ensures { asks_seen result ≡ make_asked (one_word (words rest.now)) }
{
    match read_one_word(rest) {
        None => Err(Refusal::Form(SyntaxFault::BadArguments)),
        Some(name) => match read_class(as_text(name)) {
            Some(class) => Ok(Request::Make(class)),
            None => Err(Refusal::NotAClass),
        },
    }
}

#[tactic(auto, unfolding(study_script::specs::Replies::class_parsed))]
pub(crate) fn read_class(name: &str) -> Option<Class>
    ensures { result ≡ class_parsed name.now }
{
    match Class::parse(name) {
        Ok(class) => Some(class),
        Err(_) => None,
    }
}

fn read_view(rest: &[u8]) -> Result<Request<'_>, Refusal>
    ensures { asks_seen result ≡ view_asked (one_word (words rest.now)) }
{
    match read_one_word(rest) {
        None => Err(Refusal::Form(SyntaxFault::BadArguments)),
        Some(word) => match read_path_word(word) {
            Some(path) => Ok(Request::View(path)),
            None => Err(Refusal::Form(SyntaxFault::BadArguments)),
        },
    }
}

fn read_start(rest: &[u8]) -> Result<Start, FenFault>
    requires { list_all is_printable rest.now ≡ true }
    ensures { result ≡ start_of rest.now }
{
    read_fen(as_text(rest))
}

fn read_passed(rest: &[u8]) -> Result<Request<'_>, Refusal>
    requires { list_all is_printable rest.now ≡ true }
    ensures { asks_seen result ≡ with_start passed_asked (start_of rest.now) }
{
    match read_start(rest) {
        Ok(start) => Ok(Request::Passed(start)),
        Err(fault) => Err(Refusal::Fen(fault)),
    }
}

/// `win`, `draw` or `mate K`, and the rest.
#[tactic(auto, using(study_command::proofs::Printable::printable_behind))]
fn read_goal(rest: &[u8]) -> Option<(Goal, &[u8])>
    ensures value { option_map (λ found. (found.0, found.1.now)) result
        ≡ goal_begun (words rest.now) rest.now }
    ensures printable { list_all is_printable rest.now ≡ true
        → IfSome result (λ found. list_all is_printable found.1.now ≡ true) }
{
    let (word, rest) = next_word(rest)?;
    if word == b"win".as_slice() {
        return Some((Goal::Win, rest));
    }
    if word == b"draw".as_slice() {
        return Some((Goal::Draw, rest));
    }
    if word == b"mate".as_slice() {
        let (count, rest) = next_word(rest)?;
        let moves = read_mate_moves(count)?;
        return Some((Goal::MateIn(moves), rest));
    }
    None
}

/// `SIDE GOAL`, and the rest.
#[tactic(auto, using(study_command::proofs::Printable::printable_behind))]
fn read_stipulation(rest: &[u8]) -> Option<(Stipulation, &[u8])>
    ensures value { option_map (λ found. (found.0, found.1.now)) result
        ≡ stipulation_begun (words rest.now) rest.now }
    ensures printable { list_all is_printable rest.now ≡ true
        → IfSome result (λ found. list_all is_printable found.1.now ≡ true) }
{
    let (side, rest) = next_word(rest)?;
    match (read_side(side), read_goal(rest)) {
        (Some(hero), Some((goal, rest))) => Some((Stipulation { hero, goal }, rest)),
        _ => None,
    }
}

#[tactic(auto, using(study_command::proofs::Printable::printable_behind))]
fn read_survey(rest: &[u8]) -> Result<Request<'_>, Refusal>
    requires { list_all is_printable rest.now ≡ true }
    ensures { asks_seen result ≡ survey_asked (words rest.now) rest.now }
{
    let Some((word, rest)) = next_word(rest) else {
        return Err(Refusal::Form(SyntaxFault::BadArguments));
    };
    let Some(square) = read_square(word) else {
        return Err(Refusal::Form(SyntaxFault::BadArguments));
    };
    let Some((stipulation, rest)) = read_stipulation(rest) else {
        return Err(Refusal::Form(SyntaxFault::UnknownStipulation));
    };
    match read_start(rest) {
        Err(fault) => Err(Refusal::Fen(fault)),
        Ok(start) => Ok(Request::Survey(SurveyRequest {
            square,
            stipulation,
            start,
        })),
    }
}

/// `win` or `draw`.
fn read_outcome(word: &[u8]) -> Option<Outcome>
    ensures { result ≡ outcome_named word.now }
{
    if word == b"win".as_slice() {
        Some(Outcome::Win)
    } else if word == b"draw".as_slice() {
        Some(Outcome::Draw)
    } else {
        None
    }
}

/// `win FEN` or `draw FEN`.
#[tactic(auto, using(study_command::proofs::Printable::printable_behind))]
fn read_row(rest: &[u8]) -> Result<Request<'_>, Refusal>
    requires { list_all is_printable rest.now ≡ true }
    ensures { asks_seen result ≡ row_asked (words rest.now) rest.now }
{
    let Some((word, rest)) = next_word(rest) else {
        return Err(Refusal::Form(SyntaxFault::BadArguments));
    };
    let Some(outcome) = read_outcome(word) else {
        return Err(Refusal::Form(SyntaxFault::BadArguments));
    };
    match read_start(rest) {
        Err(fault) => Err(Refusal::Fen(fault)),
        Ok(start) => Ok(Request::Row(Rowed { outcome, start })),
    }
}

/// Nothing, or `SIDE GOAL`.
#[tactic(auto, using(study_command::proofs::Printable::printable_behind))]
fn read_import(rest: &[u8], up_to_faults: bool) -> Result<Request<'_>, Refusal>
    ensures { asks_seen result ≡ import_asked up_to_faults (words rest.now) rest.now }
{
    if next_word(rest).is_none() {
        return Ok(Request::Import(Choice::whole_file(None, up_to_faults)));
    }
    match read_stipulation(rest) {
        None => Err(Refusal::Form(SyntaxFault::UnknownStipulation)),
        Some((stipulation, behind)) => without_arguments(
            behind,
            Request::Import(Choice::whole_file(Some(stipulation), up_to_faults)),
        ),
    }
}
