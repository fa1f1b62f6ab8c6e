//! The command in a line of a script.
ghost use Rattle.std.specs.Prelude.{◌≡◌, true};
ghost use Rattle.std.specs.Option.{option_map};
ghost use Rattle.std.specs.List.{list_all};
ghost use Rattle.study_text.specs.Words.{words};
ghost use Rattle.study_marks.specs.Edits.{is_printable};
ghost use Rattle.study_command.specs.Parser.{count_parsed, mate_moves_of, side_parsed, goal_of};
ghost use Rattle.study_command.specs.Parser.{stipulation_of, tag_parsed, insert_asked, solve_asked, pgn_asked};
ghost use Rattle.study_command.specs.Parser.{tag_asked, path_in, one_word, two_words, arguments_needed, word_asked, word_of};
ghost use Rattle.study_command.specs.Parser.{begins_comment, command_of, line_seen, count_seen, path_seen};

use crate::arguments::{as_text, read_one_word, read_text, read_two_words};
use crate::command::{
    Command, FenCommand, Keyword, NodeCommand, NodeQuery, PathText, SolveDepth, SyntaxFault,
    TableCommand,
};
use crate::path_text::{read_path_word, read_place};
use study_board::Side;
use study_marks::{Goal, MateMoves, Stipulation, TagName, is_printable};
use study_text::next_word;

/// The command of the line: `None` for a comment or an empty line, otherwise a command, or the first fault of form.
#[tactic(auto, using(crate::proofs::Printable::printable_behind), unfolding(crate::specs::Parser::command_of))]
pub fn read_command(line: &[u8]) -> Result<Option<Command<'_>>, SyntaxFault>
    ensures { line_seen result ≡ command_of line.now }
{
    let Some((first, rest)) = next_word(line) else {
        return Ok(None);
    };
    if begins_comment(first) {
        return Ok(None);
    }
    if !is_printable(line) {
        return Err(SyntaxFault::BadByte);
    }
    match read_keyword(first) {
        Some(word) => read_arguments(word, rest),
        None => Err(SyntaxFault::UnknownCommand),
    }
}

fn begins_comment(word: &[u8]) -> bool
    ensures { result ≡ begins_comment word.now }
{
    match word {
        [first, ..] => *first == b'#',
        [] => false,
    }
}

/// The first word of a line that has a command.
#[tactic(auto, unfolding(crate::specs::Parser::word_of))]
pub fn read_keyword(word: &[u8]) -> Option<Keyword>
    ensures { result ≡ word_of word.now }
{
    if word == b"position".as_slice() {
        Some(Keyword::FromFen(FenCommand::Position))
    } else if word == b"shift".as_slice() {
        Some(Keyword::FromFen(FenCommand::Shift))
    } else if word == b"stipulate".as_slice() {
        Some(Keyword::Stipulate)
    } else if word == b"insert".as_slice() {
        Some(Keyword::Insert)
    } else if word == b"delete".as_slice() {
        Some(Keyword::Node(NodeCommand::Delete))
    } else if word == b"promote".as_slice() {
        Some(Keyword::Node(NodeCommand::Promote))
    } else if word == b"tag".as_slice() {
        Some(Keyword::Tag)
    } else if word == b"mark".as_slice() {
        Some(Keyword::Node(NodeCommand::Mark))
    } else if word == b"moves".as_slice() {
        Some(Keyword::Query(NodeQuery::Moves))
    } else if word == b"fen".as_slice() {
        Some(Keyword::Query(NodeQuery::Fen))
    } else if word == b"solve".as_slice() {
        Some(Keyword::Solve)
    } else if word == b"build".as_slice() {
        Some(Keyword::Table(TableCommand::Build))
    } else if word == b"load".as_slice() {
        Some(Keyword::Table(TableCommand::Load))
    } else if word == b"save".as_slice() {
        Some(Keyword::Table(TableCommand::Save))
    } else if word == b"verify".as_slice() {
        Some(Keyword::Table(TableCommand::Verify))
    } else if word == b"pgn".as_slice() {
        Some(Keyword::Pgn)
    } else {
        None
    }
}

/// The command of a first word and its arguments. A text must not be empty, and all other arguments are words.
#[tactic(auto, unfolding(crate::specs::Parser::word_asked))]
fn read_arguments(word: Keyword, rest: &[u8]) -> Result<Option<Command<'_>>, SyntaxFault>
    requires { list_all is_printable rest.now ≡ true }
    ensures { line_seen result ≡ word_asked word rest.now }
{
    match word {
        Keyword::FromFen(word) => match read_text(rest) {
            Some(fen) => Ok(Some(Command::FromFen(word, fen))),
            None => Err(SyntaxFault::BadArguments),
        },
        Keyword::Query(word) => match read_path(rest) {
            Some(path) => Ok(Some(Command::Query(word, path))),
            None => Err(SyntaxFault::BadArguments),
        },
        Keyword::Node(word) => match read_path(rest) {
            Some(path) => Ok(Some(Command::Node(word, path))),
            None => Err(SyntaxFault::BadArguments),
        },
        Keyword::Table(word) => match read_name(rest) {
            Some(name) => Ok(Some(Command::Table(word, name))),
            None => Err(SyntaxFault::BadArguments),
        },
        Keyword::Stipulate => match read_stipulation(rest) {
            Some(stipulation) => Ok(Some(Command::Stipulate(stipulation))),
            None => Err(SyntaxFault::UnknownStipulation),
        },
        Keyword::Insert => read_insert(rest),
        Keyword::Tag => read_tag(rest),
        Keyword::Solve => read_solve(rest),
        Keyword::Pgn => read_pgn(rest),
    }
}

/// A path, if there is exactly one word and it is a path.
fn read_path(rest: &[u8]) -> Option<PathText<'_>>
    ensures { option_map path_seen result ≡ path_in (one_word (words rest.now)) }
{
    read_path_word(read_one_word(rest)?)
}

/// A name, if there is exactly one word.
fn read_name(rest: &[u8]) -> Option<&str>
    requires { list_all is_printable rest.now ≡ true }
    ensures { option_map (λ name. name.now) result ≡ one_word (words rest.now) }
{
    Some(as_text(read_one_word(rest)?))
}

fn read_insert(rest: &[u8]) -> Result<Option<Command<'_>>, SyntaxFault>
    requires { list_all is_printable rest.now ≡ true }
    ensures { line_seen result ≡ arguments_needed (insert_asked (two_words (words rest.now))) }
{
    let Some((path, san)) = read_two_words(rest) else {
        return Err(SyntaxFault::BadArguments);
    };
    match read_path_word(path) {
        Some(path) => Ok(Some(Command::Insert(path, as_text(san)))),
        None => Err(SyntaxFault::BadArguments),
    }
}

fn read_solve(rest: &[u8]) -> Result<Option<Command<'_>>, SyntaxFault>
    ensures { line_seen result ≡ arguments_needed (solve_asked (two_words (words rest.now))) }
{
    let Some((count, path)) = read_two_words(rest) else {
        return Err(SyntaxFault::BadArguments);
    };
    match (read_count(count), read_path_word(path)) {
        (Some(count), Some(path)) => Ok(Some(Command::Solve(count, path))),
        _ => Err(SyntaxFault::BadArguments),
    }
}

fn read_pgn(rest: &[u8]) -> Result<Option<Command<'_>>, SyntaxFault>
    ensures { line_seen result ≡ arguments_needed (pgn_asked (words rest.now)) }
{
    if next_word(rest).is_some() {
        return Err(SyntaxFault::BadArguments);
    }
    Ok(Some(Command::Pgn))
}

#[tactic(auto, using(crate::proofs::Printable::printable_behind))]
fn read_tag(rest: &[u8]) -> Result<Option<Command<'_>>, SyntaxFault>
    requires { list_all is_printable rest.now ≡ true }
    ensures { line_seen result ≡ tag_asked rest.now (words rest.now) }
{
    let Some((name, rest)) = next_word(rest) else {
        return Err(SyntaxFault::BadArguments);
    };
    let Some(name) = read_tag_name(name) else {
        return Err(SyntaxFault::UnknownTag);
    };
    match read_text(rest) {
        Some(text) => Ok(Some(Command::Tag(name, text))),
        None => Err(SyntaxFault::BadArguments),
    }
}

fn read_tag_name(word: &[u8]) -> Option<TagName>
    ensures { result ≡ tag_parsed word.now }
{
    if word == b"Event".as_slice() {
        Some(TagName::Event)
    } else if word == b"Site".as_slice() {
        Some(TagName::Site)
    } else if word == b"Date".as_slice() {
        Some(TagName::Date)
    } else if word == b"Round".as_slice() {
        Some(TagName::Round)
    } else if word == b"White".as_slice() {
        Some(TagName::White)
    } else if word == b"Black".as_slice() {
        Some(TagName::Black)
    } else {
        None
    }
}

/// `SIDE GOAL`.
fn read_stipulation(rest: &[u8]) -> Option<Stipulation>
    ensures { result ≡ stipulation_of (words rest.now) }
{
    let (side, rest) = next_word(rest)?;
    match (read_side(side), read_goal(rest)) {
        (Some(hero), Some(goal)) => Some(Stipulation { hero, goal }),
        _ => None,
    }
}

/// `white` or `black`.
pub fn read_side(word: &[u8]) -> Option<Side>
    ensures { result ≡ side_parsed word.now }
{
    if word == b"white".as_slice() {
        Some(Side::White)
    } else if word == b"black".as_slice() {
        Some(Side::Black)
    } else {
        None
    }
}

/// `win`, `draw` or `mate K`.
fn read_goal(rest: &[u8]) -> Option<Goal>
    ensures { result ≡ goal_of (words rest.now) }
{
    if let Some((word, moves)) = read_two_words(rest) {
        return if word == b"mate".as_slice() {
            read_mate_moves(moves).map(Goal::MateIn)
        } else {
            None
        };
    }
    let word = read_one_word(rest)?;
    if word == b"win".as_slice() {
        Some(Goal::Win)
    } else if word == b"draw".as_slice() {
        Some(Goal::Draw)
    } else {
        None
    }
}

/// One to three digits, with a value from 1 to 127.
pub fn read_mate_moves(word: &[u8]) -> Option<MateMoves>
    ensures { result ≡ mate_moves_of word.now }
{
    let number = read_place(word)?;
    if number <= 127 {
        MateMoves::new(number as u8)
    } else {
        None
    }
}

/// One byte, `1`, `2` or `3`.
fn read_count(word: &[u8]) -> Option<SolveDepth>
    ensures { option_map count_seen result ≡ count_parsed word.now }
{
    match word {
        [digit @ b'1'..=b'3'] => Some(SolveDepth {
            number: *digit - b'0',
        }),
        _ => None,
    }
}
