//! The command line.
ghost use Rattle.std.specs.Prelude.{◌≤◌, ◌<◌, length};

use clap::builder::ValueParser;
use clap::{Arg, ArgAction, Command, Error, value_parser};
use std::alloc::{AllocError, Global};
use study_console::VERSION;
use study_listing::{Form, Request, Unread, read_request};
use study_material::Class;
use study_program::folder_of;

const ABOUT: &str =
    "Lists the positions of a class of material that have a theme, from the tables of a folder: each once up to symmetry, none missing.";

const THEMES: &str = "Themes:
  zugzwang              mutual zugzwangs, with both values: White to move, then Black to move; a stalemated side is in none
  win N, draw N         the side to move wins, or draws, and the defender can make it find N only moves in a row
  underpromotion        one move alone holds, and it promotes to a rook, a bishop or a knight
  into win, into draw   one move alone wins, or draws, and it leads to a mutual zugzwang
  try win, try draw     the same, and another move fails by one reply alone, which leads to a mutual zugzwang
  longest white, longest black   the longest win of the side, which is to move
Filters, after a theme but 'longest', a word each and in any order:
  white, black          the positions with that side to move; without one, of a zugzwang, and where both sides have the same men, those
                        with White to move, and else those with either
  Kf7, pa2-h4           White's king stands on f7, a black pawn in the rectangle from a2 to h4: capitals for White's men, at most four
                        such words; of the images that the board's symmetries allow the first that has it so is listed
  no-capture, no-check  the one move that holds captures nothing, gives no check; not with 'zugzwang'
  =Q, =R, =B, =N        the one move that holds promotes to this man; not with 'zugzwang'
  wins, draws           the side to move wins, or draws; not with 'zugzwang'
  families              of the positions that differ in the square of one man, and have the same key, the first; not with 'zugzwang'
  as-white              positions with Black to move are listed with colours exchanged and ranks mirrored, so that White is the hero

Exit status: 0 the list was made; 2 the command line was refused; 3 the list stopped, and why is on standard error.";

/// The form of the output.
#[derive(Clone, Copy, Debug, PartialEq, Eq)]
pub enum Output {
    List(Form),
    /// The number of positions, and nothing else.
    Count,
}

/// Why words are not a request.
#[derive(Clone, Copy, Debug, PartialEq, Eq)]
pub enum WordFault {
    NoSuchClass,
    NoSuchTheme,
    NoSuchFilter,
    NoKeyMove,
}

/// The options of the command line.
#[derive(Clone, Copy, Debug)]
pub struct Options<'a> {
    /// The folder of the table files; never empty, since an empty name would mean the root folder.
    pub tables: &'a str,
    /// The number of pages kept in memory: 1 to 4,096.
    pub pages: u16,
    pub output: Output,
    /// Whether the progress of the search is written to standard error.
    pub progress: bool,
    pub request: Request,
    ghost named: { 0 < length tables.now },
    ghost some: { 1 ≤ pages },
    ghost few: { pages ≤ 4096 },
}

/// Reads the words of the command line, the first of which is the program's name; `Ok(Err(..))` if clap takes them but they are not a request.
/// `--help` and `--version` are reported as errors whose exit code is 0.
///
/// No contract: clap has none on the words that it takes. The type proves that the folder has a name, and the range of pages; tests check the rest.
pub fn read_words<'a>(
    alloc: Global,
    words: &'a [String],
) -> Result<Result<Options<'a>, WordFault>, Error> {
    let matches = command(alloc)?.try_get_matches_from(words)?;
    let theme = bytes_of(alloc, matches.get_strs("theme"))?;
    let request = match read_words_of_request(matches.get_str("class"), theme.as_slice()) {
        Ok(request) => request,
        Err(fault) => return Ok(Err(fault)),
    };
    let tables = folder_of(matches.get_str("tables"));
    let pages = pages_of(matches.get_one::<u16>("pages"));
    let output = output_of(matches.get_flag("count"), matches.get_flag("script"));
    let progress = matches.get_flag("progress");
    Ok(Ok(Options {
        tables,
        pages,
        output,
        progress,
        request,
    }))
}

fn command<'a>(alloc: Global) -> Result<Command<'a>, Error> {
    let command = Command::new(alloc, "studymine")
        .version(VERSION)
        .about(ABOUT)
        .after_help(THEMES)
        .arg(tables(alloc))?
        .arg(pages(alloc))?
        .arg(flag(
            alloc,
            "count",
            "Writes how many positions there are, and no more",
        ))?
        .arg(flag(
            alloc,
            "script",
            "Writes the script of their studies, at most 3,846, each with its longest row of only moves",
        ))?
        .arg(flag(
            alloc,
            "progress",
            "Writes to standard error how far the search has come",
        ))?
        .arg(
            Arg::new(alloc, "class")
                .value_name("CLASS")
                .required(true)
                .help("The class of material, as KRKP"),
        )?
        .arg(
            Arg::new(alloc, "theme")
                .value_name("THEME")
                .required(true)
                .num_args(1..)
                .help("The theme, and filters"),
        )?;
    Ok(command)
}

fn tables<'a>(alloc: Global) -> Arg<'a> {
    Arg::new(alloc, "tables")
        .long("tables")
        .value_name("DIR")
        .action(ArgAction::Set)
        .value_parser(ValueParser::NonEmptyString)
        .help("The folder of the files of tables, as KQK.dtm [default: .]")
}

fn pages<'a>(alloc: Global) -> Arg<'a> {
    Arg::new(alloc, "pages")
        .long("pages")
        .value_name("N")
        .action(ArgAction::Set)
        .value_parser(value_parser!(u16).range(1..=4096))
        .help("Keeps N pages of 4,096 cells, 1 to 4096 [default: 4096]")
}

fn flag<'a>(alloc: Global, name: &'a str, help: &'a str) -> Arg<'a> {
    Arg::new(alloc, name)
        .long(name)
        .action(ArgAction::SetTrue)
        .help(help)
}

/// The words as bytes.
fn bytes_of<'a>(
    alloc: Global,
    words: Option<&[&'a str]>,
) -> Result<Vec<&'a [u8], Global>, AllocError> {
    let mut list = Vec::new(alloc);
    if let Some(words) = words {
        for word in words {
            list.push(word.as_bytes())?;
        }
    }
    Ok(list)
}

/// The request that the words for class and theme spell.
fn read_words_of_request(class: Option<&str>, theme: &[&[u8]]) -> Result<Request, WordFault> {
    let Some(name) = class else {
        return Err(WordFault::NoSuchClass);
    };
    let Ok(class) = Class::parse(name) else {
        return Err(WordFault::NoSuchClass);
    };
    match read_request(class, theme) {
        Ok(request) => Ok(request),
        Err(Unread::NoSuchTheme) => Err(WordFault::NoSuchTheme),
        Err(Unread::NoSuchFilter) => Err(WordFault::NoSuchFilter),
        Err(Unread::NoKeyMove) => Err(WordFault::NoKeyMove),
    }
}

/// The number of pages, if it is in range, else 4,096.
fn pages_of(given: Option<u16>) -> u16
    ensures some { 1 ≤ result }
    ensures few { result ≤ 4096 }
{
    match given {
        Some(n) if 1 <= n && n <= 4096 => n,
        _ => 4096,
    }
}

/// The form of the output. With both `--count` and `--script`, only the count is printed.
fn output_of(count: bool, script: bool) -> Output {
    if count {
        Output::Count
    } else if script {
        Output::List(Form::Script)
    } else {
        Output::List(Form::Lines)
    }
}
