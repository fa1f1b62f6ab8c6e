//! The command line.
ghost use Rattle.std.specs.Prelude.{◌≤◌, ◌<◌, IfSome, length};
ghost use Rattle.std.proofs.Props.{props};

use clap::builder::ValueParser;
use clap::{Arg, ArgAction, Command, Error, value_parser};
use std::alloc::Global;
use study_console::VERSION;

const ABOUT: &str =
    "Answers a script of commands on chess endgame studies, one reply a line, from standard input to standard output.";

const COMMANDS: &str = "Commands of a script, one a line:
  position FEN          starts a study on a position of up to four men, the tree empty
  shift FEN             puts another start under the same moves
  stipulate SIDE GOAL   says who is to do what: 'white win', 'black draw', 'white mate 3'
  insert PATH SAN       adds a move below a node, as 'insert root Qg8' or 'insert 0.1 Kb8'
  delete PATH           takes out a node with all below it
  promote PATH          moves a node up by one place among its siblings
  tag NAME TEXT         fills a tag of the game: Event, Site, Date, Round, White or Black
  mark PATH             tells a node's value, the mark of its move, and the faults from it on
  moves PATH            lists the legal moves of a node, or says that it is mate or stalemate
  fen PATH              tells the position of a node
  solve K PATH          finds the shortest forced mate in up to K moves, K from 1 to 3
  pgn                   writes the study with its marks as a game of PGN
  build CLASS           makes the table of a class of material, as KQK, from those that it leads to
  save CLASS            writes a table to its file, as KQK.dtm
  load CLASS            reads a table from its file
  verify CLASS          checks each cell of a table against the rules of chess
PATH is 'root', or places of children from the root on, counted from 0: '0.1' is the second child of the first.
A line that begins with # and an empty one have no reply; a refused line has the reply 'error NAME' and changes nothing,
but the file that a 'save' had begun when its device failed, and with --separate a 'position', which leaves no study.

Exit status: 0 no line was refused; 1 some line was; 2 the command line was; 3 the run stopped at a fault.";

/// The options of the command line.
#[derive(Clone, Copy, Debug)]
pub struct Options<'a> {
    /// The folder of the table files; never empty, since an empty name would mean the root folder.
    pub tables: &'a str,
    /// The number of pages kept in memory, 1 to 4,096; `None` if tables are read whole.
    pub pages: Option<u16>,
    /// Whether after a refused `position` there is no study for the next lines to edit.
    pub separate: bool,
    ghost named: { 0 < length tables.now },
    ghost range: { IfSome pages (λ n. (1 ≤ n) × (n ≤ 4096)) } by { Prim.hlevel props },
}

/// Reads the words of the command line, the first of which is the program's name. `--help` and `--version` are reported as errors whose exit code is
/// 0.
///
/// No contract: clap has none on the words that it takes. The type proves that the folder has a name, and the range of pages; tests check the rest.
pub fn read_words<'a>(alloc: Global, words: &'a [String]) -> Result<Options<'a>, Error> {
    let tables = Arg::new(alloc, "tables")
        .long("tables")
        .value_name("DIR")
        .action(ArgAction::Set)
        .value_parser(ValueParser::NonEmptyString)
        .help("The folder of the files of tables, as KQK.dtm [default: .]");
    let pages = Arg::new(alloc, "pages")
        .long("pages")
        .value_name("N")
        .action(ArgAction::Set)
        .value_parser(value_parser!(u16).range(1..=4096))
        .help("Reads tables by pages of 4,096 cells and keeps N of them, 1 to 4096");
    let separate = Arg::new(alloc, "separate")
        .long("separate")
        .action(ArgAction::SetTrue)
        .help(
            "Keeps studies apart: a refused 'position' leaves no position and no study until the next accepted one",
        );
    let command = Command::new(alloc, "studybench")
        .version(VERSION)
        .about(ABOUT)
        .after_help(COMMANDS)
        .arg(tables)?
        .arg(pages)?
        .arg(separate)?;
    let matches = command.try_get_matches_from(words)?;
    let tables = folder_of(matches.get_str("tables"));
    let pages = pages_of(matches.get_one::<u16>("pages"));
    let separate = matches.get_flag("separate");
    Ok(Options {
        tables,
        pages,
        separate,
    })
}

/// The number of pages, if it is in range.
fn pages_of(given: Option<u16>) -> Option<u16>
    ensures { IfSome result (λ n. (1 ≤ n) × (n ≤ 4096)) }
{
    match given {
        Some(n) if 1 <= n && n <= 4096 => Some(n),
        _ => None,
    }
}

/// The folder with this name; without one, the folder in which the program runs.
pub fn folder_of(given: Option<&str>) -> &str
    ensures { 0 < length result.now }
{
    match given {
        Some(folder) if !folder.is_empty() => folder,
        _ => ".",
    }
}
