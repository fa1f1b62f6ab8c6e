//! The command line.

use crate::code_page::{CodePage, page_of};
use clap::builder::ValueParser;
use clap::{Arg, ArgAction, Command, Error, value_parser};
use std::alloc::{AllocError, Global};
use study_command::{Command as ScriptCommand, read_command};
use study_console::VERSION;
use study_import::Choice;
use study_marks::Stipulation;
use study_text::Text;

const ABOUT: &str =
    "Turns games of PGN, from standard input, into a script of studybench and studyreport, to standard output.";

const LINES: &str =
    "Each game that begins with two to four men becomes a block of lines. The moves of one with more are followed, and each part of it that begins
with at most four men and no right to castle becomes a block. Of each other game one line says why there is none.
The stipulation of a game is the first of these that states one: the comment before its first move, such as {White to win} or {#3},
its tag Stipulation, its tag Result, the result after its moves, --stipulate. One that is stated and not understood, such as {h#2},
leaves the game out, or is replaced by --stipulate.
With --tails the positions are the word of the program that wrote the comments: pgn-extract -s --fencomments.

Exit status: 0 each game has a block; 1 some game has none, or no game was chosen; 2 the command line was refused; 3 the run stopped at a fault.";

/// The options of the command line.
#[derive(Clone, Copy, Debug, PartialEq, Eq)]
pub struct Options {
    pub choice: Choice,
    /// The code page of the file, if it is neither UTF-8 nor Latin 1.
    pub encoding: Option<CodePage>,
    /// Whether the number of games read is written to standard error, after every hundred.
    pub progress: bool,
}

/// Reads the words of the command line, the first of which is the program's name; `None` if `--stipulate` has no valid stipulation. `--help` and
/// `--version` are reported as errors whose exit code is 0.
///
/// No contract: clap has none on the words that it takes. Tests check what it reads.
pub fn read_words(alloc: Global, words: &[String]) -> Result<Option<Options>, Error> {
    let matches = command(alloc)?.try_get_matches_from(words)?;
    let given = match matches.get_strs("stipulate") {
        None => None,
        Some(words) => match stipulation_in(alloc, words)? {
            Some(stipulation) => Some(stipulation),
            None => return Ok(None),
        },
    };
    let (from, to) = match matches.get_one::<u32>("game") {
        Some(number) => (number, number),
        None => (
            matches.get_one::<u32>("from").unwrap_or(1),
            matches.get_one::<u32>("to").unwrap_or(u32::MAX),
        ),
    };
    let choice = Choice {
        given,
        from,
        to,
        tails: matches.get_flag("tails"),
        up_to_faults: matches.get_flag("up-to-faults"),
    };
    let encoding = match matches.get_one::<u16>("encoding") {
        Some(number) => page_of(number),
        None => None,
    };
    let progress = matches.get_flag("progress");
    Ok(Some(Options {
        choice,
        encoding,
        progress,
    }))
}

/// The options of the program.
fn command<'a>(alloc: Global) -> Result<Command<'a>, Error> {
    let game = number(alloc, "game", "N", "Takes game N alone, counted from 1")
        .conflicts_with("from")?
        .conflicts_with("to")?;
    let tails = switch(
        alloc,
        "tails",
        "Takes a game with more than four men from the first position of at most four that a comment of its main line names",
    );
    let up_to_faults = switch(
        alloc,
        "up-to-faults",
        "Takes a game with an illegal or unreadable move up to there; no report calls its study sound",
    );
    let progress = switch(
        alloc,
        "progress",
        "Tells on standard error, after every hundred games, how many were read",
    );
    Ok(
        Command::new(alloc, "studyimport")
            .version(VERSION)
            .about(ABOUT)
            .after_help(LINES)
            .arg(stipulate(alloc))?
            .arg(game)?
            .arg(number(alloc, "from", "N", "Takes the games from N on"))?
            .arg(number(alloc, "to", "M", "Takes the games up to M"))?
            .arg(tails)?
            .arg(up_to_faults)?
            .arg(encoding(alloc))?
            .arg(progress)?,
    )
}

/// An option whose value is the number of a game.
fn number<'a>(alloc: Global, name: &'a str, value: &'a str, help: &'a str) -> Arg<'a> {
    Arg::new(alloc, name)
        .long(name)
        .value_name(value)
        .action(ArgAction::Set)
        .value_parser(value_parser!(u32).range(1..=4294967295))
        .help(help)
}

fn stipulate<'a>(alloc: Global) -> Arg<'a> {
    Arg::new(alloc, "stipulate")
        .long("stipulate")
        .value_name("SIDE GOAL")
        .num_args(2..=3)
        .action(ArgAction::Set)
        .help("The stipulation of a game that says none: white win, black draw, white mate 3")
}

fn encoding<'a>(alloc: Global) -> Arg<'a> {
    Arg::new(alloc, "encoding")
        .long("encoding")
        .value_name("PAGE")
        .action(ArgAction::Set)
        .value_parser(ValueParser::Names(&["1250", "1251", "1252"]))
        .help("Reads the file in this code page of Windows")
}

/// An option without a value.
fn switch<'a>(alloc: Global, name: &'a str, help: &'a str) -> Arg<'a> {
    Arg::new(alloc, name)
        .long(name)
        .action(ArgAction::SetTrue)
        .help(help)
}

/// The stipulation that a script's line `stipulate` sets with these words.
fn stipulation_in(alloc: Global, words: &[&str]) -> Result<Option<Stipulation>, AllocError> {
    let mut line = Text::new(&alloc);
    line.add(b"stipulate")?;
    for word in words {
        line.add(b" ")?;
        line.add(word.as_bytes())?;
    }
    Ok(match read_command(line.as_slice()) {
        Ok(Some(ScriptCommand::Stipulate(stipulation))) => Some(stipulation),
        _ => None,
    })
}
