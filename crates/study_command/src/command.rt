//! The commands of a script.
ghost use Rattle.std.specs.Prelude.{◌≡◌, ◌≤◌, true};
ghost use Rattle.study_command.specs.Kinds.{kind_of};
ghost use Rattle.study_command.specs.Paths.{is_path_word};

use study_marks::{Stipulation, TagName};
use thiserror::Error;

/// Commands that take a start.
#[derive(Clone, Copy, Debug, PartialEq, Eq)]
pub enum FenCommand {
    Position,
    Shift,
}

/// Commands whose only argument is a node, and that need no study.
#[derive(Clone, Copy, Debug, PartialEq, Eq)]
pub enum NodeQuery {
    Moves,
    Fen,
}

/// Commands whose only argument is a node of a study.
#[derive(Clone, Copy, Debug, PartialEq, Eq)]
pub enum NodeCommand {
    Delete,
    Promote,
    Mark,
}

/// Commands that take a class of material.
#[derive(Clone, Copy, Debug, PartialEq, Eq)]
pub enum TableCommand {
    Build,
    Load,
    Save,
    Verify,
}

/// The first words of lines that have a command.
#[derive(Clone, Copy, Debug, PartialEq, Eq)]
pub enum Keyword {
    FromFen(FenCommand),
    Query(NodeQuery),
    Node(NodeCommand),
    Table(TableCommand),
    Stipulate,
    Insert,
    Tag,
    Solve,
    Pgn,
}

/// What a command is for.
#[derive(Clone, Copy, Debug, PartialEq, Eq)]
pub enum CommandKind {
    /// It changes the study.
    Edit,
    /// It asks for something of the study, which stays as it is.
    Question,
    /// It concerns a table.
    Table,
}

impl Keyword {
    /// What the commands of this word are for.
    pub fn kind(self) -> CommandKind
        ensures { result ≡ kind_of self }
    {
        match self {
            Keyword::FromFen(_) | Keyword::Stipulate | Keyword::Insert | Keyword::Tag => {
                CommandKind::Edit
            }
            Keyword::Node(NodeCommand::Delete | NodeCommand::Promote) => CommandKind::Edit,
            Keyword::Node(NodeCommand::Mark) => CommandKind::Question,
            Keyword::Query(_) | Keyword::Solve | Keyword::Pgn => CommandKind::Question,
            Keyword::Table(_) => CommandKind::Table,
        }
    }
}

/// Why a line is not a command. Faults are checked in this order, except that a wrong number of words after `stipulate` is reported as no stipulation, and
/// that the name of a tag is checked before its text.
#[derive(Clone, Copy, Debug, PartialEq, Eq, Error)]
pub enum SyntaxFault {
    #[error("a byte outside printable ASCII")]
    BadByte,
    #[error("no such command")]
    UnknownCommand,
    #[error("the words behind the command are not of its form")]
    BadArguments,
    #[error("no such stipulation")]
    UnknownStipulation,
    #[error("no such tag")]
    UnknownTag,
}

/// The number of moves of the side to move in a forced mate: 1 to 3.
#[derive(Clone, Copy, Debug, PartialEq, Eq)]
pub struct SolveDepth {
    pub number: u8,
    ghost low: { 1 ≤ number },
    ghost high: { number ≤ 3 },
}

/// A path as written: `root`, or places of one to three digits joined by `.`.
#[derive(Clone, Copy)]
pub struct PathText<'a> {
    pub word: &'a [u8],
    ghost form: { is_path_word word.now ≡ true },
}

/// A line that has a reply and no fault of form. Texts have no spaces at their ends.
#[derive(Clone, Copy)]
pub enum Command<'a> {
    FromFen(FenCommand, &'a str),
    Query(NodeQuery, PathText<'a>),
    Node(NodeCommand, PathText<'a>),
    /// With the name of a class, which need not exist.
    Table(TableCommand, &'a str),
    Stipulate(Stipulation),
    Insert(PathText<'a>, &'a str),
    Tag(TagName, &'a str),
    Solve(SolveDepth, PathText<'a>),
    Pgn,
}
