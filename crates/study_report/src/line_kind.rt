//! The kinds of lines in a report.
ghost use Rattle.std.specs.Prelude.{◌≡◌};
ghost use Rattle.study_command.specs.Parser.{command_of};
ghost use Rattle.study_script.specs.Replies.{class_parsed};
ghost use Rattle.study_report.specs.Reported.{kind_in, line_kind, class_kind};

use crate::remarks::is_shown;
use study_command::{Command, read_command};
use study_material::Class;

/// The kind of a line, by its form alone.
#[derive(Clone, Copy, Debug, PartialEq, Eq)]
pub enum LineKind {
    /// It is a comment that is shown.
    Remark,
    /// It is of a table, and is skipped.
    PassedOver,
    /// It is of a table of an unknown class, and is refused.
    NoClass,
    /// It is answered, and reports the study if it is accepted.
    Study,
    /// It is answered, and reports nothing if it is accepted.
    Checked,
}

/// The kind of the line.
pub fn kind_of(line: &[u8]) -> LineKind
    ensures { result ≡ line_kind line.now }
{
    if is_shown(line) {
        return LineKind::Remark;
    }
    command_kind(line)
}

fn command_kind(line: &[u8]) -> LineKind
    ensures { result ≡ kind_in (command_of line.now) }
{
    match read_command(line) {
        Ok(Some(Command::Table(_, name))) => class_kind(name),
        Ok(Some(Command::Pgn)) => LineKind::Study,
        _ => LineKind::Checked,
    }
}

#[tactic(auto, unfolding(study_script::specs::Replies::class_parsed))]
fn class_kind(name: &str) -> LineKind
    ensures { result ≡ class_kind (class_parsed name.now) }
{
    match Class::parse(name) {
        Ok(_) => LineKind::PassedOver,
        Err(_) => LineKind::NoClass,
    }
}
