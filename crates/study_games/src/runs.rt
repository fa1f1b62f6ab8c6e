//! Runs of bytes of one kind.
ghost use Rattle.std.specs.Prelude.{◌≡◌, ◌≤◌, length};
ghost use Rattle.std.specs.List.{prefix_len};
ghost use Rattle.study_games.specs.Tokens.{front, behind};
ghost use Rattle.study_games.specs.Runs.{is_in};

use crate::bytes::{is_blank, is_digit, is_gap, is_glyph, is_name_byte, is_symbol_byte, is_tail};

/// The bytes of a run.
#[derive(Clone, Copy)]
pub enum Run {
    Blanks,
    /// Bytes that are not blank.
    Word,
    Spaces,
    /// Spaces and tabs.
    Gap,
    Name,
    Digits,
    Glyphs,
    /// Signs, and what is not ASCII.
    Signs,
    Symbol,
    /// A line without its line feed.
    Line,
    /// Bytes before `}`.
    Comment,
}

/// Whether the byte is of the run's kind.
pub fn is_in(run: Run, b: u8) -> bool
    ensures { result ≡ is_in run b }
{
    match run {
        Run::Blanks => is_blank(b),
        Run::Word => !is_blank(b),
        Run::Spaces => b == b' ',
        Run::Gap => is_gap(b),
        Run::Name => is_name_byte(b),
        Run::Digits => is_digit(b),
        Run::Glyphs => is_glyph(b),
        Run::Signs => is_tail(b),
        Run::Symbol => is_symbol_byte(b),
        Run::Line => b != b'\n',
        Run::Comment => b != b'}',
    }
}

fn run_len(run: Run, text: &[u8]) -> usize
    ensures value { result ≡ prefix_len (is_in run) text.now }
    ensures within { result ≤ length text.now }
{
    text.iter().take_while(|b| is_in(run, **b)).count()
}

/// The run at the front of the text, and the rest.
pub fn cut_run(run: Run, text: &[u8]) -> (&[u8], &[u8])
    ensures front { result.0.now ≡ front (is_in run) text.now }
    ensures behind { result.1.now ≡ behind (is_in run) text.now }
{
    text.split_at(run_len(run, text))
}
