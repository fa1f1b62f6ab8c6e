//! Comments of an imported script that a report shows.
ghost use Rattle.std.specs.Prelude.{◌≡◌, ◌≤◌, length, drop, if◌then◌else◌};
ghost use Rattle.study_report.specs.Remarks.{begins, colon_in, subject, statement, is_left_out, is_not_read, has_words, is_tail, is_try, is_comment, is_remark};
ghost use Rattle.study_report.specs.Remarks.{remark_outcome};

use crate::line_outcome::LineOutcome;
use study_remark::{Remark, read_remark};

/// Whether the text begins with the word.
pub fn begins(text: &[u8], word: &[u8]) -> bool
    ensures { result ≡ begins text.now word.now }
{
    text.starts_with(word)
}

/// The text behind so many bytes.
pub fn behind(text: &[u8], count: usize) -> &[u8]
    ensures { result.now ≡ drop count text.now }
{
    if text.len() < count {
        return &text[text.len()..];
    }
    &text[count..]
}

/// The number of bytes before the first colon.
fn colon_in(line: &[u8]) -> usize
    ensures value { result ≡ colon_in line.now }
    ensures within { result ≤ length line.now }
{
    line.iter().take_while(|b| **b != b':').count()
}

/// Of `#! game 3, line 31: left out: 7 men` the words `game 3, line 31`.
pub fn subject(line: &[u8]) -> &[u8]
    ensures { result.now ≡ subject line.now }
{
    behind(&line[..colon_in(line)], 3)
}

/// Of `#! game 3, line 31: left out: 7 men` the words `left out: 7 men`.
pub fn statement(line: &[u8]) -> &[u8]
    ensures { result.now ≡ statement line.now }
{
    behind(behind(line, colon_in(line)), 2)
}

/// Whether the line is the remark of a game without a block.
pub fn is_left_out(line: &[u8]) -> bool
    ensures { result ≡ is_left_out line.now }
{
    match read_remark(line) {
        Some(Remark::LeftOut(_, _)) => true,
        _ => false,
    }
}

/// Whether the line is the remark of a game that was read only up to a fault.
pub fn is_not_read(line: &[u8]) -> bool
    ensures { result ≡ is_not_read line.now }
{
    match read_remark(line) {
        Some(Remark::NotRead(_, _)) => true,
        _ => false,
    }
}

/// Whether these words are somewhere in a text.
fn has_words(text: &[u8], words: &[u8]) -> bool
    ensures { result ≡ has_words words.now text.now }
{
    let mut rest = text;
    while let [_, behind @ ..] = rest {
        if begins(rest, words) {
            return true;
        }
        rest = behind;
    }
    false
}

/// Whether the line is the remark of a part of a study with more men.
pub fn is_tail(line: &[u8]) -> bool
    ensures { result ≡ is_tail line.now }
{
    begins(line, b"#! tail ")
}

/// Whether the line is the remark of such a part beside the study's solution.
fn is_try(line: &[u8]) -> bool
    ensures { result ≡ is_try line.now }
{
    is_tail(line) && has_words(line, b", beside the solution")
}

/// The outcome of a remark that is of no game.
fn part_outcome(line: &[u8]) -> LineOutcome
    ensures { result ≡ (if is_try line.now then LineOutcome.Try else LineOutcome.Nothing) }
{
    if is_try(line) {
        LineOutcome::Try
    } else {
        LineOutcome::Nothing
    }
}

/// The outcome of a remark.
pub fn remark_outcome(line: &[u8]) -> LineOutcome
    ensures { result ≡ remark_outcome line.now }
{
    match read_remark(line) {
        Some(Remark::LeftOut(_, _)) => LineOutcome::LeftOut,
        Some(Remark::NotRead(_, _)) => LineOutcome::NotRead,
        _ => part_outcome(line),
    }
}

/// Whether the line is a remark with the words of an author, or of a judge.
fn is_comment(line: &[u8]) -> bool
    ensures { result ≡ is_comment line.now }
{
    begins(line, b"#! comment: ")
}

/// Whether the line is a remark that a report shows. The source of a stipulation and the numbers of games are not shown.
pub fn is_shown(line: &[u8]) -> bool
    ensures { result ≡ is_remark line.now }
{
    if is_tail(line) || is_comment(line) {
        return true;
    }
    match read_remark(line) {
        None | Some(Remark::Stipulated(_, _)) | Some(Remark::Total(_, _)) => false,
        Some(_) => true,
    }
}
