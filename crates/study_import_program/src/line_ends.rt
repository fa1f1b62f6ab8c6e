//! A file with a line feed at the end of each line.
ghost use Rattle.std.specs.Prelude.{◌≡◌, Some, IfOk, IfNone};
ghost use Rattle.std.specs.Option.{option_map};
ghost use Rattle.std.specs.Io.KnownBytes.{IsAtEnd, Keeps};
ghost use Rattle.study_import_program.specs.LineEnds.{GivesByte, line_end, with_feeds, file_left, lines_remaining};

use std::io;
use std::io::Read;

/// The next byte of a reader, or `None` at its end.
pub fn read_one<R: Read>(reader: &mut R) -> io::Result<Option<u8>>
    ensures { GivesByte (R.remaining reader.old) (R.remaining reader.new) result }
{
    let mut byte = [0u8; 1];
    match reader.read(&mut byte) {
        Ok(0) => Ok(None),
        Ok(_) => Ok(Some(byte[0])),
        Err(error) => Err(error),
    }
}

/// A carriage return if a line feed follows, else a line feed.
fn line_end(next: Option<u8>) -> u8
    ensures { result ≡ line_end next }
{
    match next {
        Some(b'\n') => b'\r',
        _ => b'\n',
    }
}

/// A reader of a file's lines: a carriage return that no line feed follows is read as one.
#[derive(Drop)]
pub struct LineReader<R: Read> {
    inner: R,
    /// A byte that was read, and not returned yet.
    ahead: Option<u8>,
}

impl<R: Read> LineReader<R> {
    /// Before the first byte of the file.
    pub fn new(inner: R) -> Self
        ensures { lines_remaining R.remaining result ≡ option_map with_feeds (R.remaining inner) }
    {
        LineReader { inner, ahead: None }
    }

    /// The next byte of the file, which stays ahead.
    fn peek(&mut self) -> io::Result<Option<u8>>
        ensures kept { Keeps (file_left R.remaining self.old) (file_left R.remaining self.new) }
        ensures next { IfOk result (λ next. next ≡ self.new.ahead) }
        ensures end { IfOk result (λ next.
            IfNone next (IsAtEnd (file_left R.remaining self.new))) }
    {
        if self.ahead.is_none() {
            self.ahead = read_one(&mut self.inner)?;
        }
        Ok(self.ahead)
    }

    /// The end of a line at a carriage return.
    fn end_line(&mut self) -> io::Result<Option<u8>>
        requires { self.old.ahead ≡ Some 13 }
        ensures { GivesByte (lines_remaining R.remaining self.old)
            (lines_remaining R.remaining self.new) result }
    {
        let next = read_one(&mut self.inner)?;
        self.ahead = next;
        Ok(Some(line_end(next)))
    }

    fn next_byte(&mut self) -> io::Result<Option<u8>>
        ensures { GivesByte (lines_remaining R.remaining self.old)
            (lines_remaining R.remaining self.new) result }
    {
        let next = self.peek()?;
        if next == Some(b'\r') {
            return self.end_line();
        }
        self.ahead = None;
        Ok(next)
    }
}

impl<R: Read> Read for LineReader<R> {
    ghost remaining = { lines_remaining R.remaining };

    #[tactic(auto, using(crate::proofs::LineEnds::one_byte))]
    fn read(&mut self, buf: &mut [u8]) -> io::Result<usize> {
        if buf.is_empty() {
            return Ok(0);
        }
        match self.next_byte()? {
            Some(byte) => {
                buf[0] = byte;
                Ok(1)
            }
            None => Ok(0),
        }
    }
}
