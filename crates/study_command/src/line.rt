//! The lines of a script, read one by one.
ghost use Rattle.std.specs.Prelude.{◌≡◌, ◌≤◌, ◌++◌, ◌∷◌, ◌&&◌, ◌||◌, ◌==◌, [], length, nat_lt, Err, IfOk, IfSome, IfNone, OnOk, OnErr};
ghost use Rattle.std.specs.Io.KnownBytes.{Consumes, IsAtEnd, Keeps};
ghost use Rattle.std.specs.Str.Lines.{strip_carriage_return};
ghost use Rattle.study_command.specs.Lines.{TakesLine, BeginsLong, GaveFeeds};

use std::alloc::{AllocError, Allocator};
use std::io::Read;
use std::marker::Model;
use study_text::DeviceFailed;

/// Why a line is not read.
#[derive(Clone, Copy, Debug, PartialEq, Eq)]
pub enum LineFault {
    Device,
    TooLong,
}

/// A line of at most 1,024 bytes. Its memory is allocated once, and never grows.
#[derive(Drop)]
pub struct Line<'a, A: Allocator> {
    bytes: Vec<u8, &'a A>,
}

impl<'a, A: Allocator> Model for Line<'a, A> {
    ghost use Rattle.std.specs.Prelude.{ℕ, ◌≤◌, List, vec_capacity};

    ghost Value = { List ℕ };

    ghost view = { λ l. l.bytes.items };

    ghost invariant = { λ l. 1025 ≤ vec_capacity l.bytes };
}

impl<'a, A: Allocator> Line<'a, A> {
    /// An empty line with room for 1,024 bytes and a carriage return.
    pub fn new(alloc: &'a A) -> Result<Self, AllocError>
        ensures { IfOk result (λ line. line ≡ []) }
    {
        let bytes = Vec::with_capacity(alloc, 1025)?;
        Ok(Line { bytes })
    }

    pub fn as_slice(&self) -> &[u8]
        ensures { result.now ≡ self.now }
    {
        self.bytes.as_slice()
    }

    /// Reads the next line of the script, without its end, if one begins.
    pub fn read<R: Read>(&mut self, script: &mut R) -> Result<bool, LineFault>
        ensures line { IfOk result (λ begins.
            TakesLine (R.remaining script.old) (R.remaining script.new) begins self.new) }
        ensures short { OnOk result (length self.new ≤ 1024) }
        ensures long { result ≡ Err LineFault.TooLong → BeginsLong (R.remaining script.old) }
        ensures one_feed { OnOk result
            (GaveFeeds (R.remaining script.old) (R.remaining script.new) 1) }
        ensures no_feed { result ≡ Err LineFault.Device
            → GaveFeeds (R.remaining script.old) (R.remaining script.new) 0 }
    {
        self.bytes.clear();
        loop {
            match read_byte(script) {
                Err(_) => return Err(LineFault::Device),
                Ok(None) => break,
                Ok(Some(b'\n')) => {
                    self.strip();
                    return Ok(true);
                }
                Ok(Some(byte)) => {
                    if !self.has_room_for(byte) {
                        return Err(LineFault::TooLong);
                    }
                    self.push(byte);
                }
            }
        }
        let begins = !self.as_slice().is_empty();
        self.strip();
        Ok(begins)
    }

    /// The room after 1,024 bytes is only for a carriage return.
    fn has_room_for(&self, byte: u8) -> bool
        ensures { result
            ≡ (nat_lt (length self.now) 1024 || (length self.now == 1024 && byte == 13)) }
    {
        let len = self.bytes.len();
        len < 1024 || len == 1024 && byte == b'\r'
    }

    fn push(&mut self, byte: u8)
        requires { length self.old ≤ 1024 }
        ensures { self.new ≡ self.old ++ byte ∷ [] }
    {
        // With room to spare a push succeeds.
        let _ = self.bytes.push(byte);
    }

    fn strip(&mut self)
        ensures { self.new ≡ strip_carriage_return self.old }
    {
        if self.bytes.last() == Some(&b'\r') {
            self.bytes.pop();
        }
    }
}

/// The next byte, or `None` at the end.
pub fn read_byte<R: Read>(script: &mut R) -> Result<Option<u8>, DeviceFailed>
    ensures some { IfOk result (λ next.
        IfSome next (λ byte.
        Consumes (R.remaining script.old) (R.remaining script.new) (byte ∷ []))) }
    ensures end { IfOk result (λ next.
        IfNone next (Consumes (R.remaining script.old) (R.remaining script.new) []
        × IsAtEnd (R.remaining script.new))) }
    ensures err { OnErr result (Keeps (R.remaining script.old) (R.remaining script.new)) }
{
    let mut byte = [0u8; 1];
    match script.read(&mut byte) {
        Ok(0) => Ok(None),
        Ok(_) => Ok(Some(byte[0])),
        Err(_) => Err(DeviceFailed),
    }
}
