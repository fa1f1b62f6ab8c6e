//! Scripts of version 1.7, in which a remark of an import begins with `#` alone, as any comment does.
ghost use Rattle.std.specs.Prelude.{◌≡◌};
ghost use Rattle.study_report_program.specs.OldRemarks.{part_after, is_old};

use std::io;
use std::io::Read;

/// How far a line was read.
#[derive(Clone, Copy, Debug, PartialEq, Eq)]
pub enum LinePart {
    /// Nothing of it.
    Start,
    /// A `#` as its first byte.
    Hash,
    /// More.
    Rest,
}

/// A script of version 1.7 as one of today: each line that begins with `# ` begins with `#! `. Any other comment stays as it is.
#[derive(Drop)]
pub struct OldRemarks<R: Read> {
    script: R,
    part: LinePart,
    /// Whether the space behind `#!` is still to be given.
    owed: bool,
}

impl<R: Read> OldRemarks<R> {
    ghost use Rattle.std.specs.Prelude.{◌≡◌, ◌∷◌, [], false, List, ℕ, IfOk, IfSome, IfNone, OnErr};
    ghost use Rattle.std.specs.Option.{option_map};
    ghost use Rattle.std.specs.Io.KnownBytes.{Consumes, IsAtEnd, Keeps};
    ghost use Rattle.study_report_program.specs.OldRemarks.{renewed_behind};
    ghost use Rattle.study_report_program.specs.declared.old_remarks.LinePart.TheVariants as part;

    /// The script from its beginning.
    pub fn new(script: R) -> Self
        ensures script { result.script ≡ script }
        ensures part { result.part ≡ part.Start }
        ensures owed { result.owed ≡ false }
    {
        OldRemarks {
            script,
            part: LinePart::Start,
            owed: false,
        }
    }

    /// The byte that stands for this one; a space may follow it.
    fn renew(&mut self, byte: u8) -> u8
        requires { self.old.owed ≡ false }
        ensures given { (bs : List ℕ) → renewed_behind false self.old.part (byte ∷ bs)
            ≡ result ∷ renewed_behind self.new.owed self.new.part bs }
        ensures script { self.new.script ≡ self.old.script }
    {
        self.owed = is_old(self.part, byte);
        self.part = part_after(self.part, byte);
        if self.owed { b'!' } else { byte }
    }

    /// The next byte, if there is one.
    fn next_byte(&mut self) -> io::Result<Option<u8>>
        ensures some { IfOk result (λ next. IfSome next (λ byte.
            Consumes (option_map (renewed_behind self.old.owed self.old.part) (R.remaining self.old.script))
            (option_map (renewed_behind self.new.owed self.new.part) (R.remaining self.new.script))
            (byte ∷ []))) }
        ensures end { IfOk result (λ next. IfNone next
            (Consumes (option_map (renewed_behind self.old.owed self.old.part) (R.remaining self.old.script))
            (option_map (renewed_behind self.new.owed self.new.part) (R.remaining self.new.script)) []
            × IsAtEnd (option_map (renewed_behind self.new.owed self.new.part) (R.remaining self.new.script)))) }
        ensures err { OnErr result
            (Keeps (option_map (renewed_behind self.old.owed self.old.part) (R.remaining self.old.script))
            (option_map (renewed_behind self.new.owed self.new.part) (R.remaining self.new.script))) }
    {
        if self.owed {
            self.owed = false;
            return Ok(Some(b' '));
        }
        let mut byte = [0u8; 1];
        match self.script.read(&mut byte) {
            Ok(0) => Ok(None),
            Ok(_) => Ok(Some(self.renew(byte[0]))),
            Err(fault) => Err(fault),
        }
    }
}

fn is_old(part: LinePart, byte: u8) -> bool
    ensures { result ≡ is_old part byte }
{
    part == LinePart::Hash && byte == b' '
}

fn part_after(part: LinePart, byte: u8) -> LinePart
    ensures { result ≡ part_after part byte }
{
    if byte == b'\n' {
        LinePart::Start
    } else if part == LinePart::Start && byte == b'#' {
        LinePart::Hash
    } else {
        LinePart::Rest
    }
}

impl<R: Read> Read for OldRemarks<R> {
    ghost use Rattle.std.specs.Option.{option_map};
    ghost use Rattle.study_report_program.specs.OldRemarks.{renewed_behind};

    ghost remaining = { λ s. option_map (renewed_behind s.owed s.part) (R.remaining s.script) };

    fn read(&mut self, buf: &mut [u8]) -> io::Result<usize> {
        if buf.is_empty() {
            return Ok(0);
        }
        match self.next_byte()? {
            None => Ok(0),
            Some(byte) => {
                buf[0] = byte;
                Ok(1)
            }
        }
    }
}
