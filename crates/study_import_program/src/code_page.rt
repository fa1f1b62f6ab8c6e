//! Files in a code page of Windows, read as UTF-8.
ghost use Rattle.std.specs.Prelude.{◌≡◌, ◌∷◌, [], drop, IfSome, IfNone};
ghost use Rattle.std.specs.Char.{encode_utf8};
ghost use Rattle.std.specs.Option.{option_map};
ghost use Rattle.study_import_program.specs.CodePages.{page_of, central_european, cyrillic, west_european, table_of, hex_digit, code_of, character_with, character_of};
ghost use Rattle.study_import_program.specs.CodePages.{in_utf8, waiting, page_remaining};
ghost use Rattle.study_import_program.specs.LineEnds.{GivesByte};

use crate::line_ends::read_one;
use std::io;
use std::io::Read;

/// A code page of Windows, in which each byte is a character.
#[derive(Clone, Copy, Debug, PartialEq, Eq)]
pub enum CodePage {
    /// 1250: Czech, Polish, Hungarian and others.
    CentralEuropean,
    /// 1251: Russian, Ukrainian and others.
    Cyrillic,
    /// 1252: German, French, Swedish and others.
    WestEuropean,
}

/// The page with this number.
pub fn page_of(number: u16) -> Option<CodePage>
    ensures { result ≡ page_of number }
{
    match number {
        1250 => Some(CodePage::CentralEuropean),
        1251 => Some(CodePage::Cyrillic),
        1252 => Some(CodePage::WestEuropean),
        _ => None,
    }
}

/// The code points of page 1250, of Central Europe, from the byte 80 on.
#[tactic(auto, unfolding(crate::specs::CodePages::central_european))]
fn central_european() -> &'static [u8]
    ensures { result.now ≡ central_european }
{
    b"20AC FFFD 201A FFFD 201E 2026 2020 2021 FFFD 2030 0160 2039 015A 0164 017D 0179 \
      FFFD 2018 2019 201C 201D 2022 2013 2014 FFFD 2122 0161 203A 015B 0165 017E 017A \
      00A0 02C7 02D8 0141 00A4 0104 00A6 00A7 00A8 00A9 015E 00AB 00AC 00AD 00AE 017B \
      00B0 00B1 02DB 0142 00B4 00B5 00B6 00B7 00B8 0105 015F 00BB 013D 02DD 013E 017C \
      0154 00C1 00C2 0102 00C4 0139 0106 00C7 010C 00C9 0118 00CB 011A 00CD 00CE 010E \
      0110 0143 0147 00D3 00D4 0150 00D6 00D7 0158 016E 00DA 0170 00DC 00DD 0162 00DF \
      0155 00E1 00E2 0103 00E4 013A 0107 00E7 010D 00E9 0119 00EB 011B 00ED 00EE 010F \
      0111 0144 0148 00F3 00F4 0151 00F6 00F7 0159 016F 00FA 0171 00FC 00FD 0163 02D9"
}

/// The code points of page 1251, Cyrillic, from the byte 80 on.
#[tactic(auto, unfolding(crate::specs::CodePages::cyrillic))]
fn cyrillic() -> &'static [u8]
    ensures { result.now ≡ cyrillic }
{
    b"0402 0403 201A 0453 201E 2026 2020 2021 20AC 2030 0409 2039 040A 040C 040B 040F \
      0452 2018 2019 201C 201D 2022 2013 2014 FFFD 2122 0459 203A 045A 045C 045B 045F \
      00A0 040E 045E 0408 00A4 0490 00A6 00A7 0401 00A9 0404 00AB 00AC 00AD 00AE 0407 \
      00B0 00B1 0406 0456 0491 00B5 00B6 00B7 0451 2116 0454 00BB 0458 0405 0455 0457 \
      0410 0411 0412 0413 0414 0415 0416 0417 0418 0419 041A 041B 041C 041D 041E 041F \
      0420 0421 0422 0423 0424 0425 0426 0427 0428 0429 042A 042B 042C 042D 042E 042F \
      0430 0431 0432 0433 0434 0435 0436 0437 0438 0439 043A 043B 043C 043D 043E 043F \
      0440 0441 0442 0443 0444 0445 0446 0447 0448 0449 044A 044B 044C 044D 044E 044F"
}

/// The code points of page 1252, of Western Europe, from the byte 80 on.
#[tactic(auto, unfolding(crate::specs::CodePages::west_european))]
fn west_european() -> &'static [u8]
    ensures { result.now ≡ west_european }
{
    b"20AC FFFD 201A 0192 201E 2026 2020 2021 02C6 2030 0160 2039 0152 FFFD 017D FFFD \
      FFFD 2018 2019 201C 201D 2022 2013 2014 02DC 2122 0161 203A 0153 FFFD 017E 0178 \
      00A0 00A1 00A2 00A3 00A4 00A5 00A6 00A7 00A8 00A9 00AA 00AB 00AC 00AD 00AE 00AF \
      00B0 00B1 00B2 00B3 00B4 00B5 00B6 00B7 00B8 00B9 00BA 00BB 00BC 00BD 00BE 00BF \
      00C0 00C1 00C2 00C3 00C4 00C5 00C6 00C7 00C8 00C9 00CA 00CB 00CC 00CD 00CE 00CF \
      00D0 00D1 00D2 00D3 00D4 00D5 00D6 00D7 00D8 00D9 00DA 00DB 00DC 00DD 00DE 00DF \
      00E0 00E1 00E2 00E3 00E4 00E5 00E6 00E7 00E8 00E9 00EA 00EB 00EC 00ED 00EE 00EF \
      00F0 00F1 00F2 00F3 00F4 00F5 00F6 00F7 00F8 00F9 00FA 00FB 00FC 00FD 00FE 00FF"
}

/// The code points of a page, from the byte 80 on: four hexadecimal digits each.
fn table_of(page: CodePage) -> &'static [u8]
    ensures { result.now ≡ table_of page }
{
    match page {
        CodePage::CentralEuropean => central_european(),
        CodePage::Cyrillic => cyrillic(),
        CodePage::WestEuropean => west_european(),
    }
}

fn hex_digit(b: u8) -> u32
    ensures { result ≡ hex_digit b }
{
    if b >= b'A' {
        (b - 55) as u32
    } else {
        b.saturating_sub(48) as u32
    }
}

/// The number that the first four hexadecimal digits of a text write.
fn code_of(text: &[u8]) -> u32
    ensures { result ≡ code_of text.now }
{
    match text {
        [a, b, c, d, ..] => {
            let front = hex_digit(*a) * 16 + hex_digit(*b);
            let back = hex_digit(*c) * 16 + hex_digit(*d);
            front * 256 + back
        }
        _ => 0xfffd,
    }
}

/// The text after so many bytes.
fn behind(text: &[u8], count: usize) -> &[u8]
    ensures { result.now ≡ drop count text.now }
{
    if text.len() <= count {
        return b"";
    }
    let (_, rest) = text.split_at(count);
    rest
}

/// The character with this number, or U+FFFD.
fn character_with(code: u32) -> char
    ensures { result ≡ character_with code }
{
    match char::from_u32(code) {
        Some(character) => character,
        None => '\u{fffd}',
    }
}

/// The character of a byte. A byte that the page leaves undefined is U+FFFD.
#[tactic(auto, unfolding(crate::specs::CodePages::character_of))]
pub fn character_of(page: CodePage, byte: u8) -> char
    ensures { result ≡ character_of page byte }
{
    if byte < 128 {
        return byte as char;
    }
    let place = (byte - 128) as usize;
    character_with(code_of(behind(table_of(page), place * 5)))
}

/// A reader of a file in a code page, as UTF-8.
#[derive(Drop)]
pub struct PageReader<R: Read> {
    inner: R,
    page: CodePage,
    /// The last character that was read, and the number of its bytes that were returned.
    character: char,
    given: usize,
}

impl<R: Read> PageReader<R> {
    /// Before the first byte of the file.
    pub fn new(inner: R, page: CodePage) -> Self
        ensures { page_remaining R.remaining result ≡ option_map (in_utf8 page) (R.remaining inner) }
    {
        PageReader {
            inner,
            page,
            character: ' ',
            given: 1,
        }
    }

    /// The next byte of the last character, if one is left.
    fn take_waiting(&mut self) -> Option<u8>
        ensures some { IfSome result (λ b. waiting self.old ≡ b ∷ waiting self.new) }
        ensures none { IfNone result ((waiting self.old ≡ []) × (self.new ≡ self.old)) }
        ensures same { self.new ≡ record self.old { given = self.new.given } }
    {
        let mut bytes = [0u8; 4];
        let text = self.character.encode_utf8(&mut bytes).as_bytes();
        if self.given >= text.len() {
            return None;
        }
        let byte = text[self.given];
        self.given += 1;
        Some(byte)
    }

    /// Keeps the bytes of a character but for the first, which is returned.
    fn begin(&mut self, character: char) -> u8
        ensures first { encode_utf8 character ≡ result ∷ waiting self.new }
        ensures same { self.new ≡ record self.old { character = character; given = 1 } }
    {
        let mut bytes = [0u8; 4];
        let text = character.encode_utf8(&mut bytes).as_bytes();
        self.character = character;
        self.given = 1;
        text[0]
    }

    fn next_byte(&mut self) -> io::Result<Option<u8>>
        ensures { GivesByte (page_remaining R.remaining self.old)
            (page_remaining R.remaining self.new) result }
    {
        if let Some(byte) = self.take_waiting() {
            return Ok(Some(byte));
        }
        let Some(byte) = read_one(&mut self.inner)? else {
            return Ok(None);
        };
        let character = character_of(self.page, byte);
        Ok(Some(self.begin(character)))
    }
}

impl<R: Read> Read for PageReader<R> {
    ghost remaining = { page_remaining R.remaining };

    #[tactic(auto, using(crate::proofs::LineEnds::one_byte))]
    fn read(&mut self, buf: &mut [u8]) -> io::Result<usize> {
        if buf.is_empty() {
            return Ok(0);
        }
        match self.next_byte()? {
            Some(byte) => {
                buf[0] = byte;
                Ok(1)
            }
            None => Ok(0),
        }
    }
}
