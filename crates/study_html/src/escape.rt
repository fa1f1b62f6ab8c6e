//! Words as HTML.
ghost use Rattle.std.specs.Prelude.{◌≡◌, ◌<◌, ◌++◌, OnOk};
ghost use Rattle.study_html.specs.Escape.{entity, hex_digit, visible_byte, escaped_text, lettered_byte, lettered_text};

use std::alloc::{AllocError, Allocator};
use study_text::Text;

/// The hexadecimal digit.
fn hex_digit(digit: u8) -> u8
    requires { digit < 16 }
    ensures { result ≡ hex_digit digit }
{
    if digit < 10 { 48 + digit } else { 55 + digit }
}

/// Adds a printable byte as it is, and any other by its number.
pub fn add_visible<A: Allocator>(text: &mut Text<'_, A>, byte: u8) -> Result<(), AllocError>
    ensures { OnOk result (text.new ≡ text.old ++ visible_byte byte) }
{
    if byte < 32 || 126 < byte {
        text.add(&[92, 120, hex_digit(byte / 16 % 16), hex_digit(byte % 16)])
    } else {
        text.add(&[byte])
    }
}

/// Adds the text for a byte.
fn add_entity<A: Allocator>(text: &mut Text<'_, A>, byte: u8) -> Result<(), AllocError>
    ensures { OnOk result (text.new ≡ text.old ++ entity byte) }
{
    if byte == b'&' {
        text.add(b"&amp;")
    } else if byte == b'<' {
        text.add(b"&lt;")
    } else if byte == b'>' {
        text.add(b"&gt;")
    } else if byte == b'"' {
        text.add(b"&quot;")
    } else if byte == 39 {
        text.add(b"&#39;")
    } else {
        add_visible(text, byte)
    }
}

/// Adds words as HTML: `&`, `<`, `>` and the quotation marks as entities, and bytes that are not printable by their numbers.
#[tactic(auto, unfolding(crate::specs::Escape::escaped_text))]
pub fn add_escaped<A: Allocator>(text: &mut Text<'_, A>, bytes: &[u8]) -> Result<(), AllocError>
    ensures { OnOk result (text.new ≡ text.old ++ escaped_text bytes.now) }
{
    for byte in bytes {
        add_entity(text, *byte)?;
    }
    Ok(())
}

/// Adds the text for a byte of words in UTF-8.
fn add_lettered_byte<A: Allocator>(text: &mut Text<'_, A>, byte: u8) -> Result<(), AllocError>
    ensures { OnOk result (text.new ≡ text.old ++ lettered_byte byte) }
{
    if 128 <= byte {
        text.add(&[byte])
    } else {
        add_entity(text, byte)
    }
}

/// Adds words in UTF-8 as HTML: those of ASCII as any words, and other letters as they are.
#[tactic(auto, unfolding(crate::specs::Escape::lettered_text))]
pub fn add_lettered<A: Allocator>(text: &mut Text<'_, A>, bytes: &[u8]) -> Result<(), AllocError>
    ensures { OnOk result (text.new ≡ text.old ++ lettered_text bytes.now) }
{
    for byte in bytes {
        add_lettered_byte(text, *byte)?;
    }
    Ok(())
}
