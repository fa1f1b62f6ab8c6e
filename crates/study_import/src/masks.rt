//! Bytes written with substitutes.
ghost use Rattle.std.specs.Prelude.{◌≡◌, ◌++◌, map, OnOk};
ghost use Rattle.study_import.specs.Masks.{masked_byte};

use std::alloc::{AllocError, Allocator};
use study_text::Text;

/// Which bytes are substituted, and by what.
#[derive(Clone, Copy)]
pub enum Mask {
    /// `?` for each unprintable byte.
    Printed,
    /// A space for each unprintable byte.
    Spaced,
    /// A space for each control byte.
    Shown,
    /// A space for each byte other than a line feed.
    Blank,
    /// A comma for each colon.
    NoColon,
}

fn masked_byte(mask: Mask, byte: u8) -> u8
    ensures { result ≡ masked_byte mask byte }
{
    let prints = 32 <= byte && byte <= 126;
    match mask {
        Mask::Printed => if prints { byte } else { b'?' },
        Mask::Spaced => if prints { byte } else { b' ' },
        Mask::Shown => if byte <= 31 || byte == 127 {
            b' '
        } else {
            byte
        },
        Mask::Blank => if byte == b'\n' { b'\n' } else { b' ' },
        Mask::NoColon => if byte == b':' { b',' } else { byte },
    }
}

/// Adds bytes, with substitutes.
pub fn add_masked<A: Allocator>(
    out: &mut Text<'_, A>,
    mask: Mask,
    bytes: &[u8],
) -> Result<(), AllocError>
    ensures { OnOk result (out.new ≡ out.old ++ map (masked_byte mask) bytes.now) }
{
    let mut rest = bytes;
    while let [first, more @ ..] = rest {
        out.add(&[masked_byte(mask, *first)])?;
        rest = more;
    }
    Ok(())
}
