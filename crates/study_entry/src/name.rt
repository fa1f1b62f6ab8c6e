//! A text that is kept in the value itself.
ghost use Rattle.std.specs.Prelude.{◌≡◌, ◌≤◌, ◌-◌, ◌++◌, [], length, take, replicate};

use std::marker::Model;

/// The largest number of bytes that is kept, as many as an import writes.
const LONGEST: usize = 255;

/// A text of at most 255 bytes.
#[derive(Clone, Copy)]
pub struct Name {
    bytes: [u8; 255],
    len: u8,
}

impl Model for Name {
    ghost use Rattle.std.specs.Prelude.{ℕ, ◌≡◌, ◌≤◌, ◌-◌, ◌++◌, List, length, take, drop, replicate};
    ghost use Rattle.std.proofs.Common.{ap, sym, ◌∙◌, arith, take-append-drop, length-take-le};

    ghost Value = { List ℕ };

    ghost view = { λ n. take n.len n.bytes };

    // Behind the text are zeros.
    ghost invariant = { λ n. (n.len ≤ 255) × (length n.bytes ≡ 255) × (drop n.len n.bytes ≡ replicate (255 - n.len) 0) };

    ghost inverse = { λ t. record { bytes = t ++ replicate (255 - length t) 0; len = length t } };

    ghost inverse_ok = { λ n h i. record {
      bytes = (ap (λ (m : ℕ). take n.len n.bytes ++ replicate (255 - m) 0)
          (length-take-le n.len n.bytes (omega (arith, h.0, h.1)))
          ∙ ap (λ (t : List ℕ). take n.len n.bytes ++ t) (sym h.2) ∙ take-append-drop n.len n.bytes) i;
      len = length-take-le n.len n.bytes (omega (arith, h.0, h.1)) i;
    } };
}

/// The first 255 bytes of a text.
fn first(text: &[u8]) -> &[u8]
    ensures value { result.now ≡ take 255 text.now }
    ensures within { length result.now ≤ 255 }
{
    if text.len() < LONGEST {
        return text;
    }
    &text[..LONGEST]
}

/// A text with zeros behind it.
fn padded(text: &[u8]) -> [u8; 255]
    requires { length text.now ≤ 255 }
    ensures { result ≡ text.now ++ replicate (255 - length text.now) 0 }
{
    let mut bytes = [0; LONGEST];
    bytes[..text.len()].copy_from_slice(text);
    bytes
}

impl Name {
    /// No text.
    pub fn none() -> Name
        ensures { result ≡ [] }
    {
        Name {
            bytes: [0; 255],
            len: 0,
        }
    }

    /// The first 255 bytes of this text.
    pub fn of(text: &[u8]) -> Name
        ensures { result ≡ take 255 text.now }
    {
        let kept = first(text);
        Name {
            bytes: padded(kept),
            len: kept.len() as u8,
        }
    }

    /// The text.
    pub fn as_slice(&self) -> &[u8]
        ensures { result.now ≡ self.now }
    {
        &self.bytes[..self.len as usize]
    }
}
