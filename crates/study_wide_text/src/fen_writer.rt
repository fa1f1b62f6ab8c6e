//! Writing a FEN text.
ghost use Rattle.std.specs.Prelude.{◌≡◌};
ghost use Rattle.study_wide_text.specs.Fen.{wide_fen_text};

use crate::WideStart;
use crate::rights_field::push_rights;
use arrayvec::ArrayString;
use study_notation::{push_byte, push_number, push_passed, side_letter, write_placement};

/// The FEN text of a start.
///
/// Six fields separated by one space, the letters KQkq of the rights in this order or `-`, one digit for each run of empty squares, the passed square whenever
/// the position has one, and numbers without leading zeros: at most 93 bytes.
#[tactic(auto, unfolding(crate::specs::Fen::wide_fen_text))]
pub fn write_wide_fen(start: &WideStart) -> ArrayString<96>
    ensures { result.bytes ≡ wide_fen_text start.now }
{
    let mut out = ArrayString::new();
    write_placement(&mut out, start.position.men());
    push_byte(&mut out, b' ');
    push_byte(&mut out, side_letter(start.position.to_move()));
    push_byte(&mut out, b' ');
    push_rights(&mut out, start.position.rights());
    push_byte(&mut out, b' ');
    push_passed(&mut out, start.position.passed());
    push_byte(&mut out, b' ');
    push_number(&mut out, start.clock);
    push_byte(&mut out, b' ');
    push_number(&mut out, start.number);
    out
}
