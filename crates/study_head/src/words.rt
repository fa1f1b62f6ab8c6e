//! Words of moves and values, as plain text.
ghost use Rattle.std.specs.Prelude.{◌≡◌, ◌++◌, ◌<◌, true, OnOk};
ghost use Rattle.study_moves.specs.Rules.{is_legal};
ghost use Rattle.study_head.specs.Words.{plies_of, first_ply_offset, number_at, front_words, minus_where, short_words, label};

use std::alloc::{AllocError, Allocator};
use study_board::{Position, Side};
use study_moves::Move;
use study_notation::Start;
use study_pgn::{add_san, move_dots};
use study_text::Text;
use study_values::Value;

/// Where a move of a study is made: the study's start, by which moves are numbered, how many plies are before it, and the position.
#[derive(Clone, Copy)]
pub struct Ply<'n> {
    pub start: &'n Start,
    pub depth: usize,
    pub position: &'n Position,
}

fn add_minus<A: Allocator>(text: &mut Text<'_, A>, minus: bool) -> Result<(), AllocError>
    ensures { OnOk result (text.new ≡ text.old ++ minus_where minus) }
{
    if minus {
        return text.add(b"-");
    }
    Ok(())
}

/// In how many moves the hero mates, or is mated after a minus; `=` where it is drawn, and `#` where it is mate. `hero` tells whether
/// he is to move.
pub fn add_mate_distance<A: Allocator>(
    text: &mut Text<'_, A>,
    hero: bool,
    value: Value,
) -> Result<(), AllocError>
    ensures { OnOk result (text.new ≡ text.old ++ short_words hero value) }
{
    match value {
        Value::Draw => text.add(b"="),
        Value::Loss(0) => text.add(b"#"),
        Value::Win(plies) => {
            add_minus(text, !hero)?;
            text.add_number((plies / 2 + plies % 2) as u32)
        }
        Value::Loss(plies) => {
            add_minus(text, hero)?;
            text.add_number((plies / 2) as u32)
        }
    }
}

fn plies_of(depth: usize) -> u32
    ensures plies { result ≡ plies_of depth }
    ensures few { result < 257 }
{
    if depth < 257 { depth as u32 } else { 256 }
}

/// One ply where Black moves first.
fn first_ply_offset(side: Side) -> u32
    ensures half { result ≡ first_ply_offset side }
    ensures few { result < 2 }
{
    match side {
        Side::White => 0,
        Side::Black => 1,
    }
}

/// The number of the move that is made at this depth of a study with this start.
#[tactic(auto, unfolding(crate::specs::Words::number_at))]
pub fn number_at(start: &Start, depth: usize) -> u32
    ensures { result ≡ number_at start.now depth }
{
    start.number as u32 + (plies_of(depth) + first_ply_offset(start.position.to_move())) / 2
}

/// A number with what follows it, for a move of this side.
#[tactic(auto, unfolding(crate::specs::Words::front_words))]
pub fn add_line_start<A: Allocator>(
    text: &mut Text<'_, A>,
    start: &Start,
    depth: usize,
    side: Side,
) -> Result<(), AllocError>
    ensures { OnOk result (text.new ≡ text.old ++ front_words start.now depth side) }
{
    text.add_number(number_at(start, depth))?;
    text.add(move_dots(side))?;
    text.add(b" ")
}

/// A move that is made at this depth, with its number.
#[tactic(auto, unfolding(crate::specs::Words::label))]
pub fn add_label<A: Allocator>(
    text: &mut Text<'_, A>,
    start: &Start,
    depth: usize,
    p: &Position,
    m: Move,
) -> Result<(), AllocError>
    requires { is_legal p.now m ≡ true }
    ensures { OnOk result (text.new ≡ text.old ++ label start.now depth p.now m) }
{
    add_line_start(text, start, depth, p.to_move())?;
    add_san(text, p, m)
}
