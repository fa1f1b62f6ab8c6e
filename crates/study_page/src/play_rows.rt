//! What is written of open ends.
ghost use Rattle.std.specs.Prelude.{◌≡◌, ◌++◌, ◌<◌, ◌+◌, ◌^◌, true, length, OnOk};
ghost use Rattle.std.specs.List.{All, flat_map};
ghost use Rattle.study_moves.specs.Rules.{is_legal};
ghost use Rattle.study_facts.specs.Play.{ArePlayed};
ghost use Rattle.study_facts.specs.Words.{move_words};
ghost use Rattle.study_page.specs.Rows.{is_white, number_words, play_words, keeps_draw_words, keep_words, end_row};

use crate::cards_and_tries::put_node_cells;
use std::alloc::{AllocError, Allocator};
use study_board::{Position, Side};
use study_facts::{EvaluatedMove, add_move};
use study_head::add_line_start;
use study_html::{Element, Html, put_words};
use study_moves::{legal_moves, played};
use study_notation::Start;
use study_pgn::add_san;
use study_text::Text;
use study_values::Value;

pub fn is_white(side: Side) -> bool
    ensures { result ≡ is_white side }
{
    match side {
        Side::White => true,
        Side::Black => false,
    }
}

/// The number before the first move, and before each of White's.
fn add_number<A: Allocator>(
    text: &mut Text<'_, A>,
    first: bool,
    start: &Start,
    depth: usize,
    side: Side,
) -> Result<(), AllocError>
    ensures { OnOk result (text.new ≡ text.old ++ number_words first start.now depth side) }
{
    if first || is_white(side) {
        return add_line_start(text, start, depth, side);
    }
    Ok(())
}

/// Moves that are played one after the other, with their numbers.
pub fn add_moves<A: Allocator>(
    text: &mut Text<'_, A>,
    first: bool,
    start: &Start,
    depth: usize,
    p: &Position,
    list: &[EvaluatedMove],
) -> Result<(), AllocError>
    requires depth { depth + length list.now < 2 ^ 64 }
    requires legal { ArePlayed p.now list.now }
    ensures { OnOk result (text.new ≡ text.old ++ play_words first start.now depth p.now list.now) }
{
    match list.split_first() {
        None => Ok(()),
        Some((x, rest)) => {
            add_number(text, first, start, depth, p.to_move())?;
            add_san(text, p, x.played)?;
            text.add(b" ")?;
            let next = played(p, x.played);
            add_moves(text, false, start, depth + 1, &next, rest)
        }
    }
}

fn add_each_move<A: Allocator>(
    text: &mut Text<'_, A>,
    p: &Position,
    list: &[EvaluatedMove],
) -> Result<(), AllocError>
    requires { All (λ x. is_legal p.now x.played ≡ true) list.now }
    ensures { OnOk result (text.new ≡ text.old ++ flat_map (move_words p.now) list.now) }
{
    for x in list {
        add_move(text, p, x)?;
    }
    Ok(())
}

#[tactic(auto, unfolding(crate::specs::Rows::keeps_draw_words))]
fn keeps_draw_words() -> &'static [u8]
    ensures { result.now ≡ keeps_draw_words }
{
    b" moves keep the draw:"
}

/// The moves that keep a draw.
#[tactic(auto, unfolding(crate::specs::Rows::keep_words))]
pub fn add_keep<A: Allocator>(
    text: &mut Text<'_, A>,
    p: &Position,
    list: &[EvaluatedMove],
) -> Result<(), AllocError>
    requires few { length list.now < 2 ^ 32 }
    requires legal { All (λ x. is_legal p.now x.played ≡ true) list.now }
    ensures { OnOk result (text.new ≡ text.old ++ keep_words p.now list.now) }
{
    let all = legal_moves(p).len() as u32;
    text.add_number(list.len() as u32)?;
    text.add(b" of ")?;
    text.add_number(all)?;
    text.add(keeps_draw_words())?;
    add_each_move(text, p, list)
}

/// The row of an open end.
#[tactic(auto, unfolding(crate::specs::Rows::end_row))]
pub fn put_end<'a, A: Allocator>(
    alloc: &'a A,
    html: &mut Html<'_, A>,
    node: &[u8],
    side: Side,
    value: Value,
    goes_on: &[u8],
) -> Result<(), AllocError>
    ensures { OnOk result (html.new ≡ html.old ++ end_row node.now side value goes_on.now) }
{
    let mut row = Html::new(alloc);
    put_node_cells(alloc, &mut row, node, side, value)?;
    put_words(alloc, &mut row, Element::Cell, goes_on)?;
    html.put(Element::Row, &row)
}
