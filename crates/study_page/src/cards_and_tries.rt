//! What is written of duals and tries.
ghost use Rattle.std.specs.Prelude.{◌≡◌, ◌++◌, ◌<◌, ◌≤◌, ◌^◌, true, length, OnOk, codes, decimal};
ghost use Rattle.std.specs.List.{All, flat_map};
ghost use Rattle.study_moves.specs.Rules.{is_legal};
ghost use Rattle.study_notation.specs.SanSpelling.{move_text};
ghost use Rattle.study_pgn.specs.Values.{value_text};
ghost use Rattle.study_head.specs.Words.{label};
ghost use Rattle.study_html.specs.declared.element.Element.TheVariants.{Label};
ghost use Rattle.study_html.specs.Escape.{escaped_text};
ghost use Rattle.study_html.specs.Elements.{element_text};
ghost use Rattle.study_page.specs.Rows.{loses_time, forced_words, time_words, move_word, by_words, later_words, difference, is_quicker, wasted};
ghost use Rattle.study_page.specs.Rows.{also_words, also_item};
ghost use Rattle.study_page.specs.Rows.{card_title, card_words, card, front_cells, move_and_value, refuted_item, is_over, over_words, refuted_items};
ghost use Rattle.study_page.specs.Rows.{of_all, refuted_count, try_row};
ghost use Rattle.study_page.specs.Rows.{points_words, to_move_words, zugzwang_row};

use crate::late_mate::{add_late, late_by};
use std::alloc::{AllocError, Allocator};
use study_board::{Position, Side};
use study_facts::{Alternative, EvaluatedMove, StudyNode, Zugzwang};
use study_head::{Ply, add_label, add_mate_distance, draw_mini};
use study_html::{Element, Html, put_words};
use study_moves::{Move, in_check, legal_moves};
use study_notation::Start;
use study_pgn::{add_san, add_value};
use study_text::Text;
use study_values::Value;

#[tactic(auto, unfolding(crate::specs::Rows::loses_time))]
pub fn loses_time() -> &'static [u8]
    ensures { result.now ≡ loses_time }
{
    b", wastes time"
}

fn add_forced<A: Allocator>(text: &mut Text<'_, A>, moves: u8) -> Result<(), AllocError>
    ensures { OnOk result (text.new ≡ text.old ++ forced_words moves) }
{
    if moves == 0 {
        return Ok(());
    }
    text.add(b" (")?;
    text.add_number(moves as u32 + 1)?;
    text.add(b" moves)")
}

fn add_time<A: Allocator>(text: &mut Text<'_, A>, time: Option<u8>) -> Result<(), AllocError>
    ensures { OnOk result (text.new ≡ text.old ++ time_words time) }
{
    match time {
        None => Ok(()),
        Some(m) => {
            text.add(loses_time())?;
            add_forced(text, m)
        }
    }
}

fn move_word(count: u8) -> &'static [u8]
    ensures { result.now ≡ move_word count }
{
    if count == 1 { b" move " } else { b" moves " }
}

fn add_within_moves<A: Allocator>(
    text: &mut Text<'_, A>,
    moves: u8,
    way: &[u8],
) -> Result<(), AllocError>
    ensures { OnOk result (text.new ≡ text.old ++ by_words moves way.now) }
{
    text.add(b", ")?;
    text.add_number(moves as u32)?;
    text.add(move_word(moves))?;
    text.add(way)
}

fn add_longer<A: Allocator>(text: &mut Text<'_, A>, a: u8, b: u8) -> Result<(), AllocError>
    ensures { OnOk result (text.new ≡ text.old ++ later_words a b) }
{
    if a == b {
        return text.add(b", as quick");
    }
    if a < b {
        return add_within_moves(text, b - a, b"longer");
    }
    add_within_moves(text, a - b, b"quicker")
}

/// How much later the hero mates by another move than by the one that he played, from the values after both.
pub fn add_difference<A: Allocator>(
    text: &mut Text<'_, A>,
    value: Value,
    other: Value,
) -> Result<(), AllocError>
    ensures { OnOk result (text.new ≡ text.old ++ difference value other) }
{
    match (value, other) {
        (Value::Loss(n), Value::Loss(k)) => add_longer(text, n / 2, k / 2),
        _ => Ok(()),
    }
}

fn is_quicker(value: Value, other: Value) -> bool
    ensures { result ≡ is_quicker value other }
{
    match (value, other) {
        (Value::Loss(n), Value::Loss(k)) => k / 2 < n / 2,
        _ => false,
    }
}

/// The time that another move wastes, beside a move with this value after it: none if mate comes sooner by it.
pub fn wasted(value: Value, x: &Alternative) -> Option<u8>
    ensures { result ≡ wasted value x.now }
{
    if is_quicker(value, x.value) {
        None
    } else {
        x.time
    }
}

#[tactic(auto, unfolding(crate::specs::Rows::also_words))]
fn add_also<A: Allocator>(
    text: &mut Text<'_, A>,
    side: Side,
    value: Value,
    x: &Alternative,
) -> Result<(), AllocError>
    ensures { OnOk result (text.new ≡ text.old ++ also_words side value x.now) }
{
    text.add(b": ")?;
    add_value(text, side, x.value)?;
    add_difference(text, value, x.value)?;
    add_time(text, wasted(value, x))
}

fn put_san<'a, A: Allocator>(
    alloc: &'a A,
    html: &mut Html<'_, A>,
    p: &Position,
    m: Move,
) -> Result<(), AllocError>
    requires { is_legal p.now m ≡ true }
    ensures { OnOk result (html.new ≡ html.old
        ++ element_text Element.Strong (escaped_text (move_text p.now m))) }
{
    let mut san = Text::new(alloc);
    add_san(&mut san, p, m)?;
    put_words(alloc, html, Element::Strong, san.as_slice())
}

#[tactic(auto, unfolding(crate::specs::Rows::also_item))]
fn put_also<'a, A: Allocator>(
    alloc: &'a A,
    html: &mut Html<'_, A>,
    p: &Position,
    value: Value,
    x: &Alternative,
) -> Result<(), AllocError>
    requires { is_legal p.now x.now.played ≡ true }
    ensures { OnOk result (html.new ≡ html.old ++ also_item p.now value x.now) }
{
    let mut item = Html::new(alloc);
    let mut text = Text::new(alloc);
    put_san(alloc, &mut item, p, x.played)?;
    add_also(&mut text, p.to_move().other(), value, x)?;
    item.say(text.as_slice())?;
    html.put(Element::Item, &item)
}

fn put_each_also<'a, A: Allocator>(
    alloc: &'a A,
    html: &mut Html<'_, A>,
    p: &Position,
    value: Value,
    list: &[Alternative],
) -> Result<(), AllocError>
    requires { All (λ x. is_legal p.now x.played ≡ true) list.now }
    ensures { OnOk result (html.new ≡ html.old ++ flat_map (also_item p.now value) list.now) }
{
    for x in list {
        put_also(alloc, html, p, value, x)?;
    }
    Ok(())
}

/// The move of a dual.
fn say_dual_move<'a, A: Allocator>(
    alloc: &'a A,
    title: &mut Html<'_, A>,
    ply: &Ply<'_>,
    m: Move,
) -> Result<(), AllocError>
    requires { is_legal ply.now.position.now m ≡ true }
    ensures { OnOk result (title.new ≡ title.old
        ++ escaped_text (label ply.now.start.now ply.now.depth ply.now.position.now m ++ codes " ")) }
{
    let mut text = Text::new(alloc);
    add_label(&mut text, ply.start, ply.depth, ply.position, m)?;
    text.add(b" ")?;
    title.say(text.as_slice())
}

/// Beside how many moves that hold a dual stands.
fn put_dual_count<'a, A: Allocator>(
    alloc: &'a A,
    title: &mut Html<'_, A>,
    count: u8,
) -> Result<(), AllocError>
    ensures { OnOk result (title.new ≡ title.old
        ++ element_text Label (escaped_text (codes "dual " ++ decimal count))) }
{
    let mut text = Text::new(alloc);
    text.add(b"dual ")?;
    text.add_number(count as u32)?;
    put_words(alloc, title, Element::Label, text.as_slice())
}

#[tactic(auto, unfolding(crate::specs::Rows::card_title))]
fn put_card_title<'a, A: Allocator>(
    alloc: &'a A,
    html: &mut Html<'_, A>,
    ply: &Ply<'_>,
    m: Move,
    count: u8,
) -> Result<(), AllocError>
    requires { is_legal ply.now.position.now m ≡ true }
    ensures { OnOk result (html.new ≡ html.old
        ++ card_title ply.now.start.now ply.now.depth ply.now.position.now m count) }
{
    let mut title = Html::new(alloc);
    say_dual_move(alloc, &mut title, ply, m)?;
    put_dual_count(alloc, &mut title, count)?;
    html.put(Element::CardTitle, &title)
}

/// The words below the title of a card.
fn put_after<'a, A: Allocator>(
    alloc: &'a A,
    html: &mut Html<'_, A>,
    side: Side,
    value: Value,
) -> Result<(), AllocError>
    ensures { OnOk result (html.new ≡ html.old
        ++ element_text Element.Paragraph (escaped_text (value_text side value ++ codes ". Also:"))) }
{
    let mut text = Text::new(alloc);
    add_value(&mut text, side, value)?;
    text.add(b". Also:")?;
    put_words(alloc, html, Element::Paragraph, text.as_slice())
}

/// The other moves that hold, in a list.
fn put_others<'a, A: Allocator>(
    alloc: &'a A,
    html: &mut Html<'_, A>,
    p: &Position,
    value: Value,
    list: &[Alternative],
) -> Result<(), AllocError>
    requires { All (λ x. is_legal p.now x.played ≡ true) list.now }
    ensures { OnOk result (html.new ≡ html.old
        ++ element_text Element.Also (flat_map (also_item p.now value) list.now)) }
{
    let mut others = Html::new(alloc);
    put_each_also(alloc, &mut others, p, value, list)?;
    html.put(Element::Also, &others)
}

/// What is on a card beside the diagram.
#[tactic(auto, unfolding(crate::specs::Rows::card_words))]
fn put_card_words<'a, A: Allocator>(
    alloc: &'a A,
    html: &mut Html<'_, A>,
    ply: &Ply<'_>,
    x: &EvaluatedMove,
    count: u8,
    list: &[Alternative],
) -> Result<(), AllocError>
    requires legal { is_legal ply.now.position.now x.now.played ≡ true }
    requires others { All (λ y. is_legal ply.now.position.now y.played ≡ true) list.now }
    ensures { OnOk result (html.new ≡ html.old
        ++ card_words ply.now.start.now ply.now.depth ply.now.position.now x.now.played
        count x.now.value list.now) }
{
    let p = ply.position;
    put_card_title(alloc, html, ply, x.played, count)?;
    put_after(alloc, html, p.to_move().other(), x.value)?;
    put_others(alloc, html, p, x.value, list)
}

/// The card of a dual: the position before the move, the move with the value after it, and the others.
#[tactic(auto, unfolding(crate::specs::Rows::card))]
pub fn put_card<'a, A: Allocator>(
    alloc: &'a A,
    html: &mut Html<'_, A>,
    ply: &Ply<'_>,
    x: &EvaluatedMove,
    count: u8,
    list: &[Alternative],
) -> Result<(), AllocError>
    requires legal { is_legal ply.now.position.now x.now.played ≡ true }
    requires others { All (λ y. is_legal ply.now.position.now y.played ≡ true) list.now }
    ensures { OnOk result (html.new ≡ html.old
        ++ card ply.now.start.now ply.now.depth ply.now.position.now x.now.played
        count x.now.value list.now) }
{
    let mut card = Html::new(alloc);
    let mut beside = Html::new(alloc);
    draw_mini(alloc, &mut card, ply.position)?;
    put_card_words(alloc, &mut beside, ply, x, count, list)?;
    card.put(Element::Beside, &beside)?;
    html.put(Element::Card, &card)
}

/// The cells that a row begins with.
#[tactic(auto, unfolding(crate::specs::Rows::front_cells))]
pub fn put_node_cells<'a, A: Allocator>(
    alloc: &'a A,
    html: &mut Html<'_, A>,
    node: &[u8],
    side: Side,
    value: Value,
) -> Result<(), AllocError>
    ensures { OnOk result (html.new ≡ html.old ++ front_cells node.now side value) }
{
    let mut text = Text::new(alloc);
    put_words(alloc, html, Element::Cell, node)?;
    add_value(&mut text, side, value)?;
    put_words(alloc, html, Element::Cell, text.as_slice())
}

/// A move of the opponent, and small the value after it.
#[tactic(auto, unfolding(crate::specs::Rows::move_and_value))]
pub fn put_move_and_value<'a, A: Allocator>(
    alloc: &'a A,
    html: &mut Html<'_, A>,
    p: &Position,
    m: Move,
    value: Value,
) -> Result<(), AllocError>
    requires { is_legal p.now m ≡ true }
    ensures { OnOk result (html.new ≡ html.old ++ move_and_value p.now m value) }
{
    let mut text = Text::new(alloc);
    put_san(alloc, html, p, m)?;
    add_mate_distance(&mut text, true, value)?;
    put_words(alloc, html, Element::Below, text.as_slice())
}

#[tactic(auto, unfolding(crate::specs::Rows::refuted_item))]
fn put_refuted<'a, A: Allocator>(
    alloc: &'a A,
    html: &mut Html<'_, A>,
    p: &Position,
    x: &EvaluatedMove,
) -> Result<(), AllocError>
    requires { is_legal p.now x.now.played ≡ true }
    ensures { OnOk result (html.new ≡ html.old ++ refuted_item p.now x.now) }
{
    let mut whole = Html::new(alloc);
    put_move_and_value(alloc, &mut whole, p, x.played, x.value)?;
    html.put(Element::Whole, &whole)?;
    html.say(b" ")
}

fn put_each_refuted<'a, A: Allocator>(
    alloc: &'a A,
    html: &mut Html<'_, A>,
    p: &Position,
    list: &[EvaluatedMove],
) -> Result<(), AllocError>
    requires { All (λ x. is_legal p.now x.played ≡ true) list.now }
    ensures { OnOk result (html.new ≡ html.old ++ flat_map (refuted_item p.now) list.now) }
{
    for x in list {
        put_refuted(alloc, html, p, x)?;
    }
    Ok(())
}

/// Whether the game has ended.
#[tactic(auto, unfolding(crate::specs::Rows::is_over))]
fn is_over(p: &Position) -> bool
    ensures { result ≡ is_over p.now }
{
    legal_moves(p).is_empty()
}

/// That the try stalemates, or mates so many moves too late.
fn add_over<A: Allocator>(text: &mut Text<'_, A>, p: &Position, late: u32) -> Result<(), AllocError>
    ensures { OnOk result (text.new ≡ text.old ++ over_words p.now late) }
{
    if !in_check(p) {
        return text.add(b"stalemate");
    }
    text.add(b"mate")?;
    add_late(text, late)
}

fn put_refutations<'a, A: Allocator>(
    alloc: &'a A,
    html: &mut Html<'_, A>,
    p: &Position,
    late: u32,
    list: &[EvaluatedMove],
) -> Result<(), AllocError>
    requires { All (λ x. is_legal p.now x.played ≡ true) list.now }
    ensures { OnOk result (html.new ≡ html.old ++ refuted_items p.now late list.now) }
{
    if is_over(p) {
        let mut text = Text::new(alloc);
        add_over(&mut text, p, late)?;
        return html.say(text.as_slice());
    }
    put_each_refuted(alloc, html, p, list)
}

/// So many of all, in brackets.
#[tactic(auto, unfolding(crate::specs::Rows::of_all))]
fn add_of_all<A: Allocator>(text: &mut Text<'_, A>, count: u32, all: u32) -> Result<(), AllocError>
    ensures { OnOk result (text.new ≡ text.old ++ of_all count all) }
{
    text.add(b"(")?;
    text.add_number(count)?;
    text.add(b" of ")?;
    text.add_number(all)?;
    text.add(b")")
}

/// That it is the only refutation, or of how many legal moves so many refute.
fn put_refuted_count<'a, A: Allocator>(
    alloc: &'a A,
    html: &mut Html<'_, A>,
    p: &Position,
    count: u32,
) -> Result<(), AllocError>
    ensures { OnOk result (html.new ≡ html.old ++ refuted_count p.now count) }
{
    if is_over(p) {
        return Ok(());
    }
    if count == 1 {
        return put_words(alloc, html, Element::Strong, b"only");
    }
    let mut text = Text::new(alloc);
    add_of_all(&mut text, count, legal_moves(p).len() as u32)?;
    put_words(alloc, html, Element::Small, text.as_slice())
}

/// The row of a try.
#[tactic(auto, unfolding(crate::specs::Rows::try_row))]
pub fn put_try<'a, A: Allocator>(
    alloc: &'a A,
    html: &mut Html<'_, A>,
    name: &[u8],
    here: &StudyNode<'_>,
    list: &[EvaluatedMove],
) -> Result<(), AllocError>
    requires shallow { here.now.node.depth ≤ 256 }
    requires few { length list.now < 2 ^ 32 }
    requires legal { All (λ x. is_legal here.now.node.position.now x.played ≡ true) list.now }
    ensures { OnOk result (html.new ≡ html.old
        ++ try_row name.now here.now.node.aim.now here.now.node.depth here.now.node.position.now
        here.now.value list.now) }
{
    let mut row = Html::new(alloc);
    let mut cell = Html::new(alloc);
    let p = here.node.position;
    let late = late_by(here.node.aim, here.node.depth, here.value);
    put_node_cells(alloc, &mut row, name, p.to_move(), here.value)?;
    put_refutations(alloc, &mut cell, p, late, list)?;
    put_refuted_count(alloc, &mut cell, p, list.len() as u32)?;
    row.put(Element::Cell, &cell)?;
    html.put(Element::Row, &row)
}

fn points_words(zugzwang: Zugzwang) -> &'static [u8]
    ensures { result.now ≡ points_words zugzwang }
{
    match zugzwang {
        Zugzwang::Full => b"full point",
        Zugzwang::Half(_) => b"half a point",
    }
}

/// What comes of it with this side to move.
fn to_move_words(zugzwang: Zugzwang, side: Side) -> &'static [u8]
    ensures { result.now ≡ to_move_words zugzwang side }
{
    match (zugzwang, side) {
        (Zugzwang::Full, Side::White) => b"Black wins",
        (Zugzwang::Full, Side::Black) => b"White wins",
        (Zugzwang::Half(Side::White), Side::White) => b"draw",
        (Zugzwang::Half(Side::White), Side::Black) => b"White wins",
        (Zugzwang::Half(Side::Black), Side::White) => b"Black wins",
        (Zugzwang::Half(Side::Black), Side::Black) => b"draw",
    }
}

/// The node, and of how much of a point it is.
fn put_node<'a, A: Allocator>(
    alloc: &'a A,
    html: &mut Html<'_, A>,
    node: &[u8],
    zugzwang: Zugzwang,
) -> Result<(), AllocError>
    ensures { OnOk result (html.new ≡ html.old
        ++ element_text Element.Cell (escaped_text node.now ++ (escaped_text (codes " ")
        ++ element_text Element.Label (escaped_text (points_words zugzwang))))) }
{
    let mut cell = Html::new(alloc);
    cell.say(node)?;
    cell.say(b" ")?;
    put_words(alloc, &mut cell, Element::Label, points_words(zugzwang))?;
    html.put(Element::Cell, &cell)
}

/// The row of a mutual zugzwang.
#[tactic(auto, unfolding(crate::specs::Rows::zugzwang_row))]
pub fn put_zugzwang<'a, A: Allocator>(
    alloc: &'a A,
    html: &mut Html<'_, A>,
    node: &[u8],
    zugzwang: Zugzwang,
) -> Result<(), AllocError>
    ensures { OnOk result (html.new ≡ html.old ++ zugzwang_row node.now zugzwang) }
{
    let mut row = Html::new(alloc);
    put_node(alloc, &mut row, node, zugzwang)?;
    put_words(
        alloc,
        &mut row,
        Element::Cell,
        to_move_words(zugzwang, Side::White),
    )?;
    put_words(
        alloc,
        &mut row,
        Element::Cell,
        to_move_words(zugzwang, Side::Black),
    )?;
    html.put(Element::Row, &row)
}
