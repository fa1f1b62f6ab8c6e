//! What is written of faults of the solution.
ghost use Rattle.std.specs.Prelude.{◌≡◌, ◌++◌, ◌<◌, ◌≤◌, ◌^◌, true, length, take, drop, OnOk};
ghost use Rattle.std.specs.List.{All, flat_map};
ghost use Rattle.study_moves.specs.Rules.{is_legal};
ghost use Rattle.study_page.specs.Rows.{lost_words, bracket_words, named_words, next_words, list_words, more_words, others_words, dual_item};
ghost use Rattle.study_page.specs.Rows.{gives_up_goal, mistake_item};

use crate::cards_and_tries::{add_difference, loses_time, wasted};
use crate::late_mate::{add_late, late_by};
use std::alloc::{AllocError, Allocator};
use study_board::Position;
use study_facts::{Alternative, EvaluatedMove};
use study_head::{Ply, add_label};
use study_html::{Element, Html, put_words};
use study_marks::Aim;
use study_moves::Move;
use study_pgn::{add_san, add_value};
use study_text::Text;
use study_values::Value;

fn add_lost<A: Allocator>(text: &mut Text<'_, A>, time: Option<u8>) -> Result<(), AllocError>
    ensures { OnOk result (text.new ≡ text.old ++ lost_words time) }
{
    match time {
        None => Ok(()),
        Some(_) => text.add(loses_time()),
    }
}

/// What follows a comma and a space.
fn without_leading_comma(words: &[u8]) -> &[u8]
    ensures { result.now ≡ drop 2 words.now }
{
    if words.len() < 2 {
        return &words[words.len()..];
    }
    &words[2..]
}

fn add_bracketed<A: Allocator>(text: &mut Text<'_, A>, words: &[u8]) -> Result<(), AllocError>
    ensures { OnOk result (text.new ≡ text.old ++ bracket_words words.now) }
{
    if words.is_empty() {
        return Ok(());
    }
    text.add(b" (")?;
    text.add(without_leading_comma(words))?;
    text.add(b")")
}

/// Another move that holds, beside one with this value after it.
#[tactic(auto, unfolding(crate::specs::Rows::named_words))]
fn add_named<'a, A: Allocator>(
    alloc: &'a A,
    text: &mut Text<'_, A>,
    p: &Position,
    value: Value,
    x: &Alternative,
) -> Result<(), AllocError>
    requires { is_legal p.now x.now.played ≡ true }
    ensures { OnOk result (text.new ≡ text.old ++ named_words p.now value x.now) }
{
    let mut gap = Text::new(alloc);
    add_difference(&mut gap, value, x.value)?;
    add_lost(&mut gap, wasted(value, x))?;
    add_san(text, p, x.played)?;
    add_bracketed(text, gap.as_slice())
}

#[tactic(auto, unfolding(crate::specs::Rows::next_words))]
fn add_next<'a, A: Allocator>(
    alloc: &'a A,
    text: &mut Text<'_, A>,
    p: &Position,
    value: Value,
    x: &Alternative,
) -> Result<(), AllocError>
    requires { is_legal p.now x.now.played ≡ true }
    ensures { OnOk result (text.new ≡ text.old ++ next_words p.now value x.now) }
{
    text.add(b", ")?;
    add_named(alloc, text, p, value, x)
}

fn add_each_next<'a, A: Allocator>(
    alloc: &'a A,
    text: &mut Text<'_, A>,
    p: &Position,
    value: Value,
    list: &[Alternative],
) -> Result<(), AllocError>
    requires { All (λ x. is_legal p.now x.played ≡ true) list.now }
    ensures { OnOk result (text.new ≡ text.old ++ flat_map (next_words p.now value) list.now) }
{
    for x in list {
        add_next(alloc, text, p, value, x)?;
    }
    Ok(())
}

/// The other moves, each after a comma but the first.
fn add_list<'a, A: Allocator>(
    alloc: &'a A,
    text: &mut Text<'_, A>,
    p: &Position,
    value: Value,
    list: &[Alternative],
) -> Result<(), AllocError>
    requires { All (λ x. is_legal p.now x.played ≡ true) list.now }
    ensures { OnOk result (text.new ≡ text.old ++ list_words p.now value list.now) }
{
    match list.split_first() {
        None => Ok(()),
        Some((x, rest)) => {
            add_named(alloc, text, p, value, x)?;
            add_each_next(alloc, text, p, value, rest)
        }
    }
}

fn add_more<A: Allocator>(text: &mut Text<'_, A>, count: u32) -> Result<(), AllocError>
    ensures { OnOk result (text.new ≡ text.old ++ more_words count) }
{
    if count == 0 {
        return Ok(());
    }
    text.add(b" and ")?;
    text.add_number(count)?;
    text.add(b" more")
}

/// Up to six.
fn first_six(list: &[Alternative]) -> &[Alternative]
    ensures { result.now ≡ take 6 list.now }
{
    if list.len() < 6 {
        return list;
    }
    &list[..6]
}

/// Up to six other moves, and how many more there are.
#[tactic(auto, unfolding(crate::specs::Rows::others_words))]
fn add_others<'a, A: Allocator>(
    alloc: &'a A,
    text: &mut Text<'_, A>,
    p: &Position,
    value: Value,
    list: &[Alternative],
) -> Result<(), AllocError>
    requires few { length list.now < 2 ^ 32 }
    requires legal { All (λ x. is_legal p.now x.played ≡ true) list.now }
    ensures { OnOk result (text.new ≡ text.old ++ others_words p.now value list.now) }
{
    text.add(b": also ")?;
    add_list(alloc, text, p, value, first_six(list))?;
    add_more(text, (list.len() as u32).saturating_sub(6))
}

/// A dual, and the others that hold.
#[tactic(auto, unfolding(crate::specs::Rows::dual_item))]
pub fn put_dual<'a, A: Allocator>(
    alloc: &'a A,
    html: &mut Html<'_, A>,
    ply: &Ply<'_>,
    x: &EvaluatedMove,
    list: &[Alternative],
) -> Result<(), AllocError>
    requires few { length list.now < 2 ^ 32 }
    requires legal { is_legal ply.now.position.now x.now.played ≡ true }
    requires others { All (λ y. is_legal ply.now.position.now y.played ≡ true) list.now }
    ensures { OnOk result (html.new ≡ html.old
        ++ dual_item ply.now.start.now ply.now.depth ply.now.position.now
        x.now.played x.now.value list.now) }
{
    let mut text = Text::new(alloc);
    add_label(&mut text, ply.start, ply.depth, ply.position, x.played)?;
    add_others(alloc, &mut text, ply.position, x.value, list)?;
    put_words(alloc, html, Element::Item, text.as_slice())
}

#[tactic(auto, unfolding(crate::specs::Rows::gives_up_goal))]
fn gives_up_goal() -> &'static [u8]
    ensures { result.now ≡ gives_up_goal }
{
    b" throws it away: "
}

/// A mistake, with the value after it, and, if the hero mates too late by it, by how many moves.
#[tactic(auto, unfolding(crate::specs::Rows::mistake_item))]
pub fn put_mistake<'a, A: Allocator>(
    alloc: &'a A,
    html: &mut Html<'_, A>,
    aim: &Aim,
    ply: &Ply<'_>,
    m: Move,
    value: Value,
) -> Result<(), AllocError>
    requires shallow { ply.now.depth ≤ 256 }
    requires legal { is_legal ply.now.position.now m ≡ true }
    ensures { OnOk result (html.new ≡ html.old ++ mistake_item ply.now.start.now aim.now
        ply.now.depth ply.now.position.now m value) }
{
    let mut text = Text::new(alloc);
    add_label(&mut text, ply.start, ply.depth, ply.position, m)?;
    text.add(gives_up_goal())?;
    add_value(&mut text, ply.position.to_move().other(), value)?;
    add_late(&mut text, late_by(aim, ply.depth + 1, value))?;
    put_words(alloc, html, Element::Item, text.as_slice())
}
