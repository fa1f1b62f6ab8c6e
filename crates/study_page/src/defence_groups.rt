//! What is written of defences that the tree lacks: the main ones by their one answer, and how many others there are.
ghost use Rattle.std.specs.Prelude.{◌≡◌, ◌++◌, ◌-◌, ◌<◌, ◌≤◌, ◌^◌, true, length, take, drop, OnOk, Some, IfSome};
ghost use Rattle.std.specs.List.{All, flat_map};
ghost use Rattle.std.specs.Option.{option_map};
ghost use Rattle.study_moves.specs.Rules.{is_legal};
ghost use Rattle.study_moves.specs.LegalList.{legal_list};
ghost use Rattle.study_facts.specs.Play.{IsPlayed};
ghost use Rattle.study_html.specs.Elements.{element_text};
ghost use Rattle.study_html.specs.Escape.{escaped_text};
ghost use Rattle.study_page.specs.Rows.{is_answer, has_answer, defence_item, with_answer};
ghost use Rattle.study_page.specs.Rows.{group, any_has, group_of, group_at, groups_from};
ghost use Rattle.study_page.specs.Rows.{answered_words, as_after, elsewhere_words, answered_cell, remaining_words, main_cells, defence_row};

use crate::cards_and_tries::put_move_and_value;
use std::alloc::{AllocError, Allocator};
use study_board::Position;
use study_facts::Defence;
use study_head::{NamedMove, Reached, add_legal_name, first_to};
use study_html::{Drawing, Element, Html, put_words};
use study_moves::{Move, legal_moves, played};
use study_notation::write_san;
use study_pgn::add_san;
use study_text::Text;

/// The words of a row: the node, and which of the missing defences the tree has elsewhere.
#[derive(Clone, Copy)]
pub struct DefenceNames<'n> {
    pub node: &'n [u8],
    pub elsewhere: &'n [u8],
}

/// Whether the one answer in the position is written so.
fn is_answer(q: &Position, only: Option<Move>, text: &[u8]) -> bool
    requires { IfSome only (λ m. is_legal q.now m ≡ true) }
    ensures { result ≡ is_answer q.now only text.now }
{
    match only {
        None => false,
        Some(m) => write_san(q, m).as_str().as_bytes() == text,
    }
}

/// Whether the defence has one answer, and it is written so.
fn has_answer(p: &Position, text: &[u8], y: &Defence) -> bool
    requires { IsPlayed p.now y.now }
    ensures { result ≡ has_answer p.now text.now y.now }
{
    let next = played(p, y.played);
    is_answer(&next, y.only, text)
}

#[tactic(auto, unfolding(crate::specs::Rows::defence_item))]
fn put_defence<'a, A: Allocator>(
    alloc: &'a A,
    html: &mut Html<'_, A>,
    p: &Position,
    y: &Defence,
) -> Result<(), AllocError>
    requires { IsPlayed p.now y.now }
    ensures { OnOk result (html.new ≡ html.old ++ defence_item p.now y.now) }
{
    let mut whole = Html::new(alloc);
    put_move_and_value(alloc, &mut whole, p, y.played, y.value)?;
    html.put(Element::Whole, &whole)?;
    html.say(b" ")
}

/// The defence, if it has this one answer.
fn put_with_answer<'a, A: Allocator>(
    alloc: &'a A,
    html: &mut Html<'_, A>,
    p: &Position,
    text: &[u8],
    y: &Defence,
) -> Result<(), AllocError>
    requires { IsPlayed p.now y.now }
    ensures { OnOk result (html.new ≡ html.old ++ with_answer p.now text.now y.now) }
{
    if has_answer(p, text, y) {
        return put_defence(alloc, html, p, y);
    }
    Ok(())
}

fn put_each_with<'a, A: Allocator>(
    alloc: &'a A,
    html: &mut Html<'_, A>,
    p: &Position,
    text: &[u8],
    list: &[Defence],
) -> Result<(), AllocError>
    requires { All (IsPlayed p.now) list.now }
    ensures { OnOk result (html.new ≡ html.old ++ flat_map (with_answer p.now text.now) list.now) }
{
    for y in list {
        put_with_answer(alloc, html, p, text, y)?;
    }
    Ok(())
}

/// An answer, and all defences whose one answer it is.
#[tactic(auto, unfolding(crate::specs::Rows::group))]
fn put_group<'a, A: Allocator>(
    alloc: &'a A,
    html: &mut Html<'_, A>,
    p: &Position,
    text: &[u8],
    list: &[Defence],
) -> Result<(), AllocError>
    requires { All (IsPlayed p.now) list.now }
    ensures { OnOk result (html.new ≡ html.old ++ group p.now text.now list.now) }
{
    let mut within = Html::new(alloc);
    put_words(alloc, &mut within, Element::Answer, text)?;
    within.say(b" after ")?;
    put_each_with(alloc, &mut within, p, text, list)?;
    html.put(Element::Group, &within)
}

/// Whether one of the defences has this one answer.
fn any_has(p: &Position, text: &[u8], list: &[Defence]) -> bool
    requires { All (IsPlayed p.now) list.now }
    ensures { result ≡ any_has p.now text.now list.now }
{
    match list.split_first() {
        None => false,
        Some((y, rest)) => {
            if has_answer(p, text, y) {
                return true;
            }
            any_has(p, text, rest)
        }
    }
}

/// The group of a defence's one answer in a position, where none of those before has the same answer.
fn put_group_of<'a, A: Allocator>(
    alloc: &'a A,
    html: &mut Html<'_, A>,
    p: &Position,
    list: &[Defence],
    before: &[Defence],
    q: &Position,
    only: Option<Move>,
) -> Result<(), AllocError>
    requires all { All (IsPlayed p.now) list.now }
    requires those { All (IsPlayed p.now) before.now }
    requires legal { IfSome only (λ m. is_legal q.now m ≡ true) }
    ensures { OnOk result (html.new ≡ html.old ++ group_of p.now list.now before.now q.now only) }
{
    match only {
        None => Ok(()),
        Some(m) => {
            let mut text = Text::new(alloc);
            add_san(&mut text, q, m)?;
            if any_has(p, text.as_slice(), before) {
                return Ok(());
            }
            put_group(alloc, html, p, text.as_slice(), list)
        }
    }
}

fn put_group_at<'a, A: Allocator>(
    alloc: &'a A,
    html: &mut Html<'_, A>,
    p: &Position,
    list: &[Defence],
    before: &[Defence],
    y: &Defence,
) -> Result<(), AllocError>
    requires all { All (IsPlayed p.now) list.now }
    requires those { All (IsPlayed p.now) before.now }
    requires this { IsPlayed p.now y.now }
    ensures { OnOk result (html.new ≡ html.old ++ group_at p.now list.now before.now y.now) }
{
    let next = played(p, y.played);
    put_group_of(alloc, html, p, list, before, &next, y.only)
}

/// The groups that begin from a place on.
fn put_groups<'a, A: Allocator>(
    alloc: &'a A,
    html: &mut Html<'_, A>,
    p: &Position,
    list: &[Defence],
    place: usize,
) -> Result<(), AllocError>
    requires within { place ≤ length list.now }
    requires all { All (IsPlayed p.now) list.now }
    ensures { OnOk result (html.new ≡ html.old
        ++ groups_from p.now list.now (take place list.now) (drop place list.now)) }
{
    let (before, rest) = list.split_at(place);
    match rest.split_first() {
        None => Ok(()),
        Some((y, _)) => {
            put_group_at(alloc, html, p, list, before, y)?;
            put_groups(alloc, html, p, list, place + 1)
        }
    }
}

/// The number of legal moves.
fn move_count(p: &Position) -> u32
    ensures { result ≡ length (legal_list p.now) }
{
    legal_moves(p).len() as u32
}

/// How many of so many moves are not among those that are missing.
fn answered_count(all: u32, missing: &[Defence]) -> u32
    requires { length missing.now < 2 ^ 32 }
    ensures { result ≡ all - length missing.now }
{
    all.saturating_sub(missing.len() as u32)
}

/// How many of the legal moves the tree has.
#[tactic(auto, unfolding(crate::specs::Rows::answered_words))]
fn add_answered<A: Allocator>(
    text: &mut Text<'_, A>,
    p: &Position,
    list: &[Defence],
) -> Result<(), AllocError>
    requires { length list.now < 2 ^ 32 }
    ensures { OnOk result (text.new ≡ text.old ++ answered_words p.now list.now) }
{
    let all = move_count(p);
    text.add(b"answers ")?;
    text.add_number(answered_count(all, list))?;
    text.add(b" of ")?;
    text.add_number(all)
}

/// Adds `, Ke7 (as after 3... Kd6)`.
fn add_twin<A: Allocator>(
    text: &mut Text<'_, A>,
    p: &Position,
    m: Move,
    by: &NamedMove,
) -> Result<(), AllocError>
    requires { is_legal p.now m ≡ true }
    ensures { OnOk result (text.new ≡ text.old ++ as_after p.now m (Some by.now)) }
{
    text.add(b", ")?;
    add_san(text, p, m)?;
    text.add(b" (as after ")?;
    add_legal_name(text, by)?;
    text.add(b")")
}

/// The same, if there is such a move of the study.
fn add_as_after<A: Allocator>(
    text: &mut Text<'_, A>,
    p: &Position,
    m: Move,
    by: Option<&NamedMove>,
) -> Result<(), AllocError>
    requires { is_legal p.now m ≡ true }
    ensures { OnOk result (text.new ≡ text.old
        ++ as_after p.now m (option_map (λ named. named.now) by.entry)) }
{
    match by {
        None => Ok(()),
        Some(by) => add_twin(text, p, m, by),
    }
}

/// Adds the defences that lead to where a move of the study leads, each with the first such move.
pub fn add_elsewhere<A: Allocator>(
    text: &mut Text<'_, A>,
    known: &[Reached],
    p: &Position,
    list: &[Defence],
) -> Result<(), AllocError>
    requires { All (IsPlayed p.now) list.now }
    ensures { OnOk result (text.new ≡ text.old ++ elsewhere_words known.now p.now list.now) }
{
    match list.split_first() {
        None => Ok(()),
        Some((y, rest)) => {
            let next = played(p, y.played);
            add_as_after(text, p, y.played, first_to(known, &next))?;
            add_elsewhere(text, known, p, rest)
        }
    }
}

fn put_answered_words<'a, A: Allocator>(
    alloc: &'a A,
    html: &mut Html<'_, A>,
    p: &Position,
    elsewhere: &[u8],
    list: &[Defence],
) -> Result<(), AllocError>
    requires { length list.now < 2 ^ 32 }
    ensures { OnOk result (html.new ≡ html.old ++ element_text Element.Small
        (escaped_text (answered_words p.now list.now ++ elsewhere.now))) }
{
    let mut text = Text::new(alloc);
    add_answered(&mut text, p, list)?;
    text.add(elsewhere)?;
    put_words(alloc, html, Element::Small, text.as_slice())
}

/// The cell with the node, how many of the opponent's moves the tree has there, and what it has elsewhere.
#[tactic(auto, unfolding(crate::specs::Rows::answered_cell))]
fn put_answered<'a, A: Allocator>(
    alloc: &'a A,
    html: &mut Html<'_, A>,
    node: &[u8],
    p: &Position,
    elsewhere: &[u8],
    list: &[Defence],
) -> Result<(), AllocError>
    requires { length list.now < 2 ^ 32 }
    ensures { OnOk result (html.new ≡ html.old
        ++ answered_cell node.now p.now elsewhere.now list.now) }
{
    let mut cell = Html::new(alloc);
    cell.say(node)?;
    cell.draw(&Drawing::Break)?;
    put_answered_words(alloc, &mut cell, p, elsewhere, list)?;
    html.put(Element::Cell, &cell)
}

/// Adds `17 others`.
#[tactic(auto, unfolding(crate::specs::Rows::remaining_words))]
fn add_others<A: Allocator>(text: &mut Text<'_, A>, others: u32) -> Result<(), AllocError>
    ensures { OnOk result (text.new ≡ text.old ++ remaining_words others) }
{
    if others == 0 {
        return Ok(());
    }
    if others == 1 {
        return text.add(b"1 other");
    }
    text.add_number(others)?;
    text.add(b" others")
}

/// The cells of the main defences and of the number of others.
fn put_main<'a, A: Allocator>(
    alloc: &'a A,
    row: &mut Html<'_, A>,
    p: &Position,
    main: &[Defence],
    others: u32,
) -> Result<(), AllocError>
    requires { All (IsPlayed p.now) main.now }
    ensures { OnOk result (row.new ≡ row.old ++ main_cells p.now main.now others) }
{
    let mut groups = Html::new(alloc);
    let mut text = Text::new(alloc);
    put_groups(alloc, &mut groups, p, main, 0)?;
    row.put(Element::Cell, &groups)?;
    add_others(&mut text, others)?;
    put_words(alloc, row, Element::Cell, text.as_slice())
}

/// The row of the defences that are missing, with those that matter; `elsewhere` says which of them the tree has elsewhere.
pub fn put_defences<'a, A: Allocator>(
    alloc: &'a A,
    html: &mut Html<'_, A>,
    names: &DefenceNames<'_>,
    p: &Position,
    main: &[Defence],
    list: &[Defence],
) -> Result<(), AllocError>
    requires few { length list.now < 2 ^ 32 }
    requires some { length main.now ≤ length list.now }
    requires all { All (IsPlayed p.now) main.now }
    ensures { OnOk result (html.new ≡ html.old
        ++ defence_row names.now.node.now p.now names.now.elsewhere.now main.now list.now) }
{
    if list.is_empty() {
        return Ok(());
    }
    let mut row = Html::new(alloc);
    put_answered(alloc, &mut row, names.node, p, names.elsewhere, list)?;
    let others = answered_count(list.len() as u32, main);
    put_main(alloc, &mut row, p, main, others)?;
    html.put(Element::Row, &row)
}
