//! The solution as a tree.
ghost use Rattle.std.specs.Prelude.{◌≡◌, ◌++◌, ◌<◌, [], true, IfOk, IsOk, OnOk, Some};
ghost use Rattle.study_html.specs.Elements.{element_text};
ghost use Rattle.study_marks.specs.declared.mark.Mark.{Mark as AMark};
ghost use Rattle.study_marks.specs.Study.{IsPlayable};
ghost use Rattle.study_moves.specs.declared.moves.Move.{Move as AMove};
ghost use Rattle.study_moves.specs.Rules.{is_legal};
ghost use Rattle.study_notation.specs.StartAfter.{start_after};
ghost use Rattle.study_tree.specs.Edits.{node_in, width};
ghost use Rattle.study_tree.specs.Forest.{Twig};
ghost use Rattle.study_page.specs.Tree.{move_element, sign_words, dual_words, number_where, played_words, below_words, made_words, list_where};
ghost use Rattle.study_page.specs.Tree.{others_of, item_words, tree_words};

use crate::play_rows::is_white;
use std::alloc::{AllocError, Allocator};
use study_board::Side;
use study_head::add_mate_distance;
use study_html::{Element, Html, put_words};
use study_marks::{MarkedChild, MarkedNode, MoveMark};
use study_moves::Move;
use study_notation::Start;
use study_pgn::{add_move_number, add_san};
use study_text::Text;
use study_values::Value;

fn move_element(mark: Option<MoveMark>) -> Element
    ensures { result ≡ move_element mark }
{
    match mark {
        Some(MoveMark::Only) => Element::Only,
        Some(MoveMark::Dual(_)) => Element::Dual,
        Some(MoveMark::Mistake) => Element::Mistake,
        Some(MoveMark::Idle) => Element::Idle,
        _ => Element::Reply,
    }
}

/// `!` after an only move, and `?` after a mistake.
fn put_sign<'a, A: Allocator>(
    alloc: &'a A,
    html: &mut Html<'_, A>,
    mark: Option<MoveMark>,
) -> Result<(), AllocError>
    ensures { OnOk result (html.new ≡ html.old ++ sign_words mark) }
{
    match mark {
        Some(MoveMark::Only) => put_words(alloc, html, Element::Sign, b"!"),
        Some(MoveMark::Mistake) => put_words(alloc, html, Element::Sign, b"?"),
        _ => Ok(()),
    }
}

/// How many other moves hold beside a dual.
fn put_dual<'a, A: Allocator>(
    alloc: &'a A,
    html: &mut Html<'_, A>,
    mark: Option<MoveMark>,
) -> Result<(), AllocError>
    ensures { OnOk result (html.new ≡ html.old ++ dual_words mark) }
{
    match mark {
        Some(MoveMark::Dual(count)) => {
            let mut text = Text::new(alloc);
            text.add(b"dual ")?;
            text.add_number(count as u32)?;
            html.say(b" ")?;
            put_words(alloc, html, Element::Label, text.as_slice())
        }
        _ => Ok(()),
    }
}

/// The number of a move, before the first of a line and before each of White's.
fn add_number<A: Allocator>(
    text: &mut Text<'_, A>,
    first: bool,
    start: &Start,
) -> Result<(), AllocError>
    ensures { OnOk result (text.new ≡ text.old ++ number_where first start.now) }
{
    if first || is_white(start.position.to_move()) {
        add_move_number(text, start)?;
        return text.add(b" ");
    }
    Ok(())
}

/// A move with its number and its sign.
#[tactic(auto, unfolding(crate::specs::Tree::played_words))]
fn put_played<'a, A: Allocator>(
    alloc: &'a A,
    html: &mut Html<'_, A>,
    first: bool,
    start: &Start,
    played: Move,
    mark: Option<MoveMark>,
) -> Result<(), AllocError>
    requires { is_legal start.now.position played ≡ true }
    ensures { OnOk result (html.new ≡ html.old ++ played_words first start.now played mark) }
{
    let mut text = Text::new(alloc);
    let mut within = Html::new(alloc);
    add_number(&mut text, first, start)?;
    add_san(&mut text, &start.position, played)?;
    within.say(text.as_slice())?;
    put_sign(alloc, &mut within, mark)?;
    html.put(move_element(mark), &within)
}

/// Small, the value after a move of this side.
#[tactic(auto, unfolding(crate::specs::Tree::below_words))]
fn put_below<'a, A: Allocator>(
    alloc: &'a A,
    html: &mut Html<'_, A>,
    hero: Side,
    mover: Side,
    value: Value,
) -> Result<(), AllocError>
    ensures { OnOk result (html.new ≡ html.old ++ below_words hero mover value) }
{
    let mut text = Text::new(alloc);
    add_mate_distance(&mut text, mover.other() == hero, value)?;
    put_words(alloc, html, Element::Below, text.as_slice())
}

/// The move that leads to a child, with its sign, and the value after it. It is a call of its own, so that a ply of the tree takes little of the
/// stack.
#[inline(never)]
#[tactic(auto, unfolding(crate::specs::Tree::made_words))]
fn put_made<'t, 'a, 'b, A: Allocator, B: Allocator>(
    alloc: &'a A,
    html: &mut Html<'_, A>,
    hero: Side,
    first: bool,
    start: &Start,
    child: &MarkedChild<'t, 'b, B>,
) -> Result<(), AllocError>
    requires { is_legal start.now.position child.now.played ≡ true }
    ensures { OnOk result (html.new ≡ html.old
        ++ made_words hero first start.now child.now.played child.now.node.label) }
{
    let mark = child.node.mark();
    put_played(alloc, html, first, start, child.played, mark.on_move)?;
    put_below(alloc, html, hero, start.position.to_move(), mark.value)?;
    put_dual(alloc, html, mark.on_move)?;
    html.say(b" ")
}

/// Items as a list, where there are any.
fn put_list<A: Allocator>(html: &mut Html<'_, A>, items: &Html<'_, A>) -> Result<(), AllocError>
    ensures { OnOk result (html.new ≡ html.old ++ list_where items.now) }
{
    if items.is_empty() {
        return Ok(());
    }
    html.put(Element::List, items)
}

/// Where a line of the tree has come to.
#[derive(Drop)]
struct Reached<'t, 'b, B: Allocator> {
    start: Start,
    node: MarkedNode<'t, 'b, B>,
}

/// A variation that is being written: where it has come to, its text so far, and room for the variations beside its next move. It is kept off the stack,
/// which has to last for variations within variations.
#[derive(Drop)]
struct Variation<'t, 'a, 'b, A: Allocator, B: Allocator> {
    reached: Reached<'t, 'b, B>,
    text: Html<'a, A>,
    list: Html<'a, A>,
}

/// The move to the first child. As each step of a line it is a call of its own, so that nothing of it is on the stack while the variations are written.
#[inline(never)]
fn put_first<'t, 'a, 'b, A: Allocator, B: Allocator>(
    alloc: &'a A,
    html: &mut Html<'_, A>,
    hero: Side,
    first: bool,
    here: &Reached<'t, 'b, B>,
) -> Result<(), AllocError>
    requires there { 0 < width here.now.node.below }
    requires playable { IsPlayable here.now.start.position here.now.node.below }
    ensures { (t : Twig AMark) → node_in here.now.node.below 0 [] ≡ Some t
        → OnOk result (html.new ≡ html.old
        ++ made_words hero first here.now.start t.played t.label) }
{
    let Some(child) = here.node.child(0) else {
        unreachable!()
    };
    put_made(alloc, html, hero, first, &here.start, &child)
}

/// Goes on to the first child.
#[inline(never)]
fn go_on<'t, 'b, B: Allocator>(here: &mut Reached<'t, 'b, B>)
    requires there { 0 < width here.old.node.below }
    requires playable { IsPlayable here.old.start.position here.old.node.below }
    ensures { (m : AMove) × ((node_in here.old.node.below 0 []
        ≡ Some (record { played = m; label = here.new.node.label; below = here.new.node.below }))
        × (here.new.start ≡ start_after here.old.start m)) }
{
    let Some(child) = here.node.child(0) else {
        unreachable!()
    };
    let start = here.start.played(child.played);
    *here = Reached {
        start,
        node: child.node,
    };
}

/// A variation of one move, that to the child at this place.
#[inline(never)]
fn begin_variation<'t, 'a, 'b, A: Allocator, B: Allocator>(
    alloc: &'a A,
    hero: Side,
    here: &Reached<'t, 'b, B>,
    place: u16,
) -> Result<Box<Variation<'t, 'a, 'b, A, B>, &'a A>, AllocError>
    requires there { place < width here.now.node.below }
    requires playable { IsPlayable here.now.start.position here.now.node.below }
    ensures { IfOk result (λ v. (m : AMove) × ((node_in here.now.node.below place []
        ≡ Some (record {
          played = m;
          label = v.value.reached.node.label;
          below = v.value.reached.node.below;
        }))
        × (v.value.reached.start ≡ start_after here.now.start m)
        × (v.value.text ≡ made_words hero true here.now.start m v.value.reached.node.label))) }
{
    let Some(child) = here.node.child(place) else {
        unreachable!()
    };
    let mut text = Html::new(alloc);
    put_made(alloc, &mut text, hero, true, &here.start, &child)?;
    let start = here.start.played(child.played);
    let variation = Variation {
        reached: Reached {
            start,
            node: child.node,
        },
        text,
        list: Html::new(alloc),
    };
    match Box::new(alloc, variation) {
        Err(_) => Err(AllocError),
        Ok(begun) => Ok(begun),
    }
}

/// Adds a variation to the list, if it could be written, and gives its memory back.
#[inline(never)]
fn end_variation<'t, 'a, 'b, A: Allocator, B: Allocator>(
    list: &mut Html<'_, A>,
    variation: Box<Variation<'t, 'a, 'b, A, B>, &'a A>,
    written: Result<(), AllocError>,
) -> Result<(), AllocError>
    ensures written { OnOk result (IsOk written) }
    ensures item { OnOk result (list.new ≡ list.old
        ++ element_text Element.Item variation.entry.value.text) }
{
    written?;
    list.put(Element::Item, &variation.text)
}

/// Empties the list.
#[inline(never)]
fn clear<'a, A: Allocator>(alloc: &'a A, list: &mut Html<'a, A>)
    ensures { list.new ≡ [] }
{
    *list = Html::new(alloc);
}

/// The variations for the moves beside the first, in a list; `list` is room for them. It is a call of its own, so that a ply of the main line takes
/// nothing of the stack.
#[inline(never)]
#[cycle(tree)]
fn put_variations<'t, 'a, 'b, A: Allocator, B: Allocator>(
    alloc: &'a A,
    html: &mut Html<'_, A>,
    list: &mut Html<'a, A>,
    hero: Side,
    here: &Reached<'t, 'b, B>,
) -> Result<(), AllocError>
    requires { IsPlayable here.now.start.position here.now.node.below }
    ensures { OnOk result (html.new ≡ html.old
        ++ list_where (item_words hero here.now.start (others_of here.now.node.below))) }
{
    clear(alloc, list);
    for place in 1..here.node.width() {
        let mut variation = begin_variation(alloc, hero, here, place)?;
        let line = &mut *variation;
        let written = put_line(
            alloc,
            &mut line.text,
            &mut line.list,
            hero,
            false,
            &mut line.reached,
        );
        end_variation(list, variation, written)?;
    }
    put_list(html, list)
}

/// What follows a node: its first move, the variations for the others in a list, and so on along the main line. A variation within another takes a frame
/// of this function and one of `put_variations`, and these are small.
#[inline(never)]
#[cycle(tree)]
fn put_line<'t, 'a, 'b, A: Allocator, B: Allocator>(
    alloc: &'a A,
    html: &mut Html<'_, A>,
    list: &mut Html<'a, A>,
    hero: Side,
    mut first: bool,
    here: &mut Reached<'t, 'b, B>,
) -> Result<(), AllocError>
    requires { IsPlayable here.old.start.position here.old.node.below }
    ensures { OnOk result (html.new ≡ html.old
        ++ tree_words hero first here.old.start here.old.node.below) }
{
    'plies: loop {
        let moves = here.node.width();
        if moves == 0 {
            return Ok(());
        }
        put_first(alloc, html, hero, first, here)?;
        put_variations(alloc, html, list, hero, here)?;
        first = 1 < moves;
        go_on(here);
    }
}

/// What follows a node.
pub fn put_following<'t, 'a, 'b, A: Allocator, B: Allocator>(
    alloc: &'a A,
    html: &mut Html<'_, A>,
    hero: Side,
    first: bool,
    start: Start,
    node: MarkedNode<'t, 'b, B>,
) -> Result<(), AllocError>
    requires { IsPlayable start.position node.below }
    ensures { OnOk result (html.new ≡ html.old ++ tree_words hero first start node.entry.below) }
{
    let mut list = Html::new(alloc);
    let mut here = Reached { start, node };
    put_line(alloc, html, &mut list, hero, first, &mut here)
}
