//! The rows that the tables of a page have of one node: a try, a mutual zugzwang, missing defences, and the play after an end of the tree.
ghost use Rattle.std.specs.Prelude.{◌≡◌, ◌++◌, ◌+◌, ◌^◌, ◌<◌, ◌≤◌, true, length, OnOk};
ghost use Rattle.std.specs.List.{All};
ghost use Rattle.study_moves.specs.Rules.{is_legal};
ghost use Rattle.study_marks.specs.BenchState.{marked_study};
ghost use Rattle.study_facts.specs.Asked.{within};
ghost use Rattle.study_facts.specs.Made.{Grew, HasAsked};
ghost use Rattle.study_facts.specs.Play.{IsPlayed, ArePlayed};
ghost use Rattle.study_page.specs.PageNode.{IsPageNode};
ghost use Rattle.study_page.specs.Rows.{try_row, TryRows, zugzwang_rows, ZugzwangRows, given_value, missing_row, DefenceRowsAmong};
ghost use Rattle.study_page.specs.Rows.{play_words, keep_words, end_row, IsEnd, EndRows};
ghost use Rattle.study_page.specs.Words.{where_words};

use crate::cards_and_tries::{put_try, put_zugzwang};
use crate::defence_groups::{DefenceNames, add_elsewhere, put_defences};
use crate::draft::Sections;
use crate::main_defences::{given_value, main_among};
use crate::play_rows::{add_keep, add_moves, put_end};
use std::alloc::{AllocError, Allocator};
use study_board::Position;
use study_facts::{
    Defence, EvaluatedMove, StudyMove, StudyNode, TextFault, Zugzwang, best_play, children_in,
    defences, drawing_moves, refutations, zugzwang_at,
};
use study_head::{Reached, add_label};
use study_html::Html;
use study_marks::Bench;
use study_notation::Start;
use study_text::Text;
use study_values::{Value, Values};

/// A node, the move to it, `None` for the root, and the positions that the moves of the study lead to.
#[derive(Clone, Copy)]
pub struct PageNode<'n, 'k> {
    pub here: StudyNode<'n>,
    pub by: Option<StudyMove<'n>>,
    pub known: &'k [Reached],
}

/// The move to the node, or that it is the start.
fn add_node_name<'b, A: Allocator, B: Allocator>(
    text: &mut Text<'_, A>,
    bench: &Bench<'b, B>,
    node: &PageNode<'_, '_>,
) -> Result<(), AllocError>
    requires { IsPageNode (marked_study bench.now) node.now }
    ensures { OnOk result (text.new ≡ text.old
        ++ where_words (marked_study bench.now) node.now.here.steps.now) }
{
    let first = bench.start();
    match &node.by {
        None => text.add(b"the start"),
        Some(step) => add_label(
            text,
            first,
            step.before.depth,
            step.before.position,
            step.played,
        ),
    }
}

fn put_try_at<'a, 'b, A: Allocator, B: Allocator>(
    alloc: &'a A,
    html: &mut Html<'_, A>,
    bench: &Bench<'b, B>,
    node: &PageNode<'_, '_>,
    list: &[EvaluatedMove],
) -> Result<(), AllocError>
    requires node { IsPageNode (marked_study bench.now) node.now }
    requires shallow { node.now.here.node.depth ≤ 256 }
    requires few { length list.now < 2 ^ 32 }
    requires legal { All (λ x. is_legal node.now.here.node.position.now x.played ≡ true) list.now }
    ensures { OnOk result (html.new ≡ html.old
        ++ try_row (where_words (marked_study bench.now) node.now.here.steps.now)
        node.now.here.node.aim.now node.now.here.node.depth node.now.here.node.position.now
        node.now.here.value list.now) }
{
    let mut name = Text::new(alloc);
    add_node_name(&mut name, bench, node)?;
    put_try(alloc, html, name.as_slice(), &node.here, list)
}

/// The row of a try.
#[inline(never)]
fn add_try<'a, 'b, A: Allocator, B: Allocator, V: Values>(
    alloc: &'a A,
    html: &mut Html<'_, A>,
    bench: &Bench<'b, B>,
    node: &PageNode<'_, '_>,
    values: &mut V,
) -> Result<(), TextFault>
    requires { IsPageNode (marked_study bench.now) node.now }
    ensures text { V.source.is_honest values.old
        → OnOk result
        (Grew (TryRows (marked_study bench.now) node.now.here.steps.now) html.old html.new) }
    ensures asked { HasAsked (within node.now.here.node.position.now V.source)
        values.old result values.new }
{
    let first = bench.start();
    if !node.here.tried {
        return Ok(());
    }
    match refutations(&node.here.node, values) {
        Err(fault) => Err(TextFault::NoValue(fault)),
        Ok(list) => {
            put_try_at(alloc, html, bench, node, list.as_slice())?;
            Ok(())
        }
    }
}

fn put_defences_at<'a, 'b, A: Allocator, B: Allocator>(
    alloc: &'a A,
    html: &mut Html<'_, A>,
    bench: &Bench<'b, B>,
    node: &PageNode<'_, '_>,
    given: Option<Value>,
    list: &[Defence],
) -> Result<(), AllocError>
    requires node { IsPageNode (marked_study bench.now) node.now }
    requires given { given ≡ given_value (marked_study bench.now) node.now.here.steps.now }
    requires few { length list.now < 2 ^ 32 }
    requires all { All (IsPlayed node.now.here.node.position.now) list.now }
    ensures { OnOk result (html.new ≡ html.old
        ++ missing_row node.now.known.now (marked_study bench.now) node.now.here.steps.now
        node.now.here.node.position.now list.now) }
{
    let p = node.here.node.position;
    let mut name = Text::new(alloc);
    let mut elsewhere = Text::new(alloc);
    add_node_name(&mut name, bench, node)?;
    add_elsewhere(&mut elsewhere, node.known, p, list)?;
    let main = main_among(alloc, node.known, p, given, list)?;
    let names = DefenceNames {
        node: name.as_slice(),
        elsewhere: elsewhere.as_slice(),
    };
    put_defences(alloc, html, &names, p, main.as_slice(), list)
}

/// The row of the defences that are missing.
#[inline(never)]
fn add_defences<'a, 'b, A: Allocator, B: Allocator, V: Values>(
    alloc: &'a A,
    html: &mut Html<'_, A>,
    bench: &Bench<'b, B>,
    node: &PageNode<'_, '_>,
    values: &mut V,
) -> Result<(), TextFault>
    requires { IsPageNode (marked_study bench.now) node.now }
    ensures text { V.source.is_honest values.old
        → OnOk result
        (Grew (DefenceRowsAmong node.now.known.now (marked_study bench.now) node.now.here.steps.now)
        html.old html.new) }
    ensures asked { HasAsked (within node.now.here.node.position.now V.source)
        values.old result values.new }
{
    if !node.here.is_defended() {
        return Ok(());
    }
    match children_in(alloc, bench, node.here.steps)? {
        None => Ok(()),
        Some(there) => {
            let moves = there.as_slice();
            match defences(&node.here.node, moves, values) {
                Err(fault) => Err(TextFault::NoValue(fault)),
                Ok(list) => {
                    let given = given_value(alloc, bench, node.here.steps, moves)?;
                    put_defences_at(alloc, html, bench, node, given, list.as_slice())?;
                    Ok(())
                }
            }
        }
    }
}

fn put_keep_at<'a, A: Allocator>(
    alloc: &'a A,
    html: &mut Html<'_, A>,
    name: &[u8],
    p: &Position,
    list: &[EvaluatedMove],
) -> Result<(), AllocError>
    requires few { length list.now < 2 ^ 32 }
    requires legal { All (λ x. is_legal p.now x.played ≡ true) list.now }
    ensures { OnOk result (html.new ≡ html.old
        ++ end_row name.now p.now.to_move Value.Draw (keep_words p.now list.now)) }
{
    let mut text = Text::new(alloc);
    add_keep(&mut text, p, list)?;
    put_end(alloc, html, name, p.to_move(), Value::Draw, text.as_slice())
}

fn put_play_at<'a, A: Allocator>(
    alloc: &'a A,
    html: &mut Html<'_, A>,
    start: &Start,
    here: &StudyNode<'_>,
    name: &[u8],
    list: &[EvaluatedMove],
) -> Result<(), AllocError>
    requires depth { here.now.node.depth + length list.now < 2 ^ 64 }
    requires legal { ArePlayed here.now.node.position.now list.now }
    ensures { OnOk result (html.new ≡ html.old
        ++ end_row name.now here.now.node.position.now.to_move here.now.value
        (play_words true start.now here.now.node.depth here.now.node.position.now list.now)) }
{
    let mut text = Text::new(alloc);
    let node = &here.node;
    add_moves(&mut text, true, start, node.depth, node.position, list)?;
    let side = node.position.to_move();
    put_end(alloc, html, name, side, here.value, text.as_slice())
}

/// Best play, or the moves that keep a draw, at a node of this name.
#[inline(never)]
fn add_continued<'a, A: Allocator, V: Values>(
    alloc: &'a A,
    html: &mut Html<'_, A>,
    start: &Start,
    here: &StudyNode<'_>,
    name: &[u8],
    values: &mut V,
) -> Result<(), TextFault>
    requires { here.now.node.depth + 20 < 2 ^ 64 }
    ensures text { V.source.is_honest values.old
        → OnOk result (Grew (IsEnd start.now here.now.node.depth name.now
        here.now.node.position.now here.now.value) html.old html.new) }
    ensures asked { HasAsked (within here.now.node.position.now V.source)
        values.old result values.new }
{
    if here.value == Value::Draw {
        match drawing_moves(&here.node, values) {
            Err(fault) => Err(TextFault::NoValue(fault)),
            Ok(list) => {
                put_keep_at(alloc, html, name, here.node.position, list.as_slice())?;
                Ok(())
            }
        }
    } else {
        match best_play(here.node.position, values) {
            Err(fault) => Err(TextFault::NoValue(fault)),
            Ok(list) => {
                put_play_at(alloc, html, start, here, name, list.as_slice())?;
                Ok(())
            }
        }
    }
}

/// How it goes on where the tree ends.
#[inline(never)]
fn add_end<'a, 'b, A: Allocator, B: Allocator, V: Values>(
    alloc: &'a A,
    html: &mut Html<'_, A>,
    bench: &Bench<'b, B>,
    node: &PageNode<'_, '_>,
    values: &mut V,
) -> Result<(), TextFault>
    requires { IsPageNode (marked_study bench.now) node.now }
    ensures text { V.source.is_honest values.old
        → OnOk result
        (Grew (EndRows (marked_study bench.now) node.now.here.steps.now) html.old html.new) }
    ensures asked { HasAsked (within node.now.here.node.position.now V.source)
        values.old result values.new }
{
    if !node.here.is_open_end() {
        return Ok(());
    }
    let mut name = Text::new(alloc);
    add_node_name(&mut name, bench, node)?;
    add_continued(
        alloc,
        html,
        bench.start(),
        &node.here,
        name.as_slice(),
        values,
    )
}

fn put_zugzwang_at<'a, 'b, A: Allocator, B: Allocator>(
    alloc: &'a A,
    html: &mut Html<'_, A>,
    bench: &Bench<'b, B>,
    node: &PageNode<'_, '_>,
    zugzwang: Option<Zugzwang>,
) -> Result<(), AllocError>
    requires { IsPageNode (marked_study bench.now) node.now }
    ensures { OnOk result (html.new ≡ html.old
        ++ zugzwang_rows (where_words (marked_study bench.now) node.now.here.steps.now) zugzwang) }
{
    match zugzwang {
        None => Ok(()),
        Some(zugzwang) => {
            let mut name = Text::new(alloc);
            add_node_name(&mut name, bench, node)?;
            put_zugzwang(alloc, html, name.as_slice(), zugzwang)
        }
    }
}

/// The row of a mutual zugzwang.
#[inline(never)]
fn add_zugzwang<'a, 'b, A: Allocator, B: Allocator, V: Values>(
    alloc: &'a A,
    html: &mut Html<'_, A>,
    bench: &Bench<'b, B>,
    node: &PageNode<'_, '_>,
    values: &mut V,
) -> Result<(), TextFault>
    requires { IsPageNode (marked_study bench.now) node.now }
    ensures text { V.source.is_honest values.old
        → OnOk result
        (Grew (ZugzwangRows (marked_study bench.now) node.now.here.steps.now) html.old html.new) }
    ensures asked { HasAsked (within node.now.here.node.position.now V.source)
        values.old result values.new }
{
    match zugzwang_at(node.here.node.position, values) {
        Err(fault) => Err(TextFault::NoValue(fault)),
        Ok(zugzwang) => {
            put_zugzwang_at(alloc, html, bench, node, zugzwang)?;
            Ok(())
        }
    }
}

/// What the tables have of the node.
#[inline(never)]
pub fn add_rows<'a, 'b, A: Allocator, B: Allocator, V: Values>(
    alloc: &'a A,
    parts: &mut Sections<'_, A>,
    bench: &Bench<'b, B>,
    node: &PageNode<'_, '_>,
    values: &mut V,
) -> Result<(), TextFault>
    // Many clauses: one for each part of the page, and those of the probes.
    requires { IsPageNode (marked_study bench.now) node.now }
    ensures faults { parts.new.faults ≡ parts.old.faults }
    ensures duals { parts.new.duals ≡ parts.old.duals }
    ensures tries { V.source.is_honest values.old
        → OnOk result
        (Grew (TryRows (marked_study bench.now) node.now.here.steps.now)
        parts.old.tries parts.new.tries) }
    ensures zugzwangs { V.source.is_honest values.old
        → OnOk result
        (Grew (ZugzwangRows (marked_study bench.now) node.now.here.steps.now)
        parts.old.zugzwangs parts.new.zugzwangs) }
    ensures defences { V.source.is_honest values.old
        → OnOk result
        (Grew (DefenceRowsAmong node.now.known.now (marked_study bench.now) node.now.here.steps.now)
        parts.old.defences parts.new.defences) }
    ensures ends { V.source.is_honest values.old
        → OnOk result
        (Grew (EndRows (marked_study bench.now) node.now.here.steps.now) parts.old.ends parts.new.ends) }
    ensures asked { HasAsked (within node.now.here.node.position.now V.source)
        values.old result values.new }
{
    add_try(alloc, &mut parts.tries, bench, node, values)?;
    add_zugzwang(alloc, &mut parts.zugzwangs, bench, node, values)?;
    add_defences(alloc, &mut parts.defences, bench, node, values)?;
    add_end(alloc, &mut parts.ends, bench, node, values)
}
