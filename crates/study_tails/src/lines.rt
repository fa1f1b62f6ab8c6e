//! The lines of a script that make a study.
ghost use Rattle.std.specs.Prelude.{◌≡◌, ◌++◌, ◌<◌, OnOk, map, codes, Some, true};
ghost use Rattle.study_text.specs.Paths.{path_text};
ghost use Rattle.study_wide.specs.Rules.{is_wide_legal};
ghost use Rattle.study_tails.specs.Study.{IsWidePlayable, text_of};
ghost use Rattle.study_tails.specs.Lines.{side_words, goal_words, position_line, stipulation_line, six_names, tag_line, line_of_tag};
ghost use Rattle.study_tails.specs.Lines.{tag_lines, insert_line, insert_lines, head_lines};

use crate::tags::{Tags, tag_text};
use crate::tails::child_path;
use std::alloc::{AllocError, Allocator};
use study_board::Side;
use study_marks::{Goal, Stipulation, TagName, tag_name};
use study_moves::Move;
use study_text::{Piece, Text, add_pieces};
use study_tree::Subtree;
use study_wide::{WidePosition, played};
use study_wide_text::{WideStart, write_wide_fen, write_wide_san};

/// `position FEN`.
#[tactic(auto, unfolding(crate::specs::Lines::position_line))]
fn add_position<A: Allocator>(
    out: &mut Text<'_, A>,
    before: &[u8],
    start: &WideStart,
) -> Result<(), AllocError>
    ensures { OnOk result (out.new ≡ out.old ++ position_line before.now start.now) }
{
    out.add(before)?;
    let fen = write_wide_fen(start);
    add_pieces(
        out,
        &[
            Piece::Bytes(b"position "),
            Piece::Bytes(fen.as_str().as_bytes()),
            Piece::Bytes(b"\n"),
        ],
    )
}

fn side_words(side: Side) -> &'static [u8]
    ensures { result.now ≡ side_words side }
{
    match side {
        Side::White => b"white ",
        Side::Black => b"black ",
    }
}

fn add_goal<A: Allocator>(out: &mut Text<'_, A>, goal: Goal) -> Result<(), AllocError>
    ensures { OnOk result (out.new ≡ out.old ++ goal_words goal) }
{
    match goal {
        Goal::Win => out.add(b"win\n"),
        Goal::Draw => out.add(b"draw\n"),
        Goal::MateIn(moves) => add_pieces(
            out,
            &[
                Piece::Bytes(b"mate "),
                Piece::Number(moves.count() as u32),
                Piece::Bytes(b"\n"),
            ],
        ),
    }
}

/// `stipulate SIDE GOAL`.
#[tactic(auto, unfolding(crate::specs::Lines::stipulation_line))]
pub fn add_stipulation<A: Allocator>(
    out: &mut Text<'_, A>,
    before: &[u8],
    stipulation: &Stipulation,
) -> Result<(), AllocError>
    ensures { OnOk result (out.new ≡ out.old ++ stipulation_line before.now stipulation.now) }
{
    let side = side_words(stipulation.hero);
    add_pieces(
        out,
        &[
            Piece::Bytes(before),
            Piece::Bytes(b"stipulate "),
            Piece::Bytes(side),
        ],
    )?;
    add_goal(out, stipulation.goal)
}

fn six_names() -> [TagName; 6]
    ensures { result ≡ six_names }
{
    [
        TagName::Event,
        TagName::Site,
        TagName::Date,
        TagName::Round,
        TagName::White,
        TagName::Black,
    ]
}

/// `tag NAME TEXT`.
fn add_text_of_tag<'t, A: Allocator>(
    out: &mut Text<'_, A>,
    before: &'t [u8],
    name: TagName,
    text: &'t [u8],
) -> Result<(), AllocError>
    ensures { OnOk result (out.new ≡ out.old ++ tag_line before.now name (Some text.now)) }
{
    add_pieces(
        out,
        &[
            Piece::Bytes(before),
            Piece::Bytes(b"tag "),
            Piece::Bytes(tag_name(name)),
            Piece::Bytes(b" "),
            Piece::Bytes(text),
            Piece::Bytes(b"\n"),
        ],
    )
}

/// The line of a tag, if its text is known.
#[tactic(auto, unfolding(crate::specs::Lines::line_of_tag))]
fn add_tag<A: Allocator>(
    out: &mut Text<'_, A>,
    before: &[u8],
    tags: &Tags,
    name: TagName,
) -> Result<(), AllocError>
    ensures { OnOk result (out.new ≡ out.old
        ++ line_of_tag before.now (map text_of tags.now) name) }
{
    match tag_text(tags, name) {
        None => Ok(()),
        Some(text) => add_text_of_tag(out, before, name, text.as_bytes()),
    }
}

/// The lines of the tags.
fn add_tags<A: Allocator>(
    out: &mut Text<'_, A>,
    before: &[u8],
    tags: &Tags,
) -> Result<(), AllocError>
    ensures { OnOk result (out.new ≡ out.old ++ tag_lines before.now (map text_of tags.now)) }
{
    let names = six_names();
    let mut rest = names.as_slice();
    while let [name, more @ ..] = rest {
        add_tag(out, before, tags, *name)?;
        rest = more;
    }
    Ok(())
}

/// The lines of start, stipulation and tags.
#[tactic(auto, unfolding(crate::specs::Lines::head_lines))]
pub fn add_head<A: Allocator>(
    out: &mut Text<'_, A>,
    before: &[u8],
    start: &WideStart,
    stipulation: &Stipulation,
    tags: &Tags,
) -> Result<(), AllocError>
    ensures { OnOk result (out.new ≡ out.old
        ++ head_lines before.now start.now stipulation.now (map text_of tags.now)) }
{
    add_position(out, before, start)?;
    add_stipulation(out, before, stipulation)?;
    add_tags(out, before, tags)
}

fn add_insert_line<'t, A: Allocator>(
    out: &mut Text<'_, A>,
    before: &'t [u8],
    steps: &'t [u16],
    san: &'t [u8],
) -> Result<(), AllocError>
    ensures { OnOk result (out.new ≡ out.old ++ (before.now ++ (codes "insert "
        ++ (path_text steps.now ++ (codes " " ++ (san.now ++ codes "\n")))))) }
{
    add_pieces(
        out,
        &[
            Piece::Bytes(before),
            Piece::Bytes(b"insert "),
            Piece::Path(steps),
            Piece::Bytes(b" "),
            Piece::Bytes(san),
            Piece::Bytes(b"\n"),
        ],
    )
}

/// `insert PATH SAN`, for a legal move in the position of the node at the path.
#[tactic(auto, unfolding(crate::specs::Lines::insert_line))]
fn add_insert<A: Allocator>(
    out: &mut Text<'_, A>,
    before: &[u8],
    steps: &[u16],
    position: &WidePosition,
    m: Move,
) -> Result<(), AllocError>
    requires { is_wide_legal position.now m ≡ true }
    ensures { OnOk result (out.new ≡ out.old
        ++ insert_line before.now position.now steps.now m) }
{
    let san = write_wide_san(position, m);
    add_insert_line(out, before, steps, san.as_str().as_bytes())
}

/// The lines of the moves below a node with this path and position, in written order.
pub fn add_inserts<'a, A: Allocator>(
    alloc: &'a A,
    out: &mut Text<'_, A>,
    before: &[u8],
    steps: &[u16],
    position: &WidePosition,
    node: &Subtree<'_, 'a, (), A>,
) -> Result<(), AllocError>
    requires { IsWidePlayable position.now node.now.below }
    ensures { OnOk result (out.new ≡ out.old
        ++ insert_lines before.now position.now steps.now 0 node.now.below) }
{
    let mut place = 0;
    while place < node.width() {
        match node.child(place) {
            None => return Ok(()),
            Some(child) => {
                add_insert(out, before, steps, position, child.played)?;
                let below = child_path(alloc, steps, place)?;
                let after = played(position, child.played);
                add_inserts(alloc, out, before, below.steps(), &after, &child.node)?;
            }
        }
        place += 1;
    }
    Ok(())
}
