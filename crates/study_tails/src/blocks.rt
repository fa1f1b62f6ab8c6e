//! The text of a study with its tails.
ghost use Rattle.std.specs.Prelude.{◌≡◌, ◌++◌, ◌<◌, ◌^◌, [], IfOk, IfSome, OnOk, codes, length, true};
ghost use Rattle.study_text.specs.Paths.{path_text};
ghost use Rattle.study_wide.specs.Rules.{is_wide_legal};
ghost use Rattle.study_tails.specs.Study.{IsWidePlayable, node_at};
ghost use Rattle.study_tails.specs.Tails.{is_beside, tails, tail};
ghost use Rattle.study_tails.specs.Lines.{study_lines};
ghost use Rattle.study_tails.specs.Blocks.{last_from, dots, last_words, small_of, is_same, twin_among, beside_words, twin_words, reason_words, place_words};
ghost use Rattle.study_tails.specs.Blocks.{widen_study, body_text, block_text, blocks_text, wide_text};
ghost use Rattle.study_tails.specs.Blocks.{has_four, gets_to_four, game_reason, reason_of_game, game_words};

use crate::lines::{add_head, add_inserts};
use crate::study::WideStudy;
use crate::tails::{LeftOut, Tail};
use std::alloc::{AllocError, Allocator};
use study_board::{Position, Side};
use study_moves::Move;
use study_text::{Piece, Text, add_pieces};
use study_tree::{Path, Subtree};
use study_wide::{WidePosition, narrow, played};
use study_wide_text::{WideStart, write_wide_san};

/// The largest number of tails of a game that has a text.
pub const MAX_TAILS: usize = 255;

/// The last move of a path, and the start before it.
#[derive(Drop)]
pub struct LastMove {
    pub start: WideStart,
    pub played: Move,
}

/// Which tail it is: its number, of how many, and the number of the game.
#[derive(Clone, Copy)]
pub struct Heading {
    pub number: u32,
    pub count: u32,
    pub game: u32,
}

/// Why a game has no text.
#[derive(Clone, Copy)]
pub enum GameLeftOut {
    /// No line gets down to four men.
    NeverFourMen,
    /// Where at most four men are left, there is a right to castle.
    RightsToTheEnd,
    /// More than 255 tails.
    TooManyTails,
}

impl<'t, 'a, A: Allocator> Tail<'t, 'a, A> {
    /// Adds the lines that make the study.
    #[tactic(auto, unfolding(crate::specs::Lines::study_lines))]
    pub fn add_lines(&self, alloc: &'a A, out: &mut Text<'_, A>) -> Result<(), AllocError>
        ensures { OnOk result (out.new ≡ out.old ++ study_lines [] (widen_study self.now)) }
    {
        add_head(out, b"", &self.start, &self.stipulation, self.tags)?;
        add_inserts(alloc, out, b"", &[], &self.start.position, &self.tree)
    }
}

impl<'a, A: Allocator> WideStudy<'a, A> {
    /// Adds the lines that make the study, each after these bytes.
    #[tactic(auto, unfolding(crate::specs::Lines::study_lines))]
    pub fn add_lines(
        &self,
        alloc: &'a A,
        out: &mut Text<'_, A>,
        before: &[u8],
    ) -> Result<(), AllocError>
        ensures { OnOk result (out.new ≡ out.old ++ study_lines before.now self.now) }
    {
        add_head(out, before, &self.start, &self.stipulation, &self.tags)?;
        let tree = self.tree.root();
        add_inserts(alloc, out, before, &[], &self.start.position, &tree)
    }

    /// The last move of a path, and the start before it.
    fn last_move(&self, steps: &[u16]) -> Option<LastMove>
        ensures value { result ≡ last_from self.now.start self.now.tree.below steps.now }
        ensures legal { IfSome result (λ m. is_wide_legal m.start.position m.played ≡ true) }
    {
        match steps.split_last() {
            None => None,
            Some((last, front)) => match self.node(front) {
                None => None,
                Some(node) => match node.tree.child(*last) {
                    None => None,
                    Some(child) => Some(LastMove {
                        start: node.start,
                        played: child.played,
                    }),
                },
            },
        }
    }

    /// The position of the node, if at most four men and no right are left there.
    #[tactic(auto, unfolding(crate::specs::Blocks::small_of))]
    fn small_position(&self, steps: &[u16]) -> Option<Position>
        ensures { result ≡ small_of (node_at self.now steps.now) }
    {
        match self.node(steps) {
            None => None,
            Some(node) => narrow(&node.start.position),
        }
    }

    /// The number of the first of these tails with the position of the node.
    fn twin(&self, steps: &[u16], earlier: &[Path<'a, A>]) -> Option<u32>
        requires { length earlier.now < 2 ^ 31 }
        ensures { result ≡ twin_among self.now (small_of (node_at self.now steps.now)) 1 earlier.now }
    {
        let position = self.small_position(steps);
        let mut k = 0;
        while k < earlier.len() {
            if is_same(&self.small_position(earlier[k].steps()), &position) {
                return Some(k as u32 + 1);
            }
            k += 1;
        }
        None
    }
}

#[tactic(auto, unfolding(crate::specs::Blocks::is_same))]
fn is_same(p: &Option<Position>, q: &Option<Position>) -> bool
    ensures { result ≡ is_same p.now q.now }
{
    match (p, q) {
        (Some(p), Some(q)) => p == q,
        _ => false,
    }
}

fn dots(side: Side) -> &'static [u8]
    ensures { result.now ≡ dots side }
{
    match side {
        Side::White => b". ",
        Side::Black => b"... ",
    }
}

/// Adds the last move of the path, with its number.
fn add_last_move<'a, A: Allocator>(
    out: &mut Text<'_, A>,
    study: &WideStudy<'a, A>,
    steps: &[u16],
) -> Result<(), AllocError>
    ensures { OnOk result (out.new ≡ out.old
        ++ last_words (last_from study.now.start study.now.tree.below steps.now)) }
{
    match study.last_move(steps) {
        None => out.add(b"no move"),
        Some(m) => {
            let san = write_wide_san(&m.start.position, m.played);
            add_pieces(
                out,
                &[
                    Piece::Number(m.start.number as u32),
                    Piece::Bytes(dots(m.start.position.to_move())),
                    Piece::Bytes(san.as_str().as_bytes()),
                ],
            )
        }
    }
}

/// Adds which tail it is, and the words before its last move.
fn add_place<A: Allocator>(
    out: &mut Text<'_, A>,
    heading: &Heading,
    steps: &[u16],
) -> Result<(), AllocError>
    ensures { OnOk result (out.new ≡ out.old ++ (place_words heading.now
        ++ (codes ", node " ++ (path_text steps.now ++ codes ", after ")))) }
{
    add_pieces(
        out,
        &[
            Piece::Bytes(b"#! tail "),
            Piece::Number(heading.number),
            Piece::Bytes(b" of "),
            Piece::Number(heading.count),
            Piece::Bytes(b" of game "),
            Piece::Number(heading.game),
            Piece::Bytes(b", node "),
            Piece::Path(steps),
            Piece::Bytes(b", after "),
        ],
    )
}

fn beside_words(beside: bool) -> &'static [u8]
    ensures { result.now ≡ beside_words beside }
{
    if beside {
        b", beside the solution"
    } else {
        b""
    }
}

/// Adds whether the tail is beside the solution, and the first tail with its position.
fn add_marks<A: Allocator>(
    out: &mut Text<'_, A>,
    beside: bool,
    twin: Option<u32>,
) -> Result<(), AllocError>
    ensures { OnOk result (out.new ≡ out.old ++ (beside_words beside ++ twin_words twin)) }
{
    let words = beside_words(beside);
    match twin {
        None => out.add(words),
        Some(number) => add_pieces(
            out,
            &[
                Piece::Bytes(words),
                Piece::Bytes(b", the position of tail "),
                Piece::Number(number),
            ],
        ),
    }
}

fn reason_words(why: LeftOut) -> &'static [u8]
    ensures { result.now ≡ reason_words why }
{
    match why {
        LeftOut::NoTail => b"more than four men",
        LeftOut::MateIsDue => b"the mate is due",
        LeftOut::NumbersAbove9999 => b"numbers above 9999",
    }
}

/// Adds the lines that make the study and write its PGN, or why there are none.
fn add_body<'a, A: Allocator>(
    alloc: &'a A,
    out: &mut Text<'_, A>,
    study: &WideStudy<'a, A>,
    steps: &[u16],
) -> Result<(), AllocError>
    ensures { OnOk result (out.new ≡ out.old ++ body_text (tail study.now steps.now)) }
{
    match study.tail(steps) {
        Ok(tail) => {
            out.add(b"\n")?;
            tail.add_lines(alloc, out)?;
            out.add(b"pgn\n\n")
        }
        Err(why) => add_pieces(
            out,
            &[
                Piece::Bytes(b": left out: "),
                Piece::Bytes(reason_words(why)),
                Piece::Bytes(b"\n\n"),
            ],
        ),
    }
}

/// Adds the block of a tail, before which these tails are.
#[tactic(auto, unfolding(crate::specs::Blocks::block_text))]
fn add_block<'a, A: Allocator>(
    alloc: &'a A,
    out: &mut Text<'_, A>,
    study: &WideStudy<'a, A>,
    heading: &Heading,
    earlier: &[Path<'a, A>],
    steps: &[u16],
) -> Result<(), AllocError>
    requires { length earlier.now < 2 ^ 31 }
    ensures { OnOk result (out.new ≡ out.old
        ++ block_text study.now heading.now earlier.now steps.now) }
{
    add_place(out, heading, steps)?;
    add_last_move(out, study, steps)?;
    add_marks(out, study.is_beside(steps), study.twin(steps, earlier))?;
    add_body(alloc, out, study, steps)
}

/// Adds the blocks of these tails.
fn add_blocks<'a, A: Allocator>(
    alloc: &'a A,
    out: &mut Text<'_, A>,
    study: &WideStudy<'a, A>,
    game: u32,
    paths: &[Path<'a, A>],
) -> Result<(), AllocError>
    requires { length paths.now < 2 ^ 31 }
    ensures { OnOk result (out.new ≡ out.old
        ++ blocks_text study.now game (length paths.now) [] paths.now) }
{
    let mut k = 0;
    while k < paths.len() {
        let heading = Heading {
            number: k as u32 + 1,
            count: paths.len() as u32,
            game,
        };
        add_block(alloc, out, study, &heading, &paths[..k], paths[k].steps())?;
        k += 1;
    }
    Ok(())
}

/// Adds the study in remarks and the blocks of its tails; `game` is the number of the game.
#[tactic(auto, unfolding(crate::specs::Blocks::wide_text))]
pub fn add_wide_text<'a, A: Allocator>(
    alloc: &'a A,
    out: &mut Text<'_, A>,
    study: &WideStudy<'a, A>,
    game: u32,
) -> Result<(), AllocError>
    ensures { OnOk result (out.new ≡ out.old ++ wide_text study.now game) }
{
    study.add_lines(alloc, out, b"#> ")?;
    out.add(b"\n")?;
    let paths = study.tails(alloc)?;
    add_blocks(alloc, out, study, game, &paths)
}

/// Whether at most four men are left.
fn has_four(p: &WidePosition) -> bool
    ensures { result ≡ has_four p.now }
{
    p.men().len() <= 4
}

/// Whether at some node below this one, which has the position, at most four men are left.
fn gets_to_four<A: Allocator>(position: &WidePosition, node: &Subtree<'_, '_, (), A>) -> bool
    requires { IsWidePlayable position.now node.now.below }
    ensures { result ≡ gets_to_four position.now node.now.below }
{
    let mut place = 0;
    while place < node.width() {
        match node.child(place) {
            None => return false,
            Some(child) => {
                let after = played(position, child.played);
                if has_four(&after) || gets_to_four(&after, &child.node) {
                    return true;
                }
            }
        }
        place += 1;
    }
    false
}

/// Why the game has no text, if it has none.
#[tactic(auto, unfolding(crate::specs::Blocks::game_reason))]
pub fn game_reason<'a, A: Allocator>(
    alloc: &'a A,
    study: &WideStudy<'a, A>,
) -> Result<Option<GameLeftOut>, AllocError>
    ensures { IfOk result (λ why. why ≡ game_reason study.now) }
{
    let count = {
        let paths = study.tails(alloc)?;
        paths.len()
    };
    if count == 0 {
        let start = &study.start.position;
        if has_four(start) || gets_to_four(start, &study.tree.root()) {
            Ok(Some(GameLeftOut::RightsToTheEnd))
        } else {
            Ok(Some(GameLeftOut::NeverFourMen))
        }
    } else if count > MAX_TAILS {
        Ok(Some(GameLeftOut::TooManyTails))
    } else {
        Ok(None)
    }
}

/// The reason, behind the number of men if that is said.
fn reason_of_game(why: GameLeftOut) -> &'static [u8]
    ensures { result.now ≡ reason_of_game why }
{
    match why {
        GameLeftOut::NeverFourMen => b" men, never four or fewer",
        GameLeftOut::RightsToTheEnd => b" men, castling rights to the end",
        GameLeftOut::TooManyTails => b"more than 255 endings",
    }
}

/// Adds why a game that begins with so many men has no text.
pub fn add_game_reason<A: Allocator>(
    out: &mut Text<'_, A>,
    men: u32,
    why: GameLeftOut,
) -> Result<(), AllocError>
    ensures { OnOk result (out.new ≡ out.old ++ game_words men why) }
{
    let reason = reason_of_game(why);
    match why {
        GameLeftOut::TooManyTails => out.add(reason),
        _ => add_pieces(out, &[Piece::Number(men), Piece::Bytes(reason)]),
    }
}
