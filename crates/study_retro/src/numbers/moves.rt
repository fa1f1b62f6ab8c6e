//! Whether quiet moves lose, by the squares that a number encodes, if no capture in passing is legal.
ghost use Rattle.std.specs.Prelude.{◌≡◌, ◌<◌, ℕ, true, false, length, IsTrue, Some, Contains};
ghost use Rattle.study_board.specs.Men.{same_side};
ghost use Rattle.study_board.specs.Sets.{has};
ghost use Rattle.study_board.specs.Position.{Position as Seen, is_occupied};
ghost use Rattle.study_moves.specs.declared.moves.Move.{Move as AMove};
ghost use Rattle.study_moves.specs.Rules.{is_legal, reaches_last_rank};
ghost use Rattle.study_moves.specs.AnyOrder.{is_safe_target};
ghost use Rattle.study_values.specs.Number.{cells_of};
ghost use Rattle.study_index.specs.Computed.{position_numbered};
ghost use Rattle.study_retro.specs.ClassGame.{class_game};
ghost use Rattle.study_levels.specs.Numbered.{IsNumberedClass, NoLossBy};
ghost use Rattle.study_retro.specs.Predecessors.{AreEncoded};
ghost use Rattle.study_retro.specs.Still.{HasMove, QuietMovesLose, QuietMovesLoseBy, IsWonAfter, move_to};

use crate::captures::move_to;
use crate::class_game::ClassGame;
use crate::mover::Mover;
use crate::numbers::en_passant::may_leave_capture;
use std::alloc::Allocator;
use study_board::{Kind, Man, Side, Square, SquareSet};
use study_index::{DecodedMen, IndexAfterMove, decode};
use study_levels::{is_won, label, tells_win};
use study_material::Class;
use study_moves::{played, safe_targets};

/// Whether the man is a pawn that reaches its last rank on the square.
#[inline]
pub fn reaches_last_rank(man: &Man, target: Square) -> bool
    ensures { result ≡ reaches_last_rank man.now target }
{
    let last = match man.side {
        Side::White => 7,
        Side::Black => 0,
    };
    man.kind == Kind::Pawn && target.rank() == last
}

/// The squares with a man.
#[inline]
pub fn occupied_squares(men: &[Man]) -> SquareSet
    ensures { (x : ℕ) → x < 64 → has result x ≡ is_occupied men.now x }
{
    let mut set = SquareSet::empty();
    for m in men {
        set = set.union(SquareSet::of(m.at));
    }
    set
}

/// Whether the other side wins within `level` plies after the legal move of the man to the square, by the position of the
/// number.
fn wins_after<A: Allocator>(
    game: &ClassGame<A>,
    cells: &[u8],
    number: u32,
    man: &Man,
    target: Square,
    level: u8,
) -> bool
    requires laws { IsNumberedClass (class_game game.now.class game.now.tables.now) }
    requires legal { (q : Seen) → position_numbered game.now.class number ≡ Some q
        → is_legal q (move_to man.now target) ≡ true }
    requires numbered { (q : Seen) × (position_numbered game.now.class number ≡ Some q) }
    requires cells { length cells.now ≡ cells_of game.now.class }
    ensures yes { IsTrue result → (q : Seen) → position_numbered game.now.class number ≡ Some q
        → IsWonAfter (class_game game.now.class game.now.tables.now) cells.now level
        q (move_to man.now target) }
    ensures no { result ≡ false
        → NoLossBy (class_game game.now.class game.now.tables.now) cells.now level number }
{
    match decode(game.class, number) {
        None => unreachable!(),
        Some(at) => {
            let to = played(&at, move_to(man, target));
            is_won(label(game, cells, &to), level)
        }
    }
}

/// Whether the legal move of the man to the square, which is empty, is not quiet, or lets the other side win within `level` plies.
#[inline]
pub fn loses_after<A: Allocator>(
    game: &ClassGame<A>,
    cells: &[u8],
    departure: &IndexAfterMove,
    mover: Mover<'_>,
    target: Square,
    level: u8,
) -> bool
    // Many clauses: what the caller has already found of the numbers is required, fact by fact.
    requires laws { IsNumberedClass (class_game game.now.class game.now.tables.now) }
    requires class { departure.now.class ≡ game.now.class }
    requires from { departure.now.from ≡ mover.man.now.at }
    requires numbered { (q : Seen)
        × (position_numbered game.now.class departure.now.number ≡ Some q) }
    requires plain { departure.now.number < 16777216 }
    requires encodes { AreEncoded game.now.class departure.now.number
        mover.setup.now.men.items mover.setup.now.to_move }
    requires man { Contains mover.setup.now.men.items mover.man.now }
    requires side { same_side mover.man.now.side mover.setup.now.to_move ≡ true }
    requires on { target < 64 }
    requires safe { is_safe_target mover.setup.now.men.items mover.setup.now.to_move
        mover.man.now target ≡ true }
    requires free { is_occupied mover.setup.now.men.items target ≡ false }
    requires cells { length cells.now ≡ cells_of game.now.class }
    ensures yes { IsTrue result
        → (reaches_last_rank mover.entry.man.now target ≡ false) → (q : Seen)
        → position_numbered game.now.class departure.now.number ≡ Some q
        → IsWonAfter (class_game game.now.class game.now.tables.now) cells.now level q
        (move_to mover.entry.man.now target) }
    ensures no { result ≡ false
        → NoLossBy (class_game game.now.class game.now.tables.now) cells.now
        level departure.now.number }
{
    let man = mover.man;
    if reaches_last_rank(man, target) {
        return true;
    }
    let after = departure.number_to(target);
    if may_leave_capture(game.class, man.at, target, after) {
        return wins_after(game, cells, departure.number, man, target, level);
    }
    tells_win(cells[after as usize], level)
}

/// The result of looking at quiet moves: whether one of them avoids a loss within so many plies, and whether a legal one was seen.
#[derive(Clone, Copy)]
pub struct QuietMoves {
    pub escape: bool,
    pub some: bool,
}

/// The result for the quiet moves of the man.
#[inline]
pub fn quiet_moves_of<A: Allocator>(
    game: &ClassGame<A>,
    cells: &[u8],
    number: u32,
    mover: Mover<'_>,
    slot: u32,
    level: u8,
) -> QuietMoves
    requires laws { IsNumberedClass (class_game game.now.class game.now.tables.now) }
    requires numbered { (q : Seen) × (position_numbered game.now.class number ≡ Some q) }
    requires plain { number < 16777216 }
    requires encodes { AreEncoded game.now.class number
        mover.setup.now.men.items mover.setup.now.to_move }
    requires man { Contains mover.setup.now.men.items mover.man.now }
    requires cells { length cells.now ≡ cells_of game.now.class }
    ensures yes { IsTrue result.escape
        → NoLossBy (class_game game.now.class game.now.tables.now) cells.now level number }
    ensures no { result.escape ≡ false → (q : Seen)
        → position_numbered game.now.class number ≡ Some q
        → QuietMovesLoseBy (class_game game.now.class game.now.tables.now) cells.now
        level q mover.entry.man.now }
    ensures some { IsTrue result.some → (q : Seen)
        → position_numbered game.now.class number ≡ Some q → HasMove q }
{
    let (setup, man) = (mover.setup, mover.man);
    let mut some = false;
    if man.side != setup.to_move {
        return QuietMoves {
            escape: false,
            some,
        };
    }
    let men = setup.men.as_slice();
    let free = safe_targets(men, setup.to_move, man).without(occupied_squares(men));
    let departure = IndexAfterMove::new(game.class, number, man.at, slot);
    for target in free {
        if !loses_after(game, cells, &departure, mover, target, level) {
            return QuietMoves { escape: true, some };
        }
        some = true;
    }
    QuietMoves {
        escape: false,
        some,
    }
}

/// The result for the quiet moves of the side to move.
pub fn quiet_moves<A: Allocator>(
    game: &ClassGame<A>,
    cells: &[u8],
    number: u32,
    setup: &DecodedMen,
    level: u8,
) -> QuietMoves
    requires laws { IsNumberedClass (class_game game.now.class game.now.tables.now) }
    requires numbered { (q : Seen) × (position_numbered game.now.class number ≡ Some q) }
    requires plain { number < 16777216 }
    requires encodes { AreEncoded game.now.class number setup.now.men.items setup.now.to_move }
    requires cells { length cells.now ≡ cells_of game.now.class }
    ensures yes { IsTrue result.escape
        → NoLossBy (class_game game.now.class game.now.tables.now) cells.now level number }
    ensures no { result.escape ≡ false → (q : Seen)
        → position_numbered game.now.class number ≡ Some q
        → QuietMovesLose (class_game game.now.class game.now.tables.now) cells.now level q }
    ensures some { IsTrue result.some → (q : Seen)
        → position_numbered game.now.class number ≡ Some q → HasMove q }
{
    let mut some = false;
    for (slot, man) in setup.men.as_slice().iter().enumerate() {
        let mover = Mover { setup, man };
        let moves = quiet_moves_of(game, cells, number, mover, slot as u32, level);
        if moves.escape {
            return moves;
        }
        some = some || moves.some;
    }
    QuietMoves {
        escape: false,
        some,
    }
}

/// Whether the man belongs to the side to move, and has a legal move.
#[inline]
fn can_move(setup: &DecodedMen, man: &Man) -> bool
    ensures yes { IsTrue result
        → (same_side man.now.side setup.now.to_move ≡ true) × ((x : ℕ) × (x < 64)
        × (is_safe_target setup.now.men.items setup.now.to_move man.now x ≡ true)) }
    ensures no { result ≡ false → same_side man.now.side setup.now.to_move ≡ true → (x : ℕ) → x < 64
        → is_safe_target setup.now.men.items setup.now.to_move man.now x ≡ false }
{
    if man.side != setup.to_move {
        return false;
    }
    let targets = safe_targets(setup.men.as_slice(), setup.to_move, man);
    if targets.is_empty() {
        return false;
    }
    let _target = targets.first();
    true
}

/// Whether the side to move has a legal move, if the number has a position.
pub fn has_move(class: Class, number: u32, setup: &DecodedMen) -> bool
    requires plain { number < 16777216 }
    requires encodes { AreEncoded class number setup.now.men.items setup.now.to_move }
    ensures yes { IsTrue result → (q : Seen) → position_numbered class number ≡ Some q
        → (m : AMove) × (is_legal q m ≡ true) }
    ensures no { result ≡ false → (q : Seen) → position_numbered class number ≡ Some q → (m : AMove)
        → is_legal q m ≡ true → ⊥ }
{
    let _read = (class, number);
    for man in setup.men.as_slice() {
        if can_move(setup, man) {
            return true;
        }
    }
    false
}
