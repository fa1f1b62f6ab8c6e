//! The list of the legal moves.
ghost use Rattle.std.specs.Prelude.{◌≡◌, ℕ, ◌<◌, ◌≤◌, ◌+◌, ◌*◌, ◌↔◌, Option, Some, true, if◌then◌else◌};
ghost use Rattle.std.specs.List.{Contains, AllPairs};
ghost use Rattle.arrayvec.specs.ArrayVec.{array_vec_len};
ghost use Rattle.study_board.specs.Position.{man_at};
ghost use Rattle.study_moves.specs.declared.moves.Move.{Move as AMove};
ghost use Rattle.study_board.specs.Men.{same_side};
ghost use Rattle.study_board.specs.Sets.{has};
ghost use Rattle.std.specs.Prelude.{false};
ghost use Rattle.study_board.specs.Position.{is_occupied};
ghost use Rattle.study_moves.specs.Rules.{reaches_target, is_legal, is_legal_for, reaches_last_rank};
ghost use Rattle.study_moves.specs.LegalList.{legal_list};
ghost use Rattle.study_moves.specs.Order.{EachIsLegal, move_place, IsBefore, AreMovesBelow};
ghost use Rattle.study_moves.specs.MoveCount.{most_moves};

use crate::Move;
use crate::king_safety::unsafe_targets;
use crate::legal::{is_legal_for, may_capture_en_passant, reaches_last_rank};
use crate::targets::targets;
use arrayvec::ArrayVec;
use study_board::{Kind, Man, Position, Square, SquareSet};

/// The largest number of moves of a position: its side to move has at most a king, which has 8, and two queens, with 27 each.
pub const MAX_MOVES: usize = 62;

/// A list with room for the moves of any position.
pub type MoveList = ArrayVec<Move, MAX_MOVES>;

/// Each legal move once, ascending by origin, then target, then promotion: queen, rook, bishop, knight.
pub fn legal_moves(p: &Position) -> MoveList
    ensures legal { (m : AMove) → Contains result.items m ↔ (is_legal p.now m ≡ true) }
    ensures ordered { AllPairs IsBefore result.items }
    ensures listed { result.items ≡ legal_list p.now }
{
    let side = p.to_move();
    let mut list = ArrayVec::new();
    let men = p.men();
    for man in men {
        if man.side == side {
            add_moves_of(p, man, &mut list);
        }
    }
    list
}

/// Adds the legal moves of a man.
fn add_moves_of(p: &Position, man: &Man, list: &mut MoveList)
    requires here { man_at p.now.men man.now.at ≡ Some man.now }
    requires mine { same_side man.now.side p.now.to_move ≡ true }
    requires room { array_vec_len list.old + most_moves man.now.kind ≤ MAX_MOVES }
    requires before { AreMovesBelow p.now list.old.items (512 * man.now.at) }
    ensures after { AreMovesBelow p.now list.new.items (512 * man.now.at + 512) }
    ensures few { array_vec_len list.new ≤ array_vec_len list.old + most_moves man.now.kind }
{
    let _origin = man.at.number();
    let (all, sure) = legal_targets(p, man);
    for target in all {
        add_target(p, man, target, sure, list);
    }
}

/// The targets of a man, among them those of all its legal moves, and whether each move to them is legal.
#[inline]
fn legal_targets(p: &Position, man: &Man) -> (SquareSet, bool)
    requires { same_side man.now.side p.now.to_move ≡ true }
    ensures all { (m : AMove) → m.target < 64 → is_legal_for p.now man.now m ≡ true
        → has result.0 m.target ≡ true }
    ensures going { (x : ℕ) → x < 64 → has result.0 x ≡ true
        → reaches_target p.now.men p.now.passed man.now x ≡ true }
    ensures sure { result.1 ≡ true → (x : ℕ) → x < 64 → has result.0 x ≡ true
        → EachIsLegal p.now man.now x }
{
    let men = p.men();
    let side = p.to_move();
    let all = targets(men, side, p.passed(), man);
    if may_capture_en_passant(p, man) {
        (all, false)
    } else {
        (all.without(unsafe_targets(men, side, man)), true)
    }
}

/// Adds the legal moves of a man to a square.
fn add_target(p: &Position, man: &Man, target: Square, sure: bool, list: &mut MoveList)
    requires here { man_at p.now.men man.now.at ≡ Some man.now }
    requires sure { sure ≡ true → EachIsLegal p.now man.now target }
    requires room { array_vec_len list.old
        + (if reaches_last_rank man.now target then 4 else 1) ≤ MAX_MOVES }
    requires before { AreMovesBelow p.now list.old.items (512 * man.now.at + 8 * target) }
    ensures after { AreMovesBelow p.now list.new.items (512 * man.now.at + 8 * target + 8) }
    ensures few { array_vec_len list.new ≤ array_vec_len list.old
        + (if reaches_last_rank man.now target then 4 else 1) }
{
    let _target = target.number();
    if reaches_last_rank(man, target) {
        add(
            p,
            man,
            move_between(man.at, target, Some(Kind::Queen)),
            sure,
            list,
        );
        add(
            p,
            man,
            move_between(man.at, target, Some(Kind::Rook)),
            sure,
            list,
        );
        add(
            p,
            man,
            move_between(man.at, target, Some(Kind::Bishop)),
            sure,
            list,
        );
        add(
            p,
            man,
            move_between(man.at, target, Some(Kind::Knight)),
            sure,
            list,
        );
    } else {
        add(p, man, move_between(man.at, target, None), sure, list);
    }
}

#[inline]
fn move_between(origin: Square, target: Square, promoted: Option<Kind>) -> Move
    ensures { result ≡ record { origin = origin; target = target; promoted = promoted } }
{
    Move {
        origin,
        target,
        promoted,
    }
}

/// Adds a move if it is legal.
fn add(p: &Position, man: &Man, m: Move, sure: bool, list: &mut MoveList)
    requires sure { sure ≡ true → is_legal_for p.now man.now m ≡ true }
    requires here { man_at p.now.men man.now.at ≡ Some man.now }
    requires origin { m.origin ≡ man.now.at }
    requires room { array_vec_len list.old < MAX_MOVES }
    requires before { AreMovesBelow p.now list.old.items (move_place m) }
    ensures after { AreMovesBelow p.now list.new.items (move_place m + 1) }
    ensures few { array_vec_len list.new ≤ array_vec_len list.old + 1 }
{
    let _target = m.target.number();
    if is_known_legal(p, man, &m, sure) {
        list.push(m);
    }
}

/// Whether the move is legal; `sure` if that is known.
#[inline]
fn is_known_legal(p: &Position, man: &Man, m: &Move, sure: bool) -> bool
    requires here { is_occupied p.now.men man.now.at ≡ true }
    requires sure { sure ≡ true → is_legal_for p.now man.now m.now ≡ true }
    ensures { result ≡ is_legal_for p.now man.now m.now }
{
    if sure { true } else { is_legal_for(p, man, m) }
}
