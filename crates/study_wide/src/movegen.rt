//! The list of the legal moves.
ghost use Rattle.std.specs.Prelude.{◌≡◌, ◌↔◌, ◌<◌, ◌≤◌, ◌+◌, ◌++◌, [], ◌∷◌, true, length, Some};
ghost use Rattle.std.specs.List.{Contains, filter};
ghost use Rattle.arrayvec.specs.ArrayVec.{array_vec_len};
ghost use Rattle.study_board.specs.Position.{man_at};
ghost use Rattle.study_board.specs.Sets.{has};
ghost use Rattle.study_moves.specs.declared.moves.Move.{Move as AMove};
ghost use Rattle.study_wide.specs.Rules.{is_wide_legal};
ghost use Rattle.study_wide.specs.LegalList.{wide_legal_list, legal_from, legal_between};

use crate::WidePosition;
use crate::castling::castling_targets;
use crate::legal::allows;
use arrayvec::ArrayVec;
use study_board::{Kind, Man, Square, SquareSet, attacks, pawn_captures_of};
use study_moves::{Move, pawn_step_targets, reaches_last_rank};

/// No position has more moves: a side has at most sixteen men, and no man more moves than a queen's 27, a king's castlings counted.
pub const MAX_MOVES: usize = 432;

/// A list with room for the moves of any position.
pub type MoveList = ArrayVec<Move, MAX_MOVES>;

/// Each legal move once, ascending by origin, then target, then promotion: queen, rook, bishop, knight.
pub fn legal_moves(p: &WidePosition) -> MoveList
    ensures listed { result.items ≡ wide_legal_list p.now }
    ensures legal { (m : AMove) → Contains result.items m ↔ (is_wide_legal p.now m ≡ true) }
{
    let side = p.to_move();
    let mut list = ArrayVec::new();
    let men = p.men();
    for man in men {
        if man.side == side {
            add_moves_of(p, man, &mut list);
        }
    }
    list
}

/// Adds the legal moves of a man.
fn add_moves_of(p: &WidePosition, man: &Man, list: &mut MoveList)
    requires here { man_at p.now.board.men man.now.at ≡ Some man.now }
    requires room { array_vec_len list.old + 27 ≤ 432 }
    ensures moves { list.new.items ≡ list.old.items ++ legal_from p.now man.now.at }
    ensures few { array_vec_len list.new ≤ array_vec_len list.old + 27 }
{
    let (_men, _origin) = (p.men(), man.at.number());
    for target in possible_targets(p, man) {
        add_moves_to(p, man, target, list);
    }
}

/// Squares among which are the targets of all legal moves of a man.
fn possible_targets(p: &WidePosition, man: &Man) -> SquareSet
    requires { man_at p.now.board.men man.now.at ≡ Some man.now }
    ensures { (m : AMove) → m.origin ≡ man.now.at → is_wide_legal p.now m ≡ true
        → has result m.target ≡ true }
{
    let men = p.men();
    match man.kind {
        Kind::Pawn => {
            pawn_step_targets(men, man.side, man.at).union(pawn_captures_of(man.side, man.at))
        }
        Kind::King => attacks(men, man).union(castling_targets(p.to_move())),
        _ => attacks(men, man),
    }
}

/// Adds the legal moves of a man to a square.
#[tactic(auto, unfolding(crate::specs::LegalList::legal_between))]
fn add_moves_to(p: &WidePosition, man: &Man, target: Square, list: &mut MoveList)
    requires here { man_at p.now.board.men man.now.at ≡ Some man.now }
    requires room { array_vec_len list.old + length (legal_between p.now man.now.at target) ≤ 432 }
    ensures { list.new.items ≡ list.old.items ++ legal_between p.now man.now.at target }
{
    let _men = p.men();
    if reaches_last_rank(man, target) {
        add(p, man.at, target, Some(Kind::Queen), list);
        add(p, man.at, target, Some(Kind::Rook), list);
        add(p, man.at, target, Some(Kind::Bishop), list);
        add(p, man.at, target, Some(Kind::Knight), list);
    } else {
        add(p, man.at, target, None, list);
    }
}

/// Adds a move if it is legal.
fn add(
    p: &WidePosition,
    origin: Square,
    target: Square,
    promoted: Option<Kind>,
    list: &mut MoveList,
)
    requires { array_vec_len list.old + length (filter (is_wide_legal p.now)
        (record { origin = origin; target = target; promoted = promoted } ∷ [])) ≤ 432 }
    ensures { list.new.items ≡ list.old.items ++ filter (is_wide_legal p.now)
        (record { origin = origin; target = target; promoted = promoted } ∷ []) }
{
    let m = Move {
        origin,
        target,
        promoted,
    };
    if allows(p, &m) {
        list.push(m);
    }
}
