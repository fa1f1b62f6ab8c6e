//! The positions before a quiet move: one that captures no man and promotes none.
ghost use Rattle.std.specs.Prelude.{◌≡◌, ◌≢◌, ℕ, ◌<◌, ◌≤◌, ◌+◌, ◌⊎◌, ◌↔◌, ◌&&◌, ◌==◌, true, Some};
ghost use Rattle.std.specs.List.{Contains, AllPairs};
ghost use Rattle.arrayvec.specs.ArrayVec.{array_vec_len};
ghost use Rattle.study_moves.specs.declared.moves.Move.{Move as AMove};
ghost use Rattle.study_board.specs.Position.{Position as Seen, is_occupied, is_empty};
ghost use Rattle.study_board.specs.Sets.{has, bears_past};
ghost use Rattle.study_moves.specs.Unmoves.{LeadsQuietly, IsEarlier, CanHaveLed, IsLastMove, set_back, pawn_comes};
ghost use Rattle.study_moves.specs.Unmoves.{pawn_came, comes, king_was_attacked, was_check, is_unmove_origin};

use crate::Move;
use crate::king_safety::{is_king_elsewhere, threatened_past};
use crate::legal::men_with_moved;
use arrayvec::ArrayVec;
use study_board::{
    Kind, Man, Position, Side, Square, SquareSet, attacks, attacks_without, is_occupied,
};

/// Each valid position without a passed square from which one legal move, neither a capture nor a promotion, leads to
/// this one, passed squares left out.
pub fn earlier(q: &Position) -> ArrayVec<Position, 192>
    ensures exact { (p : Seen) → Contains result.items p ↔ IsEarlier q.now p }
    ensures once { AllPairs (λ p r. p ≢ r) result.items }
{
    let _men = q.men();
    let moves = unmoves(q);
    let mut list = ArrayVec::new();
    for m in moves.as_slice() {
        list.push(position_before(q, *m));
    }
    list
}

/// Each legal move, neither a capture nor a promotion, that can have led to this position from one without a passed
/// square, passed squares left out: a double step is listed too if this position has no passed square.
pub fn unmoves(q: &Position) -> ArrayVec<Move, 192>
    ensures exact { (m : AMove) → Contains result.items m ↔ CanHaveLed q.now m }
    ensures once { AllPairs (λ m n. m ≢ n) result.items }
{
    let side = q.to_move().other();
    let mut list = ArrayVec::new();
    let men = q.men();
    for man in men {
        if man.side == side {
            add_unmoves_of(q, man, &mut list);
        }
    }
    list
}

/// Adds the quiet moves of the man that can have led to its square.
fn add_unmoves_of(q: &Position, man: &Man, list: &mut ArrayVec<Move, 192>)
    requires room { array_vec_len list.old ≤ 128 }
    requires once { AllPairs (λ m n. m ≢ n) list.old.items }
    requires apart { (m : AMove) → Contains list.old.items m → m.target ≢ man.now.at }
    ensures more { (m : AMove) → Contains list.new.items m ↔ Contains list.old.items m
        ⊎ IsLastMove q.now man.now m }
    ensures once { AllPairs (λ m n. m ≢ n) list.new.items }
    ensures few { array_vec_len list.new ≤ array_vec_len list.old + 64 }
{
    let target = man.at;
    for origin in unmove_origins(q.men(), q.to_move(), man) {
        list.push(Move {
            origin,
            target,
            promoted: None,
        });
    }
}

/// The position before a quiet move that can have led to this one.
pub fn position_before(q: &Position, m: Move) -> Position
    requires { CanHaveLed q.now m }
    ensures before { LeadsQuietly result m q.now }
    ensures only { (p : Seen) → LeadsQuietly p m q.now → result ≡ p }
{
    let now = q.men();
    match q.man_at(m.target) {
        None => unreachable!(),
        Some(man) => {
            let men = men_with_moved(now, None, &man, man_on_origin(&man, m.origin));
            Position::of(men, q.to_move().other(), None)
        }
    }
}

#[inline]
fn man_on_origin(man: &Man, a: Square) -> Man
    ensures { result ≡ set_back man.now a }
{
    Man {
        side: man.side,
        kind: man.kind,
        at: a,
    }
}

/// The squares from which the man can have come by a quiet move, with these men on the board after it, in any order, and this side to move.
#[inline(always)]
pub fn unmove_origins(men: &[Man], to_move: Side, man: &Man) -> SquareSet
    ensures { (a : ℕ) → a < 64 → has result a ≡ is_unmove_origin men.now to_move man.now a }
{
    origins_of_kind(men, man).without(origins_in_check(men, to_move, man))
}

/// The empty squares from which the man can have come, by the moves of its kind, with these men on the board after it, in any order,
/// whether or not a king was attacked before.
#[inline(always)]
#[tactic(auto, unfolding(crate::specs::Unmoves::comes))]
pub fn origins_of_kind(men: &[Man], man: &Man) -> SquareSet
    ensures { (a : ℕ) → a < 64 → has result a ≡ comes men.now man.now a }
{
    if man.kind == Kind::Pawn {
        pawn_origins(men, man.side, man.at)
    } else {
        attacks(men, man).without(occupied_squares(men))
    }
}

#[inline]
fn occupied_squares(men: &[Man]) -> SquareSet
    ensures { (x : ℕ) → x < 64 → has result x ≡ is_occupied men.now x }
{
    let mut set = SquareSet::empty();
    for m in men {
        set = set.union(SquareSet::of(m.at));
    }
    set
}

/// The squares from which a pawn can have come by a step or a double step.
#[inline]
fn pawn_origins(men: &[Man], side: Side, x: Square) -> SquareSet
    ensures { (a : ℕ) → a < 64 → has result a ≡ pawn_comes men.now side x a }
{
    let (n, rank) = (x.number(), x.rank());
    match side {
        Side::White => empty_steps(
            men,
            2 <= rank,
            rank == 3,
            Square::at(n.saturating_sub(8)),
            Square::at(n.saturating_sub(16)),
        ),
        Side::Black => empty_steps(
            men,
            rank <= 5,
            rank == 4,
            Square::at((n + 8).min(63)),
            Square::at((n + 16).min(63)),
        ),
    }
}

/// The first square, if it is within the pawn's ranks and empty, and the second, if the pawn can start by a double step and both are empty.
#[inline]
pub fn empty_steps(men: &[Man], inside: bool, starts: bool, one: Square, two: Square) -> SquareSet
    requires { starts ≡ true → inside ≡ true }
    ensures { (a : ℕ) → a < 64 → has result a ≡ pawn_came men.now inside starts one two a }
{
    if !inside {
        SquareSet::empty()
    } else if starts {
        is_double_step_clear(men, one, two)
    } else {
        set_if_empty(men, one)
    }
}

#[inline]
fn is_double_step_clear(men: &[Man], one: Square, two: Square) -> SquareSet
    ensures { (a : ℕ) → a < 64 → has result a ≡ pawn_came men.now true true one two a }
{
    if is_occupied(men, one.number()) {
        SquareSet::empty()
    } else {
        SquareSet::of(one).union(set_if_empty(men, two))
    }
}

#[inline]
fn set_if_empty(men: &[Man], x: Square) -> SquareSet
    ensures { (a : ℕ) → a < 64 → has result a ≡ ((x == a) && is_empty men.now x) }
{
    if is_occupied(men, x.number()) {
        SquareSet::empty()
    } else {
        SquareSet::of(x)
    }
}

/// The squares from which the man cannot have come, since a king of the side that did not move would have been attacked.
#[inline(always)]
fn origins_in_check(men: &[Man], side: Side, man: &Man) -> SquareSet
    ensures { (a : ℕ) → a < 64 → has result a ≡ was_check men.now side man.now a }
{
    let mut set = SquareSet::empty();
    for k in men {
        set = set.union(origins_attacking(men, side, man, k));
    }
    set
}

#[inline(always)]
fn origins_attacking(men: &[Man], side: Side, man: &Man, k: &Man) -> SquareSet
    ensures { (a : ℕ) → a < 64 → has result a ≡ king_was_attacked men.now side man.now a k.now }
{
    if is_king_elsewhere(side, man.at, k) {
        origins_giving_check(men, man, k.at).union(threatened_past(men, side.other(), man.at, k.at))
    } else {
        SquareSet::empty()
    }
}

/// The squares from which the man bears on the square: those on which a man of the other side there would bear.
#[inline(always)]
fn origins_giving_check(men: &[Man], man: &Man, k: Square) -> SquareSet
    ensures { (a : ℕ) → a < 64
        → has result a ≡ bears_past men.now man.now.at (set_back man.now a) k }
{
    let mirrored = Man {
        side: man.side.other(),
        kind: man.kind,
        at: k,
    };
    attacks_without(men, man.at, &mirrored)
}
