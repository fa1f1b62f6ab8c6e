//! The squares of the man of the last slot with which a king is attacked: only that man's square varies in a row of numbers.
ghost use Rattle.std.specs.Prelude.{◌≡◌, ◌<◌, ◌≤◌, ◌&&◌, ℕ, not, true, false, length, map, [], ◌∷◌, ◌++◌, Some, IfSome};
ghost use Rattle.std.specs.List.{list_any, Contains};
ghost use Rattle.std.specs.Option.{ForSome};
ghost use Rattle.study_board.specs.declared.men.Kind.TheVariants.{King};
ghost use Rattle.study_board.specs.Geometry.{strictly_between};
ghost use Rattle.study_board.specs.Men.{attacks_square, other_side, same_kind, same_side, moved_if};
ghost use Rattle.study_board.specs.Position.{in_check};
ghost use Rattle.study_board.specs.Sets.{has, is_slider};
ghost use Rattle.study_retro.specs.RowMoves.{AreAttackers, AreChecks, AreOnDistinctSquares, AreRest, IsOnlyKing, attacked_with_last};
ghost use Rattle.study_retro.specs.RowMoves.{keeps_attack_past, keeps_attack_with, gone_to, king_attacked_with, does_not_block};
ghost use Rattle.study_retro.specs.Still.{opposing_man, on_square};

use arrayvec::ArrayVec;
use study_board::{Kind, Man, Side, Square, SquareSet, attacks, between};

/// The squares on which a further man does not interrupt the man's line to the square.
#[inline]
fn non_blocking_squares(m: &Man, x: Square) -> SquareSet
    ensures { (y : ℕ) → y < 64
        → has result y ≡ not (is_slider m.now.kind && strictly_between m.now.at y x) }
{
    if m.kind.is_slider() {
        between(m.at, x).complement()
    } else {
        SquareSet::empty().complement()
    }
}

/// Whether the man bears on the square. Most men would not do so on an empty board; men that do not move along lines bear on it whatever the other men.
#[inline(always)]
#[tactic(auto, using(crate::proofs::RowLemmas::bears_alone, crate::proofs::RowLemmas::bears_stepping))]
fn attacks_past(others: &[Man], m: &Man, x: Square) -> bool
    ensures { result ≡ attacks_square others.now m.now x }
{
    let _square = x.number();
    if !attacks(&[], m).contains(x) {
        return false;
    }
    !m.kind.is_slider() || attacks(others, m).contains(x)
}

/// Whether the man is of the side and bears on the square.
#[inline]
fn side_attacks_past(others: &[Man], by: Side, m: &Man, x: Square) -> bool
    ensures { result ≡ (same_side m.now.side by && attacks_square others.now m.now x) }
{
    m.side == by && attacks_past(others, m, x)
}

/// The squares of a further man with which the man, of the side, bears on the square.
#[inline]
fn squares_keeping_attack(others: &[Man], by: Side, m: &Man, x: Square) -> SquareSet
    ensures { (y : ℕ) → y < 64
        → has result y ≡ ((same_side m.now.side by && attacks_square others.now m.now x)
        && not (is_slider m.now.kind && strictly_between m.now.at y x)) }
{
    if !side_attacks_past(others, by, m, x) {
        return SquareSet::empty();
    }
    non_blocking_squares(m, x)
}

/// The squares of a further man with which some man of the side bears on the square.
#[inline]
fn squares_attacking(others: &[Man], by: Side, x: Square) -> SquareSet
    ensures { (y : ℕ) → y < 64
        → has result y ≡ list_any (λ m.
        same_side m.side by && keeps_attack_with others.now y m x) others.now }
{
    let mut set = SquareSet::empty();
    for m in others {
        set = set.union(squares_keeping_attack(others, by, m, x));
    }
    set
}

/// The squares from which the man of the last slot, if it is of the side, bears on the square.
#[inline]
fn squares_of_last(others: &[Man], last: &Man, by: Side, x: Square) -> SquareSet
    ensures { (y : ℕ) → y < 64
        → has result y
        ≡ (same_side last.now.side by && attacks_square others.now (opposing_man last.now x) y) }
{
    if last.side != by {
        return SquareSet::empty();
    }
    let facing = Man {
        side: last.side.other(),
        kind: last.kind,
        at: x,
    };
    attacks(others, &facing)
}

/// The squares of the man of the last slot with which the square is attacked, by it or by the others.
#[inline]
fn squares_attacking_with(others: &[Man], last: &Man, by: Side, x: Square) -> SquareSet
    ensures { (y : ℕ) → y < 64 → has result y ≡ attacked_with_last others.now last.now by x y }
{
    squares_attacking(others, by, x).union(squares_of_last(others, last, by, x))
}

/// The squares of the man of the last slot with which the man, if it is a king of the side, is attacked.
#[inline]
fn squares_attacking_king(others: &[Man], last: &Man, side: Side, k: &Man) -> SquareSet
    ensures { (y : ℕ) → y < 64
        → has result y ≡ king_attacked_with others.now last.now side y k.now }
{
    if !k.is(side, Kind::King) {
        return SquareSet::empty();
    }
    squares_attacking_with(others, last, side.other(), k.at)
}

/// The squares of the man of the last slot with which a king of the side is attacked.
#[inline]
pub fn squares_of_check(others: &[Man], last: &Man, side: Side) -> SquareSet
    requires { same_kind last.now.kind King ≡ false }
    ensures { (y : ℕ) → y < 64
        → has result y ≡ in_check (others.now ++ on_square last.now y ∷ []) side }
{
    let mut set = SquareSet::empty();
    for k in others {
        set = set.union(squares_attacking_king(others, last, side, k));
    }
    set
}

/// A man and the squares on which it bears if the last man is not on the board.
#[derive(Clone, Copy)]
pub struct Attacker {
    pub man: Man,
    pub squares: SquareSet,
}

impl Default for Attacker {
    fn default() -> Self {
        Attacker {
            man: Man::default(),
            squares: SquareSet::empty(),
        }
    }
}

/// Checks to the king of the side while the man, one of the others, moves: the men that stay, the attackers among them, the squares on which these bear,
/// the square of the king before the move, if it is unique, and the squares from which the last man and the moving man bear on it.
#[derive(Drop)]
pub struct CheckInfo<'r> {
    pub others: &'r [Man],
    pub last: &'r Man,
    pub man: &'r Man,
    pub side: Side,
    pub men: ArrayVec<Man, 4>,
    pub attackers: ArrayVec<Attacker, 4>,
    pub attacked: SquareSet,
    pub king: Option<Square>,
    pub checks_of_last: SquareSet,
    pub checks_of_man: SquareSet,
    ghost few: { length others.now ≤ 4 },
    ghost piece: { same_kind last.now.kind King ≡ false },
    ghost rest: { AreRest others.now man.now.at men.items },
    ghost bear: { AreAttackers men.items (other_side side) attackers.items },
    ghost all: { (x : ℕ) → x < 64
        → has attacked x ≡ list_any (λ b. has b.squares x) attackers.items },
    ghost only: { ForSome king (IsOnlyKing others.now side) },
    ghost last_bears: { ForSome king
        (AreChecks men.items last.now (other_side side) checks_of_last) },
    ghost man_bears: { ForSome king
        (AreChecks men.items man.now (other_side side) checks_of_man) },
}

impl<'r> CheckInfo<'r> {
    /// The state for a move of the man.
    #[inline(always)]
    pub fn new(others: &'r [Man], last: &'r Man, man: &'r Man, side: Side) -> Self
        requires few { length others.now ≤ 4 }
        requires piece { same_kind last.now.kind King ≡ false }
        ensures others { result.others.now ≡ others.now }
        ensures last { result.last.now ≡ last.now }
        ensures man { result.man.now ≡ man.now }
        ensures side { result.side ≡ side }
    {
        let by = side.other();
        let men = men_except(others, man.at);
        let attackers = attackers_of(men.as_slice(), by);
        let attacked = squares_attacked_by(attackers.as_slice());
        let king = only_king(others, side);
        let mut checks_of_last = SquareSet::empty();
        let mut checks_of_man = SquareSet::empty();
        if let Some(square) = king {
            checks_of_last = squares_of_last(men.as_slice(), last, by, square);
            checks_of_man = squares_of_last(men.as_slice(), man, by, square);
        }
        CheckInfo {
            others,
            last,
            man,
            side,
            men,
            attackers,
            attacked,
            king,
            checks_of_last,
            checks_of_man,
        }
    }
}

/// The square of the king of the side, if it is unique.
#[inline]
fn only_king(men: &[Man], side: Side) -> Option<Square>
    ensures { IfSome result (λ k. IsOnlyKing men.now side k) }
{
    let mut square = Square::at(0);
    let mut some = false;
    let mut more = false;
    for m in men {
        if m.is(side, Kind::King) {
            more = some;
            some = true;
            square = m.at;
        }
    }
    if more {
        return None;
    }
    if !some {
        return None;
    }
    Some(square)
}

/// The men that do not stand on the square.
#[inline]
fn men_except(others: &[Man], from: Square) -> ArrayVec<Man, 4>
    requires { length others.now ≤ 4 }
    ensures { AreRest others.now from result.items }
{
    let mut list = ArrayVec::new();
    for m in others {
        if m.at != from {
            list.push(*m);
        }
    }
    list
}

/// The men of the side, each with the squares on which it bears.
#[inline]
fn attackers_of(men: &[Man], by: Side) -> ArrayVec<Attacker, 4>
    requires { length men.now ≤ 4 }
    ensures { AreAttackers men.now by result.items }
{
    let mut list = ArrayVec::new();
    for m in men {
        if m.side == by {
            list.push(Attacker {
                man: *m,
                squares: attacks(men, m),
            });
        }
    }
    list
}

/// The squares on which at least one of them bears.
#[inline]
fn squares_attacked_by(attackers: &[Attacker]) -> SquareSet
    ensures { (x : ℕ) → x < 64 → has result x ≡ list_any (λ b. has b.squares x) attackers.now }
{
    let mut set = SquareSet::empty();
    for b in attackers {
        set = set.union(b.squares);
    }
    set
}

/// The squares of a further man with which the man bears on the square.
#[inline]
fn squares_bearing(b: &Attacker, x: Square) -> SquareSet
    ensures { (y : ℕ) → y < 64
        → has result y ≡ (has b.now.squares x && does_not_block b.now.man x y) }
{
    if !b.squares.contains(x) {
        return SquareSet::empty();
    }
    non_blocking_squares(&b.man, x)
}

/// The squares of a further man with which at least one of them bears on the square, given the squares on which they bear without it.
#[inline(always)]
fn squares_attacking_of(attackers: &[Attacker], attacked: SquareSet, x: Square) -> SquareSet
    requires { (z : ℕ) → z < 64 → has attacked z ≡ list_any (λ b. has b.squares z) attackers.now }
    ensures { (y : ℕ) → y < 64
        → has result y ≡ list_any (λ b. has b.squares x && does_not_block b.man x y) attackers.now }
{
    let _square = x.number();
    let mut set = SquareSet::empty();
    if !attacked.contains(x) {
        return set;
    }
    for b in attackers {
        set = set.union(squares_bearing(b, x));
    }
    set
}

/// The squares of a further man with which the man bears on the square past a man on `to`.
#[inline]
fn squares_keeping_attack_past(b: &Attacker, to: Square, x: Square) -> SquareSet
    ensures { (y : ℕ) → y < 64 → has result y ≡ keeps_attack_past to x y b.now }
{
    let _square = to.number();
    if !b.squares.contains(x) {
        return SquareSet::empty();
    }
    let set = non_blocking_squares(&b.man, x);
    if !set.contains(to) {
        return SquareSet::empty();
    }
    set
}

/// The squares of a further man with which at least one of them bears on the square past a man on `to`, given the squares on which they bear without both.
#[inline(always)]
fn squares_attacking_past(
    attackers: &[Attacker],
    attacked: SquareSet,
    to: Square,
    x: Square,
) -> SquareSet
    requires { (z : ℕ) → z < 64 → has attacked z ≡ list_any (λ b. has b.squares z) attackers.now }
    ensures { (y : ℕ) → y < 64 → has result y ≡ list_any (keeps_attack_past to x y) attackers.now }
{
    let _square = x.number();
    let mut set = SquareSet::empty();
    if !attacked.contains(x) {
        return set;
    }
    for b in attackers {
        set = set.union(squares_keeping_attack_past(b, to, x));
    }
    set
}

/// The squares of the man of the last slot with which the square is attacked by it or by men that stay.
#[inline(always)]
fn squares_attacking_by(checks: &CheckInfo, x: Square) -> SquareSet
    ensures { (y : ℕ) → y < 64 → has result y ≡ attacked_with_last checks.now.men.items
        checks.now.last.now (other_side checks.now.side) x y }
{
    let _square = x.number();
    let men = checks.men.as_slice();
    let attackers = checks.attackers.as_slice();
    let of_last = squares_of_last(men, checks.last, checks.side.other(), x);
    squares_attacking_of(attackers, checks.attacked, x).union(of_last)
}

/// The squares of a further man with which the man, on `to`, bears on the square, given the squares from which it does so without the further man.
#[inline(always)]
fn squares_keeping_attack_from(checks: SquareSet, man: &Man, to: Square, x: Square) -> SquareSet
    ensures { (y : ℕ) → y < 64
        → has result y ≡ (has checks to && does_not_block (on_square man.now to) x y) }
{
    if !checks.contains(to) {
        return SquareSet::empty();
    }
    let gone = Man {
        side: man.side,
        kind: man.kind,
        at: to,
    };
    non_blocking_squares(&gone, x)
}

/// The squares from which the man of the last slot bears on the square past the man on `to`, given the squares from
/// which it does so with that man off the board.
#[inline(always)]
fn squares_of_last_past(
    checks: SquareSet,
    last: &Man,
    man: &Man,
    to: Square,
    x: Square,
) -> SquareSet
    requires { (y : ℕ) → y < 64 → has checks y ≡ true
        → attacks_square [] (opposing_man last.now x) y ≡ true }
    ensures { (y : ℕ) → y < 64
        → has result y ≡ (has checks y && does_not_block (opposing_man last.now x) y to) }
{
    if !last.kind.is_slider() {
        return checks;
    }
    let gone = Man {
        side: man.side,
        kind: man.kind,
        at: to,
    };
    let facing = Man {
        side: last.side.other(),
        kind: last.kind,
        at: x,
    };
    checks.intersection(attacks(&[gone], &facing))
}

/// The squares of the man of the last slot with which the only king of the side, on that square before the move, is attacked with the man on `to`.
#[inline(always)]
fn squares_attacking_after(checks: &CheckInfo, to: Square, king: Square) -> SquareSet
    requires man { Contains checks.now.others.now checks.now.man.now }
    requires king { checks.now.king ≡ Some king }
    ensures { (y : ℕ) → y < 64
        → AreOnDistinctSquares (checks.now.others.now ++ on_square checks.now.last.now y ∷ [])
        → has result y ≡ attacked_with_last
        (map (moved_if checks.now.man.now.at to) checks.now.others.now) checks.now.last.now
        (other_side checks.now.side) (gone_to checks.now.man.now.at to king) y }
{
    let _read = (king.number(), to.number());
    let man = checks.man;
    if king == man.at {
        return squares_attacking_by(checks, to);
    }
    let of_man = squares_keeping_attack_from(checks.checks_of_man, man, to, king);
    let of_last = squares_of_last_past(checks.checks_of_last, checks.last, man, to, king);
    squares_attacking_past(checks.attackers.as_slice(), checks.attacked, to, king)
        .union(of_man)
        .union(of_last)
}

/// The men, with the man on `from` put on `to`.
#[inline]
fn with_man_on(others: &[Man], from: Square, to: Square) -> ArrayVec<Man, 4>
    requires { length others.now ≤ 4 }
    ensures { result.items ≡ map (moved_if from to) others.now }
{
    let mut list = ArrayVec::new();
    for man in others {
        list.push(man.moved_if(from, to));
    }
    list
}

/// The squares of the man of the last slot with which a king of the side is attacked after the man has gone to `to`.
#[inline(always)]
pub fn squares_of_check_after(checks: &CheckInfo, to: Square) -> SquareSet
    requires { Contains checks.now.others.now checks.now.man.now }
    ensures { (y : ℕ) → y < 64
        → AreOnDistinctSquares (checks.now.others.now ++ on_square checks.now.last.now y ∷ [])
        → has result y ≡ in_check (map (moved_if checks.now.man.now.at to) checks.now.others.now
        ++ on_square checks.now.last.now y ∷ []) checks.now.side }
{
    match checks.king {
        Some(king) => squares_attacking_after(checks, to, king),
        None => {
            let moved = with_man_on(checks.others, checks.man.at, to);
            squares_of_check(moved.as_slice(), checks.last, checks.side)
        }
    }
}
