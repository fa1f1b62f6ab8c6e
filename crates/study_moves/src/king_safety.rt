//! The targets to which a move leaves the mover's king attacked, as a set.
ghost use Rattle.std.specs.Prelude.{◌≡◌, ℕ, ◌<◌, ◌&&◌, not};
ghost use Rattle.study_board.specs.Men.{same_kind, other_side, is_man};
ghost use Rattle.study_board.specs.declared.men.Kind.TheVariants.{King as AKing};
ghost use Rattle.study_board.specs.Sets.{has, bears_past, is_slider};
ghost use Rattle.study_board.specs.Geometry.{strictly_between};
ghost use Rattle.std.specs.Prelude.{◌==◌};
ghost use Rattle.study_moves.specs.KingSafety.{is_other_man, attacked_past, is_no_shield, threatens};
ghost use Rattle.study_moves.specs.KingSafety.{threatened_past, king_threatened, threatened_by_others, is_unsafe};

use study_board::{Kind, Man, Side, Square, SquareSet, attacks, attacks_without, between};

#[inline(always)]
fn is_other_man(by: Side, lifted: Square, m: &Man) -> bool
    ensures { result ≡ is_other_man by lifted m.now }
{
    m.side == by && m.at != lifted
}

/// The squares on which a man of the side bears, once the man on `lifted` is taken away.
#[inline(always)]
pub fn reach_of(men: &[Man], by: Side, lifted: Square, m: &Man) -> SquareSet
    ensures { (x : ℕ) → x < 64
        → has result x ≡ (is_other_man by lifted m.now && bears_past men.now lifted m.now x) }
{
    if is_other_man(by, lifted, m) {
        attacks_without(men, lifted, m)
    } else {
        SquareSet::empty()
    }
}

#[inline]
fn attacked_past(men: &[Man], by: Side, lifted: Square) -> SquareSet
    ensures { (x : ℕ) → x < 64 → has result x ≡ attacked_past men.now by lifted x }
{
    let mut set = SquareSet::empty();
    for m in men {
        set = set.union(reach_of(men, by, lifted, m));
    }
    set
}

/// The squares on the man's line to the square.
#[inline]
fn line_of(m: &Man, k: Square) -> SquareSet
    ensures { (x : ℕ) → x < 64
        → has result x ≡ (is_slider m.now.kind && strictly_between m.now.at x k) }
{
    if m.kind.is_slider() {
        between(m.at, k)
    } else {
        SquareSet::empty()
    }
}

/// The squares that neither take the man nor stand in its line to the square.
#[inline]
fn squares_not_blocking(m: &Man, k: Square) -> SquareSet
    ensures { (x : ℕ) → x < 64 → has result x ≡ is_no_shield m.now k x }
{
    SquareSet::of(m.at).union(line_of(m, k)).complement()
}

/// Whether a man of the side bears on the square, once the man on `lifted` is taken away. Most men would not do so on an empty board.
#[inline(always)]
fn attacks_past(men: &[Man], by: Side, lifted: Square, m: &Man, k: Square) -> bool
    ensures { result ≡ (is_other_man by lifted m.now && bears_past men.now lifted m.now k) }
{
    let _square = k.number();
    if !attacks(&[], m).contains(k) {
        return false;
    }
    reach_of(men, by, lifted, m).contains(k)
}

/// The squares to which a move does not help against the man.
#[inline(always)]
fn threats_of(men: &[Man], by: Side, lifted: Square, k: Square, m: &Man) -> SquareSet
    ensures { (x : ℕ) → x < 64 → has result x ≡ threatens men.now by lifted k x m.now }
{
    if attacks_past(men, by, lifted, m, k) {
        squares_not_blocking(m, k)
    } else {
        SquareSet::empty()
    }
}

#[inline(always)]
pub fn threatened_past(men: &[Man], by: Side, lifted: Square, k: Square) -> SquareSet
    ensures { (x : ℕ) → x < 64 → has result x ≡ threatened_past men.now by lifted k x }
{
    let mut set = SquareSet::empty();
    for m in men {
        set = set.union(threats_of(men, by, lifted, k, m));
    }
    set
}

#[inline]
pub fn is_king_elsewhere(side: Side, lifted: Square, k: &Man) -> bool
    ensures { result ≡ (is_man side AKing k.now && not (k.now.at == lifted)) }
{
    k.is(side, Kind::King) && k.at != lifted
}

#[inline(always)]
pub fn threats_to(men: &[Man], side: Side, lifted: Square, k: &Man) -> SquareSet
    ensures { (x : ℕ) → x < 64 → has result x ≡ king_threatened men.now side lifted x k.now }
{
    if is_king_elsewhere(side, lifted, k) {
        threatened_past(men, side.other(), lifted, k.at)
    } else {
        SquareSet::empty()
    }
}

#[inline]
fn threatened_by_others(men: &[Man], side: Side, lifted: Square) -> SquareSet
    ensures { (x : ℕ) → x < 64 → has result x ≡ threatened_by_others men.now side lifted x }
{
    let mut set = SquareSet::empty();
    for k in men {
        set = set.union(threats_to(men, side, lifted, k));
    }
    set
}

#[inline]
fn attacked_for_king(men: &[Man], side: Side, man: &Man) -> SquareSet
    ensures { (x : ℕ) → x < 64
        → has result x
        ≡ (same_kind man.now.kind AKing && attacked_past men.now (other_side side) man.now.at x) }
{
    if man.kind == Kind::King {
        attacked_past(men, side.other(), man.at)
    } else {
        SquareSet::empty()
    }
}

/// The targets of the man to which a move leaves a king of the side attacked.
#[inline]
#[tactic(auto, unfolding(crate::specs::KingSafety::is_unsafe))]
pub fn unsafe_targets(men: &[Man], side: Side, man: &Man) -> SquareSet
    ensures { (x : ℕ) → x < 64 → has result x ≡ is_unsafe men.now side man.now x }
{
    attacked_for_king(men, side, man).union(threatened_by_others(men, side, man.at))
}
