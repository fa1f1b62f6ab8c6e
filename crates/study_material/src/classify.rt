//! The class of a position.
ghost use Rattle.std.specs.Prelude.{◌≡◌, ◌≤◌, true, false, [], ◌∷◌, filter, length};
ghost use Rattle.study_board.specs.Men.{same_kind};
ghost use Rattle.study_board.specs.declared.men.Kind.TheVariants.{King};
ghost use Rattle.study_material.specs.Lists.{of, put_kind, comes_before, ordered_lists, is_other_than_king, is_swapped, lists};
ghost use Rattle.std.specs.List.{All};
ghost use Rattle.study_material.specs.Class.{lists_of, IsOf};

use crate::Class;
use arrayvec::ArrayVec;
use study_board::{Kind, Man, Position, Side};

/// The class of a position, and whether the colours are swapped for it.
pub fn class_of(p: &Position) -> (Class, bool)
    ensures class { IsOf result.0 p.now }
    ensures swapped { result.1 ≡ is_swapped p.now.men }
{
    class_of_others(others(p.men()).as_slice())
}

/// The class of men beside the kings, and whether Black's come first.
#[inline]
fn class_of_others(men: &[Man]) -> (Class, bool)
    requires few { length men.now ≤ 2 }
    requires others { All (λ m. same_kind m.kind King ≡ false) men.now }
    ensures class { lists_of result.0 ≡ ordered_lists (lists men.now) }
    ensures swapped { result.1 ≡ is_swapped men.now }
{
    match men {
        [] => (Class::KK, false),
        [a] => (class_of_one(a.kind), a.side == Side::Black),
        [a, b] => {
            if a.side == b.side {
                (class_of_two(a.kind, b.kind), a.side == Side::Black)
            } else if a.side == Side::White {
                class_of_each(a.kind, b.kind)
            } else {
                class_of_each(b.kind, a.kind)
            }
        }
        _ => unreachable!(),
    }
}

/// The men other than the kings.
#[inline]
fn others(men: &[Man]) -> ArrayVec<Man, 4>
    requires { length men.now ≤ 4 }
    ensures { result.items ≡ filter is_other_than_king men.now }
{
    let mut others = ArrayVec::new();
    for m in men {
        if m.kind != Kind::King {
            others.push(*m);
        }
    }
    others
}

/// The class of one man beside the kings.
#[inline]
fn class_of_one(kind: Kind) -> Class
    requires { same_kind kind King ≡ false }
    ensures { lists_of result ≡ of (kind ∷ []) [] }
{
    match kind {
        Kind::King => unreachable!(),
        Kind::Queen => Class::KQK,
        Kind::Rook => Class::KRK,
        Kind::Bishop => Class::KBK,
        Kind::Knight => Class::KNK,
        Kind::Pawn => Class::KPK,
    }
}

/// The class of two men of one side beside the kings.
#[inline]
fn class_of_two(a: Kind, b: Kind) -> Class
    requires first { same_kind a King ≡ false }
    requires second { same_kind b King ≡ false }
    ensures { lists_of result ≡ of (put_kind a (put_kind b [])) [] }
{
    match (a, b) {
        (Kind::King, _) | (_, Kind::King) => unreachable!(),
        (Kind::Queen, Kind::Queen) => Class::KQQK,
        (Kind::Queen, Kind::Rook) | (Kind::Rook, Kind::Queen) => Class::KQRK,
        (Kind::Queen, Kind::Bishop) | (Kind::Bishop, Kind::Queen) => Class::KQBK,
        (Kind::Queen, Kind::Knight) | (Kind::Knight, Kind::Queen) => Class::KQNK,
        (Kind::Queen, Kind::Pawn) | (Kind::Pawn, Kind::Queen) => Class::KQPK,
        (Kind::Rook, Kind::Rook) => Class::KRRK,
        (Kind::Rook, Kind::Bishop) | (Kind::Bishop, Kind::Rook) => Class::KRBK,
        (Kind::Rook, Kind::Knight) | (Kind::Knight, Kind::Rook) => Class::KRNK,
        (Kind::Rook, Kind::Pawn) | (Kind::Pawn, Kind::Rook) => Class::KRPK,
        (Kind::Bishop, Kind::Bishop) => Class::KBBK,
        (Kind::Bishop, Kind::Knight) | (Kind::Knight, Kind::Bishop) => Class::KBNK,
        (Kind::Bishop, Kind::Pawn) | (Kind::Pawn, Kind::Bishop) => Class::KBPK,
        (Kind::Knight, Kind::Knight) => Class::KNNK,
        (Kind::Knight, Kind::Pawn) | (Kind::Pawn, Kind::Knight) => Class::KNPK,
        (Kind::Pawn, Kind::Pawn) => Class::KPPK,
    }
}

/// The class of one man of each side beside the kings, and whether Black's comes first.
#[inline]
fn class_of_each(white: Kind, black: Kind) -> (Class, bool)
    requires first { same_kind white King ≡ false }
    requires second { same_kind black King ≡ false }
    ensures class { lists_of result.0 ≡ ordered_lists (of (white ∷ []) (black ∷ [])) }
    ensures swapped { result.1 ≡ comes_before (black ∷ []) (white ∷ []) }
{
    match (white, black) {
        (Kind::King, _) | (_, Kind::King) => unreachable!(),
        (Kind::Queen, Kind::Queen) => (Class::KQKQ, false),
        (Kind::Queen, Kind::Rook) => (Class::KQKR, false),
        (Kind::Queen, Kind::Bishop) => (Class::KQKB, false),
        (Kind::Queen, Kind::Knight) => (Class::KQKN, false),
        (Kind::Queen, Kind::Pawn) => (Class::KQKP, false),
        (Kind::Rook, Kind::Queen) => (Class::KQKR, true),
        (Kind::Rook, Kind::Rook) => (Class::KRKR, false),
        (Kind::Rook, Kind::Bishop) => (Class::KRKB, false),
        (Kind::Rook, Kind::Knight) => (Class::KRKN, false),
        (Kind::Rook, Kind::Pawn) => (Class::KRKP, false),
        (Kind::Bishop, Kind::Queen) => (Class::KQKB, true),
        (Kind::Bishop, Kind::Rook) => (Class::KRKB, true),
        (Kind::Bishop, Kind::Bishop) => (Class::KBKB, false),
        (Kind::Bishop, Kind::Knight) => (Class::KBKN, false),
        (Kind::Bishop, Kind::Pawn) => (Class::KBKP, false),
        (Kind::Knight, Kind::Queen) => (Class::KQKN, true),
        (Kind::Knight, Kind::Rook) => (Class::KRKN, true),
        (Kind::Knight, Kind::Bishop) => (Class::KBKN, true),
        (Kind::Knight, Kind::Knight) => (Class::KNKN, false),
        (Kind::Knight, Kind::Pawn) => (Class::KNKP, false),
        (Kind::Pawn, Kind::Queen) => (Class::KQKP, true),
        (Kind::Pawn, Kind::Rook) => (Class::KRKP, true),
        (Kind::Pawn, Kind::Bishop) => (Class::KBKP, true),
        (Kind::Pawn, Kind::Knight) => (Class::KNKP, true),
        (Kind::Pawn, Kind::Pawn) => (Class::KPKP, false),
    }
}
