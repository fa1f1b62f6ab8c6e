//! Which classes a class needs: those that one move can lead to.
ghost use Rattle.std.specs.Prelude.{◌≡◌, ◌≤◌, length};
ghost use Rattle.study_material.specs.Class.{lists_of};
ghost use Rattle.study_material.specs.Needs.{needs_of, by_size, IsOrder};

use crate::{CLASS_COUNT, Class};
use arrayvec::ArrayVec;

/// The classes that one capture, one promotion, or one promotion that captures a man other than a pawn leads to.
pub fn needs(class: Class) -> ArrayVec<Class, CLASS_COUNT>
    ensures { result.items ≡ needs_of class }
{
    class_list(needs_of(class))
}

/// The class and all classes that it needs, directly or through others, each after those that it needs.
pub fn order(class: Class) -> ArrayVec<Class, CLASS_COUNT>
    ensures { IsOrder class result.items }
{
    class_list(needs_in_order(class))
}

fn class_list(classes: &[Class]) -> ArrayVec<Class, CLASS_COUNT>
    requires { length classes.now ≤ 36 }
    ensures { result.items ≡ classes.now }
{
    let mut list = ArrayVec::new();
    for class in classes {
        list.push(*class);
    }
    list
}

/// The classes that a class needs.
#[tactic(auto, using(crate::proofs::NeedsTables::needs_is))]
fn needs_of(class: Class) -> &'static [Class]
    ensures value { result.now ≡ needs_of class }
    ensures few { length result.now ≤ 36 }
{
    use Class::*;
    match class {
        KK => &[],
        KQK => &[KK],
        KRK => &[KK],
        KBK => &[KK],
        KNK => &[KK],
        KPK => &[KK, KQK, KRK, KBK, KNK],
        KQQK => &[KQK],
        KQRK => &[KQK, KRK],
        KQBK => &[KQK, KBK],
        KQNK => &[KQK, KNK],
        KQPK => &[KQK, KPK, KQQK, KQRK, KQBK, KQNK],
        KRRK => &[KRK],
        KRBK => &[KRK, KBK],
        KRNK => &[KRK, KNK],
        KRPK => &[KRK, KPK, KQRK, KRRK, KRBK, KRNK],
        KBBK => &[KBK],
        KBNK => &[KBK, KNK],
        KBPK => &[KBK, KPK, KQBK, KRBK, KBBK, KBNK],
        KNNK => &[KNK],
        KNPK => &[KNK, KPK, KQNK, KRNK, KBNK, KNNK],
        KPPK => &[KPK, KQPK, KRPK, KBPK, KNPK],
        _ => needed_by_both(class),
    }
}

/// The classes that a class needs, if each side has a man beside its king.
#[tactic(auto, using(crate::proofs::NeedsTables::needs_is))]
fn needed_by_both(class: Class) -> &'static [Class]
    requires { length (lists_of class).black ≡ 1 }
    ensures value { result.now ≡ needs_of class }
    ensures few { length result.now ≤ 36 }
{
    use Class::*;
    match class {
        KQKQ => &[KQK],
        KQKR => &[KQK, KRK],
        KQKB => &[KQK, KBK],
        KQKN => &[KQK, KNK],
        KQKP => &[KQK, KRK, KBK, KNK, KPK, KQKQ, KQKR, KQKB, KQKN],
        KRKR => &[KRK],
        KRKB => &[KRK, KBK],
        KRKN => &[KRK, KNK],
        KRKP => &[KQK, KRK, KBK, KNK, KPK, KQKR, KRKR, KRKB, KRKN],
        KBKB => &[KBK],
        KBKN => &[KBK, KNK],
        KBKP => &[KQK, KRK, KBK, KNK, KPK, KQKB, KRKB, KBKB, KBKN],
        KNKN => &[KNK],
        KNKP => &[KQK, KRK, KBK, KNK, KPK, KQKN, KRKN, KBKN, KNKN],
        KPKP => &[KPK, KQKP, KRKP, KBKP, KNKP],
        _ => unreachable!(),
    }
}

/// A class and all classes that it needs, in order.
fn needs_in_order(class: Class) -> &'static [Class]
    ensures order { IsOrder class result.now }
    ensures few { length result.now ≤ 36 }
{
    use Class::*;
    match class {
        KK => &[KK],
        KQK => &[KK, KQK],
        KRK => &[KK, KRK],
        KBK => &[KK, KBK],
        KNK => &[KK, KNK],
        KPK => &[KK, KQK, KRK, KBK, KNK, KPK],
        KQQK => &[KK, KQK, KQQK],
        KQRK => &[KK, KQK, KRK, KQRK],
        KQBK => &[KK, KQK, KBK, KQBK],
        KQNK => &[KK, KQK, KNK, KQNK],
        KQPK => &[KK, KQK, KRK, KBK, KNK, KPK, KQQK, KQRK, KQBK, KQNK, KQPK],
        KRRK => &[KK, KRK, KRRK],
        KRBK => &[KK, KRK, KBK, KRBK],
        KRNK => &[KK, KRK, KNK, KRNK],
        KRPK => &[KK, KQK, KRK, KBK, KNK, KPK, KQRK, KRRK, KRBK, KRNK, KRPK],
        KBBK => &[KK, KBK, KBBK],
        KBNK => &[KK, KBK, KNK, KBNK],
        KBPK => &[KK, KQK, KRK, KBK, KNK, KPK, KQBK, KRBK, KBBK, KBNK, KBPK],
        KNNK => &[KK, KNK, KNNK],
        KNPK => &[KK, KQK, KRK, KBK, KNK, KPK, KQNK, KRNK, KBNK, KNNK, KNPK],
        KPPK => &[
            KK, KQK, KRK, KBK, KNK, KPK, KQQK, KQRK, KQBK, KQNK, KRRK, KRBK, KRNK, KBBK, KBNK,
            KNNK, KQPK, KRPK, KBPK, KNPK, KPPK,
        ],
        _ => ordered_of_both(class),
    }
}

/// A class and all classes that it needs, in order, if each side has a man beside its king.
fn ordered_of_both(class: Class) -> &'static [Class]
    requires { length (lists_of class).black ≡ 1 }
    ensures order { IsOrder class result.now }
    ensures few { length result.now ≤ 36 }
{
    use Class::*;
    match class {
        KQKQ => &[KK, KQK, KQKQ],
        KQKR => &[KK, KQK, KRK, KQKR],
        KQKB => &[KK, KQK, KBK, KQKB],
        KQKN => &[KK, KQK, KNK, KQKN],
        KQKP => &[KK, KQK, KRK, KBK, KNK, KPK, KQKQ, KQKR, KQKB, KQKN, KQKP],
        KRKR => &[KK, KRK, KRKR],
        KRKB => &[KK, KRK, KBK, KRKB],
        KRKN => &[KK, KRK, KNK, KRKN],
        KRKP => &[KK, KQK, KRK, KBK, KNK, KPK, KQKR, KRKR, KRKB, KRKN, KRKP],
        KBKB => &[KK, KBK, KBKB],
        KBKN => &[KK, KBK, KNK, KBKN],
        KBKP => &[KK, KQK, KRK, KBK, KNK, KPK, KQKB, KRKB, KBKB, KBKN, KBKP],
        KNKN => &[KK, KNK, KNKN],
        KNKP => &[KK, KQK, KRK, KBK, KNK, KPK, KQKN, KRKN, KBKN, KNKN, KNKP],
        KPKP => &[
            KK, KQK, KRK, KBK, KNK, KPK, KQKQ, KQKR, KQKB, KQKN, KRKR, KRKB, KRKN, KBKB, KBKN,
            KNKN, KQKP, KRKP, KBKP, KNKP, KPKP,
        ],
        _ => unreachable!(),
    }
}

const BY_SIZE: [Class; CLASS_COUNT] = [
    Class::KK,
    Class::KQK,
    Class::KRK,
    Class::KBK,
    Class::KNK,
    Class::KPK,
    Class::KQQK,
    Class::KQRK,
    Class::KQBK,
    Class::KQNK,
    Class::KRRK,
    Class::KRBK,
    Class::KRNK,
    Class::KBBK,
    Class::KBNK,
    Class::KNNK,
    Class::KQKQ,
    Class::KQKR,
    Class::KQKB,
    Class::KQKN,
    Class::KRKR,
    Class::KRKB,
    Class::KRKN,
    Class::KBKB,
    Class::KBKN,
    Class::KNKN,
    Class::KQPK,
    Class::KRPK,
    Class::KBPK,
    Class::KNPK,
    Class::KQKP,
    Class::KRKP,
    Class::KBKP,
    Class::KNKP,
    Class::KPPK,
    Class::KPKP,
];

/// All classes, by number of men, number of pawns, and index in the class list: each after those that it needs.
#[tactic(auto, using(crate::proofs::NeedsTables::by_size_is))]
pub fn classes_by_size() -> &'static [Class]
    ensures value { result.now ≡ by_size }
    ensures few { length result.now ≤ 36 }
{
    &BY_SIZE
}
