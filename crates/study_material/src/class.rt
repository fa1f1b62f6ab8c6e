//! The classes of material, their names, and the classes that each needs.
ghost use Rattle.std.specs.Prelude.{◌≡◌, ◌<◌, false, IfOk, IsErrOf, ◌↔◌};
ghost use Rattle.study_material.specs.Class.{class_number, name_of, class_list, IsNameOf};

use crate::ClassFault;

/// A class of material: the king and the men of White, then those of Black, each side's men in the order Q, R, B, N, P.
#[derive(Clone, Copy, Debug, Default, PartialEq, Eq)]
pub enum Class {
    #[default]
    KK,
    KQK,
    KRK,
    KBK,
    KNK,
    KPK,
    KQQK,
    KQRK,
    KQBK,
    KQNK,
    KQPK,
    KRRK,
    KRBK,
    KRNK,
    KRPK,
    KBBK,
    KBNK,
    KBPK,
    KNNK,
    KNPK,
    KPPK,
    KQKQ,
    KQKR,
    KQKB,
    KQKN,
    KQKP,
    KRKR,
    KRKB,
    KRKN,
    KRKP,
    KBKB,
    KBKN,
    KBKP,
    KNKN,
    KNKP,
    KPKP,
}

/// The number of classes.
pub const CLASS_COUNT: usize = 36;

/// All classes, in the order of the class list.
static ALL: [Class; CLASS_COUNT] = [
    Class::KK,
    Class::KQK,
    Class::KRK,
    Class::KBK,
    Class::KNK,
    Class::KPK,
    Class::KQQK,
    Class::KQRK,
    Class::KQBK,
    Class::KQNK,
    Class::KQPK,
    Class::KRRK,
    Class::KRBK,
    Class::KRNK,
    Class::KRPK,
    Class::KBBK,
    Class::KBNK,
    Class::KBPK,
    Class::KNNK,
    Class::KNPK,
    Class::KPPK,
    Class::KQKQ,
    Class::KQKR,
    Class::KQKB,
    Class::KQKN,
    Class::KQKP,
    Class::KRKR,
    Class::KRKB,
    Class::KRKN,
    Class::KRKP,
    Class::KBKB,
    Class::KBKN,
    Class::KBKP,
    Class::KNKN,
    Class::KNKP,
    Class::KPKP,
];

impl Class {
    /// All classes: those in which Black has a king alone, then those in which each side has a man beside its king.
    pub fn all() -> &'static [Class; CLASS_COUNT]
        ensures { result.now ≡ class_list }
    {
        &ALL
    }

    /// The class of this name, such as `KQKR`. No class is left out: `MaterialLeftOut` never occurs.
    pub fn parse(text: &str) -> Result<Class, ClassFault>
        ensures ok { IfOk result (λ c. IsNameOf text.now c) }
        ensures left_out { ¬ (IsErrOf result ClassFault.MaterialLeftOut) }
        ensures none { IsErrOf result ClassFault.NotAClass
            ↔ ((c : Class) → ¬ (IsNameOf text.now c)) }
    {
        for class in &ALL {
            if class.name() == text {
                return Ok(*class);
            }
        }
        Err(ClassFault::NotAClass)
    }

    /// Whether positions of the class have no number and no table. Always false: every class has both.
    pub fn left_out(self) -> bool
        ensures { result ≡ false }
    {
        false
    }

    /// The index of the class in the list of classes, counted from 0.
    #[inline]
    pub fn number(self) -> u8
        ensures value { result ≡ class_number self }
        ensures small { result < 36 }
    {
        self as u8
    }

    /// The name, such as `KQKR`.
    #[tactic(auto, unfolding(crate::specs::Class::name_of))]
    pub fn name(self) -> &'static str
        ensures { result.now ≡ name_of self }
    {
        match self {
            Class::KK => "KK",
            Class::KQK => "KQK",
            Class::KRK => "KRK",
            Class::KBK => "KBK",
            Class::KNK => "KNK",
            Class::KPK => "KPK",
            Class::KQQK => "KQQK",
            Class::KQRK => "KQRK",
            Class::KQBK => "KQBK",
            Class::KQNK => "KQNK",
            Class::KQPK => "KQPK",
            Class::KRRK => "KRRK",
            Class::KRBK => "KRBK",
            Class::KRNK => "KRNK",
            Class::KRPK => "KRPK",
            Class::KBBK => "KBBK",
            Class::KBNK => "KBNK",
            Class::KBPK => "KBPK",
            Class::KNNK => "KNNK",
            Class::KNPK => "KNPK",
            Class::KPPK => "KPPK",
            Class::KQKQ => "KQKQ",
            Class::KQKR => "KQKR",
            Class::KQKB => "KQKB",
            Class::KQKN => "KQKN",
            Class::KQKP => "KQKP",
            Class::KRKR => "KRKR",
            Class::KRKB => "KRKB",
            Class::KRKN => "KRKN",
            Class::KRKP => "KRKP",
            Class::KBKB => "KBKB",
            Class::KBKN => "KBKN",
            Class::KBKP => "KBKP",
            Class::KNKN => "KNKN",
            Class::KNKP => "KNKP",
            Class::KPKP => "KPKP",
        }
    }
}
