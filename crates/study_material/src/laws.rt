//! Laws over the definitions, on which tables rest: functions that do nothing.
ghost use Rattle.study_material.specs.Needs.{MovesLeadOn, NeedsComeFirst};
ghost use Rattle.study_material.specs.Class.{PositionsHaveOneClass};

/// Every valid position is of exactly one class.
pub fn positions_have_one_class()
    ensures { PositionsHaveOneClass }
{}

/// Every legal move from a valid position of a class leads to a valid position of the class or of one that it needs.
pub fn moves_lead_into_needs()
    ensures { MovesLeadOn }
{}

/// A needed class has fewer men, or as many and fewer pawns: `order` lists it before the class.
pub fn needs_come_first()
    ensures { NeedsComeFirst }
{}
