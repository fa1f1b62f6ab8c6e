//! Laws over the definitions: functions that do nothing.
ghost use Rattle.study_wide.specs.Laws.{AllAgreeWithFew, AreSmallValid, SmallStaysSmall, FewMenHaveSameGame};

/// With no right to castle, the legal moves and the positions after them are those of the rules for four men, however many men there are; a valid position of
/// those rules is a small wide one, and a small wide one is such a position.
pub fn few_men_agree()
    ensures agree { AllAgreeWithFew }
    ensures small { AreSmallValid }
{}

/// A legal move leads from a small position to a small one, so that the rules for four men serve from there to the end.
pub fn small_stays_small()
    ensures { SmallStaysSmall }
{}

/// Mate, stalemate and forced mate of a small position are those of the rules for four men: what a table says of it holds in the wide game.
pub fn few_men_have_the_same_game()
    ensures { FewMenHaveSameGame }
{}
