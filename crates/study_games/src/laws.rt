//! Laws of games.
ghost use Rattle.study_games.specs.Laws.{IsIsolated, KeepsPlaces};

/// A text that begins with a tag and follows a line of moves, with blank lines or remarks between them or none, changes no game before it, and its own
/// games are unchanged but for their line numbers.
pub fn games_are_isolated()
    ensures { IsIsolated }
{}

/// A text in English letters is as long as before, so that a place in it is the place in the text.
pub fn english_keeps_places()
    ensures { KeepsPlaces }
{}
