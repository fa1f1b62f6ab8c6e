//! Laws over the definitions: functions that do nothing.
ghost use Rattle.std.specs.Prelude.{◌≡◌, ◌≤◌, ℕ, List, Ok};
ghost use Rattle.study_board.specs.Position.{IsValid};
ghost use Rattle.study_tree.specs.Edits.{IsWithin};
ghost use Rattle.study_tree.specs.Tree.{size_of};
ghost use Rattle.study_marks.specs.Edits.{PlainStudy};
ghost use Rattle.study_tails.specs.Study.{WideStudy as AStudy, IsWideStudy};
ghost use Rattle.study_tails.specs.Tails.{tail};
ghost use Rattle.study_tails.specs.Insertions.{IsBuilt};
ghost use Rattle.study_tails.specs.Laws.{TailsAreSound, TailsAreComplete};

/// Each tail begins at a node of the game with at most four men and no right to castle. Its study has a node exactly where the game has one from there on,
/// after the same move, with the position, clock and number that the rules for four men give, which are the game's.
pub fn tails_are_the_games()
    ensures { (s : AStudy) → TailsAreSound s }
{}

/// Each node of the game with at most four men and no right to castle is in exactly one tail.
pub fn no_tail_is_missed()
    ensures { (s : AStudy) → TailsAreComplete s }
{}

/// The `insert` lines of a tail's study have its moves in the spelling of four men, and insert them one by one: none is refused in its turn, and they lead
/// from the root alone to the study.
pub fn tails_are_built<A>()
    ensures { (s : AStudy) (path : List ℕ) (u : PlainStudy) → IsWideStudy s
        → IsWithin 256 s.tree.below → size_of s.tree ≤ 4096 → tail s path ≡ Ok u
        → IsValid u.start.position → IsBuilt A u }
{}
