//! Laws of the verdict on a study.
ghost use Rattle.study_head.specs.Laws.{DualsAreCounted, SoundHasNoFault};
ghost use Rattle.study_head.specs.Solution.{SolutionFactsAreUnique};

use study_moves::values_are_unique;

/// A study that is said to have so many duals has a correct stipulation and so many faults in its solution, none of which is a mistake.
pub fn duals_are_counted()
    ensures { DualsAreCounted }
{}

/// A study that is called sound, without a word on its duals, has a correct stipulation, and no fault in its solution.
pub fn sound_has_no_fault()
    ensures { SoundHasNoFault }
{}

/// A study has one set of facts by which a judge calls it sound or not.
pub fn solution_facts_are_unique()
    ensures { SolutionFactsAreUnique }
{
    values_are_unique();
}
