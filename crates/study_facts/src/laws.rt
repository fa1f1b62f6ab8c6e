//! Laws of the facts of a study.
ghost use Rattle.study_facts.specs.Faults.{FaultsAreOfTheSolution};

/// The faults of the solution, listed in written order, are as many as the root counts, and each is reached by solution
/// steps alone.
pub fn faults_are_of_the_solution()
    ensures { FaultsAreOfTheSolution }
{}
