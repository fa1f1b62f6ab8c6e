//! Tests of studies: trees, edits and their marks, and the games that are written for them. The tests of study_X are in X.rt and the files that begin
//! with its name. The crate has only tests, since a crate with tests is proved twice; what they expect comes from outside of this program, or from
//! another of its calls. Only tests call these functions, and none has a contract except those of a source, for its trait.
#![tactic(auto)]

#[cfg(test)]
mod calls;
#[cfg(test)]
mod heaps;
#[cfg(test)]
mod marks;
#[cfg(test)]
mod marks_faults;
#[cfg(test)]
mod marks_pages;
#[cfg(test)]
mod pgn;
#[cfg(test)]
mod studies;
#[cfg(test)]
mod tree;
