//! Tests of scripts: replies, refusals, limits, files, and the program's options, exit statuses and folder. The tests of study_X are in X.rt and the
//! files that begin with its name. The crate has only tests, since a crate with tests is proved twice; what they expect comes from outside of this
//! program, except for replies of one run that are compared with those of another. Only tests call these functions.
#![tactic(auto)]

#[cfg(test)]
mod program;
#[cfg(test)]
mod program_folder;
#[cfg(test)]
mod rows;
#[cfg(test)]
mod script_devices;
#[cfg(test)]
mod script_files;
#[cfg(test)]
mod script_limits;
#[cfg(test)]
mod script_marks;
#[cfg(test)]
mod script_memory;
#[cfg(test)]
mod script_moves;
#[cfg(test)]
mod script_reference;
#[cfg(test)]
mod script_refusals;
#[cfg(test)]
mod script_separate;
