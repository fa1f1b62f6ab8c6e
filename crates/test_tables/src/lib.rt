//! Tests of the tables: built and verified, written to files and read back, probed whole and by pages. The tests of study_X are in X.rt and the files
//! that begin with its name. The crate has only tests, since a crate with tests is proved twice; what they expect comes from outside of this program,
//! or from another of its calls. Only tests call these functions, and none has a contract except those of a source, for its trait.
#![tactic(auto)]

#[cfg(test)]
mod prober;
#[cfg(test)]
mod retro;
#[cfg(test)]
mod retro_memory;
#[cfg(test)]
mod rows;
#[cfg(test)]
mod tablefile;
#[cfg(test)]
mod tablefile_built;
#[cfg(test)]
mod tablefile_devices;
#[cfg(test)]
mod tablefile_sizes;
#[cfg(test)]
mod tables;
#[cfg(test)]
mod texts;
