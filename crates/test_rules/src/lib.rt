//! Tests of texts, of devices in memory and of the rules: positions and their faults, legal moves and unmoves, FEN and SAN, positions with more than four
//! men, classes, numbers of positions. The tests of study_X are in X.rt and the files that begin with its name. The crate has only tests, since a crate
//! with tests is proved twice; what they expect comes from outside of this program. Only tests call these functions, and none has a contract.
#![tactic(auto)]

#[cfg(test)]
mod board;
#[cfg(test)]
mod index;
#[cfg(test)]
mod index_departure;
#[cfg(test)]
mod index_men;
#[cfg(test)]
mod index_samples;
#[cfg(test)]
mod material;
#[cfg(test)]
mod men;
#[cfg(test)]
mod moves;
#[cfg(test)]
mod moves_words;
#[cfg(test)]
mod notation;
#[cfg(test)]
mod notation_moves;
#[cfg(test)]
mod rows;
#[cfg(test)]
mod text;
#[cfg(test)]
mod wide;
#[cfg(test)]
mod wide_text;
