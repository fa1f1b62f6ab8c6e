//! Tests of study_import, of study_tails, of study_remark and of the program studyimport as a library.
#![tactic(auto)]

#[cfg(test)]
mod collection;
#[cfg(test)]
mod cut_off;
#[cfg(test)]
mod digest;
#[cfg(test)]
mod encoding;
#[cfg(test)]
mod encoding_spaces;
#[cfg(test)]
mod entries;
#[cfg(test)]
mod games;
#[cfg(test)]
mod games_to_100;
#[cfg(test)]
mod games_to_150;
#[cfg(test)]
mod games_to_50;
#[cfg(test)]
mod judge;
#[cfg(test)]
mod lines;
#[cfg(test)]
mod numbering;
#[cfg(test)]
mod program;
#[cfg(test)]
mod published;
#[cfg(test)]
mod remarks;
#[cfg(test)]
mod stipulations;
#[cfg(test)]
mod tails;
#[cfg(test)]
mod traps;
#[cfg(test)]
mod typeset;
#[cfg(test)]
mod wide;
#[cfg(test)]
mod wide_calls;
#[cfg(test)]
mod wide_games;
#[cfg(test)]
mod words_and_letters;
