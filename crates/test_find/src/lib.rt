//! Tests of the lists of found positions, over built tables of pawn against king, and of the program over a folder. The expected lists are those of an
//! independent program. Only tests call these functions, and none has a contract.
#![tactic(auto)]

#[cfg(test)]
mod listing;
#[cfg(test)]
mod program;
#[cfg(test)]
mod request;
#[cfg(test)]
mod rows;
