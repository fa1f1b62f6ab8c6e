//! Tests of the facts of a review, over built tables. The tests of study_facts and study_review are in review.rt and the files that begin with its
//! name. Expected facts come from independent programs; the reviews of whole studies of the gallery are compared by a program of the gate. Only tests
//! call these functions, and none has a contract unless a call needs it.
#![tactic(auto)]

#[cfg(test)]
mod review;
#[cfg(test)]
mod review_faults;
#[cfg(test)]
mod review_time;
#[cfg(test)]
mod review_writing;
#[cfg(test)]
mod review_zugzwang;
#[cfg(test)]
mod studies;
