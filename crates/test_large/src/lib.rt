//! Tests that walk whole classes of four men, or the largest tree. They take seconds as LLVM builds them for the gate, and longer than `rt try` waits;
//! so they are a crate of their own. Expected values come from outside of this program.
#![tactic(auto)]

#[cfg(test)]
mod classes;
#[cfg(test)]
mod trees;
