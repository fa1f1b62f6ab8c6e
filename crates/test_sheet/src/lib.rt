//! Tests of sheets of diagrams, of lists, and of the remarks and the list of entries on printed pages. The expected texts are laid out by hand, by
//! their description in docs/REPORT.md; the drawing of a board is that of an independent program's pages. Only tests call these functions.
#![tactic(auto)]

#[cfg(test)]
mod entries;
#[cfg(test)]
mod kings;
#[cfg(test)]
mod late;
#[cfg(test)]
mod list;
#[cfg(test)]
mod names;
#[cfg(test)]
mod numbers;
#[cfg(test)]
mod old_remarks;
#[cfg(test)]
mod remarks;
#[cfg(test)]
mod sheet;
#[cfg(test)]
mod transposed;
#[cfg(test)]
mod verdicts;
