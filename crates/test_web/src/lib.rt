//! Tests of the answers to a page: files that are made, scripts over the files of a request, files that are saved.
#![tactic(auto)]

#[cfg(test)]
mod web_answers;
#[cfg(test)]
mod web_files;
#[cfg(test)]
mod web_scripts;
