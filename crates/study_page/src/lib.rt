//! The page of a study, in HTML, as a judge would print it.
//!
//! `write_page` writes the page of a study by the game's values: one text, to the byte. A page is `Html` of study_html, so it is well nested,
//! and the words of a study are never read as markup.
#![tactic(auto)]

mod cards_and_tries;
mod csv;
mod defence_groups;
mod draft;
mod fault_list;
mod late_mate;
mod laws;
mod main_defences;
mod move_parts;
mod node_rows;
mod page;
mod page_findings;
mod play_rows;
mod sheet;
mod summary;
mod tree;
mod verdict;

pub use csv::{add_quoted, write_head_record, write_record, write_refused_record};
pub use laws::{pages_are_unique, plain_studies_have_one_page};
pub use page::{Listed, write_page};
pub use sheet::write_place;
pub use summary::{write_refusal, write_summary};
