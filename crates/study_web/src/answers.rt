//! Answers, one module for each kind of request.

pub mod core_words;
pub mod find;
pub mod imported_script;
pub mod make;
pub mod refusals;
pub mod remark_rows;
pub mod replies;
pub mod report_pages;
pub mod row;
pub mod script;
pub mod setup;
pub mod survey;
