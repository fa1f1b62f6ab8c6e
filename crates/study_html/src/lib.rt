//! HTML that is always well nested: elements, words from outside, and drawings of boards and men.
//!
//! `Html` is markup that grows by words, by whole elements and by drawings, so it is always well nested, and words from outside are never read as
//! markup. Letters outside ASCII are shown by their numbers (`say`), or stay as they are (`spell`). `write_opening` or `write_sheet_opening`, and
//! `write_closing`, write the texts around the pages of a file: the style sheet of the elements, and the shapes that the drawings name.
#![tactic(auto)]

mod drawing;
mod element;
mod escape;
mod frame;
mod html;
mod laws;

pub use drawing::Drawing;
pub use element::Element;
pub use escape::add_visible;
pub use frame::{write_closing, write_opening, write_sheet_opening};
pub use html::{Html, put_letters, put_words};
pub use laws::{letters_are_clean, words_are_clean};
