//! The tags of a study.
ghost use Rattle.std.specs.Prelude.{◌≡◌, ◌<◌, ◌↔◌, IsOk, OnErr, OnOk, Some, map, slice_set, true};
ghost use Rattle.std.specs.Option.{option_map};
ghost use Rattle.study_marks.specs.Study.{tag_index, tag_of};
ghost use Rattle.study_marks.specs.Edits.{is_tag_text};
ghost use Rattle.study_tails.specs.Study.{text_of, with_wide_stipulation, with_wide_tag};

use crate::study::WideStudy;
use arrayvec::ArrayString;
use std::alloc::Allocator;
use study_marks::{Stipulation, TagName, is_printable};

/// The texts of the six tags.
pub type Tags = [Option<ArrayString<64>>; 6];

/// A text is not 1 to 60 printable bytes.
#[derive(Clone, Copy)]
pub struct NoTagText;

/// The place of a tag among the six.
fn tag_place(name: TagName) -> usize
    ensures value { result ≡ tag_index name }
    ensures few { result < 6 }
{
    match name {
        TagName::Event => 0,
        TagName::Site => 1,
        TagName::Date => 2,
        TagName::Round => 3,
        TagName::White => 4,
        TagName::Black => 5,
    }
}

/// The text of a tag among these, if it is known.
pub fn tag_text(tags: &Tags, name: TagName) -> Option<&str>
    ensures { option_map (λ t. t.now) result ≡ tag_of (map text_of tags.now) name }
{
    match &tags[tag_place(name)] {
        None => None,
        Some(text) => Some(text.as_str()),
    }
}

/// Sets the text of a tag.
fn set_tag_text(tags: &mut Tags, name: TagName, text: ArrayString<64>)
    ensures { map text_of tags.new
        ≡ slice_set (map text_of tags.old) (tag_index name) (Some text.bytes) }
{
    tags[tag_place(name)] = Some(text);
}

/// Whether these are 1 to 60 printable bytes.
fn is_tag_text(text: &[u8]) -> bool
    ensures { result ≡ is_tag_text text.now }
{
    1 <= text.len() && text.len() <= 60 && is_printable(text)
}

impl<'a, A: Allocator> WideStudy<'a, A> {
    /// The text of a tag, if it is known.
    pub fn tag(&self, name: TagName) -> Option<&str>
        ensures { option_map (λ t. t.now) result ≡ tag_of self.now.tags name }
    {
        tag_text(&self.tags, name)
    }

    /// Sets another text of a tag.
    pub fn set_tag(&mut self, name: TagName, text: &str) -> Result<(), NoTagText>
        ensures refusal { IsOk result ↔ (is_tag_text text.now ≡ true) }
        ensures edited { OnOk result (self.new ≡ with_wide_tag self.old name text.now) }
        ensures same { OnErr result (self.new ≡ self.old) }
    {
        if !is_tag_text(text.as_bytes()) {
            return Err(NoTagText);
        }
        match ArrayString::from(text) {
            Err(_) => Err(NoTagText),
            Ok(text) => {
                set_tag_text(&mut self.tags, name, text);
                Ok(())
            }
        }
    }

    /// Sets another stipulation.
    pub fn set_stipulation(&mut self, stipulation: Stipulation)
        ensures { self.new ≡ with_wide_stipulation self.old stipulation }
    {
        self.stipulation = stipulation;
    }
}
