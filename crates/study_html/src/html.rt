//! Markup that grows.
ghost use Rattle.std.specs.Prelude.{◌≡◌, ◌++◌, ◌==◌, [], length, OnOk};
ghost use Rattle.study_html.specs.Escape.{escaped_text, lettered_text};
ghost use Rattle.study_html.specs.Elements.{element_text};
ghost use Rattle.study_html.specs.Drawings.{drawing_text};
ghost use Rattle.study_html.specs.Markup.{IsWellNested};

use crate::drawing::{Drawing, add_drawing};
use crate::element::{Element, add_element};
use crate::escape::{add_escaped, add_lettered};
use std::alloc::{AllocError, Allocator};
use std::marker::Model;
use study_text::Text;

/// Markup in memory that grows at its end: by words, whole elements and drawings, and nothing else. If there is no memory for more, the markup is emptied.
#[derive(Drop)]
pub struct Html<'a, A: Allocator> {
    alloc: &'a A,
    text: Text<'a, A>,
}

impl<'a, A: Allocator> Model for Html<'a, A> {
    ghost use Rattle.std.specs.Prelude.{ℕ, List};
    ghost use Rattle.study_html.specs.Markup.{IsWellNested};

    ghost Value = { List ℕ };

    ghost view = { λ h. h.text };

    ghost invariant = { λ h. IsWellNested h.text };
}

impl<'a, A: Allocator> Html<'a, A> {
    /// Empty markup.
    #[tactic(auto, using(crate::proofs::MarkupGrows::none_nested))]
    pub fn new(alloc: &'a A) -> Self
        ensures { result ≡ [] }
    {
        Html {
            alloc,
            text: Text::new(alloc),
        }
    }

    pub fn as_slice(&self) -> &[u8]
        ensures text { result.now ≡ self.now }
        ensures nested { IsWellNested result.now }
    {
        self.text.as_slice()
    }

    /// Whether the markup is empty.
    pub fn is_empty(&self) -> bool
        ensures { result ≡ (length self.now == 0) }
    {
        self.text.as_slice().is_empty()
    }

    /// Adds words, which are never read as markup.
    #[tactic(auto, using(crate::proofs::MarkupGrows::said_nested, crate::proofs::MarkupGrows::none_nested))]
    pub fn say(&mut self, words: &[u8]) -> Result<(), AllocError>
        ensures { OnOk result (self.new ≡ self.old ++ escaped_text words.now) }
    {
        match add_escaped(&mut self.text, words) {
            Ok(_) => Ok(()),
            Err(fault) => {
                self.text = Text::new(self.alloc);
                Err(fault)
            }
        }
    }

    /// Adds words in UTF-8 in their own letters; they are never read as markup.
    #[tactic(auto, using(crate::proofs::MarkupGrows::spelled_nested, crate::proofs::MarkupGrows::none_nested))]
    pub fn spell(&mut self, words: &[u8]) -> Result<(), AllocError>
        ensures { OnOk result (self.new ≡ self.old ++ lettered_text words.now) }
    {
        match add_lettered(&mut self.text, words) {
            Ok(_) => Ok(()),
            Err(fault) => {
                self.text = Text::new(self.alloc);
                Err(fault)
            }
        }
    }

    /// Adds an element with its contents.
    #[tactic(auto, using(crate::proofs::MarkupGrows::inside_nested, crate::proofs::MarkupGrows::none_nested))]
    pub fn put<'b, B: Allocator>(
        &mut self,
        element: Element,
        within: &Html<'b, B>,
    ) -> Result<(), AllocError>
        ensures { OnOk result (self.new ≡ self.old ++ element_text element within.now) }
    {
        match add_element(&mut self.text, element, within.text.as_slice()) {
            Ok(_) => Ok(()),
            Err(fault) => {
                self.text = Text::new(self.alloc);
                Err(fault)
            }
        }
    }

    /// Adds a drawing.
    #[tactic(auto, using(crate::proofs::MarkupGrows::drawn_nested, crate::proofs::MarkupGrows::none_nested))]
    pub fn draw(&mut self, drawing: &Drawing) -> Result<(), AllocError>
        ensures { OnOk result (self.new ≡ self.old ++ drawing_text drawing.now) }
    {
        match add_drawing(&mut self.text, drawing) {
            Ok(_) => Ok(()),
            Err(fault) => {
                self.text = Text::new(self.alloc);
                Err(fault)
            }
        }
    }

    /// Adds all of this markup.
    #[tactic(auto, using(crate::proofs::MarkupGrows::both_nested, crate::proofs::MarkupGrows::none_nested))]
    pub fn append<'b, B: Allocator>(&mut self, more: &Html<'b, B>) -> Result<(), AllocError>
        ensures { OnOk result (self.new ≡ self.old ++ more.now) }
    {
        match self.text.add(more.text.as_slice()) {
            Ok(_) => Ok(()),
            Err(fault) => {
                self.text = Text::new(self.alloc);
                Err(fault)
            }
        }
    }
}

/// Adds an element with words in it.
pub fn put_words<'a, A: Allocator>(
    alloc: &'a A,
    html: &mut Html<'_, A>,
    element: Element,
    words: &[u8],
) -> Result<(), AllocError>
    ensures { OnOk result (html.new ≡ html.old ++ element_text element (escaped_text words.now)) }
{
    let mut within = Html::new(alloc);
    within.say(words)?;
    html.put(element, &within)
}

/// Adds an element with words in UTF-8 in it, in their own letters.
pub fn put_letters<'a, A: Allocator>(
    alloc: &'a A,
    html: &mut Html<'_, A>,
    element: Element,
    words: &[u8],
) -> Result<(), AllocError>
    ensures { OnOk result (html.new ≡ html.old ++ element_text element (lettered_text words.now)) }
{
    let mut within = Html::new(alloc);
    within.spell(words)?;
    html.put(element, &within)
}
