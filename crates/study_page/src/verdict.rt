//! The part of a page with the verdict.
ghost use Rattle.std.specs.Prelude.{◌≡◌, ◌++◌, OnOk};
ghost use Rattle.study_html.specs.Elements.{element_text};
ghost use Rattle.study_html.specs.Escape.{escaped_text};
ghost use Rattle.study_head.specs.Verdict.{IsLegalStamp, sentence, start_words};
ghost use Rattle.study_page.specs.Verdict.{stamp_element, shows_duals, stamp_part, fault_list, verdict_part};

use std::alloc::{AllocError, Allocator};
use study_head::{Judgement, Stamp, add_sentence, add_stamp_words, add_start_value};
use study_html::{Element, Html, put_words};
use study_text::Text;

fn stamp_element(stamp: &Stamp) -> Element
    ensures { result ≡ stamp_element stamp.now }
{
    match stamp {
        Stamp::Wins(_) => Element::Wrong,
        Stamp::Mates(_, _) => Element::Wrong,
        Stamp::Misses(_) => Element::Wrong,
        Stamp::Fails(_, _) => Element::Wrong,
        Stamp::Cooked(_) => Element::Wrong,
        Stamp::Sound(_, _) => Element::Sound,
        Stamp::Correct => Element::Sound,
        Stamp::Duals(_, _, _) => Element::Unsound,
        Stamp::NotRead(_) => Element::Unsound,
        Stamp::Refuted => Element::Sound,
        Stamp::Works => Element::Unsound,
    }
}

/// Whether the duals are shown behind a verdict: they say nothing where the stipulation is wrong, nor of a try.
pub fn shows_duals(stamp: &Stamp) -> bool
    ensures { result ≡ shows_duals stamp.now }
{
    match stamp {
        Stamp::Wins(_) => false,
        Stamp::Mates(_, _) => false,
        Stamp::Misses(_) => false,
        Stamp::Refuted => false,
        Stamp::Works => false,
        _ => true,
    }
}

#[tactic(auto, unfolding(crate::specs::Verdict::stamp_part))]
fn put_stamp<'a, A: Allocator>(
    alloc: &'a A,
    html: &mut Html<'_, A>,
    stamp: &Stamp,
) -> Result<(), AllocError>
    requires { IsLegalStamp stamp.now }
    ensures { OnOk result (html.new ≡ html.old ++ stamp_part stamp.now) }
{
    let mut text = Text::new(alloc);
    let mut within = Html::new(alloc);
    add_stamp_words(&mut text, stamp)?;
    put_words(alloc, &mut within, stamp_element(stamp), text.as_slice())?;
    html.put(Element::Heading, &within)
}

fn put_faults<A: Allocator>(
    html: &mut Html<'_, A>,
    stamp: &Stamp,
    faults: &Html<'_, A>,
) -> Result<(), AllocError>
    ensures { OnOk result (html.new ≡ html.old ++ fault_list stamp.now faults.now) }
{
    if !shows_duals(stamp) || faults.is_empty() {
        return Ok(());
    }
    html.put(Element::Faults, faults)
}

fn put_sentence<'a, A: Allocator>(
    alloc: &'a A,
    html: &mut Html<'_, A>,
    judged: &Judgement,
) -> Result<(), AllocError>
    requires { IsLegalStamp judged.now.stamp }
    ensures { OnOk result (html.new ≡ html.old ++ element_text Element.Paragraph
        (escaped_text (sentence judged.now.empty judged.now.stamp))) }
{
    let mut text = Text::new(alloc);
    add_sentence(&mut text, judged.empty, &judged.stamp)?;
    put_words(alloc, html, Element::Paragraph, text.as_slice())
}

fn put_start_value<'a, A: Allocator>(
    alloc: &'a A,
    html: &mut Html<'_, A>,
    judged: &Judgement,
) -> Result<(), AllocError>
    ensures { OnOk result (html.new ≡ html.old ++ element_text Element.Paragraph
        (escaped_text (start_words judged.now.first judged.now.value))) }
{
    let mut text = Text::new(alloc);
    add_start_value(&mut text, judged.first, judged.value)?;
    put_words(alloc, html, Element::Paragraph, text.as_slice())
}

/// The part with the verdict: the stamp, what it says, the value of the start, and these faults.
#[tactic(auto, unfolding(crate::specs::Verdict::verdict_part))]
pub fn put_verdict<'a, A: Allocator>(
    alloc: &'a A,
    html: &mut Html<'_, A>,
    judged: &Judgement,
    faults: &Html<'_, A>,
) -> Result<(), AllocError>
    requires { IsLegalStamp judged.now.stamp }
    ensures { OnOk result (html.new ≡ html.old ++ verdict_part judged.now faults.now) }
{
    let mut part = Html::new(alloc);
    put_stamp(alloc, &mut part, &judged.stamp)?;
    put_sentence(alloc, &mut part, judged)?;
    put_start_value(alloc, &mut part, judged)?;
    put_faults(&mut part, &judged.stamp, faults)?;
    html.put(Element::Verdict, &part)
}
