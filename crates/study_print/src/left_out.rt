//! Why a game was left out, in words.
ghost use Rattle.std.specs.Prelude.{◌≡◌, ◌++◌, OnOk};
ghost use Rattle.study_print.specs.LeftOut.{moves_reason, game_reason, explanation};

use std::alloc::{AllocError, Allocator};
use study_html::Html;
use study_reply::reason_of;
use study_report::begins;

/// The reason of a fault among the moves, or of a refused line, by the name with which the words begin.
#[tactic(auto, unfolding(crate::specs::LeftOut::moves_reason))]
fn moves_reason(why: &[u8]) -> &'static [u8]
    ensures { result.now ≡ moves_reason why.now }
{
    if begins(why, b"TagInMoves") {
        b"a tag among the moves"
    } else if begins(why, b"Numbering") {
        b"a move number that does not fit"
    } else if begins(why, b"NullMove") {
        b"a null move in the main line"
    } else if begins(why, b"BehindWord") {
        b"a move right behind a word, which may be a part of it"
    } else if begins(why, b"BehindResult") {
        b"moves behind the result"
    } else if begins(why, b"Byte") {
        b"a letter that begins no move"
    } else if begins(why, b"OpenComment") {
        b"a comment that is not closed"
    } else if begins(why, b"NoMoveBefore") {
        b"a variation before the first move"
    } else if begins(why, b"NotOpened") {
        b"a ) without its ("
    } else if begins(why, b"OpenVariation") {
        b"a ( without its )"
    } else if begins(why, b"TooNested") {
        b"more than 256 variations within one another"
    } else {
        reason_of(why)
    }
}

/// The reason why a game was left out, by the name with which the words of its remark begin.
#[tactic(auto, unfolding(crate::specs::LeftOut::game_reason))]
pub fn game_reason(why: &[u8]) -> &'static [u8]
    ensures { result.now ≡ game_reason why.now }
{
    if begins(why, b"GameTooLarge") {
        b"more than 1,048,576 bytes"
    } else if begins(why, b"TagForm") {
        b"a tag that is not a name and a text in quotation marks"
    } else if begins(why, b"OpenString") {
        b"a tag whose text is not closed in its line"
    } else if begins(why, b"NoStipulation") {
        b"it does not say what is to be done"
    } else if begins(why, b"StipulationUnread") {
        b"a stipulation that is not understood"
    } else if begins(why, b"TagTwice") {
        b"a second tag of this name, so perhaps two games that run together"
    } else {
        moves_reason(why)
    }
}

/// Adds after a colon what the words of a remark mean, such as `NoSuchMove at Kb6`, if they are not their own reason.
pub fn say_explanation<A: Allocator>(html: &mut Html<'_, A>, why: &[u8]) -> Result<(), AllocError>
    ensures { OnOk result (html.new ≡ html.old ++ explanation why.now) }
{
    if begins(why, b"left out: ") {
        return Ok(());
    }
    html.say(b": ")?;
    html.say(game_reason(why))
}
