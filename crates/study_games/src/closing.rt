//! The text of a game that breaks off, with its open variations closed.
ghost use Rattle.std.specs.Prelude.{◌≡◌, ◌++◌, replicate, OnOk, IfOk};
ghost use Rattle.study_games.specs.Tokens.{token_seen};
ghost use Rattle.study_games.specs.Closed.{depth_after, depth_in, closed_text};

use crate::token::{Token, begins_feed, read_token};
use std::alloc::{AllocError, Allocator};
use study_text::Text;

/// The number of open variations after a token.
fn depth_after(depth: u32, token: Token<'_>) -> u32
    ensures { result ≡ depth_after depth (token_seen token.entry) }
{
    match token {
        Token::Open => depth.saturating_add(1),
        Token::Close => depth.saturating_sub(1),
        _ => depth,
    }
}

/// The number of variations that are open at the end of a text.
#[tactic(auto, unfolding(crate::specs::Closed::depth_in), using(crate::proofs::Fuel::depth_more))]
fn depth_in(text: &[u8]) -> u32
    ensures { result ≡ depth_in text.now }
{
    let mut depth = 0u32;
    let mut rest = text;
    let mut fresh = true;
    let mut fuel = text.len();
    while fuel > 0 {
        let Some(Ok(cut)) = read_token(rest, fresh) else {
            break;
        };
        depth = depth_after(depth, cut.token);
        fresh = begins_feed(rest);
        rest = cut.rest;
        fuel -= 1;
    }
    depth
}

fn add_closings<A: Allocator>(out: &mut Text<'_, A>, count: u32) -> Result<(), AllocError>
    ensures { OnOk result (out.new ≡ out.old ++ replicate count 41) }
{
    let mut left = count;
    while left > 0 {
        out.add(b")")?;
        left -= 1;
    }
    Ok(())
}

/// A text of moves that breaks off, with a `)` for each variation that is open at its end.
#[tactic(auto, unfolding(crate::specs::Closed::closed_text))]
pub fn closed_text<'a, A: Allocator>(alloc: &'a A, text: &[u8]) -> Result<Text<'a, A>, AllocError>
    ensures { IfOk result (λ t. t ≡ closed_text text.now) }
{
    let mut out = Text::new(alloc);
    out.add(text)?;
    add_closings(&mut out, depth_in(text))?;
    Ok(out)
}
