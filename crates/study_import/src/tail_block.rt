//! The text written for a game by choice: its block, or that of its tail.
ghost use Rattle.std.specs.Prelude.{◌≡◌, [], IfOk};
ghost use Rattle.std.specs.Option.{option_map};
ghost use Rattle.study_games.specs.Games.{game_seen};
ghost use Rattle.study_import.specs.Tails.{position_text, tail_in, named_seen};
ghost use Rattle.study_import.specs.Blocks.{has_more_men, tail_of_game, tail_of, tail_block, block_by};
ghost use Rattle.study_import.specs.BlocksRead.{Adds};

use crate::block::{Setting, add_game, add_start, fen_in};
use crate::importer::Choice;
use crate::places::Entry;
use crate::tails::{Named, add_tail, position_text};
use std::alloc::{AllocError, Allocator};
use study_command::as_text;
use study_games::{Game, count_tags, tag_value};
use study_notation::{FenFault, read_fen};
use study_remark::{Remark, add_remark};
use study_text::Text;

/// Whether a game has more than four men.
fn has_more_men<'a, A: Allocator>(alloc: &'a A, raw: Option<&[u8]>) -> Result<bool, AllocError>
    ensures { IfOk result (λ has. has ≡ has_more_men (option_map (λ v. v.now) raw.entry)) }
{
    match raw {
        None => Ok(true),
        Some(raw) => {
            let fen = fen_in(alloc, raw)?;
            Ok(match read_fen(as_text(fen.as_slice())) {
                Err(FenFault::TooManyMen) => true,
                _ => false,
            })
        }
    }
}

/// Adds the text of a game's tail, and returns its position; `None` if the game has no tail.
#[tactic(auto, unfolding(crate::specs::Blocks::tail_of_game, crate::specs::Tails::tail_in))]
fn add_tail_of_game<'t, 'a, A: Allocator>(
    alloc: &'a A,
    out: &mut Text<'_, A>,
    game: &'t [u8],
) -> Result<Option<Named<'t>>, AllocError>
    requires { out.old ≡ [] }
    ensures { IfOk result (λ named. named_seen named out.new ≡ tail_of_game game.now) }
{
    if count_tags(game) == 0 || !has_more_men(alloc, tag_value(game, b"FEN"))? {
        return Ok(None);
    }
    add_tail(alloc, out, game)
}

/// The same for a game that may have too many bytes, if tails are taken.
fn add_tail_of<'t, 'a, A: Allocator>(
    alloc: &'a A,
    out: &mut Text<'_, A>,
    tails: bool,
    game: Option<&'t [u8]>,
) -> Result<Option<Named<'t>>, AllocError>
    requires { out.old ≡ [] }
    ensures { IfOk result (λ named.
        named_seen named out.new ≡ tail_of tails (option_map (λ t. t.now) game.entry)) }
{
    match (tails, game) {
        (true, Some(game)) => add_tail_of_game(alloc, out, game),
        _ => Ok(None),
    }
}

/// Adds the block of a tail.
fn add_tail_block<'a, A: Allocator>(
    alloc: &'a A,
    out: &mut Text<'_, A>,
    setting: &Setting<'_>,
    named: &Named<'_>,
) -> Result<u32, AllocError>
    ensures { Adds result out.old out.new
        (tail_block setting.now.choice setting.now.entry.number setting.now.entry.line
        (record {
          position = named.now.position.now;
          text = setting.now.entry.text.now;
          skipped = named.now.skipped;
        })) }
{
    let fen = position_text(alloc, named.position)?;
    add_remark(out, &Remark::Tail(named.skipped))?;
    add_start(alloc, out, setting, fen.as_slice())
}

/// Adds the block of a game or of its tail, by the choice, or the line with the reason why there is none. Returns the number of studies in it.
pub fn add_chosen<'a, A: Allocator>(
    alloc: &'a A,
    out: &mut Text<'_, A>,
    choice: &Choice,
    number: u32,
    game: &Game<'_>,
) -> Result<u32, AllocError>
    ensures { Adds result out.old out.new (block_by choice.now number (game_seen game.now)) }
{
    let choice = *choice;
    let mut tail = Text::new(alloc);
    match add_tail_of(alloc, &mut tail, choice.tails, game.text)? {
        None => add_game(alloc, out, choice, number, game),
        Some(named) => {
            let entry = Entry {
                number,
                line: game.line,
                text: tail.as_slice(),
            };
            add_tail_block(alloc, out, &Setting { choice, entry }, &named)
        }
    }
}
