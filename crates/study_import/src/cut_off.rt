//! The block of a game that is read only up to its first fault.
ghost use Rattle.std.specs.Prelude.{◌≡◌, IfOk};
ghost use Rattle.study_games.specs.Header.{tags_of};
ghost use Rattle.study_import.specs.Blocks.{entry_seen, reported_seen, aim_of_game, game_read};
ghost use Rattle.study_import.specs.Blocks.{text_up_to, aimed_up_to, block_up_to, faulty_block};
ghost use Rattle.study_import.specs.BlocksRead.{Adds};

use crate::block::{Reported, Setting, add_block, reported_of, sources_of};
use crate::faults::{add_not_read, add_stop, is_of_memory};
use crate::letters::begin_game;
use std::alloc::{AllocError, Allocator};
use study_games::closed_text;
use study_notation::Start;
use study_reading::{MovesFault, aim_by_sources};
use study_text::Text;

/// The text of a game before the place with so many bytes left, with the variations closed that are open there.
#[tactic(auto, unfolding(crate::specs::Blocks::text_up_to))]
pub fn text_up_to<'a, A: Allocator>(
    alloc: &'a A,
    text: &[u8],
    left: usize,
) -> Result<Text<'a, A>, AllocError>
    ensures { IfOk result (λ t. t ≡ text_up_to text.now left) }
{
    let (front, _) = text.split_at(text.len().saturating_sub(left));
    closed_text(alloc, front)
}

/// Adds the block of a game up to this fault, or the fault if the game states no stipulation.
fn add_aimed_up_to<'a, A: Allocator>(
    alloc: &'a A,
    out: &mut Text<'_, A>,
    setting: &Setting<'_>,
    start: &Start,
    fault: &MovesFault,
    reported: &Reported<'_>,
) -> Result<u32, AllocError>
    ensures { Adds result out.old out.new
        (aimed_up_to (entry_seen setting.now.entry) start.now fault.now (reported_seen reported.now)
        (aim_of_game setting.now.choice.given
        (tags_of setting.now.entry.text.now) start.now.position.to_move reported.now.notes)) }
{
    let entry = &setting.entry;
    let given = setting.choice.given;
    let to_move = start.position.to_move();
    let sources = sources_of(alloc, given, entry.text, to_move, &reported.notes)?;
    match aim_by_sources(&sources) {
        Some(aim) => {
            add_not_read(alloc, out, entry, fault)?;
            add_block(alloc, out, entry, start, &aim, reported)?;
            Ok(1)
        }
        None => add_stop(alloc, out, entry, fault),
    }
}

/// Adds the block of a game up to this fault, or the fault if there is none.
#[tactic(auto, unfolding(crate::specs::Blocks::game_read))]
fn add_up_to<'a, A: Allocator>(
    alloc: &'a A,
    out: &mut Text<'_, A>,
    setting: &Setting<'_>,
    start: &Start,
    fault: &MovesFault,
) -> Result<u32, AllocError>
    ensures { Adds result out.old out.new
        (block_up_to setting.now.choice.given (entry_seen setting.now.entry) start.now fault.now
        (game_read (text_up_to setting.now.entry.text.now fault.now.left) start.now)) }
{
    let text = text_up_to(alloc, setting.entry.text, fault.left)?;
    let mut game = begin_game(alloc, start.copied())?;
    match game.read_whole(text.as_slice()) {
        Ok(_) => {
            let reported = reported_of(&game, None, b"");
            add_aimed_up_to(alloc, out, setting, start, fault, &reported)
        }
        Err(other) if is_of_memory(other.why) => Err(AllocError),
        Err(_) => add_stop(alloc, out, &setting.entry, fault),
    }
}

/// Adds the block of a game with this fault among its moves up to there, if it is wanted, or else the fault.
#[tactic(auto, unfolding(crate::specs::Blocks::faulty_block))]
pub fn add_faulty<'a, A: Allocator>(
    alloc: &'a A,
    out: &mut Text<'_, A>,
    setting: &Setting<'_>,
    start: &Start,
    fault: &MovesFault,
) -> Result<u32, AllocError>
    ensures { Adds result out.old out.new
        (faulty_block setting.now.choice (entry_seen setting.now.entry) start.now fault.now) }
{
    if setting.choice.up_to_faults {
        add_up_to(alloc, out, setting, start, fault)
    } else {
        add_stop(alloc, out, &setting.entry, fault)
    }
}
