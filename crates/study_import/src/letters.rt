//! The block of a game by its moves, in English letters or in those of another language.
ghost use Rattle.std.specs.Prelude.{◌≡◌, true, Some, Err, IfOk, IsErr};
ghost use Rattle.study_games.specs.Languages.{in_english};
ghost use Rattle.study_marks.specs.Study.{plain_study};
ghost use Rattle.study_marks.specs.BenchState.{marked_study};
ghost use Rattle.study_reading.specs.Notes.{game_of};
ghost use Rattle.study_import.specs.Blocks.{entry_seen, faulty_block, no_moves, game_read};
ghost use Rattle.study_import.specs.Blocks.{is_unknown_move, is_read, first_readable, language_by, language_of, moves_block};
ghost use Rattle.study_import.specs.BlocksRead.{is_of_memory, Adds};

use crate::block::{Setting, add_aimed, reported_of};
use crate::cut_off::add_faulty;
use crate::faults::is_of_memory;
use crate::game::few_men::FewMen;
use crate::game::values::NoValues;
use std::alloc::{AllocError, Allocator};
use study_board::Side;
use study_games::{Language, in_english};
use study_marks::{Bench, Goal, Stipulation};
use study_notation::Start;
use study_reading::{GameReading, Lines, MoveFault, MovesFault, Notes, Reading, Reason, Stop};
use study_text::Text;

/// A game before its first move.
pub fn begin_game<'a, A: Allocator>(
    alloc: &'a A,
    start: Start,
) -> Result<GameReading<'a, FewMen<'a, A>, A>, AllocError>
    ensures { IfOk result (λ g.
        game_of (plain_study (marked_study g.reading.study.bench))
        g.reading.lines.path.items g.reading.lines.begun
        g.reading.lines.waiting.items g.reading.lines.cut g.reading.inserts
        g.notes ≡ no_moves start) }
{
    let any = Stipulation {
        hero: Side::White,
        goal: Goal::Win,
    };
    match Bench::new(alloc, start, any, &mut NoValues { asked: 0 }) {
        Ok(bench) => Ok(GameReading {
            reading: Reading {
                study: FewMen { alloc, bench },
                lines: Lines::new(alloc),
                inserts: Text::new(alloc),
            },
            notes: Notes::new(),
        }),
        Err(_) => Err(AllocError),
    }
}

/// The languages whose letters are tried, after the English ones.
pub const LANGUAGES: [Language; 4] = [
    Language::German,
    Language::French,
    Language::Spanish,
    Language::Dutch,
];

/// Whether a symbol is no legal move in English letters.
pub fn is_unknown_move(why: Stop) -> bool
    ensures { result ≡ is_unknown_move why }
{
    match why {
        Stop::Taking(Reason::Move(MoveFault::San(_))) => true,
        _ => false,
    }
}

/// Whether the moves of a game are read to the end in letters of this language.
#[tactic(auto, unfolding(crate::specs::Blocks::game_read))]
fn is_readable<'a, A: Allocator>(
    alloc: &'a A,
    language: Language,
    text: &[u8],
    start: &Start,
) -> Result<bool, AllocError>
    ensures { IfOk result (λ is.
        is ≡ is_read (game_read (in_english language text.now) start.now)) }
{
    let english = in_english(alloc, text, language)?;
    let mut game = begin_game(alloc, start.copied())?;
    match game.read_whole(english.as_slice()) {
        Ok(_) => Ok(true),
        Err(fault) if is_of_memory(fault.why) => Err(AllocError),
        Err(_) => Ok(false),
    }
}

/// The first of these languages in whose letters the moves of a game are read to the end.
fn first_readable<'a, A: Allocator>(
    alloc: &'a A,
    languages: &[Language],
    text: &[u8],
    start: &Start,
) -> Result<Option<Language>, AllocError>
    ensures { IfOk result (λ language.
        language ≡ first_readable languages.now text.now start.now) }
{
    let mut rest = languages;
    while let [language, more @ ..] = rest {
        if is_readable(alloc, *language, text, start)? {
            return Ok(Some(*language));
        }
        rest = more;
    }
    Ok(None)
}

/// Adds the block of a game in letters of this language, or its first fault.
#[tactic(auto, unfolding(crate::specs::Blocks::game_read))]
fn add_foreign<'a, A: Allocator>(
    alloc: &'a A,
    out: &mut Text<'_, A>,
    setting: &Setting<'_>,
    start: &Start,
    language: Language,
) -> Result<u32, AllocError>
    ensures { Adds result out.old out.new
        (moves_block setting.now.choice (entry_seen setting.now.entry) start.now (Some language)) }
{
    let english = in_english(alloc, setting.entry.text, language)?;
    let mut game = begin_game(alloc, start.copied())?;
    match game.read_whole(english.as_slice()) {
        Ok(behind) => {
            let reported = reported_of(&game, Some(language), behind);
            add_aimed(alloc, out, setting, start, &reported)
        }
        Err(fault) => add_stopped(alloc, out, setting, start, &fault),
    }
}

/// The language of a game's letters, if it is read in them and not in English, where it has this fault.
fn language_by<'a, A: Allocator>(
    alloc: &'a A,
    text: &[u8],
    start: &Start,
    fault: &MovesFault,
) -> Result<Option<Language>, AllocError>
    ensures { IfOk result (λ language.
        language ≡ language_by text.now start.now (Err fault.now)) }
{
    if is_unknown_move(fault.why) {
        first_readable(alloc, &LANGUAGES, text, start)
    } else {
        Ok(None)
    }
}

/// Adds the block of a game that has this fault in English letters: in those of another language, or the fault.
fn add_unread<'a, A: Allocator>(
    alloc: &'a A,
    out: &mut Text<'_, A>,
    setting: &Setting<'_>,
    start: &Start,
    fault: &MovesFault,
) -> Result<u32, AllocError>
    ensures { game_read setting.now.entry.text.now start.now ≡ Err fault.now
        → Adds result out.old out.new
        (moves_block setting.now.choice (entry_seen setting.now.entry) start.now
        (language_of setting.now.entry.text.now start.now)) }
{
    match language_by(alloc, setting.entry.text, start, fault)? {
        Some(language) => add_foreign(alloc, out, setting, start, language),
        None => add_faulty(alloc, out, setting, start, fault),
    }
}

/// Adds the block of a game with this start, or its first fault.
#[tactic(auto, unfolding(crate::specs::Blocks::game_read))]
pub fn add_read<'a, A: Allocator>(
    alloc: &'a A,
    out: &mut Text<'_, A>,
    setting: &Setting<'_>,
    start: &Start,
) -> Result<u32, AllocError>
    ensures { Adds result out.old out.new
        (moves_block setting.now.choice (entry_seen setting.now.entry) start.now
        (language_of setting.now.entry.text.now start.now)) }
{
    let mut game = begin_game(alloc, start.copied())?;
    match game.read_whole(setting.entry.text) {
        Ok(behind) => {
            let reported = reported_of(&game, None, behind);
            add_aimed(alloc, out, setting, start, &reported)
        }
        Err(fault) if is_of_memory(fault.why) => Err(AllocError),
        Err(fault) => add_unread(alloc, out, setting, start, &fault),
    }
}

/// Adds the block of a game with this fault, unless it is want of memory.
fn add_stopped<'a, A: Allocator>(
    alloc: &'a A,
    out: &mut Text<'_, A>,
    setting: &Setting<'_>,
    start: &Start,
    fault: &MovesFault,
) -> Result<u32, AllocError>
    ensures reported { Adds result out.old out.new
        (faulty_block setting.now.choice (entry_seen setting.now.entry) start.now fault.now) }
    ensures memory { is_of_memory fault.now.why ≡ true → IsErr result }
{
    if is_of_memory(fault.why) {
        return Err(AllocError);
    }
    add_faulty(alloc, out, setting, start, fault)
}
