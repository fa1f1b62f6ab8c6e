//! A game whose start has more than four men, or a right to castle: its moves, in English letters or in those of another language.
ghost use Rattle.std.specs.Prelude.{◌≡◌, Ok, Err, IfOk, MatchResult, is_ok};
ghost use Rattle.study_games.specs.Languages.{in_english};
ghost use Rattle.study_import.specs.Blocks.{wide_read, first_wide_readable, wide_language_by};

use crate::faults::is_of_memory;
use crate::letters::{LANGUAGES, is_unknown_move};
use std::alloc::{AllocError, Allocator};
use study_board::Side;
use study_games::{Language, in_english};
use study_marks::{Goal, Stipulation};
use study_reading::{GameReading, MovesFault, Notes, Reading};
use study_tails::{FollowedStudy, WideStudy, begin_wide_game, copied_start};
use study_wide_text::WideStart;

/// What was read of a game: its study, the notes, and the text behind the result.
#[derive(Drop)]
pub struct WideGame<'t, 'a, A: Allocator> {
    pub study: WideStudy<'a, A>,
    pub notes: Notes,
    pub behind: &'t [u8],
}

/// The study that was followed.
fn study_of<'a, A: Allocator>(game: GameReading<'a, FollowedStudy<'a, A>, A>) -> WideStudy<'a, A>
    ensures { result ≡ game.entry.reading.study }
{
    let GameReading { reading, .. } = game;
    let Reading { study, .. } = reading;
    study.into_study()
}

/// Reads the moves of a game with this start up to its result, or the first fault.
#[tactic(auto, using(crate::proofs::WideReading::read_fault_is))]
pub fn read_wide<'t, 'a, A: Allocator>(
    alloc: &'a A,
    text: &'t [u8],
    start: &WideStart,
) -> Result<Result<WideGame<'t, 'a, A>, MovesFault>, AllocError>
    ensures { IfOk result (λ r. MatchResult r
        (λ g. Ok (record { study = g.study; notes = g.notes; behind = g.behind.now })
        ≡ wide_read text.now start.now)
        (λ fault. Err fault ≡ wide_read text.now start.now)) }
{
    let any = Stipulation {
        hero: Side::White,
        goal: Goal::Win,
    };
    let mut game = begin_wide_game(alloc, copied_start(start), any);
    match game.read_whole(text) {
        Ok(behind) => {
            let notes = game.notes;
            Ok(Ok(WideGame {
                study: study_of(game),
                notes,
                behind,
            }))
        }
        Err(fault) if is_of_memory(fault.why) => Err(AllocError),
        Err(fault) => Ok(Err(fault)),
    }
}

/// Whether the moves of a text are read to the end.
fn is_whole<'a, A: Allocator>(
    alloc: &'a A,
    text: &[u8],
    start: &WideStart,
) -> Result<bool, AllocError>
    ensures { IfOk result (λ is. is ≡ is_ok (wide_read text.now start.now)) }
{
    Ok(read_wide(alloc, text, start)?.is_ok())
}

/// Whether the moves of a game are read to the end in letters of this language.
fn is_readable<'a, A: Allocator>(
    alloc: &'a A,
    language: Language,
    text: &[u8],
    start: &WideStart,
) -> Result<bool, AllocError>
    ensures { IfOk result (λ is. is ≡ is_ok (wide_read (in_english language text.now) start.now)) }
{
    let english = in_english(alloc, text, language)?;
    is_whole(alloc, english.as_slice(), start)
}

/// The first of these languages in whose letters the moves of a game are read to the end.
fn first_readable<'a, A: Allocator>(
    alloc: &'a A,
    languages: &[Language],
    text: &[u8],
    start: &WideStart,
) -> Result<Option<Language>, AllocError>
    ensures { IfOk result (λ language.
        language ≡ first_wide_readable languages.now text.now start.now) }
{
    let mut rest = languages;
    while let [language, more @ ..] = rest {
        if is_readable(alloc, *language, text, start)? {
            return Ok(Some(*language));
        }
        rest = more;
    }
    Ok(None)
}

/// The language of a game's letters, if it is read in them and not in English, where it has this fault.
pub fn wide_language<'a, A: Allocator>(
    alloc: &'a A,
    text: &[u8],
    start: &WideStart,
    fault: &MovesFault,
) -> Result<Option<Language>, AllocError>
    ensures { IfOk result (λ language.
        language ≡ wide_language_by text.now start.now (Err fault.now)) }
{
    if is_unknown_move(fault.why) {
        first_readable(alloc, &LANGUAGES, text, start)
    } else {
        Ok(None)
    }
}
