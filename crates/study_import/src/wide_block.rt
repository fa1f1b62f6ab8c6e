//! The text written for a game whose start has more than four men, or a right to castle.
ghost use Rattle.std.specs.Prelude.{◌≡◌, ◌≤◌, ◌-◌, OnOk, Some, Err, is_ok, length};
ghost use Rattle.study_games.specs.Header.{tags_of};
ghost use Rattle.study_tails.specs.Tails.{tail};
ghost use Rattle.study_import.specs.Blocks.{entry_seen, reported_seen, aim_of_game, sources_of, no_study, left_out};
ghost use Rattle.study_import.specs.Blocks.{wide_read, wide_study, wide_reported, studies_among, tails_block, no_tails_words};
ghost use Rattle.study_import.specs.Blocks.{followed_block, followed_up_to, wide_sourced, wide_aimed_up_to, wide_up_to, wide_faulty};
ghost use Rattle.study_import.specs.Blocks.{wide_moves_block, wide_read_block, wide_language_of, text_up_to};
ghost use Rattle.study_import.specs.BlocksRead.{Adds};

use crate::block::{Reported, Setting, add_head, add_remarks, new_nodes, sources_of};
use crate::cut_off::text_up_to;
use crate::faults::{add_left_out, add_not_read, add_stop};
use crate::places::Entry;
use crate::tags::set_tags;
use crate::wide_game::{WideGame, read_wide, wide_language};
use std::alloc::{AllocError, Allocator};
use study_games::{Language, in_english};
use study_marks::Stipulation;
use study_reading::{Aim, MovesFault, aim_by_sources, unaimed_words};
use study_tails::{GameLeftOut, WideStudy, add_game_reason, add_wide_text, game_reason};
use study_text::Text;
use study_tree::Path;
use study_wide_text::WideStart;

/// Sets the stipulation and the six tags of a game.
#[tactic(auto, unfolding(crate::specs::Blocks::wide_study))]
fn complete<'a, A: Allocator>(
    alloc: &'a A,
    study: &mut WideStudy<'a, A>,
    game: &[u8],
    stipulation: Stipulation,
) -> Result<(), AllocError>
    ensures { OnOk result (study.new ≡ wide_study (tags_of game.now) stipulation study.old) }
{
    study.set_stipulation(stipulation);
    set_tags(alloc, study, game)
}

/// What was read of a game, in letters of this language if they are not English, except its study.
fn wide_reported<'t, 'a, A: Allocator>(
    game: &WideGame<'t, 'a, A>,
    language: Option<Language>,
) -> Reported<'t>
    ensures { reported_seen result ≡ wide_reported language
        (record { study = game.now.study; notes = game.now.notes; behind = game.now.behind.now }) }
{
    Reported {
        language,
        notes: game.notes,
        repeated: game
            .notes
            .moves
            .saturating_sub(new_nodes(game.study.size())),
        behind: game.behind,
        inserts: b"",
    }
}

/// How many of these tails are studies.
fn count_studies<'a, A: Allocator>(study: &WideStudy<'a, A>, paths: &[Path<'a, A>]) -> usize
    ensures value { result ≡ studies_among study.now paths.now }
    ensures few { result ≤ length paths.now }
{
    let mut n: usize = 0;
    let mut rest = paths;
    while let [path, more @ ..] = rest {
        if study.tail(path.steps()).is_ok() {
            n += 1;
        }
        rest = more;
    }
    n
}

/// Adds the study in remarks and the blocks of its tails. Returns the number of studies.
#[tactic(auto, unfolding(crate::specs::Blocks::tails_block))]
fn add_tails<'a, A: Allocator>(
    alloc: &'a A,
    out: &mut Text<'_, A>,
    entry: &Entry<'_>,
    aim: &Aim,
    reported: &Reported<'_>,
    study: &WideStudy<'a, A>,
) -> Result<u32, AllocError>
    ensures { Adds result out.old out.new
        (tails_block (entry_seen entry.now) aim.now (reported_seen reported.now) study.now) }
{
    add_head(out, entry, aim)?;
    add_remarks(alloc, out, entry, reported)?;
    add_wide_text(alloc, out, study, entry.number)?;
    let paths = study.tails(alloc)?;
    Ok(count_studies(study, paths.as_slice()) as u32)
}

/// Adds the line that a game has no tail, or too many.
fn add_no_tails<'a, A: Allocator>(
    alloc: &'a A,
    out: &mut Text<'_, A>,
    entry: &Entry<'_>,
    study: &WideStudy<'a, A>,
    why: GameLeftOut,
) -> Result<u32, AllocError>
    ensures { Adds result out.old out.new
        (no_study (left_out (entry_seen entry.now) (no_tails_words study.now why))) }
{
    let mut words = Text::new(alloc);
    words.add(b"left out: ")?;
    add_game_reason(&mut words, study.start().position.men().len() as u32, why)?;
    add_left_out(alloc, out, entry, words.as_slice())
}

/// Adds the study in remarks and the blocks of its tails, or why there are none.
fn add_followed<'a, A: Allocator>(
    alloc: &'a A,
    out: &mut Text<'_, A>,
    entry: &Entry<'_>,
    aim: &Aim,
    reported: &Reported<'_>,
    study: &WideStudy<'a, A>,
) -> Result<u32, AllocError>
    ensures { Adds result out.old out.new
        (followed_block (entry_seen entry.now) aim.now (reported_seen reported.now) study.now) }
{
    match game_reason(alloc, study)? {
        Some(why) => add_no_tails(alloc, out, entry, study, why),
        None => add_tails(alloc, out, entry, aim, reported, study),
    }
}

/// Adds the blocks of a game whose moves are read, or the line that it has no stipulation.
fn add_wide_aimed<'a, A: Allocator>(
    alloc: &'a A,
    out: &mut Text<'_, A>,
    setting: &Setting<'_>,
    start: &WideStart,
    language: Option<Language>,
    game: &mut WideGame<'_, 'a, A>,
) -> Result<u32, AllocError>
    ensures { Adds result out.old out.new
        (wide_sourced (entry_seen setting.now.entry)
        (wide_reported language (record {
          study = game.old.study;
          notes = game.old.notes;
          behind = game.old.behind.now;
        }))
        game.old.study
        (sources_of setting.now.choice.given
        (tags_of setting.now.entry.text.now) start.now.position.board.to_move game.old.notes)) }
{
    let entry = &setting.entry;
    let given = setting.choice.given;
    let to_move = start.position.to_move();
    let sources = sources_of(alloc, given, entry.text, to_move, &game.notes)?;
    match aim_by_sources(&sources) {
        Some(aim) => {
            let reported = wide_reported(game, language);
            complete(alloc, &mut game.study, entry.text, aim.stipulation)?;
            add_followed(alloc, out, entry, &aim, &reported, &game.study)
        }
        None => add_left_out(alloc, out, entry, unaimed_words(&sources)),
    }
}

/// Adds the blocks of a game up to this fault, or the fault if there are none.
fn add_followed_up_to<'a, A: Allocator>(
    alloc: &'a A,
    out: &mut Text<'_, A>,
    entry: &Entry<'_>,
    fault: &MovesFault,
    aim: &Aim,
    read: (&Reported<'_>, &WideStudy<'a, A>),
) -> Result<u32, AllocError>
    ensures { Adds result out.old out.new
        (followed_up_to (entry_seen entry.now) fault.now aim.now
        (reported_seen read.entry.0.now) read.entry.1.now) }
{
    let (reported, study) = read;
    match game_reason(alloc, study)? {
        Some(_) => add_stop(alloc, out, entry, fault),
        None => {
            add_not_read(alloc, out, entry, fault)?;
            add_tails(alloc, out, entry, aim, reported, study)
        }
    }
}

/// Adds the blocks of a game up to this fault, or the fault if the game states no stipulation.
fn add_wide_aimed_up_to<'a, A: Allocator>(
    alloc: &'a A,
    out: &mut Text<'_, A>,
    setting: &Setting<'_>,
    start: &WideStart,
    fault: &MovesFault,
    game: &mut WideGame<'_, 'a, A>,
) -> Result<u32, AllocError>
    ensures { Adds result out.old out.new
        (wide_aimed_up_to (entry_seen setting.now.entry) fault.now (record {
          study = game.old.study;
          notes = game.old.notes;
          behind = game.old.behind.now;
        })
        (aim_of_game setting.now.choice.given
        (tags_of setting.now.entry.text.now) start.now.position.board.to_move game.old.notes)) }
{
    let entry = &setting.entry;
    let given = setting.choice.given;
    let to_move = start.position.to_move();
    let sources = sources_of(alloc, given, entry.text, to_move, &game.notes)?;
    match aim_by_sources(&sources) {
        Some(aim) => {
            let read = wide_reported(game, None);
            let reported = Reported {
                behind: b"",
                ..read
            };
            complete(alloc, &mut game.study, entry.text, aim.stipulation)?;
            let read = (&reported, &game.study);
            add_followed_up_to(alloc, out, entry, fault, &aim, read)
        }
        None => add_stop(alloc, out, entry, fault),
    }
}

/// Adds the blocks of a game up to this fault, where its text is so, or the fault if there are none.
fn add_wide_front<'a, A: Allocator>(
    alloc: &'a A,
    out: &mut Text<'_, A>,
    setting: &Setting<'_>,
    start: &WideStart,
    fault: &MovesFault,
    text: &[u8],
) -> Result<u32, AllocError>
    ensures { Adds result out.old out.new
        (wide_up_to setting.now.choice.given (entry_seen setting.now.entry) start.now fault.now
        (wide_read text.now start.now)) }
{
    match read_wide(alloc, text, start)? {
        Ok(mut game) => add_wide_aimed_up_to(alloc, out, setting, start, fault, &mut game),
        Err(_) => add_stop(alloc, out, &setting.entry, fault),
    }
}

/// Adds the blocks of a game up to this fault, or the fault if there are none.
fn add_wide_up_to<'a, A: Allocator>(
    alloc: &'a A,
    out: &mut Text<'_, A>,
    setting: &Setting<'_>,
    start: &WideStart,
    fault: &MovesFault,
) -> Result<u32, AllocError>
    ensures { Adds result out.old out.new
        (wide_up_to setting.now.choice.given (entry_seen setting.now.entry) start.now fault.now
        (wide_read (text_up_to setting.now.entry.text.now fault.now.left) start.now)) }
{
    let text = text_up_to(alloc, setting.entry.text, fault.left)?;
    add_wide_front(alloc, out, setting, start, fault, text.as_slice())
}

/// Adds the blocks of a game with this fault among its moves up to there, if that is wanted, or else the fault.
#[tactic(auto, unfolding(crate::specs::Blocks::wide_faulty))]
fn add_wide_faulty<'a, A: Allocator>(
    alloc: &'a A,
    out: &mut Text<'_, A>,
    setting: &Setting<'_>,
    start: &WideStart,
    fault: &MovesFault,
) -> Result<u32, AllocError>
    ensures { Adds result out.old out.new
        (wide_faulty setting.now.choice (entry_seen setting.now.entry) start.now fault.now) }
{
    if setting.choice.up_to_faults {
        add_wide_up_to(alloc, out, setting, start, fault)
    } else {
        add_stop(alloc, out, &setting.entry, fault)
    }
}

/// Adds the blocks of a game in letters of this language, which is so in English letters, or its first fault.
fn add_wide_english<'a, A: Allocator>(
    alloc: &'a A,
    out: &mut Text<'_, A>,
    setting: &Setting<'_>,
    start: &WideStart,
    language: Language,
    english: &[u8],
) -> Result<u32, AllocError>
    ensures { Adds result out.old out.new
        (wide_read_block setting.now.choice (entry_seen setting.now.entry) start.now
        (Some language) (wide_read english.now start.now)) }
{
    match read_wide(alloc, english, start)? {
        Ok(mut game) => add_wide_aimed(alloc, out, setting, start, Some(language), &mut game),
        Err(fault) => add_wide_faulty(alloc, out, setting, start, &fault),
    }
}

/// Adds the blocks of a game in letters of this language, or its first fault.
fn add_wide_foreign<'a, A: Allocator>(
    alloc: &'a A,
    out: &mut Text<'_, A>,
    setting: &Setting<'_>,
    start: &WideStart,
    language: Language,
) -> Result<u32, AllocError>
    ensures { Adds result out.old out.new
        (wide_moves_block setting.now.choice (entry_seen setting.now.entry) start.now
        (Some language)) }
{
    let english = in_english(alloc, setting.entry.text, language)?;
    add_wide_english(alloc, out, setting, start, language, english.as_slice())
}

/// Adds the blocks of a game that has this fault in English letters: in those of another language, or the fault.
fn add_wide_unread<'a, A: Allocator>(
    alloc: &'a A,
    out: &mut Text<'_, A>,
    setting: &Setting<'_>,
    start: &WideStart,
    fault: &MovesFault,
) -> Result<u32, AllocError>
    ensures { wide_read setting.now.entry.text.now start.now ≡ Err fault.now
        → Adds result out.old out.new
        (wide_moves_block setting.now.choice (entry_seen setting.now.entry) start.now
        (wide_language_of setting.now.entry.text.now start.now)) }
{
    match wide_language(alloc, setting.entry.text, start, fault)? {
        Some(language) => add_wide_foreign(alloc, out, setting, start, language),
        None => add_wide_faulty(alloc, out, setting, start, fault),
    }
}

/// Adds the blocks of a game with this start, or its first fault.
pub fn add_wide_read<'a, A: Allocator>(
    alloc: &'a A,
    out: &mut Text<'_, A>,
    setting: &Setting<'_>,
    start: &WideStart,
) -> Result<u32, AllocError>
    ensures { Adds result out.old out.new
        (wide_moves_block setting.now.choice (entry_seen setting.now.entry) start.now
        (wide_language_of setting.now.entry.text.now start.now)) }
{
    match read_wide(alloc, setting.entry.text, start)? {
        Ok(mut game) => add_wide_aimed(alloc, out, setting, start, None, &mut game),
        Err(fault) => add_wide_unread(alloc, out, setting, start, &fault),
    }
}
