//! The text written for a game.
ghost use Rattle.std.specs.Prelude.{◌≡◌, ◌≤◌, ◌++◌, ◌-◌, true, codes, count_by, Some, Err, OnOk, IfOk};
ghost use Rattle.std.specs.List.{list_all};
ghost use Rattle.std.specs.Option.{option_map};
ghost use Rattle.study_notation.specs.Fen.{start_of};
ghost use Rattle.study_wide_text.specs.Fen.{wide_start_of};
ghost use Rattle.study_marks.specs.Edits.{is_printable};
ghost use Rattle.study_marks.specs.Study.{plain_study};
ghost use Rattle.study_marks.specs.BenchState.{marked_study};
ghost use Rattle.study_games.specs.Bytes.{is_letter};
ghost use Rattle.study_games.specs.Words.{first_word};
ghost use Rattle.study_games.specs.Games.{game_seen};
ghost use Rattle.study_games.specs.Header.{tags_of, header_fault, value_of};
ghost use Rattle.study_reading.specs.Notes.{game_of};
ghost use Rattle.study_reading.specs.Aims.{or_stipulation, signed_by};
ghost use Rattle.study_import.specs.Blocks.{entry_seen, repeated_moves, behind_line, stipulation_line, source_line};
ghost use Rattle.study_import.specs.Blocks.{doubt_line, doubt_lines, head_line, tag_unread, sources_of, sourced_block, repeated_name, repeated_words, single_block};
ghost use Rattle.study_import.specs.Blocks.{position_line, counts_line, counted_words, other_tags, remark_lines, study_lines, block_lines};
ghost use Rattle.study_import.specs.Blocks.{tag_aim, result_of, reported_seen, reported_of};
ghost use Rattle.study_import.specs.Blocks.{letters_line};
ghost use Rattle.study_import.specs.Blocks.{at_most, men_in, no_study, left_out, fen_words, wide_block, start_block, fen_in, fen_block, header_block, block_of};
ghost use Rattle.study_import.specs.BlocksRead.{Adds};

use crate::counts::{add_counted, add_counts_line, other_tags};
use crate::faults::{add_fault, add_left_out, token_name};
use crate::game::few_men::FewMen;
use crate::importer::Choice;
use crate::letters::add_read;
use crate::masks::{Mask, add_masked};
use crate::places::{Entry, Place, at_most, place_in};
use crate::tags::{add_tag_lines, add_was_lines};
use crate::wide_block::add_wide_read;
use std::alloc::{AllocError, Allocator};
use study_board::Side;
use study_command::as_text;
use study_games::bytes::is_letter;
use study_games::{
    Game, Language, Outcome, Run, count_named, count_tags, cut_run, header_fault, in_english,
    language_name, next_word, tag_value, unescape,
};
use study_marks::{Bench, Stipulation};
use study_notation::{FenFault, Start, read_fen, write_fen};
use study_reading::{
    Aim, Doubts, GameReading, Notes, Sources, aim_by_sources, aim_stated, is_unread_tag,
    outcome_of_tag, signed_by, unaimed_words,
};
use study_remark::{Doubt, Remark, Subject, add_remark};
use study_reply::Refusal;
use study_text::{Piece, Text, add_pieces};
use study_wide_text::read_wide_fen;

/// The initial position of a game.
const INITIAL_FEN: &[u8] = b"rnbqkbnr/pppppppp/8/8/8/8/PPPPPPPP/RNBQKBNR w KQkq - 0 1";

fn add_stipulation<A: Allocator>(
    out: &mut Text<'_, A>,
    stipulation: &Stipulation,
) -> Result<(), AllocError>
    ensures { OnOk result (out.new ≡ out.old ++ stipulation_line stipulation.now) }
{
    study_tails::add_stipulation(out, b"", stipulation)
}

fn add_source<A: Allocator>(
    out: &mut Text<'_, A>,
    entry: &Entry<'_>,
    aim: &Aim,
) -> Result<(), AllocError>
    ensures { OnOk result (out.new ≡ out.old ++ source_line (entry_seen entry.now) aim.now) }
{
    let subject = Subject {
        game: entry.number,
        line: entry.line,
        column: None,
        author: b"",
    };
    add_remark(out, &Remark::Stipulated(subject, aim.source))
}

/// Adds the line of a doubt, if there is this one.
fn add_doubt<A: Allocator>(
    out: &mut Text<'_, A>,
    doubted: bool,
    why: Doubt,
) -> Result<(), AllocError>
    ensures { OnOk result (out.new ≡ out.old ++ doubt_line doubted why) }
{
    if doubted {
        add_remark(out, &Remark::Doubted(why))
    } else {
        Ok(())
    }
}

/// Adds a line for each source that is not understood, or states another result.
#[tactic(auto, unfolding(crate::specs::Blocks::doubt_lines))]
fn add_doubts<A: Allocator>(out: &mut Text<'_, A>, doubts: &Doubts) -> Result<(), AllocError>
    ensures { OnOk result (out.new ≡ out.old ++ doubt_lines doubts.now) }
{
    add_doubt(out, doubts.comment_unread, Doubt::CommentUnread)?;
    add_doubt(out, doubts.tag_unread, Doubt::TagUnread)?;
    add_doubt(out, doubts.tag_differs, Doubt::TagDiffers)?;
    add_doubt(out, doubts.result_tag_differs, Doubt::ResultTagDiffers)?;
    add_doubt(out, doubts.result_differs, Doubt::ResultDiffers)
}

pub fn add_head<A: Allocator>(
    out: &mut Text<'_, A>,
    entry: &Entry<'_>,
    aim: &Aim,
) -> Result<(), AllocError>
    ensures { OnOk result (out.new ≡ out.old ++ head_line (entry_seen entry.now) aim.now) }
{
    add_source(out, entry, aim)?;
    add_doubts(out, &aim.doubts)
}

#[tactic(auto, unfolding(crate::specs::Blocks::position_line))]
fn add_position<A: Allocator>(out: &mut Text<'_, A>, start: &Start) -> Result<(), AllocError>
    ensures { OnOk result (out.new ≡ out.old ++ position_line start.now) }
{
    let fen = write_fen(start);
    add_pieces(
        out,
        &[
            Piece::Bytes(b"position "),
            Piece::Bytes(fen.as_str().as_bytes()),
            Piece::Bytes(b"\n"),
        ],
    )
}

/// Adds the place of the text after the result, if there is any.
#[tactic(auto, unfolding(crate::specs::Blocks::behind_line))]
fn add_behind<A: Allocator>(
    out: &mut Text<'_, A>,
    entry: &Entry<'_>,
    behind: &[u8],
) -> Result<(), AllocError>
    ensures { OnOk result (out.new ≡ out.old ++ behind_line (entry_seen entry.now) behind.now) }
{
    let (_, unread) = cut_run(Run::Blanks, behind);
    if unread.is_empty() {
        return Ok(());
    }
    let place = place_in(entry, unread.len());
    add_remark(out, &Remark::BehindResult(place.line, place.column))
}

/// What was read of a game, except its start.
#[derive(Clone, Copy)]
pub struct Reported<'t> {
    /// The language of its letters, if it is not English.
    pub language: Option<Language>,
    pub notes: Notes,
    /// The number of played moves that are not new nodes.
    pub repeated: u32,
    /// The text after the result.
    pub behind: &'t [u8],
    /// The lines that make the tree.
    pub inserts: &'t [u8],
}

/// What was read of a game, in letters of this language if they are not English.
pub fn reported_of<'t, 'a, A: Allocator>(
    game: &'t GameReading<'a, FewMen<'a, A>, A>,
    language: Option<Language>,
    behind: &'t [u8],
) -> Reported<'t>
    ensures { let read = game_of (plain_study (marked_study game.now.reading.study.bench))
        game.now.reading.lines.path.items game.now.reading.lines.begun
        game.now.reading.lines.waiting.items game.now.reading.lines.cut
        game.now.reading.inserts game.now.notes in
        reported_seen result ≡ reported_of language (record { game = read; behind = behind.now }) }
{
    Reported {
        language,
        notes: game.notes,
        repeated: repeated_moves(&game.notes, &game.reading.study.bench),
        behind,
        inserts: game.reading.inserts.as_slice(),
    }
}

/// The number of played moves that are not new nodes.
fn repeated_moves<'a, A: Allocator>(notes: &Notes, bench: &Bench<'a, A>) -> u32
    ensures { result ≡ repeated_moves notes.now (plain_study (marked_study bench.now)) }
{
    notes.moves.saturating_sub(new_nodes(bench.size()))
}

/// The number of nodes of a tree besides its root.
pub fn new_nodes(size: usize) -> u32
    requires { size ≤ 4096 }
    ensures { result ≡ size - 1 }
{
    if size == 0 { 0 } else { size as u32 - 1 }
}

/// Adds the line with the counts of what the script omits, if there are any.
fn add_counts<'a, A: Allocator>(
    alloc: &'a A,
    out: &mut Text<'_, A>,
    game: &[u8],
    reported: &Reported<'_>,
) -> Result<(), AllocError>
    ensures { OnOk result (out.new ≡ out.old
        ++ counts_line
        (counted_words reported.now.notes (other_tags (tags_of game.now)) reported.now.repeated)) }
{
    let mut words = Text::new(alloc);
    add_counted(
        &mut words,
        &reported.notes,
        other_tags(game),
        reported.repeated,
    )?;
    add_counts_line(out, words.as_slice())
}

/// Adds the language of the letters, if it is not English.
fn add_letters<A: Allocator>(
    out: &mut Text<'_, A>,
    language: Option<Language>,
) -> Result<(), AllocError>
    ensures { OnOk result (out.new ≡ out.old ++ letters_line language) }
{
    match language {
        None => Ok(()),
        Some(language) => add_remark(out, &Remark::Letters(language_name(language))),
    }
}

#[tactic(auto, unfolding(crate::specs::Blocks::remark_lines))]
pub fn add_remarks<'a, A: Allocator>(
    alloc: &'a A,
    out: &mut Text<'_, A>,
    entry: &Entry<'_>,
    reported: &Reported<'_>,
) -> Result<(), AllocError>
    ensures { OnOk result (out.new ≡ out.old
        ++ remark_lines (entry_seen entry.now) (reported_seen reported.now)) }
{
    add_letters(out, reported.language)?;
    add_counts(alloc, out, entry.text, reported)?;
    add_behind(out, entry, reported.behind)?;
    add_was_lines(alloc, out, entry.text)
}

#[tactic(auto, unfolding(crate::specs::Blocks::study_lines))]
fn add_study<'a, A: Allocator>(
    alloc: &'a A,
    out: &mut Text<'_, A>,
    entry: &Entry<'_>,
    start: &Start,
    stipulation: &Stipulation,
    inserts: &[u8],
) -> Result<(), AllocError>
    ensures { OnOk result (out.new ≡ out.old
        ++ study_lines (entry_seen entry.now) start.now stipulation.now inserts.now) }
{
    add_position(out, start)?;
    add_stipulation(out, stipulation)?;
    add_tag_lines(alloc, out, entry.text)?;
    add_pieces(out, &[Piece::Bytes(inserts), Piece::Bytes(b"pgn\n\n")])
}

/// What a tag Stipulation states, and whether it is neither read nor unknown.
#[derive(Clone, Copy)]
struct TagAim {
    aim: Option<Stipulation>,
    unread: bool,
}

fn tag_aim<'a, A: Allocator>(
    alloc: &'a A,
    to_move: Side,
    raw: Option<&[u8]>,
) -> Result<TagAim, AllocError>
    ensures aim { IfOk result (λ tag.
        tag.aim ≡ tag_aim to_move (option_map (λ v. v.now) raw.entry)) }
    ensures unread { IfOk result (λ tag.
        tag.unread ≡ tag_unread (option_map (λ v. v.now) raw.entry)) }
{
    match raw {
        None => Ok(TagAim {
            aim: None,
            unread: false,
        }),
        Some(raw) => {
            let value = unescape(alloc, raw)?;
            Ok(TagAim {
                aim: aim_stated(value.as_slice(), to_move),
                unread: is_unread_tag(value.as_slice()),
            })
        }
    }
}

fn result_of(raw: Option<&[u8]>) -> Option<Outcome>
    ensures { result ≡ result_of (option_map (λ v. v.now) raw.entry) }
{
    match raw {
        Some(value) => outcome_of_tag(value),
        None => None,
    }
}

/// The stipulation in the opening comment.
fn comment_aim(to_move: Side, notes: &Notes) -> Option<Stipulation>
    ensures { result ≡ or_stipulation notes.now.opening (signed_by to_move notes.now.opening_goal) }
{
    match notes.opening {
        Some(aim) => Some(aim),
        None => signed_by(to_move, notes.opening_goal),
    }
}

/// What each source of a game's stipulation states.
#[tactic(auto, unfolding(crate::specs::Blocks::sources_of))]
pub fn sources_of<'a, A: Allocator>(
    alloc: &'a A,
    given: Option<Stipulation>,
    game: &[u8],
    to_move: Side,
    notes: &Notes,
) -> Result<Sources, AllocError>
    ensures { IfOk result (λ sources.
        sources ≡ sources_of given (tags_of game.now) to_move notes.now) }
{
    let tag = tag_aim(alloc, to_move, tag_value(game, b"Stipulation"))?;
    Ok(Sources {
        comment: comment_aim(to_move, notes),
        comment_unread: notes.opening_unread,
        tag: tag.aim,
        tag_unread: tag.unread,
        result_tag: result_of(tag_value(game, b"Result")),
        result: notes.outcome,
        given,
    })
}

/// Adds the block of a game with this stipulation.
#[tactic(auto, unfolding(crate::specs::Blocks::block_lines))]
pub fn add_block<'a, A: Allocator>(
    alloc: &'a A,
    out: &mut Text<'_, A>,
    entry: &Entry<'_>,
    start: &Start,
    aim: &Aim,
    reported: &Reported<'_>,
) -> Result<(), AllocError>
    ensures { OnOk result (out.new ≡ out.old
        ++ block_lines (entry_seen entry.now) start.now aim.now (reported_seen reported.now)) }
{
    add_head(out, entry, aim)?;
    add_remarks(alloc, out, entry, reported)?;
    add_study(alloc, out, entry, start, &aim.stipulation, reported.inserts)
}

/// A game before its moves are read, and how the caller wants it.
#[derive(Clone, Copy)]
pub struct Setting<'t> {
    pub choice: Choice,
    pub entry: Entry<'t>,
}

/// Adds the block of a game whose moves are read, or the line that it has no stipulation.
pub fn add_aimed<'a, A: Allocator>(
    alloc: &'a A,
    out: &mut Text<'_, A>,
    setting: &Setting<'_>,
    start: &Start,
    reported: &Reported<'_>,
) -> Result<u32, AllocError>
    ensures { Adds result out.old out.new
        (sourced_block (entry_seen setting.now.entry) start.now (reported_seen reported.now)
        (sources_of setting.now.choice.given
        (tags_of setting.now.entry.text.now) start.now.position.to_move reported.now.notes)) }
{
    let entry = &setting.entry;
    let to_move = start.position.to_move();
    let sources = sources_of(
        alloc,
        setting.choice.given,
        entry.text,
        to_move,
        &reported.notes,
    )?;
    match aim_by_sources(&sources) {
        Some(aim) => {
            add_block(alloc, out, entry, start, &aim, reported)?;
            Ok(1)
        }
        None => add_left_out(alloc, out, entry, unaimed_words(&sources)),
    }
}

/// The number of men that the first field of a FEN places.
fn men_in(fen: &[u8]) -> u32
    ensures { result ≡ at_most (men_in (first_word fen.now)) }
{
    match next_word(fen) {
        None => 0,
        Some((placement, _)) => at_most(letters_in(placement)),
    }
}

fn letters_in(text: &[u8]) -> usize
    ensures { result ≡ count_by is_letter text.now }
{
    let mut n: usize = 0;
    let mut rest = text;
    while let [first, more @ ..] = rest {
        if is_letter(*first) {
            n += 1;
        }
        rest = more;
    }
    n
}

/// Adds the line that a game's FEN is refused.
fn add_fen_fault<'a, A: Allocator>(
    alloc: &'a A,
    out: &mut Text<'_, A>,
    entry: &Entry<'_>,
    fen: &[u8],
    fault: FenFault,
) -> Result<u32, AllocError>
    ensures { Adds result out.old out.new
        (no_study (left_out (entry_seen entry.now) (fen_words fen.now fault))) }
{
    let mut words = Text::new(alloc);
    add_fen_words(&mut words, fen, fault)?;
    add_left_out(alloc, out, entry, words.as_slice())
}

fn add_fen_words<A: Allocator>(
    out: &mut Text<'_, A>,
    fen: &[u8],
    fault: FenFault,
) -> Result<(), AllocError>
    ensures { OnOk result (out.new ≡ out.old ++ fen_words fen.now fault) }
{
    if fault != FenFault::TooManyMen {
        return out.add(Refusal::Fen(fault).name());
    }
    add_pieces(
        out,
        &[
            Piece::Bytes(b"left out: "),
            Piece::Number(men_in(fen)),
            Piece::Bytes(b" men"),
        ],
    )
}

/// Adds the blocks of a game with this FEN, read by the rules for any number of men, or why there are none.
fn add_wide_start<'a, A: Allocator>(
    alloc: &'a A,
    out: &mut Text<'_, A>,
    setting: &Setting<'_>,
    fen: &[u8],
) -> Result<u32, AllocError>
    requires { list_all is_printable fen.now ≡ true }
    ensures { Adds result out.old out.new
        (wide_block setting.now.choice (entry_seen setting.now.entry) fen.now
        (wide_start_of fen.now)) }
{
    match read_wide_fen(as_text(fen)) {
        Ok(start) => add_wide_read(alloc, out, setting, &start),
        Err(fault) => add_fen_fault(alloc, out, &setting.entry, fen, fault),
    }
}

/// Adds the block of a game with this FEN, or why there is none.
pub fn add_start<'a, A: Allocator>(
    alloc: &'a A,
    out: &mut Text<'_, A>,
    setting: &Setting<'_>,
    fen: &[u8],
) -> Result<u32, AllocError>
    requires { list_all is_printable fen.now ≡ true }
    ensures { Adds result out.old out.new
        (start_block setting.now.choice (entry_seen setting.now.entry) fen.now (start_of fen.now)) }
{
    match read_fen(as_text(fen)) {
        Ok(start) => add_read(alloc, out, setting, &start),
        Err(FenFault::TooManyMen | FenFault::Castling) => {
            add_wide_start(alloc, out, setting, fen)
        }
        Err(fault) => add_fen_fault(alloc, out, &setting.entry, fen, fault),
    }
}

/// The FEN that a tag's value spells.
#[tactic(auto, using(crate::proofs::Printed::all_printed))]
pub fn fen_in<'a, A: Allocator>(alloc: &'a A, raw: &[u8]) -> Result<Text<'a, A>, AllocError>
    ensures text { IfOk result (λ fen. fen ≡ fen_in raw.now) }
    ensures prints { IfOk result (λ fen. list_all is_printable fen ≡ true) }
{
    let value = unescape(alloc, raw)?;
    let mut out = Text::new(alloc);
    add_masked(&mut out, Mask::Printed, value.as_slice())?;
    Ok(out)
}

/// A name that each game has once, and this header twice.
#[tactic(auto, unfolding(crate::specs::Blocks::repeated_name))]
fn repeated_name(game: &[u8]) -> Option<&'static [u8]>
    ensures { option_map (λ name. name.now) result ≡ repeated_name (tags_of game.now) }
{
    if count_named(game, b"FEN") >= 2 {
        return Some(b"FEN");
    }
    if count_named(game, b"White") >= 2 {
        return Some(b"White");
    }
    if count_named(game, b"Result") >= 2 {
        return Some(b"Result");
    }
    None
}

#[tactic(auto, unfolding(crate::specs::Blocks::repeated_words))]
fn add_repeated_words<A: Allocator>(out: &mut Text<'_, A>, name: &[u8]) -> Result<(), AllocError>
    ensures { OnOk result (out.new ≡ out.old ++ repeated_words name.now) }
{
    out.add(b"TagTwice at ")?;
    out.add(name)
}

/// Adds the line that a game's header has two tags of this name.
fn add_repeated<'a, A: Allocator>(
    alloc: &'a A,
    out: &mut Text<'_, A>,
    entry: &Entry<'_>,
    name: &[u8],
) -> Result<u32, AllocError>
    ensures { Adds result out.old out.new
        (no_study (left_out (entry_seen entry.now) (repeated_words name.now))) }
{
    let mut words = Text::new(alloc);
    add_repeated_words(&mut words, name)?;
    add_left_out(alloc, out, entry, words.as_slice())
}

/// Adds the block of a game by its FEN, or why there is none.
fn add_by_fen<'a, A: Allocator>(
    alloc: &'a A,
    out: &mut Text<'_, A>,
    setting: &Setting<'_>,
) -> Result<u32, AllocError>
    ensures { Adds result out.old out.new
        (fen_block setting.now.choice (entry_seen setting.now.entry)
        (value_of (codes "FEN") (tags_of setting.now.entry.text.now))) }
{
    match tag_value(setting.entry.text, b"FEN") {
        None => add_wide_start(alloc, out, setting, INITIAL_FEN),
        Some(raw) => {
            let fen = fen_in(alloc, raw)?;
            add_start(alloc, out, setting, fen.as_slice())
        }
    }
}

/// Adds the block of a game that has tags, or why there is none.
fn add_tagged<'a, A: Allocator>(
    alloc: &'a A,
    out: &mut Text<'_, A>,
    setting: &Setting<'_>,
) -> Result<u32, AllocError>
    ensures { Adds result out.old out.new
        (single_block setting.now.choice (entry_seen setting.now.entry)
        (tags_of setting.now.entry.text.now)
        (repeated_name (tags_of setting.now.entry.text.now))) }
{
    match repeated_name(setting.entry.text) {
        Some(name) => add_repeated(alloc, out, &setting.entry, name),
        None => add_by_fen(alloc, out, setting),
    }
}

/// Adds the block of a game, or why there is none.
fn add_entry<'a, A: Allocator>(
    alloc: &'a A,
    out: &mut Text<'_, A>,
    setting: &Setting<'_>,
) -> Result<u32, AllocError>
    ensures { Adds result out.old out.new
        (header_block setting.now.choice (entry_seen setting.now.entry)
        (header_fault setting.now.entry.text.now)) }
{
    let entry = &setting.entry;
    if let Some(fault) = header_fault(entry.text) {
        let place = place_in(entry, fault.left);
        return add_fault(alloc, out, entry, place, token_name(fault.why));
    }
    if count_tags(entry.text) == 0 {
        return add_left_out(alloc, out, entry, b"left out: no tags");
    }
    add_tagged(alloc, out, setting)
}

/// Adds the block of a game from its own start, or the line with the reason why there is none. Returns the number of studies in it.
#[tactic(auto, unfolding(crate::specs::Blocks::block_of))]
pub fn add_game<'a, A: Allocator>(
    alloc: &'a A,
    out: &mut Text<'_, A>,
    choice: Choice,
    number: u32,
    game: &Game<'_>,
) -> Result<u32, AllocError>
    ensures { Adds result out.old out.new (block_of choice number (game_seen game.now)) }
{
    let line = game.line;
    match game.text {
        None => {
            let entry = Entry {
                number,
                line,
                text: b"",
            };
            let place = Place { line, column: 1 };
            add_fault(alloc, out, &entry, place, b"GameTooLarge")
        }
        Some(text) => {
            let entry = Entry { number, line, text };
            add_entry(alloc, out, &Setting { choice, entry })
        }
    }
}
