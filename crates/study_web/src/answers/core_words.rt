//! Words that a page shows without a reply that has them.
//!
//! What the printed page says in calls of its own is written here by the definitions of study_page.
ghost use Rattle.std.specs.Prelude.{◌≡◌, ◌++◌, OnOk, IfOk, IfErr, codes, false};
ghost use Rattle.study_board.specs.declared.men.Side.TheVariants.{White};
ghost use Rattle.study_values.specs.declared.value.Value.TheVariants.{Draw};
ghost use Rattle.study_pgn.specs.Values.{value_text};
ghost use Rattle.study_head.specs.Verdict.{IsLegalStamp, stamp_words, sentence, start_words};
ghost use Rattle.study_page.specs.Rows.{by_words};
ghost use Rattle.study_web.specs.Answers.{MayEnd, IsOutOfMemory, IsNoMemory};
ghost use Rattle.study_web.specs.CoreWords.{word_line, refusal_names, game_names, command_names, kind_name, group_name, group_words};
ghost use Rattle.study_web.specs.CoreWords.{name_lines, said_line, value_lines, stamp_lines, wrong_lines, try_lines};
ghost use Rattle.study_web.specs.CoreWords.{sentence_lines, verdict_lines, title_lines, last_title_lines};
ghost use Rattle.study_web.specs.CoreWords.{head_lines, page_lines, said_lines, keep_line, later_lines, move_lines, zugzwang_lines};
ghost use Rattle.study_web.specs.CoreWords.{explained_lines, core_words};

use crate::answers::remark_rows::bytes_of;
use crate::reply::AnswerFault;
use crate::request_fault::RequestFault;
use std::alloc::{AllocError, Allocator};
use study_board::Side;
use study_command::{CommandKind, read_keyword};
use study_head::{Stamp, add_sentence, add_stamp_words, add_start_value};
use study_marks::{Goal, Stipulation};
use study_pgn::add_value;
use study_print::game_reason;
use study_reply::{Refusal, reason_of};
use study_text::{Text, next_word};
use study_values::Value;

/// Names that have words.
#[derive(Clone, Copy, Debug, PartialEq, Eq)]
pub enum Group {
    /// Of refusals, with reasons.
    Refused,
    /// Of faults for which only a game is left out, with reasons.
    LeftOut,
    /// Of commands, with what they are for.
    Command,
}

/// Adds `refused BadByte a letter outside plain ASCII`.
fn add_line<A: Allocator>(
    text: &mut Text<'_, A>,
    group: &[u8],
    name: &[u8],
    words: &[u8],
) -> Result<(), AllocError>
    ensures { OnOk result (text.new ≡ text.old ++ word_line group.now name.now words.now) }
{
    text.add(group)?;
    text.add(b" ")?;
    text.add(name)?;
    text.add(b" ")?;
    text.add(words)?;
    text.add(b"\n")
}

fn kind_name(kind: CommandKind) -> &'static [u8]
    ensures { result.now ≡ kind_name kind }
{
    match kind {
        CommandKind::Edit => b"edit",
        CommandKind::Question => b"question",
        CommandKind::Table => b"table",
    }
}

fn group_name(group: Group) -> &'static [u8]
    ensures { result.now ≡ group_name group }
{
    match group {
        Group::Refused => b"refused",
        Group::LeftOut => b"left-out",
        Group::Command => b"command",
    }
}

fn group_words(group: Group, name: &[u8]) -> &'static [u8]
    ensures { result.now ≡ group_words group name.now }
{
    match group {
        Group::Refused => reason_of(name),
        Group::LeftOut => game_reason(name),
        Group::Command => match read_keyword(name) {
            None => b"",
            Some(word) => kind_name(word.kind()),
        },
    }
}

/// Adds a line for each of these names.
#[tactic(auto, unfolding(crate::specs::CoreWords::name_lines))]
fn add_names<A: Allocator>(
    text: &mut Text<'_, A>,
    group: Group,
    names: &[u8],
) -> Result<(), AllocError>
    ensures { OnOk result (text.new ≡ text.old ++ name_lines group names.now) }
{
    let mut rest = names;
    while let Some((name, behind)) = next_word(rest) {
        add_line(text, group_name(group), name, group_words(group, name))?;
        rest = behind;
    }
    Ok(())
}

#[tactic(auto, unfolding(crate::specs::CoreWords::refusal_names))]
fn refusal_names() -> &'static [u8]
    ensures { result.now ≡ refusal_names }
{
    b"BadByte UnknownCommand BadArguments UnknownStipulation UnknownTag TagText NoPosition NoStudy NoSuchNode NotSan CastlingLeftOut \
NoSuchMove Ambiguous AlreadyThere RootNotAllowed AlreadyFirst TooDeep TreeFull ShiftBroken FieldCount Placement TooManyMen KingCount \
PawnOnEndRank SideField OpponentInCheck Castling EnPassantField EnPassantImpossible Clock MoveNumber NotAClass NoTable TableRead OutOfMemory"
}

#[tactic(auto, unfolding(crate::specs::CoreWords::game_names))]
fn game_names() -> &'static [u8]
    ensures { result.now ≡ game_names }
{
    b"GameTooLarge TagForm OpenString NoStipulation StipulationUnread TagTwice TagInMoves Numbering NullMove BehindWord BehindResult Byte OpenComment \
NoMoveBefore NotOpened OpenVariation TooNested"
}

#[tactic(auto, unfolding(crate::specs::CoreWords::command_names))]
fn command_names() -> &'static [u8]
    ensures { result.now ≡ command_names }
{
    b"position shift stipulate insert delete promote tag mark moves fen solve build load save verify pgn"
}

/// Adds `word list `.
fn add_said_name<A: Allocator>(text: &mut Text<'_, A>, name: &[u8]) -> Result<(), AllocError>
    ensures { OnOk result (text.new ≡ text.old
        ++ (codes "word" ++ (codes " " ++ (name.now ++ codes " ")))) }
{
    text.add(b"word")?;
    text.add(b" ")?;
    text.add(name)?;
    text.add(b" ")
}

fn add_value_line<A: Allocator>(
    text: &mut Text<'_, A>,
    name: &[u8],
    value: Value,
) -> Result<(), AllocError>
    ensures { OnOk result (text.new ≡ text.old ++ said_line name.now (value_text White value)) }
{
    add_said_name(text, name)?;
    add_value(text, Side::White, value)?;
    text.add(b"\n")
}

fn add_start_line<A: Allocator>(text: &mut Text<'_, A>) -> Result<(), AllocError>
    ensures { OnOk result (text.new ≡ text.old
        ++ said_line (codes "start") (start_words White Draw)) }
{
    add_said_name(text, b"start")?;
    add_start_value(text, Side::White, Value::Draw)?;
    text.add(b"\n")
}

#[tactic(auto, unfolding(crate::specs::CoreWords::value_lines))]
fn add_values<A: Allocator>(text: &mut Text<'_, A>) -> Result<(), AllocError>
    ensures { OnOk result (text.new ≡ text.old ++ value_lines) }
{
    add_value_line(text, b"draw", Value::Draw)?;
    add_value_line(text, b"mate", Value::Loss(0))?;
    add_value_line(text, b"mates", Value::Win(1))?;
    add_start_line(text)
}

fn add_stamp_line<A: Allocator>(
    text: &mut Text<'_, A>,
    name: &[u8],
    stamp: &Stamp,
) -> Result<(), AllocError>
    requires { IsLegalStamp stamp.now }
    ensures { OnOk result (text.new ≡ text.old ++ said_line name.now (stamp_words stamp.now)) }
{
    add_said_name(text, name)?;
    add_stamp_words(text, stamp)?;
    text.add(b"\n")
}

fn add_sentence_line<A: Allocator>(
    text: &mut Text<'_, A>,
    name: &[u8],
    stamp: &Stamp,
) -> Result<(), AllocError>
    requires { IsLegalStamp stamp.now }
    ensures { OnOk result (text.new ≡ text.old ++ said_line name.now (sentence false stamp.now)) }
{
    add_said_name(text, name)?;
    add_sentence(text, false, stamp)?;
    text.add(b"\n")
}

#[tactic(auto, unfolding(crate::specs::CoreWords::stamp_lines))]
fn add_stamps<A: Allocator>(text: &mut Text<'_, A>) -> Result<(), AllocError>
    ensures { OnOk result (text.new ≡ text.old ++ stamp_lines) }
{
    add_stamp_line(text, b"correct", &Stamp::Correct)?;
    add_stamp_line(text, b"time", &Stamp::Sound(true, None))?;
    add_stamp_line(text, b"unread", &Stamp::NotRead(1))
}

#[tactic(auto, unfolding(crate::specs::CoreWords::wrong_lines))]
fn add_wrong<A: Allocator>(text: &mut Text<'_, A>) -> Result<(), AllocError>
    ensures { OnOk result (text.new ≡ text.old ++ wrong_lines) }
{
    let win = Stipulation {
        hero: Side::White,
        goal: Goal::Win,
    };
    add_stamp_line(text, b"wins", &Stamp::Wins(Side::White))?;
    add_stamp_line(text, b"sooner", &Stamp::Mates(Side::White, Value::Win(1)))?;
    add_stamp_line(text, b"misses", &Stamp::Misses(win))
}

#[tactic(auto, unfolding(crate::specs::CoreWords::try_lines))]
fn add_tries<A: Allocator>(text: &mut Text<'_, A>) -> Result<(), AllocError>
    ensures { OnOk result (text.new ≡ text.old ++ try_lines) }
{
    add_stamp_line(text, b"refuted", &Stamp::Refuted)?;
    add_stamp_line(text, b"works", &Stamp::Works)
}

#[tactic(auto, unfolding(crate::specs::CoreWords::sentence_lines))]
fn add_sentences<A: Allocator>(text: &mut Text<'_, A>) -> Result<(), AllocError>
    ensures { OnOk result (text.new ≡ text.old ++ sentence_lines) }
{
    add_sentence_line(text, b"unread-sentence", &Stamp::NotRead(1))
}

#[tactic(auto, unfolding(crate::specs::CoreWords::verdict_lines))]
fn add_verdicts<A: Allocator>(text: &mut Text<'_, A>) -> Result<(), AllocError>
    ensures { OnOk result (text.new ≡ text.old ++ verdict_lines) }
{
    add_values(text)?;
    add_stamps(text)?;
    add_wrong(text)?;
    add_tries(text)?;
    add_sentences(text)
}

#[tactic(auto, unfolding(crate::specs::CoreWords::title_lines, study_page::specs::Page::tries_title, study_page::specs::Page::zugzwangs_title))]
fn title_lines() -> &'static [u8]
    ensures { result.now ≡ title_lines }
{
    b"word untitled Untitled\nword root the start\nword tries Tries and their refutations\nword zugzwangs Mutual zugzwangs\n"
}

#[tactic(auto, unfolding(crate::specs::CoreWords::last_title_lines, study_page::specs::Page::missing_title, study_page::specs::Page::ends_title))]
fn last_title_lines() -> &'static [u8]
    ensures { result.now ≡ last_title_lines }
{
    b"word defences Defences not given\nword ends Best play after the last move given\nword list Entries and verdicts\n"
}

#[tactic(auto, unfolding(crate::specs::CoreWords::head_lines))]
fn head_lines() -> &'static [u8]
    ensures { result.now ≡ head_lines }
{
    b"word tries-heads After\tResult\tRefuted by\nword zugzwangs-heads After\tWhite to move\tBlack to move\n\
word ends-heads After\tValue\tContinuation\nword list-heads No.\tTitle\tAuthor\tStipulation\tVerdict\n"
}

#[tactic(auto, unfolding(crate::specs::CoreWords::said_lines, study_page::specs::Rows::loses_time, study_page::specs::Rows::gives_up_goal))]
fn said_lines() -> &'static [u8]
    ensures { result.now ≡ said_lines }
{
    b"word as-quick , as quick\nword loses-time , wastes time\nword lets-go  throws it away: \nword stalemate stalemate\n"
}

#[tactic(auto, unfolding(crate::specs::CoreWords::keep_line, study_page::specs::Rows::keeps_draw_words))]
fn keep_line() -> &'static [u8]
    ensures { result.now ≡ keep_line }
{
    b"word keep  moves keep the draw:\n"
}

#[tactic(auto, unfolding(crate::specs::CoreWords::page_lines))]
fn add_page_lines<A: Allocator>(text: &mut Text<'_, A>) -> Result<(), AllocError>
    ensures { OnOk result (text.new ≡ text.old ++ page_lines) }
{
    text.add(title_lines())?;
    text.add(last_title_lines())?;
    text.add(head_lines())
}

/// Adds `word longer , 1 move longer`.
fn add_by<A: Allocator>(text: &mut Text<'_, A>, way: &[u8]) -> Result<(), AllocError>
    ensures { OnOk result (text.new ≡ text.old ++ said_line way.now (by_words 1 way.now)) }
{
    add_said_name(text, way)?;
    text.add(b", ")?;
    text.add_number(1)?;
    text.add(b" move ")?;
    text.add(way)?;
    text.add(b"\n")
}

fn add_answers<A: Allocator>(text: &mut Text<'_, A>) -> Result<(), AllocError>
    ensures { OnOk result (text.new ≡ text.old ++ said_line (codes "answers") (codes "2 answers")) }
{
    text.add(b"word answers 2 answers\n")
}

#[tactic(auto, unfolding(crate::specs::CoreWords::later_lines))]
fn add_later<A: Allocator>(text: &mut Text<'_, A>) -> Result<(), AllocError>
    ensures { OnOk result (text.new ≡ text.old ++ later_lines) }
{
    add_by(text, b"longer")?;
    add_by(text, b"quicker")?;
    add_answers(text)
}

#[tactic(auto, unfolding(crate::specs::CoreWords::move_lines))]
fn add_moves<A: Allocator>(text: &mut Text<'_, A>) -> Result<(), AllocError>
    ensures { OnOk result (text.new ≡ text.old ++ move_lines) }
{
    text.add(said_lines())?;
    text.add(keep_line())?;
    add_later(text)
}

#[tactic(auto, unfolding(crate::specs::CoreWords::zugzwang_lines, crate::specs::CoreWords::zugzwang_words))]
fn zugzwang_lines() -> &'static [u8]
    ensures { result.now ≡ zugzwang_lines }
{
    b"word full full point\tBlack wins\tWhite wins\nword half-white half a point\tdraw\tWhite wins\n\
word half-black half a point\tBlack wins\tdraw\n"
}

#[tactic(auto, unfolding(crate::specs::CoreWords::explained_lines))]
fn add_explained<A: Allocator>(text: &mut Text<'_, A>) -> Result<(), AllocError>
    ensures { OnOk result (text.new ≡ text.old ++ explained_lines) }
{
    add_names(text, Group::Refused, refusal_names())?;
    add_names(text, Group::LeftOut, game_names())?;
    add_names(text, Group::Command, command_names())
}

#[tactic(auto, unfolding(crate::specs::CoreWords::core_words))]
fn add_core_words<A: Allocator>(text: &mut Text<'_, A>) -> Result<(), AllocError>
    ensures { OnOk result (text.new ≡ text.old ++ core_words) }
{
    add_explained(text)?;
    add_verdicts(text)?;
    add_page_lines(text)?;
    add_moves(text)?;
    text.add(zugzwang_lines())
}

fn words_text<'a, A: Allocator>(alloc: &'a A) -> Result<Vec<u8, &'a A>, AllocError>
    ensures { IfOk result (λ text. text.items ≡ core_words) }
{
    let mut text = Text::new(alloc);
    add_core_words(&mut text)?;
    bytes_of(alloc, &text)
}

/// The words that a page shows without a reply that has them, a line each: `word untitled Untitled`.
pub fn words_of<'a, A: Allocator>(alloc: &'a A) -> Result<Vec<u8, &'a A>, AnswerFault>
    ensures text { IfOk result (λ text. text.items ≡ core_words) }
    ensures none { IfErr result (MayEnd IsOutOfMemory IsNoMemory) }
{
    match words_text(alloc) {
        Ok(text) => Ok(text),
        Err(_) => Err(AnswerFault::Denied(RequestFault::Refused(Refusal::OutOfMemory))),
    }
}
