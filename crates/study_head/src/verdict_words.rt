//! The words of a verdict.
ghost use Rattle.std.specs.Prelude.{◌≡◌, ◌++◌, OnOk};
ghost use Rattle.study_head.specs.Verdict.{IsLegalStamp, not_read, unread_words, goal_words, misses_words, wins_words, wrong, fails_at, legal_name};
ghost use Rattle.study_head.specs.Verdict.{reply_words, fails_words, cook_words, duals_words, part_words, kinds_words, variations_words, last_words};
ghost use Rattle.study_head.specs.Verdict.{duals_stamp, framed_name, missing_words, sound_words, stamp_words, wrong_sentence, full_stop, has_duals};
ghost use Rattle.study_head.specs.Verdict.{duals_sentence, misses_sentence, has_mistake, fails_sentence, has_cook, cook_sentence};
ghost use Rattle.study_head.specs.Verdict.{only_moves_sentence, missing_sentence, stamp_sentence, no_solution_words, sentence, at_start, start_words};
ghost use Rattle.study_head.specs.Verdict.{verdict_words, more_words, san_of, others_words, waste_words, dual_words, first_fault};
ghost use Rattle.study_head.specs.Mistake.{IsLegalMove};
ghost use Rattle.study_pgn.specs.Values.{value_text};

use crate::mistake::{NamedMove, add_move_name};
use crate::solution::{DualCounts, DualKind, NamedDual, SolutionFacts};
use crate::verdict::{Judgement, Stamp};
use std::alloc::{AllocError, Allocator};
use study_board::{Position, Side};
use study_marks::{Goal, Stipulation};
use study_moves::{Move, is_legal};
use study_pgn::{add_san, add_value, side_name};
use study_text::Text;
use study_values::Value;

#[tactic(auto, unfolding(crate::specs::Verdict::not_read))]
fn not_read() -> &'static [u8]
    ensures { result.now ≡ not_read }
{
    b"not read: line "
}

/// Adds `not read: line 17`.
fn add_unread<A: Allocator>(text: &mut Text<'_, A>, line: u32) -> Result<(), AllocError>
    ensures { OnOk result (text.new ≡ text.old ++ unread_words line) }
{
    text.add(not_read())?;
    text.add_number(line)
}

/// Adds `win`, `draw` or `mate in 3`.
fn add_goal<A: Allocator>(text: &mut Text<'_, A>, goal: Goal) -> Result<(), AllocError>
    ensures { OnOk result (text.new ≡ text.old ++ goal_words goal) }
{
    match goal {
        Goal::Win => text.add(b"win"),
        Goal::Draw => text.add(b"draw"),
        Goal::MateIn(moves) => {
            text.add(b"mate in ")?;
            text.add_number(moves.count() as u32)
        }
    }
}

/// Adds `does not win`.
fn add_misses<A: Allocator>(text: &mut Text<'_, A>, goal: Goal) -> Result<(), AllocError>
    ensures { OnOk result (text.new ≡ text.old ++ misses_words goal) }
{
    text.add(b"does not ")?;
    add_goal(text, goal)
}

/// Adds `White wins`.
fn add_wins<A: Allocator>(text: &mut Text<'_, A>, side: Side) -> Result<(), AllocError>
    ensures { OnOk result (text.new ≡ text.old ++ wins_words side) }
{
    text.add(side_name(side))?;
    text.add(b" wins")
}

#[tactic(auto, unfolding(crate::specs::Verdict::wrong))]
fn wrong() -> &'static [u8]
    ensures { result.now ≡ wrong }
{
    b"wrong: "
}

#[tactic(auto, unfolding(crate::specs::Verdict::fails_at))]
fn fails_at() -> &'static [u8]
    ensures { result.now ≡ fails_at }
{
    b"fails at "
}

/// Adds `wrong: White wins`.
fn add_wrong_win<A: Allocator>(text: &mut Text<'_, A>, side: Side) -> Result<(), AllocError>
    ensures { OnOk result (text.new ≡ text.old ++ (wrong ++ wins_words side)) }
{
    text.add(wrong())?;
    add_wins(text, side)
}

/// Adds `wrong: White mates in 2`.
fn add_wrong_mate<A: Allocator>(
    text: &mut Text<'_, A>,
    side: Side,
    value: Value,
) -> Result<(), AllocError>
    ensures { OnOk result (text.new ≡ text.old ++ (wrong ++ value_text side value)) }
{
    text.add(wrong())?;
    add_value(text, side, value)
}

/// Adds the name of a move, if it is legal.
pub fn add_legal_name<A: Allocator>(
    text: &mut Text<'_, A>,
    named: &NamedMove,
) -> Result<(), AllocError>
    ensures { OnOk result (text.new ≡ text.old ++ legal_name named.now) }
{
    if is_legal(&named.position, named.played) {
        return add_move_name(text, named);
    }
    Ok(())
}

/// Adds `: 1... f1=Q`.
fn add_reply<A: Allocator>(
    text: &mut Text<'_, A>,
    reply: &Option<NamedMove>,
) -> Result<(), AllocError>
    ensures { OnOk result (text.new ≡ text.old ++ reply_words reply.now) }
{
    match reply {
        None => Ok(()),
        Some(reply) => {
            text.add(b": ")?;
            add_legal_name(text, reply)
        }
    }
}

/// Adds `fails at 1. Ka2: 1... f1=Q`.
fn add_failure<A: Allocator>(
    text: &mut Text<'_, A>,
    mistake: &NamedMove,
    reply: &Option<NamedMove>,
) -> Result<(), AllocError>
    requires { IsLegalMove mistake.now }
    ensures { OnOk result (text.new ≡ text.old ++ fails_words mistake.now reply.now) }
{
    text.add(fails_at())?;
    add_move_name(text, mistake)?;
    add_reply(text, reply)
}

/// Adds `cook: 1. Kc3`.
fn add_cook<A: Allocator>(text: &mut Text<'_, A>, other: &NamedMove) -> Result<(), AllocError>
    ensures { OnOk result (text.new ≡ text.old ++ cook_words other.now) }
{
    text.add(b"cook: ")?;
    add_legal_name(text, other)
}

/// Adds `3 duals`.
fn add_dual_count<A: Allocator>(text: &mut Text<'_, A>, duals: u32) -> Result<(), AllocError>
    ensures { OnOk result (text.new ≡ text.old ++ duals_words duals) }
{
    text.add_number(duals)?;
    if duals == 1 {
        return text.add(b" dual");
    }
    text.add(b" duals")
}

/// Adds a number of duals with what is said of one and of more.
#[tactic(auto, unfolding(crate::specs::Verdict::part_words))]
fn add_part<A: Allocator>(
    text: &mut Text<'_, A>,
    number: u32,
    one: &[u8],
    many: &[u8],
) -> Result<(), AllocError>
    ensures { OnOk result (text.new ≡ text.old ++ part_words number one.now many.now) }
{
    if number == 0 {
        return Ok(());
    }
    text.add(b", ")?;
    text.add_number(number)?;
    if number == 1 {
        return text.add(one);
    }
    text.add(many)
}

/// Adds `, 1 in a variation, 2 in last moves, 3 waste time`.
fn add_kinds<A: Allocator>(text: &mut Text<'_, A>, counts: &DualCounts) -> Result<(), AllocError>
    ensures { OnOk result (text.new ≡ text.old ++ kinds_words counts.now) }
{
    add_part(
        text,
        counts.variations,
        b" in a variation",
        b" in variations",
    )?;
    add_part(text, counts.last, b" in a last move", b" in last moves")?;
    add_part(text, counts.time, b" wastes time", b" waste time")
}

/// Where duals are that are all in variations.
fn variations_words(duals: u32) -> &'static [u8]
    ensures { result.now ≡ variations_words duals }
{
    if duals == 1 {
        b" in a variation, none in the main line"
    } else {
        b" in variations, none in the main line"
    }
}

/// Where duals are that are all in last moves.
fn last_words(duals: u32) -> &'static [u8]
    ensures { result.now ≡ last_words duals }
{
    if duals == 1 {
        b" in the last move"
    } else {
        b" in last moves"
    }
}

/// Adds `3 duals, 2 waste time`, `2 duals in variations, none in the main line`.
fn add_duals<A: Allocator>(
    text: &mut Text<'_, A>,
    duals: u32,
    counts: &DualCounts,
) -> Result<(), AllocError>
    ensures { OnOk result (text.new ≡ text.old ++ duals_stamp duals counts.now) }
{
    add_dual_count(text, duals)?;
    if counts.variations == duals {
        return text.add(variations_words(duals));
    }
    if counts.last == duals {
        return text.add(last_words(duals));
    }
    add_kinds(text, counts)
}

/// Adds a move's name with what stands before and behind it, if there is such a move.
fn add_framed_name<A: Allocator>(
    text: &mut Text<'_, A>,
    named: &Option<NamedMove>,
    front: &[u8],
    back: &[u8],
) -> Result<(), AllocError>
    ensures { OnOk result (text.new ≡ text.old ++ framed_name named.now front.now back.now) }
{
    match named {
        None => Ok(()),
        Some(named) => {
            text.add(front)?;
            add_legal_name(text, named)?;
            text.add(back)
        }
    }
}

fn sound_words(wastes: bool) -> &'static [u8]
    ensures { result.now ≡ sound_words wastes }
{
    if wastes {
        b"sound, duals waste time"
    } else {
        b"sound"
    }
}

/// Adds `; main defence 1... Ke7 not given`.
fn add_missing<A: Allocator>(
    text: &mut Text<'_, A>,
    missing: &Option<NamedMove>,
) -> Result<(), AllocError>
    ensures { OnOk result (text.new ≡ text.old ++ missing_words missing.now) }
{
    add_framed_name(text, missing, b"; main defence ", b" not given")
}

/// Adds `1 dual in the last move; main defence 1... Ke7 not given`.
fn add_duals_and_missing<A: Allocator>(
    text: &mut Text<'_, A>,
    duals: u32,
    counts: &DualCounts,
    missing: &Option<NamedMove>,
) -> Result<(), AllocError>
    ensures { OnOk result (text.new ≡ text.old
        ++ (duals_stamp duals counts.now ++ missing_words missing.now)) }
{
    add_duals(text, duals, counts)?;
    add_missing(text, missing)
}

/// Adds `sound; main defence 1... Ke7 not given`.
fn add_sound<A: Allocator>(
    text: &mut Text<'_, A>,
    wastes: bool,
    missing: &Option<NamedMove>,
) -> Result<(), AllocError>
    ensures { OnOk result (text.new ≡ text.old
        ++ (sound_words wastes ++ missing_words missing.now)) }
{
    text.add(sound_words(wastes))?;
    add_missing(text, missing)
}

/// Adds `wrong: White wins`, `wrong: White mates in 2`, `does not win`, `fails at 1. Ka2: 1... f1=Q`, `cook: 1. Kc3`,
/// `sound; main defence 1... Ke7 not given`, `sound, duals waste time`, `correct, no solution yet`, `3 duals, 2 waste time`,
/// `1 dual in the last move; main defence 1... Ke7 not given`, `2 duals in variations, none in the main line`, `not read: line 17`, `refuted`,
/// `works from here`.
pub fn add_stamp_words<A: Allocator>(
    text: &mut Text<'_, A>,
    stamp: &Stamp,
) -> Result<(), AllocError>
    requires { IsLegalStamp stamp.now }
    ensures { OnOk result (text.new ≡ text.old ++ stamp_words stamp.now) }
{
    match stamp {
        Stamp::Wins(side) => add_wrong_win(text, *side),
        Stamp::Mates(side, value) => add_wrong_mate(text, *side, *value),
        Stamp::Misses(stipulation) => add_misses(text, stipulation.goal),
        Stamp::Fails(mistake, reply) => add_failure(text, mistake, reply),
        Stamp::Cooked(other) => add_cook(text, other),
        Stamp::Sound(wastes, missing) => add_sound(text, *wastes, missing),
        Stamp::Correct => text.add(b"correct, no solution yet"),
        Stamp::Duals(duals, counts, missing) => {
            add_duals_and_missing(text, *duals, counts, missing)
        }
        Stamp::NotRead(line) => add_unread(text, *line),
        Stamp::Refuted => text.add(b"refuted"),
        Stamp::Works => text.add(b"works from here"),
    }
}

#[tactic(auto, unfolding(crate::specs::Verdict::wrong_sentence))]
fn wrong_sentence() -> &'static [u8]
    ensures { result.now ≡ wrong_sentence }
{
    b"The stipulation is wrong: "
}

#[tactic(auto, unfolding(crate::specs::Verdict::full_stop))]
fn full_stop() -> &'static [u8]
    ensures { result.now ≡ full_stop }
{
    b"."
}

#[tactic(auto, unfolding(crate::specs::Verdict::has_mistake))]
fn has_mistake() -> &'static [u8]
    ensures { result.now ≡ has_mistake }
{
    b"The stipulation is correct, but the solution "
}

#[tactic(auto, unfolding(crate::specs::Verdict::has_duals))]
fn has_duals() -> &'static [u8]
    ensures { result.now ≡ has_duals }
{
    b"The stipulation is correct; the solution has "
}

fn add_duals_sentence<A: Allocator>(
    text: &mut Text<'_, A>,
    duals: u32,
    counts: &DualCounts,
    missing: &Option<NamedMove>,
) -> Result<(), AllocError>
    ensures { OnOk result (text.new ≡ text.old
        ++ (duals_sentence duals counts.now ++ missing_sentence missing.now)) }
{
    text.add(has_duals())?;
    add_duals(text, duals, counts)?;
    text.add(full_stop())?;
    add_missing_sentence(text, missing)
}

#[tactic(auto, unfolding(crate::specs::Verdict::has_cook))]
fn has_cook() -> &'static [u8]
    ensures { result.now ≡ has_cook }
{
    b"The stipulation is correct, but another first move works: "
}

fn add_cook_sentence<A: Allocator>(
    text: &mut Text<'_, A>,
    other: &NamedMove,
) -> Result<(), AllocError>
    ensures { OnOk result (text.new ≡ text.old ++ cook_sentence other.now) }
{
    text.add(has_cook())?;
    add_legal_name(text, other)?;
    text.add(full_stop())
}

fn only_moves_sentence(wastes: bool) -> &'static [u8]
    ensures { result.now ≡ only_moves_sentence wastes }
{
    if wastes {
        b"The stipulation is correct, and the duals of the solution only waste time."
    } else {
        b"The stipulation is correct, and every move of the solution is the only one that works."
    }
}

/// Adds ` The main defence 1... Ke7 is not given.`
fn add_missing_sentence<A: Allocator>(
    text: &mut Text<'_, A>,
    missing: &Option<NamedMove>,
) -> Result<(), AllocError>
    ensures { OnOk result (text.new ≡ text.old ++ missing_sentence missing.now) }
{
    add_framed_name(text, missing, b" The main defence ", b" is not given.")
}

fn add_sound_sentence<A: Allocator>(
    text: &mut Text<'_, A>,
    wastes: bool,
    missing: &Option<NamedMove>,
) -> Result<(), AllocError>
    ensures { OnOk result (text.new ≡ text.old
        ++ (only_moves_sentence wastes ++ missing_sentence missing.now)) }
{
    text.add(only_moves_sentence(wastes))?;
    add_missing_sentence(text, missing)
}

fn add_win_sentence<A: Allocator>(text: &mut Text<'_, A>, side: Side) -> Result<(), AllocError>
    ensures { OnOk result (text.new ≡ text.old
        ++ (wrong_sentence ++ (wins_words side ++ full_stop))) }
{
    text.add(wrong_sentence())?;
    add_wins(text, side)?;
    text.add(full_stop())
}

fn add_mate_sentence<A: Allocator>(
    text: &mut Text<'_, A>,
    side: Side,
    value: Value,
) -> Result<(), AllocError>
    ensures { OnOk result (text.new ≡ text.old
        ++ (wrong_sentence ++ (value_text side value ++ full_stop))) }
{
    text.add(wrong_sentence())?;
    add_value(text, side, value)?;
    text.add(full_stop())
}

fn add_misses_sentence<A: Allocator>(
    text: &mut Text<'_, A>,
    stipulation: &Stipulation,
) -> Result<(), AllocError>
    ensures { OnOk result (text.new ≡ text.old ++ misses_sentence stipulation.now) }
{
    text.add(wrong_sentence())?;
    text.add(side_name(stipulation.hero))?;
    text.add(b" ")?;
    add_misses(text, stipulation.goal)?;
    text.add(full_stop())
}

fn add_fails_sentence<A: Allocator>(
    text: &mut Text<'_, A>,
    mistake: &NamedMove,
    reply: &Option<NamedMove>,
) -> Result<(), AllocError>
    requires { IsLegalMove mistake.now }
    ensures { OnOk result (text.new ≡ text.old ++ fails_sentence mistake.now reply.now) }
{
    text.add(has_mistake())?;
    add_failure(text, mistake, reply)?;
    text.add(full_stop())
}

fn add_stamp_sentence<A: Allocator>(text: &mut Text<'_, A>, stamp: &Stamp) -> Result<(), AllocError>
    requires { IsLegalStamp stamp.now }
    ensures { OnOk result (text.new ≡ text.old ++ stamp_sentence stamp.now) }
{
    match stamp {
        Stamp::Wins(side) => add_win_sentence(text, *side),
        Stamp::Mates(side, value) => add_mate_sentence(text, *side, *value),
        Stamp::Misses(stipulation) => add_misses_sentence(text, stipulation),
        Stamp::Fails(mistake, reply) => add_fails_sentence(text, mistake, reply),
        Stamp::Cooked(other) => add_cook_sentence(text, other),
        Stamp::Sound(wastes, missing) => add_sound_sentence(text, *wastes, missing),
        Stamp::Correct => text.add(b"The stipulation is correct."),
        Stamp::Duals(duals, counts, missing) => {
            add_duals_sentence(text, *duals, counts, missing)
        }
        Stamp::NotRead(_) => {
            text.add(b"A line of this study could not be read, so there is no verdict.")
        }
        Stamp::Refuted => {
            text.add(b"This line is beside the solution, and from here it is refuted.")
        }
        Stamp::Works => text.add(
            b"This line is beside the solution, and from here it works: a second solution, unless there is a better defence before.",
        ),
    }
}

fn no_solution_words(empty: bool) -> &'static [u8]
    ensures { result.now ≡ no_solution_words empty }
{
    if empty {
        b" The solution is not given yet."
    } else {
        b""
    }
}

/// Adds what a stamp says, in a sentence.
#[tactic(auto, unfolding(crate::specs::Verdict::sentence))]
pub fn add_sentence<A: Allocator>(
    text: &mut Text<'_, A>,
    empty: bool,
    stamp: &Stamp,
) -> Result<(), AllocError>
    requires { IsLegalStamp stamp.now }
    ensures { OnOk result (text.new ≡ text.old ++ sentence empty stamp.now) }
{
    add_stamp_sentence(text, stamp)?;
    text.add(no_solution_words(empty))
}

#[tactic(auto, unfolding(crate::specs::Verdict::at_start))]
fn at_start() -> &'static [u8]
    ensures { result.now ≡ at_start }
{
    b"At the start: "
}

/// Adds the value of the start.
#[tactic(auto, unfolding(crate::specs::Verdict::start_words))]
pub fn add_start_value<A: Allocator>(
    text: &mut Text<'_, A>,
    side: Side,
    value: Value,
) -> Result<(), AllocError>
    ensures { OnOk result (text.new ≡ text.old ++ start_words side value) }
{
    text.add(at_start())?;
    add_value(text, side, value)?;
    text.add(b".")
}

/// Adds what the stamp says and the value of the start, in sentences.
#[tactic(auto, unfolding(crate::specs::Verdict::verdict_words))]
pub fn add_verdict_words<A: Allocator>(
    text: &mut Text<'_, A>,
    judged: &Judgement,
) -> Result<(), AllocError>
    requires { IsLegalStamp judged.now.stamp }
    ensures { OnOk result (text.new ≡ text.old ++ verdict_words judged.now) }
{
    add_sentence(text, judged.empty, &judged.stamp)?;
    text.add(b" ")?;
    add_start_value(text, judged.first, judged.value)
}

/// Adds ` and 2 more`, where more than one other move works.
fn add_more<A: Allocator>(text: &mut Text<'_, A>, others: u16) -> Result<(), AllocError>
    ensures { OnOk result (text.new ≡ text.old ++ more_words others) }
{
    if others <= 1 {
        return Ok(());
    }
    text.add(b" and ")?;
    text.add_number((others - 1) as u32)?;
    text.add(b" more")
}

/// Adds a move, if it is legal.
fn add_legal_san<A: Allocator>(
    text: &mut Text<'_, A>,
    p: &Position,
    m: &Move,
) -> Result<(), AllocError>
    ensures { OnOk result (text.new ≡ text.old ++ san_of p.now m.now) }
{
    if is_legal(p, *m) {
        return add_san(text, p, *m);
    }
    Ok(())
}

/// Adds `: also Kb6 and 2 more`.
fn add_others<A: Allocator>(text: &mut Text<'_, A>, dual: &NamedDual) -> Result<(), AllocError>
    ensures { OnOk result (text.new ≡ text.old
        ++ others_words dual.now.author.position dual.now.other dual.now.others) }
{
    match &dual.other {
        None => Ok(()),
        Some(other) => {
            text.add(b": also ")?;
            add_legal_san(text, &dual.author.position, other)?;
            add_more(text, dual.others)
        }
    }
}

fn waste_words(kind: DualKind) -> &'static [u8]
    ensures { result.now ≡ waste_words kind }
{
    match kind {
        DualKind::WastesTime => b", wastes time",
        _ => b"",
    }
}

/// Adds `3. Kb4: also Kb6 and 2 more (after 2... h3)`.
fn add_dual_words<A: Allocator>(
    text: &mut Text<'_, A>,
    dual: &Option<NamedDual>,
) -> Result<(), AllocError>
    ensures { OnOk result (text.new ≡ text.old ++ dual_words dual.now) }
{
    match dual {
        None => Ok(()),
        Some(dual) => {
            add_legal_name(text, &dual.author)?;
            add_others(text, dual)?;
            text.add(waste_words(dual.kind))?;
            add_framed_name(text, &dual.turn, b" (after ", b")")
        }
    }
}

/// Adds the worst dual of a solution, where the stamp counts duals or names only the other move.
pub fn add_first_fault<A: Allocator>(
    text: &mut Text<'_, A>,
    stamp: &Stamp,
    facts: &SolutionFacts,
) -> Result<(), AllocError>
    ensures { OnOk result (text.new ≡ text.old ++ first_fault stamp.now facts.now) }
{
    match stamp {
        Stamp::Duals(_, _, _) => add_dual_words(text, &facts.worst),
        Stamp::Cooked(_) => add_dual_words(text, &facts.worst),
        Stamp::Sound(_, _) => add_dual_words(text, &facts.worst),
        _ => Ok(()),
    }
}
