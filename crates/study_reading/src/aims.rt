//! The stipulation that a game states.
ghost use Rattle.std.specs.Prelude.{◌≡◌, ◌≤◌, length};
ghost use Rattle.std.specs.List.{prefix_len};
ghost use Rattle.std.specs.Option.{option_map};
ghost use Rattle.study_games.specs.Words.{first_word};
ghost use Rattle.study_command.specs.Parser.{mate_moves_of};
ghost use Rattle.study_reading.specs.Aims.{ends_clause, ends_phrase, last_of_phrase, hero_of, goal_named, says_moves, moves_counted, moves_named, moves_in};
ghost use Rattle.study_reading.specs.Aims.{moves_behind_in, mate_goal, goal_in, goal_behind_and, goal_behind_play, goal_after_to, goal_behind_to, goal_of_verb};
ghost use Rattle.study_reading.specs.Aims.{goal_by_verb, goal_behind_hero, aim_in, says_win, says_draw, mate_sign, goal_of_sign, goal_signed};
ghost use Rattle.study_reading.specs.Aims.{signed_by, aim_stated, is_problem, says_mover, names_mover, asks_goal, looks_stated, is_unread_comment};
ghost use Rattle.study_reading.specs.Aims.{is_no_text, is_unread_tag, aim_of_outcome, outcome_said, outcome_of_tag, outcome_wanted, no_doubts, from_source};
ghost use Rattle.study_reading.specs.Aims.{or_aim, aim_of_result, unless_unread, first_aim, other_outcome, result_differs, tag_differs, doubts_of};
ghost use Rattle.study_reading.specs.Aims.{aim_by_sources, unaimed_words, begins_clause, goes_on, says_white, says_black, is_kind_byte, says_goal, says_in};

use study_board::Side;
use study_command::read_place;
use study_games::bytes::is_letter;
use study_games::{Outcome, Said, next_word, say, trim_end, trim_start};
use study_marks::{Goal, MateMoves, Stipulation};
use study_remark::Source;

/// What speaks against a stipulation.
#[derive(Clone, Copy)]
pub struct Doubts {
    /// The first comment has the form of a stipulation, and none that is read.
    pub comment_unread: bool,
    /// The tag Stipulation is neither read nor unknown.
    pub tag_unread: bool,
    /// The tag Stipulation wants another result.
    pub tag_differs: bool,
    /// The tag Result is another result.
    pub result_tag_differs: bool,
    /// The result after the moves is another one.
    pub result_differs: bool,
}

/// A stipulation, its source, and what speaks against it.
#[derive(Clone, Copy)]
pub struct Aim {
    pub stipulation: Stipulation,
    pub source: Source,
    pub doubts: Doubts,
}

/// What each source of a game's stipulation states.
#[derive(Clone, Copy)]
pub struct Sources {
    pub comment: Option<Stipulation>,
    pub comment_unread: bool,
    pub tag: Option<Stipulation>,
    pub tag_unread: bool,
    pub result_tag: Option<Outcome>,
    pub result: Option<Outcome>,
    /// The caller's, for a game that states none.
    pub given: Option<Stipulation>,
}

fn ends_clause(byte: u8) -> bool
    ensures { result ≡ ends_clause byte }
{
    byte == b':' || byte == b'.' || byte == b',' || byte == b';' || byte == b'!' || byte == b')'
}

fn ends_phrase(word: &[u8]) -> bool
    ensures { result ≡ ends_phrase word.now }
{
    let n = word.len();
    n >= 1 && ends_clause(word[n - 1])
}

fn begins_clause(word: &[u8]) -> bool
    ensures { result ≡ begins_clause word.now }
{
    match word {
        [first, ..] => ends_clause(*first),
        [] => false,
    }
}

/// Whether a word follows that does not begin with such a mark.
fn goes_on(behind: &[u8]) -> bool
    ensures { result ≡ goes_on (first_word behind.now) }
{
    match next_word(behind) {
        None => false,
        Some((word, _)) => !begins_clause(word),
    }
}

/// The last word of a phrase: it ends with a mark, which is not part of it, or one follows, or it ends the text.
#[tactic(auto, unfolding(crate::specs::Aims::last_of_phrase))]
fn last_of_phrase<'t>(word: &'t [u8], behind: &[u8]) -> Option<&'t [u8]>
    ensures { option_map (λ w. w.now) result ≡ last_of_phrase word.now behind.now }
{
    if ends_phrase(word) {
        let (front, _) = word.split_at(word.len() - 1);
        return Some(front);
    }
    if goes_on(behind) { None } else { Some(word) }
}

fn says_white(word: &[u8]) -> bool
    ensures { result ≡ says_white word.now }
{
    word == b"White".as_slice()
        || word == b"white".as_slice()
        || word == b"WHITE".as_slice()
        || word == b"(White".as_slice()
}

fn says_black(word: &[u8]) -> bool
    ensures { result ≡ says_black word.now }
{
    word == b"Black".as_slice()
        || word == b"black".as_slice()
        || word == b"BLACK".as_slice()
        || word == b"(Black".as_slice()
}

fn hero_of(word: &[u8]) -> Option<Side>
    ensures { result ≡ hero_of word.now }
{
    if says_white(word) {
        Some(Side::White)
    } else if says_black(word) {
        Some(Side::Black)
    } else {
        None
    }
}

fn goal_named(word: Option<&[u8]>) -> Option<Goal>
    ensures { result ≡ goal_named (option_map (λ w. w.now) word.entry) }
{
    let word = word?;
    if word == b"win".as_slice() {
        Some(Goal::Win)
    } else if word == b"draw".as_slice() {
        Some(Goal::Draw)
    } else {
        None
    }
}

/// One to three digits, with a value from 1 to 127.
fn read_mate_moves(word: &[u8]) -> Option<MateMoves>
    ensures { result ≡ mate_moves_of word.now }
{
    let number = read_place(word)?;
    if number <= 127 {
        MateMoves::new(number as u8)
    } else {
        None
    }
}

fn says_moves(word: Option<&[u8]>) -> bool
    ensures { result ≡ says_moves (option_map (λ w. w.now) word.entry) }
{
    match word {
        Some(word) => word == b"moves".as_slice() || word == b"move".as_slice(),
        None => false,
    }
}

/// After `mate in 3`, with this number: `moves`.
fn moves_counted(count: &[u8], text: &[u8]) -> Option<MateMoves>
    ensures { result ≡ moves_counted count.now (first_word text.now) }
{
    let (word, behind) = next_word(text)?;
    if says_moves(last_of_phrase(word, behind)) {
        read_mate_moves(count)
    } else {
        None
    }
}

fn moves_named(word: Option<&[u8]>) -> Option<MateMoves>
    ensures { result ≡ moves_named (option_map (λ w. w.now) word.entry) }
{
    read_mate_moves(word?)
}

/// After `mate in`.
fn moves_in(text: &[u8]) -> Option<MateMoves>
    ensures { result ≡ moves_in (first_word text.now) }
{
    let (word, behind) = next_word(text)?;
    match moves_named(last_of_phrase(word, behind)) {
        Some(moves) => Some(moves),
        None => moves_counted(word, behind),
    }
}

/// After `mate`.
fn moves_behind_in(text: &[u8]) -> Option<MateMoves>
    ensures { result ≡ moves_behind_in (first_word text.now) }
{
    let (word, behind) = next_word(text)?;
    if word == b"in".as_slice() {
        moves_in(behind)
    } else {
        None
    }
}

fn mate_goal(moves: Option<MateMoves>) -> Option<Goal>
    ensures { result ≡ mate_goal moves }
{
    match moves {
        Some(moves) => Some(Goal::MateIn(moves)),
        None => None,
    }
}

/// After `to`, or `and`.
fn goal_in(text: &[u8]) -> Option<Goal>
    ensures { result ≡ goal_in (first_word text.now) }
{
    let (word, behind) = next_word(text)?;
    if let Some(goal) = goal_named(last_of_phrase(word, behind)) {
        return Some(goal);
    }
    if word == b"mate".as_slice() {
        mate_goal(moves_behind_in(behind))
    } else {
        None
    }
}

/// After `play` or `move`.
fn goal_behind_and(text: &[u8]) -> Option<Goal>
    ensures { result ≡ goal_behind_and (first_word text.now) }
{
    let (word, behind) = next_word(text)?;
    if word == b"and".as_slice() {
        goal_in(behind)
    } else {
        None
    }
}

/// `play and win`, `move and draw`.
fn goal_behind_play(text: &[u8]) -> Option<Goal>
    ensures { result ≡ goal_behind_play (first_word text.now) }
{
    let (word, behind) = next_word(text)?;
    if word == b"play".as_slice() || word == b"move".as_slice() {
        goal_behind_and(behind)
    } else {
        None
    }
}

/// After `to`.
fn goal_after_to(text: &[u8]) -> Option<Goal>
    ensures { result ≡ goal_after_to (first_word text.now) }
{
    match goal_in(text) {
        Some(goal) => Some(goal),
        None => goal_behind_play(text),
    }
}

/// `to win`, `to play and draw`.
fn goal_behind_to(text: &[u8]) -> Option<Goal>
    ensures { result ≡ goal_behind_to (first_word text.now) }
{
    let (word, behind) = next_word(text)?;
    if word == b"to".as_slice() {
        goal_after_to(behind)
    } else {
        None
    }
}

fn goal_of_verb(word: Option<&[u8]>) -> Option<Goal>
    ensures { result ≡ goal_of_verb (option_map (λ w. w.now) word.entry) }
{
    let word = word?;
    if word == b"wins".as_slice() {
        Some(Goal::Win)
    } else if word == b"draws".as_slice() {
        Some(Goal::Draw)
    } else {
        None
    }
}

/// `wins`, `draws`, `mates in 3`.
fn goal_by_verb(text: &[u8]) -> Option<Goal>
    ensures { result ≡ goal_by_verb (first_word text.now) }
{
    let (word, behind) = next_word(text)?;
    if let Some(goal) = goal_of_verb(last_of_phrase(word, behind)) {
        return Some(goal);
    }
    if word == b"mates".as_slice() {
        mate_goal(moves_behind_in(behind))
    } else {
        None
    }
}

/// After the hero.
fn goal_behind_hero(text: &[u8]) -> Option<Goal>
    ensures { result ≡ goal_behind_hero (first_word text.now) }
{
    match goal_behind_to(text) {
        Some(goal) => Some(goal),
        None => goal_by_verb(text),
    }
}

/// `White to win`, `Black to play and draw`, `White to mate in 3`, `White wins`: the whole text, or up to a mark.
#[tactic(auto, unfolding(crate::specs::Aims::aim_in))]
pub fn aim_in(text: &[u8]) -> Option<Stipulation>
    ensures { result ≡ aim_in text.now }
{
    let (word, behind) = next_word(text)?;
    match (hero_of(word), goal_behind_hero(behind)) {
        (Some(hero), Some(goal)) => Some(Stipulation { hero, goal }),
        _ => None,
    }
}

fn says_win(text: &[u8]) -> bool
    ensures { result ≡ says_win text.now }
{
    text == b"+".as_slice() || text == b"Win".as_slice() || text == b"win".as_slice()
}

fn says_draw(text: &[u8]) -> bool
    ensures { result ≡ says_draw text.now }
{
    text == b"=".as_slice() || text == b"Draw".as_slice() || text == b"draw".as_slice()
}

/// `#3`.
fn mate_sign(word: &[u8]) -> Option<Goal>
    ensures { result ≡ mate_sign word.now }
{
    match word {
        [b'#', count @ ..] => mate_goal(read_mate_moves(count)),
        _ => None,
    }
}

fn goal_of_sign(word: Option<&[u8]>) -> Option<Goal>
    ensures { result ≡ goal_of_sign (option_map (λ w. w.now) word.entry) }
{
    let word = word?;
    if says_win(word) {
        Some(Goal::Win)
    } else if says_draw(word) {
        Some(Goal::Draw)
    } else {
        mate_sign(word)
    }
}

/// `#3`, `+`, `=`, `Mate in 3`, `Win`, `Draw`: the goal at the beginning of a text that names no hero.
#[tactic(auto, unfolding(crate::specs::Aims::goal_signed))]
pub fn goal_signed(text: &[u8]) -> Option<Goal>
    ensures { result ≡ goal_signed text.now }
{
    let (word, behind) = next_word(text)?;
    if let Some(goal) = goal_of_sign(last_of_phrase(word, behind)) {
        return Some(goal);
    }
    if word == b"Mate".as_slice() || word == b"mate".as_slice() {
        mate_goal(moves_behind_in(behind))
    } else {
        None
    }
}

/// The stipulation with a goal that names no hero: a mate is for the side to move, a win and a draw are White's.
pub fn signed_by(to_move: Side, goal: Option<Goal>) -> Option<Stipulation>
    ensures { result ≡ signed_by to_move goal }
{
    let hero = match goal {
        Some(Goal::MateIn(_)) => to_move,
        _ => Side::White,
    };
    match goal {
        Some(goal) => Some(Stipulation { hero, goal }),
        None => None,
    }
}

/// What a text states, if this side is to move.
#[tactic(auto, unfolding(crate::specs::Aims::aim_stated))]
pub fn aim_stated(text: &[u8], to_move: Side) -> Option<Stipulation>
    ensures { result ≡ aim_stated text.now to_move }
{
    match aim_in(text) {
        Some(aim) => Some(aim),
        None => signed_by(to_move, goal_signed(text)),
    }
}

/// A letter or a hyphen, as in `ser-h#3`.
fn is_kind_byte(b: u8) -> bool
    ensures { result ≡ is_kind_byte b }
{
    is_letter(b) || b == b'-'
}

/// The number of such bytes at the front of a word.
fn kind_len(word: &[u8]) -> usize
    ensures value { result ≡ prefix_len is_kind_byte word.now }
    ensures within { result ≤ length word.now }
{
    word.iter().take_while(|b| is_kind_byte(**b)).count()
}

/// `#..`, `h#..`, `s=..`.
fn is_problem(word: &[u8]) -> bool
    ensures { result ≡ is_problem word.now }
{
    let (_, rest) = word.split_at(kind_len(word));
    match rest {
        [first, ..] => *first == b'#' || *first == b'=',
        [] => false,
    }
}

/// `Mate in three`, `Win in 4`.
fn says_goal(word: &[u8]) -> bool
    ensures { result ≡ says_goal word.now }
{
    says_win(word) || says_draw(word) || word == b"Mate".as_slice() || word == b"mate".as_slice()
}

fn says_in(behind: &[u8]) -> bool
    ensures { result ≡ says_in (first_word behind.now) }
{
    match next_word(behind) {
        Some((word, _)) => word == b"in".as_slice(),
        None => false,
    }
}

fn says_mover(word: Option<&[u8]>) -> bool
    ensures { result ≡ says_mover (option_map (λ w. w.now) word.entry) }
{
    match word {
        Some(word) => word == b"move".as_slice() || word == b"play".as_slice(),
        None => false,
    }
}

/// After `to`: only `move` or `play`.
fn names_mover(text: &[u8]) -> bool
    ensures { result ≡ names_mover (first_word text.now) }
{
    match next_word(text) {
        Some((word, behind)) => says_mover(last_of_phrase(word, behind)),
        None => false,
    }
}

/// After the hero: `to` with more than who moves, or `mates`.
fn asks_goal(text: &[u8]) -> bool
    ensures { result ≡ asks_goal (first_word text.now) }
{
    match next_word(text) {
        Some((word, behind)) => {
            if word == b"to".as_slice() {
                !names_mover(behind)
            } else {
                word == b"mates".as_slice()
            }
        }
        None => false,
    }
}

fn looks_stated(text: &[u8]) -> bool
    ensures { result ≡ looks_stated (first_word text.now) }
{
    match next_word(text) {
        Some((word, behind)) => {
            is_problem(word)
                || (says_goal(word) && says_in(behind))
                || (hero_of(word).is_some() && asks_goal(behind))
        }
        None => false,
    }
}

/// Whether a comment has the form of a stipulation, and states none that is read: `h#2`, `White to selfmate in 2`.
#[tactic(auto, unfolding(crate::specs::Aims::is_unread_comment))]
pub fn is_unread_comment(text: &[u8]) -> bool
    ensures { result ≡ is_unread_comment text.now }
{
    looks_stated(text) && !(aim_in(text).is_some() || goal_signed(text).is_some())
}

fn is_no_text(text: &[u8]) -> bool
    ensures { result ≡ is_no_text (first_word text.now) }
{
    match next_word(text) {
        Some((word, _)) => {
            word == b"?".as_slice() || word == b"-".as_slice() || word == b"*".as_slice()
        }
        None => true,
    }
}

/// Whether the value of a tag Stipulation is neither unknown nor read.
#[tactic(auto, unfolding(crate::specs::Aims::is_unread_tag))]
pub fn is_unread_tag(value: &[u8]) -> bool
    ensures { result ≡ is_unread_tag value.now }
{
    !is_no_text(value) && !(aim_in(value).is_some() || goal_signed(value).is_some())
}

/// In a collection of studies White is the hero of a draw, whoever is to move.
pub fn aim_of_outcome(outcome: Outcome) -> Stipulation
    ensures { result ≡ aim_of_outcome outcome }
{
    let (hero, goal) = match outcome {
        Outcome::WhiteWins => (Side::White, Goal::Win),
        Outcome::BlackWins => (Side::Black, Goal::Win),
        Outcome::Drawn => (Side::White, Goal::Draw),
    };
    Stipulation { hero, goal }
}

fn outcome_said(said: Said) -> Option<Outcome>
    ensures { result ≡ outcome_said said }
{
    match said {
        Said::Result(outcome) => Some(outcome),
        _ => None,
    }
}

/// The value of the tag Result.
#[tactic(auto, unfolding(crate::specs::Aims::outcome_of_tag))]
pub fn outcome_of_tag(value: &[u8]) -> Option<Outcome>
    ensures { result ≡ outcome_of_tag value.now }
{
    outcome_said(say(trim_end(trim_start(value))))
}

/// The result that the stipulation wants.
fn outcome_wanted(stipulation: &Stipulation) -> Outcome
    ensures { result ≡ outcome_wanted stipulation.now }
{
    match (stipulation.goal, stipulation.hero) {
        (Goal::Draw, _) => Outcome::Drawn,
        (_, Side::White) => Outcome::WhiteWins,
        (_, Side::Black) => Outcome::BlackWins,
    }
}

fn no_doubts() -> Doubts
    ensures { result ≡ no_doubts }
{
    Doubts {
        comment_unread: false,
        tag_unread: false,
        tag_differs: false,
        result_tag_differs: false,
        result_differs: false,
    }
}

fn from_source(source: Source, stipulation: Option<Stipulation>) -> Option<Aim>
    ensures { result ≡ from_source source stipulation }
{
    match stipulation {
        Some(stipulation) => Some(Aim {
            stipulation,
            source,
            doubts: no_doubts(),
        }),
        None => None,
    }
}

fn aim_of_result(source: Source, outcome: Option<Outcome>) -> Option<Aim>
    ensures { result ≡ aim_of_result source outcome }
{
    match outcome {
        Some(outcome) => from_source(source, Some(aim_of_outcome(outcome))),
        None => None,
    }
}

fn or_aim(first: Option<Aim>, later: Option<Aim>) -> Option<Aim>
    ensures { result ≡ or_aim first later }
{
    match first {
        Some(aim) => Some(aim),
        None => later,
    }
}

/// What is stated and not understood is not passed over: only the caller's stipulation takes its place.
fn unless_unread(unread: bool, given: Option<Stipulation>, later: Option<Aim>) -> Option<Aim>
    ensures { result ≡ unless_unread unread given later }
{
    if unread {
        from_source(Source::Given, given)
    } else {
        later
    }
}

/// The first stipulation that a source states.
fn first_aim(sources: &Sources) -> Option<Aim>
    ensures { result ≡ first_aim sources.now }
{
    let by_end = or_aim(
        aim_of_result(Source::Result, sources.result),
        from_source(Source::Given, sources.given),
    );
    let by_result = or_aim(aim_of_result(Source::ResultTag, sources.result_tag), by_end);
    let by_tag = or_aim(
        from_source(Source::StipulationTag, sources.tag),
        unless_unread(sources.tag_unread, sources.given, by_result),
    );
    or_aim(
        from_source(Source::Comment, sources.comment),
        unless_unread(sources.comment_unread, sources.given, by_tag),
    )
}

fn other_outcome(a: Outcome, b: Outcome) -> bool
    ensures { result ≡ other_outcome a b }
{
    match (a, b) {
        (Outcome::WhiteWins, Outcome::WhiteWins) => false,
        (Outcome::BlackWins, Outcome::BlackWins) => false,
        (Outcome::Drawn, Outcome::Drawn) => false,
        _ => true,
    }
}

fn result_differs(wanted: Outcome, outcome: Option<Outcome>) -> bool
    ensures { result ≡ result_differs wanted outcome }
{
    match outcome {
        Some(outcome) => other_outcome(wanted, outcome),
        None => false,
    }
}

fn tag_differs(wanted: Outcome, tag: Option<Stipulation>) -> bool
    ensures { result ≡ tag_differs wanted tag }
{
    match tag {
        Some(stipulation) => other_outcome(wanted, outcome_wanted(&stipulation)),
        None => false,
    }
}

/// What speaks against the stipulation that wants this result.
fn doubts_of(sources: &Sources, wanted: Outcome) -> Doubts
    ensures { result ≡ doubts_of sources.now wanted }
{
    Doubts {
        comment_unread: sources.comment_unread,
        tag_unread: sources.tag_unread,
        tag_differs: tag_differs(wanted, sources.tag),
        result_tag_differs: result_differs(wanted, sources.result_tag),
        result_differs: result_differs(wanted, sources.result),
    }
}

/// The first stipulation that a source states, with what speaks against it.
#[tactic(auto, unfolding(crate::specs::Aims::aim_by_sources))]
pub fn aim_by_sources(sources: &Sources) -> Option<Aim>
    ensures { result ≡ aim_by_sources sources.now }
{
    match first_aim(sources) {
        Some(aim) => Some(Aim {
            stipulation: aim.stipulation,
            source: aim.source,
            doubts: doubts_of(sources, outcome_wanted(&aim.stipulation)),
        }),
        None => None,
    }
}

/// Why a game has no stipulation: which source is not understood, or none states one.
#[tactic(auto, unfolding(crate::specs::Aims::unaimed_words))]
pub fn unaimed_words(sources: &Sources) -> &'static [u8]
    ensures { result.now ≡ unaimed_words sources.now }
{
    if sources.comment_unread {
        b"StipulationUnread at its comment"
    } else if sources.tag_unread {
        b"StipulationUnread at its tag Stipulation"
    } else {
        b"NoStipulation"
    }
}
