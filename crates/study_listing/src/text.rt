//! A position in a line of text, and its study as a script.
#![tactic(auto, using(study_search::proofs::Faults::can_report, study_search::proofs::Faults::if_reported))]

ghost use Rattle.std.specs.Prelude.{◌≡◌, ◌≤◌, ◌+◌, ◌*◌, ◌++◌, true, length, Some, IfOk, IfErr, IfSome};
ghost use Rattle.arrayvec.specs.ArrayString.{array_string_len};
ghost use Rattle.study_moves.specs.Rules.{is_legal};
ghost use Rattle.study_material.specs.Needs.{NeedsClass};
ghost use Rattle.study_search.specs.Faults.{CanReport, HasSameTables};
ghost use Rattle.study_search.specs.Rows.{IsLine};
ghost use Rattle.study_marks.specs.Marks.{value_words};
ghost use Rattle.study_listing.specs.Facts.{IsStudyOf, IsTextOf};
ghost use Rattle.study_listing.specs.MainLines.{few_moves};
ghost use Rattle.study_listing.specs.Lines.{fen_of, value_after, move_after, line_of};
ghost use Rattle.study_listing.specs.Lines.{hero_of, side_named, goal_named, stipulation_line, insert_line, lines_below, main_line, study_of};

use crate::facts::{Facts, facts_of, wanted_for};
use crate::main_line::main_line_of;
use arrayvec::ArrayString;
use study_board::{Position, Side};
use study_marks::value_words;
use study_moves::{Move, played};
use study_notation::{Start, write_fen, write_san};
use study_search::{Theme, value_of};
use study_values::{ProbeFault, Value, Values};

/// The form of a list.
#[derive(Clone, Copy, Debug, PartialEq, Eq)]
pub enum Form {
    /// A position a line, with its values or its key move.
    Lines,
    /// The commands of a script that makes each a study.
    Script,
}

/// The text of a position: 92 bytes at most of a line; 99 of a study, and 65 for each of its 23 moves at most.
pub type Listed = ArrayString<1600>;

/// A node of the main line: `0.0.0`.
type Node = ArrayString<48>;

fn push_fen(out: &mut Listed, p: &Position)
    requires { array_string_len out.old + 64 ≤ 1600 }
    ensures bytes { out.new.bytes ≡ out.old.bytes ++ fen_of p.now }
    ensures len { array_string_len out.new ≤ array_string_len out.old + 64 }
{
    let start = Start {
        position: p.copied(),
        clock: 0,
        number: 1,
    };
    let fen = write_fen(&start);
    out.push_str(fen.as_str());
}

/// The words of a value: `win 15`, `loss 4` or `draw`, with the plies to the mate.
fn push_value(out: &mut Listed, value: Value)
    requires { array_string_len out.old + 8 ≤ 1600 }
    ensures bytes { out.new.bytes ≡ out.old.bytes ++ value_words value }
    ensures len { array_string_len out.new ≤ array_string_len out.old + 8 }
{
    out.push_str(value_words(value).as_str());
}

fn push_value_after(out: &mut Listed, value: Option<Value>)
    requires { array_string_len out.old + 9 ≤ 1600 }
    ensures bytes { out.new.bytes ≡ out.old.bytes ++ value_after value }
    ensures len { array_string_len out.new ≤ array_string_len out.old + 9 }
{
    if let Some(value) = value {
        out.push_str(" ");
        push_value(out, value);
    }
}

fn push_move_after(out: &mut Listed, p: &Position, m: Option<Move>)
    requires room { array_string_len out.old + 9 ≤ 1600 }
    requires legal { IfSome m (λ k. is_legal p.now k ≡ true) }
    ensures bytes { out.new.bytes ≡ out.old.bytes ++ move_after p.now m }
    ensures len { array_string_len out.new ≤ array_string_len out.old + 9 }
{
    if let Some(m) = m {
        out.push_str(" ");
        let san = write_san(p, m);
        out.push_str(san.as_str());
    }
}

#[tactic(auto, unfolding(crate::specs::Lines::line_of))]
fn line_of(p: &Position, facts: &Facts) -> Listed
    requires { IfSome facts.now.key (λ k. is_legal p.now k ≡ true) }
    ensures { result.bytes ≡ line_of p.now facts.now }
{
    let mut out = ArrayString::new();
    push_fen(&mut out, p);
    push_value_after(&mut out, Some(facts.value));
    push_value_after(&mut out, facts.other);
    push_move_after(&mut out, p, facts.key);
    out.push_str("\n");
    out
}

/// The side that wins; in a draw the side to move.
fn hero_of(to_move: Side, value: Value) -> Side
    ensures { result ≡ hero_of to_move value }
{
    match value {
        Value::Loss(_) => to_move.other(),
        _ => to_move,
    }
}

fn push_side(out: &mut Listed, side: Side)
    requires { array_string_len out.old + 5 ≤ 1600 }
    ensures bytes { out.new.bytes ≡ out.old.bytes ++ side_named side }
    ensures len { array_string_len out.new ≤ array_string_len out.old + 5 }
{
    match side {
        Side::White => out.push_str("white"),
        Side::Black => out.push_str("black"),
    }
}

fn push_goal(out: &mut Listed, value: Value)
    requires { array_string_len out.old + 4 ≤ 1600 }
    ensures bytes { out.new.bytes ≡ out.old.bytes ++ goal_named value }
    ensures len { array_string_len out.new ≤ array_string_len out.old + 4 }
{
    match value {
        Value::Draw => out.push_str("draw"),
        _ => out.push_str("win"),
    }
}

#[tactic(auto, unfolding(crate::specs::Lines::stipulation_line))]
fn push_stipulation(out: &mut Listed, to_move: Side, value: Value)
    requires { array_string_len out.old + 21 ≤ 1600 }
    ensures bytes { out.new.bytes ≡ out.old.bytes ++ stipulation_line to_move value }
    ensures len { array_string_len out.new ≤ array_string_len out.old + 21 }
{
    out.push_str("stipulate ");
    push_side(out, hero_of(to_move, value));
    out.push_str(" ");
    push_goal(out, value);
    out.push_str("\n");
}

fn push_insert(out: &mut Listed, node: &Node, p: &Position, m: Move)
    requires room { array_string_len out.old + 65 ≤ 1600 }
    requires legal { is_legal p.now m ≡ true }
    ensures bytes { out.new.bytes ≡ out.old.bytes ++ insert_line node.now.bytes p.now m }
    ensures len { array_string_len out.new ≤ array_string_len out.old + 65 }
{
    out.push_str("insert ");
    out.push_str(node.as_str());
    out.push_str(" ");
    let san = write_san(p, m);
    out.push_str(san.as_str());
    out.push_str("\n");
}

/// The lines of moves in turn, from a node on.
fn push_below(out: &mut Listed, node: &mut Node, p: &Position, moves: &[Move])
    requires line { IsLine p.now moves.now }
    requires room { array_string_len out.old + 65 * length moves.now ≤ 1600 }
    requires depth { array_string_len node.old + 2 * length moves.now ≤ 48 }
    ensures bytes { out.new.bytes ≡ out.old.bytes ++ lines_below node.old.bytes p.now moves.now }
    ensures len { array_string_len out.new ≤ array_string_len out.old + 65 * length moves.now }
{
    if let Some((m, rest)) = moves.split_first() {
        let _men = p.men();
        push_insert(out, node, p, *m);
        node.push_str(".0");
        push_below(out, node, &played(p, *m), rest);
    }
}

/// The node `root`, or `0`.
fn node(name: &str) -> Node
    requires { length name.now ≤ 48 }
    ensures { result.bytes ≡ name.now }
{
    let mut node = ArrayString::new();
    node.push_str(name);
    node
}

/// The lines of moves in turn, from the start on.
fn push_main_line(out: &mut Listed, p: &Position, row: &[Move])
    requires line { IsLine p.now row.now }
    requires few { length row.now ≤ 23 }
    requires room { array_string_len out.old + 1495 ≤ 1600 }
    ensures bytes { out.new.bytes ≡ out.old.bytes ++ main_line p.now row.now }
    ensures len { array_string_len out.new ≤ array_string_len out.old + 1495 }
{
    if let Some((m, rest)) = row.split_first() {
        let _men = p.men();
        push_insert(out, &node("root"), p, *m);
        push_below(out, &mut node("0"), &played(p, *m), rest);
    }
}

#[tactic(auto, unfolding(crate::specs::Lines::study_of))]
fn study_of(p: &Position, value: Value, row: &[Move]) -> Listed
    requires line { IsLine p.now row.now }
    requires few { length row.now ≤ 23 }
    ensures { result.bytes ≡ study_of p.now value row.now }
{
    let mut out = ArrayString::new();
    out.push_str("position ");
    push_fen(&mut out, p);
    out.push_str("\n");
    push_stipulation(&mut out, p.to_move(), value);
    push_main_line(&mut out, p, row);
    out.push_str("pgn\n");
    out
}

/// The line of a position with this theme.
fn line_text<V: Values>(p: &Position, theme: Theme, values: &mut V) -> Result<Listed, ProbeFault>
    ensures game { V.source.is_honest values.old
        → IfOk result (λ text. IsTextOf Form.Lines theme p.now text.bytes) }
    ensures faults { IfErr result (CanReport V.source (NeedsClass p.now) values.old) }
    ensures honest { V.source.is_honest values.old → V.source.is_honest values.new }
    ensures tables { HasSameTables V.source values.old values.new }
{
    let wanted = wanted_for(theme);
    match facts_of(p, wanted, values) {
        Err(fault) => Err(fault),
        Ok(facts) => Ok(line_of(p, &facts)),
    }
}

/// The study with the row; without a row that right values do not give: twelve only moves and the replies between them are 23 moves.
fn study_with(p: &Position, value: Value, row: &[Move]) -> Listed
    requires { IsLine p.now row.now }
    ensures { result.bytes ≡ study_of p.now value (few_moves row.now) }
{
    if row.len() > 23 {
        return study_of(p, value, &[]);
    }
    study_of(p, value, row)
}

/// The study of a position: the result of the side to move, and the longest row of only moves that keep it.
fn study_text<V: Values>(p: &Position, values: &mut V) -> Result<Listed, ProbeFault>
    ensures game { V.source.is_honest values.old → IfOk result (λ text. IsStudyOf p.now text.bytes) }
    ensures faults { IfErr result (CanReport V.source (NeedsClass p.now) values.old) }
    ensures honest { V.source.is_honest values.old → V.source.is_honest values.new }
    ensures tables { HasSameTables V.source values.old values.new }
{
    match value_of(p, values) {
        Err(fault) => Err(fault),
        Ok(value) => match main_line_of(p, value, values) {
            Err(fault) => Err(fault),
            Ok(row) => Ok(study_with(p, value, row.as_slice())),
        },
    }
}

/// The text of a position with this theme.
pub fn text_of<V: Values>(
    p: &Position,
    form: Form,
    theme: Theme,
    values: &mut V,
) -> Result<Listed, ProbeFault>
    ensures game { V.source.is_honest values.old
        → IfOk result (λ text. IsTextOf form theme p.now text.bytes) }
    ensures faults { IfErr result (CanReport V.source (NeedsClass p.now) values.old) }
    ensures honest { V.source.is_honest values.old → V.source.is_honest values.new }
    ensures tables { HasSameTables V.source values.old values.new }
{
    match form {
        Form::Lines => line_text(p, theme, values),
        Form::Script => study_text(p, values),
    }
}
