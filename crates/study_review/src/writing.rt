//! The review of a study, and writing it.
ghost use Rattle.std.specs.Prelude.{◌≡◌, ◌++◌, List, ℕ, OnOk, IfOk, IfErr, Ok, Err};
ghost use Rattle.std.specs.Io.KnownBytes.{Appends};
ghost use Rattle.study_text.specs.Taken.{TakesPrefix};
ghost use Rattle.study_marks.specs.BenchState.{marked_study, IsKeptRight};
ghost use Rattle.study_marks.specs.Study.{Study, plain_study};
ghost use Rattle.study_marks.specs.Verdict.{verdict};
ghost use Rattle.study_marks.specs.declared.mark.Mark.{Mark as AMark};
ghost use Rattle.study_values.specs.declared.values.ProbeFault.{ProbeFault as AProbeFault};
ghost use Rattle.study_facts.specs.Asked.{within};
ghost use Rattle.study_facts.specs.Made.{HasAsked};
ghost use Rattle.study_review.specs.Review.{study_line, stipulation_line, empty_line, waste_line, waste_words, IsReview, IsReviewOf, BeginsReview};
ghost use Rattle.study_facts.specs.Order.{is_empty, HasReviewed};

use crate::review_lines::{ReviewLines, add_all};
use std::alloc::{AllocError, Allocator};
use std::io::Write;
use study_board::Side;
use study_facts::{ReviewFault, TextFault, add_time_verdict, aim_in, is_empty};
use study_marks::{Bench, Mark, Stipulation, hero_moves};
use study_notation::write_fen;
use study_pgn::{add_opening_words, meets_stipulation, root_mark};
use study_text::{Text, write_text};
use study_values::Values;

/// The line with the start of the study.
#[tactic(auto, unfolding(crate::specs::Review::study_line))]
fn add_study<'b, A: Allocator, B: Allocator>(
    text: &mut Text<'_, A>,
    bench: &Bench<'b, B>,
    number: u32,
) -> Result<(), AllocError>
    ensures { OnOk result (text.new ≡ text.old ++ study_line (marked_study bench.now) number) }
{
    let fen = write_fen(bench.start());
    text.add(b"study ")?;
    text.add_number(number)?;
    text.add(b" ")?;
    text.add(fen.as_str().as_bytes())?;
    text.add(b"\n")
}

/// The line of the stipulation, with its verdict.
#[tactic(auto, unfolding(crate::specs::Review::stipulation_line))]
pub fn add_stipulation_line<'b, A: Allocator, B: Allocator>(
    text: &mut Text<'_, A>,
    bench: &Bench<'b, B>,
    root: Mark,
) -> Result<(), AllocError>
    requires { root ≡ (marked_study bench.now).tree.label }
    ensures { OnOk result (text.new ≡ text.old ++ stipulation_line (marked_study bench.now)) }
{
    text.add(b"stipulation ")?;
    add_opening_words(
        text,
        bench.stipulation(),
        bench.start().position.to_move(),
        root,
    )?;
    text.add(b"\n")
}

fn add_empty<'b, A: Allocator, B: Allocator>(
    text: &mut Text<'_, A>,
    bench: &Bench<'b, B>,
) -> Result<(), AllocError>
    ensures { OnOk result (text.new ≡ text.old ++ empty_line (marked_study bench.now)) }
{
    if is_empty(bench) {
        return text.add(b"empty\n");
    }
    Ok(())
}

/// The lines before those of the faults.
fn add_head<'b, A: Allocator, B: Allocator>(
    text: &mut Text<'_, A>,
    bench: &Bench<'b, B>,
    root: Mark,
    number: u32,
) -> Result<(), AllocError>
    requires { root ≡ (marked_study bench.now).tree.label }
    ensures { OnOk result (text.new ≡ text.old ++ (study_line (marked_study bench.now) number
        ++ (stipulation_line (marked_study bench.now) ++ empty_line (marked_study bench.now)))) }
{
    add_study(text, bench, number)?;
    add_stipulation_line(text, bench, root)?;
    add_empty(text, bench)
}

/// The line of a study in which this side moves first, by the number of its faults that lose time alone.
fn add_waste_words<A: Allocator>(
    text: &mut Text<'_, A>,
    stipulation: Stipulation,
    first: Side,
    root: Mark,
    time: u32,
) -> Result<(), AllocError>
    ensures { (s : Study AMark) → s.stipulation ≡ stipulation
        → s.start.position.to_move ≡ first → s.tree.label ≡ root
        → OnOk result (text.new ≡ text.old ++ waste_words (verdict s) time) }
{
    let right = meets_stipulation(stipulation.goal, stipulation.hero == first, root.value);
    if !right || root.faults == 0 || time == 0 {
        return Ok(());
    }
    text.add(b"waste ")?;
    add_time_verdict(text, root.faults, time)?;
    text.add(b"\n")
}

/// The line with the number of faults that lose time alone, if the study is unsound and some do.
#[tactic(auto, unfolding(crate::specs::Review::waste_line))]
fn add_waste<'b, A: Allocator, B: Allocator>(
    text: &mut Text<'_, A>,
    bench: &Bench<'b, B>,
    root: Mark,
    time: u32,
) -> Result<(), AllocError>
    requires { root ≡ (marked_study bench.now).tree.label }
    ensures { OnOk result (text.new ≡ text.old ++ waste_line (marked_study bench.now) time) }
{
    add_waste_words(
        text,
        bench.stipulation(),
        bench.start().position.to_move(),
        root,
        time,
    )
}

/// Three texts, one after the other.
fn join<'a, A: Allocator>(
    mut text: Text<'a, A>,
    middle: Text<'a, A>,
    rest: Text<'a, A>,
) -> Result<Text<'a, A>, TextFault>
    ensures text { IfOk result (λ whole. whole ≡ (text.entry ++ middle.entry) ++ rest.entry) }
    ensures memory { IfErr result (λ reason. reason ≡ TextFault.OutOfMemory) }
{
    text.add(middle.as_slice())?;
    text.add(rest.as_slice())?;
    Ok(text)
}

/// The text of the review.
fn text_of<'a, 'b, A: Allocator, B: Allocator, V: Values>(
    alloc: &'a A,
    bench: &Bench<'b, B>,
    values: &mut V,
    number: u32,
) -> Result<Text<'a, A>, TextFault>
    ensures text { V.source.is_honest values.old
        → IfOk result (IsReview (marked_study bench.now) number) }
    ensures begins { IfOk result (BeginsReview number) }
    ensures asked { HasAsked (within (marked_study bench.now).start.position V.source)
        values.old result values.new }
{
    // (the study has at most 4,096 nodes)
    let _size = bench.size();
    let root = root_mark(bench);
    let mut head = Text::new(alloc);
    let mut draft = ReviewLines::new(alloc);
    add_head(&mut head, bench, root, number)?;
    add_all(alloc, &mut draft, bench, values)?;
    let time = draft.time_faults;
    add_waste(&mut draft.faults, bench, root, time)?;
    join(head, draft.faults, draft.nodes)
}

/// Writes the review of a study; `number` is its number.
///
/// The text is completed in memory first, so want of memory, and a value that cannot be read, is reported before the first byte. A writer that fails or takes
/// nothing ends the call, and then has a prefix of the text. The study is walked once. The time grows with the number of nodes, and with the depth of each,
/// since a node is looked up along its path.
pub fn write_review<'a, 'b, A: Allocator, B: Allocator, V: Values, W: Write>(
    alloc: &'a A,
    bench: &Bench<'b, B>,
    values: &mut V,
    number: u32,
    out: &mut W,
) -> Result<(), ReviewFault>
    ensures ok { V.source.is_honest values.old
        → OnOk result ((text : List ℕ) × IsReview (marked_study bench.now) number text
        × Appends (W.contents out.old) (W.contents out.new) text) }
    ensures plain { V.source.is_honest values.old → IsKeptRight bench.now
        → OnOk result ((text : List ℕ)
        × IsReviewOf (plain_study (marked_study bench.now)) number text
        × Appends (W.contents out.old) (W.contents out.new) text) }
    ensures begins { OnOk result ((text : List ℕ) × BeginsReview number text
        × Appends (W.contents out.old) (W.contents out.new) text) }
    ensures device { V.source.is_honest values.old → result ≡ Err ReviewFault.Device
        → (text : List ℕ) × IsReview (marked_study bench.now) number text
        × TakesPrefix (W.contents out.old) (W.contents out.new) text }
    ensures memory { result ≡ Err ReviewFault.OutOfMemory → out.new ≡ out.old }
    ensures no_value { (fault : AProbeFault)
        → result ≡ Err (ReviewFault.Values fault) → out.new ≡ out.old }
    ensures asked { HasReviewed (within (marked_study bench.now).start.position V.source)
        values.old result values.new }
{
    let text = text_of(alloc, bench, values, number)?;
    write_text(out, text.as_slice())?;
    Ok(())
}
