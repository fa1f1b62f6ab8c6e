//! The text of a study, and writing it.
ghost use Rattle.std.specs.Prelude.{◌≡◌, OnOk, IfOk, Err};
ghost use Rattle.std.specs.Io.KnownBytes.{Appends};
ghost use Rattle.study_text.specs.Taken.{TakesPrefix};
ghost use Rattle.study_marks.specs.BenchState.{marked_study};
ghost use Rattle.study_pgn.specs.Pgn.{movetext, pgn_text};

use crate::PgnFault;
use crate::root_comment::add_root_comment;
use crate::tags::add_tags;
use crate::value_text::result_text;
use crate::variations::add_moves_below;
use crate::wrap::add_wrapped;
use std::alloc::{AllocError, Allocator};
use std::io::Write;
use study_marks::{Bench, Mark};
use study_text::{Text, write_text};

/// The mark of the root.
pub fn root_mark<'b, B: Allocator>(bench: &Bench<'b, B>) -> Mark
    ensures { result ≡ (marked_study bench.now).tree.label }
{
    bench.root().mark()
}

#[tactic(auto, unfolding(crate::specs::Pgn::movetext))]
fn movetext<'a, 'b, A: Allocator, B: Allocator>(
    alloc: &'a A,
    bench: &Bench<'b, B>,
    root: Mark,
) -> Result<Text<'a, A>, AllocError>
    requires { root ≡ (marked_study bench.now).tree.label }
    ensures { IfOk result (λ text. text ≡ movetext (marked_study bench.now)) }
{
    let start = bench.start();
    let mut text = Text::new(alloc);
    let first = start.position.to_move();
    add_root_comment(&mut text, bench.stipulation(), first, root)?;
    add_moves_below(&mut text, &bench.root(), start)?;
    text.add(b" ")?;
    text.add(result_text(first, root.value))?;
    Ok(text)
}

#[tactic(auto, unfolding(crate::specs::Pgn::pgn_text))]
fn pgn_text<'a, 'b, A: Allocator, B: Allocator>(
    alloc: &'a A,
    bench: &Bench<'b, B>,
) -> Result<Text<'a, A>, AllocError>
    ensures { IfOk result (λ text. text ≡ pgn_text (marked_study bench.now)) }
{
    let root = root_mark(bench);
    let moves = movetext(alloc, bench, root)?;
    let mut text = Text::new(alloc);
    add_tags(&mut text, bench, root)?;
    text.add(b"\n")?;
    add_wrapped(&mut text, moves.as_slice())?;
    text.add(b"\n")?;
    Ok(text)
}

/// Writes the PGN of a study.
///
/// The text is completed in memory first, so want of memory is reported before the first byte. A writer that fails or takes nothing ends the call, and then
/// has a prefix of the text. The time grows with the number of nodes: each is reached from its parent, and none is looked up along its path.
pub fn write_pgn<'a, 'b, A: Allocator, B: Allocator, W: Write>(
    alloc: &'a A,
    bench: &Bench<'b, B>,
    out: &mut W,
) -> Result<(), PgnFault>
    ensures ok { OnOk result
        (Appends (W.contents out.old) (W.contents out.new) (pgn_text (marked_study bench.now))) }
    ensures device { result ≡ Err PgnFault.Device
        → TakesPrefix (W.contents out.old) (W.contents out.new)
        (pgn_text (marked_study bench.now)) }
    ensures memory { result ≡ Err PgnFault.OutOfMemory → out.new ≡ out.old }
{
    let Ok(text) = pgn_text(alloc, bench) else {
        return Err(PgnFault::OutOfMemory);
    };
    match write_text(out, text.as_slice()) {
        Ok(()) => Ok(()),
        Err(_) => Err(PgnFault::Device),
    }
}
