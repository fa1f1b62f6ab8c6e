//! Paths of nodes as text: `root`, or places joined by points, without leading zeros.
ghost use Rattle.std.specs.Prelude.{◌≡◌, ◌∷◌, ◌++◌, [], OnOk, OnErr, decimal};
ghost use Rattle.std.specs.Io.KnownBytes.{Appends};
ghost use Rattle.study_text.specs.Taken.{TakesPrefix};
ghost use Rattle.study_text.specs.Paths.{path_text, more_places};

use crate::writing::{write_number, write_text};
use crate::{DeviceFailed, Text};
use std::alloc::{AllocError, Allocator};
use std::io::Write;

/// Adds a path.
pub fn add_path<A: Allocator>(text: &mut Text<'_, A>, steps: &[u16]) -> Result<(), AllocError>
    ensures { OnOk result (text.new ≡ text.old ++ path_text steps.now) }
{
    match steps.split_first() {
        None => text.add(b"root"),
        Some((first, rest)) => {
            text.add_number(*first as u32)?;
            add_places(text, rest)
        }
    }
}

fn add_places<A: Allocator>(text: &mut Text<'_, A>, steps: &[u16]) -> Result<(), AllocError>
    ensures { OnOk result (text.new ≡ text.old ++ more_places steps.now) }
{
    match steps.split_first() {
        None => Ok(()),
        Some((place, rest)) => {
            text.add(b".")?;
            text.add_number(*place as u32)?;
            add_places(text, rest)
        }
    }
}

/// Adds the path of the child at a place.
pub fn add_child<A: Allocator>(
    text: &mut Text<'_, A>,
    steps: &[u16],
    place: u16,
) -> Result<(), AllocError>
    ensures { OnOk result (text.new ≡ text.old ++ path_text (steps.now ++ place ∷ [])) }
{
    let Some((first, rest)) = steps.split_first() else {
        return text.add_number(place as u32);
    };
    text.add_number(*first as u32)?;
    add_places(text, rest)?;
    text.add(b".")?;
    text.add_number(place as u32)
}

/// Writes a path.
pub fn write_path<W: Write>(out: &mut W, steps: &[u16]) -> Result<(), DeviceFailed>
    ensures ok { OnOk result
        (Appends (W.contents out.old) (W.contents out.new) (path_text steps.now)) }
    ensures err { OnErr result
        (TakesPrefix (W.contents out.old) (W.contents out.new) (path_text steps.now)) }
{
    let Some((first, rest)) = steps.split_first() else {
        return write_text(out, b"root");
    };
    write_number(out, *first as u32)?;
    write_places(out, rest)
}

fn write_places<W: Write>(out: &mut W, steps: &[u16]) -> Result<(), DeviceFailed>
    ensures ok { OnOk result
        (Appends (W.contents out.old) (W.contents out.new) (more_places steps.now)) }
    ensures err { OnErr result
        (TakesPrefix (W.contents out.old) (W.contents out.new) (more_places steps.now)) }
{
    for place in steps {
        write_next(out, *place)?;
    }
    Ok(())
}

/// A place after a point.
fn write_next<W: Write>(out: &mut W, place: u16) -> Result<(), DeviceFailed>
    ensures ok { OnOk result
        (Appends (W.contents out.old) (W.contents out.new) (46 ∷ decimal place)) }
    ensures err { OnErr result
        (TakesPrefix (W.contents out.old) (W.contents out.new) (46 ∷ decimal place)) }
{
    write_text(out, b".")?;
    write_number(out, place as u32)
}

/// Writes the path of the child at a place.
pub fn write_child<W: Write>(out: &mut W, steps: &[u16], place: u16) -> Result<(), DeviceFailed>
    ensures ok { OnOk result
        (Appends (W.contents out.old) (W.contents out.new) (path_text (steps.now ++ place ∷ []))) }
    ensures err { OnErr result
        (TakesPrefix (W.contents out.old) (W.contents out.new)
        (path_text (steps.now ++ place ∷ []))) }
{
    let Some((first, rest)) = steps.split_first() else {
        return write_number(out, place as u32);
    };
    write_number(out, *first as u32)?;
    write_places(out, rest)?;
    write_next(out, place)
}
