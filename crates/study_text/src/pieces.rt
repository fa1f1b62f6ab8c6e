//! Texts, piece by piece.
ghost use Rattle.std.specs.Prelude.{◌≡◌, ◌++◌, OnOk, OnErr};
ghost use Rattle.std.specs.List.{flat_map};
ghost use Rattle.std.specs.Io.KnownBytes.{Appends};
ghost use Rattle.study_text.specs.Taken.{TakesPrefix};
ghost use Rattle.study_text.specs.Pieces.{piece_text};

use crate::paths::{add_child, add_path, write_child, write_path};
use crate::writing::{write_number, write_text};
use crate::{DeviceFailed, Text};
use std::alloc::{AllocError, Allocator};
use std::io::Write;

/// A piece of a text. A path is `root`, or places joined by points.
#[derive(Clone, Copy)]
pub enum Piece<'t> {
    Bytes(&'t [u8]),
    Number(u32),
    Path(&'t [u16]),
    /// The path of the child at a place.
    Child(&'t [u16], u16),
}

/// Adds pieces, one after the other.
pub fn add_pieces<A: Allocator>(
    out: &mut Text<'_, A>,
    pieces: &[Piece<'_>],
) -> Result<(), AllocError>
    ensures { OnOk result (out.new ≡ out.old ++ flat_map piece_text pieces.now) }
{
    let mut rest = pieces;
    while let [first, more @ ..] = rest {
        add_piece(out, *first)?;
        rest = more;
    }
    Ok(())
}

fn add_piece<A: Allocator>(out: &mut Text<'_, A>, piece: Piece<'_>) -> Result<(), AllocError>
    ensures { OnOk result (out.new ≡ out.old ++ piece_text piece.entry) }
{
    match piece {
        Piece::Bytes(bytes) => out.add(bytes),
        Piece::Number(number) => out.add_number(number),
        Piece::Path(steps) => add_path(out, steps),
        Piece::Child(steps, place) => add_child(out, steps, place),
    }
}

/// Writes pieces, one after the other, or stops when the writer fails or takes nothing.
pub fn write_pieces<W: Write>(out: &mut W, pieces: &[Piece<'_>]) -> Result<(), DeviceFailed>
    ensures ok { OnOk result
        (Appends (W.contents out.old) (W.contents out.new) (flat_map piece_text pieces.now)) }
    ensures err { OnErr result
        (TakesPrefix (W.contents out.old) (W.contents out.new) (flat_map piece_text pieces.now)) }
{
    for piece in pieces {
        write_piece(out, *piece)?;
    }
    Ok(())
}

fn write_piece<W: Write>(out: &mut W, piece: Piece<'_>) -> Result<(), DeviceFailed>
    ensures ok { OnOk result
        (Appends (W.contents out.old) (W.contents out.new) (piece_text piece.entry)) }
    ensures err { OnErr result
        (TakesPrefix (W.contents out.old) (W.contents out.new) (piece_text piece.entry)) }
{
    match piece {
        Piece::Bytes(bytes) => write_text(out, bytes),
        Piece::Number(number) => write_number(out, number),
        Piece::Path(steps) => write_path(out, steps),
        Piece::Child(steps, place) => write_child(out, steps, place),
    }
}
