//! Facts for setting up a position: the tables that a script's positions need, and passed squares.
ghost use Rattle.std.specs.Prelude.{◌≡◌, ◌++◌, List, IfOk, IfErr, OnOk};
ghost use Rattle.study_material.specs.declared.class.Class.{Class as AClass};
ghost use Rattle.study_command.specs.Lines.{script_lines};
ghost use Rattle.study_view.specs.Setup.{passed_squares, AreClassesNeeded};
ghost use Rattle.study_web.specs.Answers.{MayEnd, IsNoMemory, IsOutOfMemory, IsUnread};
ghost use Rattle.study_web.specs.Setup.{position_in, positions_in, classes_text, squares_text, AreTables};
ghost use Rattle.study_web.specs.Reported.{line_of};
ghost use Rattle.study_notation.specs.FenSpelling.{square_text};
ghost use Rattle.study_material.specs.Class.{name_of};

use crate::reply::AnswerFault;
use crate::request_fault::RequestFault;
use std::alloc::{AllocError, Allocator};
use study_board::{Position, Square};
use study_command::{Command, Line, LineFault, read_byte, read_command};
use study_material::Class;
use study_notation::{Start, read_fen};
use study_reply::Refusal;
use study_script::RunFault;
use study_view::{classes_needed, passed_squares};

/// Adds the position of a line `position` or `shift`, if its FEN is valid.
fn add_position<'a, A: Allocator>(
    list: &mut Vec<Position, &'a A>,
    line: &[u8],
) -> Result<(), AllocError>
    ensures { OnOk result (list.new.items ≡ list.old.items ++ position_in line.now) }
{
    match read_command(line) {
        Ok(Some(Command::FromFen(_, fen))) => match read_fen(fen) {
            Ok(start) => {
                list.push(start.position)?;
                Ok(())
            }
            Err(_) => Ok(()),
        },
        _ => Ok(()),
    }
}

/// The positions of the lines of a script, in their order.
pub fn positions_in<'a, A: Allocator>(
    alloc: &'a A,
    script: &[u8],
) -> Result<Vec<Position, &'a A>, RunFault>
    ensures ok { IfOk result (λ list. list.items ≡ positions_in (script_lines script.now)) }
    ensures err { IfErr result (IsUnread script.now) }
{
    let Ok(mut line) = Line::new(alloc) else {
        return Err(RunFault::OutOfMemory);
    };
    let mut reader = script;
    let mut list = Vec::new(alloc);
    for n in 0..100_000u32 {
        match line.read(&mut reader) {
            // reading a slice cannot fail
            Err(LineFault::Device) => return Err(RunFault::OutOfMemory),
            Err(LineFault::TooLong) => return Err(RunFault::LineTooLong(n + 1)),
            Ok(false) => return Ok(list),
            Ok(true) => {}
        }
        if add_position(&mut list, line.as_slice()).is_err() {
            return Err(RunFault::OutOfMemory);
        }
    }
    match read_byte(&mut reader) {
        Err(_) => Err(RunFault::OutOfMemory),
        Ok(None) => Ok(list),
        Ok(Some(_)) => Err(RunFault::TooManyLines),
    }
}

pub(crate) fn add<A: Allocator>(text: &mut Vec<u8, &A>, bytes: &[u8]) -> Result<(), AllocError>
    ensures { OnOk result (text.new.items ≡ text.old.items ++ bytes.now) }
{
    text.extend_from_slice(bytes)?;
    Ok(())
}

fn add_name<A: Allocator>(text: &mut Vec<u8, &A>, class: Class) -> Result<(), AllocError>
    ensures { OnOk result (text.new.items ≡ text.old.items ++ line_of (name_of class)) }
{
    add(text, class.name().as_bytes())?;
    add(text, b"\n")
}

fn add_names<A: Allocator>(text: &mut Vec<u8, &A>, classes: &[Class]) -> Result<(), AllocError>
    ensures { OnOk result (text.new.items ≡ text.old.items ++ classes_text classes.now) }
{
    match classes.split_first() {
        None => Ok(()),
        Some((class, rest)) => {
            add_name(text, *class)?;
            add_names(text, rest)
        }
    }
}

fn add_square<A: Allocator>(text: &mut Vec<u8, &A>, x: Square) -> Result<(), AllocError>
    ensures { OnOk result (text.new.items ≡ text.old.items ++ line_of (square_text x)) }
{
    add(text, &[b'a' + x.file(), b'1' + x.rank()])?;
    add(text, b"\n")
}

fn add_squares<A: Allocator>(text: &mut Vec<u8, &A>, squares: &[Square]) -> Result<(), AllocError>
    ensures { OnOk result (text.new.items ≡ text.old.items ++ squares_text squares.now) }
{
    match squares.split_first() {
        None => Ok(()),
        Some((x, rest)) => {
            add_square(text, *x)?;
            add_squares(text, rest)
        }
    }
}

/// The names of the classes that positions need, each after those that it needs, one a line.
fn needs_of<'a, A: Allocator>(
    alloc: &'a A,
    positions: &[Position],
) -> Result<Vec<u8, &'a A>, AllocError>
    ensures { IfOk result (λ text. (classes : List AClass) × AreClassesNeeded positions.now classes
        × (text.items ≡ classes_text classes)) }
{
    let classes = classes_needed(positions);
    let mut text = Vec::new(alloc);
    add_names(&mut text, classes.as_slice())?;
    Ok(text)
}

/// The classes that the positions of a script need, each after those that it needs, one a line.
pub fn tables_of<'a, A: Allocator>(
    alloc: &'a A,
    script: &[u8],
) -> Result<Vec<u8, &'a A>, AnswerFault>
    ensures text { IfOk result (λ text. AreTables (script_lines script.now) text.items) }
    ensures none { IfErr result (MayEnd IsOutOfMemory (IsUnread script.now)) }
{
    match positions_in(alloc, script) {
        Err(fault) => Err(AnswerFault::Stopped(fault)),
        Ok(positions) => match needs_of(alloc, positions.as_slice()) {
            Ok(text) => Ok(text),
            Err(_) => Err(AnswerFault::Denied(RequestFault::Refused(Refusal::OutOfMemory))),
        },
    }
}

/// The squares that a pawn may have passed in a double step just before, in a position, one a line.
pub fn passed_of<'a, A: Allocator>(
    alloc: &'a A,
    start: &Start,
) -> Result<Vec<u8, &'a A>, AnswerFault>
    ensures text { IfOk result (λ text.
        text.items
        ≡ squares_text (passed_squares start.now.position.men start.now.position.to_move)) }
    ensures none { IfErr result (MayEnd IsOutOfMemory IsNoMemory) }
{
    let p = &start.position;
    let squares = passed_squares(p.men(), p.to_move());
    let mut text = Vec::new(alloc);
    match add_squares(&mut text, squares.as_slice()) {
        Ok(()) => Ok(text),
        Err(_) => Err(AnswerFault::Denied(RequestFault::Refused(Refusal::OutOfMemory))),
    }
}
