//! Lists the positions with the themes that the file `requests` names, over tables that it builds: for each of its lines the class, the
//! theme, and how many lines and bytes the list has, with its SHA-256. The gate compares them with those of an independent program's
//! lists.
#![tactic(auto)]

use sha2::{Digest, Sha256};
use std::alloc::{Allocator, Global};
use std::io::{ErrorKind, LineWriter, Write};
use std::process::ExitCode;
use std::{fs, io};
use study_listing::{Form, NoWatch, list_found, read_request, selection_of};
use study_material::{Class, order};
use study_prober::WholeTables;
use study_retro::{BuildRoom, build};
use study_table::TableSet;
use study_text::MemoryWriter;
use study_values::cells;

/// The exit status is 0 where each list was made, and 1 where one was not.
fn main(rt: HostRuntime) -> ExitCode {
    match list_all(&rt) {
        Ok(()) => ExitCode::from(0),
        Err(error) => {
            let _ = eprintln!(&rt; "finding_lists: {error}");
            ExitCode::from(1)
        }
    }
}

fn list_all(rt: &HostRuntime) -> io::Result<()> {
    let alloc = rt.alloc();
    let requests = fs::read_to_string(rt, "requests")?;
    let mut out = LineWriter::new(alloc, rt.stdout())?;
    let mut values = WholeTables::new(TableSet::new(&alloc)?);
    for line in requests.lines() {
        list(&alloc, line, &mut values, &mut out)?;
    }
    out.flush()
}

fn refusal() -> io::Error {
    io::Error::from(ErrorKind::InvalidData)
}

/// Builds the tables of the class and of what its moves lead to, where they are not there.
fn build_tables<'a, A: Allocator>(
    alloc: &'a A,
    class: Class,
    values: &mut WholeTables<'a, A>,
) -> io::Result<()> {
    for each in order(class) {
        if !values.tables().has(each) {
            let room = BuildRoom::new(alloc, cells(each))?;
            let Ok((table, _)) = build(each, values.tables(), room) else {
                return Err(refusal());
            };
            if values.add(table).is_err() {
                return Err(refusal());
            }
        }
    }
    Ok(())
}

/// The digest of the list that a line names: `KPK`, a tab and `win 5`.
fn list<'a, A: Allocator, W: Write>(
    alloc: &'a A,
    line: &str,
    values: &mut WholeTables<'a, A>,
    out: &mut W,
) -> io::Result<()> {
    let Some((name, theme)) = line.split_once('\t') else {
        return Err(refusal());
    };
    let Ok(class) = Class::parse(name) else {
        return Err(refusal());
    };
    build_tables(alloc, class, values)?;
    let mut text = MemoryWriter::new(alloc);
    let count = list_into(alloc, class, theme, values, &mut text)?;
    let bytes = text.taken.len();
    write!(out, "{line}\t{count}\t{bytes}\t")?;
    for byte in Sha256::digest(text.taken.as_slice()) {
        write!(out, "{byte:02x}")?;
    }
    writeln!(out)
}

/// The list in the order of its numbers, and its length.
fn list_into<'a, A: Allocator>(
    alloc: &'a A,
    class: Class,
    theme: &str,
    values: &mut WholeTables<'a, A>,
    text: &mut MemoryWriter<'a, A>,
) -> io::Result<u32> {
    let mut words = Vec::new(alloc);
    for word in theme.split(' ') {
        words.push(word.as_bytes())?;
    }
    let Ok(request) = read_request(class, words.as_slice()) else {
        return Err(refusal());
    };
    match selection_of(&request, values) {
        Err(_) => Err(refusal()),
        Ok(None) => Ok(0),
        Ok(Some(selection)) => {
            match list_found(&selection, Form::Lines, values, text, &mut NoWatch) {
                Ok(count) => Ok(count),
                Err(_) => Err(refusal()),
            }
        }
    }
}
