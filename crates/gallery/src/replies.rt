//! Replies and report lines: for each name the replies to the script of that name, after a line with its name, then the lines of its
//! studies. Tables are built on the way, since there are no files.
use std::alloc::{Allocator, Global};
use std::io::{BufReader, ErrorKind, Read, Write};
use std::{fs, io};
use study_command::Line;
use study_prober::WholeTables;
use study_report::{Lines, report_session};
use study_script::{
    Document, MemoryStore, RunFault, Session, Summary, TableStore, Tables, run_session,
};
use study_table::TableSet;

/// Answers and reports the scripts of these names, one after the other.
///
/// No contract: the output is compared with the stored one.
pub fn answer_scripts<W: Write>(rt: &HostRuntime, names: &[String], out: &mut W) -> io::Result<()> {
    let alloc = rt.alloc();
    for name in names {
        writeln!(out, "== {name}")?;
        answer(rt, alloc, name.as_str(), out)?;
    }
    Ok(())
}

/// A store without files, and without writers for saved files.
fn no_files<'a, A: Allocator>(_alloc: &'a A) -> MemoryStore<'a, 'a, 'a, A> {
    MemoryStore::new(&[])
}

fn answer<W: Write>(rt: &HostRuntime, alloc: Global, name: &str, out: &mut W) -> io::Result<()> {
    let mut path = String::new(alloc);
    path.push_str(name)?;
    path.push_str(".script")?;
    let mut store = no_files(&alloc);
    let mut replies = BufReader::new(alloc, fs::open(rt, path.as_str())?)?;
    let mut lines = BufReader::new(alloc, fs::open(rt, path.as_str())?)?;
    answer_over(&alloc, name, &mut replies, &mut lines, out, &mut store)
}

/// The replies to a script, and the lines of its report by the tables that it built.
fn answer_over<'a, R: Read, W: Write, S: TableStore, A: Allocator>(
    alloc: &'a A,
    name: &str,
    replies: &mut R,
    lines: &mut R,
    out: &mut W,
    store: &mut S,
) -> io::Result<()> {
    let mut line = Line::new(alloc)?;
    let mut session = Session {
        alloc,
        document: Document::Empty,
        tables: Tables::Whole(WholeTables::new(TableSet::new(alloc)?)),
        store,
        separate: false,
    };
    end(run_session(&mut line, replies, out, &mut session))?;
    writeln!(out, "== {name}, lines of a report")?;
    session.document = Document::Empty;
    end(report_session(&mut line, lines, out, &mut Lines, &mut session))
}

fn end(answer: Result<Summary, RunFault>) -> io::Result<()> {
    match answer {
        Ok(_) => Ok(()),
        Err(_) => Err(io::Error::from(ErrorKind::Other)),
    }
}
