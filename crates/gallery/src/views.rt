//! Views and surveys of studies of the gallery, over tables that are also made by requests: for each line of `views/requests` the line, then the
//! answer. Its first word names the script, and is `-` if none is needed.
use std::alloc::{Allocator, Global};
use std::io::{ErrorKind, Write};
use std::{fs, io};
use study_material::Class;
use study_web::{Answer, Ending, FileSpan, TableFiles, answer, put_ending};

/// Each after the classes that it needs.
const MADE: [Class; 7] = [
    Class::KK,
    Class::KQK,
    Class::KRK,
    Class::KBK,
    Class::KNK,
    Class::KPK,
    Class::KNNK,
];

/// The table files, one after the other, and the span of each.
#[derive(Drop)]
struct Files<'a, A: Allocator> {
    bytes: Vec<u8, &'a A>,
    spans: Vec<FileSpan, &'a A>,
}

/// Answers each request, after the line of the request.
///
/// No contract: the output is compared with the stored one.
pub fn answer_requests<W: Write>(rt: &HostRuntime, out: &mut W) -> io::Result<()> {
    let alloc = rt.alloc();
    let mut files = Files {
        bytes: Vec::new(&alloc),
        spans: Vec::new(&alloc),
    };
    for class in MADE {
        make(&alloc, class, &mut files)?;
    }
    let requests = fs::read_to_string(rt, "views/requests")?;
    for line in requests.lines() {
        if let Some((name, request)) = line.split_once(' ') {
            writeln!(out, "# {line}")?;
            let script = script_of(rt, alloc, name)?;
            write_answer(&alloc, request, script.as_str(), &files, out)?;
        }
    }
    Ok(())
}

/// Requests the file of a class, and puts it after the others.
fn make<'a, A: Allocator>(alloc: &'a A, class: Class, files: &mut Files<'a, A>) -> io::Result<()> {
    let mut request = String::new(alloc);
    request.push_str("make ")?;
    request.push_str(class.name())?;
    let made = ask(alloc, request.as_str(), "", files);
    if made.ended != Ending::Answered {
        return Err(io::Error::from(ErrorKind::Other));
    }
    files.spans.push(FileSpan {
        class: class as usize,
        start: files.bytes.len(),
        length: made.text.len(),
    })?;
    files.bytes.extend_from_slice(made.text.as_slice())?;
    Ok(())
}

fn script_of(rt: &HostRuntime, alloc: Global, name: &str) -> io::Result<String> {
    if name == "-" {
        return Ok(String::new(alloc));
    }
    let mut path = String::new(alloc);
    path.push_str("views/")?;
    path.push_str(name)?;
    path.push_str(".script")?;
    fs::read_to_string(rt, path.as_str())
}

fn ask<'a, A: Allocator>(
    alloc: &'a A,
    request: &str,
    script: &str,
    files: &Files<'a, A>,
) -> Answer<'a, A> {
    let handed_in = TableFiles {
        spans: files.spans.as_slice(),
        bytes: files.bytes.as_slice(),
        pages: None,
    };
    answer(
        alloc,
        request.as_bytes(),
        script.as_bytes(),
        &handed_in,
        &[],
    )
}

/// The text of an answer, and how it ended if it is not whole.
fn write_answer<'a, A: Allocator, W: Write>(
    alloc: &'a A,
    request: &str,
    script: &str,
    files: &Files<'a, A>,
    out: &mut W,
) -> io::Result<()> {
    let reply = ask(alloc, request, script, files);
    out.write_all(reply.text.as_slice())?;
    if reply.ended != Ending::Answered {
        let _ = put_ending(out, reply.ended);
    }
    Ok(())
}
