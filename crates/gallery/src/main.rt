//! The output for the studies of the gallery, for the gate: the replies to their scripts and the lines of their reports, then the views and surveys
//! that a browser page requests, then printed pages. The gate compares them with those of an independent program.
#![tactic(auto)]

mod pages;
mod replies;
mod views;

use crate::pages::write_pages;
use crate::replies::answer_scripts;
use crate::views::answer_requests;
use std::io::{LineWriter, Write};
use std::process::ExitCode;
use std::{env, io};

/// The exit status is 0 if every part was written to its end, and 1 otherwise.
fn main(rt: HostRuntime) -> ExitCode {
    match write_all(&rt) {
        Ok(()) => ExitCode::from(0),
        Err(error) => {
            let _ = eprintln!(&rt; "gallery: {error}");
            ExitCode::from(1)
        }
    }
}

fn write_all(rt: &HostRuntime) -> io::Result<()> {
    let alloc = rt.alloc();
    let names: Vec<String> = env::args(rt)?.skip(1).collect(alloc)?;
    let mut out = LineWriter::new(alloc, rt.stdout())?;
    answer_scripts(rt, names.as_slice(), &mut out)?;
    writeln!(out, "== views and surveys")?;
    answer_requests(rt, &mut out)?;
    writeln!(out, "== pages")?;
    write_pages(alloc, &mut out)?;
    out.flush()
}
