//! Rows on what stands outside: the commands over a host and sinks in memory, and hosts and sinks themselves.
//!
//! Each line of the file `rows`, in the folder in which this runs, is a row, and prints what came of it; the
//! file `stdout` of this crate has what has to come. A row's fields are parted by `|`, the second of which is
//! its name, and what a field lists by `,`:
//!
//! - `run|NAME|WORDS|FILES|HOST FAULTS|STEP|OUT FAULTS|ERR FAULTS`: a command over a host in memory, and over
//!   sinks in memory that take STEP bytes a call. The faults are the numbers of the calls that fail.
//! - `words|NAME|WORDS`: what words ask for.
//! - `outcome|NAME|KIND|ABOUT`: the status of an outcome about a file, class or root, and what err is told.
//! - `memory|NAME|FILES|FAULTS|CALLS`: calls of a host in memory, and what was written.
//! - `folder|NAME|CALLS`: calls of a host over folders.
//! - `sink|NAME|STEP|FAULTS|PIECES`: pieces handed to a sink in memory, and what it took.
//! - `stream|NAME|PIECES`: pieces handed to the standard output.
//! - `full|NAME|PIECES`: pieces handed to a writer that takes nothing.
//!
//! A file is its root, its name and its content: `=` and a text, or the name of a file of the folder. A call
//! is `list ROOT MOST`, `read ROOT NAME MOST` or `write ROOT NAME TEXT`. An empty line is no row.
#![tactic(auto)]

mod commands;
mod hosts;
mod outcomes;
mod reading;
mod sinks;
mod words;

use anyhow::{Result, bail};
use commands::run_row;
use hosts::{folder_row, memory_row};
use outcomes::outcome_row;
use reading::{field, file_of, parts};
use sinks::{full_row, sink_row, stream_row};
use words::words_row;

/// What came of a row.
fn row(rt: &HostRuntime, line: &str) -> Result<()> {
    let fields = parts(rt.alloc(), line, '|')?;
    println!(rt; "{}: {}", field(&fields, 0)?, field(&fields, 1)?)?;
    match field(&fields, 0)? {
        "run" => run_row(rt, &fields),
        "words" => words_row(rt, &fields),
        "outcome" => outcome_row(rt, &fields),
        "memory" => memory_row(rt, &fields),
        "folder" => folder_row(rt, &fields),
        "sink" => sink_row(rt, &fields),
        "stream" => stream_row(rt, &fields),
        "full" => full_row(rt, &fields),
        _ => bail!("no such kind of row"),
    }
}

fn main(rt: HostRuntime) -> Result<()> {
    let rows = String::from_utf8(file_of(&rt, "rows")?)?;
    for line in rows.as_str().split('\n') {
        if !line.is_empty() {
            row(&rt, line)?;
        }
    }
    Ok(())
}
