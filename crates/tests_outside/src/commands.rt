use crate::hosts::memory;
use crate::reading::{field, number, parts};
use crate::sinks::sink;
use anyhow::Result;
use av_run::run;
use jv_host::{MemHost, MemSink};

/// What came of a command: its status, what it printed and told, and how many files it wrote.
fn tell(rt: &HostRuntime, status: u8, out: &[u8], err: &[u8], written: usize) -> Result<()> {
    println!(rt; "status {status}")?;
    println!(rt; "out [{}]", str::from_utf8(out)?)?;
    println!(rt; "err [{}]", str::from_utf8(err)?)?;
    println!(rt; "files written: {written}")?;
    Ok(())
}

/// Runs a command over a host and sinks in memory.
fn outcome(
    rt: &HostRuntime,
    words: &[&str],
    host: &mut MemHost,
    out: &mut MemSink,
    err: &mut MemSink,
) -> Result<()> {
    let status = run(rt.alloc(), words, host, out, err);
    tell(
        rt,
        status.code(),
        out.taken(),
        err.taken(),
        host.written().len(),
    )
}

/// A command over a host and sinks in memory: its status, and what it printed and told.
pub fn run_row(rt: &HostRuntime, fields: &[&str]) -> Result<()> {
    let words = parts(rt.alloc(), field(fields, 2)?, ',')?;
    let mut host = memory(rt, field(fields, 3)?, field(fields, 4)?)?;
    let step = number(field(fields, 5)?)?;
    let mut out = sink(rt, step, field(fields, 6)?)?;
    let mut err = sink(rt, step, field(fields, 7)?)?;
    outcome(rt, &words, &mut host, &mut out, &mut err)
}
