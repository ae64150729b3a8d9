use crate::reading::{field, number, numbers, parts};
use anyhow::{Result, ensure};
use jv_host::{MemSink, Sink, SinkFault, StdSink};
use std::io;

/// A sink in memory that takes so many bytes a call, whose calls of the numbers that a field lists fail.
pub fn sink(rt: &HostRuntime, step: usize, faults: &str) -> Result<MemSink> {
    ensure!(step >= 1, "a step of no bytes");
    Ok(MemSink::new(rt.alloc(), step, numbers(rt.alloc(), faults)?))
}

/// Hands a sink the pieces that a field lists, each once, and tells what it answers.
fn hand<S: Sink>(rt: &HostRuntime, sink: &mut S, text: &str) -> Result<()> {
    for piece in parts(rt.alloc(), text, ',')? {
        match sink.write(piece.as_bytes()) {
            Ok(count) => println!(rt; "took {count}")?,
            Err(SinkFault::Failed) => println!(rt; "failed")?,
            Err(SinkFault::Memory) => println!(rt; "memory")?,
        }
    }
    Ok(())
}

/// Pieces handed to a sink in memory, and what it took.
pub fn sink_row(rt: &HostRuntime, fields: &[&str]) -> Result<()> {
    let mut sink = sink(rt, number(field(fields, 2)?)?, field(fields, 3)?)?;
    hand(rt, &mut sink, field(fields, 4)?)?;
    println!(rt; "[{}]", str::from_utf8(sink.taken())?)?;
    Ok(())
}

/// Pieces handed to the standard output.
pub fn stream_row(rt: &HostRuntime, fields: &[&str]) -> Result<()> {
    let mut sink = StdSink::new(rt.stdout());
    hand(rt, &mut sink, field(fields, 2)?)
}

/// A writer that takes nothing.
#[derive(Drop)]
struct Full;

impl io::Write for Full {
    fn write(&mut self, _bytes: &[u8]) -> io::Result<usize> {
        Ok(0)
    }

    fn flush(&mut self) -> io::Result<()> {
        Ok(())
    }
}

/// Pieces handed to a writer that takes nothing.
pub fn full_row(rt: &HostRuntime, fields: &[&str]) -> Result<()> {
    let mut sink = StdSink::new(Full);
    hand(rt, &mut sink, field(fields, 2)?)
}
