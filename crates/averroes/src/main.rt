//! The program: the real host and the real sinks, and the top call over them.
#![tactic(auto)]

use av_run::{Status, run, stop_for_memory};
use jv_host::{DirHost, StdSink};
use std::alloc::{AllocError, Global};
use std::env;
use std::io::{self, ErrorKind};
use std::process::ExitCode;

/// The words that the program was given, without its own name.
fn words_given(rt: &HostRuntime) -> io::Result<Vec<String>> {
    let mut words = Vec::new(rt.alloc());
    for word in env::args(rt)?.skip(1) {
        words.push(word)?;
    }
    Ok(words)
}

/// The words as texts.
fn texts<'a>(alloc: Global, words: &'a [String]) -> Result<Vec<&'a str>, AllocError> {
    let mut texts = Vec::new(alloc);
    for word in words {
        texts.push(word.as_str())?;
    }
    Ok(texts)
}

/// Runs the command that the words name, over folders and the standard streams.
fn run_words(rt: &HostRuntime, words: &[String]) -> Result<Status, AllocError> {
    let texts = texts(rt.alloc(), words)?;
    let mut host = DirHost::new(rt.clone()?);
    let mut out = StdSink::new(rt.stdout());
    let mut err = StdSink::new(rt.stderr());
    Ok(run(rt.alloc(), texts.as_slice(), &mut host, &mut out, &mut err))
}

/// The status of a run. Words that aren't text are no command, as no words are.
fn status(rt: &HostRuntime) -> Result<Status, AllocError> {
    match words_given(rt) {
        Ok(words) => run_words(rt, words.as_slice()),
        Err(error) if error.kind() == ErrorKind::OutOfMemory => Err(AllocError),
        Err(_) => run_words(rt, &[]),
    }
}

fn main(rt: HostRuntime) -> ExitCode {
    // Memory is wanting here only where `run` was not called, which tells err itself.
    let status = match status(&rt) {
        Ok(status) => status,
        Err(AllocError) => stop_for_memory(&mut StdSink::new(rt.stderr())),
    };
    ExitCode::from(status.code())
}
