use crate::reading::{field, parts};
use anyhow::Result;
use av_words::{Request, request_of};

/// What words ask for.
pub fn words_row(rt: &HostRuntime, fields: &[&str]) -> Result<()> {
    let words = parts(rt.alloc(), field(fields, 2)?, ',')?;
    match request_of(rt.alloc(), &words)? {
        Some(Request::Calls { root, name }) => println!(rt; "calls [{root}] [{name}]")?,
        Some(Request::Verify { app, lib }) => println!(rt; "verify [{app}] [{lib}]")?,
        None => println!(rt; "no command")?,
    }
    Ok(())
}
