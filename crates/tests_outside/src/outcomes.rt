use crate::reading::{field, name_of};
use crate::sinks::sink;
use anyhow::{Result, bail};
use av_outcome::{Outcome, finish};
use jv_types::{Quantity, Refusal, Rule, RulePlace};
use std::alloc::{AllocError, Global};

/// The most bytes that a sink takes at once.
const STEP: usize = 1000;

/// A refusal at the main method of a class.
fn refused_at_main(alloc: Global, class: &str, rule: Rule, pc: u32) -> Result<Outcome, AllocError> {
    let place = RulePlace::Method {
        class: name_of(alloc, class)?,
        name: name_of(alloc, "main")?,
        desc: name_of(alloc, "([Ljava/lang/String;)V")?,
        pc,
    };
    Ok(Outcome::Refused(Refusal { rule, place }))
}

/// A refusal at a file.
fn refused_at_file(alloc: Global, name: &str, rule: Rule) -> Result<Outcome, AllocError> {
    let place = RulePlace::File(name_of(alloc, name)?);
    Ok(Outcome::Refused(Refusal { rule, place }))
}

/// A refusal at a class.
fn refused_at_class(alloc: Global, name: &str, rule: Rule) -> Result<Outcome, AllocError> {
    let place = RulePlace::Class(name_of(alloc, name)?);
    Ok(Outcome::Refused(Refusal { rule, place }))
}

/// The outcome of a kind, about the file, class or root of a name.
fn outcome_of(alloc: Global, kind: &str, name: &str) -> Result<Outcome> {
    Ok(match kind {
        "done" => Outcome::Done,
        "usage" => Outcome::Usage,
        "read" => Outcome::ReadFault(name_of(alloc, name)?),
        "write" => Outcome::WriteFault,
        "limit" => Outcome::Limit(Quantity::Files, 20_000),
        "memory" => Outcome::Memory,
        "file" => refused_at_file(alloc, name, Rule::NotClass)?,
        "class" => refused_at_class(alloc, name, Rule::LibraryNamesApplication)?,
        "method" => refused_at_main(alloc, name, Rule::TypeRule, 65_534)?,
        _ => bail!("no such kind of outcome"),
    })
}

/// The status of an outcome, and what err is told.
pub fn outcome_row(rt: &HostRuntime, fields: &[&str]) -> Result<()> {
    let outcome = outcome_of(rt.alloc(), field(fields, 2)?, field(fields, 3)?)?;
    let mut err = sink(rt, STEP, "")?;
    let status = finish(&mut err, &outcome);
    println!(rt; "status {}", status.code())?;
    println!(rt; "err [{}]", str::from_utf8(err.taken())?)?;
    Ok(())
}
