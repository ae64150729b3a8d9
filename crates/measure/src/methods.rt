use crate::files::shown_name;
use crate::members::in_world;
use crate::sources::{ReadClass, Sources, sources_at};
use crate::verifying::{Outcome, outcome_of};
use anyhow::{Context, Result, bail};
use jv_desc::show_method;
use jv_host::DirHost;
use jv_types::{ClassId, MethodId, Name, Shape};
use std::alloc::Global;

/// How many methods have code, how many of them were verified, and how many instructions these have.
#[derive(Clone, Copy)]
struct Count {
    codes: u64,
    verified: u64,
    insns: u64,
}

impl Count {
    /// One method more.
    fn add(&mut self, outcome: Outcome) {
        match outcome {
            Outcome::NoCode => {}
            Outcome::Verified { insns } => {
                self.codes = self.codes.saturating_add(1);
                self.verified = self.verified.saturating_add(1);
                self.insns = self.insns.saturating_add(insns as u64);
            }
            Outcome::WrongReference { .. } | Outcome::Refused { .. } => {
                self.codes = self.codes.saturating_add(1);
            }
        }
    }
}

/// A method as it is printed: its class, its name and its descriptor.
fn shown_method(alloc: Global, shape: &Shape, index: u16) -> Result<String> {
    let method = shape
        .methods
        .as_slice()
        .get(usize::from(index))
        .context("no such method")?;
    let class = shown_name(alloc, &shape.name)?;
    let name = shown_name(alloc, &method.name)?;
    let descriptor = shown_name(alloc, &Name::from_vec(show_method(alloc, &method.desc)?))?;
    Ok(format!(in alloc; "{class} {name} {descriptor}")?)
}

/// Prints a line for a method that wasn't verified.
fn tell(
    rt: &(impl Print + AllocGlobal),
    shape: &Shape,
    index: u16,
    outcome: Outcome,
) -> Result<()> {
    match outcome {
        Outcome::NoCode | Outcome::Verified { .. } => {}
        Outcome::WrongReference { pc } => {
            let method = shown_method(rt.alloc(), shape, index)?;
            println!(rt; "{method} wrong reference at {pc}")?;
        }
        Outcome::Refused { rule, pc } => {
            let method = shown_method(rt.alloc(), shape, index)?;
            println!(rt; "{method} rule {} at {pc}", rule.number())?;
        }
    }
    Ok(())
}

/// Verifies the methods of the class of this number.
fn take_class(
    rt: &(impl Print + AllocGlobal),
    sources: &Sources,
    class: &ReadClass,
    number: u32,
    count: &mut Count,
) -> Result<()> {
    for place in 0..class.file.methods.len() {
        let index = u16::try_from(place).ok().context("too many methods")?;
        let id = MethodId {
            class: ClassId { number },
            index,
        };
        let id = in_world(&sources.world, id).context("no such method")?;
        let outcome = outcome_of(rt.alloc(), &sources.world, class, id)?;
        count.add(outcome);
        tell(rt, sources.world.shape(id.class), index, outcome)?;
    }
    Ok(())
}

/// Verifies the methods of each class once.
fn take_classes(
    rt: &(impl Print + AllocGlobal),
    sources: &Sources,
    count: &mut Count,
) -> Result<()> {
    for (number, class) in sources.classes.iter().enumerate() {
        let number = u32::try_from(number).ok().context("too many classes")?;
        take_class(rt, sources, class, number, count)?;
    }
    Ok(())
}

/// Reads an application and a library once, and verifies the methods of the application so many times. Prints
/// how many classes these are, and over all rounds how many methods had code, how many of them were verified,
/// and how many instructions these had; and a line for each method that wasn't.
pub fn measure_methods(
    rt: &HostRuntime,
    rounds: u32,
    application: &str,
    library: &str,
) -> Result<()> {
    let mut host = DirHost::new(rt.clone()?);
    let sources = sources_at(rt.alloc(), &mut host, application, library)?;
    let mut count = Count {
        codes: 0,
        verified: 0,
        insns: 0,
    };
    for _ in 0..rounds {
        take_classes(rt, &sources, &mut count)?;
    }
    println!(rt;
        "classes {} library {} codes {} verified {} insns {}",
        sources.classes.len(),
        sources
            .world
            .shapes()
            .len()
            .saturating_sub(sources.classes.len()),
        count.codes,
        count.verified,
        count.insns
    )?;
    if count.verified < count.codes {
        bail!(
            "{} methods weren't verified",
            count.codes.saturating_sub(count.verified)
        );
    }
    Ok(())
}
