ghost use Rattle.std.specs.Prelude.{IfOk};
ghost use Rattle.av_collected.specs.Conditions.{AreGiven};
ghost use Rattle.av_given.specs.Givens.{application_of};

use anyhow::{Context, Result, bail};
use av_collected::Collected;
use av_gathered::gather;
use av_given::Given;
use av_load::load_files;
use av_program::AcceptStop;
use av_stages::give;
use jv_host::{DirHost, Host};
use jv_types::{Name, RulePlace, Shape};
use std::alloc::{AllocError, Global};

/// What collection is given of the class files below a folder, where its rules and limits let it be given.
fn given_in<H: Host>(
    alloc: Global,
    host: &mut H,
    app: &Name,
    lib: &Name,
) -> Result<Given, AcceptStop>
    ensures { IfOk result (λ given. AreGiven (application_of given)) }
{
    let known = give(alloc, load_files(alloc, host, app, lib)?)?;
    Ok(known.given)
}

/// A name as text.
fn text(name: &Name) -> Result<&str> {
    str::from_utf8(name.as_slice()).context("a name that is no text")
}

/// Why nothing is collected.
fn stopped<T: Drop>(stop: &AcceptStop) -> Result<T> {
    match stop {
        AcceptStop::Refused(refusal) => {
            let number = refusal.rule.number();
            match &refusal.place {
                RulePlace::File(name) => bail!("rule {number} at the file {}", text(name)?),
                RulePlace::Class(name) => bail!("rule {number} at the class {}", text(name)?),
                RulePlace::Method { class, .. } => bail!("rule {number} in {}", text(class)?),
            }
        }
        AcceptStop::Limit(_, limit) => bail!("more than {limit}"),
        AcceptStop::ReadFault(name) => bail!("not read: {}", text(name)?),
        AcceptStop::Memory => bail!("out of memory"),
    }
}

/// How many fields and methods classes have.
fn members_of(shapes: &[Shape]) -> (usize, usize) {
    let mut fields = 0usize;
    let mut methods = 0usize;
    for shape in shapes {
        fields = fields.saturating_add(shape.fields.len());
        methods = methods.saturating_add(shape.methods.len());
    }
    (fields, methods)
}

/// Prints how much is collected.
fn tell(rt: &HostRuntime, found: &Collected) -> Result<()> {
    let (fields, methods) = members_of(found.shapes.as_slice());
    let classes = found.shapes.len();
    let dims = found.dims;
    println!(rt; "classes {classes} fields {fields} methods {methods} dimensions {dims}")?;
    Ok(())
}

/// Collects once, over the real host, and prints how much it is.
fn collect_once(rt: &HostRuntime, given: &Given, lib: &Name) -> Result<()>
    requires { AreGiven (application_of given.now) }
{
    let mut host = DirHost::new(rt.clone()?);
    match gather(rt.alloc(), &mut host, lib, given) {
        Ok(found) => tell(rt, &found),
        Err(stop) => stopped(&stop),
    }
}

/// Collects so many times.
fn collect_again(rt: &HostRuntime, rounds: u32, given: &Given, lib: &Name) -> Result<()>
    requires { AreGiven (application_of given.now) }
{
    for _ in 0..rounds {
        collect_once(rt, given, lib)?;
    }
    Ok(())
}

/// A name of a text.
fn name_of(alloc: Global, text: &str) -> Result<Name, AllocError> {
    Name::from_slice(alloc, text.as_bytes())
}

/// Reads the application once, collects so many times, and prints each time how much it was.
pub fn measure_collection(rt: &HostRuntime, rounds: u32, app: &str, lib: &str) -> Result<()> {
    let app = name_of(rt.alloc(), app)?;
    let lib = name_of(rt.alloc(), lib)?;
    let mut host = DirHost::new(rt.clone()?);
    match given_in(rt.alloc(), &mut host, &app, &lib) {
        Ok(given) => collect_again(rt, rounds, &given, &lib),
        Err(stop) => stopped(&stop),
    }
}
