use av_collected::{CollectStop, Collected};
use jv_types::{Name, Shape};
use std::alloc::Global;
use std::test::Fail;

/// Whether what was collected of a class is told: something of it, or the class alone where it is none of `java/`.
fn is_told(class: &Shape) -> bool {
    !class.name.as_slice().starts_with(b"java/".as_slice())
        || !class.fields.as_slice().is_empty()
        || !class.methods.as_slice().is_empty()
}

/// Adds a name behind a sign.
fn add(text: &mut String, sign: char, name: &Name) -> Result<(), Fail> {
    text.push(sign)?;
    text.push_str(str::from_utf8(name.as_slice())?)?;
    Ok(())
}

/// Adds a class: its name, and behind each point that of a field or a method.
fn add_class(text: &mut String, class: &Shape) -> Result<(), Fail> {
    add(text, ' ', &class.name)?;
    for field in class.fields.as_slice() {
        add(text, '.', &field.name)?;
    }
    for method in class.methods.as_slice() {
        add(text, '.', &method.name)?;
    }
    Ok(())
}

/// What was collected: how many classes, the greatest dimension, and the classes with their members. Of those of
/// `java/` just the ones that have members are told.
fn told(alloc: Global, found: &Collected) -> Result<String, Fail> {
    let mut text = format!(in alloc; "{} {}", found.shapes.len(), found.dims)?;
    for class in found.shapes.as_slice() {
        if is_told(class) {
            add_class(&mut text, class)?;
        }
    }
    Ok(text)
}

/// The cause of a stop, and its class.
fn cause(alloc: Global, word: &str, class: &Name) -> Result<String, Fail> {
    let mut text = format!(in alloc; "{word}")?;
    add(&mut text, ' ', class)?;
    Ok(text)
}

/// An answer of collection as text.
pub fn shown(alloc: Global, answer: &Result<Collected, CollectStop>) -> Result<String, Fail> {
    match answer {
        Ok(found) => told(alloc, found),
        Err(CollectStop::LibraryForm(name)) => cause(alloc, "LibraryForm", name),
        Err(CollectStop::Missing(name)) => cause(alloc, "Missing", name),
        Err(CollectStop::NamesApplication(name)) => cause(alloc, "NamesApplication", name),
        Err(CollectStop::Limit(_)) => Ok(format!(in alloc; "Limit")?),
        Err(CollectStop::Failed) => Ok(format!(in alloc; "Failed")?),
        Err(CollectStop::Memory) => Ok(format!(in alloc; "Memory")?),
    }
}
