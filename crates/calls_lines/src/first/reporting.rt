ghost use Rattle.std.specs.Prelude.{◌≡◌, IfOk, OnOk, Contains};
ghost use Rattle.calls_form.specs.Kinds.{IsKindSafe};
ghost use Rattle.calls_form.specs.Ranges.{IsInRange};
ghost use Rattle.calls_lines.specs.First.Lines.{HasLine, AreLines};
ghost use Rattle.calls_lines.specs.First.Adding.{IsTextOf, AddsLines};
ghost use Rattle.calls_lines.specs.First.Covered.{AreClassLines};

use crate::first::joining::{paired, worded};
use crate::first::texts::{label_text, method_text, place_text, site_text, target_text};
use calls_facts::first::least_facts;
use calls_form::object_class::ObjectClass;
use jv_types::{CallFrom, Fact, Label, MethodId, Name, Place};
use std::alloc::{AllocError, Global};
use std::collections::BTreeSet;

/// The line of a call of a method, none where neither end is in the class. Only memory can be wanting.
fn edge_line(
    alloc: Global,
    class: &ObjectClass,
    from: CallFrom,
    to: MethodId,
) -> Result<Option<Name>, AllocError>
    ensures { IfOk result (IsTextOf (HasLine class.now (Fact.Edge from to))) }
{
    match from {
        CallFrom::Root => worded(alloc, b"edge library ", method_text(alloc, class, to)?),
        CallFrom::Site { method, pc } => {
            let site = site_text(alloc, class, method, pc)?;
            let target = target_text(alloc, class, to)?;
            paired(alloc, b"edge ", site, target)
        }
    }
}

/// The line of an object at a place, none where the class has no such label or place. Only memory can be
/// wanting.
fn point_line(
    alloc: Global,
    class: &ObjectClass,
    place: Place,
    label: Label,
) -> Result<Option<Name>, AllocError>
    ensures { IfOk result (IsTextOf (HasLine class.now (Fact.Pt place label))) }
{
    let place = place_text(alloc, class, place)?;
    let label = label_text(alloc, class, label)?;
    paired(alloc, b"pt ", place, label)
}

/// The line of a fact, none where it has none. Only memory can be wanting.
fn fact_line(alloc: Global, class: &ObjectClass, fact: Fact) -> Result<Option<Name>, AllocError>
    ensures { IfOk result (IsTextOf (HasLine class.now fact)) }
{
    match fact {
        Fact::Reach(_) => Ok(None),
        Fact::Edge(from, to) => edge_line(alloc, class, from, to),
        Fact::Pt(place, label) => point_line(alloc, class, place, label),
    }
}

/// Adds a line, unless it is there. Only memory can be wanting.
fn add_line(lines: &mut BTreeSet<Name>, line: Name) -> Result<(), AllocError>
    ensures { OnOk result (AddsLines (λ added. added ≡ line) lines.old.keys lines.new.keys) }
{
    lines.insert(line)?;
    Ok(())
}

/// Adds the line of a fact, if it has one. Only memory can be wanting.
fn add_fact(
    alloc: Global,
    lines: &mut BTreeSet<Name>,
    class: &ObjectClass,
    fact: Fact,
) -> Result<(), AllocError>
    ensures { OnOk result (AddsLines (HasLine class.now fact) lines.old.keys lines.new.keys) }
{
    let Some(line) = fact_line(alloc, class, fact)? else {
        return Ok(());
    };
    add_line(lines, line)
}

/// The lines of these facts of a class: exactly them, in the order of their bytes. Only memory can be
/// wanting.
pub fn fact_lines(
    alloc: Global,
    class: &ObjectClass,
    facts: &[Fact],
) -> Result<BTreeSet<Name>, AllocError>
    ensures { IfOk result (λ lines. AreLines class.now (Contains facts.now) lines.keys) }
{
    let mut lines = BTreeSet::new(alloc);
    for fact in facts {
        add_fact(alloc, &mut lines, class, *fact)?;
    }
    Ok(lines)
}

/// The lines of a class: exactly those of its least facts, which cover all its runs. Only memory can be
/// wanting.
pub fn class_lines(alloc: Global, class: &ObjectClass) -> Result<BTreeSet<Name>, AllocError>
    requires safe { IsKindSafe class.now }
    requires range { IsInRange class.now }
    ensures { IfOk result (λ lines. AreClassLines class.now lines.keys) }
{
    let facts = least_facts(alloc, class)?;
    fact_lines(alloc, class, facts.as_slice())
}
