ghost use Rattle.std.specs.Prelude.{◌≡◌, ◌↔◌, IsTrue, IfOk, OnOk};
ghost use Rattle.std.specs.List.{slice_get};
ghost use Rattle.calls_facts.specs.First.Names.{pc_of};
ghost use Rattle.calls_facts.specs.First.Closing.{AddsFacts};
ghost use Rattle.calls_facts.specs.First.Prepared.{IsReadable, HasLowDepths, AreStepsOf, AreSteps, AreFinalizers, IsMainMethod, IsFinalizeMethod, MainEdge};

use crate::first::forcing::own;
use crate::first::found::Found;
use crate::first::step::{Step, given, taken};
use bitflags::Flags;
use calls_form::object_class::{Method, ObjectClass, Placed};
use jv_types::{Access, CallFrom, Fact, Seq};
use std::alloc::{AllocError, Global};

/// The offset of the instruction at an index of a code, and 0 past its end.
fn pc_of(code: &[Placed], index: usize) -> u16
    ensures { result ≡ pc_of (slice_get code.now index) }
{
    match code.get(index) {
        None => 0,
        Some(placed) => placed.pc,
    }
}

/// The instructions of a code as the rules see them. Only memory can be wanting.
fn code_steps(alloc: Global, class: &ObjectClass, code: &[Placed]) -> Result<Vec<Step>, AllocError>
    requires { HasLowDepths class.now code.now }
    ensures { IfOk result (λ row. AreStepsOf class.now code.now row.items) }
{
    let mut steps = Vec::new(alloc);
    let mut depth: usize = 0;
    for placed in code {
        steps.push(Step {
            pc: placed.pc,
            next: pc_of(code, steps.len() + 1),
            depth: depth as u16,
            instruction: placed.instruction,
        })?;
        let left = depth.saturating_sub(taken(class, placed.instruction));
        depth = left + given(class, placed.instruction);
    }
    Ok(steps)
}

/// The instructions of each method of a class. Only memory can be wanting.
pub fn class_steps(alloc: Global, class: &ObjectClass) -> Result<Vec<Seq<Step>>, AllocError>
    requires { IsReadable class.now }
    ensures { IfOk result (λ rows. AreSteps class.now rows.items) }
{
    let mut rows = Vec::new(alloc);
    for method in class.methods.as_slice() {
        let row = code_steps(alloc, class, method.code.as_slice())?;
        rows.push(Seq::from_vec(row))?;
    }
    Ok(rows)
}

/// Whether a method is `public static void main(String[])` (JVMS 5.2).
fn is_main(method: &Method) -> bool
    ensures { IsTrue result ↔ IsMainMethod method.now }
{
    method.access.contains(Access::PUBLIC)
        && method.access.contains(Access::STATIC)
        && method.name.as_slice() == b"main".as_slice()
        && method.desc.as_slice() == b"([Ljava/lang/String;)V".as_slice()
}

/// Whether a method is a finalizer, `finalize()V` of an object (JLS 12.6).
fn is_finalize(method: &Method) -> bool
    ensures { IsTrue result ↔ IsFinalizeMethod method.now }
{
    !method.access.contains(Access::STATIC)
        && method.name.as_slice() == b"finalize".as_slice()
        && method.desc.as_slice() == b"()V".as_slice()
}

/// The places of a class's finalizers. Only memory can be wanting.
pub fn finalizer_places(alloc: Global, class: &ObjectClass) -> Result<Vec<u16>, AllocError>
    requires { IsReadable class.now }
    ensures { IfOk result (λ places. AreFinalizers class.now places.items) }
{
    let mut places = Vec::new(alloc);
    for (place, method) in class.methods.as_slice().iter().enumerate() {
        if is_finalize(method) {
            places.push(place as u16)?;
        }
    }
    Ok(places)
}

/// Adds the edge from the library to main. Only memory can be wanting.
pub fn add_entries(found: &mut Found, class: &ObjectClass) -> Result<(), AllocError>
    requires { IsReadable class.now }
    ensures { OnOk result (AddsFacts (MainEdge class.now) found.old found.new) }
{
    for (place, method) in class.methods.as_slice().iter().enumerate() {
        if is_main(method) {
            found.add(Fact::Edge(CallFrom::Root, own(place as u16)))?;
        }
    }
    Ok(())
}
