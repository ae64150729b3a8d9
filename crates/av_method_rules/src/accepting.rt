ghost use Rattle.std.specs.Prelude.{◌≡◌, ◌+◌, ◌<◌, length, IfOk, IfErr};
ghost use Rattle.av_stops.specs.MethodRules.{AreAccepted};
ghost use Rattle.av_method_rules.specs.Files.{AreFilesOf};
ghost use Rattle.av_method_rules.specs.Stopping.{AreStopped};
ghost use Rattle.av_method_rules.specs.Steps.Until.{place_at, AreAcceptedUntil, HasMember};

use crate::checking::check_method;
use crate::outcome::MethodStop;
use crate::places::refusal_at;
use av_program::AcceptStop;
use jv_class::ClassFile;
use jv_types::{ClassId, FramedBody, MethodId};
use jv_world::World;
use std::alloc::Global;

/// The methods so far, with the one at this place where it has code.
fn accept_next(
    alloc: Global,
    world: &World,
    classes: &[ClassFile],
    id: MethodId,
    mut accepted: Vec<FramedBody>,
) -> Result<Vec<FramedBody>, AcceptStop>
    requires files { AreFilesOf world.now classes.now }
    requires here { HasMember classes.now id }
    requires before { AreAcceptedUntil world.now classes.now id accepted.items }
    ensures accepted { IfOk result (λ methods. AreAcceptedUntil world.now classes.now (place_at id.class.number (id.index + 1)) methods.items) }
    ensures stopped { IfErr result (AreStopped world.now classes.now) }
{
    let class = &classes[id.class.number as usize];
    let member = &class.methods.as_slice()[usize::from(id.index)];
    match check_method(alloc, world, class, id, member) {
        Ok(None) => Ok(accepted),
        Ok(Some(framed)) => {
            accepted.push(framed)?;
            Ok(accepted)
        }
        Err(MethodStop::At { rule, pc }) => Err(refusal_at(alloc, class, member, rule, pc)),
        Err(MethodStop::Memory) => Err(AcceptStop::Memory),
    }
}

/// The methods so far, with those of the class of this number.
fn accept_class(
    alloc: Global,
    world: &World,
    classes: &[ClassFile],
    number: usize,
    accepted: Vec<FramedBody>,
) -> Result<Vec<FramedBody>, AcceptStop>
    requires files { AreFilesOf world.now classes.now }
    requires here { number < length classes.now }
    requires before { AreAcceptedUntil world.now classes.now (place_at number 0) accepted.items }
    ensures accepted { IfOk result (λ methods. AreAcceptedUntil world.now classes.now (place_at (number + 1) 0) methods.items) }
    ensures stopped { IfErr result (AreStopped world.now classes.now) }
{
    let _shapes = world.shapes();
    let count = classes[number].methods.len();
    let mut methods = accepted;
    for index in 0..count {
        let id = MethodId {
            class: ClassId {
                number: number as u32,
            },
            index: index as u16,
        };
        methods = accept_next(alloc, world, classes, id, methods)?;
    }
    Ok(methods)
}

/// The methods of classes that have code, with their tables of frames: class by class, and method by method in the
/// order of the file. The world begins with the classes of these files, in the same order.
///
/// # Errors
///
/// `Refused` at the first method that fails a rule, with the first rule that it fails and the least offset at which it
/// does. `Memory` where memory is wanting. No other error is answered.
pub fn accept_methods(
    alloc: Global,
    world: &World,
    classes: &[ClassFile],
) -> Result<Vec<FramedBody>, AcceptStop>
    requires { AreFilesOf world.now classes.now }
    ensures accepted { IfOk result (λ methods. AreAccepted world.now classes.now methods.items) }
    ensures stopped { IfErr result (AreStopped world.now classes.now) }
{
    let mut methods = Vec::new(alloc);
    for number in 0..classes.len() {
        methods = accept_class(alloc, world, classes, number, methods)?;
    }
    Ok(methods)
}
