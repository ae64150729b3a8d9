ghost use Rattle.std.specs.Prelude.{◌≡◌, ◌++◌, map, IfOk, OnOk, IfSome, IfNone};
ghost use Rattle.jv_types.specs.declared.frames.Frame.{Frame as FrameValue};
ghost use Rattle.jv_resolve.specs.Members.{HasMethod};
ghost use Rattle.jv_frames.specs.Types.{desc_vtype};
ghost use Rattle.jv_frames.specs.Entry.{is_static, begins_uninit, receiver_types, entry_types, AreEntryTypes, IsInitialFrame};

use crate::descriptors::desc_vtype;
use crate::words::{frame_of, word_count};
use bitflags::Flags;
use jv_types::{Access, Copied, Desc, Frame, MethodId, MethodShape, Name, VType};
use jv_world::World;
use std::alloc::{AllocError, Global};

/// Whether a method is static (JVMS 4.6).
fn is_static(method: &MethodShape) -> bool
    ensures { result ≡ is_static method.now }
{
    method.flags.contains(Access::STATIC)
}

/// Whether a method is a constructor of a class other than Object, whose receiver isn't initialised yet as
/// it begins (JVMS 4.10.1.6).
fn begins_uninit(class: &Name, method: &MethodShape) -> bool
    ensures { result ≡ begins_uninit class.now method.now }
{
    method.name.as_slice() == b"<init>".as_slice()
        && !(class.as_slice() == b"java/lang/Object".as_slice())
}

/// The type of a method's receiver, where it has one. Only memory can be wanting.
fn receiver_types(
    alloc: Global,
    class: &Name,
    method: &MethodShape,
) -> Result<Vec<VType>, AllocError>
    ensures { IfOk result (λ types. types.items ≡ receiver_types class.now method.now) }
{
    let mut types = Vec::new(alloc);
    if is_static(method) {
        return Ok(types);
    }
    if begins_uninit(class, method) {
        types.push(VType::UninitThis)?;
    } else {
        types.push(VType::Class(class.copy()?))?;
    }
    Ok(types)
}

/// Adds the types of these descriptors at the end. Only memory can be wanting.
fn push_descs(types: &mut Vec<VType>, descs: &[Desc]) -> Result<(), AllocError>
    ensures { OnOk result (types.new.items ≡ types.old.items ++ map desc_vtype descs.now) }
{
    let alloc = *types.allocator();
    for desc in descs {
        types.push(desc_vtype(alloc, desc)?)?;
    }
    Ok(())
}

/// The types of a method's receiver and parameters, each once (JVMS 4.10.1.6). Only memory can be wanting.
pub fn entry_types(alloc: Global, world: &World, id: MethodId) -> Result<Vec<VType>, AllocError>
    requires { HasMethod world.now id }
    ensures { IfOk result (λ types. AreEntryTypes world.now id types.items) }
{
    let class = world.shape(id.class);
    let method = &class.methods.as_slice()[usize::from(id.index)];
    let mut types = receiver_types(alloc, &class.name, method)?;
    push_descs(&mut types, method.desc.params.as_slice())?;
    Ok(types)
}

/// The frame as a method with so many local variables begins (JVMS 4.10.1.6): the receiver and the
/// parameters in words, and Top behind them. There is none exactly where they take more words than that.
pub fn initial_frame(
    alloc: Global,
    world: &World,
    id: MethodId,
    max_locals: u16,
) -> Result<Option<Frame>, AllocError>
    requires { HasMethod world.now id }
    ensures found { IfOk result (λ begun. IfSome begun (IsInitialFrame world.now id max_locals)) }
    ensures none { IfOk result (λ begun. IfNone begun ((frame : FrameValue) → IsInitialFrame world.now id max_locals frame → ⊥)) }
{
    let types = entry_types(alloc, world, id)?;
    if word_count(types.as_slice()) > u32::from(max_locals) {
        return Ok(None);
    }
    let stack = Vec::new(alloc);
    Ok(Some(frame_of(alloc, max_locals, types.as_slice(), stack.as_slice())?))
}
