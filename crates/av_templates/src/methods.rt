ghost use Rattle.std.specs.Prelude.{◌≡◌, ◌≤◌, length, IfOk};
ghost use Rattle.jv_frames.specs.Entry.{receiver_types, entry_types};
ghost use Rattle.av_standin_of.specs.Templates.{local_types, words_in, hand_over_receiver, hands_over};
ghost use Rattle.av_templates.specs.Putting.{with_rows, template_rows};
ghost use Rattle.av_templates.specs.Steps.{receiver_of};

use crate::parts::{answers, hand_over, hand_over_params, throws};
use crate::putting::{Locals, with_descs};
use crate::which::{begins_uninit, first_param, is_finalize_of_object, is_static};
use av_asm::CodeBuilder;
use jv_desc::arg_words;
use jv_types::{Copied, MethodShape, Name, VType};
use std::alloc::{AllocError, Global};

/// How many words the arguments of a method take, the receiver included.
fn words_in(method: &MethodShape) -> u16
    requires { words_in method.now ≤ 65535 }
    ensures { result ≡ words_in method.now }
{
    arg_words(&method.desc, !is_static(method)) as u16
}

/// The type of the receiver, once it is initialised, where there is one. Only memory can be wanting.
fn receiver_of(alloc: Global, class: &Name, method: &MethodShape) -> Result<Vec<VType>, AllocError>
    ensures { IfOk result (λ types. types.items ≡ receiver_of class.now method.now) }
{
    let mut types = Vec::new(alloc);
    if !is_static(method) {
        types.push(VType::Class(class.copy()?))?;
    }
    Ok(types)
}

/// The type of the receiver as a method begins, where there is one. Only memory can be wanting.
fn entry_receiver(
    alloc: Global,
    class: &Name,
    method: &MethodShape,
) -> Result<Vec<VType>, AllocError>
    ensures { IfOk result (λ types. types.items ≡ receiver_types class.now method.now) }
{
    let mut types = Vec::new(alloc);
    if is_static(method) {
        return Ok(types);
    }
    if begins_uninit(class, method) {
        types.push(VType::UninitThis)?;
    } else {
        types.push(VType::Class(class.copy()?))?;
    }
    Ok(types)
}

/// The local variables of a method of a class, whose receiver is initialised. Only memory can be wanting.
pub fn locals_of(alloc: Global, class: &Name, method: &MethodShape) -> Result<Locals, AllocError>
    requires { words_in method.now ≤ 65535 }
    ensures types { IfOk result (λ at. at.types.items ≡ local_types class.now method.now) }
    ensures words { IfOk result (λ at. at.words ≡ words_in method.now) }
{
    let receiver = receiver_of(alloc, class, method)?;
    let types = with_descs(receiver, method.desc.params.as_slice())?;
    Ok(Locals {
        words: words_in(method),
        types,
    })
}

/// The local variables of a method of a class as it begins. Only memory can be wanting.
pub fn entry_locals(alloc: Global, class: &Name, method: &MethodShape) -> Result<Locals, AllocError>
    requires { words_in method.now ≤ 65535 }
    ensures types { IfOk result (λ at. at.types.items ≡ entry_types class.now method.now) }
    ensures words { IfOk result (λ at. at.words ≡ words_in method.now) }
{
    let receiver = entry_receiver(alloc, class, method)?;
    let types = with_descs(receiver, method.desc.params.as_slice())?;
    Ok(Locals {
        words: words_in(method),
        types,
    })
}

/// Makes the receiver known, where there is one, but that of Object's `finalize()V`. Where memory is wanting the builder
/// is given up.
fn hand_over_receiver(
    builder: CodeBuilder,
    at: &Locals,
    class: &Name,
    method: &MethodShape,
) -> Result<CodeBuilder, AllocError>
    ensures { IfOk result (λ made. made ≡ with_rows builder (hand_over_receiver at.now.words at.now.types.items class.now method.now)) }
{
    if is_static(method) {
        return Ok(builder);
    }
    if is_finalize_of_object(class, method) {
        return Ok(builder);
    }
    hand_over(builder, at, 0, VType::Class(class.copy()?))
}

/// Makes known all that a method is handed. Where memory is wanting the builder is given up.
fn hands_over(
    builder: CodeBuilder,
    at: &Locals,
    class: &Name,
    method: &MethodShape,
) -> Result<CodeBuilder, AllocError>
    requires words { at.now.words ≡ words_in method.now }
    requires types { at.now.types.items ≡ local_types class.now method.now }
    requires few { words_in method.now ≤ 65535 }
    ensures { IfOk result (λ made. made ≡ with_rows builder (hands_over class.now method.now)) }
{
    let builder = hand_over_receiver(builder, at, class, method)?;
    hand_over_params(
        builder,
        at,
        first_param(method),
        method.desc.params.as_slice(),
    )
}

/// Puts what most methods do: all that they are handed becomes known, and then they throw what is known or answer. Where
/// memory is wanting the builder is given up.
pub fn template(
    builder: CodeBuilder,
    class: &Name,
    method: &MethodShape,
) -> Result<CodeBuilder, AllocError>
    requires { words_in method.now ≤ 65535 }
    ensures { IfOk result (λ made. made ≡ with_rows builder (template_rows (length builder.steps) class.now method.now)) }
{
    let at = locals_of(class.allocator(), class, method)?;
    let builder = hands_over(builder, &at, class, method)?;
    let builder = throws(builder, &at)?;
    answers(builder, &at, &method.desc.result)
}
