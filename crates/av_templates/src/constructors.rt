ghost use Rattle.std.specs.Prelude.{◌≡◌, ◌≤◌, [], ◌∷◌, None, Some, IfOk};
ghost use Rattle.jv_types.specs.declared.frames.VType.{Class};
ghost use Rattle.av_conditions.specs.StandIn.{library_name};
ghost use Rattle.av_standin_of.specs.Codes.{Code as CodeValue};
ghost use Rattle.av_standin_of.specs.Templates.{words_in, template, makes_fresh, extra_code, begins_with, method_code};
ghost use Rattle.av_templates.specs.Putting.{with_rows};

use crate::insns::{aload, library_name, plain, put_fresh};
use crate::methods::{entry_locals, template};
use crate::parts::calls_super;
use crate::putting::{Locals, pushed, put, single};
use crate::values::object_vtype;
use crate::which::{is_constructor, is_fresh_maker};
use av_asm::CodeBuilder;
use jv_table::ops;
use jv_types::{Copied, MethodShape, Name, VType};
use std::alloc::{AllocError, Global};

/// Puts the code of Object's `<init>()V`: its receiver is one that was only made. Where memory is wanting the builder is
/// given up.
pub fn makes_fresh(builder: CodeBuilder, alloc: Global) -> Result<CodeBuilder, AllocError>
    ensures { IfOk result (λ made. made ≡ with_rows builder makes_fresh.rows) }
{
    let at = Locals {
        words: 1,
        types: single(alloc, object_vtype(alloc)?)?,
    };
    let empty = Vec::new(alloc);
    let stack = single(alloc, object_vtype(alloc)?)?;
    let fresh = put_fresh(alloc)?;
    let builder = put(builder, &at, empty.as_slice(), aload(0))?;
    let builder = put(builder, &at, stack.as_slice(), fresh)?;
    put(builder, &at, empty.as_slice(), plain(ops::RETURN))
}

/// The local variables of an extra constructor, whose receiver is of this type. Only memory can be wanting.
fn extra_locals(alloc: Global, receiver: VType) -> Result<Locals, AllocError>
    ensures words { IfOk result (λ at. at.words ≡ 2) }
    ensures types { IfOk result (λ at. at.types.items ≡ receiver ∷ Class library_name ∷ []) }
{
    let library = VType::Class(library_name(alloc)?);
    let mut types = single(alloc, receiver)?;
    types.push(library)?;
    Ok(Locals { words: 2, types })
}

/// Puts the end of an extra constructor. Where memory is wanting the builder is given up.
fn extra_ends(builder: CodeBuilder, class: &Name) -> Result<CodeBuilder, AllocError>
    ensures { IfOk result (λ made. made ≡ with_rows builder (extra_code class.now None).rows) }
{
    let alloc = class.allocator();
    let at = extra_locals(alloc, VType::Class(class.copy()?))?;
    let empty = Vec::new(alloc);
    put(builder, &at, empty.as_slice(), plain(ops::RETURN))
}

/// Puts the code of the extra constructor of a class with this superclass. Where memory is wanting the builder is given
/// up.
fn extra_below(builder: CodeBuilder, class: &Name, parent: &Name) -> Result<CodeBuilder, AllocError>
    ensures { IfOk result (λ made. made ≡ with_rows builder (extra_code class.now (Some parent.now)).rows) }
{
    let at = extra_locals(class.allocator(), VType::UninitThis)?;
    let builder = calls_super(builder, &at, parent)?;
    extra_ends(builder, class)
}

/// Puts the code of the extra constructor of a class that has this superclass or none. Where memory is wanting the
/// builder is given up.
pub fn extra_code(
    builder: CodeBuilder,
    class: &Name,
    parent: &Option<Name>,
) -> Result<CodeBuilder, AllocError>
    ensures { IfOk result (λ made. made ≡ with_rows builder (extra_code class.now parent.now).rows) }
{
    match parent {
        None => extra_ends(builder, class),
        Some(parent) => extra_below(builder, class, parent),
    }
}

/// Puts what a constructor of a class with a superclass begins with: the call of the superclass's extra constructor.
/// Where memory is wanting the builder is given up.
fn begins_with(
    builder: CodeBuilder,
    class: &Name,
    method: &MethodShape,
    parent: &Option<Name>,
) -> Result<CodeBuilder, AllocError>
    requires { words_in method.now ≤ 65535 }
    ensures { IfOk result (λ made. made ≡ with_rows builder (begins_with class.now method.now parent.now)) }
{
    match parent {
        None => Ok(builder),
        Some(parent) => {
            if !is_constructor(method) {
                return Ok(builder);
            }
            let at = entry_locals(class.allocator(), class, method)?;
            calls_super(builder, &at, parent)
        }
    }
}

/// Puts the template behind what a method begins with. Nothing was put before. Where memory is wanting the builder is
/// given up.
fn begun_template(
    builder: CodeBuilder,
    class: &Name,
    method: &MethodShape,
    parent: &Option<Name>,
) -> Result<CodeBuilder, AllocError>
    requires few { words_in method.now ≤ 65535 }
    requires first { builder.steps ≡ [] }
    ensures { IfOk result (λ made. made ≡ with_rows builder (template class.now method.now (begins_with class.now method.now parent.now)).rows) }
{
    let builder = begins_with(builder, class, method, parent)?;
    template(builder, class, method)
}

/// Puts what most methods do, and nothing before it. Nothing was put before. Where memory is wanting the builder is given
/// up.
pub fn plain_code(
    builder: CodeBuilder,
    class: &Name,
    method: &MethodShape,
) -> Result<CodeBuilder, AllocError>
    requires few { words_in method.now ≤ 65535 }
    requires first { builder.steps ≡ [] }
    ensures { IfOk result (λ made. made ≡ with_rows builder (template class.now method.now []).rows) }
{
    begun_template(builder, class, method, &None)
}

/// Puts the code of a collected method of a class with this superclass or none, if the method has code. Nothing was put
/// before. Where memory is wanting the builder is given up.
pub fn method_code(
    builder: CodeBuilder,
    class: &Name,
    parent: &Option<Name>,
    method: &MethodShape,
) -> Result<CodeBuilder, AllocError>
    requires few { words_in method.now ≤ 65535 }
    requires first { builder.steps ≡ [] }
    ensures { (code : CodeValue) → method_code class.now parent.now method.now ≡ Some code → IfOk result (λ made. made ≡ with_rows builder code.rows) }
{
    if is_fresh_maker(class, method) {
        return makes_fresh(builder, class.allocator());
    }
    begun_template(builder, class, method, parent)
}
