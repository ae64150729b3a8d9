ghost use Rattle.std.specs.Prelude.{◌≡◌, ◌≤◌, ◌++◌, ◌∷◌, [], ℕ, List, length, IfOk, Some, Contains};
ghost use Rattle.jv_class.specs.MethodCodes.{code_in};
ghost use Rattle.jv_pool.specs.Lookups.{class_name_at};
ghost use Rattle.av_app_files.specs.FileRules.{StatesName};
ghost use Rattle.av_stops.specs.Programs.{IsOfFile};
ghost use Rattle.av_given.specs.Steps.Adding.{Adds};
ghost use Rattle.av_given.specs.Steps.Parts.{ClassHasBody, ClassNames, IsDecoding, MemberHasBody, MemberNames};

use crate::codes::decoded;
use crate::maps::{add_frames, written_frames};
use av_collected::MethodBody;
use jv_attr::CodeAttr;
use jv_class::{ClassFile, Member, method_code};
use jv_types::{Body, Copied, Name};
use std::alloc::{AllocError, Global};

/// What was found so far: the texts that stack maps name, and the bodies.
#[derive(Debug, Drop)]
pub struct Found {
    pub maps: Vec<Name>,
    pub bodies: Vec<MethodBody>,
}

/// The bodies, with one more.
fn with_body(
    name: &Name,
    index: u16,
    body: Body,
    mut bodies: Vec<MethodBody>,
) -> Result<Vec<MethodBody>, AllocError>
    ensures { IfOk result (λ new. new.items ≡ bodies.items ++ (record { class = name.now; index = index; body = body }) ∷ []) }
{
    let class = name.copy()?;
    bodies.push(MethodBody { class, index, body })?;
    Ok(bodies)
}

/// What was found, with what a method has whose code decodes to this body.
fn add_body(
    alloc: Global,
    class: &ClassFile,
    name: &Name,
    index: u16,
    member: &Member,
    code: &CodeAttr,
    body: Body,
    found: Found,
) -> Result<Found, AllocError>
    requires named { StatesName class.now name.now }
    requires has { code_in member.now.attrs ≡ Some code.now }
    requires decoded { IsDecoding class.now code.now (Some body) }
    ensures maps { IfOk result (λ new. Adds (MemberNames class.now member.now) found.maps.items new.maps.items) }
    ensures bodies { IfOk result (λ new. Adds (MemberHasBody class.now index member.now) found.bodies.items new.bodies.items) }
{
    let attrs = code.attrs.as_slice();
    let frames = written_frames(attrs);
    let maps = add_frames(alloc, &class.pool, frames, found.maps)?;
    let bodies = with_body(name, index, body, found.bodies)?;
    Ok(Found { maps, bodies })
}

/// What was found, with what a method with this code has, where it decodes.
fn add_code(
    alloc: Global,
    class: &ClassFile,
    name: &Name,
    index: u16,
    member: &Member,
    code: &CodeAttr,
    found: Found,
) -> Result<Found, AllocError>
    requires short { length code.now.code ≤ 65535 }
    requires named { StatesName class.now name.now }
    requires has { code_in member.now.attrs ≡ Some code.now }
    ensures maps { IfOk result (λ new. Adds (MemberNames class.now member.now) found.maps.items new.maps.items) }
    ensures bodies { IfOk result (λ new. Adds (MemberHasBody class.now index member.now) found.bodies.items new.bodies.items) }
{
    let decoding = decoded(alloc, class, code)?;
    match decoding {
        None => Ok(found),
        Some(body) => add_body(alloc, class, name, index, member, code, body, found),
    }
}

/// What was found, with what a method has. The class has this name, and the method this place.
fn add_method(
    alloc: Global,
    class: &ClassFile,
    name: &Name,
    index: u16,
    member: &Member,
    found: Found,
) -> Result<Found, AllocError>
    requires file { IsOfFile class.now }
    requires named { StatesName class.now name.now }
    requires among { Contains class.now.methods member.now }
    ensures maps { IfOk result (λ new. Adds (MemberNames class.now member.now) found.maps.items new.maps.items) }
    ensures bodies { IfOk result (λ new. Adds (MemberHasBody class.now index member.now) found.bodies.items new.bodies.items) }
{
    match method_code(member) {
        None => Ok(found),
        Some(code) => add_code(alloc, class, name, index, member, code, found),
    }
}

/// The name that a class states.
fn name_of(alloc: Global, class: &ClassFile) -> Result<Name, AllocError>
    requires { (text : List ℕ) × (class_name_at class.now.pool class.now.this_class ≡ Some text) }
    ensures { IfOk result (StatesName class.now) }
{
    match class.pool.class_name(class.this_class) {
        Some(text) => Name::from_slice(alloc, text),
        None => unreachable!(),
    }
}

/// What was found, with what the methods of a class have.
pub fn add_class(alloc: Global, class: &ClassFile, found: Found) -> Result<Found, AllocError>
    requires { IsOfFile class.now }
    ensures maps { IfOk result (λ new. Adds (ClassNames class.now) found.maps.items new.maps.items) }
    ensures bodies { IfOk result (λ new. Adds (ClassHasBody class.now) found.bodies.items new.bodies.items) }
{
    let name = name_of(alloc, class)?;
    let members = class.methods.as_slice();
    let mut grown = found;
    for index in 0..members.len() {
        let place = index as u16;
        let member = &members[index];
        let next = add_method(alloc, class, &name, place, member, grown)?;
        grown = next;
    }
    Ok(grown)
}
