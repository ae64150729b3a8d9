ghost use Rattle.std.specs.Prelude.{◌≡◌, ◌⊎◌, IfOk, Some};
ghost use Rattle.std.specs.List.{AllZip, AllByRecursion};
ghost use Rattle.jv_class.specs.ClassTexts.{IsField, IsMethodMember, IsClass};
ghost use Rattle.jv_class.specs.Steps.PoolTexts.{NamesText};
ghost use Rattle.jv_class.specs.Shapes.{IsFieldShape, IsMethodShape, IsParent, IsShapeOf};
ghost use Rattle.jv_types.specs.declared.desc.MethodDesc.{MethodDesc as Methods};
ghost use Rattle.jv_desc.specs.Texts.{IsFieldText, IsMethodText};
ghost use Rattle.jv_names.specs.PoolNames.{HasText, HasClassName};
ghost use Rattle.jv_names.specs.Spellings.{IsFieldDescriptor, IsMethodDescriptor};
ghost use Rattle.jv_pool.specs.Lookups.{text_at, class_name_at};

use crate::class_file::{ClassFile, Member};
use crate::codes::any_code;
use jv_desc::{BadDesc, field_desc, method_desc};
use jv_pool::{Pool, PoolItem};
use jv_types::{Access, Desc, FieldShape, MethodDesc, MethodShape, Name, Seq, Shape};
use std::alloc::{AllocError, Global};

/// The text at an index of the pool.
fn text_at(pool: &Pool, index: u16) -> &[u8]
    requires { NamesText pool.now index }
    ensures { text_at pool.now index ≡ Some result.now }
{
    match pool.item(index) {
        Some(PoolItem::Utf8(text)) => text.as_slice(),
        _ => unreachable!(),
    }
}

/// The name of the class at an index of the pool.
fn class_name(alloc: Global, pool: &Pool, index: u16) -> Result<Name, AllocError>
    requires { HasClassName pool.now index }
    ensures { IfOk result (λ name. class_name_at pool.now index ≡ Some name) }
{
    match pool.item(index) {
        Some(PoolItem::Class(name)) => Name::from_slice(alloc, text_at(pool, *name)),
        _ => unreachable!(),
    }
}

/// The type of a field descriptor.
fn type_of(alloc: Global, text: &[u8]) -> Result<Desc, AllocError>
    requires { IsFieldDescriptor text.now }
    ensures { IfOk result (IsFieldText text.now) }
{
    match field_desc(alloc, text) {
        Ok(desc) => Ok(desc),
        Err(BadDesc::Memory) => Err(AllocError),
        Err(BadDesc::Bad) => unreachable!(),
    }
}

/// The parameters and the result of a method descriptor.
fn signature_of(alloc: Global, text: &[u8]) -> Result<MethodDesc, AllocError>
    requires { (method : Methods) × IsMethodText text.now method }
    ensures { IfOk result (IsMethodText text.now) }
{
    match method_desc(alloc, text) {
        Ok(desc) => Ok(desc),
        Err(BadDesc::Memory) => Err(AllocError),
        Err(BadDesc::Bad) => unreachable!(),
    }
}

/// The field that a member declares.
fn field_of(alloc: Global, pool: &Pool, member: &Member) -> Result<FieldShape, AllocError>
    requires { IsField pool.now member.now }
    ensures { IfOk result (IsFieldShape pool.now member.now) }
{
    let name = Name::from_slice(alloc, text_at(pool, member.name))?;
    let desc = type_of(alloc, text_at(pool, member.desc))?;
    Ok(FieldShape {
        name,
        desc,
        flags: Access(member.access),
    })
}

/// The fields that members declare, in their order.
fn fields_of(alloc: Global, pool: &Pool, members: &[Member]) -> Result<Seq<FieldShape>, AllocError>
    requires { AllByRecursion (IsField pool.now) members.now }
    ensures { IfOk result (λ fields. AllZip (IsFieldShape pool.now) members.now fields) }
{
    let mut fields = Vec::new(alloc);
    for member in members {
        let field = field_of(alloc, pool, member)?;
        fields.push(field)?;
    }
    Ok(Seq::from_vec(fields))
}

/// The method that a member declares.
fn method_of(alloc: Global, pool: &Pool, member: &Member) -> Result<MethodShape, AllocError>
    requires { IsMethodMember pool.now member.now }
    ensures { IfOk result (IsMethodShape pool.now member.now) }
{
    let name = Name::from_slice(alloc, text_at(pool, member.name))?;
    let desc = signature_of(alloc, text_at(pool, member.desc))?;
    Ok(MethodShape {
        name,
        desc,
        flags: Access(member.access),
        code: any_code(member.attrs.as_slice()),
    })
}

/// The methods that members declare, in their order.
fn methods_of(
    alloc: Global,
    pool: &Pool,
    members: &[Member],
) -> Result<Seq<MethodShape>, AllocError>
    requires { AllByRecursion (IsMethodMember pool.now) members.now }
    ensures { IfOk result (λ methods. AllZip (IsMethodShape pool.now) members.now methods) }
{
    let mut methods = Vec::new(alloc);
    for member in members {
        let method = method_of(alloc, pool, member)?;
        methods.push(method)?;
    }
    Ok(Seq::from_vec(methods))
}

/// The names of classes, in their order.
fn names_of(alloc: Global, pool: &Pool, indices: &[u16]) -> Result<Seq<Name>, AllocError>
    requires { AllByRecursion (HasClassName pool.now) indices.now }
    ensures { IfOk result (λ names. AllZip (λ index name. class_name_at pool.now index ≡ Some name) indices.now names) }
{
    let mut names = Vec::new(alloc);
    for index in indices {
        let name = class_name(alloc, pool, *index)?;
        names.push(name)?;
    }
    Ok(Seq::from_vec(names))
}

/// The name of the superclass, where there is one.
fn parent_of(alloc: Global, pool: &Pool, index: u16) -> Result<Option<Name>, AllocError>
    requires { (index ≡ 0) ⊎ HasClassName pool.now index }
    ensures { IfOk result (IsParent pool.now index) }
{
    if index == 0 {
        return Ok(None);
    }
    let name = class_name(alloc, pool, index)?;
    Ok(Some(name))
}

/// What a class file declares, by name, marked as the application's or the library's. Only memory can be
/// wanting.
pub fn shape(alloc: Global, class: &ClassFile, application: bool) -> Result<Shape, AllocError>
    requires { IsClass class.now }
    ensures { IfOk result (IsShapeOf class.now application) }
{
    let pool = &class.pool;
    Ok(Shape {
        name: class_name(alloc, pool, class.this_class)?,
        flags: Access(class.access),
        parent: parent_of(alloc, pool, class.super_class)?,
        interfaces: names_of(alloc, pool, class.interfaces.as_slice())?,
        fields: fields_of(alloc, pool, class.fields.as_slice())?,
        methods: methods_of(alloc, pool, class.methods.as_slice())?,
        application,
    })
}
