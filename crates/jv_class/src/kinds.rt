ghost use Rattle.std.specs.Prelude.{◌≡◌, ◌↔◌, true, false, IsTrue, IfOk};
ghost use Rattle.jv_class.specs.Steps.Kinds.{says, AreKindsOf};
ghost use Rattle.jv_names.specs.Spellings.{IsCalledName, IsFieldDescriptor, IsArrayDescriptor, IsTypeName, IsMethodDescriptor};

use jv_desc::{BadDesc, arg_words, field_desc, method_desc};
use jv_types::{is_class_name, is_method_name, is_part};
use std::alloc::{AllocError, Global};

/// What a text may have to be.
#[derive(Clone, Copy, Debug, PartialEq, Eq)]
pub enum Kind {
    /// The name of a class or interface, or the descriptor of an array type (JVMS 4.4.1).
    TypeName,
    /// The name of a class or interface (JVMS 4.2.1).
    ClassName,
    /// The name of a field (JVMS 4.2.2).
    FieldName,
    /// The name of a method (JVMS 4.2.2).
    MethodName,
    /// The name of a method that may be called (JVMS 4.4.2).
    CalledName,
    /// The descriptor of a field (JVMS 4.3.2).
    FieldDescriptor,
    /// The descriptor of a method without a receiver (JVMS 4.3.3).
    StaticDescriptor,
    /// The descriptor of a method with a receiver (JVMS 4.3.3).
    InstanceDescriptor,
}

/// Of which kinds a text is.
#[derive(Clone, Copy, Debug)]
pub struct TextKinds {
    type_name: bool,
    class_name: bool,
    field_name: bool,
    method_name: bool,
    called_name: bool,
    field_descriptor: bool,
    static_descriptor: bool,
    instance_descriptor: bool,
}

impl TextKinds {
    /// Whether the text is of this kind.
    pub fn says(&self, kind: Kind) -> bool
        ensures { result ≡ says self.now kind }
    {
        match kind {
            Kind::TypeName => self.type_name,
            Kind::ClassName => self.class_name,
            Kind::FieldName => self.field_name,
            Kind::MethodName => self.method_name,
            Kind::CalledName => self.called_name,
            Kind::FieldDescriptor => self.field_descriptor,
            Kind::StaticDescriptor => self.static_descriptor,
            Kind::InstanceDescriptor => self.instance_descriptor,
        }
    }
}

/// Whether the text is a field descriptor.
fn is_field_descriptor(alloc: Global, text: &[u8]) -> Result<bool, AllocError>
    ensures { IfOk result (λ is. IsTrue is ↔ IsFieldDescriptor text.now) }
{
    match field_desc(alloc, text) {
        Ok(_) => Ok(true),
        Err(BadDesc::Bad) => Ok(false),
        Err(BadDesc::Memory) => Err(AllocError),
    }
}

/// Whether the text is the descriptor of a method without a receiver, and whether it is that of one with a
/// receiver: the arguments take at most 255 words.
fn are_method_descriptors(alloc: Global, text: &[u8]) -> Result<(bool, bool), AllocError>
    ensures without { IfOk result (λ is. IsTrue is.0 ↔ IsMethodDescriptor false text.now) }
    ensures with_receiver { IfOk result (λ is. IsTrue is.1 ↔ IsMethodDescriptor true text.now) }
{
    match method_desc(alloc, text) {
        Ok(desc) => Ok((
            arg_words(&desc, false) <= 255,
            arg_words(&desc, true) <= 255,
        )),
        Err(BadDesc::Bad) => Ok((false, false)),
        Err(BadDesc::Memory) => Err(AllocError),
    }
}

/// Whether the text is the name of a method that may be called.
fn is_called_name(text: &[u8]) -> bool
    ensures { IsTrue result ↔ IsCalledName text.now }
{
    is_method_name(text) && text != b"<clinit>".as_slice()
}

/// Whether the text, which is a field descriptor or not, is that of an array type.
fn is_array_descriptor(text: &[u8], field_descriptor: bool) -> bool
    requires { IsTrue field_descriptor ↔ IsFieldDescriptor text.now }
    ensures { IsTrue result ↔ IsArrayDescriptor text.now }
{
    match text.split_first() {
        Some((first, _)) => field_descriptor && *first == b'[',
        None => false,
    }
}

/// Whether the text, which is a field descriptor or not, is what names a class.
fn is_type_name(text: &[u8], field_descriptor: bool) -> bool
    requires { IsTrue field_descriptor ↔ IsFieldDescriptor text.now }
    ensures { IsTrue result ↔ IsTypeName text.now }
{
    is_class_name(text) || is_array_descriptor(text, field_descriptor)
}

/// Of which kinds the text is.
pub fn kinds_of(alloc: Global, text: &[u8]) -> Result<TextKinds, AllocError>
    ensures { IfOk result (AreKindsOf text.now) }
{
    let field_descriptor = is_field_descriptor(alloc, text)?;
    let (static_descriptor, instance_descriptor) = are_method_descriptors(alloc, text)?;
    Ok(TextKinds {
        type_name: is_type_name(text, field_descriptor),
        class_name: is_class_name(text),
        field_name: is_part(text),
        method_name: is_method_name(text),
        called_name: is_called_name(text),
        field_descriptor,
        static_descriptor,
        instance_descriptor,
    })
}
