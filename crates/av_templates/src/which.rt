ghost use Rattle.std.specs.Prelude.{◌≡◌, ◌&&◌};
ghost use Rattle.jv_resolve.specs.Members.{init_name};
ghost use Rattle.jv_frames.specs.Entry.{is_static, begins_uninit};
ghost use Rattle.av_standin_of.specs.Templates.{first_param, is_abstract, is_constructor, is_finalize_of_object, is_called, is_object, is_void};

use bitflags::Flags;
use jv_types::{Access, MethodDesc, MethodShape, Name};

/// Whether a method is static (JVMS 4.6).
pub fn is_static(method: &MethodShape) -> bool
    ensures { result ≡ is_static method.now }
{
    method.flags.contains(Access::STATIC)
}

/// Whether a method is abstract (JVMS 4.6).
pub fn is_abstract(method: &MethodShape) -> bool
    ensures { result ≡ is_abstract method.now }
{
    method.flags.contains(Access::ABSTRACT)
}

/// Whether a method has neither parameters nor a result.
fn is_void(desc: &MethodDesc) -> bool
    ensures { result ≡ is_void desc.now.params desc.now.result }
{
    desc.params.as_slice().is_empty() && desc.result.is_none()
}

/// Whether a class is Object.
fn is_object(class: &Name) -> bool
    ensures { result ≡ is_object class.now }
{
    class.as_slice() == b"java/lang/Object".as_slice()
}

/// Whether a method is a constructor.
pub fn is_constructor(method: &MethodShape) -> bool
    ensures { result ≡ is_constructor method.now }
{
    method.name.as_slice() == b"<init>".as_slice()
}

/// Whether it is Object's `finalize()V`.
pub fn is_finalize_of_object(class: &Name, method: &MethodShape) -> bool
    ensures { result ≡ is_finalize_of_object class.now method.now }
{
    is_object(class) && (method.name.as_slice() == b"finalize".as_slice() && is_void(&method.desc))
}

/// Whether it is Object's `<init>()V`, which makes objects fresh.
pub fn is_fresh_maker(class: &Name, method: &MethodShape) -> bool
    ensures { result ≡ is_object class.now && is_called init_name method.now }
{
    is_object(class) && (is_constructor(method) && is_void(&method.desc))
}

/// Whether a method is a constructor of a class other than Object, whose receiver isn't initialised yet as it begins
/// (JVMS 4.10.1.6).
pub fn begins_uninit(class: &Name, method: &MethodShape) -> bool
    ensures { result ≡ begins_uninit class.now method.now }
{
    is_constructor(method) && !is_object(class)
}

/// The local variable of the first parameter of a method.
pub fn first_param(method: &MethodShape) -> u16
    ensures { result ≡ first_param method.now }
{
    if is_static(method) { 0 } else { 1 }
}
