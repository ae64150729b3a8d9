ghost use Rattle.std.specs.Prelude.{◌≡◌, ◌↔◌, IsTrue, Contains};
ghost use Rattle.jv_types.specs.declared.shapes.MethodShape.{MethodShape as MethodValue};
ghost use Rattle.av_conditions.specs.CoreClasses.{void_desc, DeclaresPlain, IsAsCore, IsCoreClass, HasObjectMethods, IsCoreInterface, IsPlain};

use jv_resolve::{is_abstract, is_private, is_static};
use jv_types::{MethodDesc, MethodShape, Name, Shape};
use jv_world::is_interface;

/// Whether a method has neither parameters nor a result.
fn is_void(desc: &MethodDesc) -> bool
    ensures { IsTrue result ↔ (desc.now ≡ void_desc) }
{
    desc.params.as_slice().is_empty() && desc.result.is_none()
}

/// Whether a method has this name, neither parameters nor a result, and is neither static, private nor
/// abstract.
fn is_plain(method: &MethodShape, name: &[u8]) -> bool
    ensures { IsTrue result ↔ IsPlain name.now method.now }
{
    method.name.as_slice() == name
        && is_void(&method.desc)
        && !is_static(method.flags)
        && !is_private(method.flags)
        && !is_abstract(method.flags)
}

/// Whether a class declares such a method.
fn declares_plain(shape: &Shape, name: &[u8]) -> bool
    ensures { IsTrue result ↔ DeclaresPlain shape.now name.now }
{
    let methods = shape.methods.as_slice();
    for method in methods {
        if is_plain(method, name) {
            return true;
        }
    }
    false
}

/// Whether the name is that of one of the two interfaces that every world has.
fn is_core_interface(name: &Name) -> bool
    ensures { IsTrue result ↔ IsCoreInterface name.now }
{
    let name = name.as_slice();
    name == b"java/lang/Cloneable".as_slice() || name == b"java/io/Serializable".as_slice()
}

/// Whether the name is that of one of the four classes that every world has.
fn is_core_class(name: &Name) -> bool
    ensures { IsTrue result ↔ IsCoreClass name.now }
{
    let name = name.as_slice();
    name == b"java/lang/Object".as_slice()
        || name == b"java/lang/Throwable".as_slice()
        || name == b"java/lang/String".as_slice()
        || name == b"java/lang/Class".as_slice()
}

/// Whether Object declares the two methods that it must; another class is not asked.
fn has_object_methods(shape: &Shape) -> bool
    ensures { IsTrue result ↔ HasObjectMethods shape.now }
{
    if shape.name.as_slice() != b"java/lang/Object".as_slice() {
        return true;
    }
    declares_plain(shape, b"<init>") && declares_plain(shape, b"finalize")
}

/// Whether a class of one of the six names that every world has is as it must be: Cloneable and Serializable
/// are interfaces and the others are not, and Object declares `<init>()V` and `finalize()V`, neither static,
/// private nor abstract. A class of another name is so in any case. It takes no memory.
pub fn is_as_core(shape: &Shape) -> bool
    ensures { IsTrue result ↔ IsAsCore shape.now }
{
    if is_core_interface(&shape.name) {
        return is_interface(shape);
    }
    if is_core_class(&shape.name) {
        return !is_interface(shape) && has_object_methods(shape);
    }
    true
}
