ghost use Rattle.std.specs.Prelude.{◌↔◌, IsTrue};
ghost use Rattle.calls_facts.specs.First.Prepared.{IsMainMethod};
ghost use Rattle.av_cli.specs.Calls.FileKinds.{DeclaresMain};

use bitflags::Flags;
use calls_form::object_class::{Method, ObjectClass};
use jv_types::Access;

/// Whether a method is `public static void main(String[])` (JVMS 5.2).
fn is_main(method: &Method) -> bool
    ensures { IsTrue result ↔ IsMainMethod method.now }
{
    method.access.contains(Access::PUBLIC)
        && method.access.contains(Access::STATIC)
        && method.name.as_slice() == b"main".as_slice()
        && method.desc.as_slice() == b"([Ljava/lang/String;)V".as_slice()
}

/// Whether a class has its own public static `main` (JVMS 5.2).
pub fn declares_main(class: &ObjectClass) -> bool
    ensures { IsTrue result ↔ DeclaresMain class.now }
{
    for method in class.methods.as_slice() {
        if is_main(method) {
            return true;
        }
    }
    false
}
