ghost use Rattle.std.specs.Prelude.{◌≡◌, List, is_some};
ghost use Rattle.std.specs.Option.{option_copied};
ghost use Rattle.jv_types.specs.declared.shapes.MethodShape.{MethodShape};
ghost use Rattle.jv_pool.specs.declared.item.PoolItem.{PoolItem};
ghost use Rattle.jv_class.specs.declared.class_file.Member.{Member};
ghost use Rattle.jv_class.specs.MethodCodes.{code_in};
ghost use Rattle.jv_class.specs.Shapes.{IsMethodShape};

use crate::class_file::Member;
use jv_attr::{AttrBody, CodeAttr};

/// The code of a method, or none where it has none (JVMS 4.7.3). It takes no memory.
pub fn method_code(method: &Member) -> Option<&CodeAttr>
    ensures { option_copied result ≡ code_in method.now.attrs }
{
    for attr in method.attrs.as_slice() {
        match &attr.body {
            AttrBody::Code(code) => return Some(code),
            AttrBody::Maps(_) | AttrBody::Raw(_) => {}
        }
    }
    None
}

/// A method has code in the shape exactly where it has one in the file. This does nothing, and its
/// contract is the law.
pub fn shapes_have_code_where_methods_do()
    ensures { (items : List PoolItem) (method : Member) (shape : MethodShape) → IsMethodShape items method shape → shape.code ≡ is_some (code_in method.attrs) }
{}
