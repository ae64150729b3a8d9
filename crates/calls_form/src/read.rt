ghost use Rattle.std.specs.Prelude.{◌≡◌, ℕ, List, IfOk, Err};
ghost use Rattle.calls_form.specs.declared.object_class.ObjectClass.{ObjectClass};
ghost use Rattle.calls_form.specs.ObjectForm.{IsObjectClass};
ghost use Rattle.calls_form.specs.Ranges.{IsInRange};

use crate::class_of_outline::class_of;
use crate::layout::read_outline;
use crate::object_class::ObjectClass;
use crate::read_error::ReadError;
use std::alloc::Global;

/// A file has at most this many bytes.
pub const FILE_LIMIT: usize = 16777216;

/// Reads the class of this name from the bytes of its file (JVMS 4.1). `Malformed` says that the bytes
/// aren't the text of a class with this name whose fields and methods are over ints, itself and
/// `java/lang/Object`.
pub fn read_object_class(alloc: Global, name: &[u8], bytes: &[u8]) -> Result<ObjectClass, ReadError>
    ensures found { IfOk result (IsObjectClass name.now bytes.now) }
    ensures malformed { result ≡ Err ReadError.Malformed → (c : ObjectClass) → IsObjectClass name.now bytes.now c → ⊥ }
{
    if bytes.len() > FILE_LIMIT {
        return Err(ReadError::Malformed);
    }
    let outline = read_outline(alloc, bytes)?;
    class_of(alloc, name, &outline)
}

/// The bytes of a file are no two classes of one name.
pub fn one_object_class()
    ensures { (name bytes : List ℕ) (c d : ObjectClass) → IsObjectClass name bytes c → IsObjectClass name bytes d → c ≡ d }
{}

/// The numbers of a class that bytes are stay within two bytes, and the offsets of a method's
/// instructions rise.
pub fn class_in_range()
    ensures { (name bytes : List ℕ) (c : ObjectClass) → IsObjectClass name bytes c → IsInRange c }
{}
