ghost use Rattle.std.specs.Prelude.{◌≡◌, IfOk};
ghost use Rattle.jv_class.specs.declared.class_file.ClassFile.{ClassFile as Classes};
ghost use Rattle.jv_class.specs.ClassTexts.{ClassText};

use crate::class_file::ClassFile;
use crate::fault::BadClass;
use crate::layout::read_layout;
use crate::rules::keeps_rules;
use jv_read::ReadFault;
use std::alloc::Global;

/// The class of which all of the bytes are the text.
fn read_ruled(alloc: Global, bytes: &[u8]) -> Result<ClassFile, ReadFault>
    ensures found { IfOk result (λ class. ClassText class bytes.now) }
    ensures bad { result ≡ Err ReadFault.Bad → (class : Classes) → ClassText class bytes.now → ⊥ }
{
    let class = read_layout(alloc, bytes)?;
    let keeps = keeps_rules(alloc, &class)?;
    if !keeps {
        return Err(ReadFault::Bad);
    }
    Ok(class)
}

/// Reads a class file (JVMS 4.1). The error is `NotClass` exactly where the bytes are the text of no class.
pub fn read_class(alloc: Global, bytes: &[u8]) -> Result<ClassFile, BadClass>
    ensures found { IfOk result (λ class. ClassText class bytes.now) }
    ensures not_class { result ≡ Err BadClass.NotClass → (class : Classes) → ClassText class bytes.now → ⊥ }
{
    match read_ruled(alloc, bytes) {
        Ok(class) => Ok(class),
        Err(ReadFault::Bad) => Err(BadClass::NotClass),
        Err(ReadFault::Memory) => Err(BadClass::Memory),
    }
}
