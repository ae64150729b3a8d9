ghost use Rattle.std.specs.Prelude.{◌≡◌, OnOk};
ghost use Rattle.av_conditions.specs.CoreClasses.{IsCoreClass, IsCoreInterface};
ghost use Rattle.av_named.specs.Appending.{Appends};
ghost use Rattle.av_named.specs.Named.{IsCore};

use jv_types::Name;
use std::alloc::{AllocError, Global};

/// Adds the name of these bytes.
fn push_bytes(alloc: Global, bytes: &[u8], out: &mut Vec<Name>) -> Result<(), AllocError>
    ensures { OnOk result (Appends (λ each. each ≡ bytes.now) out.old.items out.new.items) }
{
    out.push(Name::from_slice(alloc, bytes)?)?;
    Ok(())
}

/// Adds the names of the four classes that every world has.
fn push_core_classes(alloc: Global, out: &mut Vec<Name>) -> Result<(), AllocError>
    ensures { OnOk result (Appends IsCoreClass out.old.items out.new.items) }
{
    push_bytes(alloc, b"java/lang/Object", out)?;
    push_bytes(alloc, b"java/lang/Throwable", out)?;
    push_bytes(alloc, b"java/lang/String", out)?;
    push_bytes(alloc, b"java/lang/Class", out)
}

/// Adds the names of the two interfaces that every world has.
fn push_core_interfaces(alloc: Global, out: &mut Vec<Name>) -> Result<(), AllocError>
    ensures { OnOk result (Appends IsCoreInterface out.old.items out.new.items) }
{
    push_bytes(alloc, b"java/lang/Cloneable", out)?;
    push_bytes(alloc, b"java/io/Serializable", out)
}

/// Adds the names of the six classes that every world has.
pub fn push_core(alloc: Global, out: &mut Vec<Name>) -> Result<(), AllocError>
    ensures { OnOk result (Appends IsCore out.old.items out.new.items) }
{
    push_core_classes(alloc, out)?;
    push_core_interfaces(alloc, out)
}
