ghost use Rattle.std.specs.Prelude.{◌≡◌, IfOk, OnOk};
ghost use Rattle.jv_fix.specs.Order.{IsSet};
ghost use Rattle.av_tables.specs.Tables.{signature_of};
ghost use Rattle.av_tables.specs.Steps.{Gains, GainsFile, HaveSignatures};

use crate::read_file::ReadFile;
use crate::signature::Signature;
use crate::sorted::in_order;
use jv_types::{Copied, MethodShape};
use std::alloc::{AllocError, Global};
use std::collections::BTreeSet;

/// The name and the descriptor of a method. Only memory can be wanting.
pub fn signature_of(method: &MethodShape) -> Result<Signature, AllocError>
    ensures { IfOk result (λ made. made ≡ signature_of method.now) }
{
    Ok(Signature {
        name: method.name.copy()?,
        desc: method.desc.copy()?,
    })
}

/// Adds the signatures of these methods.
fn add_signatures(methods: &[MethodShape], set: &mut BTreeSet<Signature>) -> Result<(), AllocError>
    ensures { OnOk result (Gains methods.now set.old.keys set.new.keys) }
{
    for method in methods {
        set.insert(signature_of(method)?)?;
    }
    Ok(())
}

/// Adds the signatures of the methods of a file, where it isn't malformed.
fn add_file(file: &ReadFile, set: &mut BTreeSet<Signature>) -> Result<(), AllocError>
    ensures { OnOk result (GainsFile file.now set.old.keys set.new.keys) }
{
    match file.shape() {
        None => Ok(()),
        Some(shape) => add_signatures(shape.methods.as_slice(), set),
    }
}

/// The set of the signatures of the methods of these files. Only memory can be wanting.
fn set_of_signatures(alloc: Global, files: &[ReadFile]) -> Result<BTreeSet<Signature>, AllocError>
    ensures { IfOk result (λ set. HaveSignatures files.now set.keys) }
{
    let mut set = BTreeSet::new(alloc);
    for file in files {
        add_file(file, &mut set)?;
    }
    Ok(set)
}

/// The signatures of the methods of these files, each once, in rising order. Only memory can be wanting.
pub fn signatures_of(alloc: Global, files: &[ReadFile]) -> Result<Vec<Signature>, AllocError>
    ensures rising { IfOk result (λ rows. IsSet ⟦<Signature as Ord>⟧.cmp rows.items) }
    ensures all { IfOk result (λ rows. HaveSignatures files.now rows.items) }
{
    let set = set_of_signatures(alloc, files)?;
    in_order(alloc, set)
}
