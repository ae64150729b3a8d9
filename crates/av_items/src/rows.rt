ghost use Rattle.std.specs.Prelude.{◌≡◌, [], ◌∷◌, IfOk};
ghost use Rattle.av_standin_of.specs.Codes.{known_as, values_of};
ghost use Rattle.av_standin_of.specs.Items.{ends, keeps};
ghost use Rattle.av_templates.specs.Putting.{with_rows};
ghost use Rattle.av_items.specs.Steps.{bare, keeps_last};

use av_asm::CodeBuilder;
use av_templates::{Locals, plain, put, put_known, single};
use jv_table::ops;
use jv_types::{Desc, Insn, RefType, VType};
use std::alloc::{AllocError, Global};

/// The local variables of an item, which has none.
fn no_locals(alloc: Global) -> Locals
    ensures words { result.words ≡ 0 }
    ensures types { result.types.items ≡ [] }
{
    Locals {
        words: 0,
        types: Vec::new(alloc),
    }
}

/// Puts an instruction of an item last, over this stack. Where memory is wanting the builder is given up.
pub fn bare(
    builder: CodeBuilder,
    alloc: Global,
    stack: &[VType],
    insn: Insn,
) -> Result<CodeBuilder, AllocError>
    ensures { IfOk result (λ made. made ≡ with_rows builder (bare stack.now insn ∷ [])) }
{
    let at = no_locals(alloc);
    put(builder, &at, stack, insn)
}

/// Puts an instruction of an item last, over an empty stack. Where memory is wanting the builder is given up.
pub fn first(builder: CodeBuilder, alloc: Global, insn: Insn) -> Result<CodeBuilder, AllocError>
    ensures { IfOk result (λ made. made ≡ with_rows builder (bare [] insn ∷ [])) }
{
    let empty = Vec::new(alloc);
    bare(builder, alloc, empty.as_slice(), insn)
}

/// Puts an instruction of an item last, over a stack of one value. Where memory is wanting the builder is given up.
pub fn over_one(
    builder: CodeBuilder,
    alloc: Global,
    of: VType,
    insn: Insn,
) -> Result<CodeBuilder, AllocError>
    ensures { IfOk result (λ made. made ≡ with_rows builder (bare (of ∷ []) insn ∷ [])) }
{
    let stack = single(alloc, of)?;
    bare(builder, alloc, stack.as_slice(), insn)
}

/// Makes known what is on the stack, a value of this type. Where memory is wanting the builder is given up.
pub fn keeps(builder: CodeBuilder, alloc: Global, of: VType) -> Result<CodeBuilder, AllocError>
    ensures { IfOk result (λ made. made ≡ with_rows builder (keeps of)) }
{
    over_one(builder, alloc, of, put_known(alloc)?)
}

/// Puts the end of an item. Where memory is wanting the builder is given up.
pub fn ends(builder: CodeBuilder, alloc: Global) -> Result<CodeBuilder, AllocError>
    ensures { IfOk result (λ made. made ≡ with_rows builder ends) }
{
    first(builder, alloc, plain(ops::RETURN))
}

/// Makes known what is on the stack, a value of this type, and puts the end of an item. Where memory is wanting the
/// builder is given up.
pub fn keeps_last(builder: CodeBuilder, alloc: Global, of: VType) -> Result<CodeBuilder, AllocError>
    ensures { IfOk result (λ made. made ≡ with_rows builder (keeps_last of)) }
{
    let builder = keeps(builder, alloc, of)?;
    ends(builder, alloc)
}

/// Puts what is known, as a value of a reference type. Where memory is wanting the builder is given up.
pub fn known_as(
    builder: CodeBuilder,
    alloc: Global,
    stack: &[VType],
    of: &RefType,
) -> Result<CodeBuilder, AllocError>
    ensures { IfOk result (λ made. made ≡ with_rows builder (known_as 0 [] stack.now of.now)) }
{
    let at = no_locals(alloc);
    av_templates::known_as(builder, &at, stack, of)
}

/// Puts values of types one behind the other, above what is on the stack. Where memory is wanting the builder is given
/// up.
pub fn values_of(
    builder: CodeBuilder,
    alloc: Global,
    stack: Vec<VType>,
    descs: &[Desc],
) -> Result<CodeBuilder, AllocError>
    ensures { IfOk result (λ made. made ≡ with_rows builder (values_of 0 [] stack.items descs.now)) }
{
    let at = no_locals(alloc);
    av_templates::values_of(builder, &at, stack, descs)
}
