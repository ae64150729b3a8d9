ghost use Rattle.std.specs.Prelude.{◌≡◌, [], ◌∷◌, ◌++◌, map, IfOk};
ghost use Rattle.av_asm.specs.declared.step.Step.TheVariants as step;
ghost use Rattle.jv_frames.specs.Types.{desc_vtype, frame_of};
ghost use Rattle.av_standin_of.specs.Codes.{row};
ghost use Rattle.av_templates.specs.Putting.{with_rows, open_row};

use crate::frames::frame_of;
use av_asm::CodeBuilder;
use jv_frames::desc_vtype;
use jv_types::{CopiedIn, Desc, Insn, VType};
use std::alloc::{AllocError, Global};

/// The local variables of a code: how many words they take, and the types of their values, each once.
#[derive(Debug, Drop)]
pub struct Locals {
    pub words: u16,
    pub types: Vec<VType>,
}

impl Locals {
    /// The allocator that keeps the types.
    pub fn allocator(&self) -> Global {
        *self.types.allocator()
    }
}

/// A builder that has as many instructions as this takes no more. Nothing that memory holds comes near.
const FULL: u32 = u32::MAX;

/// Puts an instruction last, with the frame before it. Where memory is wanting the builder is given up.
pub fn put(
    mut builder: CodeBuilder,
    at: &Locals,
    stack: &[VType],
    insn: Insn,
) -> Result<CodeBuilder, AllocError>
    ensures { IfOk result (λ made. made ≡ with_rows builder (row at.now.words at.now.types.items stack.now insn ∷ [])) }
{
    let frame = frame_of(at.allocator(), at.words, at.types.as_slice(), stack)?;
    if builder.mark() == FULL {
        return Err(AllocError);
    }
    builder.put(insn, frame)?;
    Ok(builder)
}

/// Puts a branch last, with the frame before it. It hasn't landed yet. Where memory is wanting the builder is given up.
pub fn put_branch(
    mut builder: CodeBuilder,
    at: &Locals,
    stack: &[VType],
    op: u8,
) -> Result<CodeBuilder, AllocError>
    ensures { IfOk result (λ made. made ≡ with_rows builder (open_row at.now.words at.now.types.items stack.now op ∷ [])) }
{
    let frame = frame_of(at.allocator(), at.words, at.types.as_slice(), stack)?;
    if builder.mark() == FULL {
        return Err(AllocError);
    }
    builder.branch(op, frame)?;
    Ok(builder)
}

/// A list of one type. Only memory can be wanting.
pub fn single(alloc: Global, of: VType) -> Result<Vec<VType>, AllocError>
    ensures { IfOk result (λ made. made.items ≡ of ∷ []) }
{
    let mut made = Vec::new(alloc);
    made.push(of)?;
    Ok(made)
}

/// These types, each made a second time. Only memory can be wanting.
pub fn copied(alloc: Global, types: &[VType]) -> Result<Vec<VType>, AllocError>
    ensures { IfOk result (λ made. made.items ≡ types.now) }
{
    let mut made = Vec::new(alloc);
    for of in types {
        made.push(of.copy_in(alloc)?)?;
    }
    Ok(made)
}

/// These types, each made a second time, and one more last. Only memory can be wanting.
pub fn pushed(alloc: Global, types: &[VType], last: VType) -> Result<Vec<VType>, AllocError>
    ensures { IfOk result (λ made. made.items ≡ types.now ++ last ∷ []) }
{
    let mut made = copied(alloc, types)?;
    made.push(last)?;
    Ok(made)
}

/// Adds the types of values of these descriptors at the end. Only memory can be wanting.
pub fn with_descs(mut types: Vec<VType>, descs: &[Desc]) -> Result<Vec<VType>, AllocError>
    ensures { IfOk result (λ made. made.items ≡ types.items ++ map desc_vtype descs.now) }
{
    let alloc = *types.allocator();
    for desc in descs {
        types.push(desc_vtype(alloc, desc)?)?;
    }
    Ok(types)
}
