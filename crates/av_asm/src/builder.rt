ghost use Rattle.std.specs.Prelude.{◌≡◌, ◌+◌, ◌<◌, ◌≤◌, ◌^◌, ℕ, [], ◌∷◌, ◌++◌, length, None, Some, IfOk, OnOk, OnErr, slice_set};
ghost use Rattle.jv_resolve.specs.Members.{HasMethod};
ghost use Rattle.jv_insn.specs.Entries.{Grows};
ghost use Rattle.av_asm.specs.declared.step.Step.TheVariants as step;
ghost use Rattle.av_asm.specs.Built.{AreArgumentWords, with_step, with_handler, with_landing, IsBranch, IsOpen};
ghost use Rattle.av_asm.specs.Planning.{end_from, most_words, plan_of};
ghost use Rattle.av_asm.specs.Finishing.{code_of, IsFramed, IsCodeOf, HasMaps, MayFinish};

use crate::code::code_attr;
use crate::plan::{frames_of, handlers_of, insns_of, most_words};
use crate::pushing::push;
use crate::starts::starts_of;
use crate::step::{Span, Step};
use crate::words::argument_words;
use jv_attr::CodeAttr;
use jv_insn::EncodeRefusal;
use jv_pool::PoolWriter;
use jv_types::{Body, Frame, FramedBody, Insn, MethodId, Seq};
use jv_world::World;
use std::alloc::{AllocError, Global};
use std::marker::Model;

/// The code of a method while it is built: instructions with the frame before each, branches that land later, and
/// handlers of all throwables. Instructions are spoken of by their numbers, from 0 on. The method has no local
/// variables beside its arguments.
#[derive(Debug, Drop)]
pub struct CodeBuilder {
    method: MethodId,
    words: u32,
    steps: Vec<Step>,
    frames: Vec<Frame>,
    spans: Vec<Span>,
}

impl Model for CodeBuilder {
    ghost use Rattle.std.specs.Coded.{codes};
    ghost use Rattle.jv_types.specs.contracts.desc.RefType as ref_type;
    ghost use Rattle.jv_types.specs.contracts.frames.VType as vtype;
    ghost use Rattle.av_asm.specs.Built.{Built, KeepsForm};

    ghost Value = { Built };

    ghost coded = { Prim.hlevel (codes, ref_type.the_row.coded, vtype.the_row.coded) };

    ghost view = { λ b. record { method = b.method; words = b.words; steps = b.steps.items; frames = b.frames.items; spans = b.spans.items } };

    ghost invariant = { λ b. KeepsForm b.steps.items b.frames.items b.spans.items };
}

/// Puts an instruction and its frame last. Where memory is wanting both lists stay.
fn push_step(
    steps: &mut Vec<Step>,
    frames: &mut Vec<Frame>,
    step: Step,
    frame: Frame,
) -> Result<(), AllocError>
    ensures steps { OnOk result (steps.new.items ≡ steps.old.items ++ step ∷ []) }
    ensures frames { OnOk result (frames.new.items ≡ frames.old.items ++ frame ∷ []) }
    ensures steps_stay { OnErr result (steps.new.items ≡ steps.old.items) }
    ensures frames_stay { OnErr result (frames.new.items ≡ frames.old.items) }
{
    let len = steps.len();
    push(steps, step)?;
    if let Err(e) = push(frames, frame) {
        steps.truncate(len);
        return Err(e);
    }
    Ok(())
}

/// Makes the branch of a number lead to the instruction of another.
fn land_step(steps: &mut Vec<Step>, number: usize, target: u32)
    requires { IsOpen steps.old.items number }
    ensures { (op : ℕ) → IsBranch steps.old.items number op → steps.new.items ≡ slice_set steps.old.items number (step.Landed op target) }
{
    let op = match &steps[number] {
        Step::Open(op) => *op,
        Step::Put(_) | Step::Landed(_, _) => return,
    };
    steps[number] = Step::Landed(op, target);
}

impl CodeBuilder {
    /// A builder of the code of a method of a world, in which nothing was put yet.
    pub fn new(alloc: Global, world: &World, method: MethodId) -> Result<CodeBuilder, AllocError>
        requires { HasMethod world.now method }
        ensures method { IfOk result (λ built. built.method ≡ method) }
        ensures words { IfOk result (λ built. AreArgumentWords world.now method built.words) }
        ensures steps { IfOk result (λ built. built.steps ≡ []) }
        ensures frames { IfOk result (λ built. built.frames ≡ []) }
        ensures spans { IfOk result (λ built. built.spans ≡ []) }
    {
        Ok(CodeBuilder {
            method,
            words: argument_words(world, method),
            steps: Vec::new(alloc),
            frames: Vec::new(alloc),
            spans: Vec::new(alloc),
        })
    }

    /// Puts an instruction last, with the frame before it. Fewer than 2^32 - 1 were put before. Where memory is
    /// wanting nothing is put.
    pub fn put(&mut self, insn: Insn, frame: Frame) -> Result<(), AllocError>
        requires { length self.old.steps + 1 < 2 ^ 32 }
        ensures ok { OnOk result (self.new ≡ with_step self.old (step.Put insn) frame) }
        ensures err { OnErr result (self.new ≡ self.old) }
    {
        push_step(&mut self.steps, &mut self.frames, Step::Put(insn), frame)?;
        Ok(())
    }

    /// The number of the next instruction.
    pub fn mark(&self) -> u32
        ensures { result ≡ length self.now.steps }
    {
        self.steps.len() as u32
    }

    /// Makes the next instruction handle all that the instructions from one to below another throw (JVMS
    /// 4.7.3). These are instructions that were put, one or more. Where memory is wanting nothing changes.
    pub fn handler(&mut self, start: u32, end: u32) -> Result<(), AllocError>
        requires covers { start < end }
        requires within { end ≤ length self.old.steps }
        ensures ok { OnOk result (self.new ≡ with_handler self.old start end) }
        ensures err { OnErr result (self.new ≡ self.old) }
    {
        let target = self.steps.len() as u32;
        push(&mut self.spans, Span { start, end, target })?;
        Ok(())
    }

    /// Puts a branch of this opcode last, with the frame before it, and answers its number. Where it leads is
    /// told later, by `land`. Fewer than 2^32 - 1 instructions were put before. Where memory is wanting nothing is
    /// put.
    pub fn branch(&mut self, op: u8, frame: Frame) -> Result<u32, AllocError>
        requires { length self.old.steps + 1 < 2 ^ 32 }
        ensures number { IfOk result (λ number. number ≡ length self.old.steps) }
        ensures ok { OnOk result (self.new ≡ with_step self.old (step.Open op) frame) }
        ensures err { OnErr result (self.new ≡ self.old) }
    {
        let number = self.mark();
        push_step(&mut self.steps, &mut self.frames, Step::Open(op), frame)?;
        Ok(number)
    }

    /// Makes the next instruction the target of a branch, by the number that `branch` answered. It hasn't landed
    /// yet. No memory is taken.
    pub fn land(&mut self, branch: u32) -> Result<(), AllocError>
        requires { IsOpen self.old.steps branch }
        ensures { OnOk result ((op : ℕ) → IsBranch self.old.steps branch op → self.new ≡ with_landing self.old branch op) }
    {
        let target = self.steps.len() as u32;
        land_step(&mut self.steps, branch as usize, target);
        Ok(())
    }

    /// The code of what was put, over a constant pool to which it adds what the instructions name, in their order,
    /// and then what its stack map names; and the method's body with the frame put for each instruction. The code
    /// decodes to this body, over the pool and whatever that grows to, and its map has the frames put at the
    /// targets. It is refused `TooLong` exactly where the code would have more than 65535 bytes, and else
    /// `PoolFull` exactly where an item finds no room. After `TooLong` the pool stays, and else it has at most grown.
    pub fn finish(self, pool: &mut PoolWriter) -> Result<(CodeAttr, FramedBody), EncodeRefusal>
        requires { MayFinish pool.old self }
        ensures code { IfOk result (λ made. code_of (plan_of self) pool.old ≡ Some (made.0, pool.new)) }
        ensures framed { IfOk result (λ made. IsFramed self made.1) }
        ensures decodes { IfOk result (λ made. IsCodeOf pool.new made.0 made.1) }
        ensures maps { IfOk result (λ made. HasMaps pool.new made.0 made.1) }
        ensures fits { OnOk result (end_from 0 self.steps ≤ 65535) }
        ensures long { result ≡ Err EncodeRefusal.TooLong → 65535 < end_from 0 self.steps }
        ensures full { result ≡ Err EncodeRefusal.PoolFull → (end_from 0 self.steps ≤ 65535) × (code_of (plan_of self) pool.old ≡ None) }
        ensures stays { result ≡ Err EncodeRefusal.TooLong → pool.new ≡ pool.old }
        ensures grown { Grows pool.old pool.new }
    {
        let alloc = *self.steps.allocator();
        match self.framed(alloc) {
            Ok(framed) => match code_attr(alloc, &framed, pool) {
                Ok(code) => Ok((code, framed)),
                Err(e) => Err(e),
            },
            Err(e) => Err(e),
        }
    }

    /// The method's body of what was put, with its frames.
    fn framed(self, alloc: Global) -> Result<FramedBody, EncodeRefusal>
        requires stack { most_words self.frames ≤ 65535 }
        requires words { self.words ≤ 65535 }
        ensures framed { IfOk result (λ framed. IsFramed self framed) }
        ensures fits { OnOk result (end_from 0 self.steps ≤ 65535) }
        ensures long { result ≡ Err EncodeRefusal.TooLong → 65535 < end_from 0 self.steps }
        ensures never_full { result ≡ Err EncodeRefusal.PoolFull → ⊥ }
    {
        let CodeBuilder {
            method,
            words,
            steps,
            frames,
            spans,
        } = self;
        let (starts, length) = starts_of(alloc, steps.as_slice())?;
        let handlers = handlers_of(alloc, &starts, spans.as_slice())?;
        let max_stack = most_words(frames.as_slice()) as u16;
        let frames = frames_of(alloc, &starts, frames)?;
        let insns = insns_of(alloc, &starts, steps)?;
        let body = Body {
            max_stack,
            max_locals: words as u16,
            length,
            insns: Seq::from_vec(insns),
            handlers: Seq::from_vec(handlers),
        };
        Ok(FramedBody {
            method,
            body,
            frames: Seq::from_vec(frames),
        })
    }
}
