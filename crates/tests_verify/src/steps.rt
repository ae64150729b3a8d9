//! What an instruction that works on references leads to, in a method of a world (JVMS 4.10.1.9).

ghost use Rattle.std.specs.Prelude.{IsTrue, IfOk};
ghost use Rattle.jv_types.specs.Bodies.{rises_from};

use crate::instructions::insn_of;
use jv_types::{Body, Frame, Insn, Seq};
use jv_verify_refs::ref_step;
use jv_world::World;
use std::alloc::Global;
use std::test::Fail;
use tests_shapes::{build, class_of, frame_of, is_frame, method_of};
use tests_text::{part, word};

/// `app/A` has a superclass in another package, and `app/B` is below it.
const WORLD: &str = "\
    java/lang/String,F \
    java/lang/Class,F \
    java/lang/Throwable,C \
    java/lang/Exception,C,java/lang/Throwable \
    java/lang/Cloneable,I \
    java/io/Serializable,I \
    java/lang/Runnable,I,,+arun \
    java/io/PrintStream,C \
    java/lang/System,F,,+cout:Ljava/io/PrintStream; \
    lib/Base,C,,+.<init>,#.<init>:(F)V,#.kept:I,+.open:I,#sshared:I,#.held:(I)V,+.free \
    app/I,I,,+aget:(I)Ljava/lang/Object; \
    app/A,C,lib/Base,java/lang/Runnable,app/I,+.<init>,+.<init>:(J)V,+.wide:J,#.near:I,+scount:I,+sany:Ljava/lang/Object;,+.run,+smain:([Ljava/lang/String;)V,+.put:(IJ)Z,+.number:()J,+.small:()Z,+.ratio:()F,+.exact:()D,+.task:()Ljava/lang/Runnable;,+.same:()Lapp/A;,+ssum:(IJ)D,+sof:(Lapp/A;)Lapp/A;,+.get:(I)Ljava/lang/Object; \
    app/B,C,app/A,+.<init>,+.run";

/// A `new` at 0, and an instruction at 3.
fn insns_of(alloc: Global, made: Insn, insn: Insn) -> Result<Seq<(u16, Insn)>, Fail>
    ensures { IfOk result (λ rows. IsTrue (rises_from 0 rows)) }
{
    let mut insns = Vec::new(alloc);
    insns.push((0, made))?;
    insns.push((3, insn))?;
    Ok(Seq::from_vec(insns))
}

/// The body of a `new lib/Base` at 0, and the instruction of a text at 3: an opcode, how many words the stack may
/// have, and the operand.
fn body_of(alloc: Global, text: &str) -> Result<Body, Fail> {
    let max_stack = word(text, 1).parse::<u16>()?;
    let made = insn_of(alloc, "187", "class", "lib/Base")?;
    let insn = insn_of(alloc, word(text, 0), word(text, 2), word(text, 3))?;
    Ok(Body {
        max_stack,
        max_locals: 4,
        length: 8,
        insns: insns_of(alloc, made, insn)?,
        handlers: Seq::new(alloc),
    })
}

/// The frame after the instruction at 3, if there is one.
fn after(
    alloc: Global,
    world: &World,
    method: &str,
    body: &Body,
    before: &Frame,
) -> Result<Option<Frame>, Fail> {
    let (class, _) = method.split_once('.').unwrap_or((method, ""));
    let from = class_of(alloc, world, class)?;
    let method = method_of(alloc, world, method)?;
    Ok(ref_step(alloc, world, from, method, body, before, 3).ok())
}

/// Whether the instruction of a row leads from the frame before it to the one after it.
fn leads(alloc: Global, world: &World, method: &str, row: &str) -> Result<bool, Fail> {
    let before = frame_of(alloc, part(row, 0))?;
    let body = body_of(alloc, part(row, 1))?;
    let found = after(alloc, world, method, &body, &before)?;
    is_frame(alloc, found, part(row, 2))
}

/// The first row whose instruction leads elsewhere in a method of the world, and an empty text where none does. A
/// row is a frame, an instruction, and the frame after it, or `none`.
pub fn first_wrong<'a>(alloc: Global, method: &str, rows: &'a str) -> Result<&'a str, Fail> {
    let world = build(alloc, WORLD)??;
    for row in rows.lines() {
        if !leads(alloc, &world, method, row)? {
            return Ok(row);
        }
    }
    Ok("")
}
