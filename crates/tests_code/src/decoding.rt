//! Codes that are decoded: what each opcode's instruction is, where codes fail, and their handlers.

use crate::operands::arg_of;
use crate::pools::pool;
use jv_insn::{BadCode, decode};
use jv_pool::Pool;
use jv_types::{Arg, Body, Copied, RawHandler};
use std::alloc::Global;
use std::test::Fail;
use tests_text::{hex, word};

/// The first and the last opcode, the four bytes that follow each, and its operands. Bytes that are no
/// operands are nops.
pub const OPCODES: &str = "\
0 15 00000000 = nothing
16 16 ff000000 = small -1
17 17 ff7f0000 = small -129
18 18 0b000000 = constant int -1
19 19 00020000 = constant class LA;
20 20 000c0000 = constant double 7
21 25 03000000 = local 3
26 53 00000000 = nothing
54 58 03000000 = local 3
59 131 00000000 = nothing
132 132 02800000 = inc 2 -128
133 152 00000000 = nothing
153 168 00040000 = jump 4
169 169 01000000 = local 1
172 177 00000000 = nothing
178 181 00060000 = field A f I
182 184 00090000 = method LA; f (J)V
185 185 000a0300 = interface LA; f (J)V
186 186 00100000 = dynamic
187 187 00020000 = class LA;
188 188 0a000000 = newarray I
189 189 00020000 = class LA;
190 191 00000000 = nothing
192 193 00020000 = class LA;
194 195 00000000 = nothing
197 197 000f0200 = multi [[I 2
198 199 00030000 = jump 3
200 201 00000000 = jump 0";

/// The bytes of an opcode and of a text of what follows.
pub fn code_of(alloc: Global, op: u8, rest: &str) -> Result<Vec<u8>, Fail> {
    let mut code = Vec::new(alloc);
    code.push(op)?;
    for byte in hex(alloc, rest)?.as_slice() {
        code.push(*byte)?;
    }
    Ok(code)
}

/// The body of a code without handlers, or why there is none.
pub fn body_of(
    alloc: Global,
    code: &[u8],
    pool: &Pool,
    max_locals: u16,
) -> Result<Result<Body, BadCode>, Fail> {
    if code.len() > 65535 {
        return Err(Fail::from("a code of at most 65535 bytes"));
    }
    Ok(decode(alloc, code, pool, [].as_slice(), 9, max_locals))
}

/// Whether the code of an opcode is decoded to the instruction with these operands.
fn is_decoded(alloc: Global, pool: &Pool, op: u8, rest: &str, arg: &Arg) -> Result<bool, Fail> {
    let code = code_of(alloc, op, rest)?;
    let body = body_of(alloc, &code, pool, 4)??;
    let insn = body.at(0).ok_or("an instruction")?;
    Ok(insn.op == op && !insn.wide && insn.arg == *arg)
}

#[test]
fn decodes_each_opcode(rt: HostRuntime) -> Result<(), Fail> {
    let alloc = rt.alloc();
    let pool = pool(alloc)?;
    for line in OPCODES.lines() {
        let (_, operands) = line.split_once(" = ").ok_or("operands")?;
        let arg = arg_of(alloc, operands)?;
        for op in word(line, 0).parse::<u8>()?..=word(line, 1).parse::<u8>()? {
            assert!(rt;
                is_decoded(alloc, &pool, op, word(line, 2), &arg)?,
                "at {op}"
            );
        }
    }
    Ok(())
}

/// Codes by their names, each with how many local variables it has, and the code as which it is encoded again,
/// where padding is zero. The operands of the lookupswitches begin behind 0, 3, 2 and 1 bytes of padding.
pub const CODES: &str = "\
push 0 1005ac 1005ac
wide 257 c4150100ac c4150100ac
table 0 aa00000000000014000000000000000000000000b1 aa00000000000014000000000000000000000000b1
lookups 0 000000ab0000000900000000ab0000000000000c0000000000ab09090000000b000000000000ab000000000a00000000b1 000000ab0000000900000000ab0000000000000c0000000000ab00000000000b000000000000ab000000000a00000000b1
jumps 0 a70003aafffffffdffffffff000000000000000000000015ab0000000000000000000002fffffff9ffffffe800000009ffffffeb a70003aafffffffdffffffff000000000000000000000015ab0000000000000000000002fffffff9ffffffe800000009ffffffeb";

/// A code, an offset in it, what is asked (the opcode there, the next instruction's offset, or a target by its
/// number, where 0 is the default of a switch), and the answer.
const ANSWERS: &str = "\
push 0 op 16
push 1 op -
push 2 op 172
push 0 next 2
push 2 next -
wide 0 op 21
wide 0 next 4
table 20 op 177
table 0 0 20
table 0 1 0
table 0 2 -
lookups 3 op 171
lookups 3 0 12
lookups 12 op 171
lookups 12 0 24
lookups 25 op 171
lookups 25 0 36
lookups 38 op 171
lookups 38 0 48
jumps 3 op 170
jumps 4 op -
jumps 0 next 3
jumps 7 next 24
jumps 24 next -
jumps 0 0 3
jumps 0 1 -
jumps 1 0 -
jumps 3 0 0
jumps 3 1 3
jumps 3 2 24
jumps 3 3 -
jumps 24 0 24
jumps 24 1 0
jumps 24 2 3
jumps 24 3 -";

/// The line of a code of this name.
fn line_of(name: &str) -> &'static str {
    for line in CODES.lines() {
        if word(line, 0) == name {
            return line;
        }
    }
    ""
}

/// What is asked of a body at an offset.
fn answer(body: &Body, pc: u16, asked: &str) -> Option<u16> {
    match asked {
        "op" => Some(u16::from(body.at(pc)?.op)),
        "next" => body.next(pc),
        _ => body.target(pc, asked.parse::<usize>().ok()?),
    }
}

#[test]
fn finds_instructions_and_targets(rt: HostRuntime) -> Result<(), Fail> {
    let alloc = rt.alloc();
    let pool = pool(alloc)?;
    for line in ANSWERS.lines() {
        let row = line_of(word(line, 0));
        let code = hex(alloc, word(row, 2))?;
        let max_locals = word(row, 1).parse::<u16>()?;
        let body = body_of(alloc, &code, &pool, max_locals)??.copy()?;
        assert_eq!(rt; usize::from(body.length), code.len());
        assert_eq!(rt; (body.max_stack, body.max_locals), (9, max_locals));
        let found = answer(&body, word(line, 1).parse::<u16>()?, word(line, 2));
        assert!(rt; found == word(line, 3).parse::<u16>().ok(), "at {line}");
    }
    Ok(())
}

/// Codes that are refused, how many local variables they have, and the least offset at which they fail.
const REFUSED: &str = "\
00ca0000 4 1 no opcode
ac000010 4 3 a cut operand
ac10 4 1 a cut operand at the end
c4a90000 4 0 a wide ret that is cut
a70001b1 4 0 a jump into an instruction
00a70009 4 1 a jump behind the code
a70009ca 4 0 a jump behind the code, before the code breaks off
0000bc03 4 2 a newarray of no type
00001504 4 2 a local variable that is too high
c4150100ac 256 0 a wide local variable that is too high
00b20001 4 1 a text for a field
00b20011 4 1 a field that isn't in the pool
bb000f 4 0 a new of an array
b6000a 4 0 an invokevirtual of an interface's method
b9000a0200 4 0 an invokeinterface that counts another number of words
b9000a0301 4 0 an invokeinterface that ends in another byte than 0";

#[test]
fn refuses_at_the_least_offset(rt: HostRuntime) -> Result<(), Fail> {
    let alloc = rt.alloc();
    let pool = pool(alloc)?;
    for line in REFUSED.lines() {
        let code = hex(alloc, word(line, 0))?;
        let refused = body_of(alloc, &code, &pool, word(line, 1).parse::<u16>()?)?.err();
        let pc = word(line, 2).parse::<u16>()?;
        assert!(rt; refused == Some(BadCode::At { pc }), "at {line}");
    }
    Ok(())
}

/// Handlers of the code nop, bipush 5, return: start, end, target and catch type, and where they fail.
const HANDLERS: &str = "\
0 4 3 2 -
0 1 0 0 -
0 0 3 0 0
1 2 3 0 1
2 3 3 0 2
3 5 3 0 3
0 4 2 0 0
1 4 3 15 1";

/// The handler of a line.
fn handler_of(line: &str) -> Result<RawHandler, Fail> {
    Ok(RawHandler {
        start: word(line, 0).parse::<u16>()?,
        end: word(line, 1).parse::<u16>()?,
        target: word(line, 2).parse::<u16>()?,
        catch: word(line, 3).parse::<u16>()?,
    })
}

#[test]
fn decodes_handlers(rt: HostRuntime) -> Result<(), Fail> {
    let alloc = rt.alloc();
    let pool = pool(alloc)?;
    let code = [0, 0x10, 5, 0xb1];
    for line in HANDLERS.lines() {
        let handler = handler_of(line)?;
        let read = decode(alloc, code.as_slice(), &pool, [handler].as_slice(), 1, 0);
        let pc = word(line, 4).parse::<u16>().ok();
        assert!(rt; read.err() == pc.map(|pc| BadCode::At { pc }), "at {line}");
    }
    Ok(())
}
