//! The instructions that work on words: the frame that each leaves (JVMS 4.10.1.9).

use jv_bytes::Cursor;
use jv_insn::decode;
use jv_pool::{Pool, read_pool};
use jv_types::{Arg, Body, Const, Frame, Insn};
use jv_verify_words::word_step;
use std::alloc::Global;
use std::test::Fail;
use tests_shapes::{frame_of, is_frame};
use tests_text::{hex, part, word};

/// A pool of a double.
const POOL: &str = "0003060000000000000007";

/// The pool of the codes.
fn pool(alloc: Global) -> Result<Pool, Fail> {
    let bytes = hex(alloc, POOL)?;
    Ok(read_pool(alloc, &mut Cursor::new(&bytes))?)
}

/// The body of a code over the pool.
fn body_of(alloc: Global, code: &[u8]) -> Result<Body, Fail> {
    if code.len() > 65535 {
        return Err(Fail::from("a code of at most 65535 bytes"));
    }
    let pool = pool(alloc)?;
    Ok(decode(alloc, code, &pool, [].as_slice(), 9, 65535)?)
}

/// The frame that the first instruction of a code leaves, if it leaves one.
fn after(
    alloc: Global,
    before: &Frame,
    code: &[u8],
    max_stack: u16,
) -> Result<Option<Frame>, Fail> {
    let body = body_of(alloc, code)?;
    let insn = body.at(0).ok_or("an instruction")?;
    Ok(word_step(alloc, before, insn, max_stack).ok())
}

/// Whether the first instruction of a code leaves a frame as it must.
fn leaves(
    alloc: Global,
    before: &str,
    code: &[u8],
    max_stack: u16,
    wanted: &str,
) -> Result<bool, Fail> {
    let before = frame_of(alloc, before)?;
    is_frame(alloc, after(alloc, &before, code, max_stack)?, wanted)
}

/// The first and the last opcode, how far each is from the one before, the bytes behind it, and the frame before and
/// after it.
const OPCODES: &str = "\
0 0 1 - = int | = int |
2 8 1 - = int | = int | int
9 10 1 - = int | = int | long
11 13 1 - = int | = int | float
14 15 1 - = int | = int | double
16 16 1 03 = int | = int | int
17 17 1 0003 = int | = int | int
96 112 4 - = int | int int = int | int
97 113 4 - = int | long long = int | long
98 114 4 - = int | float float = int | float
99 115 4 - = int | double double = int | double
116 116 1 - = int | int = int | int
117 117 1 - = int | long = int | long
118 118 1 - = int | float = int | float
119 119 1 - = int | double = int | double
120 124 2 - = int | int int = int | int
121 125 2 - = int | long int = int | long
126 130 2 - = int | int int = int | int
127 131 2 - = int | long long = int | long
133 133 1 - = int | int = int | long
134 134 1 - = int | int = int | float
135 135 1 - = int | int = int | double
136 136 1 - = int | long = int | int
137 137 1 - = int | long = int | float
138 138 1 - = int | long = int | double
139 139 1 - = int | float = int | int
140 140 1 - = int | float = int | long
141 141 1 - = int | float = int | double
142 142 1 - = int | double = int | int
143 143 1 - = int | double = int | long
144 144 1 - = int | double = int | float
145 147 1 - = int | int = int | int
148 148 1 - = int | long long = int | int
149 150 1 - = int | float float = int | int
151 152 1 - = int | double double = int | int
153 158 1 0000 = int | int = int |
159 164 1 0000 = int | int int = int |
167 167 1 0000 = int | = int |
170 170 1 00000000000000000000000000000000000000 = int | int = int |
171 171 1 0000000000000000000000 = int | int = int |
200 200 1 00000000 = int | = int |";

/// The bytes of an opcode and of a text of what follows.
fn code_of(alloc: Global, op: u8, rest: &str) -> Result<Vec<u8>, Fail> {
    let mut code = Vec::new(alloc);
    code.push(op)?;
    for byte in hex(alloc, rest)?.as_slice() {
        code.push(*byte)?;
    }
    Ok(code)
}

/// Whether an opcode takes and gives the words of a line.
fn keeps(alloc: Global, op: u8, line: &str) -> Result<bool, Fail> {
    let code = code_of(alloc, op, word(line, 3))?;
    leaves(alloc, part(line, 1), &code, 2, part(line, 2))
}

/// Whether each opcode of a line takes and gives its words.
fn each_keeps(alloc: Global, line: &str) -> Result<bool, Fail> {
    let step = word(line, 2).parse::<usize>()?;
    let first = word(line, 0).parse::<u8>()?;
    for op in (first..=word(line, 1).parse::<u8>()?).step_by(step.max(1)) {
        if !keeps(alloc, op, line)? {
            return Ok(false);
        }
    }
    Ok(true)
}

#[test]
fn steps_as_the_standard_says(rt: HostRuntime) -> Result<(), Fail> {
    for line in OPCODES.lines() {
        assert!(rt; each_keeps(rt.alloc(), line)?, "at {line}");
    }
    Ok(())
}

/// A frame, an instruction and how many words the stack may have, and the frame that it leaves, or `none`.
const STEPS: &str = "\
| null int int = 60 2 = | null int
| int float = 60 2 = none
| int = 60 2 = none
int long | int = 3d 0 = int top int |
int long | float = 3801 0 = int float top |
double long | long = 40 0 = top long top |
int int | long = 40 2 = none
int long | = 1f 2 = int long | long
int long | = 1f 1 = none
int long | = 1700 1 = none
int long | = c415012c 1 = none
| = 140001 2 = | double
float int | = 840101 0 = float int |
float int | = 840001 0 = none
| = 01 2 = none";

/// Whether the instruction of a line leaves its frame.
fn steps(alloc: Global, line: &str) -> Result<bool, Fail> {
    let row = part(line, 1);
    let code = hex(alloc, word(row, 0))?;
    let max_stack = word(row, 1).parse::<u16>()?;
    leaves(alloc, part(line, 0), &code, max_stack, part(line, 2))
}

#[test]
fn steps_from_frames(rt: HostRuntime) -> Result<(), Fail> {
    for line in STEPS.lines() {
        assert!(rt; steps(rt.alloc(), line)?, "at {line}");
    }
    Ok(())
}

/// Whether an instruction that loads an int as a constant leaves no frame.
fn is_refused(alloc: Global, op: u8) -> Result<bool, Fail> {
    let frame = frame_of(alloc, "|")?;
    let insn = Insn {
        op,
        wide: false,
        arg: Arg::Constant(Const::Int(7)),
    };
    Ok(word_step(alloc, &frame, &insn, 2).is_err())
}

// An ldc2_w of an int, and no opcode at all, which no code decodes to.
#[test]
fn refuses_other_instructions(rt: HostRuntime) -> Result<(), Fail> {
    for op in [20, 202] {
        assert!(rt; is_refused(rt.alloc(), op)?, "at {op}");
    }
    Ok(())
}
