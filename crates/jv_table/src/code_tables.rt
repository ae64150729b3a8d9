ghost use Rattle.std.specs.Prelude.{◌≡◌, ◌<◌, ◌≤◌, ℕ, map, IsSome, Some, None};
ghost use Rattle.std.specs.Option.{option_copied, option_map};
ghost use Rattle.std.specs.Ordering.{nat_cmp};
ghost use Rattle.jv_table.specs.Rows.{row_of};
ghost use Rattle.jv_table.specs.CodeRows.{OpForm, op_form, op_row_form, opcode_rows, newarray_rows};

use crate::table::Table;
use crate::{atypes, ops};

/// What a word or two of the operand stack hold (JVMS 2.6.2 and 2.11.1): a long or double takes two
/// words, and `Null` is the reference that aconst_null pushes.
#[derive(Clone, Copy, Debug, PartialEq, Eq, PartialOrd, Ord)]
pub enum Cell {
    Int,
    Float,
    Long,
    Double,
    Ref,
    Null,
}

/// What an instruction works on: words of known types, or references. `Outside` are jsr, ret, jsr_w,
/// invokedynamic and wide.
#[derive(Clone, Copy, Debug, PartialEq, Eq, PartialOrd, Ord)]
pub enum Kind {
    Word,
    Refs,
    Outside,
}

/// The layout of an instruction's operands (JVMS 6.5).
#[derive(Clone, Copy, Debug, PartialEq, Eq, PartialOrd, Ord)]
pub enum Form {
    Nothing,
    /// The index of a local variable, one byte.
    Local,
    /// A signed number of one byte.
    Small1,
    /// A signed number of two bytes.
    Small2,
    /// The index of a local variable and a signed number, one byte each.
    Inc,
    /// The pool index of a constant of one word, one byte.
    Load1,
    /// The pool index of a constant of one word, two bytes.
    Load2,
    /// The pool index of a long or double, two bytes.
    LoadTwo,
    /// The pool index of a class, two bytes.
    Class,
    /// The pool index of a field, two bytes.
    Field,
    /// The pool index of a method, two bytes.
    Method,
    /// The pool index of a method of an interface, two bytes, the argument words, one byte, and a zero.
    InterfaceMethod,
    /// The pool index of a call site, two bytes, and two more that are not looked at.
    Dynamic,
    /// The code of a primitive type, one byte.
    NewPrim,
    /// The pool index of an array class, two bytes, and a number of dimensions, one byte.
    Multi,
    /// A signed offset of two bytes.
    Jump2,
    /// A signed offset of four bytes.
    Jump4,
    TableSwitch,
    LookupSwitch,
    /// An opcode and its wide operands.
    Wide,
}

/// An opcode (JVMS 6.5): the layout of its operands, and the cells that it takes from the stack and
/// gives to it, the topmost last. Where the operands decide the cells, both lists are empty, and so they
/// are of the instructions that move words whatever they hold.
#[derive(Clone, Copy, Debug)]
pub struct OpRow {
    pub op: u8,
    pub form: Form,
    pub takes: &'static [Cell],
    pub gives: &'static [Cell],
    pub kind: Kind,
}

macro_rules! op_rows {
    ($($op:ident: $form:ident [$($takes:ident)*] [$($gives:ident)*] $kind:ident;)*) => {
        [$((ops::$op, OpRow {
            op: ops::$op,
            form: Form::$form,
            takes: &[$(Cell::$takes),*],
            gives: &[$(Cell::$gives),*],
            kind: Kind::$kind,
        }),)*]
    };
}

macro_rules! code_rows {
    ($($code:ident: $letter:literal;)*) => {
        [$((atypes::$code, $letter),)*]
    };
}

/// The opcodes (JVMS 6.5 and 7). Those from 202 on have no row.
pub fn opcodes() -> Table<u8, OpRow, 202>
    ensures { map op_row_form result ≡ opcode_rows }
{
    static ROWS: [(u8, OpRow); 202] = op_rows! {
        NOP: Nothing [] [] Word;
        ACONST_NULL: Nothing [] [Null] Refs;
        ICONST_M1: Nothing [] [Int] Word;
        ICONST_0: Nothing [] [Int] Word;
        ICONST_1: Nothing [] [Int] Word;
        ICONST_2: Nothing [] [Int] Word;
        ICONST_3: Nothing [] [Int] Word;
        ICONST_4: Nothing [] [Int] Word;
        ICONST_5: Nothing [] [Int] Word;
        LCONST_0: Nothing [] [Long] Word;
        LCONST_1: Nothing [] [Long] Word;
        FCONST_0: Nothing [] [Float] Word;
        FCONST_1: Nothing [] [Float] Word;
        FCONST_2: Nothing [] [Float] Word;
        DCONST_0: Nothing [] [Double] Word;
        DCONST_1: Nothing [] [Double] Word;
        BIPUSH: Small1 [] [Int] Word;
        SIPUSH: Small2 [] [Int] Word;
        LDC: Load1 [] [] Refs;
        LDC_W: Load2 [] [] Refs;
        LDC2_W: LoadTwo [] [] Word;
        ILOAD: Local [] [Int] Word;
        LLOAD: Local [] [Long] Word;
        FLOAD: Local [] [Float] Word;
        DLOAD: Local [] [Double] Word;
        ALOAD: Local [] [Ref] Refs;
        ILOAD_0: Nothing [] [Int] Word;
        ILOAD_1: Nothing [] [Int] Word;
        ILOAD_2: Nothing [] [Int] Word;
        ILOAD_3: Nothing [] [Int] Word;
        LLOAD_0: Nothing [] [Long] Word;
        LLOAD_1: Nothing [] [Long] Word;
        LLOAD_2: Nothing [] [Long] Word;
        LLOAD_3: Nothing [] [Long] Word;
        FLOAD_0: Nothing [] [Float] Word;
        FLOAD_1: Nothing [] [Float] Word;
        FLOAD_2: Nothing [] [Float] Word;
        FLOAD_3: Nothing [] [Float] Word;
        DLOAD_0: Nothing [] [Double] Word;
        DLOAD_1: Nothing [] [Double] Word;
        DLOAD_2: Nothing [] [Double] Word;
        DLOAD_3: Nothing [] [Double] Word;
        ALOAD_0: Nothing [] [Ref] Refs;
        ALOAD_1: Nothing [] [Ref] Refs;
        ALOAD_2: Nothing [] [Ref] Refs;
        ALOAD_3: Nothing [] [Ref] Refs;
        IALOAD: Nothing [Ref Int] [Int] Refs;
        LALOAD: Nothing [Ref Int] [Long] Refs;
        FALOAD: Nothing [Ref Int] [Float] Refs;
        DALOAD: Nothing [Ref Int] [Double] Refs;
        AALOAD: Nothing [Ref Int] [Ref] Refs;
        BALOAD: Nothing [Ref Int] [Int] Refs;
        CALOAD: Nothing [Ref Int] [Int] Refs;
        SALOAD: Nothing [Ref Int] [Int] Refs;
        ISTORE: Local [Int] [] Word;
        LSTORE: Local [Long] [] Word;
        FSTORE: Local [Float] [] Word;
        DSTORE: Local [Double] [] Word;
        ASTORE: Local [Ref] [] Refs;
        ISTORE_0: Nothing [Int] [] Word;
        ISTORE_1: Nothing [Int] [] Word;
        ISTORE_2: Nothing [Int] [] Word;
        ISTORE_3: Nothing [Int] [] Word;
        LSTORE_0: Nothing [Long] [] Word;
        LSTORE_1: Nothing [Long] [] Word;
        LSTORE_2: Nothing [Long] [] Word;
        LSTORE_3: Nothing [Long] [] Word;
        FSTORE_0: Nothing [Float] [] Word;
        FSTORE_1: Nothing [Float] [] Word;
        FSTORE_2: Nothing [Float] [] Word;
        FSTORE_3: Nothing [Float] [] Word;
        DSTORE_0: Nothing [Double] [] Word;
        DSTORE_1: Nothing [Double] [] Word;
        DSTORE_2: Nothing [Double] [] Word;
        DSTORE_3: Nothing [Double] [] Word;
        ASTORE_0: Nothing [Ref] [] Refs;
        ASTORE_1: Nothing [Ref] [] Refs;
        ASTORE_2: Nothing [Ref] [] Refs;
        ASTORE_3: Nothing [Ref] [] Refs;
        IASTORE: Nothing [Ref Int Int] [] Refs;
        LASTORE: Nothing [Ref Int Long] [] Refs;
        FASTORE: Nothing [Ref Int Float] [] Refs;
        DASTORE: Nothing [Ref Int Double] [] Refs;
        AASTORE: Nothing [Ref Int Ref] [] Refs;
        BASTORE: Nothing [Ref Int Int] [] Refs;
        CASTORE: Nothing [Ref Int Int] [] Refs;
        SASTORE: Nothing [Ref Int Int] [] Refs;
        POP: Nothing [] [] Refs;
        POP2: Nothing [] [] Refs;
        DUP: Nothing [] [] Refs;
        DUP_X1: Nothing [] [] Refs;
        DUP_X2: Nothing [] [] Refs;
        DUP2: Nothing [] [] Refs;
        DUP2_X1: Nothing [] [] Refs;
        DUP2_X2: Nothing [] [] Refs;
        SWAP: Nothing [] [] Refs;
        IADD: Nothing [Int Int] [Int] Word;
        LADD: Nothing [Long Long] [Long] Word;
        FADD: Nothing [Float Float] [Float] Word;
        DADD: Nothing [Double Double] [Double] Word;
        ISUB: Nothing [Int Int] [Int] Word;
        LSUB: Nothing [Long Long] [Long] Word;
        FSUB: Nothing [Float Float] [Float] Word;
        DSUB: Nothing [Double Double] [Double] Word;
        IMUL: Nothing [Int Int] [Int] Word;
        LMUL: Nothing [Long Long] [Long] Word;
        FMUL: Nothing [Float Float] [Float] Word;
        DMUL: Nothing [Double Double] [Double] Word;
        IDIV: Nothing [Int Int] [Int] Word;
        LDIV: Nothing [Long Long] [Long] Word;
        FDIV: Nothing [Float Float] [Float] Word;
        DDIV: Nothing [Double Double] [Double] Word;
        IREM: Nothing [Int Int] [Int] Word;
        LREM: Nothing [Long Long] [Long] Word;
        FREM: Nothing [Float Float] [Float] Word;
        DREM: Nothing [Double Double] [Double] Word;
        INEG: Nothing [Int] [Int] Word;
        LNEG: Nothing [Long] [Long] Word;
        FNEG: Nothing [Float] [Float] Word;
        DNEG: Nothing [Double] [Double] Word;
        ISHL: Nothing [Int Int] [Int] Word;
        LSHL: Nothing [Long Int] [Long] Word;
        ISHR: Nothing [Int Int] [Int] Word;
        LSHR: Nothing [Long Int] [Long] Word;
        IUSHR: Nothing [Int Int] [Int] Word;
        LUSHR: Nothing [Long Int] [Long] Word;
        IAND: Nothing [Int Int] [Int] Word;
        LAND: Nothing [Long Long] [Long] Word;
        IOR: Nothing [Int Int] [Int] Word;
        LOR: Nothing [Long Long] [Long] Word;
        IXOR: Nothing [Int Int] [Int] Word;
        LXOR: Nothing [Long Long] [Long] Word;
        IINC: Inc [] [] Word;
        I2L: Nothing [Int] [Long] Word;
        I2F: Nothing [Int] [Float] Word;
        I2D: Nothing [Int] [Double] Word;
        L2I: Nothing [Long] [Int] Word;
        L2F: Nothing [Long] [Float] Word;
        L2D: Nothing [Long] [Double] Word;
        F2I: Nothing [Float] [Int] Word;
        F2L: Nothing [Float] [Long] Word;
        F2D: Nothing [Float] [Double] Word;
        D2I: Nothing [Double] [Int] Word;
        D2L: Nothing [Double] [Long] Word;
        D2F: Nothing [Double] [Float] Word;
        I2B: Nothing [Int] [Int] Word;
        I2C: Nothing [Int] [Int] Word;
        I2S: Nothing [Int] [Int] Word;
        LCMP: Nothing [Long Long] [Int] Word;
        FCMPL: Nothing [Float Float] [Int] Word;
        FCMPG: Nothing [Float Float] [Int] Word;
        DCMPL: Nothing [Double Double] [Int] Word;
        DCMPG: Nothing [Double Double] [Int] Word;
        IFEQ: Jump2 [Int] [] Word;
        IFNE: Jump2 [Int] [] Word;
        IFLT: Jump2 [Int] [] Word;
        IFGE: Jump2 [Int] [] Word;
        IFGT: Jump2 [Int] [] Word;
        IFLE: Jump2 [Int] [] Word;
        IF_ICMPEQ: Jump2 [Int Int] [] Word;
        IF_ICMPNE: Jump2 [Int Int] [] Word;
        IF_ICMPLT: Jump2 [Int Int] [] Word;
        IF_ICMPGE: Jump2 [Int Int] [] Word;
        IF_ICMPGT: Jump2 [Int Int] [] Word;
        IF_ICMPLE: Jump2 [Int Int] [] Word;
        IF_ACMPEQ: Jump2 [Ref Ref] [] Refs;
        IF_ACMPNE: Jump2 [Ref Ref] [] Refs;
        GOTO: Jump2 [] [] Word;
        JSR: Jump2 [] [] Outside;
        RET: Local [] [] Outside;
        TABLESWITCH: TableSwitch [Int] [] Word;
        LOOKUPSWITCH: LookupSwitch [Int] [] Word;
        IRETURN: Nothing [Int] [] Refs;
        LRETURN: Nothing [Long] [] Refs;
        FRETURN: Nothing [Float] [] Refs;
        DRETURN: Nothing [Double] [] Refs;
        ARETURN: Nothing [Ref] [] Refs;
        RETURN: Nothing [] [] Refs;
        GETSTATIC: Field [] [] Refs;
        PUTSTATIC: Field [] [] Refs;
        GETFIELD: Field [] [] Refs;
        PUTFIELD: Field [] [] Refs;
        INVOKEVIRTUAL: Method [] [] Refs;
        INVOKESPECIAL: Method [] [] Refs;
        INVOKESTATIC: Method [] [] Refs;
        INVOKEINTERFACE: InterfaceMethod [] [] Refs;
        INVOKEDYNAMIC: Dynamic [] [] Outside;
        NEW: Class [] [Ref] Refs;
        NEWARRAY: NewPrim [Int] [Ref] Refs;
        ANEWARRAY: Class [Int] [Ref] Refs;
        ARRAYLENGTH: Nothing [Ref] [Int] Refs;
        ATHROW: Nothing [Ref] [] Refs;
        CHECKCAST: Class [Ref] [Ref] Refs;
        INSTANCEOF: Class [Ref] [Int] Refs;
        MONITORENTER: Nothing [Ref] [] Refs;
        MONITOREXIT: Nothing [Ref] [] Refs;
        WIDE: Wide [] [] Outside;
        MULTIANEWARRAY: Multi [] [] Refs;
        IFNULL: Jump2 [Ref] [] Refs;
        IFNONNULL: Jump2 [Ref] [] Refs;
        GOTO_W: Jump4 [] [] Word;
        JSR_W: Jump4 [] [] Outside;
    };
    Table::new(&ROWS)
}

/// The layout and the cells of an opcode, where it has a row.
pub fn opcode(op: u8) -> Option<&'static OpRow>
    ensures { option_map op_form (option_copied result) ≡ row_of nat_cmp op opcode_rows }
{
    opcodes().find(&op)
}

/// The codes of primitive types in newarray (JVMS table 6.5.newarray-A), each with its type's letter in
/// descriptors (JVMS table 4.3-A).
pub fn newarray_codes() -> Table<u8, u8, 8>
    ensures { result ≡ newarray_rows }
{
    static ROWS: [(u8, u8); 8] = code_rows! {
        T_BOOLEAN: b'Z';
        T_CHAR: b'C';
        T_FLOAT: b'F';
        T_DOUBLE: b'D';
        T_BYTE: b'B';
        T_SHORT: b'S';
        T_INT: b'I';
        T_LONG: b'J';
    };
    Table::new(&ROWS)
}

/// The letter of a primitive type by its code in newarray, where there is one.
pub fn newarray_code(code: u8) -> Option<u8>
    ensures { result ≡ row_of nat_cmp code newarray_rows }
{
    newarray_codes().find(&code).copied()
}

/// The opcodes below 202 have a row each, which says the opcode itself, and no other number has one.
/// This does nothing, and its contract is the law.
pub fn opcodes_are_numbered()
    ensures some { (op : ℕ) → op < 202 → IsSome (row_of nat_cmp op opcode_rows) }
    ensures none { (op : ℕ) → 202 ≤ op → row_of nat_cmp op opcode_rows ≡ None }
    ensures own { (op : ℕ) (row : OpForm) → row_of nat_cmp op opcode_rows ≡ Some row → row.op ≡ op }
{}
