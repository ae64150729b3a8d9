use jv_types::{Access, Name, Seq};

/// What a word of a local or of the operand stack holds (JVMS 2.11.1), where it is known to hold one.
#[derive(Clone, Copy, Debug, PartialEq, Eq, PartialOrd, Ord)]
pub enum Kind {
    /// An int.
    Word,
    /// A reference, or null.
    Reference,
}

/// What an instruction does (JVMS 6.5). A local is named by its index, a field or a method by its place
/// in the class's list. The value of a constant isn't kept, nor which operation two ints go through.
#[derive(Clone, Copy, Debug, PartialEq, Eq, PartialOrd, Ord)]
pub enum Instruction {
    /// `nop`.
    Nop,
    /// `aconst_null`.
    PushNull,
    /// `iconst`, `bipush` or `sipush`.
    PushWord,
    /// `iload` or `aload`.
    Load { kind: Kind, local: u16 },
    /// `istore` or `astore`.
    Store { kind: Kind, local: u16 },
    /// `pop`.
    Pop,
    /// `dup`.
    Dup,
    /// `iadd`, `isub`, `imul`, `iand`, `ior` or `ixor`: an int of two.
    Combine,
    /// `ineg`.
    Negate,
    /// `getstatic` of the field at this place.
    GetStatic(u16),
    /// `putstatic` of the field at this place.
    PutStatic(u16),
    /// `getfield` of the field at this place.
    GetField(u16),
    /// `putfield` of the field at this place.
    PutField(u16),
    /// `invokevirtual` of the method at this place.
    InvokeVirtual(u16),
    /// `invokespecial` of the method at this place.
    InvokeSpecial(u16),
    /// `invokespecial` of the constructor of `java/lang/Object`.
    InvokeObjectInit,
    /// `invokestatic` of the method at this place.
    InvokeStatic(u16),
    /// `new` of the class itself.
    New,
    /// `ireturn`, `areturn` or `return`.
    Return(Option<Kind>),
}

/// An instruction, and the offset in bytes at which it starts in its method's code.
#[derive(Clone, Copy, Debug, PartialEq, Eq, PartialOrd, Ord)]
pub struct Placed {
    pub pc: u16,
    pub instruction: Instruction,
}

/// A field with its name and descriptor (JVMS 4.5), and the kind that the descriptor says.
#[derive(Debug, PartialEq, Eq, PartialOrd, Ord, Drop)]
pub struct Field {
    pub access: Access,
    pub name: Name,
    pub desc: Name,
    pub kind: Kind,
}

/// A method with its name and descriptor (JVMS 4.6) and its code (JVMS 4.7.3).
#[derive(Debug, PartialEq, Eq, PartialOrd, Ord, Drop)]
pub struct Method {
    pub access: Access,
    pub name: Name,
    pub desc: Name,
    /// The kinds of the argument words: the receiver's, unless the method is static, and then those of
    /// the parameters. A call takes them from the stack, and they are the first locals (JVMS 2.6.1).
    pub arguments: Seq<Kind>,
    /// The kind of the result, none where the method gives none.
    pub result: Option<Kind>,
    pub max_stack: u16,
    pub max_locals: u16,
    pub code: Seq<Placed>,
}

/// A class whose fields and methods are over ints, itself and `java/lang/Object`, each list in the order
/// of the file.
#[derive(Debug, PartialEq, Eq, PartialOrd, Ord, Drop)]
pub struct ObjectClass {
    pub name: Name,
    pub fields: Seq<Field>,
    pub methods: Seq<Method>,
}
