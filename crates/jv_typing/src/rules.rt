ghost use Rattle.std.specs.Prelude.{◌≡◌};
ghost use Rattle.std.specs.Ordering.{nat_cmp};
ghost use Rattle.jv_table.specs.Rows.{row_of};
ghost use Rattle.jv_typing.specs.Rules.{ref_rules};

use jv_table::{Table, ops};
use jv_types::Prim;

/// How an instruction that works on references is typed: each rule has a part of JVMS 4.10.1.9.
#[derive(Clone, Copy, Debug, PartialEq, Eq)]
pub enum RefRule {
    /// aconst_null.
    PushNull,
    /// ldc and ldc_w.
    PushConstant,
    /// aload.
    Load,
    /// astore.
    Store,
    /// iaload, laload, faload, daload, caload and saload: a load from an array of these.
    LoadItem(Prim),
    /// baload: a load from an array of bytes or of booleans.
    LoadSmall,
    /// aaload.
    LoadRef,
    /// iastore, lastore, fastore, dastore, castore and sastore.
    StoreItem(Prim),
    /// bastore.
    StoreSmall,
    /// aastore.
    StoreRef,
    /// pop, pop2, dup, dup_x1, dup_x2, dup2, dup2_x1, dup2_x2 and swap.
    Move,
    /// if_acmpeq, if_acmpne, ifnull, ifnonnull, monitorenter and monitorexit: references, initialised or not.
    TakeRefs,
    /// ireturn, lreturn, freturn, dreturn and areturn.
    ReturnValue,
    /// return.
    ReturnVoid,
    /// getstatic.
    GetStatic,
    /// putstatic.
    PutStatic,
    /// getfield.
    GetField,
    /// putfield.
    PutField,
    /// invokevirtual.
    InvokeVirtual,
    /// invokespecial.
    InvokeSpecial,
    /// invokestatic.
    InvokeStatic,
    /// invokeinterface.
    InvokeInterface,
    /// new.
    New,
    /// newarray.
    NewArray,
    /// anewarray.
    NewRefArray,
    /// arraylength.
    ArrayLength,
    /// athrow.
    Throw,
    /// checkcast.
    CheckCast,
    /// instanceof.
    InstanceOf,
    /// multianewarray.
    NewMultiArray,
}

/// The opcodes of the instructions that work on references, each with its rule.
fn rules() -> Table<u8, RefRule, 66>
    ensures { result ≡ ref_rules }
{
    static ROWS: [(u8, RefRule); 66] = [
        (ops::ACONST_NULL, RefRule::PushNull),
        (ops::LDC, RefRule::PushConstant),
        (ops::LDC_W, RefRule::PushConstant),
        (ops::ALOAD, RefRule::Load),
        (ops::ALOAD_0, RefRule::Load),
        (ops::ALOAD_1, RefRule::Load),
        (ops::ALOAD_2, RefRule::Load),
        (ops::ALOAD_3, RefRule::Load),
        (ops::IALOAD, RefRule::LoadItem(Prim::Int)),
        (ops::LALOAD, RefRule::LoadItem(Prim::Long)),
        (ops::FALOAD, RefRule::LoadItem(Prim::Float)),
        (ops::DALOAD, RefRule::LoadItem(Prim::Double)),
        (ops::AALOAD, RefRule::LoadRef),
        (ops::BALOAD, RefRule::LoadSmall),
        (ops::CALOAD, RefRule::LoadItem(Prim::Char)),
        (ops::SALOAD, RefRule::LoadItem(Prim::Short)),
        (ops::ASTORE, RefRule::Store),
        (ops::ASTORE_0, RefRule::Store),
        (ops::ASTORE_1, RefRule::Store),
        (ops::ASTORE_2, RefRule::Store),
        (ops::ASTORE_3, RefRule::Store),
        (ops::IASTORE, RefRule::StoreItem(Prim::Int)),
        (ops::LASTORE, RefRule::StoreItem(Prim::Long)),
        (ops::FASTORE, RefRule::StoreItem(Prim::Float)),
        (ops::DASTORE, RefRule::StoreItem(Prim::Double)),
        (ops::AASTORE, RefRule::StoreRef),
        (ops::BASTORE, RefRule::StoreSmall),
        (ops::CASTORE, RefRule::StoreItem(Prim::Char)),
        (ops::SASTORE, RefRule::StoreItem(Prim::Short)),
        (ops::POP, RefRule::Move),
        (ops::POP2, RefRule::Move),
        (ops::DUP, RefRule::Move),
        (ops::DUP_X1, RefRule::Move),
        (ops::DUP_X2, RefRule::Move),
        (ops::DUP2, RefRule::Move),
        (ops::DUP2_X1, RefRule::Move),
        (ops::DUP2_X2, RefRule::Move),
        (ops::SWAP, RefRule::Move),
        (ops::IF_ACMPEQ, RefRule::TakeRefs),
        (ops::IF_ACMPNE, RefRule::TakeRefs),
        (ops::IRETURN, RefRule::ReturnValue),
        (ops::LRETURN, RefRule::ReturnValue),
        (ops::FRETURN, RefRule::ReturnValue),
        (ops::DRETURN, RefRule::ReturnValue),
        (ops::ARETURN, RefRule::ReturnValue),
        (ops::RETURN, RefRule::ReturnVoid),
        (ops::GETSTATIC, RefRule::GetStatic),
        (ops::PUTSTATIC, RefRule::PutStatic),
        (ops::GETFIELD, RefRule::GetField),
        (ops::PUTFIELD, RefRule::PutField),
        (ops::INVOKEVIRTUAL, RefRule::InvokeVirtual),
        (ops::INVOKESPECIAL, RefRule::InvokeSpecial),
        (ops::INVOKESTATIC, RefRule::InvokeStatic),
        (ops::INVOKEINTERFACE, RefRule::InvokeInterface),
        (ops::NEW, RefRule::New),
        (ops::NEWARRAY, RefRule::NewArray),
        (ops::ANEWARRAY, RefRule::NewRefArray),
        (ops::ARRAYLENGTH, RefRule::ArrayLength),
        (ops::ATHROW, RefRule::Throw),
        (ops::CHECKCAST, RefRule::CheckCast),
        (ops::INSTANCEOF, RefRule::InstanceOf),
        (ops::MONITORENTER, RefRule::TakeRefs),
        (ops::MONITOREXIT, RefRule::TakeRefs),
        (ops::MULTIANEWARRAY, RefRule::NewMultiArray),
        (ops::IFNULL, RefRule::TakeRefs),
        (ops::IFNONNULL, RefRule::TakeRefs),
    ];
    Table::new(&ROWS)
}

/// The rule of an opcode, where it is of an instruction that works on references.
pub fn ref_rule(op: u8) -> Option<RefRule>
    ensures { result ≡ row_of nat_cmp op ref_rules }
{
    rules().find(&op).copied()
}
