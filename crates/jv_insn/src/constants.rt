ghost use Rattle.std.specs.Prelude.{◌≡◌};
ghost use Rattle.jv_insn.specs.Forms.{is_category_2};
ghost use Rattle.jv_insn.specs.Meanings.{NamesConst};
ghost use Rattle.jv_names.specs.Finding.{Finds};

use jv_names::type_at;
use jv_pool::{Pool, PoolItem};
use jv_read::ReadFault;
use jv_types::Const;
use std::alloc::Global;

/// The constant that an index of the pool names.
fn any_const_at(alloc: Global, pool: &Pool, index: u16) -> Result<Const, ReadFault>
    ensures { Finds (λ const. NamesConst pool.now index const) result }
{
    match pool.item(index) {
        Some(PoolItem::Integer(value)) => Ok(Const::Int(*value)),
        Some(PoolItem::Float(bits)) => Ok(Const::Float(*bits)),
        Some(PoolItem::Long(value)) => Ok(Const::Long(*value)),
        Some(PoolItem::Double(bits)) => Ok(Const::Double(*bits)),
        Some(PoolItem::Text(_)) => Ok(Const::Text),
        Some(PoolItem::Class(_)) => match type_at(alloc, pool, index) {
            Ok(of) => Ok(Const::Class(of)),
            Err(e) => Err(e),
        },
        Some(PoolItem::MethodHandle(_, _)) => Ok(Const::Handle),
        Some(PoolItem::MethodType(_)) => Ok(Const::MethodKind),
        _ => Err(ReadFault::Bad),
    }
}

/// Whether a constant is of category 2 (JVMS 2.11.1).
fn is_category_2(constant: &Const) -> bool
    ensures { result ≡ is_category_2 constant.now }
{
    matches!(constant, Const::Long(_) | Const::Double(_))
}

/// The constant that an index of the pool names, where it is of category 2, or where it isn't.
pub fn const_at(
    alloc: Global,
    pool: &Pool,
    index: u16,
    category_2: bool,
) -> Result<Const, ReadFault>
    ensures { Finds (λ const. NamesConst pool.now index const × (is_category_2 const ≡ category_2)) result }
{
    match any_const_at(alloc, pool, index) {
        Ok(constant) => {
            if is_category_2(&constant) == category_2 {
                Ok(constant)
            } else {
                Err(ReadFault::Bad)
            }
        }
        Err(e) => Err(e),
    }
}
