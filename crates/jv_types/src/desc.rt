ghost use Rattle.std.specs.Prelude.{◌≡◌, ◌↔◌, IsTrue, IfOk};
ghost use Rattle.jv_types.specs.Types.{prim_number, ref_cmp};

use crate::copied::Copied;
use crate::copied_in::CopiedIn;
use crate::name::Name;
use crate::seq::Seq;
use sqlite_items::Boxed;
use std::alloc::{AllocError, Global};
use std::cmp::Ordering;

/// A primitive type (JVMS table 4.3-A), which other crates see as `Prim`.
#[derive(Clone, Copy, Debug, PartialEq, Eq, PartialOrd, Ord)]
pub enum PrimType {
    Boolean,
    Char,
    Float,
    Double,
    Byte,
    Short,
    Int,
    Long,
}

impl PrimType {
    /// The place among the eight.
    fn number(self) -> u8
        ensures { result ≡ prim_number self }
    {
        match self {
            PrimType::Boolean => 0,
            PrimType::Char => 1,
            PrimType::Float => 2,
            PrimType::Double => 3,
            PrimType::Byte => 4,
            PrimType::Short => 5,
            PrimType::Int => 6,
            PrimType::Long => 7,
        }
    }
}

/// A reference type: a class or interface by its name, an array of primitives, or an array of a
/// reference type.
#[derive(Debug, Drop)]
pub enum RefType {
    Class(Name),
    PrimArray(PrimType),
    Array(Boxed<RefType>),
}

impl RefType {
    /// Whether the two are the same type.
    pub fn is(&self, other: &RefType) -> bool
        ensures { IsTrue result ↔ (self.now ≡ other.now) }
    {
        match (self, other) {
            (RefType::Class(name), RefType::Class(other_name)) => name == other_name,
            (RefType::PrimArray(prim), RefType::PrimArray(other_prim)) => prim == other_prim,
            (RefType::Array(item), RefType::Array(other_item)) => item.get().is(other_item.get()),
            _ => false,
        }
    }

    /// Which of the two comes first: those of fewer arrays do, then classes by their names.
    fn compare(&self, other: &RefType) -> Ordering
        ensures { result ≡ ref_cmp self.now other.now }
    {
        match (self, other) {
            (RefType::Class(name), RefType::Class(other_name)) => name.cmp(other_name),
            (RefType::Class(_), RefType::PrimArray(_)) => Ordering::Less,
            (RefType::Class(_), RefType::Array(_)) => Ordering::Less,
            (RefType::PrimArray(_), RefType::Class(_)) => Ordering::Greater,
            (RefType::PrimArray(prim), RefType::PrimArray(other_prim)) => {
                prim.number().cmp(&other_prim.number())
            }
            (RefType::PrimArray(_), RefType::Array(_)) => Ordering::Less,
            (RefType::Array(item), RefType::Array(other_item)) => {
                item.get().compare(other_item.get())
            }
            (RefType::Array(_), RefType::Class(_)) => Ordering::Greater,
            (RefType::Array(_), RefType::PrimArray(_)) => Ordering::Greater,
        }
    }

    /// An equal type. Only memory can be wanting.
    pub fn copy(&self, alloc: Global) -> Result<RefType, AllocError>
        ensures { IfOk result (λ made. made ≡ self.now) }
    {
        match self {
            RefType::Class(name) => Ok(RefType::Class(name.copy()?)),
            RefType::PrimArray(prim) => Ok(RefType::PrimArray(*prim)),
            RefType::Array(item) => {
                let item = item.get().copy(alloc)?;
                Ok(RefType::Array(Boxed::new(alloc, item)?))
            }
        }
    }
}

impl CopiedIn for RefType {
    fn copy_in(&self, alloc: Global) -> Result<RefType, AllocError> {
        self.copy(alloc)
    }
}

impl PartialEq for RefType {
    ghost use Rattle.std.specs.Ordering.{eq_by_cmp};
    ghost use Rattle.std.specs.Cmp.{partial_equiv_from_equiv, eq_by_cmp_equiv};
    ghost use Rattle.jv_types.specs.Types.{ref_cmp, ref_cmp_total};

    ghost eq = { eq_by_cmp ref_cmp };

    ghost laws = { partial_equiv_from_equiv (eq_by_cmp_equiv ref_cmp_total) };

    fn eq(&self, other: &RefType) -> bool {
        self.compare(other).is_eq()
    }
}

impl Eq for RefType {
    ghost use Rattle.std.specs.Cmp.{eq_by_cmp_equiv};
    ghost use Rattle.jv_types.specs.Types.{ref_cmp_total};

    ghost laws = { eq_by_cmp_equiv ref_cmp_total };
}

impl PartialOrd for RefType {
    ghost use Rattle.std.specs.Prelude.{Some, refl};
    ghost use Rattle.std.specs.Cmp.{po};
    ghost use Rattle.jv_types.specs.Types.{ref_cmp, ref_cmp_total};

    ghost partial_cmp = { λ x y. Some (ref_cmp x y) };

    ghost laws = { po ref_cmp_total (λ x y. refl) };

    fn partial_cmp(&self, other: &RefType) -> Option<Ordering> {
        Some(self.compare(other))
    }
}

impl Ord for RefType {
    ghost use Rattle.std.specs.Prelude.{refl};
    ghost use Rattle.jv_types.specs.Types.{ref_cmp, ref_cmp_total};

    ghost cmp = { ref_cmp };

    ghost total = { ref_cmp_total };

    ghost matches_partial_cmp = { λ x y. refl };

    ghost matches_eq = { λ x y. refl };

    fn cmp(&self, other: &RefType) -> Ordering {
        self.compare(other)
    }
}

/// The type of a field, a parameter or a result (JVMS 4.3.2).
#[derive(Debug, PartialEq, Eq, PartialOrd, Ord, Drop)]
pub enum Desc {
    Prim(PrimType),
    Ref(RefType),
}

impl Desc {
    /// Whether the two are the same type.
    pub fn is(&self, other: &Desc) -> bool
        ensures { IsTrue result ↔ (self.now ≡ other.now) }
    {
        match (self, other) {
            (Desc::Prim(prim), Desc::Prim(other_prim)) => prim == other_prim,
            (Desc::Ref(type_of), Desc::Ref(other_type)) => type_of.is(other_type),
            _ => false,
        }
    }

    /// An equal type. Only memory can be wanting.
    pub fn copy(&self, alloc: Global) -> Result<Desc, AllocError>
        ensures { IfOk result (λ made. made ≡ self.now) }
    {
        match self {
            Desc::Prim(prim) => Ok(Desc::Prim(*prim)),
            Desc::Ref(type_of) => Ok(Desc::Ref(type_of.copy(alloc)?)),
        }
    }
}

impl CopiedIn for Desc {
    fn copy_in(&self, alloc: Global) -> Result<Desc, AllocError> {
        self.copy(alloc)
    }
}

/// The parameters and the result of a method (JVMS 4.3.3). A method without a result returns void.
#[derive(Debug, PartialEq, Eq, PartialOrd, Ord, Drop)]
pub struct MethodDesc {
    pub params: Seq<Desc>,
    pub result: Option<Desc>,
}

impl Copied for MethodDesc {
    fn copy(&self) -> Result<MethodDesc, AllocError> {
        let alloc = self.params.allocator();
        let result = match &self.result {
            None => None,
            Some(desc) => Some(desc.copy(alloc)?),
        };
        Ok(MethodDesc {
            params: self.params.copy_in(alloc)?,
            result,
        })
    }
}
