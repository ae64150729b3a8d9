ghost use Rattle.std.specs.Prelude.{◌≡◌, ◌↔◌, IsTrue, IfOk};
ghost use Rattle.std.specs.Ordering.{nat_cmp};
ghost use Rattle.std.specs.Cmp.Lexicographic.{slice_cmp};
ghost use Rattle.jv_types.specs.Frames.{vtype_rank, vtype_cmp};

use crate::body::Body;
use crate::copied::Copied;
use crate::copied_in::CopiedIn;
use crate::desc::PrimType;
use crate::ids::MethodId;
use crate::name::Name;
use crate::seq::Seq;
use sqlite_items::Boxed;
use std::alloc::{AllocError, Global};
use std::cmp::Ordering;

/// A verification type (JVMS 4.10.1.2).
#[derive(Debug, Drop)]
pub enum VType {
    /// A word of which nothing is known, or the second word of a long or double.
    Top,
    Integer,
    Float,
    Long,
    Double,
    Null,
    /// The receiver of a constructor before another constructor was called on it.
    UninitThis,
    /// What the `new` at this offset made, before its constructor was called.
    Uninit(u16),
    Class(Name),
    PrimArray(PrimType),
    Array(Boxed<VType>),
}

impl VType {
    /// The place among the eleven kinds.
    fn rank(&self) -> u8
        ensures { result ≡ vtype_rank self.now }
    {
        match self {
            VType::Top => 0,
            VType::Integer => 1,
            VType::Float => 2,
            VType::Long => 3,
            VType::Double => 4,
            VType::Null => 5,
            VType::UninitThis => 6,
            VType::Uninit(_) => 7,
            VType::Class(_) => 8,
            VType::PrimArray(_) => 9,
            VType::Array(_) => 10,
        }
    }

    /// Whether the two are the same type.
    pub fn is(&self, other: &VType) -> bool
        ensures { IsTrue result ↔ (self.now ≡ other.now) }
    {
        match (self, other) {
            (VType::Uninit(pc), VType::Uninit(other_pc)) => pc == other_pc,
            (VType::Class(name), VType::Class(other_name)) => name == other_name,
            (VType::PrimArray(prim), VType::PrimArray(other_prim)) => prim == other_prim,
            (VType::Array(item), VType::Array(other_item)) => item.get().is(other_item.get()),
            _ => self.rank() == other.rank(),
        }
    }

    /// Which of the two comes first: by their kinds, and then by what the kind leaves open.
    fn compare(&self, other: &VType) -> Ordering
        ensures { result ≡ vtype_cmp self.now other.now }
    {
        match (self, other) {
            (VType::Uninit(pc), VType::Uninit(other_pc)) => pc.cmp(other_pc),
            (VType::Class(name), VType::Class(other_name)) => name.cmp(other_name),
            (VType::PrimArray(prim), VType::PrimArray(other_prim)) => {
                (*prim as u8).cmp(&(*other_prim as u8))
            }
            (VType::Array(item), VType::Array(other_item)) => item.get().compare(other_item.get()),
            _ => self.rank().cmp(&other.rank()),
        }
    }

    /// An equal type. Only memory can be wanting.
    pub fn copy(&self, alloc: Global) -> Result<VType, AllocError>
        ensures { IfOk result (λ made. made ≡ self.now) }
    {
        match self {
            VType::Top => Ok(VType::Top),
            VType::Integer => Ok(VType::Integer),
            VType::Float => Ok(VType::Float),
            VType::Long => Ok(VType::Long),
            VType::Double => Ok(VType::Double),
            VType::Null => Ok(VType::Null),
            VType::UninitThis => Ok(VType::UninitThis),
            VType::Uninit(pc) => Ok(VType::Uninit(*pc)),
            VType::Class(name) => Ok(VType::Class(name.copy()?)),
            VType::PrimArray(prim) => Ok(VType::PrimArray(*prim)),
            VType::Array(item) => {
                let item = item.get().copy(alloc)?;
                Ok(VType::Array(Boxed::new(alloc, item)?))
            }
        }
    }
}

impl CopiedIn for VType {
    fn copy_in(&self, alloc: Global) -> Result<VType, AllocError> {
        self.copy(alloc)
    }
}

impl PartialEq for VType {
    ghost use Rattle.std.specs.Ordering.{eq_by_cmp};
    ghost use Rattle.std.specs.Cmp.{partial_equiv_from_equiv, eq_by_cmp_equiv};
    ghost use Rattle.jv_types.specs.Frames.{vtype_cmp, vtype_cmp_total};

    ghost eq = { eq_by_cmp vtype_cmp };

    ghost laws = { partial_equiv_from_equiv (eq_by_cmp_equiv vtype_cmp_total) };

    fn eq(&self, other: &VType) -> bool {
        self.compare(other).is_eq()
    }
}

impl Eq for VType {
    ghost use Rattle.std.specs.Cmp.{eq_by_cmp_equiv};
    ghost use Rattle.jv_types.specs.Frames.{vtype_cmp_total};

    ghost laws = { eq_by_cmp_equiv vtype_cmp_total };
}

impl PartialOrd for VType {
    ghost use Rattle.std.specs.Prelude.{Some, refl};
    ghost use Rattle.std.specs.Cmp.{po};
    ghost use Rattle.jv_types.specs.Frames.{vtype_cmp, vtype_cmp_total};

    ghost partial_cmp = { λ x y. Some (vtype_cmp x y) };

    ghost laws = { po vtype_cmp_total (λ x y. refl) };

    fn partial_cmp(&self, other: &VType) -> Option<Ordering> {
        Some(self.compare(other))
    }
}

impl Ord for VType {
    ghost use Rattle.std.specs.Prelude.{refl};
    ghost use Rattle.jv_types.specs.Frames.{vtype_cmp, vtype_cmp_total};

    ghost cmp = { vtype_cmp };

    ghost total = { vtype_cmp_total };

    ghost matches_partial_cmp = { λ x y. refl };

    ghost matches_eq = { λ x y. refl };

    fn cmp(&self, other: &VType) -> Ordering {
        self.compare(other)
    }
}

/// What the words of the local variables and of the operand stack are before an instruction (JVMS
/// 4.10.1.4), the stack's topmost word last. The second word of a long or double is Top.
#[derive(Debug, PartialEq, Eq, PartialOrd, Ord, Drop)]
pub struct Frame {
    pub locals: Seq<VType>,
    pub stack: Seq<VType>,
    /// Whether the receiver is not initialised yet.
    pub this_uninit: bool,
}

impl Copied for Frame {
    fn copy(&self) -> Result<Frame, AllocError> {
        Ok(Frame {
            locals: self.locals.copy_in(self.locals.allocator())?,
            stack: self.stack.copy_in(self.stack.allocator())?,
            this_uninit: self.this_uninit,
        })
    }
}

impl Copied for (u16, Frame) {
    fn copy(&self) -> Result<(u16, Frame), AllocError> {
        Ok((self.0, self.1.copy()?))
    }
}

/// The code of a method with the frame before each instruction.
#[derive(Debug, PartialEq, Eq, PartialOrd, Ord, Drop)]
pub struct FramedBody {
    pub method: MethodId,
    pub body: Body,
    /// The frame before the instruction that starts at each offset.
    pub frames: Seq<(u16, Frame)>,
}

impl Copied for FramedBody {
    fn copy(&self) -> Result<FramedBody, AllocError> {
        Ok(FramedBody {
            method: self.method,
            body: self.body.copy()?,
            frames: self.frames.copy()?,
        })
    }
}
