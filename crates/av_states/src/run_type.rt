ghost use Rattle.std.specs.Prelude.{◌≡◌, ◌↔◌, IsTrue, IfOk};
ghost use Rattle.std.specs.Cmp.Lexicographic.{slice_cmp};
ghost use Rattle.std.specs.Ordering.{nat_cmp};
ghost use Rattle.av_states.specs.RunKeys.{run_cmp, run_rank, unseen_key};

use jv_equality::{facts_are_told_apart, lists_are_told_apart};
use jv_types::{ClassId, CopiedIn, Prim, Seq};
use sqlite_items::Boxed;
use std::alloc::{AllocError, Global};
use std::cmp::Ordering;

/// The type of an object at run time, or of the items of an array.
#[derive(Debug, Drop)]
pub enum RunType {
    /// A class of the world, of the application or of the library.
    Class(ClassId),
    /// A class of the library that nobody sees: the lowest class of the world that it is or extends, and the
    /// library's interfaces that it implements, by rising numbers.
    Lib { low: ClassId, ifs: Seq<ClassId> },
    /// A primitive type (JVMS 2.3), which only the items of an array have.
    Prim(Prim),
    /// An array of items of a type.
    Array(Boxed<RunType>),
}

/// Whether the two lists have the same classes in the same order.
fn are_same(classes: &Seq<ClassId>, others: &Seq<ClassId>) -> bool
    ensures { IsTrue result ↔ (classes.now ≡ others.now) }
{
    facts_are_told_apart();
    lists_are_told_apart::<ClassId>();
    classes == others
}

/// Which of two classes that nobody sees comes first: by their lowest classes, and then by their interfaces.
fn compare_unseen(
    low: ClassId,
    ifs: &Seq<ClassId>,
    other_low: ClassId,
    other_ifs: &Seq<ClassId>,
) -> Ordering
    ensures { result ≡ slice_cmp nat_cmp (unseen_key low ifs.now) (unseen_key other_low other_ifs.now) }
{
    low.number.cmp(&other_low.number).then(ifs.cmp(other_ifs))
}

impl RunType {
    /// The place among the four kinds.
    fn rank(&self) -> u8
        ensures { result ≡ run_rank self.now }
    {
        match self {
            RunType::Class(_) => 0,
            RunType::Lib { .. } => 1,
            RunType::Prim(_) => 2,
            RunType::Array(_) => 3,
        }
    }

    /// Whether the two are the same type.
    pub fn is(&self, other: &RunType) -> bool
        ensures { IsTrue result ↔ (self.now ≡ other.now) }
    {
        match (self, other) {
            (RunType::Class(class), RunType::Class(other_class)) => class == other_class,
            (
                RunType::Lib { low, ifs },
                RunType::Lib {
                    low: other_low,
                    ifs: other_ifs,
                },
            ) => low == other_low && are_same(ifs, other_ifs),
            (RunType::Prim(prim), RunType::Prim(other_prim)) => prim == other_prim,
            (RunType::Array(item), RunType::Array(other_item)) => item.get().is(other_item.get()),
            _ => false,
        }
    }

    /// Which of the two comes first: by their kinds, and then by what the kind leaves open.
    fn compare(&self, other: &RunType) -> Ordering
        ensures { result ≡ run_cmp self.now other.now }
    {
        match (self, other) {
            (RunType::Class(class), RunType::Class(other_class)) => {
                class.number.cmp(&other_class.number)
            }
            (
                RunType::Lib { low, ifs },
                RunType::Lib {
                    low: other_low,
                    ifs: other_ifs,
                },
            ) => compare_unseen(*low, ifs, *other_low, other_ifs),
            (RunType::Prim(prim), RunType::Prim(other_prim)) => {
                (*prim as u8).cmp(&(*other_prim as u8))
            }
            (RunType::Array(item), RunType::Array(other_item)) => {
                item.get().compare(other_item.get())
            }
            _ => self.rank().cmp(&other.rank()),
        }
    }

    /// An equal type. Only memory can be wanting.
    pub fn copy(&self, alloc: Global) -> Result<RunType, AllocError>
        ensures { IfOk result (λ made. made ≡ self.now) }
    {
        match self {
            RunType::Class(class) => Ok(RunType::Class(*class)),
            RunType::Lib { low, ifs } => Ok(RunType::Lib {
                low: *low,
                ifs: Seq::from_vec(Vec::from_slice(alloc, ifs.as_slice())?),
            }),
            RunType::Prim(prim) => Ok(RunType::Prim(*prim)),
            RunType::Array(item) => {
                let item = item.get().copy(alloc)?;
                Ok(RunType::Array(Boxed::new(alloc, item)?))
            }
        }
    }
}

impl CopiedIn for RunType {
    fn copy_in(&self, alloc: Global) -> Result<RunType, AllocError> {
        self.copy(alloc)
    }
}

impl PartialEq for RunType {
    ghost use Rattle.std.specs.Ordering.{eq_by_cmp};
    ghost use Rattle.std.specs.Cmp.{partial_equiv_from_equiv, eq_by_cmp_equiv};
    ghost use Rattle.av_states.specs.RunKeys.{run_cmp, run_cmp_total};

    ghost eq = { eq_by_cmp run_cmp };

    ghost laws = { partial_equiv_from_equiv (eq_by_cmp_equiv run_cmp_total) };

    fn eq(&self, other: &RunType) -> bool {
        self.compare(other).is_eq()
    }
}

impl Eq for RunType {
    ghost use Rattle.std.specs.Cmp.{eq_by_cmp_equiv};
    ghost use Rattle.av_states.specs.RunKeys.{run_cmp_total};

    ghost laws = { eq_by_cmp_equiv run_cmp_total };
}
