ghost use Rattle.std.specs.Prelude.{◌≡◌, ◌↔◌, IsTrue, IfSome, IfNone};
ghost use Rattle.jv_types.specs.declared.label.LibBase.TheVariants as bases;
ghost use Rattle.av_rules.specs.declared.flat_type.FlatType.{FlatType as Flat};
ghost use Rattle.av_rules.specs.Labels.{AreItems, IsBound, IsReferenceFlat, IsSeenAs, MayStandIn};
ghost use Rattle.av_rules.specs.Steps.Programs.{IsKeptIn, program_of};

use crate::any_classes::stood_for;
use crate::flat_type::FlatType;
use crate::given::Given;
use jv_types::{ClassId, Label, LibBase};

impl<'a> Given<'a> {
    /// A class as it counts in bounds: a class of any object as the class that it stands for.
    fn seen_class(&self, c: ClassId) -> LibBase
        requires kept { IsKeptIn self.now }
        ensures { IsSeenAs self.now.world.now (bases.Class c) result }
    {
        match stood_for(self.world, self.any.as_slice(), c) {
            None => LibBase::Class(c),
            Some(own) => LibBase::Class(own),
        }
    }

    /// The base as it counts in bounds.
    fn seen_as(&self, base: LibBase) -> LibBase
        requires kept { IsKeptIn self.now }
        ensures { IsSeenAs self.now.world.now base result }
    {
        match base {
            LibBase::Class(c) => self.seen_class(c),
            LibBase::Prim(prim) => LibBase::Prim(prim),
        }
    }

    /// What may stand where items of this type are made, if it is a type of references.
    fn seen_item(&self, item: FlatType) -> Option<FlatType>
        requires kept { IsKeptIn self.now }
        ensures found { IfSome result (λ bound. (bound.dims ≡ item.dims) × IsSeenAs self.now.world.now item.base bound.base × IsReferenceFlat bound) }
        ensures none { IfNone result ((bound : Flat) → bound.dims ≡ item.dims → IsSeenAs self.now.world.now item.base bound.base
            → ¬ IsReferenceFlat bound) }
    {
        let seen = FlatType {
            base: self.seen_as(item.base),
            dims: item.dims,
        };
        seen.of_references()
    }

    /// What may stand in the arrays of a type.
    fn items_of(&self, made: FlatType) -> Option<FlatType>
        requires kept { IsKeptIn self.now }
        ensures found { IfSome result (AreItems self.now.world.now made) }
        ensures none { IfNone result ((bound : Flat) → ¬ AreItems self.now.world.now made bound) }
    {
        match made.item() {
            None => None,
            Some(item) => self.seen_item(item),
        }
    }

    /// What may stand in the arrays of a label, where they are arrays of references. It takes no memory.
    pub fn bound_of(&self, label: Label) -> Option<FlatType>
        requires kept { IsKeptIn self.now }
        ensures found { IfSome result (IsBound (program_of self.now) label) }
        ensures none { IfNone result ((bound : Flat) → ¬ IsBound (program_of self.now) label bound) }
    {
        match self.type_of(label) {
            None => None,
            Some(made) => self.items_of(made),
        }
    }

    /// Whether objects of the one label may stand in the arrays of the other. It takes no memory.
    pub fn may_stand_in(&self, item: Label, array: Label) -> bool
        requires kept { IsKeptIn self.now }
        ensures { IsTrue result ↔ MayStandIn (program_of self.now) item array }
    {
        match self.bound_of(array) {
            None => false,
            Some(bound) => self.passes_flat(item, bound),
        }
    }
}
