ghost use Rattle.std.specs.Prelude.{◌≡◌, ◌<◌, length, IfOk, IfSome, IfNone};
ghost use Rattle.jv_types.specs.declared.ids.ClassId.{ClassId as Class};
ghost use Rattle.jv_types.specs.declared.ids.MethodId.{MethodId as Method};
ghost use Rattle.jv_types.specs.declared.label.Label.TheVariants.{Lib};
ghost use Rattle.jv_types.specs.declared.label.LibBase.TheVariants as bases;
ghost use Rattle.jv_resolve.specs.Members.{HasMethod};
ghost use Rattle.av_rules.specs.Dispatching.{LabelSelects, SelectsNone, SelectsOn};
ghost use Rattle.av_rules.specs.Labels.{IsTypeOf};
ghost use Rattle.av_rules.specs.Steps.Programs.{IsKeptIn, program_of};
ghost use Rattle.av_rules.specs.Steps.Selecting.{SelectsInstead, SelectsOpen};

use crate::any_classes::any_at;
use crate::flat_type::FlatType;
use crate::given::Given;
use jv_resolve::{select_interface, select_virtual};
use jv_types::{ClassId, Label, LibBase, MethodId};
use jv_world::World;
use std::alloc::{AllocError, Global};

/// What a call of a method, by invokeinterface or by invokevirtual, runs on an object of a class.
fn selected_on(
    alloc: Global,
    world: &World,
    interface: bool,
    c: ClassId,
    resolved: MethodId,
) -> Result<Option<MethodId>, AllocError>
    requires here { c.number < length world.now }
    requires resolved_here { HasMethod world.now resolved }
    ensures found { IfOk result (λ o. IfSome o (SelectsOn world.now interface c.number resolved)) }
    ensures none { IfOk result (λ o. IfNone o (SelectsNone world.now interface c.number resolved)) }
{
    if interface {
        select_interface(alloc, world, c, resolved)
    } else {
        select_virtual(alloc, world, c, resolved)
    }
}

/// The class of which the library made the objects of a label, where they are no arrays.
fn lib_class(label: Label) -> Option<ClassId>
    ensures found { IfSome result (λ c. label ≡ Lib (bases.Class c) 0) }
    ensures none { IfNone result ((c : Class) → ¬ (label ≡ Lib (bases.Class c) 0)) }
{
    match label {
        Label::Site { .. } => None,
        Label::Lib { base, dims } => match base {
            LibBase::Prim(_) => None,
            LibBase::Class(c) => { if dims == 0 { Some(c) } else { None } }
        },
    }
}

impl<'a> Given<'a> {
    /// What is selected for a class itself, where it is one of the library that may be extended.
    fn selected_open(
        &self,
        alloc: Global,
        interface: bool,
        c: ClassId,
        resolved: MethodId,
    ) -> Result<Option<MethodId>, AllocError>
        requires kept { IsKeptIn self.now }
        requires resolved_here { HasMethod self.now.world.now resolved }
        ensures found { IfOk result (λ o. IfSome o (SelectsOpen self.now.world.now interface c resolved)) }
        ensures none { IfOk result (λ o. IfNone o ((m : Method) → ¬ SelectsOpen self.now.world.now interface c resolved m)) }
    {
        match any_at(self.world, self.any.as_slice(), c) {
            None => Ok(None),
            Some(_) => selected_on(alloc, self.world, interface, c, resolved),
        }
    }

    /// What is selected for a library class that may be extended, by the label of its objects.
    fn selected_instead(
        &self,
        alloc: Global,
        interface: bool,
        label: Label,
        resolved: MethodId,
    ) -> Result<Option<MethodId>, AllocError>
        requires kept { IsKeptIn self.now }
        requires resolved_here { HasMethod self.now.world.now resolved }
        ensures found { IfOk result (λ o. IfSome o (SelectsInstead self.now.world.now interface label resolved)) }
        ensures none { IfOk result (λ o. IfNone o ((m : Method) → ¬ SelectsInstead self.now.world.now interface label resolved m)) }
    {
        match lib_class(label) {
            None => Ok(None),
            Some(c) => self.selected_open(alloc, interface, c, resolved),
        }
    }

    /// What a label selects whose type is this class.
    fn selected_for_class(
        &self,
        alloc: Global,
        interface: bool,
        label: Label,
        own: ClassId,
        resolved: MethodId,
    ) -> Result<Option<MethodId>, AllocError>
        requires kept { IsKeptIn self.now }
        requires resolved_here { HasMethod self.now.world.now resolved }
        requires typed { IsTypeOf (program_of self.now) label (record { base = bases.Class own; dims = 0 }) }
        ensures found { IfOk result (λ o. IfSome o (LabelSelects (program_of self.now) interface label resolved)) }
        ensures none { IfOk result (λ o. IfNone o ((m : Method) → ¬ LabelSelects (program_of self.now) interface label resolved m)) }
    {
        let found = selected_on(alloc, self.world, interface, own, resolved)?;
        match found {
            Some(m) => Ok(Some(m)),
            None => self.selected_instead(alloc, interface, label, resolved),
        }
    }

    /// What a label selects whose type is no array.
    fn selected_flat(
        &self,
        alloc: Global,
        interface: bool,
        label: Label,
        made: FlatType,
        resolved: MethodId,
    ) -> Result<Option<MethodId>, AllocError>
        requires kept { IsKeptIn self.now }
        requires resolved_here { HasMethod self.now.world.now resolved }
        requires typed { IsTypeOf (program_of self.now) label made }
        requires flat { made.dims ≡ 0 }
        ensures found { IfOk result (λ o. IfSome o (LabelSelects (program_of self.now) interface label resolved)) }
        ensures none { IfOk result (λ o. IfNone o ((m : Method) → ¬ LabelSelects (program_of self.now) interface label resolved m)) }
    {
        match made.base {
            LibBase::Class(own) => self.selected_for_class(alloc, interface, label, own, resolved),
            LibBase::Prim(_) => Ok(None),
        }
    }

    /// What a label of this type selects.
    fn selected_for(
        &self,
        alloc: Global,
        interface: bool,
        label: Label,
        made: FlatType,
        resolved: MethodId,
    ) -> Result<Option<MethodId>, AllocError>
        requires kept { IsKeptIn self.now }
        requires resolved_here { HasMethod self.now.world.now resolved }
        requires typed { IsTypeOf (program_of self.now) label made }
        ensures found { IfOk result (λ o. IfSome o (LabelSelects (program_of self.now) interface label resolved)) }
        ensures none { IfOk result (λ o. IfNone o ((m : Method) → ¬ LabelSelects (program_of self.now) interface label resolved m)) }
    {
        match made.item() {
            Some(_) => selected_on(alloc, self.world, interface, self.object, resolved),
            None => self.selected_flat(alloc, interface, label, made, resolved),
        }
    }

    /// The method that a label selects where a call of the resolved method finds it as the receiver, by
    /// invokeinterface or by invokevirtual (JVMS 6.5). Only memory can be wanting.
    pub fn selected(
        &self,
        alloc: Global,
        interface: bool,
        label: Label,
        resolved: MethodId,
    ) -> Result<Option<MethodId>, AllocError>
        requires kept { IsKeptIn self.now }
        requires resolved_here { HasMethod self.now.world.now resolved }
        ensures found { IfOk result (λ o. IfSome o (LabelSelects (program_of self.now) interface label resolved)) }
        ensures none { IfOk result (λ o. IfNone o ((m : Method) → ¬ LabelSelects (program_of self.now) interface label resolved m)) }
    {
        match self.type_of(label) {
            None => Ok(None),
            Some(made) => self.selected_for(alloc, interface, label, made, resolved),
        }
    }
}
