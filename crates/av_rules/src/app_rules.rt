ghost use Rattle.std.specs.Prelude.{◌≡◌, ◌↔◌, IsTrue, IfOk, IfSome, IfNone};
ghost use Rattle.jv_types.specs.declared.ids.MethodId.{MethodId as Method};
ghost use Rattle.jv_resolve.specs.Members.{HasMethod};
ghost use Rattle.av_rules.specs.declared.flat_type.FlatType.{FlatType as Flat};
ghost use Rattle.av_rules.specs.Dispatching.{LabelSelects};
ghost use Rattle.av_rules.specs.Labels.{IsBound, IsTypeOf, MayStandIn, Passes};
ghost use Rattle.av_rules.specs.Program.{IsAnalysable};

use crate::any_classes::any_classes;
use crate::flat_type::FlatType;
use crate::given::{Given, object_class};
use jv_types::{FramedBody, Label, MethodId, RefType};
use jv_world::World;
use std::alloc::{AllocError, Global};
use std::marker::Model;

/// The sixteen rules over a world of application and stand-in, the methods whose code is given, and the method main.
/// Clauses see these three.
#[derive(Drop)]
pub struct AppRules<'a> {
    given: Given<'a>,
}

impl<'a> Model for AppRules<'a> {
    ghost use Rattle.std.specs.Coded.{codes};
    ghost use Rattle.jv_types.specs.contracts.frames.FramedBody as framed_body;
    ghost use Rattle.jv_types.specs.contracts.shapes.Shape as shape;
    ghost use Rattle.av_rules.specs.Program.{Program};
    ghost use Rattle.av_rules.specs.Steps.Programs.{IsKeptIn, program_of};

    ghost Value = { Program };

    ghost coded = { Prim.hlevel (codes, shape.the_row.coded, framed_body.the_row.coded) };

    ghost view = { λ rules. program_of rules.given };

    ghost invariant = { λ rules. IsKeptIn rules.given };
}

impl<'a> AppRules<'a> {
    /// The rules over these. Only memory can be wanting.
    pub fn new(
        alloc: Global,
        world: &'a World,
        methods: &'a [FramedBody],
        start: MethodId,
    ) -> Result<AppRules<'a>, AllocError>
        requires { IsAnalysable (record { world = world.now; methods = methods.now; start = start }) }
        ensures { IfOk result (λ rules. rules ≡ record { world = world.now; methods = methods.now; start = start }) }
    {
        let any = any_classes(alloc, world)?;
        let object = object_class(alloc, world, methods)?;
        Ok(AppRules {
            given: Given {
                world,
                methods,
                start,
                any,
                object,
            },
        })
    }

    /// The type of the objects of a label: that which is made at its site, or that of the stand-in's objects. A label has
    /// none at whose site no instruction of the application makes anything at its depth, and a label of the library has
    /// none of an interface, of a class of the application, or of a primitive type without dimensions. It takes no
    /// memory.
    pub fn type_of(&self, label: Label) -> Option<FlatType>
        ensures found { IfSome result (IsTypeOf self.now label) }
        ensures none { IfNone result ((made : Flat) → ¬ IsTypeOf self.now label made) }
    {
        self.given.type_of(label)
    }

    /// Whether a label passes a type: whether its objects are instances of it (JVMS 4.10.1.2, JLS 4.10.3). It takes no
    /// memory.
    pub fn passes(&self, label: Label, of: &RefType) -> bool
        ensures { IsTrue result ↔ Passes self.now label of.now }
    {
        self.given.passes(label, of)
    }

    /// What may stand in the arrays of a label, where they are arrays of references: the type of their items, where a
    /// class of any object counts as the class that it stands for. It takes no memory.
    pub fn bound(&self, label: Label) -> Option<FlatType>
        ensures found { IfSome result (IsBound self.now label) }
        ensures none { IfNone result ((bound : Flat) → ¬ IsBound self.now label bound) }
    {
        self.given.bound_of(label)
    }

    /// Whether objects of the one label may stand in the arrays of the other (JVMS 6.5, aastore). It takes no memory.
    pub fn may_stand_in(&self, item: Label, array: Label) -> bool
        ensures { IsTrue result ↔ MayStandIn self.now item array }
    {
        self.given.may_stand_in(item, array)
    }

    /// The method that a label selects where a call of the resolved method, by invokeinterface or by invokevirtual,
    /// finds it as the receiver (JVMS 6.5). On an array it is selected from Object. Where nothing is selected for the
    /// class of any object of a class, it is what is selected for that class itself. Only memory can be wanting.
    pub fn selected(
        &self,
        alloc: Global,
        interface: bool,
        label: Label,
        resolved: MethodId,
    ) -> Result<Option<MethodId>, AllocError>
        requires { HasMethod self.now.world resolved }
        ensures found { IfOk result (λ o. IfSome o (LabelSelects self.now interface label resolved)) }
        ensures none { IfOk result (λ o. IfNone o ((m : Method) → ¬ LabelSelects self.now interface label resolved m)) }
    {
        self.given.selected(alloc, interface, label, resolved)
    }
}
