ghost use Rattle.jv_equality.specs.Equality.{TellsApart, Ties};

use jv_types::{
    Access, Arg, Body, CallFrom, ClassId, Const, Desc, Fact, FieldId, FieldRef, FieldShape, Frame,
    FramedBody, Handler, Insn, Label, LibBase, MethodDesc, MethodId, MethodRef, MethodShape, Name,
    Place, Prim, Quantity, RawHandler, RefType, Refusal, Rule, RulePlace, Seq, Shape, VType,
};

/// Of names, access flags, types and descriptors, `==` holds, and `cmp` gives Equal, for a value and itself alone. This
/// does nothing, and its contract is the law.
pub fn types_are_told_apart()
    ensures name { TellsApart ⟦<Name as PartialEq>⟧.eq }
    ensures name_order { Ties ⟦<Name as Ord>⟧.cmp }
    ensures access { TellsApart ⟦<Access as PartialEq>⟧.eq }
    ensures access_order { Ties ⟦<Access as Ord>⟧.cmp }
    ensures prim { TellsApart ⟦<Prim as PartialEq>⟧.eq }
    ensures prim_order { Ties ⟦<Prim as Ord>⟧.cmp }
    ensures ref_type { TellsApart ⟦<RefType as PartialEq>⟧.eq }
    ensures ref_type_order { Ties ⟦<RefType as Ord>⟧.cmp }
    ensures desc { TellsApart ⟦<Desc as PartialEq>⟧.eq }
    ensures desc_order { Ties ⟦<Desc as Ord>⟧.cmp }
    ensures method_desc { TellsApart ⟦<MethodDesc as PartialEq>⟧.eq }
    ensures method_desc_order { Ties ⟦<MethodDesc as Ord>⟧.cmp }
{}

/// Of references to members and what classes declare, `==` holds, and `cmp` gives Equal, for a value and itself alone. This
/// does nothing, and its contract is the law.
pub fn members_are_told_apart()
    ensures field_ref { TellsApart ⟦<FieldRef as PartialEq>⟧.eq }
    ensures field_ref_order { Ties ⟦<FieldRef as Ord>⟧.cmp }
    ensures method_ref { TellsApart ⟦<MethodRef as PartialEq>⟧.eq }
    ensures method_ref_order { Ties ⟦<MethodRef as Ord>⟧.cmp }
    ensures field_shape { TellsApart ⟦<FieldShape as PartialEq>⟧.eq }
    ensures field_shape_order { Ties ⟦<FieldShape as Ord>⟧.cmp }
    ensures method_shape { TellsApart ⟦<MethodShape as PartialEq>⟧.eq }
    ensures method_shape_order { Ties ⟦<MethodShape as Ord>⟧.cmp }
    ensures shape { TellsApart ⟦<Shape as PartialEq>⟧.eq }
    ensures shape_order { Ties ⟦<Shape as Ord>⟧.cmp }
{}

/// Of instructions, bodies and frames, `==` holds, and `cmp` gives Equal, for a value and itself alone. This
/// does nothing, and its contract is the law.
pub fn codes_are_told_apart()
    ensures constant { TellsApart ⟦<Const as PartialEq>⟧.eq }
    ensures constant_order { Ties ⟦<Const as Ord>⟧.cmp }
    ensures arg { TellsApart ⟦<Arg as PartialEq>⟧.eq }
    ensures arg_order { Ties ⟦<Arg as Ord>⟧.cmp }
    ensures insn { TellsApart ⟦<Insn as PartialEq>⟧.eq }
    ensures insn_order { Ties ⟦<Insn as Ord>⟧.cmp }
    ensures handler { TellsApart ⟦<Handler as PartialEq>⟧.eq }
    ensures handler_order { Ties ⟦<Handler as Ord>⟧.cmp }
    ensures raw_handler { TellsApart ⟦<RawHandler as PartialEq>⟧.eq }
    ensures raw_handler_order { Ties ⟦<RawHandler as Ord>⟧.cmp }
    ensures body { TellsApart ⟦<Body as PartialEq>⟧.eq }
    ensures body_order { Ties ⟦<Body as Ord>⟧.cmp }
    ensures vtype { TellsApart ⟦<VType as PartialEq>⟧.eq }
    ensures vtype_order { Ties ⟦<VType as Ord>⟧.cmp }
    ensures frame { TellsApart ⟦<Frame as PartialEq>⟧.eq }
    ensures frame_order { Ties ⟦<Frame as Ord>⟧.cmp }
    ensures framed_body { TellsApart ⟦<FramedBody as PartialEq>⟧.eq }
    ensures framed_body_order { Ties ⟦<FramedBody as Ord>⟧.cmp }
{}

/// Of numbers of classes and members, labels, places and facts, `==` holds, and `cmp` gives Equal, for a value and itself alone. This
/// does nothing, and its contract is the law.
pub fn facts_are_told_apart()
    ensures class_id { TellsApart ⟦<ClassId as PartialEq>⟧.eq }
    ensures class_id_order { Ties ⟦<ClassId as Ord>⟧.cmp }
    ensures field_id { TellsApart ⟦<FieldId as PartialEq>⟧.eq }
    ensures field_id_order { Ties ⟦<FieldId as Ord>⟧.cmp }
    ensures method_id { TellsApart ⟦<MethodId as PartialEq>⟧.eq }
    ensures method_id_order { Ties ⟦<MethodId as Ord>⟧.cmp }
    ensures lib_base { TellsApart ⟦<LibBase as PartialEq>⟧.eq }
    ensures lib_base_order { Ties ⟦<LibBase as Ord>⟧.cmp }
    ensures label { TellsApart ⟦<Label as PartialEq>⟧.eq }
    ensures label_order { Ties ⟦<Label as Ord>⟧.cmp }
    ensures place { TellsApart ⟦<Place as PartialEq>⟧.eq }
    ensures place_order { Ties ⟦<Place as Ord>⟧.cmp }
    ensures call_from { TellsApart ⟦<CallFrom as PartialEq>⟧.eq }
    ensures call_from_order { Ties ⟦<CallFrom as Ord>⟧.cmp }
    ensures fact { TellsApart ⟦<Fact as PartialEq>⟧.eq }
    ensures fact_order { Ties ⟦<Fact as Ord>⟧.cmp }
{}

/// Of rules, refusals and quantities, `==` holds, and `cmp` gives Equal, for a value and itself alone. This
/// does nothing, and its contract is the law.
pub fn refusals_are_told_apart()
    ensures rule { TellsApart ⟦<Rule as PartialEq>⟧.eq }
    ensures rule_order { Ties ⟦<Rule as Ord>⟧.cmp }
    ensures rule_place { TellsApart ⟦<RulePlace as PartialEq>⟧.eq }
    ensures rule_place_order { Ties ⟦<RulePlace as Ord>⟧.cmp }
    ensures refusal { TellsApart ⟦<Refusal as PartialEq>⟧.eq }
    ensures refusal_order { Ties ⟦<Refusal as Ord>⟧.cmp }
    ensures quantity { TellsApart ⟦<Quantity as PartialEq>⟧.eq }
    ensures quantity_order { Ties ⟦<Quantity as Ord>⟧.cmp }
{}

/// So it is of lists, where it is of their elements. This does nothing, and its contract is the law.
pub fn lists_are_told_apart<T: Ord>()
    requires { TellsApart T.eq }
    ensures list { TellsApart ⟦<Seq<T> as PartialEq>⟧.eq }
    ensures list_order { Ties ⟦<Seq<T> as Ord>⟧.cmp }
{}
