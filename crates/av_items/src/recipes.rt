ghost use Rattle.std.specs.Prelude.{◌≡◌, ◌≤◌, [], Some, IfOk};
ghost use Rattle.av_standin_of.specs.Codes.{Code as CodeValue, built_of};
ghost use Rattle.av_standin_of.specs.Templates.{words_in};
ghost use Rattle.av_sketches.specs.Sketches.{item_code, recipe_code};
ghost use Rattle.av_sketches.specs.Conditions.{HasFewWords};
ghost use Rattle.av_items.specs.Coding.{IsBegun, with_code};

use crate::arrays::{arrays_item, prim_arrays_item};
use crate::calls::{call_item, finalize_item};
use crate::core_items::elements_item;
use crate::fields::field_item;
use crate::objects::make_item;
use av_asm::CodeBuilder;
use av_sketches::{Item, Recipe};
use av_templates::{extra_code, method_code, plain_code};
use jv_types::{MethodShape, Name};
use std::alloc::{AllocError, Global};

/// Puts the code of an item, where arrays have up to so many dimensions, into a builder in which nothing was put. Where
/// memory is wanting the builder is given up.
pub fn put_item(
    builder: CodeBuilder,
    alloc: Global,
    dims: u8,
    item: &Item,
) -> Result<CodeBuilder, AllocError>
    requires { builder.steps ≡ [] }
    ensures { IfOk result (λ made. made ≡ with_code builder (item_code dims item.now)) }
{
    match item {
        Item::Object(class) => make_item(builder, class),
        Item::Arrays(class) => arrays_item(builder, dims, class),
        Item::PrimArrays(prim) => prim_arrays_item(builder, alloc, dims, *prim),
        Item::Call(callee) => call_item(builder, callee),
        Item::Field(field) => field_item(builder, field),
        Item::Elements => elements_item(builder, alloc),
        Item::Finalize => finalize_item(builder, alloc),
    }
}

/// Puts the code that a recipe gives a method of a class, if it gives one, into a builder in which nothing was put. Arrays
/// have up to so many dimensions. Where memory is wanting the builder is given up.
pub fn put_recipe(
    builder: CodeBuilder,
    dims: u8,
    class: &Name,
    shape: &MethodShape,
    recipe: &Recipe,
) -> Result<CodeBuilder, AllocError>
    requires first { builder.steps ≡ [] }
    requires few { HasFewWords shape.now recipe.now }
    ensures { (code : CodeValue) → recipe_code dims class.now shape.now recipe.now ≡ Some code → IfOk result (λ made. made ≡ with_code builder code) }
{
    match recipe {
        Recipe::Extra(parent) => extra_code(builder, class, parent),
        Recipe::Collected(parent, declared) => method_code(builder, class, parent, declared),
        Recipe::Template => plain_code(builder, class, shape),
        Recipe::Item(item) => put_item(builder, class.allocator(), dims, item),
    }
}

/// Puts the code that a recipe gives a method of a class, if it gives one, into a builder in which nothing was put, so
/// that the builder holds just that code where the method's arguments take as many words as the code says. Arrays have up
/// to so many dimensions. Where memory is wanting the builder is given up.
pub fn build_recipe(
    builder: CodeBuilder,
    dims: u8,
    class: &Name,
    shape: &MethodShape,
    recipe: &Recipe,
) -> Result<CodeBuilder, AllocError>
    requires begun { IsBegun builder }
    requires few { HasFewWords shape.now recipe.now }
    ensures { (code : CodeValue) → recipe_code dims class.now shape.now recipe.now ≡ Some code → builder.words ≡ code.words → IfOk result (λ made. made ≡ built_of builder.method code) }
{
    put_recipe(builder, dims, class, shape, recipe)
}
