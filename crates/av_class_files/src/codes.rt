ghost use Rattle.std.specs.Prelude.{◌≡◌, [], ◌∷◌, Some, IfOk, IsSomeAnd};
ghost use Rattle.jv_attr.specs.declared.attr.AttrBody.TheVariants as bodies;
ghost use Rattle.jv_world.specs.Worlds.{IsNamed};
ghost use Rattle.jv_resolve.specs.Members.{DeclaresMethod, IsMethod};
ghost use Rattle.av_asm.specs.Planning.{plan_of};
ghost use Rattle.av_asm.specs.Finishing.{code_of, IsFramed};
ghost use Rattle.av_standin_of.specs.Codes.{Code as CodeValue, built_of};
ghost use Rattle.av_standin_of.specs.Files.{put_code};
ghost use Rattle.av_sketches.specs.Sketches.{made_method, recipe_code};
ghost use Rattle.av_class_files.specs.Filing.{MayBeCoded};
ghost use Rattle.av_class_files.specs.Steps.{has_code, put_built, HasBody, HasMethodOnce, IsReady, MayBePut, PutsTo};

use crate::entries::add_text;
use crate::refusal::FileRefusal;
use av_asm::CodeBuilder;
use av_items::build_recipe;
use av_sketches::{Recipe, SketchedMethod};
use av_templates::is_abstract;
use jv_attr::{Attr, AttrBody, CodeAttr};
use jv_insn::EncodeRefusal;
use jv_pool::PoolWriter;
use jv_types::{ClassId, FramedBody, MethodId, MethodShape, Name};
use jv_world::World;
use std::alloc::{AllocError, Global};

/// The class whose file is made, by its number and its name; and how many dimensions arrays have at most.
#[derive(Drop)]
pub struct Owner<'a> {
    pub world: &'a World,
    pub class: ClassId,
    pub name: &'a Name,
    pub dims: u8,
}

/// The attributes of a method, and its body where it has code.
#[derive(Debug, Drop)]
pub struct Coded {
    pub attrs: Vec<Attr>,
    pub body: Option<FramedBody>,
}

/// Whether a recipe gives a code.
fn has_code(recipe: &Recipe) -> bool
    ensures { result ≡ has_code recipe.now }
{
    match recipe {
        Recipe::Collected(_, declared) => !is_abstract(declared),
        Recipe::Extra(_) | Recipe::Template | Recipe::Item(_) => true,
    }
}

/// The method of a class with the name and descriptor of this one, which it has.
fn method_of(world: &World, class: ClassId, method: &MethodShape) -> MethodId
    requires { HasMethodOnce world.now class.number method.now }
    ensures class { result.class ≡ class }
    ensures declared { DeclaresMethod world.now method.now.name method.now.desc result }
    ensures shape { IsMethod world.now result method.now }
{
    match world.method_place(class, &method.name, &method.desc) {
        Some(index) => MethodId { class, index },
        None => unreachable!(),
    }
}

/// A builder of the code that a recipe gives a method of this number. Only memory can be wanting.
fn built(
    owner: &Owner<'_>,
    id: MethodId,
    shape: &MethodShape,
    recipe: &Recipe,
) -> Result<CodeBuilder, AllocError>
    requires there { IsMethod owner.now.world.now id shape.now }
    requires may { MayBeCoded owner.now.dims owner.now.name.now shape.now recipe.now }
    ensures { (code : CodeValue) → recipe_code owner.now.dims owner.now.name.now shape.now recipe.now ≡ Some code → IfOk result (λ made. made ≡ built_of id code) }
{
    let builder = CodeBuilder::new(owner.name.allocator(), owner.world, id)?;
    build_recipe(builder, owner.dims, owner.name, shape, recipe)
}

/// The code of what was built, with what it adds to a pool, and its body.
fn finished(
    builder: CodeBuilder,
    pool: &mut PoolWriter,
) -> Result<(CodeAttr, FramedBody), FileRefusal>
    requires { IsReady builder }
    ensures code { PutsTo (λ made. made.0) result pool.new (code_of (plan_of builder) pool.old) }
    ensures framed { IfOk result (λ made. IsFramed builder made.1) }
{
    match builder.finish(pool) {
        Ok(made) => Ok(made),
        Err(EncodeRefusal::PoolFull) => Err(FileRefusal::PoolFull),
        Err(EncodeRefusal::Memory) => Err(FileRefusal::Memory),
        Err(EncodeRefusal::TooLong) => unreachable!(),
    }
}

/// The attribute Code alone, by the index of its name. Only memory can be wanting.
fn one_code(alloc: Global, name: u16, code: CodeAttr) -> Result<Vec<Attr>, AllocError>
    ensures { IfOk result (λ attrs. attrs.items ≡ record { name = name; body = bodies.Code code } ∷ []) }
{
    let mut attrs = Vec::new(alloc);
    let attr = Attr {
        name,
        body: AttrBody::Code(code),
    };
    attrs.push(attr)?;
    Ok(attrs)
}

/// Adds the attribute Code of what was built (JVMS 4.7.3).
fn add_built(
    alloc: Global,
    pool: &mut PoolWriter,
    builder: CodeBuilder,
) -> Result<Coded, FileRefusal>
    requires { IsReady builder }
    ensures attrs { PutsTo (λ made. made.attrs.items) result pool.new (put_built builder pool.old) }
    ensures body { IfOk result (λ made. IsSomeAnd made.body (IsFramed builder)) }
{
    let text = Vec::from_slice(alloc, b"Code".as_slice())?;
    let name = add_text(pool, text)?;
    let (code, framed) = finished(builder, pool)?;
    Ok(Coded {
        attrs: one_code(alloc, name, code)?,
        body: Some(framed),
    })
}

/// Adds the attribute Code of a method with a recipe, if that gives a code.
fn add_recipe(
    owner: &Owner<'_>,
    pool: &mut PoolWriter,
    shape: &MethodShape,
    recipe: &Recipe,
) -> Result<Coded, FileRefusal>
    requires named { IsNamed owner.now.world.now owner.now.class.number owner.now.name.now }
    requires there { HasMethodOnce owner.now.world.now owner.now.class.number shape.now }
    requires may { MayBeCoded owner.now.dims owner.now.name.now shape.now recipe.now }
    ensures attrs { PutsTo (λ made. made.attrs.items) result pool.new (put_code (recipe_code owner.now.dims owner.now.name.now shape.now recipe.now) pool.old) }
    ensures body { IfOk result (λ made. HasBody owner.now.world.now owner.now.name.now shape.now (recipe_code owner.now.dims owner.now.name.now shape.now recipe.now) made.body) }
{
    let alloc = owner.name.allocator();
    if !has_code(recipe) {
        return Ok(Coded {
            attrs: Vec::new(alloc),
            body: None,
        });
    }
    let id = method_of(owner.world, owner.class, shape);
    let builder = built(owner, id, shape, recipe)?;
    add_built(alloc, pool, builder)
}

/// Adds the attribute Code of a method, if it has code.
pub fn add_code(
    owner: &Owner<'_>,
    pool: &mut PoolWriter,
    sketched: &SketchedMethod,
) -> Result<Coded, FileRefusal>
    requires named { IsNamed owner.now.world.now owner.now.class.number owner.now.name.now }
    requires may { MayBePut owner.now.world.now owner.now.class.number owner.now.dims owner.now.name.now sketched.now }
    ensures attrs { PutsTo (λ made. made.attrs.items) result pool.new (put_code (made_method owner.now.dims owner.now.name.now sketched.now).code pool.old) }
    ensures body { IfOk result (λ made. HasBody owner.now.world.now owner.now.name.now sketched.now.shape (made_method owner.now.dims owner.now.name.now sketched.now).code made.body) }
{
    match &sketched.recipe {
        Some(recipe) => add_recipe(owner, pool, &sketched.shape, recipe),
        None => Ok(Coded {
            attrs: Vec::new(owner.name.allocator()),
            body: None,
        }),
    }
}
