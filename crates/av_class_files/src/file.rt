ghost use Rattle.std.specs.Prelude.{◌≡◌, Err, Some, None, IfOk};
ghost use Rattle.std.specs.List.{AllZip, flat_map};
ghost use Rattle.jv_world.specs.Worlds.{IsNamed, IsWorld};
ghost use Rattle.av_standin_of.specs.Files.{class_file};
ghost use Rattle.av_standin_of.specs.Worlds.{coded_method, IsBodyOf};
ghost use Rattle.av_sketches.specs.Sketches.{made_class};
ghost use Rattle.av_class_files.specs.Filing.{IsThere, MayBeFiled};
ghost use Rattle.av_class_files.specs.Steps.{front_of, put_front, HasClass, PutsTo};

use crate::codes::Owner;
use crate::entries::{add_class, add_parent};
use crate::members::{add_fields, add_interfaces};
use crate::methods::add_methods;
use crate::refusal::FileRefusal;
use av_sketches::Sketch;
use jv_class::{ClassFile, Member};
use jv_pool::PoolWriter;
use jv_types::{ClassId, FramedBody, Name, Seq};
use jv_world::World;
use std::alloc::Global;

/// A class file and the bodies of its methods that have code, with their frames, in order.
#[derive(Debug, Drop)]
pub struct Filed {
    pub class: ClassFile,
    pub methods: Vec<FramedBody>,
}

/// What stands in a class file before its methods.
#[derive(Debug, Drop)]
struct Front {
    this_class: u16,
    super_class: u16,
    interfaces: Vec<u16>,
    fields: Vec<Member>,
}

/// The class of this name, which the world has.
fn class_of(world: &World, name: &Name) -> ClassId
    requires { HasClass world.now name.now }
    ensures named { IsNamed world.now result.number name.now }
    ensures world { IsWorld world.now }
{
    match world.class(name) {
        Some(class) => class,
        None => unreachable!(),
    }
}

/// Adds what a class names before its methods: itself, its superclass and interfaces, and its fields (JVMS 4.1).
fn add_front(alloc: Global, pool: &mut PoolWriter, sketch: &Sketch) -> Result<Front, FileRefusal>
    ensures { PutsTo (λ made. front_of made.this_class made.super_class made.interfaces.items made.fields.items) result pool.new (put_front sketch.now.name sketch.now.parent sketch.now.interfaces sketch.now.fields pool.old) }
{
    let this_class = add_class(pool, &sketch.name)?;
    let super_class = add_parent(pool, &sketch.parent)?;
    let interfaces = add_interfaces(alloc, pool, sketch.interfaces.as_slice())?;
    let fields = add_fields(alloc, pool, sketch.fields.as_slice())?;
    Ok(Front {
        this_class,
        super_class,
        interfaces,
        fields,
    })
}

/// The class file that a sketch stands for, where arrays have up to so many dimensions, and the bodies of its methods that
/// have code. It is refused `PoolFull` only where what the class names finds no room in a pool.
pub fn file_of(
    alloc: Global,
    world: &World,
    dims: u8,
    sketch: &Sketch,
) -> Result<Filed, FileRefusal>
    requires there { IsThere world.now sketch.now }
    requires fits { MayBeFiled dims sketch.now }
    ensures file { IfOk result (λ made. class_file (made_class dims sketch.now) ≡ Some made.class) }
    ensures bodies { IfOk result (λ made. AllZip (IsBodyOf world.now) (flat_map (coded_method sketch.now.name) (made_class dims sketch.now).methods) made.methods.items) }
    ensures full { result ≡ Err FileRefusal.PoolFull → class_file (made_class dims sketch.now) ≡ None }
{
    let owner = Owner {
        world,
        class: class_of(world, &sketch.name),
        name: &sketch.name,
        dims,
    };
    let mut pool = PoolWriter::new(alloc);
    let front = add_front(alloc, &mut pool, sketch)?;
    let methods = add_methods(&owner, &mut pool, sketch.methods.as_slice())?;
    Ok(Filed {
        class: ClassFile {
            minor: 0,
            major: 52,
            pool: pool.done(),
            access: sketch.flags.0,
            this_class: front.this_class,
            super_class: front.super_class,
            interfaces: Seq::from_vec(front.interfaces),
            fields: Seq::from_vec(front.fields),
            methods: Seq::from_vec(methods.members),
            attrs: Seq::new(alloc),
        },
        methods: methods.bodies,
    })
}
