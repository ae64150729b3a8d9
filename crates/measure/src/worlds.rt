use anyhow::{Context, Result, bail};
use jv_types::{Access, ClassId, Name, Seq, Shape};
use jv_world::{World, are_numbered};
use std::alloc::{AllocError, Global};

const CLASS: u16 = 0x21;

const INTERFACE: u16 = 0x601;

/// How many interfaces of a lattice stand in a row.
const WIDTH: usize = 10;

/// What the classes of a world look like.
#[derive(Clone, Copy)]
pub enum Family {
    /// Each class extends the one before it.
    Chain,
    /// Each class extends Object.
    Fan,
    /// Rows of interfaces, each of which extends two of the row before.
    Lattice,
}

fn object(alloc: Global) -> Result<Name, AllocError> {
    Name::from_slice(alloc, b"java/lang/Object")
}

/// The name of the class at a place of a family.
pub fn name_of(alloc: Global, place: usize) -> Result<Name, AllocError> {
    let text = format!(in alloc; "c/{place}")?;
    Name::from_slice(alloc, text.as_bytes())
}

/// The superclass of the class at a place.
fn parent_of(alloc: Global, family: Family, place: usize) -> Result<Name, AllocError> {
    match family {
        Family::Chain => {
            if place == 0 {
                object(alloc)
            } else {
                name_of(alloc, place - 1)
            }
        }
        Family::Fan => object(alloc),
        Family::Lattice => object(alloc),
    }
}

/// The superinterfaces of the class at a place.
fn interfaces_of(alloc: Global, family: Family, place: usize) -> Result<Seq<Name>, AllocError> {
    let mut interfaces = Seq::new(alloc);
    if let Family::Lattice = family {
        if place >= WIDTH {
            let row = place - place % WIDTH - WIDTH;
            let column = place % WIDTH;
            interfaces.push(name_of(alloc, row.wrapping_add(column))?)?;
            interfaces.push(name_of(alloc, row.wrapping_add((column + 1) % WIDTH))?)?;
        }
    }
    Ok(interfaces)
}

fn shape_of(alloc: Global, family: Family, place: usize) -> Result<Shape, AllocError> {
    let flags = match family {
        Family::Lattice => INTERFACE,
        Family::Chain => CLASS,
        Family::Fan => CLASS,
    };
    Ok(Shape {
        name: name_of(alloc, place)?,
        flags: Access(flags),
        parent: Some(parent_of(alloc, family, place)?),
        interfaces: interfaces_of(alloc, family, place)?,
        fields: Seq::new(alloc),
        methods: Seq::new(alloc),
        application: true,
    })
}

/// Object, and so many classes of a family behind it.
pub fn shapes_of(alloc: Global, family: Family, classes: u32) -> Result<Vec<Shape>, AllocError> {
    let mut shapes = Vec::new(alloc);
    shapes.push(Shape {
        name: object(alloc)?,
        flags: Access(CLASS),
        parent: None,
        interfaces: Seq::new(alloc),
        fields: Seq::new(alloc),
        methods: Seq::new(alloc),
        application: false,
    })?;
    for place in 0..classes {
        shapes.push(shape_of(alloc, family, place as usize)?)?;
    }
    Ok(shapes)
}

/// How many proper supertypes the class of this number has.
fn supers_of(world: &World, number: u32) -> u64 {
    if (number as usize) < world.shapes().len() {
        world.proper_supers(ClassId { number }).len() as u64
    } else {
        0
    }
}

/// Whether the class of one number is a subtype of that of the other.
fn is_sub(world: &World, number: u32, other: u32) -> bool {
    let count = world.shapes().len();
    (number as usize) < count
        && (other as usize) < count
        && world.sub(ClassId { number }, ClassId { number: other })
}

/// The next of a row of numbers that look like chance.
fn next(number: u32) -> u32 {
    number.wrapping_mul(1664525).wrapping_add(1013904223)
}

/// How many of so many tests of two classes that look like chance answer yes.
fn count_subs(world: &World, classes: u32, tests: u32) -> u64 {
    let mut yes = 0u64;
    let mut chance = 1;
    for _ in 0..tests {
        chance = next(chance);
        let number = (chance >> 8).checked_rem(classes).unwrap_or(0);
        chance = next(chance);
        let other = (chance >> 8).checked_rem(classes).unwrap_or(0);
        if is_sub(world, number, other) {
            yes = yes.saturating_add(1);
        }
    }
    yes
}

fn family_of(name: &str) -> Result<Family> {
    match name {
        "chain" => Ok(Family::Chain),
        "fan" => Ok(Family::Fan),
        "lattice" => Ok(Family::Lattice),
        _ => bail!("no such family"),
    }
}

/// The world of so many classes of a family.
fn world_of(alloc: Global, family: Family, classes: u32) -> Result<World> {
    let shapes = shapes_of(alloc, family, classes)?;
    if !are_numbered(alloc, shapes.as_slice())? {
        bail!("no such world");
    }
    World::build(alloc, shapes).ok().context("no world")
}

/// Builds a world of so many classes, makes so many subtype tests, and prints how many proper supertypes the
/// classes have together and how many tests answered yes.
pub fn measure_world(
    rt: &(impl Print + AllocGlobal),
    family: &str,
    classes: u32,
    tests: u32,
) -> Result<()> {
    let world = world_of(rt.alloc(), family_of(family)?, classes)?;
    let mut supers = 0u64;
    for number in 0..classes {
        supers = supers.saturating_add(supers_of(&world, number));
    }
    let yes = count_subs(&world, classes, tests);
    println!(rt; "{supers} {yes}")?;
    Ok(())
}
