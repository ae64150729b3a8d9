ghost use Rattle.jv_class.specs.Steps.LayoutReading.{magic_at, opening_at, declarations_at, joined, class_at, layout_at};
ghost use Rattle.jv_pool.specs.Steps.PoolReading.{pool_at};
ghost use Rattle.jv_read.specs.Reading.{Gives, GivesAll};
ghost use Rattle.std.specs.Prelude.{◌≡◌};

use crate::attributes::read_attrs;
use crate::class_file::{ClassFile, Member};
use crate::indices::read_indices;
use crate::members::read_members;
use jv_attr::{Attr, Owner};
use jv_bytes::Cursor;
use jv_pool::{BadPool, Pool, read_pool};
use jv_read::{ReadFault, read_u2, read_u4};
use jv_types::Seq;
use std::alloc::Global;

/// The number that each class file begins with (JVMS 4.1).
pub const MAGIC: u32 = 0xCAFE_BABE;

/// The versions and the pool of a class file, with which the rest is read.
#[derive(Debug, Drop)]
struct Opening {
    minor: u16,
    major: u16,
    pool: Pool,
}

/// What stands behind the pool of a class file.
#[derive(Debug, Drop)]
struct Declarations {
    access: u16,
    this_class: u16,
    super_class: u16,
    interfaces: Seq<u16>,
    fields: Seq<Member>,
    methods: Seq<Member>,
    attrs: Seq<Attr>,
}

/// The number that each class file begins with.
#[tactic(auto, unfolding(crate::specs::Steps::LayoutReading::magic_at))]
fn read_magic(cursor: &mut Cursor) -> Result<u32, ReadFault>
    ensures { Gives (λ x. x) result cursor.new (magic_at cursor.old) }
{
    let number = read_u4(cursor)?;
    if number != MAGIC {
        return Err(ReadFault::Bad);
    }
    Ok(number)
}

/// The constant pool (JVMS 4.4).
fn read_items(alloc: Global, cursor: &mut Cursor) -> Result<Pool, ReadFault>
    ensures { Gives (λ x. x) result cursor.new (pool_at cursor.old) }
{
    match read_pool(alloc, cursor) {
        Ok(pool) => Ok(pool),
        Err(BadPool::Bad) => Err(ReadFault::Bad),
        Err(BadPool::Memory) => Err(ReadFault::Memory),
    }
}

/// The magic number, the versions and the pool.
#[tactic(auto, unfolding(crate::specs::Steps::LayoutReading::opening_at))]
fn read_opening(alloc: Global, cursor: &mut Cursor) -> Result<Opening, ReadFault>
    ensures { Gives (λ x. x) result cursor.new (opening_at cursor.old) }
{
    read_magic(cursor)?;
    let minor = read_u2(cursor)?;
    let major = read_u2(cursor)?;
    let pool = read_items(alloc, cursor)?;
    Ok(Opening { minor, major, pool })
}

/// The access flags, the class, its superclass, interfaces, fields, methods and attributes.
#[tactic(auto, unfolding(crate::specs::Steps::LayoutReading::declarations_at))]
fn read_declarations(
    alloc: Global,
    cursor: &mut Cursor,
    pool: &Pool,
    major: u16,
) -> Result<Declarations, ReadFault>
    ensures { Gives (λ x. x) result cursor.new (declarations_at pool.now major cursor.old) }
{
    let access = read_u2(cursor)?;
    let this_class = read_u2(cursor)?;
    let super_class = read_u2(cursor)?;
    let interfaces = read_indices(alloc, cursor)?;
    let fields = read_members(alloc, cursor, pool, Owner::Field, major)?;
    let methods = read_members(alloc, cursor, pool, Owner::Method, major)?;
    let attrs = read_attrs(alloc, cursor, pool, Owner::Class, major)?;
    Ok(Declarations {
        access,
        this_class,
        super_class,
        interfaces,
        fields,
        methods,
        attrs,
    })
}

/// The class of these parts.
fn joined(opening: Opening, found: Declarations) -> ClassFile
    ensures { result ≡ joined opening found }
{
    ClassFile {
        minor: opening.minor,
        major: opening.major,
        pool: opening.pool,
        access: found.access,
        this_class: found.this_class,
        super_class: found.super_class,
        interfaces: found.interfaces,
        fields: found.fields,
        methods: found.methods,
        attrs: found.attrs,
    }
}

/// A class by its layout alone.
#[tactic(auto, unfolding(crate::specs::Steps::LayoutReading::class_at))]
fn read_parts(alloc: Global, cursor: &mut Cursor) -> Result<ClassFile, ReadFault>
    ensures { Gives (λ x. x) result cursor.new (class_at cursor.old) }
{
    let opening = read_opening(alloc, cursor)?;
    let found = read_declarations(alloc, cursor, &opening.pool, opening.major)?;
    Ok(joined(opening, found))
}

/// The class that all of the bytes lay out, whether or not it keeps the rules.
#[tactic(auto, unfolding(crate::specs::Steps::LayoutReading::layout_at))]
pub fn read_layout(alloc: Global, bytes: &[u8]) -> Result<ClassFile, ReadFault>
    ensures { GivesAll (λ x. x) result (layout_at bytes.now) }
{
    let mut cursor = Cursor::new(bytes);
    let class = read_parts(alloc, &mut cursor)?;
    if cursor.left() != 0 {
        return Err(ReadFault::Bad);
    }
    Ok(class)
}
