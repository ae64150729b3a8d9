ghost use Rattle.std.specs.Prelude.{◌≡◌, count_by, List, ℕ, IfOk, Err, ◌++◌, []};
ghost use Rattle.jv_pool.specs.declared.item.PoolItem.{PoolItem};
ghost use Rattle.jv_attr.specs.declared.attr.Attr.{Attr};
ghost use Rattle.jv_attr.specs.declared.attr.CodeAttr.{CodeAttr};
ghost use Rattle.jv_attr.specs.declared.owner.Owner as owners;
ghost use Rattle.jv_attr.specs.AttrText.{is_code, is_maps, is_catch, has_maps, IsAttrText, BeginsWithAttr};
ghost use Rattle.jv_read.specs.Reading.{Gives, GivesAll};
ghost use Rattle.jv_attr.specs.Steps.AttrReading.{head_at, other_at, inner_at, handler_at, handlers_at, code_bytes_at, inners_at, code_at, whole_code_at, body_at, attr_at};

use crate::attr::{Attr, AttrBody, CodeAttr, NoCode};
use crate::fault::BadAttr;
use crate::frame_reader::{names_class, read_maps};
use crate::owner::Owner;
use jv_bytes::Cursor;
use jv_pool::Pool;
use jv_read::{Part, ReadFault, read_bytes, read_counted, read_u2, read_u4};
use jv_types::{RawHandler, Seq};
use std::alloc::Global;

/// The first version in which a `StackMapTable` is read as frames (JVMS 4.7.4).
const FIRST_MAPS: u16 = 50;

/// An attribute with the text of its name, before its content is read.
#[derive(Clone, Copy)]
struct Head<'p, 'a> {
    name: u16,
    text: &'p [u8],
    content: &'a [u8],
}

/// Whether an attribute of this name is read as the code of a method.
fn is_code(owner: Owner, name: &[u8]) -> bool
    ensures { result ≡ is_code owner name.now }
{
    match owner {
        Owner::Method => name == b"Code".as_slice(),
        _ => false,
    }
}

/// Whether an attribute of this name is read as frames.
fn is_maps(owner: Owner, major: u16, name: &[u8]) -> bool
    ensures { result ≡ is_maps owner major name.now }
{
    match owner {
        Owner::Code => FIRST_MAPS <= major && name == b"StackMapTable".as_slice(),
        _ => false,
    }
}

/// A name with its text, and a content (JVMS 4.7).
#[tactic(auto, unfolding(crate::specs::Steps::AttrReading::head_at))]
fn read_head<'p, 'a>(cursor: &mut Cursor<'a>, pool: &'p Pool) -> Result<Head<'p, 'a>, ReadFault>
    ensures { Gives (λ h. (h.name, h.text.now, h.content.now)) result cursor.new (head_at pool.now cursor.old) }
{
    let name = read_u2(cursor)?;
    let Some(text) = pool.utf8(name) else {
        return Err(ReadFault::Bad);
    };
    let len = read_u4(cursor)?;
    let content = read_bytes(cursor, len as usize)?;
    Ok(Head {
        name,
        text,
        content,
    })
}

/// What stands in an attribute that isn't read as code.
#[tactic(auto, unfolding(crate::specs::Steps::AttrReading::other_at))]
fn read_other<C: Drop>(
    alloc: Global,
    content: &[u8],
    pool: &Pool,
    as_maps: bool,
) -> Result<AttrBody<C>, ReadFault>
    ensures { GivesAll (λ x. x) result (other_at pool.now as_maps content.now) }
{
    if as_maps {
        let frames = read_maps(alloc, content, pool)?;
        return Ok(AttrBody::Maps(frames));
    }
    let bytes = Vec::from_slice(alloc, content)?;
    Ok(AttrBody::Raw(Seq::from_vec(bytes)))
}

/// An attribute of a `Code`.
#[tactic(auto, unfolding(crate::specs::Steps::AttrReading::inner_at))]
fn read_inner(
    alloc: Global,
    cursor: &mut Cursor,
    pool: &Pool,
    major: u16,
) -> Result<Attr<NoCode>, ReadFault>
    ensures { Gives (λ x. x) result cursor.new (inner_at pool.now major cursor.old) }
{
    let head = read_head(cursor, pool)?;
    let as_maps = is_maps(Owner::Code, major, head.text);
    let body = read_other(alloc, head.content, pool, as_maps)?;
    Ok(Attr {
        name: head.name,
        body,
    })
}

/// The attributes of a `Code`, read one by one.
#[derive(Clone, Copy)]
struct InnerPart<'p> {
    alloc: Global,
    pool: &'p Pool,
    major: u16,
}

impl Part for InnerPart<'_> {
    type Item = Attr<NoCode>;

    ghost part_at = { λ p bytes. inner_at p.pool.now p.major bytes };

    fn read(&self, cursor: &mut Cursor) -> Result<Attr<NoCode>, ReadFault> {
        read_inner(self.alloc, cursor, self.pool, self.major)
    }
}

/// Whether an attribute has frames.
fn has_maps(attr: &Attr<NoCode>) -> bool
    ensures { result ≡ has_maps attr.now }
{
    matches!(&attr.body, AttrBody::Maps(_))
}

/// How many of the attributes have frames.
fn count_maps(attrs: &[Attr<NoCode>]) -> usize
    ensures { result ≡ count_by has_maps attrs.now }
{
    attrs.iter().filter(|attr| has_maps(attr)).count()
}

/// The attributes of a `Code`, at most one of which has frames.
#[tactic(auto, unfolding(crate::specs::Steps::AttrReading::inners_at))]
fn read_inners(
    alloc: Global,
    cursor: &mut Cursor,
    pool: &Pool,
    major: u16,
) -> Result<Seq<Attr<NoCode>>, ReadFault>
    ensures { Gives (λ x. x) result cursor.new (inners_at pool.now major cursor.old) }
{
    let part = InnerPart { alloc, pool, major };
    let attrs = read_counted(alloc, cursor, &part)?;
    if count_maps(&attrs) > 1 {
        return Err(ReadFault::Bad);
    }
    Ok(Seq::from_vec(attrs))
}

/// Whether a catch type is 0 or names a class.
fn is_catch(pool: &Pool, catch: u16) -> bool
    ensures { result ≡ is_catch pool.now catch }
{
    catch == 0 || names_class(pool, catch)
}

/// A handler (JVMS 4.7.3).
#[tactic(auto, unfolding(crate::specs::Steps::AttrReading::handler_at))]
fn read_handler(cursor: &mut Cursor, pool: &Pool) -> Result<RawHandler, ReadFault>
    ensures { Gives (λ x. x) result cursor.new (handler_at pool.now cursor.old) }
{
    let start = read_u2(cursor)?;
    let end = read_u2(cursor)?;
    let target = read_u2(cursor)?;
    let catch = read_u2(cursor)?;
    if !is_catch(pool, catch) {
        return Err(ReadFault::Bad);
    }
    Ok(RawHandler {
        start,
        end,
        target,
        catch,
    })
}

/// Handlers, read one by one.
#[derive(Clone, Copy)]
struct HandlerPart<'p> {
    pool: &'p Pool,
}

impl Part for HandlerPart<'_> {
    type Item = RawHandler;

    ghost part_at = { λ p bytes. handler_at p.pool.now bytes };

    fn read(&self, cursor: &mut Cursor) -> Result<RawHandler, ReadFault> {
        read_handler(cursor, self.pool)
    }
}

/// A count, and as many handlers.
fn read_handlers(
    alloc: Global,
    cursor: &mut Cursor,
    pool: &Pool,
) -> Result<Seq<RawHandler>, ReadFault>
    ensures { Gives (λ x. x) result cursor.new (handlers_at pool.now cursor.old) }
{
    let handlers = read_counted(alloc, cursor, &HandlerPart { pool })?;
    Ok(Seq::from_vec(handlers))
}

/// The bytes of a code, of which there are 1 to 65535.
#[tactic(auto, unfolding(crate::specs::Steps::AttrReading::code_bytes_at))]
fn read_code_bytes(alloc: Global, cursor: &mut Cursor) -> Result<Seq<u8>, ReadFault>
    ensures { Gives (λ x. x) result cursor.new (code_bytes_at cursor.old) }
{
    let len = read_u4(cursor)?;
    if len == 0 || len > 65535 {
        return Err(ReadFault::Bad);
    }
    let bytes = read_bytes(cursor, len as usize)?;
    Ok(Seq::from_vec(Vec::from_slice(alloc, bytes)?))
}

/// A code (JVMS 4.7.3).
#[tactic(auto, unfolding(crate::specs::Steps::AttrReading::code_at))]
fn read_code(
    alloc: Global,
    cursor: &mut Cursor,
    pool: &Pool,
    major: u16,
) -> Result<CodeAttr, ReadFault>
    ensures { Gives (λ x. x) result cursor.new (code_at pool.now major cursor.old) }
{
    let max_stack = read_u2(cursor)?;
    let max_locals = read_u2(cursor)?;
    let code = read_code_bytes(alloc, cursor)?;
    let handlers = read_handlers(alloc, cursor, pool)?;
    let attrs = read_inners(alloc, cursor, pool, major)?;
    Ok(CodeAttr {
        max_stack,
        max_locals,
        code,
        handlers,
        attrs,
    })
}

/// The code that is all of a content.
#[tactic(auto, unfolding(crate::specs::Steps::AttrReading::whole_code_at))]
fn read_whole_code(
    alloc: Global,
    content: &[u8],
    pool: &Pool,
    major: u16,
) -> Result<CodeAttr, ReadFault>
    ensures { GivesAll (λ x. x) result (whole_code_at pool.now major content.now) }
{
    let mut cursor = Cursor::new(content);
    let code = read_code(alloc, &mut cursor, pool, major)?;
    if cursor.left() != 0 {
        return Err(ReadFault::Bad);
    }
    Ok(code)
}

/// What stands in an attribute.
#[tactic(auto, unfolding(crate::specs::Steps::AttrReading::body_at))]
fn read_body(
    alloc: Global,
    content: &[u8],
    pool: &Pool,
    major: u16,
    as_code: bool,
    as_maps: bool,
) -> Result<AttrBody, ReadFault>
    ensures { GivesAll (λ x. x) result (body_at pool.now major as_code as_maps content.now) }
{
    if as_code {
        let code = read_whole_code(alloc, content, pool, major)?;
        return Ok(AttrBody::Code(code));
    }
    read_other(alloc, content, pool, as_maps)
}

/// An attribute of this owner in a file of this major version.
#[tactic(auto, unfolding(crate::specs::Steps::AttrReading::attr_at))]
fn read_any(
    alloc: Global,
    cursor: &mut Cursor,
    pool: &Pool,
    owner: Owner,
    major: u16,
) -> Result<Attr, ReadFault>
    ensures { Gives (λ x. x) result cursor.new (attr_at pool.now owner major cursor.old) }
{
    let head = read_head(cursor, pool)?;
    let as_code = is_code(owner, head.text);
    let as_maps = is_maps(owner, major, head.text);
    let body = read_body(alloc, head.content, pool, major, as_code, as_maps)?;
    Ok(Attr {
        name: head.name,
        body,
    })
}

/// Reads an attribute (JVMS 4.7) of this owner from the front of the bytes that are left, and passes it.
/// `Code` of a method is read as code, and `StackMapTable` inside a `Code`, from major version 50 on, as
/// frames; every other attribute is kept as its bytes. It is refused `Bad` exactly where no front of these
/// bytes is the text of such an attribute. After a refusal the cursor stands anywhere. What is read takes
/// no more memory than its bytes give cause for, whatever counts it states.
pub fn read_attr(
    alloc: Global,
    cursor: &mut Cursor,
    pool: &Pool,
    owner: Owner,
    major: u16,
) -> Result<Attr, BadAttr>
    ensures found { IfOk result (λ attr. BeginsWithAttr pool.now owner major cursor.old attr cursor.new) }
    ensures bad { result ≡ Err BadAttr.Bad → (attr : Attr CodeAttr) (rest : List ℕ) → BeginsWithAttr pool.now owner major cursor.old attr rest → ⊥ }
{
    match read_any(alloc, cursor, pool, owner, major) {
        Ok(attr) => Ok(attr),
        Err(ReadFault::Bad) => Err(BadAttr::Bad),
        Err(ReadFault::Memory) => Err(BadAttr::Memory),
    }
}

/// Over one pool, for one owner and version: no bytes are the text of two attributes, no attribute has two
/// texts, and no text of an attribute is a front of another.
pub fn one_attr_text()
    ensures spelling { (pool : List PoolItem) (o : owners.Owner) (major : ℕ) (attr : Attr CodeAttr) (a b : List ℕ) → IsAttrText pool o major a attr → IsAttrText pool o major b attr → a ≡ b }
    ensures reading { (pool : List PoolItem) (o : owners.Owner) (major : ℕ) (bytes : List ℕ) (a b : Attr CodeAttr) → IsAttrText pool o major bytes a → IsAttrText pool o major bytes b → a ≡ b }
    ensures fronts { (pool : List PoolItem) (o : owners.Owner) (major : ℕ) (bytes : List ℕ) (a b : Attr CodeAttr) (x y : List ℕ) → BeginsWithAttr pool o major bytes a x → BeginsWithAttr pool o major bytes b y → (a ≡ b) × (x ≡ y) }
    ensures whole { (pool : List PoolItem) (o : owners.Owner) (major : ℕ) (a b : Attr CodeAttr) (front more : List ℕ) → IsAttrText pool o major front a → IsAttrText pool o major (front ++ more) b → more ≡ [] }
{}
