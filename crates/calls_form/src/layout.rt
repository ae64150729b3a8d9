ghost use Rattle.std.specs.Prelude.{◌≡◌, List, ℕ, IfOk, Err};
ghost use Rattle.calls_form.specs.declared.outline.Outline.{Outline};
ghost use Rattle.calls_form.specs.LayoutReading.{header_at, names_at, outline_at};
ghost use Rattle.calls_form.specs.Outlines.{IsOutline};
ghost use Rattle.calls_form.specs.Reading.{Gives};

use crate::attributes::pass_counted;
use crate::fields::read_counted_fields;
use crate::methods::read_counted_methods;
use crate::number::{read_u2, read_u4};
use crate::outline::Outline;
use crate::pool::{read_pair, read_pool};
use crate::read_error::ReadError;
use std::alloc::Global;

/// The number that each class file begins with (JVMS 4.1).
const MAGIC: u32 = 0xCAFE_BABE;

/// The magic number and the versions: the major version, and the bytes after them.
#[tactic(auto, unfolding(crate::specs::LayoutReading::header_at))]
fn read_header(bytes: &[u8]) -> Result<(u16, &[u8]), ReadError>
    ensures { Gives (λ x. (x.0, x.1.now)) result (header_at bytes.now) }
{
    let (magic, rest) = read_u4(bytes)?;
    if magic != MAGIC {
        return Err(ReadError::Malformed);
    }
    let (_minor, major, rest) = read_pair(rest)?;
    Ok((major, rest))
}

/// Access flags, this class, the superclass, and that there are no interfaces: the indices of the two
/// classes, and the bytes after them.
#[tactic(auto, unfolding(crate::specs::LayoutReading::names_at))]
fn read_names(bytes: &[u8]) -> Result<(u16, u16, &[u8]), ReadError>
    ensures { Gives (λ x. (x.0, x.1, x.2.now)) result (names_at bytes.now) }
{
    let (_access, rest) = read_u2(bytes)?;
    let (this_class, super_class, rest) = read_pair(rest)?;
    let (interface_count, rest) = read_u2(rest)?;
    if interface_count != 0 {
        return Err(ReadError::Malformed);
    }
    Ok((this_class, super_class, rest))
}

/// The outline of all of the bytes.
#[tactic(auto, unfolding(crate::specs::LayoutReading::outline_at))]
fn read_all(alloc: Global, bytes: &[u8]) -> Result<Outline, ReadError>
    ensures { Gives (λ x. x) result (outline_at bytes.now) }
{
    let (major, rest) = read_header(bytes)?;
    let (pool, rest) = read_pool(alloc, rest)?;
    let (this_class, super_class, rest) = read_names(rest)?;
    let (fields, rest) = read_counted_fields(alloc, rest)?;
    let (methods, rest) = read_counted_methods(alloc, pool.as_slice(), rest)?;
    let rest = pass_counted(rest)?;
    if !rest.is_empty() {
        return Err(ReadError::Malformed);
    }
    Ok(Outline {
        major,
        pool,
        this_class,
        super_class,
        fields,
        methods,
    })
}

/// Reads the layout of a class file whose methods have one `Code` each and which has no interfaces
/// (JVMS 4.1). Bytes that aren't such a file give `Malformed`, or `Memory` where memory ran
/// out before that was seen. What isn't kept is passed over by its length and takes no memory.
pub fn read_outline(alloc: Global, bytes: &[u8]) -> Result<Outline, ReadError>
    ensures found { IfOk result (IsOutline bytes.now) }
    ensures malformed { result ≡ Err ReadError.Malformed → (o : Outline) → IsOutline bytes.now o → ⊥ }
{
    read_all(alloc, bytes)
}

/// No bytes have two outlines.
pub fn one_outline()
    ensures { (bytes : List ℕ) (o p : Outline) → IsOutline bytes o → IsOutline bytes p → o ≡ p }
{}
