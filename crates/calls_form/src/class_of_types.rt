ghost use Rattle.std.specs.Prelude.{◌≡◌, ◌==◌, [], ◌∷◌, ◌++◌, position, IfOk};
ghost use Rattle.calls_form.specs.Reading.{Gives};
ghost use Rattle.calls_form.specs.ClassesTypes.{name_at, class_type_at, type_at, whole_type, is_closed, arguments_at, kind_of_result, result_at, has_static, receiver_of, typed_desc, method_desc};

use crate::number::read_u1;
use crate::object_class::Kind;
use crate::read_error::ReadError;
use bitflags::Flags;
use jv_types::Access;
use std::alloc::{AllocError, Global};

/// A descriptor has at most this many parameters (JVMS 4.3.3).
const MOST_PARAMETERS: u16 = 255;

/// Whether a member is static (JVMS tables 4.5-A and 4.6-A).
pub fn has_static(access: Access) -> bool
    ensures { result ≡ has_static access }
{
    access.contains(Access::STATIC)
}

/// The place of the first semicolon.
fn semicolon(bytes: &[u8]) -> Option<usize>
    ensures { result ≡ position (λ b. b == 59) bytes.now }
{
    bytes.iter().position(|b| *b == b';')
}

/// What stands before the first semicolon, and what stands behind it.
#[tactic(auto, unfolding(crate::specs::ClassesTypes::name_at))]
fn read_name(bytes: &[u8]) -> Result<(&[u8], &[u8]), ReadError>
    ensures { Gives (λ x. (x.0.now, x.1.now)) result (name_at bytes.now) }
{
    let Some(end) = semicolon(bytes) else {
        return Err(ReadError::Malformed);
    };
    let (name, rest) = bytes.split_at(end);
    match rest.split_first() {
        None => Err(ReadError::Malformed),
        Some((_semicolon, rest)) => Ok((name, rest)),
    }
}

/// A name and a semicolon, where it names the class itself or `java/lang/Object`, and what follows.
#[tactic(auto, unfolding(crate::specs::ClassesTypes::class_type_at))]
fn read_class_type<'a>(own: &[u8], bytes: &'a [u8]) -> Result<(Kind, &'a [u8]), ReadError>
    ensures { Gives (λ x. (x.0, x.1.now)) result (class_type_at own.now bytes.now) }
{
    let (name, rest) = read_name(bytes)?;
    if name == own || name == b"java/lang/Object".as_slice() {
        Ok((Kind::Reference, rest))
    } else {
        Err(ReadError::Malformed)
    }
}

/// A type (JVMS 4.3.2), and what follows.
#[tactic(auto, unfolding(crate::specs::ClassesTypes::type_at))]
fn read_type<'a>(own: &[u8], bytes: &'a [u8]) -> Result<(Kind, &'a [u8]), ReadError>
    ensures { Gives (λ x. (x.0, x.1.now)) result (type_at own.now bytes.now) }
{
    let (mark, rest) = read_u1(bytes)?;
    match mark {
        b'I' => Ok((Kind::Word, rest)),
        b'L' => read_class_type(own, rest),
        _ => Err(ReadError::Malformed),
    }
}

/// The kind of a type, behind which nothing follows.
#[tactic(auto, unfolding(crate::specs::ClassesTypes::whole_type))]
pub fn read_whole_type(own: &[u8], bytes: &[u8]) -> Result<Kind, ReadError>
    ensures { Gives (λ x. x) result (whole_type own.now bytes.now) }
{
    let (kind, rest) = read_type(own, bytes)?;
    if !rest.is_empty() {
        return Err(ReadError::Malformed);
    }
    Ok(kind)
}

/// Whether a closing parenthesis follows.
fn is_closed(bytes: &[u8]) -> bool
    ensures { result ≡ is_closed bytes.now }
{
    match bytes.split_first() {
        None => false,
        Some((first, _rest)) => *first == b')',
    }
}

/// The receiver's word, unless the method is static.
fn receiver_of(alloc: Global, access: Access) -> Result<Vec<Kind>, AllocError>
    ensures { IfOk result (λ v. v.items ≡ receiver_of access) }
{
    let mut words = Vec::new(alloc);
    if !has_static(access) {
        words.push(Kind::Reference)?;
    }
    Ok(words)
}

/// The words before, and then those of at most 255 parameters before a closing parenthesis, and what
/// follows.
fn read_arguments<'a>(
    own: &[u8],
    receiver: Vec<Kind>,
    bytes: &'a [u8],
) -> Result<(Vec<Kind>, &'a [u8]), ReadError>
    ensures { Gives (λ x. (x.0.items, x.1.now)) result (arguments_at own.now receiver.items bytes.now) }
{
    let mut words = receiver;
    let mut rest = bytes;
    for _ in 0..MOST_PARAMETERS {
        if is_closed(rest) {
            return Ok((words, rest));
        }
        let (kind, after) = read_type(own, rest)?;
        words.push(kind)?;
        rest = after;
    }
    Ok((words, rest))
}

/// The kind of a result, none for `V` (JVMS 4.3.3).
#[tactic(auto, unfolding(crate::specs::ClassesTypes::kind_of_result))]
fn read_kind_of_result(own: &[u8], bytes: &[u8]) -> Result<Option<Kind>, ReadError>
    ensures { Gives (λ x. x) result (kind_of_result own.now bytes.now) }
{
    if bytes == b"V".as_slice() {
        return Ok(None);
    }
    Ok(Some(read_whole_type(own, bytes)?))
}

/// A closing parenthesis, and the kind of the result.
#[tactic(auto, unfolding(crate::specs::ClassesTypes::result_at))]
fn read_result(own: &[u8], bytes: &[u8]) -> Result<Option<Kind>, ReadError>
    ensures { Gives (λ x. x) result (result_at own.now bytes.now) }
{
    let (mark, rest) = read_u1(bytes)?;
    if mark != b')' {
        return Err(ReadError::Malformed);
    }
    read_kind_of_result(own, rest)
}

/// The argument words and the result of a descriptor over ints, the class itself and
/// `java/lang/Object`.
#[tactic(auto, unfolding(crate::specs::ClassesTypes::typed_desc))]
fn read_typed_desc(
    alloc: Global,
    own: &[u8],
    access: Access,
    desc: &[u8],
) -> Result<(Vec<Kind>, Option<Kind>), ReadError>
    ensures { Gives (λ x. (x.0.items, x.1)) result (typed_desc own.now access desc.now) }
{
    let (mark, rest) = read_u1(desc)?;
    if mark != b'(' {
        return Err(ReadError::Malformed);
    }
    let receiver = receiver_of(alloc, access)?;
    let (arguments, rest) = read_arguments(own, receiver, rest)?;
    let result_kind = read_result(own, rest)?;
    Ok((arguments, result_kind))
}

/// The argument words of a method with main's descriptor: a reference behind the receiver's word.
fn main_arguments(alloc: Global, access: Access) -> Result<Vec<Kind>, AllocError>
    ensures { IfOk result (λ v. v.items ≡ receiver_of access ++ Kind.Reference ∷ []) }
{
    let mut words = receiver_of(alloc, access)?;
    words.push(Kind::Reference)?;
    Ok(words)
}

/// The argument words and the result that the descriptor of a method with these flags says: main's, or
/// one over ints, the class itself and `java/lang/Object` (JVMS 4.3.3).
#[tactic(auto, unfolding(crate::specs::ClassesTypes::method_desc))]
pub fn read_method_desc(
    alloc: Global,
    own: &[u8],
    access: Access,
    desc: &[u8],
) -> Result<(Vec<Kind>, Option<Kind>), ReadError>
    ensures { Gives (λ x. (x.0.items, x.1)) result (method_desc own.now access desc.now) }
{
    if desc == b"([Ljava/lang/String;)V".as_slice() {
        return Ok((main_arguments(alloc, access)?, None));
    }
    read_typed_desc(alloc, own, access, desc)
}
