ghost use Rattle.std.specs.Prelude.{◌≡◌, ◌<◌, ◌^◌, ◌↔◌, length, IsTrue, OnOk};
ghost use Rattle.std.specs.Ordering.{nat_cmp};
ghost use Rattle.std.specs.Cmp.Lexicographic.{slice_cmp};
ghost use Rattle.jv_fix.specs.Order.{IsSet};
ghost use Rattle.av_conditions.specs.CoreClasses.{void_desc};
ghost use Rattle.av_named.specs.Appending.{Appends, OfEachPlace};
ghost use Rattle.av_tables.specs.Steps.{AreSmall, known};
ghost use Rattle.av_round.specs.Seeds.{CoreAt, CoreMethod, CoreMethodOf, IsCoreMethod};

use av_forcing::{RoundFact, push_fact};
use av_tables::{Classes, place_of, shape_at};
use jv_types::{MethodDesc, MethodShape, Name};
use std::alloc::{AllocError, Global};

/// Whether a method has neither parameters nor a result.
fn is_void(desc: &MethodDesc) -> bool
    ensures { IsTrue result ↔ (desc.now ≡ void_desc) }
{
    desc.params.as_slice().is_empty() && desc.result.is_none()
}

/// Whether a method is `<init>()V` or `finalize()V`.
fn is_core_method(method: &MethodShape) -> bool
    ensures { IsTrue result ↔ IsCoreMethod method.now }
{
    let name = method.name.as_slice();
    (name == b"<init>".as_slice() || name == b"finalize".as_slice()) && is_void(&method.desc)
}

/// Adds a method of Object, where it is `<init>()V` or `finalize()V`.
fn push_core_method(
    method: &MethodShape,
    class: usize,
    place: u16,
    out: &mut Vec<RoundFact>,
) -> Result<(), AllocError>
    ensures { OnOk result (Appends (CoreAt class method.now place) out.old.items out.new.items) }
{
    if is_core_method(method) {
        return push_fact(RoundFact::Method(class, place), out);
    }
    Ok(())
}

/// Adds those of these methods of Object that are `<init>()V` or `finalize()V`.
fn push_each_core_method(
    methods: &[MethodShape],
    class: usize,
    out: &mut Vec<RoundFact>,
) -> Result<(), AllocError>
    requires { length methods.now < 2 ^ 16 }
    ensures { OnOk result (Appends (OfEachPlace (CoreAt class) methods.now) out.old.items out.new.items) }
{
    for place in 0..methods.len() {
        push_core_method(&methods[place], class, place as u16, out)?;
    }
    Ok(())
}

/// Adds `<init>()V` and `finalize()V` of a class, where it was read and declares them.
fn push_core_methods_of(
    classes: &Classes,
    class: usize,
    out: &mut Vec<RoundFact>,
) -> Result<(), AllocError>
    requires { AreSmall classes.now.files.now }
    ensures { OnOk result (Appends (CoreMethodOf (known classes.now) class) out.old.items out.new.items) }
{
    match shape_at(classes, class) {
        None => Ok(()),
        Some(shape) => push_each_core_method(shape.methods.as_slice(), class, out),
    }
}

/// Adds `<init>()V` and `finalize()V` of Object, where Object was read and declares them.
pub fn push_core_methods(
    alloc: Global,
    classes: &Classes,
    out: &mut Vec<RoundFact>,
) -> Result<(), AllocError>
    requires rising { IsSet (slice_cmp nat_cmp) classes.now.names.items }
    requires small { AreSmall classes.now.files.now }
    ensures { OnOk result (Appends (CoreMethod (known classes.now)) out.old.items out.new.items) }
{
    let object = Name::from_slice(alloc, b"java/lang/Object")?;
    match place_of(classes.names.as_slice(), &object) {
        None => Ok(()),
        Some(class) => push_core_methods_of(classes, class, out),
    }
}
