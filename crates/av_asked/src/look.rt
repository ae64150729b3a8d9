ghost use Rattle.std.specs.Prelude.{◌∷◌, [], IfErr, IfOk, IfSome, OnOk};
ghost use Rattle.av_asked.specs.Read.{HasFound, IsFitLook};
ghost use Rattle.av_asked.specs.Sources.{Ran, Stops};

use av_collected::{CollectStop, ShapeFound, ShapeSource};
use jv_host::HostFault;
use jv_types::{Name, Shape};
use std::alloc::Global;

/// What was found under a name.
#[derive(Drop)]
pub enum Look {
    /// No file.
    Absent,
    /// A file: its shape, or none where it is malformed.
    File(Option<Shape>),
}

/// Asks the source what is under a name.
pub fn ask<S: ShapeSource>(alloc: Global, name: &Name, source: &mut S) -> Result<Look, CollectStop>
    ensures ran { OnOk result (Ran
        (record { shapes = S.shapes source.old; kept = S.kept source.old; asked = S.asked source.old; answered = S.answered source.old; passed = S.passed source.old; failed = S.failed source.old; faults = S.faults source.old })
        (record { shapes = S.shapes source.new; kept = S.kept source.new; asked = S.asked source.new; answered = S.answered source.new; passed = S.passed source.new; failed = S.failed source.new; faults = S.faults source.new })
        (name.now ∷ [])) }
    ensures found { IfOk result (λ look. IfSome (S.shapes source.old) (λ library. HasFound library name.now look)) }
    ensures fit { IfOk result (IsFitLook S.stated name.now) }
    ensures stops { IfErr result (λ stop. Stops
        (record { shapes = S.shapes source.old; kept = S.kept source.old; asked = S.asked source.old; answered = S.answered source.old; passed = S.passed source.old; failed = S.failed source.old; faults = S.faults source.old })
        (record { shapes = S.shapes source.new; kept = S.kept source.new; asked = S.asked source.new; answered = S.answered source.new; passed = S.passed source.new; failed = S.failed source.new; faults = S.faults source.new })
        stop (name.now ∷ [])) }
{
    match source.shape(alloc, name) {
        Ok(ShapeFound::Shape(shape)) => Ok(Look::File(Some(shape))),
        Ok(ShapeFound::Malformed) => Ok(Look::File(None)),
        Ok(ShapeFound::Absent) => Ok(Look::Absent),
        Ok(ShapeFound::TooMuch(quantity)) => Err(CollectStop::Limit(quantity)),
        Err(HostFault::Failed) => Err(CollectStop::Failed),
        Err(HostFault::Memory) => Err(CollectStop::Memory),
    }
}
