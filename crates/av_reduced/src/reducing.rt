ghost use Rattle.std.specs.Prelude.{IfOk};
ghost use Rattle.std.specs.List.Sorted.{IsStrictlyIncreasing};
ghost use Rattle.av_reduced.specs.Reduced.{HasOnly};

use crate::picking::picked;
use jv_types::{Copied, Seq, Shape};
use std::alloc::{AllocError, Global};

/// The class with the fields and the methods at these places alone, which rise. Only memory can be wanting.
pub fn reduced(
    alloc: Global,
    full: &Shape,
    fields: &[u16],
    methods: &[u16],
) -> Result<Shape, AllocError>
    requires fields { IsStrictlyIncreasing fields.now }
    requires methods { IsStrictlyIncreasing methods.now }
    ensures { IfOk result (HasOnly fields.now methods.now full.now) }
{
    let parent = match &full.parent {
        None => None,
        Some(name) => Some(name.copy()?),
    };
    Ok(Shape {
        name: full.name.copy()?,
        flags: full.flags,
        parent,
        interfaces: full.interfaces.copy()?,
        fields: Seq::from_vec(picked(alloc, full.fields.as_slice(), fields)?),
        methods: Seq::from_vec(picked(alloc, full.methods.as_slice(), methods)?),
        application: full.application,
    })
}
