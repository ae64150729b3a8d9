ghost use Rattle.std.specs.Prelude.{◌≡◌, ◌<◌, ◌↔◌, IsTrue};
ghost use Rattle.jv_types.specs.declared.quantity.Quantity.TheVariants.{Instructions};
ghost use Rattle.jv_types.specs.Quantities.{quantity_limit};
ghost use Rattle.av_stops.specs.FirstStops.{insns_in};

use jv_types::{FramedBody, Quantity};

/// Whether methods have more instructions together than an application may have.
pub fn has_too_many(methods: &[FramedBody]) -> bool
    ensures { IsTrue result ↔ (quantity_limit Instructions < insns_in methods.now) }
{
    let mut count = 0u64;
    for framed in methods {
        count = count.saturating_add(framed.body.insns.len() as u64);
    }
    count > Quantity::Instructions.limit()
}
