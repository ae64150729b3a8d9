ghost use Rattle.std.specs.Prelude.{◌≡◌, ◌++◌, ℕ, zero, Contains, IfOk, OnOk, slice_get};
ghost use Rattle.std.specs.List.Sorted.{IsStrictlyIncreasing};
ghost use Rattle.av_collected.specs.Answers.{Picks};
ghost use Rattle.av_reduced.specs.Reduced.{listed};

use jv_types::Copied;
use std::alloc::{AllocError, Global};

/// Adds a copy of the element at a place, if there is one.
fn push_at<T: Copied + Drop>(picked: &mut Vec<T>, all: &[T], place: usize) -> Result<(), AllocError>
    ensures { OnOk result (picked.new.items ≡ picked.old.items ++ listed (slice_get all.now place)) }
{
    match all.get(place) {
        None => Ok(()),
        Some(element) => {
            picked.push(element.copy()?)?;
            Ok(())
        }
    }
}

/// Copies of the elements at these places, in their order. Only memory can be wanting.
pub fn picked<T: Copied + Drop>(
    alloc: Global,
    all: &[T],
    places: &[u16],
) -> Result<Vec<T>, AllocError>
    requires { IsStrictlyIncreasing places.now }
    ensures { IfOk result (λ picked. Picks (Contains places.now) zero all.now picked.items) }
{
    let mut picked = Vec::new(alloc);
    for place in places {
        push_at(&mut picked, all, usize::from(*place))?;
    }
    Ok(picked)
}
