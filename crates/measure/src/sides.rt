ghost use Rattle.std.specs.Prelude.{◌≡◌, ◌<◌, []};
ghost use Rattle.std.specs.Ordering.{nat_cmp};
ghost use Rattle.std.proofs.lemmas.Map.Lookups.{exact_pairs, exact_unsigned};
ghost use Rattle.measure.specs.Sides.{after, meets, none_closed};

use anyhow::{Context, Result, ensure};
use jv_fix::{CloseStop, Forcing, Seen, Steps, close};
use std::alloc::{AllocError, Global};
use std::marker::Brand;
use std::sync::ledger::{Blank, Ledger};

/// Two sides that count in a circle of so many numbers, and meet where both have one.
#[derive(Drop)]
struct Sides {
    size: u32,
    ghost some: { 0 < size },
}

impl Sides {
    /// The number after one.
    fn after(&self, number: u32) -> u32
        ensures { result ≡ after self.now.size number }
    {
        let size = u64::from(self.size);
        ((u64::from(number) + 1) % size) as u32
    }
}

impl Forcing for Sides {
    type Fact = (u8, u32);

    ghost forces = { λ sides. meets sides.size };

    ghost bound = { λ _. [] };

    fn force(
        &self,
        fact: &(u8, u32),
        found: &Seen<(u8, u32)>,
        out: &mut Vec<(u8, u32)>,
    ) -> Result<(), AllocError> {
        let (side, number) = *fact;
        if side > 1 {
            return Ok(());
        }
        out.push((side, self.after(number)))?;
        if found.has(&(1 - side, number)) {
            out.push((2, number))?;
        }
        Ok(())
    }

    ghost exact = { exact_pairs nat_cmp nat_cmp exact_unsigned exact_unsigned };

    ghost bounded = { λ sides. none_closed sides.size };
}

/// How many facts there are where each side begins with 0.
fn joined<L: Ledger>(alloc: Global, blank: Blank, size: u32) -> Result<usize, CloseStop>
    requires name { blank.name ≡ L.name }
    requires parts { blank.parts ≡ L.parts }
    requires some { 0 < blank.parts }
    requires size { 0 < size }
{
    let mut steps = Steps::<L>::new(blank);
    let found = close(
        alloc,
        &Sides { size },
        &[(0, 0), (1, 0)],
        u64::MAX,
        &mut steps,
    )?;
    Ok(found.facts().len())
}

/// Closes two sides of so many numbers, and prints how many facts it found.
pub fn measure_join(rt: &HostRuntime, size: u32) -> Result<()> {
    ensure!(size > 0, "no numbers");
    let count = joined::<Brand>(rt.alloc(), Blank::new(1), size)
        .ok()
        .context("no memory")?;
    println!(rt; "{count}")?;
    Ok(())
}
