ghost use Rattle.std.specs.Prelude.{◌≡◌, IfOk, unwrap_or};
ghost use Rattle.jv_class.specs.Steps.TextNumbers.{number_in, Numbers, NumbersItem, AreNumbers};
ghost use Rattle.jv_pool.specs.Lookups.{text_in};

use jv_pool::{Pool, PoolItem};
use std::alloc::{AllocError, Global};
use std::collections::BTreeMap;

/// The number of a text: the one that an equal text has, and else this new one.
fn number_of<'a>(
    numbers: &mut BTreeMap<&'a [u8], usize>,
    text: &'a [u8],
    new: usize,
) -> Result<usize, AllocError>
    ensures number { IfOk result (λ number. number ≡ unwrap_or (number_in numbers.old text.now) new) }
    ensures kept { IfOk result (λ number. Numbers numbers.old numbers.new text.now number) }
{
    if let Some(number) = numbers.get(text) {
        return Ok(*number);
    }
    numbers.insert(text, new)?;
    Ok(new)
}

/// The number of an item: that of its text, and else this new one.
fn number_item<'a>(
    numbers: &mut BTreeMap<&'a [u8], usize>,
    item: &'a PoolItem,
    new: usize,
) -> Result<usize, AllocError>
    ensures { IfOk result (NumbersItem numbers.old numbers.new (text_in item.now) new) }
{
    match item {
        PoolItem::Utf8(text) => number_of(numbers, text.as_slice(), new),
        _ => Ok(new),
    }
}

/// The numbers of the items of a pool by their places, where equal texts have one number.
pub fn number_texts(alloc: Global, pool: &Pool) -> Result<Vec<usize>, AllocError>
    ensures { IfOk result (λ numbers. AreNumbers pool.now numbers.items) }
{
    let mut known = BTreeMap::new(alloc);
    let mut numbers = Vec::new(alloc);
    for (place, item) in pool.items().iter().enumerate() {
        let number = number_item(&mut known, item, place)?;
        numbers.push(number)?;
    }
    Ok(numbers)
}
