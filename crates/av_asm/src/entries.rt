ghost use Rattle.std.specs.Prelude.{◌≡◌, false};
ghost use Rattle.jv_pool.specs.declared.item.PoolItem.TheVariants.{Utf8};
ghost use Rattle.jv_pool.specs.PoolText.{is_hole};
ghost use Rattle.jv_insn.specs.Entries.{put_item, put_class, Grows};
ghost use Rattle.jv_insn.specs.Steps.Writing.{Puts};

use jv_insn::EncodeRefusal;
use jv_pool::{PoolItem, PoolRefusal, PoolWriter};
use jv_types::Seq;

/// Adds an item to a pool where it doesn't stand yet, and answers its index.
fn add(pool: &mut PoolWriter, item: PoolItem) -> Result<u16, EncodeRefusal>
    requires { is_hole item ≡ false }
    ensures put { Puts result pool.new (put_item item pool.old) }
    ensures grown { Grows pool.old pool.new }
{
    match pool.add(item) {
        Ok(index) => Ok(index),
        Err(PoolRefusal::PoolFull) => Err(EncodeRefusal::PoolFull),
        Err(PoolRefusal::Memory) => Err(EncodeRefusal::Memory),
    }
}

/// Adds a text, and answers its index (JVMS 4.4.7).
pub fn add_text(pool: &mut PoolWriter, text: Vec<u8>) -> Result<u16, EncodeRefusal>
    ensures put { Puts result pool.new (put_item (Utf8 text.items) pool.old) }
    ensures grown { Grows pool.old pool.new }
{
    add(pool, PoolItem::Utf8(Seq::from_vec(text)))
}

/// Adds a class by its text, and answers its index (JVMS 4.4.1).
#[tactic(auto, unfolding(jv_insn::specs::Entries::put_class))]
pub fn add_class(pool: &mut PoolWriter, text: Vec<u8>) -> Result<u16, EncodeRefusal>
    ensures put { Puts result pool.new (put_class text.items pool.old) }
    ensures grown { Grows pool.old pool.new }
{
    let name_index = add_text(pool, text)?;
    add(pool, PoolItem::Class(name_index))
}
