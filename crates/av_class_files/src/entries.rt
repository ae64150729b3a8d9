ghost use Rattle.std.specs.Prelude.{◌≡◌, false};
ghost use Rattle.jv_pool.specs.PoolText.{is_hole};
ghost use Rattle.jv_insn.specs.Entries.{put_item, put_class};
ghost use Rattle.av_standin_of.specs.Files.{put_parent, put_text};
ghost use Rattle.av_class_files.specs.Steps.{Puts};

use crate::refusal::FileRefusal;
use jv_pool::{PoolItem, PoolRefusal, PoolWriter};
use jv_types::{Copied, Name, Seq};

/// Adds an item to a pool where it doesn't stand yet, and answers its index.
fn add(pool: &mut PoolWriter, item: PoolItem) -> Result<u16, FileRefusal>
    requires { is_hole item ≡ false }
    ensures { Puts result pool.new (put_item item pool.old) }
{
    match pool.add(item) {
        Ok(index) => Ok(index),
        Err(PoolRefusal::PoolFull) => Err(FileRefusal::PoolFull),
        Err(PoolRefusal::Memory) => Err(FileRefusal::Memory),
    }
}

/// Adds a text, and answers its index (JVMS 4.4.7).
pub fn add_text(pool: &mut PoolWriter, text: Vec<u8>) -> Result<u16, FileRefusal>
    ensures { Puts result pool.new (put_text text.items pool.old) }
{
    add(pool, PoolItem::Utf8(Seq::from_vec(text)))
}

/// Adds a name, and answers the index of its text (JVMS 4.4.7).
pub fn add_name(pool: &mut PoolWriter, name: &Name) -> Result<u16, FileRefusal>
    ensures { Puts result pool.new (put_text name.now pool.old) }
{
    let text = name.copy()?.into_vec();
    add_text(pool, text)
}

/// Adds a class by its name, and answers its index (JVMS 4.4.1).
#[tactic(auto, unfolding(jv_insn::specs::Entries::put_class))]
pub fn add_class(pool: &mut PoolWriter, name: &Name) -> Result<u16, FileRefusal>
    ensures { Puts result pool.new (put_class name.now pool.old) }
{
    let text_index = add_name(pool, name)?;
    add(pool, PoolItem::Class(text_index))
}

/// Adds a superclass, and answers its index, and 0 where there is none (JVMS 4.1).
pub fn add_parent(pool: &mut PoolWriter, parent: &Option<Name>) -> Result<u16, FileRefusal>
    ensures { Puts result pool.new (put_parent parent.now pool.old) }
{
    match parent {
        None => Ok(0),
        Some(name) => add_class(pool, name),
    }
}
