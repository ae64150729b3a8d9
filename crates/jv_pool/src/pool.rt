ghost use Rattle.std.specs.Prelude.{◌≡◌};
ghost use Rattle.std.specs.Option.{option_copied};
ghost use Rattle.jv_pool.specs.Lookups.{item_at, text_at, class_name_at, name_and_type_at, member_at};

use crate::item::PoolItem;
use crate::link::{item_at, names_class, names_pair, names_text};
use std::marker::Model;

/// A constant pool (JVMS 4.4). Clauses see the list of its items from index 1 on.
#[derive(Debug, Drop)]
pub struct Pool {
    items: Vec<PoolItem>,
}

impl Model for Pool {
    ghost use Rattle.std.specs.Prelude.{List};
    ghost use Rattle.jv_pool.specs.declared.item.PoolItem.{PoolItem};

    ghost Value = { List PoolItem };

    ghost view = { λ p. p.items.items };
}

impl Pool {
    /// The pool of these items, the first of which is that of index 1. It takes no memory.
    pub fn from_items(items: Vec<PoolItem>) -> Pool
        ensures { result ≡ items.items }
    {
        Pool { items }
    }

    /// The items from index 1 on, lent.
    pub fn items(&self) -> &[PoolItem]
        ensures { result.now ≡ self.now }
    {
        self.items.as_slice()
    }

    /// The item of an index. There is none exactly where the index is 0 or past the last item.
    pub fn item(&self, i: u16) -> Option<&PoolItem>
        ensures { option_copied result ≡ item_at self.now i }
    {
        item_at(self.items.as_slice(), i)
    }

    /// The text at an index (JVMS 4.4.7). There is none exactly where no Utf8 stands there.
    pub fn utf8(&self, i: u16) -> Option<&[u8]>
        ensures { option_copied result ≡ text_at self.now i }
    {
        match self.item(i)? {
            PoolItem::Utf8(text) => Some(text.as_slice()),
            _ => None,
        }
    }

    /// The name of the class at an index (JVMS 4.4.1). There is none exactly where no class stands there,
    /// or no Utf8 where its name should.
    pub fn class_name(&self, i: u16) -> Option<&[u8]>
        ensures { option_copied result ≡ class_name_at self.now i }
    {
        match self.item(i)? {
            PoolItem::Class(name) => self.utf8(*name),
            _ => None,
        }
    }

    /// The indices of the name and of the descriptor at an index (JVMS 4.4.6). There are none exactly
    /// where no NameAndType stands there, or no Utf8 where it has one of the two.
    pub fn name_and_type(&self, i: u16) -> Option<(u16, u16)>
        ensures { result ≡ name_and_type_at self.now i }
    {
        let items = self.items.as_slice();
        match item_at(items, i)? {
            PoolItem::NameAndType(name, desc)
                if names_text(items, *name) && names_text(items, *desc) => { Some((*name, *desc)) }
            _ => None,
        }
    }

    /// The indices of the class and of the name and descriptor of the field, method or method of an
    /// interface at an index (JVMS 4.4.2). There are none exactly where none of these stands there, or no
    /// class or NameAndType where it has one.
    pub fn member(&self, i: u16) -> Option<(u16, u16)>
        ensures { result ≡ member_at self.now i }
    {
        let items = self.items.as_slice();
        match item_at(items, i)? {
            PoolItem::Field(class, pair)
            | PoolItem::Method(class, pair)
            | PoolItem::InterfaceMethod(class, pair)
                if names_class(items, *class) && names_pair(items, *pair) => {
                Some((*class, *pair))
            }
            _ => None,
        }
    }
}
