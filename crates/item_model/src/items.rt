//! The items of a database.
ghost use Rattle.std.specs.Prelude.{◌≡◌, ◌<◌, IfOk, length, map, slice_get, slice_set, Some};
ghost use Rattle.item_model.specs.Kinds.{initial_of};

use crate::decl::ItemDecl;
use crate::stored::Stored;
use rt_base::{ItemId, OutOfMemory, Tick, Value};
use std::alloc::Global;
use std::marker::Model;

/// The items with their values and stamps, by their places. Contracts see it as that list. Only `new` takes memory.
#[derive(Drop)]
pub struct Items {
    items: Vec<Stored>,
}

impl Model for Items {
    ghost use Rattle.std.specs.Prelude.{List};
    ghost use Rattle.item_model.specs.declared.stored.Stored.{Stored as Item};

    ghost Value = { List Item };

    ghost view = { λ i. i.items.items };
}

// An item at the start.
fn initial(decl: ItemDecl) -> Stored
    ensures { result ≡ initial_of decl }
{
    Stored {
        value: decl.initial,
        stamp: 0,
    }
}

impl Items {
    /// Each item with its initial value and the stamp 0.
    pub fn new(alloc: Global, decls: &[ItemDecl]) -> Result<Items, OutOfMemory>
        ensures { IfOk result (λ items. items ≡ map initial_of decls.now) }
    {
        let mut items = Vec::new(alloc);
        for decl in decls {
            items.push(initial(*decl))?;
        }
        Ok(Items { items })
    }

    /// The items that these are.
    pub fn of(items: Vec<Stored>) -> Items
        ensures { result ≡ items.items }
    {
        Items { items }
    }

    /// The items, as a slice.
    pub fn as_slice(&self) -> &[Stored]
        ensures { result.now ≡ self.now }
    {
        self.items.as_slice()
    }

    /// An item's value and stamp, by one look-up.
    pub fn get(&self, item: ItemId) -> (Value, Tick)
        requires { item.0 < length self.now }
        ensures { slice_get self.now item.0 ≡ Some (record { value = result.0; stamp = result.1 }) }
    {
        let stored = self.items[item.0 as usize];
        (stored.value, stored.stamp)
    }

    /// Gives an item this value and stamp, by one write; the others stay.
    pub fn install(&mut self, item: ItemId, value: Value, stamp: Tick)
        requires { item.0 < length self.old }
        ensures { self.new ≡ slice_set self.old item.0 (record { value = value; stamp = stamp }) }
    {
        self.items[item.0 as usize] = Stored { value, stamp };
    }

    /// How many items there are.
    pub fn len(&self) -> usize
        ensures { result ≡ length self.now }
    {
        self.items.len()
    }
}
