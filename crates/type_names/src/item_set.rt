// Items, each once.

ghost use Rattle.std.specs.Prelude.{◌≡◌, ◌||◌, [], not, IfOk, OnOk};
ghost use Rattle.type_contents.specs.declared.item.Item.{Item};
ghost use Rattle.type_contents.specs.Items.{is_same_item};
ghost use Rattle.type_contents.specs.Views.{item_of};
ghost use Rattle.type_names.specs.NameSets.{has_item, IsItemSetOf};

use indexmap::IndexSet;
use spec_core::memory::Memory;
use std::alloc::Global;
use type_contents::item::Item;

/// Sorts and operations.
#[derive(Drop)]
pub struct ItemSet {
    items: IndexSet<Item>,
}

impl ItemSet {
    /// No items. It takes no memory.
    pub fn new(alloc: Global) -> ItemSet
        ensures { IsItemSetOf result [] }
    {
        ItemSet {
            items: IndexSet::new(alloc),
        }
    }

    /// Adds an item. Whether it wasn't there.
    pub fn add(&mut self, item: Item) -> Result<bool, Memory>
        ensures new { IfOk result (λ new. new ≡ not (has_item self.old (item_of item))) }
        ensures items { OnOk result ((x : Item) → has_item self.new (item_of x)
            ≡ (has_item self.old (item_of x) || is_same_item (item_of item) (item_of x))) }
    {
        let new = self.items.insert(item)?;
        Ok(new)
    }
}
