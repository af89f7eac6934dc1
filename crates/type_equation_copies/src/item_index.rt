// The numbers of items.

ghost use Rattle.std.specs.Prelude.{◌≡◌, List, IfOk, OnOk, map, if◌then◌else◌};
ghost use Rattle.std.specs.List.{position_or_len};
ghost use Rattle.type_contents.specs.Items.{is_same_item, is_in};
ghost use Rattle.type_contents.specs.Items as items;
ghost use Rattle.type_contents.specs.Views.{item_of, described_of};
ghost use Rattle.type_contents.specs.declared.item.Item as code;
ghost use Rattle.type_equation_copies.specs.Indexes.{item_at, number_at, IsIndexOf, items_in};

use indexmap::IndexMap;
use spec_core::memory::Memory;
use std::alloc::Global;
use type_contents::item::Item;
use type_contents::own::Declared;

/// The numbers of items, from 0; of those that are one that of the first.
#[derive(Drop)]
pub struct ItemIndex<'a> {
    numbers: IndexMap<&'a Item, usize>,
    // how many items there are
    count: usize,
}

// The items of descriptions.
fn items_in<'a>(alloc: Global, all: &'a [Declared<'_>]) -> Result<Vec<&'a Item>, Memory>
    ensures { IfOk result (λ items. map item_at items.items ≡ items_in (map described_of all.now)) }
{
    let mut items = Vec::new(alloc);
    for one in all {
        items.push(&one.item)?;
    }
    Ok(items)
}

impl<'a> ItemIndex<'a> {
    // Puts in the number of an item, in place of the one that is there.
    fn put(&mut self, number: usize, item: &'a Item) -> Result<(), Memory>
        ensures numbers { OnOk result ((other : code.Item) → number_at self.new other
            ≡ (if is_same_item (item_of other) (item_of item.now) then number else number_at self.old other)) }
        ensures count { self.new.count ≡ self.old.count }
    {
        self.numbers.insert(item, number)?;
        Ok(())
    }

    /// The index of these items.
    pub fn new(alloc: Global, items: &[&'a Item]) -> Result<ItemIndex<'a>, Memory>
        ensures { IfOk result (λ index. IsIndexOf index (map item_at items.now)) }
    {
        let mut index = ItemIndex {
            numbers: IndexMap::new(alloc),
            count: items.len(),
        };
        for behind in 0..items.len() {
            let number = items.len() - 1 - behind;
            index.put(number, items[number])?;
        }
        Ok(index)
    }

    /// The index of the items of descriptions.
    pub fn of_described(alloc: Global, all: &'a [Declared<'_>]) -> Result<ItemIndex<'a>, Memory>
        ensures { IfOk result (λ index. IsIndexOf index (items_in (map described_of all.now))) }
    {
        let items = items_in(alloc, all)?;
        ItemIndex::new(alloc, &items)
    }

    // The number of an item; how many there are where it isn't there.
    fn number_at(&self, item: &Item) -> usize
        ensures { result ≡ number_at self.now item.now }
    {
        match self.numbers.get(&item) {
            None => self.count,
            Some(number) => *number,
        }
    }

    /// The number of an item; how many there are where it isn't there. It takes no memory.
    pub fn number(&self, item: &Item) -> usize
        ensures { (items : List items.Item) → IsIndexOf self.now items → result ≡ position_or_len (is_same_item (item_of item.now)) items }
    {
        self.number_at(item)
    }

    /// Whether an item is there. It takes no memory.
    pub fn has(&self, item: &Item) -> bool
        ensures { (items : List items.Item) → IsIndexOf self.now items → result ≡ is_in items (item_of item.now) }
    {
        self.number(item) < self.count
    }
}
