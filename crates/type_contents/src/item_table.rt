// Items, each with a number.

ghost use Rattle.std.specs.Prelude.{◌≡◌, ℕ, List, [], Some, IfOk, length, take, map, ◌<◌, ◌≤◌, slice_get, slice_index_or, nat_eq};
ghost use Rattle.std.specs.List.{list_any};
ghost use Rattle.type_contents.specs.Lists.{each_once};
ghost use Rattle.type_contents.specs.Items.{union, is_in};
ghost use Rattle.type_contents.specs.Views.{item_of, items_at, no_item, AreWithin};

use crate::item::Item;
use indexmap::IndexSet;
use spec_core::memory::Memory;
use std::alloc::Global;
use std::marker::Model;

/// Items, each once. The number of an item is that of those before it.
#[derive(Drop)]
pub struct ItemTable {
    items: IndexSet<Item>,
}

impl Model for ItemTable {
    ghost use Rattle.std.specs.Prelude.{List, map};
    ghost use Rattle.std.specs.List.{IsDistinct};
    ghost use Rattle.type_contents.specs.Items.{Item, is_same_item};
    ghost use Rattle.type_contents.specs.Views.{item_of};

    ghost Value = { List Item };

    ghost view = { λ table. map item_of table.items.keys };

    ghost invariant = { λ table. IsDistinct is_same_item (map item_of table.items.keys) };
}

impl ItemTable {
    /// No items. It takes no memory.
    pub fn new(alloc: Global) -> ItemTable
        ensures { result ≡ [] }
    {
        ItemTable {
            items: IndexSet::new(alloc),
        }
    }

    /// The number of an item, which comes last where it isn't there.
    fn number(&mut self, item: Item) -> Result<usize, Memory>
        ensures kept { take (length self.old) self.new ≡ self.old }
        ensures item { IfOk result (λ n. slice_get self.new n ≡ Some (item_of item)) }
    {
        let (number, _) = self.items.insert_full(item)?;
        Ok(number)
    }

    /// The numbers of items; those that aren't there come last.
    pub fn numbers(&mut self, alloc: Global, items: Vec<Item>) -> Result<Vec<usize>, Memory>
        ensures kept { take (length self.old) self.new ≡ self.old }
        ensures items { IfOk result (λ all. items_at self.new all.items ≡ map item_of items.items) }
        ensures within { IfOk result (λ all. AreWithin (length self.new) all.items) }
    {
        let mut all = Vec::new(alloc);
        for item in items {
            all.push(self.number(item)?)?;
        }
        Ok(all)
    }

    /// How many items there are. It takes no memory.
    pub fn len(&self) -> usize
        ensures { result ≡ length self.now }
    {
        self.items.len()
    }

    /// The item of a number. It takes no memory.
    pub fn item(&self, number: usize) -> &Item
        requires { number < length self.now }
        ensures { item_of result.now ≡ slice_index_or self.now number no_item }
    {
        &self.items.as_slice()[number]
    }

    /// The union of items, each once.
    pub fn union(&self, alloc: Global, numbers: &[usize]) -> Result<Vec<usize>, Memory>
        requires { AreWithin (length self.now) numbers.now }
        ensures items { IfOk result (λ all. items_at self.now all.items ≡ union (items_at self.now numbers.now)) }
        ensures within { IfOk result (λ all. AreWithin (length self.now) all.items) }
    {
        let _ = &self.items;
        let all = each_once(alloc, numbers)?;
        Ok(all)
    }

    /// Whether the item of a number is among others. It takes no memory.
    pub fn is_in(&self, numbers: &[usize], number: usize) -> bool
        requires within { AreWithin (length self.now) numbers.now }
        requires number { number < length self.now }
        ensures { result ≡ is_in (items_at self.now numbers.now) (slice_index_or self.now number no_item) }
    {
        let _ = &self.items;
        is_among(numbers, number)
    }
}

/// Numbers as a set.
pub fn number_set(alloc: Global, numbers: &[usize]) -> Result<IndexSet<usize>, Memory>
    ensures keys { IfOk result (λ set. set.keys ≡ each_once nat_eq numbers.now) }
    ensures among { IfOk result (λ set. (n : ℕ) → list_any (nat_eq n) set.keys ≡ list_any (nat_eq n) numbers.now) }
{
    let mut found = IndexSet::new(alloc);
    for number in numbers {
        found.insert(*number)?;
    }
    Ok(found)
}

/// Numbers, each once.
pub fn each_once(alloc: Global, numbers: &[usize]) -> Result<Vec<usize>, Memory>
    ensures { IfOk result (λ all. all.items ≡ each_once nat_eq numbers.now) }
{
    let found = number_set(alloc, numbers)?;
    Ok(Vec::from_slice(alloc, found.as_slice())?)
}

/// Whether a number is among others. It takes no memory.
pub fn is_among(numbers: &[usize], number: usize) -> bool
    ensures { result ≡ list_any (nat_eq number) numbers.now }
{
    match numbers {
        [] => false,
        [first, others @ ..] => number == *first || is_among(others, number),
    }
}
