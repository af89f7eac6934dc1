// What each of a list of types has.

ghost use Rattle.std.specs.Prelude.{◌≡◌, ◌<◌, ◌≤◌, ℕ, List, [], suc, true, IfOk, OnOk, IsTrue, None, is_some, length};
ghost use Rattle.std.specs.Prelude.{map, take, slice_index_or};
ghost use Rattle.std.specs.List.{list_all};
ghost use Rattle.type_contents.specs.Uses.{links};
ghost use Rattle.type_contents.specs.Settled.{are_ready};
ghost use Rattle.type_contents.specs.Contents as contents;
ghost use Rattle.type_contents.specs.Views.{items_at, AreWithin, made_at, AreMadeWithin, AreSettled};

use crate::item_table::ItemTable;
use crate::numbers::{Numbers, made_formals, made_items};
use crate::parts::made_from;
use crate::schedule::{Links, are_all_found, links_of, next_ready_from};
use lotos_ast::types::TypeDef;
use spec_core::memory::Memory;
use std::alloc::Global;
use std::marker::Model;

/// What each of a list of types has.
#[derive(Drop)]
pub struct Contents {
    table: ItemTable,
    made: Vec<Option<Numbers>>,
}

impl Model for Contents {
    ghost use Rattle.std.specs.Prelude.{List, length, map};
    ghost use Rattle.type_contents.specs.Contents.{Content};
    ghost use Rattle.type_contents.specs.Views.{made_at, AreMadeWithin};

    ghost Value = { List Content };

    ghost view = { λ c. map (made_at c.table) c.made.items };

    ghost invariant = { λ c. AreMadeWithin (length c.table) c.made.items };
}

/// What one type has: numbers in a table of items.
#[derive(Clone, Copy)]
pub struct TypeContent<'c> {
    /// The items of all types.
    pub table: &'c ItemTable,
    /// All that it has, each once.
    pub items: &'c [usize],
    /// What is left open in it, each once.
    pub formals: &'c [usize],
}

impl Contents {
    /// What the type of this number has; nothing where there is no such type. It takes no memory.
    pub fn of_type(&self, number: usize) -> TypeContent<'_>
        ensures items { items_at result.table.now result.items.now ≡ (slice_index_or self.now number contents.no_content).items }
        ensures formals { items_at result.table.now result.formals.now ≡ (slice_index_or self.now number contents.no_content).formals }
        ensures within { AreWithin (length result.table.now) result.items.now × AreWithin (length result.table.now) result.formals.now }
    {
        TypeContent {
            table: &self.table,
            items: made_items(&self.made, number),
            formals: made_formals(&self.made, number),
        }
    }
}

// Nothing for each type.
fn nothing_made(alloc: Global, types: &[TypeDef]) -> Result<Vec<Option<Numbers>>, Memory>
    ensures { IfOk result (λ made. made.items ≡ map (λ _. None) types.now) }
{
    let mut made = Vec::new(alloc);
    for _definition in types {
        made.push(None)?;
    }
    Ok(made)
}

// Makes one type, from those that are made.
fn make_one(
    alloc: Global,
    types: &[TypeDef],
    linked: &[Links],
    table: &mut ItemTable,
    made: &mut Vec<Option<Numbers>>,
    number: usize,
) -> Result<(), Memory>
    requires linked { map (λ l. l.numbers.items) linked.now ≡ map (links types.now) types.now }
    requires within { AreMadeWithin (length table.old) made.old.items }
    requires length { length made.old.items ≡ length types.now }
    requires number { number < length types.now }
    ensures within { OnOk result (AreMadeWithin (length table.new) made.new.items) }
    ensures length { OnOk result (length made.new.items ≡ length types.now) }
    ensures settled { OnOk result ((n : ℕ) → are_ready made.old.items (slice_index_or (map (links types.now) types.now) number [])
        ≡ true → AreSettled types.now table.old made.old.items n → AreSettled types.now table.new made.new.items (suc n)) }
{
    let numbers = made_from(alloc, table, made, &types[number], &linked[number].numbers)?;
    made[number] = Some(numbers);
    Ok(())
}

// What types have of which each is made once, after those from which it is made, as far as there is such an order.
fn made_once(
    alloc: Global,
    types: &[TypeDef],
    linked: &[Links],
    table: &mut ItemTable,
) -> Result<Vec<Option<Numbers>>, Memory>
    requires { map (λ l. l.numbers.items) linked.now ≡ map (links types.now) types.now }
    ensures within { IfOk result (λ made. AreMadeWithin (length table.new) made.items) }
    ensures contents { IfOk result (λ made. list_all is_some made.items ≡ true → map (made_at table.new) made.items
        ≡ contents.contents types.now) }
{
    let mut made = nothing_made(alloc, types)?;
    let mut from = 0;
    for _made in 0..types.len() {
        match next_ready_from(&made, linked, from) {
            None => return Ok(made),
            Some(number) => {
                make_one(alloc, types, linked, table, &mut made, number)?;
                from = number;
            }
        }
    }
    Ok(made)
}

// What types have, each made from those of the round before.
fn next_round(
    alloc: Global,
    types: &[TypeDef],
    linked: &[Links],
    table: &mut ItemTable,
    made: &[Option<Numbers>],
) -> Result<Vec<Option<Numbers>>, Memory>
    requires linked { map (λ l. l.numbers.items) linked.now ≡ map (links types.now) types.now }
    requires within { AreMadeWithin (length table.old) made.now }
    ensures kept { take (length table.old) table.new ≡ table.old }
    ensures within { IfOk result (λ next. AreMadeWithin (length table.new) next.items) }
    ensures contents { IfOk result (λ next. map (made_at table.new) next.items
        ≡ map (contents.made_from types.now (map (made_at table.old) made.now)) types.now) }
{
    let mut next = Vec::new(alloc);
    for (i, definition) in types.iter().enumerate() {
        next.push(Some(made_from(alloc, table, made, definition, &linked[i].numbers)?))?;
    }
    Ok(next)
}

// What types have, by rounds.
fn made_by_rounds(
    alloc: Global,
    types: &[TypeDef],
    linked: &[Links],
    table: &mut ItemTable,
) -> Result<Vec<Option<Numbers>>, Memory>
    requires { map (λ l. l.numbers.items) linked.now ≡ map (links types.now) types.now }
    ensures within { IfOk result (λ made. AreMadeWithin (length table.new) made.items) }
    ensures contents { IfOk result (λ made. map (made_at table.new) made.items ≡ contents.contents types.now) }
{
    let mut made = nothing_made(alloc, types)?;
    for _round in 0..types.len() {
        made = next_round(alloc, types, linked, table, &made)?;
    }
    Ok(made)
}

/// What each type has. Each type is made once, unless one is made from itself.
pub fn contents_of(alloc: Global, types: &[TypeDef]) -> Result<Contents, Memory>
    ensures { IfOk result (λ c. c ≡ contents.contents types.now) }
{
    let mut table = ItemTable::new(alloc);
    let linked = links_of(alloc, types)?;
    let once = made_once(alloc, types, &linked, &mut table)?;
    if are_all_found(&once) {
        return Ok(Contents { table, made: once });
    }
    let made = made_by_rounds(alloc, types, &linked, &mut table)?;
    Ok(Contents { table, made })
}
