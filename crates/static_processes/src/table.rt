// All processes of a specification, in the order of the text.

ghost use Rattle.std.specs.Prelude.{◌≡◌, ◌++◌, ◌+◌, ◌∷◌, [], Some, None, IfOk, OnOk, map, length};
ghost use Rattle.static_constructs.specs.Written.{listed};
ghost use Rattle.static_processes.specs.Processes.{one_after_another, item_entries, process_entries, entries};
ghost use Rattle.static_processes.specs.Views.{entry_of, defined};

use crate::entry::Entry;
use lotos_ast::spec::{Process, Spec, WhereItem};
use spec_core::memory::Memory;
use std::alloc::Global;

// The items of a `where` part, if there is one.
fn items_in(items: &Option<Vec<WhereItem>>) -> &[WhereItem]
    ensures { result.now ≡ listed items.now }
{
    match items {
        None => &[],
        Some(items) => items,
    }
}

// Puts the processes of a `where` part behind those that are there.
#[cycle(processes)]
#[tactic(auto, using(crate::proofs::Numbered::items_all))]
fn put_items<'a>(
    alloc: Global,
    items: &'a [WhereItem],
    around: &[usize],
    table: &mut Vec<Entry<'a>>,
) -> Result<(), Memory>
    ensures { OnOk result (map entry_of table.new.items ≡ map entry_of table.old.items
        ++ one_after_another (map item_entries items.now) (length (map entry_of table.old.items)) around.now) }
{
    for item in items {
        put_item(alloc, item, around, table)?;
    }
    Ok(())
}

#[cycle(processes)]
fn put_item<'a>(
    alloc: Global,
    item: &'a WhereItem,
    around: &[usize],
    table: &mut Vec<Entry<'a>>,
) -> Result<(), Memory>
    ensures { OnOk result (map entry_of table.new.items ≡ map entry_of table.old.items
        ++ item_entries item.now (length (map entry_of table.old.items)) around.now) }
{
    match item {
        WhereItem::Types(_) => Ok(()),
        WhereItem::Definition(process) => put_process(alloc, process, around, table),
    }
}

// Puts a process, and those of its `where` part.
#[cycle(processes)]
fn put_process<'a>(
    alloc: Global,
    process: &'a Process,
    around: &[usize],
    table: &mut Vec<Entry<'a>>,
) -> Result<(), Memory>
    ensures { OnOk result (map entry_of table.new.items ≡ map entry_of table.old.items
        ++ process_entries process.now (length (map entry_of table.old.items)) around.now) }
{
    let mut inner = Vec::new(alloc);
    inner.push(table.len())?;
    inner.extend_from_slice(around)?;
    put_entry(alloc, process, around, table)?;
    put_items(alloc, items_in(&process.items), &inner, table)
}

/// The processes of a specification, in the order of the text.
pub fn processes<'a>(alloc: Global, spec: &'a Spec) -> Result<Vec<Entry<'a>>, Memory>
    ensures { IfOk result (λ table. map entry_of table.items ≡ entries spec.now) }
{
    let mut table = Vec::new(alloc);
    put_items(alloc, items_in(&spec.items), &[], &mut table)?;
    Ok(table)
}

// Puts one process.
fn put_entry<'a>(
    alloc: Global,
    process: &'a Process,
    around: &[usize],
    table: &mut Vec<Entry<'a>>,
) -> Result<(), Memory>
    ensures { OnOk result (map entry_of table.new.items ≡ map entry_of table.old.items
        ++ record { process = defined process.now; around = around.now } ∷ []) }
{
    let around = Vec::from_slice(alloc, around)?;
    table.push(Entry { process, around })?;
    Ok(())
}
