// Lists of arguments, one for each place.

ghost use Rattle.std.specs.Prelude.{◌≡◌, ◌≤◌, ◌++◌, ◌∷◌, ◌==◌, [], List, IfOk, OnOk, map, length, slice_index_or, if◌then◌else◌};
ghost use Rattle.spec_core.specs.Numbers.{sort_number};
ghost use Rattle.sort_overloads.specs.Listed.{Typed, two, of_sort, extended, argument_lists};
ghost use Rattle.sort_overloads.specs.Tables.{table_of, reading_of, list_of, picked, with_last};

use crate::table::{Pick, Reading, Table};
use spec_core::items::Sort;
use spec_core::memory::Memory;
use std::alloc::Global;

/// The first two lists with a reading of each of these sorts for the argument at its place.
pub fn first_lists(
    alloc: Global,
    sorts: &[Sort],
    arguments: &[Table],
) -> Result<Vec<Vec<Pick>>, Memory>
    ensures { IfOk result (λ lists. two (map (list_of (map table_of arguments.now)) lists.items)
        ≡ two (argument_lists ([] ∷ []) (map table_of arguments.now) (map sort_number sorts.now))) }
{
    let mut lists = Vec::new(alloc);
    if sorts.len() != arguments.len() {
        return Ok(lists);
    }
    lists.push(Vec::new(alloc))?;
    for (i, sort) in sorts.iter().enumerate() {
        let picks = picks_of_sort(alloc, i, arguments[i].readings(), *sort)?;
        lists = longer_lists(alloc, &lists, &picks)?;
    }
    Ok(lists)
}

// The readings of this sort of one argument.
fn picks_of_sort(
    alloc: Global,
    argument: usize,
    readings: &[Reading],
    sort: Sort,
) -> Result<Vec<Pick>, Memory>
    ensures { IfOk result (λ picks. (tables inner : List (List Typed)) →
        slice_index_or tables argument [] ≡ map (reading_of inner) readings.now →
        map (picked tables) picks.items ≡ of_sort sort.0 (map (reading_of inner) readings.now)) }
{
    let mut picks = Vec::new(alloc);
    for (i, reading) in readings.iter().enumerate() {
        let pick = Pick {
            argument,
            reading: i,
        };
        add_if(&mut picks, reading.sort.0 == sort.0, pick)?;
    }
    Ok(picks)
}

// Adds a reading, if it is wanted.
fn add_if(picks: &mut Vec<Pick>, wanted: bool, pick: Pick) -> Result<(), Memory>
    ensures { OnOk result (picks.new.items ≡ picks.old.items ++ (if wanted then pick ∷ [] else [])) }
{
    if wanted {
        picks.push(pick)?;
    }
    Ok(())
}

// The first two of these lists with one of these readings behind them.
fn longer_lists(
    alloc: Global,
    lists: &[Vec<Pick>],
    picks: &[Pick],
) -> Result<Vec<Vec<Pick>>, Memory>
    ensures { IfOk result (λ longer. (tables : List (List Typed)) → map (list_of tables) longer.items
        ≡ two (extended (map (list_of tables) lists.now) (map (picked tables) picks.now))) }
{
    let mut longer = Vec::new(alloc);
    for list in lists {
        add_longer(alloc, &mut longer, list, picks)?;
    }
    Ok(longer)
}

// Adds a list with each of these readings behind it, until there are two.
fn add_longer(
    alloc: Global,
    longer: &mut Vec<Vec<Pick>>,
    list: &[Pick],
    picks: &[Pick],
) -> Result<(), Memory>
    requires few { length longer.old.items ≤ 2 }
    ensures added { OnOk result ((tables : List (List Typed)) → map (list_of tables) longer.new.items
        ≡ two (map (list_of tables) longer.old.items
        ++ map (with_last (map (picked tables) list.now)) (map (picked tables) picks.now))) }
    ensures few { OnOk result (length longer.new.items ≤ 2) }
{
    for pick in picks {
        add_one(alloc, longer, list, pick)?;
    }
    Ok(())
}

// Adds a list with a reading behind it, unless there are two.
fn add_one(
    alloc: Global,
    longer: &mut Vec<Vec<Pick>>,
    list: &[Pick],
    pick: &Pick,
) -> Result<(), Memory>
    requires few { length longer.old.items ≤ 2 }
    ensures added { OnOk result ((tables : List (List Typed)) → map (list_of tables) longer.new.items
        ≡ two (map (list_of tables) longer.old.items ++ with_last (map (picked tables) list.now) (picked tables pick.now) ∷ [])) }
    ensures few { OnOk result (length longer.new.items ≤ 2) }
{
    if longer.len() == 2 {
        return Ok(());
    }
    longer.push(longer_list(alloc, list, *pick)?)?;
    Ok(())
}

// The list with a reading behind it.
fn longer_list(alloc: Global, list: &[Pick], pick: Pick) -> Result<Vec<Pick>, Memory>
    ensures { IfOk result (λ longer. longer.items ≡ list.now ++ pick ∷ []) }
{
    let mut longer = Vec::from_slice(alloc, list)?;
    longer.push(pick)?;
    Ok(longer)
}
