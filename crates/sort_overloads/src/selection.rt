// Readings of a sort that is wanted.

ghost use Rattle.std.specs.Prelude.{◌≡◌, ◌++◌, ◌∷◌, [], List, IfOk, OnOk, map, if◌then◌else◌};
ghost use Rattle.std.specs.List.{slice_get};
ghost use Rattle.sort_overloads.specs.Listed.{Typed, is_name_of, those};
ghost use Rattle.sort_overloads.specs.Tables.{table_of, reading_of, fits};

use crate::names::has_name;
use crate::table::{Reading, Table};
use spec_core::items::Sort;
use spec_core::memory::Memory;
use spec_core::name::Name;
use std::alloc::Global;

/// Which sorts are wanted: any, just one, or those of a name.
#[derive(Drop)]
pub enum Wanted<'a> {
    Any,
    Just(Sort),
    Named { sorts: &'a [Name], name: &'a str },
}

/// The table of those readings that are of a wanted sort.
pub fn selected(alloc: Global, wanted: &Wanted<'_>, table: Table) -> Result<Table, Memory>
    ensures { IfOk result (λ kept. table_of kept ≡ those (fits wanted.now) (table_of table)) }
{
    let (readings, arguments) = table.into_parts();
    let kept = selected_readings(alloc, wanted, readings)?;
    Ok(Table::new(kept, arguments))
}

// Those of the readings that are of a wanted sort.
fn selected_readings(
    alloc: Global,
    wanted: &Wanted<'_>,
    readings: Vec<Reading>,
) -> Result<Vec<Reading>, Memory>
    ensures { IfOk result (λ kept. (tables : List (List Typed)) →
        map (reading_of tables) kept.items ≡ those (fits wanted.now) (map (reading_of tables) readings.items)) }
{
    let mut kept = Vec::new(alloc);
    for reading in readings {
        keep_if(&mut kept, fits(wanted, reading.sort), reading)?;
    }
    Ok(kept)
}

// Adds a reading, if it fits.
fn keep_if(kept: &mut Vec<Reading>, fits: bool, reading: Reading) -> Result<(), Memory>
    ensures { OnOk result (kept.new.items ≡ kept.old.items ++ (if fits then reading ∷ [] else [])) }
{
    if fits {
        kept.push(reading)?;
    }
    Ok(())
}

// Whether the sort is wanted.
fn fits(wanted: &Wanted<'_>, sort: Sort) -> bool
    ensures { result ≡ fits wanted.now sort.0 }
{
    match wanted {
        Wanted::Any => true,
        Wanted::Just(only) => only.0 == sort.0,
        Wanted::Named { sorts, name } => is_named(sorts, sort, name),
    }
}

// Whether the sort of this number has the name.
fn is_named(sorts: &[Name], sort: Sort, name: &str) -> bool
    ensures { result ≡ is_name_of name.now (slice_get sorts.now sort.0) }
{
    let place = sort.0 as usize;
    if place < sorts.len() {
        has_name(&sorts[place], name)
    } else {
        false
    }
}
