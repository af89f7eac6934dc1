// Ways between types.

ghost use Rattle.std.specs.Prelude.{ℕ, ◌≡◌, ◌+◌, ◌∷◌, [], ◌==◌, Some, None, if◌then◌else◌, IfOk, IsTrue, map, length, option_map};
ghost use Rattle.std.specs.List.{slice_index_or, range_with_len};
ghost use Rattle.type_cycles.specs.Cycles.{first_some, way_from, ways_to};

use crate::numbers::Numbers;
use spec_core::memory::Memory;
use std::alloc::Global;

// The way of a type, if it has one.
fn way_at(ways: &[Option<Numbers>], number: usize) -> Option<&Numbers>
    ensures { option_map (λ way. way.now) result ≡ slice_index_or ways.now number None }
{
    if number < ways.len() {
        ways[number].as_ref()
    } else {
        None
    }
}

// The way of the first of these types that has one.
fn first_way<'w>(ways: &'w [Option<Numbers>], used: &[usize]) -> Option<&'w Numbers>
    ensures { option_map (λ way. way.now) result ≡ first_some (λ j. slice_index_or ways.now j None) used.now }
{
    match used {
        [] => None,
        [first, others @ ..] => match way_at(ways, *first) {
            Some(way) => Some(way),
            None => first_way(ways, others),
        },
    }
}

// The way of a type by the first of those of which it is made that has one.
fn way_from(
    alloc: Global,
    ways: &[Option<Numbers>],
    number: usize,
    used: &[usize],
) -> Result<Option<Numbers>, Memory>
    ensures { IfOk result (λ way. way ≡ way_from ways.now number used.now) }
{
    match first_way(ways, used) {
        None => Ok(None),
        Some(way) => Ok(Some(way.behind(alloc, number)?)),
    }
}

// The way without a step.
fn no_step(alloc: Global, from: usize, to: usize) -> Option<Numbers>
    ensures { result ≡ (if from == to then Some [] else None) }
{
    if from == to {
        Some(Numbers::new(Vec::new(alloc)))
    } else {
        None
    }
}

/// Of each type the way to one type without a step.
pub fn first_ways(
    alloc: Global,
    links: &[Numbers],
    to: usize,
) -> Result<Vec<Option<Numbers>>, Memory>
    ensures { IfOk result (λ all. all.items ≡ ways_to links.now to 0) }
{
    let mut all = Vec::new(alloc);
    for from in 0..links.len() {
        all.push(no_step(alloc, from, to))?;
    }
    Ok(all)
}

/// Of each type the first way with one step more.
pub fn next_ways(
    alloc: Global,
    links: &[Numbers],
    ways: &[Option<Numbers>],
) -> Result<Vec<Option<Numbers>>, Memory>
    ensures { IfOk result (λ all. (to n : ℕ) → ways.now ≡ ways_to links.now to n → all.items ≡ ways_to links.now to (n + 1)) }
{
    let mut all = Vec::new(alloc);
    for (number, used) in links.iter().enumerate() {
        all.push(way_from(alloc, ways, number, used.as_slice())?)?;
    }
    Ok(all)
}

/// An equal way of a type, if it has one.
pub fn copied(
    alloc: Global,
    ways: &[Option<Numbers>],
    number: usize,
) -> Result<Option<Numbers>, Memory>
    ensures { IfOk result (λ way. way ≡ slice_index_or ways.now number None) }
{
    match way_at(ways, number) {
        None => Ok(None),
        Some(way) => Ok(Some(way.copy(alloc)?)),
    }
}

/// Whether no type has a way. It takes no memory.
pub fn are_none(ways: &[Option<Numbers>]) -> bool
    ensures { IsTrue result → (k : ℕ) → slice_index_or ways.now k None ≡ None }
{
    for way in ways {
        if way.is_some() {
            return false;
        }
    }
    true
}
