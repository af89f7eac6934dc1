// The first cycle.

ghost use Rattle.std.specs.Prelude.{◌≡◌, ◌<◌, IfOk, length};
ghost use Rattle.type_cycles.specs.Cycles.{cycle_of, first_cycle};
ghost use Rattle.type_cycles.specs.Ends.{MarksEnds};

use crate::ends::{ends, is_marked};
use crate::numbers::Numbers;
use crate::reach::may_reach;
use crate::ways::{are_none, copied, first_ways, next_ways};
use spec_core::memory::Memory;
use std::alloc::Global;

// The first of the shortest ways from a type back to itself.
fn cycle_of(alloc: Global, links: &[Numbers], number: usize) -> Result<Option<Numbers>, Memory>
    ensures { IfOk result (λ way. way ≡ cycle_of links.now number) }
{
    let mut ways = first_ways(alloc, links, number)?;
    for _steps in 0..links.len() {
        ways = next_ways(alloc, links, &ways)?;
        let found = copied(alloc, &ways, number)?;
        if found.is_some() {
            return Ok(found);
        }
        if are_none(&ways) {
            return Ok(None);
        }
    }
    Ok(None)
}

// The same. A type that is marked isn't searched, nor is one that isn't among those of which it is made.
fn searched(
    alloc: Global,
    links: &[Numbers],
    marks: &[bool],
    number: usize,
) -> Result<Option<Numbers>, Memory>
    requires marked { MarksEnds links.now marks.now }
    requires within { number < length links.now }
    ensures { IfOk result (λ way. way ≡ cycle_of links.now number) }
{
    if is_marked(marks, number) {
        return Ok(None);
    }
    if may_reach(alloc, links, number)? {
        cycle_of(alloc, links, number)
    } else {
        Ok(None)
    }
}

/// The types on the first cycle: of the first type that is made from itself, the first of the shortest ways back to it. It begins with
/// that type, and has each type once. Only types that are among those of which they are made are searched for ways.
pub fn first_cycle(alloc: Global, links: &[Numbers]) -> Result<Option<Numbers>, Memory>
    ensures { IfOk result (λ way. way ≡ first_cycle links.now) }
{
    let marks = ends(alloc, links)?;
    for number in 0..links.len() {
        let found = searched(alloc, links, &marks, number)?;
        if found.is_some() {
            return Ok(found);
        }
    }
    Ok(None)
}
