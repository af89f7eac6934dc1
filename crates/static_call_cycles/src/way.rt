// Ways from one process to another.

ghost use Rattle.std.specs.Prelude.{◌≡◌, IfOk};
ghost use Rattle.static_call_cycles.specs.Unguarded.{way};

use spec_core::memory::Memory;
use std::alloc::Global;
use type_cycles::numbers::Numbers;
use type_cycles::ways::{are_none, copied, first_ways, next_ways};

/// The first of the shortest ways from one process to another: the processes on it without the last.
pub fn way(
    alloc: Global,
    links: &[Numbers],
    from: usize,
    to: usize,
) -> Result<Option<Numbers>, Memory>
    ensures { IfOk result (λ found. found ≡ way links.now from to) }
{
    let mut ways = first_ways(alloc, links, to)?;
    for _steps in 0..links.len() {
        let found = copied(alloc, &ways, from)?;
        if found.is_some() {
            return Ok(found);
        }
        if are_none(&ways) {
            return Ok(None);
        }
        ways = next_ways(alloc, links, &ways)?;
    }
    Ok(None)
}
