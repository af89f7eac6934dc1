// Whether a type may be made from itself.

ghost use Rattle.std.specs.Prelude.{◌≡◌, ◌<◌, [], false, IsTrue, None, IfOk, OnOk, length};
ghost use Rattle.type_cycles.specs.Closed.{Marks, IsReached};
ghost use Rattle.type_cycles.specs.Cycles.{cycle_of};

use crate::ends::is_marked;
use crate::numbers::Numbers;
use spec_core::memory::Memory;
use std::alloc::Global;

// Marks a type, unless it is marked, and then adds those of which it is made to what waits.
#[tactic(auto, using(crate::proofs::Reaching::as_many_still))]
fn reach(
    links: &[Numbers],
    marks: &mut Vec<bool>,
    waiting: &mut Vec<usize>,
    number: usize,
) -> Result<(), Memory>
    requires { length marks.old.items ≡ length links.now }
    ensures as_many { length marks.new.items ≡ length links.now }
    ensures reached { OnOk result (IsReached links.now number marks.old.items marks.new.items waiting.old.items waiting.new.items) }
{
    if number >= marks.len() {
        return Ok(());
    }
    if marks[number] {
        return Ok(());
    }
    marks[number] = true;
    waiting.extend_from_slice(links[number].as_slice())?;
    Ok(())
}

// Marks types, and gives those of which the ones that weren't marked are made.
fn reach_all(
    alloc: Global,
    links: &[Numbers],
    marks: &mut Vec<bool>,
    types: &[usize],
) -> Result<Vec<usize>, Memory>
    requires { length marks.old.items ≡ length links.now }
    ensures as_many { length marks.new.items ≡ length links.now }
    ensures marks { IfOk result (λ waiting. Marks links.now types.now marks.old.items marks.new.items waiting.items) }
{
    let mut waiting = Vec::new(alloc);
    for number in types {
        reach(links, marks, &mut waiting, *number)?;
    }
    Ok(waiting)
}

// Whether there are no types.
fn are_none(types: &[usize]) -> bool
    ensures { IsTrue result → types.now ≡ [] }
{
    match types {
        [] => true,
        [_, ..] => false,
    }
}

// Whether a type may be on a cycle that is made of others. The cost is that of what the type is made of, and of a mark for each type.
fn may_reach_on(alloc: Global, links: &[Numbers], from: usize) -> Result<bool, Memory>
    requires { from < length links.now }
    ensures { IfOk result (λ may. may ≡ false → cycle_of links.now from ≡ None) }
{
    let mut marks = vec![in alloc; false; links.len()]?;
    let mut waiting = Vec::from_slice(alloc, links[from].as_slice())?;
    for _round in 0..links.len() {
        if are_none(&waiting) {
            return Ok(is_marked(&marks, from));
        }
        waiting = reach_all(alloc, links, &mut marks, &waiting)?;
    }
    Ok(true)
}

/// Whether a type may be on a cycle: where the answer is no, it isn't made from itself. One that is made of none isn't, without memory; of
/// others the cost is that of what the type is made of, and of a mark for each type.
pub fn may_reach(alloc: Global, links: &[Numbers], from: usize) -> Result<bool, Memory>
    requires { from < length links.now }
    ensures { IfOk result (λ may. may ≡ false → cycle_of links.now from ≡ None) }
{
    if are_none(links[from].as_slice()) {
        Ok(false)
    } else {
        may_reach_on(alloc, links, from)
    }
}
