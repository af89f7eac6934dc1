// The refusal of processes that call themselves at once.

ghost use Rattle.std.specs.Prelude.{◌≡◌, ◌++◌, ◌<◌, ◌∷◌, [], IfOk, OnOk, map, length};
ghost use Rattle.std.specs.List.{flat_map, slice_get, slice_index_or};
ghost use Rattle.static_call_cycles.specs.Unguarded as unguarded;

use crate::call::Call;
use crate::way::way;
use lotos_ast::names::Names;
use lotos_ast::place::Place;
use lotos_ast::refusal::{Refusal, RefusalKind};
use spec_core::memory::Memory;
use spec_core::name::Name;
use std::alloc::Global;
use type_cycles::numbers::Numbers;
use type_cycles::reach::may_reach;

// The processes that calls call.
fn called(alloc: Global, calls: &[Call]) -> Result<Numbers, Memory>
    ensures { IfOk result (λ numbers. numbers ≡ unguarded.called calls.now) }
{
    let mut numbers = Vec::new(alloc);
    for call in calls {
        numbers.push(call.process)?;
    }
    Ok(Numbers::new(numbers))
}

// Those of each process.
fn links(alloc: Global, all: &[Vec<Call>]) -> Result<Vec<Numbers>, Memory>
    ensures { IfOk result (λ links. links.items ≡ unguarded.links (map (λ calls. calls.items) all.now)) }
{
    let mut links = Vec::new(alloc);
    for calls in all {
        links.push(called(alloc, calls)?)?;
    }
    Ok(links)
}

// Adds the name of the process of this number, if there is one.
fn add_name(
    alloc: Global,
    names: &[&Name],
    number: usize,
    all: &mut Vec<Name>,
) -> Result<(), Memory>
    ensures { OnOk result (all.new.items ≡ all.old.items ++ unguarded.name_of (slice_get (map (λ n. n.now) names.now) number)) }
{
    if number < names.len() {
        all.push(names[number].copy(alloc)?)?;
    }
    Ok(())
}

// The names of the processes of these numbers.
fn add_names(
    alloc: Global,
    names: &[&Name],
    numbers: &[usize],
    all: &mut Vec<Name>,
) -> Result<(), Memory>
    ensures { OnOk result (all.new.items ≡ all.old.items ++ unguarded.names_of (map (λ n. n.now) names.now) numbers.now) }
{
    for number in numbers {
        add_name(alloc, names, *number, all)?;
    }
    Ok(())
}

// The names of a process, and of those of these numbers.
fn names_of(
    alloc: Global,
    names: &[&Name],
    caller: usize,
    numbers: &[usize],
) -> Result<Names, Memory>
    ensures { IfOk result (λ all. all ≡ unguarded.names_of (map (λ n. n.now) names.now) (caller ∷ numbers.now)) }
{
    let mut all = Vec::new(alloc);
    add_name(alloc, names, caller, &mut all)?;
    add_names(alloc, names, numbers, &mut all)?;
    Ok(Names::new(all))
}

// Refuses a call from which a way leads back.
fn add_refused(
    alloc: Global,
    names: &[&Name],
    caller: usize,
    place: Place,
    found: &Option<Numbers>,
    refusals: &mut Vec<Refusal>,
) -> Result<(), Memory>
    ensures { OnOk result (refusals.new.items
        ≡ refusals.old.items ++ unguarded.refused_if (map (λ n. n.now) names.now) caller place found.now) }
{
    match found {
        None => Ok(()),
        Some(numbers) => {
            refusals.push(Refusal {
                kind: RefusalKind::Unguarded,
                place,
                names: names_of(alloc, names, caller, numbers.as_slice())?,
            })?;
            Ok(())
        }
    }
}

// Refuses the calls of a process from which a way leads back.
fn add_all_refused(
    alloc: Global,
    names: &[&Name],
    links: &[Numbers],
    caller: usize,
    calls: &[Call],
    refusals: &mut Vec<Refusal>,
) -> Result<(), Memory>
    ensures { OnOk result (refusals.new.items ≡ refusals.old.items
        ++ flat_map (unguarded.call_refusals (map (λ n. n.now) names.now) links.now caller) calls.now) }
{
    for call in calls {
        let found = way(alloc, links, call.process, caller)?;
        add_refused(alloc, names, caller, call.place, &found, refusals)?;
    }
    Ok(())
}

// The same. A process that isn't on a cycle isn't searched.
fn add_refusals_of(
    alloc: Global,
    names: &[&Name],
    links: &[Numbers],
    caller: usize,
    calls: &[Call],
    refusals: &mut Vec<Refusal>,
) -> Result<(), Memory>
    requires within { caller < length links.now }
    requires linked { slice_index_or links.now caller [] ≡ unguarded.called calls.now }
    ensures { OnOk result (refusals.new.items ≡ refusals.old.items
        ++ flat_map (unguarded.call_refusals (map (λ n. n.now) names.now) links.now caller) calls.now) }
{
    if may_reach(alloc, links, caller)? {
        add_all_refused(alloc, names, links, caller, calls, refusals)
    } else {
        Ok(())
    }
}

/// Refuses each call on a cycle of calls that are made at once (26 Unguarded), with the names of the processes on a shortest cycle through
/// it, the caller first. Given are the names of all processes, and the calls that each makes at once.
#[tactic(auto, using(crate::proofs::Cycles::refused_next, crate::proofs::Cycles::refused_all))]
pub fn add_unguarded(
    alloc: Global,
    names: &[&Name],
    all: &[Vec<Call>],
    refusals: &mut Vec<Refusal>,
) -> Result<(), Memory>
    ensures { OnOk result (refusals.new.items ≡ refusals.old.items
        ++ unguarded.unguarded_refusals (map (λ n. n.now) names.now) (map (λ calls. calls.items) all.now)) }
{
    let links = links(alloc, all)?;
    for (number, calls) in all.iter().enumerate() {
        add_refusals_of(alloc, names, &links, number, calls, refusals)?;
    }
    Ok(())
}
