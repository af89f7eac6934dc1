// Which gaps stand first among what is sought of a tree.

ghost use Rattle.std.specs.Prelude.{◌≡◌, ◌++◌, IfOk, false, flat_map, map, true};
ghost use Rattle.spec_core.specs.Code.{synchronised_of};
ghost use Rattle.spec_core.specs.Theories.{Theory};
ghost use Rattle.symbolic_plans.specs.OpenPlans.{kind_in};
ghost use Rattle.candidate_laws.specs.Sought as kinds;
ghost use Rattle.candidate_laws.specs.Sought.{by_itself, with_another};
ghost use Rattle.node_trees.specs.Shapes.{beside, between, held_of, shape_of};
ghost use Rattle.candidate_composites.specs.Foremost as foremost;
ghost use Rattle.candidate_composites.specs.Foremost.{IsForemost, StandFirst, gaps_of};
ghost use Rattle.candidate_composites.specs.Known.{placed_at, plans_sought, sought_in, sought_plans};

use crate::joining::Joining;
use crate::known::is_some_kept;
use crate::sought::{Sought, sought_below};
use crate::step::Step;
use node_trees::branch::{Branch, Double};
use node_trees::node::Node;
use node_trees::origin::Gen;
use spec_core::code::GateSet;
use spec_core::memory::Memory;
use std::alloc::Global;
use symbolic_plans::composite::ActionKind;
use symbolic_plans::kind::is_alone;

/// The generations of the gaps that stand first among what is sought of a tree, one behind the other; and whether there is nothing else.
#[derive(Drop)]
pub struct Foremost {
    pub gaps: Vec<Gen>,
    pub alone: bool,
}

// Appends the gap of a node, if there is one; and whether there is nothing else.
fn of_node(node: &Node, sought: &Sought, gaps: &mut Vec<Gen>) -> Result<bool, Memory>
    ensures { IfOk result (λ alone. StandFirst alone gaps.new.items (gaps_of gaps.old.items ++
        flat_map (plans_sought (sought_in sought.now)) (placed_at (held_of node.now).generation (held_of node.now).work))) }
{
    match &node.work {
        None => {
            if sought.seeks_some() {
                gaps.push(node.generation)?;
            }
            Ok(true)
        }
        Some(expansion) => Ok(!is_some_kept(&expansion.composites, sought, Joining::Free)),
    }
}

// Whether a side of a parallel composition does each of these kinds alone.
fn are_alone(gates: &GateSet, kinds: &[ActionKind]) -> bool
    ensures { result ≡ foremost.are_alone (synchronised_of gates.now) (map kind_in kinds.now) }
{
    match kinds {
        [] => true,
        [first, rest @ ..] => is_alone(gates, *first) && are_alone(gates, rest),
    }
}

// Whether a parallel composition synchronises at every gate.
fn is_every(gates: &GateSet) -> bool
    ensures { result ≡ false → kinds.every_alone (synchronised_of gates.now) ≡ kinds.every_kind }
{
    match gates {
        GateSet::Every => true,
        GateSet::These(_) => false,
    }
}

// Whether the same is sought of a side of a parallel composition alone as of the whole.
fn is_same_alone(gates: &GateSet, sought: &Sought) -> bool
    ensures { result ≡ true → kinds.sought_below (by_itself (synchronised_of gates.now)) (sought_in sought.now) ≡ sought_in sought.now }
{
    match sought {
        Sought::Every => !is_every(gates),
        Sought::These(kinds) => are_alone(gates, kinds),
    }
}

// Appends those of two parts, one behind the other.
#[cycle(put_foremost)]
fn of_two(
    alloc: Global,
    left: &Branch,
    right: &Branch,
    sought: &Sought,
    limit: usize,
    gaps: &mut Vec<Gen>,
) -> Result<bool, Memory>
    ensures { IfOk result (λ alone. (theory : Theory) → StandFirst alone gaps.new.items (gaps_of gaps.old.items ++
        (sought_plans theory (shape_of left.now) (sought_in sought.now) ++ sought_plans theory (shape_of right.now) (sought_in sought.now)))) }
{
    let first = put_foremost(alloc, left, sought, limit, gaps)?;
    if !first || gaps.len() >= limit {
        return Ok(false);
    }
    put_foremost(alloc, right, sought, limit, gaps)
}

// Appends those of what the sides of a parallel composition do alone.
#[cycle(put_foremost)]
fn of_alone(
    alloc: Global,
    gates: &GateSet,
    left: &Branch,
    right: &Branch,
    sought: &Sought,
    limit: usize,
    gaps: &mut Vec<Gen>,
) -> Result<bool, Memory>
    ensures { IfOk result (λ alone. (theory : Theory) → StandFirst alone gaps.new.items (gaps_of gaps.old.items ++
        (sought_plans theory (shape_of left.now) (kinds.sought_below (by_itself (synchronised_of gates.now)) (sought_in sought.now)) ++
        sought_plans theory (shape_of right.now) (kinds.sought_below (by_itself (synchronised_of gates.now)) (sought_in sought.now))))) }
{
    if is_same_alone(gates, sought) {
        return of_two(alloc, left, right, sought, limit, gaps);
    }
    let below = sought_below(alloc, &Step::Alone(gates), sought)?;
    of_two(alloc, left, right, &below, limit, gaps)
}

// Appends those of what the left side of a parallel composition may do together with the right one.
#[cycle(put_foremost)]
fn of_left(
    alloc: Global,
    gates: &GateSet,
    left: &Branch,
    sought: &Sought,
    limit: usize,
    gaps: &mut Vec<Gen>,
) -> Result<bool, Memory>
    ensures { IfOk result (λ alone. (theory : Theory) → StandFirst alone gaps.new.items (gaps_of gaps.old.items ++
        sought_plans theory (shape_of left.now) (kinds.sought_below (with_another (synchronised_of gates.now)) (sought_in sought.now)))) }
{
    let below = sought_below(alloc, &Step::Together(gates), sought)?;
    put_foremost(alloc, left, &below, limit, gaps)
}

// Appends those of a parallel composition.
#[cycle(put_foremost)]
fn of_parallel(
    alloc: Global,
    gates: &GateSet,
    left: &Branch,
    right: &Branch,
    sought: &Sought,
    limit: usize,
    gaps: &mut Vec<Gen>,
) -> Result<bool, Memory>
    ensures { IfOk result (λ alone. (theory : Theory) → StandFirst alone gaps.new.items (gaps_of gaps.old.items ++ sought_plans theory
        (between (beside (synchronised_of gates.now)) (shape_of left.now) (shape_of right.now)) (sought_in sought.now))) }
{
    let first = of_alone(alloc, gates, left, right, sought, limit, gaps)?;
    if !first || gaps.len() >= limit {
        return Ok(false);
    }
    of_left(alloc, gates, left, sought, limit, gaps)
}

// Appends the gaps that stand first, as `foremost_of` says of so many, of which those are some that are there already; and whether there is
// nothing else.
#[cycle(put_foremost)]
fn put_foremost(
    alloc: Global,
    branch: &Branch,
    sought: &Sought,
    limit: usize,
    gaps: &mut Vec<Gen>,
) -> Result<bool, Memory>
    ensures foremost { IfOk result (λ alone. (theory : Theory) → StandFirst alone gaps.new.items
        (gaps_of gaps.old.items ++ sought_plans theory (shape_of branch.now) (sought_in sought.now))) }
{
    if !sought.seeks_some() {
        return Ok(true);
    }
    match branch {
        Branch::Leaf(node) => of_node(node, sought, gaps),
        Branch::Ended => Ok(true),
        Branch::Over(operator, part) => {
            let below = sought_below(alloc, &Step::Under(operator), sought)?;
            put_foremost(alloc, part, &below, limit, gaps)
        }
        Branch::Between(operator, left, right) => match operator {
            Double::Choice => of_two(alloc, left, right, sought, limit, gaps),
            Double::Disable => of_two(alloc, left, right, sought, limit, gaps),
            Double::Par(gates) => of_parallel(alloc, gates, left, right, sought, limit, gaps),
        },
    }
}

/// Which gaps stand first among the composites of a tree whose actions are sought, and the gaps from below whose steps such an action can
/// come: those before the first composite, or the first of them, `limit` at least, where there are as many. It makes no composite, goes no
/// further than to the first one, and recurs as deep as operators nest.
pub fn foremost_of(
    alloc: Global,
    branch: &Branch,
    sought: &Sought,
    limit: usize,
) -> Result<Foremost, Memory>
    ensures foremost { IfOk result (λ f. (theory : Theory) →
        IsForemost f (sought_plans theory (shape_of branch.now) (sought_in sought.now))) }
{
    let mut gaps = Vec::new(alloc);
    let alone = put_foremost(alloc, branch, sought, limit, &mut gaps)?;
    Ok(Foremost { gaps, alone })
}
