// A table with those nodes alone of which something is still made.

ghost use Rattle.std.specs.Prelude.{ℕ, ◌≡◌, ◌≤◌, ◌<◌, IfOk, OnOk, length, map};
ghost use Rattle.spec_core.specs.Theories.{theory_of};
ghost use Rattle.value_nodes.specs.Nodes.{tree_at};
ghost use Rattle.rewriter.specs.Runs.{IsReady};
ghost use Rattle.rewriter.specs.Steps.{task_of};

use crate::step::Todo;
use crate::values::Values;
use spec_core::equation::DataSpec;
use spec_core::memory::Memory;
use std::alloc::Global;
use value_nodes::copies::Copies;
use value_nodes::node::Nodes;

/// A table of fewer nodes isn't worth a copy.
pub const FEWEST: usize = 1_048_576;

/// Leaves of the table's nodes those of which the steps and the values are made, once there are as many as the limit, and changes nothing
/// below it; the next limit is twice as many nodes as are left, and at least 2^20: there are no more nodes than that. So the table grows
/// with what is in use, and not with the number of uses.
pub fn tidy(
    alloc: Global,
    algebra: &DataSpec,
    nodes: &mut Nodes,
    todo: &mut Todo,
    values: &mut Values,
    limit: usize,
) -> Result<usize, Memory>
    requires ready { (uses : ℕ) × IsReady (theory_of algebra.now) nodes.old todo.old values.old uses }
    ensures ready { IfOk result (λ l.
        (uses : ℕ) →
        IsReady (theory_of algebra.now) nodes.old todo.old values.old uses →
        IsReady (theory_of algebra.now) nodes.new todo.new values.new uses) }
    ensures tasks { IfOk result (λ l.
        map (task_of (theory_of algebra.now) nodes.new) todo.new ≡ map (task_of (theory_of algebra.now) nodes.old) todo.old) }
    ensures values { IfOk result (λ l. map (tree_at nodes.new) values.new ≡ map (tree_at nodes.old) values.old) }
    ensures room { IfOk result (λ l. length nodes.new ≤ l) }
    ensures idle { IfOk result (λ l. length nodes.old < limit →
        (l ≡ limit) × (nodes.new ≡ nodes.old) × (todo.new ≡ todo.old) × (values.new ≡ values.old)) }
{
    if nodes.len() < limit {
        return Ok(limit);
    }
    compact(alloc, algebra, nodes, todo, values)?;
    let twice = nodes.len().saturating_mul(2);
    if twice < FEWEST {
        Ok(FEWEST)
    } else {
        Ok(twice)
    }
}

// Leaves of the table's nodes those of which the steps and the values are made.
fn compact(
    alloc: Global,
    algebra: &DataSpec,
    nodes: &mut Nodes,
    todo: &mut Todo,
    values: &mut Values,
) -> Result<(), Memory>
    requires ready { (uses : ℕ) × IsReady (theory_of algebra.now) nodes.old todo.old values.old uses }
    ensures ready { OnOk result
        ((uses : ℕ) →
        IsReady (theory_of algebra.now) nodes.old todo.old values.old uses →
        IsReady (theory_of algebra.now) nodes.new todo.new values.new uses) }
    ensures tasks { OnOk result
        (map (task_of (theory_of algebra.now) nodes.new) todo.new ≡ map (task_of (theory_of algebra.now) nodes.old) todo.old) }
    ensures values { OnOk result (map (tree_at nodes.new) values.new ≡ map (tree_at nodes.old) values.old) }
{
    let mut kept = Nodes::new(alloc);
    let mut copies = Copies::new(alloc, nodes)?;
    values.follow(alloc, nodes, &mut kept, &mut copies)?;
    todo.follow(alloc, nodes, &mut kept, &mut copies)?;
    *nodes = kept;
    Ok(())
}
