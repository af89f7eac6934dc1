// The ways of composites.

ghost use Rattle.std.specs.Prelude.{◌++◌, ◌∷◌, [], IfOk, IfErr, map};
ghost use Rattle.spec_core.specs.Code.{relabelling_of};
ghost use Rattle.spec_core.specs.Lists.{Each};
ghost use Rattle.spec_core.specs.Ready.{IsReady};
ghost use Rattle.rule_origins.specs.Parts.{behaviour_at};
ghost use Rattle.rule_origins.specs.Values.{assignment};
ghost use Rattle.node_values.specs.Stops.{Stops, Never};
ghost use Rattle.symbolic_plans.specs.OpenPlans.{open_plan_of};
ghost use Rattle.symbolic_reach.specs.Asking.{PlanAsks};
ghost use Rattle.node_trees.specs.Origins.{meaning, relabelled_by, source_of};
ghost use Rattle.node_trees.specs.Rests.{way_of, IsWayOf};
ghost use Rattle.node_values.specs.Prepared.{program_in};
ghost use Rattle.node_work.specs.Ways.{HasWays, PlansAsk, AddsWay};

use node_steps::walking::way_along;
use node_trees::expansion::Alternative;
use node_trees::origin::Origin;
use node_values::Prepared;
use node_values::stop::Stop;
use std::alloc::Global;
use symbolic_plans::composite::OpenComposite;

// The ways, and behind them that of one more composite, if it has one.
fn with_way(
    alloc: Global,
    prepared: &Prepared,
    origin: &Origin,
    composite: &OpenComposite,
    budget: u64,
    ways: Vec<Alternative>,
) -> Result<Vec<Alternative>, Stop>
    requires ready { IsReady (program_in prepared.now) }
    ensures added { IfOk result (λ all. AddsWay (program_in prepared.now) (meaning (program_in prepared.now) (source_of origin.now))
        (open_plan_of composite.now) (map way_of ways.items) (map way_of all.items)) }
    ensures stop { IfErr result (Stops (program_in prepared.now).theory budget
        (PlanAsks (program_in prepared.now) (open_plan_of composite.now).plan
        (assignment (program_in prepared.now).theory origin.now.values.items)
        (relabelled_by (map relabelling_of origin.now.relabel.items) (behaviour_at (program_in prepared.now) origin.now.node))) Never) }
{
    match way_along(alloc, prepared, origin, &composite.scheme, budget)? {
        None => Ok(ways),
        Some(way) => {
            let mut all = ways;
            all.push(way)?;
            Ok(all)
        }
    }
}

/// The ways of composites, in order; one by which the origin does nothing has none.
pub fn ways_of_all(
    alloc: Global,
    prepared: &Prepared,
    origin: &Origin,
    composites: &[OpenComposite],
    budget: u64,
) -> Result<Vec<Alternative>, Stop>
    requires ready { IsReady (program_in prepared.now) }
    ensures ways { IfOk result (λ all.
        Each (IsWayOf (program_in prepared.now) (meaning (program_in prepared.now) (source_of origin.now))) (map way_of all.items)) }
    ensures complete { IfOk result (λ all.
        Each (HasWays (program_in prepared.now) (meaning (program_in prepared.now) (source_of origin.now)) (map way_of all.items))
        (map open_plan_of composites.now)) }
    ensures stop { IfErr result (Stops (program_in prepared.now).theory budget
        (PlansAsk (program_in prepared.now) (assignment (program_in prepared.now).theory origin.now.values.items)
        (relabelled_by (map relabelling_of origin.now.relabel.items) (behaviour_at (program_in prepared.now) origin.now.node))
        (map open_plan_of composites.now)) Never) }
{
    let mut all = Vec::new(alloc);
    for composite in composites {
        match with_way(alloc, prepared, origin, composite, budget, all) {
            Err(stop) => return Err(stop),
            Ok(more) => all = more,
        }
    }
    Ok(all)
}
