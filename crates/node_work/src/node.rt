// Expansions of nodes.

ghost use Rattle.std.specs.Prelude.{ℕ, IfOk, IfErr, map};
ghost use Rattle.spec_core.specs.Lists.{Each};
ghost use Rattle.spec_core.specs.Ready.{IsReady};
ghost use Rattle.symbolic_plans.specs.OpenPlans.{open_plan_of};
ghost use Rattle.sort_windows.specs.Found.{AreBySorts};
ghost use Rattle.node_trees.specs.Origins.{meaning, source_of};
ghost use Rattle.node_trees.specs.Rests.{way_of, IsWayOf};
ghost use Rattle.expand.specs.Expansions.{IsExpansion, IsStop};
ghost use Rattle.symbolic_rules.specs.Tables.{windows_in};
ghost use Rattle.node_values.specs.Prepared.{program_in};
ghost use Rattle.node_work.specs.Ways.{HasWays};

use crate::alternatives::ways_of_all;
use expand::expansion::expand_within;
use node_trees::expansion::Expansion;
use node_trees::origin::Origin;
use node_values::Prepared;
use node_values::stop::Stop;
use spec_core::window::Window;
use std::alloc::Global;

/// What the behaviour of an origin can take part in, where the values of the windows are chosen, and the ways in which it acts then, in
/// the order of the composites. It takes no lock. It recurs as deep as constructs, calls and terms nest.
pub fn expand_node(
    alloc: Global,
    prepared: &Prepared,
    windows: &[Window],
    origin: &Origin,
    budget: u64,
) -> Result<Expansion, Stop>
    requires ready { IsReady (program_in prepared.now) }
    requires rows { (k : ℕ) × AreBySorts (program_in prepared.now).theory k windows.now }
    ensures expansion { IfOk result (λ x. IsExpansion (program_in prepared.now) (windows_in windows.now)
        (meaning (program_in prepared.now) (source_of origin.now)) (map open_plan_of x.composites.items)) }
    ensures ways { IfOk result (λ x.
        Each (IsWayOf (program_in prepared.now) (meaning (program_in prepared.now) (source_of origin.now)))
        (map way_of x.alternatives.items)) }
    ensures complete { IfOk result (λ x.
        Each (HasWays (program_in prepared.now) (meaning (program_in prepared.now) (source_of origin.now))
        (map way_of x.alternatives.items)) (map open_plan_of x.composites.items)) }
    ensures stop { IfErr result (IsStop (program_in prepared.now) (windows_in windows.now)
        (meaning (program_in prepared.now) (source_of origin.now)) budget) }
{
    let composites = expand_within(alloc, prepared, windows, origin, budget)?;
    match ways_of_all(alloc, prepared, origin, &composites, budget) {
        Err(stop) => Err(stop),
        Ok(alternatives) => Ok(Expansion {
            composites,
            alternatives,
        }),
    }
}
