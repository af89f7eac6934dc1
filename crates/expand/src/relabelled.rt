// The walk over the code under a relabelling.

ghost use Rattle.std.specs.Prelude.{ℕ, ◌≡◌, map};
ghost use Rattle.spec_core.specs.Code.{relabelling_of};
ghost use Rattle.spec_core.specs.Ready.{IsReady};
ghost use Rattle.rule_model.specs.Behaviours.{relabel};
ghost use Rattle.rule_model.specs.Substitution.{tidied};
ghost use Rattle.rule_origins.specs.Parts.{behaviour_at};
ghost use Rattle.node_values.specs.Scopes.{marks_of};
ghost use Rattle.sort_windows.specs.Found.{AreBySorts};
ghost use Rattle.node_trees.specs.Origins.{relabelled_by};
ghost use Rattle.node_values.specs.Prepared.{program_in};
ghost use Rattle.expand.specs.Outcomes.{Outcome};
ghost use Rattle.symbolic_rules.specs.Tables.{windows_in};

use crate::joining;
use crate::outcome::Expanded;
use crate::walk::{call_at, expand_at};
use node_values::Prepared;
use node_values::scope::Given;
use node_values::stop::Stop;
use rule_origins::tidying::joined;
use rule_origins::views;
use rule_substitution::relabelling::renamed_gates;
use spec_core::items::Gate;
use spec_core::window::Window;
use std::alloc::Global;

// The expansion of the behaviour with this number of the code under a relabelling, which stays an operator.
fn expand_under(
    alloc: Global,
    prepared: &Prepared,
    windows: &[Window],
    scope: &[(u32, Given)],
    pairs: &[(Gate, Gate)],
    node: u32,
    calls: usize,
    budget: u64,
) -> Result<Expanded, Stop>
    requires ready { IsReady (program_in prepared.now) }
    requires rows { (k : ℕ) × AreBySorts (program_in prepared.now).theory k windows.now }
    ensures comes { Outcome (program_in prepared.now) (windows_in windows.now) calls budget
        (marks_of (program_in prepared.now).theory scope.now)
        (relabel (map relabelling_of pairs.now) (behaviour_at (program_in prepared.now) node)) result }
{
    let part = expand_at(alloc, prepared, windows, scope, node, calls, budget);
    joining::relabel(alloc, pairs, part)
}

/// The expansion of the behaviour with this number of the code under a relabelling, tidied: two relabellings one over the other are one,
/// and a call is relabelled in its gates. It recurs as deep as constructs and calls nest, and as terms are.
pub fn expand_tidied(
    alloc: Global,
    prepared: &Prepared,
    windows: &[Window],
    scope: &[(u32, Given)],
    pairs: &[(Gate, Gate)],
    node: u32,
    calls: usize,
    budget: u64,
) -> Result<Expanded, Stop>
    requires ready { IsReady (program_in prepared.now) }
    requires rows { (k : ℕ) × AreBySorts (program_in prepared.now).theory k windows.now }
    ensures comes { Outcome (program_in prepared.now) (windows_in windows.now) calls budget
        (marks_of (program_in prepared.now).theory scope.now)
        (tidied (map relabelling_of pairs.now) (behaviour_at (program_in prepared.now) node)) result }
{
    match joined(alloc, prepared.checked, pairs, node) {
        Err(_) => Err(Stop::Memory),
        Ok(one) => match views::call_at(prepared.checked, one.node) {
            None => expand_under(
                alloc, prepared, windows, scope, &one.pairs, one.node, calls, budget,
            ),
            Some((process, gates, values)) => match renamed_gates(alloc, &one.pairs, gates) {
                Err(_) => Err(Stop::Memory),
                Ok(actual) => call_at(
                    alloc, prepared, windows, scope, process, &actual, values, calls, budget,
                ),
            },
        },
    }
}

/// The expansion of the behaviour with this number of the code under a relabelling; an empty one is none.
pub fn expand_relabelled(
    alloc: Global,
    prepared: &Prepared,
    windows: &[Window],
    scope: &[(u32, Given)],
    pairs: &[(Gate, Gate)],
    node: u32,
    calls: usize,
    budget: u64,
) -> Result<Expanded, Stop>
    requires ready { IsReady (program_in prepared.now) }
    requires rows { (k : ℕ) × AreBySorts (program_in prepared.now).theory k windows.now }
    ensures comes { Outcome (program_in prepared.now) (windows_in windows.now) calls budget
        (marks_of (program_in prepared.now).theory scope.now)
        (relabelled_by (map relabelling_of pairs.now) (behaviour_at (program_in prepared.now) node)) result }
{
    match pairs {
        [] => expand_at(alloc, prepared, windows, scope, node, calls, budget),
        [_, ..] => expand_tidied(alloc, prepared, windows, scope, pairs, node, calls, budget),
    }
}
