// What origins show by trees of rules.

ghost use Rattle.std.specs.Prelude.{IfOk, IfErr, map, option_map};
ghost use Rattle.spec_core.specs.Code.{relabelling_of};
ghost use Rattle.spec_core.specs.Ready.{IsReady};
ghost use Rattle.rule_model.specs.Derivations.{derivation_of};
ghost use Rattle.symbolic_rules.specs.MarkedTerms.{unmarked};
ghost use Rattle.node_values.specs.Stops.{Stops, Never};
ghost use Rattle.node_trees.specs.Origins.{meaning, relabelled_by, scoped, source_of};
ghost use Rattle.symbolic_rules.specs.Tables.{windows_in};
ghost use Rattle.symbolic_actions.specs.Models.{show_of};
ghost use Rattle.symbolic_actions.specs.Shows.{Shows};
ghost use Rattle.node_values.specs.Prepared.{program_in};
ghost use Rattle.node_verdict.specs.Asking.{TreeAsks};
ghost use Rattle.node_verdict.specs.Choosing.{ChoosesValues};
ghost use Rattle.node_verdict.specs.Judged.{Judged};

use crate::relabelled::judge_relabelled;
use node_trees::origin::Origin;
use node_values::Prepared;
use node_values::scope::known;
use node_values::stop::Stop;
use rule_model::rules::Rules;
use spec_core::items::Gate;
use spec_core::value::Value;
use spec_core::window::Window;
use std::alloc::Global;
use symbolic_actions::shown::Shown;

// What the behaviour with this number of the code, with values for its variables, shows under a relabelling; an empty one is none.
fn judge_source(
    alloc: Global,
    prepared: &Prepared,
    windows: &[Window],
    node: u32,
    values: &[(u32, Value)],
    pairs: &[(Gate, Gate)],
    rules: &Rules,
    budget: u64,
) -> Result<Option<Shown>, Stop>
    requires ready { IsReady (program_in prepared.now) }
    requires values { ChoosesValues (program_in prepared.now).theory (derivation_of rules.now) }
    ensures judged { Judged (program_in prepared.now) (windows_in windows.now) budget unmarked
        (relabelled_by (map relabelling_of pairs.now) (scoped (program_in prepared.now) node values.now)) (derivation_of rules.now) result }
{
    match known(alloc, values, Vec::new(alloc)) {
        Err(_) => Err(Stop::Memory),
        Ok(scope) => judge_relabelled(alloc, prepared, windows, &scope, pairs, node, rules, budget),
    }
}

/// What the behaviour that an origin stands for shows by a tree of rules, whose values may be marks: the kind of its action and the fields;
/// None where it may do nothing by the tree. A choice of a value and a `?` have a mark only where the window of the sort isn't complete. A
/// value is found with at most `budget` uses of equations; expressions and premises are asked from the root of the tree on and from the
/// left, and where one fails nothing more is asked. A stop names a term that the tree asks. It recurs as deep as the tree, and the terms,
/// are.
pub fn shown_by(
    alloc: Global,
    prepared: &Prepared,
    windows: &[Window],
    origin: &Origin,
    rules: &Rules,
    budget: u64,
) -> Result<Option<Shown>, Stop>
    requires ready { IsReady (program_in prepared.now) }
    requires values { ChoosesValues (program_in prepared.now).theory (derivation_of rules.now) }
    ensures shows { IfOk result (λ o. Shows (program_in prepared.now) (windows_in windows.now)
        (meaning (program_in prepared.now) (source_of origin.now)) (derivation_of rules.now) (option_map show_of o)) }
    ensures stop { IfErr result (Stops (program_in prepared.now).theory budget (TreeAsks (program_in prepared.now) (windows_in windows.now)
        unmarked (meaning (program_in prepared.now) (source_of origin.now)) (derivation_of rules.now)) Never) }
{
    judge_source(
        alloc,
        prepared,
        windows,
        origin.node,
        &origin.values,
        &origin.relabel,
        rules,
        budget,
    )
}
