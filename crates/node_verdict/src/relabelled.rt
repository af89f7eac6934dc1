// The walk along a tree of rules under a relabelling, tidied.

ghost use Rattle.std.specs.Prelude.{◌≡◌, map};
ghost use Rattle.spec_core.specs.Code.{relabelling_of};
ghost use Rattle.spec_core.specs.Numbers.{gate_number};
ghost use Rattle.spec_core.specs.Ready.{IsReady};
ghost use Rattle.spec_core.specs.Terms.{term_of};
ghost use Rattle.rule_model.specs.Behaviours.{call};
ghost use Rattle.rule_model.specs.Derivations.{derivation_of};
ghost use Rattle.rule_model.specs.Substitution.{tidied};
ghost use Rattle.rule_origins.specs.Parts.{behaviour_at};
ghost use Rattle.node_values.specs.Scopes.{marks_of};
ghost use Rattle.node_trees.specs.Origins.{relabelled_by};
ghost use Rattle.symbolic_rules.specs.Tables.{windows_in};
ghost use Rattle.node_values.specs.Prepared.{program_in};
ghost use Rattle.node_verdict.specs.Choosing.{ChoosesValues};
ghost use Rattle.node_verdict.specs.Judged.{Judged};

use crate::walking::{called, walk, walk_renamed};
use node_values::Prepared;
use node_values::scope::Given;
use node_values::stop::Stop;
use rule_model::rules::Rules;
use rule_origins::tidying::joined;
use rule_origins::views::call_at;
use rule_substitution::relabelling::renamed_gates;
use spec_core::items::Gate;
use spec_core::term::Term;
use spec_core::window::Window;
use std::alloc::Global;
use symbolic_actions::shown::Shown;

// What a call with these gates shows.
fn judge_call(
    alloc: Global,
    prepared: &Prepared,
    windows: &[Window],
    scope: &[(u32, Given)],
    process: u32,
    gates: &[Gate],
    terms: &[Term],
    rules: &Rules,
    budget: u64,
) -> Result<Option<Shown>, Stop>
    requires ready { IsReady (program_in prepared.now) }
    requires values { ChoosesValues (program_in prepared.now).theory (derivation_of rules.now) }
    ensures judged { Judged (program_in prepared.now) (windows_in windows.now) budget
        (marks_of (program_in prepared.now).theory scope.now) (call process (map gate_number gates.now) (map term_of terms.now))
        (derivation_of rules.now) result }
{
    match rules {
        Rules::Call(part) => called(
            alloc, prepared, windows, scope, process, gates, terms, part, budget,
        ),
        Rules::Pre(_)
        | Rules::Int
        | Rules::Exit(_)
        | Rules::Chl(_)
        | Rules::Chr(_)
        | Rules::Val(_, _)
        | Rules::Gate(_, _)
        | Rules::Guard(_)
        | Rules::Let(_)
        | Rules::Parl(_)
        | Rules::Parr(_)
        | Rules::Both(_, _)
        | Rules::Hide(_)
        | Rules::Pass(_)
        | Rules::Enstep(_)
        | Rules::Enend(_)
        | Rules::Disstep(_)
        | Rules::Disend(_)
        | Rules::Distake(_)
        | Rules::Rel(_) => Ok(None),
    }
}

/// What the behaviour with this number of the code shows under a relabelling, tidied: two relabellings one over the other are one, and a
/// call is relabelled in its gates. It recurs as deep as constructs, the tree, and terms are.
pub fn judge_tidied(
    alloc: Global,
    prepared: &Prepared,
    windows: &[Window],
    scope: &[(u32, Given)],
    pairs: &[(Gate, Gate)],
    node: u32,
    rules: &Rules,
    budget: u64,
) -> Result<Option<Shown>, Stop>
    requires ready { IsReady (program_in prepared.now) }
    requires values { ChoosesValues (program_in prepared.now).theory (derivation_of rules.now) }
    ensures judged { Judged (program_in prepared.now) (windows_in windows.now) budget
        (marks_of (program_in prepared.now).theory scope.now)
        (tidied (map relabelling_of pairs.now) (behaviour_at (program_in prepared.now) node)) (derivation_of rules.now) result }
{
    match joined(alloc, prepared.checked, pairs, node) {
        Err(_) => Err(Stop::Memory),
        Ok(one) => match call_at(prepared.checked, one.node) {
            None => walk_renamed(
                alloc, prepared, windows, scope, &one.pairs, one.node, rules, budget,
            ),
            Some((process, gates, values)) => match renamed_gates(alloc, &one.pairs, gates) {
                Err(_) => Err(Stop::Memory),
                Ok(actual) => judge_call(
                    alloc, prepared, windows, scope, process, &actual, values, rules, budget,
                ),
            },
        },
    }
}

/// What the behaviour with this number of the code shows under a relabelling; an empty one is none.
pub fn judge_relabelled(
    alloc: Global,
    prepared: &Prepared,
    windows: &[Window],
    scope: &[(u32, Given)],
    pairs: &[(Gate, Gate)],
    node: u32,
    rules: &Rules,
    budget: u64,
) -> Result<Option<Shown>, Stop>
    requires ready { IsReady (program_in prepared.now) }
    requires values { ChoosesValues (program_in prepared.now).theory (derivation_of rules.now) }
    ensures judged { Judged (program_in prepared.now) (windows_in windows.now) budget
        (marks_of (program_in prepared.now).theory scope.now)
        (relabelled_by (map relabelling_of pairs.now) (behaviour_at (program_in prepared.now) node)) (derivation_of rules.now) result }
{
    match pairs {
        [] => walk(alloc, prepared, windows, scope, node, rules, budget),
        [_, ..] => judge_tidied(alloc, prepared, windows, scope, pairs, node, rules, budget),
    }
}
