// The walk over the code, down to the first actions.

ghost use Rattle.std.specs.Prelude.{ℕ, List, ◌≡◌, ◌<◌, ◌∷◌, IfSome, IfNone, Some, map, IfOk, Contains};
ghost use Rattle.std.specs.List.{slice_get};
ghost use Rattle.spec_core.specs.Code.{Variable, process, variable_of, binding_of, node_of};
ghost use Rattle.spec_core.specs.Numbers.{gate_number};
ghost use Rattle.spec_core.specs.Lists.{Each};
ghost use Rattle.spec_core.specs.Ready.{IsReady, IsProcess, parts_of};
ghost use Rattle.spec_core.specs.Theories.{premise};
ghost use Rattle.spec_core.specs.Terms.{term_of};
ghost use Rattle.rule_model.specs.declared.rules.Slot.TheVariants.{Of};
ghost use Rattle.rule_model.specs.Behaviours.{call, value_choice, gate_choice, guarded, bound};
ghost use Rattle.rule_origins.specs.Parts.{behaviour_at, over_parts};
ghost use Rattle.symbolic_plans.specs.OpenPlans.{open_plan_of};
ghost use Rattle.node_values.specs.Scopes.{marks_of, marked_of};
ghost use Rattle.node_values.specs.Prepared.{program_in};
ghost use Rattle.expand.specs.Choosing.{AddsChoice, IsChoice};
ghost use Rattle.expand.specs.Outcomes.{Outcome, BelowOutcome};
ghost use Rattle.symbolic_rules.specs.Tables.{windows_in};
ghost use Rattle.sort_windows.specs.Found.{AreBySorts};

use crate::joining;
use crate::joining::{nothing, under_rule};
use crate::leaves::{action_at, exit_at, inner_at};
use crate::outcome::Expanded;
use node_values::Prepared;
use node_values::fields::{bind, bind_arguments};
use node_values::scope::{Given, copy_scope, with};
use node_values::stop::Stop;
use node_values::value::may_hold;
use rule_model::rules::Slot;
use rule_origins::code::construct_at;
use rule_origins::views::definition_at;
use rule_substitution::relabelling::pairs;
use spec_core::code::CodeNode;
use spec_core::items::{Gate, Sort};
use spec_core::memory::Memory;
use spec_core::term::Term;
use spec_core::value::Value;
use spec_core::window::Window;
use std::alloc::Global;
use symbolic_plans::scheme::Row;
use symbolic_rules::{is_complete, values_at};

// What is known for the variables, with this for one of them.
fn extended(
    alloc: Global,
    scope: &[(u32, Given)],
    x: u32,
    given: Given,
) -> Result<Vec<(u32, Given)>, Memory>
    ensures { IfOk result (λ all. all.items ≡ (x, given) ∷ scope.now) }
{
    let all = copy_scope(alloc, scope)?;
    with(all, x, given)
}

// With no more than so many calls in one another, the expansion of the body of a process; with none there is nothing in it.
#[cycle(walk)]
fn enter(
    alloc: Global,
    prepared: &Prepared,
    windows: &[Window],
    scope: &[(u32, Given)],
    body: u32,
    calls: usize,
    budget: u64,
) -> Result<Expanded, Stop>
    requires ready { IsReady (program_in prepared.now) }
    requires rows { (k : ℕ) × AreBySorts (program_in prepared.now).theory k windows.now }
    ensures comes { BelowOutcome (program_in prepared.now) (windows_in windows.now) calls budget
        (marks_of (program_in prepared.now).theory scope.now) (behaviour_at (program_in prepared.now) body) result }
{
    if calls == 0 {
        nothing(alloc, false)
    } else {
        expand_at(alloc, prepared, windows, scope, body, calls - 1, budget)
    }
}

/// The expansion of a call. It recurs as deep as constructs and calls nest, and as terms are.
#[cycle(walk)]
pub fn call_at(
    alloc: Global,
    prepared: &Prepared,
    windows: &[Window],
    scope: &[(u32, Given)],
    number: u32,
    gates: &[Gate],
    values: &[Term],
    calls: usize,
    budget: u64,
) -> Result<Expanded, Stop>
    requires ready { IsReady (program_in prepared.now) }
    requires rows { (k : ℕ) × AreBySorts (program_in prepared.now).theory k windows.now }
    ensures comes { Outcome (program_in prepared.now) (windows_in windows.now) calls budget
        (marks_of (program_in prepared.now).theory scope.now) (call number (map gate_number gates.now) (map term_of values.now)) result }
{
    match definition_at(prepared.checked, number) {
        None => nothing(alloc, true),
        Some((formal, vars, body)) => {
            match bind_arguments(
                alloc,
                prepared,
                scope,
                Vec::new(alloc),
                vars,
                values,
                budget,
            ) {
                Err(stop) => Err(stop),
                Ok(None) => nothing(alloc, true),
                Ok(Some(inner)) => match pairs(alloc, formal, gates) {
                    Err(_) => Err(Stop::Memory),
                    Ok(renamed) => {
                        let part = enter(alloc, prepared, windows, &inner, body, calls, budget);
                        let relabelled = joining::relabel(alloc, &renamed, part);
                        under_rule(alloc, &Row::Call, relabelled)
                    }
                },
            }
        }
    }
}

// What is there already, with the expansion of a body in which a slot chooses this for the variable.
#[cycle(walk)]
fn add_choice(
    alloc: Global,
    prepared: &Prepared,
    windows: &[Window],
    scope: &[(u32, Given)],
    x: u32,
    sort: Sort,
    slot: Slot,
    given: Given,
    body: u32,
    calls: usize,
    budget: u64,
    all: Expanded,
) -> Result<Expanded, Stop>
    requires ready { IsReady (program_in prepared.now) }
    requires rows { (k : ℕ) × AreBySorts (program_in prepared.now).theory k windows.now }
    requires choice { IsChoice (program_in prepared.now).theory (windows_in windows.now) sort.0 slot
        (marked_of (program_in prepared.now).theory x given) }
    ensures added { AddsChoice (program_in prepared.now) (windows_in windows.now) calls budget
        (marks_of (program_in prepared.now).theory scope.now) (record { number = x; sort = sort.0 })
        (behaviour_at (program_in prepared.now) body) (map open_plan_of all.composites.items) all.spread slot result }
{
    match extended(alloc, scope, x, given) {
        Err(_) => Err(Stop::Memory),
        Ok(inner) => {
            let part = expand_at(alloc, prepared, windows, &inner, body, calls, budget);
            joining::beside(alloc, slot, all, part)
        }
    }
}

// The same with a value of the sort's window.
#[cycle(walk)]
fn add_value(
    alloc: Global,
    prepared: &Prepared,
    windows: &[Window],
    scope: &[(u32, Given)],
    x: u32,
    sort: Sort,
    value: &Value,
    body: u32,
    calls: usize,
    budget: u64,
    all: Expanded,
) -> Result<Expanded, Stop>
    requires ready { IsReady (program_in prepared.now) }
    requires rows { (k : ℕ) × AreBySorts (program_in prepared.now).theory k windows.now }
    requires listed { Contains ((windows_in windows.now).values sort.0) value.now }
    ensures added { AddsChoice (program_in prepared.now) (windows_in windows.now) calls budget
        (marks_of (program_in prepared.now).theory scope.now) (record { number = x; sort = sort.0 })
        (behaviour_at (program_in prepared.now) body) (map open_plan_of all.composites.items) all.spread (Of value.now) result }
{
    match value.copy(alloc) {
        Err(_) => Err(Stop::Memory),
        Ok(first) => match value.copy(alloc) {
            Err(_) => Err(Stop::Memory),
            Ok(second) => {
                let slot = Slot::Of(first);
                let given = Given::Value(second);
                add_choice(
                    alloc, prepared, windows, scope, x, sort, slot, given, body, calls, budget, all,
                )
            }
        },
    }
}

// The expansion of a choice of a value.
#[cycle(walk)]
fn value_choice_at(
    alloc: Global,
    prepared: &Prepared,
    windows: &[Window],
    scope: &[(u32, Given)],
    x: u32,
    sort: Sort,
    body: u32,
    calls: usize,
    budget: u64,
) -> Result<Expanded, Stop>
    requires ready { IsReady (program_in prepared.now) }
    requires rows { (k : ℕ) × AreBySorts (program_in prepared.now).theory k windows.now }
    ensures comes { Outcome (program_in prepared.now) (windows_in windows.now) calls budget
        (marks_of (program_in prepared.now).theory scope.now)
        (value_choice (record { number = x; sort = sort.0 }) (behaviour_at (program_in prepared.now) body)) result }
{
    let mut all = match nothing(alloc, true) {
        Err(stop) => return Err(stop),
        Ok(begun) => begun,
    };
    let values = values_at(windows, sort);
    for value in values {
        match add_value(
            alloc, prepared, windows, scope, x, sort, value, body, calls, budget, all,
        ) {
            Err(stop) => return Err(stop),
            Ok(more) => all = more,
        }
    }
    if is_complete(windows, sort) {
        return Ok(all);
    }
    let given = Given::Mark(sort);
    add_choice(
        alloc,
        prepared,
        windows,
        scope,
        x,
        sort,
        Slot::Mark,
        given,
        body,
        calls,
        budget,
        all,
    )
}

// The expansion of a guarded behaviour.
#[cycle(walk)]
fn guard_at(
    alloc: Global,
    prepared: &Prepared,
    windows: &[Window],
    scope: &[(u32, Given)],
    left: &Term,
    right: &Term,
    body: u32,
    calls: usize,
    budget: u64,
) -> Result<Expanded, Stop>
    requires ready { IsReady (program_in prepared.now) }
    requires rows { (k : ℕ) × AreBySorts (program_in prepared.now).theory k windows.now }
    ensures comes { Outcome (program_in prepared.now) (windows_in windows.now) calls budget
        (marks_of (program_in prepared.now).theory scope.now)
        (guarded (premise (term_of left.now) (term_of right.now)) (behaviour_at (program_in prepared.now) body)) result }
{
    match may_hold(alloc, prepared, scope, left, right, budget) {
        Err(stop) => Err(stop),
        Ok(holds) => if holds {
            let part = expand_at(alloc, prepared, windows, scope, body, calls, budget);
            under_rule(alloc, &Row::Guard, part)
        } else {
            nothing(alloc, true)
        },
    }
}

// The expansion of a behaviour in which `let` binds variables.
#[cycle(walk)]
fn bound_at(
    alloc: Global,
    prepared: &Prepared,
    windows: &[Window],
    scope: &[(u32, Given)],
    bindings: &[(u32, Sort, Term)],
    body: u32,
    calls: usize,
    budget: u64,
) -> Result<Expanded, Stop>
    requires ready { IsReady (program_in prepared.now) }
    requires rows { (k : ℕ) × AreBySorts (program_in prepared.now).theory k windows.now }
    ensures comes { Outcome (program_in prepared.now) (windows_in windows.now) calls budget
        (marks_of (program_in prepared.now).theory scope.now)
        (bound (map binding_of bindings.now) (behaviour_at (program_in prepared.now) body)) result }
{
    match copy_scope(alloc, scope) {
        Err(_) => Err(Stop::Memory),
        Ok(copied) => match bind(alloc, prepared, scope, copied, bindings, budget) {
            Err(stop) => Err(stop),
            Ok(None) => nothing(alloc, true),
            Ok(Some(inner)) => {
                let part = expand_at(alloc, prepared, windows, &inner, body, calls, budget);
                under_rule(alloc, &Row::Let, part)
            }
        },
    }
}

// The expansion of a choice of a gate.
#[cycle(walk)]
fn gate_choice_at(
    alloc: Global,
    prepared: &Prepared,
    windows: &[Window],
    scope: &[(u32, Given)],
    gate: Gate,
    gates: &[Gate],
    body: u32,
    calls: usize,
    budget: u64,
) -> Result<Expanded, Stop>
    requires ready { IsReady (program_in prepared.now) }
    requires rows { (k : ℕ) × AreBySorts (program_in prepared.now).theory k windows.now }
    ensures comes { Outcome (program_in prepared.now) (windows_in windows.now) calls budget
        (marks_of (program_in prepared.now).theory scope.now)
        (gate_choice gate.0 (map gate_number gates.now) (behaviour_at (program_in prepared.now) body)) result }
{
    match gates {
        [] => nothing(alloc, true),
        [_, ..] => {
            let part = expand_at(alloc, prepared, windows, scope, body, calls, budget);
            joining::gate_choice(alloc, gate, gates, part)
        }
    }
}

// The expansion of a construct over parts with lower numbers than this.
#[cycle(walk)]
fn expand_construct(
    alloc: Global,
    prepared: &Prepared,
    windows: &[Window],
    scope: &[(u32, Given)],
    construct: &CodeNode,
    number: u32,
    calls: usize,
    budget: u64,
) -> Result<Expanded, Stop>
    requires ready { IsReady (program_in prepared.now) }
    requires rows { (k : ℕ) × AreBySorts (program_in prepared.now).theory k windows.now }
    requires below { (IsProcess (node_of construct.now) → ⊥) → Each (λ part. part < number) (parts_of (node_of construct.now)) }
    ensures comes { Outcome (program_in prepared.now) (windows_in windows.now) calls budget
        (marks_of (program_in prepared.now).theory scope.now)
        (over_parts (behaviour_at (program_in prepared.now)) (Some (node_of construct.now))) result }
{
    match construct {
        CodeNode::Stop => nothing(alloc, false),
        CodeNode::Process { .. } => nothing(alloc, false),
        CodeNode::Exit(fields) => exit_at(alloc, prepared, scope, fields, budget),
        CodeNode::Inner(_) => inner_at(alloc),
        CodeNode::Act {
            gate,
            fields,
            guard: _,
            rest: _,
        } => action_at(alloc, prepared, scope, *gate, fields, budget),
        CodeNode::Choice(left, right) => {
            let first = expand_at(alloc, prepared, windows, scope, left.0, calls, budget);
            let second = expand_at(alloc, prepared, windows, scope, right.0, calls, budget);
            joining::choice(alloc, first, second)
        }
        CodeNode::Guard(left, right, body) => guard_at(
            alloc, prepared, windows, scope, left, right, body.0, calls, budget,
        ),
        CodeNode::Let(bindings, body) => bound_at(
            alloc, prepared, windows, scope, bindings, body.0, calls, budget,
        ),
        CodeNode::Values(x, sort, body) => value_choice_at(
            alloc, prepared, windows, scope, *x, *sort, body.0, calls, budget,
        ),
        CodeNode::Gates(gate, gates, body) => gate_choice_at(
            alloc, prepared, windows, scope, *gate, gates, body.0, calls, budget,
        ),
        CodeNode::Par(gates, left, right) => {
            let first = expand_at(alloc, prepared, windows, scope, left.0, calls, budget);
            let second = expand_at(alloc, prepared, windows, scope, right.0, calls, budget);
            joining::parallel(alloc, &prepared.checked.algebra, gates, first, second)
        }
        CodeNode::Hide(gates, body) => {
            let part = expand_at(alloc, prepared, windows, scope, body.0, calls, budget);
            joining::hide(alloc, gates, part)
        }
        CodeNode::Enable(left, _, _) => {
            let part = expand_at(alloc, prepared, windows, scope, left.0, calls, budget);
            joining::enable(alloc, part)
        }
        CodeNode::Disable(left, right) => {
            let first = expand_at(alloc, prepared, windows, scope, left.0, calls, budget);
            let second = expand_at(alloc, prepared, windows, scope, right.0, calls, budget);
            joining::disable(alloc, first, second)
        }
        CodeNode::Call {
            process,
            gates,
            values,
        } => call_at(
            alloc, prepared, windows, scope, *process, gates, values, calls, budget,
        ),
        CodeNode::Relabel(pairs, body) => {
            let part = expand_at(alloc, prepared, windows, scope, body.0, calls, budget);
            joining::relabel(alloc, pairs, part)
        }
    }
}

/// The expansion of the behaviour with this number of the code, with what is known for its variables, and with no more than so many calls
/// in one another. It recurs as deep as constructs and calls nest, and as terms are.
#[cycle(walk)]
pub fn expand_at(
    alloc: Global,
    prepared: &Prepared,
    windows: &[Window],
    scope: &[(u32, Given)],
    node: u32,
    calls: usize,
    budget: u64,
) -> Result<Expanded, Stop>
    requires ready { IsReady (program_in prepared.now) }
    requires rows { (k : ℕ) × AreBySorts (program_in prepared.now).theory k windows.now }
    ensures comes { Outcome (program_in prepared.now) (windows_in windows.now) calls budget
        (marks_of (program_in prepared.now).theory scope.now) (behaviour_at (program_in prepared.now) node) result }
{
    match construct_at(prepared.checked, node) {
        None => nothing(alloc, false),
        Some(construct) => expand_construct(
            alloc, prepared, windows, scope, construct, node, calls, budget,
        ),
    }
}
