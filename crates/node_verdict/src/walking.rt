// The walk along a tree of rules.

ghost use Rattle.std.specs.Prelude.{◌≡◌, ◌∷◌, IfOk, map};
ghost use Rattle.spec_core.specs.Code.{relabelling_of};
ghost use Rattle.spec_core.specs.Numbers.{gate_number};
ghost use Rattle.spec_core.specs.Ready.{IsReady};
ghost use Rattle.spec_core.specs.Terms.{term_of};
ghost use Rattle.rule_model.specs.Behaviours.{call, relabel};
ghost use Rattle.rule_model.specs.Derivations.{derivation_of, chl, chr, val, gate, guard, letting, parl, parr, both, hiding, pass, enstep};
ghost use Rattle.rule_model.specs.Derivations.{enend, disstep, disend, distake, calling, rel};
ghost use Rattle.rule_origins.specs.Parts.{behaviour_at};
ghost use Rattle.node_values.specs.Scopes.{marks_of};
ghost use Rattle.symbolic_rules.specs.Tables.{windows_in};
ghost use Rattle.node_values.specs.Prepared.{program_in};
ghost use Rattle.node_verdict.specs.Choosing.{ChoosesValue, ChoosesValues};
ghost use Rattle.node_verdict.specs.Judged.{Judged};

use crate::choosing::{chosen, lies_within};
use crate::leaves::{acts, acts_inside, terminates};
use crate::making;
use node_values::Prepared;
use node_values::fields::{bind, bind_arguments};
use node_values::scope::{Given, copy_scope, with};
use node_values::stop::Stop;
use node_values::value::may_hold;
use rule_code::{gate_at, renaming};
use rule_model::rules::{Rules, Slot};
use rule_origins::views::{
    bound_at, call_at, choice_at, definition_at, disable_at, enable_at, gate_choice_at, guarded_at,
    hide_at, parallel_at, relabel_at, value_choice_at,
};
use rule_substitution::relabelling::pairs;
use spec_core::items::Gate;
use spec_core::memory::Memory;
use spec_core::term::Term;
use spec_core::window::Window;
use std::alloc::Global;
use symbolic_actions::over;
use symbolic_actions::shown::Shown;

// What is known for the variables, with this for one of them.
fn extended(
    alloc: Global,
    scope: &[(u32, Given)],
    x: u32,
    given: Given,
) -> Result<Vec<(u32, Given)>, Memory>
    ensures { IfOk result (λ all. all.items ≡ (x, given) ∷ scope.now) }
{
    let all = copy_scope(alloc, scope)?;
    with(all, x, given)
}

// The left side of a choice acts.
#[cycle(walk)]
fn left_chosen(
    alloc: Global,
    prepared: &Prepared,
    windows: &[Window],
    scope: &[(u32, Given)],
    node: u32,
    part: &Rules,
    budget: u64,
) -> Result<Option<Shown>, Stop>
    requires ready { IsReady (program_in prepared.now) }
    requires values { ChoosesValues (program_in prepared.now).theory (derivation_of part.now) }
    ensures judged { Judged (program_in prepared.now) (windows_in windows.now) budget
        (marks_of (program_in prepared.now).theory scope.now) (behaviour_at (program_in prepared.now) node)
        (chl (derivation_of part.now)) result }
{
    match choice_at(prepared.checked, node) {
        None => Ok(None),
        Some((left, _)) => walk(alloc, prepared, windows, scope, left, part, budget),
    }
}

// The right side of a choice acts.
#[cycle(walk)]
fn right_chosen(
    alloc: Global,
    prepared: &Prepared,
    windows: &[Window],
    scope: &[(u32, Given)],
    node: u32,
    part: &Rules,
    budget: u64,
) -> Result<Option<Shown>, Stop>
    requires ready { IsReady (program_in prepared.now) }
    requires values { ChoosesValues (program_in prepared.now).theory (derivation_of part.now) }
    ensures judged { Judged (program_in prepared.now) (windows_in windows.now) budget
        (marks_of (program_in prepared.now).theory scope.now) (behaviour_at (program_in prepared.now) node)
        (chr (derivation_of part.now)) result }
{
    match choice_at(prepared.checked, node) {
        None => Ok(None),
        Some((_, right)) => walk(alloc, prepared, windows, scope, right, part, budget),
    }
}

// The body of a choice of a value acts, with the value.
#[cycle(walk)]
fn value_chosen(
    alloc: Global,
    prepared: &Prepared,
    windows: &[Window],
    scope: &[(u32, Given)],
    node: u32,
    slot: &Slot,
    part: &Rules,
    budget: u64,
) -> Result<Option<Shown>, Stop>
    requires ready { IsReady (program_in prepared.now) }
    requires value { ChoosesValue (program_in prepared.now).theory slot.now }
    requires values { ChoosesValues (program_in prepared.now).theory (derivation_of part.now) }
    ensures judged { Judged (program_in prepared.now) (windows_in windows.now) budget
        (marks_of (program_in prepared.now).theory scope.now) (behaviour_at (program_in prepared.now) node)
        (val slot.now (derivation_of part.now)) result }
{
    match value_choice_at(prepared.checked, node) {
        None => Ok(None),
        Some((x, sort, body)) => match chosen(alloc, prepared.checked, windows, slot, sort)? {
            None => Ok(None),
            Some(given) => {
                if !lies_within(&prepared.checked.algebra, windows, &given) {
                    return Ok(None);
                }
                let inner = extended(alloc, scope, x, given)?;
                walk(alloc, prepared, windows, &inner, body, part, budget)
            }
        },
    }
}

// The body of a choice of a gate acts, with the gate at this place.
#[cycle(walk)]
fn gate_chosen(
    alloc: Global,
    prepared: &Prepared,
    windows: &[Window],
    scope: &[(u32, Given)],
    node: u32,
    place: u32,
    part: &Rules,
    budget: u64,
) -> Result<Option<Shown>, Stop>
    requires ready { IsReady (program_in prepared.now) }
    requires values { ChoosesValues (program_in prepared.now).theory (derivation_of part.now) }
    ensures judged { Judged (program_in prepared.now) (windows_in windows.now) budget
        (marks_of (program_in prepared.now).theory scope.now) (behaviour_at (program_in prepared.now) node)
        (gate place (derivation_of part.now)) result }
{
    match gate_choice_at(prepared.checked, node) {
        None => Ok(None),
        Some((from, gates, body)) => match gate_at(gates, place) {
            None => Ok(None),
            Some(to) => {
                let renamed = renaming(alloc, from, to)?;
                walk_renamed(
                    alloc, prepared, windows, scope, &renamed, body, part, budget,
                )
            }
        },
    }
}

// The body of a guarded behaviour acts.
#[cycle(walk)]
fn guarded(
    alloc: Global,
    prepared: &Prepared,
    windows: &[Window],
    scope: &[(u32, Given)],
    node: u32,
    part: &Rules,
    budget: u64,
) -> Result<Option<Shown>, Stop>
    requires ready { IsReady (program_in prepared.now) }
    requires values { ChoosesValues (program_in prepared.now).theory (derivation_of part.now) }
    ensures judged { Judged (program_in prepared.now) (windows_in windows.now) budget
        (marks_of (program_in prepared.now).theory scope.now) (behaviour_at (program_in prepared.now) node)
        (guard (derivation_of part.now)) result }
{
    match guarded_at(prepared.checked, node) {
        None => Ok(None),
        Some((left, right, body)) => {
            if may_hold(alloc, prepared, scope, left, right, budget)? {
                walk(alloc, prepared, windows, scope, body, part, budget)
            } else {
                Ok(None)
            }
        }
    }
}

// The body of a `let` acts.
#[cycle(walk)]
fn bound(
    alloc: Global,
    prepared: &Prepared,
    windows: &[Window],
    scope: &[(u32, Given)],
    node: u32,
    part: &Rules,
    budget: u64,
) -> Result<Option<Shown>, Stop>
    requires ready { IsReady (program_in prepared.now) }
    requires values { ChoosesValues (program_in prepared.now).theory (derivation_of part.now) }
    ensures judged { Judged (program_in prepared.now) (windows_in windows.now) budget
        (marks_of (program_in prepared.now).theory scope.now) (behaviour_at (program_in prepared.now) node)
        (letting (derivation_of part.now)) result }
{
    match bound_at(prepared.checked, node) {
        None => Ok(None),
        Some((bindings, body)) => {
            let copied = copy_scope(alloc, scope)?;
            match bind(alloc, prepared, scope, copied, bindings, budget)? {
                None => Ok(None),
                Some(inner) => walk(alloc, prepared, windows, &inner, body, part, budget),
            }
        }
    }
}

// The left side of a parallel composition acts alone.
#[cycle(walk)]
fn left_alone(
    alloc: Global,
    prepared: &Prepared,
    windows: &[Window],
    scope: &[(u32, Given)],
    node: u32,
    part: &Rules,
    budget: u64,
) -> Result<Option<Shown>, Stop>
    requires ready { IsReady (program_in prepared.now) }
    requires values { ChoosesValues (program_in prepared.now).theory (derivation_of part.now) }
    ensures judged { Judged (program_in prepared.now) (windows_in windows.now) budget
        (marks_of (program_in prepared.now).theory scope.now) (behaviour_at (program_in prepared.now) node)
        (parl (derivation_of part.now)) result }
{
    match parallel_at(prepared.checked, node) {
        None => Ok(None),
        Some((gates, left, _)) => {
            let shown = walk(alloc, prepared, windows, scope, left, part, budget);
            making::alone(gates, shown)
        }
    }
}

// The right side of a parallel composition acts alone.
#[cycle(walk)]
fn right_alone(
    alloc: Global,
    prepared: &Prepared,
    windows: &[Window],
    scope: &[(u32, Given)],
    node: u32,
    part: &Rules,
    budget: u64,
) -> Result<Option<Shown>, Stop>
    requires ready { IsReady (program_in prepared.now) }
    requires values { ChoosesValues (program_in prepared.now).theory (derivation_of part.now) }
    ensures judged { Judged (program_in prepared.now) (windows_in windows.now) budget
        (marks_of (program_in prepared.now).theory scope.now) (behaviour_at (program_in prepared.now) node)
        (parr (derivation_of part.now)) result }
{
    match parallel_at(prepared.checked, node) {
        None => Ok(None),
        Some((gates, _, right)) => {
            let shown = walk(alloc, prepared, windows, scope, right, part, budget);
            making::alone(gates, shown)
        }
    }
}

// Both sides of a parallel composition act together.
#[cycle(walk)]
fn together(
    alloc: Global,
    prepared: &Prepared,
    windows: &[Window],
    scope: &[(u32, Given)],
    node: u32,
    first: &Rules,
    second: &Rules,
    budget: u64,
) -> Result<Option<Shown>, Stop>
    requires ready { IsReady (program_in prepared.now) }
    requires values { ChoosesValues (program_in prepared.now).theory (both (derivation_of first.now) (derivation_of second.now)) }
    ensures judged { Judged (program_in prepared.now) (windows_in windows.now) budget
        (marks_of (program_in prepared.now).theory scope.now) (behaviour_at (program_in prepared.now) node)
        (both (derivation_of first.now) (derivation_of second.now)) result }
{
    match parallel_at(prepared.checked, node) {
        None => Ok(None),
        Some((gates, left, right)) => {
            match walk(alloc, prepared, windows, scope, left, first, budget)? {
                None => Ok(None),
                Some(one) => match walk(alloc, prepared, windows, scope, right, second, budget)? {
                    None => Ok(None),
                    Some(other) => Ok(over::both(
                        alloc,
                        &prepared.checked.algebra,
                        gates,
                        &one,
                        &other,
                    )?),
                },
            }
        }
    }
}

// The body of a hiding acts at a hidden gate.
#[cycle(walk)]
fn hidden(
    alloc: Global,
    prepared: &Prepared,
    windows: &[Window],
    scope: &[(u32, Given)],
    node: u32,
    part: &Rules,
    budget: u64,
) -> Result<Option<Shown>, Stop>
    requires ready { IsReady (program_in prepared.now) }
    requires values { ChoosesValues (program_in prepared.now).theory (derivation_of part.now) }
    ensures judged { Judged (program_in prepared.now) (windows_in windows.now) budget
        (marks_of (program_in prepared.now).theory scope.now) (behaviour_at (program_in prepared.now) node)
        (hiding (derivation_of part.now)) result }
{
    match hide_at(prepared.checked, node) {
        None => Ok(None),
        Some((gates, body)) => {
            let shown = walk(alloc, prepared, windows, scope, body, part, budget);
            making::hidden(alloc, &prepared.checked.algebra, windows, gates, shown)
        }
    }
}

// The body of a hiding does anything else.
#[cycle(walk)]
fn passed(
    alloc: Global,
    prepared: &Prepared,
    windows: &[Window],
    scope: &[(u32, Given)],
    node: u32,
    part: &Rules,
    budget: u64,
) -> Result<Option<Shown>, Stop>
    requires ready { IsReady (program_in prepared.now) }
    requires values { ChoosesValues (program_in prepared.now).theory (derivation_of part.now) }
    ensures judged { Judged (program_in prepared.now) (windows_in windows.now) budget
        (marks_of (program_in prepared.now).theory scope.now) (behaviour_at (program_in prepared.now) node)
        (pass (derivation_of part.now)) result }
{
    match hide_at(prepared.checked, node) {
        None => Ok(None),
        Some((gates, body)) => {
            let shown = walk(alloc, prepared, windows, scope, body, part, budget);
            making::seen(gates, shown)
        }
    }
}

// The left side of an enabling goes on.
#[cycle(walk)]
fn before_end(
    alloc: Global,
    prepared: &Prepared,
    windows: &[Window],
    scope: &[(u32, Given)],
    node: u32,
    part: &Rules,
    budget: u64,
) -> Result<Option<Shown>, Stop>
    requires ready { IsReady (program_in prepared.now) }
    requires values { ChoosesValues (program_in prepared.now).theory (derivation_of part.now) }
    ensures judged { Judged (program_in prepared.now) (windows_in windows.now) budget
        (marks_of (program_in prepared.now).theory scope.now) (behaviour_at (program_in prepared.now) node)
        (enstep (derivation_of part.now)) result }
{
    match enable_at(prepared.checked, node) {
        None => Ok(None),
        Some((left, _, _)) => {
            let shown = walk(alloc, prepared, windows, scope, left, part, budget);
            making::going_on(shown)
        }
    }
}

// The left side of an enabling terminates.
#[cycle(walk)]
fn handed_on(
    alloc: Global,
    prepared: &Prepared,
    windows: &[Window],
    scope: &[(u32, Given)],
    node: u32,
    part: &Rules,
    budget: u64,
) -> Result<Option<Shown>, Stop>
    requires ready { IsReady (program_in prepared.now) }
    requires values { ChoosesValues (program_in prepared.now).theory (derivation_of part.now) }
    ensures judged { Judged (program_in prepared.now) (windows_in windows.now) budget
        (marks_of (program_in prepared.now).theory scope.now) (behaviour_at (program_in prepared.now) node)
        (enend (derivation_of part.now)) result }
{
    match enable_at(prepared.checked, node) {
        None => Ok(None),
        Some((left, vars, _)) => {
            let shown = walk(alloc, prepared, windows, scope, left, part, budget);
            making::handed(alloc, &prepared.checked.algebra, windows, vars, shown)
        }
    }
}

// The left side of a disabling goes on.
#[cycle(walk)]
fn undisabled(
    alloc: Global,
    prepared: &Prepared,
    windows: &[Window],
    scope: &[(u32, Given)],
    node: u32,
    part: &Rules,
    budget: u64,
) -> Result<Option<Shown>, Stop>
    requires ready { IsReady (program_in prepared.now) }
    requires values { ChoosesValues (program_in prepared.now).theory (derivation_of part.now) }
    ensures judged { Judged (program_in prepared.now) (windows_in windows.now) budget
        (marks_of (program_in prepared.now).theory scope.now) (behaviour_at (program_in prepared.now) node)
        (disstep (derivation_of part.now)) result }
{
    match disable_at(prepared.checked, node) {
        None => Ok(None),
        Some((left, _)) => {
            let shown = walk(alloc, prepared, windows, scope, left, part, budget);
            making::going_on(shown)
        }
    }
}

// The left side of a disabling terminates.
#[cycle(walk)]
fn ended(
    alloc: Global,
    prepared: &Prepared,
    windows: &[Window],
    scope: &[(u32, Given)],
    node: u32,
    part: &Rules,
    budget: u64,
) -> Result<Option<Shown>, Stop>
    requires ready { IsReady (program_in prepared.now) }
    requires values { ChoosesValues (program_in prepared.now).theory (derivation_of part.now) }
    ensures judged { Judged (program_in prepared.now) (windows_in windows.now) budget
        (marks_of (program_in prepared.now).theory scope.now) (behaviour_at (program_in prepared.now) node)
        (disend (derivation_of part.now)) result }
{
    match disable_at(prepared.checked, node) {
        None => Ok(None),
        Some((left, _)) => {
            let shown = walk(alloc, prepared, windows, scope, left, part, budget);
            making::terminated(shown)
        }
    }
}

// The right side of a disabling takes over.
#[cycle(walk)]
fn disabling(
    alloc: Global,
    prepared: &Prepared,
    windows: &[Window],
    scope: &[(u32, Given)],
    node: u32,
    part: &Rules,
    budget: u64,
) -> Result<Option<Shown>, Stop>
    requires ready { IsReady (program_in prepared.now) }
    requires values { ChoosesValues (program_in prepared.now).theory (derivation_of part.now) }
    ensures judged { Judged (program_in prepared.now) (windows_in windows.now) budget
        (marks_of (program_in prepared.now).theory scope.now) (behaviour_at (program_in prepared.now) node)
        (distake (derivation_of part.now)) result }
{
    match disable_at(prepared.checked, node) {
        None => Ok(None),
        Some((_, right)) => walk(alloc, prepared, windows, scope, right, part, budget),
    }
}

/// The process of a call acts. It recurs as deep as the tree, and the terms, are.
#[cycle(walk)]
pub fn called(
    alloc: Global,
    prepared: &Prepared,
    windows: &[Window],
    scope: &[(u32, Given)],
    process: u32,
    gates: &[Gate],
    terms: &[Term],
    part: &Rules,
    budget: u64,
) -> Result<Option<Shown>, Stop>
    requires ready { IsReady (program_in prepared.now) }
    requires values { ChoosesValues (program_in prepared.now).theory (derivation_of part.now) }
    ensures judged { Judged (program_in prepared.now) (windows_in windows.now) budget
        (marks_of (program_in prepared.now).theory scope.now) (call process (map gate_number gates.now) (map term_of terms.now))
        (calling (derivation_of part.now)) result }
{
    match definition_at(prepared.checked, process) {
        None => Ok(None),
        Some((formal, vars, body)) => {
            let none = Vec::new(alloc);
            match bind_arguments(alloc, prepared, scope, none, vars, terms, budget)? {
                None => Ok(None),
                Some(inner) => {
                    let renamed = pairs(alloc, formal, gates)?;
                    walk_renamed(
                        alloc, prepared, windows, &inner, &renamed, body, part, budget,
                    )
                }
            }
        }
    }
}

// The process of a call in the code acts.
#[cycle(walk)]
fn call_acts(
    alloc: Global,
    prepared: &Prepared,
    windows: &[Window],
    scope: &[(u32, Given)],
    node: u32,
    part: &Rules,
    budget: u64,
) -> Result<Option<Shown>, Stop>
    requires ready { IsReady (program_in prepared.now) }
    requires values { ChoosesValues (program_in prepared.now).theory (derivation_of part.now) }
    ensures judged { Judged (program_in prepared.now) (windows_in windows.now) budget
        (marks_of (program_in prepared.now).theory scope.now) (behaviour_at (program_in prepared.now) node)
        (calling (derivation_of part.now)) result }
{
    match call_at(prepared.checked, node) {
        None => Ok(None),
        Some((process, gates, terms)) => called(
            alloc, prepared, windows, scope, process, gates, terms, part, budget,
        ),
    }
}

// The body of a relabelled behaviour acts.
#[cycle(walk)]
fn renamed(
    alloc: Global,
    prepared: &Prepared,
    windows: &[Window],
    scope: &[(u32, Given)],
    node: u32,
    part: &Rules,
    budget: u64,
) -> Result<Option<Shown>, Stop>
    requires ready { IsReady (program_in prepared.now) }
    requires values { ChoosesValues (program_in prepared.now).theory (derivation_of part.now) }
    ensures judged { Judged (program_in prepared.now) (windows_in windows.now) budget
        (marks_of (program_in prepared.now).theory scope.now) (behaviour_at (program_in prepared.now) node)
        (rel (derivation_of part.now)) result }
{
    match relabel_at(prepared.checked, node) {
        None => Ok(None),
        Some((pairs, body)) => {
            let shown = walk(alloc, prepared, windows, scope, body, part, budget);
            making::relabelled(pairs, shown)
        }
    }
}

/// What the behaviour with this number of the code shows under a relabelling. It recurs as deep as the tree, and the terms, are.
#[cycle(walk)]
pub fn walk_renamed(
    alloc: Global,
    prepared: &Prepared,
    windows: &[Window],
    scope: &[(u32, Given)],
    pairs: &[(Gate, Gate)],
    node: u32,
    rules: &Rules,
    budget: u64,
) -> Result<Option<Shown>, Stop>
    requires ready { IsReady (program_in prepared.now) }
    requires values { ChoosesValues (program_in prepared.now).theory (derivation_of rules.now) }
    ensures judged { Judged (program_in prepared.now) (windows_in windows.now) budget
        (marks_of (program_in prepared.now).theory scope.now)
        (relabel (map relabelling_of pairs.now) (behaviour_at (program_in prepared.now) node)) (derivation_of rules.now) result }
{
    match rules {
        Rules::Rel(part) => {
            let shown = walk(alloc, prepared, windows, scope, node, part, budget);
            making::relabelled(pairs, shown)
        }
        Rules::Pre(_)
        | Rules::Int
        | Rules::Exit(_)
        | Rules::Chl(_)
        | Rules::Chr(_)
        | Rules::Val(_, _)
        | Rules::Gate(_, _)
        | Rules::Guard(_)
        | Rules::Let(_)
        | Rules::Parl(_)
        | Rules::Parr(_)
        | Rules::Both(_, _)
        | Rules::Hide(_)
        | Rules::Pass(_)
        | Rules::Enstep(_)
        | Rules::Enend(_)
        | Rules::Disstep(_)
        | Rules::Disend(_)
        | Rules::Distake(_)
        | Rules::Call(_) => Ok(None),
    }
}

/// What the behaviour with this number of the code shows by a tree of rules, with what is known for its variables. It recurs as deep as
/// the tree, and the terms, are.
#[cycle(walk)]
pub fn walk(
    alloc: Global,
    prepared: &Prepared,
    windows: &[Window],
    scope: &[(u32, Given)],
    node: u32,
    rules: &Rules,
    budget: u64,
) -> Result<Option<Shown>, Stop>
    requires ready { IsReady (program_in prepared.now) }
    requires values { ChoosesValues (program_in prepared.now).theory (derivation_of rules.now) }
    ensures judged { Judged (program_in prepared.now) (windows_in windows.now) budget
        (marks_of (program_in prepared.now).theory scope.now) (behaviour_at (program_in prepared.now) node)
        (derivation_of rules.now) result }
{
    match rules {
        Rules::Pre(slots) => acts(
            alloc,
            prepared,
            windows,
            scope,
            node,
            slots.as_slice(),
            budget,
        ),
        Rules::Int => acts_inside(alloc, prepared.checked, node),
        Rules::Exit(slots) => terminates(
            alloc,
            prepared,
            windows,
            scope,
            node,
            slots.as_slice(),
            budget,
        ),
        Rules::Chl(part) => left_chosen(alloc, prepared, windows, scope, node, part, budget),
        Rules::Chr(part) => right_chosen(alloc, prepared, windows, scope, node, part, budget),
        Rules::Val(slot, part) => value_chosen(
            alloc, prepared, windows, scope, node, slot, part, budget,
        ),
        Rules::Gate(place, part) => gate_chosen(
            alloc, prepared, windows, scope, node, *place, part, budget,
        ),
        Rules::Guard(part) => guarded(alloc, prepared, windows, scope, node, part, budget),
        Rules::Let(part) => bound(alloc, prepared, windows, scope, node, part, budget),
        Rules::Parl(part) => left_alone(alloc, prepared, windows, scope, node, part, budget),
        Rules::Parr(part) => right_alone(alloc, prepared, windows, scope, node, part, budget),
        Rules::Both(first, second) => together(
            alloc, prepared, windows, scope, node, first, second, budget,
        ),
        Rules::Hide(part) => hidden(alloc, prepared, windows, scope, node, part, budget),
        Rules::Pass(part) => passed(alloc, prepared, windows, scope, node, part, budget),
        Rules::Enstep(part) => before_end(alloc, prepared, windows, scope, node, part, budget),
        Rules::Enend(part) => handed_on(alloc, prepared, windows, scope, node, part, budget),
        Rules::Disstep(part) => undisabled(alloc, prepared, windows, scope, node, part, budget),
        Rules::Disend(part) => ended(alloc, prepared, windows, scope, node, part, budget),
        Rules::Distake(part) => disabling(alloc, prepared, windows, scope, node, part, budget),
        Rules::Call(part) => call_acts(alloc, prepared, windows, scope, node, part, budget),
        Rules::Rel(part) => renamed(alloc, prepared, windows, scope, node, part, budget),
    }
}
