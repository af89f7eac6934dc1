// One step of a tree.

ghost use Rattle.std.specs.Prelude.{◌≡◌, IfOk, map};
ghost use Rattle.spec_core.specs.Code.{program_of, variable_of, relabelling_of, synchronised_of};
ghost use Rattle.spec_core.specs.Numbers.{gate_number};
ghost use Rattle.spec_core.specs.Ready.{IsReady};
ghost use Rattle.rule_model.specs.Derivations.{derivation_of, both, enstep, enend, disstep, rel};
ghost use Rattle.node_trees.specs.Constructs.{IsLeaf};
ghost use Rattle.node_trees.specs.Shapes.{shape_of, over, between, hidden, relabelled, enabled, beside, disabling};
ghost use Rattle.board_tree.specs.Changes.{changed};
ghost use Rattle.board_tree.specs.Sides.{alone_at, hidden_action, hidden_by, joined_at, taken_by, taken_from};
ghost use Rattle.board_tree.specs.Steps.{Moves};

use crate::change::Change;
use crate::leaf::{Advanced, advance_node};
use crate::operators::{anew, enabling_end, relabelled_step, unsuited};
use crate::side::{Side, Taking, changed_at};
use node_trees::branch::Branch;
use rule_model::action::Action;
use rule_model::rules::Rules;
use spec_core::code::{Checked, GateSet};
use spec_core::items::{Gate, Sort};
use spec_core::memory::Memory;
use spec_core::value::Value;
use std::alloc::Global;

/// What the step by these rules changes of the tree: what stands in the place of a part has new nodes, and all else stays. It recurs as
/// deep as the operators nest.
#[cycle(advance)]
pub fn advance(
    alloc: Global,
    checked: &Checked,
    branch: &Branch,
    rules: &Rules,
    next: u128,
) -> Result<Advanced, Memory>
    requires ready { IsReady (program_of checked.now) }
    ensures { IfOk result (λ a.
        Moves (program_of checked.now) (shape_of branch.now) (derivation_of rules.now) a.action
        (changed a.change (shape_of branch.now)) next a.next) }
{
    match branch.as_leaf() {
        Some(node) => advance_node(alloc, checked, node, rules, next),
        None => advance_operator(alloc, checked, branch, rules, next),
    }
}

// What the step changes of a tree that is no node. Each operator has a function of its own for each of its rules, so that the stack holds
// deep trees.
#[cycle(advance)]
#[inline(never)]
fn advance_operator(
    alloc: Global,
    checked: &Checked,
    branch: &Branch,
    rules: &Rules,
    next: u128,
) -> Result<Advanced, Memory>
    requires ready { IsReady (program_of checked.now) }
    requires operator { IsLeaf (shape_of branch.now) → ⊥ }
    ensures { IfOk result (λ a.
        Moves (program_of checked.now) (shape_of branch.now) (derivation_of rules.now) a.action
        (changed a.change (shape_of branch.now)) next a.next) }
{
    match rules {
        Rules::Pre(_) => return unsuited(alloc, checked, branch, rules, next),
        Rules::Int => return unsuited(alloc, checked, branch, rules, next),
        Rules::Exit(_) => return unsuited(alloc, checked, branch, rules, next),
        Rules::Val(_, _) => return unsuited(alloc, checked, branch, rules, next),
        Rules::Gate(_, _) => return unsuited(alloc, checked, branch, rules, next),
        Rules::Guard(_) => return unsuited(alloc, checked, branch, rules, next),
        Rules::Let(_) => return unsuited(alloc, checked, branch, rules, next),
        Rules::Call(_) => return unsuited(alloc, checked, branch, rules, next),
        Rules::Chl(d) => match branch.as_choice() {
            None => return unsuited(alloc, checked, branch, rules, next),
            Some((left, right)) => return taken_over(
                alloc,
                checked,
                branch,
                Taking::ChoiceLeft,
                left,
                right,
                d,
                next,
            ),
        },
        Rules::Chr(d) => match branch.as_choice() {
            None => return unsuited(alloc, checked, branch, rules, next),
            Some((left, right)) => return taken_over(
                alloc,
                checked,
                branch,
                Taking::ChoiceRight,
                right,
                left,
                d,
                next,
            ),
        },
        Rules::Parl(d) => match branch.as_parallel() {
            None => return unsuited(alloc, checked, branch, rules, next),
            Some((gates, left, right)) => return one_side(
                alloc,
                checked,
                branch,
                gates,
                Side::Left,
                left,
                right,
                d,
                next,
            ),
        },
        Rules::Parr(d) => match branch.as_parallel() {
            None => return unsuited(alloc, checked, branch, rules, next),
            Some((gates, left, right)) => return one_side(
                alloc,
                checked,
                branch,
                gates,
                Side::Right,
                right,
                left,
                d,
                next,
            ),
        },
        Rules::Both(d, e) => match branch.as_parallel() {
            None => return unsuited(alloc, checked, branch, rules, next),
            Some((gates, left, right)) => return both_together(
                alloc, checked, branch, gates, left, right, d, e, next,
            ),
        },
        Rules::Hide(d) => match branch.as_hide() {
            None => return unsuited(alloc, checked, branch, rules, next),
            Some((gates, part)) => return hiding_step(
                alloc, checked, branch, gates, true, part, d, next,
            ),
        },
        Rules::Pass(d) => match branch.as_hide() {
            None => return unsuited(alloc, checked, branch, rules, next),
            Some((gates, part)) => return hiding_step(
                alloc, checked, branch, gates, false, part, d, next,
            ),
        },
        Rules::Enstep(d) => match branch.as_enable() {
            None => return unsuited(alloc, checked, branch, rules, next),
            Some((part, vars, right, values)) => return enabling_step(
                alloc, checked, branch, part, vars, right, values, d, next,
            ),
        },
        Rules::Enend(d) => match branch.as_enable() {
            None => return unsuited(alloc, checked, branch, rules, next),
            Some((part, vars, right, values)) => return enabling_ends(
                alloc, checked, branch, part, vars, right, values, d, next,
            ),
        },
        Rules::Disstep(d) => match branch.as_disable() {
            None => return unsuited(alloc, checked, branch, rules, next),
            Some((left, right)) => return disabling_step(
                alloc, checked, branch, left, right, d, next,
            ),
        },
        Rules::Disend(d) => match branch.as_disable() {
            None => return unsuited(alloc, checked, branch, rules, next),
            Some((left, right)) => return taken_over(
                alloc,
                checked,
                branch,
                Taking::DisablingEnd,
                left,
                right,
                d,
                next,
            ),
        },
        Rules::Distake(d) => match branch.as_disable() {
            None => return unsuited(alloc, checked, branch, rules, next),
            Some((left, right)) => return taken_over(
                alloc,
                checked,
                branch,
                Taking::DisablingTaken,
                right,
                left,
                d,
                next,
            ),
        },
        Rules::Rel(d) => match branch.as_relabel() {
            None => return unsuited(alloc, checked, branch, rules, next),
            Some((pairs, part)) => return relabelling_step(
                alloc, checked, branch, pairs, part, d, next,
            ),
        },
    }
}

// What a hiding does where its part does this.
fn seen(hides: bool, action: Action) -> Action
    ensures { result ≡ hidden_action hides action }
{
    if hides { Action::Inner } else { action }
}

// A part of an operator acts, and what it becomes takes the place of the whole: the other part is lost, and what is left has new nodes.
#[cycle(advance)]
#[inline(never)]
fn taken_over(
    alloc: Global,
    checked: &Checked,
    branch: &Branch,
    taking: Taking,
    part: &Branch,
    other: &Branch,
    d: &Rules,
    next: u128,
) -> Result<Advanced, Memory>
    requires ready { IsReady (program_of checked.now) }
    requires shape { shape_of branch.now ≡ taken_from taking (shape_of part.now) (shape_of other.now) }
    ensures { IfOk result (λ a.
        Moves (program_of checked.now) (shape_of branch.now) (taken_by taking (derivation_of d.now)) a.action
        (changed a.change (shape_of branch.now)) next a.next) }
{
    let one = advance(alloc, checked, part, d, next)?;
    let done = anew(alloc, checked, branch, part, one)?;
    Ok(done)
}

// A parallel composition of which one side acts alone: the other side stays.
#[cycle(advance)]
#[inline(never)]
fn one_side(
    alloc: Global,
    checked: &Checked,
    branch: &Branch,
    gates: &GateSet,
    side: Side,
    part: &Branch,
    other: &Branch,
    d: &Rules,
    next: u128,
) -> Result<Advanced, Memory>
    requires ready { IsReady (program_of checked.now) }
    requires shape { shape_of branch.now ≡ joined_at side (beside (synchronised_of gates.now)) (shape_of part.now) (shape_of other.now) }
    ensures { IfOk result (λ a.
        Moves (program_of checked.now) (shape_of branch.now) (alone_at side (derivation_of d.now)) a.action
        (changed a.change (shape_of branch.now)) next a.next) }
{
    let one = advance(alloc, checked, part, d, next)?;
    let Advanced {
        action,
        change: one,
        next,
    } = one;
    let change = changed_at(alloc, side, one)?;
    Ok(Advanced {
        action,
        change,
        next,
    })
}

// A parallel composition whose sides act together.
#[cycle(advance)]
#[inline(never)]
fn both_together(
    alloc: Global,
    checked: &Checked,
    branch: &Branch,
    gates: &GateSet,
    left: &Branch,
    right: &Branch,
    d: &Rules,
    e: &Rules,
    next: u128,
) -> Result<Advanced, Memory>
    requires ready { IsReady (program_of checked.now) }
    requires shape { shape_of branch.now ≡ between (beside (synchronised_of gates.now)) (shape_of left.now) (shape_of right.now) }
    ensures { IfOk result (λ a.
        Moves (program_of checked.now) (shape_of branch.now) (both (derivation_of d.now) (derivation_of e.now)) a.action
        (changed a.change (shape_of branch.now)) next a.next) }
{
    let one = advance(alloc, checked, left, d, next)?;
    let two = advance(alloc, checked, right, e, one.next)?;
    let Advanced {
        action,
        change: first,
        next: _,
    } = one;
    let Advanced {
        action: _,
        change: second,
        next,
    } = two;
    let change = Change::between(alloc, first, second)?;
    Ok(Advanced {
        action,
        change,
        next,
    })
}

// A hiding whose part acts, at a hidden gate or not.
#[cycle(advance)]
#[inline(never)]
fn hiding_step(
    alloc: Global,
    checked: &Checked,
    branch: &Branch,
    gates: &[Gate],
    hides: bool,
    part: &Branch,
    d: &Rules,
    next: u128,
) -> Result<Advanced, Memory>
    requires ready { IsReady (program_of checked.now) }
    requires shape { shape_of branch.now ≡ over (hidden (map gate_number gates.now)) (shape_of part.now) }
    ensures { IfOk result (λ a.
        Moves (program_of checked.now) (shape_of branch.now) (hidden_by hides (derivation_of d.now)) a.action
        (changed a.change (shape_of branch.now)) next a.next) }
{
    let one = advance(alloc, checked, part, d, next)?;
    let Advanced {
        action,
        change: one,
        next,
    } = one;
    let change = Change::over(alloc, one)?;
    Ok(Advanced {
        action: seen(hides, action),
        change,
        next,
    })
}

// An enabling whose left side acts and goes on.
#[cycle(advance)]
#[inline(never)]
fn enabling_step(
    alloc: Global,
    checked: &Checked,
    branch: &Branch,
    part: &Branch,
    vars: &[(u32, Sort)],
    right: u32,
    values: &[(u32, Value)],
    d: &Rules,
    next: u128,
) -> Result<Advanced, Memory>
    requires ready { IsReady (program_of checked.now) }
    requires shape { shape_of branch.now ≡ over (enabled (map variable_of vars.now) right values.now) (shape_of part.now) }
    ensures { IfOk result (λ a.
        Moves (program_of checked.now) (shape_of branch.now) (enstep (derivation_of d.now)) a.action
        (changed a.change (shape_of branch.now)) next a.next) }
{
    let one = advance(alloc, checked, part, d, next)?;
    let Advanced {
        action,
        change: one,
        next,
    } = one;
    let change = Change::over(alloc, one)?;
    Ok(Advanced {
        action,
        change,
        next,
    })
}

// An enabling whose left side terminates.
#[cycle(advance)]
#[inline(never)]
fn enabling_ends(
    alloc: Global,
    checked: &Checked,
    branch: &Branch,
    part: &Branch,
    vars: &[(u32, Sort)],
    right: u32,
    values: &[(u32, Value)],
    d: &Rules,
    next: u128,
) -> Result<Advanced, Memory>
    requires ready { IsReady (program_of checked.now) }
    requires shape { shape_of branch.now ≡ over (enabled (map variable_of vars.now) right values.now) (shape_of part.now) }
    ensures { IfOk result (λ a.
        Moves (program_of checked.now) (shape_of branch.now) (enend (derivation_of d.now)) a.action
        (changed a.change (shape_of branch.now)) next a.next) }
{
    let one = advance(alloc, checked, part, d, next)?;
    enabling_end(
        alloc, checked, branch, part, vars, right, values, d, one, next,
    )
}

// A disabling whose left side acts and goes on: the right side stays.
#[cycle(advance)]
#[inline(never)]
fn disabling_step(
    alloc: Global,
    checked: &Checked,
    branch: &Branch,
    left: &Branch,
    right: &Branch,
    d: &Rules,
    next: u128,
) -> Result<Advanced, Memory>
    requires ready { IsReady (program_of checked.now) }
    requires shape { shape_of branch.now ≡ between disabling (shape_of left.now) (shape_of right.now) }
    ensures { IfOk result (λ a.
        Moves (program_of checked.now) (shape_of branch.now) (disstep (derivation_of d.now)) a.action
        (changed a.change (shape_of branch.now)) next a.next) }
{
    let one = advance(alloc, checked, left, d, next)?;
    let Advanced {
        action,
        change: one,
        next,
    } = one;
    let change = Change::between(alloc, one, Change::Stays)?;
    Ok(Advanced {
        action,
        change,
        next,
    })
}

// A relabelling whose part acts.
#[cycle(advance)]
#[inline(never)]
fn relabelling_step(
    alloc: Global,
    checked: &Checked,
    branch: &Branch,
    pairs: &[(Gate, Gate)],
    part: &Branch,
    d: &Rules,
    next: u128,
) -> Result<Advanced, Memory>
    requires ready { IsReady (program_of checked.now) }
    requires shape { shape_of branch.now ≡ over (relabelled (map relabelling_of pairs.now)) (shape_of part.now) }
    ensures { IfOk result (λ a.
        Moves (program_of checked.now) (shape_of branch.now) (rel (derivation_of d.now)) a.action
        (changed a.change (shape_of branch.now)) next a.next) }
{
    let one = advance(alloc, checked, part, d, next)?;
    relabelled_step(alloc, checked, branch, pairs, part, d, one, next)
}
