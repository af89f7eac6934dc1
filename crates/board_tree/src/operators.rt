// Steps of operators: what an operator becomes where its part does.

ghost use Rattle.std.specs.Prelude.{◌≡◌, ◌++◌, IfOk, map};
ghost use Rattle.spec_core.specs.Code.{program_of, variable_of, relabelling_of};
ghost use Rattle.spec_core.specs.Ready.{IsReady};
ghost use Rattle.rule_model.specs.Derivations.{derivation_of, enend, rel};
ghost use Rattle.rule_model.specs.Substitution.{tidied};
ghost use Rattle.rule_origins.specs.Values.{values_for};
ghost use Rattle.node_trees.specs.Constructs.{IsLeaf, IsTidy};
ghost use Rattle.node_trees.specs.Generations.{IsFresh};
ghost use Rattle.node_trees.specs.Shapes.{shape_of, stands_for, over, relabelled, enabled};
ghost use Rattle.board_tree.specs.Changes.{changed};
ghost use Rattle.board_tree.specs.Steps.{Moves, Suits};

use crate::change::Change;
use crate::leaf::{Advanced, Replaced, no_step};
use node_trees::branch::Branch;
use node_trees::fresh::Fresh;
use node_trees::origin::copy_values;
use node_trees::renew::{renewed, tidied_branch};
use node_trees::unfold::unfold;
use rule_model::action::Action;
use rule_model::rules::Rules;
use rule_substitution::relabelling::renamed;
use spec_core::code::Checked;
use spec_core::items::{Gate, Sort};
use spec_core::memory::Memory;
use spec_core::value::Value;
use std::alloc::Global;

/// A tree of rules that doesn't suit the operator: nothing is said of it.
#[inline(never)]
pub fn unsuited(
    alloc: Global,
    checked: &Checked,
    branch: &Branch,
    rules: &Rules,
    next: u128,
) -> Result<Advanced, Memory>
    requires operator { IsLeaf (shape_of branch.now) → ⊥ }
    requires unsuited { Suits (derivation_of rules.now) (shape_of branch.now) → ⊥ }
    ensures moves { IfOk result (λ a.
        Moves (program_of checked.now) (shape_of branch.now) (derivation_of rules.now) a.action
        (changed a.change (shape_of branch.now)) next a.next) }
{
    let Replaced {
        action,
        branch: after,
        next,
    } = no_step(alloc, next)?;
    Ok(Advanced {
        action,
        change: Change::Becomes(after),
        next,
    })
}

// The part after its change, with new nodes.
fn renewed_after(
    alloc: Global,
    checked: &Checked,
    change: &Change,
    part: &Branch,
    next: u128,
) -> Result<Fresh, Memory>
    ensures stands { IfOk result (λ f.
        stands_for (program_of checked.now) (shape_of f.branch.value) ≡
        stands_for (program_of checked.now) (changed change.now (shape_of part.now))) }
    ensures fresh { IfOk result (λ f. IsFresh next f.next (shape_of f.branch.value)) }
{
    match change {
        Change::Becomes(new) => renewed(alloc, checked, new, next),
        Change::Stays | Change::Over(_) | Change::Between(_, _) => {
            let whole = change.made(alloc, part)?;
            renewed(alloc, checked, &whole, next)
        }
    }
}

// The part after its change, with new nodes, under a relabelling, tidied.
fn tidied_after(
    alloc: Global,
    checked: &Checked,
    pairs: &[(Gate, Gate)],
    change: &Change,
    part: &Branch,
    next: u128,
) -> Result<Fresh, Memory>
    requires ready { IsReady (program_of checked.now) }
    ensures stands { IfOk result (λ f.
        stands_for (program_of checked.now) (shape_of f.branch.value) ≡
        tidied (map relabelling_of pairs.now) (stands_for (program_of checked.now) (changed change.now (shape_of part.now)))) }
    ensures fresh { IfOk result (λ f. IsFresh next f.next (shape_of f.branch.value)) }
{
    match change {
        Change::Becomes(new) => tidied_branch(alloc, checked, pairs, new, next),
        Change::Stays | Change::Over(_) | Change::Between(_, _) => {
            let whole = change.made(alloc, part)?;
            tidied_branch(alloc, checked, pairs, &whole, next)
        }
    }
}

/// An operator of which a part is left: what the part becomes, with new nodes.
#[inline(never)]
pub fn anew(
    alloc: Global,
    checked: &Checked,
    branch: &Branch,
    part: &Branch,
    one: Advanced,
) -> Result<Advanced, Memory>
    ensures action { IfOk result (λ a. a.action ≡ one.action) }
    ensures stands { IfOk result (λ a.
        stands_for (program_of checked.now) (changed a.change (shape_of branch.now)) ≡
        stands_for (program_of checked.now) (changed one.change (shape_of part.now))) }
    ensures fresh { IfOk result (λ a. IsFresh one.next a.next (changed a.change (shape_of branch.now))) }
{
    let Advanced {
        action,
        change,
        next,
    } = one;
    let Fresh {
        branch: after,
        next: high,
    } = renewed_after(alloc, checked, &change, part, next)?;
    Ok(Advanced {
        action,
        change: Change::Becomes(after),
        next: high,
    })
}

/// A relabelling whose part acts. It stays over what its part becomes, where that is tidy; else it is tidied with it, in new nodes: two
/// relabellings one over the other become one, and a call is relabelled in its gates.
pub fn relabelled_step(
    alloc: Global,
    checked: &Checked,
    branch: &Branch,
    pairs: &[(Gate, Gate)],
    part: &Branch,
    d: &Rules,
    one: Advanced,
    low: u128,
) -> Result<Advanced, Memory>
    requires ready { IsReady (program_of checked.now) }
    requires shape { shape_of branch.now ≡ over (relabelled (map relabelling_of pairs.now)) (shape_of part.now) }
    requires moves { Moves (program_of checked.now) (shape_of part.now) (derivation_of d.now) one.action
        (changed one.change (shape_of part.now)) low one.next }
    ensures { IfOk result (λ a.
        Moves (program_of checked.now) (shape_of branch.now) (rel (derivation_of d.now)) a.action
        (changed a.change (shape_of branch.now)) low a.next) }
{
    let stays = one.change.is_tidy(part);
    let Advanced {
        action,
        change,
        next,
    } = one;
    if stays {
        let change = Change::over(alloc, change)?;
        return Ok(Advanced {
            action: renamed(pairs, action),
            change,
            next,
        });
    }
    let Fresh {
        branch: after,
        next: high,
    } = tidied_after(alloc, checked, pairs, &change, part, next)?;
    Ok(Advanced {
        action: renamed(pairs, action),
        change: Change::Becomes(after),
        next: high,
    })
}

// Appends the values that are handed on to variables.
fn put_handed(
    alloc: Global,
    vars: &[(u32, Sort)],
    handed: &[Value],
    all: &mut Vec<(u32, Value)>,
) -> Result<(), Memory>
    ensures { IfOk result (λ _. all.new.items ≡ all.old.items ++ values_for (map variable_of vars.now) handed.now) }
{
    match vars {
        [] => Ok(()),
        [first, others @ ..] => match handed {
            [] => Ok(()),
            [value, rest @ ..] => {
                let (x, _) = *first;
                all.push((x, value.copy(alloc)?))?;
                put_handed(alloc, others, rest, all)
            }
        },
    }
}

// These values, and then those that are handed on to variables.
fn handed_on(
    alloc: Global,
    values: &[(u32, Value)],
    vars: &[(u32, Sort)],
    handed: &[Value],
) -> Result<Vec<(u32, Value)>, Memory>
    ensures { IfOk result (λ all. all.items ≡ values.now ++ values_for (map variable_of vars.now) handed.now) }
{
    let mut all = copy_values(alloc, values)?;
    put_handed(alloc, vars, handed, &mut all)?;
    Ok(all)
}

// What stands in the place of an enabling whose left side terminates: the right side, with the values that are handed on.
fn right_side(
    alloc: Global,
    checked: &Checked,
    branch: &Branch,
    part: &Branch,
    vars: &[(u32, Sort)],
    right: u32,
    values: &[(u32, Value)],
    d: &Rules,
    one: Advanced,
    low: u128,
) -> Result<Replaced, Memory>
    requires ready { IsReady (program_of checked.now) }
    requires shape { shape_of branch.now ≡ over (enabled (map variable_of vars.now) right values.now) (shape_of part.now) }
    requires moves { Moves (program_of checked.now) (shape_of part.now) (derivation_of d.now) one.action
        (changed one.change (shape_of part.now)) low one.next }
    ensures { IfOk result (λ a.
        Moves (program_of checked.now) (shape_of branch.now) (enend (derivation_of d.now)) a.action (shape_of a.branch.value) low a.next) }
{
    let Advanced {
        action,
        change: _,
        next,
    } = one;
    match action {
        Action::Exit(handed) => {
            let all = handed_on(alloc, values, vars, handed.as_slice())?;
            let Fresh {
                branch: after,
                next: high,
            } = unfold(alloc, checked, right, &all, next)?;
            Ok(Replaced {
                action: Action::Inner,
                branch: after,
                next: high,
            })
        }
        Action::Inner => {
            let done = no_step(alloc, next)?;
            Ok(done)
        }
        Action::At(_, _) => {
            let done = no_step(alloc, next)?;
            Ok(done)
        }
    }
}

/// An enabling whose left side terminates: the right side begins, with the values that are handed on.
#[inline(never)]
pub fn enabling_end(
    alloc: Global,
    checked: &Checked,
    branch: &Branch,
    part: &Branch,
    vars: &[(u32, Sort)],
    right: u32,
    values: &[(u32, Value)],
    d: &Rules,
    one: Advanced,
    low: u128,
) -> Result<Advanced, Memory>
    requires ready { IsReady (program_of checked.now) }
    requires shape { shape_of branch.now ≡ over (enabled (map variable_of vars.now) right values.now) (shape_of part.now) }
    requires moves { Moves (program_of checked.now) (shape_of part.now) (derivation_of d.now) one.action
        (changed one.change (shape_of part.now)) low one.next }
    ensures { IfOk result (λ a.
        Moves (program_of checked.now) (shape_of branch.now) (enend (derivation_of d.now)) a.action
        (changed a.change (shape_of branch.now)) low a.next) }
{
    let Replaced {
        action,
        branch: after,
        next,
    } = right_side(
        alloc, checked, branch, part, vars, right, values, d, one, low,
    )?;
    Ok(Advanced {
        action,
        change: Change::Becomes(after),
        next,
    })
}
