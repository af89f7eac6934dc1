// Trees with new nodes in the places of all.

ghost use Rattle.std.specs.Prelude.{◌≡◌, IfOk, map};
ghost use Rattle.spec_core.specs.Code.{program_of, relabelling_of};
ghost use Rattle.spec_core.specs.Ready.{IsReady};
ghost use Rattle.rule_model.specs.Behaviours.{relabel};
ghost use Rattle.rule_model.specs.Substitution.{tidied};
ghost use Rattle.node_trees.specs.Generations.{IsFresh};
ghost use Rattle.node_trees.specs.Origins.{scoped, IsCall};
ghost use Rattle.node_trees.specs.Shapes.{shape_of, unary_of, binary_of, applied, joined, stands_for};

use crate::branch::{Branch, Double, Single};
use crate::fresh::{Fresh, nothing, put_between, put_over, waiting};
use crate::origin::{Origin, copy_values};
use crate::unfold::unfold;
use rule_origins::tidying::joined;
use rule_origins::views::call_at;
use rule_substitution::relabelling::after;
use spec_core::code::Checked;
use spec_core::items::Gate;
use spec_core::memory::Memory;
use spec_core::value::Value;
use std::alloc::Global;

// An operator over the same part with new nodes.
#[cycle(renewed)]
#[inline(never)]
fn renewed_over(
    alloc: Global,
    checked: &Checked,
    operator: &Single,
    part: &Branch,
    next: u128,
) -> Result<Fresh, Memory>
    ensures stands { IfOk result (λ f.
        stands_for (program_of checked.now) (shape_of f.branch.value) ≡
        applied (program_of checked.now) (unary_of operator.now) (stands_for (program_of checked.now) (shape_of part.now))) }
    ensures fresh { IfOk result (λ f. IsFresh next f.next (shape_of f.branch.value)) }
{
    let one = renewed(alloc, checked, part, next)?;
    put_over(alloc, operator.copy(alloc)?, one, next)
}

// An operator between the same parts with new nodes.
#[cycle(renewed)]
#[inline(never)]
fn renewed_between(
    alloc: Global,
    checked: &Checked,
    operator: &Double,
    left: &Branch,
    right: &Branch,
    next: u128,
) -> Result<Fresh, Memory>
    ensures stands { IfOk result (λ f.
        stands_for (program_of checked.now) (shape_of f.branch.value) ≡
        joined (binary_of operator.now) (stands_for (program_of checked.now) (shape_of left.now))
        (stands_for (program_of checked.now) (shape_of right.now))) }
    ensures fresh { IfOk result (λ f. IsFresh next f.next (shape_of f.branch.value)) }
{
    let one = renewed(alloc, checked, left, next)?;
    let two = renewed(alloc, checked, right, one.next)?;
    let operator = operator.copy(alloc)?;
    put_between(alloc, operator, one, two, next)
}

/// The same tree with new nodes, which wait. It recurs as deep as the operators nest.
#[cycle(renewed)]
pub fn renewed(
    alloc: Global,
    checked: &Checked,
    branch: &Branch,
    next: u128,
) -> Result<Fresh, Memory>
    ensures stands { IfOk result (λ f.
        stands_for (program_of checked.now) (shape_of f.branch.value) ≡ stands_for (program_of checked.now) (shape_of branch.now)) }
    ensures fresh { IfOk result (λ f. IsFresh next f.next (shape_of f.branch.value)) }
{
    match branch {
        Branch::Leaf(node) => waiting(alloc, node.origin.copy(alloc)?, next),
        Branch::Ended => nothing(alloc, next),
        Branch::Over(operator, part) => renewed_over(alloc, checked, operator, part, next),
        Branch::Between(operator, left, right) => renewed_between(
            alloc, checked, operator, left, right, next,
        ),
    }
}

// The same tree with new nodes, under a relabelling.
fn renewed_under(
    alloc: Global,
    checked: &Checked,
    pairs: &[(Gate, Gate)],
    branch: &Branch,
    next: u128,
) -> Result<Fresh, Memory>
    ensures stands { IfOk result (λ f.
        stands_for (program_of checked.now) (shape_of f.branch.value) ≡
        relabel (map relabelling_of pairs.now) (stands_for (program_of checked.now) (shape_of branch.now))) }
    ensures fresh { IfOk result (λ f. IsFresh next f.next (shape_of f.branch.value)) }
{
    let one = renewed(alloc, checked, branch, next)?;
    let operator = Single::Relabel(Vec::from_slice(alloc, pairs)?);
    put_over(alloc, operator, one, next)
}

// The behaviour at a number of the code, unfolded under a relabelling.
fn unfolded_under(
    alloc: Global,
    checked: &Checked,
    pairs: &[(Gate, Gate)],
    node: u32,
    values: &[(u32, Value)],
    next: u128,
) -> Result<Fresh, Memory>
    requires ready { IsReady (program_of checked.now) }
    ensures stands { IfOk result (λ f.
        stands_for (program_of checked.now) (shape_of f.branch.value) ≡
        relabel (map relabelling_of pairs.now) (scoped (program_of checked.now) node values.now)) }
    ensures fresh { IfOk result (λ f. IsFresh next f.next (shape_of f.branch.value)) }
{
    let one = unfold(alloc, checked, node, values, next)?;
    let operator = Single::Relabel(Vec::from_slice(alloc, pairs)?);
    put_over(alloc, operator, one, next)
}

// A node that waits for a call whose gates are relabelled.
#[tactic(auto, using(crate::proofs::Tidying::relabelled_call))]
fn waiting_under(
    alloc: Global,
    checked: &Checked,
    pairs: &[(Gate, Gate)],
    node: u32,
    values: &[(u32, Value)],
    next: u128,
) -> Result<Fresh, Memory>
    requires call { IsCall (scoped (program_of checked.now) node values.now) }
    ensures stands { IfOk result (λ f.
        stands_for (program_of checked.now) (shape_of f.branch.value) ≡
        tidied (map relabelling_of pairs.now) (scoped (program_of checked.now) node values.now)) }
    ensures fresh { IfOk result (λ f. IsFresh next f.next (shape_of f.branch.value)) }
{
    let values = copy_values(alloc, values)?;
    let origin = Origin {
        node,
        values,
        relabel: Vec::from_slice(alloc, pairs)?,
    };
    waiting(alloc, origin, next)
}

/// The behaviour at a number of the code, unfolded under a relabelling, tidied.
pub fn tidied_at(
    alloc: Global,
    checked: &Checked,
    pairs: &[(Gate, Gate)],
    node: u32,
    values: &[(u32, Value)],
    next: u128,
) -> Result<Fresh, Memory>
    requires ready { IsReady (program_of checked.now) }
    ensures stands { IfOk result (λ f.
        stands_for (program_of checked.now) (shape_of f.branch.value) ≡
        tidied (map relabelling_of pairs.now) (scoped (program_of checked.now) node values.now)) }
    ensures fresh { IfOk result (λ f. IsFresh next f.next (shape_of f.branch.value)) }
{
    let one = joined(alloc, checked, pairs, node)?;
    match call_at(checked, one.node) {
        None => unfolded_under(alloc, checked, &one.pairs, one.node, values, next),
        Some(_) => waiting_under(alloc, checked, &one.pairs, one.node, values, next),
    }
}

/// The same tree with new nodes, under a relabelling, tidied.
#[tactic(auto, using(crate::proofs::Tidying::tidied_leaf))]
pub fn tidied_branch(
    alloc: Global,
    checked: &Checked,
    pairs: &[(Gate, Gate)],
    branch: &Branch,
    next: u128,
) -> Result<Fresh, Memory>
    requires ready { IsReady (program_of checked.now) }
    ensures stands { IfOk result (λ f.
        stands_for (program_of checked.now) (shape_of f.branch.value) ≡
        tidied (map relabelling_of pairs.now) (stands_for (program_of checked.now) (shape_of branch.now))) }
    ensures fresh { IfOk result (λ f. IsFresh next f.next (shape_of f.branch.value)) }
{
    match branch {
        Branch::Leaf(node) => {
            let all = after(alloc, pairs, &node.origin.relabel)?;
            tidied_at(
                alloc,
                checked,
                &all,
                node.origin.node,
                &node.origin.values,
                next,
            )
        }
        Branch::Ended => renewed_under(alloc, checked, pairs, branch, next),
        Branch::Between(operator, _, _) => match operator {
            Double::Choice => renewed_under(alloc, checked, pairs, branch, next),
            Double::Par(_) => renewed_under(alloc, checked, pairs, branch, next),
            Double::Disable => renewed_under(alloc, checked, pairs, branch, next),
        },
        Branch::Over(operator, part) => match operator {
            Single::Relabel(before) => {
                let all = after(alloc, pairs, before)?;
                tidied_branch(alloc, checked, &all, part, next)
            }
            Single::Hide(_) => renewed_under(alloc, checked, pairs, branch, next),
            Single::Enable { .. } => renewed_under(alloc, checked, pairs, branch, next),
        },
    }
}
