// Behaviours unfolded into operators over nodes that wait.

ghost use Rattle.std.specs.Prelude.{◌≡◌, ◌<◌, IfOk};
ghost use Rattle.spec_core.specs.Code.{program_of};
ghost use Rattle.spec_core.specs.Ready.{IsReady};
ghost use Rattle.node_trees.specs.Generations.{IsFresh};
ghost use Rattle.node_trees.specs.Origins.{scoped};
ghost use Rattle.node_trees.specs.Shapes.{shape_of, unary_of, binary_of, applied, joined, stands_for};

use crate::branch::{Double, Single};
use crate::fresh::{Fresh, nothing, put_between, put_over, waiting};
use crate::origin::{Origin, copy_values};
use rule_origins::code::construct_at;
use spec_core::code::{Checked, CodeNode};
use spec_core::memory::Memory;
use spec_core::value::Value;
use std::alloc::Global;

// A node that waits for the behaviour at this number of the code.
#[inline(never)]
fn waiting_at(
    alloc: Global,
    checked: &Checked,
    node: u32,
    values: &[(u32, Value)],
    next: u128,
) -> Result<Fresh, Memory>
    ensures stands { IfOk result (λ f.
        stands_for (program_of checked.now) (shape_of f.branch.value) ≡ scoped (program_of checked.now) node values.now) }
    ensures fresh { IfOk result (λ f. IsFresh next f.next (shape_of f.branch.value)) }
{
    let values = copy_values(alloc, values)?;
    let origin = Origin {
        node,
        values,
        relabel: Vec::new(alloc),
    };
    waiting(alloc, origin, next)
}

// An operator between the behaviours at two numbers of the code, each unfolded.
#[cycle(unfold)]
#[inline(never)]
fn unfold_between(
    alloc: Global,
    checked: &Checked,
    operator: Double,
    number: u32,
    left: u32,
    right: u32,
    values: &[(u32, Value)],
    next: u128,
) -> Result<Fresh, Memory>
    requires ready { IsReady (program_of checked.now) }
    requires left { left < number }
    requires right { right < number }
    ensures stands { IfOk result (λ f.
        stands_for (program_of checked.now) (shape_of f.branch.value) ≡
        joined (binary_of operator) (scoped (program_of checked.now) left values.now) (scoped (program_of checked.now) right values.now)) }
    ensures fresh { IfOk result (λ f. IsFresh next f.next (shape_of f.branch.value)) }
{
    let one = unfold(alloc, checked, left, values, next)?;
    let two = unfold(alloc, checked, right, values, one.next)?;
    put_between(alloc, operator, one, two, next)
}

// An operator over the behaviour at a number of the code, unfolded.
#[cycle(unfold)]
#[inline(never)]
fn unfold_over(
    alloc: Global,
    checked: &Checked,
    operator: Single,
    number: u32,
    part: u32,
    values: &[(u32, Value)],
    next: u128,
) -> Result<Fresh, Memory>
    requires ready { IsReady (program_of checked.now) }
    requires part { part < number }
    ensures stands { IfOk result (λ f.
        stands_for (program_of checked.now) (shape_of f.branch.value) ≡
        applied (program_of checked.now) (unary_of operator) (scoped (program_of checked.now) part values.now)) }
    ensures fresh { IfOk result (λ f. IsFresh next f.next (shape_of f.branch.value)) }
{
    let one = unfold(alloc, checked, part, values, next)?;
    put_over(alloc, operator, one, next)
}

/// The operators of the behaviour at a number of the code, with values for its variables, over nodes that wait. It recurs as deep as the
/// operators nest.
#[cycle(unfold)]
pub fn unfold(
    alloc: Global,
    checked: &Checked,
    node: u32,
    values: &[(u32, Value)],
    next: u128,
) -> Result<Fresh, Memory>
    requires ready { IsReady (program_of checked.now) }
    ensures stands { IfOk result (λ f.
        stands_for (program_of checked.now) (shape_of f.branch.value) ≡ scoped (program_of checked.now) node values.now) }
    ensures fresh { IfOk result (λ f. IsFresh next f.next (shape_of f.branch.value)) }
{
    match construct_at(checked, node) {
        None => nothing(alloc, next),
        Some(construct) => match construct {
            CodeNode::Choice(left, right) => unfold_between(
                alloc,
                checked,
                Double::Choice,
                node,
                left.0,
                right.0,
                values,
                next,
            ),
            CodeNode::Par(gates, left, right) => {
                let operator = Double::Par(gates.copy(alloc)?);
                unfold_between(
                    alloc, checked, operator, node, left.0, right.0, values, next,
                )
            }
            CodeNode::Disable(left, right) => unfold_between(
                alloc,
                checked,
                Double::Disable,
                node,
                left.0,
                right.0,
                values,
                next,
            ),
            CodeNode::Hide(gates, body) => {
                let operator = Single::Hide(Vec::from_slice(alloc, gates)?);
                unfold_over(alloc, checked, operator, node, body.0, values, next)
            }
            CodeNode::Relabel(pairs, body) => {
                let operator = Single::Relabel(Vec::from_slice(alloc, pairs)?);
                unfold_over(alloc, checked, operator, node, body.0, values, next)
            }
            CodeNode::Enable(left, vars, right) => {
                let vars = Vec::from_slice(alloc, vars)?;
                let later = copy_values(alloc, values)?;
                let operator = Single::Enable {
                    vars,
                    right: right.0,
                    values: later,
                };
                unfold_over(alloc, checked, operator, node, left.0, values, next)
            }
            CodeNode::Stop
            | CodeNode::Exit(..)
            | CodeNode::Inner(..)
            | CodeNode::Act { .. }
            | CodeNode::Guard(..)
            | CodeNode::Let(..)
            | CodeNode::Values(..)
            | CodeNode::Gates(..)
            | CodeNode::Call { .. } => waiting_at(alloc, checked, node, values, next),
            CodeNode::Process { .. } => nothing(alloc, next),
        },
    }
}
