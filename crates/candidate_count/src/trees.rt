// The walk along a plan in a tree of nodes.

ghost use Rattle.std.specs.Prelude.{◌≡◌};
ghost use Rattle.spec_core.specs.Code.{program_of};
ghost use Rattle.spec_core.specs.Ready.{IsReady};
ghost use Rattle.symbolic_plans.specs.Parts.{plan_of_part};
ghost use Rattle.symbolic_plans.specs.Plans.{plan_of};
ghost use Rattle.node_trees.specs.Origins.{meaning, source_of};
ghost use Rattle.node_trees.specs.Shapes.{applied, joined, shape_of, stands_for, unary_of, binary_of};
ghost use Rattle.candidate_count.specs.Predicates as predicates;

use crate::places::place_of;
use crate::walking;
use node_trees::branch::{Branch, Double, Single};
use node_trees::origin::Origin;
use spec_core::code::Checked;
use symbolic_plans::part::{FirstRule, SchemePart};
use symbolic_plans::scheme::{Row, Scheme};

// Whether along a plan an action prefix of what an origin stands for has a selection predicate.
fn in_origin(checked: &Checked, origin: &Origin, plan: SchemePart<'_>) -> bool
    requires ready { IsReady (program_of checked.now) }
    ensures { result ≡ predicates.has_predicate (program_of checked.now) (plan_of_part plan.entry)
        (meaning (program_of checked.now) (source_of origin.now)) }
{
    walking::has_predicate(checked, place_of(checked, origin), plan)
}

/// Whether along a plan an action prefix of what the tree stands for has a selection predicate. It takes no memory, and recurs as deep as
/// operators nest and the plan is.
pub fn has_predicate(checked: &Checked, branch: &Branch, scheme: &Scheme) -> bool
    requires ready { IsReady (program_of checked.now) }
    ensures predicate { result ≡ predicates.has_predicate (program_of checked.now) (plan_of scheme.now)
        (stands_for (program_of checked.now) (shape_of branch.now)) }
{
    in_branch(checked, branch, scheme.whole())
}

// The same along a part of a plan.
#[cycle(in_branch)]
fn in_branch(checked: &Checked, branch: &Branch, plan: SchemePart<'_>) -> bool
    requires ready { IsReady (program_of checked.now) }
    ensures predicate { result ≡ predicates.has_predicate (program_of checked.now) (plan_of_part plan.entry)
        (stands_for (program_of checked.now) (shape_of branch.now)) }
{
    match branch {
        Branch::Leaf(node) => in_origin(checked, &node.origin, plan),
        Branch::Ended => false,
        Branch::Over(operator, part) => over_part(checked, operator, part, plan),
        Branch::Between(operator, left, right) => {
            between_sides(checked, operator, left, right, plan)
        }
    }
}

// The same of an operator over one part.
#[cycle(in_branch)]
fn over_part(checked: &Checked, operator: &Single, part: &Branch, plan: SchemePart<'_>) -> bool
    requires ready { IsReady (program_of checked.now) }
    ensures { result ≡ predicates.has_predicate (program_of checked.now) (plan_of_part plan.entry)
        (applied (program_of checked.now) (unary_of operator.now) (stands_for (program_of checked.now) (shape_of part.now))) }
{
    match operator {
        Single::Hide(_) => match plan.first() {
            FirstRule::Hide(_, inner) => in_branch(checked, part, inner.whole()),
            FirstRule::Under(Row::Pass, inner) => in_branch(checked, part, inner),
            _ => false,
        },
        Single::Relabel(_) => match plan.first() {
            FirstRule::Under(Row::Rel, inner) => in_branch(checked, part, inner),
            _ => false,
        },
        Single::Enable { .. } => match plan.first() {
            FirstRule::Enend(_, inner) => in_branch(checked, part, inner.whole()),
            FirstRule::Under(Row::Enstep, inner) => in_branch(checked, part, inner),
            _ => false,
        },
    }
}

// The same of an operator over two parts.
#[cycle(in_branch)]
fn between_sides(
    checked: &Checked,
    operator: &Double,
    left: &Branch,
    right: &Branch,
    plan: SchemePart<'_>,
) -> bool
    requires ready { IsReady (program_of checked.now) }
    ensures { result ≡ predicates.has_predicate (program_of checked.now) (plan_of_part plan.entry)
        (joined (binary_of operator.now) (stands_for (program_of checked.now) (shape_of left.now))
        (stands_for (program_of checked.now) (shape_of right.now))) }
{
    match operator {
        Double::Choice => match plan.first() {
            FirstRule::Under(Row::Chl, inner) => in_branch(checked, left, inner),
            FirstRule::Under(Row::Chr, inner) => in_branch(checked, right, inner),
            _ => false,
        },
        Double::Par(_) => match plan.first() {
            FirstRule::Under(Row::Parl, inner) => in_branch(checked, left, inner),
            FirstRule::Under(Row::Parr, inner) => in_branch(checked, right, inner),
            FirstRule::Both(one, other) => {
                in_branch(checked, left, one.whole()) || in_branch(checked, right, other.whole())
            }
            _ => false,
        },
        Double::Disable => match plan.first() {
            FirstRule::Under(Row::Disstep, inner) => in_branch(checked, left, inner),
            FirstRule::Under(Row::Disend, inner) => in_branch(checked, left, inner),
            FirstRule::Under(Row::Distake, inner) => in_branch(checked, right, inner),
            _ => false,
        },
    }
}
