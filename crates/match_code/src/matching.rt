// Which equation matches a call.

ghost use Rattle.std.specs.Prelude.{◌≡◌, IfSome, length};
ghost use Rattle.spec_core.specs.Executable.{IsExecutable};
ghost use Rattle.spec_core.specs.Lists.{Each};
ghost use Rattle.spec_core.specs.Terms.{apply};
ghost use Rattle.spec_core.specs.Theories.{theory_of};
ghost use Rattle.value_nodes.specs.Nodes.{IsNode};
ghost use Rattle.rewriter.specs.Calls.{arguments_of, HasRoom};
ghost use Rattle.rewriter.specs.Steps.{equation_at, IsMatch};
ghost use Rattle.match_code.specs.Rights.{AreForms, IsRule};

use crate::rights::{Forms, Right};
use crate::trees::Trees;
use rewriter::call::fits;
use rewriter::values::Values;
use spec_core::equation::DataSpec;
use spec_core::items::Op;
use value_nodes::node::Nodes;

// Of the equations that stand at a point of a tree the first one that matches an operation over so many values.
fn match_at(
    algebra: &DataSpec,
    trees: &Trees,
    nodes: &Nodes,
    values: &Values,
    bound: &mut [u32],
    op: Op,
    count: usize,
    point: u32,
) -> Option<usize>
    requires executable { IsExecutable (theory_of algebra.now) }
    requires room { HasRoom (theory_of algebra.now) (length bound.old) }
    requires values { Each (IsNode nodes.now) values.now }
    ensures room { length bound.new ≡ length bound.old }
    ensures fits { IfSome result (λ place.
        IsMatch nodes.now bound.new (equation_at (theory_of algebra.now) place).left
        (apply op.0 (arguments_of nodes.now count values.now))) }
{
    let mut next = trees.first(point);
    for _turn in 0..algebra.equations.len() {
        match next {
            None => return None,
            Some(number) => {
                let place = number as usize;
                if place < algebra.equations.len()
                    && fits(algebra, nodes, values, bound, place, op, count)
                {
                    return Some(place);
                }
                next = trees.after(number);
            }
        }
    }
    None
}

// The same from a point on, if there is one, where these of the arguments are left to be asked: what stands there, then what the head of
// the next argument leads to, then what a variable leads to. It recurs as deep as there are arguments.
fn seek(
    algebra: &DataSpec,
    trees: &Trees,
    nodes: &Nodes,
    values: &Values,
    bound: &mut [u32],
    op: Op,
    count: usize,
    left: &[u32],
    point: Option<u32>,
) -> Option<usize>
    requires executable { IsExecutable (theory_of algebra.now) }
    requires room { HasRoom (theory_of algebra.now) (length bound.old) }
    requires values { Each (IsNode nodes.now) values.now }
    requires left { Each (IsNode nodes.now) left.now }
    ensures room { length bound.new ≡ length bound.old }
    ensures fits { IfSome result (λ place.
        IsMatch nodes.now bound.new (equation_at (theory_of algebra.now) place).left
        (apply op.0 (arguments_of nodes.now count values.now))) }
{
    let there = point?;
    match match_at(algebra, trees, nodes, values, bound, op, count, there) {
        Some(place) => Some(place),
        None => match left {
            [] => None,
            [arg, others @ ..] => {
                let branch = trees.branch(there, nodes.op(*arg));
                match seek(
                    algebra, trees, nodes, values, bound, op, count, others, branch,
                ) {
                    Some(place) => Some(place),
                    None => {
                        let rest = trees.rest(there);
                        seek(
                            algebra, trees, nodes, values, bound, op, count, others, rest,
                        )
                    }
                }
            }
        },
    }
}

/// The right side of an equation that matches an operation over so many values from the top, with the nodes for which its variables stand
/// in `bound`; none where no equation is found that matches, or one of the operation has a premise. It recurs as deep as there are values
/// and as left sides nest, and takes no memory.
pub fn rule_for<'f>(
    algebra: &DataSpec,
    forms: &'f Forms,
    nodes: &Nodes,
    values: &Values,
    bound: &mut [u32],
    op: Op,
    count: usize,
) -> Option<&'f Right>
    requires forms { AreForms (theory_of algebra.now) forms.now }
    requires room { HasRoom (theory_of algebra.now) (length bound.old) }
    requires values { Each (IsNode nodes.now) values.now }
    ensures room { length bound.new ≡ length bound.old }
    ensures rule { IfSome result (λ r. IsRule (theory_of algebra.now) nodes.now bound.new op.0 count values.now r.now) }
{
    if !forms.is_unconditional(op) {
        return None;
    }
    let trees = &forms.trees;
    match seek(
        algebra,
        trees,
        nodes,
        values,
        bound,
        op,
        count,
        values.top(count),
        trees.root(op),
    ) {
        None => None,
        Some(place) => forms.right(place),
    }
}
