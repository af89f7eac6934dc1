// The composites of a tree of nodes, as far as they are known.

ghost use Rattle.std.specs.Prelude.{◌≡◌, ◌++◌, ◌∷◌, IfOk, map, filter, flat_map};
ghost use Rattle.spec_core.specs.Code.{synchronised_of};
ghost use Rattle.spec_core.specs.Theories.{theory_of};
ghost use Rattle.symbolic_plans.specs.OpenPlans.{open_plan_of};
ghost use Rattle.symbolic_plans.specs.declared.scheme.Row.TheVariants.{Parl};
ghost use Rattle.candidate_laws.specs.Sought.{with_another};
ghost use Rattle.node_trees.specs.Shapes as nodes;
ghost use Rattle.node_trees.specs.Shapes.{between, shape_of, held_of};
ghost use Rattle.candidate_composites.specs.Known.{made, found_of, placed_of, sought_in, plans_sought, stepped};
ghost use Rattle.candidate_composites.specs.Known.{expanded_plans, has_made, sought_plans};
ghost use Rattle.candidate_composites.specs.Contexts as contexts;
ghost use Rattle.candidate_composites.specs.Contexts.{all_through, alone_by, turns_of};
ghost use Rattle.candidate_composites.specs.Joining.{free, joining_of};
ghost use Rattle.candidate_composites.specs.Kept as kept;
ghost use Rattle.candidate_composites.specs.Kept.{is_kept, kept_at, kept_beside, kept_partners, kept_plans, listed_for, meeting};
ghost use Rattle.candidate_composites.specs.Kept.{node_waits, some_waits, staying};

use crate::context::{Context, Turn, put_all_through, put_through};
use crate::found::{Found, Given, composites, parts};
use crate::joining::{Joining, right_of};
use crate::listed::Listed;
use crate::operators::{all_together, keeps, some_joint};
use crate::part::Part;
use crate::sought::{Sought, sought_below};
use crate::step::Step;
use node_trees::branch::{Branch, Double};
use node_trees::node::Node;
use spec_core::code::GateSet;
use spec_core::equation::DataSpec;
use spec_core::memory::Memory;
use std::alloc::Global;
use symbolic_plans::composite::OpenComposite;

// Whether a node waits for its expansion.
fn node_waits(node: &Node) -> bool
    ensures { result ≡ node_waits (held_of node.now).work }
{
    match &node.work {
        None => true,
        Some(_) => false,
    }
}

/// Whether some node waits for its expansion. It takes no memory, and recurs as deep as operators nest.
pub fn some_waits(branch: &Branch) -> bool
    ensures { result ≡ some_waits (shape_of branch.now) }
{
    match branch {
        Branch::Leaf(node) => node_waits(node),
        Branch::Ended => false,
        Branch::Over(_, part) => some_waits(part),
        Branch::Between(_, left, right) => some_waits(left) || some_waits(right),
    }
}

// What is listed of the composites that are sought.
fn listed_for(branch: &Branch, sought: &Sought) -> Listed
    ensures { result ≡ listed_for (sought_in sought.now) (shape_of branch.now) }
{
    match sought {
        Sought::Every => if some_waits(branch) {
            Listed::All
        } else {
            Listed::Pruned
        },
        Sought::These(_) => Listed::Pruned,
    }
}

/// Whether some of a node's own composites is of an action that is sought, and may come up.
pub(crate) fn is_some_kept(
    composites: &[OpenComposite],
    sought: &Sought,
    joining: Joining<'_, '_>,
) -> bool
    ensures { result ≡ has_made (map made
        (filter (λ p. is_kept (sought_in sought.now) (joining_of joining.entry) p.kind) (map open_plan_of composites.now))) }
{
    for composite in composites {
        if joining.lets(composite.kind) && sought.seeks(composite.kind) {
            return true;
        }
    }
    false
}

// Appends what the operators above make of those of a node's own composites whose actions are sought, and may come up.
fn put_own<'a>(
    alloc: Global,
    composites: &'a [OpenComposite],
    sought: &Sought,
    joining: Joining<'a, '_>,
    context: &Context<'a, '_>,
    all: &mut Vec<Found<'a>>,
) -> Result<(), Memory>
    ensures { IfOk result (λ _. map found_of all.new.items ≡ map found_of all.old.items ++ all_through (turns_of context.now) (map made
        (filter (λ p. is_kept (sought_in sought.now) (joining_of joining.entry) p.kind) (map open_plan_of composites.now)))) }
{
    for composite in composites {
        if joining.lets(composite.kind) && sought.seeks(composite.kind) {
            put_through(alloc, context, Found::Composite(Given::Own(composite)), all)?;
        }
    }
    Ok(())
}

// Appends what the operators above make of those composites of a node whose actions are sought, and may come up; or of a gap, where gaps
// are listed.
#[inline(never)]
fn put_at_node<'a>(
    alloc: Global,
    node: &'a Node,
    listed: Listed,
    sought: &Sought,
    joining: Joining<'a, '_>,
    context: &Context<'a, '_>,
    all: &mut Vec<Found<'a>>,
) -> Result<(), Memory>
    ensures { IfOk result (λ _. map found_of all.new.items ≡ map found_of all.old.items ++ all_through (turns_of context.now)
        (kept_at listed (sought_in sought.now) (joining_of joining.entry) (held_of node.now).generation (held_of node.now).work)) }
{
    match &node.work {
        None => if listed.has_gaps() {
            let gap = Found::Gap(node.generation, Vec::new(alloc));
            put_through(alloc, context, gap, all)
        } else {
            Ok(())
        },
        Some(expansion) => { put_own(alloc, &expansion.composites, sought, joining, context, all) }
    }
}

// Whether the left side of a parallel composition has something that it may do together with the right one, and of which something is
// sought.
#[inline(never)]
fn some_meets(
    alloc: Global,
    gates: &GateSet,
    sought: &Sought,
    left: &[Found<'_>],
) -> Result<bool, Memory>
    ensures { IfOk result (λ some. some ≡ contexts.some_joint (synchronised_of gates.now)
        (meeting (synchronised_of gates.now) (sought_in sought.now) (map found_of left.now))) }
{
    if left.is_empty() {
        return Ok(false);
    }
    let below = sought_below(alloc, &Step::Together(gates), sought)?;
    if below.seeks_some() {
        some_joint(alloc, gates, &below, left)
    } else {
        Ok(false)
    }
}

// Appends what the operators above make of these, without the gaps of which nothing comes that is sought.
fn put_keeping<'a>(
    alloc: Global,
    sought: &Sought,
    those: Vec<Found<'a>>,
    context: &Context<'a, '_>,
    all: &mut Vec<Found<'a>>,
) -> Result<(), Memory>
    ensures { IfOk result (λ _. map found_of all.new.items ≡ map found_of all.old.items ++
        all_through (turns_of context.now) (filter (kept.keeps (sought_in sought.now)) (map found_of those.entry.items))) }
{
    for found in those {
        if keeps(alloc, sought, &found)? {
            put_through(alloc, context, found, all)?;
        }
    }
    Ok(())
}

// Appends what the operators above make of what the left side of a parallel composition does alone, if something is sought of that.
#[inline(never)]
fn put_left<'a>(
    alloc: Global,
    gates: &'a GateSet,
    sought: &Sought,
    left: Vec<Found<'a>>,
    context: &Context<'a, '_>,
    all: &mut Vec<Found<'a>>,
) -> Result<(), Memory>
    ensures { IfOk result (λ _. map found_of all.new.items ≡ map found_of all.old.items ++
        all_through (alone_by (synchronised_of gates.now) Parl ∷ turns_of context.now)
        (staying (synchronised_of gates.now) (sought_in sought.now) (map found_of left.entry.items))) }
{
    if left.is_empty() {
        return Ok(());
    }
    let below = sought_below(alloc, &Step::Alone(gates), sought)?;
    if below.seeks_some() {
        let at_left = Context::under(Turn::Left(gates), &*context);
        put_keeping(alloc, &below, left, &at_left, all)
    } else {
        Ok(())
    }
}

// What both sides of a parallel composition do together, of what is sought there.
fn kept_together<'a>(
    alloc: Global,
    algebra: &DataSpec,
    gates: &'a GateSet,
    sought: &Sought,
    left: &[Found<'a>],
    right: &[Found<'a>],
) -> Result<Vec<Found<'a>>, Memory>
    ensures { IfOk result (λ all. map found_of all.items ≡ flat_map (stepped (with_another (synchronised_of gates.now))
        (kept_partners (theory_of algebra.now) (synchronised_of gates.now) (sought_in sought.now) (map found_of right.now)))
        (meeting (synchronised_of gates.now) (sought_in sought.now) (map found_of left.now))) }
{
    let below = sought_below(alloc, &Step::Together(gates), sought)?;
    if below.seeks_some() {
        all_together(alloc, algebra, gates, sought, &below, left, right)
    } else {
        Ok(Vec::new(alloc))
    }
}

// Appends what the operators above make of what the sides of a parallel composition do alone, and of what they do together. What both do
// together is made first, so that what one side does alone is made of its composites themselves and not of copies.
#[inline(never)]
fn put_beside<'a>(
    alloc: Global,
    algebra: &DataSpec,
    gates: &'a GateSet,
    sought: &Sought,
    left: Vec<Found<'a>>,
    right: Vec<Found<'a>>,
    context: &Context<'a, '_>,
    all: &mut Vec<Found<'a>>,
) -> Result<(), Memory>
    ensures { IfOk result (λ _. map found_of all.new.items ≡ map found_of all.old.items ++ all_through (turns_of context.now)
        (kept_beside (theory_of algebra.now) (synchronised_of gates.now) (sought_in sought.now)
        (staying (synchronised_of gates.now) (sought_in sought.now) (map found_of left.entry.items))
        (meeting (synchronised_of gates.now) (sought_in sought.now) (map found_of left.entry.items))
        (map found_of right.entry.items))) }
{
    let together = kept_together(alloc, algebra, gates, sought, &left, &right)?;
    put_left(alloc, gates, sought, left, &*context, all)?;
    let at_right = Context::under(Turn::Right(gates), &*context);
    put_all_through(alloc, &at_right, right, all)?;
    put_all_through(alloc, context, together, all)
}

// Appends what `put_kept` says of a parallel composition. Where its left side has nothing that it may do together with the right one and of
// which something is sought, the right side's composites go at once where those of the whole go; else the sides' lists are made by
// themselves.
#[cycle(put_kept)]
#[inline(never)]
fn put_parallel<'a>(
    alloc: Global,
    algebra: &DataSpec,
    gates: &'a GateSet,
    left: &'a Branch,
    right: &'a Branch,
    listed: Listed,
    sought: &Sought,
    joining: Joining<'a, '_>,
    context: &Context<'a, '_>,
    all: &mut Vec<Found<'a>>,
) -> Result<(), Memory>
    ensures { IfOk result (λ _. map found_of all.new.items ≡ map found_of all.old.items ++ all_through (turns_of context.now)
        (kept_plans (theory_of algebra.now) listed
        (between (nodes.beside (synchronised_of gates.now)) (shape_of left.now) (shape_of right.now))
        (sought_in sought.now) (joining_of joining.entry))) }
{
    let mut first = Vec::new(alloc);
    put_kept(
        alloc,
        algebra,
        left,
        listed,
        sought,
        joining,
        &Context::Whole,
        &mut first,
    )?;
    let meets = some_meets(alloc, gates, sought, &first)?;
    if meets {
        let above = right_of(listed, gates, &first, joining);
        let mut second = Vec::new(alloc);
        put_kept(
            alloc,
            algebra,
            right,
            listed,
            sought,
            above,
            &Context::Whole,
            &mut second,
        )?;
        put_beside(alloc, algebra, gates, sought, first, second, &*context, all)
    } else {
        put_left(alloc, gates, sought, first, &*context, all)?;
        let above = right_of(listed, gates, &[], joining);
        let at_right = Context::under(Turn::Right(gates), &*context);
        put_kept(alloc, algebra, right, listed, sought, above, &at_right, all)
    }
}

// Appends what the operators above make of the composites of a tree that are made of those of its nodes whose actions are sought at the
// whole, and of the gaps with the steps from them up to the whole, as far as they are listed.
#[cycle(put_kept)]
fn put_kept<'a>(
    alloc: Global,
    algebra: &DataSpec,
    branch: &'a Branch,
    listed: Listed,
    sought: &Sought,
    joining: Joining<'a, '_>,
    context: &Context<'a, '_>,
    all: &mut Vec<Found<'a>>,
) -> Result<(), Memory>
    ensures { IfOk result (λ _. map found_of all.new.items ≡ map found_of all.old.items ++ all_through (turns_of context.now)
        (kept_plans (theory_of algebra.now) listed (shape_of branch.now) (sought_in sought.now) (joining_of joining.entry))) }
{
    match branch {
        Branch::Leaf(node) => put_at_node(alloc, node, listed, sought, joining, &*context, all),
        Branch::Ended => Ok(()),
        Branch::Over(operator, part) => {
            let below = sought_below(alloc, &Step::Under(operator), sought)?;
            let under = Context::Over(operator, &*context);
            put_kept(
                alloc,
                algebra,
                part,
                listed,
                &below,
                Joining::Free,
                &under,
                all,
            )
        }
        Branch::Between(operator, left, right) => match operator {
            Double::Choice => {
                let at_left = Context::under(Turn::First, &*context);
                put_kept(alloc, algebra, left, listed, sought, joining, &at_left, all)?;
                let at_right = Context::under(Turn::Second, &*context);
                put_kept(
                    alloc, algebra, right, listed, sought, joining, &at_right, all,
                )
            }
            Double::Disable => {
                let at_left = Context::under(Turn::Disabled, &*context);
                put_kept(alloc, algebra, left, listed, sought, joining, &at_left, all)?;
                let at_right = Context::under(Turn::Disabling, &*context);
                put_kept(
                    alloc, algebra, right, listed, sought, joining, &at_right, all,
                )
            }
            Double::Par(gates) => put_parallel(
                alloc, algebra, gates, left, right, listed, sought, joining, context, all,
            ),
        },
    }
}

// The composites of the whole that are listed, of those that are made of nodes' composites whose actions are sought, and the gaps.
fn kept_found<'a>(
    alloc: Global,
    algebra: &DataSpec,
    branch: &'a Branch,
    listed: Listed,
    sought: &Sought,
) -> Result<Vec<Found<'a>>, Memory>
    ensures { IfOk result (λ all. map found_of all.items ≡
        kept_plans (theory_of algebra.now) listed (shape_of branch.now) (sought_in sought.now) free) }
{
    let mut all = Vec::new(alloc);
    put_kept(
        alloc,
        algebra,
        branch,
        listed,
        sought,
        Joining::Free,
        &Context::Whole,
        &mut all,
    )?;
    Ok(all)
}

/// The composites of a tree of which every participant is an expanded node, in the order of trees of rules. It recurs as deep as operators
/// nest, and makes nothing of nodes that wait.
pub fn expanded_composites(
    alloc: Global,
    algebra: &DataSpec,
    branch: &Branch,
) -> Result<Vec<OpenComposite>, Memory>
    ensures expanded { IfOk result (λ all. map open_plan_of all.items ≡ expanded_plans (theory_of algebra.now) (shape_of branch.now)) }
{
    let all = kept_found(alloc, algebra, branch, Listed::Expanded, &Sought::Every)?;
    composites(alloc, all)
}

/// The composites of a tree whose actions are sought, and each gap from below whose steps such an action can come, in the order of trees of
/// rules, with the steps from each gap up to the whole; beside them there may be others, which aren't sought. It recurs as deep as operators
/// nest.
pub fn sought_composites<'a>(
    alloc: Global,
    algebra: &DataSpec,
    branch: &'a Branch,
    sought: &Sought,
) -> Result<Vec<Part<'a>>, Memory>
    ensures sought { IfOk result (λ all. flat_map (plans_sought (sought_in sought.now)) (map placed_of all.items) ≡
        sought_plans (theory_of algebra.now) (shape_of branch.now) (sought_in sought.now)) }
{
    let listed = listed_for(branch, sought);
    let all = kept_found(alloc, algebra, branch, listed, sought)?;
    parts(alloc, all)
}
