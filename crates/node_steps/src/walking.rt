// The ways in which a node can act.

ghost use Rattle.std.specs.Prelude.{◌≡◌, IfOk, IfErr, IfSome, IfNone, map};
ghost use Rattle.spec_core.specs.Code.{program_of, relabelling_of, synchronised_of};
ghost use Rattle.spec_core.specs.Ready.{IsReady};
ghost use Rattle.rule_model.specs.Behaviours.{parallel};
ghost use Rattle.rule_model.specs.Constructs.{OnParallel};
ghost use Rattle.rule_origins.specs.Parts.{behaviour_at};
ghost use Rattle.rule_origins.specs.Values.{assignment};
ghost use Rattle.node_values.specs.Stops.{Stops, Never};
ghost use Rattle.symbolic_plans.specs.Parts.{plan_of_part};
ghost use Rattle.symbolic_plans.specs.Plans.{below, together, plan_of};
ghost use Rattle.node_trees.specs.Origins.{meaning, relabelled_by, source_of};
ghost use Rattle.node_trees.specs.Rests.{way_of, IsWayOf, does_of, remainder_of, left_beside};
ghost use Rattle.symbolic_reach.specs.Asking.{PlanAsks};
ghost use Rattle.node_values.specs.Prepared.{program_in};
ghost use Rattle.node_steps.specs.Asking.{WithinAsks};
ghost use Rattle.node_steps.specs.Blanks.{blank_tree, DoesNothingBy};
ghost use Rattle.node_steps.specs.Parts.{own_or};
ghost use Rattle.node_steps.specs.Frames.{standing};
ghost use Rattle.node_steps.specs.Turns.{TurnsOr, WithinOr};

use crate::choices::past_choices;
use crate::entering::{enter, enter_ending, enter_hidden};
use crate::leaves::{acts, acts_inside, terminates};
use crate::leaving::leave;
use crate::sites::site_of;
use crate::turn::{Entered, Site, Turn};
use crate::widths::{after_row, after_scheme};
use node_trees::expansion::Alternative;
use node_trees::origin::Origin;
use node_trees::rest::Rest;
use node_values::Prepared;
use node_values::stop::Stop;
use rule_origins::code::construct_at;
use spec_core::code::{Checked, CodeNode, GateSet};
use spec_core::memory::Memory;
use spec_core::value::Value;
use std::alloc::Global;
use symbolic_plans::part::{FirstRule, SchemePart};
use symbolic_plans::scheme::{Row, Scheme};

// The gates and the numbers of the sides of a parallel composition.
fn sides<'a>(checked: &'a Checked, site: &Site) -> Option<(&'a GateSet, u32, u32)>
    requires ready { IsReady (program_of checked.now) }
    ensures some { IfSome result (λ r. standing (program_of checked.now) site.now ≡
        parallel (synchronised_of r.0.now) (behaviour_at (program_of checked.now) r.1) (behaviour_at (program_of checked.now) r.2)) }
    ensures none { IfNone result (OnParallel (standing (program_of checked.now) site.now) (λ gates left right. Unit {0}) → ⊥) }
{
    match site {
        Site::Renamed(_, _) | Site::Called(_, _, _) => None,
        Site::At(number) => match construct_at(checked, *number) {
            None => None,
            Some(construct) => match construct {
                CodeNode::Par(gates, left, right) => Some((gates, left.0, right.0)),
                _ => None,
            },
        },
    }
}

// What is done and left of two sides that act together: both do one action.
fn side_by_side(alloc: Global, gates: &GateSet, first: Turn, second: Turn) -> Result<Turn, Memory>
    ensures action { IfOk result (λ t. does_of t.action ≡ does_of first.action) }
    ensures rest { IfOk result (λ t. remainder_of t.rest ≡
        left_beside (synchronised_of gates.now) (remainder_of first.rest) (remainder_of second.rest)) }
{
    let Turn { action, rest: left } = first;
    let Turn {
        action: _,
        rest: right,
    } = second;
    let rest = Rest::parallel(alloc, gates.copy(alloc)?, left, right)?;
    Ok(Turn { action, rest })
}

// The values for a part's variables: its own, or those of the whole.
fn values_within<'a>(
    values: &'a [(u32, Value)],
    own: &'a Option<Vec<(u32, Value)>>,
) -> &'a [(u32, Value)]
    ensures { result.now ≡ own_or values.now own.now }
{
    match own {
        None => values,
        Some(more) => more.as_slice(),
    }
}

// What is done and left by the trees of a plan, whose chosen values stand in the whole tree from a place on.
#[cycle(walk)]
fn walk(
    alloc: Global,
    prepared: &Prepared,
    site: &Site,
    values: &[(u32, Value)],
    part: SchemePart<'_>,
    from: u32,
    budget: u64,
) -> Result<Option<Turn>, Stop>
    requires ready { IsReady (program_in prepared.now) }
    ensures turns { IfOk result (TurnsOr (program_in prepared.now) from (assignment (program_in prepared.now).theory values.now)
        (standing (program_in prepared.now) site.now) (plan_of_part part.entry)) }
    ensures fault { IfErr result (Stops (program_in prepared.now).theory budget (PlanAsks (program_in prepared.now)
        (plan_of_part part.entry) (assignment (program_in prepared.now).theory values.now)
        (standing (program_in prepared.now) site.now)) Never) }
{
    match part.first() {
        FirstRule::Pre(_) => acts(alloc, prepared, site, values, from, budget),
        FirstRule::Int => Ok(acts_inside(alloc, prepared.checked, site, values)?),
        FirstRule::Exit(_) => terminates(alloc, prepared, site, values, from, budget),
        FirstRule::Under(row, rest) => walk_under(
            alloc, prepared, site, values, row, rest, from, budget,
        ),
        FirstRule::Hide(_, body) => {
            let entered = enter_hidden(alloc, prepared.checked, site, values)?;
            walk_within(alloc, prepared, values, entered, body.whole(), from, budget)
        }
        FirstRule::Enend(_, left) => {
            let entered = enter_ending(alloc, prepared.checked, site, values)?;
            walk_within(alloc, prepared, values, entered, left.whole(), from, budget)
        }
        FirstRule::Both(left, right) => {
            walk_both(alloc, prepared, site, values, left, right, from, budget)
        }
    }
}

// The same under a rule.
#[cycle(walk)]
fn walk_under(
    alloc: Global,
    prepared: &Prepared,
    site: &Site,
    values: &[(u32, Value)],
    row: &Row,
    part: SchemePart<'_>,
    from: u32,
    budget: u64,
) -> Result<Option<Turn>, Stop>
    requires ready { IsReady (program_in prepared.now) }
    ensures turns { IfOk result (TurnsOr (program_in prepared.now) from (assignment (program_in prepared.now).theory values.now)
        (standing (program_in prepared.now) site.now) (below row.now (plan_of_part part.entry))) }
    ensures fault { IfErr result (Stops (program_in prepared.now).theory budget (PlanAsks (program_in prepared.now)
        (below row.now (plan_of_part part.entry)) (assignment (program_in prepared.now).theory values.now)
        (standing (program_in prepared.now) site.now)) Never) }
{
    let entered = enter(alloc, prepared, site, values, row, budget)?;
    let inner = after_row(row, from)?;
    walk_within(alloc, prepared, values, entered, part, inner, budget)
}

// The same of a part, if it was entered, and then of the whole.
#[cycle(walk)]
fn walk_within(
    alloc: Global,
    prepared: &Prepared,
    values: &[(u32, Value)],
    entered: Option<Entered>,
    part: SchemePart<'_>,
    from: u32,
    budget: u64,
) -> Result<Option<Turn>, Stop>
    requires ready { IsReady (program_in prepared.now) }
    ensures turns { IfOk result (WithinOr (program_in prepared.now) from values.now entered (plan_of_part part.entry)) }
    ensures fault { IfErr result (Stops (program_in prepared.now).theory budget
        (WithinAsks (program_in prepared.now) values.now entered (plan_of_part part.entry)) Never) }
{
    match entered {
        None => Ok(None),
        Some(found) => {
            let Entered {
                site,
                values: own,
                frame,
            } = found;
            let inner = values_within(values, &own);
            let (place, rest) = past_choices(prepared.checked, site, part);
            match walk(alloc, prepared, &place, inner, rest, from, budget)? {
                None => Ok(None),
                Some(turn) => Ok(leave(alloc, prepared.checked, values, frame, turn)?),
            }
        }
    }
}

// The same of two sides that act together.
#[cycle(walk)]
fn walk_both(
    alloc: Global,
    prepared: &Prepared,
    site: &Site,
    values: &[(u32, Value)],
    left: &Scheme,
    right: &Scheme,
    from: u32,
    budget: u64,
) -> Result<Option<Turn>, Stop>
    requires ready { IsReady (program_in prepared.now) }
    ensures turns { IfOk result (TurnsOr (program_in prepared.now) from (assignment (program_in prepared.now).theory values.now)
        (standing (program_in prepared.now) site.now) (together (plan_of left.now) (plan_of right.now))) }
    ensures fault { IfErr result (Stops (program_in prepared.now).theory budget (PlanAsks (program_in prepared.now)
        (together (plan_of left.now) (plan_of right.now)) (assignment (program_in prepared.now).theory values.now)
        (standing (program_in prepared.now) site.now)) Never) }
{
    match sides(prepared.checked, site) {
        None => Ok(None),
        Some((gates, one, other)) => {
            match walk(
                alloc,
                prepared,
                &Site::At(one),
                values,
                left.whole(),
                from,
                budget,
            )? {
                None => Ok(None),
                Some(first) => {
                    let next = after_scheme(left, from)?;
                    match walk(
                        alloc,
                        prepared,
                        &Site::At(other),
                        values,
                        right.whole(),
                        next,
                        budget,
                    )? {
                        None => Ok(None),
                        Some(second) => Ok(Some(side_by_side(alloc, gates, first, second)?)),
                    }
                }
            }
        }
    }
}

/// The way in which what an origin stands for acts by the trees of a composite: the tree of rules, with a blank in the place of each
/// value that is left open, the action, and what is left then. None where it does nothing by any of the trees, as where one has a mark.
/// Each value that is told is found with at most `budget` uses of equations; premises aren't asked. A stop names a term of an expression
/// along the trees. It recurs as deep as the tree, where sides of choices one below the other count once, and the terms, are.
pub fn way_along(
    alloc: Global,
    prepared: &Prepared,
    origin: &Origin,
    scheme: &Scheme,
    budget: u64,
) -> Result<Option<Alternative>, Stop>
    requires ready { IsReady (program_in prepared.now) }
    ensures way { IfOk result (λ o. IfSome o (λ a.
        IsWayOf (program_in prepared.now) (meaning (program_in prepared.now) (source_of origin.now)) (way_of a))) }
    ensures rules { IfOk result (λ o. IfSome o (λ a. (way_of a).rules ≡ blank_tree (plan_of scheme.now))) }
    ensures none { IfOk result (λ o. IfNone o
        (DoesNothingBy (program_in prepared.now) (meaning (program_in prepared.now) (source_of origin.now)) (plan_of scheme.now))) }
    ensures stop { IfErr result (Stops (program_in prepared.now).theory budget (PlanAsks (program_in prepared.now) (plan_of scheme.now)
        (assignment (program_in prepared.now).theory origin.now.values.items)
        (relabelled_by (map relabelling_of origin.now.relabel.items) (behaviour_at (program_in prepared.now) origin.now.node))) Never) }
{
    let site = site_of(alloc, prepared.checked, origin)?;
    match walk(
        alloc,
        prepared,
        &site,
        &origin.values,
        scheme.whole(),
        0,
        budget,
    )? {
        None => Ok(None),
        Some(turn) => {
            let scheme = scheme.copy(alloc)?;
            let Turn { action, rest } = turn;
            Ok(Some(Alternative {
                scheme,
                action,
                rest,
            }))
        }
    }
}
