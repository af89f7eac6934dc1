// A step of a node.

ghost use Rattle.std.specs.Prelude.{◌≡◌, ◌∷◌, ◌↔◌, IfOk, IsTrue, Some, map};
ghost use Rattle.spec_core.specs.Code.{program_of};
ghost use Rattle.spec_core.specs.Ready.{IsReady};
ghost use Rattle.rule_model.specs.Derivations.{derivation_of};
ghost use Rattle.symbolic_plans.specs.Plans.{plan_of};
ghost use Rattle.node_trees.specs.Generations.{IsFresh};
ghost use Rattle.node_trees.specs.Origins.{source_of, meaning};
ghost use Rattle.node_trees.specs.Blanks.{blank_tree};
ghost use Rattle.node_trees.specs.Rests.{way_of, expansion_of, rows_of, slots_of, AreFilled, Fills};
ghost use Rattle.node_trees.specs.Shapes.{shape_of, held_of, leaf};
ghost use Rattle.board_tree.specs.Changes.{changed};
ghost use Rattle.board_tree.specs.Steps.{Acts, Moves};

use crate::change::Change;
use node_trees::blanks::{has_rows, put_blank_rows, put_blanks};
use node_trees::branch::Branch;
use node_trees::expansion::{Alternative, Expansion};
use node_trees::fresh::{Fresh, nothing};
use node_trees::left::{done_in, unfolded_rest};
use node_trees::node::Node;
use node_trees::origin::Origin;
use node_trees::rows::{are_filled, put_rows, put_slots};
use rule_model::action::Action;
use rule_model::rules::{Rules, Slot};
use spec_core::code::Checked;
use spec_core::memory::Memory;
use std::alloc::Global;
use symbolic_plans::scheme::Scheme;

/// What is done, the tree that then stands in the place of what acted, and the next generation.
#[derive(Drop)]
pub struct Replaced {
    pub action: Action,
    pub branch: Box<Branch>,
    pub next: u128,
}

/// What is done, what it changes of the tree, and the next generation.
#[derive(Drop)]
pub struct Advanced {
    pub action: Action,
    pub change: Change,
    pub next: u128,
}

/// What comes of a tree of rules by which there is no step: nothing is said of it.
#[inline(never)]
pub fn no_step(alloc: Global, next: u128) -> Result<Replaced, Memory>
    ensures fresh { IfOk result (λ a. IsFresh next a.next (shape_of a.branch.value)) }
{
    let Fresh { branch, next } = nothing(alloc, next)?;
    Ok(Replaced {
        action: Action::Inner,
        branch,
        next,
    })
}

// Whether these are the rows of the tree of a scheme. Where their number is another one, no memory is taken.
fn has_these_rows(alloc: Global, scheme: &Scheme, rows: &[u64]) -> Result<bool, Memory>
    ensures { IfOk result (λ b. IsTrue b ↔ rows_of (blank_tree (plan_of scheme.now)) ≡ rows.now) }
{
    if has_rows(scheme, rows.len()) {
        let mut own = Vec::new(alloc);
        put_blank_rows(scheme, &mut own)?;
        Ok(own.as_slice() == rows)
    } else {
        Ok(false)
    }
}

// Whether these values fill the blanks of the tree of a scheme.
fn fill_blanks(alloc: Global, scheme: &Scheme, slots: &[Slot]) -> Result<bool, Memory>
    ensures { IfOk result (λ b. IsTrue b ↔ AreFilled (slots_of (blank_tree (plan_of scheme.now))) slots.now) }
{
    let mut blanks = Vec::new(alloc);
    put_blanks(alloc, scheme, &mut blanks)?;
    Ok(are_filled(&blanks, slots))
}

// Whether a tree of rules, by its rules and its chosen values, fills that of one way to act.
fn fills(
    alloc: Global,
    way: &Alternative,
    rules: &Rules,
    rows: &[u64],
    slots: &[Slot],
) -> Result<bool, Memory>
    requires rows { rows.now ≡ rows_of (derivation_of rules.now) }
    requires slots { slots.now ≡ slots_of (derivation_of rules.now) }
    ensures { IfOk result (λ b. IsTrue b ↔ Fills (way_of way.now).rules (derivation_of rules.now)) }
{
    if has_these_rows(alloc, &way.scheme, rows)? {
        fill_blanks(alloc, &way.scheme, slots)
    } else {
        Ok(false)
    }
}

// The action and what is left of one way to act.
#[tactic(auto, using(crate::proofs::Moving::acts_first))]
fn acted(
    alloc: Global,
    checked: &Checked,
    origin: &Origin,
    way: &Alternative,
    others: &[Alternative],
    rules: &Rules,
    slots: &[Slot],
    next: u128,
) -> Result<Replaced, Memory>
    requires ready { IsReady (program_of checked.now) }
    requires slots { slots.now ≡ slots_of (derivation_of rules.now) }
    requires fills { Fills (way_of way.now).rules (derivation_of rules.now) }
    ensures acts { IfOk result (λ a.
        Acts (program_of checked.now) (meaning (program_of checked.now) (source_of origin.now)) (way_of way.now ∷ map way_of others.now)
        (derivation_of rules.now) a.action (shape_of a.branch.value)) }
    ensures fresh { IfOk result (λ a. IsFresh next a.next (shape_of a.branch.value)) }
{
    let action = done_in(alloc, slots, &way.action)?;
    let Fresh { branch, next } = unfolded_rest(alloc, checked, slots, &way.rest, next)?;
    Ok(Replaced {
        action,
        branch,
        next,
    })
}

// The action and what is left of the first of these ways to act that the tree of rules fills.
#[tactic(auto, using(crate::proofs::Moving::acts_none, crate::proofs::Moving::acts_later))]
fn acted_by(
    alloc: Global,
    checked: &Checked,
    origin: &Origin,
    ways: &[Alternative],
    rules: &Rules,
    rows: &[u64],
    slots: &[Slot],
    next: u128,
) -> Result<Replaced, Memory>
    requires ready { IsReady (program_of checked.now) }
    requires rows { rows.now ≡ rows_of (derivation_of rules.now) }
    requires slots { slots.now ≡ slots_of (derivation_of rules.now) }
    ensures acts { IfOk result (λ a.
        Acts (program_of checked.now) (meaning (program_of checked.now) (source_of origin.now)) (map way_of ways.now)
        (derivation_of rules.now) a.action (shape_of a.branch.value)) }
    ensures fresh { IfOk result (λ a. IsFresh next a.next (shape_of a.branch.value)) }
{
    match ways {
        [] => {
            let done = no_step(alloc, next)?;
            Ok(done)
        }
        [first, rest @ ..] => {
            if fills(alloc, first, rules, rows, slots)? {
                acted(alloc, checked, origin, first, rest, rules, slots, next)
            } else {
                acted_by(alloc, checked, origin, rest, rules, rows, slots, next)
            }
        }
    }
}

// The node after a step, where it has this expansion.
fn advance_expanded(
    alloc: Global,
    checked: &Checked,
    node: &Node,
    expansion: &Expansion,
    rules: &Rules,
    next: u128,
) -> Result<Replaced, Memory>
    requires ready { IsReady (program_of checked.now) }
    requires work { (held_of node.now).work ≡ Some (expansion_of expansion.now) }
    ensures moves { IfOk result (λ a.
        Moves (program_of checked.now) (leaf (held_of node.now)) (derivation_of rules.now) a.action (shape_of a.branch.value) next a.next) }
{
    let mut rows = Vec::new(alloc);
    put_rows(rules, &mut rows)?;
    let mut slots = Vec::new(alloc);
    put_slots(alloc, rules, &mut slots)?;
    let origin = &node.origin;
    let ways = expansion.alternatives.as_slice();
    let done = acted_by(alloc, checked, origin, ways, rules, &rows, &slots, next)?;
    Ok(done)
}

// The node after a step: what is left of it, unfolded into nodes that wait.
fn node_step(
    alloc: Global,
    checked: &Checked,
    node: &Node,
    rules: &Rules,
    next: u128,
) -> Result<Replaced, Memory>
    requires ready { IsReady (program_of checked.now) }
    ensures moves { IfOk result (λ a.
        Moves (program_of checked.now) (leaf (held_of node.now)) (derivation_of rules.now) a.action (shape_of a.branch.value) next a.next) }
{
    match &node.work {
        None => {
            let done = no_step(alloc, next)?;
            Ok(done)
        }
        Some(expansion) => advance_expanded(alloc, checked, node, expansion, rules, next),
    }
}

/// The node after a step: what is left of it, unfolded into nodes that wait, stands in its place.
#[inline(never)]
pub fn advance_node(
    alloc: Global,
    checked: &Checked,
    node: &Node,
    rules: &Rules,
    next: u128,
) -> Result<Advanced, Memory>
    requires ready { IsReady (program_of checked.now) }
    ensures moves { IfOk result (λ a.
        Moves (program_of checked.now) (leaf (held_of node.now)) (derivation_of rules.now) a.action
        (changed a.change (leaf (held_of node.now))) next a.next) }
{
    let Replaced {
        action,
        branch,
        next,
    } = node_step(alloc, checked, node, rules, next)?;
    Ok(Advanced {
        action,
        change: Change::Becomes(branch),
        next,
    })
}
