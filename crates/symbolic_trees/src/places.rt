// Trees by their numbers.

ghost use Rattle.std.specs.Prelude.{◌≡◌, ◌<◌, ◌-◌, ◌^◌, ◌∷◌, IfOk, map, option_map, true};
ghost use Rattle.std.specs.Fn.{iterate};
ghost use Rattle.std.specs.List.{slice_get};
ghost use Rattle.spec_core.specs.Theories.{theory_of};
ghost use Rattle.rule_model.specs.Derivations.{derivation_of, enend, hiding};
ghost use Rattle.symbolic_plans.specs.Plans.{field_of, plan_of, taken_slots, trees_of, below, together};
ghost use Rattle.symbolic_trees.specs.Numbers.{trees_at_once, own_trees};
ghost use Rattle.symbolic_rules.specs.Tables.{windows_in};

use crate::choices::choices_of;
use crate::counts::{taken_count, tree_count};
use crate::ways::{nth_slot, nth_way};
use rule_model::rules::{Rules, Slot, Slots};
use spec_core::equation::DataSpec;
use spec_core::memory::Memory;
use spec_core::window::Window;
use std::alloc::Global;
use symbolic_plans::column::Column;
use symbolic_plans::rules::run_over_part;
use symbolic_plans::scheme::{Row, Scheme};

// A slot before others.
fn slot_before(alloc: Global, slot: &Slot, others: Vec<Slot>) -> Result<Vec<Slot>, Memory>
    ensures { IfOk result (λ all. all.items ≡ slot.now ∷ others.items) }
{
    let mut all = others;
    match all.insert(0, slot.copy(alloc)?) {
        Ok(()) => Ok(all),
        Err(_) => Err(Memory),
    }
}

// The n-th list of slots that an action may have, where each field may have these.
#[cycle(nth_slots)]
fn nth_slots(
    alloc: Global,
    takes: &[bool],
    choices: &[Slots],
    n: u64,
) -> Result<Option<Vec<Slot>>, Memory>
    requires { n < 2 ^ 64 - 1 }
    ensures { IfOk result (λ o. option_map (λ all. all.items) o ≡ slice_get (taken_slots takes.now choices.now) n) }
{
    match takes {
        [] => {
            if n == 0 {
                Ok(Some(Vec::new(alloc)))
            } else {
                Ok(None)
            }
        }
        [taken, others @ ..] => match choices {
            [] => Ok(None),
            [first, rest @ ..] => {
                if *taken {
                    nth_taken(alloc, others, first.as_slice(), rest, n)
                } else {
                    nth_slots(alloc, others, rest, n)
                }
            }
        },
    }
}

// The same, where the first field takes one of these slots.
#[cycle(nth_slots)]
fn nth_taken(
    alloc: Global,
    takes: &[bool],
    first: &[Slot],
    choices: &[Slots],
    n: u64,
) -> Result<Option<Vec<Slot>>, Memory>
    requires { n < 2 ^ 64 - 1 }
    ensures { IfOk result (λ o. option_map (λ all. all.items) o ≡ slice_get (taken_slots (true ∷ takes.now) (first.now ∷ choices.now)) n) }
{
    let count = taken_count(takes, choices);
    if count == 0 {
        return Ok(None);
    }
    match nth_slot(first, n / count) {
        None => Ok(None),
        Some(slot) => match nth_slots(alloc, takes, choices, n % count)? {
            None => Ok(None),
            Some(slots) => Ok(Some(slot_before(alloc, slot, slots)?)),
        },
    }
}

/// The n-th tree of a plan where each open field may have these slots, from 0; None where there are no more than n.
#[cycle(nth_tree)]
pub fn nth_tree(
    alloc: Global,
    algebra: &DataSpec,
    windows: &[Window],
    scheme: &Scheme,
    choices: &[Slots],
    n: u64,
) -> Result<Option<Rules>, Memory>
    requires small { n < 2 ^ 64 - 1 }
    ensures tree { IfOk result (λ o. option_map derivation_of o ≡
        slice_get (trees_of (theory_of algebra.now) (windows_in windows.now) (plan_of scheme.now) choices.now) n) }
{
    match scheme {
        Scheme::Pre(takes) => match nth_slots(alloc, takes, choices, n)? {
            None => Ok(None),
            Some(slots) => Ok(Some(Rules::Pre(Slots::new(slots)))),
        },
        Scheme::Int => {
            if n == 0 {
                Ok(Some(Rules::Int))
            } else {
                Ok(None)
            }
        }
        Scheme::Exit(takes) => match nth_slots(alloc, takes, choices, n)? {
            None => Ok(None),
            Some(slots) => Ok(Some(Rules::Exit(Slots::new(slots)))),
        },
        Scheme::Under(row, more, part) => {
            nth_under(alloc, algebra, windows, row, *more, part, choices, n)
        }
        Scheme::Hide(columns, part) => nth_hidden(alloc, algebra, windows, columns, part, n),
        Scheme::Enend(columns, part) => nth_handed_on(alloc, algebra, windows, columns, part, n),
        Scheme::Both(left, right) => nth_both(alloc, algebra, windows, left, right, choices, n),
    }
}

// The n-th tree under a rule, and under the same rule so many times more.
#[cycle(nth_tree)]
fn nth_under(
    alloc: Global,
    algebra: &DataSpec,
    windows: &[Window],
    row: &Row,
    more: u32,
    part: &Scheme,
    choices: &[Slots],
    n: u64,
) -> Result<Option<Rules>, Memory>
    requires small { n < 2 ^ 64 - 1 }
    ensures tree { IfOk result (λ o. option_map derivation_of o ≡
        slice_get (trees_of (theory_of algebra.now) (windows_in windows.now)
        (below row.now (iterate (below row.now) more (plan_of part.now))) choices.now) n) }
{
    match nth_tree(alloc, algebra, windows, part, choices, n)? {
        None => Ok(None),
        Some(tree) => Ok(Some(run_over_part(alloc, row, more, tree)?)),
    }
}

// The n-th tree of both sides together.
#[cycle(nth_tree)]
fn nth_both(
    alloc: Global,
    algebra: &DataSpec,
    windows: &[Window],
    left: &Scheme,
    right: &Scheme,
    choices: &[Slots],
    n: u64,
) -> Result<Option<Rules>, Memory>
    requires small { n < 2 ^ 64 - 1 }
    ensures tree { IfOk result (λ o. option_map derivation_of o ≡
        slice_get (trees_of (theory_of algebra.now) (windows_in windows.now) (together (plan_of left.now) (plan_of right.now))
        choices.now) n) }
{
    let count = tree_count(alloc, algebra, windows, right, choices)?;
    if count == 0 {
        return Ok(None);
    }
    match nth_tree(alloc, algebra, windows, left, choices, n / count)? {
        None => Ok(None),
        Some(first) => match nth_tree(alloc, algebra, windows, right, choices, n % count)? {
            None => Ok(None),
            Some(second) => Ok(Some(Rules::both(alloc, first, second)?)),
        },
    }
}

// The n-th tree of what acts at a hidden gate with these fields.
#[cycle(nth_tree)]
fn nth_hidden(
    alloc: Global,
    algebra: &DataSpec,
    windows: &[Window],
    columns: &[Column],
    part: &Scheme,
    n: u64,
) -> Result<Option<Rules>, Memory>
    requires small { n < 2 ^ 64 - 1 }
    ensures tree { IfOk result (λ o. option_map derivation_of o ≡ slice_get (map hiding
        (own_trees (theory_of algebra.now) (windows_in windows.now) (map field_of columns.now) (plan_of part.now))) n) }
{
    match nth_own(alloc, algebra, windows, columns, part, n)? {
        None => Ok(None),
        Some(tree) => Ok(Some(Rules::hiding(alloc, tree)?)),
    }
}

// The n-th tree of what terminates with these fields.
#[cycle(nth_tree)]
fn nth_handed_on(
    alloc: Global,
    algebra: &DataSpec,
    windows: &[Window],
    columns: &[Column],
    part: &Scheme,
    n: u64,
) -> Result<Option<Rules>, Memory>
    requires small { n < 2 ^ 64 - 1 }
    ensures tree { IfOk result (λ o. option_map derivation_of o ≡ slice_get (map enend
        (own_trees (theory_of algebra.now) (windows_in windows.now) (map field_of columns.now) (plan_of part.now))) n) }
{
    match nth_own(alloc, algebra, windows, columns, part, n)? {
        None => Ok(None),
        Some(tree) => Ok(Some(Rules::enend(alloc, tree)?)),
    }
}

// The n-th tree of what turned internal with these fields.
#[cycle(nth_tree)]
fn nth_own(
    alloc: Global,
    algebra: &DataSpec,
    windows: &[Window],
    columns: &[Column],
    part: &Scheme,
    n: u64,
) -> Result<Option<Rules>, Memory>
    requires small { n < 2 ^ 64 - 1 }
    ensures tree { IfOk result (λ o. option_map derivation_of o ≡
        slice_get (own_trees (theory_of algebra.now) (windows_in windows.now) (map field_of columns.now) (plan_of part.now)) n) }
{
    let choices = choices_of(alloc, algebra, windows, &[], columns)?;
    nth_at_once(alloc, algebra, windows, columns, part, &choices, n)
}

/// The n-th tree of a plan whose fields may have these slots, filled in each way, from 0; None where there are no more than n.
#[cycle(nth_tree)]
pub fn nth_at_once(
    alloc: Global,
    algebra: &DataSpec,
    windows: &[Window],
    columns: &[Column],
    part: &Scheme,
    choices: &[Slots],
    n: u64,
) -> Result<Option<Rules>, Memory>
    requires small { n < 2 ^ 64 - 1 }
    ensures tree { IfOk result (λ o. option_map derivation_of o ≡ slice_get
        (trees_at_once (theory_of algebra.now) (windows_in windows.now) (map field_of columns.now) (plan_of part.now) choices.now) n) }
{
    match nth_way(alloc, columns, choices, 0)? {
        None => Ok(None),
        Some(first) => {
            let each = tree_count(alloc, algebra, windows, part, &first)?;
            if each == 0 {
                return Ok(None);
            }
            match nth_way(alloc, columns, choices, n / each)? {
                None => Ok(None),
                Some(way) => nth_tree(alloc, algebra, windows, part, &way, n % each),
            }
        }
    }
}
