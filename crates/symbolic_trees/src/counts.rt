// How many trees there are.

ghost use Rattle.std.specs.Prelude.{◌≡◌, ◌∷◌, IfOk, length, map, true};
ghost use Rattle.spec_core.specs.Theories.{theory_of};
ghost use Rattle.symbolic_plans.specs.Plans.{field_of, plan_of, taken_slots, together, trees_of};
ghost use Rattle.symbolic_trees.specs.Numbers.{counted, trees_at_once, own_trees};
ghost use Rattle.symbolic_rules.specs.Tables.{windows_in};

use crate::choices::choices_of;
use crate::ways::{nth_way, way_count};
use rule_model::rules::{Slot, Slots};
use spec_core::equation::DataSpec;
use spec_core::memory::Memory;
use spec_core::window::Window;
use std::alloc::Global;
use symbolic_plans::column::Column;
use symbolic_plans::scheme::Scheme;

/// How many lists of slots an action may have, where each field may have these. It takes no memory.
#[cycle(taken_count)]
pub fn taken_count(takes: &[bool], choices: &[Slots]) -> u64
    ensures counted { result ≡ counted (length (taken_slots takes.now choices.now)) }
{
    match takes {
        [] => 1,
        [taken, others @ ..] => match choices {
            [] => 0,
            [first, rest @ ..] => if *taken {
                count_with(others, first.as_slice(), rest)
            } else {
                taken_count(others, rest)
            },
        },
    }
}

// The same, where the first field takes one of these slots.
#[cycle(taken_count)]
fn count_with(takes: &[bool], first: &[Slot], choices: &[Slots]) -> u64
    ensures { result ≡ counted (length (taken_slots (true ∷ takes.now) (first.now ∷ choices.now))) }
{
    (first.len() as u64).saturating_mul(taken_count(takes, choices))
}

/// How many trees there are where each open field may have these slots: by products, without building them.
#[cycle(tree_count)]
pub fn tree_count(
    alloc: Global,
    algebra: &DataSpec,
    windows: &[Window],
    scheme: &Scheme,
    choices: &[Slots],
) -> Result<u64, Memory>
    ensures counted { IfOk result (λ n. n ≡
        counted (length (trees_of (theory_of algebra.now) (windows_in windows.now) (plan_of scheme.now) choices.now))) }
{
    match scheme {
        Scheme::Pre(takes) => Ok(taken_count(takes, choices)),
        Scheme::Int => Ok(1),
        Scheme::Exit(takes) => Ok(taken_count(takes, choices)),
        Scheme::Under(_, _, part) => tree_count(alloc, algebra, windows, part, choices),
        Scheme::Hide(columns, part) => own_count(alloc, algebra, windows, columns, part),
        Scheme::Enend(columns, part) => own_count(alloc, algebra, windows, columns, part),
        Scheme::Both(left, right) => both_count(alloc, algebra, windows, left, right, choices),
    }
}

// The same of both sides together.
#[cycle(tree_count)]
fn both_count(
    alloc: Global,
    algebra: &DataSpec,
    windows: &[Window],
    left: &Scheme,
    right: &Scheme,
    choices: &[Slots],
) -> Result<u64, Memory>
    ensures { IfOk result (λ n. n ≡ counted (length (trees_of (theory_of algebra.now) (windows_in windows.now)
        (together (plan_of left.now) (plan_of right.now)) choices.now))) }
{
    let lefts = tree_count(alloc, algebra, windows, left, choices)?;
    let rights = tree_count(alloc, algebra, windows, right, choices)?;
    Ok(lefts.saturating_mul(rights))
}

// The same of what turned internal with these fields.
#[cycle(tree_count)]
fn own_count(
    alloc: Global,
    algebra: &DataSpec,
    windows: &[Window],
    columns: &[Column],
    part: &Scheme,
) -> Result<u64, Memory>
    ensures { IfOk result (λ n. n ≡
        counted (length (own_trees (theory_of algebra.now) (windows_in windows.now) (map field_of columns.now) (plan_of part.now)))) }
{
    let choices = choices_of(alloc, algebra, windows, &[], columns)?;
    count_at_once(alloc, algebra, windows, columns, part, &choices)
}

/// How many trees there are, filled in each way.
#[cycle(tree_count)]
pub fn count_at_once(
    alloc: Global,
    algebra: &DataSpec,
    windows: &[Window],
    columns: &[Column],
    part: &Scheme,
    choices: &[Slots],
) -> Result<u64, Memory>
    ensures counted { IfOk result (λ n. n ≡ counted (length
        (trees_at_once (theory_of algebra.now) (windows_in windows.now) (map field_of columns.now) (plan_of part.now) choices.now))) }
{
    match nth_way(alloc, columns, choices, 0)? {
        None => Ok(0),
        Some(first) => {
            let each = tree_count(alloc, algebra, windows, part, &first)?;
            Ok(way_count(columns, choices).saturating_mul(each))
        }
    }
}
