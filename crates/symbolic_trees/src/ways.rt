// Ways to fill open fields, by their numbers.

ghost use Rattle.std.specs.Prelude.{ℕ, ◌≡◌, ◌<◌, ◌-◌, ◌^◌, ◌∷◌, List, IfOk, length, map, reverse, option_copied, option_map};
ghost use Rattle.std.specs.List.{slice_get};
ghost use Rattle.rule_model.specs.declared.rules.Slot.{Slot};
ghost use Rattle.symbolic_composites.specs.OpenFields as fields;
ghost use Rattle.symbolic_plans.specs.Plans.{field_of};
ghost use Rattle.symbolic_trees.specs.Numbers.{counted};
ghost use Rattle.symbolic_trees.specs.Rounds.{IsRound, RoundOr, forwards};

use rule_model::rules::{Slot, Slots};
use spec_core::memory::Memory;
use std::alloc::Global;
use symbolic_plans::column::Column;

/// Whether an expression gives a mark for one of the fields. It takes no memory.
pub fn any_marked(columns: &[Column]) -> bool
    ensures marked { result ≡ fields.any_marked (map field_of columns.now) }
{
    match columns {
        [] => false,
        [Column::Told(_, marked), rest @ ..] => *marked || any_marked(rest),
        [Column::Blank(_, marked), rest @ ..] => *marked || any_marked(rest),
    }
}

// How many ways there are to fill each field with one of its slots.
#[cycle(each_count)]
fn each_count(choices: &[Slots]) -> u64
    ensures { result ≡ counted (length (fields.one_each choices.now)) }
{
    match choices {
        [] => 1,
        [first, rest @ ..] => first_count(first.as_slice(), rest),
    }
}

// The same, with the slots of the first field.
#[cycle(each_count)]
fn first_count(first: &[Slot], choices: &[Slots]) -> u64
    ensures { result ≡ counted (length (fields.one_each (first.now ∷ choices.now))) }
{
    (first.len() as u64).saturating_mul(each_count(choices))
}

/// The n-th of some slots, from 0. It takes no memory.
pub fn nth_slot(slots: &[Slot], n: u64) -> Option<&Slot>
    ensures slot { option_copied result ≡ slice_get slots.now n }
{
    slots.get(n as usize)
}

/// How many ways there are to fill fields. It takes no memory.
pub fn way_count(columns: &[Column], choices: &[Slots]) -> u64
    ensures counted { result ≡ counted (length (fields.choices_at_once (map field_of columns.now) choices.now)) }
{
    if any_marked(columns) {
        1
    } else {
        each_count(choices)
    }
}

// One slot for a field, behind those of others, and what is left of a number that counts through its slots round by round.
fn slot_behind(
    alloc: Global,
    first: &[Slot],
    others: Vec<Slots>,
    rounds: u64,
) -> Result<Option<(Vec<Slots>, u64)>, Memory>
    ensures { (choices : List (List Slot)) (n : ℕ) → IsRound (fields.one_each choices) n (reverse others.items) rounds →
        IfOk result (λ o. RoundOr (fields.one_each (first.now ∷ choices)) n (option_map forwards o)) }
{
    let count = first.len() as u64;
    if count == 0 {
        return Ok(None);
    }
    match nth_slot(first, rounds % count) {
        None => Ok(None),
        Some(slot) => {
            let mut all = others;
            let mut single = Vec::new(alloc);
            single.push(slot.copy(alloc)?)?;
            all.push(Slots::new(single))?;
            Ok(Some((all, rounds / count)))
        }
    }
}

// The way to fill each field with one of its slots to which a number counts round by round, from the last field on, and the rounds.
fn way_round(alloc: Global, choices: &[Slots], n: u64) -> Result<Option<(Vec<Slots>, u64)>, Memory>
    ensures { IfOk result (λ o. RoundOr (fields.one_each choices.now) n (option_map forwards o)) }
{
    match choices {
        [] => Ok(Some((Vec::new(alloc), n))),
        [first, rest @ ..] => match way_round(alloc, rest, n)? {
            None => Ok(None),
            Some((others, rounds)) => slot_behind(alloc, first.as_slice(), others, rounds),
        },
    }
}

// The n-th way to fill each field with one of its slots.
fn nth_each(alloc: Global, choices: &[Slots], n: u64) -> Result<Option<Vec<Slots>>, Memory>
    ensures { IfOk result (λ o. option_map (λ all. all.items) o ≡ slice_get (fields.one_each choices.now) n) }
{
    match way_round(alloc, choices, n)? {
        None => Ok(None),
        Some((way, rounds)) => {
            if rounds == 0 {
                let mut all = way;
                all.reverse();
                Ok(Some(all))
            } else {
                Ok(None)
            }
        }
    }
}

/// Equal slots, in the same order.
pub fn copies(alloc: Global, choices: &[Slots]) -> Result<Vec<Slots>, Memory>
    ensures equal { IfOk result (λ all. all.items ≡ choices.now) }
{
    let mut all = Vec::new(alloc);
    for slots in choices {
        all.push(slots.copy(alloc)?)?;
    }
    Ok(all)
}

/// The n-th way to fill fields, from 0; None where there are no more than n.
pub fn nth_way(
    alloc: Global,
    columns: &[Column],
    choices: &[Slots],
    n: u64,
) -> Result<Option<Vec<Slots>>, Memory>
    requires small { n < 2 ^ 64 - 1 }
    ensures way { IfOk result (λ o.
        option_map (λ all. all.items) o ≡ slice_get (fields.choices_at_once (map field_of columns.now) choices.now) n) }
{
    if any_marked(columns) {
        if n == 0 {
            Ok(Some(copies(alloc, choices)?))
        } else {
            Ok(None)
        }
    } else {
        nth_each(alloc, choices, n)
    }
}
