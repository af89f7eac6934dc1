// Trees of rules as lists of their rules and of the values that they choose.

ghost use Rattle.std.specs.Prelude.{◌≡◌, ◌∷◌, [], ◌++◌, ◌↔◌, IfOk, IsTrue};
ghost use Rattle.rule_model.specs.Derivations.{derivation_of};
ghost use Rattle.node_trees.specs.Rests.{rows_of, slots_of, AreFilled};

use rule_model::rules::{Rules, Slot};
use spec_core::memory::Memory;
use std::alloc::Global;

/// One more row with its number.
pub fn put_number(row: u64, number: u64, rows: &mut Vec<u64>) -> Result<(), Memory>
    ensures more { IfOk result (λ _. rows.new.items ≡ rows.old.items ++ row ∷ number ∷ []) }
{
    rows.push(row)?;
    rows.push(number)?;
    Ok(())
}

/// Appends the rules of a tree, each before those of its parts.
pub fn put_rows(rules: &Rules, rows: &mut Vec<u64>) -> Result<(), Memory>
    ensures rows { IfOk result (λ _. rows.new.items ≡ rows.old.items ++ rows_of (derivation_of rules.now)) }
{
    match rules {
        Rules::Pre(slots) => put_number(0, slots.as_slice().len() as u64, rows),
        Rules::Int => {
            rows.push(1)?;
            Ok(())
        }
        Rules::Exit(slots) => put_number(2, slots.as_slice().len() as u64, rows),
        Rules::Chl(d) => {
            rows.push(3)?;
            put_rows(d, rows)
        }
        Rules::Chr(d) => {
            rows.push(4)?;
            put_rows(d, rows)
        }
        Rules::Val(_, d) => {
            rows.push(5)?;
            put_rows(d, rows)
        }
        Rules::Gate(place, d) => {
            rows.push(6)?;
            rows.push(*place as u64)?;
            put_rows(d, rows)
        }
        Rules::Guard(d) => {
            rows.push(7)?;
            put_rows(d, rows)
        }
        Rules::Let(d) => {
            rows.push(8)?;
            put_rows(d, rows)
        }
        Rules::Parl(d) => {
            rows.push(9)?;
            put_rows(d, rows)
        }
        Rules::Parr(d) => {
            rows.push(10)?;
            put_rows(d, rows)
        }
        Rules::Both(d, e) => {
            rows.push(11)?;
            put_rows(d, rows)?;
            put_rows(e, rows)
        }
        Rules::Hide(d) => {
            rows.push(12)?;
            put_rows(d, rows)
        }
        Rules::Pass(d) => {
            rows.push(13)?;
            put_rows(d, rows)
        }
        Rules::Enstep(d) => {
            rows.push(14)?;
            put_rows(d, rows)
        }
        Rules::Enend(d) => {
            rows.push(15)?;
            put_rows(d, rows)
        }
        Rules::Disstep(d) => {
            rows.push(16)?;
            put_rows(d, rows)
        }
        Rules::Disend(d) => {
            rows.push(17)?;
            put_rows(d, rows)
        }
        Rules::Distake(d) => {
            rows.push(18)?;
            put_rows(d, rows)
        }
        Rules::Call(d) => {
            rows.push(19)?;
            put_rows(d, rows)
        }
        Rules::Rel(d) => {
            rows.push(20)?;
            put_rows(d, rows)
        }
    }
}

// Appends these values.
fn put_all(alloc: Global, chosen: &[Slot], slots: &mut Vec<Slot>) -> Result<(), Memory>
    ensures all { IfOk result (λ _. slots.new.items ≡ slots.old.items ++ chosen.now) }
{
    for slot in chosen {
        slots.push(slot.copy(alloc)?)?;
    }
    Ok(())
}

/// Appends the chosen values of a tree, from the left.
pub fn put_slots(alloc: Global, rules: &Rules, slots: &mut Vec<Slot>) -> Result<(), Memory>
    ensures slots { IfOk result (λ _. slots.new.items ≡ slots.old.items ++ slots_of (derivation_of rules.now)) }
{
    match rules {
        Rules::Pre(chosen) => put_all(alloc, chosen.as_slice(), slots),
        Rules::Int => Ok(()),
        Rules::Exit(chosen) => put_all(alloc, chosen.as_slice(), slots),
        Rules::Val(slot, d) => {
            slots.push(slot.copy(alloc)?)?;
            put_slots(alloc, d, slots)
        }
        Rules::Both(d, e) => {
            put_slots(alloc, d, slots)?;
            put_slots(alloc, e, slots)
        }
        Rules::Chl(d) => put_slots(alloc, d, slots),
        Rules::Chr(d) => put_slots(alloc, d, slots),
        Rules::Gate(_, d) => put_slots(alloc, d, slots),
        Rules::Guard(d) => put_slots(alloc, d, slots),
        Rules::Let(d) => put_slots(alloc, d, slots),
        Rules::Parl(d) => put_slots(alloc, d, slots),
        Rules::Parr(d) => put_slots(alloc, d, slots),
        Rules::Hide(d) => put_slots(alloc, d, slots),
        Rules::Pass(d) => put_slots(alloc, d, slots),
        Rules::Enstep(d) => put_slots(alloc, d, slots),
        Rules::Enend(d) => put_slots(alloc, d, slots),
        Rules::Disstep(d) => put_slots(alloc, d, slots),
        Rules::Disend(d) => put_slots(alloc, d, slots),
        Rules::Distake(d) => put_slots(alloc, d, slots),
        Rules::Call(d) => put_slots(alloc, d, slots),
        Rules::Rel(d) => put_slots(alloc, d, slots),
    }
}

/// Whether each blank is filled with a value, and each value stays. It takes no memory.
pub fn are_filled(blanks: &[Slot], slots: &[Slot]) -> bool
    ensures decides { IsTrue result ↔ AreFilled blanks.now slots.now }
{
    match blanks {
        [] => slots.is_empty(),
        [blank, others @ ..] => match slots {
            [] => false,
            [slot, rest @ ..] => is_filled(blank, slot) && are_filled(others, rest),
        },
    }
}

// Whether a blank is filled with a value, or a value stays.
fn is_filled(blank: &Slot, slot: &Slot) -> bool
    ensures { IsTrue result ↔ AreFilled (blank.now ∷ []) (slot.now ∷ []) }
{
    match blank {
        Slot::Blank => match slot {
            Slot::Of(_) => true,
            Slot::Mark => false,
            Slot::Blank => false,
        },
        Slot::Of(value) => match slot {
            Slot::Of(other) => value.same(other),
            Slot::Mark => false,
            Slot::Blank => false,
        },
        Slot::Mark => false,
    }
}
