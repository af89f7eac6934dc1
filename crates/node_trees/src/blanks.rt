// Trees of rules with blanks as lists of their rules and of the values that they choose, without the trees.

ghost use Rattle.std.specs.Prelude.{suc, ◌≡◌, ◌↔◌, [], ◌∷◌, ◌++◌, ◌+◌, ◌*◌, ◌<◌, length, IfOk, IfSome, IfNone, IsTrue};
ghost use Rattle.std.specs.Fn.{iterate};
ghost use Rattle.rule_model.specs.Derivations.{Derivation};
ghost use Rattle.symbolic_plans.specs.Plans.{plan_of, put_row};
ghost use Rattle.node_trees.specs.Blanks.{blanks, blank_tree, own_rows, chosen_by};
ghost use Rattle.node_trees.specs.Rests.{rows_of, slots_of};

use crate::rows::put_number;
use rule_model::rules::Slot;
use spec_core::memory::Memory;
use std::alloc::Global;
use symbolic_plans::scheme::{Row, Scheme};

/// How many fields take a value. Want of memory is also answered past 2^32 of them, which no machine has.
pub fn taken(takes: &[bool]) -> Result<u32, Memory>
    ensures number { IfOk result (λ n. n ≡ length (blanks takes.now)) }
{
    match takes {
        [] => Ok(0),
        [first, rest @ ..] => {
            let others = taken(rest)?;
            if !*first {
                Ok(others)
            } else if others == u32::MAX {
                Err(Memory)
            } else {
                Ok(others + 1)
            }
        }
    }
}

// One more row.
fn put_one(row: u64, rows: &mut Vec<u64>) -> Result<(), Memory>
    ensures { IfOk result (λ _. rows.new.items ≡ rows.old.items ++ row ∷ []) }
{
    rows.push(row)?;
    Ok(())
}

// Appends what a rule itself is in the list of rules.
fn put_own_rows(row: &Row, rows: &mut Vec<u64>) -> Result<(), Memory>
    ensures { IfOk result (λ _. rows.new.items ≡ rows.old.items ++ own_rows row.now) }
{
    match row {
        Row::Chl => put_one(3, rows),
        Row::Chr => put_one(4, rows),
        Row::Val(_) => put_one(5, rows),
        Row::Gate(place) => put_number(6, *place as u64, rows),
        Row::Guard => put_one(7, rows),
        Row::Let => put_one(8, rows),
        Row::Parl => put_one(9, rows),
        Row::Parr => put_one(10, rows),
        Row::Pass => put_one(13, rows),
        Row::Enstep => put_one(14, rows),
        Row::Disstep => put_one(16, rows),
        Row::Disend => put_one(17, rows),
        Row::Distake => put_one(18, rows),
        Row::Call => put_one(19, rows),
        Row::Rel => put_one(20, rows),
    }
}

// Appends the same of so many equal rules, each over the next one: with those of any tree behind, the rules of all these over the tree.
fn put_run_rows(row: &Row, more: u32, rows: &mut Vec<u64>) -> Result<(), Memory>
    ensures { IfOk result (λ _. (d : Derivation) →
        rows.new.items ++ rows_of d ≡ rows.old.items ++ rows_of (iterate (put_row row.now) more d)) }
{
    for _turn in 0..more {
        put_own_rows(row, rows)?;
    }
    Ok(())
}

/// Appends the rules of the tree of a scheme, with blanks for the values that are left open. It recurs as deep as rules nest, where the
/// same rule over itself counts once.
pub fn put_blank_rows(scheme: &Scheme, rows: &mut Vec<u64>) -> Result<(), Memory>
    ensures rows { IfOk result (λ _. rows.new.items ≡ rows.old.items ++ rows_of (blank_tree (plan_of scheme.now))) }
{
    match scheme {
        Scheme::Pre(takes) => put_number(0, taken(takes)? as u64, rows),
        Scheme::Int => put_one(1, rows),
        Scheme::Exit(takes) => put_number(2, taken(takes)? as u64, rows),
        Scheme::Under(row, more, part) => {
            put_own_rows(row, rows)?;
            put_run_rows(row, *more, rows)?;
            put_blank_rows(part, rows)
        }
        Scheme::Hide(_, part) => {
            rows.push(12)?;
            put_blank_rows(part, rows)
        }
        Scheme::Enend(_, part) => {
            rows.push(15)?;
            put_blank_rows(part, rows)
        }
        Scheme::Both(left, right) => {
            rows.push(11)?;
            put_blank_rows(left, rows)?;
            put_blank_rows(right, rows)
        }
    }
}

// Appends a blank for each field that takes a value.
fn put_taken(takes: &[bool], slots: &mut Vec<Slot>) -> Result<(), Memory>
    ensures { IfOk result (λ _. slots.new.items ≡ slots.old.items ++ blanks takes.now) }
{
    match takes {
        [] => Ok(()),
        [first, rest @ ..] => {
            if *first {
                slots.push(Slot::Blank)?;
                put_taken(rest, slots)
            } else {
                put_taken(rest, slots)
            }
        }
    }
}

// Appends what a rule itself chooses, if it is a choice of a value.
fn put_chosen(alloc: Global, row: &Row, slots: &mut Vec<Slot>) -> Result<(), Memory>
    ensures { IfOk result (λ _. slots.new.items ≡ slots.old.items ++ chosen_by row.now) }
{
    match row {
        Row::Val(slot) => {
            slots.push(slot.copy(alloc)?)?;
            Ok(())
        }
        _ => Ok(()),
    }
}

// Appends the same of so many equal rules, each over the next one: with those of any tree behind, the values of all these over the tree.
fn put_run_chosen(alloc: Global, row: &Row, more: u32, slots: &mut Vec<Slot>) -> Result<(), Memory>
    ensures { IfOk result (λ _. (d : Derivation) →
        slots.new.items ++ slots_of d ≡ slots.old.items ++ slots_of (iterate (put_row row.now) more d)) }
{
    for _turn in 0..more {
        put_chosen(alloc, row, slots)?;
    }
    Ok(())
}

/// Appends the values that the tree of a scheme chooses, from the left, with a blank for each that is left open. It recurs as deep as rules
/// nest, where the same rule over itself counts once.
pub fn put_blanks(alloc: Global, scheme: &Scheme, slots: &mut Vec<Slot>) -> Result<(), Memory>
    ensures slots { IfOk result (λ _. slots.new.items ≡ slots.old.items ++ slots_of (blank_tree (plan_of scheme.now))) }
{
    match scheme {
        Scheme::Pre(takes) => put_taken(takes, slots),
        Scheme::Int => Ok(()),
        Scheme::Exit(takes) => put_taken(takes, slots),
        Scheme::Under(row, more, part) => {
            put_chosen(alloc, row, slots)?;
            put_run_chosen(alloc, row, *more, slots)?;
            put_blanks(alloc, part, slots)
        }
        Scheme::Hide(_, part) => put_blanks(alloc, part, slots),
        Scheme::Enend(_, part) => put_blanks(alloc, part, slots),
        Scheme::Both(left, right) => {
            put_blanks(alloc, left, slots)?;
            put_blanks(alloc, right, slots)
        }
    }
}

// How long the rows of a rule, and of the same rule so many times more, are.
fn run_length(row: &Row, more: u32) -> u64
    ensures { result ≡ suc more * length (own_rows row.now) }
{
    match row {
        Row::Gate(_) => 2 * (more as u64 + 1),
        _ => more as u64 + 1,
    }
}

// How many of so many rows are left behind those of a rule, and of the same rule so many times more, if there are as many.
fn left_behind_run(row: &Row, more: u32, count: u64) -> Option<u64>
    ensures some { IfSome result (λ n. count ≡ suc more * length (own_rows row.now) + n) }
    ensures none { IfNone result (count < suc more * length (own_rows row.now)) }
{
    let run = run_length(row, more);
    if count < run { None } else { Some(count - run) }
}

// The same of the tree of a scheme.
fn rows_left(scheme: &Scheme, count: u64) -> Option<u64>
    ensures some { IfSome result (λ n. count ≡ length (rows_of (blank_tree (plan_of scheme.now))) + n) }
    ensures none { IfNone result (count < length (rows_of (blank_tree (plan_of scheme.now)))) }
{
    match scheme {
        Scheme::Pre(_) => count.checked_sub(2),
        Scheme::Int => count.checked_sub(1),
        Scheme::Exit(_) => count.checked_sub(2),
        Scheme::Under(row, more, part) => match left_behind_run(row, *more, count) {
            None => None,
            Some(rest) => rows_left(part, rest),
        },
        Scheme::Hide(_, part) => rows_left(part, count.checked_sub(1)?),
        Scheme::Enend(_, part) => rows_left(part, count.checked_sub(1)?),
        Scheme::Both(left, right) => {
            let rest = rows_left(left, count.checked_sub(1)?)?;
            rows_left(right, rest)
        }
    }
}

/// Whether the rows of the tree of a scheme are so many. It takes no memory, and recurs as deep as rules nest, where the same rule over
/// itself counts once.
pub fn has_rows(scheme: &Scheme, count: usize) -> bool
    ensures decides { IsTrue result ↔ length (rows_of (blank_tree (plan_of scheme.now))) ≡ count }
{
    match rows_left(scheme, count as u64) {
        None => false,
        Some(left) => left == 0,
    }
}
