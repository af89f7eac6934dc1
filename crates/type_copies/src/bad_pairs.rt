// Refusals of pairs of names.

ghost use Rattle.std.specs.Prelude.{◌≡◌, ◌++◌, [], OnOk};
ghost use Rattle.type_names.specs.Refused.{each_after};
ghost use Rattle.type_copies.specs.BadRenamings as bad;
ghost use Rattle.type_copies.specs.Views.{copy_view};

use crate::bad_operations::is_bad_operation;
use crate::bad_sorts::is_bad_sort;
use crate::copy::TypeCopy;
use lotos_ast::place::Place;
use lotos_ast::refusal::{Refusal, RefusalKind};
use lotos_ast::types::{OperationPair, Pairs, SortPair};
use spec_core::memory::Memory;
use std::alloc::Global;
use type_contents::images::{new_operation, new_sort, operation_pairs, sort_pairs};
use type_names::refused::refused;

// Refuses a pair at this place, if it is bad.
fn add_if_bad(
    alloc: Global,
    is_bad: bool,
    place: Place,
    refusals: &mut Vec<Refusal>,
) -> Result<(), Memory>
    ensures { OnOk result (refusals.new.items ≡ refusals.old.items ++ bad.bad_pair is_bad place) }
{
    if is_bad {
        refusals.push(refused(alloc, RefusalKind::BadRenaming, place))?;
    }
    Ok(())
}

// Refuses the pairs of sorts that can't be.
fn add_bad_sorts(
    alloc: Global,
    copy: &TypeCopy<'_>,
    pairs: &[SortPair],
    refusals: &mut Vec<Refusal>,
) -> Result<(), Memory>
    ensures { OnOk result (refusals.new.items ≡ refusals.old.items ++ each_after (bad.bad_sort_pair (copy_view copy.now)) [] pairs.now) }
{
    let mut before = Vec::new(alloc);
    for pair in pairs {
        let new = new_sort(alloc, pair)?;
        add_if_bad(
            alloc,
            is_bad_sort(copy, &before, &new),
            pair.place,
            refusals,
        )?;
        before.push(new)?;
    }
    Ok(())
}

// Refuses the pairs of operations that can't be.
fn add_bad_operations(
    alloc: Global,
    copy: &TypeCopy<'_>,
    pairs: &[OperationPair],
    refusals: &mut Vec<Refusal>,
) -> Result<(), Memory>
    ensures { OnOk result (refusals.new.items ≡ refusals.old.items ++ each_after (bad.bad_operation_pair (copy_view copy.now)) []
        pairs.now) }
{
    let mut before = Vec::new(alloc);
    for pair in pairs {
        let new = new_operation(alloc, pair)?;
        add_if_bad(
            alloc,
            is_bad_operation(copy, &before, &new),
            pair.place,
            refusals,
        )?;
        before.push(new)?;
    }
    Ok(())
}

/// Refuses the pairs of a copy that can't be.
pub fn add_bad_pairs(
    alloc: Global,
    copy: &TypeCopy<'_>,
    pairs: &Pairs,
    refusals: &mut Vec<Refusal>,
) -> Result<(), Memory>
    ensures { OnOk result (refusals.new.items ≡ refusals.old.items ++ bad.bad_pairs (copy_view copy.now) pairs.now) }
{
    add_bad_sorts(alloc, copy, sort_pairs(pairs), refusals)?;
    add_bad_operations(alloc, copy, operation_pairs(pairs), refusals)
}
