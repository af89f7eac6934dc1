// Pairs of operations that can't be.

ghost use Rattle.std.specs.Prelude.{◌≡◌, ◌&&◌, ◌==◌, not, length, map};
ghost use Rattle.std.specs.List.{list_any};
ghost use Rattle.type_contents.specs.Items.{is_same_item};
ghost use Rattle.type_contents.specs.Images as images;
ghost use Rattle.type_contents.specs.Views.{new_operation_of};
ghost use Rattle.type_copies.specs.BadRenamings as bad;
ghost use Rattle.type_copies.specs.Copies.{gets_any};
ghost use Rattle.type_copies.specs.Views.{change_of, copy_view};

use crate::copy::{Change, TypeCopy, gets_any, is_in, renames};
use type_contents::images::NewOperation;
use type_contents::item_kind::ItemKind;

// Whether a copied operation has the old name.
fn is_named(changes: &[Change<'_>], new: &NewOperation<'_>) -> bool
    ensures { result ≡ list_any (λ c. images.renames c.item (new_operation_of new.now)) (map change_of changes.now) }
{
    match changes {
        [] => false,
        [first, others @ ..] => renames(first.item, new) || is_named(others, new),
    }
}

// Whether one of these new names is for the same old one.
fn has_old_operation(news: &[NewOperation<'_>], new: &NewOperation<'_>) -> bool
    ensures { result ≡ list_any (bad.has_old_operation (new_operation_of new.now)) (map new_operation_of news.now) }
{
    match news {
        [] => false,
        [first, others @ ..] => {
            first.old_kind.is_same(new.old_kind) && first.old.as_str() == new.old.as_str()
                || has_old_operation(others, new)
        }
    }
}

// Whether an operation doesn't have just two arguments.

fn has_other_arguments(change: &Change<'_>) -> bool
    ensures { result ≡ not (length (change_of change.now).item.sorts == 3) }
{
    change.item.sorts.len() != 3
}

// Whether an operation gets a new name that stands between arguments, and doesn't have two.
fn is_misplaced(copy: &TypeCopy<'_>, new: &NewOperation<'_>, change: &Change<'_>) -> bool
    ensures { result ≡ bad.is_misplaced (copy_view copy.now) (new_operation_of new.now) (change_of change.now) }
{
    new.new_kind.is_same(ItemKind::Infix)
        && has_other_arguments(change)
        && copy.gets(new, change.item)
}

// Whether one of these does.
fn is_any_misplaced(copy: &TypeCopy<'_>, new: &NewOperation<'_>, changes: &[Change<'_>]) -> bool
    ensures { result ≡ list_any (bad.is_misplaced (copy_view copy.now) (new_operation_of new.now)) (map change_of changes.now) }
{
    match changes {
        [] => false,
        [first, others @ ..] => {
            is_misplaced(copy, new, first) || is_any_misplaced(copy, new, others)
        }
    }
}

// Whether an item gets other sorts and has no pair.
fn changes_by_sorts(copy: &TypeCopy<'_>, change: &Change<'_>) -> bool
    ensures { result ≡ (not (gets_any (copy_view copy.now) (copy_view copy.now).renaming.operations (change_of change.now).item)
        && not (is_same_item (change_of change.now).image (change_of change.now).item)) }
{
    !gets_any(copy, &copy.renaming.operations, change.item) && !change.image.is_same(change.item)
}

// Whether an item gets a name by this pair or one before it, or gets other sorts and has no pair.
fn changes_before(
    copy: &TypeCopy<'_>,
    before: &[NewOperation<'_>],
    new: &NewOperation<'_>,
    change: &Change<'_>,
) -> bool
    ensures { result ≡ bad.changes_before (copy_view copy.now) (map new_operation_of before.now) (new_operation_of new.now)
        (change_of change.now) }
{
    copy.gets(new, change.item)
        || gets_any(copy, before, change.item)
        || changes_by_sorts(copy, change)
}

// Whether another item that isn't replaced, and changes, becomes the same item.
fn is_clash(
    copy: &TypeCopy<'_>,
    before: &[NewOperation<'_>],
    new: &NewOperation<'_>,
    change: &Change<'_>,
    other: &Change<'_>,
) -> bool
    ensures { result ≡ bad.is_clash (copy_view copy.now) (map new_operation_of before.now) (new_operation_of new.now)
        (change_of change.now) (change_of other.now) }
{
    change.image.is_same(&other.image)
        && !change.item.is_same(other.item)
        && !is_in(&copy.replaced, other.item)
        && changes_before(copy, before, new, other)
}

// Whether one of these does.
fn is_any_clash(
    copy: &TypeCopy<'_>,
    before: &[NewOperation<'_>],
    new: &NewOperation<'_>,
    change: &Change<'_>,
    others: &[Change<'_>],
) -> bool
    ensures { result ≡ list_any (bad.is_clash (copy_view copy.now) (map new_operation_of before.now) (new_operation_of new.now)
        (change_of change.now)) (map change_of others.now) }
{
    match others {
        [] => false,
        [first, rest @ ..] => {
            is_clash(copy, before, new, change, first)
                || is_any_clash(copy, before, new, change, rest)
        }
    }
}

// Whether an operation that gets the new name becomes the same as another item.
fn has_clash(
    copy: &TypeCopy<'_>,
    before: &[NewOperation<'_>],
    new: &NewOperation<'_>,
    change: &Change<'_>,
) -> bool
    ensures { result ≡ bad.has_clash (copy_view copy.now) (map new_operation_of before.now) (new_operation_of new.now)
        (change_of change.now) }
{
    copy.gets(new, change.item) && is_any_clash(copy, before, new, change, &copy.changes)
}

// Whether one of these does.
fn has_any_clash(
    copy: &TypeCopy<'_>,
    before: &[NewOperation<'_>],
    new: &NewOperation<'_>,
    changes: &[Change<'_>],
) -> bool
    ensures { result ≡ list_any (bad.has_clash (copy_view copy.now) (map new_operation_of before.now) (new_operation_of new.now))
        (map change_of changes.now) }
{
    match changes {
        [] => false,
        [first, others @ ..] => {
            has_clash(copy, before, new, first) || has_any_clash(copy, before, new, others)
        }
    }
}

/// Whether a pair of operations can't be, with these before it. It takes no memory.
pub fn is_bad_operation(
    copy: &TypeCopy<'_>,
    before: &[NewOperation<'_>],
    new: &NewOperation<'_>,
) -> bool
    ensures { result ≡ bad.is_bad_operation (copy_view copy.now) (map new_operation_of before.now) (new_operation_of new.now) }
{
    !is_named(&copy.changes, new)
        || has_old_operation(before, new)
        || is_any_misplaced(copy, new, &copy.changes)
        || has_any_clash(copy, before, new, &copy.changes)
}
