// Pairs of sorts that can't be.

ghost use Rattle.std.specs.Prelude.{◌≡◌, map};
ghost use Rattle.std.specs.List.{list_any};
ghost use Rattle.type_contents.specs.Items.{is_same_item};
ghost use Rattle.type_contents.specs.Own.{sort_item};
ghost use Rattle.type_contents.specs.Views.{new_sort_of};
ghost use Rattle.type_copies.specs.BadRenamings as bad;
ghost use Rattle.type_copies.specs.Views.{change_of, copy_view};

use crate::copy::{Change, TypeCopy, is_sort_in, is_sort_named};
use type_contents::images::NewSort;

// Whether the sort of this name is copied.
fn has_sort(changes: &[Change<'_>], name: &str) -> bool
    ensures { result ≡ list_any (λ c. is_same_item (sort_item name.now) c.item) (map change_of changes.now) }
{
    match changes {
        [] => false,
        [first, others @ ..] => is_sort_named(first.item, name) || has_sort(others, name),
    }
}

// Whether one of these is a new name for this sort.
fn has_old_sort(news: &[NewSort<'_>], name: &str) -> bool
    ensures { result ≡ list_any (bad.has_old_sort name.now) (map new_sort_of news.now) }
{
    match news {
        [] => false,
        [first, others @ ..] => first.old.as_str() == name || has_old_sort(others, name),
    }
}

// Whether the old sort gets the new name: it isn't replaced.
fn renames_sort(copy: &TypeCopy<'_>, new: &NewSort<'_>) -> bool
    ensures { result ≡ bad.renames_sort (copy_view copy.now) (new_sort_of new.now) }
{
    !is_sort_in(&copy.replaced, new.old.as_str())
}

// Whether a sort gets the same new name by one of these.
fn is_given(copy: &TypeCopy<'_>, news: &[NewSort<'_>], new: &NewSort<'_>) -> bool
    ensures { result ≡ list_any (bad.gives_same (copy_view copy.now) (new_sort_of new.now)) (map new_sort_of news.now) }
{
    match news {
        [] => false,
        [first, others @ ..] => {
            first.new.as_str() == new.new.as_str() && renames_sort(copy, first)
                || is_given(copy, others, new)
        }
    }
}

// Whether the new sort is copied, and no pair is for it.
fn is_kept_sort(copy: &TypeCopy<'_>, new: &NewSort<'_>) -> bool
    ensures { result ≡ bad.is_kept_sort (copy_view copy.now) (new_sort_of new.now) }
{
    has_sort(&copy.changes, new.new.as_str())
        && !has_old_sort(&copy.renaming.sorts, new.new.as_str())
}

/// Whether a pair of sorts can't be, with these before it. It takes no memory.
pub fn is_bad_sort(copy: &TypeCopy<'_>, before: &[NewSort<'_>], new: &NewSort<'_>) -> bool
    ensures { result ≡ bad.is_bad_sort (copy_view copy.now) (map new_sort_of before.now) (new_sort_of new.now) }
{
    !has_sort(&copy.changes, new.old.as_str())
        || has_old_sort(before, new.old.as_str())
        || renames_sort(copy, new) && (is_given(copy, before, new) || is_kept_sort(copy, new))
}
