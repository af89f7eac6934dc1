// Sorts by their names.

ghost use Rattle.std.specs.Prelude.{◌≡◌, ◌≤◌, length};
ghost use Rattle.std.specs.List.{list_any, slice_get};
ghost use Rattle.sort_overloads.specs.Listed.{is_same_name, is_name_of};
ghost use Rattle.static_equations.specs.Variables as variables;

use spec_core::items::Sort;
use spec_core::name::Name;

// Whether a name is this one, letters of ASCII without case.
fn has_name(other: &Name, name: &str) -> bool
    ensures { result ≡ is_same_name other.now name.now }
{
    other.as_str().eq_ignore_ascii_case(name)
}

/// Whether the sort of this number has the name. It takes no memory.
pub fn is_named(sorts: &[Name], sort: Sort, name: &str) -> bool
    ensures { result ≡ is_name_of name.now (slice_get sorts.now sort.0) }
{
    let place = sort.0 as usize;
    if place < sorts.len() {
        has_name(&sorts[place], name)
    } else {
        false
    }
}

/// Whether a sort has the name. It takes no memory.
pub fn has_sort(sorts: &[Name], name: &str) -> bool
    ensures { result ≡ list_any (λ other. is_same_name other name.now) sorts.now }
{
    for sort in sorts {
        if has_name(sort, name) {
            return true;
        }
    }
    false
}

/// The number of the first sort of this name; how many sorts there are where none has it. It takes no memory.
pub fn sort_named(sorts: &[Name], name: &str) -> usize
    ensures number { result ≡ variables.sort_named sorts.now name.now }
    ensures bound { result ≤ length sorts.now }
{
    for (i, sort) in sorts.iter().enumerate() {
        if has_name(sort, name) {
            return i;
        }
    }
    sorts.len()
}
