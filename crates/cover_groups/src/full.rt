// Whether lists of premises are full.

ghost use Rattle.std.specs.Prelude.{◌↔◌, ◌<◌, ◌≡◌, [], IfOk, IsTrue, map};
ghost use Rattle.std.specs.List.{slice_get};
ghost use Rattle.cover_groups.specs.Fullness.{AllFit, HaveAtMost, HasSomeSort, IsFullBy};
ghost use Rattle.cover_groups.specs.Groups.{premises_at};
ghost use Rattle.cover_search.specs.Indexes.{IsIndexOf};
ghost use Rattle.spec_core.specs.Cover.{IsFull};
ghost use Rattle.spec_core.specs.Numbers.{sort_number};
ghost use Rattle.spec_core.specs.Sorts.{FitsData};
ghost use Rattle.spec_core.specs.Terms.{term_of};
ghost use Rattle.spec_core.specs.Theories.{theory_of};

use crate::constants::has_constants;
use crate::premises::{after, all_begin, first_premise, has_empty};
use cover_search::DataIndex;
use data_fits::head_sort;
use equation_overlaps::candidate;
use spec_core::equation::DataSpec;
use spec_core::items::Sort;
use spec_core::memory::Memory;
use spec_core::term::Term;
use std::alloc::Global;

/// Whether lists of at most `longest` premises, over variables of these sorts, are full.
#[cycle(full)]
pub fn is_full(
    longest: usize,
    lists: &[&[(Term, Term)]],
    alloc: Global,
    algebra: &DataSpec,
    index: &DataIndex<'_>,
    vars: &[Sort],
) -> Result<bool, Memory>
    requires fits { FitsData (theory_of algebra.now) }
    requires index { IsIndexOf index.now (theory_of algebra.now) }
    requires short { HaveAtMost longest (map premises_at lists.now) }
    requires terms { AllFit (theory_of algebra.now) (slice_get (map sort_number vars.now)) (map premises_at lists.now) }
    ensures { IfOk result (λ full.
        IsTrue full ↔ IsFull (theory_of algebra.now) (slice_get (map sort_number vars.now)) (map premises_at lists.now)) }
{
    if has_empty(lists) {
        return Ok(true);
    }
    match first_premise(lists) {
        None => Ok(false),
        Some(premise) => {
            for number in 0..3usize {
                let term = candidate(premise, number);
                if is_full_by(longest, lists, alloc, algebra, index, vars, term)? {
                    return Ok(true);
                }
            }
            Ok(false)
        }
    }
}

// Whether they are full by the constants that they give this term.
#[cycle(full)]
fn is_full_by(
    longest: usize,
    lists: &[&[(Term, Term)]],
    alloc: Global,
    algebra: &DataSpec,
    index: &DataIndex<'_>,
    vars: &[Sort],
    term: &Term,
) -> Result<bool, Memory>
    requires fits { FitsData (theory_of algebra.now) }
    requires index { IsIndexOf index.now (theory_of algebra.now) }
    requires short { HaveAtMost longest (map premises_at lists.now) }
    requires terms { AllFit (theory_of algebra.now) (slice_get (map sort_number vars.now)) (map premises_at lists.now) }
    requires some { 0 < longest }
    requires sorted { HasSomeSort (theory_of algebra.now) (slice_get (map sort_number vars.now)) (term_of term.now) }
    ensures { IfOk result (λ full.
        IsTrue full ↔ IsFullBy (theory_of algebra.now) (slice_get (map sort_number vars.now)) (map premises_at lists.now)
        (term_of term.now)) }
{
    match head_sort(term, algebra, vars) {
        None => Ok(false),
        Some(sort) => {
            if !has_constants(algebra, index, sort) {
                return Ok(false);
            }
            if !all_begin(algebra, lists, term) {
                return Ok(false);
            }
            let constructors = index.constructors.of_sort(sort.0);
            for op in constructors {
                let rest = after(alloc, algebra, lists, term, *op)?;
                if !is_full(longest - 1, &rest, alloc, algebra, index, vars)? {
                    return Ok(false);
                }
            }
            Ok(true)
        }
    }
}
