// The search for an uncovered pattern.

ghost use Rattle.std.specs.Prelude.{ℕ, ◌≡◌, ◌<◌, ◌∷◌, List, Ok, Some, IfOk, MatchOption, true, false, map};
ghost use Rattle.cover_search.specs.Candidates.{AreCandidates, HasCandidates};
ghost use Rattle.cover_search.specs.Indexes.{IsIndexOf};
ghost use Rattle.cover_search.specs.Makers.{AreMade};
ghost use Rattle.cover_search.specs.Search.{arguments_of, rows_of, stack_of, IsCovered, IsUncovered, LeadsBack};
ghost use Rattle.cover_search.specs.Turns.{turns_left};
ghost use Rattle.spec_core.specs.Lists.{Each};
ghost use Rattle.spec_core.specs.Sorts.{FitsData, HaveSorts};
ghost use Rattle.spec_core.specs.Terms.{term_of, terms};
ghost use Rattle.spec_core.specs.Theories.{theory_of};
ghost use Rattle.equation_shapes.specs.Shapes.{MeetAll};

use crate::alternatives::push_alternatives;
use crate::arguments::Arguments;
use crate::index::DataIndex;
use crate::opening::faced_any;
use crate::pending::Pending;
use crate::rows::{all_numbers, first_meeting, meeting, some_covers};
use crate::split::Split;
use spec_core::equation::DataSpec;
use spec_core::memory::Memory;
use spec_core::term::Term;
use std::alloc::Global;

// One pattern of the search: whether it is uncovered; else what is left of it is on the stack.
fn step(
    alloc: Global,
    algebra: &DataSpec,
    index: &DataIndex<'_>,
    rows: &[Arguments],
    candidates: &[usize],
    pattern: &[Term],
    todo: &mut Vec<Pending>,
) -> Result<bool, Memory>
    requires fits { FitsData (theory_of algebra.now) }
    requires index { IsIndexOf index.now (theory_of algebra.now) }
    requires candidates { AreCandidates (rows_of rows.now) (terms (map term_of pattern.now)) candidates.now }
    ensures found { result ≡ Ok true → Each (λ r. MeetAll r (terms (map term_of pattern.now)) → ⊥) (rows_of rows.now) }
    ensures left { result ≡ Ok false → LeadsBack (theory_of algebra.now) (rows_of rows.now)
        (terms (map term_of pattern.now) ∷ stack_of todo.old.items) (stack_of todo.new.items) }
    ensures fewer { result ≡ Ok false → turns_left (theory_of algebra.now) (rows_of rows.now) (stack_of todo.new.items)
        < turns_left (theory_of algebra.now) (rows_of rows.now) (terms (map term_of pattern.now) ∷ stack_of todo.old.items) }
    ensures candidates { result ≡ Ok false → Each (HasCandidates (rows_of rows.now)) todo.old.items →
        Each (HasCandidates (rows_of rows.now)) todo.new.items }
{
    let numbers = meeting(alloc, rows, candidates, pattern)?;
    if some_covers(rows, &numbers, pattern) {
        return Ok(false);
    }
    match first_meeting(rows, &numbers) {
        None => Ok(true),
        Some(row) => {
            let cells: &[Term] = &row.items;
            let facing = faced_any(cells, pattern);
            match facing {
                None => Ok(false),
                Some(sort) => {
                    let split = Split::of(alloc, rows, cells, pattern, &numbers)?;
                    push_alternatives(alloc, algebra, index, sort, cells, pattern, &split, todo)?;
                    Ok(false)
                }
            }
        }
    }
}

/// Nothing where the rows cover the pattern, else a part of it that no row meets. Each variable of a pattern is one of its own, and its
/// number is its sort.
///
/// It ends: where a variable of a pattern is replaced, the row that was looked at has fewer operations that stand in the place of a
/// variable or below one, and no row has more of them (`turns_left`).
pub fn uncovered_pattern(
    alloc: Global,
    algebra: &DataSpec,
    index: &DataIndex<'_>,
    rows: &[Arguments],
    start: Arguments,
) -> Result<Option<Arguments>, Memory>
    requires fits { FitsData (theory_of algebra.now) }
    requires index { IsIndexOf index.now (theory_of algebra.now) }
    ensures covered { IfOk result (λ found. MatchOption found ((sorts : List ℕ) → HaveSorts (theory_of algebra.now) Some (arguments_of start) sorts →
        IsCovered (theory_of algebra.now) (rows_of rows.now) sorts (arguments_of start)) (λ _. Unit {0})) }
    ensures uncovered { IfOk result (λ found. MatchOption found (Unit {0}) (λ pattern. (sorts : List ℕ) →
        HaveSorts (theory_of algebra.now) Some (arguments_of start) sorts → AreMade (theory_of algebra.now) (arguments_of start) →
        IsUncovered (theory_of algebra.now) (rows_of rows.now) sorts (arguments_of pattern))) }
{
    let mut todo = Vec::new(alloc);
    let candidates = all_numbers(alloc, rows)?;
    todo.push(Pending {
        pattern: start,
        candidates,
    })?;
    while let Some(pending) = todo.pop() {
        let candidates: &[usize] = &pending.candidates;
        let pattern: &[Term] = &pending.pattern.items;
        let uncovered = step(alloc, algebra, index, rows, candidates, pattern, &mut todo)?;
        if uncovered {
            return Ok(Some(pending.pattern));
        }
    }
    Ok(None)
}
