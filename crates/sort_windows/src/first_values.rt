// The windows of sorts.

ghost use Rattle.std.specs.Prelude.{◌≡◌, ◌<◌, ◌≤◌, ◌^◌, ◌+◌, ◌↔◌, IfOk, IsTrue, length, vec_len};
ghost use Rattle.cover_check.specs.Opening.{AreOpen};
ghost use Rattle.spec_core.specs.OpenSorts.{IsOpen};
ghost use Rattle.spec_core.specs.Orthogonality.{IsOrthogonal};
ghost use Rattle.spec_core.specs.Sorts.{FitsData};
ghost use Rattle.spec_core.specs.Theories.{theory_of};
ghost use Rattle.spec_core.specs.Windows.{IsWindow};
ghost use Rattle.sort_windows.specs.Found.{IsClosed, AreWindows, AreBySorts, windows_of};

use crate::filling::{fill_windows, values_of};
use crate::ordered::OrderedValues;
use cover_check::open_sorts;
use equation_sets::set::NumberSet;
use spec_core::equation::DataSpec;
use spec_core::items::Sort;
use spec_core::memory::Memory;
use spec_core::value::Value;
use spec_core::window::Window;
use std::alloc::Global;

/// The first `k` ground constructor terms of a sort, by number of symbols and then by their operations' numbers, and whether there are no
/// more and the sort isn't open, so that it has no other values. A window of 0 terms is empty, and complete where the sort has none. The one
/// error is want of memory; it is also given after
/// 2^64 rounds over the constructors, which no machine reaches. A round goes over all constructors and their arguments in the windows
/// that aren't too long to come, and puts into the windows what isn't there; the last one finds nothing more.
#[tactic(auto, using(crate::proofs::Few::few_operations))]
pub fn window(alloc: Global, algebra: &DataSpec, sort: Sort, k: u32) -> Result<Window, Memory>
    requires fits { FitsData (theory_of algebra.now) }
    requires orthogonal { IsOrthogonal (theory_of algebra.now) }
    ensures window { IfOk result (λ w. IsWindow (theory_of algebra.now) sort.0 k w.values.items w.complete) }
{
    let those_open = open_sorts(alloc, algebra)?;
    let windows = closed_windows(alloc, algebra, k as usize + 1)?;
    first_values(alloc, algebra, &those_open, &windows, sort, k)
}

/// The windows of all sorts, in the order of their numbers, each as `window` has it. The rounds over the constructors are gone through
/// once for all sorts.
#[tactic(auto, using(crate::proofs::Few::few_operations, crate::proofs::Few::few_sorts))]
pub fn windows(alloc: Global, algebra: &DataSpec, k: u32) -> Result<Vec<Window>, Memory>
    requires fits { FitsData (theory_of algebra.now) }
    requires orthogonal { IsOrthogonal (theory_of algebra.now) }
    ensures windows { IfOk result (λ all. AreBySorts (theory_of algebra.now) k all.items) }
    ensures all { IfOk result (λ all. length all.items ≡ length (theory_of algebra.now).sorts) }
{
    let those_open = open_sorts(alloc, algebra)?;
    let windows = closed_windows(alloc, algebra, k as usize + 1)?;
    let mut all = Vec::new(alloc);
    for number in 0..algebra.signature.sorts.len() {
        let window = first_values(
            alloc,
            algebra,
            &those_open,
            &windows,
            Sort(number as u32),
            k,
        )?;
        all.push(window)?;
    }
    Ok(all)
}

// Whether a sort has no more values than these: they are no more than the limit, and the sort isn't open.
fn are_all(
    algebra: &DataSpec,
    those_open: &NumberSet,
    sort: Sort,
    count: usize,
    limit: usize,
) -> bool
    requires open { AreOpen (theory_of algebra.now) those_open.now }
    ensures { IsTrue result ↔ ((IsOpen (theory_of algebra.now) sort.0 → ⊥) × (count ≤ limit)) }
{
    count <= limit && !those_open.has(sort.0)
}

// The first values of a sort, from windows of one value more.
fn first_values(
    alloc: Global,
    algebra: &DataSpec,
    those_open: &NumberSet,
    windows: &[OrderedValues],
    sort: Sort,
    k: u32,
) -> Result<Window, Memory>
    requires open { AreOpen (theory_of algebra.now) those_open.now }
    requires windows { AreWindows (theory_of algebra.now) (k + 1) (windows_of windows.now) }
    requires closed { IsClosed (theory_of algebra.now) (k + 1) (windows_of windows.now) }
    ensures { IfOk result (λ w. IsWindow (theory_of algebra.now) sort.0 k w.values.items w.complete) }
{
    let limit = k as usize;
    let mut values = copy_values(alloc, values_of(windows, sort))?;
    let complete = are_all(algebra, those_open, sort, values.len(), limit);
    values.truncate(limit);
    Ok(Window { values, complete })
}

// Windows of all sorts to which no constructor adds anything.
fn closed_windows(
    alloc: Global,
    algebra: &DataSpec,
    limit: usize,
) -> Result<Vec<OrderedValues>, Memory>
    requires few { vec_len algebra.now.signature.ops < 2 ^ 32 }
    ensures windows { IfOk result (λ all. AreWindows (theory_of algebra.now) limit (windows_of all.items)) }
    ensures closed { IfOk result (λ all. IsClosed (theory_of algebra.now) limit (windows_of all.items)) }
{
    let mut windows = Vec::new(alloc);
    for _turn in 0..u64::MAX {
        let grown = fill_windows(alloc, algebra, &mut windows, limit)?;
        if !grown {
            return Ok(windows);
        }
    }
    Err(Memory)
}

// Equal values, in the same order.
fn copy_values(alloc: Global, values: &[Value]) -> Result<Vec<Value>, Memory>
    ensures equal { IfOk result (λ all. all.items ≡ values.now) }
{
    let mut all = Vec::new(alloc);
    for value in values {
        all.push(value.copy(alloc)?)?;
    }
    Ok(all)
}
