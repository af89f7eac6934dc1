// Windows that gain the constructors over their values.

ghost use Rattle.std.specs.Prelude.{◌≡◌, ◌<◌, ◌≤◌, ◌^◌, ◌++◌, ◌∷◌, [], ℕ, List, IfOk, IsTrue, IsFalse, MatchOption, Some, length, map};
ghost use Rattle.std.specs.Prelude.{vec_len};
ghost use Rattle.std.specs.List.{slice_get};
ghost use Rattle.spec_core.specs.Constructors.{IsConstructor};
ghost use Rattle.spec_core.specs.Numbers.{sort_number};
ghost use Rattle.spec_core.specs.Theories.{operation_of, theory_of};
ghost use Rattle.spec_core.specs.Windows.{IsInOrder};
ghost use Rattle.sort_windows.specs.Found.{IsFound, IsClosedFrom, IsClosed, BeginsMembers, AreWindows, HaveGained, windows_of};

use crate::growth::add_value;
use crate::ordered::{OrderedValues, are_shorter, is_found};
use spec_core::constructors::is_constructor;
use spec_core::equation::DataSpec;
use spec_core::items::{Op, Sort};
use spec_core::memory::Memory;
use spec_core::signature::OpDecl;
use spec_core::value::Value;
use std::alloc::Global;

/// The window of a sort, without values where the list has none. It takes no memory.
pub fn values_of(windows: &[OrderedValues], sort: Sort) -> &[Value]
    ensures found { result.now ≡ windows_of windows.now sort.0 }
{
    let place = sort.0 as usize;
    if place < windows.len() {
        windows[place].as_slice()
    } else {
        &[]
    }
}

/// Goes once over the constructors and over the values of the windows, those that it puts there among them, and puts what isn't found
/// into the window of its sort. It answers whether there was something.
pub fn fill_windows(
    alloc: Global,
    algebra: &DataSpec,
    windows: &mut Vec<OrderedValues>,
    limit: usize,
) -> Result<bool, Memory>
    requires few { vec_len algebra.now.signature.ops < 2 ^ 32 }
    requires windows { AreWindows (theory_of algebra.now) limit (windows_of windows.old.items) }
    ensures windows { IfOk result (λ grown. AreWindows (theory_of algebra.now) limit (windows_of windows.new.items)) }
    ensures closed { IfOk result (λ grown. IsFalse grown → IsClosed (theory_of algebra.now) limit (windows_of windows.new.items)) }
{
    let mut grown = false;
    for (i, declaration) in algebra.signature.ops.iter().enumerate() {
        let more = fill_by(alloc, algebra, windows, limit, Op(i as u32), declaration)?;
        grown = grown | more;
    }
    Ok(grown)
}

// The same of one operation.
fn fill_by(
    alloc: Global,
    algebra: &DataSpec,
    windows: &mut Vec<OrderedValues>,
    limit: usize,
    op: Op,
    declaration: &OpDecl,
) -> Result<bool, Memory>
    requires declared { slice_get (theory_of algebra.now).operations op.0 ≡ Some (operation_of declaration.now) }
    requires windows { AreWindows (theory_of algebra.now) limit (windows_of windows.old.items) }
    ensures windows { IfOk result (λ grown. AreWindows (theory_of algebra.now) limit (windows_of windows.new.items)) }
    ensures same { IfOk result (λ grown. IsFalse grown → windows.new.items ≡ windows.old.items) }
    ensures closed { IfOk result (λ grown.
        IsFalse grown →
        IsConstructor (theory_of algebra.now) op.0 →
        IsClosedFrom limit (windows_of windows.new.items) declaration.now.result.0 (map sort_number declaration.now.args.items)
        (op.0 ∷ [])) }
{
    if !is_constructor(algebra, op) {
        return Ok(false);
    }
    let front = Value::new(vec![in alloc; op]?);
    fill_after(
        alloc,
        algebra,
        windows,
        limit,
        declaration.result,
        &declaration.args,
        &front,
    )
}

// The same of the lists that continue this one by a value of each of these sorts. Where the window of their sort is full of shorter
// lists, they are found there, so that none of them is looked at.
fn fill_after(
    alloc: Global,
    algebra: &DataSpec,
    windows: &mut Vec<OrderedValues>,
    limit: usize,
    sort: Sort,
    args: &[Sort],
    front: &Value,
) -> Result<bool, Memory>
    requires windows { AreWindows (theory_of algebra.now) limit (windows_of windows.old.items) }
    requires begins { BeginsMembers (theory_of algebra.now) sort.0 (map sort_number args.now) front.now }
    ensures windows { IfOk result (λ grown. AreWindows (theory_of algebra.now) limit (windows_of windows.new.items)) }
    ensures same { IfOk result (λ grown. IsFalse grown → windows.new.items ≡ windows.old.items) }
    ensures closed { IfOk result (λ grown.
        IsFalse grown → IsClosedFrom limit (windows_of windows.new.items) sort.0 (map sort_number args.now) front.now) }
{
    if are_shorter(values_of(windows, sort), limit, front) {
        return Ok(false);
    }
    match args {
        [] => fill_itself(alloc, windows, limit, sort, front),
        [first, rest @ ..] => {
            let mut grown = false;
            for place in 0..limit {
                let next = longer_by(alloc, values_of(windows, *first), place, front)?;
                match next {
                    None => return Ok(grown),
                    Some(longer) => {
                        let more = fill_after(alloc, algebra, windows, limit, sort, rest, &longer)?;
                        grown = grown | more;
                    }
                }
            }
            Ok(grown)
        }
    }
}

// The same of this list alone.
fn fill_itself(
    alloc: Global,
    windows: &mut Vec<OrderedValues>,
    limit: usize,
    sort: Sort,
    value: &Value,
) -> Result<bool, Memory>
    requires in_order { IsInOrder (windows_of windows.old.items sort.0) }
    ensures gained { IfOk result (λ grown.
        IsTrue grown → HaveGained limit sort.0 value.now (windows_of windows.old.items) (windows_of windows.new.items)) }
    ensures same { IfOk result (λ grown. IsFalse grown → windows.new.items ≡ windows.old.items) }
    ensures found { IfOk result (λ grown. IsFalse grown → IsFound limit (windows_of windows.new.items sort.0) value.now) }
{
    if is_found(values_of(windows, sort), limit, value) {
        return Ok(false);
    }
    let copy = value.copy(alloc)?;
    add_value(alloc, windows, sort, copy, limit)?;
    Ok(true)
}

// The list and then the value at a place, where there is one.
fn longer_by(
    alloc: Global,
    values: &[Value],
    place: usize,
    front: &Value,
) -> Result<Option<Value>, Memory>
    ensures { IfOk result (λ longer. MatchOption longer (length values.now ≤ place)
        (λ all. (w : List ℕ) × (slice_get values.now place ≡ Some w) × (all ≡ front.now ++ w))) }
{
    if place >= values.len() {
        return Ok(None);
    }
    let all = joined(alloc, front, &values[place])?;
    Ok(Some(all))
}

// The operations of one list and then those of another.
fn joined(alloc: Global, left: &Value, right: &Value) -> Result<Value, Memory>
    ensures { IfOk result (λ all. all ≡ left.now ++ right.now) }
{
    let mut ops = Vec::from_slice(alloc, left.as_slice())?;
    ops.extend_from_slice(right.as_slice())?;
    Ok(Value::new(ops))
}
