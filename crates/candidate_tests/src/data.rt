// Natural numbers and truth values: their operations, windows and offers.

use rule_model::offer::{Field, Fields, Offer};
use spec_core::equation::DataSpec;
use spec_core::items::{Gate, Op, Sort};
use spec_core::memory::Memory;
use spec_core::name::Name;
use spec_core::signature::{OpDecl, Signature};
use spec_core::value::Value;
use spec_core::window::Window;
use std::alloc::Global;

/// The sort of the numbers.
pub const NUMBERS: Sort = Sort(0);

/// The sort of the truth values.
pub const TRUTHS: Sort = Sort(1);

fn operation(alloc: Global, name: &str, args: &[Sort], sort: Sort) -> Result<OpDecl, Memory> {
    Ok(OpDecl {
        name: Name::new(String::from_str(alloc, name)?),
        args: Vec::from_slice(alloc, args)?,
        result: sort,
        marked: false,
        place_line: 1,
        place_column: 1,
    })
}

/// Zero and the next number; true and false.
pub fn algebra(alloc: Global) -> Result<DataSpec, Memory> {
    let mut ops = Vec::new(alloc);
    ops.push(operation(alloc, "0", &[], NUMBERS)?)?;
    ops.push(operation(alloc, "s", &[NUMBERS], NUMBERS)?)?;
    ops.push(operation(alloc, "t", &[], TRUTHS)?)?;
    ops.push(operation(alloc, "f", &[], TRUTHS)?)?;
    let mut sorts = Vec::new(alloc);
    sorts.push(Name::new(String::from_str(alloc, "N")?))?;
    sorts.push(Name::new(String::from_str(alloc, "B")?))?;
    Ok(DataSpec {
        signature: Signature { sorts, ops },
        equations: Vec::new(alloc),
    })
}

/// A number.
pub fn number(alloc: Global, n: u32) -> Result<Value, Memory> {
    let mut ops = Vec::new(alloc);
    for _turn in 0..n {
        ops.push(Op(1))?;
    }
    ops.push(Op(0))?;
    Ok(Value::new(ops))
}

/// A truth value.
pub fn truth(alloc: Global, holds: bool) -> Result<Value, Memory> {
    let op = if holds { Op(2) } else { Op(3) };
    Ok(Value::new(vec![in alloc; op]?))
}

/// So many numbers, of which there may be more; and both truth values.
pub fn windows(alloc: Global, numbers: u32, complete: bool) -> Result<Vec<Window>, Memory> {
    let mut values = Vec::new(alloc);
    for n in 0..numbers {
        values.push(number(alloc, n)?)?;
    }
    let mut all = Vec::new(alloc);
    all.push(Window { values, complete })?;
    let values = vec![in alloc; truth(alloc, true)?, truth(alloc, false)?]?;
    all.push(Window {
        values,
        complete: true,
    })?;
    Ok(all)
}

/// So many numbers of each sort; of the second one there are no more.
pub fn wide_windows(alloc: Global, numbers: u32) -> Result<Vec<Window>, Memory> {
    let mut first = windows(alloc, numbers, false)?;
    let second = windows(alloc, numbers, true)?;
    let _truths = first.pop();
    for window in second {
        first.push(window)?;
    }
    Ok(first)
}

/// The offer at the first gate with these fields.
pub fn offer(fields: Vec<Field>) -> Offer {
    Offer {
        gate: Gate(0),
        fields: Fields::new(fields),
    }
}
