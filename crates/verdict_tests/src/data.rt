// Natural numbers, their window, and offers of them.

use rule_model::offer::{Field, Fields, Offer};
use rule_model::rules::{Slot, Slots};
use spec_core::equation::DataSpec;
use spec_core::items::{Gate, Op, Sort};
use spec_core::memory::Memory;
use spec_core::name::Name;
use spec_core::signature::{OpDecl, Signature};
use spec_core::value::Value;
use spec_core::window::Window;
use std::alloc::Global;

/// The sort of the numbers.
pub const NUMBERS: Sort = Sort(0);

fn operation(alloc: Global, name: &str, args: &[Sort]) -> Result<OpDecl, Memory> {
    Ok(OpDecl {
        name: Name::new(String::from_str(alloc, name)?),
        args: Vec::from_slice(alloc, args)?,
        result: NUMBERS,
        marked: false,
        place_line: 1,
        place_column: 1,
    })
}

/// Zero and the next number.
pub fn algebra(alloc: Global) -> Result<DataSpec, Memory> {
    let mut ops = Vec::new(alloc);
    ops.push(operation(alloc, "0", &[])?)?;
    ops.push(operation(alloc, "s", &[NUMBERS])?)?;
    let mut sorts = Vec::new(alloc);
    sorts.push(Name::new(String::from_str(alloc, "N")?))?;
    Ok(DataSpec {
        signature: Signature { sorts, ops },
        equations: Vec::new(alloc),
    })
}

/// A number.
pub fn number(alloc: Global, n: u32) -> Result<Value, Memory> {
    let mut ops = Vec::new(alloc);
    for _turn in 0..n {
        ops.push(Op(1))?;
    }
    ops.push(Op(0))?;
    Ok(Value::new(ops))
}

/// The window: 0 and 1, of more.
pub fn windows(alloc: Global) -> Result<Vec<Window>, Memory> {
    let values = vec![in alloc; number(alloc, 0)?, number(alloc, 1)?]?;
    let mut all = Vec::new(alloc);
    all.push(Window {
        values,
        complete: false,
    })?;
    Ok(all)
}

/// The offer of 1 at the first gate.
pub fn offer_of_one(alloc: Global) -> Result<Offer, Memory> {
    Ok(Offer {
        gate: Gate(0),
        fields: Fields::new(vec![in alloc; Field::Give(number(alloc, 1)?)]?),
    })
}

/// The offer of any number at the first gate.
pub fn offer_of_any(alloc: Global) -> Result<Offer, Memory> {
    Ok(Offer {
        gate: Gate(0),
        fields: Fields::new(vec![in alloc; Field::Take(NUMBERS)]?),
    })
}

/// One chosen number, or the mark.
pub fn slots(alloc: Global, chosen: Option<u32>) -> Result<Slots, Memory> {
    let slot = match chosen {
        None => Slot::Mark,
        Some(n) => Slot::Of(number(alloc, n)?),
    };
    Ok(Slots::new(vec![in alloc; slot]?))
}
