// Gates that an operator names, and numbers of gates.

ghost use Rattle.std.specs.Prelude.{◌≡◌, IfOk, map, option_map};
ghost use Rattle.std.specs.List.{range_with_len};
ghost use Rattle.spec_core.specs.Code.{synchronised_of};
ghost use Rattle.spec_core.specs.Numbers.{gate_number};
ghost use Rattle.static_readings.specs.Readings as readings;

use lotos_ast::behaviour::Operator;
use lotos_ast::token::Token;
use spec_core::code::GateSet;
use spec_core::items::Gate;
use spec_core::memory::Memory;
use static_readings::declarations::gates_named;
use static_readings::site::Site;
use std::alloc::Global;

/// The gates that an operator names. It takes no memory.
pub fn gates_of(operator: &Operator) -> &[Token]
    ensures { result.now ≡ readings.gates_of operator.now }
{
    match operator {
        Operator::Interleave { place: _ } => &[],
        Operator::Synchronise { place: _ } => &[],
        Operator::Shared { place: _, gates } => gates,
    }
}

/// The gates at which an operator synchronises, where they are in scope.
pub fn synchronised(
    alloc: Global,
    site: &Site<'_>,
    operator: &Operator,
) -> Result<Option<GateSet>, Memory>
    ensures { IfOk result (λ found. option_map synchronised_of found ≡ readings.synchronised site.now operator.now) }
{
    match operator {
        Operator::Interleave { place: _ } => Ok(Some(GateSet::These(Vec::new(alloc)))),
        Operator::Synchronise { place: _ } => Ok(Some(GateSet::Every)),
        Operator::Shared { place: _, gates } => match gates_named(alloc, site, gates)? {
            None => Ok(None),
            Some(gates) => Ok(Some(GateSet::These(gates))),
        },
    }
}

/// So many numbers of gates, from this one on. Want of memory is answered where one is 2^32 or more.
pub fn numbers_from(alloc: Global, first: u32, count: usize) -> Result<Vec<Gate>, Memory>
    ensures { IfOk result (λ gates. map gate_number gates.items ≡ range_with_len first count) }
{
    let mut gates = Vec::new(alloc);
    for i in 0..count {
        if i >= 4_294_967_296 - first as usize {
            return Err(Memory);
        }
        gates.push(Gate(first + i as u32))?;
    }
    Ok(gates)
}
