// Copies of a part at several gates.

ghost use Rattle.std.specs.Prelude.{◌≡◌, ◌++◌, ◌+◌, IfOk, OnOk, map};
ghost use Rattle.spec_core.specs.Code.{synchronised_of, node_of};
ghost use Rattle.spec_core.specs.Numbers.{gate_number};
ghost use Rattle.static_readings.specs.Readings as readings;
ghost use Rattle.static_readings.specs.Views.{output_of};
ghost use Rattle.static_compiler.specs.Frames.{parallel_if, next_copy};

use spec_core::code::{CodeNode, GateSet, Part};
use spec_core::items::Gate;
use spec_core::memory::Memory;
use static_readings::output::Output;
use std::alloc::Global;

// A copy of the part from one gate to another.
fn relabelled(alloc: Global, part: Part, gate: Gate, to: Gate) -> Result<CodeNode, Memory>
    ensures { IfOk result (λ node. node_of node ≡ readings.relabelled part.0 gate.0 to.0) }
{
    let mut pairs = Vec::new(alloc);
    pairs.push((gate, to))?;
    Ok(CodeNode::Relabel(pairs, part))
}

// The number so many behind another. Want of memory is answered where it is 2^32 or more.
fn behind(part: Part, count: usize) -> Result<Part, Memory>
    ensures number { IfOk result (λ p. p.0 ≡ part.0 + count) }
{
    if count >= 4_294_967_296 - part.0 as usize {
        return Err(Memory);
    }
    Ok(Part(part.0 + count as u32))
}

// Puts out the composition of one more copy with those behind it, of which there are so many nodes; where there are none, nothing.
fn put_parallel(
    alloc: Global,
    gates: &GateSet,
    part: Part,
    count: usize,
    out: &mut Output,
) -> Result<(), Memory>
    ensures code { OnOk result ((output_of out.new).code
        ≡ (output_of out.old).code ++ parallel_if (synchronised_of gates.now) part.0 count) }
    ensures refusals { OnOk result ((output_of out.new).refusals ≡ (output_of out.old).refusals) }
{
    if count == 0 {
        return Ok(());
    }
    let right = behind(part, count)?;
    let left = behind(right, 1)?;
    let gates = gates.copy(alloc)?;
    out.push(CodeNode::Par(gates, left, right))
}

// Puts out one more copy of a part, before others of so many nodes.
fn put_copy(
    alloc: Global,
    gates: &GateSet,
    part: Part,
    gate: Gate,
    to: Gate,
    count: usize,
    out: &mut Output,
) -> Result<(), Memory>
    ensures code { OnOk result ((output_of out.new).code
        ≡ (output_of out.old).code ++ next_copy (synchronised_of gates.now) part.0 gate.0 to.0 count) }
    ensures refusals { OnOk result ((output_of out.new).refusals ≡ (output_of out.old).refusals) }
{
    let copy = relabelled(alloc, part, gate, to)?;
    out.push(copy)?;
    put_parallel(alloc, gates, part, count, out)
}

/// Puts out copies of a part from one gate to others.
pub fn put_copies(
    alloc: Global,
    gates: &GateSet,
    part: Part,
    gate: Gate,
    mut among: Vec<Gate>,
    out: &mut Output,
) -> Result<(), Memory>
    ensures code { OnOk result ((output_of out.new).code ≡ (output_of out.old).code
        ++ readings.copy_nodes (synchronised_of gates.now) part.0 gate.0 (map gate_number among.items)) }
    ensures refusals { OnOk result ((output_of out.new).refusals ≡ (output_of out.old).refusals) }
{
    let start = out.code.len();
    while let Some(to) = among.pop() {
        let count = out.code.len() - start;
        put_copy(alloc, gates, part, gate, to, count, out)?;
    }
    Ok(())
}
