// A program is put together.

ghost use Rattle.std.specs.Prelude.{◌≡◌, ◌++◌, IfOk, OnOk, map, length, drop, option_map};
ghost use Rattle.static_constructs.specs.Written.{gates_in};
ghost use Rattle.spec_core.specs.Code.{node_of, program_of};
ghost use Rattle.spec_core.specs.Theories.{theory_of};
ghost use Rattle.static_check.specs.Steps.{program_with, program_with_if};

use lotos_ast::spec::Spec;
use lotos_ast::token::Token;
use spec_core::code::{Checked, CodeNode, Part};
use spec_core::equation::DataSpec;
use spec_core::memory::Memory;
use spec_core::name::Name;
use static_processes::heading::gates_in;
use std::alloc::Global;

/// So many nodes, in place of which those of processes are put at the end.
pub fn places(alloc: Global, count: usize) -> Result<Vec<CodeNode>, Memory>
    ensures { IfOk result (λ code. length code.items ≡ count) }
{
    let mut code = Vec::new(alloc);
    for _number in 0..count {
        code.push(CodeNode::Stop)?;
    }
    Ok(code)
}

// Puts the nodes behind the first so many of others behind these.
fn add_behind(
    nodes: &mut Vec<CodeNode>,
    count: usize,
    mut code: Vec<CodeNode>,
) -> Result<(), Memory>
    ensures { OnOk result (map node_of nodes.new.items ≡ map node_of nodes.old.items ++ drop count (map node_of code.items)) }
{
    if count >= code.len() {
        return Ok(());
    }
    let mut others = code.split_off(count)?;
    nodes.append(&mut others)?;
    Ok(())
}

// The names of gates.
fn names_of(alloc: Global, gates: &[Token]) -> Result<Vec<Name>, Memory>
    ensures { IfOk result (λ names. names.items ≡ map (λ t. t.text) gates.now) }
{
    let mut names = Vec::new(alloc);
    for gate in gates {
        names.push(gate.text.copy(alloc)?)?;
    }
    Ok(names)
}

// The program of a specification.
fn program(
    alloc: Global,
    spec: &Spec,
    algebra: &DataSpec,
    mut nodes: Vec<CodeNode>,
    processes: u32,
    code: Vec<CodeNode>,
    start: Part,
) -> Result<Checked, Memory>
    ensures { IfOk result (λ checked. program_of checked ≡ program_with (theory_of algebra.now) spec.now processes (map node_of nodes.items)
        (map node_of code.items) start.0) }
{
    add_behind(&mut nodes, processes as usize, code)?;
    Ok(Checked {
        algebra: algebra.copy(alloc)?,
        code: nodes,
        start: start.0,
        gates: names_of(alloc, gates_in(&spec.gates))?,
        processes,
    })
}

/// The program of a specification, where all its behaviour is read. Given are the nodes of its so many processes, all code, in which there
/// are places for them, and the number of the node at which it starts.
pub fn program_if(
    alloc: Global,
    spec: &Spec,
    algebra: &DataSpec,
    nodes: Option<Vec<CodeNode>>,
    processes: u32,
    code: Vec<CodeNode>,
    start: Option<Part>,
) -> Result<Option<Checked>, Memory>
    ensures { IfOk result (λ found. option_map program_of found ≡ program_with_if (theory_of algebra.now) spec.now processes
        (option_map (map node_of) (option_map (λ v. v.items) nodes)) (map node_of code.items) (option_map (λ p. p.0) start)) }
{
    match (nodes, start) {
        (Some(nodes), Some(start)) => Ok(Some(program(
            alloc, spec, algebra, nodes, processes, code, start,
        )?)),
        _ => Ok(None),
    }
}
