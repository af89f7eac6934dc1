// Copies of checked specifications.

use crate::polish::{NUMBER, data, term};
use crate::samples::names;
use spec_core::code::{ActField, Checked, CodeNode, ExitField, Part};
use spec_core::items::Gate;
use spec_core::memory::Memory;
use spec_core::term::Term;
use std::alloc::Global;
use std::test::Fail;

// g !0 ?x:Nat [x = 0]; and then the node 0
fn action(alloc: Global) -> Result<CodeNode, Memory> {
    Ok(CodeNode::Act {
        gate: Gate(0),
        fields: vec![in alloc;
            ActField::Give(term(alloc, "0")?),
            ActField::Take(0, NUMBER),
        ]?,
        guard: Some((Term::Var(0), term(alloc, "0")?)),
        rest: Part(0),
    })
}

// The node 0, exit(x), and the node 1, the action before it.
fn code(alloc: Global) -> Result<Vec<CodeNode>, Memory> {
    let mut nodes = Vec::new(alloc);
    let fields = vec![in alloc; ExitField::Give(Term::Var(0))]?;
    nodes.push(CodeNode::Exit(fields))?;
    nodes.push(action(alloc)?)?;
    Ok(nodes)
}

// g !0 ?x:Nat [x = 0]; exit(x) over the numbers, with its gate g.
fn specification(alloc: Global) -> Result<Checked, Memory> {
    Ok(Checked {
        algebra: data(alloc)?,
        code: code(alloc)?,
        start: 1,
        gates: names(alloc, &["g"])?,
        processes: 0,
    })
}

// Whether the node is an action that asks whether x is 0.
fn asks_for_zero(node: &CodeNode, zero: &Term) -> bool {
    match node {
        CodeNode::Act {
            guard: Some((left, right)),
            ..
        } => left.same(&Term::Var(0)) && right.same(zero),
        _ => false,
    }
}

// Whether nothing of the specification is missing.
fn is_whole(checked: &Checked, zero: &Term) -> bool {
    match checked.code.as_slice() {
        [_, node] => {
            asks_for_zero(node, zero) && checked.algebra.equations.len() == 24 && checked.start == 1
        }
        _ => false,
    }
}

#[test]
fn a_specification_is_copied_whole(rt: HostRuntime) -> Result<(), Fail> {
    let copied = specification(rt.alloc())?.copy(rt.alloc())?;
    let zero = term(rt.alloc(), "0")?;
    assert!(rt; is_whole(&copied, &zero));
    Ok(())
}
