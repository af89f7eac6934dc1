// Specifications over one sort with one value, and their trees.

ghost use Rattle.std.specs.Prelude.{IfOk, IfSome};
ghost use Rattle.spec_core.specs.Code.{program_of};
ghost use Rattle.spec_core.specs.Ready.{IsReady};

use board_tree::tree::Tree;
use node_trees::expansion::Expansion;
use node_trees::node::Node;
use node_trees::origin::Gen;
use node_values::stop::Stop;
use node_values::{Evaluator, Forms, Prepared};
use node_work::node::expand_node;
use sort_windows::windows;
use spec_core::code::Checked;
use spec_core::memory::Memory;
use std::alloc::Global;
use test_programs::accepted;

/// The specification with this functionality and this behaviour, over five gates. None where it is refused.
pub fn program(alloc: Global, ends: &str, behaviour: &str) -> Result<Option<Checked>, Memory>
    ensures ready { IfOk result (λ o. IfSome o (λ checked. IsReady (program_of checked))) }
{
    let text = format!(in alloc;
        "specification S [a, b, c, d, e] : {ends} type Data is sorts S opns v : -> S endtype behaviour {behaviour} endspec"
    )?;
    accepted(alloc, text.as_str())
}

// What a node can do; None where that stops.
fn expanded(alloc: Global, checked: &Checked, node: &Node) -> Result<Option<Expansion>, Memory>
    requires ready { IsReady (program_of checked.now) }
{
    let shown = windows(alloc, &checked.algebra, 2)?;
    let forms = Forms::new(alloc, &checked.algebra)?;
    let prepared = Prepared {
        checked,
        evaluator: Evaluator::new(&checked.algebra, &forms),
    };
    match expand_node(alloc, &prepared, &shown, &node.origin, 100) {
        Ok(work) => Ok(Some(work)),
        Err(Stop::Memory) => Err(Memory),
        Err(_) => Ok(None),
    }
}

/// Expands the node of this generation, if it lives.
pub fn expand_at(
    alloc: Global,
    checked: &Checked,
    tree: &mut Tree,
    number: u128,
) -> Result<(), Memory>
    requires ready { IsReady (program_of checked.now) }
{
    let work = match tree.at(Gen(number)) {
        None => None,
        Some(node) => expanded(alloc, checked, node)?,
    };
    if let Some(work) = work {
        if tree.at(Gen(number)).is_some() {
            tree.post(Gen(number), work);
        }
    }
    Ok(())
}
