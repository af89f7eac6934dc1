// Large trees: many nodes side by side, chains of operators, and a tree that grows.

ghost use Rattle.spec_core.specs.Code.{program_of};
ghost use Rattle.spec_core.specs.Ready.{IsReady};

use crate::program::{expand_at, program};
use crate::rules::{above, rules};
use board_tree::tree::Tree;
use node_trees::origin::Gen;
use rule_model::rules::Rules;
use spec_core::code::Checked;
use spec_core::memory::Memory;
use std::alloc::Global;
use std::test::Fail;

// How many of the generations below this one live, and how many the last step ended and began.
fn count(tree: &Tree, below: u128) -> (u128, usize, usize) {
    let mut living: u128 = 0;
    for number in 0..below {
        if tree.at(Gen(number)).is_some() {
            living = living.saturating_add(1);
        }
    }
    (living, tree.gone().len(), tree.came().len())
}

// A part so many times, with an operator between any two.
fn chain(alloc: Global, part: &str, operator: &str, operators: u32) -> Result<String, Memory> {
    let mut text = String::from_str(alloc, part)?;
    for _turn in 0..operators {
        text.push_str(operator)?;
        text.push_str(part)?;
    }
    Ok(text)
}

// A tree of rules below one rule so many times.
fn below(alloc: Global, words: &str, rule: &str, times: u32) -> Result<Rules, Memory> {
    let mut tree = rules(alloc, words)?;
    for _turn in 0..times {
        tree = above(alloc, rule, tree)?;
    }
    Ok(tree)
}

// The last of so many nodes acts: which of them live then in a copy, and how many generations ended and began.
fn last_acts(
    alloc: Global,
    checked: &Checked,
    nodes: u128,
    rules: &Rules,
) -> Result<(u128, usize, usize), Memory>
    requires ready { IsReady (program_of checked.now) }
{
    let mut tree = Tree::new(alloc, checked)?;
    expand_at(alloc, checked, &mut tree, nodes.saturating_sub(1))?;
    tree.reserve_step(alloc, checked, rules)?;
    tree.step(checked, rules);
    let copy = tree.copy(alloc)?;
    let _stands = copy.stands(alloc, checked)?;
    Ok(count(&copy, nodes))
}

// The same for a chain of operators of one kind, which group to the right; None where it is refused.
fn chain_acts(
    alloc: Global,
    operator: &str,
    operators: u32,
    rule: &str,
) -> Result<Option<(u128, usize, usize)>, Memory> {
    let text = chain(alloc, "a; stop", operator, operators)?;
    match program(alloc, "noexit", text.as_str())? {
        None => Ok(None),
        Some(checked) => {
            let rules = below(alloc, "pre", rule, operators)?;
            let nodes = (operators as u128).saturating_add(1);
            Ok(Some(last_acts(alloc, &checked, nodes, &rules)?))
        }
    }
}

#[test]
fn chains_of_operators_over_two_parts(rt: HostRuntime) -> Result<(), Fail> {
    let table: [(&str, u32, &str, (u128, usize, usize)); 3] = [
        (" ||| ", 63, "parr", (63, 1, 1)),
        (" ||| ", 4095, "parr", (4095, 1, 1)),
        (" [] ", 4095, "chr", (0, 4096, 1)),
    ];
    for (operator, operators, rule, wanted) in table {
        let found = chain_acts(rt.alloc(), operator, operators, rule)?;
        assert_eq!(rt; found, Some(wanted), "{operator}");
    }
    Ok(())
}

// A process that calls itself under 63 hidings: each step puts them, and a relabelling, above it.
fn growing(alloc: Global) -> Result<String, Memory> {
    let mut text = String::from_str(alloc, "P [a] where process P [g] : noexit := ")?;
    for _turn in 0..63u32 {
        text.push_str("hide h in ")?;
    }
    text.push_str("g; P [g] endproc")?;
    Ok(text)
}

// A tree of rules below 63 hidings and a relabelling.
fn below_layer(alloc: Global, part: Rules) -> Result<Rules, Memory> {
    let mut tree = part;
    for _turn in 0..63u32 {
        tree = above(alloc, "pass", tree)?;
    }
    above(alloc, "rel", tree)
}

// The rules of a step, after so many others.
fn step_rules(alloc: Global, before: u32) -> Result<Rules, Memory> {
    let first = below_layer(alloc, rules(alloc, "pre")?)?;
    let mut tree = above(alloc, "call", first)?;
    for _turn in 0..before {
        tree = below_layer(alloc, tree)?;
    }
    Ok(tree)
}

// After so many steps of a tree with one node: how many generations up to the node's live, and how many the last step ended and began.
fn grown(alloc: Global, checked: &Checked, steps: u32) -> Result<(u128, usize, usize), Memory>
    requires ready { IsReady (program_of checked.now) }
{
    let mut tree = Tree::new(alloc, checked)?;
    let mut node: u128 = 0;
    for step in 0..steps {
        expand_at(alloc, checked, &mut tree, node)?;
        let by = step_rules(alloc, step)?;
        tree.reserve_step(alloc, checked, &by)?;
        tree.step(checked, &by);
        for generation in tree.came() {
            node = generation.0;
        }
    }
    Ok(count(&tree, node.saturating_add(1)))
}

#[test]
fn a_chain_of_operators_over_one_part(rt: HostRuntime) -> Result<(), Fail> {
    let text = growing(rt.alloc())?;
    match program(rt.alloc(), "noexit", text.as_str())? {
        None => assert!(rt; false, "refused"),
        Some(checked) => {
            let found = grown(rt.alloc(), &checked, 64)?;
            assert_eq!(rt; found, (1, 1, 1));
        }
    }
    Ok(())
}
