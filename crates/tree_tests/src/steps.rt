// Steps of small trees.

ghost use Rattle.spec_core.specs.Code.{program_of};
ghost use Rattle.spec_core.specs.Ready.{IsReady};

use crate::printing::put_behaviour;
use crate::program::{expand_at, program};
use crate::rules::rules;
use board_tree::tree::Tree;
use node_trees::branch::Branch;
use node_trees::origin::Gen;
use spec_core::code::Checked;
use spec_core::memory::Memory;
use std::alloc::Global;
use std::test::Fail;

fn put_ended(out: &mut String, generations: &[Gen]) -> Result<(), Memory> {
    out.push_str(" -")?;
    for generation in generations {
        let number = generation.0;
        write!(out, " {number}")?;
    }
    Ok(())
}

// Where the node of this generation stands: the numbers of the parts from the root.
fn put_place(out: &mut String, branch: &Branch, generation: Gen) -> Result<(), Memory> {
    match branch {
        Branch::Leaf(_) | Branch::Ended => Ok(()),
        Branch::Over(_, part) => {
            out.push_str("0")?;
            put_place(out, part, generation)
        }
        Branch::Between(_, left, right) => match left.node_at(generation) {
            Some(_) => {
                out.push_str("0")?;
                put_place(out, left, generation)
            }
            None => {
                out.push_str("1")?;
                put_place(out, right, generation)
            }
        },
    }
}

// `+` and where it stands for each node that begins; `=` where its generation was used before.
fn put_begun(out: &mut String, tree: &Tree, used: u128) -> Result<(), Memory> {
    out.push_str(" ")?;
    for generation in tree.came() {
        out.push_str(if generation.0 < used { "=" } else { "+" })?;
        match tree.at(*generation) {
            None => out.push_str("?")?,
            Some(_) => put_place(out, tree.root(), *generation)?,
        }
    }
    Ok(())
}

// What a tree stands for, the generations that its last step ended, and where the nodes stand that it began.
fn told(alloc: Global, checked: &Checked, tree: &Tree, used: u128) -> Result<String, Memory>
    requires ready { IsReady (program_of checked.now) }
{
    let mut out = String::new(alloc);
    let stands = tree.stands(alloc, checked)?;
    put_behaviour(&mut out, &stands)?;
    put_ended(&mut out, tree.gone())?;
    put_begun(&mut out, tree, used)?;
    Ok(out)
}

// The tree after the step by these rules as text; and as text that of a copy, where it is another.
fn after_step(
    alloc: Global,
    checked: &Checked,
    tree: &mut Tree,
    words: &str,
    used: u128,
) -> Result<String, Memory>
    requires ready { IsReady (program_of checked.now) }
{
    let by = rules(alloc, words)?;
    tree.reserve_step(alloc, checked, &by)?;
    tree.step(checked, &by);
    let mut out = told(alloc, checked, tree, used)?;
    let copy = tree.copy(alloc)?;
    let again = told(alloc, checked, &copy, used)?;
    if again.as_str() != out.as_str() {
        out.push_str(" copied ")?;
        out.push_str(again.as_str())?;
    }
    Ok(out)
}

// The tree of a behaviour, in which the first nodes are expanded, after the step by these rules.
fn after(
    alloc: Global,
    ends: &str,
    behaviour: &str,
    nodes: u128,
    words: &str,
) -> Result<String, Memory> {
    match program(alloc, ends, behaviour)? {
        None => Ok(String::from_str(alloc, "refused")?),
        Some(checked) => {
            let mut tree = Tree::new(alloc, &checked)?;
            for number in 0..nodes {
                expand_at(alloc, &checked, &mut tree, number)?;
            }
            after_step(alloc, &checked, &mut tree, words, nodes)
        }
    }
}

// Functionality, behaviour, how many of its nodes are expanded, the rules of the step, and the tree then.
const STEPS: [(&str, &str, u128, &str, &str); 24] = [
    ("noexit", "a; stop [] b; stop", 2, "pre chl", "stop - 0 1 +"),
    (
        "noexit",
        "a; stop [] b; c; stop",
        2,
        "pre chr",
        "c;stop - 0 1 +",
    ),
    (
        "noexit",
        "a; stop ||| b; stop",
        2,
        "pre parl",
        "(stop||b;stop) - 0 +0",
    ),
    (
        "noexit",
        "a; stop ||| b; stop",
        2,
        "pre parr",
        "(a;stop||stop) - 1 +1",
    ),
    (
        "noexit",
        "a; stop |[a]| a; b; stop",
        2,
        "pre both",
        "(stop||b;stop) - 0 1 +0+1",
    ),
    (
        "noexit",
        "hide a in a; stop",
        1,
        "pre hide",
        "hide stop - 0 +0",
    ),
    (
        "noexit",
        "hide a in b; stop",
        1,
        "pre pass",
        "hide stop - 0 +0",
    ),
    (
        "noexit",
        "a; exit >> b; stop",
        1,
        "pre enstep",
        "(exit>>b;stop) - 0 +0",
    ),
    ("noexit", "exit >> b; stop", 1, "exit enend", "b;stop - 0 +"),
    (
        "noexit",
        "exit (any S) >> accept x : S in c !x; stop",
        1,
        "exit_v enend",
        "c!v;stop - 0 +",
    ),
    (
        "exit",
        "a; exit [> b; exit",
        2,
        "pre disstep",
        "(exit[>b;exit) - 0 +0",
    ),
    ("exit", "exit [> b; exit", 2, "exit disend", "stop - 0 1 "),
    (
        "exit",
        "a; exit [> b; exit",
        2,
        "pre distake",
        "exit - 0 1 +",
    ),
    (
        "noexit",
        "par g in [a] ||| g; g; stop",
        1,
        "pre rel",
        "rel g;stop - 0 +0",
    ),
    (
        "noexit",
        "par h in [a] ||| par g in [h] ||| g; g; stop",
        1,
        "pre rel rel",
        "rel g;stop - 0 +0",
    ),
    (
        "noexit",
        "a ?x : S; c !x; stop ||| b; stop",
        2,
        "pre_v parl",
        "(c!v;stop||b;stop) - 0 +0",
    ),
    (
        "noexit",
        "i; (a; stop [] b; stop)",
        1,
        "int",
        "(a;stop[]b;stop) - 0 +0+1",
    ),
    (
        "noexit",
        "[v = v] -> a; b; stop",
        1,
        "pre guard",
        "b;stop - 0 +",
    ),
    (
        "noexit",
        "let x : S = v in a !x; c !x; stop",
        1,
        "pre let",
        "c!v;stop - 0 +",
    ),
    (
        "noexit",
        "choice x : S [] a !x; c !x; stop",
        1,
        "pre val",
        "c!v;stop - 0 +",
    ),
    (
        "noexit",
        "choice g in [a, b] [] g; g; stop",
        1,
        "pre rel gate",
        "rel g;stop - 0 +0",
    ),
    (
        "noexit",
        "P [a] where process P [g] : noexit := g; P [g] endproc",
        1,
        "pre rel call",
        "Pa - 0 +",
    ),
    (
        "noexit",
        "(a; stop [] b; stop) ||| (c; stop ||| d; stop)",
        4,
        "pre chl parl",
        "(stop||(c;stop||d;stop)) - 0 1 +0",
    ),
    (
        "noexit",
        "hide a in (b; stop |[b]| b; (c; stop ||| d; stop))",
        2,
        "pre both pass",
        "hide (stop||(c;stop||d;stop)) - 0 1 +00+010+011",
    ),
];

#[test]
fn each_rule_moves_the_tree(rt: HostRuntime) -> Result<(), Fail> {
    for (ends, behaviour, nodes, words, wanted) in STEPS {
        let found = after(rt.alloc(), ends, behaviour, nodes, words)?;
        assert_eq!(rt; found.as_str(), wanted, "{behaviour}");
    }
    Ok(())
}
