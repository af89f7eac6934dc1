// Tables of nodes.

ghost use Rattle.std.specs.Prelude.{ℕ, ◌≡◌, ◌≤◌, ◌+◌, ◌⊎◌, [], IfOk, IfErr, IfSome, OnOk, length, map};
ghost use Rattle.spec_core.specs.Lists.{Each};
ghost use Rattle.spec_core.specs.Terms.{apply, and_term, no_terms, terms};
ghost use Rattle.spec_core.specs.Orthogonality.{HasNoLooseVariables};
ghost use Rattle.spec_core.specs.Theories.{Theory};
ghost use Rattle.value_nodes.specs.Nodes.{arguments, node_tree, trees_of, tree_at, cost_of, cost_at, IsMade, IsSeen, IsNode};
ghost use Rattle.value_nodes.specs.Nodes.{all_costs, IsLonger, AreSmall, IsOver, IsWhole, HasArguments};
ghost use Rattle.value_nodes.specs.Own.{AreOwnValues, StaysOver, StaysShort};
ghost use Rattle.value_nodes.specs.Sizes.{symbols, IsTooLarge};

use crate::fault::NodeFault;
use spec_core::items::Op;
use spec_core::memory::Memory;
use std::alloc::Global;
use std::marker::Model;

/// The greatest number of symbols of a value.
const LARGEST: u32 = 65_536;

/// A node stands for an operation over what earlier nodes of its table stand for. `size` is its number of symbols. `cost`, of `Constant` the
/// second field, is how many uses of equations it costs to evaluate its term again; that is none where no part is a call that stays.
#[derive(Clone, Copy)]
pub enum Node {
    /// The operation alone.
    Constant(Op, u64),
    /// The operation over one argument.
    One {
        op: Op,
        size: u32,
        arg: u32,
        cost: u64,
    },
    /// The operation over an argument and those of the node `rest`.
    More {
        op: Op,
        size: u32,
        arg: u32,
        rest: u32,
        cost: u64,
    },
}

/// Nodes, each after those of which it is made. A contract sees them as a list.
#[derive(Drop)]
pub struct Nodes {
    rows: Vec<Node>,
}

impl Model for Nodes {
    ghost use Rattle.std.specs.Prelude.{List, []};
    ghost use Rattle.value_nodes.specs.declared.node.Node.{Node};
    ghost use Rattle.value_nodes.specs.Nodes.{AreMade};

    ghost Value = { List Node };

    ghost view = { λ n. n.rows.items };

    ghost invariant = { λ n. AreMade [] n.rows.items };
}

impl Nodes {
    /// No nodes. It takes no memory.
    pub fn new(alloc: Global) -> Nodes
        ensures none { result ≡ [] }
    {
        Nodes {
            rows: Vec::new(alloc),
        }
    }

    /// How many nodes there are. It takes no memory.
    pub fn len(&self) -> usize
        ensures counted { result ≡ length self.now }
    {
        self.rows.len()
    }

    /// The node of this number. It takes no memory.
    pub fn at(&self, node: u32) -> Node
        requires there { IsNode self.now node }
        ensures seen { IsSeen (trees_of self.now) node result }
        ensures cost { cost_of result ≡ cost_at self.now node }
    {
        self.rows[node as usize]
    }

    /// The number of symbols of a node's term. It takes no memory.
    pub fn size(&self, node: u32) -> u32
        requires there { IsNode self.now node }
        ensures counted { result ≡ symbols (tree_at self.now node) }
        ensures bounded { result ≤ 65536 }
        ensures whole { IsWhole (tree_at self.now node) }
    {
        match self.at(node) {
            Node::Constant(_, _) => 1,
            Node::One { size, .. } => size,
            Node::More { size, .. } => size,
        }
    }

    /// The operation of a node's term. It takes no memory.
    pub fn op(&self, node: u32) -> Op
        requires there { IsNode self.now node }
        ensures head { IsOver result.0 (tree_at self.now node) }
    {
        match self.at(node) {
            Node::Constant(op, _) => op,
            Node::One { op, .. } => op,
            Node::More { op, .. } => op,
        }
    }

    /// How many uses of equations it costs to evaluate a node's term again. It takes no memory.
    pub fn cost(&self, node: u32) -> u64
        requires there { IsNode self.now node }
        ensures kept { result ≡ cost_at self.now node }
    {
        match self.at(node) {
            Node::Constant(_, cost) => cost,
            Node::One { cost, .. } => cost,
            Node::More { cost, .. } => cost,
        }
    }

    /// One more node, which is made of those that are there; its number. A table has at most 2^32 - 1 nodes.
    pub fn add(&mut self, row: Node) -> Result<u32, Memory>
        requires made { IsMade (trees_of self.old) row }
        ensures longer { IfOk result (λ n. IsLonger self.old self.new) }
        ensures there { IfOk result (λ n. IsNode self.new n) }
        ensures tree { IfOk result (λ n. tree_at self.new n ≡ node_tree (trees_of self.old) row) }
        ensures cost { IfOk result (λ n. cost_at self.new n ≡ cost_of row) }
        ensures others { IfOk result (λ n. (i : ℕ) → IsNode self.new i → IsNode self.old i ⊎ (i ≡ n)) }
        ensures small { OnOk result (AreSmall self.new) }
    {
        let place = self.rows.len();
        if place >= u32::MAX as usize {
            return Err(Memory);
        }
        self.rows.push(row)?;
        Ok(place as u32)
    }

    // The operation over one node. Want of memory is answered too where its cost would be 2^64 uses or more.
    fn make_one(&mut self, op: Op, arg: u32, own: u64) -> Result<u32, NodeFault>
        requires there { IsNode self.old arg }
        ensures longer { IfOk result (λ n. IsLonger self.old self.new) }
        ensures there { IfOk result (λ n. IsNode self.new n) }
        ensures tree { IfOk result (λ n. tree_at self.new n ≡ apply op.0 (and_term (tree_at self.old arg) no_terms)) }
        ensures cost { IfOk result (λ n. cost_at self.new n ≡ own + cost_at self.old arg) }
        ensures others { IfOk result (λ n. (i : ℕ) → IsNode self.new i → IsNode self.old i ⊎ (i ≡ n)) }
        ensures small { OnOk result (AreSmall self.new) }
        ensures large { IfErr result (λ e.
            e ≡ NodeFault.TooLarge → IsTooLarge (apply op.0 (and_term (tree_at self.old arg) no_terms))) }
    {
        let size = self.size(arg) + 1;
        if size > LARGEST {
            return Err(NodeFault::TooLarge);
        }
        match own.checked_add(self.cost(arg)) {
            None => Err(NodeFault::Memory),
            Some(cost) => {
                let node = self.add(Node::One {
                    op,
                    size,
                    arg,
                    cost,
                })?;
                Ok(node)
            }
        }
    }

    // The operation over a node and the arguments of another. Want of memory is answered too where its cost would be 2^64 uses or more.
    fn make_more(&mut self, op: Op, arg: u32, rest: u32, own: u64) -> Result<u32, NodeFault>
        requires there { IsNode self.old arg }
        requires rest { IsNode self.old rest }
        requires some { HasArguments (tree_at self.old rest) }
        ensures longer { IfOk result (λ n. IsLonger self.old self.new) }
        ensures there { IfOk result (λ n. IsNode self.new n) }
        ensures tree { IfOk result (λ n.
            tree_at self.new n ≡ apply op.0 (and_term (tree_at self.old arg) (arguments (tree_at self.old rest)))) }
        ensures cost { IfOk result (λ n. cost_at self.new n ≡ own + (cost_at self.old arg + cost_at self.old rest)) }
        ensures others { IfOk result (λ n. (i : ℕ) → IsNode self.new i → IsNode self.old i ⊎ (i ≡ n)) }
        ensures small { OnOk result (AreSmall self.new) }
        ensures large { IfErr result (λ e.
            e ≡ NodeFault.TooLarge →
            IsTooLarge (apply op.0 (and_term (tree_at self.old arg) (arguments (tree_at self.old rest))))) }
    {
        let size = self.size(arg) + self.size(rest);
        if size > LARGEST {
            return Err(NodeFault::TooLarge);
        }
        match total(own, self.cost(arg), self.cost(rest)) {
            None => Err(NodeFault::Memory),
            Some(cost) => {
                let node = self.add(Node::More {
                    op,
                    size,
                    arg,
                    rest,
                    cost,
                })?;
                Ok(node)
            }
        }
    }

    /// The node of an operation over nodes, a call of which costs so many uses of equations of its own; `TooLarge` only where the term has
    /// more than 65,536 symbols. Want of memory is answered too where its cost with those of the nodes would be 2^64 uses or more.
    pub fn make(&mut self, op: Op, values: &[u32], own: u64) -> Result<u32, NodeFault>
        requires there { Each (IsNode self.old) values.now }
        ensures longer { IfOk result (λ n. IsLonger self.old self.new) }
        ensures there { IfOk result (λ n. IsNode self.new n) }
        ensures tree { IfOk result (λ n. tree_at self.new n ≡ apply op.0 (terms (map (tree_at self.old) values.now))) }
        ensures cost { IfOk result (λ n. cost_at self.new n ≡ own + all_costs self.old values.now) }
        ensures own { IfOk result (λ n.
            (theory : Theory) →
            Each HasNoLooseVariables theory.equations →
            StaysOver theory op.0 (terms (map (tree_at self.old) values.now)) own →
            StaysShort theory op.0 (length values.now) →
            AreOwnValues theory self.old →
            AreOwnValues theory self.new) }
        ensures small { OnOk result (AreSmall self.new) }
        ensures large { IfErr result (λ e.
            e ≡ NodeFault.TooLarge → IsTooLarge (apply op.0 (terms (map (tree_at self.old) values.now)))) }
    {
        match values {
            [] => {
                let node = self.add(Node::Constant(op, own))?;
                Ok(node)
            }
            [value] => self.make_one(op, *value, own),
            [value, others @ ..] => {
                let rest = self.make(op, others, 0)?;
                self.make_more(op, *value, rest, own)
            }
        }
    }
}

// The sum of three numbers, where it is less than 2^64.
fn total(a: u64, b: u64, c: u64) -> Option<u64>
    ensures { IfSome result (λ sum. sum ≡ a + (b + c)) }
{
    match b.checked_add(c) {
        None => None,
        Some(both) => a.checked_add(both),
    }
}
