// Operators over nodes.

ghost use Rattle.std.specs.Prelude.{◌≡◌, IfOk};
ghost use Rattle.spec_core.specs.Code.{program_of};
ghost use Rattle.spec_core.specs.Ready.{IsReady};
ghost use Rattle.rule_model.specs.Behaviours.{behaviour_of};
ghost use Rattle.node_trees.specs.Shapes.{shape_of, held_of, unary_of, binary_of, leaf, ended, over, between, applied, joined, stands_for};

use crate::node::Node;
use crate::origin::copy_values;
use rule_model::beh::Beh;
use rule_origins::code::behaviour;
use rule_origins::values::scope;
use spec_core::code::{Checked, GateSet};
use spec_core::items::{Gate, Sort};
use spec_core::memory::Memory;
use spec_core::value::Value;
use std::alloc::Global;

/// An operator over one part.
#[derive(Drop)]
pub enum Single {
    /// `hide G in B`
    Hide(Vec<Gate>),
    /// B with its gates relabelled.
    Relabel(Vec<(Gate, Gate)>),
    /// `B >> accept xs in C` over B, where C is the behaviour at this number of the code, with these values.
    Enable {
        vars: Vec<(u32, Sort)>,
        right: u32,
        values: Vec<(u32, Value)>,
    },
}

/// An operator over two parts.
#[derive(Drop)]
pub enum Double {
    /// `B [] C`
    Choice,
    /// `B |[G]| C`
    Par(GateSet),
    /// `B [> C`
    Disable,
}

/// A tree of operators over nodes. What is left of an exit has no node.
pub enum Branch {
    Leaf(Node),
    Ended,
    Over(Single, Box<Branch>),
    Between(Double, Box<Branch>, Box<Branch>),
}

// Written out, so that a function which lets a tree go has one call there.
impl Drop for Branch {
    fn drop(self) {
        match self {
            Branch::Leaf(_) => {}
            Branch::Ended => {}
            Branch::Over(_, _) => {}
            Branch::Between(_, _, _) => {}
        }
    }
}

impl Single {
    /// An equal operator.
    #[inline(never)]
    pub fn copy(&self, alloc: Global) -> Result<Single, Memory>
        ensures equal { IfOk result (λ o. unary_of o ≡ unary_of self.now) }
    {
        match self {
            Single::Hide(gates) => Ok(Single::Hide(Vec::from_slice(alloc, gates)?)),
            Single::Relabel(pairs) => Ok(Single::Relabel(Vec::from_slice(alloc, pairs)?)),
            Single::Enable {
                vars,
                right,
                values,
            } => {
                let vars = Vec::from_slice(alloc, vars)?;
                let values = copy_values(alloc, values)?;
                Ok(Single::Enable {
                    vars,
                    right: *right,
                    values,
                })
            }
        }
    }

    /// The operator's construct over the behaviour of its part.
    #[inline(never)]
    pub fn applied(&self, alloc: Global, checked: &Checked, part: Beh) -> Result<Beh, Memory>
        requires ready { IsReady (program_of checked.now) }
        ensures applied { IfOk result (λ b. behaviour_of b ≡ applied (program_of checked.now) (unary_of self.now) (behaviour_of part)) }
    {
        match self {
            Single::Hide(gates) => Beh::hide(alloc, Vec::from_slice(alloc, gates)?, part),
            Single::Relabel(pairs) => Beh::relabel(alloc, Vec::from_slice(alloc, pairs)?, part),
            Single::Enable {
                vars,
                right,
                values,
            } => {
                let open = behaviour(alloc, checked, *right)?;
                let terms = scope(alloc, &checked.algebra, values)?;
                let inner = terms.without_variables(alloc, vars)?;
                let right = inner.put(alloc, &open)?;
                Beh::enable(alloc, part, Vec::from_slice(alloc, vars)?, right)
            }
        }
    }
}

impl Double {
    /// An equal operator.
    #[inline(never)]
    pub fn copy(&self, alloc: Global) -> Result<Double, Memory>
        ensures equal { IfOk result (λ o. binary_of o ≡ binary_of self.now) }
    {
        match self {
            Double::Choice => Ok(Double::Choice),
            Double::Par(gates) => Ok(Double::Par(gates.copy(alloc)?)),
            Double::Disable => Ok(Double::Disable),
        }
    }

    /// The operator's construct over the behaviours of its parts.
    #[inline(never)]
    pub fn joined(&self, alloc: Global, left: Beh, right: Beh) -> Result<Beh, Memory>
        ensures joined { IfOk result (λ b. behaviour_of b ≡ joined (binary_of self.now) (behaviour_of left) (behaviour_of right)) }
    {
        match self {
            Double::Choice => Beh::choice(alloc, left, right),
            Double::Par(gates) => Beh::parallel(alloc, gates.copy(alloc)?, left, right),
            Double::Disable => Beh::disable(alloc, left, right),
        }
    }
}

impl Branch {
    /// No node: what is left of an exit.
    #[inline(never)]
    pub fn ended(alloc: Global) -> Result<Box<Branch>, Memory>
        ensures made { IfOk result (λ t. shape_of t.value ≡ ended) }
    {
        let branch = Box::new(alloc, Branch::Ended)?;
        Ok(branch)
    }

    /// An operator over one part.
    #[inline(never)]
    pub fn over(alloc: Global, operator: Single, part: Box<Branch>) -> Result<Box<Branch>, Memory>
        ensures made { IfOk result (λ t. shape_of t.value ≡ over (unary_of operator) (shape_of part.value)) }
    {
        let branch = Box::new(alloc, Branch::Over(operator, part))?;
        Ok(branch)
    }

    /// An operator over two parts.
    #[inline(never)]
    pub fn between(
        alloc: Global,
        operator: Double,
        left: Box<Branch>,
        right: Box<Branch>,
    ) -> Result<Box<Branch>, Memory>
        ensures made { IfOk result (λ t. shape_of t.value ≡ between (binary_of operator) (shape_of left.value) (shape_of right.value)) }
    {
        let branch = Box::new(alloc, Branch::Between(operator, left, right))?;
        Ok(branch)
    }

    /// An equal tree. It recurs as deep as the operators nest.
    #[cycle(copy)]
    pub fn copy(&self, alloc: Global) -> Result<Box<Branch>, Memory>
        ensures equal { IfOk result (λ t. shape_of t.value ≡ shape_of self.now) }
    {
        match self {
            Branch::Leaf(node) => copied_leaf(alloc, node),
            Branch::Ended => Branch::ended(alloc),
            Branch::Over(operator, part) => copied_over(alloc, operator, part),
            Branch::Between(operator, left, right) => copied_between(alloc, operator, left, right),
        }
    }

    /// The behaviour that the tree stands for.
    pub fn stands(&self, alloc: Global, checked: &Checked) -> Result<Beh, Memory>
        requires ready { IsReady (program_of checked.now) }
        ensures stands { IfOk result (λ b. behaviour_of b ≡ stands_for (program_of checked.now) (shape_of self.now)) }
    {
        match self {
            Branch::Leaf(node) => node.origin.behaviour(alloc, checked),
            Branch::Ended => Ok(Beh::Stop),
            Branch::Over(operator, part) => {
                let part = part.stands(alloc, checked)?;
                operator.applied(alloc, checked, part)
            }
            Branch::Between(operator, left, right) => {
                let left = left.stands(alloc, checked)?;
                let right = right.stands(alloc, checked)?;
                operator.joined(alloc, left, right)
            }
        }
    }
}

// An equal node as a tree.
#[inline(never)]
fn copied_leaf(alloc: Global, node: &Node) -> Result<Box<Branch>, Memory>
    ensures { IfOk result (λ t. shape_of t.value ≡ leaf (held_of node.now)) }
{
    let node = node.copy(alloc)?;
    let branch = Box::new(alloc, Branch::Leaf(node))?;
    Ok(branch)
}

// An equal operator over an equal part. It is a function of its own so that the stack holds deep trees, like those that recur beside it.
#[cycle(copy)]
#[inline(never)]
fn copied_over(alloc: Global, operator: &Single, part: &Branch) -> Result<Box<Branch>, Memory>
    ensures { IfOk result (λ t. shape_of t.value ≡ over (unary_of operator.now) (shape_of part.now)) }
{
    let part = part.copy(alloc)?;
    Branch::over(alloc, operator.copy(alloc)?, part)
}

// An equal operator between equal parts.
#[cycle(copy)]
#[inline(never)]
fn copied_between(
    alloc: Global,
    operator: &Double,
    left: &Branch,
    right: &Branch,
) -> Result<Box<Branch>, Memory>
    ensures { IfOk result (λ t. shape_of t.value ≡ between (binary_of operator.now) (shape_of left.now) (shape_of right.now)) }
{
    let left = left.copy(alloc)?;
    let right = right.copy(alloc)?;
    Branch::between(alloc, operator.copy(alloc)?, left, right)
}
