// A tree seen as one operator.

ghost use Rattle.std.specs.Prelude.{◌≡◌, ◌↔◌, IfSome, IfNone, IsTrue, map};
ghost use Rattle.spec_core.specs.Code.{variable_of, relabelling_of, synchronised_of};
ghost use Rattle.spec_core.specs.Numbers.{gate_number};
ghost use Rattle.node_trees.specs.Shapes.{shape_of, held_of, leaf, over, between, hidden, relabelled, enabled, choosing, beside, disabling};
ghost use Rattle.node_trees.specs.Constructs.{IsLeaf, IsChoosing, IsBeside, IsDisabling, IsHidden, IsRelabelled, IsEnabled, IsTidy};

use crate::branch::{Branch, Double, Single};
use crate::node::Node;
use spec_core::code::GateSet;
use spec_core::items::{Gate, Sort};
use spec_core::value::Value;

impl Branch {
    /// The node, where the tree is one. It takes no memory.
    pub fn as_leaf(&self) -> Option<&Node>
        ensures some { IfSome result (λ n. shape_of self.now ≡ leaf (held_of n.now)) }
        ensures none { IfNone result (IsLeaf (shape_of self.now) → ⊥) }
    {
        match self {
            Branch::Leaf(node) => Some(node),
            Branch::Ended | Branch::Over(..) | Branch::Between(..) => None,
        }
    }

    /// The two sides of a choice. None for any other tree. It takes no memory.
    pub fn as_choice(&self) -> Option<(&Branch, &Branch)>
        ensures some { IfSome result (λ r. shape_of self.now ≡ between choosing (shape_of r.0.now) (shape_of r.1.now)) }
        ensures none { IfNone result (IsChoosing (shape_of self.now) → ⊥) }
    {
        match self {
            Branch::Between(operator, left, right) => match operator {
                Double::Choice => Some((left, right)),
                Double::Par(_) | Double::Disable => None,
            },
            Branch::Leaf(_) | Branch::Ended | Branch::Over(..) => None,
        }
    }

    /// The gates and the two sides of a parallel composition. None for any other tree. It takes no memory.
    pub fn as_parallel(&self) -> Option<(&GateSet, &Branch, &Branch)>
        ensures some { IfSome result (λ r.
            shape_of self.now ≡ between (beside (synchronised_of r.0.now)) (shape_of r.1.now) (shape_of r.2.now)) }
        ensures none { IfNone result (IsBeside (shape_of self.now) → ⊥) }
    {
        match self {
            Branch::Between(operator, left, right) => match operator {
                Double::Par(gates) => Some((gates, left, right)),
                Double::Choice | Double::Disable => None,
            },
            Branch::Leaf(_) | Branch::Ended | Branch::Over(..) => None,
        }
    }

    /// The two sides of a disabling. None for any other tree. It takes no memory.
    pub fn as_disable(&self) -> Option<(&Branch, &Branch)>
        ensures some { IfSome result (λ r. shape_of self.now ≡ between disabling (shape_of r.0.now) (shape_of r.1.now)) }
        ensures none { IfNone result (IsDisabling (shape_of self.now) → ⊥) }
    {
        match self {
            Branch::Between(operator, left, right) => match operator {
                Double::Disable => Some((left, right)),
                Double::Choice | Double::Par(_) => None,
            },
            Branch::Leaf(_) | Branch::Ended | Branch::Over(..) => None,
        }
    }

    /// The gates and the part of a hiding. None for any other tree. It takes no memory.
    pub fn as_hide(&self) -> Option<(&[Gate], &Branch)>
        ensures some { IfSome result (λ r. shape_of self.now ≡ over (hidden (map gate_number r.0.now)) (shape_of r.1.now)) }
        ensures none { IfNone result (IsHidden (shape_of self.now) → ⊥) }
    {
        match self {
            Branch::Over(operator, part) => match operator {
                Single::Hide(gates) => Some((gates, part)),
                Single::Relabel(_) | Single::Enable { .. } => None,
            },
            Branch::Leaf(_) | Branch::Ended | Branch::Between(..) => None,
        }
    }

    /// The pairs of gates and the part of a relabelling. None for any other tree. It takes no memory.
    pub fn as_relabel(&self) -> Option<(&[(Gate, Gate)], &Branch)>
        ensures some { IfSome result (λ r. shape_of self.now ≡ over (relabelled (map relabelling_of r.0.now)) (shape_of r.1.now)) }
        ensures none { IfNone result (IsRelabelled (shape_of self.now) → ⊥) }
    {
        match self {
            Branch::Over(operator, part) => match operator {
                Single::Relabel(pairs) => Some((pairs, part)),
                Single::Hide(_) | Single::Enable { .. } => None,
            },
            Branch::Leaf(_) | Branch::Ended | Branch::Between(..) => None,
        }
    }

    /// The left side of an enabling, its variables, and its right side's number and values. None for any other tree. It takes no memory.
    pub fn as_enable(&self) -> Option<(&Branch, &[(u32, Sort)], u32, &[(u32, Value)])>
        ensures some { IfSome result (λ r.
            shape_of self.now ≡ over (enabled (map variable_of r.1.now) r.2 r.3.now) (shape_of r.0.now)) }
        ensures none { IfNone result (IsEnabled (shape_of self.now) → ⊥) }
    {
        match self {
            Branch::Over(operator, part) => match operator {
                Single::Enable {
                    vars,
                    right,
                    values,
                } => Some((part, vars, *right, values)),
                Single::Hide(_) | Single::Relabel(_) => None,
            },
            Branch::Leaf(_) | Branch::Ended | Branch::Between(..) => None,
        }
    }

    /// Whether the tree is tidy under a relabelling: no relabelling, and no node. It takes no memory.
    pub fn is_tidy(&self) -> bool
        ensures decides { IsTrue result ↔ IsTidy (shape_of self.now) }
    {
        match self {
            Branch::Leaf(_) => false,
            Branch::Over(operator, _) => match operator {
                Single::Relabel(_) => false,
                Single::Hide(_) => true,
                Single::Enable { .. } => true,
            },
            Branch::Ended => true,
            Branch::Between(_, _, _) => true,
        }
    }
}
