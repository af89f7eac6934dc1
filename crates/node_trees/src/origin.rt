// Origins of nodes.

ghost use Rattle.std.specs.Prelude.{◌≡◌, IfOk, map};
ghost use Rattle.spec_core.specs.Code.{program_of, relabelling_of};
ghost use Rattle.spec_core.specs.Ready.{IsReady};
ghost use Rattle.rule_model.specs.Behaviours.{behaviour_of};
ghost use Rattle.node_trees.specs.Origins.{source_of, scoped, relabelled_by, meaning};

use rule_laws::substitution::empty_substitutions_change_nothing;
use rule_model::beh::Beh;
use rule_origins::code::behaviour;
use rule_origins::values::scope;
use rule_substitution::relabelling::tidied;
use spec_core::code::Checked;
use spec_core::items::Gate;
use spec_core::memory::Memory;
use spec_core::value::Value;
use std::alloc::Global;

/// A node's generation. No two nodes of a tree have one, and none is used again.
#[derive(Clone, Copy, Debug, PartialEq, Eq)]
pub struct Gen(pub u128);

/// What a node stands for: the behaviour at a number of the code, with values for its variables, of which the later ones come first, and,
/// unless the pairs are empty, relabelled.
#[derive(Drop)]
pub struct Origin {
    pub node: u32,
    pub values: Vec<(u32, Value)>,
    pub relabel: Vec<(Gate, Gate)>,
}

/// Equal values for variables.
#[inline(never)]
pub fn copy_values(alloc: Global, values: &[(u32, Value)]) -> Result<Vec<(u32, Value)>, Memory>
    ensures equal { IfOk result (λ all. all.items ≡ values.now) }
{
    let mut all = Vec::new(alloc);
    for pair in values {
        let (x, value) = pair;
        all.push((*x, value.copy(alloc)?))?;
    }
    Ok(all)
}

// The behaviour with this number of the code, with values for its variables; without values it is that of the code.
#[tactic(auto, unfolding(rule_origins::specs::Values::assignment))]
fn scoped(
    alloc: Global,
    checked: &Checked,
    node: u32,
    values: &[(u32, Value)],
) -> Result<Beh, Memory>
    requires ready { IsReady (program_of checked.now) }
    ensures { IfOk result (λ b. behaviour_of b ≡ scoped (program_of checked.now) node values.now) }
{
    let open = behaviour(alloc, checked, node)?;
    match values {
        [] => {
            empty_substitutions_change_nothing();
            Ok(open)
        }
        [_, ..] => {
            let terms = scope(alloc, &checked.algebra, values)?;
            terms.put(alloc, &open)
        }
    }
}

impl Origin {
    /// An equal origin.
    pub fn copy(&self, alloc: Global) -> Result<Origin, Memory>
        ensures equal { IfOk result (λ o. source_of o ≡ source_of self.now) }
    {
        Ok(Origin {
            node: self.node,
            values: copy_values(alloc, &self.values)?,
            relabel: Vec::from_slice(alloc, &self.relabel)?,
        })
    }

    /// The behaviour that the origin stands for.
    pub fn behaviour(&self, alloc: Global, checked: &Checked) -> Result<Beh, Memory>
        requires ready { IsReady (program_of checked.now) }
        ensures stands { IfOk result (λ b. behaviour_of b ≡ meaning (program_of checked.now) (source_of self.now)) }
    {
        let open = scoped(alloc, checked, self.node, &self.values)?;
        relabelled_by(alloc, &self.relabel, open)
    }
}

// The behaviour under a relabelling; an empty one is none.
fn relabelled_by(alloc: Global, pairs: &[(Gate, Gate)], from: Beh) -> Result<Beh, Memory>
    ensures { IfOk result (λ b. behaviour_of b ≡ relabelled_by (map relabelling_of pairs.now) (behaviour_of from)) }
{
    match pairs {
        [] => Ok(from),
        [_, ..] => tidied(alloc, pairs, from),
    }
}
