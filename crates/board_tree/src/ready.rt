// What stands ready for a step.

ghost use Rattle.std.specs.Prelude.{◌≡◌, IfOk};
ghost use Rattle.spec_core.specs.Code.{program_of};
ghost use Rattle.spec_core.specs.Ready.{IsReady};
ghost use Rattle.rule_model.specs.Derivations.{derivation_of};
ghost use Rattle.node_trees.specs.Differences.{IsDifference};
ghost use Rattle.node_trees.specs.Generations.{IsSound};
ghost use Rattle.node_trees.specs.Shapes.{shape_of};
ghost use Rattle.board_tree.specs.Changes.{changed};
ghost use Rattle.board_tree.specs.Steps.{Moves};

use crate::advance::advance;
use crate::change::Change;
use crate::leaf::Advanced;
use node_trees::branch::Branch;
use node_trees::origin::Gen;
use rule_model::action::Action;
use rule_model::rules::Rules;
use spec_core::code::Checked;
use spec_core::memory::Memory;
use std::alloc::Global;

/// What the next step changes of the tree, its action, the next generation then, and the generations that end and begin.
#[derive(Drop)]
pub struct Ready {
    pub change: Change,
    pub action: Action,
    pub next: u128,
    pub gone: Vec<Gen>,
    pub came: Vec<Gen>,
}

/// What a step makes of a tree: what it changes, the next generation, and the generations that end and begin.
#[derive(Drop)]
pub struct After {
    pub change: Change,
    pub next: u128,
    pub gone: Vec<Gen>,
    pub came: Vec<Gen>,
}

impl Ready {
    /// What the step makes of the tree. It takes no memory.
    pub fn into_after(self) -> After
        ensures change { result.change ≡ self.change }
        ensures next { result.next ≡ self.next }
        ensures gone { result.gone ≡ self.gone }
        ensures came { result.came ≡ self.came }
    {
        let Ready {
            change,
            action: _,
            next,
            gone,
            came,
        } = self;
        After {
            change,
            next,
            gone,
            came,
        }
    }
}

/// What stands ready for the step by these rules. The generations that end and begin are so where no two nodes of the tree have one, and
/// each is below the next one.
pub fn ready_for(
    alloc: Global,
    checked: &Checked,
    branch: &Branch,
    rules: &Rules,
    next: u128,
) -> Result<Ready, Memory>
    requires ready { IsReady (program_of checked.now) }
    ensures moved { IfOk result (λ r.
        Moves (program_of checked.now) (shape_of branch.now) (derivation_of rules.now) r.action (changed r.change (shape_of branch.now))
        next r.next) }
    ensures gone { IfOk result (λ r. IsSound (shape_of branch.now) next →
        IsDifference r.gone.items (shape_of branch.now) (changed r.change (shape_of branch.now))) }
    ensures came { IfOk result (λ r. IsSound (shape_of branch.now) next →
        IsDifference r.came.items (changed r.change (shape_of branch.now)) (shape_of branch.now)) }
{
    let Advanced {
        action,
        change,
        next,
    } = advance(alloc, checked, branch, rules, next)?;
    let mut gone = Vec::new(alloc);
    let mut came = Vec::new(alloc);
    change.put_differences(alloc, branch, &mut gone, &mut came)?;
    Ok(Ready {
        change,
        action,
        next,
        gone,
        came,
    })
}
