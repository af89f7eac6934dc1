// The tree of a board.

ghost use Rattle.std.specs.Prelude.{◌≡◌, [], IfOk, IfSome, IfNone, IsSome, None};
ghost use Rattle.spec_core.specs.Code.{Program, program_of};
ghost use Rattle.spec_core.specs.Ready.{IsReady};
ghost use Rattle.rule_model.specs.Behaviours.{behaviour_of};
ghost use Rattle.rule_model.specs.Code.{IsStart};
ghost use Rattle.rule_model.specs.Derivations.{derivation_of};
ghost use Rattle.node_trees.specs.Generations.{AreApart, AreBelow};
ghost use Rattle.node_trees.specs.Rests.{expansion_of};
ghost use Rattle.node_trees.specs.Shapes.{shape_of, stands_for, held_of, posted, Lives, IsNodeOf, IsRight, IsWorkFor};
ghost use Rattle.node_trees.specs.Shapes.{AllWait};
ghost use Rattle.board_tree.specs.Views.{shape, IsReserved, IsNext, IsNextAction, IsStep};

use crate::ready::{After, Ready, ready_for};
use node_trees::branch::Branch;
use node_trees::expansion::Expansion;
use node_trees::fresh::Fresh;
use node_trees::node::Node;
use node_trees::origin::Gen;
use node_trees::unfold::unfold;
use rule_model::action::Action;
use rule_model::beh::Beh;
use rule_model::rules::Rules;
use spec_core::code::Checked;
use spec_core::memory::Memory;
use std::alloc::Global;
use std::marker::Model;

/// The behaviour that a board has reached, as a tree of operators over nodes. No two of its nodes have one generation.
#[derive(Drop)]
pub struct Tree {
    root: Branch,
    next: u128,
    gone: Vec<Gen>,
    came: Vec<Gen>,
    ready: Option<Ready>,
}

impl Model for Tree {
    ghost use Rattle.std.specs.Coded.{codes};
    ghost use Rattle.node_trees.specs.contracts.branch.Branch as b;
    ghost use Rattle.board_tree.specs.contracts.ready.Ready as r;
    ghost use Rattle.node_trees.specs.Generations.{IsSound};
    ghost use Rattle.node_trees.specs.Shapes.{shape_of};
    ghost use Rattle.board_tree.specs.Views.{TreeView};

    ghost Value = { TreeView };

    ghost coded = { Prim.hlevel (codes, b.the_row.coded, r.the_row.coded) };

    ghost view = { λ t. record { root = t.root; next = t.next; gone = t.gone.items; came = t.came.items; ready = t.ready } };

    ghost invariant = { λ t. IsSound (shape_of t.root) t.next };
}

impl Tree {
    /// The specification's behaviour, unfolded into nodes that wait.
    #[tactic(auto, using(crate::proofs::Starting::starting_rows))]
    pub fn new(alloc: Global, checked: &Checked) -> Result<Tree, Memory>
        requires ready { IsReady (program_of checked.now) }
        ensures start { IfOk result (λ t. IsStart (program_of checked.now) (stands_for (program_of checked.now) (shape t))) }
        ensures wait { IfOk result (λ t. AllWait (shape t)) }
        ensures gone { IfOk result (λ t. t.gone ≡ []) }
        ensures came { IfOk result (λ t. t.came ≡ []) }
    {
        let values = Vec::new(alloc);
        let Fresh { branch, next } = unfold(alloc, checked, checked.start, &values, 0)?;
        Ok(Tree {
            root: Box::into_inner(branch),
            next,
            gone: Vec::new(alloc),
            came: Vec::new(alloc),
            ready: None,
        })
    }

    /// The behaviour that the tree stands for.
    pub fn stands(&self, alloc: Global, checked: &Checked) -> Result<Beh, Memory>
        requires ready { IsReady (program_of checked.now) }
        ensures stands { IfOk result (λ b. behaviour_of b ≡ stands_for (program_of checked.now) (shape self.now)) }
    {
        self.root.stands(alloc, checked)
    }

    /// The tree's operators and nodes. It takes no memory.
    pub fn root(&self) -> &Branch
        ensures { shape_of result.now ≡ shape self.now }
    {
        &self.root
    }

    /// An equal tree, which doesn't stand ready for a step.
    pub fn copy(&self, alloc: Global) -> Result<Tree, Memory>
        ensures shape { IfOk result (λ t. shape t ≡ shape self.now) }
        ensures next { IfOk result (λ t. t.next ≡ self.now.next) }
        ensures gone { IfOk result (λ t. t.gone ≡ self.now.gone) }
        ensures came { IfOk result (λ t. t.came ≡ self.now.came) }
    {
        let root = Box::into_inner(self.root.copy(alloc)?);
        let gone = Vec::from_slice(alloc, &self.gone)?;
        let came = Vec::from_slice(alloc, &self.came)?;
        Ok(Tree {
            root,
            next: self.next,
            gone,
            came,
            ready: None,
        })
    }

    /// No two nodes have one generation, and each generation is below the next one.
    pub fn generations_are_sound(&self)
        ensures apart { AreApart (shape self.now) }
        ensures below { AreBelow (shape self.now) self.now.next }
    {
        let _ = &self.root;
    }

    /// The node of a live generation; None for any other. It takes no memory.
    #[tactic(auto, using(node_trees::proofs::Finding::found_is_node, node_trees::proofs::Finding::none_lives))]
    pub fn at(&self, generation: Gen) -> Option<&Node>
        ensures some { IfSome result (λ n. IsNodeOf (shape self.now) generation.0 (held_of n.now)) }
        ensures none { IfNone result (Lives (shape self.now) generation.0 → ⊥) }
        ensures apart { AreApart (shape self.now) }
        ensures below { AreBelow (shape self.now) self.now.next }
    {
        match self.root.node_at(generation) {
            Some(node) => Some(node),
            None => None,
        }
    }

    /// Expands the node of a live generation. The work is what its origin can do, if the tree is to be right. It takes no memory.
    pub fn post(&mut self, generation: Gen, work: Expansion)
        requires lives { Lives (shape self.old) generation.0 }
        ensures posted { shape self.new ≡ posted generation.0 (expansion_of work) (shape self.old) }
        ensures stands { (program : Program) → stands_for program (shape self.new) ≡ stands_for program (shape self.old) }
        ensures right { (program : Program) → IsWorkFor program (shape self.old) generation.0 (expansion_of work) →
            IsRight program (shape self.old) → IsRight program (shape self.new) }
        ensures next { self.new.next ≡ self.old.next }
        ensures gone { self.new.gone ≡ self.old.gone }
        ensures came { self.new.came ≡ self.old.came }
    {
        self.root.post(generation, work);
    }

    /// Makes ready all that the step by these rules needs. The tree stays as it is, also where there is no memory.
    pub fn reserve_step(
        &mut self,
        alloc: Global,
        checked: &Checked,
        rules: &Rules,
    ) -> Result<(), Memory>
        requires ready { IsReady (program_of checked.now) }
        ensures reserved { IfOk result (λ _.
            IsReserved (program_of checked.now) (shape self.new) self.new.next (derivation_of rules.now) self.new.ready) }
        ensures shape { shape self.new ≡ shape self.old }
        ensures next { self.new.next ≡ self.old.next }
        ensures gone { self.new.gone ≡ self.old.gone }
        ensures came { self.new.came ≡ self.old.came }
    {
        let ready = ready_for(alloc, checked, &self.root, rules, self.next)?;
        self.ready = Some(ready);
        Ok(())
    }

    /// The action that stands ready: where each node that takes part is expanded by what its origin can do, it is the one that the behaviour
    /// does by the rules. It takes no memory.
    pub fn action_next(&self) -> &Action
        requires reserved { IsSome self.now.ready }
        ensures action { IsNextAction self.now.ready result.now }
    {
        match &self.ready {
            Some(ready) => &ready.action,
            None => unreachable!(),
        }
    }

    /// The step by these rules: the tree then stands for what its behaviour becomes. It takes no memory.
    pub fn step(&mut self, checked: &Checked, rules: &Rules)
        requires reserved { IsReserved (program_of checked.now) (shape self.old) self.old.next (derivation_of rules.now) self.old.ready }
        ensures step { IsStep (program_of checked.now) (shape self.old) self.old.next (derivation_of rules.now) (shape self.new)
            self.new.next self.new.gone self.new.came }
        ensures next { IsNext self.old.ready (shape self.old) (shape self.new) }
    {
        match self.ready.take() {
            Some(ready) => {
                let After {
                    change,
                    next,
                    gone,
                    came,
                } = ready.into_after();
                let mut change = change;
                change.put_in(&mut self.root);
                self.next = next;
                self.gone = gone;
                self.came = came;
            }
            None => {}
        }
    }

    /// The generations that the last step ended; none before the first step. It takes no memory.
    pub fn gone(&self) -> &[Gen]
        ensures gone { result.now ≡ self.now.gone }
    {
        &self.gone
    }

    /// The generations that the last step began; none before the first step. It takes no memory.
    pub fn came(&self) -> &[Gen]
        ensures came { result.now ≡ self.now.came }
    {
        &self.came
    }
}
