// What a board knows of its nodes, for whoever looks for trees of rules without the rules of a session.

ghost use Rattle.std.specs.Prelude.{◌≡◌, IfOk, map, option_map};
ghost use Rattle.rule_model.specs.Answers.{answer_of};
ghost use Rattle.candidates.specs.Models.{job_of};
ghost use Rattle.board_laws.specs.Stopping.{answer_by};
ghost use Rattle.node_trees.specs.Shapes.{shape_of};
ghost use Rattle.board_core.specs.Boards.{AreOfLiving, IsKnown};
ghost use Rattle.board_core.specs.Views.{pieces, program, state, tree};

use crate::board::Board;
use candidate_verdicts::pieces::Pieces;
use node_trees::branch::Branch;
use offer_index::some_waits;
use rule_model::reply::Reply;
use spec_core::memory::Memory;
use std::alloc::Global;

// Whether a tree has more than one part that may act.
fn has_several(branch: &Branch) -> bool {
    match branch {
        Branch::Leaf(_) => false,
        Branch::Ended => false,
        Branch::Over(_, part) => has_several(part),
        Branch::Between(_, _, _) => true,
    }
}

impl Board {
    /// Whether no node waits, so that the next job is to find what a node shows. Nothing is claimed of it: whoever asks for jobs reckons with
    /// it how many are worth asking for, and whether one is likely to be needed. It takes no memory.
    pub fn is_expanded(&self) -> bool {
        self.index.is_some() || !some_waits(self.record.tree().root())
    }

    /// Whether the behaviour that is reached has several nodes. Nothing is claimed of it, as of `is_expanded`. It takes no memory.
    pub fn has_several_nodes(&self) -> bool {
        has_several(self.record.tree().root())
    }

    /// The operators and nodes that stand for the behaviour that is reached. It takes no memory.
    pub fn nodes(&self) -> &Branch
        ensures { shape_of result.now ≡ tree self.now }
    {
        self.record.tree().root()
    }

    /// What is known of nodes. It takes no memory.
    pub fn pieces(&self) -> &Pieces
        ensures { result.now ≡ self.now.pieces }
    {
        &self.pieces
    }

    /// What is known of the nodes is what their origins can do, and show.
    pub fn what_is_known_is_so(&self)
        ensures known { IsKnown (program self.now) self.now.settings.values self.now.windows (tree self.now) (pieces self.now)
            self.now.session.tree.next }
        ensures living { AreOfLiving (tree self.now) (pieces self.now) (map job_of self.now.out) }
    {
        let _ = &self.record;
    }

    /// The reply that tells why the session has stopped; None where it hasn't.
    pub fn stop_reply(&self, alloc: Global) -> Result<Option<Reply>, Memory>
        ensures { IfOk result (λ o. option_map answer_of o ≡ option_map (answer_by (state self.now).actions) self.now.stop) }
    {
        match &self.stop {
            None => Ok(None),
            Some(reason) => Ok(Some(reason.reply(alloc, self.record.state().actions())?)),
        }
    }
}
