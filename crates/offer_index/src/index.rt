// An index of the composites of a tree.

ghost use Rattle.std.specs.Prelude.{◌≡◌, ◌∷◌, [], IfOk, OnErr, OnOk, MatchOption};
ghost use Rattle.spec_core.specs.Code.{program_of};
ghost use Rattle.spec_core.specs.Ready.{IsReady};
ghost use Rattle.symbolic_rules.specs.Tables.{windows_in};
ghost use Rattle.symbolic_plans.specs.OpenPlans.{kind_in, open_plan_of};
ghost use Rattle.node_trees.specs.Shapes.{shape_of};
ghost use Rattle.offer_index.specs.Index as index;
ghost use Rattle.offer_index.specs.Index.{IsIndexOf, plans_at, plans_of};
ghost use Rattle.offer_index.specs.Left.{gate_of, plans_left};

use candidate_composites::known::expanded_composites;
use candidate_count::counting::{OFFERS_LIMIT, count_offers};
use node_trees::branch::Branch;
use spec_core::code::Checked;
use spec_core::items::Gate;
use spec_core::memory::Memory;
use spec_core::window::Window;
use std::alloc::Global;
use std::marker::Model;
use symbolic_plans::composite::{ActionKind, OpenComposite};

/// How many possible agreements a tree has, and its composites, of those of which every participant is an expanded node. Where there are
/// more than 1,048,576 possible agreements, no composite is listed.
#[derive(Drop)]
pub struct OfferIndex {
    total: u64,
    composites: Vec<OpenComposite>,
}

impl Model for OfferIndex {
    ghost use Rattle.std.specs.Coded.{codes};
    ghost use Rattle.symbolic_plans.specs.contracts.composite.OpenComposite as c;
    ghost use Rattle.offer_index.specs.Index.{IndexView};

    ghost Value = { IndexView };

    ghost coded = { Prim.hlevel (codes, c.the_row.coded) };

    ghost view = { λ i. record { total = i.total; composites = i.composites.items } };
}

/// The composites of an index at a gate, one after another.
#[derive(Drop)]
pub struct Offers<'a> {
    gate: Option<Gate>,
    composites: &'a [OpenComposite],
}

// Whether an action is at the gate; where none is given, whether it is internal or the termination.
fn is_at(gate: Option<Gate>, kind: ActionKind) -> bool
    ensures { result ≡ index.is_at (gate_of gate) (kind_in kind) }
{
    match gate {
        None => match kind {
            ActionKind::Inner => true,
            ActionKind::Exit => true,
            ActionKind::At(_) => false,
        },
        Some(gate) => match kind {
            ActionKind::Inner => false,
            ActionKind::Exit => false,
            ActionKind::At(other) => gate.0 == other.0,
        },
    }
}

impl OfferIndex {
    /// The index of a tree. It recurs as deep as operators nest.
    pub fn new(
        alloc: Global,
        checked: &Checked,
        windows: &[Window],
        tree: &Branch,
    ) -> Result<OfferIndex, Memory>
        requires ready { IsReady (program_of checked.now) }
        ensures index { IfOk result (IsIndexOf (program_of checked.now) (windows_in windows.now) (shape_of tree.now)) }
    {
        let composites = expanded_composites(alloc, &checked.algebra, tree)?;
        let total = count_offers(checked, windows, tree, &composites);
        if total > OFFERS_LIMIT {
            return Ok(OfferIndex {
                total,
                composites: Vec::new(alloc),
            });
        }
        Ok(OfferIndex { total, composites })
    }

    /// The index of the tree as it is now. Want of memory leaves it as it was.
    pub fn changed(
        &mut self,
        alloc: Global,
        checked: &Checked,
        windows: &[Window],
        tree: &Branch,
    ) -> Result<(), Memory>
        requires ready { IsReady (program_of checked.now) }
        ensures index { OnOk result (IsIndexOf (program_of checked.now) (windows_in windows.now) (shape_of tree.now) self.new) }
        ensures same { OnErr result (self.new ≡ self.old) }
    {
        *self = OfferIndex::new(alloc, checked, windows, tree)?;
        Ok(())
    }

    /// How many possible agreements the tree has; 1,048,577 where there are more than 1,048,576. It takes no memory.
    pub fn total(&self) -> u64
        ensures { result ≡ self.now.total }
    {
        self.total
    }

    /// The composites at a gate, or, where none is given, those of internal actions and terminations. It takes no memory.
    pub fn offers(&self, gate: Option<Gate>) -> Offers<'_>
        ensures { plans_left result ≡ plans_at (gate_of gate) (plans_of self.now.composites) }
    {
        Offers {
            gate,
            composites: &self.composites,
        }
    }

    /// The composites at all gates, in the order of trees of rules. It takes no memory.
    pub fn composites(&self) -> &[OpenComposite]
        ensures { result.now ≡ self.now.composites }
    {
        &self.composites
    }
}

impl<'a> Offers<'a> {
    /// Takes the next one; None after the last. It takes no memory.
    pub fn next(&mut self) -> Option<&'a OpenComposite>
        ensures next { MatchOption result (plans_left self.old ≡ [])
            (λ c. plans_left self.old ≡ open_plan_of c.now ∷ plans_left self.new) }
    {
        while let [first, rest @ ..] = self.composites {
            self.composites = rest;
            if is_at(self.gate, first.kind) {
                return Some(first);
            }
        }
        None
    }
}
