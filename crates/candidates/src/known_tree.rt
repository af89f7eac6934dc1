// What is known of a tree of nodes.

ghost use Rattle.std.specs.Prelude.{◌≡◌, IfOk, IfSome};
ghost use Rattle.log_states.specs.Views.{pending_of};
ghost use Rattle.board_offers.specs.Offers.{no_offer};

use crate::composites::{Composites, listed};
use crate::job::NodeJob;
use candidate_verdicts::pieces::Pieces;
use log_states::pending::Pending;
use node_trees::branch::Branch;
use rule_model::offer::{Fields, Offer};
use spec_core::equation::DataSpec;
use spec_core::items::Gate;
use spec_core::memory::Memory;
use spec_core::window::Window;
use std::alloc::Global;
use symbolic_plans::composite::OpenComposite;

/// A tree of nodes with what is known of them, the pending offers, and the jobs that are out.
#[derive(Drop)]
pub struct KnownTree<'a> {
    pub algebra: &'a DataSpec,
    pub windows: &'a [Window],
    pub tree: &'a Branch,
    pub pieces: &'a Pieces,
    pub offers: &'a [Pending],
    pub out: &'a [NodeJob],
    pub(crate) composites: Composites<'a>,
    // What stands for an offer that there isn't.
    pub(crate) nowhere: Pending,
    pub ghost none: { pending_of nowhere ≡ no_offer },
}

// An offer that no client made. It takes no memory.
fn made_by_nobody(alloc: Global) -> Pending
    ensures { pending_of result ≡ no_offer }
{
    Pending {
        client: 0,
        number: 0,
        offer: Offer {
            gate: Gate(0),
            fields: Fields::new(Vec::new(alloc)),
        },
        ask: false,
    }
}

impl<'a> KnownTree<'a> {
    ghost use Rattle.spec_core.specs.Theories.{theory_of};
    ghost use Rattle.node_trees.specs.Shapes.{shape_of};
    ghost use Rattle.candidates.specs.Composites.{AreAllOf};
    ghost use Rattle.candidates.specs.KnownTrees.{HasItsParts};

    /// A tree with what is known of it. Its composites are lent by whoever keeps them, which is possible where none of its nodes waits; else
    /// it lists them, unless one may meet a pending offer.
    pub fn new(
        alloc: Global,
        algebra: &'a DataSpec,
        windows: &'a [Window],
        tree: &'a Branch,
        lent: Option<&'a [OpenComposite]>,
        pieces: &'a Pieces,
        offers: &'a [Pending],
        out: &'a [NodeJob],
    ) -> Result<KnownTree<'a>, Memory>
        requires lent { IfSome lent (λ all. AreAllOf (theory_of algebra.now) (shape_of tree.now) all.now) }
        ensures algebra { IfOk result (λ s. s.algebra.now ≡ algebra.now) }
        ensures windows { IfOk result (λ s. s.windows.now ≡ windows.now) }
        ensures tree { IfOk result (λ s. s.tree.now ≡ tree.now) }
        ensures pieces { IfOk result (λ s. s.pieces.now ≡ pieces.now) }
        ensures offers { IfOk result (λ s. s.offers.now ≡ offers.now) }
        ensures parts { IfOk result HasItsParts }
        ensures out { IfOk result (λ s. s.out.now ≡ out.now) }
    {
        let composites = listed(alloc, algebra, tree, lent, offers)?;
        Ok(KnownTree {
            algebra,
            windows,
            tree,
            pieces,
            offers,
            out,
            composites,
            nowhere: made_by_nobody(alloc),
        })
    }
}
