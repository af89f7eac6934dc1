// The pass of a client that waits for an answer.

use crate::pass::Pass;
use rule_model::offer::Offer;
use session_board::shared::SharedBoard;
use session_board::spot::Spot;
use std::marker::Model;
use std::snapshot::Snapshot;
use turn_lock::TurnSeat;

/// A client's seat of a session, while an offer of it has no answer that it knows. Contracts see the pass that the client had before, and the
/// offer.
#[derive(Drop)]
pub struct WaitingPass {
    pub(crate) seat: TurnSeat<SharedBoard>,
    pub(crate) client: u32,
    pub(crate) number: u64,
    pub(crate) spot: Spot,
    pub(crate) before: Snapshot<Pass>,
    pub(crate) offer: Snapshot<Offer>,
    pub(crate) ask: bool,
}

impl Model for WaitingPass {
    ghost use Rattle.std.specs.Coded.{codes};
    ghost use Rattle.rule_model.specs.contracts.log.Entry as e;
    ghost use Rattle.rule_model.specs.contracts.offer.Offer as o;
    ghost use Rattle.session.specs.Waiting.{IsWaiting, WaitingView};

    ghost Value = { WaitingView };

    ghost coded = { Prim.hlevel (codes, e.the_row.coded, o.the_row.coded) };

    ghost view = { λ p. record { before = p.before.value; offer = p.offer.value; ask = p.ask } };

    ghost invariant = { λ p. IsWaiting (record { before = p.before.value; offer = p.offer.value; ask = p.ask }) p.seat p.client p.number p.spot };
}
