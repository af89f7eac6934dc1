// The pass of a client.

use session_board::shared::SharedBoard;
use session_board::spot::Spot;
use std::marker::Model;
use turn_lock::TurnSeat;

/// A client's seat of a session. It knows a beginning of the one list of the session, in which each offer of the client is answered.
#[derive(Drop)]
pub struct Pass {
    pub(crate) seat: TurnSeat<SharedBoard>,
    pub(crate) client: u32,
    pub(crate) spot: Spot,
}

impl Model for Pass {
    ghost use Rattle.std.specs.Coded.{codes};
    ghost use Rattle.rule_model.specs.contracts.log.Entry as e;
    ghost use Rattle.session.specs.Passes.{PassView, IsPass};

    ghost Value = { PassView };

    ghost coded = { Prim.hlevel (codes, e.the_row.coded) };

    ghost view = { λ p. record {
      lock = p.seat.lock;
      client = p.client;
      seen = p.seat.seen;
      own = p.seat.own;
      known = p.spot.lines;
    } };

    ghost invariant = { λ p. IsPass p.seat p.client p.spot };
}
