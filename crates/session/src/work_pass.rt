// The pass of a worker.

use session_board::shared::SharedBoard;
use std::marker::Model;
use turn_lock::TurnSeat;

/// A worker's seat of a session, with the numbers of the jobs that it took and put, each at most 2^64 - 1.
#[derive(Drop)]
pub struct WorkPass {
    pub(crate) seat: TurnSeat<SharedBoard>,
    pub(crate) clients: u32,
    pub(crate) taken: u64,
    pub(crate) handed: u64,
}

impl Model for WorkPass {
    ghost use Rattle.std.specs.Prelude.{◌≡◌, false};
    ghost use Rattle.std.specs.Coded.{codes};
    ghost use Rattle.rule_model.specs.contracts.log.Entry as e;
    ghost use Rattle.session.specs.Passes.{WorkPassView};

    ghost Value = { WorkPassView };

    ghost coded = { Prim.hlevel (codes, e.the_row.coded) };

    ghost view = { λ p. record {
      lock = p.seat.lock;
      number = p.seat.number;
      clients = p.clients;
      seen = p.seat.seen;
      own = p.seat.own;
      taken = p.taken;
      handed = p.handed;
    } };

    ghost invariant = { λ p. p.seat.holds_turn ≡ false };
}
