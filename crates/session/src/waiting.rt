// Calls of clients that don't wait in them.

ghost use Rattle.std.specs.Prelude.{◌≡◌, IfOk};
ghost use Rattle.spec_core.specs.Code.{program_of};
ghost use Rattle.board_core.specs.JobValues.{GivesValues};
ghost use Rattle.session.specs.Calls.{HasGate};
ghost use Rattle.session.specs.Passes.{HasLeft};
ghost use Rattle.session.specs.Sessions.{IsClientOf};
ghost use Rattle.session.specs.Waited.{ComesOfWaiting};

use crate::calls::CallFault;
use crate::pass::Pass;
use crate::session::Session;
use crate::waiting_pass::WaitingPass;
use rule_model::offer::Offer;
use rule_model::reply::Reply;
use session_board::shared::Look;
use spec_core::memory::Memory;
use std::snapshot::Snapshot;
use std::sync::Wait;

/// What a client that waits for an answer finds.
#[derive(Drop)]
pub enum Waited {
    /// The answer.
    Answered(Pass, Reply),
    /// No answer yet; it did a job, or appended an entry.
    Busy(WaitingPass),
    /// No answer yet, and nothing to do now.
    Idle(WaitingPass),
}

impl Session {
    /// A client that hasn't left makes its offer at a gate of the specification, or asks for it, in a turn, and doesn't wait for the answer.
    /// What the offer gives are values. Where a turn met want of memory, the pass is let go.
    pub fn begin<R: Wait>(
        &self,
        rt: &R,
        pass: Pass,
        offer: &Offer,
        ask: bool,
    ) -> Result<WaitingPass, Memory>
        requires ours { IsClientOf self.now pass }
        requires stays { HasLeft pass → ⊥ }
        requires gate { HasGate self.now offer.now }
        requires values { GivesValues (program_of self.now.lock.fixed.checked).theory offer.now }
        ensures waits { IfOk result (λ waiting. waiting ≡ record { before = pass; offer = offer.now; ask = ask }) }
    {
        let before = Snapshot::of(&pass);
        let Pass {
            mut seat,
            client,
            spot,
        } = pass;
        match self.post(rt, &mut seat, client, offer, ask, spot) {
            Ok((number, spot)) => Ok(WaitingPass {
                seat,
                client,
                number,
                spot,
                before,
                offer: Snapshot::of(offer),
                ask,
            }),
            Err(CallFault::Left) => unreachable!(),
            Err(CallFault::NoSuchGate) => unreachable!(),
            Err(CallFault::Memory) => Err(Memory),
        }
    }

    /// A client that waits looks for its answer, in a turn; where there is none yet it does a job, if one is there. Where a turn met want of
    /// memory, the pass is let go.
    pub fn go_on<R: Wait>(&self, rt: &R, waiting: WaitingPass) -> Result<Waited, Memory>
        requires ours { IsClientOf self.now waiting.before }
        ensures waits { IfOk result (ComesOfWaiting waiting) }
    {
        let WaitingPass {
            mut seat,
            client,
            number,
            spot,
            before,
            offer,
            ask,
        } = waiting;
        let (spot, look) = self.look(rt, &mut seat, (client, number), spot)?;
        match look {
            Look::Answered(reply) => Ok(Waited::Answered(Pass { seat, client, spot }, reply)),
            Look::Free(taken) => {
                let outcome = self.do_job(&taken);
                self.hand_in(rt, &mut seat, taken, outcome)?;
                Ok(Waited::Busy(WaitingPass {
                    seat,
                    client,
                    number,
                    spot,
                    before,
                    offer,
                    ask,
                }))
            }
            Look::Settled => Ok(Waited::Busy(WaitingPass {
                seat,
                client,
                number,
                spot,
                before,
                offer,
                ask,
            })),
            Look::Idle => Ok(Waited::Idle(WaitingPass {
                seat,
                client,
                number,
                spot,
                before,
                offer,
                ask,
            })),
        }
    }
}
