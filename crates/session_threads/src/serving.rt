// What each thread does.

ghost use Rattle.std.specs.Prelude.{◌≡◌, ◌++◌, ◌∷◌, [], IfErr, IfOk, OnOk, map};
ghost use Rattle.spec_core.specs.Code.{program_of};
ghost use Rattle.rule_model.specs.Answers.{answer_of};
ghost use Rattle.rule_model.specs.WishViews.{wish_of};
ghost use Rattle.board_laws.specs.JobValues.{GivesValues};
ghost use Rattle.session.specs.Calls.{ExplainsCall};
ghost use Rattle.session.specs.Passes.{HasLeft, KnowsAnswer, SamePass};
ghost use Rattle.session.specs.Sessions.{IsClientOf, IsWorkerOf, who_of};
ghost use Rattle.session_threads.specs.Rows.{wishes_made, FitSession, IsReadyClient, IsServedClient, IsServedWorker};

use crate::places::Refusals;
use crate::rows::{ServedClient, ServedWorker};
use rule_model::reply::Reply;
use rule_model::wish::ClientWish;
use session::calls::CallFault;
use session::pass::Pass;
use session::session::Session;
use session::work_pass::WorkPass;
use spec_core::memory::Memory;
use std::sync::Wait;
use worker_drive::{Probe, drive};

// The client makes an offer, or asks for it, and waits for the answer.
fn call<R: Wait>(
    rt: &R,
    session: &Session,
    pass: &mut Pass,
    wish: &ClientWish,
) -> Result<Reply, CallFault>
    requires ours { IsClientOf session.now pass.old }
    requires values { GivesValues (program_of session.now.lock.fixed.checked).theory wish.now.offer }
    ensures same { SamePass pass.old pass.new }
    ensures answered { IfOk result (λ reply. KnowsAnswer pass.old wish.now.offer wish.now.ask (answer_of reply) pass.new) }
    ensures fault { IfErr result (ExplainsCall session.now pass.old pass.new wish.now.offer) }
{
    if wish.ask {
        session.ask(rt, pass, &wish.offer)
    } else {
        session.offer(rt, pass, &wish.offer)
    }
}

// The client makes an offer, or asks for it, and has its answer.
#[tactic(auto, using(crate::proofs::Wishing::stays_on, crate::proofs::Wishing::one_wish_more))]
fn make<R: Wait>(
    rt: &R,
    session: &Session,
    pass: &mut Pass,
    wish: &ClientWish,
) -> Result<(), Memory>
    requires ours { IsClientOf session.now pass.old }
    requires stays { HasLeft pass.old → ⊥ }
    requires gate { FitSession session.now (wish_of wish.now ∷ []) }
    ensures same { SamePass pass.old pass.new }
    ensures stays { OnOk result (HasLeft pass.new → ⊥) }
    ensures made { OnOk result (wishes_made pass.new ≡ wishes_made pass.old ++ wish_of wish.now ∷ []) }
{
    match call(rt, session, pass, wish) {
        Ok(_) => Ok(()),
        Err(CallFault::Left) => unreachable!(),
        Err(CallFault::NoSuchGate) => unreachable!(),
        Err(CallFault::Memory) => Err(Memory),
    }
}

// The client makes its offers in order.
#[tactic(auto, using(crate::proofs::Wishing::same_client))]
fn make_all<R: Wait>(
    rt: &R,
    session: &Session,
    pass: &mut Pass,
    wishes: &[ClientWish],
) -> Result<(), Memory>
    requires ours { IsClientOf session.now pass.old }
    requires stays { HasLeft pass.old → ⊥ }
    requires gates { FitSession session.now (map wish_of wishes.now) }
    ensures same { SamePass pass.old pass.new }
    ensures stays { OnOk result (HasLeft pass.new → ⊥) }
    ensures made { OnOk result (wishes_made pass.new ≡ wishes_made pass.old ++ map wish_of wishes.now) }
{
    for wish in wishes {
        make(rt, session, pass, wish)?;
    }
    Ok(())
}

/// The client leaves.
#[tactic(auto, using(crate::proofs::Wishing::leaves_now, crate::proofs::Wishing::wishes_no_more))]
pub fn leave<R: Wait>(rt: &R, session: &Session, pass: &mut Pass) -> Result<(), Memory>
    requires ours { IsClientOf session.now pass.old }
    requires stays { HasLeft pass.old → ⊥ }
    ensures same { SamePass pass.old pass.new }
    ensures left { OnOk result (HasLeft pass.new) }
    ensures made { OnOk result (wishes_made pass.new ≡ wishes_made pass.old) }
{
    match session.leave(rt, pass) {
        Ok(()) => Ok(()),
        Err(CallFault::Left) => unreachable!(),
        Err(CallFault::NoSuchGate) => unreachable!(),
        Err(CallFault::Memory) => Err(Memory),
    }
}

// The client makes its offers in order, and leaves.
#[tactic(auto, using(crate::proofs::Wishing::same_client, crate::proofs::Wishing::new_stays, crate::proofs::Wishing::nothing_wished))]
fn serve_client<R: Wait>(
    rt: &R,
    session: &Session,
    pass: &mut Pass,
    wishes: &[ClientWish],
) -> Result<(), Memory>
    requires ours { IsClientOf session.now pass.old }
    requires new { pass.old.own ≡ [] }
    requires gates { FitSession session.now (map wish_of wishes.now) }
    ensures same { SamePass pass.old pass.new }
    ensures left { OnOk result (HasLeft pass.new) }
    ensures made { OnOk result (wishes_made pass.new ≡ map wish_of wishes.now) }
{
    make_all(rt, session, pass, wishes)?;
    leave(rt, session, pass)
}

/// The client as it is once it has made its offers in order and left, or met want of memory; or as it was, where its thread couldn't be
/// started.
pub fn served_client<R: Wait>(
    rt: &R,
    session: &Session,
    mut pass: Pass,
    wishes: &[ClientWish],
    refusals: &Refusals,
    number: u64,
) -> ServedClient
    requires ready { IsReadyClient session.now pass wishes.now }
    ensures served { IsServedClient pass wishes.now result }
{
    if refusals.has(number) {
        return ServedClient {
            pass,
            is_begun: false,
            is_done: false,
        };
    }
    let is_done = serve_client(rt, session, &mut pass, wishes).is_ok();
    ServedClient {
        pass,
        is_begun: true,
        is_done,
    }
}

/// The worker as it is once each client has left, or it met want of memory; or as it was, where its thread couldn't be started.
pub fn served_worker<R: Wait, P: Probe>(
    rt: &R,
    session: &Session,
    mut pass: WorkPass,
    probe: &P,
    refusals: &Refusals,
    number: u64,
) -> ServedWorker
    requires ours { IsWorkerOf session.now (who_of pass) }
    ensures served { IsServedWorker pass result }
{
    if refusals.has(number) {
        return ServedWorker {
            pass,
            is_begun: false,
            is_done: false,
        };
    }
    let is_done = drive(rt, session, &mut pass, probe).is_ok();
    ServedWorker {
        pass,
        is_begun: true,
        is_done,
    }
}
