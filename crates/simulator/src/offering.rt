// Offers of the user.

ghost use Rattle.std.specs.Prelude.{IfOk, OnOk};
ghost use Rattle.rule_model.specs.Answers.{answer_of};
ghost use Rattle.board_core.specs.Views.{program, state, SameSetting};
ghost use Rattle.script_text.specs.Scripts.{WishFits};
ghost use Rattle.script_text.specs.Wishes.{wished_of};
ghost use Rattle.simulator_steps.specs.Asking.{IsAtRest, KeepsBehaviour};
ghost use Rattle.simulator.specs.Offering.{ComesOfOffer, TellsFault};

use board_core::board::Board;
use rule_model::reply::Reply;
use script_offers::{WishFault, offer_of};
use script_text::wish::Wish;
use simulator_steps::asking::{Answered, ask};
use spec_core::memory::Memory;
use std::alloc::Global;

// Why a term has no value, as a reply after so many actions.
fn reply_of(at: u64, fault: WishFault) -> Result<Reply, Memory>
    ensures { IfOk result (λ reply. TellsFault at fault (answer_of reply)) }
{
    match fault {
        WishFault::Spent(term) => Ok(Reply::Spent { at, term }),
        WishFault::TooLarge(term) => Ok(Reply::TooLarge { at, term }),
        WishFault::Memory => Err(Memory),
    }
}

/// The first step that meets the offer is done, or it is told why not.
pub fn offer(alloc: Global, board: &mut Board, wish: &Wish) -> Result<Answered, Memory>
    requires rests { IsAtRest (state board.old) }
    requires fits { WishFits (program board.old) (wished_of wish.now) }
    ensures offer { IfOk result (ComesOfOffer board.old board.new (wished_of wish.now)) }
    ensures behaviour { IfOk result (KeepsBehaviour board.old board.new) }
    ensures rests { OnOk result (IsAtRest (state board.new)) }
    ensures setting { SameSetting board.old board.new }
{
    board.log_is_a_derivation();
    let at = board.state().actions();
    let budget = board.settings().budget;
    match offer_of(alloc, &board.prepared(), wish, budget) {
        Ok(wish) => ask(alloc, board, &wish.offer),
        Err(fault) => Ok(Answered::Told(reply_of(at, fault)?)),
    }
}
