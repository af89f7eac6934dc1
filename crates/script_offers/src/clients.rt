// The offers of each client.

ghost use Rattle.std.specs.Prelude.{◌≡◌, ◌<◌, IfOk, IfErr, length, map};
ghost use Rattle.spec_core.specs.Executable.{IsExecutable};
ghost use Rattle.spec_core.specs.Lists.{Each};
ghost use Rattle.rewriter.specs.Answers.{IsWithin};
ghost use Rattle.script_text.specs.Scripts.{WishFits};
ghost use Rattle.script_text.specs.Wishes.{all_wished_of, script_of};
ghost use Rattle.match_code.specs.Prepared.{program_in};
ghost use Rattle.script_offers.specs.Faults.{IsFaultOf};
ghost use Rattle.script_offers.specs.Given.{script_given, IsValuedWithin};
ghost use Rattle.script_offers.specs.Valued.{all_wishes_of, AreScriptValued, GivesValues};

use crate::fault::WishFault;
use crate::offers::offers_of;
use match_code::Prepared;
use rule_model::wish::ClientWish;
use script_text::wish::{Script, Wish};
use std::alloc::Global;

// The offers of each client.
fn valued_clients(
    alloc: Global,
    prepared: &Prepared,
    clients: &[Vec<Wish>],
    budget: u64,
) -> Result<Vec<Vec<ClientWish>>, WishFault>
    requires executable { IsExecutable (program_in prepared.now).theory }
    requires fit { Each (Each (WishFits (program_in prepared.now))) (map all_wished_of clients.now) }
    ensures valued { IfOk result (λ all.
        AreScriptValued (program_in prepared.now).theory (map all_wished_of clients.now) (map all_wishes_of all.items)) }
    ensures within { IfOk result (λ all.
        Each (IsValuedWithin (program_in prepared.now).theory budget) (script_given (map all_wished_of clients.now))) }
    ensures fault { IfErr result
        (IsFaultOf (program_in prepared.now).theory budget (script_given (map all_wished_of clients.now))) }
{
    let mut all = Vec::new(alloc);
    for wishes in clients {
        all.push(offers_of(alloc, prepared, wishes, budget)?)?;
    }
    Ok(all)
}

/// The offers of each client of a script, from client 1 on, each as [`offers_of`] says of its wishes. The terms are evaluated client by
/// client; the first of them that has no value within the budget, or meets a value of more than 65,536 symbols, is the fault.
pub fn offers_of_script(
    alloc: Global,
    prepared: &Prepared,
    script: &Script,
    budget: u64,
) -> Result<Vec<Vec<ClientWish>>, WishFault>
    requires executable { IsExecutable (program_in prepared.now).theory }
    requires fit { Each (Each (WishFits (program_in prepared.now))) (script_of script.now) }
    // The offers.
    ensures valued { IfOk result (λ all.
        AreScriptValued (program_in prepared.now).theory (script_of script.now) (map all_wishes_of all.items)) }
    ensures as_many { IfOk result (λ all. length all.items ≡ length (script_of script.now)) }
    ensures within { IfOk result (λ all.
        Each (IsValuedWithin (program_in prepared.now).theory budget) (script_given (script_of script.now))) }
    ensures gates { IfOk result (λ all.
        Each (Each (λ w. w.offer.gate.0 < length (program_in prepared.now).gates)) (map all_wishes_of all.items)) }
    ensures values { IfOk result (λ all. Each (Each (GivesValues (program_in prepared.now).theory)) (map all_wishes_of all.items)) }
    // Or the first term that has no value.
    ensures fault { IfErr result (IsFaultOf (program_in prepared.now).theory budget (script_given (script_of script.now))) }
    ensures complete { Each (λ t. IsWithin (program_in prepared.now).theory t budget) (script_given (script_of script.now)) →
        IfErr result (λ e. e ≡ WishFault.Memory) }
{
    valued_clients(alloc, prepared, &script.clients, budget)
}
