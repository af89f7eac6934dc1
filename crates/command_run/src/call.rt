// The call.

ghost use Rattle.std.specs.Prelude.{◌≡◌, ◌<◌, ◌≤◌, IfOk, length, map, option_map};
ghost use Rattle.spec_core.specs.Code.{program_of};
ghost use Rattle.spec_core.specs.Lists.{Each};
ghost use Rattle.spec_core.specs.Ready.{IsReady};
ghost use Rattle.rule_model.specs.Events.{ending_of};
ghost use Rattle.rule_model.specs.Logs.{events_of};
ghost use Rattle.rule_model.specs.WishViews.{wish_of};
ghost use Rattle.script_offers.specs.Valued.{all_wishes_of};
ghost use Rattle.script_text.specs.Scripts.{WishFits};
ghost use Rattle.script_text.specs.Wishes.{script_of};
ghost use Rattle.session_threads.specs.JobValues.{GivesValues};
ghost use Rattle.command_run.specs.Runs.{wishes_of_one, Comes, IsSessionWith, WishesCome};

use crate::answer::Answer;
use client_laws::laws::client_runs_answer_each;
use client_runs::run::client_run;
use rule_model::log::{End, Log};
use rule_model::wish::ClientWish;
use run_settings::settings::Settings;
use script_offers::{Evaluator, Forms, Prepared, WishFault, offers_of_script};
use script_text::fault::ScriptFault;
use script_text::read_script;
use script_text::wish::Script;
use session_laws::answers::{clients_alone_offer, sessions_of_one_are_client_runs};
use session_laws::laws::client_runs_are_sessions;
use session_threads::run::run_in_threads;
use spec_core::code::Checked;
use spec_core::memory::Memory;
use std::alloc::Global;
use std::sync::Wait;
use std::thread::Threads;
use worker_drive::Probe;

// The wishes of the one client, which has some, or none where there is no client. None, where there are more.
fn wishes_of_one(clients: &[Vec<ClientWish>]) -> Option<&[ClientWish]>
    ensures { option_map (λ wishes. map wish_of wishes.now) result ≡ wishes_of_one (map all_wishes_of clients.now) }
{
    match clients {
        [] => Some(&[]),
        [wishes] => if wishes.is_empty() {
            None
        } else {
            Some(wishes.as_slice())
        },
        _ => None,
    }
}

// The session of clients that make these offers, with so many workers. Where there is nobody but one client there is no need for threads.
fn run_clients<R: Threads + Wait + Sync, P: Probe + Sync>(
    rt: &R,
    alloc: Global,
    checked: &Checked,
    clients: &[Vec<ClientWish>],
    settings: Settings,
    workers: u32,
    probe: &P,
) -> Result<(Log, End), Memory>
    requires ready { IsReady (program_of checked.now) }
    requires clients { length clients.now ≤ 64 }
    requires workers { workers ≤ 64 }
    requires gates { Each (Each (λ w. w.offer.gate.0 < length (program_of checked.now).gates)) (map all_wishes_of clients.now) }
    requires values { Each (Each (λ w. GivesValues (program_of checked.now).theory w.offer)) (map all_wishes_of clients.now) }
    ensures { IfOk result (λ r. IsSessionWith (program_of checked.now) settings (map all_wishes_of clients.now) (events_of r.0) (ending_of r.1)) }
{
    client_runs_are_sessions();
    client_runs_answer_each();
    clients_alone_offer();
    sessions_of_one_are_client_runs();
    let own = checked.copy(alloc)?;
    if workers > 0 {
        return run_in_threads(rt, alloc, own, settings, clients, workers, probe);
    }
    match wishes_of_one(clients) {
        Some(wishes) => client_run(alloc, own, settings, wishes),
        None => run_in_threads(rt, alloc, own, settings, clients, workers, probe),
    }
}

// What comes of a script.
fn run_script<R: Threads + Wait + Sync, P: Probe + Sync>(
    rt: &R,
    alloc: Global,
    checked: &Checked,
    script: &Script,
    settings: Settings,
    workers: u32,
    probe: &P,
) -> Result<Answer, Memory>
    requires ready { IsReady (program_of checked.now) }
    requires fit { Each (Each (WishFits (program_of checked.now))) (script_of script.now) }
    requires clients { length (script_of script.now) ≤ 64 }
    requires workers { workers ≤ 64 }
    ensures { IfOk result (WishesCome (program_of checked.now) settings (script_of script.now)) }
{
    let forms = Forms::new(alloc, &checked.algebra)?;
    let prepared = Prepared {
        checked,
        evaluator: Evaluator::new(&checked.algebra, &forms),
    };
    match offers_of_script(alloc, &prepared, script, settings.budget) {
        Err(WishFault::Spent(term)) => Ok(Answer::Spent(term)),
        Err(WishFault::TooLarge(term)) => Ok(Answer::TooLarge(term)),
        Err(WishFault::Memory) => Err(Memory),
        Ok(offers) => {
            let (log, end) = run_clients(rt, alloc, checked, &offers, settings, workers, probe)?;
            Ok(Answer::Ran(log, end))
        }
    }
}

/// The session of a script: each client makes its offers in order and leaves, and so many workers, from 0 to 64, do jobs meanwhile, of each of
/// which the probe is told before. The terms of the script are evaluated first.
pub fn run_text<R: Threads + Wait + Sync, P: Probe + Sync>(
    rt: &R,
    alloc: Global,
    checked: &Checked,
    text: &[u8],
    settings: Settings,
    workers: u32,
    probe: &P,
) -> Result<Answer, Memory>
    requires ready { IsReady (program_of checked.now) }
    requires workers { workers ≤ 64 }
    ensures { IfOk result (Comes (program_of checked.now) settings text.now) }
{
    match read_script(alloc, text, checked) {
        Err(ScriptFault::Line { line, kind }) => Ok(Answer::Refused { line, kind }),
        Err(ScriptFault::Memory) => Err(Memory),
        Ok(script) => run_script(rt, alloc, checked, &script, settings, workers, probe),
    }
}
