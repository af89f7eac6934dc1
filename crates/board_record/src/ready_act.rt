// What stands ready for an act.

ghost use Rattle.std.specs.Prelude.{◌≡◌, IfOk};
ghost use Rattle.rule_model.specs.Behaviours.{Behaviour};
ghost use Rattle.rule_model.specs.States.{after_action};
ghost use Rattle.log_states.specs.Views.{state_at, state_of};

use log_states::state::SessionState;
use rule_model::action::Action;
use spec_core::memory::Memory;
use std::alloc::Global;

/// The state after an act, but for the behaviour that is reached, and its action.
#[derive(Drop)]
pub struct ReadyAct {
    pub state: SessionState,
    pub action: Action,
}

/// What stands ready for this action, which takes the offer named.
pub fn ready_act(
    alloc: Global,
    session: &SessionState,
    action: &Action,
    by: Option<(u32, u64)>,
) -> Result<ReadyAct, Memory>
    ensures state { IfOk result (λ r. (rest : Behaviour) → state_at rest r.state ≡ after_action (state_of session.now) action.now by rest) }
    ensures action { IfOk result (λ r. r.action ≡ action.now) }
{
    let state = session.acted(alloc, action.copy(alloc)?, by)?;
    Ok(ReadyAct {
        state,
        action: action.copy(alloc)?,
    })
}
