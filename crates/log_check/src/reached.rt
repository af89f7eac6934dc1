// The state that a log leads to.

use log_states::state::SessionState;
use rule_model::beh::Beh;

/// The behaviour that entries reach, and the rest of the state that they lead to.
#[derive(Drop)]
pub struct Reached {
    pub behaviour: Beh,
    pub session: SessionState,
}
