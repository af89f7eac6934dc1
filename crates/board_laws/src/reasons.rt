// Why jobs stop a session.

ghost use Rattle.std.specs.Prelude.{◌≡◌};
ghost use Rattle.board_laws.specs.Given.{reason_of};

use crate::stop_reason::StopReason;
use node_values::stop::Stop;
use rule_model::reply::LimitKind;

/// The reason for which a job has no answer; none, where it only wants memory. It takes no memory.
pub fn reason_for(stop: Stop) -> Option<StopReason>
    ensures { result ≡ reason_of stop }
{
    match stop {
        Stop::Spent(term) => Some(StopReason::Spent(term)),
        Stop::TooLarge(term) => Some(StopReason::TooLarge(term)),
        Stop::Wide(_) => Some(StopReason::Limit(LimitKind::Spread)),
        Stop::Memory => None,
    }
}
