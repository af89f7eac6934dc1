// Where a log answers an offer.

ghost use Rattle.std.specs.Prelude.{◌+◌, ◌≡◌, ◌≤◌, ◌<◌, ◌^◌, None, length, map, option_map};
ghost use Rattle.rule_model.specs.Events.{event_of};
ghost use Rattle.session_board.specs.Answers.{first_answer};
ghost use Rattle.session_board.specs.Lines.{actions_after};
ghost use Rattle.session_board.specs.Spots.{found_at};

use crate::spot::Spot;
use board_record::{Answered, actions_with, reply_in};
use rule_model::log::Entry;

/// The first answer to the offer of a name in a log, before which there were so many lines and actions, and where it stands; or the end of
/// the log. It takes no memory.
pub fn answer_from<'a>(
    log: &'a [Entry],
    name: (u32, u64),
    from: Spot,
) -> (Spot, Option<Answered<'a>>)
    requires few { from.actions ≤ from.lines }
    requires small { from.lines + length log.now < 2 ^ 64 }
    ensures found { option_map (found_at result.0) result.1 ≡ first_answer from.lines from.actions (map event_of log.now) name }
    ensures none { result.1 ≡ None → (result.0.lines ≡ from.lines + length log.now)
        × (result.0.actions ≡ actions_after from.actions (map event_of log.now)) }
{
    let mut spot = from;
    for entry in log {
        let answered = reply_in(spot.actions, entry, name);
        spot = Spot {
            lines: spot.lines + 1,
            actions: actions_with(spot.actions, entry),
        };
        if answered.is_some() {
            return (spot, answered);
        }
    }
    (spot, None)
}

/// The end of a log, before which there were so many lines and actions. It takes no memory.
pub fn end_from(log: &[Entry], from: Spot) -> Spot
    requires few { from.actions ≤ from.lines }
    requires small { from.lines + length log.now < 2 ^ 64 }
    ensures lines { result.lines ≡ from.lines + length log.now }
    ensures actions { result.actions ≡ actions_after from.actions (map event_of log.now) }
{
    let mut actions = from.actions;
    for entry in log {
        actions = actions_with(actions, entry);
    }
    Spot {
        lines: from.lines + log.len() as u64,
        actions,
    }
}
