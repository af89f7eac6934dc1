// Boards of small specifications, and what they tell, as text.

ghost use Rattle.std.specs.Prelude.{◌≤◌, IfOk};
ghost use Rattle.spec_core.specs.Theories.{Theory};
ghost use Rattle.board_core.specs.JobValues.{GivesValues};

use crate::working::BUDGET;
use board_core::board::Board;
use rule_model::log::End;
use rule_model::offer::{Field, Fields, Offer};
use rule_model::reply::{LimitKind, Reply};
use run_settings::settings::{Draw, Settings};
use spec_core::items::{Gate, Sort};
use spec_core::memory::Memory;
use std::alloc::Global;
use test_programs::over_small_data;

/// The number of the first gate.
pub const A: u32 = 0;

/// The number of the second gate.
pub const B: u32 = 1;

/// A board for the specification with this functionality and this behaviour, with so many actions at most, and so many clients. None where
/// it is refused.
pub fn board_of(
    alloc: Global,
    ends: &str,
    behaviour: &str,
    steps: u32,
    clients: u32,
) -> Result<Option<Board>, Memory>
    requires clients { clients ≤ 64 }
{
    let settings = Settings {
        budget: BUDGET,
        values: 2,
        steps,
        seed: 0,
        draw: Draw::Rotation,
    };
    match over_small_data(alloc, ends, behaviour)? {
        None => Ok(None),
        Some(checked) => Ok(Some(Board::new(alloc, checked, settings, clients)?)),
    }
}

/// The offer without values at the gate with a number.
pub fn offer_at(alloc: Global, gate: u32) -> Offer
    ensures { (theory : Theory) → GivesValues theory result }
{
    Offer {
        gate: Gate(gate),
        fields: Fields::new(Vec::new(alloc)),
    }
}

/// The offer of any number at the first gate.
pub fn any_number(alloc: Global) -> Result<Offer, Memory>
    ensures { IfOk result (λ o. (theory : Theory) → GivesValues theory o) }
{
    let mut fields = Vec::new(alloc);
    fields.push(Field::Take(Sort(1)))?;
    Ok(Offer {
        gate: Gate(A),
        fields: Fields::new(fields),
    })
}

fn limit_text(kind: LimitKind) -> &'static str {
    match kind {
        LimitKind::Steps => "limit steps",
        LimitKind::Spread => "limit spread",
        LimitKind::Offers => "limit offers",
    }
}

// The number of actions before a reply, and its word.
fn reply_parts(reply: &Reply) -> (u64, &'static str) {
    match reply {
        Reply::Taken { at, .. } => (*at, "taken"),
        Reply::Deadlock { at } => (*at, "deadlock"),
        Reply::Stalled { at } => (*at, "stalled"),
        Reply::Beyond { at, .. } => (*at, "beyond"),
        Reply::NotNow { at } => (*at, "notnow"),
        Reply::Ended { at } => (*at, "ended"),
        Reply::Spent { at, .. } => (*at, "spent"),
        Reply::TooLarge { at, .. } => (*at, "large"),
        Reply::Limit { at, kind } => (*at, limit_text(*kind)),
    }
}

/// How the offer of this client and number was answered: the number of actions before, and the word of the answer.
pub fn told(
    alloc: Global,
    board: &Board,
    client: u32,
    number: u64,
) -> Result<(u64, &'static str), Memory> {
    match board.reply_of(client, number) {
        None => Ok((0, "nothing")),
        Some(answered) => {
            let reply = answered.to_reply(alloc)?;
            Ok(reply_parts(&reply))
        }
    }
}

/// How many entries the log has then, and the word of the end.
pub fn ended(alloc: Global, board: Board) -> Result<(usize, &'static str), Memory> {
    let (log, end) = board.finish(alloc)?;
    let word = match end {
        None => "undecided",
        Some(End::Exit) => "exit",
        Some(End::Deadlock) => "deadlock",
        Some(End::Waiting) => "waiting",
        Some(End::Beyond) => "beyond",
        Some(End::Spent(_)) => "spent",
        Some(End::TooLarge(_)) => "large",
        Some(End::Limit(kind)) => limit_text(kind),
    };
    Ok((log.as_slice().len(), word))
}
