// The part that a rule over one part is over, and what stands round it.

ghost use Rattle.std.specs.Prelude.{◌≡◌, option_map};
ghost use Rattle.rule_model.specs.Behaviours.{behaviour_of};
ghost use Rattle.rule_model.specs.Derivations.{derivation_of};
ghost use Rattle.rule_walk.specs.Frames.{framed, part_under};
ghost use Rattle.rule_walk.specs.Models.{framed_in, surrounding_of};

use rule_model::beh::Beh;
use rule_model::rules::Rules;
use spec_core::code::GateSet;
use spec_core::items::{Gate, Sort};

/// What stands round a part that acts, with what the rule asks of it.
#[derive(Clone, Copy)]
pub enum Frame<'a> {
    Same,
    BesideRight(&'a GateSet, &'a Beh),
    BesideLeft(&'a GateSet, &'a Beh),
    Hidden(&'a [Gate]),
    Passing(&'a [Gate]),
    Enabling(&'a [(u32, Sort)], &'a Beh),
    Handing(&'a [(u32, Sort)], &'a Beh),
    Disabling(&'a Beh),
    Ending,
    Renamed(&'a [(Gate, Gate)]),
}

/// A part, with what stands round it.
#[derive(Clone, Copy)]
pub struct Framed<'a> {
    pub frame: Frame<'a>,
    pub part: &'a Beh,
}

// A part with what stands round it.
fn in_frame<'a>(frame: Frame<'a>, part: &'a Beh) -> Framed<'a>
    ensures { framed_in result ≡ framed (surrounding_of frame.entry) (behaviour_of part.now) }
{
    Framed { frame, part }
}

/// The part that the rule at the root is over; None where the rule isn't over one part alone, has more to ask than what the part does, or
/// is about another construct. It takes no memory.
pub fn part_under<'a>(from: &'a Beh, rules: &Rules) -> Option<Framed<'a>>
    ensures part { option_map framed_in result ≡ part_under (behaviour_of from.now) (derivation_of rules.now) }
{
    match from {
        Beh::Choice(left, right) => match rules {
            Rules::Chl(_) => Some(in_frame(Frame::Same, left)),
            Rules::Chr(_) => Some(in_frame(Frame::Same, right)),
            _ => None,
        },
        Beh::Par(gates, left, right) => match rules {
            Rules::Parl(_) => Some(in_frame(Frame::BesideRight(gates, right), left)),
            Rules::Parr(_) => Some(in_frame(Frame::BesideLeft(gates, left), right)),
            _ => None,
        },
        Beh::Hide(gates, body) => match rules {
            Rules::Hide(_) => Some(in_frame(Frame::Hidden(gates), body)),
            Rules::Pass(_) => Some(in_frame(Frame::Passing(gates), body)),
            _ => None,
        },
        Beh::Enable(left, vars, right) => match rules {
            Rules::Enstep(_) => Some(in_frame(Frame::Enabling(vars, right), left)),
            Rules::Enend(_) => Some(in_frame(Frame::Handing(vars, right), left)),
            _ => None,
        },
        Beh::Disable(left, right) => match rules {
            Rules::Disstep(_) => Some(in_frame(Frame::Disabling(right), left)),
            Rules::Disend(_) => Some(in_frame(Frame::Ending, left)),
            Rules::Distake(_) => Some(in_frame(Frame::Same, right)),
            _ => None,
        },
        Beh::Relabel(pairs, body) => match rules {
            Rules::Rel(_) => Some(in_frame(Frame::Renamed(pairs), body)),
            _ => None,
        },
        Beh::Stop
        | Beh::Exit(..)
        | Beh::Inner(..)
        | Beh::Act { .. }
        | Beh::Guard(..)
        | Beh::Let(..)
        | Beh::Values(..)
        | Beh::Gates(..)
        | Beh::Call { .. } => None,
    }
}
