// Down through choices of the code.

ghost use Rattle.std.specs.Prelude.{◌≡◌, ◌≤◌, IfNone, IfSome};
ghost use Rattle.spec_core.specs.Code.{program_of};
ghost use Rattle.spec_core.specs.Ready.{IsReady};
ghost use Rattle.rule_model.specs.Behaviours.{Behaviour};
ghost use Rattle.rule_origins.specs.Parts.{behaviour_at};
ghost use Rattle.symbolic_plans.specs.Parts.{plan_of_part, rule_count};
ghost use Rattle.node_steps.specs.Sides.{IsSide, TurnsAlike, AsksAlike};
ghost use Rattle.node_steps.specs.Frames.{standing};

use crate::turn::Site;
use rule_origins::code::construct_at;
use spec_core::code::{Checked, CodeNode};
use symbolic_plans::part::{FirstRule, SchemePart};
use symbolic_plans::scheme::Row;

// The number of the side that the rule is over; None where no choice stands at this number, or the rule is another one.
fn side_at(checked: &Checked, number: u32, row: &Row) -> Option<u32>
    requires ready { IsReady (program_of checked.now) }
    ensures some { IfSome result (λ n.
        IsSide row.now (behaviour_at (program_of checked.now) number) (behaviour_at (program_of checked.now) n)) }
    ensures none { IfNone result ((c : Behaviour) → IsSide row.now (behaviour_at (program_of checked.now) number) c → ⊥) }
{
    match construct_at(checked, number) {
        None => None,
        Some(construct) => match construct {
            CodeNode::Choice(left, right) => match row {
                Row::Chl => Some(left.0),
                Row::Chr => Some(right.0),
                _ => None,
            },
            _ => None,
        },
    }
}

// Down the sides of choices with whose rules the part begins: the number that is reached, and the rest of the part. It takes no memory.
fn below_choices<'a>(checked: &Checked, number: u32, part: SchemePart<'a>) -> (u32, SchemePart<'a>)
    requires ready { IsReady (program_of checked.now) }
    ensures turns { TurnsAlike (program_of checked.now) (behaviour_at (program_of checked.now) number) (plan_of_part part.entry)
        (behaviour_at (program_of checked.now) result.0) (plan_of_part result.1) }
    ensures asks { AsksAlike (program_of checked.now) (behaviour_at (program_of checked.now) number) (plan_of_part part.entry)
        (behaviour_at (program_of checked.now) result.0) (plan_of_part result.1) }
    ensures shorter { rule_count (plan_of_part result.1) ≤ rule_count (plan_of_part part.entry) }
{
    let mut place = number;
    let mut rest = part;
    while let FirstRule::Under(row, next) = rest.first() {
        match side_at(checked, place, row) {
            None => return (place, rest),
            Some(side) => {
                place = side;
                rest = next;
            }
        }
    }
    (place, rest)
}

/// Goes down the sides of choices with whose rules the part begins: the behaviour that is reached, and the rest of the part. A side of a
/// choice has the values of the choice, which does what its side does. It takes no memory.
pub fn past_choices<'a>(
    checked: &Checked,
    site: Site,
    part: SchemePart<'a>,
) -> (Site, SchemePart<'a>)
    requires ready { IsReady (program_of checked.now) }
    ensures turns { TurnsAlike (program_of checked.now) (standing (program_of checked.now) site) (plan_of_part part.entry)
        (standing (program_of checked.now) result.0) (plan_of_part result.1) }
    ensures asks { AsksAlike (program_of checked.now) (standing (program_of checked.now) site) (plan_of_part part.entry)
        (standing (program_of checked.now) result.0) (plan_of_part result.1) }
    ensures shorter { rule_count (plan_of_part result.1) ≤ rule_count (plan_of_part part.entry) }
{
    match site {
        Site::At(number) => {
            let (place, rest) = below_choices(checked, number, part);
            (Site::At(place), rest)
        }
        Site::Renamed(pairs, number) => (Site::Renamed(pairs, number), part),
        Site::Called(number, gates, terms) => (Site::Called(number, gates, terms), part),
    }
}
