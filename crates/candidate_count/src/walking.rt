// The walk along a plan in the code: whether an action there has a selection predicate.

ghost use Rattle.std.specs.Prelude.{◌≡◌, IfNone, IfSome, option_map};
ghost use Rattle.std.specs.List.{slice_get};
ghost use Rattle.spec_core.specs.Code.{program_of, synchronised_of};
ghost use Rattle.spec_core.specs.Ready.{IsReady};
ghost use Rattle.rule_model.specs.Behaviours.{parallel};
ghost use Rattle.rule_model.specs.Constructs.{OnParallel};
ghost use Rattle.rule_origins.specs.Parts.{behaviour_at};
ghost use Rattle.symbolic_plans.specs.Parts.{plan_of_part};
ghost use Rattle.candidate_count.specs.Places.{placed};
ghost use Rattle.candidate_count.specs.Predicates as predicates;
ghost use Rattle.candidate_count.specs.Predicates.{body_in, part_under};

use crate::places::Place;
use rule_origins::views::{
    action_at, bound_at, call_at, choice_at, definition_at, disable_at, enable_at, gate_choice_at,
    guarded_at, hide_at, parallel_at, relabel_at, value_choice_at,
};
use spec_core::code::{Checked, GateSet};
use symbolic_plans::part::{FirstRule, SchemePart};
use symbolic_plans::scheme::Row;

// Whether it is an action prefix with a selection predicate.
fn acts_by_predicate(checked: &Checked, place: Place) -> bool
    requires ready { IsReady (program_of checked.now) }
    ensures acts { result ≡ predicates.acts_by_predicate (placed (program_of checked.now) place) }
{
    match place {
        Place::At(number) => match action_at(checked, number) {
            None => false,
            Some((_, _, guard, _)) => match guard {
                None => false,
                Some(_) => true,
            },
        },
        Place::Renamed(_) => false,
        Place::Called(_) => false,
    }
}

// The body of a process, relabelled.
fn body_of(checked: &Checked, process: u32) -> Option<Place>
    ensures body { option_map (placed (program_of checked.now)) result ≡
        body_in (program_of checked.now) (slice_get (program_of checked.now).code process) }
{
    match definition_at(checked, process) {
        None => None,
        Some((_, _, body)) => Some(Place::Renamed(body)),
    }
}

// The part of the behaviour with this number of the code that a rule is over.
fn part_of(checked: &Checked, number: u32, row: &Row) -> Option<Place>
    requires ready { IsReady (program_of checked.now) }
    ensures part { option_map (placed (program_of checked.now)) result ≡
        part_under (program_of checked.now) row.now (behaviour_at (program_of checked.now) number) }
{
    match row {
        Row::Chl => match choice_at(checked, number) {
            None => None,
            Some((left, _)) => Some(Place::At(left)),
        },
        Row::Chr => match choice_at(checked, number) {
            None => None,
            Some((_, right)) => Some(Place::At(right)),
        },
        Row::Val(_) => match value_choice_at(checked, number) {
            None => None,
            Some((_, _, body)) => Some(Place::At(body)),
        },
        Row::Gate(_) => match gate_choice_at(checked, number) {
            None => None,
            Some((_, _, body)) => Some(Place::Renamed(body)),
        },
        Row::Guard => match guarded_at(checked, number) {
            None => None,
            Some((_, _, body)) => Some(Place::At(body)),
        },
        Row::Let => match bound_at(checked, number) {
            None => None,
            Some((_, body)) => Some(Place::At(body)),
        },
        Row::Parl => match parallel_at(checked, number) {
            None => None,
            Some((_, left, _)) => Some(Place::At(left)),
        },
        Row::Parr => match parallel_at(checked, number) {
            None => None,
            Some((_, _, right)) => Some(Place::At(right)),
        },
        Row::Pass => match hide_at(checked, number) {
            None => None,
            Some((_, body)) => Some(Place::At(body)),
        },
        Row::Enstep => match enable_at(checked, number) {
            None => None,
            Some((left, _, _)) => Some(Place::At(left)),
        },
        Row::Disstep | Row::Disend => match disable_at(checked, number) {
            None => None,
            Some((left, _)) => Some(Place::At(left)),
        },
        Row::Distake => match disable_at(checked, number) {
            None => None,
            Some((_, right)) => Some(Place::At(right)),
        },
        Row::Call => match call_at(checked, number) {
            None => None,
            Some((process, _, _)) => body_of(checked, process),
        },
        Row::Rel => match relabel_at(checked, number) {
            None => None,
            Some((_, body)) => Some(Place::At(body)),
        },
    }
}

// The same of a behaviour under a relabelling.
fn part_of_renamed(checked: &Checked, number: u32, row: &Row) -> Option<Place>
    ensures part { option_map (placed (program_of checked.now)) result ≡
        part_under (program_of checked.now) row.now (placed (program_of checked.now) (Place.Renamed number)) }
{
    match row {
        Row::Rel => Some(Place::At(number)),
        _ => None,
    }
}

// The same of a call.
fn part_of_call(checked: &Checked, process: u32, row: &Row) -> Option<Place>
    ensures part { option_map (placed (program_of checked.now)) result ≡
        part_under (program_of checked.now) row.now (placed (program_of checked.now) (Place.Called process)) }
{
    match row {
        Row::Call => body_of(checked, process),
        _ => None,
    }
}

// The part that a rule is over.
fn part_at(checked: &Checked, place: Place, row: &Row) -> Option<Place>
    requires ready { IsReady (program_of checked.now) }
    ensures part { option_map (placed (program_of checked.now)) result ≡
        part_under (program_of checked.now) row.now (placed (program_of checked.now) place) }
{
    match place {
        Place::At(number) => part_of(checked, number, row),
        Place::Renamed(number) => part_of_renamed(checked, number, row),
        Place::Called(process) => part_of_call(checked, process, row),
    }
}

// The gates and the numbers of the sides of a parallel composition.
fn sides_at(checked: &Checked, place: Place) -> Option<(&GateSet, u32, u32)>
    requires ready { IsReady (program_of checked.now) }
    ensures some { IfSome result (λ r. placed (program_of checked.now) place ≡
        parallel (synchronised_of r.0.now) (behaviour_at (program_of checked.now) r.1) (behaviour_at (program_of checked.now) r.2)) }
    ensures none { IfNone result (OnParallel (placed (program_of checked.now) place) (λ gates left right. Unit {0}) → ⊥) }
{
    match place {
        Place::At(number) => parallel_at(checked, number),
        Place::Renamed(_) => None,
        Place::Called(_) => None,
    }
}

/// Whether along a plan an action prefix of the behaviour has a selection predicate. It takes no memory, and recurs as deep as the plan is.
#[cycle(has_predicate)]
pub fn has_predicate(checked: &Checked, place: Place, part: SchemePart<'_>) -> bool
    requires ready { IsReady (program_of checked.now) }
    ensures predicate { result ≡
        predicates.has_predicate (program_of checked.now) (plan_of_part part.entry) (placed (program_of checked.now) place) }
{
    match part.first() {
        FirstRule::Pre(_) => acts_by_predicate(checked, place),
        FirstRule::Int => false,
        FirstRule::Exit(_) => false,
        FirstRule::Under(row, rest) => in_part(checked, part_at(checked, place, row), rest),
        FirstRule::Hide(_, body) => {
            in_part(checked, part_at(checked, place, &Row::Pass), body.whole())
        }
        FirstRule::Enend(_, left) => {
            in_part(checked, part_at(checked, place, &Row::Enstep), left.whole())
        }
        FirstRule::Both(left, right) => match sides_at(checked, place) {
            None => false,
            Some((_, one, other)) => {
                has_predicate(checked, Place::At(one), left.whole())
                    || has_predicate(checked, Place::At(other), right.whole())
            }
        },
    }
}

// The same of a part, if there is one.
#[cycle(has_predicate)]
fn in_part(checked: &Checked, place: Option<Place>, part: SchemePart<'_>) -> bool
    requires ready { IsReady (program_of checked.now) }
    ensures predicate { result ≡ predicates.in_part (option_map (placed (program_of checked.now)) place)
        (predicates.has_predicate (program_of checked.now) (plan_of_part part.entry)) }
{
    match place {
        None => false,
        Some(inner) => has_predicate(checked, inner, part),
    }
}
