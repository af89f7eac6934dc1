// Whether two trees of rules are one.

ghost use Rattle.std.specs.Prelude.{◌≡◌};
ghost use Rattle.rule_model.specs.Derivations.{derivation_of};
ghost use Rattle.candidate_verdicts.specs.Same as same;

use rule_model::rules::{Rules, Slot};

// Whether two chosen values are one.
fn same_slot(left: &Slot, right: &Slot) -> bool
    ensures { result ≡ same.same_slot left.now right.now }
{
    match left {
        Slot::Of(value) => match right {
            Slot::Of(other) => value.same(other),
            Slot::Mark | Slot::Blank => false,
        },
        Slot::Mark => match right {
            Slot::Mark => true,
            Slot::Of(_) | Slot::Blank => false,
        },
        Slot::Blank => match right {
            Slot::Blank => true,
            Slot::Of(_) | Slot::Mark => false,
        },
    }
}

// The same of lists of them.
fn same_slots(left: &[Slot], right: &[Slot]) -> bool
    ensures { result ≡ same.same_slots left.now right.now }
{
    match left {
        [] => match right {
            [] => true,
            [_, ..] => false,
        },
        [first, rest @ ..] => match right {
            [] => false,
            [other, others @ ..] => same_slot(first, other) && same_slots(rest, others),
        },
    }
}

/// Whether two trees of rules are one. It takes no memory.
pub fn same_rules(left: &Rules, right: &Rules) -> bool
    ensures same { result ≡ same.same_rules (derivation_of left.now) (derivation_of right.now) }
{
    match left {
        Rules::Pre(slots) => match right {
            Rules::Pre(others) => same_slots(slots.as_slice(), others.as_slice()),
            _ => false,
        },
        Rules::Int => match right {
            Rules::Int => true,
            _ => false,
        },
        Rules::Exit(slots) => match right {
            Rules::Exit(others) => same_slots(slots.as_slice(), others.as_slice()),
            _ => false,
        },
        Rules::Chl(part) => match right {
            Rules::Chl(other) => same_rules(part, other),
            _ => false,
        },
        Rules::Chr(part) => match right {
            Rules::Chr(other) => same_rules(part, other),
            _ => false,
        },
        Rules::Val(slot, part) => match right {
            Rules::Val(chosen, other) => same_slot(slot, chosen) && same_rules(part, other),
            _ => false,
        },
        Rules::Gate(place, part) => match right {
            Rules::Gate(chosen, other) => *place == *chosen && same_rules(part, other),
            _ => false,
        },
        Rules::Guard(part) => match right {
            Rules::Guard(other) => same_rules(part, other),
            _ => false,
        },
        Rules::Let(part) => match right {
            Rules::Let(other) => same_rules(part, other),
            _ => false,
        },
        Rules::Parl(part) => match right {
            Rules::Parl(other) => same_rules(part, other),
            _ => false,
        },
        Rules::Parr(part) => match right {
            Rules::Parr(other) => same_rules(part, other),
            _ => false,
        },
        Rules::Both(one, two) => match right {
            Rules::Both(first, second) => same_rules(one, first) && same_rules(two, second),
            _ => false,
        },
        Rules::Hide(part) => match right {
            Rules::Hide(other) => same_rules(part, other),
            _ => false,
        },
        Rules::Pass(part) => match right {
            Rules::Pass(other) => same_rules(part, other),
            _ => false,
        },
        Rules::Enstep(part) => match right {
            Rules::Enstep(other) => same_rules(part, other),
            _ => false,
        },
        Rules::Enend(part) => match right {
            Rules::Enend(other) => same_rules(part, other),
            _ => false,
        },
        Rules::Disstep(part) => match right {
            Rules::Disstep(other) => same_rules(part, other),
            _ => false,
        },
        Rules::Disend(part) => match right {
            Rules::Disend(other) => same_rules(part, other),
            _ => false,
        },
        Rules::Distake(part) => match right {
            Rules::Distake(other) => same_rules(part, other),
            _ => false,
        },
        Rules::Call(part) => match right {
            Rules::Call(other) => same_rules(part, other),
            _ => false,
        },
        Rules::Rel(part) => match right {
            Rules::Rel(other) => same_rules(part, other),
            _ => false,
        },
    }
}
