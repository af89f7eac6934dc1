// Rules over parts of operators.

ghost use Rattle.std.specs.Prelude.{◌≡◌, option_map};
ghost use Rattle.spec_core.specs.Theories.{theory_of};
ghost use Rattle.symbolic_rules.specs.Tables.{windows_in};
ghost use Rattle.symbolic_actions.specs.Models.{show_of};
ghost use Rattle.symbolic_actions.specs.Shows as shows;
ghost use Rattle.candidate_verdicts.specs.Models.{part_rule_of, part_in, sides_in};
ghost use Rattle.candidate_verdicts.specs.Parts as parts;
ghost use Rattle.rule_model.specs.Derivations.{derivation_of};
ghost use Rattle.node_trees.specs.Shapes.{unary_of, binary_of};

use node_trees::branch::{Double, Single};
use rule_model::rules::Rules;
use spec_core::code::GateSet;
use spec_core::equation::DataSpec;
use spec_core::items::{Gate, Sort};
use spec_core::window::Window;
use std::alloc::Global;
use symbolic_actions::over::{alone, going_on, handed, hidden, relabelled, seen, terminated};
use symbolic_actions::shown::Shown;

/// A rule over one part of an operator, with what the operator has that the rule asks.
#[derive(Clone, Copy)]
pub enum PartRule<'a> {
    OfLeft,
    OfRight,
    LeftAlone(&'a GateSet),
    RightAlone(&'a GateSet),
    HiddenIn(&'a [Gate]),
    SeenIn(&'a [Gate]),
    BeforeEnd,
    HandedTo(&'a [(u32, Sort)]),
    Undisabled,
    Ended,
    Disabling,
    RenamedBy(&'a [(Gate, Gate)]),
}

/// A rule over one part of an operator, and the tree of rules of that part.
#[derive(Clone, Copy)]
pub struct RuledPart<'a> {
    pub rule: PartRule<'a>,
    pub rules: &'a Rules,
}

/// Which sides of an operator act by a tree of rules.
#[derive(Clone, Copy)]
pub enum Sides<'a> {
    /// The tree's rule isn't about this operator.
    Neither,
    Left(RuledPart<'a>),
    Right(RuledPart<'a>),
    /// Both sides together, by their trees.
    Both(&'a GateSet, &'a Rules, &'a Rules),
}

// A rule with the tree of its part.
fn ruled<'a>(rule: PartRule<'a>, rules: &'a Rules) -> RuledPart<'a>
    ensures { part_in result ≡ parts.ruled (part_rule_of rule.entry) (derivation_of rules.now) }
{
    RuledPart { rule, rules }
}

/// The rule of a tree over the part of an operator; None where the tree's rule isn't about this operator. It takes no memory.
pub fn part_under<'a>(operator: &'a Single, rules: &'a Rules) -> Option<RuledPart<'a>>
    ensures part { option_map part_in result ≡ parts.part_under (unary_of operator.now) (derivation_of rules.now) }
{
    match operator {
        Single::Hide(gates) => match rules {
            Rules::Hide(part) => Some(ruled(PartRule::HiddenIn(gates), part)),
            Rules::Pass(part) => Some(ruled(PartRule::SeenIn(gates), part)),
            _ => None,
        },
        Single::Relabel(pairs) => match rules {
            Rules::Rel(part) => Some(ruled(PartRule::RenamedBy(pairs), part)),
            _ => None,
        },
        Single::Enable { vars, .. } => match rules {
            Rules::Enstep(part) => Some(ruled(PartRule::BeforeEnd, part)),
            Rules::Enend(part) => Some(ruled(PartRule::HandedTo(vars), part)),
            _ => None,
        },
    }
}

/// The sides of an operator that act by a tree of rules. It takes no memory.
pub fn sides_under<'a>(operator: &'a Double, rules: &'a Rules) -> Sides<'a>
    ensures sides { sides_in result ≡ parts.sides_under (binary_of operator.now) (derivation_of rules.now) }
{
    match operator {
        Double::Choice => match rules {
            Rules::Chl(part) => Sides::Left(ruled(PartRule::OfLeft, part)),
            Rules::Chr(part) => Sides::Right(ruled(PartRule::OfRight, part)),
            _ => Sides::Neither,
        },
        Double::Par(gates) => match rules {
            Rules::Parl(part) => Sides::Left(ruled(PartRule::LeftAlone(gates), part)),
            Rules::Parr(part) => Sides::Right(ruled(PartRule::RightAlone(gates), part)),
            Rules::Both(left, right) => Sides::Both(gates, left, right),
            _ => Sides::Neither,
        },
        Double::Disable => match rules {
            Rules::Disstep(part) => Sides::Left(ruled(PartRule::Undisabled, part)),
            Rules::Disend(part) => Sides::Left(ruled(PartRule::Ended, part)),
            Rules::Distake(part) => Sides::Right(ruled(PartRule::Disabling, part)),
            _ => Sides::Neither,
        },
    }
}

/// What the whole shows by a rule, from what the part shows.
pub fn over_part(
    alloc: Global,
    algebra: &DataSpec,
    windows: &[Window],
    rule: PartRule<'_>,
    part: Shown,
) -> Option<Shown>
    ensures over { option_map show_of result ≡
        shows.over_part (theory_of algebra.now) (windows_in windows.now) (part_rule_of rule.entry) (show_of part) }
{
    match rule {
        PartRule::OfLeft => Some(part),
        PartRule::OfRight => Some(part),
        PartRule::LeftAlone(gates) => alone(gates, part),
        PartRule::RightAlone(gates) => alone(gates, part),
        PartRule::HiddenIn(gates) => hidden(alloc, algebra, windows, gates, &part),
        PartRule::SeenIn(gates) => seen(gates, part),
        PartRule::BeforeEnd => going_on(part),
        PartRule::HandedTo(vars) => handed(alloc, algebra, windows, vars, &part),
        PartRule::Undisabled => going_on(part),
        PartRule::Ended => terminated(part),
        PartRule::Disabling => Some(part),
        PartRule::RenamedBy(pairs) => Some(relabelled(pairs, part)),
    }
}
