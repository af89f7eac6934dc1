// What a tree of nodes shows by a tree of rules, as far as it is known.

ghost use Rattle.std.specs.Prelude.{◌≡◌, ◌↔◌, ◌++◌, [], IfOk, IsTrue, Some, None, map, option_map};
ghost use Rattle.spec_core.specs.Code.{synchronised_of};
ghost use Rattle.spec_core.specs.Theories.{theory_of};
ghost use Rattle.rule_model.specs.Derivations.{derivation_of};
ghost use Rattle.decision_trees.specs.Known.{unless_known};
ghost use Rattle.decision_trees.specs.Lazy.{first};
ghost use Rattle.symbolic_rules.specs.Tables.{windows_in};
ghost use Rattle.symbolic_actions.specs.Models.{show_of};
ghost use Rattle.node_trees.specs.Shapes.{shape_of};
ghost use Rattle.candidate_verdicts.specs.Models.{part_rule_of};
ghost use Rattle.candidate_verdicts.specs.Known.{known_over, known_together, known_show, node_part, missing_parts};
ghost use Rattle.candidate_verdicts.specs.Stored.{known_of, stored, node_part_of};

use crate::pieces::{NodeRules, Pieces};
use crate::rule::{PartRule, Sides, over_part, part_under, sides_under};
use node_trees::branch::Branch;
use node_trees::origin::Gen;
use rule_model::rules::Rules;
use spec_core::code::GateSet;
use spec_core::equation::DataSpec;
use spec_core::memory::Memory;
use spec_core::window::Window;
use std::alloc::Global;
use symbolic_actions::over::both;
use symbolic_actions::shown::Shown;

// What is known of a node.
fn known_at(
    alloc: Global,
    pieces: &Pieces,
    generation: Gen,
    rules: &Rules,
) -> Result<Option<Option<Shown>>, Memory>
    ensures { IfOk result (λ o. known_of o ≡ stored pieces.now generation.0 (derivation_of rules.now)) }
{
    match pieces.find(generation, rules) {
        None => Ok(None),
        Some(None) => Ok(Some(None)),
        Some(Some(shown)) => Ok(Some(Some(shown.copy(alloc)?))),
    }
}

// What is known of the whole by a rule over a part.
fn over(
    alloc: Global,
    algebra: &DataSpec,
    windows: &[Window],
    rule: PartRule<'_>,
    part: Option<Option<Shown>>,
) -> Option<Option<Shown>>
    ensures { known_of result ≡
        known_over (theory_of algebra.now) (windows_in windows.now) (part_rule_of rule.entry) (known_of part) }
{
    match part {
        None => None,
        Some(None) => Some(None),
        Some(Some(shown)) => Some(over_part(alloc, algebra, windows, rule, shown)),
    }
}

// Whether it is known that nothing is shown.
fn shows_nothing(known: &Option<Option<Shown>>) -> bool
    ensures { IsTrue result ↔ (known_of known.now ≡ Some None) }
{
    match known {
        None => false,
        Some(None) => true,
        Some(Some(_)) => false,
    }
}

// What is known of a parallel composition whose sides act together.
fn together(
    alloc: Global,
    algebra: &DataSpec,
    windows: &[Window],
    gates: &GateSet,
    left: &Option<Option<Shown>>,
    right: &Option<Option<Shown>>,
) -> Result<Option<Option<Shown>>, Memory>
    ensures { IfOk result (λ o. known_of o ≡
        known_together (theory_of algebra.now) (windows_in windows.now) (synchronised_of gates.now) (known_of left.now)
        (known_of right.now)) }
{
    match left {
        Some(None) => Ok(Some(None)),
        None => match right {
            Some(None) => Ok(Some(None)),
            None | Some(Some(_)) => Ok(None),
        },
        Some(Some(one)) => match right {
            None => Ok(None),
            Some(None) => Ok(Some(None)),
            Some(Some(other)) => Ok(Some(both(alloc, algebra, gates, one, other)?)),
        },
    }
}

/// What is known of what a tree of nodes shows by a tree of rules: None, nothing; Some(None), that it shows nothing. It recurs as deep as
/// operators nest.
pub fn shown_over(
    alloc: Global,
    algebra: &DataSpec,
    windows: &[Window],
    pieces: &Pieces,
    branch: &Branch,
    rules: &Rules,
) -> Result<Option<Option<Shown>>, Memory>
    ensures shown { IfOk result (λ o. known_of o ≡
        known_show (theory_of algebra.now) (windows_in windows.now) (stored pieces.now) (shape_of branch.now) (derivation_of rules.now)) }
{
    match branch {
        Branch::Leaf(node) => known_at(alloc, pieces, node.generation, rules),
        Branch::Ended => Ok(Some(None)),
        Branch::Over(operator, part) => match part_under(operator, rules) {
            None => Ok(Some(None)),
            Some(below) => {
                let known = shown_over(alloc, algebra, windows, pieces, part, below.rules)?;
                Ok(over(alloc, algebra, windows, below.rule, known))
            }
        },
        Branch::Between(operator, left, right) => match sides_under(operator, rules) {
            Sides::Neither => Ok(Some(None)),
            Sides::Left(side) => {
                let known = shown_over(alloc, algebra, windows, pieces, left, side.rules)?;
                Ok(over(alloc, algebra, windows, side.rule, known))
            }
            Sides::Right(side) => {
                let known = shown_over(alloc, algebra, windows, pieces, right, side.rules)?;
                Ok(over(alloc, algebra, windows, side.rule, known))
            }
            Sides::Both(gates, one, other) => {
                let first = shown_over(alloc, algebra, windows, pieces, left, one)?;
                if shows_nothing(&first) {
                    return Ok(Some(None));
                }
                let second = shown_over(alloc, algebra, windows, pieces, right, other)?;
                together(alloc, algebra, windows, gates, &first, &second)
            }
        },
    }
}

/// The first part of a tree of rules, from the left, at a node of which nothing is known. It takes no memory, and recurs as deep as
/// operators nest.
pub fn first_missing<'a>(
    pieces: &Pieces,
    branch: &'a Branch,
    rules: &'a Rules,
) -> Option<NodeRules<'a>>
    ensures first { option_map node_part_of result ≡
        first (missing_parts (stored pieces.now) (shape_of branch.now) (derivation_of rules.now)) }
{
    match branch {
        Branch::Leaf(node) => match pieces.find(node.generation, rules) {
            None => Some(NodeRules {
                generation: node.generation,
                rules,
            }),
            Some(_) => None,
        },
        Branch::Ended => None,
        Branch::Over(operator, part) => match part_under(operator, rules) {
            None => None,
            Some(below) => first_missing(pieces, part, below.rules),
        },
        Branch::Between(operator, left, right) => match sides_under(operator, rules) {
            Sides::Neither => None,
            Sides::Left(side) => first_missing(pieces, left, side.rules),
            Sides::Right(side) => first_missing(pieces, right, side.rules),
            Sides::Both(_, one, other) => match first_missing(pieces, left, one) {
                Some(missing) => Some(missing),
                None => first_missing(pieces, right, other),
            },
        },
    }
}

// Appends a part, where nothing is known of it.
fn put_unknown<'a>(
    pieces: &Pieces,
    generation: Gen,
    rules: &'a Rules,
    all: &mut Vec<NodeRules<'a>>,
) -> Result<(), Memory>
    ensures { IfOk result (λ _. map node_part_of all.new.items ≡
        map node_part_of all.old.items ++
        unless_known (stored pieces.now generation.0 (derivation_of rules.now)) (node_part generation.0 (derivation_of rules.now)) []) }
{
    match pieces.find(generation, rules) {
        None => {
            all.push(NodeRules { generation, rules })?;
            Ok(())
        }
        Some(_) => Ok(()),
    }
}

/// Appends the parts of a tree of rules at nodes of which nothing is known, from the left. It recurs as deep as operators nest.
pub fn put_missing<'a>(
    pieces: &Pieces,
    branch: &'a Branch,
    rules: &'a Rules,
    all: &mut Vec<NodeRules<'a>>,
) -> Result<(), Memory>
    ensures missing { IfOk result (λ _. map node_part_of all.new.items ≡
        map node_part_of all.old.items ++ missing_parts (stored pieces.now) (shape_of branch.now) (derivation_of rules.now)) }
{
    match branch {
        Branch::Leaf(node) => put_unknown(pieces, node.generation, rules, all),
        Branch::Ended => Ok(()),
        Branch::Over(operator, part) => match part_under(operator, rules) {
            None => Ok(()),
            Some(below) => put_missing(pieces, part, below.rules, all),
        },
        Branch::Between(operator, left, right) => match sides_under(operator, rules) {
            Sides::Neither => Ok(()),
            Sides::Left(side) => put_missing(pieces, left, side.rules, all),
            Sides::Right(side) => put_missing(pieces, right, side.rules, all),
            Sides::Both(_, one, other) => {
                put_missing(pieces, left, one, all)?;
                put_missing(pieces, right, other, all)
            }
        },
    }
}
