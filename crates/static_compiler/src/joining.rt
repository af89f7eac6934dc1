// What stands behind two parts.

ghost use Rattle.std.specs.Prelude.{◌≡◌, Some, None, ◌++◌, ◌∷◌, [], Option, OnOk, IfOk, List, map, option_map, nat_eq};
ghost use Rattle.std.specs.Cmp.Lexicographic.{pointwise};
ghost use Rattle.static_readings.specs.Joins.{Read, refused_if_none};
ghost use Rattle.static_readings.specs.Readings.{accepting};
ghost use Rattle.static_readings.specs.Views.{functionality_of, output_of};
ghost use Rattle.static_compiler.specs.Frames as frames;
ghost use Rattle.static_compiler.specs.Parts.{StandBoth, AreJoined};
ghost use Rattle.static_compiler.specs.Views.{joining_of};
ghost use Rattle.spec_core.specs.Code.{Node, node_of, variable_of};
ghost use Rattle.spec_core.specs.Functionality.{sort_of_variable};
ghost use Rattle.spec_core.specs.Numbers.{sort_number};

use crate::read_part::ReadPart;
use lotos_ast::place::Place;
use lotos_ast::refusal::RefusalKind;
use spec_core::code::{CodeNode, GateSet, Part};
use spec_core::items::Sort;
use spec_core::memory::Memory;
use static_readings::functionality::{Functionality, both, either};
use static_readings::output::Output;
use std::alloc::Global;

/// What stands behind two parts.
#[derive(Drop)]
pub enum Joining {
    Choice,
    Disable,
    Parallel(GateSet),
    Enable(Vec<(u32, Sort)>),
}

// Whether sorts are those of variables.
fn are_sorts_of(sorts: &[Sort], vars: &[(u32, Sort)]) -> bool
    ensures { result ≡ pointwise nat_eq (map sort_number sorts.now) (map sort_of_variable (map variable_of vars.now)) }
{
    match sorts {
        [] => vars.is_empty(),
        [first, rest @ ..] => match vars {
            [] => false,
            [var, others @ ..] => first.0 == var.1.0 && are_sorts_of(rest, others),
        },
    }
}

// How an enabling ends, if its left part hands on what the variables take.
fn accepting(
    left: Functionality,
    vars: &[(u32, Sort)],
    right: Functionality,
) -> Option<Functionality>
    ensures { option_map functionality_of result ≡ accepting (functionality_of left) (map variable_of vars.now) (functionality_of right) }
{
    match left {
        Functionality::NoExit => Some(right),
        Functionality::Exits(sorts) => {
            if are_sorts_of(&sorts, vars) {
                Some(right)
            } else {
                None
            }
        }
    }
}

impl Joining {
    // How two parts end together, if they may stand together.
    fn together(&self, left: Functionality, right: Functionality) -> Option<Functionality>
        ensures { option_map functionality_of result
            ≡ frames.together (joining_of self.now) (functionality_of left) (functionality_of right) }
    {
        match self {
            Joining::Choice => either(left, right),
            Joining::Disable => either(left, right),
            Joining::Parallel(_) => both(left, right),
            Joining::Enable(vars) => accepting(left, vars, right),
        }
    }

    // The node behind the parts of these numbers.
    fn behind(self, left: Part, right: Part) -> CodeNode
        ensures { node_of result ≡ frames.node_behind (joining_of self) left.0 right.0 }
    {
        match self {
            Joining::Choice => CodeNode::Choice(left, right),
            Joining::Disable => CodeNode::Disable(left, right),
            Joining::Parallel(gates) => CodeNode::Par(gates, left, right),
            Joining::Enable(vars) => CodeNode::Enable(left, vars, right),
        }
    }
}

// Puts out the node behind two parts that end together in this way; where they may not stand together, that is refused.
fn put_joined(
    alloc: Global,
    place: Place,
    node: CodeNode,
    from: usize,
    ends: Option<Functionality>,
    out: &mut Output,
) -> Result<Option<Functionality>, Memory>
    ensures ends { IfOk result (λ found. option_map functionality_of found ≡ option_map functionality_of ends) }
    ensures code { OnOk result ((output_of out.new).code
        ≡ frames.with_node (option_map functionality_of ends) from (node_of node) (output_of out.old).code) }
    ensures refusals { OnOk result ((output_of out.new).refusals
        ≡ (output_of out.old).refusals ++ refused_if_none (option_map functionality_of ends) place) }
{
    match ends {
        None => {
            out.refuse(alloc, RefusalKind::WrongFunctionality, place)?;
            out.truncate(from);
            Ok(None)
        }
        Some(ends) => {
            out.push(node)?;
            Ok(Some(ends))
        }
    }
}

// What stands behind two parts, and how they end together, where nothing hinders it.
fn ready(
    joining: Option<Joining>,
    left: Option<Functionality>,
    right: Option<Functionality>,
) -> Option<(Joining, Option<Functionality>)>
    ensures { option_map (λ r. (joining_of r.0, option_map functionality_of r.1)) result
        ≡ frames.ready (option_map joining_of joining) (option_map functionality_of left) (option_map functionality_of right) }
{
    match (joining, left, right) {
        (Some(joining), Some(left), Some(right)) => {
            let ends = joining.together(left, right);
            Some((joining, ends))
        }
        _ => None,
    }
}

/// Puts out what stands behind two parts. Where they may not stand together, that is refused at this place (25 WrongFunctionality); there,
/// and where something else hinders it, nothing is left of them.
#[tactic(auto, using(crate::proofs::Joined::none_joined, crate::proofs::Joined::some_joined))]
#[inline(never)]
pub fn join(
    alloc: Global,
    place: Place,
    joining: Option<Joining>,
    first: ReadPart,
    second: ReadPart,
    out: &mut Output,
) -> Result<Option<Functionality>, Memory>
    ensures { IfOk result (λ ends. (base : List Node) (x y : Option Read) → StandBoth base x y (output_of out.old).code first second →
        AreJoined base place (option_map joining_of joining) x y (output_of out.old) (output_of out.new)
        (option_map functionality_of ends)) }
{
    let ReadPart {
        from,
        last: left,
        ends: left_ends,
    } = first;
    let ReadPart {
        from: _,
        last: right,
        ends: right_ends,
    } = second;
    match ready(joining, left_ends, right_ends) {
        None => {
            out.truncate(from);
            Ok(None)
        }
        Some((joining, ends)) => {
            put_joined(alloc, place, joining.behind(left, right), from, ends, out)
        }
    }
}
