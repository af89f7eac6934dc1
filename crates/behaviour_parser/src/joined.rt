// The trees of behaviours, of their parts in boxes.

ghost use Rattle.std.specs.Prelude.{◌≡◌, box_value, IfOk};
ghost use Rattle.lotos_ast.specs.Reads.{unkept, both, absent, present, left, node};
ghost use Rattle.lotos_ast.specs.ListTrees.{behind, between};
ghost use Rattle.lotos_ast.specs.BehaviourTrees.{behaviour_tree, disable_tree, parallel_tree, choice_tree, unary_tree};
ghost use Rattle.lotos_ast.specs.BehaviourTrees.{operator_tree, accepts_tree, atomic_tree};

use lotos_ast::behaviour::{
    Atom, Behaviour, Choice, Choosing, Composing, Disable, Disabling, Enabling, Operator, Parallel,
    Unary,
};
use lotos_ast::declaration::Declarations;
use lotos_ast::place::Place;
use spec_core::memory::Memory;
use std::alloc::Global;

// A behaviour without `>>`.
#[inline(never)]
pub fn behaviour_alone(
    alloc: Global,
    place: Place,
    first: Box<Disable>,
) -> Result<Box<Behaviour>, Memory>
    ensures tree { IfOk result (λ all. behaviour_tree (box_value all) ≡ node place (both (disable_tree (box_value first)) absent)) }
{
    let all = Behaviour::new(place, Box::into_inner(first), None);
    Ok(Box::new(alloc, all)?)
}

// A behaviour with `>>`.
#[inline(never)]
pub fn enabled(
    alloc: Global,
    place: Place,
    first: Box<Disable>,
    sign: Place,
    accepts: Option<Declarations>,
    right: Box<Behaviour>,
) -> Result<Box<Behaviour>, Memory>
    ensures tree { IfOk result
        (λ all. behaviour_tree (box_value all) ≡ node place
        (both (disable_tree (box_value first))
        (present (node sign (both unkept (both (accepts_tree accepts) (behaviour_tree (box_value right)))))))) }
{
    let rest = Enabling::new(alloc, sign, accepts, Box::into_inner(right))?;
    let all = Behaviour::new(place, Box::into_inner(first), Some(rest));
    Ok(Box::new(alloc, all)?)
}

// A behaviour without `[>`.
#[inline(never)]
pub fn disable_alone(
    alloc: Global,
    place: Place,
    first: Box<Parallel>,
) -> Result<Box<Disable>, Memory>
    ensures tree { IfOk result (λ all. disable_tree (box_value all) ≡ node place (both (parallel_tree (box_value first)) absent)) }
{
    let all = Disable::new(place, Box::into_inner(first), None);
    Ok(Box::new(alloc, all)?)
}

// A behaviour with `[>`.
#[inline(never)]
pub fn disabled(
    alloc: Global,
    place: Place,
    first: Box<Parallel>,
    sign: Place,
    right: Box<Disable>,
) -> Result<Box<Disable>, Memory>
    ensures tree { IfOk result
        (λ all. disable_tree (box_value all) ≡ node place
        (both (parallel_tree (box_value first)) (present (node sign (both unkept (disable_tree (box_value right))))))) }
{
    let rest = Disabling::new(alloc, sign, Box::into_inner(right))?;
    let all = Disable::new(place, Box::into_inner(first), Some(rest));
    Ok(Box::new(alloc, all)?)
}

// A behaviour without a parallel operator.
#[inline(never)]
pub fn parallel_alone(
    alloc: Global,
    place: Place,
    first: Box<Choice>,
) -> Result<Box<Parallel>, Memory>
    ensures tree { IfOk result (λ all. parallel_tree (box_value all) ≡ node place (both (choice_tree (box_value first)) absent)) }
{
    let all = Parallel::new(place, Box::into_inner(first), None);
    Ok(Box::new(alloc, all)?)
}

// A behaviour with a parallel operator.
#[inline(never)]
pub fn composed(
    alloc: Global,
    place: Place,
    first: Box<Choice>,
    sign: Place,
    operator: Operator,
    right: Box<Parallel>,
) -> Result<Box<Parallel>, Memory>
    ensures tree { IfOk result
        (λ all. parallel_tree (box_value all) ≡ node place
        (both (choice_tree (box_value first)) (present (node sign (both (operator_tree operator) (parallel_tree (box_value right))))))) }
{
    let rest = Composing::new(alloc, sign, operator, Box::into_inner(right))?;
    let all = Parallel::new(place, Box::into_inner(first), Some(rest));
    Ok(Box::new(alloc, all)?)
}

// A behaviour without `[]`.
#[inline(never)]
pub fn choice_alone(alloc: Global, place: Place, first: Box<Unary>) -> Result<Box<Choice>, Memory>
    ensures tree { IfOk result (λ all. choice_tree (box_value all) ≡ node place (both (unary_tree (box_value first)) absent)) }
{
    let all = Choice::new(place, Box::into_inner(first), None);
    Ok(Box::new(alloc, all)?)
}

// A behaviour with `[]`.
#[inline(never)]
pub fn chosen(
    alloc: Global,
    place: Place,
    first: Box<Unary>,
    sign: Place,
    right: Box<Choice>,
) -> Result<Box<Choice>, Memory>
    ensures tree { IfOk result
        (λ all. choice_tree (box_value all) ≡ node place
        (both (unary_tree (box_value first)) (present (node sign (both unkept (choice_tree (box_value right))))))) }
{
    let rest = Choosing::new(alloc, sign, Box::into_inner(right))?;
    let all = Choice::new(place, Box::into_inner(first), Some(rest));
    Ok(Box::new(alloc, all)?)
}

// A behaviour in parentheses.
#[inline(never)]
pub fn grouped(alloc: Global, place: Place, inner: Box<Behaviour>) -> Result<Box<Unary>, Memory>
    ensures tree { IfOk result (λ all. unary_tree (box_value all) ≡ atomic_tree place (left (between (behaviour_tree (box_value inner))))) }
{
    let atom = Atom::group(alloc, place, Box::into_inner(inner))?;
    Ok(Box::new(alloc, Unary::atomic(atom))?)
}
