// The check that all equations are decreasing.

ghost use Rattle.std.specs.Prelude.{◌≡◌, IfOk, IfSome, OnOk};
ghost use Rattle.lotos_ast.specs.Refusals.{IfRefused};
ghost use Rattle.path_order.specs.Decrease.{IsAdded, IsFirstRefusal, refusal_naming};
ghost use Rattle.path_order.specs.Mentioning.{AreDependents, AreMentions};
ghost use Rattle.spec_core.specs.Lists.{IsOneOf};
ghost use Rattle.spec_core.specs.Order.{IsDecreasing};
ghost use Rattle.spec_core.specs.Terms.{term_of};
ghost use Rattle.spec_core.specs.Theories.{theory_of, equation_of};

use crate::dependence::{Dependents, dependents_of};
use crate::mentions::Mentions;
use crate::sides::first_not_below;
use lotos_ast::first_refusal::first_refusal;
use lotos_ast::names::Names;
use lotos_ast::place::Place;
use lotos_ast::refusal::{FrontFault, Refusal, RefusalKind};
use spec_core::equation::{DataSpec, Equation};
use spec_core::memory::Memory;
use spec_core::name::Name;
use spec_core::term::Term;
use spec_core::term_text::term_text;
use std::alloc::Global;

/// Whether the data are decreasing: each side of an equation is below its left side in the path order. If they aren't, the refusal
/// 20 NotDecreasing of the first equation with a side that isn't below, by place and then by number, which names the first such side.
pub fn check_decrease(alloc: Global, algebra: &DataSpec) -> Result<(), FrontFault>
    ensures decreasing { IfOk result (λ _. IsDecreasing (theory_of algebra.now)) }
    ensures refused { IfRefused result (IsFirstRefusal (theory_of algebra.now)) }
    ensures not_decreasing { IfRefused result (λ _. IsDecreasing (theory_of algebra.now) → ⊥) }
{
    let mentions = Mentions::of(alloc, algebra)?;
    let mut refusals = Vec::new(alloc);
    let mut last = None;
    for equation in &algebra.equations {
        last = add_refusal(alloc, algebra, &mentions, equation, last, &mut refusals)?;
    }
    match first_refusal(refusals) {
        Some(refusal) => Err(FrontFault::Refused(refusal)),
        None => Ok(()),
    }
}

// Adds the refusal of an equation, if it isn't decreasing; the operations that depend on its own, for the next equation.
fn add_refusal(
    alloc: Global,
    algebra: &DataSpec,
    mentions: &Mentions,
    equation: &Equation,
    last: Option<Dependents>,
    refusals: &mut Vec<Refusal>,
) -> Result<Option<Dependents>, Memory>
    requires mentions { AreMentions (theory_of algebra.now) mentions.now }
    requires listed { IsOneOf (equation_of equation.now) (theory_of algebra.now).equations }
    requires last { IfSome last (λ d. AreDependents (theory_of algebra.now) d.op.0 d.found.keys) }
    ensures last { IfOk result (λ found. IfSome found (λ d. AreDependents (theory_of algebra.now) d.op.0 d.found.keys)) }
    ensures added { OnOk result (IsAdded (theory_of algebra.now) (equation_of equation.now) refusals.old.items refusals.new.items) }
{
    match &equation.left {
        Term::Var(_) => Ok(last),
        Term::App(op, args) => {
            let level = dependents_of(alloc, mentions, *op, last)?;
            match first_not_below(equation, algebra, &level, args) {
                None => Ok(Some(level)),
                Some(side) => {
                    refusals.push(not_decreasing(alloc, algebra, equation, side)?)?;
                    Ok(Some(level))
                }
            }
        }
    }
}

// The refusal of an equation with this side.
fn not_decreasing(
    alloc: Global,
    algebra: &DataSpec,
    equation: &Equation,
    side: &Term,
) -> Result<Refusal, Memory>
    ensures { IfOk result (λ r. r ≡ refusal_naming (theory_of algebra.now) (equation_of equation.now) (term_of side.now)) }
{
    let text = term_text(alloc, &algebra.signature, side, &equation.names)?;
    Ok(Refusal {
        kind: RefusalKind::NotDecreasing,
        place: Place {
            line: equation.place_line,
            column: equation.place_column,
        },
        names: Names::new(vec![in alloc; Name::new(text)]?),
    })
}
