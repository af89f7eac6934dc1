// The sides of an equation that are to be below its left side.

ghost use Rattle.std.specs.Prelude.{◌≡◌, IfNone, IfSome, map};
ghost use Rattle.path_order.specs.Below.{IsBelowBy};
ghost use Rattle.path_order.specs.Decrease.{IsFirstNot, sides};
ghost use Rattle.spec_core.specs.Lists.{Each};
ghost use Rattle.spec_core.specs.Terms.{term_of, terms};
ghost use Rattle.spec_core.specs.Theories.{theory_of, equation_of};

use crate::below::is_below;
use crate::dependence::Dependents;
use spec_core::equation::{DataSpec, Equation};
use spec_core::term::Term;

/// The first side that isn't below the left side's operation over `args`: premises before the right side. It takes no memory.
pub fn first_not_below<'a>(
    equation: &'a Equation,
    algebra: &DataSpec,
    level: &Dependents,
    args: &[Term],
) -> Option<&'a Term>
    ensures none { IfNone result
        (Each (IsBelowBy (theory_of algebra.now) level.now.found.keys (terms (map term_of args.now))) (sides (equation_of equation.now))) }
    ensures first { IfSome result (λ side.
        IsFirstNot (IsBelowBy (theory_of algebra.now) level.now.found.keys (terms (map term_of args.now)))
        (sides (equation_of equation.now)) (term_of side.now)) }
{
    for premise in &equation.premises {
        if !is_below(&premise.0, algebra, level, args) {
            return Some(&premise.0);
        }
        if !is_below(&premise.1, algebra, level, args) {
            return Some(&premise.1);
        }
    }
    if !is_below(&equation.right, algebra, level, args) {
        return Some(&equation.right);
    }
    None
}
