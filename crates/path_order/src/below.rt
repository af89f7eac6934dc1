// The path order on terms, by the operations that depend on a left side's.

ghost use Rattle.std.specs.Prelude.{◌↔◌, IsTrue, map};
ghost use Rattle.path_order.specs.Below.{IsBelowBy, AreBelowBy};
ghost use Rattle.spec_core.specs.Terms.{term_of, terms};
ghost use Rattle.spec_core.specs.Theories.{theory_of};

use crate::dependence::Dependents;
use crate::inside::{is_inside_any, is_smaller};
use spec_core::constructors::is_marked;
use spec_core::equation::DataSpec;
use spec_core::term::Term;

/// Whether a term is below a left side's operation over `args`, where `level` has the operations that depend on that operation and
/// it depends on each of the term's. It takes no memory.
#[cycle(below)]
pub fn is_below(term: &Term, algebra: &DataSpec, level: &Dependents, args: &[Term]) -> bool
    ensures { IsTrue result ↔ IsBelowBy (theory_of algebra.now) level.now.found.keys (terms (map term_of args.now)) (term_of term.now) }
{
    match term {
        Term::Var(_) => is_inside_any(args, term),
        Term::App(op, parts) => is_inside_any(args, term)
            || are_below(parts, algebra, level, args)
                && (!level.has(*op) || is_smaller(parts, args) || is_marked(algebra, *op)),
    }
}

// Whether each term of a list is below the left side.
#[cycle(below)]
fn are_below(all: &[Term], algebra: &DataSpec, level: &Dependents, args: &[Term]) -> bool
    ensures { IsTrue result ↔ AreBelowBy (theory_of algebra.now) level.now.found.keys (terms (map term_of args.now)) (terms (map term_of all.now)) }
{
    for term in all {
        if !is_below(term, algebra, level, args) {
            return false;
        }
    }
    true
}
