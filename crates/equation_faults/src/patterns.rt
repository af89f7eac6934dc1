// Left sides of constructors and variables alone.

ghost use Rattle.std.specs.Prelude.{◌↔◌, IsTrue, map};
ghost use Rattle.equation_faults.specs.Faults.{AreHeads};
ghost use Rattle.spec_core.specs.Constructors.{IsConstructor, IsPattern, ArePatterns};
ghost use Rattle.spec_core.specs.Orthogonality.{HasPatterns};
ghost use Rattle.spec_core.specs.Terms.{term_of, terms};
ghost use Rattle.spec_core.specs.Theories.{theory_of, equation_of};

use equation_sets::set::NumberSet;
use spec_core::constructors::is_marked;
use spec_core::equation::{DataSpec, Equation};
use spec_core::items::Op;
use spec_core::term::Term;

// Whether an operation is a constructor, where `heads` has those that head equations.
fn is_constructor(algebra: &DataSpec, heads: &NumberSet, op: Op) -> bool
    requires { AreHeads (theory_of algebra.now) heads.now }
    ensures { IsTrue result ↔ IsConstructor (theory_of algebra.now) op.0 }
{
    !heads.has(op.0) || is_marked(algebra, op)
}

// Whether a term has constructors and variables alone.
#[cycle(patterns)]
fn is_pattern(term: &Term, algebra: &DataSpec, heads: &NumberSet) -> bool
    requires { AreHeads (theory_of algebra.now) heads.now }
    ensures { IsTrue result ↔ IsPattern (theory_of algebra.now) (term_of term.now) }
{
    match term {
        Term::Var(_) => true,
        Term::App(op, args) => is_constructor(algebra, heads, *op)
            && are_patterns(args, algebra, heads),
    }
}

// Whether each term of a list has.
#[cycle(patterns)]
fn are_patterns(all: &[Term], algebra: &DataSpec, heads: &NumberSet) -> bool
    requires { AreHeads (theory_of algebra.now) heads.now }
    ensures { IsTrue result ↔ ArePatterns (theory_of algebra.now) (terms (map term_of all.now)) }
{
    for term in all {
        if !is_pattern(term, algebra, heads) {
            return false;
        }
    }
    true
}

/// Whether an equation's left side is an operation over patterns, where `heads` has the operations that head equations. It takes no
/// memory.
pub fn has_patterns(algebra: &DataSpec, heads: &NumberSet, equation: &Equation) -> bool
    requires heads { AreHeads (theory_of algebra.now) heads.now }
    ensures decides { IsTrue result ↔ HasPatterns (theory_of algebra.now) (equation_of equation.now) }
{
    match &equation.left {
        Term::Var(_) => false,
        Term::App(_, args) => are_patterns(args, algebra, heads),
    }
}
