// Equations of the form that the library's text has.

ghost use Rattle.std.specs.Prelude.{◌≡◌, ◌↔◌, IsTrue, map};
ghost use Rattle.spec_core.specs.Orthogonality.{IsPlain};
ghost use Rattle.spec_core.specs.Terms.{apply, and_term, no_terms, constant, terms, term_of};
ghost use Rattle.spec_core.specs.Theories.{equation_of};

use spec_core::equation::Equation;
use spec_core::items::Op;
use spec_core::term::Term;

/// Whether a list has no term. It takes no memory.
pub fn is_nothing(all: &[Term]) -> bool
    ensures decides { IsTrue result ↔ (terms (map term_of all.now) ≡ no_terms) }
{
    match all {
        [] => true,
        [_, ..] => false,
    }
}

/// Whether a term is this operation without arguments. It takes no memory.
pub fn is_constant(term: &Term, op: Op) -> bool
    ensures decides { IsTrue result ↔ (term_of term.now ≡ constant op.0) }
{
    match term {
        Term::Var(_) => false,
        Term::App(head, args) => head.0 == op.0 && is_nothing(args),
    }
}

/// Whether a list is this term alone. It takes no memory.
pub fn is_alone(all: &[Term], term: &Term) -> bool
    ensures decides { IsTrue result ↔ (terms (map term_of all.now) ≡ and_term (term_of term.now) no_terms) }
{
    match all {
        [] => false,
        [first, rest @ ..] => first.same(term) && is_nothing(rest),
    }
}

// Whether a list is this constant alone.
fn is_one_constant(all: &[Term], op: Op) -> bool
    ensures { IsTrue result ↔ (terms (map term_of all.now) ≡ and_term (constant op.0) no_terms) }
{
    match all {
        [] => false,
        [first, rest @ ..] => is_constant(first, op) && is_nothing(rest),
    }
}

/// Whether a term is this operation over this constant. It takes no memory.
pub fn is_over_constant(term: &Term, op: Op, given: Op) -> bool
    ensures decides { IsTrue result ↔ (term_of term.now ≡ apply op.0 (and_term (constant given.0) no_terms)) }
{
    match term {
        Term::Var(_) => false,
        Term::App(head, args) => head.0 == op.0 && is_one_constant(args, given),
    }
}

/// Whether an equation without premises says that the operation over one constant is another. It takes no memory.
pub fn is_rule(equation: &Equation, op: Op, given: Op, value: Op) -> bool
    ensures decides { IsTrue result ↔
        IsPlain (equation_of equation.now) (apply op.0 (and_term (constant given.0) no_terms)) (constant value.0) }
{
    equation.premises.is_empty()
        && is_over_constant(&equation.left, op, given)
        && is_constant(&equation.right, value)
}
