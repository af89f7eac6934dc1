// Equations that are one.

ghost use Rattle.std.specs.Prelude.{◌≡◌, nat_eq, map};
ghost use Rattle.std.specs.Cmp.Lexicographic.{pointwise};
ghost use Rattle.spec_core.specs.Numbers.{sort_number};
ghost use Rattle.spec_core.specs.Terms.{term_of};
ghost use Rattle.spec_core.specs.Theories.{premise_of, equation_of};
ghost use Rattle.type_images.specs.Same as same;

use spec_core::equation::Equation;
use spec_core::items::Sort;
use spec_core::term::Term;

// Whether two terms are equal.
#[tactic(auto, using(crate::proofs::Terms::decided))]
fn is_same_term(left: &Term, right: &Term) -> bool
    ensures { result ≡ same.is_same_term (term_of left.now) (term_of right.now) }
{
    left.same(right)
}

// Whether two premises are equal.
fn is_same_premise(left: &(Term, Term), right: &(Term, Term)) -> bool
    ensures { result ≡ same.is_same_premise (premise_of left.now) (premise_of right.now) }
{
    is_same_term(&left.0, &right.0) && is_same_term(&left.1, &right.1)
}

// Whether two lists of premises are equal.
fn are_same_premises(left: &[(Term, Term)], right: &[(Term, Term)]) -> bool
    ensures { result ≡ pointwise same.is_same_premise (map premise_of left.now) (map premise_of right.now) }
{
    match left {
        [] => right.is_empty(),
        [first, rest @ ..] => match right {
            [] => false,
            [other, others @ ..] => {
                is_same_premise(first, other) && are_same_premises(rest, others)
            }
        },
    }
}

// Whether two lists of sorts are equal.
fn are_same_sorts(left: &[Sort], right: &[Sort]) -> bool
    ensures { result ≡ pointwise nat_eq (map sort_number left.now) (map sort_number right.now) }
{
    match left {
        [] => right.is_empty(),
        [first, rest @ ..] => match right {
            [] => false,
            [other, others @ ..] => first.0 == other.0 && are_same_sorts(rest, others),
        },
    }
}

/// Whether two equations are one: equal but for the names of their variables and their places. It takes no memory.
pub fn is_same_equation(left: &Equation, right: &Equation) -> bool
    ensures { result ≡ same.is_same_equation (equation_of left.now) (equation_of right.now) }
{
    is_same_term(&left.left, &right.left)
        && is_same_term(&left.right, &right.right)
        && are_same_premises(&left.premises, &right.premises)
        && are_same_sorts(&left.vars, &right.vars)
}
