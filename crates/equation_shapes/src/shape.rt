// Shapes of terms: terms of which it doesn't matter how their variables are named.

ghost use Rattle.std.specs.Prelude.{◌↔◌, IsTrue, map};
ghost use Rattle.equation_shapes.specs.Shapes.{IsOfShape, AreOfShape, Meets, MeetAll};
ghost use Rattle.spec_core.specs.Terms.{term_of, terms};

use spec_core::term::Term;

/// Whether a term is the shape with a term in place of each occurrence of a variable. It takes no memory.
#[cycle(of_shape)]
pub fn is_of_shape(shape: &Term, term: &Term) -> bool
    ensures decides { IsTrue result ↔ IsOfShape (term_of shape.now) (term_of term.now) }
{
    match shape {
        Term::Var(_) => true,
        Term::App(op, parts) => match term {
            Term::Var(_) => false,
            Term::App(other, args) => op.0 == other.0 && are_of_shape(parts, args),
        },
    }
}

/// Whether the terms of a list are of those shapes, one by one. It takes no memory.
#[cycle(of_shape)]
pub fn are_of_shape(shapes: &[Term], all: &[Term]) -> bool
    ensures decides { IsTrue result ↔ AreOfShape (terms (map term_of shapes.now)) (terms (map term_of all.now)) }
{
    if shapes.len() != all.len() {
        return false;
    }
    for (i, shape) in shapes.iter().enumerate() {
        if !is_of_shape(shape, &all[i]) {
            return false;
        }
    }
    true
}

/// Whether two shapes have different operations at no place. It takes no memory.
#[cycle(meets)]
pub fn meets(left: &Term, right: &Term) -> bool
    ensures decides { IsTrue result ↔ Meets (term_of left.now) (term_of right.now) }
{
    match left {
        Term::Var(_) => true,
        Term::App(op, parts) => match right {
            Term::Var(_) => true,
            Term::App(other, args) => op.0 == other.0 && meet_all(parts, args),
        },
    }
}

/// Whether this is so of each two shapes of two lists. It takes no memory.
#[cycle(meets)]
pub fn meet_all(left: &[Term], right: &[Term]) -> bool
    ensures decides { IsTrue result ↔ MeetAll (terms (map term_of left.now)) (terms (map term_of right.now)) }
{
    if left.len() != right.len() {
        return false;
    }
    for (i, part) in left.iter().enumerate() {
        if !meets(part, &right[i]) {
            return false;
        }
    }
    true
}
