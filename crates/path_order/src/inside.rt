// What stands inside terms.

ghost use Rattle.std.specs.Prelude.{◌↔◌, IsTrue, map};
ghost use Rattle.spec_core.specs.Order.{IsInside, IsInsideAny, IsSmaller};
ghost use Rattle.spec_core.specs.Terms.{term_of, terms};

use spec_core::term::Term;

// Whether a part is a proper subterm of a term.
#[cycle(inside)]
fn is_inside(whole: &Term, part: &Term) -> bool
    ensures { IsTrue result ↔ IsInside (term_of part.now) (term_of whole.now) }
{
    match whole {
        Term::Var(_) => false,
        Term::App(_, args) => is_inside_any(args, part),
    }
}

/// Whether a part is one of these terms or a proper subterm of one. It takes no memory.
#[cycle(inside)]
pub fn is_inside_any(all: &[Term], part: &Term) -> bool
    ensures { IsTrue result ↔ IsInsideAny (term_of part.now) (terms (map term_of all.now)) }
{
    for whole in all {
        if part.same(whole) || is_inside(whole, part) {
            return true;
        }
    }
    false
}

/// Whether, at the first place at which two lists differ, the first has a proper subterm of what the second has. Where one list is a
/// beginning of the other there is no such place. It takes no memory.
pub fn is_smaller(left: &[Term], right: &[Term]) -> bool
    ensures { IsTrue result ↔ IsSmaller (terms (map term_of left.now)) (terms (map term_of right.now)) }
{
    for (i, part) in left.iter().enumerate() {
        if i >= right.len() {
            return false;
        }
        let whole = &right[i];
        if is_inside(whole, part) {
            return true;
        }
        if !part.same(whole) {
            return false;
        }
    }
    false
}
