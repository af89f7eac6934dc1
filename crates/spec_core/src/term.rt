// Terms over a signature.

ghost use Rattle.std.specs.Prelude.{◌≡◌, ◌↔◌, IfOk, IsTrue, map};
ghost use Rattle.spec_core.specs.Terms.{term_of, terms};

use crate::items::Op;
use crate::memory::Memory;
use std::alloc::Global;

/// A term: a variable by its number, or an operation over terms. A contract sees it as `term_of` of it.
#[derive(Drop)]
pub enum Term {
    Var(u32),
    App(Op, Vec<Term>),
}

impl Term {
    /// An equal term.
    pub fn copy(&self, alloc: Global) -> Result<Term, Memory>
        ensures equal { IfOk result (λ t. term_of t ≡ term_of self.now) }
    {
        match self {
            Term::Var(x) => Ok(Term::Var(*x)),
            Term::App(op, args) => {
                let mut all = Vec::new(alloc);
                for t in args {
                    all.push(t.copy(alloc)?)?;
                }
                Ok(Term::App(*op, all))
            }
        }
    }

    /// Whether two terms are equal. It takes no memory.
    #[cycle(same)]
    pub fn same(&self, other: &Term) -> bool
        ensures decides { IsTrue result ↔ (term_of self.now ≡ term_of other.now) }
    {
        match self {
            Term::Var(x) => match other {
                Term::Var(y) => *x == *y,
                Term::App(..) => false,
            },
            Term::App(op, args) => match other {
                Term::Var(_) => false,
                Term::App(other_op, others) => op.0 == other_op.0 && all_same(args, others),
            },
        }
    }
}

/// Equal terms, in the same order.
pub fn copy_terms(alloc: Global, all: &[Term]) -> Result<Vec<Term>, Memory>
    ensures equal { IfOk result (λ copied. map term_of copied.items ≡ map term_of all.now) }
{
    let mut copied = Vec::new(alloc);
    for term in all {
        copied.push(term.copy(alloc)?)?;
    }
    Ok(copied)
}

// Whether two lists of terms are equal.
#[cycle(same)]
fn all_same(left: &[Term], right: &[Term]) -> bool
    ensures { IsTrue result ↔ (terms (map term_of left.now) ≡ terms (map term_of right.now)) }
{
    if left.len() != right.len() {
        return false;
    }
    for (i, t) in left.iter().enumerate() {
        if !t.same(&right[i]) {
            return false;
        }
    }
    true
}
