// New names for the variables of a left side.

ghost use Rattle.std.specs.Prelude.{ℕ, ◌≡◌, IfOk, MatchOption, map};
ghost use Rattle.cover_groups.specs.Renamings.{IsRenaming};
ghost use Rattle.spec_core.specs.Terms.{variable, instance, term_of};
ghost use Rattle.spec_core.specs.Theories.{Heads};

use equation_shapes::shape::is_of_shape;
use spec_core::memory::Memory;
use spec_core::term::Term;
use std::alloc::Global;
use value_reference::matching::match_pattern;

/// The terms for the variables of one term with which it becomes the other, where these are variables.
pub fn renaming(alloc: Global, from: &Term, to: &Term) -> Result<Option<Vec<Term>>, Memory>
    requires applied { (x : ℕ) → term_of to.now ≡ variable x → ⊥ }
    ensures some { IfOk result (λ found. MatchOption found (Unit {0}) (λ bound.
        IsRenaming (term_of from.now) (term_of to.now) (map term_of bound.items))) }
    ensures none { IfOk result (λ found. MatchOption found
        ((r : ℕ → ℕ) → instance (λ x. variable (r x)) (term_of from.now) ≡ term_of to.now → ⊥)
        (λ _. Unit {0})) }
{
    if !is_of_shape(to, from) {
        return Ok(None);
    }
    match to {
        Term::Var(_) => Ok(None),
        Term::App(op, args) => match_pattern(alloc, from, *op, args),
    }
}
