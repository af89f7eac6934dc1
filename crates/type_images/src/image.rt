// Images of equations.

ghost use Rattle.std.specs.Prelude.{◌≡◌, IfOk, map};
ghost use Rattle.spec_core.specs.Terms.{term_of};
ghost use Rattle.spec_core.specs.Theories.{premise_of, equation_of};
ghost use Rattle.type_images.specs.Images as images;
ghost use Rattle.type_images.specs.Views.{numbers_of};

use crate::numbers::{Renumbering, new_number, sort_images};
use spec_core::equation::Equation;
use spec_core::items::Op;
use spec_core::memory::Memory;
use spec_core::names::copy_names;
use spec_core::term::Term;
use std::alloc::Global;

/// A term with new numbers of operations.
#[tactic(auto, using(crate::proofs::Terms::images_of_terms))]
pub fn term_image(alloc: Global, news: &[u32], term: &Term) -> Result<Term, Memory>
    ensures { IfOk result (λ t. term_of t ≡ images.term_image news.now (term_of term.now)) }
{
    match term {
        Term::Var(x) => Ok(Term::Var(*x)),
        Term::App(op, args) => {
            let mut all = Vec::new(alloc);
            for arg in args {
                all.push(term_image(alloc, news, arg)?)?;
            }
            Ok(Term::App(Op(new_number(news, op.0)), all))
        }
    }
}

// Premises with new numbers of operations.
fn premise_images(
    alloc: Global,
    news: &[u32],
    premises: &[(Term, Term)],
) -> Result<Vec<(Term, Term)>, Memory>
    ensures { IfOk result (λ all. map premise_of all.items ≡ map (images.premise_image news.now) (map premise_of premises.now)) }
{
    let mut all = Vec::new(alloc);
    for premise in premises {
        all.push((
            term_image(alloc, news, &premise.0)?,
            term_image(alloc, news, &premise.1)?,
        ))?;
    }
    Ok(all)
}

/// The image of an equation.
pub fn equation_image(
    alloc: Global,
    news: &Renumbering,
    equation: &Equation,
) -> Result<Equation, Memory>
    ensures { IfOk result (λ e. equation_of e ≡ images.equation_image (numbers_of news.now) (equation_of equation.now)) }
{
    Ok(Equation {
        place_line: equation.place_line,
        place_column: equation.place_column,
        vars: sort_images(alloc, &news.sorts, &equation.vars)?,
        names: copy_names(alloc, &equation.names)?,
        premises: premise_images(alloc, &news.operations, &equation.premises)?,
        left: term_image(alloc, &news.operations, &equation.left)?,
        right: term_image(alloc, &news.operations, &equation.right)?,
    })
}
