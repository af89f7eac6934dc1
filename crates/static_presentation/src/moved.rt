// Equations in the numbers of all sorts and operations.

ghost use Rattle.std.specs.Prelude.{◌≡◌, IfOk, map};
ghost use Rattle.spec_core.specs.Numbers.{sort_number};
ghost use Rattle.spec_core.specs.Terms.{term_of};
ghost use Rattle.spec_core.specs.Theories.{premise_of, equation_of};
ghost use Rattle.static_presentation.specs.Moved as moved;

use spec_core::equation::Equation;
use spec_core::items::{Op, Sort};
use spec_core::memory::Memory;
use spec_core::names::copy_names;
use spec_core::term::Term;
use std::alloc::Global;

// The number at this place; 0 behind the last.
fn number_at(numbers: &[u32], number: u32) -> u32
    ensures { result ≡ moved.number_at numbers.now number }
{
    let place = number as usize;
    if place < numbers.len() {
        numbers[place]
    } else {
        0
    }
}

// The term over the operations of these numbers.
fn moved_term(alloc: Global, term: &Term, operations: &[u32]) -> Result<Term, Memory>
    ensures { IfOk result (λ t. term_of t ≡ moved.moved_term operations.now (term_of term.now)) }
{
    match term {
        Term::Var(number) => Ok(Term::Var(*number)),
        Term::App(op, args) => {
            let mut all = Vec::new(alloc);
            for argument in args {
                all.push(moved_term(alloc, argument, operations)?)?;
            }
            Ok(Term::App(Op(number_at(operations, op.0)), all))
        }
    }
}

// Premises over the operations of these numbers.
fn moved_premises(
    alloc: Global,
    premises: &[(Term, Term)],
    operations: &[u32],
) -> Result<Vec<(Term, Term)>, Memory>
    ensures { IfOk result (λ all. map premise_of all.items ≡ map (moved.moved_premise operations.now) (map premise_of premises.now)) }
{
    let mut all = Vec::new(alloc);
    for premise in premises {
        all.push((
            moved_term(alloc, &premise.0, operations)?,
            moved_term(alloc, &premise.1, operations)?,
        ))?;
    }
    Ok(all)
}

// The sorts of these numbers.
fn moved_sorts(alloc: Global, own: &[Sort], sorts: &[u32]) -> Result<Vec<Sort>, Memory>
    ensures { IfOk result (λ all. map sort_number all.items ≡ map (moved.number_at sorts.now) (map sort_number own.now)) }
{
    let mut all = Vec::new(alloc);
    for sort in own {
        all.push(Sort(number_at(sorts, sort.0)))?;
    }
    Ok(all)
}

// The equation over the sorts and operations of these numbers.
fn moved_equation(
    alloc: Global,
    equation: &Equation,
    sorts: &[u32],
    operations: &[u32],
) -> Result<Equation, Memory>
    ensures { IfOk result (λ e. equation_of e ≡ moved.moved_equation sorts.now operations.now (equation_of equation.now)) }
{
    Ok(Equation {
        place_line: equation.place_line,
        place_column: equation.place_column,
        vars: moved_sorts(alloc, &equation.vars, sorts)?,
        names: copy_names(alloc, &equation.names)?,
        premises: moved_premises(alloc, &equation.premises, operations)?,
        left: moved_term(alloc, &equation.left, operations)?,
        right: moved_term(alloc, &equation.right, operations)?,
    })
}

/// Equations over the sorts and operations of these numbers.
pub fn moved_equations(
    alloc: Global,
    equations: &[Equation],
    sorts: &[u32],
    operations: &[u32],
) -> Result<Vec<Equation>, Memory>
    ensures { IfOk result (λ all. map equation_of all.items
        ≡ map (moved.moved_equation sorts.now operations.now) (map equation_of equations.now)) }
{
    let mut all = Vec::new(alloc);
    for equation in equations {
        all.push(moved_equation(alloc, equation, sorts, operations)?)?;
    }
    Ok(all)
}
