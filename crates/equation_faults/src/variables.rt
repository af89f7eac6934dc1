// The variables of terms and equations.

ghost use Rattle.std.specs.Prelude.{◌≡◌, ◌++◌, IfOk, OnOk, map};
ghost use Rattle.equation_faults.specs.Variables.{variables, all_variables, premises_variables, asked_variables};
ghost use Rattle.spec_core.specs.Terms.{term_of, terms};
ghost use Rattle.spec_core.specs.Theories.{premise_of, equation_of};

use spec_core::equation::Equation;
use spec_core::memory::Memory;
use spec_core::term::Term;
use std::alloc::Global;

// Adds the variables of a term.
#[cycle(variables)]
fn add_variables(term: &Term, all: &mut Vec<u32>) -> Result<(), Memory>
    ensures { OnOk result (all.new.items ≡ all.old.items ++ variables (term_of term.now)) }
{
    match term {
        Term::Var(x) => all.push(*x)?,
        Term::App(_, args) => add_all_variables(args, all)?,
    }
    Ok(())
}

// Adds those of each term.
#[cycle(variables)]
fn add_all_variables(args: &[Term], all: &mut Vec<u32>) -> Result<(), Memory>
    ensures { OnOk result (all.new.items ≡ all.old.items ++ all_variables (terms (map term_of args.now))) }
{
    for term in args {
        add_variables(term, all)?;
    }
    Ok(())
}

// Adds those of each premise.
fn add_premises_variables(premises: &[(Term, Term)], all: &mut Vec<u32>) -> Result<(), Memory>
    ensures { OnOk result (all.new.items ≡ all.old.items ++ premises_variables (map premise_of premises.now)) }
{
    for premise in premises {
        add_variables(&premise.0, all)?;
        add_variables(&premise.1, all)?;
    }
    Ok(())
}

/// The variables of a term, from the left, each as often as it stands there.
pub fn variables(alloc: Global, term: &Term) -> Result<Vec<u32>, Memory>
    ensures { IfOk result (λ all. all.items ≡ variables (term_of term.now)) }
{
    let mut all = Vec::new(alloc);
    add_variables(term, &mut all)?;
    Ok(all)
}

/// The variables of the premises and the right side, in this order, each as often as it stands there.
pub fn asked_variables(alloc: Global, equation: &Equation) -> Result<Vec<u32>, Memory>
    ensures { IfOk result (λ all. all.items ≡ asked_variables (equation_of equation.now)) }
{
    let mut all = Vec::new(alloc);
    add_premises_variables(&equation.premises, &mut all)?;
    add_variables(&equation.right, &mut all)?;
    Ok(all)
}
