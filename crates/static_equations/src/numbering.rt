// The variables of an equation, by first occurrence.

ghost use Rattle.std.specs.Prelude.{◌≡◌, ◌<◌, ◌^◌, ◌++◌, nat_eq, IfOk, OnOk, map, length, option_to_list};
ghost use Rattle.std.specs.List.{list_any, position_or_len, flat_map, slice_get};
ghost use Rattle.spec_core.specs.Numbers.{sort_number};
ghost use Rattle.spec_core.specs.Terms.{term_of};
ghost use Rattle.spec_core.specs.Theories.{premise_of, equation_of};
ghost use Rattle.sort_overloads.specs.Views.{declared_of};
ghost use Rattle.static_equations.specs.Numbered as numbered;
ghost use Rattle.static_equations.specs.Views.{declared_at};

use lotos_ast::place::Place;
use sort_overloads::variables::Variable;
use spec_core::equation::Equation;
use spec_core::items::Sort;
use spec_core::memory::Memory;
use spec_core::name::Name;
use spec_core::term::Term;
use std::alloc::Global;

// Whether a variable is among these.
fn is_among(numbers: &[u32], number: u32) -> bool
    ensures { result ≡ list_any (nat_eq number) numbers.now }
{
    for other in numbers {
        if number == *other {
            return true;
        }
    }
    false
}

// Adds a variable, unless it is there.
fn add_variable(numbers: &mut Vec<u32>, number: u32) -> Result<(), Memory>
    ensures { OnOk result (numbers.new.items ≡ numbered.with_variable numbers.old.items number) }
{
    if !is_among(numbers, number) {
        numbers.push(number)?;
    }
    Ok(())
}

// Adds the variables of a term that aren't there.
fn add_variables(term: &Term, numbers: &mut Vec<u32>) -> Result<(), Memory>
    ensures { OnOk result (numbers.new.items ≡ numbered.with_variables numbers.old.items (numbered.occurring (term_of term.now))) }
{
    match term {
        Term::Var(number) => add_variable(numbers, *number),
        Term::App(_, args) => {
            for argument in args {
                add_variables(argument, numbers)?;
            }
            Ok(())
        }
    }
}

// Adds the variables of premises that aren't there.
fn add_premise_variables(premises: &[(Term, Term)], numbers: &mut Vec<u32>) -> Result<(), Memory>
    ensures { OnOk result (numbers.new.items
        ≡ numbered.with_variables numbers.old.items (flat_map numbered.premise_occurring (map premise_of premises.now))) }
{
    for premise in premises {
        add_variables(&premise.0, numbers)?;
        add_variables(&premise.1, numbers)?;
    }
    Ok(())
}

// The place of a variable among these; how many these are where it isn't there.
fn place_among(numbers: &[u32], number: u32) -> u32
    requires few { length numbers.now < 2 ^ 32 }
    ensures { result ≡ position_or_len (nat_eq number) numbers.now }
{
    for (i, other) in numbers.iter().enumerate() {
        if number == *other {
            return i as u32;
        }
    }
    numbers.len() as u32
}

// The term where each variable's number is its place among these.
fn renumbered(alloc: Global, term: &Term, numbers: &[u32]) -> Result<Term, Memory>
    requires few { length numbers.now < 2 ^ 32 }
    ensures { IfOk result (λ t. term_of t ≡ numbered.renumbered numbers.now (term_of term.now)) }
{
    match term {
        Term::Var(number) => Ok(Term::Var(place_among(numbers, *number))),
        Term::App(op, args) => {
            let mut all = Vec::new(alloc);
            for argument in args {
                all.push(renumbered(alloc, argument, numbers)?)?;
            }
            Ok(Term::App(*op, all))
        }
    }
}

// Premises where each variable's number is its place among these.
fn premises_renumbered(
    alloc: Global,
    premises: &[(Term, Term)],
    numbers: &[u32],
) -> Result<Vec<(Term, Term)>, Memory>
    requires few { length numbers.now < 2 ^ 32 }
    ensures { IfOk result (λ all. map premise_of all.items ≡ map (numbered.premise_renumbered numbers.now) (map premise_of premises.now)) }
{
    let mut all = Vec::new(alloc);
    for premise in premises {
        all.push((
            renumbered(alloc, &premise.0, numbers)?,
            renumbered(alloc, &premise.1, numbers)?,
        ))?;
    }
    Ok(all)
}

// Adds the variable of this number, if there is one.
fn add_variable_at<'v>(
    variables: &'v [Variable],
    number: u32,
    all: &mut Vec<&'v Variable>,
) -> Result<(), Memory>
    ensures { OnOk result (map declared_at all.new.items
        ≡ map declared_at all.old.items ++ option_to_list (slice_get (map declared_of variables.now) number)) }
{
    let place = number as usize;
    if place >= variables.len() {
        return Ok(());
    }
    all.push(&variables[place])?;
    Ok(())
}

// The variables of these numbers.
fn variables_at<'v>(
    alloc: Global,
    variables: &'v [Variable],
    numbers: &[u32],
) -> Result<Vec<&'v Variable>, Memory>
    ensures { IfOk result (λ all. map declared_at all.items ≡ numbered.variables_at (map declared_of variables.now) numbers.now) }
{
    let mut all = Vec::new(alloc);
    for number in numbers {
        add_variable_at(variables, *number, &mut all)?;
    }
    Ok(all)
}

// The sorts of variables.
fn sorts_of(alloc: Global, variables: &[&Variable]) -> Result<Vec<Sort>, Memory>
    ensures { IfOk result (λ all. map sort_number all.items ≡ map (λ v. v.sort) (map declared_at variables.now)) }
{
    let mut all = Vec::new(alloc);
    for variable in variables {
        all.push(variable.sort)?;
    }
    Ok(all)
}

// The names of variables.
fn names_of(alloc: Global, variables: &[&Variable]) -> Result<Vec<Name>, Memory>
    ensures { IfOk result (λ all. all.items ≡ map (λ v. v.name) (map declared_at variables.now)) }
{
    let mut all = Vec::new(alloc);
    for variable in variables {
        all.push(variable.name.copy(alloc)?)?;
    }
    Ok(all)
}

/// The equation of terms over declared variables.
pub fn equation_of_terms(
    alloc: Global,
    variables: &[Variable],
    place: Place,
    premises: &[(Term, Term)],
    left: &Term,
    right: &Term,
) -> Result<Equation, Memory>
    ensures { IfOk result (λ e. equation_of e ≡ numbered.equation_of_terms (map declared_of variables.now) place
        (map premise_of premises.now) (term_of left.now) (term_of right.now)) }
{
    let mut numbers = Vec::new(alloc);
    add_variables(left, &mut numbers)?;
    add_premise_variables(premises, &mut numbers)?;
    add_variables(right, &mut numbers)?;
    if numbers.len() >= 4_294_967_296 {
        return Err(Memory);
    }
    equation_over(alloc, variables, place, &numbers, premises, left, right)
}

// The equation over the variables of these numbers.
fn equation_over(
    alloc: Global,
    variables: &[Variable],
    place: Place,
    numbers: &[u32],
    premises: &[(Term, Term)],
    left: &Term,
    right: &Term,
) -> Result<Equation, Memory>
    requires few { length numbers.now < 2 ^ 32 }
    ensures { IfOk result (λ e. equation_of e ≡ numbered.equation_over (map declared_of variables.now) place numbers.now
        (map premise_of premises.now) (term_of left.now) (term_of right.now)) }
{
    let own = variables_at(alloc, variables, numbers)?;
    Ok(Equation {
        place_line: place.line,
        place_column: place.column,
        vars: sorts_of(alloc, &own)?,
        names: names_of(alloc, &own)?,
        premises: premises_renumbered(alloc, premises, numbers)?,
        left: renumbered(alloc, left, numbers)?,
        right: renumbered(alloc, right, numbers)?,
    })
}
