// Data as text.

use spec_core::equation::{DataSpec, Equation};
use spec_core::items::Sort;
use spec_core::memory::Memory;
use spec_core::name::Name;
use spec_core::term::Term;
use spec_core::term_text::term_text;
use std::alloc::Global;

// Adds the name at this place.
fn put_name(text: &mut String, names: &[Name], number: u32) -> Result<(), Memory> {
    let place = number as usize;
    if place < names.len() {
        text.push_str(names[place].as_str())?;
    }
    Ok(())
}

// Adds variables, each with its sort.
fn put_variables(
    text: &mut String,
    sorts: &[Name],
    names: &[Name],
    vars: &[Sort],
) -> Result<(), Memory> {
    for (name, sort) in names.iter().zip(vars) {
        text.push_str(" ")?;
        text.push_str(name.as_str())?;
        text.push_str(":")?;
        put_name(text, sorts, sort.0)?;
    }
    Ok(())
}

// Adds two terms that are to be equal.
fn put_both(
    alloc: Global,
    text: &mut String,
    data: &DataSpec,
    equation: &Equation,
    sides: (&Term, &Term),
) -> Result<(), Memory> {
    text.push_str(" ")?;
    text.push_str(term_text(alloc, &data.signature, sides.0, &equation.names)?.as_str())?;
    text.push_str("=")?;
    text.push_str(term_text(alloc, &data.signature, sides.1, &equation.names)?.as_str())?;
    Ok(())
}

// Adds an equation: its place, its variables, its premises and its sides.
fn put_equation(
    alloc: Global,
    text: &mut String,
    data: &DataSpec,
    equation: &Equation,
) -> Result<(), Memory> {
    let line = equation.place_line;
    let column = equation.place_column;
    text.push_str(format!(in alloc; "{line}:{column}")?.as_str())?;
    put_variables(text, &data.signature.sorts, &equation.names, &equation.vars)?;
    for premise in &equation.premises {
        put_both(alloc, text, data, equation, (&premise.0, &premise.1))?;
        text.push_str(" =>")?;
    }
    put_both(
        alloc,
        text,
        data,
        equation,
        (&equation.left, &equation.right),
    )?;
    text.push_str(";")?;
    Ok(())
}

/// The equations, without those of the library, which stand in line 0.
pub fn equations_text(alloc: Global, data: &DataSpec) -> Result<String, Memory> {
    let mut text = String::new(alloc);
    for equation in &data.equations {
        if equation.place_line > 0 {
            put_equation(alloc, &mut text, data, equation)?;
        }
    }
    Ok(text)
}

/// The sorts, the operations and the equations.
pub fn data_text(alloc: Global, data: &DataSpec) -> Result<String, Memory> {
    let mut text = String::new(alloc);
    for sort in &data.signature.sorts {
        text.push_str(sort.as_str())?;
        text.push_str(" ")?;
    }
    text.push_str("| ")?;
    for operation in &data.signature.ops {
        text.push_str(operation.name.as_str())?;
        text.push_str(" ")?;
    }
    text.push_str("| ")?;
    text.push_str(equations_text(alloc, data)?.as_str())?;
    Ok(text)
}
