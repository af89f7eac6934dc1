// Equations, and data: a signature with equations over it.

ghost use Rattle.std.specs.Prelude.{◌≡◌, IfOk, map};
ghost use Rattle.spec_core.specs.Theories.{premise_of, equation_of, theory_of};

use crate::items::Sort;
use crate::memory::Memory;
use crate::name::Name;
use crate::names::copy_names;
use crate::signature::Signature;
use crate::term::Term;
use std::alloc::Global;

/// An equation `left = right`, or `premises => left = right`. A variable's number is its place in `vars`.
#[derive(Drop)]
pub struct Equation {
    /// The line of the equation, from 1; 0 in the library's text.
    pub place_line: u32,
    /// The column of the equation in bytes, from 1.
    pub place_column: u32,
    /// The sorts of the variables.
    pub vars: Vec<Sort>,
    /// The names of the variables.
    pub names: Vec<Name>,
    /// The pairs of terms that are to be equal.
    pub premises: Vec<(Term, Term)>,
    pub left: Term,
    pub right: Term,
}

/// Data types: a signature, and the equations over it in the order of their numbers.
#[derive(Drop)]
pub struct DataSpec {
    pub signature: Signature,
    pub equations: Vec<Equation>,
}

impl Equation {
    /// An equal equation.
    pub fn copy(&self, alloc: Global) -> Result<Equation, Memory>
        ensures equal { IfOk result (λ e. equation_of e ≡ equation_of self.now) }
    {
        Ok(Equation {
            place_line: self.place_line,
            place_column: self.place_column,
            vars: Vec::from_slice(alloc, &self.vars)?,
            names: copy_names(alloc, &self.names)?,
            premises: copy_premises(alloc, &self.premises)?,
            left: self.left.copy(alloc)?,
            right: self.right.copy(alloc)?,
        })
    }
}

impl DataSpec {
    /// Equal data.
    pub fn copy(&self, alloc: Global) -> Result<DataSpec, Memory>
        ensures equal { IfOk result (λ d. theory_of d ≡ theory_of self.now) }
    {
        Ok(DataSpec {
            signature: self.signature.copy(alloc)?,
            equations: copy_equations(alloc, &self.equations)?,
        })
    }
}

// Equal premises.
fn copy_premises(alloc: Global, premises: &[(Term, Term)]) -> Result<Vec<(Term, Term)>, Memory>
    ensures { IfOk result (λ all. map premise_of all.items ≡ map premise_of premises.now) }
{
    let mut all = Vec::new(alloc);
    for premise in premises {
        all.push((premise.0.copy(alloc)?, premise.1.copy(alloc)?))?;
    }
    Ok(all)
}

// Equal equations.
fn copy_equations(alloc: Global, equations: &[Equation]) -> Result<Vec<Equation>, Memory>
    ensures { IfOk result (λ all. map equation_of all.items ≡ map equation_of equations.now) }
{
    let mut all = Vec::new(alloc);
    for equation in equations {
        all.push(equation.copy(alloc)?)?;
    }
    Ok(all)
}
