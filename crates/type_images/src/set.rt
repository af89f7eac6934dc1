// Sets of equations.

ghost use Rattle.std.specs.Prelude.{◌≡◌, ◌∷◌, ◌++◌, ℕ, [], IfOk, OnOk, map, nat_eq, if◌then◌else◌};
ghost use Rattle.std.specs.List.{list_any};
ghost use Rattle.spec_core.specs.Theories.{equation_of};
ghost use Rattle.type_images.specs.Same as same;
ghost use Rattle.type_images.specs.Views.{shared_of};
ghost use Rattle.type_images.specs.Groups.{equations_of, group_at, key_of, IsGrouped};

use crate::key::key_of;
use crate::same::is_same_equation;
use crate::shared::SharedEquation;
use indexmap::IndexMap;
use spec_core::equation::Equation;
use spec_core::memory::Memory;
use std::alloc::Global;

/// Equations in the order in which they came.
#[derive(Drop)]
pub struct EquationSet {
    all: Vec<SharedEquation>,
    // by their keys
    groups: IndexMap<u64, Vec<SharedEquation>>,
}

// Whether an equation is among others.
fn is_among(all: &[SharedEquation], equation: &Equation) -> bool
    ensures { result ≡ same.is_in (map shared_of all.now) (equation_of equation.now) }
{
    match all {
        [] => false,
        [first, others @ ..] => is_same_equation(equation, first.get())
            || is_among(others, equation),
    }
}

impl EquationSet {
    /// No equations. It takes no memory.
    pub fn new(alloc: Global) -> EquationSet
        ensures none { equations_of result ≡ [] }
        ensures grouped { IsGrouped result }
    {
        EquationSet {
            all: Vec::new(alloc),
            groups: IndexMap::new(alloc),
        }
    }

    // Adds an equation to a group.
    fn add_to_group(&mut self, key: u64, equation: SharedEquation) -> Result<(), Memory>
        ensures group { OnOk result ((other : ℕ) → group_at self.new other ≡ group_at self.old other
            ++ (if nat_eq other key then shared_of equation ∷ [] else [])) }
        ensures all { equations_of self.new ≡ equations_of self.old }
    {
        self.groups.entry(key)?.or_default().push(equation)?;
        Ok(())
    }

    // Those of a group.
    fn group(&self, key: u64) -> &[SharedEquation]
        ensures { map shared_of result.now ≡ group_at self.now key }
    {
        match self.groups.get(&key) {
            None => &[],
            Some(found) => found,
        }
    }

    /// Whether an equation is there. It takes no memory.
    pub fn has(&self, equation: &Equation) -> bool
        requires { IsGrouped self.now }
        ensures { result ≡ same.is_in (equations_of self.now) (equation_of equation.now) }
    {
        is_among(self.group(key_of(equation)), equation)
    }

    // Adds an equation.
    fn push(&mut self, equation: &SharedEquation) -> Result<(), Memory>
        requires { IsGrouped self.old }
        ensures equations { OnOk result (equations_of self.new ≡ equations_of self.old ++ shared_of equation.now ∷ []) }
        ensures grouped { OnOk result (IsGrouped self.new) }
    {
        self.add_to_group(key_of(equation.get()), equation.share()?)?;
        self.all.push(equation.share()?)?;
        Ok(())
    }

    /// Adds an equation, unless it is there.
    pub fn add(&mut self, equation: &SharedEquation) -> Result<(), Memory>
        requires { IsGrouped self.old }
        ensures equations { OnOk result (equations_of self.new ≡ same.with_equation (equations_of self.old) (shared_of equation.now)) }
        ensures grouped { OnOk result (IsGrouped self.new) }
    {
        if self.has(equation.get()) {
            return Ok(());
        }
        self.push(equation)
    }

    /// The equations, in order. It takes no memory.
    pub fn into_vec(self) -> Vec<SharedEquation>
        ensures { map shared_of result.items ≡ equations_of self }
    {
        self.all
    }
}

/// Equations, as often as they are there.
pub fn grouped(alloc: Global, equations: &[SharedEquation]) -> Result<EquationSet, Memory>
    ensures equations { IfOk result (λ set. equations_of set ≡ map shared_of equations.now) }
    ensures grouped { IfOk result (λ set. IsGrouped set) }
{
    let mut set = EquationSet::new(alloc);
    for equation in equations {
        set.push(equation)?;
    }
    Ok(set)
}

/// Equations, each once: the first stands.
pub fn firsts(alloc: Global, equations: &[SharedEquation]) -> Result<EquationSet, Memory>
    ensures equations { IfOk result (λ set. equations_of set ≡ same.firsts (map shared_of equations.now)) }
    ensures grouped { IfOk result (λ set. IsGrouped set) }
{
    let mut set = EquationSet::new(alloc);
    for equation in equations {
        set.add(equation)?;
    }
    Ok(set)
}
