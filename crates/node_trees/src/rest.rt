// What is left of a step of an origin.

ghost use Rattle.std.specs.Prelude.{◌≡◌, IfOk, map};
ghost use Rattle.spec_core.specs.Code.{variable_of, relabelling_of, synchronised_of};
ghost use Rattle.spec_core.specs.Numbers.{gate_number};
ghost use Rattle.node_trees.specs.Rests.{does_of, remainder_of, left_hidden, left_enabling, left_relabelled, left_beside, left_disabling};

use spec_core::code::GateSet;
use spec_core::items::{Gate, Sort};
use spec_core::memory::Memory;
use spec_core::value::Value;
use std::alloc::Global;

/// A value that is told, or the place of one among the values that the tree of rules chooses, from 0.
#[derive(Drop)]
pub enum Known {
    Told(Value),
    Chosen(u32),
}

/// An action whose values are told or chosen.
#[derive(Drop)]
pub enum Deed {
    Inner,
    Exit(Vec<Known>),
    At(Gate, Vec<Known>),
}

/// What is left of a step: operators over numbers of the code with values that are told or chosen.
pub enum Rest {
    /// `stop`, after an exit.
    Ended,
    /// The behaviour at this number of the code.
    At {
        node: u32,
        values: Vec<(u32, Known)>,
    },
    /// `hide G in B`
    Hide(Vec<Gate>, Box<Rest>),
    /// `B >> accept xs in C`, where C is the behaviour at this number of the code.
    Enable(Box<Rest>, Vec<(u32, Sort)>, u32, Vec<(u32, Known)>),
    /// B under a relabelling, tidied.
    Relabel(Vec<(Gate, Gate)>, Box<Rest>),
    /// `B |[G]| C`
    Par(GateSet, Box<Rest>, Box<Rest>),
    /// `B [> C`
    Disable(Box<Rest>, Box<Rest>),
}

// Written out, so that a function which lets a rest go has one call there.
impl Drop for Rest {
    fn drop(self) {
        match self {
            Rest::Ended => {}
            Rest::At { node: _, values: _ } => {}
            Rest::Hide(_, _) => {}
            Rest::Enable(_, _, _, _) => {}
            Rest::Relabel(_, _) => {}
            Rest::Par(_, _, _) => {}
            Rest::Disable(_, _) => {}
        }
    }
}

impl Known {
    /// An equal one.
    pub fn copy(&self, alloc: Global) -> Result<Known, Memory>
        ensures equal { IfOk result (λ k. k ≡ self.now) }
    {
        match self {
            Known::Told(value) => Ok(Known::Told(value.copy(alloc)?)),
            Known::Chosen(place) => Ok(Known::Chosen(*place)),
        }
    }
}

// Equal values.
fn copy_known(alloc: Global, values: &[Known]) -> Result<Vec<Known>, Memory>
    ensures { IfOk result (λ all. all.items ≡ values.now) }
{
    let mut all = Vec::new(alloc);
    for value in values {
        all.push(value.copy(alloc)?)?;
    }
    Ok(all)
}

// Equal values for variables.
fn copy_bound(alloc: Global, values: &[(u32, Known)]) -> Result<Vec<(u32, Known)>, Memory>
    ensures { IfOk result (λ all. all.items ≡ values.now) }
{
    let mut all = Vec::new(alloc);
    for pair in values {
        let (x, value) = pair;
        all.push((*x, value.copy(alloc)?))?;
    }
    Ok(all)
}

impl Deed {
    /// An equal action.
    pub fn copy(&self, alloc: Global) -> Result<Deed, Memory>
        ensures equal { IfOk result (λ d. does_of d ≡ does_of self.now) }
    {
        match self {
            Deed::Inner => Ok(Deed::Inner),
            Deed::Exit(values) => Ok(Deed::Exit(copy_known(alloc, values)?)),
            Deed::At(gate, values) => Ok(Deed::At(*gate, copy_known(alloc, values)?)),
        }
    }
}

impl Rest {
    /// What is left, with these gates hidden.
    pub fn hide(alloc: Global, gates: Vec<Gate>, rest: Rest) -> Result<Rest, Memory>
        ensures made { IfOk result (λ r. remainder_of r ≡ left_hidden (map gate_number gates.items) (remainder_of rest)) }
    {
        let rest = Box::new(alloc, rest)?;
        Ok(Rest::Hide(gates, rest))
    }

    /// What is left, and after its termination the behaviour at a number of the code.
    pub fn enable(
        alloc: Global,
        rest: Rest,
        vars: Vec<(u32, Sort)>,
        right: u32,
        values: Vec<(u32, Known)>,
    ) -> Result<Rest, Memory>
        ensures made { IfOk result (λ r.
            remainder_of r ≡ left_enabling (remainder_of rest) (map variable_of vars.items) right values.items) }
    {
        let rest = Box::new(alloc, rest)?;
        Ok(Rest::Enable(rest, vars, right, values))
    }

    /// What is left, under a relabelling.
    pub fn relabel(alloc: Global, pairs: Vec<(Gate, Gate)>, rest: Rest) -> Result<Rest, Memory>
        ensures made { IfOk result (λ r. remainder_of r ≡ left_relabelled (map relabelling_of pairs.items) (remainder_of rest)) }
    {
        let rest = Box::new(alloc, rest)?;
        Ok(Rest::Relabel(pairs, rest))
    }

    /// What is left on two sides, synchronised at these gates.
    pub fn parallel(alloc: Global, gates: GateSet, left: Rest, right: Rest) -> Result<Rest, Memory>
        ensures made { IfOk result (λ r.
            remainder_of r ≡ left_beside (synchronised_of gates) (remainder_of left) (remainder_of right)) }
    {
        let left = Box::new(alloc, left)?;
        let right = Box::new(alloc, right)?;
        Ok(Rest::Par(gates, left, right))
    }

    /// What is left, which the other may disable.
    pub fn disable(alloc: Global, left: Rest, right: Rest) -> Result<Rest, Memory>
        ensures made { IfOk result (λ r. remainder_of r ≡ left_disabling (remainder_of left) (remainder_of right)) }
    {
        let left = Box::new(alloc, left)?;
        let right = Box::new(alloc, right)?;
        Ok(Rest::Disable(left, right))
    }

    /// An equal one.
    pub fn copy(&self, alloc: Global) -> Result<Rest, Memory>
        ensures equal { IfOk result (λ r. remainder_of r ≡ remainder_of self.now) }
    {
        match self {
            Rest::Ended => Ok(Rest::Ended),
            Rest::At { node, values } => {
                let values = copy_bound(alloc, values)?;
                Ok(Rest::At {
                    node: *node,
                    values,
                })
            }
            Rest::Hide(gates, rest) => {
                let rest = rest.copy(alloc)?;
                Rest::hide(alloc, Vec::from_slice(alloc, gates)?, rest)
            }
            Rest::Enable(rest, vars, right, values) => {
                let rest = rest.copy(alloc)?;
                let vars = Vec::from_slice(alloc, vars)?;
                let values = copy_bound(alloc, values)?;
                Rest::enable(alloc, rest, vars, *right, values)
            }
            Rest::Relabel(pairs, rest) => {
                let rest = rest.copy(alloc)?;
                Rest::relabel(alloc, Vec::from_slice(alloc, pairs)?, rest)
            }
            Rest::Par(gates, left, right) => {
                let left = left.copy(alloc)?;
                let right = right.copy(alloc)?;
                Rest::parallel(alloc, gates.copy(alloc)?, left, right)
            }
            Rest::Disable(left, right) => {
                let left = left.copy(alloc)?;
                let right = right.copy(alloc)?;
                Rest::disable(alloc, left, right)
            }
        }
    }
}
