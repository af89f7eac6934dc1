// Laws of the definitions: a call does nothing, and its contract is the law.

ghost use Rattle.static_equations.specs.Laws.{PremissesAreOne, EquationsAreOne, BodiesAreOne};

/// A condition stands for one pair of terms, or has one list of refusals.
pub fn premisses_are_one()
    ensures { PremissesAreOne }
{}

/// An equation is read as one equation, or has one list of refusals.
pub fn equations_are_one()
    ensures { EquationsAreOne }
{}

/// Equations that are written one after another are read as one list of equations, with one list of refusals.
pub fn bodies_are_one()
    ensures { BodiesAreOne }
{}
