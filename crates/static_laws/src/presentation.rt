// Laws of the definitions: a call does nothing, and its contract is the law.

ghost use Rattle.static_laws.specs.Presentation.{EquationsAreByRecursion, PresentationsFit, PresentationsAreNamed};

use type_names::laws::types_without_a_cycle_are_made_from_each_other;

/// The data presentation of types of which nothing is refused fits together.
pub fn presentations_fit()
    ensures { PresentationsFit }
{
    types_without_a_cycle_are_made_from_each_other();
}

/// The data presentation of types of which nothing is refused, and whose names are such as the grammar allows, has such names, and no two
/// of its sorts or of its operations share what tells them apart.
pub fn presentations_are_named()
    ensures { PresentationsAreNamed }
{
    types_without_a_cycle_are_made_from_each_other();
}

/// Where no type is made from itself, the equations of types are those that recursion on how types are made gives, and no others.
#[tactic(auto, using(crate::proofs::Recursion::equations_are_by_recursion))]
pub fn equations_are_by_recursion()
    ensures { EquationsAreByRecursion }
{}
