// Laws of the definitions: a call does nothing, and its contract is the law.

ghost use Rattle.spec_core.specs.Laws.{BooleansAreExecutable, OppositePremisesAreFull, EqualIsReflexive, EqualIsSymmetric};
ghost use Rattle.spec_core.specs.Laws.{EqualIsTransitive, EqualIsCongruent, InstancesAreEqual, EqualTermsHaveProofs, EvaluationIsSound};
ghost use Rattle.spec_core.specs.Laws.{EvaluationIsDeterministic, ConstructorsKeepValues, ConstructorTermsStay, ValuesAreGround};
ghost use Rattle.spec_core.specs.Laws.{PartsOfArgumentsAreBelow, LeftSidesAreNotBelowThemselves, UnconditionalGroupsAreFull};
ghost use Rattle.spec_core.specs.Laws.{WindowsHoldGroundTerms, WindowsAreInOrder};
ghost use Rattle.spec_core.specs.Laws.{BooleansAreClosed, HalfNegationIsPartial};

/// A ground term over the signature is provably equal to itself.
pub fn equal_is_reflexive()
    ensures { EqualIsReflexive }
{}

/// Provable equality is symmetric.
pub fn equal_is_symmetric()
    ensures { EqualIsSymmetric }
{}

/// Provable equality is transitive.
pub fn equal_is_transitive()
    ensures { EqualIsTransitive }
{}

/// An operation over equal arguments gives equal terms.
pub fn equal_is_congruent()
    ensures { EqualIsCongruent }
{}

/// The two sides of an instance of an equation are equal where the instances of its premises hold.
pub fn instances_are_equal()
    ensures { InstancesAreEqual }
{}

/// Two terms are provably equal exactly where some proof, as a tree, concludes it.
pub fn equal_terms_have_proofs()
    ensures { EqualTermsHaveProofs }
{}

/// A term has at most one value, at one number of uses, where no equation has a loose variable.
pub fn evaluation_is_deterministic()
    ensures { EvaluationIsDeterministic }
{}

/// A constructor over terms has as its value the constructor over their values, without a use of its own.
pub fn constructors_keep_values()
    ensures { ConstructorsKeepValues }
{}

/// A ground constructor term evaluates to itself without a use.
pub fn constructor_terms_stay()
    ensures { ConstructorTermsStay }
{}

/// What a ground term over executable data evaluates to is provably equal to the term.
pub fn evaluation_is_sound()
    ensures { EvaluationIsSound }
{}

/// A value has no variables.
pub fn values_are_ground()
    ensures { ValuesAreGround }
{}

/// What stands in an argument of a left side is below it.
pub fn parts_of_arguments_are_below()
    ensures { PartsOfArgumentsAreBelow }
{}

/// No left side is below itself.
pub fn left_sides_are_not_below_themselves()
    ensures { LeftSidesAreNotBelowThemselves }
{}

/// A set of lists of premises that holds the empty list is full.
pub fn unconditional_groups_are_full()
    ensures { UnconditionalGroupsAreFull }
{}

/// Each value of a window spells a ground term of the sort.
pub fn windows_hold_ground_terms()
    ensures { WindowsHoldGroundTerms }
{}

/// The values of a window are in order, and no two are equal.
pub fn windows_are_in_order()
    ensures { WindowsAreInOrder }
{}

/// Where a sort has two constants alone, a premise for each makes a group full.
pub fn opposite_premises_are_full()
    ensures { OppositePremisesAreFull }
{}

/// Truth values with their negation are executable data.
pub fn booleans_are_executable()
    ensures { BooleansAreExecutable }
{}

/// No operation of truth values with their negation is partial, so their sort isn't open.
pub fn booleans_are_closed()
    ensures { BooleansAreClosed }
{}

/// With one of its two equations the negation is partial: its sort is open, and the call that no equation matches is a value.
pub fn half_negation_is_partial()
    ensures { HalfNegationIsPartial }
{}
