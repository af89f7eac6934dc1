// Laws of the definitions: a call does nothing, and its contract is the law.

ghost use Rattle.data_laws.specs.Laws.{EachGroundTermEvaluates, EachGroundTermHasOneValue, EvaluationReachesValues, EqualityIsOfValues};
ghost use Rattle.data_laws.specs.Laws.{TermsHaveOneValueAndCost, SubstitutionsGoByValues, ValuesHaveThemselves};
ghost use Rattle.data_laws.specs.Laws.{EquationSidesHaveOneValue, ConstructorTermsAreValues, ValuesOfClosedSorts};
ghost use Rattle.data_laws.specs.Laws.{CompleteWindowsHoldAllValues};

/// A ground term of executable data evaluates to exactly one value, at one number of uses.
pub fn each_ground_term_evaluates()
    ensures { EachGroundTermEvaluates }
{}

/// A ground term of executable data has exactly one value.
pub fn each_ground_term_has_one_value()
    ensures { EachGroundTermHasOneValue }
{}

/// A ground term's value is what it evaluates to.
pub fn evaluation_reaches_values()
    ensures { EvaluationReachesValues }
{}

/// Two terms are provably equal exactly where their values are the same.
pub fn equality_is_of_values()
    ensures { EqualityIsOfValues }
{}

/// A term evaluates to at most one value, at one number of uses.
pub fn terms_have_one_value_and_cost()
    ensures { TermsHaveOneValueAndCost }
{}

/// A term under a substitution has the value that it has under the substitution's values.
pub fn substitutions_go_by_values()
    ensures { SubstitutionsGoByValues }
{}

/// A value evaluates to itself.
pub fn values_have_themselves()
    ensures { ValuesHaveThemselves }
{}

/// The two sides of an equation's instance have one value where the sides of each of its premises have.
pub fn equation_sides_have_one_value()
    ensures { EquationSidesHaveOneValue }
{}

/// A ground constructor term is a value.
pub fn constructor_terms_are_values()
    ensures { ConstructorTermsAreValues }
{}

/// A value of a sort that isn't open is a ground constructor term.
pub fn values_of_closed_sorts()
    ensures { ValuesOfClosedSorts }
{}

/// A complete window of a sort holds each value of the sort.
pub fn complete_windows_hold_all_values()
    ensures { CompleteWindowsHoldAllValues }
{}
