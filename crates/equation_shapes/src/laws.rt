// Laws of shapes: a call does nothing, and its contract is the law.

ghost use Rattle.equation_shapes.specs.Laws.{TermsOfAShapeAreInstances, ShapesOfOneTermMeet, LinearTermsThatMeetHaveCommonInstances};

/// The terms of a linear term's shape are its instances.
pub fn terms_of_a_shape_are_instances()
    ensures { TermsOfAShapeAreInstances }
{}

/// Two shapes of one term meet.
pub fn shapes_of_one_term_meet()
    ensures { ShapesOfOneTermMeet }
{}

/// Two linear terms, their variables kept apart, have a common instance exactly where they meet.
pub fn linear_terms_that_meet_have_common_instances()
    ensures { LinearTermsThatMeetHaveCommonInstances }
{}
