// Laws of equations that are apart: a call does nothing, and its contract is the law.

ghost use Rattle.equation_overlaps.specs.Laws.{BeingApartIsSymmetric, CommonInstancesAreInstances, CommonInstancesAreMostGeneral};

/// Being apart is symmetric, for left-linear equations without loose variables.
pub fn being_apart_is_symmetric()
    ensures { BeingApartIsSymmetric }
{}

/// The common instance of two linear terms that meet is an instance of each.
pub fn common_instances_are_instances()
    ensures { CommonInstancesAreInstances }
{}

/// What is of the shape of two terms is of the shape of their common instance.
pub fn common_instances_are_most_general()
    ensures { CommonInstancesAreMostGeneral }
{}
