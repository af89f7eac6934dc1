// What follows from the definitions: each law is the contract of a function that does nothing.

ghost use Rattle.symbolic_composites.specs.TestableLaws.{TreesShowOneAction, SeenCanBeTested};

/// By one tree a behaviour may do an action of one kind with one list of fields.
pub fn trees_show_one_action()
    ensures { TreesShowOneAction }
{}

/// Some test says which trees are seen.
pub fn seen_can_be_tested()
    ensures { SeenCanBeTested }
{}
