// What follows from the definitions: each law is the contract of a function that does nothing.

ghost use Rattle.tree_laws.specs.Drawing.{DrawnTreesDiffer, ListedTreesDiffer};

/// The list of the trees that a query asks for holds no tree twice.
pub fn listed_trees_differ()
    ensures { ListedTreesDiffer }
{}

/// Nor does the list of unseen trees among which the seed draws.
pub fn drawn_trees_differ()
    ensures { DrawnTreesDiffer }
{}
