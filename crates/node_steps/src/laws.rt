// What follows from the definitions: the law is the contract of a function that does nothing.

ghost use Rattle.node_steps.specs.Laws.{TreesFillBlanks};

/// Each tree of a plan that chooses values alone is the plan's tree with these values in its blanks.
#[tactic(auto, using(crate::proofs::Filling::trees_fill_blanks))]
pub fn trees_fill_blanks()
    ensures { TreesFillBlanks }
{}
