// What holds of the definitions.

ghost use Rattle.type_cycles.specs.MadeFrom.{NoCycleWhereAcyclic};

/// There is a first cycle exactly where a type is made from itself, directly or through others. The function does nothing.
#[tactic(auto, using(crate::proofs::Acyclic::no_cycle_where_acyclic))]
pub fn a_cycle_is_found_where_there_is_one()
    ensures { NoCycleWhereAcyclic }
{}
