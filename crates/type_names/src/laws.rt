// What holds of the definitions.

ghost use Rattle.type_names.specs.Acyclic.{CyclesAreRefused, ContentsAreMadeFromContents};

/// A cycle is refused exactly where a type is made from itself; where none is, what types have by rounds is what they are made from. The
/// function does nothing.
#[tactic(auto, using(crate::proofs::Acyclic::cycles_are_refused, crate::proofs::Acyclic::contents_are_made_from_contents))]
pub fn types_without_a_cycle_are_made_from_each_other()
    ensures refused { CyclesAreRefused }
    ensures made { ContentsAreMadeFromContents }
{}
