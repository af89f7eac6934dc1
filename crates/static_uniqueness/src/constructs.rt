// Laws of the definitions: a call does nothing, and its contract is the law.

ghost use Rattle.static_uniqueness.specs.Constructs.{SameIsRead};

/// Constructs that are alike are read alike: as the same, with the same refusals.
#[tactic(auto, using(crate::proofs::Readings::same_is_read))]
pub fn the_same_is_read()
    ensures { SameIsRead }
{}
