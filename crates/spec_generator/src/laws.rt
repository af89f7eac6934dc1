// What the definitions say of some sizes and seeds.

ghost use Rattle.spec_generator.specs.Examples.{AreAsWritten};

/// Some of the texts, written out.
#[tactic(auto, using(crate::proofs::Examples::are_as_written))]
pub fn texts_are_as_written()
    ensures { AreAsWritten }
{}
