// What follows from the definitions.

ghost use Rattle.trace_text.specs.Laws.{GreatestFront, OneTrace};

/// A text is the trace of one log and one end at most, in one format, where the number in each reply is the number of actions before it.
#[tactic(auto, using(crate::proofs::OneFormat::one_trace))]
pub fn one_trace()
    ensures { OneTrace }
{}

/// The number of bytes by which a tree shares the front of the one before it is the greatest.
#[tactic(auto, using(crate::proofs::Fronts::greatest_front))]
pub fn greatest_front()
    ensures { GreatestFront }
{}
