// What follows from the definitions: each law is the contract of a function that does nothing.

ghost use Rattle.symbolic_reach.specs.Examples.{SpreadsAreAsWorked};
ghost use Rattle.symbolic_reach.specs.Laws.{ReachedOfOrigins, SpreadOfOrigins};

/// What is reached of a behaviour with terms put in is what is reached of the code with these terms for its variables.
pub fn reached_of_origins()
    ensures { ReachedOfOrigins }
{}

/// The spread of a behaviour with terms put in is that of the code with these terms for its variables.
pub fn spread_of_origins()
    ensures { SpreadOfOrigins }
{}

/// Worked spreads.
pub fn spreads_are_as_worked()
    ensures { SpreadsAreAsWorked }
{}
