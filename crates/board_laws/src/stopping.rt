// What follows from the definitions: each law is the contract of a function that does nothing.

ghost use Rattle.board_laws.specs.StoppingLaws.{JobsGiveReasons};

/// Why a job has no answer that a session needs is a reason to stop in its state.
pub fn jobs_give_reasons()
    ensures { JobsGiveReasons }
{}
