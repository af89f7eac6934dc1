// Laws of the definitions: a call does nothing, and its contract is the law.

ghost use Rattle.static_laws.specs.Specification.{SpecificationsAreOne, AnswersAreOne, CompiledIsReady};

/// A specification over its data comes to one program, or to none, and has one list of refusals.
pub fn specifications_are_one()
    ensures { SpecificationsAreOne }
{}

/// A specification over its data is compiled to one program, or one refusal of it is the first, and never both.
pub fn answers_are_one()
    ensures { AnswersAreOne }
{}

/// A specification that is accepted, over executable data, is compiled to a program that is ready to run: all that it names is there and
/// fits, and no process calls itself before any action.
pub fn compiled_is_ready()
    ensures { CompiledIsReady }
{}
