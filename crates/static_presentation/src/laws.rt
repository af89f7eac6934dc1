// A law of the definitions: the call does nothing, and its contract is the law.

ghost use Rattle.static_presentation.specs.Laws.{OwnEquationsAreOne};

/// Types have one list each of own equations, and one list of refusals of them.
pub fn own_equations_are_one()
    ensures { OwnEquationsAreOne }
{}
