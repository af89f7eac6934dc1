// What follows from the definitions: each law is the contract of a function that does nothing.

ghost use Rattle.symbolic_actions.specs.Laws.{FieldsAreDecidedByFunctions, RulesFoldShows, ShowsAreMadeOfShows};

/// The relations of fields are decided by functions.
pub fn fields_are_decided()
    ensures { FieldsAreDecidedByFunctions }
{}

/// What an operator may do by a rule is what the rule makes of what its parts may do.
pub fn rules_fold_shows()
    ensures { RulesFoldShows }
{}

/// What an operator shows is made of what its parts show.
pub fn shows_are_made_of_shows()
    ensures { ShowsAreMadeOfShows }
{}
